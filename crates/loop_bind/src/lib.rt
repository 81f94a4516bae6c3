//! What a tree with values for its parameters says: its arrays, its statements and loops, and the least reason that stands
//! in it.
//!
//! Between two calls, or from one step of the main loop to the next: with what was made of the tree so far goes the
//! least reason that was found in it.
#![tactic(auto)]

mod affine;
mod bounds;
mod context;
mod declare;
mod error;
mod judge;
mod law;
mod names;
mod params;
mod parts;
mod reading;
mod rows;
mod scope;
mod terminals;
mod value;

pub use error::BindError;
pub use law::adding_is_determined;
pub use params::Params;
pub use reading::{Reading, read};
pub use terminals::{push_sinks, push_sources};
