//! The walk over a nest: its size and its trace.
//!
//! Between two calls, or from one step of the main loop to the next: what a walk has given and what it has left are the
//! trace.
#![tactic(auto)]

mod bounds;
mod count;
mod parts;
mod process_points;
mod run;
mod vector;
mod walk;

pub use bounds::{loop_range, rows_hold};
pub use count::{SizeError, size};
pub use parts::only_assignment;
pub use process_points::points;
pub use vector::LoopValues;
pub use walk::Walk;
