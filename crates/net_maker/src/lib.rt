//! The network of a nest with the capacities that a schedule needs, and a certificate of it with trees for the reads of the
//! difference class.
//!
//! Between two calls, or from one step of the main loop to the next: each origin so far may stand for its read.
#![tactic(auto)]

mod making;
mod origins;
mod ranges;

pub use making::compile;
