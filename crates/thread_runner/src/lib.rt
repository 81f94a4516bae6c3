//! The run of a network by one thread for each process.
//!
//! Between two calls, or from one step of the main loop to the next: the rooms that have come back, of threads that
//! ran, have kept their points' values.
#![tactic(auto)]

mod bench;
mod ends;
mod run;
mod workers;

pub use bench::Bench;
pub use ends::{NodeEnds, make_ends};
pub use run::run_threads;
