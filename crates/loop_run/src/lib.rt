//! The interpreter of a nest: the arrays that it computes.
//!
//! Between two calls, or from one step of the main loop to the next: the kept values are the memory after the
//! statements so far.
#![tactic(auto)]

mod along;
mod execute;
mod outputs;
mod run;

pub use run::interpret;
