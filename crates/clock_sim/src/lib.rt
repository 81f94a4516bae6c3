//! The clocked run of a network: one clock for all processes.
//!
//! Between two calls, or from one step of the main loop to the next: the state is that after the clocks so far, and the
//! list has the processes that are enabled in it.
#![tactic(auto)]

mod clock;
mod laws;
mod simulation;
mod sinks;

pub use laws::{clocked_run_computes, clocked_run_ends, enabled_in_turn};
pub use simulation::{Clocked, simulate};
