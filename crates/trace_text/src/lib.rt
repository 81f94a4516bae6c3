//! The text of a run of a network: the number of the process of each of its events.
#![tactic(auto)]

mod writing;

pub use writing::write_trace;
