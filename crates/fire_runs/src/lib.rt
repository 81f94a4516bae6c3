//! The trace of a nest run by run: fires of one process in a row, without the points.
#![tactic(auto)]

mod runs;

pub use runs::{FireRun, trace_runs};
