//! The last writer of each read, found in one walk over the trace with a shadow of the memory.
//!
//! Between two calls, or from one step of the main loop to the next: after t entries the shadow has for each cell the
//! tag of its last writer among them, and the lists have those entries' sources; the lines that are kept of a statement
//! are those of its accesses.
#![tactic(auto)]

mod along;
mod entry;
mod sources;
mod state;
mod stretch;

pub use sources::{CountedSources, sweep, sweep_counted};
