//! The VHDL text of a sequencer with repeat counters.
//!
//! Between two calls: the writer was given a front of the text.
#![tactic(auto)]

mod sequencer;
mod tables;

pub use sequencer::{EntityName, write_name, write_sequencer};
