//! Sequencers with repeat counters: a script as instructions with the repeats that end behind each, as many as the script
//! has items as it is kept, however often these repeat.
//!
//! Between two calls: the instructions made so far are the first of all.
#![tactic(auto)]

mod laws;
mod sequencer;

pub use laws::{one_round, rounds, size};
pub use sequencer::{Instruction, RepeatEnd, Sequencer};
