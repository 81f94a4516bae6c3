//! The hardware of a process, and its VHDL text: a node whose control is a sequencer with repeat counters, and a counter for
//! each loop that its expression names.
//!
//! Between two calls: the writer was given a front of the text.
#![tactic(auto)]

mod events;
mod laws;
mod node;
mod unit;

pub use laws::{
    controls_give_scripts, counters_give_loop_values, sequencers_are_no_longer_than_what_they_give,
};
pub use node::{LoopPart, RolePart, role_part, write_entity, write_loops, write_unit};
pub use unit::{
    HasUnit, LoopCounter, MOST_INSTRUCTIONS, Unit, first_with_long_sequencer, longest_of,
    sequencer_of,
};
