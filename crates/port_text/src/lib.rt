//! The hardware of a process whose ports go each at its own pace, and its VHDL text: a node with a sequencer for its fires, one
//! for each end of a channel, and a counter for each loop that its expression names.
//!
//! Between two calls: the writer was given a front of the text.
#![tactic(auto)]

mod node;
mod ports;
mod tables;
mod unit;

pub use node::write_port_unit;
pub use unit::{GetControl, PortUnit, PutControl, first_with_long_sequencer};
