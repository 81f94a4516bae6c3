//! The VHDL text of a whole design: the channel, for each process a node whose control is a sequencer with repeat counters, and
//! the network that joins them, with ports by the names of the arrays.
//!
//! Between two calls: the writer was given a front of the text.
#![tactic(auto)]

mod laws;
mod network;
mod text;

pub use laws::{
    designs_run_by_clock, network_ports_differ, node_ports_are_joined_in_order,
    short_scripts_have_short_sequencers, units_make_a_design,
};
pub use network::{write_body, write_channel, write_entity};
pub use text::write_rtl;
