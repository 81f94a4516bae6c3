//! The VHDL text of a whole design whose ports go each at its own pace: the channel, for each process a node with a sequencer for its
//! fires and one for each of its ports, and the network that joins them.
//!
//! Between two calls: the writer was given a front of the text.
#![tactic(auto)]

mod laws;
mod text;

pub use laws::{
    port_designs_run_by_clock, port_network_ports_differ, port_units_are_units,
    port_units_make_a_design,
};
pub use text::write_port_rtl;
