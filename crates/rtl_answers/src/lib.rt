//! The program that writes a whole design or its clocks: its words, its input and its two outputs in, its status out.
//!
//! Between two calls, or from one step of the main loop to the next: the units made so far are those of the first processes, and
//! nothing is written before all is decided.
#![tactic(auto)]

mod answer;
mod call;
mod clocks;
mod design;
mod hardware;
mod laws;
mod networks;
mod port_answer;
mod port_laws;
mod program;

pub use answer::Answer;
pub use call::compaan_rtl;
pub use clocks::Clocks;
pub use design::Design;
pub use laws::{answered_clocks_are_those_of_designs, answered_port_clocks_end};
pub use port_answer::PortDesign;
pub use port_laws::answered_port_clocks_are_those_of_designs;
pub use program::run_design_program;
