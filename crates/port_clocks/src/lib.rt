//! The run by one clock of a network whose ports go each at its own pace. Nothing here runs: each contract is a law over the
//! definitions.
#![tactic(auto)]

mod laws;

pub use laws::{port_clocks_compute, port_clocks_end};
