//! Process networks whose ports go each at its own pace: between two fires of a process the Gets and Puts of its channels come in
//! any order. Nothing here runs: each contract is a law over the definitions.
#![tactic(auto)]

mod laws;

pub use laws::{port_runs_compute, port_runs_end, port_runs_name};
