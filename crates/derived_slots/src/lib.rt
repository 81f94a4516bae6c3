//! The slots of a nest's network: no two channels of a process are got into one. Nothing here runs: each contract is a law over the
//! definitions.
#![tactic(auto)]

mod laws;

pub use laws::slots_lie_apart;
