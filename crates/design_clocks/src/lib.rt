//! The design of a network as registers: what its nodes and channels keep, and what each edge of the clock does to them. Nothing
//! here runs: each contract is a law over the definitions.
#![tactic(auto)]

mod laws;

pub use laws::{
    design_computes, design_runs_by_clock, design_takes_clocks, plain_sequencers_give_scripts,
    rings_hold_tokens,
};
