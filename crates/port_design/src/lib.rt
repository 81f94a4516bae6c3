//! The design of a network whose ports go each at its own pace, as registers: what its processes, ports and channels keep, and
//! what each edge of the clock does to them. Nothing here runs: each contract is a law over the definitions.
#![tactic(auto)]

mod laws;

pub use laws::{
    port_design_computes, port_design_runs_by_clock, port_design_takes_clocks,
    port_rings_hold_tokens,
};
