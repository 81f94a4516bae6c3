//! The network of a nest with the capacities that a schedule needs, whose reads have their values from the last writers that a
//! sweep finds.
//!
//! Between two calls, or from one step of the main loop to the next: other capacities leave shape, names and uses.
#![tactic(auto)]

mod law;
mod making;

pub use law::has_certificate;
pub use making::{NetworkPlan, SweptNetwork, compile_network, compile_with_sources, plan_network};
