//! What `check` comes to on a certificate in which another run that ends all stands as the schedule, such as one that `trace` wrote,
//! and what the capacities are worth that `trim` wrote. Nothing here runs: each contract is a law over the definitions.
#![tactic(auto)]

mod law;
mod trimmed;

pub use law::{any_full_run_is_accepted, what_trace_writes_is_accepted};
pub use trimmed::what_trim_writes_is_least;
