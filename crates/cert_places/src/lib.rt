//! Where the text of a network with its certificate is refused. Nothing here runs: each contract is a law over the
//! definitions.
#![tactic(auto)]

mod exact;
mod law;

pub use exact::refusals_are_exact;
pub use law::first_lines_decide;
