//! Facts of a context: differences that Cuts of its rows add, as more rows of it. What is proved with them is proved
//! without them, by those Cuts (Chvátal 1973, Pugh 1991).
#![tactic(auto)]

mod context;
mod cuts;
mod law;
mod search;
mod sums;

pub use context::with_facts;
pub use cuts::{proof_by_cuts, proofs_by_cuts};
pub use law::proofs_hold_without_facts;
pub use search::{Facts, Tests, facts_of};
