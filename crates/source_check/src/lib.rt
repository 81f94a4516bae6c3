//! The check of a tree: where it is accepted, the tree gives the last writer at every point of the reader.
//!
//! Between two calls, or from one step of the main loop to the next: the systems of a part of a tree follow from the
//! tests on the way to it, and its proofs are tested in their order.
#![tactic(auto)]

mod check;
mod law;
mod make;
mod path;
mod reference;
mod systems;
mod tested;
mod verdict;

pub use check::check_tree;
pub use law::checked_is_exact;
pub use verdict::{Rule, TreeVerdict};
