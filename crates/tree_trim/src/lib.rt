//! Trees without the Tests whose rows no proof has a use for: a branch none of whose proofs names the Test's row stands in
//! the place of the Test, since its proofs hold without that row.
#![tactic(auto)]

mod branch;
mod parts;
mod refutation;
mod renumbering;

pub use branch::{branch_without, tree_names_row, tree_without, trim_test};
pub use refutation::names_row;
pub use renumbering::{Renumbering, renumbered};
