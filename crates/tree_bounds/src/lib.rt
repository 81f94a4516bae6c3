//! Whether a tree can leave the machine's numbers.
#![tactic(auto)]

mod forms;
mod trees;

pub use trees::stays_within;
