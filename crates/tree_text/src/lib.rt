//! The texts of trees with their proofs.
//!
//! Between two calls, or from one step of the main loop to the next: written: a front of the text; read: the levels
//! that are left, and the number of the next line.
#![tactic(auto)]

mod law;
mod lines;
mod reading;
mod writing;

pub use law::reads_what_is_written;
pub use reading::read_tree;
pub use writing::{write_divides, write_place, write_test, write_tree};
