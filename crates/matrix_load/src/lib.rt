//! The product of two matrices, which the program runs as its load: its nest, its inputs, and the summary of its run.
#![tactic(auto)]

mod cells;
mod product;
mod summary;

pub use cells::matrix_inputs;
pub use product::matrix_nest;
pub use summary::{Summary, wrapping_sum, write_summary};
