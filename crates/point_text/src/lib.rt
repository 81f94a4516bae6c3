//! The texts of points: loop values in parentheses, and the number of a statement before them.
//!
//! Between two calls, or from one step of the main loop to the next: the writer was given a front of the text.
#![tactic(auto)]

mod writing;

pub use writing::{write_point, write_vector};
