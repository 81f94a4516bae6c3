//! The text of a network's least capacities.
//!
//! Between two calls, or from one step of the main loop to the next: the writer was given a front of the text.
#![tactic(auto)]

mod writing;

pub use writing::write_trim;
