//! The lines that the checker's answers are told by.
//!
//! Between two calls, or from one step of the main loop to the next: the writer was given a front of the line.
#![tactic(auto)]

mod writing;

pub use writing::{write_unread, write_verdict};
