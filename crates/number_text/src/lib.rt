//! The text of a network by its numbers, where there is no network.
//!
//! Between two calls, or from one step of the main loop to the next: the writer was given a front of the text.
#![tactic(auto)]

mod law;
mod numbers;
mod writing;

pub use law::text_tells_numbers;
pub use numbers::NetworkNumbers;
pub use writing::write_numbers;
