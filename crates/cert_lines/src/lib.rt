//! The lines of a certificate's text, their words and numbers, and what refuses them.
//!
//! Between two calls, or from one step of the main loop to the next: read: what is left of the text, and the number of
//! the next line; of one line wrong words are told before numbers out of range.
#![tactic(auto)]

mod error;
mod lines;
mod words;

pub use error::{CertError, Fault};
pub use lines::{Lines, NESTING_LIMIT, expect_text};
pub use words::{Words, both, integer, number};
