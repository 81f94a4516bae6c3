//! What the words of a call order.
//!
//! Between two calls, or from one step of the main loop to the next: the words passed so far were split as `clap`
//! splits them.
#![tactic(auto)]

mod words;

pub use words::{Command, Order, WordsError, params_of, read_words};
