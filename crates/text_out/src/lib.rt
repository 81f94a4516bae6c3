//! Texts, written piece by piece. What a call wrote is one clause, `Wrote`, and the writer keeps to itself what became of
//! the sink, until `finish` tells it.
//!
//! Between two calls, or from one step of the main loop to the next: as long as no write failed, the sink has gained
//! the text but what waits; after one that failed, a front of it, and it is left as it is.
#![tactic(auto)]

mod past;
mod waiting;
mod words;
mod writer;

pub use words::{Word, write_line, write_number, write_spaced, write_word, write_words};
pub use writer::{TextWriter, Writer};
