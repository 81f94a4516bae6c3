//! What the words of a call of the program `compaan_rtl` order.
//!
//! Between two calls, or from one step of the main loop to the next: the words passed so far were split into items, values of the
//! policy and of the ports, and the flag.
#![tactic(auto)]

mod words;

pub use words::{Order, Policy, Ports, read_words};
