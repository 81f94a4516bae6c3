//! What the calls of the programs have in common: their words, what they read, what they tell of a refusal, and their streams.
//!
//! Between two calls, or from one step of the main loop to the next: nothing is written before all is decided.
#![tactic(auto)]

mod complaint;
mod reading;
mod words;

pub use complaint::{refusal_status, tell_stop, write_refusal};
pub use reading::{bundle_of, order_of};
pub use words::{HostStreams, Streams, host_streams, program_words};
