//! The last write before a read, as one tree with proofs (Feautrier 1991): the greatest points of all writers at all levels
//! of order before the read, joined by tests that compare them.
//!
//! Between two calls, or from one step of the main loop to the next: each candidate is still open, or was seen: it has
//! no point here, stands before the best, or is the best.
#![tactic(auto)]

mod candidates;
mod leaf;
mod path;
mod whole;

pub use whole::join;
