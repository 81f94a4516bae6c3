//! Where a read has its value from at each point of its statement, as one tree with proofs (Feautrier 1991), for the reads
//! whose array is written by differences or with strides.
//!
//! Between two calls, or from one step of the main loop to the next: below the answers so far the context has just
//! their rows behind the reader's, and a writer of whose tests one says no has no write there.
#![tactic(auto)]

mod class;
mod source;
mod writers;

pub use class::in_difference_class;
pub use source::source_of;
pub use writers::write_to;
