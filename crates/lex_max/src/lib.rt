//! The greatest point of one writer at one level of order that writes the cell of a read before it, as a tree with proofs
//! (Feautrier 1991): least sums of differences over symbolic constants, with tests between the forms that bound a loop.
//!
//! Large values are handed to `drop`, and live in few functions each. What is let go of at the end of an arm, or on the error
//! path of a `?`, is taken apart in that function's own proof, field by field, which took most of the time of the longest ones.
//!
//! Between two calls, or from one step of the main loop to the next: the rows of the context so far show what the tests on
//! the way to it asked.
#![tactic(auto)]

mod decide;
mod greatest;
mod leaf;
mod zeros;

pub use greatest::{candidate, tree_of, writes_of};
