//! Texts of trees: a source that has a given tree.
//!
//! Between two calls, or from one step of the main loop to the next: the words written so far derive what was written
//! so far.
#![tactic(auto)]

mod printer;
mod readable;

pub use readable::print;
