//! What sums of affine rows show, rows as they are made, and refutations whose rows are replaced by sums of other rows.
//!
//! Between two calls, or from one step of the main loop to the next: the terms so far add up to the sum of their rows'
//! parts, each with its multiplier.
#![tactic(auto)]

mod replace;

pub use replace::{append_place, carry};
