//! Where each read of a nest has its values from, at any size of the nest (Feautrier 1991).
//!
//! Between two calls, or from one step of the main loop to the next: the dependences so far are of the first reads,
//! each with its tree where it has one.
#![tactic(auto)]

mod origins;

pub use origins::{all_have_trees, dependences};
