//! Binding: a tree with values for its parameters becomes a nest, or the first reason why
//! it doesn't.
#![tactic(auto)]

mod assemble;

pub use assemble::bind;
pub use loop_bind::{BindError, Params};
