//! The automaton of each process of a network: its script, its points and its statement's expression.
//!
//! Between two calls, or from one step of the main loop to the next: the automata made so far are the first of the list
//! of all.
#![tactic(auto)]

mod copy;
mod node;

pub use node::{NodeAuto, automata, automaton};
