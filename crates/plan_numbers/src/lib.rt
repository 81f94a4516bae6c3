//! The numbers of a nest's channels: those of `channel_plan`'s plans, without the tables of slots.
//!
//! Between two calls, or from one step of the main loop to the next: the marks, the class and the lists of turns are those of
//! the sources passed so far.
#![tactic(auto)]

mod numbers;
mod read;
mod slots;
mod tokens;
mod turns;

pub use numbers::{PlanNumbers, numbers_of_plans};
