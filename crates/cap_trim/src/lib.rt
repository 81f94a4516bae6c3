//! Least capacities of a network's channels, and where the network sticks with one place less.
//!
//! Between two calls, or from one step of the main loop to the next: the positions are those of a run with the capacity
//! that is tried, and below some process none is enabled.
#![tactic(auto)]

mod laws;
mod least_run;
mod needed_places;
mod resting;
mod trimming;

pub use laws::{comes_to_rest, ends_with_more_room, has_least_capacities};
pub use resting::rest;
pub use trimming::{Trimmed, least_capacities, trim};
