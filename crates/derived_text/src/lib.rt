//! What the text of a nest's network says of a process is what the nest says, and what it says of a channel is what the
//! channel's plan says.
//!
//! Between two calls, or from one step of the main loop to the next: each slot of a channel is one that some Get names.
#![tactic(auto)]

mod law;

pub use law::{other_capacities_tell_the_plans, text_tells_the_plans};
