//! Process networks with bounded channels: the machine that runs them, and what holds of every order of events.
//!
//! Between two calls, or from one step of the main loop to the next: `IsFor`: each queue holds what was put and not
//! got, each process has kept one value for each fire and has left what its position says, and there is room for all
//! that is to come.
#![tactic(auto)]

mod copies;
mod event_counts;
mod firing;
mod laws;
mod machine;
mod network;
mod opening;
mod progress;
mod refs;
mod room;
mod wired_network;

pub use event_counts::{event_count, fire_count, get_count, put_count};
pub use firing::{Firing, Tags, Values};
pub use laws::{
    cuts, equal_is_same, every_order, names, sinks_keep_arrays, sound, tags_name, two_steps,
};
pub use machine::{State, enabled, ended, kept, next, position, queued, slots, step, unended};
pub use network::{Channel, Event, Network, Process};
pub use opening::start;
pub use progress::Progress;
pub use refs::{Ref, Refs};
pub use room::Room;
pub use wired_network::WiredNetwork;
