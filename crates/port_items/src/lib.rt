//! The items of a process's ports: its script, as each end of a channel sees it. A Get port sees the Gets of its channel and
//! all Fires, a Put port all Fires and the Puts of its channel, and the process itself the Fires.
//!
//! Between two calls, or from one step of a walk to the next: the items that are made, with those of what is left, are those
//! of the script.
#![tactic(auto)]

mod items;
mod laws;

pub use items::{GetItem, GetPort, PutItem, fires_of, get_port, put_port};
