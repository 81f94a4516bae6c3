//! What one process of a network does, over its ends.
//!
//! A process makes the events of its script in order: it gets from its ends, fires and puts to them. What it keeps and what
//! it puts follow from the streams of its channels alone, whatever the order of events between the processes.
//!
//! Between two calls, or from one step of the main loop to the next: after k events the ends have moved by the Gets and
//! Puts among them, and the room holds the values of what it names and has the other events left.
#![tactic(auto)]

mod logged;
mod node;

pub use logged::LogEnds;
pub use node::run_node;
