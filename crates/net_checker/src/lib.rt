//! The checker: whether a network and its certificate fit a nest, and what is wrong first where they don't.
//!
//! Between two calls, or from one step of the main loop to the next: the machine stands where the entries so far lead,
//! and none of them is refused. Its queues and slots take memory for what is in them.
#![tactic(auto)]

mod checker;
mod classes;
mod entries;
mod firings;
mod fitting_fires;
mod known_rows;
mod laws;
mod nest_network;
mod parts;
mod schedule;
mod shapes;
mod slots;
mod sources;
mod tag_state;
mod turn_queue;
mod verdict;

pub use checker::{check, check_folded, check_with_sources};
pub use laws::{accepts_what_fits, is_sound};
pub use verdict::{Refusal, Seen, Verdict, Wanted};
