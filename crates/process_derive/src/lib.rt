//! The process network of a nest: one process for each statement, one channel for each dependence (Compaan 2000, pn 2007).
//!
//! Between two calls, or from one step of the main loop to the next: the events so far are those of the first points,
//! and the uses of each process's tokens are counted up to the fire.
#![tactic(auto)]

mod events;
mod incoming;
mod law;
mod network;
mod process;
mod uses;

pub use events::{gets_for, is_token, number_at};
pub use incoming::slot_count;
pub use law::{few_events, few_slots, fits_nest, numbers_fit};
pub use network::{derive, derive_by_turns};
