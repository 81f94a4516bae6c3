//! The numbers that the text of a nest's network tells, with the capacities that the sequential schedule needs. They are taken
//! from the plans of the channels and from the runs of the trace: no event, no script and no schedule is made.
//!
//! Between two calls, or from one step of the main loop to the next: each channel's queue has counted how many turns of its
//! writer the uses of the entries that are gone want, and the greatest length at the ends of those entries.
#![tactic(auto)]

mod entry;
mod lengths;
mod links;
mod numbers;
mod queues;
mod totals;

pub use numbers::sequential_numbers;
