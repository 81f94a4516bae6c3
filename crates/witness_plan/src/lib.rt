//! Schedules of the networks that nests give, the capacities that they need, and runs along a schedule.
//!
//! Between two calls, or from one step of the main loop to the next: positions, Puts, Gets and greatest lengths are
//! those along the schedule so far.
#![tactic(auto)]

mod effects;
mod laws;
mod points;
mod queues;
mod recorder;
mod running;
mod schedules;

pub use laws::{goes_downward, other_capacities, schedule_runs};
pub use running::run_by;
pub use schedules::{Policy, Witness, plan, plan_for, with_capacities};
