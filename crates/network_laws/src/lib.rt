//! What a designer of hardware asks of a proved network next: how fast it runs, what stalls and greater capacities do to it, how
//! small these can be, and which runs may stand as its schedule. Nothing here runs: each contract is a law over the definitions.
#![tactic(auto)]

mod capacities;
mod clocks;
mod designs;
mod schedules;
mod slots;

pub use capacities::{
    capacities_have_lower_bounds, least_capacities_are_minimal, minimal_capacities_keep_the_clocks,
};
pub use clocks::{clocked_run_is_fastest, greater_capacities_are_never_slower, stalls_do_no_harm};
pub use designs::stalled_designs_compute;
pub use schedules::{
    any_full_run_has_a_text, any_full_run_is_a_schedule, trimmed_network_is_sound,
};
pub use slots::hold_is_least;
