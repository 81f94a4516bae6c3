//! The program: its words, its input and its two outputs in, its status out.
//!
//! Between two calls, or from one step of the main loop to the next: nothing is written before all is decided.
#![tactic(auto)]

mod call;
mod certifying;
mod law;
mod program;
mod telling;
mod writing;

pub use call::{compaan, quiet};
pub use law::{
    calls_have_their_statuses, no_status_ends_every_call, status_is_determined,
    what_cert_writes_is_accepted, what_ends_is_a_call, what_fits_is_accepted,
};
pub use program::run_program;
