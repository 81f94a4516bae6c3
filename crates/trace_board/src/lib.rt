//! Workers over one locked board: a network, a state of its machine, and the history that led there.
//!
//! Between two calls, or from one step of the main loop to the next: the history is a run of the board's network from
//! its start, and the state is where it leads.
#![tactic(auto)]

mod board;
mod lanes;
mod workers;

pub use board::Board;
pub use lanes::Advance;
pub use workers::run_board;
