//! The number of clocks that a network takes whose ports go each at its own pace, counted over folded scripts.
//!
//! Between two calls, or from one step of the main loop to the next: `IsAt`: of each process the window is that of its script for the
//! events that have come, and of each channel the number is that of its tokens.
#![tactic(auto)]

mod counting;
mod laws;
mod ports;
mod window;

pub use counting::clock_count;
pub use laws::sound_networks_end;
