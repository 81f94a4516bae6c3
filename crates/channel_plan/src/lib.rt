//! The channels of a nest: one for each reader, read and writer of which some point is the source of that read, with the
//! tokens that it carries, its class, and the slots in which its reader keeps them.
//!
//! Between two calls, or from one step of the main loop to the next: the marks are those of the sources passed so far.
#![tactic(auto)]

mod law;
mod plans;
mod read;
mod slots;
mod token_marks;
mod tokens;
mod writers;

pub use law::one_slot_in_order;
pub use plans::{ChannelPlan, channel_plans, turn_counts};
pub use token_marks::TokenMarks;
