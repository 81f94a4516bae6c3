//! The slots in which the reader of a channel keeps tokens until their last use.
//!
//! Between two calls, or from one step of the main loop to the next: each token with a use to come is in the slot of
//! its Get.
#![tactic(auto)]

mod law;
mod reader;
mod slots;
mod tokens;

pub use law::keeps_until_used;
pub use slots::{SlotPlan, plan};
