//! The network of a nest names the last writers of what its statements read, and its channels have the classes of their uses.
//!
//! Between two calls, or from one step of the main loop to the next: before each fire the Gets of a channel are as many
//! as its uses up to that fire want, and each is into the slot of its number.
#![tactic(auto)]

mod law;

pub use law::{has_classes_of_uses, names_last_writers};
