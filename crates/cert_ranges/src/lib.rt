//! The network that a nest is compiled to has a text with each certificate of it.
//!
//! Between two calls, or from one step of the main loop to the next: a queue is never longer than its writer's script.
#![tactic(auto)]

mod law;

pub use law::certificate_has_text;
