//! The text that tells where each read of a nest has its values from (Feautrier 1991), and what is swept of the nest for it.
//!
//! Between two calls, or from one step of the main loop to the next: the writer was given a front of the text.
#![tactic(auto)]

mod dependence;
mod law;
mod points;
mod swept;
mod tree;
mod writing;

pub use dependence::Dependence;
pub use law::dependences_can_be_told;
pub use swept::{Swept, sweep_nest};
pub use writing::write_deps;
