//! A list and a box that contracts see as what they hold, so that a tree or a record made of them is plain data:
//! two such values are equal exactly where all that they hold is. The number that decimal digits write.
//!
//! Between two calls, or from one step of the main loop to the next: what a contract sees is what they hold, without
//! capacity and place.
#![tactic(auto)]

mod boxed;
mod digits;
mod items;

pub use boxed::Boxed;
pub use digits::capped_number;
pub use items::Items;
