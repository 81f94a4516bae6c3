//! The cells of a nest's arrays: what is kept of each, in rows as long as there is room.
//!
//! Between two calls, or from one step of the main loop to the next: a cell that has a place in rows is kept there or
//! in the map, and never read from both.
#![tactic(auto)]

mod cells;
mod narrow_access;
mod narrow_form;
mod places;
mod small_values;

pub use cells::Cells;
pub use narrow_access::{NarrowAccess, NarrowStatement, narrow_statements};
pub use small_values::{are_small, is_small};
