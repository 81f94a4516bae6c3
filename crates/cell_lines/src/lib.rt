//! The places of a statement's accesses along a loop, which change evenly.
//!
//! Between two calls, or from one step of the main loop to the next: where the first and the last cell of an access
//! along a loop have places in rows, so have those between, each the place of the access's line.
#![tactic(auto)]

mod access_line;
mod statement_lines;

pub use access_line::{Line, place_at};
pub use statement_lines::{Lines, lines_along};
