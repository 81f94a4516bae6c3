//! Scripts as repeat blocks: lists in which stretches that repeat are folded, with cursors over what they stand for.
//!
//! Between two calls, or from one step of the main loop to the next: what a cursor has given and what it has left are
//! the expansion; a script's repeats count at least 2 and have a body, so that it nests at most 31 deep.
#![tactic(auto)]

mod batch;
mod blocks;
mod builder;
mod chains;
mod cursor;
mod folding;
mod kinds;
mod place;
mod script;
mod search;

pub use blocks::{BlockPart, Blocks};
pub use builder::ScriptBuilder;
pub use cursor::Cursor;
pub use folding::fold;
pub use script::{Script, ScriptCursor, ScriptItems};
