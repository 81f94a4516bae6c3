//! From tokens to their tree: the grammar both ways.
//!
//! An arm that refuses hands what it owns to `drop`. What is let go of at the end of an arm instead is taken apart in that
//! function's own proof, variant by variant and field by field, which for trees took many times as long as all else in it.
//!
//! Between two calls, or from one step of the main loop to the next: the state is that after the tokens so far, and
//! every state can be completed to a source.
#![tactic(auto)]

mod declaration;
mod expression;
mod law;
mod lexeme;
mod parser;
mod place;
mod source;
mod statement;

pub use law::{one_place, one_tree};
pub use parser::{ParseError, parse};
