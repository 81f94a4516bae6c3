//! Trees of sources, and the grammar that they are of.
#![tactic(auto)]

mod lexeme;
mod tree;

pub use lexeme::{Choice, Lexeme};
pub use tree::{
    BinarySign, CompareSign, Comparison, DeclWord, Declaration, Name, Named, Operand, Other, Part,
    Step, Tree,
};
