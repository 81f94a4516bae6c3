use crate::tree::{CompareSign, DeclWord};
use plain_data::Items;

/// `min` or `max`.
#[derive(Clone, Copy)]
pub enum Choice {
    Min,
    Max,
}

/// What a token is to the grammar: each word and sign for itself, a name with its text, a number with its value.
#[derive(Drop)]
pub enum Lexeme {
    Name(Items<u8>),
    Number(i64),
    /// `param`, `in`, `out`, `inout` or `var`.
    Declare(DeclWord),
    Int,
    For,
    If,
    Else,
    Choice(Choice),
    Open,
    Close,
    OpenSquare,
    CloseSquare,
    OpenCurly,
    CloseCurly,
    Semi,
    Comma,
    Assign,
    Compare(CompareSign),
    Plus,
    Minus,
    Times,
    Increment,
    /// `+=`.
    AddAssign,
    And,
    /// What no token of a source is.
    Other,
}
