use std::alloc::AllocFailed;
use thiserror::Error;

/// The greatest number that a source can write.
pub const MAX_NUMBER: u64 = 9223372036854775807;

/// The tokens that a source can have.
pub const MAX_TOKENS: usize = 8192;

/// The kinds of token.
#[derive(Clone, Copy, Debug, PartialEq, Eq)]
pub enum TokenKind {
    /// An ASCII letter or `_`, then letters, digits and `_`; not a reserved word.
    Name,
    /// Decimal digits, with a value of at most 9223372036854775807.
    Number,
    /// `param`, `in`, `out`, `inout`, `var`, `int`, `for`, `if`, `else`, `min` or `max`.
    Reserved,
    /// One of `( ) [ ] { } ; , = < <= > >= == + ++ += - * &&`.
    Sign,
}

/// A token: the bytes from `start` up to and without `end`.
#[derive(Clone, Copy, Debug, PartialEq, Eq)]
pub struct Token {
    pub kind: TokenKind,
    pub start: u32,
    pub end: u32,
}

/// Why bytes have no tokens. Each place is that of a byte, counted from 0.
/// The first place decides, and at one place the variant that is listed first.
#[derive(Clone, Copy, Debug, PartialEq, Eq, Error)]
pub enum LexError {
    /// The byte there begins no token, space or comment.
    #[error("the byte at {0} begins no token")]
    BadByte(u32),
    /// The comment that begins there has no end.
    #[error("the comment that begins at byte {0} has no end")]
    OpenComment(u32),
    /// The number that begins there passes 9223372036854775807.
    #[error("the number that begins at byte {0} passes {max}", max = MAX_NUMBER)]
    LargeNumber(u32),
    /// The 8,193rd token begins there.
    #[error("more than {max} tokens: the next begins at byte {0}", max = MAX_TOKENS)]
    TooMany(u32),
    /// Want of memory.
    #[error("no memory")]
    Memory,
}

impl<T: Drop> From<AllocFailed<T>> for LexError {
    ghost use Rattle.std.specs.Prelude.{◌≡◌};
    ghost use Rattle.loop_lex.specs.declared.token.LexError.TheVariants.{Memory};

    ghost from_gives = { λ _ error. error ≡ Memory };

    fn from(_failed: AllocFailed<T>) -> LexError {
        LexError::Memory
    }
}
