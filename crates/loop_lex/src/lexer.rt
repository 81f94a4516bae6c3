//! The lexer: it goes from one input element to the next.

ghost use Rattle.std.specs.Prelude.{◌≡◌, ◌^◌, ◌<◌, ◌≤◌, ◌+◌, ◌-◌, [], ◌∷◌, ◌++◌, length, take, drop, Ok, Err};
ghost use Rattle.plain_data.specs.Answers.{IsUnlessMemory};
ghost use Rattle.loop_lex.specs.Tokens.{answer_of, tokens};

use crate::scan::{Front, front_of};
use crate::slice::is_large_number;
use crate::token::{LexError, MAX_TOKENS, Token};
use std::alloc::Global;

/// The tokens of a source, in order: at each place the longest, with white space and comments dropped.
/// Otherwise the first place that is refused, and there the reason that `LexError` lists first.
pub fn lex(alloc: Global, bytes: &[u8]) -> Result<Vec<Token>, LexError>
    requires { length bytes.now < 2 ^ 32 }
    ensures { IsUnlessMemory LexError.Memory (answer_of result) (tokens bytes.now) }
{
    let mut found = Vec::new(alloc);
    let mut at: usize = 0;
    while at < bytes.len() {
        let (_, rest) = bytes.split_at(at);
        match front_of(rest) {
            Front::Separator(length) => at += length,
            Front::Token(kind, length) => {
                let (text, _) = rest.split_at(length);
                if is_large_number(kind, text) {
                    return Err(LexError::LargeNumber(at as u32));
                }
                if found.len() >= MAX_TOKENS {
                    return Err(LexError::TooMany(at as u32));
                }
                found.push(Token {
                    kind,
                    start: at as u32,
                    end: (at + length) as u32,
                })?;
                at += length;
            }
            Front::OpenComment => return Err(LexError::OpenComment(at as u32)),
            Front::Unknown => return Err(LexError::BadByte(at as u32)),
        }
    }
    Ok(found)
}
