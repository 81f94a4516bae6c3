//! The texts of tokens, and the values of numbers.

ghost use Rattle.std.specs.Prelude.{◌≡◌, ◌^◌, ◌<◌, ◌≤◌, length, true, false, pos, min};
ghost use Rattle.loop_lex.specs.Lexical.{is_large};
ghost use Rattle.plain_data.specs.Digits.{decimal_number};
ghost use Rattle.loop_lex.specs.Tokens.{text_of, kind_of, IsTokenOf};

use crate::token::{MAX_NUMBER, Token, TokenKind};
use plain_data::capped_number;

/// Whether a token of this kind and text is a number that passes the greatest.
pub fn is_large_number(kind: TokenKind, text: &[u8]) -> bool
    requires { kind_of text.now ≡ kind }
    ensures { result ≡ is_large text.now }
{
    kind == TokenKind::Number && capped_number(text) > MAX_NUMBER
}

/// The text of a token of the bytes.
pub fn text(bytes: &[u8], token: Token) -> &[u8]
    requires { IsTokenOf bytes.now token }
    ensures { result.now ≡ text_of bytes.now token }
{
    &bytes[token.start as usize..token.end as usize]
}

/// The value of a number of the bytes, which is at most 9223372036854775807.
pub fn number(bytes: &[u8], token: Token) -> i64
    requires token { IsTokenOf bytes.now token }
    requires kind { token.kind ≡ TokenKind.Number }
    ensures { result ≡ pos (decimal_number (text_of bytes.now token)) }
{
    capped_number(text(bytes, token)) as i64
}
