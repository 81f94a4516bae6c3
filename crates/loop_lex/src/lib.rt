//! Tokens of a source: words, numbers and signs, each the longest that its place allows.
//! White space and comments separate tokens and are dropped.
//!
//! Between two calls, or from one step of the main loop to the next: the tokens so far lie one behind the other, and go
//! on to those of the whole source.
#![tactic(auto)]

mod class;
mod law;
mod lexer;
mod scan;
mod slice;
mod token;

pub use class::is_name;
pub use law::{spaced_tokens_are_read_back, tokens_are_in_order};
pub use lexer::lex;
pub use slice::{number, text};
pub use token::{LexError, MAX_NUMBER, MAX_TOKENS, Token, TokenKind};
