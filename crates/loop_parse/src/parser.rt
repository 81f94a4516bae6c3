ghost use Rattle.std.specs.Prelude.{◌≡◌, IfOk, IfErr, MatchResult, Ok, option_map};
ghost use Rattle.loop_lex.specs.Tokens.{tokens as tokens_of, AreTokensOf};
ghost use Rattle.loop_grammar.specs.Lexemes.{IsTree};
ghost use Rattle.loop_parse.specs.Places.{IsPlace};
ghost use Rattle.loop_parse.specs.Runs.{Ran, next_state, tree_at};
ghost use Rattle.loop_parse.specs.SourceMachine.{state_of};
ghost use Rattle.loop_grammar.specs.declared.tree.Tree.{Tree};
ghost use Rattle.loop_parse.specs.declared.parser.ParseError.TheVariants.{Memory};

use crate::lexeme::read_lexeme;
use crate::place::Reader;
use crate::source::{feed, finish, start};
use loop_grammar::{Lexeme, Tree};
use loop_lex::Token;
use plain_data::Boxed;
use std::alloc::{AllocError, Global};
use thiserror::Error;

/// Why tokens have no tree.
#[derive(Clone, Copy, Debug, PartialEq, Eq, Error)]
pub enum ParseError {
    /// The first token that no source has after the tokens before it, or the number of tokens where the source may not
    /// end there.
    #[error("no source goes on with token {0}")]
    Syntax(u32),
    /// Want of memory.
    #[error("no memory")]
    Memory,
}

impl From<AllocError> for ParseError {
    ghost use Rattle.std.specs.Prelude.{◌≡◌};
    ghost use Rattle.loop_parse.specs.declared.parser.ParseError.TheVariants.{Memory};

    ghost from_gives = { λ _ error. error ≡ Memory };

    fn from(_error: AllocError) -> ParseError {
        ParseError::Memory
    }
}

/// Goes on by one token, or answers `None` where no source goes on with it.
fn advance(
    alloc: Global,
    reader: Boxed<Reader>,
    word: Lexeme,
    token: u32,
) -> Result<Option<Boxed<Reader>>, AllocError>
    ensures { IfOk result
        (λ after. next_state (state_of reader) (word, token) ≡ option_map state_of after) }
{
    match feed(alloc, reader.into_inner(), word, token)? {
        Some(after) => Ok(Some(Boxed::new(alloc, after)?)),
        None => Ok(None),
    }
}

/// The tree of a source that may end here, or `None`.
fn conclude(alloc: Global, reader: Boxed<Reader>) -> Result<Option<Tree>, AllocError>
    ensures { IfOk result (λ tree. tree_at (state_of reader) ≡ tree) }
{
    finish(alloc, reader.into_inner())
}

/// Feeds all tokens to the machine.
fn run(alloc: Global, bytes: &[u8], tokens: &[Token]) -> Result<Tree, ParseError>
    requires { AreTokensOf bytes.now tokens.now }
    ensures { Ran bytes.now tokens.now result }
{
    let mut reader = Boxed::new(alloc, start(alloc))?;
    for i in 0..tokens.len() {
        let word = read_lexeme(alloc, bytes, tokens[i])?;
        match advance(alloc, reader, word, i as u32)? {
            Some(after) => reader = after,
            None => return Err(ParseError::Syntax(i as u32)),
        }
    }
    match conclude(alloc, reader)? {
        Some(tree) => Ok(tree),
        None => Err(ParseError::Syntax(tokens.len() as u32)),
    }
}

/// The one tree of a source's tokens.
pub fn parse(alloc: Global, bytes: &[u8], tokens: &[Token]) -> Result<Tree, ParseError>
    requires { tokens_of bytes.now ≡ Ok tokens.now }
    ensures tree { IfOk result (IsTree bytes.now tokens.now) }
    ensures only { (tree : Tree) → IsTree bytes.now tokens.now tree
        → MatchResult result (λ found. found ≡ tree) (λ error. error ≡ Memory) }
    ensures place { IfErr result (IsPlace bytes.now tokens.now) }
{
    run(alloc, bytes, tokens)
}
