ghost use Rattle.std.specs.Prelude.{◌≡◌, ◌<◌, ◌^◌, length, Ok};
ghost use Rattle.loop_lex.specs.Tokens.{tokens};
ghost use Rattle.command_answers.specs.Judging.{Judges};
ghost use Rattle.command_answers.specs.Source.{Gives};
ghost use Rattle.command_answers.specs.Steps.{HasNest, HasSize, HasSizedNest, HasTokens, HasSyntaxTree};

use crate::refusal::{Stop, bind_refusal, lex_refusal, size_refusal, syntax_refusal};
use loop_class::{Params, bind};
use loop_grammar::Tree;
use loop_lex::{Token, lex};
use loop_parse::{ParseError, parse};
use loop_walk::size;
use sanlp::Nest;
use std::alloc::Global;

fn tokens_of(alloc: Global, source: &[u8]) -> Result<Vec<Token>, Stop>
    requires { length source.now < 2 ^ 32 }
    ensures { Judges (HasTokens source.now) result }
{
    match lex(alloc, source) {
        Ok(found) => Ok(found),
        Err(error) => match lex_refusal(error) {
            Some(refusal) => Err(Stop::Refused(refusal)),
            None => Err(Stop::Memory),
        },
    }
}

fn tree_of(alloc: Global, source: &[u8], found: &[Token]) -> Result<Tree, Stop>
    requires { tokens source.now ≡ Ok found.now }
    ensures { Judges (HasSyntaxTree source.now found.now) result }
{
    match parse(alloc, source, found) {
        Ok(tree) => Ok(tree),
        Err(ParseError::Syntax(place)) => {
            Err(Stop::Refused(syntax_refusal(source, found, place)))
        }
        Err(ParseError::Memory) => Err(Stop::Memory),
    }
}

fn bound(
    alloc: Global,
    source: &[u8],
    found: &[Token],
    tree: &Tree,
    params: &Params,
) -> Result<Nest, Stop>
    ensures { Judges (HasNest source.now found.now tree.now params.now) result }
{
    match bind(alloc, source, found, tree, params) {
        Ok(nest) => Ok(nest),
        Err(reason) => match bind_refusal(source, found, reason) {
            Some(refusal) => Err(Stop::Refused(refusal)),
            None => Err(Stop::Memory),
        },
    }
}

/// The nest of a source with these values of its parameters. A source is refused that has no tokens, whose tokens have no
/// tree, or whose tree can't be bound: in this order, and with the byte of the place. Its size isn't asked for.
pub fn nest_of(alloc: Global, source: &[u8], params: &Params) -> Result<Nest, Stop>
    requires { length source.now < 2 ^ 32 }
    ensures { Judges (Gives source.now params.now) result }
{
    let lexed = tokens_of(alloc, source)?;
    let found = lexed.as_slice();
    let tree = tree_of(alloc, source, found)?;
    bound(alloc, source, found, &tree, params)
}

/// The size of a nest: the number of its executed statements and loop turns. A nest is refused whose size passes the limit,
/// or that enters a loop with a value outside the limit of loop values. It takes no memory.
pub fn size_of(nest: &Nest) -> Result<u64, Stop>
    ensures { Judges (HasSize nest.now) result }
{
    match size(nest) {
        Ok(total) => Ok(total),
        Err(error) => Err(Stop::Refused(size_refusal(error))),
    }
}

/// The nest of a source with these values of its parameters, within the limit on its size: what `nest_of` refuses, and
/// then what `size_of` does, is refused.
pub fn sized_nest(alloc: Global, source: &[u8], params: &Params) -> Result<Nest, Stop>
    requires { length source.now < 2 ^ 32 }
    ensures { Judges (HasSizedNest source.now params.now) result }
{
    let nest = nest_of(alloc, source, params)?;
    size_of(&nest)?;
    Ok(nest)
}
