ghost use Rattle.std.specs.Prelude.{◌≡◌, ℕ, ◌∷◌, [], ◌++◌, IfOk, option_map, reverse};
ghost use Rattle.loop_parse.specs.SourceMachine.{at, inside_out, where_of, state_of, comparison_of, end, fill, filled, within_again, ends_expression, feed_within, feed_at, feed, finish, start};
ghost use Rattle.loop_parse.specs.Runs.{next_state, tree_at};
ghost use Rattle.loop_parse.specs.ExpressionMachine.{state_of as expression_state, feed as feed_expression, finish as finish_expression};

use crate::declaration::{feed_declaration, feed_declare};
use crate::expression::{self, Expression};
use crate::place::{Bounds, DeclarePlace, ForPlace, Nesting, Place, Position, Reader, Slot};
use crate::statement::{
    begin, feed_after_block, feed_assigned, feed_comparison, feed_header, feed_if, feed_statement,
    feed_step, feed_target, move_to, settle,
};
use loop_grammar::{Comparison, DeclWord, Lexeme, Name, Named, Operand, Part, Step, Tree};
use plain_data::Items;
use std::alloc::{AllocError, Global};

fn with_operand(list: Items<Operand>, item: Operand) -> Result<Items<Operand>, AllocError>
    ensures { IfOk result (λ longer. longer ≡ list ++ item ∷ []) }
{
    let mut list = list;
    list.push(item)?;
    Ok(list)
}

/// Goes on by the token after an array's next extent.
fn fill_extent(
    nesting: Nesting,
    declared: DeclWord,
    names: Items<Named>,
    name: Name,
    extents: Items<Operand>,
    value: Operand,
    word: Lexeme,
) -> Result<Option<Reader>, AllocError>
    ensures { IfOk result
        (λ after. (p : ℕ)
        → fill (inside_out nesting) (Slot.Extent declared names name extents) value (word, p)
        ≡ option_map state_of after) }
{
    match word {
        Lexeme::CloseSquare => match with_operand(extents, value) {
            Ok(extents) => {
                let place = DeclarePlace::AfterArray {
                    word: declared,
                    names,
                    name,
                    extents,
                };
                Ok(Some(move_to(nesting, Place::Declaring(place))))
            }
            Err(error) => {
                drop(nesting);
                drop(name);
                Err(error)
            }
        },
        _ => {
            drop(word);
            drop(nesting);
            drop(name);
            drop(value);
            Ok(None)
        }
    }
}

/// Goes on by the token after a subscript of an assignment's target.
fn fill_subscript(
    nesting: Nesting,
    name: Name,
    subscripts: Items<Operand>,
    value: Operand,
    word: Lexeme,
) -> Result<Option<Reader>, AllocError>
    ensures { IfOk result
        (λ after. (p : ℕ)
        → fill (inside_out nesting) (Slot.Subscript name subscripts) value (word, p)
        ≡ option_map state_of after) }
{
    match word {
        Lexeme::CloseSquare => match with_operand(subscripts, value) {
            Ok(subscripts) => Ok(Some(move_to(nesting, Place::Target { name, subscripts }))),
            Err(error) => {
                drop(nesting);
                drop(name);
                Err(error)
            }
        },
        _ => {
            drop(word);
            drop(nesting);
            drop(name);
            drop(value);
            Ok(None)
        }
    }
}

/// Goes on by the token after the first value of a `for`.
fn fill_first(nesting: Nesting, name: Name, value: Operand, word: Lexeme) -> Option<Reader>
    ensures { (p : ℕ)
        → fill (inside_out nesting) (Slot.First name) value (word, p)
        ≡ option_map state_of result }
{
    match word {
        Lexeme::Semi => {
            let place = ForPlace::Second { name, first: value };
            Some(move_to(nesting, Place::For(place)))
        }
        _ => {
            drop(word);
            drop(nesting);
            drop(name);
            drop(value);
            None
        }
    }
}

/// Goes on by the token after the bound of a `for`.
fn fill_bound(nesting: Nesting, bounds: Bounds, word: Lexeme) -> Option<Reader>
    ensures { (p : ℕ)
        → fill (inside_out nesting)
        (Slot.Bound bounds.name bounds.first bounds.second bounds.inclusive)
        bounds.bound
        (word, p)
        ≡ option_map state_of result }
{
    match word {
        Lexeme::Semi => Some(move_to(nesting, Place::For(ForPlace::Step(bounds)))),
        _ => {
            drop(word);
            drop(nesting);
            drop(bounds);
            None
        }
    }
}

/// Goes on by the token after the left side of a comparison.
fn fill_left(
    alloc: Global,
    nesting: Nesting,
    cond: Items<Comparison>,
    value: Operand,
    word: Lexeme,
    token: u32,
) -> Option<Reader>
    ensures { fill (inside_out nesting) (Slot.Left cond) value (word, token)
        ≡ option_map state_of result }
{
    match word {
        Lexeme::Compare(sign) => {
            let slot = Slot::Right {
                cond,
                left: value,
                sign,
                token,
            };
            Some(Reader {
                nesting,
                position: begin(alloc, slot),
            })
        }
        _ => {
            drop(word);
            drop(nesting);
            drop(value);
            None
        }
    }
}

/// Goes on by the token after a whole expression.
fn fill_slot(
    alloc: Global,
    nesting: Nesting,
    slot: Slot,
    value: Operand,
    word: Lexeme,
    token: u32,
) -> Result<Option<Reader>, AllocError>
    ensures { IfOk result
        (λ after. fill (inside_out nesting) slot value (word, token) ≡ option_map state_of after) }
{
    match slot {
        Slot::Extent {
            word: declared,
            names,
            name,
            extents,
        } => fill_extent(nesting, declared, names, name, extents, value, word),
        Slot::First(name) => Ok(fill_first(nesting, name, value, word)),
        Slot::Bound {
            name,
            first,
            second,
            inclusive,
        } => {
            let bounds = Bounds {
                name,
                first,
                second,
                inclusive,
                bound: value,
            };
            Ok(fill_bound(nesting, bounds, word))
        }
        Slot::Step {
            bounds,
            third,
            token: at,
        } => {
            let step = Step::By { token: at, value };
            feed_step(nesting, bounds, third, step, word)
        }
        Slot::Left(cond) => Ok(fill_left(alloc, nesting, cond, value, word, token)),
        Slot::Right {
            cond,
            left,
            sign,
            token: at,
        } => {
            let comparison = Comparison {
                left,
                sign,
                token: at,
                right: value,
            };
            feed_comparison(alloc, nesting, cond, comparison, word)
        }
        Slot::Subscript { name, subscripts } => {
            fill_subscript(nesting, name, subscripts, value, word)
        }
        Slot::Assigned { name, subscripts } => {
            feed_assigned(alloc, nesting, name, subscripts, value, word)
        }
    }
}

fn ends(word: &Lexeme) -> bool
    ensures { result ≡ ends_expression word.now }
{
    match word {
        Lexeme::Semi | Lexeme::Compare(_) | Lexeme::And | Lexeme::Close | Lexeme::CloseSquare =>
            true,
        _ => false,
    }
}

/// Goes on by the token after an expression that ended with this tree, if it could end there.
fn fill_finished(
    alloc: Global,
    nesting: Nesting,
    slot: Slot,
    finished: Option<Operand>,
    word: Lexeme,
    token: u32,
) -> Result<Option<Reader>, AllocError>
    ensures { IfOk result
        (λ after. filled (inside_out nesting) slot finished (word, token)
        ≡ option_map state_of after) }
{
    match finished {
        Some(value) => fill_slot(alloc, nesting, slot, value, word, token),
        None => {
            drop(word);
            drop(nesting);
            drop(slot);
            Ok(None)
        }
    }
}

/// Goes on by the token after an expression that has to end there.
fn end_expression(
    alloc: Global,
    nesting: Nesting,
    slot: Slot,
    expression: Expression,
    word: Lexeme,
    token: u32,
) -> Result<Option<Reader>, AllocError>
    ensures { IfOk result
        (λ after. filled (inside_out nesting)
        slot
        (finish_expression (expression_state expression))
        (word, token)
        ≡ option_map state_of after) }
{
    match expression::finish(alloc, expression) {
        Ok(finished) => fill_finished(alloc, nesting, slot, finished, word, token),
        Err(error) => {
            drop(word);
            drop(nesting);
            drop(slot);
            Err(error)
        }
    }
}

/// The state in the expression that goes on, if it goes on.
fn within_again(nesting: Nesting, slot: Slot, after: Option<Expression>) -> Option<Reader>
    ensures { within_again (inside_out nesting) slot (option_map expression_state after)
        ≡ option_map state_of result }
{
    match after {
        Some(expression) => Some(Reader {
            nesting,
            position: Position::Within { slot, expression },
        }),
        None => {
            drop(nesting);
            drop(slot);
            None
        }
    }
}

/// Goes on by one token that has to be an expression's own.
fn continue_expression(
    alloc: Global,
    nesting: Nesting,
    slot: Slot,
    expression: Expression,
    word: Lexeme,
    token: u32,
) -> Result<Option<Reader>, AllocError>
    ensures { IfOk result
        (λ after. within_again (inside_out nesting)
        slot
        (feed_expression (expression_state expression) (word, token))
        ≡ option_map state_of after) }
{
    match expression::feed(alloc, expression, word, token) {
        Ok(after) => Ok(within_again(nesting, slot, after)),
        Err(error) => {
            drop(nesting);
            drop(slot);
            Err(error)
        }
    }
}

/// Goes on by one token in an expression.
fn feed_expression(
    alloc: Global,
    nesting: Nesting,
    slot: Slot,
    expression: Expression,
    word: Lexeme,
    token: u32,
) -> Result<Option<Reader>, AllocError>
    ensures { IfOk result
        (λ after. feed_within (inside_out nesting) slot (expression_state expression) (word, token)
        ≡ option_map state_of after) }
{
    if expression.has_no_bracket() && ends(&word) {
        end_expression(alloc, nesting, slot, expression, word, token)
    } else {
        continue_expression(alloc, nesting, slot, expression, word, token)
    }
}

/// Goes on by one token, or answers `None` where no source goes on with it.
#[tactic(auto, unfolding(crate::specs::Runs::next_state))]
pub(crate) fn feed(
    alloc: Global,
    reader: Reader,
    word: Lexeme,
    token: u32,
) -> Result<Option<Reader>, AllocError>
    ensures { IfOk result
        (λ after. next_state (state_of reader) (word, token) ≡ option_map state_of after) }
{
    let Reader { nesting, position } = reader;
    match position {
        Position::At(place) => feed_at(alloc, nesting, place, word, token),
        Position::Within { slot, expression } => {
            feed_expression(alloc, nesting, slot, expression, word, token)
        }
    }
}

fn feed_at(
    alloc: Global,
    nesting: Nesting,
    place: Place,
    word: Lexeme,
    token: u32,
) -> Result<Option<Reader>, AllocError>
    ensures { IfOk result
        (λ after. feed_at (inside_out nesting) place (word, token) ≡ option_map state_of after) }
{
    match place {
        Place::Declaration => feed_declaration(alloc, nesting, word, token),
        Place::Declaring(place) => feed_declare(alloc, nesting, place, word, token),
        Place::Statement => feed_statement(alloc, nesting, word, token),
        Place::AfterBlock(block) => feed_after_block(alloc, nesting, block, word, token),
        Place::For(place) => feed_header(alloc, nesting, place, word, token),
        Place::If => Ok(feed_if(alloc, nesting, word)),
        Place::Target { name, subscripts } => {
            Ok(feed_target(alloc, nesting, name, subscripts, word))
        }
    }
}

fn end(nesting: Nesting) -> Option<Tree>
    ensures { result ≡ end (inside_out nesting) (inside_out nesting).enclosing }
{
    let Nesting {
        declarations,
        enclosing,
        parts,
    } = nesting;
    if enclosing.is_empty() {
        Some(Tree {
            declarations,
            parts,
        })
    } else {
        None
    }
}

/// The tree of a source that may end here, or `None`.
#[tactic(auto, unfolding(crate::specs::Runs::tree_at))]
pub(crate) fn finish(alloc: Global, reader: Reader) -> Result<Option<Tree>, AllocError>
    ensures { IfOk result (λ tree. tree_at (state_of reader) ≡ tree) }
{
    let Reader { nesting, position } = reader;
    match position {
        Position::At(place) => finish_at(alloc, nesting, place),
        Position::Within { slot, expression } => {
            drop(nesting);
            drop(slot);
            drop(expression);
            Ok(None)
        }
    }
}

fn finish_at(alloc: Global, nesting: Nesting, place: Place) -> Result<Option<Tree>, AllocError>
    ensures { IfOk result (λ tree. finish (inside_out nesting, at place) ≡ tree) }
{
    match place {
        Place::Declaration | Place::Statement => Ok(end(nesting)),
        Place::AfterBlock(block) => Ok(end(settle(alloc, nesting, Part::Block(block))?)),
        _ => {
            drop(place);
            drop(nesting);
            Ok(None)
        }
    }
}

/// A source of which nothing was read.
pub(crate) fn start(alloc: Global) -> Reader
    ensures { state_of result ≡ start }
{
    Reader {
        nesting: Nesting {
            declarations: Items::new(alloc),
            enclosing: Items::new(alloc),
            parts: Items::new(alloc),
        },
        position: Position::At(Place::Declaration),
    }
}
