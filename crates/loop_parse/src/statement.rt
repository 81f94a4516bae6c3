ghost use Rattle.std.specs.Prelude.{◌≡◌, ℕ, ◌∷◌, [], ◌++◌, IfOk, option_map, reverse, Some, None};
ghost use Rattle.loop_parse.specs.SourceMachine.{at, at_for, enclosed, inside_out, where_of, state_of, begun, name_of, feed_for, feed_step, feed_header, feed_begin, end_block, feed_statement, for_part, landed, settled, else_begun, feed_after_block, feed_if, feed_target, feed_comparison, feed_assigned};
ghost use Rattle.loop_grammar.specs.declared.tree.Part as part;

use crate::expression;
use crate::place::{Bounds, Enclosing, ForPlace, Nesting, Place, Position, Reader, Slot};
use loop_grammar::{CompareSign, Comparison, Lexeme, Name, Operand, Other, Part, Step};
use plain_data::{Boxed, Items};
use std::alloc::{AllocError, Global};

/// An expression begins that fills this slot.
pub(crate) fn begin(alloc: Global, slot: Slot) -> Position
    ensures { where_of result ≡ begun slot }
{
    Position::Within {
        slot,
        expression: expression::start(alloc),
    }
}

fn in_for(place: ForPlace) -> Option<Position>
    ensures { option_map where_of result ≡ Some (at_for place) }
{
    Some(Position::At(Place::For(place)))
}

/// Goes on by one token before the `(` of a `for`.
fn for_open(word: Lexeme) -> Option<Position>
    ensures { (p : ℕ) → feed_for ForPlace.Open (word, p) ≡ option_map where_of result }
{
    match word {
        Lexeme::Open => in_for(ForPlace::Int),
        _ => {
            drop(word);
            None
        }
    }
}

/// Goes on by one token before `int` or the first name of a `for`.
fn for_int(word: Lexeme, token: u32) -> Option<Position>
    ensures { feed_for ForPlace.Int (word, token) ≡ option_map where_of result }
{
    match word {
        Lexeme::Int => in_for(ForPlace::Name),
        Lexeme::Name(text) => in_for(ForPlace::Assign(Name { text, token })),
        _ => {
            drop(word);
            None
        }
    }
}

/// Goes on by one token after the `int` of a `for`.
fn for_name(word: Lexeme, token: u32) -> Option<Position>
    ensures { feed_for ForPlace.Name (word, token) ≡ option_map where_of result }
{
    match word {
        Lexeme::Name(text) => in_for(ForPlace::Assign(Name { text, token })),
        _ => {
            drop(word);
            None
        }
    }
}

/// Goes on by one token before the `=` of a `for`.
fn for_assign(alloc: Global, name: Name, word: Lexeme) -> Option<Position>
    ensures { (p : ℕ) → feed_for (ForPlace.Assign name) (word, p) ≡ option_map where_of result }
{
    match word {
        Lexeme::Assign => Some(begin(alloc, Slot::First(name))),
        _ => {
            drop(word);
            drop(name);
            None
        }
    }
}

/// Goes on by one token before the second name of a `for`.
fn for_second(name: Name, first: Operand, word: Lexeme, token: u32) -> Option<Position>
    ensures { feed_for (ForPlace.Second name first) (word, token) ≡ option_map where_of result }
{
    match word {
        Lexeme::Name(text) => in_for(ForPlace::Compare {
            name,
            first,
            second: Name { text, token },
        }),
        _ => {
            drop(word);
            drop(name);
            drop(first);
            None
        }
    }
}

/// Goes on by this sign before the bound of a `for`.
fn for_sign(
    alloc: Global,
    name: Name,
    first: Operand,
    second: Name,
    sign: CompareSign,
) -> Option<Position>
    ensures { (p : ℕ)
        → feed_for (ForPlace.Compare name first second) (Lexeme.Compare sign, p)
        ≡ option_map where_of result }
{
    match sign {
        CompareSign::Less => Some(begin(
            alloc,
            Slot::Bound {
                name,
                first,
                second,
                inclusive: false,
            },
        )),
        CompareSign::LessEq => Some(begin(
            alloc,
            Slot::Bound {
                name,
                first,
                second,
                inclusive: true,
            },
        )),
        _ => {
            drop(name);
            drop(first);
            drop(second);
            None
        }
    }
}

/// Goes on by one token before the sign of the bound of a `for`.
fn for_compare(
    alloc: Global,
    name: Name,
    first: Operand,
    second: Name,
    word: Lexeme,
) -> Option<Position>
    ensures { (p : ℕ)
        → feed_for (ForPlace.Compare name first second) (word, p) ≡ option_map where_of result }
{
    match word {
        Lexeme::Compare(sign) => for_sign(alloc, name, first, second, sign),
        _ => {
            drop(word);
            drop(name);
            drop(first);
            drop(second);
            None
        }
    }
}

/// Goes on by one token before the third name or the `++` of a `for`.
fn for_step(bounds: Bounds, word: Lexeme, token: u32) -> Option<Position>
    ensures { feed_for (ForPlace.Step bounds) (word, token) ≡ option_map where_of result }
{
    match word {
        Lexeme::Name(text) => in_for(ForPlace::StepSign {
            bounds,
            third: Name { text, token },
        }),
        Lexeme::Increment => in_for(ForPlace::Third(bounds)),
        _ => {
            drop(word);
            drop(bounds);
            None
        }
    }
}

/// Goes on by one token after the third name of a `for`.
fn for_step_sign(
    alloc: Global,
    bounds: Bounds,
    third: Name,
    word: Lexeme,
    token: u32,
) -> Option<Position>
    ensures { feed_for (ForPlace.StepSign bounds third) (word, token)
        ≡ option_map where_of result }
{
    match word {
        Lexeme::Increment => in_for(ForPlace::Close { bounds, third }),
        Lexeme::AddAssign => Some(begin(
            alloc,
            Slot::Step {
                bounds,
                third,
                token,
            },
        )),
        _ => {
            drop(word);
            drop(bounds);
            drop(third);
            None
        }
    }
}

/// Goes on by one token after the `++` that stands before the third name of a `for`.
fn for_third(bounds: Bounds, word: Lexeme, token: u32) -> Option<Position>
    ensures { feed_for (ForPlace.Third bounds) (word, token) ≡ option_map where_of result }
{
    match word {
        Lexeme::Name(text) => in_for(ForPlace::Close {
            bounds,
            third: Name { text, token },
        }),
        _ => {
            drop(word);
            drop(bounds);
            None
        }
    }
}

/// Goes on by one token in the brackets of a `for`, or answers `None` where none of its places takes it.
fn feed_for(alloc: Global, place: ForPlace, word: Lexeme, token: u32) -> Option<Position>
    ensures { feed_for place (word, token) ≡ option_map where_of result }
{
    match place {
        ForPlace::Open => for_open(word),
        ForPlace::Int => for_int(word, token),
        ForPlace::Name => for_name(word, token),
        ForPlace::Assign(name) => for_assign(alloc, name, word),
        ForPlace::Second { name, first } => for_second(name, first, word, token),
        ForPlace::Compare {
            name,
            first,
            second,
        } => for_compare(alloc, name, first, second, word),
        ForPlace::Step(bounds) => for_step(bounds, word, token),
        ForPlace::StepSign { bounds, third } => for_step_sign(alloc, bounds, third, word, token),
        ForPlace::Third(bounds) => for_third(bounds, word, token),
        ForPlace::Close { bounds, third } => {
            drop(word);
            drop(bounds);
            drop(third);
            None
        }
    }
}

/// The state at this place, with nothing else changed.
pub(crate) fn move_to(nesting: Nesting, place: Place) -> Reader
    ensures { state_of result ≡ (inside_out nesting, at place) }
{
    Reader {
        nesting,
        position: Position::At(place),
    }
}

/// A statement comes next, inside this one.
fn enclose(nesting: Nesting, statement: Enclosing) -> Result<Reader, AllocError>
    ensures { IfOk result
        (λ reader. state_of reader
        ≡ (enclosed (inside_out nesting) statement, at Place.Statement)) }
{
    let Nesting {
        declarations,
        enclosing,
        parts,
    } = nesting;
    let mut enclosing = enclosing;
    enclosing.push(statement)?;
    Ok(move_to(
        Nesting {
            declarations,
            enclosing,
            parts,
        },
        Place::Statement,
    ))
}

/// Goes on by one token after the step of a `for`; its body comes next where its brackets end.
pub(crate) fn feed_step(
    nesting: Nesting,
    bounds: Bounds,
    third: Name,
    step: Step,
    word: Lexeme,
) -> Result<Option<Reader>, AllocError>
    ensures { IfOk result
        (λ after. feed_step (inside_out nesting) bounds third step word
        ≡ option_map state_of after) }
{
    match word {
        Lexeme::Close => {
            let statement = Enclosing::For {
                bounds,
                third,
                step,
            };
            Ok(Some(enclose(nesting, statement)?))
        }
        _ => {
            drop(word);
            drop(nesting);
            drop(bounds);
            drop(third);
            drop(step);
            Ok(None)
        }
    }
}

/// Goes on by one token in the brackets of a `for`.
pub(crate) fn feed_header(
    alloc: Global,
    nesting: Nesting,
    place: ForPlace,
    word: Lexeme,
    token: u32,
) -> Result<Option<Reader>, AllocError>
    ensures { IfOk result
        (λ after. feed_header (inside_out nesting) place (word, token)
        ≡ option_map state_of after) }
{
    match place {
        ForPlace::Close { bounds, third } => feed_step(nesting, bounds, third, Step::One, word),
        place => match feed_for(alloc, place, word, token) {
            Some(position) => Ok(Some(Reader { nesting, position })),
            None => {
                drop(nesting);
                Ok(None)
            }
        },
    }
}

/// A block begins.
fn open_block(alloc: Global, nesting: Nesting) -> Result<Reader, AllocError>
    ensures { IfOk result
        (λ reader. state_of reader
        ≡ (
          record
              (inside_out nesting) {
                enclosing = Enclosing.Block nesting.parts
                    ∷ reverse nesting.enclosing;
                parts = [];
              },
          at Place.Statement,
        )) }
{
    let Nesting {
        declarations,
        enclosing,
        parts,
    } = nesting;
    enclose(
        Nesting {
            declarations,
            enclosing,
            parts: Items::new(alloc),
        },
        Enclosing::Block(parts),
    )
}

/// Goes on by the first token of a statement.
fn feed_begin(
    alloc: Global,
    nesting: Nesting,
    word: Lexeme,
    token: u32,
) -> Result<Option<Reader>, AllocError>
    ensures { IfOk result
        (λ after. feed_begin (inside_out nesting) (word, token) ≡ option_map state_of after) }
{
    let place = match word {
        Lexeme::OpenCurly => return Ok(Some(open_block(alloc, nesting)?)),
        Lexeme::For => Place::For(ForPlace::Open),
        Lexeme::If => Place::If,
        Lexeme::Name(text) => Place::Target {
            name: Name { text, token },
            subscripts: Items::new(alloc),
        },
        _ => {
            drop(word);
            drop(nesting);
            return Ok(None);
        }
    };
    Ok(Some(move_to(nesting, place)))
}

/// Goes on by a `}` inside this statement.
fn close_inside(around: Nesting, statement: Enclosing) -> Option<Reader>
    ensures { end_block (enclosed (inside_out around) statement)
        (statement ∷ reverse around.enclosing)
        ≡ option_map state_of result }
{
    match statement {
        Enclosing::Block(outer) => {
            let Nesting {
                declarations,
                enclosing,
                parts,
            } = around;
            let around = Nesting {
                declarations,
                enclosing,
                parts: outer,
            };
            Some(move_to(around, Place::AfterBlock(parts)))
        }
        _ => {
            drop(statement);
            drop(around);
            None
        }
    }
}

/// Goes on by a `}`.
fn close_block(nesting: Nesting) -> Option<Reader>
    ensures { end_block (inside_out nesting) (inside_out nesting).enclosing
        ≡ option_map state_of result }
{
    let Nesting {
        declarations,
        enclosing,
        parts,
    } = nesting;
    let mut enclosing = enclosing;
    let Some(statement) = enclosing.pop() else {
        return None;
    };
    let around = Nesting {
        declarations,
        enclosing,
        parts,
    };
    close_inside(around, statement)
}

/// Goes on by one token where a statement or the end of a block comes next.
pub(crate) fn feed_statement(
    alloc: Global,
    nesting: Nesting,
    word: Lexeme,
    token: u32,
) -> Result<Option<Reader>, AllocError>
    ensures { IfOk result
        (λ after. feed_statement (inside_out nesting) (word, token) ≡ option_map state_of after) }
{
    match word {
        Lexeme::CloseCurly => Ok(close_block(nesting)),
        word => feed_begin(alloc, nesting, word, token),
    }
}

fn for_part(
    alloc: Global,
    bounds: Bounds,
    third: Name,
    step: Step,
    body: Part,
) -> Result<Part, AllocError>
    ensures { IfOk result (λ tree. tree ≡ for_part bounds third step body) }
{
    match Boxed::new(alloc, body) {
        Ok(body) => {
            let Bounds {
                name,
                first,
                second,
                inclusive,
                bound,
            } = bounds;
            Ok(Part::For {
                name,
                first,
                second,
                inclusive,
                bound,
                third,
                step,
                body,
            })
        }
        Err(error) => {
            drop(bounds);
            drop(third);
            drop(step);
            Err(error)
        }
    }
}

fn if_part(alloc: Global, cond: Items<Comparison>, body: Part) -> Result<Part, AllocError>
    ensures { IfOk result (λ tree. tree ≡ part.If cond body None) }
{
    Ok(Part::If {
        cond,
        body: Boxed::new(alloc, body)?,
        other: None,
    })
}

fn else_part(
    alloc: Global,
    cond: Items<Comparison>,
    block: Items<Part>,
    token: u32,
    other: Part,
) -> Result<Part, AllocError>
    ensures { IfOk result
        (λ tree. tree
        ≡ part.If cond (part.Block block) (Some (record { token = token; body = other }))) }
{
    let body = Boxed::new(alloc, other)?;
    Ok(Part::If {
        cond,
        body: Boxed::new(alloc, Part::Block(block))?,
        other: Some(Other { token, body }),
    })
}

/// Ends this statement, and each one that waited for it as its last part.
fn land(
    alloc: Global,
    enclosing: Items<Enclosing>,
    parts: Items<Part>,
    part: Part,
) -> Result<(Items<Enclosing>, Items<Part>), AllocError>
    ensures { IfOk result (λ r. landed (reverse enclosing) parts part ≡ (reverse r.0, r.1)) }
{
    let mut enclosing = enclosing;
    let mut parts = parts;
    let mut part = part;
    while let Some(statement) = enclosing.pop() {
        match statement {
            Enclosing::Block(outer) => match enclosing.push(Enclosing::Block(outer)) {
                Ok(()) => break,
                Err(error) => {
                    drop(part);
                    return Err(error);
                }
            },
            Enclosing::For {
                bounds,
                third,
                step,
            } => {
                part = for_part(alloc, bounds, third, step, part)?;
            }
            Enclosing::If(cond) => part = if_part(alloc, cond, part)?,
            Enclosing::Else { cond, block, token } => {
                part = else_part(alloc, cond, block, token, part)?;
            }
        }
    }
    parts.push(part)?;
    Ok((enclosing, parts))
}

/// The state after a statement.
pub(crate) fn settle(alloc: Global, nesting: Nesting, part: Part) -> Result<Nesting, AllocError>
    ensures { IfOk result (λ after. inside_out after ≡ settled (inside_out nesting) part) }
{
    let Nesting {
        declarations,
        enclosing,
        parts,
    } = nesting;
    let (enclosing, parts) = land(alloc, enclosing, parts, part)?;
    Ok(Nesting {
        declarations,
        enclosing,
        parts,
    })
}

/// Goes on by an `else` after this block inside this statement.
fn else_inside(
    around: Nesting,
    statement: Enclosing,
    block: Items<Part>,
    token: u32,
) -> Result<Option<Reader>, AllocError>
    ensures { IfOk result
        (λ after. else_begun (enclosed (inside_out around) statement)
        (statement ∷ reverse around.enclosing)
        block
        token
        ≡ option_map state_of after) }
{
    match statement {
        Enclosing::If(cond) => Ok(Some(enclose(around, Enclosing::Else { cond, block, token })?)),
        _ => {
            drop(statement);
            drop(around);
            Ok(None)
        }
    }
}

/// Goes on by an `else` after this block.
fn begin_else(
    nesting: Nesting,
    block: Items<Part>,
    token: u32,
) -> Result<Option<Reader>, AllocError>
    ensures { IfOk result
        (λ after. else_begun (inside_out nesting) (inside_out nesting).enclosing block token
        ≡ option_map state_of after) }
{
    let Nesting {
        declarations,
        enclosing,
        parts,
    } = nesting;
    let mut outer = enclosing;
    let Some(statement) = outer.pop() else {
        return Ok(None);
    };
    let around = Nesting {
        declarations,
        enclosing: outer,
        parts,
    };
    else_inside(around, statement, block, token)
}

/// Goes on by one token after a block.
pub(crate) fn feed_after_block(
    alloc: Global,
    nesting: Nesting,
    block: Items<Part>,
    word: Lexeme,
    token: u32,
) -> Result<Option<Reader>, AllocError>
    ensures { IfOk result
        (λ after. feed_after_block (inside_out nesting) block (word, token)
        ≡ option_map state_of after) }
{
    match word {
        Lexeme::Else => begin_else(nesting, block, token),
        word => match settle(alloc, nesting, Part::Block(block)) {
            Ok(around) => feed_statement(alloc, around, word, token),
            Err(error) => {
                drop(word);
                Err(error)
            }
        },
    }
}

/// Goes on by one token after an assignment's target.
pub(crate) fn feed_target(
    alloc: Global,
    nesting: Nesting,
    name: Name,
    subscripts: Items<Operand>,
    word: Lexeme,
) -> Option<Reader>
    ensures { (p : ℕ)
        → feed_target (inside_out nesting) name subscripts (word, p) ≡ option_map state_of result }
{
    let slot = match word {
        Lexeme::OpenSquare => Slot::Subscript { name, subscripts },
        Lexeme::Assign => Slot::Assigned { name, subscripts },
        _ => {
            drop(word);
            drop(nesting);
            drop(name);
            return None;
        }
    };
    Some(Reader {
        nesting,
        position: begin(alloc, slot),
    })
}

/// Goes on by one token after `if`.
pub(crate) fn feed_if(alloc: Global, nesting: Nesting, word: Lexeme) -> Option<Reader>
    ensures { (p : ℕ) → feed_if (inside_out nesting) (word, p) ≡ option_map state_of result }
{
    match word {
        Lexeme::Open => Some(Reader {
            nesting,
            position: begin(alloc, Slot::Left(Items::new(alloc))),
        }),
        _ => {
            drop(word);
            drop(nesting);
            None
        }
    }
}

fn with_comparison(
    cond: Items<Comparison>,
    comparison: Comparison,
) -> Result<Items<Comparison>, AllocError>
    ensures { IfOk result (λ longer. longer ≡ cond ++ comparison ∷ []) }
{
    let mut cond = cond;
    cond.push(comparison)?;
    Ok(cond)
}

/// Goes on by one token after an `if`'s comparison.
pub(crate) fn feed_comparison(
    alloc: Global,
    nesting: Nesting,
    cond: Items<Comparison>,
    comparison: Comparison,
    word: Lexeme,
) -> Result<Option<Reader>, AllocError>
    ensures { IfOk result
        (λ after. feed_comparison (inside_out nesting) (cond ++ comparison ∷ []) word
        ≡ option_map state_of after) }
{
    match word {
        Lexeme::And => match with_comparison(cond, comparison) {
            Ok(cond) => Ok(Some(Reader {
                nesting,
                position: begin(alloc, Slot::Left(cond)),
            })),
            Err(error) => {
                drop(nesting);
                Err(error)
            }
        },
        Lexeme::Close => match with_comparison(cond, comparison) {
            Ok(cond) => Ok(Some(enclose(nesting, Enclosing::If(cond))?)),
            Err(error) => {
                drop(nesting);
                Err(error)
            }
        },
        _ => {
            drop(word);
            drop(nesting);
            drop(comparison);
            Ok(None)
        }
    }
}

/// Goes on by the token after an assignment's value.
pub(crate) fn feed_assigned(
    alloc: Global,
    nesting: Nesting,
    name: Name,
    subscripts: Items<Operand>,
    value: Operand,
    word: Lexeme,
) -> Result<Option<Reader>, AllocError>
    ensures { IfOk result
        (λ after. feed_assigned (inside_out nesting) name subscripts value word
        ≡ option_map state_of after) }
{
    match word {
        Lexeme::Semi => {
            let part = Part::Assign {
                target: name,
                subscripts,
                value,
            };
            let around = settle(alloc, nesting, part)?;
            Ok(Some(move_to(around, Place::Statement)))
        }
        _ => {
            drop(word);
            drop(nesting);
            drop(name);
            drop(value);
            Ok(None)
        }
    }
}
