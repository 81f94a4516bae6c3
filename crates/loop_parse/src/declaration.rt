ghost use Rattle.std.specs.Prelude.{◌≡◌, ℕ, ◌∷◌, [], ◌++◌, IfOk, option_map, Some};
ghost use Rattle.loop_parse.specs.SourceMachine.{at, inside_out, state_of, named_of, declared, declare_place, feed_declare, feed_declaration};

use crate::place::{DeclarePlace, Nesting, Place, Position, Reader, Slot};
use crate::statement::{begin, feed_statement};
use loop_grammar::{DeclWord, Declaration, Lexeme, Name, Named, Operand};
use plain_data::Items;
use std::alloc::{AllocError, Global};

fn with_named(
    names: Items<Named>,
    name: Name,
    extents: Items<Operand>,
) -> Result<Items<Named>, AllocError>
    ensures { IfOk result (λ longer. longer ≡ names ++ named_of name extents ∷ []) }
{
    let mut names = names;
    names.push(Named { name, extents })?;
    Ok(names)
}

/// The state after a declaration.
fn declare(nesting: Nesting, word: DeclWord, names: Items<Named>) -> Result<Reader, AllocError>
    ensures { IfOk result (λ reader. state_of reader ≡ declared (inside_out nesting) word names) }
{
    let Nesting {
        declarations,
        enclosing,
        parts,
    } = nesting;
    let mut declarations = declarations;
    declarations.push(Declaration { word, names })?;
    Ok(Reader {
        nesting: Nesting {
            declarations,
            enclosing,
            parts,
        },
        position: Position::At(Place::Declaration),
    })
}

fn declaring(nesting: Nesting, place: DeclarePlace) -> Option<Reader>
    ensures { option_map state_of result ≡ Some (inside_out nesting, at (Place.Declaring place)) }
{
    Some(Reader {
        nesting,
        position: Position::At(Place::Declaring(place)),
    })
}

/// Goes on by one token before a parameter.
fn feed_parameter(
    alloc: Global,
    nesting: Nesting,
    names: Items<Named>,
    word: Lexeme,
    token: u32,
) -> Result<Option<Reader>, AllocError>
    ensures { IfOk result
        (λ after. feed_declare (inside_out nesting) (DeclarePlace.Parameter names) (word, token)
        ≡ option_map state_of after) }
{
    match word {
        Lexeme::Name(text) => match with_named(names, Name { text, token }, Items::new(alloc)) {
            Ok(names) => Ok(declaring(nesting, DeclarePlace::AfterParameter(names))),
            Err(error) => {
                drop(nesting);
                Err(error)
            }
        },
        _ => {
            drop(word);
            drop(nesting);
            Ok(None)
        }
    }
}

/// Goes on by one token after a parameter.
fn feed_after_parameter(
    nesting: Nesting,
    names: Items<Named>,
    word: Lexeme,
) -> Result<Option<Reader>, AllocError>
    ensures { IfOk result
        (λ after. (p : ℕ)
        → feed_declare (inside_out nesting) (DeclarePlace.AfterParameter names) (word, p)
        ≡ option_map state_of after) }
{
    match word {
        Lexeme::Comma => Ok(declaring(nesting, DeclarePlace::Parameter(names))),
        Lexeme::Semi => Ok(Some(declare(nesting, DeclWord::Param, names)?)),
        _ => {
            drop(word);
            drop(nesting);
            Ok(None)
        }
    }
}

/// Goes on by one token before an array.
fn feed_array(
    alloc: Global,
    nesting: Nesting,
    declared: DeclWord,
    names: Items<Named>,
    word: Lexeme,
    token: u32,
) -> Option<Reader>
    ensures { feed_declare (inside_out nesting) (DeclarePlace.Array declared names) (word, token)
        ≡ option_map state_of result }
{
    match word {
        Lexeme::Name(text) => declaring(
            nesting,
            DeclarePlace::AfterArray {
                word: declared,
                names,
                name: Name { text, token },
                extents: Items::new(alloc),
            },
        ),
        _ => {
            drop(word);
            drop(nesting);
            None
        }
    }
}

/// Ends an array's declaration.
fn declare_array(
    nesting: Nesting,
    word: DeclWord,
    names: Items<Named>,
    name: Name,
    extents: Items<Operand>,
) -> Result<Reader, AllocError>
    ensures { IfOk result
        (λ reader. state_of reader
        ≡ declared (inside_out nesting) word (names ++ named_of name extents ∷ [])) }
{
    match with_named(names, name, extents) {
        Ok(names) => declare(nesting, word, names),
        Err(error) => {
            drop(nesting);
            Err(error)
        }
    }
}

/// Goes on by a `,` after an array.
fn next_array(
    nesting: Nesting,
    word: DeclWord,
    names: Items<Named>,
    name: Name,
    extents: Items<Operand>,
) -> Result<Option<Reader>, AllocError>
    ensures { IfOk result
        (λ after. option_map state_of after
        ≡ Some (
          inside_out nesting,
          at (Place.Declaring (DeclarePlace.Array word (names ++ named_of name extents ∷ []))),
        )) }
{
    match with_named(names, name, extents) {
        Ok(names) => Ok(declaring(nesting, DeclarePlace::Array { word, names })),
        Err(error) => {
            drop(nesting);
            Err(error)
        }
    }
}

/// Goes on by one token after an array and these extents.
fn feed_after_array(
    alloc: Global,
    nesting: Nesting,
    declared: DeclWord,
    names: Items<Named>,
    name: Name,
    extents: Items<Operand>,
    word: Lexeme,
) -> Result<Option<Reader>, AllocError>
    ensures { IfOk result
        (λ after. (p : ℕ)
        → feed_declare (inside_out nesting) (DeclarePlace.AfterArray declared names name extents)
        (word, p) ≡ option_map state_of after) }
{
    match word {
        Lexeme::OpenSquare => {
            let slot = Slot::Extent {
                word: declared,
                names,
                name,
                extents,
            };
            Ok(Some(Reader {
                nesting,
                position: begin(alloc, slot),
            }))
        }
        Lexeme::Comma => next_array(nesting, declared, names, name, extents),
        Lexeme::Semi => Ok(Some(declare_array(nesting, declared, names, name, extents)?)),
        _ => {
            drop(word);
            drop(nesting);
            drop(name);
            Ok(None)
        }
    }
}

/// Goes on by one token in a declaration.
pub(crate) fn feed_declare(
    alloc: Global,
    nesting: Nesting,
    place: DeclarePlace,
    word: Lexeme,
    token: u32,
) -> Result<Option<Reader>, AllocError>
    ensures { IfOk result
        (λ after. feed_declare (inside_out nesting) place (word, token)
        ≡ option_map state_of after) }
{
    match place {
        DeclarePlace::Parameter(names) => feed_parameter(alloc, nesting, names, word, token),
        DeclarePlace::AfterParameter(names) => feed_after_parameter(nesting, names, word),
        DeclarePlace::Array {
            word: declared,
            names,
        } => Ok(feed_array(alloc, nesting, declared, names, word, token)),
        DeclarePlace::AfterArray {
            word: declared,
            names,
            name,
            extents,
        } => feed_after_array(alloc, nesting, declared, names, name, extents, word),
    }
}

fn first_place(alloc: Global, word: DeclWord) -> DeclarePlace
    ensures { result ≡ declare_place word }
{
    let names = Items::new(alloc);
    match word {
        DeclWord::Param => DeclarePlace::Parameter(names),
        word => DeclarePlace::Array { word, names },
    }
}

/// Goes on by one token where a declaration, a statement or the end comes next.
pub(crate) fn feed_declaration(
    alloc: Global,
    nesting: Nesting,
    word: Lexeme,
    token: u32,
) -> Result<Option<Reader>, AllocError>
    ensures { IfOk result
        (λ after. feed_declaration (inside_out nesting) (word, token) ≡ option_map state_of after) }
{
    match word {
        Lexeme::Declare(word) => Ok(declaring(nesting, first_place(alloc, word))),
        word => feed_statement(alloc, nesting, word, token),
    }
}
