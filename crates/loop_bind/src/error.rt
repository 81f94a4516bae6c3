ghost use Rattle.std.specs.Prelude.{◌≡◌};
ghost use Rattle.loop_bind.specs.Reasons.{place_of, number_of, comes_first, lesser};

use std::alloc::AllocError;
use std::fmt;
use std::fmt::{Display, Formatter, Write};
use thiserror::Error;

/// Why a tree with these values of its parameters is no nest. Each place is that of a token,
/// counted from 0.
#[derive(Clone, Copy, Debug, PartialEq, Eq, Error)]
pub enum BindError {
    /// The name isn't in scope, or isn't of the kind that its place wants.
    UnknownName(u32),
    /// The name is in scope already.
    Duplicate(u32),
    /// The parameter has no value.
    Unbound(u32),
    /// What stands there, where an affine form must stand, is none.
    NotAffine(u32),
    /// The access has another number of subscripts than its array has extents.
    WrongCount(u32),
    /// The `else` follows a guard of more than one comparison or of `==`.
    ElseForm(u32),
    /// The 65th process begins there.
    TooManyProcesses(u32),
    /// The seventh nested loop begins there, or the array has more than 6 extents.
    TooDeep(u32),
    /// The ninth access of a right side.
    TooManyReads(u32),
    /// The statement has more than 32 rows.
    TooManyRows(u32),
    /// A number of the affine form there, or the parameter's value, is outside of 2,147,483,647 and
    /// its negative.
    Large(u32),
    /// A step above 1 stands there, and the lower bound has more than one form.
    StepMax(u32),
    /// A step below 1 stands there.
    StepRange(u32),
    /// Want of memory.
    Memory,
}

impl From<AllocError> for BindError {
    ghost use Rattle.std.specs.Prelude.{◌≡◌};
    ghost use Rattle.loop_bind.specs.declared.error.BindError.TheVariants.{Memory};

    ghost from_gives = { λ _ e. e ≡ Memory };

    fn from(_: AllocError) -> BindError {
        BindError::Memory
    }
}

// What is wrong there.
fn message(reason: BindError) -> &'static str {
    match reason {
        BindError::UnknownName(_) => "this name isn't in scope, or not of this kind",
        BindError::Duplicate(_) => "this name is in scope already",
        BindError::Unbound(_) => "this parameter has no value",
        BindError::NotAffine(_) => "an affine form must stand here",
        BindError::WrongCount(_) => "the array has another number of extents",
        BindError::ElseForm(_) => "no `else` follows such a guard",
        BindError::TooManyProcesses(_) => "the 65th process",
        BindError::TooDeep(_) => "more than 6 nested loops or extents",
        BindError::TooManyReads(_) => "the ninth read of a statement",
        BindError::TooManyRows(_) => "the statement has more than 32 rows",
        BindError::Large(_) => "a number outside of 2147483647 and its negative",
        BindError::StepMax(_) => "a loop with this step has one lower bound",
        BindError::StepRange(_) => "a step below 1",
        BindError::Memory => "no memory",
    }
}

impl Display for BindError {
    fn fmt<W: Write>(&self, f: &mut Formatter<W>) -> fmt::Result {
        match *self {
            BindError::Memory => f.write_str(message(*self)),
            reason => write!(f, "token {}: {}", place(reason), message(reason)),
        }
    }
}

fn place(reason: BindError) -> u32
    ensures { result ≡ place_of reason }
{
    match reason {
        BindError::UnknownName(token) => token,
        BindError::Duplicate(token) => token,
        BindError::Unbound(token) => token,
        BindError::NotAffine(token) => token,
        BindError::WrongCount(token) => token,
        BindError::ElseForm(token) => token,
        BindError::TooManyProcesses(token) => token,
        BindError::TooDeep(token) => token,
        BindError::TooManyReads(token) => token,
        BindError::TooManyRows(token) => token,
        BindError::Large(token) => token,
        BindError::StepMax(token) => token,
        BindError::StepRange(token) => token,
        BindError::Memory => 0,
    }
}

fn number(reason: BindError) -> u32
    ensures { result ≡ number_of reason }
{
    match reason {
        BindError::UnknownName(_) => 1,
        BindError::Duplicate(_) => 2,
        BindError::Unbound(_) => 3,
        BindError::NotAffine(_) => 4,
        BindError::WrongCount(_) => 5,
        BindError::ElseForm(_) => 6,
        BindError::TooManyProcesses(_) => 7,
        BindError::TooDeep(_) => 8,
        BindError::TooManyReads(_) => 9,
        BindError::TooManyRows(_) => 10,
        BindError::Large(_) => 11,
        BindError::Memory => 12,
        BindError::StepMax(_) => 13,
        BindError::StepRange(_) => 14,
    }
}

fn precedes(a: BindError, b: BindError) -> bool
    ensures { result ≡ comes_first a b }
{
    place(a) < place(b) || (place(a) == place(b) && number(a) < number(b))
}

/// Keeps the least reason: that at the least place, and at one place that of the least number.
#[inline(never)]
pub(crate) fn note(least: &mut Option<BindError>, found: BindError)
    ensures { least.new ≡ lesser least.old found }
{
    let comes_first = match *least {
        None => true,
        Some(old) => precedes(found, old),
    };
    if comes_first {
        *least = Some(found);
    }
}
