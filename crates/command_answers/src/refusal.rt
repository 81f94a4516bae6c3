ghost use Rattle.std.specs.Prelude.{◌≡◌};
ghost use Rattle.command_answers.specs.Refusals.{bind_refusal, byte_of, data_refusal, lex_refusal, size_refusal, syntax_refusal, too_many_rows};
ghost use Rattle.command_answers.specs.declared.refusal.Stop.TheVariants.{Memory};

use array_data::DataError;
use loop_class::BindError;
use loop_lex::{LexError, Token};
use loop_walk::SizeError;
use plain_data::Items;
use sanlp::ArrayDecl;
use std::alloc::AllocError;

/// What is wrong with the text of a source.
#[derive(Clone, Copy)]
pub enum TextReason {
    BadByte,
    OpenComment,
    LargeNumber,
    TooMany,
    Syntax,
}

/// Why a source is outside of the class of programs.
#[derive(Clone, Copy)]
pub enum ClassReason {
    UnknownName,
    Duplicate,
    Unbound,
    NotAffine,
    WrongCount,
    ElseForm,
    StepMax,
    StepRange,
}

/// Which limit a nest passes.
#[derive(Clone, Copy)]
pub enum LimitReason {
    TooManyProcesses,
    TooDeep,
    TooManyReads,
    TooManyRows,
    Large,
    Size,
    LoopValue,
}

/// Why the program refuses what it was given.
#[derive(Drop)]
pub enum Refusal {
    /// The words are refused.
    Usage,
    /// The bundle has too many bytes.
    TooLong,
    /// `check` wants a certificate part, which stands behind a second separator.
    NoPart,
    /// The source has no tree. The byte says where.
    Text(TextReason, u64),
    /// The tree is no nest. A token starts at the byte.
    Class(ClassReason, u64),
    /// A limit is passed. The number is the byte at which a token starts, the count of the size, or that of a loop.
    Limit(LimitReason, u64),
    /// The process of this number has a script of so many events, which is too long for VHDL.
    Script(u32, u64),
    /// This record names no array.
    UnknownArray(u64),
    /// This record names the array of an earlier one.
    Twice(u64),
    /// No record names the array of this number among these.
    Missing(Items<ArrayDecl>, u32),
    /// This record has so many values, and its array so many cells.
    Count(u64, u64, u64),
    /// In this record this field is no value.
    NotANumber(u64, u64),
}

/// Why there is nothing to write on the output.
#[derive(Drop)]
pub enum Stop {
    Refused(Refusal),
    /// The source failed.
    ReadFault,
    /// Want of memory.
    Memory,
}

impl From<AllocError> for Stop {
    ghost from_gives = { λ _ e. e ≡ Memory };

    fn from(_: AllocError) -> Stop {
        Stop::Memory
    }
}

/// The matrices of `load` have too many rows: so has their parameter, whose name starts at the source's byte 6.
pub(crate) fn too_many_rows() -> Refusal
    ensures { result ≡ too_many_rows }
{
    Refusal::Limit(LimitReason::Large, 6)
}

/// The byte at which the token of this number starts, or the length of the source for the place at the end.
fn byte_of(source: &[u8], tokens: &[Token], number: u32) -> u64
    ensures { result ≡ byte_of source.now tokens.now number }
{
    match tokens.get(number as usize) {
        Some(token) => u64::from(token.start),
        None => source.len() as u64,
    }
}

/// The refusal of an error of lexing, or `None` for want of memory.
pub(crate) fn lex_refusal(error: LexError) -> Option<Refusal>
    ensures { result ≡ lex_refusal error }
{
    match error {
        LexError::BadByte(byte) => Some(Refusal::Text(TextReason::BadByte, u64::from(byte))),
        LexError::OpenComment(byte) => {
            Some(Refusal::Text(TextReason::OpenComment, u64::from(byte)))
        }
        LexError::LargeNumber(byte) => {
            Some(Refusal::Text(TextReason::LargeNumber, u64::from(byte)))
        }
        LexError::TooMany(byte) => Some(Refusal::Text(TextReason::TooMany, u64::from(byte))),
        LexError::Memory => None,
    }
}

/// The refusal of a source at this place of its tokens: no rule of the grammar goes on there.
pub(crate) fn syntax_refusal(source: &[u8], tokens: &[Token], place: u32) -> Refusal
    ensures { result ≡ syntax_refusal (byte_of source.now tokens.now place) }
{
    Refusal::Text(TextReason::Syntax, byte_of(source, tokens, place))
}

/// The refusal of a reason of binding, or `None` for want of memory.
pub(crate) fn bind_refusal(source: &[u8], tokens: &[Token], reason: BindError) -> Option<Refusal>
    ensures { result ≡ bind_refusal (byte_of source.now tokens.now) reason }
{
    let refusal = match reason {
        BindError::UnknownName(token) => {
            Refusal::Class(ClassReason::UnknownName, byte_of(source, tokens, token))
        }
        BindError::Duplicate(token) => {
            Refusal::Class(ClassReason::Duplicate, byte_of(source, tokens, token))
        }
        BindError::Unbound(token) => {
            Refusal::Class(ClassReason::Unbound, byte_of(source, tokens, token))
        }
        BindError::NotAffine(token) => {
            Refusal::Class(ClassReason::NotAffine, byte_of(source, tokens, token))
        }
        BindError::WrongCount(token) => {
            Refusal::Class(ClassReason::WrongCount, byte_of(source, tokens, token))
        }
        BindError::ElseForm(token) => {
            Refusal::Class(ClassReason::ElseForm, byte_of(source, tokens, token))
        }
        BindError::StepMax(token) => {
            Refusal::Class(ClassReason::StepMax, byte_of(source, tokens, token))
        }
        BindError::StepRange(token) => {
            Refusal::Class(ClassReason::StepRange, byte_of(source, tokens, token))
        }
        BindError::TooManyProcesses(token) => {
            Refusal::Limit(
                LimitReason::TooManyProcesses,
                byte_of(source, tokens, token),
            )
        }
        BindError::TooDeep(token) => {
            Refusal::Limit(LimitReason::TooDeep, byte_of(source, tokens, token))
        }
        BindError::TooManyReads(token) => {
            Refusal::Limit(LimitReason::TooManyReads, byte_of(source, tokens, token))
        }
        BindError::TooManyRows(token) => {
            Refusal::Limit(LimitReason::TooManyRows, byte_of(source, tokens, token))
        }
        BindError::Large(token) => {
            Refusal::Limit(LimitReason::Large, byte_of(source, tokens, token))
        }
        BindError::Memory => return None,
    };
    Some(refusal)
}

/// The refusal of a nest that is too large, or of a loop value that is.
pub(crate) fn size_refusal(error: SizeError) -> Refusal
    ensures { result ≡ size_refusal error }
{
    match error {
        SizeError::Limit(count) => Refusal::Limit(LimitReason::Size, count),
        SizeError::LoopValue(number) => {
            Refusal::Limit(LimitReason::LoopValue, u64::from(number))
        }
    }
}

/// The refusal of a fault of the data for these arrays, or `None` for want of memory.
pub(crate) fn data_refusal(arrays: Items<ArrayDecl>, fault: DataError) -> Option<Refusal>
    ensures { result ≡ data_refusal arrays fault }
{
    match fault {
        DataError::UnknownArray(number) => Some(Refusal::UnknownArray(number)),
        DataError::Twice(number) => Some(Refusal::Twice(number)),
        DataError::Missing(array) => Some(Refusal::Missing(arrays, array)),
        DataError::Count(number, got, want) => Some(Refusal::Count(number, got, want)),
        DataError::NotANumber(number, field) => Some(Refusal::NotANumber(number, field)),
        DataError::Memory => None,
    }
}
