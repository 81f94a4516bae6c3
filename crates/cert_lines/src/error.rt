use std::alloc::AllocError;
use thiserror::Error;

/// Why a text isn't that of a network with its certificate. Lines count from 1.
///
/// The first line with a fault decides. Of one line `Line` comes before `Number`, and `Number` before `Deep`; `Long` comes
/// only where no line has a fault.
#[derive(Clone, Copy, Debug, PartialEq, Eq, Error)]
pub enum CertError {
    /// This line has not the words that its place wants, or stands behind `end`.
    #[error("line {0} has not the words that its place wants")]
    Line(u64),
    /// This line has the right words, with a number out of its range.
    #[error("line {0} has a number out of its range")]
    Number(u64),
    /// The text ends before `end`, or within a line.
    #[error("the text ends before `end`, or within a line")]
    Truncated,
    /// This line begins a tree, a proof or a repeat that is nested more than 512 deep.
    #[error("line {0} is nested too deep")]
    Deep(u64),
    /// The scripts of the processes up to this one stand for too many events together; or the schedule stands for too
    /// many entries, and this is the number of processes.
    #[error("the scripts up to process {0}, or the schedule, are too long")]
    Long(u32),
    /// Want of memory.
    #[error("no memory")]
    Memory,
}

impl From<AllocError> for CertError {
    ghost use Rattle.std.specs.Prelude.{◌≡◌};
    ghost use Rattle.cert_lines.specs.declared.error.CertError.TheVariants.{Memory};

    ghost from_gives = { λ _ error. error ≡ Memory };

    fn from(_failed: AllocError) -> CertError {
        CertError::Memory
    }
}

/// What is wrong with a line, whatever its number. Where both are, it is its words.
#[derive(Clone, Copy, Debug, PartialEq, Eq)]
pub enum Fault {
    /// It has not the words that its place wants.
    Words,
    /// It has them, with a number out of its range.
    Range,
}
