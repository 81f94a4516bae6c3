//! Lines that are read by what they say.

ghost use Rattle.std.specs.Prelude.{◌≡◌, ℕ, List, Result};
ghost use Rattle.cert_lines.specs.Words.{words_of};
ghost use Rattle.cert_lines.specs.Reading.{Reads, line as one_line, many};
ghost use Rattle.cert_lines.specs.declared.error.Fault.{Fault as LineFault};

use cert_lines::{CertError, Fault, Lines};
use plain_data::Items;
use std::alloc::Global;

/// What one line says.
pub(crate) trait FromLine: Drop {
    /// What these words say, or what is wrong with them.
    ghost judged: { List (List ℕ) → Result Self LineFault };

    fn from_line(line: &[u8]) -> Result<Self, Fault>
        ensures { result ≡ judged (words_of line.now) };
}

/// What the next line says.
pub(crate) fn read_line<T: FromLine>(lines: &mut Lines) -> Result<T, CertError>
    ensures { Reads result lines.new (one_line T.judged lines.old) }
{
    let Some(line) = lines.next() else {
        return Err(CertError::Truncated);
    };
    let said = T::from_line(line);
    lines.told(said)
}

/// What the next lines say, of which there are so many.
pub(crate) fn read_lines<T: FromLine>(
    alloc: Global,
    count: u32,
    lines: &mut Lines,
) -> Result<Items<T>, CertError>
    ensures { Reads result lines.new (many (one_line T.judged) count lines.old) }
{
    let mut items = Items::new(alloc);
    for _ in 0..count {
        items.push(read_line(lines)?)?;
    }
    Ok(items)
}
