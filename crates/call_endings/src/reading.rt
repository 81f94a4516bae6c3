ghost use Rattle.std.specs.Prelude.{map, string_bytes};
ghost use Rattle.command_line.specs.Words.{order_of};
ghost use Rattle.command_answers.specs.Judging.{Judges};
ghost use Rattle.call_endings.specs.Changes.{change};
ghost use Rattle.call_endings.specs.Planned.{IsOrdered, ReadsBundle};

use command_answers::{Refusal, Stop};
use command_line::{Order, WordsError, read_words};
use io_edge::{ReadError, Source, read_all};
use std::alloc::Global;

/// The most bytes that a bundle has.
const BUNDLE_LIMIT: usize = 67_108_864;

/// The order that the words give, or the refusal of them. Nothing is read or written.
pub fn order_of(alloc: Global, words: &[String]) -> Result<Order, Stop>
    ensures { Judges (IsOrdered (order_of (map string_bytes words.now))) result }
{
    match read_words(alloc, words) {
        Ok(order) => Ok(order),
        Err(WordsError::Words) => Err(Stop::Refused(Refusal::Usage)),
        Err(WordsError::Memory) => Err(Stop::Memory),
    }
}

/// The bundle that the source has left. It takes at most a byte past the limit of 67,108,864, and one with so many is refused.
pub fn bundle_of<S: Source>(alloc: Global, input: &mut S) -> Result<Vec<u8>, Stop>
    ensures { ReadsBundle (change S.left S.faults input.old input.new) result }
{
    match read_all(alloc, input, BUNDLE_LIMIT) {
        Ok(bundle) => Ok(bundle),
        Err(ReadError::TooLong) => Err(Stop::Refused(Refusal::TooLong)),
        Err(ReadError::ReadFault) => Err(Stop::ReadFault),
        Err(ReadError::Memory) => Err(Stop::Memory),
    }
}
