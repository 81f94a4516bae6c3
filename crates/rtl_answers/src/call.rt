ghost use Rattle.std.specs.Prelude.{◌≡◌, Some, map, string_bytes};
ghost use Rattle.rtl_line.specs.Words.{order_of};
ghost use Rattle.rtl_line.specs.declared.words.Order.{Order as WordOrder};
ghost use Rattle.call_endings.specs.Changes.{Change, Writes, change};
ghost use Rattle.rtl_answers.specs.Calls.{EndsDesign, IsDesignCallOf, IsDesignPlanned, TellsUsage, usage_line};

use crate::answer::{Answer, answer_to, write_answer};
use call_endings::{bundle_of, tell_stop};
use command_answers::{Status, Stop};
use command_line::WordsError;
use io_edge::{Sink, Source, WriteFault};
use rtl_line::{Order, read_words};
use std::alloc::Global;
use text_out::{Word, Writer, write_line};

// What an order and the bundle come to.
fn answer_for<S: Source>(alloc: Global, order: &Order, input: &mut S) -> Result<Answer, Stop>
    ensures { IsDesignPlanned order.now (change S.left S.faults input.old input.new) result }
{
    let bundle = bundle_of(alloc, input)?;
    answer_to(alloc, order, &bundle)
}

// Writes what was planned.
fn finish<K: Sink, E: Sink>(
    planned: Result<Answer, Stop>,
    output: &mut K,
    complaint: &mut E,
) -> Status
    ensures { (order : WordOrder) (input : Change) → IsDesignPlanned order input planned
        → EndsDesign (Some order) input (change K.held K.faults output.old output.new)
        (change E.held E.faults complaint.old complaint.new) result }
{
    match planned {
        Ok(answer) => match write_answer(&answer, output) {
            Ok(()) => Status::Done,
            Err(_) => Status::OutputFailed,
        },
        Err(stop) => tell_stop(stop, complaint),
    }
}

fn write_usage<K: Sink>(sink: &mut K) -> Result<(), WriteFault>
    ensures { Writes (change K.held K.faults sink.old sink.new) usage_line result }
{
    let mut out = Writer::new(sink);
    write_line(
        &[Word::Text(
            b"usage: compaan_rtl [NAME=VALUE].. [--policy seq|down|least] [--ports one|all] [--clocks]",
        )],
        &mut out,
    );
    out.finish()
}

// Tells that the words are refused.
fn tell_usage<E: Sink>(complaint: &mut E) -> Status
    ensures { TellsUsage (change E.held E.faults complaint.old complaint.new) result }
{
    match write_usage(complaint) {
        Ok(()) => Status::WordsRefused,
        Err(_) => Status::OutputFailed,
    }
}

// Carries out what the words order.
fn carry_out<S: Source, K: Sink, E: Sink>(
    alloc: Global,
    words: &[String],
    input: &mut S,
    output: &mut K,
    complaint: &mut E,
) -> Status
    ensures { EndsDesign (order_of (map string_bytes words.now))
        (change S.left S.faults input.old input.new)
        (change K.held K.faults output.old output.new)
        (change E.held E.faults complaint.old complaint.new) result }
{
    match read_words(alloc, words) {
        Ok(order) => {
            let planned = answer_for(alloc, &order, input);
            finish(planned, output, complaint)
        }
        Err(WordsError::Words) => tell_usage(complaint),
        Err(WordsError::Memory) => Status::NoMemory,
    }
}

/// All that the program `compaan_rtl` does: it writes a design of the network of a bundle's source (as ESPAM writes one for a network,
/// here with control by counters), or how many clocks that network takes: with one port of a process after the other, as in that
/// design, or with each at its own pace. `EndsDesign` has how the call may end, whatever the source and the sinks are.
///
/// The bundle is that of `compaan`, and so are the refusals of it and the statuses. The number that it answers is that of a
/// `Status`: 0 where a design or the clocks were written, 2 where the words are refused, 3 and 4 where the source or a sink failed, 5
/// to 7 where the bundle, the text or the class is refused, 8 where a limit is passed, and 10 for want of memory.
pub fn compaan_rtl<S: Source, K: Sink, E: Sink>(
    alloc: Global,
    words: &[String],
    input: &mut S,
    output: &mut K,
    complaint: &mut E,
) -> u8
    ensures { IsDesignCallOf (order_of (map string_bytes words.now))
        (change S.left S.faults input.old input.new)
        (change K.held K.faults output.old output.new)
        (change E.held E.faults complaint.old complaint.new) result }
{
    carry_out(alloc, words, input, output, complaint).number()
}
