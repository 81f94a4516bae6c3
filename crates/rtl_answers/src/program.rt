ghost use Rattle.std.specs.Process.{exit_status};
ghost use Rattle.rtl_line.specs.Words.{order_of};
ghost use Rattle.call_endings.specs.Changes.{change};
ghost use Rattle.call_endings.specs.Programs.{IsRunOf};
ghost use Rattle.rtl_answers.specs.Calls.{IsDesignCallOf};

use crate::call::compaan_rtl;
use call_endings::Streams;
use command_answers::Status;
use io_edge::{Sink, Source};
use std::alloc::Global;
use std::io;
use std::process::ExitCode;

/// The program: the call for the words that it was given, over its streams, and the status that its process exits with.
pub fn run_design_program<S: Source, K: Sink, E: Sink>(
    alloc: Global,
    given: io::Result<Vec<String>>,
    streams: &mut Streams<S, K, E>,
) -> ExitCode
    ensures { IsRunOf (λ words. IsDesignCallOf (order_of words)) given
        (change S.left S.faults streams.old.input streams.new.input)
        (change K.held K.faults streams.old.output streams.new.output)
        (change E.held E.faults streams.old.complaint streams.new.complaint)
        (exit_status result) }
{
    match given {
        Ok(words) => {
            let number = compaan_rtl(
                alloc,
                words.as_slice(),
                &mut streams.input,
                &mut streams.output,
                &mut streams.complaint,
            );
            ExitCode::from(number)
        }
        Err(_) => ExitCode::from(Status::NoWords.number()),
    }
}
