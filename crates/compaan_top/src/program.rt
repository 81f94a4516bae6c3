ghost use Rattle.std.specs.Process.{exit_status};
ghost use Rattle.command_line.specs.Words.{order_of};
ghost use Rattle.call_endings.specs.Changes.{change};
ghost use Rattle.call_endings.specs.Programs.{IsRunOf};
ghost use Rattle.compaan_top.specs.Calls.{IsCallOf};

use crate::call::compaan;
use call_endings::Streams;
use command_answers::Status;
use io_edge::{Open, Sink, Source};
use std::alloc::Global;
use std::io;
use std::process::ExitCode;
use std::sync::Wait;
use std::thread::Threads;

/// The program: the call for the words that it was given, over its streams, and the status that its process exits with.
pub fn run_program<R: Threads + Wait + Sync, S: Source, K: Sink, E: Sink>(
    rt: &R,
    alloc: Global,
    given: io::Result<Vec<String>>,
    streams: &mut Streams<S, K, E>,
) -> ExitCode
    ensures { IsRunOf (λ words. IsCallOf (order_of words)) given
        (change S.left S.faults streams.old.input streams.new.input)
        (change K.held K.faults streams.old.output streams.new.output)
        (change E.held E.faults streams.old.complaint streams.new.complaint)
        (exit_status result) }
{
    match given {
        Ok(words) => {
            let number = compaan(
                rt,
                alloc,
                words.as_slice(),
                &mut streams.input,
                &mut streams.output,
                &mut streams.complaint,
                &Open,
            );
            ExitCode::from(number)
        }
        Err(_) => ExitCode::from(Status::NoWords.number()),
    }
}
