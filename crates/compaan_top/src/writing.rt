ghost use Rattle.std.specs.Prelude.{◌≡◌};
ghost use Rattle.vhdl_text.specs.VhdlText.{vhdl_text};
ghost use Rattle.command_answers.specs.Replying.{reply_of};
ghost use Rattle.command_answers.specs.Simulating.{clocked_text, clocks_line};
ghost use Rattle.call_endings.specs.Changes.{Writes, change};

use array_data::write_answer;
use command_answers::{Answer, ClockedAnswer, NodesAnswer, Status};
use deps_text::write_deps;
use io_edge::{Sink, WriteFault};
use matrix_load::write_summary;
use net_checker::Verdict;
use net_text::write_network;
use number_text::write_numbers;
use text_out::{Word, Writer, write_line};
use trace_text::write_trace;
use trim_text::write_trim;
use verdict_text::{write_unread, write_verdict};
use vhdl_text::{VhdlError, write_vhdl};

fn write_nodes<K: Sink>(answer: &NodesAnswer, sink: &mut K) -> Result<(), WriteFault>
    ensures { Writes (change K.held K.faults sink.old sink.new)
        (vhdl_text answer.now.network answer.now.autos) result }
{
    match write_vhdl(&answer.network, answer.autos.as_slice(), sink) {
        Ok(()) => Ok(()),
        Err(VhdlError::WriteFault) => Err(WriteFault),
        Err(VhdlError::ScriptTooLong(_, _)) => unreachable!(),
    }
}

fn write_clocks<K: Sink>(clocks: u64, sink: &mut K) -> Result<(), WriteFault>
    ensures { Writes (change K.held K.faults sink.old sink.new) (clocks_line clocks) result }
{
    let mut out = Writer::new(sink);
    write_line(&[Word::Text(b"clocks"), Word::Number(clocks)], &mut out);
    out.finish()
}

fn write_clocked<K: Sink>(answer: &ClockedAnswer, sink: &mut K) -> Result<(), WriteFault>
    ensures { Writes (change K.held K.faults sink.old sink.new)
        (clocked_text answer.now.nest.arrays answer.now.clocked.arrays.arrays
        answer.now.clocked.clocks) result }
{
    write_answer(&answer.nest, &answer.clocked.arrays, sink)?;
    write_clocks(answer.clocked.clocks, sink)
}

/// Writes an answer's text. It takes no memory.
pub(crate) fn write_text<K: Sink>(answer: &Answer, sink: &mut K) -> Result<(), WriteFault>
    ensures { Writes (change K.held K.faults sink.old sink.new) (reply_of answer.now).text result }
{
    match answer {
        Answer::Arrays(answer) => write_answer(&answer.nest, &answer.arrays, sink),
        Answer::Network(answer) => write_network(&answer.nest, &answer.network, sink),
        Answer::Numbers(answer) => write_numbers(&answer.nest, &answer.numbers, sink),
        Answer::Verdict(verdict) => write_verdict(verdict, sink),
        Answer::Unread(error) => write_unread(*error, sink),
        Answer::Summary(summary) => write_summary(summary, sink),
        Answer::Nodes(answer) => write_nodes(answer, sink),
        Answer::Clocked(answer) => write_clocked(answer, sink),
        Answer::Trimmed(trimmed) => {
            write_trim(
                trimmed.capacities.as_slice(),
                trimmed.rests.as_slice(),
                sink,
            )
        }
        Answer::Trace(run) => write_trace(run.as_slice(), sink),
        Answer::Dependences(answer) => {
            write_deps(
                &answer.nest,
                answer.dependences.as_slice(),
                &answer.swept,
                sink,
            )
        }
    }
}

/// The status of a program that has written an answer.
pub(crate) fn status_of(answer: &Answer) -> Status
    ensures { result ≡ (reply_of answer.now).status }
{
    match answer {
        Answer::Arrays(_)
        | Answer::Network(_)
        | Answer::Numbers(_)
        | Answer::Summary(_)
        | Answer::Nodes(_)
        | Answer::Clocked(_)
        | Answer::Trimmed(_)
        | Answer::Trace(_)
        | Answer::Dependences(_) => Status::Done,
        Answer::Verdict(Verdict::Accepted) => Status::Done,
        Answer::Verdict(Verdict::Refused(_)) => Status::CertificateRefused,
        Answer::Unread(_) => Status::CertificateRefused,
    }
}
