ghost use Rattle.std.specs.Prelude.{◌≡◌, OnOk, OnErr};
ghost use Rattle.std.specs.List.{flat_map};
ghost use Rattle.std.specs.Io.KnownBytes.{Appends};
ghost use Rattle.io_edge.specs.Causes.{Rose, AppendsFront};
ghost use Rattle.text_out.specs.Wrote.{Wrote};
ghost use Rattle.trace_text.specs.TraceText.{entry_line, trace_text};

use io_edge::{Sink, WriteFault};
use text_out::{TextWriter, Word, Writer, write_line};

// Writes the line of one event: the number of its process.
fn write_entry<W: TextWriter>(process: u32, out: &mut W)
    ensures { Wrote W.given out.old out.new (entry_line process) }
{
    write_line(&[Word::Number(u64::from(process))], out);
}

#[tactic(auto, using(text_out::proofs::ItemNumbers::numbered))]
fn write_entries<W: TextWriter>(run: &[u32], out: &mut W)
    ensures { Wrote W.given out.old out.new (flat_map entry_line run.now) }
{
    for process in run {
        write_entry(*process, out);
    }
}

fn write_text<W: TextWriter>(run: &[u32], out: &mut W)
    ensures { Wrote W.given out.old out.new (trace_text run.now) }
{
    write_line(&[Word::Text(b"trace"), Word::Text(b"1")], out);
    write_entries(run, out);
    write_line(&[Word::Text(b"end")], out);
}

/// Writes the text of a run. It takes no memory.
///
/// After `trace 1` there is one line for each event, with the number of the process that makes it, and then `end`.
/// The lines between are those of a schedule in a certificate. At `WriteFault` the sink holds what it held and a
/// front of the text, and its count rose in this call.
pub fn write_trace<K: Sink>(run: &[u32], sink: &mut K) -> Result<(), WriteFault>
    ensures ok { OnOk result (Appends (K.held sink.old) (K.held sink.new) (trace_text run.now)) }
    ensures quiet { OnOk result (K.faults sink.new ≡ K.faults sink.old) }
    ensures front { OnErr result
        (AppendsFront (K.held sink.old) (K.held sink.new) (trace_text run.now)) }
    ensures cause { OnErr result (Rose (K.faults sink.old) (K.faults sink.new)) }
{
    let mut out = Writer::new(sink);
    write_text(run, &mut out);
    out.finish()
}
