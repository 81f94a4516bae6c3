ghost use Rattle.std.specs.Prelude.{◌≡◌, OnOk, OnErr};
ghost use Rattle.std.specs.Io.KnownBytes.{Appends};
ghost use Rattle.io_edge.specs.Causes.{Rose, AppendsFront};
ghost use Rattle.text_out.specs.Wrote.{Wrote};
ghost use Rattle.matrix_load.specs.Summary.{line_text, summary_text, wrapping_sum as sum_of};

use io_edge::{Sink, WriteFault};
use itoa::Integer;
use text_out::{TextWriter, Writer, write_number};

/// What a run came to.
#[derive(Clone, Copy, Debug, PartialEq, Eq)]
pub struct Summary {
    /// The length of the trace.
    pub points: u64,
    /// The number of channels.
    pub channels: u64,
    /// The number of events of all processes.
    pub events: u64,
    /// The sum of the cells of the product.
    pub sum: i64,
}

/// The sum of these cells, in 64-bit two's complement.
pub fn wrapping_sum(cells: &[i64]) -> i64
    ensures { result ≡ sum_of cells.now }
{
    let mut sum: i64 = 0;
    for cell in cells {
        sum = sum.wrapping_add(*cell);
    }
    sum
}

/// Writes a name and a number as a line.
fn write_line<I: Integer, W: TextWriter>(name: &[u8], number: I, out: &mut W)
    ensures { Wrote W.given out.old out.new (line_text name.now (I.text number)) }
{
    out.put(name);
    write_number(number, out);
    out.put(b"\n");
}

fn write_lines<W: TextWriter>(summary: &Summary, out: &mut W)
    ensures { Wrote W.given out.old out.new
        (summary_text summary.now.points summary.now.channels summary.now.events summary.now.sum) }
{
    write_line(b"points ", summary.points, out);
    write_line(b"channels ", summary.channels, out);
    write_line(b"events ", summary.events, out);
    write_line(b"sum ", summary.sum, out);
}

/// Writes the four lines of a summary. It takes no memory.
///
/// They are `points`, `channels`, `events` and `sum`, each with its number in decimal after a space. At `WriteFault` the
/// sink holds what it held and a front of the text, and its count rose in this call.
pub fn write_summary<K: Sink>(summary: &Summary, sink: &mut K) -> Result<(), WriteFault>
    ensures ok { OnOk result (Appends (K.held sink.old) (K.held sink.new)
        (summary_text summary.now.points summary.now.channels summary.now.events summary.now.sum)) }
    ensures quiet { OnOk result (K.faults sink.new ≡ K.faults sink.old) }
    ensures front { OnErr result (AppendsFront (K.held sink.old) (K.held sink.new)
        (summary_text summary.now.points summary.now.channels summary.now.events summary.now.sum)) }
    ensures cause { OnErr result (Rose (K.faults sink.old) (K.faults sink.new)) }
{
    let mut out = Writer::new(sink);
    write_lines(summary, &mut out);
    out.finish()
}
