ghost use Rattle.std.specs.Prelude.{◌≡◌, length, OnOk, OnErr};
ghost use Rattle.std.specs.List.{flat_map};
ghost use Rattle.std.specs.Io.KnownBytes.{Appends};
ghost use Rattle.io_edge.specs.Causes.{Rose, AppendsFront};
ghost use Rattle.sanlp.specs.Cells.{is_output};
ghost use Rattle.text_out.specs.Wrote.{Wrote};
ghost use Rattle.array_data.specs.Answer.{cell_text, array_text, answer_text};

use io_edge::{Sink, WriteFault};
use plain_data::Items;
use sanlp::{ArrayDecl, Arrays, Kind, Nest};
use text_out::{TextWriter, Writer, write_number};

fn is_printed(kind: Kind) -> bool
    ensures { result ≡ is_output kind }
{
    matches!(kind, Kind::Output | Kind::Both)
}

fn write_cell<W: TextWriter>(cell: i64, out: &mut W)
    ensures { Wrote W.given out.old out.new (cell_text cell) }
{
    out.put(b",");
    write_number(cell, out);
}

fn write_cells<W: TextWriter>(cells: &[i64], out: &mut W)
    ensures { Wrote W.given out.old out.new (flat_map cell_text cells.now) }
{
    for cell in cells {
        write_cell(*cell, out);
    }
}

/// Writes the line of one array, or nothing where the array is no output.
fn write_array<W: TextWriter>(array: &ArrayDecl, cells: &[i64], out: &mut W)
    ensures { Wrote W.given out.old out.new (array_text array.now cells.now) }
{
    if is_printed(array.kind) {
        out.put(array.name.as_slice());
        write_cells(cells, out);
        out.put(b"\n");
    }
}

/// Writes the line of each output. There are as many lists of cells as arrays.
fn write_arrays<W: TextWriter>(arrays: &[ArrayDecl], lists: &[Items<i64>], out: &mut W)
    requires { length lists.now ≡ length arrays.now }
    ensures { Wrote W.given out.old out.new (answer_text arrays.now lists.now) }
{
    for (i, array) in arrays.iter().enumerate() {
        write_array(array, lists[i].as_slice(), out);
    }
}

/// Writes the answer text. It takes no memory.
///
/// For each `out` or `inout` array in declaration order there is one line: its name, then a comma and the decimal value
/// for each cell, in row-major order. At `WriteFault` the sink holds what it held and a front of the text, and its count
/// rose in this call.
pub fn write_answer<K: Sink>(nest: &Nest, arrays: &Arrays, sink: &mut K) -> Result<(), WriteFault>
    requires { length arrays.now.arrays ≡ length nest.now.arrays }
    ensures ok { OnOk result (Appends (K.held sink.old) (K.held sink.new)
        (answer_text nest.now.arrays arrays.now.arrays)) }
    ensures quiet { OnOk result (K.faults sink.new ≡ K.faults sink.old) }
    ensures front { OnErr result (AppendsFront (K.held sink.old) (K.held sink.new)
        (answer_text nest.now.arrays arrays.now.arrays)) }
    ensures cause { OnErr result (Rose (K.faults sink.old) (K.faults sink.new)) }
{
    let mut out = Writer::new(sink);
    write_arrays(nest.arrays.as_slice(), arrays.arrays.as_slice(), &mut out);
    out.finish()
}
