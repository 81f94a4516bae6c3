ghost use Rattle.std.specs.Prelude.{◌≡◌, ◌++◌, [], codes, decimal, slice_index_or, OnOk, OnErr};
ghost use Rattle.std.specs.List.{flat_map};
ghost use Rattle.std.specs.Io.KnownBytes.{Appends};
ghost use Rattle.io_edge.specs.Causes.{Rose, AppendsFront};
ghost use Rattle.text_out.specs.Wrote.{Wrote};
ghost use Rattle.trim_text.specs.TrimText.{channel_line, channel_lines, trim_text};

use io_edge::{Sink, WriteFault};
use plain_data::Items;
use text_out::{TextWriter, Word, Writer, write_line, write_spaced, write_words};

/// Writes positions with a space before each.
fn write_positions<W: TextWriter>(positions: &[u32], out: &mut W)
    ensures { Wrote W.given out.old out.new
        (flat_map (λ position. codes " " ++ decimal position) positions.now) }
{
    for position in positions {
        write_spaced(Word::Number(u64::from(*position)), out);
    }
}

#[tactic(auto, using(crate::proofs::Lines::line_steps))]
fn write_channel<W: TextWriter>(number: usize, capacity: u32, positions: &[u32], out: &mut W)
    ensures { Wrote W.given out.old out.new (channel_line number capacity positions.now) }
{
    let words = [
        Word::Text(b"channel"),
        Word::Number(number as u64),
        Word::Text(b"capacity"),
        Word::Number(u64::from(capacity)),
        Word::Text(b"rest"),
    ];
    write_words(&words, out);
    write_positions(positions, out);
    out.put(b"\n");
}

/// The positions for a channel, none where there are none for it.
fn positions_for(rests: &[Items<u32>], number: usize) -> &[u32]
    ensures { result.now ≡ slice_index_or rests.now number [] }
{
    match rests.get(number) {
        Some(positions) => positions.as_slice(),
        None => &[],
    }
}

#[tactic(auto, using(text_out::proofs::ItemNumbers::numbered))]
fn write_channels<W: TextWriter>(capacities: &[u32], rests: &[Items<u32>], out: &mut W)
    ensures { Wrote W.given out.old out.new (channel_lines capacities.now rests.now) }
{
    for (number, capacity) in capacities.iter().enumerate() {
        write_channel(number, *capacity, positions_for(rests, number), out);
    }
}

fn write_parts<W: TextWriter>(capacities: &[u32], rests: &[Items<u32>], out: &mut W)
    ensures { Wrote W.given out.old out.new (trim_text capacities.now rests.now) }
{
    write_line(&[Word::Text(b"trim"), Word::Text(b"1")], out);
    write_channels(capacities, rests, out);
    write_line(&[Word::Text(b"end")], out);
}

/// Writes the text of least capacities. It takes no memory.
///
/// After `trim 1` there is one line for each channel, in order, with its capacity and the positions of the processes
/// where the network sticks with one place less there, then `end`. At `WriteFault` the sink holds what it held and a front
/// of the text, and its count rose in this call.
pub fn write_trim<K: Sink>(
    capacities: &[u32],
    rests: &[Items<u32>],
    sink: &mut K,
) -> Result<(), WriteFault>
    ensures ok { OnOk result
        (Appends (K.held sink.old) (K.held sink.new) (trim_text capacities.now rests.now)) }
    ensures quiet { OnOk result (K.faults sink.new ≡ K.faults sink.old) }
    ensures front { OnErr result
        (AppendsFront (K.held sink.old) (K.held sink.new) (trim_text capacities.now rests.now)) }
    ensures cause { OnErr result (Rose (K.faults sink.old) (K.faults sink.new)) }
{
    let mut out = Writer::new(sink);
    write_parts(capacities, rests, &mut out);
    out.finish()
}
