ghost use Rattle.std.specs.Prelude.{◌≡◌, ◌+◌, ◌<◌, ◌++◌, ◌^◌, pos, codes, length, slice_get, slice_index_or};
ghost use Rattle.text_out.specs.Wrote.{Wrote};
ghost use Rattle.text_out.specs.Words.{word_text};
ghost use Rattle.vhdl_text.specs.Constants.{column_values, dst_of as slot_of_event, event_constant, last_of as last_value, name_of, op_of as kind_of_event, read_constants, slot_text, variable_constant, variable_constants, variable_values};
ghost use Rattle.vhdl_text.specs.Pieces.{arg_of as arg_of_event, entries_from, entry_comma, event_entry, event_entries, event_value, fires_after as fires_behind, head_text, read_slot as slot_of_read, tail_text};
ghost use Rattle.vhdl_text.specs.Literals.{literal};

use crate::literals::literal as literal_of;
use affine_core::Vector;
use net_core::{Event, Ref, Refs, fire_count};
use node_automata::NodeAuto;
use script_blocks::Script;
use text_out::{TextWriter, Word, write_number, write_word};

/// A constant array of what events are.
#[derive(Clone, Copy)]
pub enum Column {
    /// The kind: 1 for a Get, 2 for a fire, 3 for a Put.
    Op,
    /// The channel of a Get or a Put, and the number of a fire.
    Arg,
    /// The slot of a Get, else 0.
    Dst,
    /// The slot that a fire names for this read, else -1.
    Read(u32),
}

fn op_of(event: &Event) -> u64
    ensures { result ≡ kind_of_event event.now }
{
    match event {
        Event::Get { .. } => 1,
        Event::Fire { .. } => 2,
        Event::Put { .. } => 3,
    }
}

fn arg_of(event: &Event, fires: u64) -> u64
    ensures { result ≡ arg_of_event fires event.now }
{
    match event {
        Event::Get { channel, .. } | Event::Put { channel } => u64::from(*channel),
        Event::Fire { .. } => fires,
    }
}

fn dst_of(event: &Event) -> u64
    ensures { result ≡ slot_of_event event.now }
{
    match event {
        Event::Get { slot, .. } => u64::from(*slot),
        Event::Fire { .. } | Event::Put { .. } => 0,
    }
}

// The slot that a fire names for a read, or -1 where it names no token.
fn slot_of(refs: &Refs, read: u32) -> Word<'static>
    ensures { word_text result ≡ slot_text (slice_get refs.now read) }
{
    match refs.get(read as usize) {
        Some(Ref::Slot(slot)) => Word::Number(u64::from(slot)),
        Some(Ref::Zero) | None => Word::Text(b"-1"),
    }
}

// The slot that an event names for a read, or -1 where it isn't a fire.
fn read_slot(event: &Event, read: u32) -> Word<'static>
    ensures { word_text result ≡ slot_of_read read event.now }
{
    match event {
        Event::Fire { refs } => slot_of(refs, read),
        Event::Get { .. } | Event::Put { .. } => Word::Text(b"-1"),
    }
}

/// The value of an event in a column, where so many fires stand before it.
pub fn event_word(column: Column, fires: u64, event: &Event) -> Word<'static>
    ensures { word_text result ≡ event_value column fires event.now }
{
    match column {
        Column::Op => Word::Number(op_of(event)),
        Column::Arg => Word::Number(arg_of(event, fires)),
        Column::Dst => Word::Number(dst_of(event)),
        Column::Read(read) => read_slot(event, read),
    }
}

/// The fires after an event that comes after so many.
fn fires_after(fires: u64, event: &Event) -> u64
    requires { fires + 1 < 2 ^ 64 }
    ensures { result ≡ fires_behind fires event.now }
{
    match event {
        Event::Fire { .. } => fires + 1,
        Event::Get { .. } | Event::Put { .. } => fires,
    }
}

/// How many values a constant has before its last one.
#[tactic(auto, using(crate::proofs::Columns::arg_length, crate::proofs::Columns::read_length))]
fn value_count(column: Column, events: &Script<Event>) -> u64
    ensures { result ≡ length (column_values column events.now) }
{
    match column {
        Column::Op => u64::from(events.len()),
        Column::Arg => u64::from(events.len()),
        Column::Dst => u64::from(events.len()),
        Column::Read(_) => u64::from(fire_count(events)),
    }
}

/// Writes an entry of a constant, which another follows.
pub fn write_entry<W: TextWriter>(index: u64, value: Word, out: &mut W)
    ensures { Wrote W.given out.old out.new (entry_comma (index, word_text value.entry)) }
{
    write_number(index, out);
    out.put(b" => ");
    write_word(value, out);
    out.put(b", ");
}

/// Writes the entry of an event of this index, before which so many fires stand.
fn write_event_entry<W: TextWriter>(
    column: Column,
    index: u64,
    fires: u64,
    event: &Event,
    out: &mut W,
)
    ensures { Wrote W.given out.old out.new (event_entry column index fires event.now) }
{
    match column {
        Column::Op => write_entry(index, event_word(column, fires, event), out),
        Column::Arg => write_entry(index, event_word(column, fires, event), out),
        Column::Dst => write_entry(index, event_word(column, fires, event), out),
        Column::Read(read) => {
            if let Event::Fire { refs } = event {
                write_entry(fires, slot_of(refs, read), out);
            }
        }
    }
}

fn write_event_entries<W: TextWriter>(column: Column, events: &Script<Event>, out: &mut W)
    ensures { Wrote W.given out.old out.new (event_entries column 0 0 events.now) }
{
    let mut index = 0;
    let mut fires = 0;
    for event in events.iter() {
        write_event_entry(column, index, fires, &event, out);
        fires = fires_after(fires, &event);
        index += 1;
    }
}

/// Writes what comes before the entries of a constant, of which there are so many: its name, which may end with a number, and
/// the type of its values.
pub fn write_head<W: TextWriter>(name: &[u8], number: Word, of: &[u8], count: u64, out: &mut W)
    ensures { Wrote W.given out.old out.new
        (head_text (name.now ++ word_text number.entry) of.now count) }
{
    out.put(b"  constant ");
    out.put(name);
    write_word(number, out);
    out.put(b" : ");
    out.put(of);
    out.put(b"(0 to ");
    write_number(count, out);
    out.put(b") := (");
}

/// Writes the same for a column.
pub fn write_column_head<W: TextWriter>(column: Column, count: u64, out: &mut W)
    ensures { Wrote W.given out.old out.new (head_text (name_of column) (codes "codes") count) }
{
    let none = Word::Text(b"");
    match column {
        Column::Op => write_head(b"op", none, b"codes", count, out),
        Column::Arg => write_head(b"arg", none, b"codes", count, out),
        Column::Dst => write_head(b"dst", none, b"codes", count, out),
        Column::Read(read) => {
            write_head(b"r", Word::Number(u64::from(read)), b"codes", count, out)
        }
    }
}

fn last_of(column: Column) -> Word<'static>
    ensures { word_text result ≡ last_value column }
{
    match column {
        Column::Op | Column::Arg | Column::Dst => Word::Text(b"0"),
        Column::Read(_) => Word::Text(b"-1"),
    }
}

/// Writes the last entry of a constant.
pub fn write_tail<W: TextWriter>(index: u64, value: Word, out: &mut W)
    ensures { Wrote W.given out.old out.new (tail_text index (word_text value.entry)) }
{
    write_number(index, out);
    out.put(b" => ");
    write_word(value, out);
    out.put(b");\n");
}

/// Writes the constant of a column.
pub(crate) fn write_column<W: TextWriter>(column: Column, auto: &NodeAuto, out: &mut W)
    ensures { Wrote W.given out.old out.new (event_constant column auto.now) }
{
    let count = value_count(column, &auto.events);
    write_column_head(column, count, out);
    write_event_entries(column, &auto.events, out);
    write_tail(count, last_of(column), out);
}

/// Writes the constants of the reads.
pub(crate) fn write_reads<W: TextWriter>(auto: &NodeAuto, out: &mut W)
    ensures { Wrote W.given out.old out.new (read_constants auto.now) }
{
    for read in 0..auto.reads {
        write_column(Column::Read(read), auto, out);
    }
}

/// The value of the loop of this number at a point, or 0 where there is none.
pub fn value_at(at: &Vector, number: u32) -> i64
    ensures { result ≡ slice_index_or at.now number (pos 0) }
{
    match at.as_slice().get(number as usize) {
        Some(value) => *value,
        None => 0,
    }
}

/// Writes the entry of a loop's value at a point, which another follows.
fn write_point_entry<W: TextWriter>(index: usize, number: u32, at: &Vector, out: &mut W)
    ensures { Wrote W.given out.old out.new
        (entry_comma (index, literal (slice_index_or at.now number (pos 0)))) }
{
    write_entry(
        index as u64,
        Word::Text(&literal_of(value_at(at, number))),
        out,
    );
}

fn write_point_entries<W: TextWriter>(number: u32, values: &[Vector], out: &mut W)
    ensures { Wrote W.given out.old out.new (entries_from 0 (variable_values number values.now)) }
{
    for (index, at) in values.iter().enumerate() {
        write_point_entry(index, number, at, out);
    }
}

/// Writes the constant of a loop variable.
fn write_variable<W: TextWriter>(number: u32, auto: &NodeAuto, out: &mut W)
    ensures { Wrote W.given out.old out.new (variable_constant number auto.now) }
{
    let values = auto.values.as_slice();
    let count = values.len() as u64;
    write_head(b"v", Word::Number(u64::from(number)), b"words", count, out);
    write_point_entries(number, values, out);
    write_tail(count, Word::Text(&literal_of(0)), out);
}

/// Writes the constants of the loop variables.
pub(crate) fn write_variables<W: TextWriter>(auto: &NodeAuto, out: &mut W)
    ensures { Wrote W.given out.old out.new (variable_constants auto.now) }
{
    for number in 0..auto.depth {
        write_variable(number, auto, out);
    }
}
