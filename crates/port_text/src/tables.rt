ghost use Rattle.std.specs.Prelude.{◌≡◌, map, slice_get};
ghost use Rattle.text_out.specs.Wrote.{Wrote};
ghost use Rattle.text_out.specs.Words.{word_text};
ghost use Rattle.vhdl_text.specs.Constants.{slot_text};
ghost use Rattle.vhdl_text.specs.Pieces.{entries_from};
ghost use Rattle.port_text.specs.Tables.{dst_of as dst_number, get_last, get_name as name_of_get, get_table, get_value, op_of as op_number, put_table, put_value, read_table};

use crate::unit::{GetControl, PutControl};
use net_core::{Event, Refs};
use port_items::{GetItem, PutItem};
use repeat_sequencer::{Instruction, Sequencer};
use text_out::{TextWriter, Word};
use vhdl_text::{Column, event_word, write_entry, write_head, write_tail};

/// A table of what each item of a Get port is.
#[derive(Clone, Copy)]
pub(crate) enum GetColumn {
    /// What it does: 1 for a Get alone, 2 for a fire alone, 3 for both.
    Op,
    /// The slot of the Get, else 0.
    Dst,
}

fn op_of(token: bool, fire: bool) -> u64
    ensures { result ≡ op_number token fire }
{
    match (token, fire) {
        (false, false) => 0,
        (true, false) => 1,
        (false, true) => 2,
        (true, true) => 3,
    }
}

fn dst_of(get: Option<u32>) -> u64
    ensures { result ≡ dst_number get }
{
    match get {
        Some(slot) => u64::from(slot),
        None => 0,
    }
}

fn get_number(column: GetColumn, item: &GetItem) -> Word<'static>
    ensures { word_text result ≡ get_value column item.now }
{
    match column {
        GetColumn::Op => Word::Number(op_of(item.get.is_some(), item.fire)),
        GetColumn::Dst => Word::Number(dst_of(item.get)),
    }
}

fn get_last_word(column: GetColumn) -> Word<'static>
    ensures { word_text result ≡ get_last column }
{
    match column {
        GetColumn::Op => Word::Text(b"4"),
        GetColumn::Dst => Word::Text(b"1"),
    }
}

fn get_name(column: GetColumn) -> &'static [u8]
    ensures { result.now ≡ name_of_get column }
{
    match column {
        GetColumn::Op => b"op_get",
        GetColumn::Dst => b"dst_get",
    }
}

fn write_get_entries<W: TextWriter>(
    column: GetColumn,
    instructions: &[Instruction<GetItem>],
    out: &mut W,
)
    ensures { Wrote W.given out.old out.new
        (entries_from 0 (map (λ i. get_value column i.item) instructions.now)) }
{
    for (index, instruction) in instructions.iter().enumerate() {
        write_entry(index as u64, get_number(column, &instruction.item), out);
    }
}

/// Writes a table of what each item of a Get port is.
pub(crate) fn write_get_table<W: TextWriter>(column: GetColumn, control: &GetControl, out: &mut W)
    ensures { Wrote W.given out.old out.new (get_table column control.now) }
{
    let count = control.items.instructions.len() as u64;
    let number = Word::Number(u64::from(control.channel));
    write_head(get_name(column), number, b"codes", count, out);
    write_get_entries(column, control.items.instructions.as_slice(), out);
    write_tail(count, get_last_word(column), out);
}

fn put_number(item: &PutItem) -> Word<'static>
    ensures { word_text result ≡ put_value item.now }
{
    Word::Number(op_of(item.put, item.fire))
}

fn write_put_entries<W: TextWriter>(instructions: &[Instruction<PutItem>], out: &mut W)
    ensures { Wrote W.given out.old out.new
        (entries_from 0 (map (λ i. put_value i.item) instructions.now)) }
{
    for (index, instruction) in instructions.iter().enumerate() {
        write_entry(index as u64, put_number(&instruction.item), out);
    }
}

/// Writes the table of what each item of a Put port does.
pub(crate) fn write_put_table<W: TextWriter>(control: &PutControl, out: &mut W)
    ensures { Wrote W.given out.old out.new (put_table control.now) }
{
    let count = control.items.instructions.len() as u64;
    let number = Word::Number(u64::from(control.channel));
    write_head(b"op_put", number, b"codes", count, out);
    write_put_entries(control.items.instructions.as_slice(), out);
    write_tail(count, Word::Text(b"4"), out);
}

// The slot that these references name for a read, or -1 where they name no token.
fn slot_word(refs: &Refs, read: u32) -> Word<'static>
    ensures { word_text result ≡ slot_text (slice_get refs.now read) }
{
    event_word(Column::Read(read), 0, &Event::Fire { refs: *refs })
}

fn write_read_entries<W: TextWriter>(read: u32, instructions: &[Instruction<Refs>], out: &mut W)
    ensures { Wrote W.given out.old out.new
        (entries_from 0 (map (λ i. slot_text (slice_get i.item read)) instructions.now)) }
{
    for (index, instruction) in instructions.iter().enumerate() {
        write_entry(index as u64, slot_word(&instruction.item, read), out);
    }
}

/// Writes the table of the slot that each fire names for a read.
pub(crate) fn write_read_table<W: TextWriter>(read: u32, fires: &Sequencer<Refs>, out: &mut W)
    ensures { Wrote W.given out.old out.new (read_table read fires.now) }
{
    let count = fires.instructions.len() as u64;
    write_head(b"r", Word::Number(u64::from(read)), b"codes", count, out);
    write_read_entries(read, fires.instructions.as_slice(), out);
    write_tail(count, Word::Text(b"-1"), out);
}
