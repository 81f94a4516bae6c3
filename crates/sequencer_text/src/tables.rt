ghost use Rattle.std.specs.Prelude.{◌≡◌, decimal, map};
ghost use Rattle.script_blocks.specs.Nesting.{greatest};
ghost use Rattle.text_out.specs.Wrote.{Wrote};
ghost use Rattle.vhdl_text.specs.Pieces.{entries_from};
ghost use Rattle.sequencer_text.specs.Tables.{end_number as number_of_end, end_table, end_value, end_word, ends_behind, most_ends as ends_at_most, most_turns as turns_at_most, turns_behind};

use repeat_sequencer::{Instruction, RepeatEnd, Sequencer};
use text_out::{TextWriter, Word};
use vhdl_text::{write_entry, write_head, write_tail};

/// A table of the repeats that end behind each instruction.
#[derive(Clone, Copy)]
pub(crate) enum EndColumn {
    /// The number of its counter.
    Level,
    /// Its first instruction.
    First,
    /// Its turns, or 0 where no repeat ends.
    Count,
}

// A number of the repeat of this place that ends behind an instruction, or 0 where fewer end there.
fn end_number<T>(column: EndColumn, place: usize, instruction: &Instruction<T>) -> u64
    ensures { decimal result ≡ end_value column place instruction.now }
{
    match instruction.ends.get(place) {
        Some(end) => number_of(column, end),
        None => 0,
    }
}

fn number_of(column: EndColumn, end: &RepeatEnd) -> u64
    ensures { result ≡ number_of_end column end.now }
{
    match column {
        EndColumn::Level => end.level as u64,
        EndColumn::First => end.first as u64,
        EndColumn::Count => u64::from(end.count),
    }
}

fn end_name(column: EndColumn) -> &'static [u8]
    ensures { result.now ≡ end_word column }
{
    match column {
        EndColumn::Level => b"level",
        EndColumn::First => b"first",
        EndColumn::Count => b"count",
    }
}

fn write_end_entries<T, W: TextWriter>(
    column: EndColumn,
    place: usize,
    instructions: &[Instruction<T>],
    out: &mut W,
)
    ensures { Wrote W.given out.old out.new
        (entries_from 0 (map (end_value column place) instructions.now)) }
{
    for (index, instruction) in instructions.iter().enumerate() {
        let value = Word::Number(end_number(column, place, instruction));
        write_entry(index as u64, value, out);
    }
}

/// Writes a table of the repeats of a place.
pub(crate) fn write_end_table<T, W: TextWriter>(
    column: EndColumn,
    place: usize,
    sequencer: &Sequencer<T>,
    out: &mut W,
)
    ensures { Wrote W.given out.old out.new (end_table column place sequencer.now) }
{
    let count = sequencer.instructions.len() as u64;
    let number = Word::Number(place as u64);
    write_head(end_name(column), number, b"codes", count, out);
    write_end_entries(column, place, sequencer.instructions.as_slice(), out);
    write_tail(count, Word::Text(b"1"), out);
}

// How many repeats end behind one of these instructions at most.
fn greatest_end_count<T>(instructions: &[Instruction<T>]) -> usize
    ensures { result ≡ greatest (map ends_behind instructions.now) }
{
    let mut most: usize = 0;
    for instruction in instructions {
        most = most.max(instruction.ends.len());
    }
    most
}

/// How many repeats end behind an instruction at most.
pub(crate) fn most_ends<T>(sequencer: &Sequencer<T>) -> usize
    ensures { result ≡ ends_at_most sequencer.now }
{
    greatest_end_count(sequencer.instructions.as_slice())
}

// The most turns of these repeats.
fn turns_of(ends: &[RepeatEnd]) -> u32
    ensures { result ≡ greatest (map (λ end. end.count) ends.now) }
{
    let mut most: u32 = 0;
    for end in ends {
        most = most.max(end.count);
    }
    most
}

// The most turns of the repeats that end behind one of these instructions.
fn greatest_turn_count<T>(instructions: &[Instruction<T>]) -> u32
    ensures { result ≡ greatest (map turns_behind instructions.now) }
{
    let mut most: u32 = 0;
    for instruction in instructions {
        most = most.max(turns_of(instruction.ends.as_slice()));
    }
    most
}

/// How many turns a repeat has at most.
pub(crate) fn most_turns<T>(sequencer: &Sequencer<T>) -> u32
    ensures { result ≡ turns_at_most sequencer.now }
{
    greatest_turn_count(sequencer.instructions.as_slice())
}
