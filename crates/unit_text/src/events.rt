ghost use Rattle.std.specs.Prelude.{◌≡◌, map};
ghost use Rattle.text_out.specs.Wrote.{Wrote};
ghost use Rattle.text_out.specs.Words.{word_text};
ghost use Rattle.vhdl_text.specs.Pieces.{entries_from, event_value};
ghost use Rattle.unit_text.specs.Events.{event_table, last_value};

use net_core::Event;
use repeat_sequencer::{Instruction, Sequencer};
use text_out::{TextWriter, Word};
use vhdl_text::{Column, event_word, write_column_head, write_entry, write_tail};

fn last_word(column: Column) -> Word<'static>
    ensures { word_text result ≡ last_value column }
{
    match column {
        Column::Op => Word::Text(b"4"),
        Column::Arg | Column::Dst => Word::Text(b"1"),
        Column::Read(_) => Word::Text(b"-1"),
    }
}

fn write_event_entries<W: TextWriter>(
    column: Column,
    instructions: &[Instruction<Event>],
    out: &mut W,
)
    ensures { Wrote W.given out.old out.new
        (entries_from 0 (map (λ i. event_value column 0 i.item) instructions.now)) }
{
    for (index, instruction) in instructions.iter().enumerate() {
        write_entry(index as u64, event_word(column, 0, &instruction.item), out);
    }
}

/// Writes a table of what each instruction of a process's sequencer does: no fire is numbered, so `Arg` has 0 at each.
pub(crate) fn write_event_table<W: TextWriter>(
    column: Column,
    sequencer: &Sequencer<Event>,
    out: &mut W,
)
    ensures { Wrote W.given out.old out.new (event_table column sequencer.now) }
{
    let count = sequencer.instructions.len() as u64;
    write_column_head(column, count, out);
    write_event_entries(column, sequencer.instructions.as_slice(), out);
    write_tail(count, last_word(column), out);
}
