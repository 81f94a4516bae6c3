ghost use Rattle.text_out.specs.Wrote.{Wrote};
ghost use Rattle.sequencer_text.specs.Sequencers.{end_part_text, end_tables, for_ends, name_text, numbered, paired, sequencer_end, sequencer_entity, sequencer_head, sequencer_signals, sequencer_text, sequencer_types};

use crate::tables::{EndColumn, most_ends, most_turns, write_end_table};
use repeat_sequencer::Sequencer;
use text_out::{TextWriter, Word};
use vhdl_text::{write_all, write_with_number};

/// The name of the entity of a sequencer.
#[derive(Clone, Copy)]
pub enum EntityName {
    /// Of the script of this process.
    Control(u32),
    /// Of what a loop of this process gains.
    Loop(u32, u32),
    /// Of the fires of this process.
    Fires(u32),
    /// Of the port at which this process gets from a channel.
    Get(u32, u32),
    /// Of the port at which this process puts to a channel.
    Put(u32, u32),
}

// Writes a name of a number.
fn write_numbered<W: TextWriter>(before: &[u8], number: u32, out: &mut W)
    ensures { Wrote W.given out.old out.new (numbered before.now number) }
{
    write_all(&[Word::Text(before), Word::Number(u64::from(number))], out);
}

// Writes a name of two numbers.
fn write_paired<W: TextWriter>(before: &[u8], first: u32, second: u32, out: &mut W)
    ensures { Wrote W.given out.old out.new (paired before.now first second) }
{
    write_all(
        &[
            Word::Text(before),
            Word::Number(u64::from(first)),
            Word::Text(b"_"),
            Word::Number(u64::from(second)),
        ],
        out,
    );
}

/// Writes the name of an entity.
pub fn write_name<W: TextWriter>(name: EntityName, out: &mut W)
    ensures { Wrote W.given out.old out.new (name_text name) }
{
    match name {
        EntityName::Control(process) => write_numbered(b"control_", process, out),
        EntityName::Loop(process, number) => write_paired(b"loop_", process, number, out),
        EntityName::Fires(process) => write_numbered(b"fire_", process, out),
        EntityName::Get(process, channel) => write_paired(b"get_", process, channel, out),
        EntityName::Put(process, channel) => write_paired(b"put_", process, channel, out),
    }
}

fn write_sequencer_entity<W: TextWriter>(name: EntityName, count: u64, out: &mut W)
    ensures { Wrote W.given out.old out.new (sequencer_entity name count) }
{
    out.put(b"\nlibrary ieee;\nuse ieee.std_logic_1164.all;\nuse ieee.numeric_std.all;\nentity ");
    write_name(name, out);
    write_all(
        &[
            Word::Text(
                b" is\n  port (\n    clk : in std_logic;\n    rst : in std_logic;\n    again : in std_logic;\n    step : in std_logic;\n    at : out integer range 0 to ",
            ),
            Word::Number(count),
            Word::Text(b"\n  );\nend entity;\n"),
        ],
        out,
    );
}

fn write_sequencer_types<W: TextWriter>(name: EntityName, turns: u32, out: &mut W)
    ensures { Wrote W.given out.old out.new (sequencer_types name turns) }
{
    out.put(b"architecture rtl of ");
    write_name(name, out);
    write_all(
        &[
            Word::Text(
                b" is\n  type codes is array (natural range <>) of integer;\n  type counts is array (natural range <>) of integer range 0 to ",
            ),
            Word::Number(u64::from(turns)),
            Word::Text(b";\n"),
        ],
        out,
    );
}

// Writes the tables of the repeats of a place.
fn write_end_tables<T, W: TextWriter>(sequencer: &Sequencer<T>, place: usize, out: &mut W)
    ensures { Wrote W.given out.old out.new (end_tables sequencer.now place) }
{
    write_end_table(EndColumn::Level, place, sequencer, out);
    write_end_table(EndColumn::First, place, sequencer, out);
    write_end_table(EndColumn::Count, place, sequencer, out);
}

fn write_sequencer_signals<W: TextWriter>(count: u64, levels: u64, out: &mut W)
    ensures { Wrote W.given out.old out.new (sequencer_signals count levels) }
{
    write_all(
        &[
            Word::Text(b"  signal pc : integer range 0 to "),
            Word::Number(count),
            Word::Text(b" := 0;\n  signal turns : counts(0 to "),
            Word::Number(levels),
            Word::Text(b") := (others => 0);\n"),
        ],
        out,
    );
}

fn write_sequencer_head<W: TextWriter>(count: u64, out: &mut W)
    ensures { Wrote W.given out.old out.new (sequencer_head count) }
{
    write_with_number(
        count,
        &[
            b"  process (clk)\n    variable ends : boolean;\n    variable target : integer range 0 to ",
            b";\n  begin\n    if rising_edge(clk) then\n      if rst = '1' then\n        pc <= 0;\n        turns <= (others => 0);\n      elsif pc = ",
            b" then\n        if again = '1' then\n          pc <= 0;\n        end if;\n      elsif step = '1' then\n        ends := true;\n        target := pc + 1;\n",
        ],
        out,
    );
}

fn write_sequencer_end<W: TextWriter>(count: u64, out: &mut W)
    ensures { Wrote W.given out.old out.new (sequencer_end count) }
{
    write_with_number(
        count,
        &[
            b"        if target = ",
            b" and again = '1' then\n          pc <= 0;\n        else\n          pc <= target;\n        end if;\n      end if;\n    end if;\n  end process;\nend architecture;\n",
        ],
        out,
    );
}

/// What a sequencer's text has for each place of repeats that end.
#[derive(Clone, Copy)]
pub(crate) enum EndPart {
    /// Its tables.
    Tables,
    /// The signals of what its tables have.
    Signals,
    /// The lines that drive them.
    Lines,
    /// What is done at a step.
    Turns,
}

fn write_end_part<T, W: TextWriter>(
    part: EndPart,
    sequencer: &Sequencer<T>,
    place: usize,
    out: &mut W,
)
    ensures { Wrote W.given out.old out.new (end_part_text part sequencer.now place) }
{
    let number = place as u64;
    match part {
        EndPart::Tables => write_end_tables(sequencer, place, out),
        EndPart::Signals => write_with_number(
            number,
            &[
                b"  signal level",
                b"_here, first",
                b"_here, count",
                b"_here : integer;\n",
            ],
            out,
        ),
        EndPart::Lines => write_with_number(
            number,
            &[
                b"  level",
                b"_here <= level",
                b"(pc);\n  first",
                b"_here <= first",
                b"(pc);\n  count",
                b"_here <= count",
                b"(pc);\n",
            ],
            out,
        ),
        EndPart::Turns => write_with_number(
            number,
            &[
                b"        if ends and count",
                b"_here > 0 then\n          if turns(level",
                b"_here) + 1 < count",
                b"_here then\n            turns(level",
                b"_here) <= turns(level",
                b"_here) + 1;\n            target := first",
                b"_here;\n            ends := false;\n          else\n            turns(level",
                b"_here) <= 0;\n          end if;\n        end if;\n",
            ],
            out,
        ),
    }
}

fn write_end_parts<T, W: TextWriter>(part: EndPart, sequencer: &Sequencer<T>, out: &mut W)
    ensures { Wrote W.given out.old out.new (for_ends part sequencer.now) }
{
    for place in 0..most_ends(sequencer) {
        write_end_part(part, sequencer, place, out);
    }
}

/// Writes the entity of a sequencer, with an empty line before it.
pub fn write_sequencer<T, W: TextWriter>(name: EntityName, sequencer: &Sequencer<T>, out: &mut W)
    ensures { Wrote W.given out.old out.new (sequencer_text name sequencer.now) }
{
    let count = sequencer.instructions.len() as u64;
    write_sequencer_entity(name, count, out);
    write_sequencer_types(name, most_turns(sequencer), out);
    write_end_parts(EndPart::Tables, sequencer, out);
    write_sequencer_signals(count, sequencer.levels as u64, out);
    write_end_parts(EndPart::Signals, sequencer, out);
    out.put(b"begin\n  at <= pc;\n");
    write_end_parts(EndPart::Lines, sequencer, out);
    write_sequencer_head(count, out);
    write_end_parts(EndPart::Turns, sequencer, out);
    write_sequencer_end(count, out);
}
