ghost use Rattle.std.specs.Option.{option_map};
ghost use Rattle.std.specs.Prelude.{◌≡◌, ◌<◌, [], length, slice_index_or};
ghost use Rattle.deps_text.specs.DepsText.{points_text, source_word};
ghost use Rattle.deps_text.specs.FireLines.{IsSweptOf, turn_line, turn_lines};
ghost use Rattle.net_core.specs.Rules.{vector_at};
ghost use Rattle.sanlp.specs.Access.{read_count};
ghost use Rattle.source_tree.specs.Sources.{read_number};
ghost use Rattle.text_out.specs.Wrote.{Wrote};

use crate::swept::Swept;
use point_text::{write_point, write_vector};
use sanlp::{Nest, Points, Tag, reads_before};
use source_tree::SourceTable;
use text_out::{TextWriter, Word, write_line};

// The iteration vector of a process at a turn, which is empty where there is no such turn.
fn vector_at(points: &Points, process: u32, turn: usize) -> &[i64]
    ensures { result.now ≡ vector_at points.now.of process turn }
{
    match points.of.get(process as usize) {
        Some(vectors) => match vectors.get(turn) {
            Some(at) => at.as_slice(),
            None => &[],
        },
        None => &[],
    }
}

// Writes the point of a tag, or `zero` where there is none.
fn write_source<W: TextWriter>(points: &Points, source: Option<Tag>, out: &mut W)
    ensures { Wrote W.given out.old out.new
        (source_word (option_map (λ t. record {
          statement = t.process;
          at = vector_at points.now.of t.process t.turn;
        }) source)) }
{
    match source {
        Some(tag) => {
            let at = vector_at(points, tag.process, tag.turn as usize);
            write_point(tag.process, at, out);
        }
        None => out.put(b"zero"),
    }
}

// Writes the line of a turn of the reader.
fn write_turn<W: TextWriter>(
    points: &Points,
    reader: u32,
    turn: usize,
    source: Option<Tag>,
    out: &mut W,
)
    ensures { Wrote W.given out.old out.new (turn_line points.now.of reader turn source) }
{
    write_vector(vector_at(points, reader, turn), out);
    out.put(b" ");
    write_source(points, source, out);
    out.put(b"\n");
}

// Writes a line for each turn of the reader.
#[tactic(auto, using(text_out::proofs::ItemNumbers::numbered))]
fn write_turns<W: TextWriter>(points: &Points, reader: u32, sources: &[Option<Tag>], out: &mut W)
    ensures { Wrote W.given out.old out.new (turn_lines points.now.of reader sources.now) }
{
    for (turn, source) in sources.iter().enumerate() {
        write_turn(points, reader, turn, *source, out);
    }
}

// The sources of a read at each turn of its statement.
fn sources_at<'a>(
    nest: &Nest,
    table: &'a SourceTable,
    statement: u32,
    read: u32,
) -> &'a [Option<Tag>]
    requires statement { statement < length nest.now.statements }
    requires read { read < read_count nest.now statement }
    ensures { result.now ≡ slice_index_or table.now.of (read_number nest.now statement read) [] }
{
    match table
        .of
        .get(reads_before(nest, statement as usize) + read as usize)
    {
        Some(sources) => sources.as_slice(),
        None => &[],
    }
}

/// Writes how many points a read's statement has, and a line for each, with the point that the read has its value from.
pub(crate) fn write_points<W: TextWriter>(
    nest: &Nest,
    swept: &Swept,
    statement: u32,
    read: u32,
    out: &mut W,
)
    requires swept { IsSweptOf nest.now swept.now }
    requires statement { statement < length nest.now.statements }
    requires read { read < read_count nest.now statement }
    ensures { Wrote W.given out.old out.new (points_text nest.now statement read) }
{
    let sources = sources_at(nest, &swept.table, statement, read);
    write_line(
        &[Word::Text(b"points"), Word::Number(sources.len() as u64)],
        out,
    );
    write_turns(&swept.points, statement, sources, out);
}
