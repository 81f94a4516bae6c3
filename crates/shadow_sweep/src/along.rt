ghost use Rattle.std.specs.List.{list_all};
ghost use Rattle.std.specs.Option.{option_map, option_map_or};
ghost use Rattle.std.specs.Prelude.{◌≡◌, ◌+◌, ◌≤◌, ◌≤ℤ◌, [], ◌∷◌, ◌++◌, true, length, map, unsigned_abs, vec_len, IsTrue, OnOk, Some};
ghost use Rattle.sanlp.specs.declared.nest.Access.{Access};
ghost use Rattle.sanlp.specs.Access.{cell_at};
ghost use Rattle.cell_rows.specs.CellMap.{places_in};
ghost use Rattle.cell_rows.specs.ShortAccesses.{access_short};
ghost use Rattle.cell_lines.specs.LinePlaces.{ArePlacedBy, IsPlacedBy, IsStatementPlaced};
ghost use Rattle.shadow_sweep.specs.LastWrites.{noted, with_sources, writes_in};
ghost use Rattle.shadow_sweep.specs.Stretches.{IsStretchOf};

use crate::entry::{add_source, pass};
use crate::stretch::Stretch;
use cell_lines::{Line, Lines, place_at};
use cell_rows::{Cells, NarrowAccess, NarrowStatement};
use plain_data::Items;
use sanlp::Tag;
use std::alloc::{AllocError, Global};

// Adds the last writes of the cells that are read, which have the places of these lines at this turn, to the lists of
// the reads, of which the first has this number.
fn add_sources_along(
    alloc: Global,
    reads: &[NarrowAccess],
    lines: &[Line; 8],
    turn: i64,
    at: &[i64],
    cells: &Cells<Tag>,
    first: usize,
    lists: &mut Vec<Items<Option<Tag>>>,
) -> Result<(), AllocError>
    requires few { length reads.now ≤ 8 }
    requires fit { IsTrue (list_all (access_short (length at.now)) reads.now) }
    requires turn { unsigned_abs turn ≤ 268435456 }
    requires placed { ArePlacedBy (places_in cells.now) at.now turn reads.now lines.now
        (length reads.now) }
    requires room { first + length reads.now ≤ vec_len lists.old }
    ensures { OnOk result
        (lists.new.items
        ≡ with_sources lists.old.items first
        (map (writes_in cells.now) (map (cell_at at.now) reads.now))) }
{
    for (read, access) in reads.iter().enumerate() {
        let place = place_at(lines[read], turn);
        let source = cells.read_at(alloc, access, at, place);
        add_source(lists, first + read, source)?;
    }
    Ok(())
}

// Notes the write of an entry, if it writes, where its cell has the place of this line at this turn.
fn note_write_along(
    alloc: Global,
    write: &Option<NarrowAccess>,
    line: Line,
    turn: i64,
    at: &[i64],
    tag: Tag,
    cells: &mut Cells<Tag>,
) -> Result<(), AllocError>
    requires fits { IsTrue (option_map_or (access_short (length at.now)) write.now true) }
    requires turn { unsigned_abs turn ≤ 268435456 }
    requires placed { (access : Access) → write.now ≡ Some access
        → IsPlacedBy (places_in cells.old) at.now turn access line }
    ensures write { OnOk result
        (writes_in cells.new
        ≡ noted (writes_in cells.old) (option_map (cell_at at.now) write.now) tag) }
    ensures places { OnOk result (places_in cells.new ≡ places_in cells.old) }
{
    match write {
        Some(access) => cells.write_at(alloc, access, at, place_at(line, turn), tag),
        None => Ok(()),
    }
}

// Passes an entry of the trace whose accesses have the places of these lines at this turn.
fn pass_turn(
    alloc: Global,
    accesses: &NarrowStatement,
    lines: &Lines,
    turn: i64,
    at: &[i64],
    tag: Tag,
    first: usize,
    cells: &mut Cells<Tag>,
    lists: &mut Vec<Items<Option<Tag>>>,
) -> Result<(), AllocError>
    requires few { length accesses.now.reads ≤ 8 }
    requires reads_fit { IsTrue (list_all (access_short (length at.now)) accesses.now.reads) }
    requires write_fits { IsTrue
        (option_map_or (access_short (length at.now)) accesses.now.write true) }
    requires turn { unsigned_abs turn ≤ 268435456 }
    requires placed { IsStatementPlaced (places_in cells.old) at.now turn accesses.now lines.now }
    requires room { first + length accesses.now.reads ≤ vec_len lists.old }
    ensures sources { OnOk result
        (lists.new.items
        ≡ with_sources lists.old.items first
        (map (writes_in cells.old) (map (cell_at at.now) accesses.now.reads))) }
    ensures write { OnOk result
        (writes_in cells.new
        ≡ noted (writes_in cells.old) (option_map (cell_at at.now) accesses.now.write) tag) }
    ensures places { OnOk result (places_in cells.new ≡ places_in cells.old) }
{
    add_sources_along(
        alloc,
        accesses.reads.as_slice(),
        &lines.reads,
        turn,
        at,
        cells,
        first,
        lists,
    )?;
    note_write_along(alloc, &accesses.write, lines.write, turn, at, tag, cells)
}

// Passes an entry of the trace within a stretch.
fn pass_within(
    alloc: Global,
    accesses: &NarrowStatement,
    stretch: &Stretch,
    value: i64,
    at: &[i64],
    tag: Tag,
    first: usize,
    cells: &mut Cells<Tag>,
    lists: &mut Vec<Items<Option<Tag>>>,
) -> Result<(), AllocError>
    requires few { length accesses.now.reads ≤ 8 }
    requires reads_fit { IsTrue (list_all (access_short (length at.now)) accesses.now.reads) }
    requires write_fits { IsTrue
        (option_map_or (access_short (length at.now)) accesses.now.write true) }
    requires known { IsStretchOf (places_in cells.old) accesses.now stretch.now }
    requires inner { at.now ≡ stretch.now.outer ++ value ∷ [] }
    requires from { stretch.now.first ≤ℤ value }
    requires to { value ≤ℤ stretch.now.last }
    requires room { first + length accesses.now.reads ≤ vec_len lists.old }
    ensures sources { OnOk result
        (lists.new.items
        ≡ with_sources lists.old.items first
        (map (writes_in cells.old) (map (cell_at at.now) accesses.now.reads))) }
    ensures write { OnOk result
        (writes_in cells.new
        ≡ noted (writes_in cells.old) (option_map (cell_at at.now) accesses.now.write) tag) }
    ensures places { OnOk result (places_in cells.new ≡ places_in cells.old) }
{
    match &stretch.lines {
        Some(lines) => pass_turn(
            alloc,
            accesses,
            lines,
            value - stretch.first,
            at,
            tag,
            first,
            cells,
            lists,
        ),
        None => pass(alloc, accesses, at, tag, first, cells, lists),
    }
}

// Passes an entry of the trace at this value of its innermost loop, by a stretch at the values of the loops round it.
fn pass_value(
    alloc: Global,
    accesses: &NarrowStatement,
    stretch: &Stretch,
    value: i64,
    at: &[i64],
    tag: Tag,
    first: usize,
    cells: &mut Cells<Tag>,
    lists: &mut Vec<Items<Option<Tag>>>,
) -> Result<(), AllocError>
    requires few { length accesses.now.reads ≤ 8 }
    requires reads_fit { IsTrue (list_all (access_short (length at.now)) accesses.now.reads) }
    requires write_fits { IsTrue
        (option_map_or (access_short (length at.now)) accesses.now.write true) }
    requires known { IsStretchOf (places_in cells.old) accesses.now stretch.now }
    requires inner { at.now ≡ stretch.now.outer ++ value ∷ [] }
    requires room { first + length accesses.now.reads ≤ vec_len lists.old }
    ensures sources { OnOk result
        (lists.new.items
        ≡ with_sources lists.old.items first
        (map (writes_in cells.old) (map (cell_at at.now) accesses.now.reads))) }
    ensures write { OnOk result
        (writes_in cells.new
        ≡ noted (writes_in cells.old) (option_map (cell_at at.now) accesses.now.write) tag) }
    ensures places { OnOk result (places_in cells.new ≡ places_in cells.old) }
{
    if stretch.first <= value && value <= stretch.last {
        pass_within(
            alloc, accesses, stretch, value, at, tag, first, cells, lists,
        )
    } else {
        pass(alloc, accesses, at, tag, first, cells, lists)
    }
}

/// Passes an entry of the trace, as `pass`, by what is known of its statement's places.
pub(crate) fn pass_along(
    alloc: Global,
    accesses: &NarrowStatement,
    stretch: &mut Stretch,
    at: &[i64],
    tag: Tag,
    first: usize,
    cells: &mut Cells<Tag>,
    lists: &mut Vec<Items<Option<Tag>>>,
) -> Result<(), AllocError>
    requires shallow { length at.now ≤ 6 }
    requires few { length accesses.now.reads ≤ 8 }
    requires reads_fit { IsTrue (list_all (access_short (length at.now)) accesses.now.reads) }
    requires write_fits { IsTrue
        (option_map_or (access_short (length at.now)) accesses.now.write true) }
    requires known { IsStretchOf (places_in cells.old) accesses.now stretch.old }
    requires room { first + length accesses.now.reads ≤ vec_len lists.old }
    ensures sources { OnOk result
        (lists.new.items
        ≡ with_sources lists.old.items first
        (map (writes_in cells.old) (map (cell_at at.now) accesses.now.reads))) }
    ensures write { OnOk result
        (writes_in cells.new
        ≡ noted (writes_in cells.old) (option_map (cell_at at.now) accesses.now.write) tag) }
    ensures places { OnOk result (places_in cells.new ≡ places_in cells.old) }
    ensures known { IsStretchOf (places_in cells.old) accesses.now stretch.new }
{
    match at.split_last() {
        Some((value, outer)) => {
            stretch.enter(accesses, outer, *value, cells);
            pass_value(
                alloc, accesses, stretch, *value, at, tag, first, cells, lists,
            )
        }
        None => pass(alloc, accesses, at, tag, first, cells, lists),
    }
}
