ghost use Rattle.std.specs.List.{list_all};
ghost use Rattle.std.specs.Option.{option_map, option_map_or};
ghost use Rattle.std.specs.Prelude.{◌≡◌, ◌+◌, ◌<◌, ◌≤◌, true, length, map, vec_len, IsTrue, OnOk};
ghost use Rattle.sanlp.specs.Access.{cell_at};
ghost use Rattle.cell_rows.specs.CellMap.{places_in};
ghost use Rattle.cell_rows.specs.ShortAccesses.{access_short};
ghost use Rattle.cell_rows.specs.SmallValues.{are_small_values};
ghost use Rattle.shadow_sweep.specs.LastWrites.{noted, with_source, with_sources, writes_in};

use cell_rows::{Cells, NarrowAccess, NarrowStatement, are_small};
use plain_data::Items;
use sanlp::Tag;
use std::alloc::{AllocError, Global};

/// Adds a source to the list of this number.
pub(crate) fn add_source(
    lists: &mut Vec<Items<Option<Tag>>>,
    number: usize,
    source: Option<Tag>,
) -> Result<(), AllocError>
    requires { number < vec_len lists.old }
    ensures { OnOk result (lists.new.items ≡ with_source lists.old.items number source) }
{
    lists[number].push(source)
}

// Adds the last writes of the cells that are read to the lists of the reads, of which the first has this number.
fn add_sources(
    alloc: Global,
    reads: &[NarrowAccess],
    at: &[i64],
    small: bool,
    cells: &Cells<Tag>,
    first: usize,
    lists: &mut Vec<Items<Option<Tag>>>,
) -> Result<(), AllocError>
    requires small { small ≡ true → IsTrue (are_small_values at.now) }
    requires fit { IsTrue (list_all (access_short (length at.now)) reads.now) }
    requires room { first + length reads.now ≤ vec_len lists.old }
    ensures { OnOk result
        (lists.new.items
        ≡ with_sources lists.old.items first
        (map (writes_in cells.now) (map (cell_at at.now) reads.now))) }
{
    for (read, access) in reads.iter().enumerate() {
        let source = cells.read(alloc, access, at, small);
        add_source(lists, first + read, source)?;
    }
    Ok(())
}

// Notes the write of an entry, if it writes.
fn note_write(
    alloc: Global,
    write: &Option<NarrowAccess>,
    at: &[i64],
    small: bool,
    tag: Tag,
    cells: &mut Cells<Tag>,
) -> Result<(), AllocError>
    requires small { small ≡ true → IsTrue (are_small_values at.now) }
    requires fits { IsTrue (option_map_or (access_short (length at.now)) write.now true) }
    ensures write { OnOk result
        (writes_in cells.new
        ≡ noted (writes_in cells.old) (option_map (cell_at at.now) write.now) tag) }
    ensures places { OnOk result (places_in cells.new ≡ places_in cells.old) }
{
    match write {
        Some(access) => cells.write(alloc, access, at, small, tag),
        None => Ok(()),
    }
}

/// Passes an entry of the trace: its reads have the last writes before it as their sources, and then its own write is
/// noted. The list of its first read has this number.
pub(crate) fn pass(
    alloc: Global,
    accesses: &NarrowStatement,
    at: &[i64],
    tag: Tag,
    first: usize,
    cells: &mut Cells<Tag>,
    lists: &mut Vec<Items<Option<Tag>>>,
) -> Result<(), AllocError>
    requires reads_fit { IsTrue (list_all (access_short (length at.now)) accesses.now.reads) }
    requires write_fits { IsTrue
        (option_map_or (access_short (length at.now)) accesses.now.write true) }
    requires room { first + length accesses.now.reads ≤ vec_len lists.old }
    ensures sources { OnOk result
        (lists.new.items
        ≡ with_sources lists.old.items first
        (map (writes_in cells.old) (map (cell_at at.now) accesses.now.reads))) }
    ensures write { OnOk result
        (writes_in cells.new
        ≡ noted (writes_in cells.old) (option_map (cell_at at.now) accesses.now.write) tag) }
    ensures places { OnOk result (places_in cells.new ≡ places_in cells.old) }
{
    let small = are_small(at);
    add_sources(
        alloc,
        accesses.reads.as_slice(),
        at,
        small,
        cells,
        first,
        lists,
    )?;
    note_write(alloc, &accesses.write, at, small, tag, cells)
}
