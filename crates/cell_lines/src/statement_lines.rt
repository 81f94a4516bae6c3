ghost use Rattle.std.specs.List.{list_all};
ghost use Rattle.std.specs.Option.{option_map_or};
ghost use Rattle.std.specs.Prelude.{◌≡◌, ◌≤◌, ◌<◌, ◌+◌, ◌≤ℤ◌, is_some, length, true, IfSome, IsTrue};
ghost use Rattle.cell_rows.specs.CellMap.{places_in};
ghost use Rattle.cell_rows.specs.ShortAccesses.{access_short};
ghost use Rattle.cell_rows.specs.SmallValues.{is_small_value};
ghost use Rattle.cell_lines.specs.LinePlaces.{accesses_have_lines, have_lines, AreStatementLines};

use crate::access_line::{Line, NO_LINE, line_of};
use cell_rows::{Cells, NarrowStatement, is_small};

/// The places of a statement's accesses along a loop: those of its reads, by slot, and that of its write.
#[derive(Clone, Copy)]
pub struct Lines {
    pub reads: [Line; 8],
    pub write: Line,
}

// The places of a statement's accesses along a loop, if the first and the last cell of each have places in rows.
fn lines_of<T: Copy>(
    accesses: &NarrowStatement,
    outer: &[i64],
    first: i64,
    last: i64,
    cells: &Cells<T>,
) -> Option<Lines>
    requires shallow { length outer.now < 6 }
    requires few { length accesses.now.reads ≤ 8 }
    requires reads_fit { IsTrue (list_all (access_short (length outer.now + 1))
        accesses.now.reads) }
    requires write_fits { IsTrue
        (option_map_or (access_short (length outer.now + 1)) accesses.now.write true) }
    requires turns { first ≤ℤ last }
    requires first_small { IsTrue (is_small_value first) }
    requires last_small { IsTrue (is_small_value last) }
    ensures come { is_some result
        ≡ accesses_have_lines (places_in cells.now) outer.now first last accesses.now }
    ensures lines { IfSome result
        (AreStatementLines (places_in cells.now) outer.now first last accesses.now) }
{
    let mut reads = [NO_LINE; 8];
    for (slot, access) in accesses.reads.as_slice().iter().enumerate() {
        let line = line_of(cells, access, outer, first, last)?;
        reads[slot] = line;
    }
    let write = match &accesses.write {
        Some(access) => line_of(cells, access, outer, first, last)?,
        None => NO_LINE,
    };
    Some(Lines { reads, write })
}

/// The places of a statement's accesses along a loop, at these values of the loops round it. They come exactly where the
/// loop has a turn, its first and its last value are small, and there the cell of each access has a place in rows.
pub fn lines_along<T: Copy>(
    accesses: &NarrowStatement,
    outer: &[i64],
    first: i64,
    last: i64,
    cells: &Cells<T>,
) -> Option<Lines>
    requires shallow { length outer.now < 6 }
    requires few { length accesses.now.reads ≤ 8 }
    requires reads_fit { IsTrue (list_all (access_short (length outer.now + 1))
        accesses.now.reads) }
    requires write_fits { IsTrue
        (option_map_or (access_short (length outer.now + 1)) accesses.now.write true) }
    ensures come { is_some result
        ≡ have_lines (places_in cells.now) outer.now first last accesses.now }
    ensures lines { IfSome result
        (AreStatementLines (places_in cells.now) outer.now first last accesses.now) }
{
    if first <= last && is_small(first) && is_small(last) {
        lines_of(accesses, outer, first, last, cells)
    } else {
        None
    }
}
