ghost use Rattle.std.specs.Prelude.{◌≡◌, ◌≤◌, ◌<◌, ◌+◌, ◌≤ℤ◌, ◌<ℤ◌, ◌+ℤ◌, ◌-ℤ◌, pos, [], ◌∷◌, ◌++◌, length, unsigned_abs, is_some, true, IfSome, IsTrue, Some};
ghost use Rattle.sanlp.specs.Access.{cell_at};
ghost use Rattle.cell_rows.specs.CellMap.{places_in};
ghost use Rattle.cell_rows.specs.RowPlaces.{row_limit};
ghost use Rattle.cell_rows.specs.ShortAccesses.{access_short};
ghost use Rattle.cell_lines.specs.LinePlaces.{has_line, IsLineOf, IsShortLine, place_along};

use affine_core::KeptValues;
use cell_rows::{Cells, NarrowAccess, are_small};
use sanlp::natural_of;

/// The places of an access along a loop, which change evenly: the place at the first turn, and the step to the next.
#[derive(Clone, Copy)]
pub struct Line {
    pub place: usize,
    pub step: i64,
}

/// The line where there is no access.
pub(crate) const NO_LINE: Line = Line { place: 0, step: 0 };

/// The place at a turn.
pub fn place_at(line: Line, turn: i64) -> usize
    requires short { IsShortLine line }
    requires turn { unsigned_abs turn ≤ 268435456 }
    ensures { result ≡ place_along line turn }
{
    natural_of(line.place as i64 + turn * line.step)
}

// The place in rows of an access's cell, with one loop more.
fn place_inside<T: Copy>(
    cells: &Cells<T>,
    access: &NarrowAccess,
    outer: &[i64],
    value: i64,
) -> Option<usize>
    requires shallow { length outer.now < 6 }
    requires fits { IsTrue (access_short (length outer.now + 1) access.now) }
    ensures { result ≡ places_in cells.now (cell_at (outer.now ++ value ∷ []) access.now) }
{
    let inner = KeptValues::extended(outer, value);
    let values = inner.as_slice();
    cells.place(access, values, are_small(values))
}

// The place in rows of an access's cell at the turn after this one.
fn next_place<T: Copy>(
    cells: &Cells<T>,
    access: &NarrowAccess,
    outer: &[i64],
    turn: i64,
    last: i64,
) -> Option<usize>
    requires shallow { length outer.now < 6 }
    requires fits { IsTrue (access_short (length outer.now + 1) access.now) }
    requires later { turn <ℤ last }
    ensures { result
        ≡ places_in cells.now (cell_at (outer.now ++ (turn +ℤ pos 1) ∷ []) access.now) }
{
    place_inside(cells, access, outer, turn + 1)
}

// The place at the second turn, or at the last where there is no second. Where the first and the last have places, so has
// the second.
fn second_place<T: Copy>(
    cells: &Cells<T>,
    access: &NarrowAccess,
    outer: &[i64],
    first: i64,
    last: i64,
    end: usize,
) -> usize
    requires shallow { length outer.now < 6 }
    requires fits { IsTrue (access_short (length outer.now + 1) access.now) }
    requires turns { first ≤ℤ last }
    requires begin { is_some (places_in cells.now (cell_at (outer.now ++ first ∷ []) access.now))
        ≡ true }
    requires end { places_in cells.now (cell_at (outer.now ++ last ∷ []) access.now) ≡ Some end }
    ensures second { let next_at = outer.now ++ (first +ℤ pos 1) ∷ [] in
        first <ℤ last → places_in cells.now (cell_at next_at access.now) ≡ Some result }
    ensures none { last ≤ℤ first → result ≡ end }
{
    if first < last {
        match next_place(cells, access, outer, first, last) {
            Some(next) => next,
            None => unreachable!(),
        }
    } else {
        end
    }
}

// The line with this place at the first turn and that at the next.
fn line_through(place: usize, next: usize) -> Line
    requires place { place < row_limit }
    requires next { next < row_limit }
    ensures line { result ≡ record { place = place; step = pos next -ℤ pos place } }
    ensures short { IsShortLine result }
{
    Line {
        place,
        step: next as i64 - place as i64,
    }
}

/// The places of an access along a loop: exactly if its first and its last cell have places in rows.
pub(crate) fn line_of<T: Copy>(
    cells: &Cells<T>,
    access: &NarrowAccess,
    outer: &[i64],
    first: i64,
    last: i64,
) -> Option<Line>
    requires shallow { length outer.now < 6 }
    requires fits { IsTrue (access_short (length outer.now + 1) access.now) }
    requires turns { first ≤ℤ last }
    ensures come { is_some result
        ≡ has_line (places_in cells.now) outer.now first last access.now }
    ensures line { IfSome result (IsLineOf (places_in cells.now) outer.now first last access.now) }
{
    let place = place_inside(cells, access, outer, first)?;
    let end = place_inside(cells, access, outer, last)?;
    let next = second_place(cells, access, outer, first, last, end);
    Some(line_through(place, next))
}
