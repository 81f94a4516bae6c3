ghost use Rattle.std.specs.List.{list_all};
ghost use Rattle.std.specs.Option.{option_map_or};
ghost use Rattle.std.specs.Prelude.{◌≡◌, ◌≤◌, ◌<◌, ◌+◌, length, replicate, true, IfOk, IfSome, IsTrue};
ghost use Rattle.cell_rows.specs.CellMap.{places_in};
ghost use Rattle.cell_rows.specs.ShortAccesses.{access_short};
ghost use Rattle.cell_lines.specs.LinePlaces.{AreStatementLines};
ghost use Rattle.shadow_sweep.specs.Stretches.{IsStretchOf, no_stretch};

use affine_core::KeptValues;
use cell_lines::{Lines, lines_along};
use cell_rows::{Cells, NarrowStatement};
use sanlp::Tag;
use std::alloc::{AllocError, Global};

/// What is known of the places of a statement's accesses along its innermost loop, at these values of the loops round
/// it: lines from the first value to the last, if there are any. The values at which the loop began and that was seen
/// last tell how far lines are looked for.
#[derive(Drop)]
pub(crate) struct Stretch {
    outer: KeptValues,
    begun: i64,
    seen: i64,
    pub(crate) first: i64,
    pub(crate) last: i64,
    pub(crate) lines: Option<Lines>,
}

/// Lines are looked for where the last value is at least so much greater than the first, and anew where the loop has
/// come farther than that past the last.
const LEAST_LENGTH: i64 = 7;

/// How often lines are looked for at most, each time half as far, where the cells further on have no places.
const TRIES: usize = 5;

// The places of a statement's accesses along many turns of a loop, where they change evenly.
fn long_lines(
    accesses: &NarrowStatement,
    outer: &[i64],
    first: i64,
    last: i64,
    cells: &Cells<Tag>,
) -> Option<Lines>
    requires shallow { length outer.now < 6 }
    requires few { length accesses.now.reads ≤ 8 }
    requires reads_fit { IsTrue (list_all (access_short (length outer.now + 1))
        accesses.now.reads) }
    requires write_fits { IsTrue
        (option_map_or (access_short (length outer.now + 1)) accesses.now.write true) }
    ensures { IfSome result
        (AreStatementLines (places_in cells.now) outer.now first last accesses.now) }
{
    if last.saturating_sub(first) >= LEAST_LENGTH {
        lines_along(accesses, outer, first, last, cells)
    } else {
        None
    }
}

impl Stretch {
    // Nothing is known.
    fn none() -> Stretch
        ensures { result ≡ no_stretch }
    {
        Stretch {
            outer: KeptValues::of(&[]),
            begun: 0,
            seen: 0,
            first: 1,
            last: 0,
            lines: None,
        }
    }

    // The stretch from this value to so much further, or to half as far where no lines reach so far, and so on.
    fn reaching(
        accesses: &NarrowStatement,
        outer: &[i64],
        begun: i64,
        first: i64,
        reach: i64,
        cells: &Cells<Tag>,
    ) -> Stretch
        requires shallow { length outer.now < 6 }
        requires few { length accesses.now.reads ≤ 8 }
        requires reads_fit { IsTrue (list_all (access_short (length outer.now + 1))
            accesses.now.reads) }
        requires write_fits { IsTrue
            (option_map_or (access_short (length outer.now + 1)) accesses.now.write true) }
        ensures outer { result.outer ≡ outer.now }
        ensures known { IsStretchOf (places_in cells.now) accesses.now result }
    {
        let mut shorter = reach;
        for _ in 0..TRIES {
            let last = first.saturating_add(shorter);
            let lines = long_lines(accesses, outer, first, last, cells);
            if lines.is_some() {
                return Stretch {
                    outer: KeptValues::of(outer),
                    begun,
                    seen: first,
                    first,
                    last,
                    lines,
                };
            }
            shorter /= 2;
        }
        Stretch {
            outer: KeptValues::of(outer),
            begun,
            seen: first,
            first,
            last: first.saturating_add(reach),
            lines: None,
        }
    }

    // Whether the loops round the innermost one have these values.
    fn is_at(&self, outer: &[i64]) -> bool
        ensures { IsTrue result → self.now.outer ≡ outer.now }
    {
        self.outer.as_slice() == outer
    }

    // Begins another stretch where the loops round the innermost one have other values, as far as it went before; and
    // where it has come well past the stretch, as far again as it has come.
    fn renew(&mut self, accesses: &NarrowStatement, outer: &[i64], value: i64, cells: &Cells<Tag>)
        requires shallow { length outer.now < 6 }
        requires few { length accesses.now.reads ≤ 8 }
        requires reads_fit { IsTrue (list_all (access_short (length outer.now + 1))
            accesses.now.reads) }
        requires write_fits { IsTrue
            (option_map_or (access_short (length outer.now + 1)) accesses.now.write true) }
        requires known { IsStretchOf (places_in cells.now) accesses.now self.old }
        ensures outer { self.new.outer ≡ outer.now }
        ensures known { IsStretchOf (places_in cells.now) accesses.now self.new }
    {
        if !self.is_at(outer) {
            let reach = self.seen.saturating_sub(value);
            *self = Stretch::reaching(accesses, outer, value, value, reach, cells);
        } else if value > self.last.saturating_add(LEAST_LENGTH) {
            let reach = value.saturating_sub(self.begun);
            *self = Stretch::reaching(accesses, outer, self.begun, value, reach, cells);
        }
    }

    /// Comes to this value of the innermost loop.
    pub(crate) fn enter(
        &mut self,
        accesses: &NarrowStatement,
        outer: &[i64],
        value: i64,
        cells: &Cells<Tag>,
    )
        requires shallow { length outer.now < 6 }
        requires few { length accesses.now.reads ≤ 8 }
        requires reads_fit { IsTrue (list_all (access_short (length outer.now + 1))
            accesses.now.reads) }
        requires write_fits { IsTrue
            (option_map_or (access_short (length outer.now + 1)) accesses.now.write true) }
        requires known { IsStretchOf (places_in cells.now) accesses.now self.old }
        ensures outer { self.new.outer ≡ outer.now }
        ensures known { IsStretchOf (places_in cells.now) accesses.now self.new }
    {
        self.renew(accesses, outer, value, cells);
        self.seen = value;
    }
}

/// So many stretches of which nothing is known.
pub(crate) fn no_stretches(alloc: Global, count: usize) -> Result<Vec<Stretch>, AllocError>
    ensures { IfOk result (λ stretches. stretches.items ≡ replicate count no_stretch) }
{
    let mut stretches = Vec::new(alloc);
    for _ in 0..count {
        stretches.push(Stretch::none())?;
    }
    Ok(stretches)
}
