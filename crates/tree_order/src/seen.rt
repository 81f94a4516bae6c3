ghost use Rattle.std.specs.Prelude.{◌≡◌, ◌*◌, ◌+◌, ℕ, false, None, length, Option, IfOk, IfSome, MatchOption};
ghost use Rattle.std.specs.Option.{option_copied};
ghost use Rattle.int_polyhedra.specs.declared.system.System.{System as SystemOf};
ghost use Rattle.tree_order.specs.declared.candidates.Read.{Read as ReadOf};
ghost use Rattle.tree_order.specs.declared.seen.Position.{Position as PositionOf};
ghost use Rattle.tree_order.specs.Positions.{IsAt};
ghost use Rattle.tree_order.specs.Seen.{best_in, is_seen, sightings_of, AreSeen, IsOutcome, LeadsOn};

use crate::candidates::Candidate;
use crate::order::{Order, through};
use int_polyhedra::Term;
use plain_data::Items;
use source_tree::Tree;
use std::alloc::{AllocError, Global};

/// A node of a candidate's tree, and per row of the candidate's own context there the terms that show it in the joined
/// context.
#[derive(Drop)]
pub struct Position<'a> {
    pub candidate: &'a Candidate<'a>,
    pub node: &'a Tree,
    pub rows: Items<Items<Term>>,
}

/// A candidate without a point: per row of a context of its own the terms that show it in the joined context, and terms of
/// those rows and of the candidate's behind them that refute its writes.
#[derive(Drop)]
pub struct Absence<'a> {
    pub candidate: &'a Candidate<'a>,
    pub rows: Items<Items<Term>>,
    pub terms: Items<Term>,
}

/// What was seen of a candidate that was followed to a leaf on a path.
#[derive(Drop)]
pub enum Seen<'a> {
    /// It has no point.
    Without(Absence<'a>),
    /// Its point is the first one, and so the best.
    First(Position<'a>),
    /// Its point stands before that of the best.
    Before(Position<'a>, Order),
    /// Its point is the best from here on, and that of the best so far stands before it.
    After(Position<'a>, Order),
}

/// What became of a candidate.
#[derive(Drop)]
pub enum Outcome<'s, 'a> {
    Without(&'s Absence<'a>),
    /// Its point stands before that of the best.
    Before(&'s Position<'a>, Order),
}

/// The position whose point is the best of those that were seen, the last one at the end.
pub fn best_of<'s, 'a>(seen: &'s [Seen<'a>]) -> Option<&'s Position<'a>>
    ensures { option_copied result ≡ best_in seen.now }
{
    let Some((last, seen)) = seen.split_last() else {
        return None;
    };
    match last {
        Seen::First(at) => Some(at),
        Seen::After(at, _) => Some(at),
        Seen::Without(_) => best_of(seen),
        Seen::Before(_, _) => best_of(seen),
    }
}

/// What became of the candidate of this writer and level, if it was seen and isn't the best. `further` leads from the best
/// of those that were seen to the best, where that is another one.
pub fn outcome_of<'s, 'a>(
    seen: &'s [Seen<'a>],
    alloc: Global,
    writer: u32,
    level: usize,
    further: Option<&Order>,
) -> Result<Option<Outcome<'s, 'a>>, AllocError>
    ensures none { IfOk result (λ found. MatchOption found
        (is_seen writer level (sightings_of seen.now) ≡ false) (λ outcome. Unit {0})) }
    ensures some { IfOk result (λ found. IfSome found (λ outcome.
        (r : ReadOf) (context : SystemOf) (most : ℕ) (tip best : Option PositionOf)
        → AreSeen r context tip (sightings_of seen.now)
        → IfSome tip (IsAt r context) → IfSome best (IsAt r context)
        → LeadsOn context most tip best (option_copied further.entry)
        → IsOutcome r context (most + 65536 * length (sightings_of seen.now)) best writer level
        outcome)) }
{
    let Some((last, seen)) = seen.split_last() else {
        return Ok(None);
    };
    match last {
        Seen::Without(absence) => {
            if absence.candidate.is_of(writer, level) {
                return Ok(Some(Outcome::Without(absence)));
            }
            outcome_of(seen, alloc, writer, level, further)
        }
        Seen::First(_) => outcome_of(seen, alloc, writer, level, further),
        Seen::Before(at, order) => {
            if at.candidate.is_of(writer, level) {
                let order = through(alloc, order, further)?;
                return Ok(Some(Outcome::Before(at, order)));
            }
            outcome_of(seen, alloc, writer, level, further)
        }
        Seen::After(_, order) => {
            let Some(passed) = best_of(seen) else {
                return outcome_of(seen, alloc, writer, level, further);
            };
            let order = through(alloc, order, further)?;
            if passed.candidate.is_of(writer, level) {
                return Ok(Some(Outcome::Before(passed, order)));
            }
            outcome_of(seen, alloc, writer, level, Some(&order))
        }
    }
}
