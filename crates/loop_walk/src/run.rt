ghost use Rattle.std.specs.Prelude.{◌≡◌, ◌<◌, ◌+ℤ◌, pos, [], ◌∷◌, length, true, IsTrue, MatchOption};
ghost use Rattle.sanlp.specs.Loops.{interval};
ghost use Rattle.sanlp.specs.Size.{is_loop_value};
ghost use Rattle.loop_walk.specs.Runs.{assignment_points};

use crate::vector::LoopValues;
use affine_core::Vector;
use sanlp::Point;
use std::alloc::Global;
use std::marker::Model;

/// A point of a statement.
pub(crate) fn point_of(alloc: Global, statement: u32, at: &LoopValues) -> Point
    ensures { result ≡ record { statement = statement; at = at.now } }
{
    let mut vector = Vector::empty(alloc);
    for value in at.as_slice() {
        vector.push(*value);
    }
    Point {
        statement,
        at: vector,
    }
}

/// The turns that are left of a loop over one assignment, seen as their points.
#[derive(Drop)]
pub(crate) struct Run {
    statement: u32,
    /// The values of the loops round this one.
    outer: LoopValues,
    /// The value of the turn before those that are left, and that of the last turn.
    value: i64,
    last: i64,
}

impl Model for Run {
    ghost use Rattle.std.specs.Prelude.{List, pos, ◌+ℤ◌};
    ghost use Rattle.sanlp.specs.declared.nest.Point.{Point};
    ghost use Rattle.sanlp.specs.Loops.{interval};
    ghost use Rattle.loop_walk.specs.Runs.{assignment_points, IsRun};

    ghost Value = { List Point };

    ghost view = { λ run. assignment_points run.statement
        (interval (run.value +ℤ pos 1) run.last) run.outer };

    ghost invariant = { λ run. IsRun run.outer run.value run.last };
}

impl Run {
    /// No turn.
    pub(crate) fn over() -> Run
        ensures { result ≡ [] }
    {
        Run {
            statement: 0,
            outer: LoopValues::empty(),
            value: 0,
            last: 0,
        }
    }

    /// The turns behind that of this value, at these values of the loops round the loop.
    pub(crate) fn after(statement: u32, outer: &LoopValues, value: i64, last: i64) -> Run
        requires shallow { length outer.now < 6 }
        requires value { IsTrue (is_loop_value value) }
        requires last { IsTrue (is_loop_value last) }
        ensures { result
            ≡ assignment_points statement (interval (value +ℤ pos 1) last) outer.now }
    {
        Run {
            statement,
            outer: outer.copy(),
            value,
            last,
        }
    }

    /// Whether no turn is left.
    pub(crate) fn is_over(&self) -> bool
        ensures { result ≡ true → self.now ≡ [] }
    {
        self.value >= self.last
    }

    /// The point of the next turn. It takes no memory.
    pub(crate) fn next(&mut self, alloc: Global) -> Option<Point>
        ensures { MatchOption result ((self.old ≡ []) × (self.new ≡ []))
            (λ point. self.old ≡ point ∷ self.new) }
    {
        if self.value >= self.last {
            return None;
        }
        let value = self.value + 1;
        self.value = value;
        Some(point_of(alloc, self.statement, &self.outer.extended(value)))
    }
}
