ghost use Rattle.std.specs.Bool.{OnTrue};
ghost use Rattle.std.specs.Option.{option_map};
ghost use Rattle.std.specs.Prelude.{◌≡◌, ◌<◌, ◌≤◌, ◌≤ℤ◌, ◌+◌, ◌+ℤ◌, ◌++◌, ◌↔◌, ℤ, pos, Some, [], ◌∷◌, ◌*ℤ◌, length, unsigned_abs, IsTrue};
ghost use Rattle.source_tree.specs.declared.tree.Found.TheVariants as found;
ghost use Rattle.source_tree.specs.Walk.{map_values};
ghost use Rattle.tree_eval.specs.Stretches.{AddsLines, AreSmall, IsSmall, found_at, values_at, start_limit, step_limit, turn_limit};

use crate::line::{Line, line_of};
use affine_core::{KeptForm, Vector};
use sanlp::Point;
use source_tree::Found;

/// The leaf of a stretch. A writer's values are given by their values at the first turn and the steps to the next.
#[derive(Drop)]
pub(crate) enum Leaf {
    Writer(u32, Vector, Vector),
    Zero,
    Dead,
}

/// How large a value of a map is at the first turn at most.
const START_LIMIT: u64 = 2_305_843_009_213_693_952;

// Adds the values of a map at a turn.
fn append_values_at(starts: &[i64], steps: &[i64], turn: i64, out: &mut Vector)
    requires room { length out.old + length starts.now ≤ 6 }
    requires small { AreSmall starts.now steps.now }
    requires not_negative { pos 0 ≤ℤ turn }
    requires few { turn ≤ℤ pos turn_limit }
    ensures { out.new ≡ out.old ++ values_at turn starts.now steps.now }
{
    let (Some((start, starts)), Some((step, steps))) = (starts.split_first(), steps.split_first())
    else {
        return;
    };
    out.push(*start + turn * *step);
    append_values_at(starts, steps, turn, out)
}

// The value at a turn, by that at the first turn and the step to the next.
fn value_at(start: i64, step: i64, turn: i64) -> i64
    requires start { unsigned_abs start ≤ start_limit }
    requires step { unsigned_abs step ≤ step_limit }
    requires not_negative { pos 0 ≤ℤ turn }
    requires few { turn ≤ℤ pos turn_limit }
    ensures { result ≡ start +ℤ (turn *ℤ step) }
{
    start + turn * step
}

// Whether these are the values of a map at a turn.
fn are_values_at(starts: &[i64], steps: &[i64], turn: i64, values: &[i64]) -> bool
    requires small { AreSmall starts.now steps.now }
    requires not_negative { pos 0 ≤ℤ turn }
    requires few { turn ≤ℤ pos turn_limit }
    ensures { IsTrue result ↔ values_at turn starts.now steps.now ≡ values.now }
{
    let (Some((start, starts)), Some((step, steps))) = (starts.split_first(), steps.split_first())
    else {
        return values.is_empty();
    };
    let Some((value, values)) = values.split_first() else {
        return false;
    };
    *value == value_at(*start, *step, turn) && are_values_at(starts, steps, turn, values)
}

impl Leaf {
    /// Whether the leaf gives this point of this statement at a turn.
    pub(crate) fn is_at(&self, turn: i64, statement: u32, point: &[i64]) -> bool
        requires small { IsSmall self.now }
        requires not_negative { pos 0 ≤ℤ turn }
        requires few { turn ≤ℤ pos turn_limit }
        ensures { IsTrue result
            ↔ found_at self.now turn
            ≡ found.At (record { statement = statement; at = point.now }) }
    {
        match self {
            Leaf::Writer(writer, starts, steps) => {
                *writer == statement
                    && are_values_at(starts.as_slice(), steps.as_slice(), turn, point)
            }
            Leaf::Zero | Leaf::Dead => false,
        }
    }

    /// What the leaf gives at a turn.
    pub(crate) fn at(&self, turn: i64) -> Found
        requires small { IsSmall self.now }
        requires not_negative { pos 0 ≤ℤ turn }
        requires few { turn ≤ℤ pos turn_limit }
        ensures { result ≡ found_at self.now turn }
    {
        match self {
            Leaf::Writer(statement, starts, steps) => {
                let mut at = Vector::empty(starts.allocator());
                append_values_at(starts.as_slice(), steps.as_slice(), turn, &mut at);
                Found::At(Point {
                    statement: *statement,
                    at,
                })
            }
            Leaf::Zero => Found::Zero,
            Leaf::Dead => Found::Dead,
        }
    }
}

// Adds a line of a map.
fn append_line(line: Line, starts: &mut Vector, steps: &mut Vector)
    requires starts { length starts.old + 1 ≤ 6 }
    requires steps { length steps.old + 1 ≤ 6 }
    ensures starts { starts.new ≡ starts.old ++ line.value ∷ [] }
    ensures steps { steps.new ≡ steps.old ++ line.step ∷ [] }
{
    starts.push(line.value);
    steps.push(line.step);
}

/// Adds the lines of a map's forms, if they are small. It answers whether they are.
pub(crate) fn append_lines(
    forms: &[KeptForm],
    outer: &[i64],
    first: i64,
    starts: &mut Vector,
    steps: &mut Vector,
) -> bool
    requires room { length starts.old + length forms.now ≤ 6 }
    requires small { AreSmall starts.old steps.old }
    requires short { length outer.now < 6 }
    ensures { OnTrue result
        (AddsLines (λ turn. map_values forms.now (outer.now ++ (first +ℤ turn) ∷ []))
        starts.old steps.old starts.new steps.new) }
{
    let Some((form, forms)) = forms.split_first() else {
        return true;
    };
    let Some(line) = line_of(form, outer, first) else {
        return false;
    };
    if line.value.unsigned_abs() > START_LIMIT {
        return false;
    }
    append_line(line, starts, steps);
    append_lines(forms, outer, first, starts, steps)
}
