ghost use Rattle.std.specs.Prelude.{◌≡◌, ◌<◌, ◌≤◌, ◌≤ℤ◌, ◌+ℤ◌, ◌-ℤ◌, ◌*ℤ◌, ◌++◌, ℤ, pos, negsuc, [], ◌∷◌, int_le, length, unsigned_abs, IfSome};
ghost use Rattle.affine_core.specs.Within.{value_in_128_bits};
ghost use Rattle.tree_eval.specs.Stretches.{IsLine, line_at, step_limit};

use affine_core::{KeptForm, KeptValues};

/// How a form's value changes along the innermost loop: its value at the first turn, and the step to the next.
#[derive(Clone, Copy)]
pub(crate) struct Line {
    pub(crate) value: i64,
    pub(crate) step: i64,
}

/// How large a step is at most.
const STEP_LIMIT: u64 = 1_073_741_824;

/// The form's values along the innermost loop from its first turn on, if its step, the coefficient of that loop, is small and
/// the first value needs no number of more than 64 bits. These are the values of the loops round it.
pub(crate) fn line_of(form: &KeptForm, outer: &[i64], first: i64) -> Option<Line>
    requires { length outer.now < 6 }
    ensures { IfSome result
        (IsLine (λ turn. value_in_128_bits form.now (outer.now ++ (first +ℤ turn) ∷ []))) }
{
    let here = KeptValues::extended(outer, first);
    let value = form.eval_in_64_bits(here.as_slice())?;
    let step = form.coefficient_in_64_bits(outer.len())?;
    if step.unsigned_abs() <= STEP_LIMIT {
        Some(Line { value, step })
    } else {
        None
    }
}

// For how many turns a number that isn't negative stays so: at most so many.
fn turns_kept(value: i64, step: i64, turns: i64) -> i64
    requires value { pos 0 ≤ℤ value }
    requires step { unsigned_abs step ≤ step_limit }
    requires turns { pos 0 ≤ℤ turns }
    ensures not_negative { pos 0 ≤ℤ result }
    ensures few { result ≤ℤ turns }
    ensures kept { (turn : ℤ) → pos 0 ≤ℤ turn → turn ≤ℤ result
        → pos 0 ≤ℤ (value +ℤ (turn *ℤ step)) }
{
    if step >= 0 {
        return turns;
    }
    let most = (value.unsigned_abs() / step.unsigned_abs()) as i64;
    if most < turns { most } else { turns }
}

// The line on the other side of zero: each value is -1 less what it was.
fn opposite_line(line: Line) -> Line
    requires { unsigned_abs line.step ≤ step_limit }
    ensures value { result.value ≡ negsuc 0 -ℤ line.value }
    ensures step { result.step ≡ pos 0 -ℤ line.step }
{
    Line {
        value: -1 - line.value,
        step: -line.step,
    }
}

/// For how many turns a line stays on the side of zero where it begins: at most so many.
pub(crate) fn turns_on_side(line: Line, turns: i64) -> i64
    requires step { unsigned_abs line.step ≤ step_limit }
    requires turns { pos 0 ≤ℤ turns }
    ensures not_negative { pos 0 ≤ℤ result }
    ensures few { result ≤ℤ turns }
    ensures side { (turn : ℤ) → pos 0 ≤ℤ turn → turn ≤ℤ result
        → int_le (pos 0) (line_at line turn) ≡ int_le (pos 0) line.value }
{
    if line.value >= 0 {
        return turns_kept(line.value, line.step, turns);
    }
    let other = opposite_line(line);
    turns_kept(other.value, other.step, turns)
}
