ghost use Rattle.std.specs.Prelude.{◌≡◌, pos, ◌-ℤ◌, ◌≤ℤ◌, Some, ◌+◌, ◌<◌, ◌≤◌, [], ◌∷◌, ◌++◌, false, if◌then◌else◌, length, map, take, IsTrue, MatchOption};
ghost use Rattle.std.specs.Int.{int_div_euclid};
ghost use Rattle.std.specs.Ordering.{int_eq};
ghost use Rattle.std.specs.List.{list_all};
ghost use Rattle.affine_core.specs.Affine.{form_at};
ghost use Rattle.sanlp.specs.Loops.{all_hold, greatest, interval, least, turns_up_to};
ghost use Rattle.sanlp.specs.WellFormed.{form_fits};
ghost use Rattle.sanlp.specs.Size.{all_within, is_loop_value, loop_within};
ghost use Rattle.loop_walk.specs.Counting.{IsLoopRange, are_loop_values};

use crate::vector::LoopValues;
use affine_core::Form;
use sanlp::{LOOP_VALUE_LIMIT, add_product, moderate};

/// The value of a form. Its coefficients are so small that at values of 64 bits no sum leaves 128 bits.
#[tactic(auto, using(sanlp::proofs::ModerateForms::as_many))]
pub(crate) fn form_value(form: &Form, at: &LoopValues) -> i128
    requires { IsTrue (form_fits (length at.now) form.now) }
    ensures { result ≡ form_at form.now at.now }
{
    let coefs = form.coefs.as_slice();
    let values = at.as_slice();
    let mut sum = form.constant;
    for place in 0..coefs.len() {
        let coef = moderate(coefs[place]);
        sum = add_product(sum, coef, values[place]);
    }
    sum
}

// The greatest value of these forms, or 0 where there is none.
fn greatest_of(forms: &[Form], at: &LoopValues) -> i128
    requires { IsTrue (list_all (form_fits (length at.now)) forms.now) }
    ensures { result ≡ greatest (map (λ form. form_at form at.now) forms.now) }
{
    let Some((first, others)) = forms.split_first() else {
        return 0;
    };
    let mut value = form_value(first, at);
    for form in others {
        value = value.max(form_value(form, at));
    }
    value
}

// The least value of these forms, or 0 where there is none.
fn least_of(forms: &[Form], at: &LoopValues) -> i128
    requires { IsTrue (list_all (form_fits (length at.now)) forms.now) }
    ensures { result ≡ least (map (λ form. form_at form at.now) forms.now) }
{
    let Some((first, others)) = forms.split_first() else {
        return 0;
    };
    let mut value = form_value(first, at);
    for form in others {
        value = value.min(form_value(form, at));
    }
    value
}

// Whether the value of each form lies within the limit of loop values.
fn all_forms_within(forms: &[Form], at: &LoopValues) -> bool
    requires { IsTrue (list_all (form_fits (length at.now)) forms.now) }
    ensures { result ≡ all_within forms.now at.now }
{
    for form in forms {
        if form_value(form, at).unsigned_abs() > LOOP_VALUE_LIMIT {
            return false;
        }
    }
    true
}

/// Whether every row holds: its form is at least 0.
pub fn rows_hold(rows: &[Form], at: &LoopValues) -> bool
    requires { IsTrue (list_all (form_fits (length at.now)) rows.now) }
    ensures { result ≡ all_hold rows.now at.now }
{
    for row in rows {
        if form_value(row, at) < 0 {
            return false;
        }
    }
    true
}

// A loop value in 64 bits.
fn narrowed(value: i128) -> i64
    requires { IsTrue (is_loop_value value) }
    ensures { result ≡ value }
{
    value as i64
}

// The quotient of the difference of two loop values and a step, rounded down.
fn quotient(first: i64, last: i64, step: i64) -> i128
    requires { pos 2 ≤ℤ step }
    ensures { result ≡ int_div_euclid (last -ℤ first) step }
{
    (last as i128 - first as i128).div_euclid(step as i128)
}

// The last turn of a loop from `first` to `last`, or a number below 0 where it has none.
fn last_turn(first: i64, last: i64, step: i64) -> i64
    requires first_within { IsTrue (is_loop_value first) }
    requires last_within { IsTrue (is_loop_value last) }
    requires more { pos 2 ≤ℤ step }
    ensures value { result ≡ int_div_euclid (last -ℤ first) step }
    ensures within { IsTrue (is_loop_value result) }
{
    narrowed(quotient(first, last, step))
}

// The first and the last value of a loop's variable: with a step above 1 they are turns.
fn range_of(first: i64, last: i64, step: i64) -> (i64, i64)
    requires first_within { IsTrue (is_loop_value first) }
    requires last_within { IsTrue (is_loop_value last) }
    requires step { pos 1 ≤ℤ step }
    ensures values { (if int_eq step (pos 1) then
        interval first last else turns_up_to first last step)
        ≡ interval result.0 result.1 }
    ensures first_within { IsTrue (is_loop_value result.0) }
    ensures last_within { IsTrue (is_loop_value result.1) }
{
    if step == 1 {
        (first, last)
    } else {
        (0, last_turn(first, last, step))
    }
}

/// The first and the last value of a loop, or `None` where one of its forms has a value outside the limit of loop values.
pub fn loop_range(lower: &[Form], upper: &[Form], step: i64, at: &LoopValues) -> Option<(i64, i64)>
    requires lower_fit { IsTrue (list_all (form_fits (length at.now)) lower.now) }
    requires upper_fit { IsTrue (list_all (form_fits (length at.now)) upper.now) }
    requires step { pos 1 ≤ℤ step }
    ensures { MatchOption result
        (loop_within lower.now upper.now at.now ≡ false)
        (λ range. IsLoopRange lower.now upper.now step at.now range.0 range.1) }
{
    if all_forms_within(lower, at) && all_forms_within(upper, at) {
        let first = narrowed(greatest_of(lower, at));
        let last = narrowed(least_of(upper, at));
        Some(range_of(first, last, step))
    } else {
        None
    }
}
