ghost use Rattle.std.specs.Prelude.{◌≡◌, ◌<◌, ◌++◌, IsTrue, IfOk, OnOk, map, if◌then◌else◌};
ghost use Rattle.std.specs.List.{list_all};
ghost use Rattle.loop_bind.specs.Forms.{is_limited, is_limited_number, loop_form, difference_form, lowered_form};
ghost use Rattle.loop_bind.specs.Judging.{judged, form_or_zero, forms_of};
ghost use Rattle.loop_bind.specs.Ranges.{is_bound_form, has_small_forms};
ghost use Rattle.loop_bind.specs.declared.bounds.Bounds.TheVariants.{Range, Progression};
ghost use Rattle.loop_bind.specs.Reasons.{least_from};
ghost use Rattle.loop_bind.specs.Rows.{lower_forms, upper_forms, loop_rows, sign_rows, comparison_rows, guard_rows, guard_findings, negated_sign, may_have_else, else_rows};
ghost use Rattle.loop_bind.specs.Judging.{findings_of, lower_operands, upper_operands};

use crate::affine::Affine;
use crate::bounds::Bounds;
use crate::error::BindError;
use crate::judge::{form_or_zero, forms, lower_parts, upper_parts};
use crate::scope::{Place, Scope};
use loop_grammar::{CompareSign, Comparison, Operand};
use plain_data::Items;
use std::alloc::{AllocError, Global};

/// The lower forms of a loop. Each reason that stands in them is noted.
pub(crate) fn lower(
    alloc: Global,
    scope: &Scope,
    first: &Operand,
    least: &mut Option<BindError>,
) -> Result<Items<Affine>, AllocError>
    ensures forms { IfOk result (λ forms. forms ≡ lower_forms scope.now first.now) }
    ensures least { OnOk result (least.new ≡ least_from least.old
        (findings_of Place.Body scope.now (lower_operands first.now))) }
    ensures small { IfOk result (λ forms. IsTrue (list_all is_limited forms)) }
{
    forms(alloc, scope, Place::Body, lower_parts(first), least)
}

// Each form with 1 taken off.
#[tactic(auto, using(crate::proofs::Moderate::moderate_form, crate::proofs::Moderate::bound_lowered))]
fn lower_all(alloc: Global, forms: &[Affine]) -> Result<Items<Affine>, AllocError>
    requires { IsTrue (list_all is_limited forms.now) }
    ensures forms { IfOk result (λ all. all ≡ map lowered_form forms.now) }
    ensures small { IfOk result (λ all. IsTrue (list_all is_bound_form all)) }
{
    let mut all = Items::new(alloc);
    for form in forms {
        all.push(form.lowered())?;
    }
    Ok(all)
}

/// The upper forms of a loop, inclusive. Each reason that stands in them is noted.
#[tactic(auto, using(crate::proofs::Moderate::bound_forms))]
pub(crate) fn upper(
    alloc: Global,
    scope: &Scope,
    inclusive: bool,
    bound: &Operand,
    least: &mut Option<BindError>,
) -> Result<Items<Affine>, AllocError>
    ensures forms { IfOk result (λ forms. forms ≡ upper_forms scope.now inclusive bound.now) }
    ensures least { OnOk result (least.new ≡ least_from least.old
        (findings_of Place.Body scope.now (upper_operands bound.now))) }
    ensures small { IfOk result (λ forms. IsTrue (list_all is_bound_form forms)) }
{
    let forms = forms(alloc, scope, Place::Body, upper_parts(bound), least)?;
    if inclusive {
        return Ok(forms);
    }
    lower_all(alloc, forms.as_slice())
}

/// Adds the rows of a loop of step 1: its variable less each lower form, then each upper form less
/// its variable.
#[tactic(auto, using(crate::proofs::Moderate::moderate_form, crate::proofs::Moderate::moderate_bound))]
pub(crate) fn push_range_rows(
    rows: &mut Items<Affine>,
    number: usize,
    lower: &[Affine],
    upper: &[Affine],
) -> Result<(), AllocError>
    requires lower { IsTrue (list_all is_limited lower.now) }
    requires upper { IsTrue (list_all is_bound_form upper.now) }
    ensures { OnOk result (rows.new ≡ rows.old ++ loop_rows number (Range lower.now upper.now)) }
{
    let variable = Affine::variable(number);
    for low in lower {
        rows.push(variable.minus(low))?;
    }
    for high in upper {
        rows.push(high.minus(&variable))?;
    }
    Ok(())
}

// Adds the rows of a loop of a step above 1: its turn, then each upper form less the lower form and
// the step's multiple of the turn.
#[tactic(auto, using(crate::proofs::Moderate::moderate_form, crate::proofs::Moderate::moderate_bound, crate::proofs::Moderate::moderate_reach, crate::proofs::Moderate::limited_multiple))]
fn push_turn_rows(
    rows: &mut Items<Affine>,
    number: usize,
    first: &Affine,
    upper: &[Affine],
    step: i64,
) -> Result<(), AllocError>
    requires first { IsTrue (is_limited first.now) }
    requires upper { IsTrue (list_all is_bound_form upper.now) }
    requires step { IsTrue (is_limited_number step) }
    ensures { OnOk result (rows.new
        ≡ rows.old ++ loop_rows number (Progression first.now upper.now step)) }
{
    rows.push(Affine::variable(number))?;
    let taken = Affine::multiple(step, number);
    for high in upper {
        rows.push(high.minus(first).minus(&taken))?;
    }
    Ok(())
}

/// Adds the rows of a loop.
pub(crate) fn push_loop_rows(
    rows: &mut Items<Affine>,
    number: usize,
    bounds: &Bounds,
) -> Result<(), AllocError>
    requires { IsTrue (has_small_forms bounds.now) }
    ensures { OnOk result (rows.new ≡ rows.old ++ loop_rows number bounds.now) }
{
    match bounds {
        Bounds::Range { lower, upper } => {
            push_range_rows(rows, number, lower.as_slice(), upper.as_slice())
        }
        Bounds::Progression { first, upper, step } => {
            push_turn_rows(rows, number, first, upper.as_slice(), *step)
        }
    }
}

// Adds the rows of a comparison of two forms.
#[tactic(auto, using(crate::proofs::Moderate::moderate_form, crate::proofs::Moderate::moderate_difference))]
fn push_sign_rows(
    rows: &mut Items<Affine>,
    sign: CompareSign,
    left: &Affine,
    right: &Affine,
) -> Result<(), AllocError>
    requires left { IsTrue (is_limited left.now) }
    requires right { IsTrue (is_limited right.now) }
    ensures { OnOk result (rows.new ≡ rows.old ++ sign_rows sign left.now right.now) }
{
    match sign {
        CompareSign::Less => rows.push(right.minus(left).lowered()),
        CompareSign::LessEq => rows.push(right.minus(left)),
        CompareSign::Greater => rows.push(left.minus(right).lowered()),
        CompareSign::GreaterEq => rows.push(left.minus(right)),
        CompareSign::Equal => {
            rows.push(left.minus(right))?;
            rows.push(right.minus(left))
        }
    }
}

fn opposite(sign: CompareSign) -> CompareSign
    ensures { result ≡ negated_sign sign }
{
    match sign {
        CompareSign::Less => CompareSign::GreaterEq,
        CompareSign::LessEq => CompareSign::Greater,
        CompareSign::Greater => CompareSign::LessEq,
        CompareSign::GreaterEq => CompareSign::Less,
        CompareSign::Equal => CompareSign::Equal,
    }
}

/// The rows of a guard. Each reason that stands in it is noted.
pub(crate) fn guard(
    alloc: Global,
    scope: &Scope,
    cond: &[Comparison],
    least: &mut Option<BindError>,
) -> Result<Items<Affine>, AllocError>
    ensures rows { IfOk result (λ rows. rows ≡ guard_rows scope.now cond.now) }
    ensures least { OnOk result (least.new
        ≡ least_from least.old (guard_findings scope.now cond.now)) }
{
    let mut rows = Items::new(alloc);
    for comparison in cond {
        let left = form_or_zero(scope, Place::Body, &comparison.left, least);
        let right = form_or_zero(scope, Place::Body, &comparison.right, least);
        push_sign_rows(&mut rows, comparison.sign, &left, &right)?;
    }
    Ok(rows)
}

/// The rows of an `else` after a guard. Reasons in the guard are not noted again.
pub(crate) fn otherwise(
    alloc: Global,
    scope: &Scope,
    cond: &[Comparison],
) -> Result<Items<Affine>, AllocError>
    ensures { IfOk result (λ rows. rows ≡ else_rows scope.now cond.now) }
{
    let mut noted = None;
    let mut rows = Items::new(alloc);
    for comparison in cond {
        let left = form_or_zero(scope, Place::Body, &comparison.left, &mut noted);
        let right = form_or_zero(scope, Place::Body, &comparison.right, &mut noted);
        push_sign_rows(&mut rows, opposite(comparison.sign), &left, &right)?;
    }
    Ok(rows)
}

/// Whether an `else` may follow: after one comparison that isn't `==`.
pub(crate) fn allows_else(cond: &[Comparison]) -> bool
    ensures { result ≡ may_have_else cond.now }
{
    match cond {
        [comparison] => comparison.sign != CompareSign::Equal,
        _ => false,
    }
}
