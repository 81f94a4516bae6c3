ghost use Rattle.std.specs.Prelude.{◌≡◌, ◌≤◌, IsTrue, IfSome, IfOk, OnOk, map};
ghost use Rattle.std.specs.List.{list_all};
ghost use Rattle.loop_bind.specs.Forms.{is_limited, form_over};
ghost use Rattle.loop_bind.specs.Judging.{limited, seen_from, named, negated, product, combined_forms, combined, judged, form_or_zero, forms_of, findings_of, lower_operands, upper_operands};
ghost use Rattle.loop_bind.specs.Names.{value_named};
ghost use Rattle.loop_bind.specs.Reasons.{least_from};

use crate::affine::Affine;
use crate::error::{BindError, note};
use crate::scope::{Place, Scope, What, seen};
use affine_core::Form;
use loop_grammar::{BinarySign, Name, Operand};
use plain_data::Items;
use std::alloc::{AllocError, Global};
use std::slice;

#[inline(never)]
fn limit(form: Affine, token: u32, least: &mut Option<BindError>) -> Option<Affine>
    ensures form { result ≡ (limited token form).form }
    ensures least { least.new ≡ least_from least.old (limited token form).findings }
    ensures small { IfSome result (λ f. IsTrue (is_limited f)) }
{
    if form.is_limited() {
        return Some(form);
    }
    note(least, BindError::Large(token));
    None
}

// A name, which stands alone or has subscripts.
#[inline(never)]
fn name_form(
    what: Option<What>,
    alone: bool,
    token: u32,
    least: &mut Option<BindError>,
) -> Option<Affine>
    ensures form { result ≡ (named token alone what).form }
    ensures least { least.new ≡ least_from least.old (named token alone what).findings }
    ensures small { IfSome result (λ f. IsTrue (is_limited f)) }
{
    match what {
        Some(What::Array(_, _)) => {
            note(least, BindError::NotAffine(token));
            None
        }
        Some(What::Parameter(value)) if alone => limit(Affine::constant(value), token, least),
        Some(What::Loop(number)) if alone => {
            limit(Affine::variable(number as usize), token, least)
        }
        Some(What::Progression(form)) if alone => limit(form, token, least),
        _ => {
            note(least, BindError::UnknownName(token));
            None
        }
    }
}

// The name of this text and token, seen from such a place.
#[inline(never)]
fn find_form(
    scope: &Scope,
    place: Place,
    name: &Name,
    alone: bool,
    least: &mut Option<BindError>,
) -> Option<Affine>
    ensures form { result ≡ (named name.now.token alone
        (seen_from place (value_named scope.now name.now.text))).form }
    ensures least { least.new ≡ least_from least.old (named name.now.token alone
        (seen_from place (value_named scope.now name.now.text))).findings }
    ensures small { IfSome result (λ f. IsTrue (is_limited f)) }
{
    let what = seen(place, scope.find(name.text.as_slice()));
    name_form(what, alone, name.token, least)
}

#[inline(never)]
fn negate(form: Option<Affine>, token: u32, least: &mut Option<BindError>) -> Option<Affine>
    requires { IfSome form (λ f. IsTrue (is_limited f)) }
    ensures form { result ≡ (negated token form).form }
    ensures least { least.new ≡ least_from least.old (negated token form).findings }
    ensures small { IfSome result (λ f. IsTrue (is_limited f)) }
{
    let form = form?;
    limit(form.negated(), token, least)
}

// A product has a form where one of its operands has no variable.
fn multiply(
    left: &Affine,
    right: &Affine,
    token: u32,
    least: &mut Option<BindError>,
) -> Option<Affine>
    requires left { IsTrue (is_limited left.now) }
    requires right { IsTrue (is_limited right.now) }
    ensures form { result ≡ (product token left.now right.now).form }
    ensures least { least.new ≡ least_from least.old (product token left.now right.now).findings }
    ensures small { IfSome result (λ f. IsTrue (is_limited f)) }
{
    if left.has_no_variable() {
        return limit(right.times(left.constant), token, least);
    }
    if right.has_no_variable() {
        return limit(left.times(right.constant), token, least);
    }
    note(least, BindError::NotAffine(token));
    None
}

#[inline(never)]
#[tactic(auto, using(crate::proofs::Moderate::moderate_form))]
fn combine(
    sign: BinarySign,
    token: u32,
    left: Option<Affine>,
    right: Option<Affine>,
    least: &mut Option<BindError>,
) -> Option<Affine>
    requires left { IfSome left (λ f. IsTrue (is_limited f)) }
    requires right { IfSome right (λ f. IsTrue (is_limited f)) }
    ensures form { result ≡ (combined sign token left right).form }
    ensures least { least.new ≡ least_from least.old (combined sign token left right).findings }
    ensures small { IfSome result (λ f. IsTrue (is_limited f)) }
{
    let (Some(left), Some(right)) = (left, right) else {
        return None;
    };
    match sign {
        BinarySign::Add => limit(left.plus(&right), token, least),
        BinarySign::Sub => limit(left.minus(&right), token, least),
        BinarySign::Mul => multiply(&left, &right, token, least),
    }
}

/// The form of an operand in an affine place, if it has one. Each reason that stands in it
/// is noted.
#[cycle(judge)]
#[tactic(auto, using(crate::proofs::Operands::judged_number, crate::proofs::Operands::judged_access, crate::proofs::Operands::judged_binary, crate::proofs::Operands::judged_neg, crate::proofs::Operands::judged_min, crate::proofs::Operands::judged_max, crate::proofs::Operands::all_findings_of))]
pub(crate) fn judge(
    scope: &Scope,
    place: Place,
    operand: &Operand,
    least: &mut Option<BindError>,
) -> Option<Affine>
    ensures form { result ≡ (judged place scope.now operand.now).form }
    ensures least { least.new ≡ least_from least.old (judged place scope.now operand.now).findings }
    ensures small { IfSome result (λ f. IsTrue (is_limited f)) }
{
    match operand {
        Operand::Number { value, token } => limit(Affine::constant(*value), *token, least),
        Operand::Access { name, subscripts } => {
            judge_all(scope, place, subscripts.as_slice(), least);
            find_form(scope, place, name, subscripts.is_empty(), least)
        }
        Operand::Binary {
            sign,
            token,
            left,
            right,
        } => {
            let left = judge(scope, place, left.get(), least);
            let right = judge(scope, place, right.get(), least);
            combine(*sign, *token, left, right, least)
        }
        Operand::Neg { token, inner } => {
            let form = judge(scope, place, inner.get(), least);
            negate(form, *token, least)
        }
        Operand::Min { token, list } => {
            judge_all(scope, place, list.as_slice(), least);
            note(least, BindError::NotAffine(*token));
            None
        }
        Operand::Max { token, list } => {
            judge_all(scope, place, list.as_slice(), least);
            note(least, BindError::NotAffine(*token));
            None
        }
    }
}

/// Notes each reason that stands in these operands.
#[cycle(judge)]
pub(crate) fn judge_all(
    scope: &Scope,
    place: Place,
    operands: &[Operand],
    least: &mut Option<BindError>,
)
    ensures { least.new ≡ least_from least.old (findings_of place scope.now operands.now) }
{
    for operand in operands {
        judge(scope, place, operand, least);
    }
}

/// The operands of a lower bound: the arguments of a `max` at its top, or the one operand.
pub(crate) fn lower_parts(operand: &Operand) -> &[Operand]
    ensures { result.now ≡ lower_operands operand.now }
{
    match operand {
        Operand::Max { list, .. } if !list.is_empty() => list.as_slice(),
        _ => slice::from_ref(operand),
    }
}

/// The operands of an upper bound: the arguments of a `min` at its top, or the one operand.
pub(crate) fn upper_parts(operand: &Operand) -> &[Operand]
    ensures { result.now ≡ upper_operands operand.now }
{
    match operand {
        Operand::Min { list, .. } if !list.is_empty() => list.as_slice(),
        _ => slice::from_ref(operand),
    }
}

/// The form that an operand counts with: where it has none a reason was noted, and 0 stands for it.
pub(crate) fn form_or_zero(
    scope: &Scope,
    place: Place,
    operand: &Operand,
    least: &mut Option<BindError>,
) -> Affine
    ensures form { result ≡ form_or_zero (judged place scope.now operand.now) }
    ensures least { least.new ≡ least_from least.old (judged place scope.now operand.now).findings }
    ensures small { IsTrue (is_limited result) }
{
    match judge(scope, place, operand, least) {
        Some(form) => form,
        None => Affine::constant(0),
    }
}

/// The forms of these operands. Each reason that stands in them is noted.
pub(crate) fn forms(
    alloc: Global,
    scope: &Scope,
    place: Place,
    operands: &[Operand],
    least: &mut Option<BindError>,
) -> Result<Items<Affine>, AllocError>
    ensures forms { IfOk result (λ forms. forms ≡ forms_of place scope.now operands.now) }
    ensures least { OnOk result (least.new ≡ least_from least.old
        (findings_of place scope.now operands.now)) }
    ensures small { IfOk result (λ forms. IsTrue (list_all is_limited forms)) }
{
    let mut forms = Items::new(alloc);
    for operand in operands {
        let form = form_or_zero(scope, place, operand, least);
        forms.push(form)?;
    }
    Ok(forms)
}

/// These forms as forms of a nest, over as many variables as loops stand round them.
pub(crate) fn over_all(
    alloc: Global,
    forms: &[Affine],
    depth: usize,
) -> Result<Items<Form>, AllocError>
    requires { depth ≤ 6 }
    ensures { IfOk result (λ all. all ≡ map (form_over depth) forms.now) }
{
    let mut all = Items::new(alloc);
    for form in forms {
        all.push(form.over(alloc, depth))?;
    }
    Ok(all)
}
