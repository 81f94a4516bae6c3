ghost use Rattle.std.specs.Prelude.{◌≡◌, ◌++◌, IsTrue, IfSome, length};
ghost use Rattle.std.specs.List.{list_all};
ghost use Rattle.loop_bind.specs.Bounds.{step_value, step_reasons, step_findings, unbounded, progression, bounds_by, lower_of, upper_of, step_of, variable_of};
ghost use Rattle.loop_bind.specs.Forms.{is_limited, is_limited_number};
ghost use Rattle.loop_bind.specs.Ranges.{is_bound_form, has_small_forms};
ghost use Rattle.loop_bind.specs.Reasons.{least_from};
ghost use Rattle.loop_bind.specs.Rows.{lower_forms};

use crate::affine::Affine;
use crate::error::{BindError, note};
use crate::judge::judge;
use crate::scope::{Place, Scope, What};
use loop_grammar::Step;
use plain_data::Items;
use std::alloc::Global;
use std::slice;

/// The bounds of a loop.
#[derive(Drop)]
pub enum Bounds {
    /// With step 1: the lower and the upper forms of its variable.
    Range {
        lower: Items<Affine>,
        upper: Items<Affine>,
    },
    /// With a step above 1: the one lower form and the upper forms of the source's variable.
    Progression {
        first: Affine,
        upper: Items<Affine>,
        step: i64,
    },
}

impl Bounds {
    /// The lower forms.
    pub fn lower(&self) -> &[Affine]
        ensures { result.now ≡ lower_of self.now }
    {
        match self {
            Bounds::Range { lower, .. } => lower.as_slice(),
            Bounds::Progression { first, .. } => slice::from_ref(first),
        }
    }

    /// The upper forms.
    pub fn upper(&self) -> &[Affine]
        ensures { result.now ≡ upper_of self.now }
    {
        match self {
            Bounds::Range { upper, .. } => upper.as_slice(),
            Bounds::Progression { upper, .. } => upper.as_slice(),
        }
    }

    /// The step.
    pub fn step(&self) -> i64
        ensures { result ≡ step_of self.now }
    {
        match self {
            Bounds::Range { .. } => 1,
            Bounds::Progression { step, .. } => *step,
        }
    }

    /// What the source's variable stands for in the loop of this number, counted from
    /// the outermost.
    pub fn variable(&self, number: u32) -> What
        requires { IsTrue (has_small_forms self.now) }
        ensures { result ≡ variable_of number self.now }
    {
        match self {
            Bounds::Range { .. } => What::Loop(number),
            Bounds::Progression { first, step, .. } => {
                What::Progression(first.plus(&Affine::multiple(*step, number as usize)))
            }
        }
    }
}

// Notes what is wrong with a step of this value in a loop with so many lower forms.
fn note_step(token: u32, lower: usize, step: i64, least: &mut Option<BindError>)
    ensures { least.new ≡ least_from least.old (step_reasons token lower (Some step)) }
{
    if step > 1 && lower > 1 {
        note(least, BindError::StepMax(token));
    }
    if step < 1 {
        note(least, BindError::StepRange(token));
    }
}

/// The value of the step of a loop with so many lower forms, if it has one. Each reason that stands
/// in it is noted.
pub(crate) fn read_step(
    scope: &Scope,
    step: &Step,
    lower: usize,
    least: &mut Option<BindError>,
) -> Option<i64>
    ensures value { result ≡ step_value scope.now step.now }
    ensures least { least.new ≡ least_from least.old (step_findings scope.now lower step.now) }
    ensures small { IfSome result (λ step. IsTrue (is_limited_number step)) }
{
    match step {
        Step::One => Some(1),
        Step::By { token, value } => {
            let form = judge(scope, Place::Extent, value, least)?;
            note_step(*token, lower, form.constant, least);
            Some(form.constant)
        }
    }
}

// The bounds with a step above 1, which wants one lower form.
fn progression(alloc: Global, lower: &[Affine], upper: Items<Affine>, step: i64) -> Bounds
    requires lower { IsTrue (list_all is_limited lower.now) }
    requires upper { IsTrue (list_all is_bound_form upper) }
    requires step { IsTrue (is_limited_number step) }
    ensures bounds { result ≡ progression lower.now upper step }
    ensures small { IsTrue (has_small_forms result) }
{
    match lower {
        [first] => Bounds::Progression {
            first: *first,
            upper,
            step,
        },
        _ => unbounded(alloc),
    }
}

// No bounds.
fn unbounded(alloc: Global) -> Bounds
    ensures { result ≡ unbounded }
{
    Bounds::Range {
        lower: Items::new(alloc),
        upper: Items::new(alloc),
    }
}

/// The bounds with a step of this value: none where there is no value, and none where it is
/// below 1.
pub(crate) fn bounds_by(
    alloc: Global,
    step: Option<i64>,
    lower: Items<Affine>,
    upper: Items<Affine>,
) -> Bounds
    requires step { IfSome step (λ step. IsTrue (is_limited_number step)) }
    requires lower { IsTrue (list_all is_limited lower) }
    requires upper { IsTrue (list_all is_bound_form upper) }
    ensures bounds { result ≡ bounds_by step lower upper }
    ensures small { IsTrue (has_small_forms result) }
{
    match step {
        Some(1) => Bounds::Range { lower, upper },
        Some(step) if step > 1 => progression(alloc, lower.as_slice(), upper, step),
        _ => unbounded(alloc),
    }
}
