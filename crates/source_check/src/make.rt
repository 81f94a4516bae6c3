ghost use Rattle.std.specs.Prelude.{◌≡◌, ◌≤◌, ◌+◌, [], ◌∷◌, IfOk};
ghost use Rattle.affine_core.specs.Affine.{constant_form, variable_form};
ghost use Rattle.source_check.specs.Making.{below_zero_of, minus_of, one_less_of, plus_of, system_with, system_with_all, times_of, with_terms, FormIsOver, IsMadeOver};
ghost use Rattle.source_tree.specs.Places.{at_place};
ghost use Rattle.source_tree.specs.Rows.{row_form, Take};

use affine_core::{Form, Row};
use int_polyhedra::System;
use std::alloc::{AllocError, Global};

/// Makes rows over so many variables, by `scale` and `add` in the order in which a row is written. A row is `None` where
/// that leaves 128 bits, and a system where one of its rows does.
#[derive(Clone, Copy)]
pub struct Space {
    pub alloc: Global,
    pub vars: u32,
    pub ghost short: { vars ≤ 18 },
}

impl Space {
    /// The form over all variables. One with more variables has none.
    pub fn taken(&self, form: &Form) -> Option<Form>
        ensures value { result ≡ row_form self.now.vars (Take form.now) }
        ensures over { FormIsOver self.now.vars result }
    {
        let vars = self.vars as usize;
        if form.coefs.len() > vars {
            return None;
        }
        Some(form.widened(vars))
    }

    /// The variable of this number.
    pub fn variable(&self, number: u32) -> Option<Form>
        ensures value { result ≡ row_form self.now.vars (Take (variable_form (number + 1) number)) }
        ensures over { FormIsOver self.now.vars result }
    {
        if number >= self.vars {
            return None;
        }
        let number = number as usize;
        self.taken(&Form::variable(self.alloc, number + 1, number))
    }

    /// A number.
    pub fn constant(&self, constant: i128) -> Option<Form>
        ensures value { result ≡ Some (constant_form self.now.vars constant) }
        ensures over { FormIsOver self.now.vars result }
    {
        Some(Form::constant(self.alloc, self.vars as usize, constant))
    }

    /// The form times a number.
    pub fn times(&self, by: i128, form: &Option<Form>) -> Option<Form>
        requires { FormIsOver self.now.vars form.now }
        ensures value { result ≡ times_of by form.now }
        ensures over { FormIsOver self.now.vars result }
    {
        match form {
            Some(form) => form.scale(by).ok(),
            None => None,
        }
    }

    /// The sum of two forms.
    pub fn plus(&self, left: &Option<Form>, right: &Option<Form>) -> Option<Form>
        requires left { FormIsOver self.now.vars left.now }
        requires right { FormIsOver self.now.vars right.now }
        ensures value { result ≡ plus_of left.now right.now }
        ensures over { FormIsOver self.now.vars result }
    {
        match (left, right) {
            (Some(left), Some(right)) => left.add(right).ok(),
            _ => None,
        }
    }

    /// `left - right`.
    pub fn minus(&self, left: &Option<Form>, right: &Option<Form>) -> Option<Form>
        requires left { FormIsOver self.now.vars left.now }
        requires right { FormIsOver self.now.vars right.now }
        ensures value { result ≡ minus_of left.now right.now }
        ensures over { FormIsOver self.now.vars result }
    {
        self.plus(left, &self.times(-1, right))
    }

    /// `form - 1`.
    pub fn one_less(&self, form: &Option<Form>) -> Option<Form>
        requires { FormIsOver self.now.vars form.now }
        ensures value { result ≡ one_less_of self.now.vars form.now }
        ensures over { FormIsOver self.now.vars result }
    {
        self.plus(form, &self.constant(-1))
    }

    /// `-form - 1`.
    pub fn below_zero(&self, form: &Option<Form>) -> Option<Form>
        requires { FormIsOver self.now.vars form.now }
        ensures value { result ≡ below_zero_of self.now.vars form.now }
        ensures over { FormIsOver self.now.vars result }
    {
        self.one_less(&self.times(-1, form))
    }

    /// A form over a statement's loops, at a place: its constant, and then each coefficient times the place's form.
    pub fn at_place(&self, form: &Form, place: &[Form]) -> Option<Form>
        ensures value { result ≡ row_form self.now.vars (at_place form.now place.now) }
        ensures over { FormIsOver self.now.vars result }
    {
        with_terms(
            self,
            self.constant(form.constant),
            form.coefs.as_slice(),
            place,
        )
    }

    /// The system with one more row.
    pub fn with_row(
        &self,
        system: Option<System>,
        row: Option<Row>,
    ) -> Result<Option<System>, AllocError>
        requires system { IsMadeOver self.now.vars system }
        requires row { FormIsOver self.now.vars row }
        ensures value { IfOk result (λ more. more ≡ system_with system row) }
        ensures over { IfOk result (λ more. IsMadeOver self.now.vars more) }
    {
        let (Some(mut system), Some(row)) = (system, row) else {
            return Ok(None);
        };
        system.rows.push(row)?;
        Ok(Some(system))
    }

    /// The system with the rows that two numbers are equal.
    pub fn with_equal(
        &self,
        system: Option<System>,
        left: &Option<Form>,
        right: &Option<Form>,
    ) -> Result<Option<System>, AllocError>
        requires system { IsMadeOver self.now.vars system }
        requires left { FormIsOver self.now.vars left.now }
        requires right { FormIsOver self.now.vars right.now }
        ensures value { IfOk result
            (λ more. more ≡ system_with_all system
            (minus_of left.now right.now ∷ minus_of right.now left.now ∷ [])) }
        ensures over { IfOk result (λ more. IsMadeOver self.now.vars more) }
    {
        let system = self.with_row(system, self.minus(left, right))?;
        self.with_row(system, self.minus(right, left))
    }
}

// Each coefficient times its form, added in order.
fn with_terms(space: &Space, sum: Option<Form>, coefs: &[i128], place: &[Form]) -> Option<Form>
    requires { FormIsOver space.now.vars sum }
    ensures value { result ≡ with_terms space.now.vars sum coefs.now place.now }
    ensures over { FormIsOver space.now.vars result }
{
    let (Some((coef, coefs)), Some((form, place))) = (coefs.split_first(), place.split_first())
    else {
        return sum;
    };
    let term = space.times(*coef, &space.taken(form));
    with_terms(space, space.plus(&sum, &term), coefs, place)
}
