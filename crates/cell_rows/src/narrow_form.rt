ghost use Rattle.std.specs.Prelude.{◌≡◌, ◌≤◌, ◌+ℤ◌, ◌*ℤ◌, length, unsigned_abs, IsTrue};
ghost use Rattle.affine_core.specs.Affine.{form_at};
ghost use Rattle.sanlp.specs.WellFormed.{form_fits};
ghost use Rattle.cell_rows.specs.SmallValues.{are_small_values};

use affine_core::Form;
use sanlp::{add_product, moderate};
use std::marker::Model;

// Adds a product to a sum, where both are so small that the sum has 64 bits.
fn add_small_product(sum: i64, coef: i64, value: i64) -> i64
    requires product { unsigned_abs (coef *ℤ value) ≤ 576460752303423488 }
    requires sum { unsigned_abs sum ≤ 4000000000000000000 }
    ensures { result ≡ sum +ℤ (coef *ℤ value) }
{
    sum + coef * value
}

// The value of a form at small loop values.
#[tactic(auto, using(sanlp::proofs::ModerateForms::as_many))]
fn small_sum(constant: i64, coefs: &[i64], values: &[i64]) -> i64
    requires fits { IsTrue
        (form_fits (length values.now) (record { constant = constant; coefs = coefs.now })) }
    requires few { length values.now ≤ 6 }
    requires small { IsTrue (are_small_values values.now) }
    ensures { result ≡ form_at (record { constant = constant; coefs = coefs.now }) values.now }
{
    let mut sum = constant;
    for place in 0..coefs.len() {
        sum = add_small_product(sum, coefs[place], values[place]);
    }
    sum
}

// The value of a form.
#[tactic(auto, using(sanlp::proofs::ModerateForms::as_many))]
fn wide_sum(constant: i64, coefs: &[i64], values: &[i64]) -> i128
    requires fits { IsTrue
        (form_fits (length values.now) (record { constant = constant; coefs = coefs.now })) }
    requires few { length values.now ≤ 6 }
    ensures { result ≡ form_at (record { constant = constant; coefs = coefs.now }) values.now }
{
    let mut sum = constant as i128;
    for place in 0..coefs.len() {
        sum = add_product(sum, coefs[place], values[place]);
    }
    sum
}

/// A form over at most 6 variables, with its numbers in 64 bits.
#[derive(Drop)]
pub struct NarrowForm {
    constant: i64,
    coefs: [i64; 6],
    depth: usize,
}

impl Model for NarrowForm {
    ghost use Rattle.std.specs.Prelude.{◌≤◌, take};
    ghost use Rattle.affine_core.specs.declared.form.Form.{Form};

    ghost Value = { Form };

    ghost view = { λ form.
        record { constant = form.constant; coefs = take form.depth form.coefs } };

    ghost invariant = { λ form. form.depth ≤ 6 };
}

impl NarrowForm {
    /// The same form.
    pub fn new(form: &Form) -> NarrowForm
        requires few { length form.now.coefs ≤ 6 }
        requires fits { IsTrue (form_fits (length form.now.coefs) form.now) }
        ensures { result ≡ form.now }
    {
        let wide = form.coefs.as_slice();
        let mut coefs = [0; 6];
        for place in 0..wide.len() {
            coefs[place] = moderate(wide[place]);
        }
        NarrowForm {
            constant: moderate(form.constant),
            coefs,
            depth: wide.len(),
        }
    }

    /// The value of the form at small loop values.
    pub fn small_value(&self, values: &[i64]) -> i64
        requires fits { IsTrue (form_fits (length values.now) self.now) }
        requires small { IsTrue (are_small_values values.now) }
        ensures { result ≡ form_at self.now values.now }
    {
        small_sum(self.constant, &self.coefs[..self.depth], values)
    }

    /// The value of the form at these values of its variables.
    pub fn value(&self, values: &[i64]) -> i128
        requires { IsTrue (form_fits (length values.now) self.now) }
        ensures { result ≡ form_at self.now values.now }
    {
        wide_sum(self.constant, &self.coefs[..self.depth], values)
    }
}
