ghost use Rattle.std.specs.Prelude.{◌≡◌, ◌≤◌, ◌^◌, ◌+ℤ◌, negsuc, length, Some, unsigned_abs};
ghost use Rattle.affine_core.specs.Affine.{form_product, form_sum};
ghost use Rattle.int_polyhedra.specs.Steps.{negation_of};
ghost use Rattle.tree_sums.specs.Parts.{IsWithin};

use affine_core::{Form, Overflow};
use int_polyhedra::negation;

/// The sum of two forms whose numbers are small.
#[tactic(auto, using(crate::proofs::Small::sum_fits))]
pub fn sum(a: &Form, b: &Form) -> Form
    requires over { length a.now.coefs ≡ length b.now.coefs }
    requires first { IsWithin (2 ^ 60) a.now }
    requires second { IsWithin (2 ^ 60) b.now }
    ensures { result ≡ form_sum a.now b.now }
{
    match a.add(b) {
        Ok(sum) => sum,
        Err(Overflow) => unreachable!(),
    }
}

/// The form times -1, where its numbers are small.
#[tactic(auto, using(crate::proofs::Small::negative_fits))]
pub fn negative(form: &Form) -> Form
    requires { IsWithin (2 ^ 60) form.now }
    ensures { result ≡ form_product (negsuc 0) form.now }
{
    match form.scale(-1) {
        Ok(negative) => negative,
        Err(Overflow) => unreachable!(),
    }
}

/// `a - b`, where the numbers are small.
#[tactic(auto, using(crate::proofs::Small::negative_within, crate::proofs::Small::negative_over))]
pub fn difference(a: &Form, b: &Form) -> Form
    requires over { length a.now.coefs ≡ length b.now.coefs }
    requires first { IsWithin (2 ^ 60) a.now }
    requires second { IsWithin (2 ^ 60) b.now }
    ensures { result ≡ form_sum a.now (form_product (negsuc 0) b.now) }
{
    sum(a, &negative(b))
}

/// `-form - 1`, which is at least 0 exactly where the form is below 0. Its numbers are small.
#[tactic(auto, using(crate::proofs::Small::opposite_fits))]
pub fn opposite(form: &Form) -> Form
    requires { IsWithin (2 ^ 60) form.now }
    ensures { negation_of form.now ≡ Some result }
{
    match negation(form) {
        Ok(opposite) => opposite,
        Err(Overflow) => unreachable!(),
    }
}

/// The form and a number, which are small.
pub fn raised(form: &Form, by: i128) -> Form
    requires small { IsWithin (2 ^ 60) form.now }
    requires number { unsigned_abs by ≤ 2 ^ 60 }
    ensures { result ≡ record form.now { constant = form.now.constant +ℤ by } }
{
    Form {
        constant: form.constant + by,
        coefs: form.coefs.copy(),
    }
}
