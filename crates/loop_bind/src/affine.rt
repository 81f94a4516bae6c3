ghost use Rattle.std.specs.Prelude.{◌≡◌, ◌≤◌, ◌<◌, IsTrue, ◌+ℤ◌, ◌-ℤ◌, ◌*ℤ◌, pos, length};
ghost use Rattle.loop_bind.specs.Forms.{constant_form, loop_form, multiple_form, sum_form, difference_form, scaled_form, negated_form, lowered_form, has_no_variable, is_limited_number, is_limited, form_over};
ghost use Rattle.sanlp.specs.WellFormed.{is_moderate};
ghost use Rattle.loop_bind.specs.Ranges.{is_moderate_form};
ghost use Rattle.std.specs.List.{list_all};

use affine_core::{Coefs, Form};
use std::alloc::Global;

// Whether each number is within 2,147,483,647 of 0.
fn are_small(values: &[i64]) -> bool
    ensures { result ≡ list_all is_limited_number values.now }
{
    values.iter().all(|value| is_small(*value))
}

/// An affine form over the loops round a place. There are at most six; a loop that isn't there has
/// the coefficient 0.
#[derive(Clone, Copy, Debug, PartialEq, Eq)]
pub struct Affine {
    pub constant: i64,
    pub coefs: [i64; 6],
}

/// Whether a number is within 2,147,483,647 of 0.
pub(crate) fn is_small(value: i64) -> bool
    ensures { result ≡ is_limited_number value }
{
    value >= -2147483647 && value <= 2147483647
}

fn plus(a: i64, b: i64) -> i64
    requires a { IsTrue (is_limited_number a) }
    requires b { IsTrue (is_limited_number b) }
    ensures { result ≡ a +ℤ b }
{
    a + b
}

fn minus(a: i64, b: i64) -> i64
    requires a { IsTrue (is_moderate a) }
    requires b { IsTrue (is_moderate b) }
    ensures { result ≡ a -ℤ b }
{
    a - b
}

fn times(a: i64, b: i64) -> i64
    requires a { IsTrue (is_limited_number a) }
    requires b { IsTrue (is_limited_number b) }
    ensures { result ≡ a *ℤ b }
{
    a * b
}

impl Affine {
    /// The form of a number.
    pub fn constant(constant: i64) -> Affine
        ensures { result ≡ constant_form constant }
    {
        Affine {
            constant,
            coefs: [0; 6],
        }
    }

    /// A multiple of the variable of this loop, counted from the outermost.
    pub fn multiple(by: i64, number: usize) -> Affine
        ensures { result ≡ multiple_form by number }
    {
        let mut coefs = [0; 6];
        if number < 6 {
            coefs[number] = by;
        }
        Affine { constant: 0, coefs }
    }

    /// The variable of this loop.
    pub fn variable(number: usize) -> Affine
        ensures { result ≡ loop_form number }
    {
        Affine::multiple(1, number)
    }

    /// Whether each coefficient is 0.
    pub fn has_no_variable(&self) -> bool
        ensures { result ≡ has_no_variable self.now }
    {
        self.coefs.iter().all(|coef| *coef == 0)
    }

    /// Whether each number is within 2,147,483,647 of 0.
    pub fn is_limited(&self) -> bool
        ensures { result ≡ is_limited self.now }
    {
        is_small(self.constant) && are_small(&self.coefs)
    }

    /// The sum of two forms.
    pub fn plus(&self, other: &Affine) -> Affine
        requires left { IsTrue (is_limited self.now) }
        requires right { IsTrue (is_limited other.now) }
        ensures { result ≡ sum_form self.now other.now }
    {
        let mut coefs = [0; 6];
        for i in 0..6 {
            coefs[i] = plus(self.coefs[i], other.coefs[i]);
        }
        Affine {
            constant: plus(self.constant, other.constant),
            coefs,
        }
    }

    /// The difference of two forms.
    pub fn minus(&self, other: &Affine) -> Affine
        requires left { IsTrue (is_moderate_form self.now) }
        requires right { IsTrue (is_moderate_form other.now) }
        ensures { result ≡ difference_form self.now other.now }
    {
        let mut coefs = [0; 6];
        for i in 0..6 {
            coefs[i] = minus(self.coefs[i], other.coefs[i]);
        }
        Affine {
            constant: minus(self.constant, other.constant),
            coefs,
        }
    }

    /// The form times a number.
    pub fn times(&self, by: i64) -> Affine
        requires form { IsTrue (is_limited self.now) }
        requires number { IsTrue (is_limited_number by) }
        ensures { result ≡ scaled_form by self.now }
    {
        let mut coefs = [0; 6];
        for i in 0..6 {
            coefs[i] = times(by, self.coefs[i]);
        }
        Affine {
            constant: times(by, self.constant),
            coefs,
        }
    }

    /// The form with its sign changed.
    pub fn negated(&self) -> Affine
        requires { IsTrue (is_limited self.now) }
        ensures { result ≡ negated_form self.now }
    {
        let mut coefs = [0; 6];
        for i in 0..6 {
            coefs[i] = minus(0, self.coefs[i]);
        }
        Affine {
            constant: minus(0, self.constant),
            coefs,
        }
    }

    /// The form with 1 taken off.
    pub fn lowered(&self) -> Affine
        requires { IsTrue (is_moderate_form self.now) }
        ensures { result ≡ lowered_form self.now }
    {
        Affine {
            constant: minus(self.constant, 1),
            coefs: self.coefs,
        }
    }

    /// The form of a nest, over as many variables as loops stand round it. It takes no memory.
    pub fn over(&self, alloc: Global, depth: usize) -> Form
        requires { depth ≤ 6 }
        ensures { result ≡ form_over depth self.now }
    {
        let mut coefs = Coefs::empty(alloc);
        for coef in &self.coefs[..depth] {
            coefs.push(*coef as i128);
        }
        Form {
            constant: self.constant as i128,
            coefs,
        }
    }
}
