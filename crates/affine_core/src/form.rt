ghost use Rattle.std.specs.Prelude.{◌≡◌, ◌≤◌, ◌<◌, ◌+◌, ◌++◌, ◌+ℤ◌, ◌*ℤ◌, ℤ, pos, List, length, replicate, slice_index_or, IfOk};
ghost use Rattle.std.specs.Result.{result_ok};
ghost use Rattle.affine_core.specs.Affine.{form_at, products, form_product, sums, form_sum, constant_form, variable_form, widened_form};
ghost use Rattle.affine_core.specs.Within.{number_in_128_bits, form_in_128_bits, sum_in_128_bits, combined_in_128_bits, value_in_128_bits, Appends};

use crate::short::Coefs;
use std::alloc::Global;

/// An affine form: a constant and one coefficient for each variable, in order.
#[derive(Drop, PartialEq, Eq)]
pub struct Form {
    pub constant: i128,
    pub coefs: Coefs,
}

/// A row is read as `form >= 0`.
pub type Row = Form;

/// A product or a partial sum left 128 bits.
#[derive(Clone, Copy, PartialEq, Eq, Debug)]
pub struct Overflow;

impl Form {
    /// The form of a number, over so many variables. It takes no memory.
    pub fn constant(alloc: Global, variables: usize, constant: i128) -> Form
        requires { variables ≤ 18 }
        ensures form { result ≡ constant_form variables constant }
        ensures values { (at : List ℤ) → form_at result at ≡ constant }
    {
        let mut coefs = Coefs::empty(alloc);
        append_zeros(variables, &mut coefs);
        Form { constant, coefs }
    }

    /// The form of the variable of this number, counted from 0, among so many. It takes no memory.
    pub fn variable(alloc: Global, variables: usize, variable: usize) -> Form
        requires short { variables ≤ 18 }
        requires within { variable < variables }
        ensures form { result ≡ variable_form variables variable }
        ensures values { (at : List ℤ) → form_at result at ≡ slice_index_or at variable (pos 0) }
    {
        let mut coefs = Coefs::empty(alloc);
        append_zeros(variable, &mut coefs);
        coefs.push(1);
        append_zeros(variables - (variable + 1), &mut coefs);
        Form { constant: 0, coefs }
    }

    /// The same form over so many variables: the coefficients of the new ones are 0. It takes no memory.
    pub fn widened(&self, variables: usize) -> Form
        requires wider { length self.now.coefs ≤ variables }
        requires short { variables ≤ 18 }
        ensures form { result ≡ widened_form variables self.now }
        ensures values { (at : List ℤ) → form_at result at ≡ form_at self.now at }
    {
        let mut coefs = self.coefs.copy();
        append_zeros(variables - self.coefs.len(), &mut coefs);
        Form {
            constant: self.constant,
            coefs,
        }
    }

    /// The same form again. It takes no memory.
    pub fn copy(&self) -> Form
        ensures { result ≡ self.now }
    {
        Form {
            constant: self.constant,
            coefs: self.coefs.copy(),
        }
    }

    /// The value at these values of the variables. `Overflow` comes exactly where a product or a partial sum, taken
    /// constant first and then in variable order, leaves 128 bits. It takes no memory.
    pub fn eval(&self, at: &[i128]) -> Result<i128, Overflow>
        requires { length self.now.coefs ≡ length at.now }
        ensures exact { result_ok result ≡ value_in_128_bits self.now at.now }
        ensures value { IfOk result (λ value. value ≡ form_at self.now at.now) }
    {
        add_products(self.constant, self.coefs.as_slice(), at)
    }

    /// The form times a number. `Overflow` comes exactly where a product leaves 128 bits. It takes no memory.
    pub fn scale(&self, by: i128) -> Result<Form, Overflow>
        ensures exact { result_ok result ≡ form_in_128_bits (form_product by self.now) }
        ensures values { IfOk result
            (λ f. (at : List ℤ) → form_at f at ≡ form_at self.now at *ℤ by) }
    {
        let constant = product(self.constant, by)?;
        let mut coefs = Coefs::empty(self.coefs.allocator());
        append_products(self.coefs.as_slice(), by, &mut coefs)?;
        Ok(Form { constant, coefs })
    }

    /// The sum of two forms. `Overflow` comes exactly where a sum leaves 128 bits. It takes no memory.
    pub fn add(&self, other: &Form) -> Result<Form, Overflow>
        requires { length self.now.coefs ≡ length other.now.coefs }
        ensures exact { result_ok result ≡ form_in_128_bits (form_sum self.now other.now) }
        ensures values { IfOk result
            (λ f. (at : List ℤ) → form_at f at ≡ form_at self.now at +ℤ form_at other.now at) }
    {
        let constant = sum(self.constant, other.constant)?;
        let mut coefs = Coefs::empty(self.coefs.allocator());
        append_sums(self.coefs.as_slice(), other.coefs.as_slice(), &mut coefs)?;
        Ok(Form { constant, coefs })
    }
}

fn append_zeros(count: usize, coefs: &mut Coefs)
    requires { length coefs.old + count ≤ 18 }
    ensures { coefs.new ≡ coefs.old ++ replicate count (pos 0) }
{
    for _ in 0..count {
        coefs.push(0);
    }
}

// The product of two numbers of 64 bits has 128, and takes one multiplication.
fn product(a: i128, b: i128) -> Result<i128, Overflow>
    ensures { result_ok result ≡ number_in_128_bits (a *ℤ b) }
{
    match (i64::try_from(a), i64::try_from(b)) {
        (Ok(a), Ok(b)) => Ok(i128::from(a) * i128::from(b)),
        _ => a.checked_mul(b).ok_or(Overflow),
    }
}

fn sum(a: i128, b: i128) -> Result<i128, Overflow>
    ensures { result_ok result ≡ number_in_128_bits (a +ℤ b) }
{
    a.checked_add(b).ok_or(Overflow)
}

/// Adds a product. Most coefficients are 0, and add nothing.
pub(crate) fn add_product(total: i128, coef: i128, value: i128) -> Result<i128, Overflow>
    ensures { result_ok result ≡ sum_in_128_bits total coef value }
{
    if coef == 0 {
        return Ok(total);
    }
    sum(total, product(coef, value)?)
}

/// Adds the product of each coefficient and its variable's value, in order.
pub(crate) fn add_products(total: i128, coefs: &[i128], at: &[i128]) -> Result<i128, Overflow>
    ensures { result_ok result ≡ combined_in_128_bits total coefs.now at.now }
{
    let (Some((coef, coefs)), Some((value, at))) = (coefs.split_first(), at.split_first()) else {
        return Ok(total);
    };
    let next = add_product(total, *coef, *value)?;
    add_products(next, coefs, at)
}

// Appends each coefficient times the number.
fn append_products(coefs: &[i128], by: i128, out: &mut Coefs) -> Result<(), Overflow>
    requires { length out.old + length coefs.now ≤ 18 }
    ensures { Appends result out.old out.new (products by coefs.now) }
{
    let Some((coef, coefs)) = coefs.split_first() else {
        return Ok(());
    };
    out.push(product(*coef, by)?);
    append_products(coefs, by, out)
}

// Appends the sum of each two coefficients.
fn append_sums(left: &[i128], right: &[i128], out: &mut Coefs) -> Result<(), Overflow>
    requires { length out.old + length left.now ≤ 18 }
    ensures { Appends result out.old out.new (sums left.now right.now) }
{
    let (Some((a, left)), Some((b, right))) = (left.split_first(), right.split_first()) else {
        return Ok(());
    };
    out.push(sum(*a, *b)?);
    append_sums(left, right, out)
}
