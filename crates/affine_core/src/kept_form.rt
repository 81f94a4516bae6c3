ghost use Rattle.std.specs.Prelude.{◌≡◌, ◌≤◌, pos, length, slice_index_or, take, IfOk, IfSome, Some};
ghost use Rattle.std.specs.Result.{result_ok};
ghost use Rattle.affine_core.specs.Affine.{form_at};
ghost use Rattle.affine_core.specs.Kept.{IsShort, kept_form};
ghost use Rattle.affine_core.specs.Within.{combined_in_128_bits, number_in_64_bits, sum_in_128_bits, value_in_128_bits};

use crate::form::{Form, Overflow, add_product, add_products};
use crate::short::Coefs;
use plain_data::{Boxed, Items};
use std::alloc::{AllocError, Global};
use std::marker::Model;

/// The numbers of a form, in as few bytes as they need.
#[derive(Drop)]
enum Numbers {
    /// How many coefficients there are, the constant, and the coefficients, with zeros behind them. Each number has 8 bits.
    Narrow(u8, i8, [i8; 13]),
    Wide(Boxed<WideNumbers>),
}

/// A form that has more than 13 coefficients, or a number of more than 8 bits.
#[derive(Drop)]
struct WideNumbers {
    constant: i128,
    coefs: Items<i128>,
}

/// A form in 16 bytes, as what keeps many of them has it. Where it has at most 13 coefficients, and each of its numbers
/// has 8 bits, it takes no other memory.
#[derive(Drop)]
pub struct KeptForm {
    alloc: Global,
    numbers: Numbers,
}

impl Model for KeptForm {
    ghost use Rattle.affine_core.specs.declared.form.Form.{Form};
    ghost use Rattle.affine_core.specs.Kept.{IsShort, kept_form};

    ghost Value = { Form };

    ghost view = { λ kept. kept_form kept.numbers };

    ghost invariant = { λ kept. IsShort kept.numbers };
}

impl KeptForm {
    /// The form in few bytes, or want of memory.
    pub fn of(alloc: Global, form: &Form) -> Result<KeptForm, AllocError>
        ensures { IfOk result (λ kept. kept ≡ form.now) }
    {
        match narrow_numbers(form) {
            Some(numbers) => Ok(KeptForm { alloc, numbers }),
            None => {
                let numbers = wide_numbers(alloc, form)?;
                Ok(KeptForm { alloc, numbers })
            }
        }
    }

    /// How many coefficients the form has.
    pub fn variables(&self) -> usize
        ensures { result ≡ length self.now.coefs }
    {
        match &self.numbers {
            Numbers::Narrow(count, _, coefs) => {
                let coefs = &coefs[..usize::from(*count)];
                coefs.len()
            }
            Numbers::Wide(numbers) => numbers.get().coefs.len(),
        }
    }

    /// The form. It takes no memory.
    pub fn get(&self) -> Form
        ensures { result ≡ self.now }
    {
        match &self.numbers {
            Numbers::Narrow(count, constant, coefs) => {
                form_of_narrow(self.alloc, *constant, &coefs[..usize::from(*count)])
            }
            Numbers::Wide(numbers) => form_of_wide(self.alloc, numbers.get()),
        }
    }

    /// The value at these values of the variables, as `Form::eval` gives it, of the numbers as they stand here. It takes
    /// no memory.
    pub fn eval(&self, at: &[i128]) -> Result<i128, Overflow>
        requires { length self.now.coefs ≡ length at.now }
        ensures exact { result_ok result ≡ value_in_128_bits self.now at.now }
        ensures value { IfOk result (λ value. value ≡ form_at self.now at.now) }
    {
        match &self.numbers {
            Numbers::Narrow(count, constant, coefs) => {
                let coefs = &coefs[..usize::from(*count)];
                add_narrow_products(i128::from(*constant), coefs, at)
            }
            Numbers::Wide(numbers) => {
                let numbers = numbers.get();
                add_products(numbers.constant, numbers.coefs.as_slice(), at)
            }
        }
    }

    /// The coefficient of a variable, or 0 where the form has no such variable; none only where it leaves 64 bits. It
    /// takes no memory.
    pub fn coefficient_in_64_bits(&self, variable: usize) -> Option<i64>
        ensures { result ≡ number_in_64_bits (slice_index_or self.now.coefs variable (pos 0)) }
    {
        match &self.numbers {
            Numbers::Narrow(count, _, coefs) => {
                let coefs = &coefs[..usize::from(*count)];
                match coefs.get(variable) {
                    Some(coef) => Some(i64::from(*coef)),
                    None => Some(0),
                }
            }
            Numbers::Wide(numbers) => match numbers.get().coefs.as_slice().get(variable) {
                Some(coef) => i64::try_from(*coef).ok(),
                None => Some(0),
            },
        }
    }

    /// The value at these values of the variables, if no number leaves 64 bits on the way. It takes no memory.
    pub fn eval_in_64_bits(&self, at: &[i64]) -> Option<i64>
        ensures { IfSome result (λ value. value_in_128_bits self.now at.now ≡ Some value) }
    {
        match &self.numbers {
            Numbers::Narrow(count, constant, coefs) => {
                let coefs = &coefs[..usize::from(*count)];
                add_narrow_in_64_bits(i64::from(*constant), coefs, at)
            }
            Numbers::Wide(numbers) => {
                let numbers = numbers.get();
                let constant = i64::try_from(numbers.constant).ok()?;
                add_all_in_64_bits(constant, numbers.coefs.as_slice(), at)
            }
        }
    }
}

/// These forms in few bytes each, or want of memory.
pub fn kept_forms(alloc: Global, forms: &[Form]) -> Result<Items<KeptForm>, AllocError>
    ensures { IfOk result (λ kept. kept ≡ forms.now) }
{
    let mut kept = Vec::with_capacity(alloc, forms.len())?;
    for form in forms {
        kept.push(KeptForm::of(alloc, form)?)?;
    }
    Ok(Items::from_vec(kept))
}

/// These forms as they were, or want of memory.
pub fn whole_forms(alloc: Global, kept: &[KeptForm]) -> Result<Items<Form>, AllocError>
    ensures { IfOk result (λ forms. forms ≡ kept.now) }
{
    let mut forms = Vec::with_capacity(alloc, kept.len())?;
    for form in kept {
        forms.push(form.get())?;
    }
    Ok(Items::from_vec(forms))
}

/// A sum with one more product, if no number leaves 64 bits. Most coefficients are 0, and add nothing.
fn add_in_64_bits(total: i64, coef: i128, value: i64) -> Option<i64>
    ensures { IfSome result (λ sum. sum_in_128_bits total coef value ≡ Some sum) }
{
    if coef == 0 {
        return Some(total);
    }
    let coef = i64::try_from(coef).ok()?;
    let product = coef.checked_mul(value)?;
    total.checked_add(product)
}

/// A sum with the product of each coefficient and its variable's value, in order, if no number leaves 64 bits.
fn add_all_in_64_bits(total: i64, coefs: &[i128], at: &[i64]) -> Option<i64>
    ensures { IfSome result (λ sum. combined_in_128_bits total coefs.now at.now ≡ Some sum) }
{
    let (Some((coef, coefs)), Some((value, at))) = (coefs.split_first(), at.split_first()) else {
        return Some(total);
    };
    let next = add_in_64_bits(total, *coef, *value)?;
    add_all_in_64_bits(next, coefs, at)
}

/// The same of coefficients of 8 bits.
fn add_narrow_in_64_bits(total: i64, coefs: &[i8], at: &[i64]) -> Option<i64>
    ensures { IfSome result (λ sum. combined_in_128_bits total coefs.now at.now ≡ Some sum) }
{
    let (Some((coef, coefs)), Some((value, at))) = (coefs.split_first(), at.split_first()) else {
        return Some(total);
    };
    let next = add_in_64_bits(total, i128::from(*coef), *value)?;
    add_narrow_in_64_bits(next, coefs, at)
}

/// The numbers of a form in 8 bits each, where they have no more and the coefficients are at most 13.
fn narrow_numbers(form: &Form) -> Option<Numbers>
    ensures form { IfSome result (λ numbers. kept_form numbers ≡ form.now) }
    ensures short { IfSome result IsShort }
{
    let coefs = form.coefs.as_slice();
    if coefs.len() > 13 {
        return None;
    }
    let constant = i8::try_from(form.constant).ok()?;
    let narrow = narrowed(coefs)?;
    Some(Numbers::Narrow(coefs.len() as u8, constant, narrow))
}

/// The numbers in 8 bits each, with zeros behind them, where they have no more.
fn narrowed(coefs: &[i128]) -> Option<[i8; 13]>
    requires { length coefs.now ≤ 13 }
    ensures { IfSome result (λ narrow. take (length coefs.now) narrow ≡ coefs.now) }
{
    let mut narrow = [0; 13];
    for at in 0..coefs.len() {
        narrow[at] = i8::try_from(coefs[at]).ok()?;
    }
    Some(narrow)
}

/// The numbers of any form, in a box, or want of memory.
fn wide_numbers(alloc: Global, form: &Form) -> Result<Numbers, AllocError>
    ensures form { IfOk result (λ numbers. kept_form numbers ≡ form.now) }
    ensures short { IfOk result IsShort }
{
    let coefs = Items::from_slice(alloc, form.coefs.as_slice())?;
    let numbers = WideNumbers {
        constant: form.constant,
        coefs,
    };
    Ok(Numbers::Wide(Boxed::new(alloc, numbers)?))
}

fn form_of_narrow(alloc: Global, constant: i8, coefs: &[i8]) -> Form
    requires { length coefs.now ≤ 18 }
    ensures { result ≡ record { constant = constant; coefs = coefs.now } }
{
    let mut wide = Coefs::empty(alloc);
    for coef in coefs {
        wide.push(i128::from(*coef));
    }
    Form {
        constant: i128::from(constant),
        coefs: wide,
    }
}

fn form_of_wide(alloc: Global, numbers: &WideNumbers) -> Form
    requires { length numbers.now.coefs ≤ 18 }
    ensures { result ≡ record { constant = numbers.now.constant; coefs = numbers.now.coefs } }
{
    let mut coefs = Coefs::empty(alloc);
    for coef in numbers.coefs.as_slice() {
        coefs.push(*coef);
    }
    Form {
        constant: numbers.constant,
        coefs,
    }
}

// Adds the product of each coefficient and its variable's value, in order.
fn add_narrow_products(total: i128, coefs: &[i8], at: &[i128]) -> Result<i128, Overflow>
    ensures { result_ok result ≡ combined_in_128_bits total coefs.now at.now }
{
    let (Some((coef, coefs)), Some((value, at))) = (coefs.split_first(), at.split_first()) else {
        return Ok(total);
    };
    let next = add_product(total, i128::from(*coef), *value)?;
    add_narrow_products(next, coefs, at)
}
