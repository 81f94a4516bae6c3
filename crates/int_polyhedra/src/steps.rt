ghost use Rattle.std.specs.Prelude.{◌≡◌, ◌+◌, ◌≤◌, ◌≤ℤ◌, ◌<ℤ◌, ◌↔◌, ◌++◌, ℤ, pos, List, length, map, IfOk, ◌%◌, ◌==◌};
ghost use Rattle.std.specs.Result.{result_ok};
ghost use Rattle.std.specs.List.{list_all};
ghost use Rattle.std.specs.Ordering.{int_eq};
ghost use Rattle.std.specs.Int.RustNames.{unsigned_abs};
ghost use Rattle.affine_core.specs.Affine.{form_at};
ghost use Rattle.int_polyhedra.specs.Chain.{rows_of};
ghost use Rattle.int_polyhedra.specs.Systems.{AreOver};
ghost use Rattle.int_polyhedra.specs.Steps.{bad_row_number, negative_multiplier, bad_divisor, sum_with, sum_onto, sum_of, is_contradictory, floor, not_divisible, divided_row, quotient_row, cut_row, negation_of, split_row};

use crate::rows::{Rows, find, has_row};
use crate::system::{Reason, Term};
use affine_core::{Coefs, Form, Overflow, Row};
use std::alloc::Global;

// The first row number that no row has.
fn wrong_row_number(rows: &Rows, terms: &[Term]) -> Option<Reason>
    ensures { result ≡ bad_row_number (length (rows_of rows.now)) terms.now }
{
    let term = terms.iter().find(|term| !has_row(rows, term.row as usize))?;
    Some(Reason::BadIndex(term.row))
}

// The first multiplier below 0.
fn wrong_multiplier(terms: &[Term]) -> Option<Reason>
    ensures { result ≡ negative_multiplier terms.now }
{
    let term = terms.iter().find(|term| term.times < 0)?;
    Some(Reason::Negative(term.times))
}

fn wrong_divisor(divisor: i128) -> Option<Reason>
    ensures { result ≡ bad_divisor divisor }
{
    if divisor < 1 {
        return Some(Reason::Negative(divisor));
    }
    None
}

// The sum and one more term. A number that no row has was refused before.
#[tactic(auto, using(crate::proofs::Variables::over_at, crate::proofs::Variables::product_over))]
fn add_term(rows: &Rows, vars: usize, sum: &Form, term: &Term) -> Result<Form, Overflow>
    requires rows { AreOver vars (rows_of rows.now) }
    requires sum { length sum.now.coefs ≡ vars }
    ensures { result_ok result ≡ sum_with (rows_of rows.now) sum.now term.now }
{
    let Ok(row) = find(&*rows, term.row as usize) else {
        return Err(Overflow);
    };
    let more = row.scale(term.times)?;
    sum.add(&more)
}

// The sum and the terms, added one after the other.
fn add_terms(rows: &Rows, vars: usize, start: Form, terms: &[Term]) -> Result<Form, Overflow>
    requires rows { AreOver vars (rows_of rows.now) }
    requires start { length start.coefs ≡ vars }
    ensures { result_ok result ≡ sum_onto (rows_of rows.now) start terms.now }
{
    let mut sum = start;
    for term in terms {
        sum = add_term(rows, vars, &sum, term)?;
    }
    Ok(sum)
}

/// The sum of the rows with these multipliers. `divisor` is what refuses the divisor of a Cut.
pub fn sum_rows(
    alloc: Global,
    vars: usize,
    rows: &Rows,
    divisor: Option<Reason>,
    terms: &[Term],
) -> Result<Form, Reason>
    requires short { vars ≤ 18 }
    requires rows { AreOver vars (rows_of rows.now) }
    ensures { result ≡ sum_of vars (rows_of rows.now) divisor terms.now }
{
    if let Some(reason) = wrong_row_number(rows, terms) {
        return Err(reason);
    }
    if let Some(reason) = divisor {
        return Err(reason);
    }
    if let Some(reason) = wrong_multiplier(terms) {
        return Err(reason);
    }
    match add_terms(rows, vars, Form::constant(alloc, vars, 0), terms) {
        Ok(sum) => Ok(sum),
        Err(Overflow) => Err(Reason::Overflow),
    }
}

/// Whether the row has no variable and a negative constant, so that no point meets it.
pub fn contradicts(row: &Row) -> bool
    ensures { result ≡ is_contradictory row.now }
{
    row.constant < 0 && all_zero(row.coefs.as_slice())
}

fn all_zero(coefs: &[i128]) -> bool
    ensures { result ≡ list_all (λ c. int_eq c (pos 0)) coefs.now }
{
    coefs.iter().all(|coef| *coef == 0)
}

/// Whether the divisor divides the value.
pub fn divides(divisor: i128, value: i128) -> bool
    requires { pos 1 ≤ℤ divisor }
    ensures { result ≡ (unsigned_abs value % unsigned_abs divisor == 0) }
{
    value % divisor == 0
}

fn divide(value: i128, divisor: i128) -> i128
    requires { pos 1 ≤ℤ divisor }
    ensures { result ≡ floor value (unsigned_abs divisor) }
{
    value.div_euclid(divisor)
}

// The first coefficient that the divisor does not divide.
fn wrong_coef(divisor: i128, coefs: &[i128]) -> Option<Reason>
    requires { pos 1 ≤ℤ divisor }
    ensures { result ≡ not_divisible (unsigned_abs divisor) coefs.now }
{
    let coef = coefs.iter().find(|coef| !divides(divisor, **coef))?;
    Some(Reason::NotDivisible(*coef))
}

fn append_quotients(divisor: i128, coefs: &[i128], out: &mut Coefs)
    requires divisor { pos 1 ≤ℤ divisor }
    requires room { length out.old + length coefs.now ≤ 18 }
    ensures { out.new ≡ out.old ++ map (λ c. floor c (unsigned_abs divisor)) coefs.now }
{
    for coef in coefs {
        out.push(divide(*coef, divisor));
    }
}

/// The row of the quotients by the divisor, each rounded down.
pub fn quotients(row: &Row, divisor: i128) -> Row
    requires { pos 1 ≤ℤ divisor }
    ensures { result ≡ quotient_row (unsigned_abs divisor) row.now }
{
    let mut coefs = Coefs::empty(row.coefs.allocator());
    append_quotients(divisor, row.coefs.as_slice(), &mut coefs);
    Form {
        constant: divide(row.constant, divisor),
        coefs,
    }
}

fn divide_row(divisor: i128, row: &Row) -> Result<Row, Reason>
    requires { pos 1 ≤ℤ divisor }
    ensures { result ≡ divided_row (unsigned_abs divisor) row.now }
{
    if let Some(reason) = wrong_coef(divisor, row.coefs.as_slice()) {
        return Err(reason);
    }
    Ok(quotients(row, divisor))
}

/// The row that a Cut adds. It is not inlined, so that a level of a proof takes less stack.
#[inline(never)]
pub fn cut(
    alloc: Global,
    vars: usize,
    rows: &Rows,
    divisor: i128,
    terms: &[Term],
) -> Result<Row, Reason>
    requires short { vars ≤ 18 }
    requires rows { AreOver vars (rows_of rows.now) }
    ensures { result ≡ cut_row vars (rows_of rows.now) divisor terms.now }
{
    match sum_rows(alloc, vars, rows, wrong_divisor(divisor), terms) {
        Ok(sum) => divide_row(divisor, &sum),
        Err(reason) => Err(reason),
    }
}

/// The row `-form - 1 >= 0`, which a whole point meets exactly where it does not meet the row `form >= 0`. It is made by
/// scaling with -1 and adding -1, and `Overflow` comes exactly where one of the two leaves 128 bits: at a constant or a
/// coefficient of -2^127. It takes no memory.
#[tactic(auto, using(crate::proofs::Variables::product_over, crate::proofs::Variables::length_zeros))]
pub fn negation(row: &Row) -> Result<Row, Overflow>
    ensures exact { result_ok result ≡ negation_of row.now }
    ensures opposite { IfOk result
        (λ other. (at : List ℤ) → (pos 0 ≤ℤ form_at other at) ↔ (form_at row.now at <ℤ pos 0)) }
{
    let minus = row.scale(-1)?;
    let count = row.coefs.len();
    minus.add(&Form::constant(row.coefs.allocator(), count, -1))
}

/// The row that a Split adds for its second proof. It is not inlined, so that a level of a proof takes less stack.
#[inline(never)]
pub fn split(vars: usize, form: &Form) -> Result<Row, Reason>
    ensures { result ≡ split_row vars form.now }
{
    let count = form.coefs.len();
    if count != vars {
        return Err(Reason::BadIndex(count as u32));
    }
    match negation(form) {
        Ok(other) => Ok(other),
        Err(Overflow) => Err(Reason::Overflow),
    }
}
