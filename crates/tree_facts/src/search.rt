ghost use Rattle.std.specs.Prelude.{◌≡◌, ◌≤◌, ◌≤ℤ◌, ◌^◌, ◌%◌, ◌==◌, pos, length, unsigned_abs, All, IfOk, IfSome, IsTrue, OnOk};
ghost use Rattle.std.specs.List.{list_all};
ghost use Rattle.tree_sums.specs.Parts.{IsWithin};
ghost use Rattle.tree_facts.specs.Facts.{AreFacts, IsFactOf};

use crate::sums::sum_onto;
use affine_core::{Form, Row};
use int_polyhedra::{System, Term, divides, quotients};
use plain_data::Items;
use std::alloc::{AllocError, Global};
use tree_cuts::Cut;
use tree_graphs::once;

/// Facts of a context: a Cut of its rows for each, and the row that it adds.
#[derive(Drop)]
pub struct Facts {
    pub cuts: Items<Cut>,
    pub rows: Items<Row>,
}

/// Where the rows of tests stand in a context: two each behind so many rows, with the quotient that is the next variable
/// behind so many. Those that say yes tell that a form is a multiple of the quotient.
#[derive(Clone, Copy)]
pub struct Tests<'a> {
    pub depth: usize,
    pub root: u32,
    pub answers: &'a [bool],
}

// The most rows that a context has with its facts.
const MOST_ROWS: usize = 64;

// The largest size of a fact's numbers.
const MOST_SIZE: u128 = 1 << 41;

// A sum of rows, and the terms that name them.
#[derive(Drop)]
struct RowSum {
    row: Row,
    terms: Items<Term>,
}

// The only one of the first so many variables that a row has.
fn only_variable(row: &Row, depth: usize) -> Option<usize> {
    let mut found = None;
    for (variable, coef) in row.coefs.as_slice().iter().enumerate() {
        if variable < depth && *coef != 0 {
            if found.is_some() {
                return None;
            }
            found = Some(variable);
        }
    }
    found
}

fn magnitude(value: i128) -> Option<i128> {
    if value < 0 {
        value.checked_neg()
    } else {
        Some(value)
    }
}

// So many times a sum and so many times a row, which has this number.
fn weighted_sum(
    sum: &RowSum,
    times: i128,
    number: u32,
    row: &Row,
    other: i128,
) -> Result<Option<RowSum>, AllocError> {
    let (Ok(first), Ok(second)) = (sum.row.scale(times), row.scale(other)) else {
        return Ok(None);
    };
    if first.coefs.len() != second.coefs.len() {
        return Ok(None);
    }
    let Ok(form) = first.add(&second) else {
        return Ok(None);
    };
    let mut terms = Items::new(row.coefs.allocator());
    for term in sum.terms.as_slice() {
        let Some(more) = term.times.checked_mul(times) else {
            return Ok(None);
        };
        terms.push(Term {
            row: term.row,
            times: more,
        })?;
    }
    terms.push(Term {
        row: number,
        times: other,
    })?;
    Ok(Some(RowSum { row: form, terms }))
}

// The sum without the variable that the form of this test has, by one of the test's two rows. `None` where its form has
// other variables, or the sum doesn't have that one.
fn without(
    context: &System,
    tests: &Tests,
    sum: &RowSum,
    test: u32,
) -> Result<Option<RowSum>, AllocError> {
    let low = tests.root.wrapping_add(test.wrapping_mul(2));
    let high = low.wrapping_add(1);
    let rows = context.rows.as_slice();
    let (Some(first), Some(second)) = (rows.get(low as usize), rows.get(high as usize)) else {
        return Ok(None);
    };
    let Some(variable) = only_variable(first, tests.depth) else {
        return Ok(None);
    };
    let (Some(here), Some(there)) = (
        sum.row.coefs.as_slice().get(variable),
        first.coefs.as_slice().get(variable),
    ) else {
        return Ok(None);
    };
    let (Some(own), Some(other)) = (magnitude(*here), magnitude(*there)) else {
        return Ok(None);
    };
    if own == 0 {
        return Ok(None);
    }
    if (*here > 0) == (*there > 0) {
        return weighted_sum(sum, other, high, second, own);
    }
    weighted_sum(sum, other, low, first, own)
}

// The sum without the variables of those tests that say yes, of which the first has this number.
fn without_all(
    context: &System,
    tests: &Tests,
    sum: RowSum,
    test: u32,
    answers: &[bool],
) -> Result<RowSum, AllocError> {
    let Some((answer, answers)) = answers.split_first() else {
        return Ok(sum);
    };
    let next = test.wrapping_add(1);
    if !*answer {
        return without_all(context, tests, sum, next, answers);
    }
    match without(context, tests, &sum, test)? {
        Some(less) => {
            drop(sum);
            without_all(context, tests, less, next, answers)
        }
        None => without_all(context, tests, sum, next, answers),
    }
}

// The size of the first coefficient that isn't 0.
fn first_size(coefs: &[i128]) -> Option<i128> {
    let (coef, coefs) = coefs.split_first()?;
    if *coef == 0 {
        return first_size(coefs);
    }
    magnitude(*coef)
}

// Whether the row has one variable, or the difference of two.
fn is_difference(row: &Row) -> bool {
    let coefs = row.coefs.as_slice();
    let more = coefs.iter().filter(|coef| **coef > 0).count();
    let less = coefs.iter().filter(|coef| **coef < 0).count();
    more <= 1 && less <= 1 && coefs.iter().all(|coef| *coef >= -1 && *coef <= 1)
}

// Whether the number lies within 2^41.
fn is_small(value: i128) -> bool
    ensures { IsTrue result → unsigned_abs value ≤ 2 ^ 41 }
{
    value.unsigned_abs() <= MOST_SIZE
}

fn are_small(values: &[i128]) -> bool
    ensures { IsTrue result → All (λ c. unsigned_abs c ≤ 2 ^ 41) values.now }
{
    let Some((value, values)) = values.split_first() else {
        return true;
    };
    if is_small(*value) {
        return are_small(values);
    }
    false
}

// Whether the row has so many variables, and small numbers.
fn is_small_row(row: &Row, vars: u32) -> bool
    ensures over { IsTrue result → length row.now.coefs ≡ vars }
    ensures within { IsTrue result → IsWithin (2 ^ 41) row.now }
{
    if row.coefs.len() != vars as usize || !is_small(row.constant) {
        return false;
    }
    are_small(row.coefs.as_slice())
}

// Whether one of the rows tells that the other is at least 0.
fn is_told(rows: &[Row], row: &Row) -> bool {
    rows.iter().any(|other| other.constant <= row.constant
        && other.coefs.as_slice() == row.coefs.as_slice())
}

fn divides_all(divisor: i128, coefs: &[i128]) -> bool
    requires { pos 1 ≤ℤ divisor }
    ensures { result ≡ list_all
        (λ c. unsigned_abs c % unsigned_abs divisor == 0) coefs.now }
{
    coefs.iter().all(|coef| divides(divisor, *coef))
}

// The Cut and the row that it adds, where that can be made and is a difference with small numbers.
fn confirmed(context: &System, cut: Cut) -> Option<(Cut, Row)>
    ensures { IfSome result (λ fact. IsFactOf context.now fact.0 fact.1) }
{
    if cut.divisor < 1 || context.vars > 18 {
        return None;
    }
    let zero = Form::constant(context.rows.allocator(), context.vars as usize, 0);
    let sum = sum_onto(context.rows.as_slice(), zero, cut.terms.as_slice())?;
    if !divides_all(cut.divisor, sum.coefs.as_slice()) {
        return None;
    }
    let row = quotients(&sum, cut.divisor);
    if !is_difference(&row) || !is_small_row(&row, context.vars) {
        return None;
    }
    Some((cut, row))
}

// Adds a fact, unless there are many rows.
fn push(facts: &mut Facts, context: &System, cut: Cut, row: Row) -> Result<(), AllocError>
    requires facts { AreFacts context.now facts.old }
    requires fact { IsFactOf context.now cut row }
    ensures { OnOk result (AreFacts context.now facts.new) }
{
    if context.rows.len() + facts.rows.len() >= MOST_ROWS {
        return Ok(());
    }
    facts.cuts.push(cut)?;
    facts.rows.push(row)
}

// Adds what the Cut of a sum adds, unless a row tells as much.
fn push_sum(facts: &mut Facts, context: &System, sum: RowSum) -> Result<(), AllocError>
    requires { AreFacts context.now facts.old }
    ensures { OnOk result (AreFacts context.now facts.new) }
{
    let Some(divisor) = first_size(sum.row.coefs.as_slice()) else {
        return Ok(());
    };
    let cut = Cut {
        divisor,
        terms: sum.terms,
    };
    let Some((cut, row)) = confirmed(context, cut) else {
        return Ok(());
    };
    if is_told(context.rows.as_slice(), &row) || is_told(facts.rows.as_slice(), &row) {
        return Ok(());
    }
    push(facts, context, cut, row)
}

// Adds what a row of this number tells of the quotients, once this test has taken its variable out of it.
fn push_of_test(
    facts: &mut Facts,
    context: &System,
    tests: &Tests,
    number: u32,
    row: &Row,
    test: u32,
) -> Result<(), AllocError>
    requires { AreFacts context.now facts.old }
    ensures { OnOk result (AreFacts context.now facts.new) }
{
    let sum = RowSum {
        row: row.copy(),
        terms: once(row.coefs.allocator(), number)?,
    };
    let Some(less) = without(context, tests, &sum, test)? else {
        return Ok(());
    };
    let rest = without_all(context, tests, less, 0, tests.answers)?;
    push_sum(facts, context, rest)
}

// The same for each of the tests that say yes, of which the first has this number.
fn push_of_row(
    facts: &mut Facts,
    context: &System,
    tests: &Tests,
    number: u32,
    row: &Row,
    test: u32,
    answers: &[bool],
) -> Result<(), AllocError>
    requires { AreFacts context.now facts.old }
    ensures { OnOk result (AreFacts context.now facts.new) }
{
    let Some((answer, answers)) = answers.split_first() else {
        return Ok(());
    };
    if *answer {
        push_of_test(facts, context, tests, number, row, test)?;
    }
    push_of_row(
        facts,
        context,
        tests,
        number,
        row,
        test.wrapping_add(1),
        answers,
    )
}

// Whether the row of this number is one of a test that says no.
fn is_of_no(tests: &Tests, number: u32) -> bool {
    if number < tests.root {
        return false;
    }
    let test = (number - tests.root) / 2;
    match tests.answers.get(test as usize) {
        Some(answer) => !*answer,
        None => false,
    }
}

// The same for each of these rows, of which the first has this number.
fn push_of_rows(
    facts: &mut Facts,
    context: &System,
    tests: &Tests,
    number: u32,
    rows: &[Row],
) -> Result<(), AllocError>
    requires { AreFacts context.now facts.old }
    ensures { OnOk result (AreFacts context.now facts.new) }
{
    let Some((row, rows)) = rows.split_first() else {
        return Ok(());
    };
    if !is_of_no(tests, number) {
        push_of_row(facts, context, tests, number, row, 0, tests.answers)?;
    }
    push_of_rows(facts, context, tests, number.wrapping_add(1), rows)
}

/// What the rows of a context tell of the quotients of its tests, where these say yes: rows whose variables the tests' rows
/// take out, divided, where they are differences then. Each is what a Cut of the context adds.
pub fn facts_of(alloc: Global, context: &System, tests: &Tests) -> Result<Facts, AllocError>
    requires { length context.now.rows ≤ 64 }
    ensures { IfOk result (AreFacts context.now) }
{
    let mut facts = Facts {
        cuts: Items::new(alloc),
        rows: Items::new(alloc),
    };
    push_of_rows(&mut facts, context, tests, 0, context.rows.as_slice())?;
    Ok(facts)
}
