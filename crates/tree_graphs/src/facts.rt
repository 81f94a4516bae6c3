ghost use Rattle.std.specs.Prelude.{◌≡◌, ◌<◌, ◌+◌, ◌^◌, ◌≤ℤ◌, ℕ, pos, length, slice_get, Some, IfNone, IfOk, IfSome, IsFalse, IsTrue};
ghost use Rattle.std.specs.Bool.{OnTrue};
ghost use Rattle.int_polyhedra.specs.Rules.{ProvesEntailment};
ghost use Rattle.int_polyhedra.specs.declared.system.Proof.TheVariants.{Sum};
ghost use Rattle.affine_core.specs.declared.form.Form.{Form as FormOf};
ghost use Rattle.tree_graphs.specs.Facts.{form_parts, AreLight, IsFact, IsSignOf, NoRowTells, RowTells};
ghost use Rattle.tree_sums.specs.Shown.{with_last};

use crate::context::Context;
use crate::terms::{once, sum_with_row};
use affine_core::{Form, Row};
use int_polyhedra::{System, Term, entails};
use plain_data::Items;
use std::alloc::{AllocError, Global};

// The most that the multipliers of a fact may add up to.
const MOST: i128 = 1 << 16;

// The two variables of a row `x_from - x_to + constant >= 0`. A missing one is told by the number of variables.
#[derive(Clone, Copy)]
struct Ends {
    from: usize,
    to: usize,
}

// How a node was reached: the least sum of rows on the way to it, the last row, and the node before it.
#[derive(Clone, Copy)]
struct Arrival {
    sum: i128,
    row: u32,
    from: usize,
}

fn ends_of(form: &Form) -> Option<Ends> {
    let coefs = form.coefs.as_slice();
    let none = coefs.len();
    let mut ends = Ends {
        from: none,
        to: none,
    };
    for (variable, coef) in coefs.iter().enumerate() {
        if *coef == 1 && ends.from == none {
            ends.from = variable;
        } else if *coef == -1 && ends.to == none {
            ends.to = variable;
        } else if *coef != 0 {
            return None;
        }
    }
    Some(ends)
}

fn is_constant(form: &Form) -> bool {
    form.coefs.as_slice().iter().all(|coef| *coef == 0)
}

fn used_count(form: &Form) -> usize {
    form.coefs
        .as_slice()
        .iter()
        .filter(|coef| **coef != 0)
        .count()
}

// A row of this number that bounds a difference: `x_from - x_to + constant >= 0`.
#[derive(Clone, Copy)]
struct Step {
    ends: Ends,
    constant: i128,
    row: u32,
}

/// What is kept of a context between the forms that are looked for in it: once one was, its rows that bound differences, the
/// numbers of the others, and per node that a way was looked for from how each node is reached from it. Nothing is promised of
/// it, and nothing rests on it, since what is found is confirmed.
#[derive(Drop)]
pub struct Search {
    is_begun: bool,
    steps: Items<Step>,
    others: Items<u32>,
    reached: Items<Option<Items<Option<Arrival>>>>,
}

impl Search {
    /// A search by which nothing was looked for yet.
    pub fn new(alloc: Global) -> Search {
        Search {
            is_begun: false,
            steps: Items::new(alloc),
            others: Items::new(alloc),
            reached: Items::new(alloc),
        }
    }
}

// Adds these rows, of which the first has this number.
fn push_rows(search: &mut Search, number: u32, rows: &[Row]) -> Result<(), AllocError> {
    let Some((row, rows)) = rows.split_first() else {
        return Ok(());
    };
    match ends_of(row) {
        Some(ends) => search.steps.push(Step {
            ends,
            constant: row.constant,
            row: number,
        })?,
        None => search.others.push(number)?,
    }
    push_rows(search, number.wrapping_add(1), rows)
}

// Tells the rows of a context that bound differences from the others, unless that is done.
fn begin(context: &System, search: &mut Search) -> Result<(), AllocError> {
    if search.is_begun {
        return Ok(());
    }
    search.is_begun = true;
    push_rows(search, 0, context.rows.as_slice())?;
    for _ in 0..context.vars as usize + 1 {
        search.reached.push(None)?;
    }
    Ok(())
}

// Betters the arrival at the end of a row, and answers whether it did.
fn relax(found: &mut Items<Option<Arrival>>, step: &Step) -> bool {
    let Step {
        ends,
        constant,
        row,
    } = *step;
    let Some(Some(start)) = found.get(ends.from).copied() else {
        return false;
    };
    let sum = start.sum.saturating_add(constant);
    let better = match found.get(ends.to).copied() {
        Some(Some(end)) => sum < end.sum,
        Some(None) => true,
        None => false,
    };
    if better && ends.to < found.len() {
        found.set(
            ends.to,
            Some(Arrival {
                sum,
                row,
                from: ends.from,
            }),
        );
    }
    better
}

// Betters the arrivals by each of these rows, and answers whether one did.
fn relax_all(found: &mut Items<Option<Arrival>>, steps: &[Step]) -> bool {
    let mut bettered = false;
    for step in steps {
        if relax(found, step) {
            bettered = true;
        }
    }
    bettered
}

// Per node how it is reached from one of them by rows that bound differences, after Bellman and Ford.
fn arrivals(
    context: &System,
    steps: &[Step],
    start: usize,
) -> Result<Items<Option<Arrival>>, AllocError> {
    let nodes = context.vars as usize + 1;
    let mut found = Items::new(context.rows.allocator());
    for node in 0..nodes {
        let first = if node == start {
            Some(Arrival {
                sum: 0,
                row: 0,
                from: start,
            })
        } else {
            None
        };
        found.push(first)?;
    }
    for _ in 0..nodes {
        if !relax_all(&mut found, steps) {
            break;
        }
    }
    Ok(found)
}

// Adds the rows on the way from one node to another, a number of times each, and answers their sum, or `None` where there
// is no way.
fn append_way(
    terms: &mut Items<Term>,
    found: &Items<Option<Arrival>>,
    start: usize,
    end: usize,
    times: i128,
) -> Result<Option<i128>, AllocError> {
    let mut node = end;
    for _ in 0..found.len() {
        if node == start {
            break;
        }
        let Some(Some(arrival)) = found.get(node).copied() else {
            return Ok(None);
        };
        terms.push(Term {
            row: arrival.row,
            times,
        })?;
        node = arrival.from;
    }
    match found.get(end).copied() {
        Some(Some(arrival)) => Ok(Some(arrival.sum)),
        _ => Ok(None),
    }
}

// Finds how each node is reached from this one, where that wasn't asked yet.
fn reach(context: &System, search: &mut Search, start: usize) -> Result<(), AllocError> {
    let Some(None) = search.reached.get(start) else {
        return Ok(());
    };
    let found = arrivals(context, search.steps.as_slice(), start)?;
    if start < search.reached.len() {
        search.reached.set(start, Some(found));
    }
    Ok(())
}

// Adds the rows on the way from one node to another, a number of times each, and answers their sum, or `None` where there
// is no way.
fn append_between(
    terms: &mut Items<Term>,
    context: &System,
    search: &mut Search,
    ends: Ends,
    times: i128,
) -> Result<Option<i128>, AllocError> {
    reach(context, search, ends.from)?;
    match search.reached.get(ends.from) {
        Some(Some(found)) => append_way(terms, found, ends.from, ends.to, times),
        _ => Ok(None),
    }
}

// Rows whose sum may be a form that is a difference, less a number.
fn by_way(
    context: &System,
    search: &mut Search,
    form: &Form,
    ends: Ends,
) -> Result<Option<Items<Term>>, AllocError> {
    let mut terms = Items::new(context.rows.allocator());
    match append_between(&mut terms, context, search, ends, 1)? {
        Some(sum) => {
            if sum <= form.constant {
                Ok(Some(terms))
            } else {
                Ok(None)
            }
        }
        None => Ok(None),
    }
}

// Adds the rows that bound one variable, below where its coefficient is positive and else above, and answers the least
// value of the product.
fn append_bound(
    terms: &mut Items<Term>,
    context: &System,
    search: &mut Search,
    variable: usize,
    coef: i128,
) -> Result<Option<i128>, AllocError> {
    let none = context.vars as usize;
    if coef == 0 {
        return Ok(Some(0));
    }
    let (ends, times) = if coef > 0 {
        (
            Ends {
                from: variable,
                to: none,
            },
            coef,
        )
    } else {
        (
            Ends {
                from: none,
                to: variable,
            },
            coef.saturating_neg(),
        )
    };
    let sum = append_between(terms, context, search, ends, times)?;
    Ok(sum.and_then(|sum| sum.checked_mul(times)))
}

// Rows whose sum may be a form less a number, by the bounds of each variable by itself.
fn by_box(
    context: &System,
    search: &mut Search,
    form: &Form,
) -> Result<Option<Items<Term>>, AllocError> {
    let mut terms = Items::new(context.rows.allocator());
    let mut least = form.constant;
    for (variable, coef) in form.coefs.as_slice().iter().enumerate() {
        let Some(bound) = append_bound(&mut terms, context, search, variable, *coef)? else {
            return Ok(None);
        };
        least = least.saturating_sub(bound);
    }
    if least < 0 {
        return Ok(None);
    }
    Ok(Some(terms))
}

// Rows whose sum may be a form less a number: none for a number, a way for a difference, and else a box.
fn by_bounds(
    context: &System,
    search: &mut Search,
    form: &Form,
) -> Result<Option<Items<Term>>, AllocError> {
    if is_constant(form) {
        if form.constant < 0 {
            return Ok(None);
        }
        return Ok(Some(Items::new(context.rows.allocator())));
    }
    match ends_of(form) {
        Some(ends) => by_way(context, search, form, ends),
        None => by_box(context, search, form),
    }
}

fn has_coefs(row: &Row, form: &Form) -> bool
    ensures yes { IsTrue result → row.now.coefs ≡ form.now.coefs }
    ensures no { IsFalse result → row.now.coefs ≡ form.now.coefs → ⊥ }
{
    row.coefs.as_slice() == form.coefs.as_slice()
}

// Whether the row by itself tells that the form is at least 0.
fn tells(row: &Row, form: &Form) -> bool
    ensures yes { IsTrue result → RowTells form.now row.now }
    ensures no { IsFalse result → RowTells form.now row.now → ⊥ }
{
    if row.constant > form.constant {
        return false;
    }
    has_coefs(row, form)
}

// The number of the first row that by itself tells that the form is at least 0, where the first of these rows has this
// number.
fn row_with(rows: &[Row], number: u32, form: &Form) -> Option<u32>
    requires { number + length rows.now < 2 ^ 32 }
    ensures some { IfSome result (λ found. (at : ℕ) × (row : FormOf) × (found ≡ number + at)
        × (slice_get rows.now at ≡ Some row) × RowTells form.now row) }
    ensures none { IfNone result (NoRowTells rows.now form.now) }
{
    let Some((row, rows)) = rows.split_first() else {
        return None;
    };
    if tells(row, form) {
        return Some(number);
    }
    row_with(rows, number + 1, form)
}

// The form less a row that is no difference, where that has no more variables.
#[tactic(auto, using(int_polyhedra::proofs::Variables::product_over))]
fn rest_of(form: &Form, row: &Row) -> Option<Form> {
    if row.coefs.len() != form.coefs.len() {
        return None;
    }
    let rest = form.add(&row.scale(-1).ok()?).ok()?;
    if used_count(&rest) > used_count(form) {
        return None;
    }
    Some(rest)
}

// Bounds, and one of the other rows besides.
fn by_other_row(
    context: &System,
    search: &mut Search,
    form: &Form,
) -> Result<Option<Items<Term>>, AllocError> {
    for at in 0..search.others.len() {
        let Some(number) = search.others.get(at).copied() else {
            return Ok(None);
        };
        let Some(row) = context.rows.get(number as usize) else {
            return Ok(None);
        };
        if let Some(rest) = rest_of(form, row) {
            if let Some(mut terms) = by_bounds(context, search, &rest)? {
                terms.push(Term {
                    row: number,
                    times: 1,
                })?;
                return Ok(Some(terms));
            }
        }
    }
    Ok(None)
}

// Rows whose sum may be the form less a number that is not below 0. Nothing is promised of them.
fn candidate_rows(
    context: &System,
    search: &mut Search,
    form: &Form,
) -> Result<Option<Items<Term>>, AllocError> {
    begin(context, search)?;
    match by_bounds(context, search, form)? {
        Some(terms) => Ok(Some(terms)),
        None => by_other_row(context, search, form),
    }
}

// Whether the terms name the first so many rows, and their multipliers, which are not below 0, add up to so much at most.
fn are_light(terms: &[Term], rows: usize, most: i128) -> bool
    requires { pos 0 ≤ℤ most }
    ensures { OnTrue result (AreLight rows most terms.now) }
{
    let Some((term, terms)) = terms.split_first() else {
        return true;
    };
    if term.row as usize >= rows || term.times < 0 || term.times > most {
        return false;
    }
    are_light(terms, rows, most - term.times)
}

// Whether the sum of the rows is the form less a number that is not below 0.
fn are_confirmed(context: &Context, form: &Form, terms: &[Term]) -> Result<bool, AllocError>
    requires { length form.now.coefs ≡ context.now.system.now.vars }
    ensures { IfOk result
        (λ confirmed. OnTrue confirmed
        (ProvesEntailment context.now.system.now.vars context.now.system.now.rows form.now
        (Sum (with_last context.now.system.now.rows terms.now)))) }
{
    let here = context.system.rows.len() as u32;
    let proof = sum_with_row(context.system.rows.allocator(), terms, here)?;
    let confirmed = entails(context.system, form, &proof).is_ok();
    drop(proof);
    Ok(confirmed)
}

// Terms that were searched for and then confirmed. `None` says nothing.
#[tactic(auto, using(crate::proofs::FactLemmas::fact_is))]
fn by_search(
    context: &Context,
    search: &mut Search,
    form: &Form,
) -> Result<Option<Items<Term>>, AllocError>
    requires { length form.now.coefs ≡ context.now.system.now.vars }
    ensures { IfOk result
        (λ found. IfSome found (IsFact context.now.system.now 65536 (form_parts form.now))) }
{
    let Some(terms) = candidate_rows(context.system, search, form)? else {
        return Ok(None);
    };
    if !are_light(terms.as_slice(), context.system.rows.len(), MOST) {
        return Ok(None);
    }
    if !are_confirmed(context, form, terms.as_slice())? {
        return Ok(None);
    }
    Ok(Some(terms))
}

/// Terms whose sum is the form less a number that is not below 0, so that the form is at least 0 wherever the context's
/// rows are. A row that by itself is such is looked for first, then others are searched for and confirmed; no clause says
/// which terms come. `None` says that no row by itself is such, and nothing else. Their multipliers add up to 65,536 at
/// most. The search goes on from one form to the next of one context; by that of another context fewer forms may be known.
pub fn known_by(
    context: &Context,
    search: &mut Search,
    form: &Form,
) -> Result<Option<Items<Term>>, AllocError>
    requires { length form.now.coefs ≡ context.now.system.now.vars }
    ensures some { IfOk result
        (λ found. IfSome found (IsFact context.now.system.now 65536 (form_parts form.now))) }
    ensures none { IfOk result (λ found. IfNone found
        (NoRowTells context.now.system.now.rows form.now)) }
{
    match row_with(context.system.rows.as_slice(), 0, form) {
        Some(number) => Ok(Some(once(context.system.rows.allocator(), number)?)),
        None => by_search(context, search, form),
    }
}

/// The same, of one form.
pub fn known(context: &Context, form: &Form) -> Result<Option<Items<Term>>, AllocError>
    requires { length form.now.coefs ≡ context.now.system.now.vars }
    ensures some { IfOk result
        (λ found. IfSome found (IsFact context.now.system.now 65536 (form_parts form.now))) }
    ensures none { IfOk result (λ found. IfNone found
        (NoRowTells context.now.system.now.rows form.now)) }
{
    let mut search = Search::new(context.system.rows.allocator());
    known_by(context, &mut search, form)
}

/// What a context tells of a form.
#[derive(Drop)]
pub enum Sign {
    /// It is at least 0, by these terms.
    AtLeastZero(Items<Term>),
    /// It is below 0: these terms show `-form - 1`.
    BelowZero(Items<Term>),
    /// No row by itself tells either.
    Unknown,
}

/// What the context tells of the form, whose opposite is `-form - 1`.
pub fn sign_of(context: &Context, form: &Form, opposite: &Form) -> Result<Sign, AllocError>
    requires over { length form.now.coefs ≡ context.now.system.now.vars }
    requires opposite { length opposite.now.coefs ≡ context.now.system.now.vars }
    ensures { IfOk result (IsSignOf context.now.system.now form.now opposite.now) }
{
    let above = known(context, form)?;
    match above {
        Some(terms) => Ok(Sign::AtLeastZero(terms)),
        None => {
            let below = known(context, opposite)?;
            match below {
                Some(terms) => Ok(Sign::BelowZero(terms)),
                None => Ok(Sign::Unknown),
            }
        }
    }
}
