ghost use Rattle.std.specs.Prelude.{◌≡◌, List, IfOk, IfSome};
ghost use Rattle.std.specs.Bool.{OnTrue};
ghost use Rattle.tree_graphs.specs.Heights.{height_of};
ghost use Rattle.tree_graphs.specs.Joint.{IsTreeFor, ReadAndWrite};
ghost use Rattle.int_polyhedra.specs.Rules.{Refutes};

use int_polyhedra::{Proof, System, Term, refutes};
use plain_data::Items;
use source_tree::Tree;
use std::alloc::{AllocError, Global};
use tree_graphs::Context;

// The most steps of the linear program.
const PIVOTS: usize = 200;

// A table of the first phase of the simplex, without fractions: each number stands for itself
// divided by `divisor`. The last column has the values of the variables of the basis. The cost row
// stands last.
#[derive(Drop)]
struct Table {
    rows: Items<Items<i128>>,
    basis: Items<usize>,
    width: usize,
    divisor: i128,
}

// The numbers of a row of the table, for the variable of this number, or for the constants with the
// sign turned.
fn numbers_of(
    context: &System,
    variable: Option<usize>,
) -> Result<Option<Items<i128>>, AllocError> {
    let mut numbers = Items::new(context.rows.allocator());
    for row in context.rows.as_slice() {
        let number = match variable {
            Some(variable) => row.coefs.as_slice().get(variable).copied(),
            None => row.constant.checked_neg(),
        };
        let Some(number) = number else {
            return Ok(None);
        };
        numbers.push(number)?;
    }
    let (slack, target) = if variable.is_some() { (0, 0) } else { (-1, 1) };
    numbers.push(slack)?;
    numbers.push(target)?;
    Ok(Some(numbers))
}

// Adds a row of the table, for the variable of this number, or for the constants, with this column
// in the basis. Answers whether its numbers fit 128 bits.
fn push_row(
    table: &mut Table,
    context: &System,
    variable: Option<usize>,
    column: usize,
) -> Result<bool, AllocError> {
    let Some(numbers) = numbers_of(context, variable)? else {
        return Ok(false);
    };
    table.rows.push(numbers)?;
    table.basis.push(column)?;
    Ok(true)
}

// The sum of a column of the table.
fn column_sum(table: &Table, column: usize) -> Option<i128> {
    let mut sum: i128 = 0;
    for row in 0..table.rows.len() {
        sum = sum.checked_add(number_at(table, row, column))?;
    }
    Some(sum)
}

// The sums of the first so many columns.
fn column_sums(
    alloc: Global,
    table: &Table,
    count: usize,
) -> Result<Option<Items<i128>>, AllocError> {
    let mut sums = Items::new(alloc);
    for column in 0..count {
        let Some(sum) = column_sum(table, column) else {
            return Ok(None);
        };
        sums.push(sum)?;
    }
    Ok(Some(sums))
}

// Adds the rows of the table and their sum, the cost row. Answers whether all numbers fit 128 bits.
fn fill(table: &mut Table, context: &Context) -> Result<bool, AllocError> {
    let width = context.system.rows.len() + 1;
    if !push_row(table, context.system, None, width)? {
        return Ok(false);
    }
    for variable in 0..context.system.vars as usize {
        if !push_row(table, context.system, Some(variable), width + 1 + variable)? {
            return Ok(false);
        }
    }
    match column_sums(context.system.rows.allocator(), table, width + 1)? {
        Some(cost) => {
            table.rows.push(cost)?;
            Ok(true)
        }
        None => Ok(false),
    }
}

// The table of the multipliers of rows whose sum has no variable and a constant of -1 at most,
// where what is missing is beside the basis.
fn first_table(context: &Context) -> Result<Option<Table>, AllocError> {
    let alloc = context.system.rows.allocator();
    let mut table = Table {
        rows: Items::new(alloc),
        basis: Items::new(alloc),
        width: context.system.rows.len() + 1,
        divisor: 1,
    };
    match fill(&mut table, context) {
        Ok(true) => Ok(Some(table)),
        Ok(false) => {
            drop(table);
            Ok(None)
        }
        Err(error) => {
            drop(table);
            Err(error)
        }
    }
}

fn number_at(table: &Table, row: usize, column: usize) -> i128 {
    match table.rows.get(row) {
        Some(numbers) => numbers.get(column).copied().unwrap_or(0),
        None => 0,
    }
}

// The first column whose cost is above 0 (Bland's rule).
fn entering(table: &Table) -> Option<usize> {
    let cost = table.rows.len().saturating_sub(1);
    (0..table.width).find(|column| number_at(table, cost, *column) > 0)
}

// Whether the value of the first row falls to 0 before that of the second, or at the same time with
// a lower variable.
fn leaves_before(table: &Table, column: usize, row: usize, other: usize) -> Option<bool> {
    let left = number_at(table, row, table.width);
    let left = left.checked_mul(number_at(table, other, column))?;
    let right = number_at(table, other, table.width);
    let right = right.checked_mul(number_at(table, row, column))?;
    if left != right {
        return Some(left < right);
    }
    Some(table.basis.get(row)? < table.basis.get(other)?)
}

// The row of the basis that a column takes the place of.
fn leaving(table: &Table, column: usize) -> Option<usize> {
    let mut least = None;
    for row in 0..table.basis.len() {
        if number_at(table, row, column) > 0 {
            least = match least {
                None => Some(row),
                Some(other) => {
                    if leaves_before(table, column, row, other)? {
                        Some(row)
                    } else {
                        Some(other)
                    }
                }
            };
        }
    }
    least
}

// A row after a pivot: each number times the pivot, less what the pivot's row takes off, divided by
// the divisor, which divides it.
fn pivoted_row(
    alloc: Global,
    numbers: &[i128],
    by: &[i128],
    column: usize,
    divisor: i128,
) -> Result<Option<Items<i128>>, AllocError> {
    let (Some(own), Some(pivot)) = (numbers.get(column), by.get(column)) else {
        return Ok(None);
    };
    let mut next = Items::new(alloc);
    for (number, taken) in numbers.iter().zip(by) {
        let value = match (number.checked_mul(*pivot), taken.checked_mul(*own)) {
            (Some(more), Some(less)) => more.checked_sub(less),
            _ => None,
        };
        let Some(value) = value.and_then(|value| value.checked_div(divisor)) else {
            return Ok(None);
        };
        next.push(value)?;
    }
    Ok(Some(next))
}

// The table after a pivot, or `None` where a number leaves 128 bits.
fn pivoted(
    alloc: Global,
    table: &Table,
    row: usize,
    column: usize,
) -> Result<Option<Table>, AllocError> {
    let Some(by) = table.rows.get(row) else {
        return Ok(None);
    };
    let mut rows = Items::new(alloc);
    for (number, numbers) in table.rows.as_slice().iter().enumerate() {
        if number == row {
            rows.push(Items::from_slice(alloc, numbers.as_slice())?)?;
            continue;
        }
        let numbers = numbers.as_slice();
        match pivoted_row(alloc, numbers, by.as_slice(), column, table.divisor)? {
            Some(next) => rows.push(next)?,
            None => return Ok(None),
        }
    }
    let mut basis = Items::from_slice(alloc, table.basis.as_slice())?;
    if row >= basis.len() {
        return Ok(None);
    }
    basis.set(row, column);
    Ok(Some(Table {
        rows,
        basis,
        width: table.width,
        divisor: number_at(table, row, column),
    }))
}

// The multipliers that a table ends with, where its costs are down to 0.
fn multipliers(alloc: Global, table: &Table) -> Result<Option<Items<Term>>, AllocError> {
    let cost = table.rows.len().saturating_sub(1);
    if number_at(table, cost, table.width) != 0 {
        return Ok(None);
    }
    let mut terms = Items::new(alloc);
    for (row, column) in table.basis.as_slice().iter().enumerate() {
        let times = number_at(table, row, table.width);
        if times > 0 && column.saturating_add(1) < table.width {
            let Ok(row) = u32::try_from(*column) else {
                return Ok(None);
            };
            terms.push(Term { row, times })?;
        }
    }
    Ok(Some(terms))
}

// The multipliers that the table ends with after few steps of the simplex.
fn solved(alloc: Global, table: &mut Table) -> Result<Option<Items<Term>>, AllocError> {
    for _ in 0..PIVOTS {
        let Some(column) = entering(table) else {
            return multipliers(alloc, table);
        };
        let Some(row) = leaving(table, column) else {
            return Ok(None);
        };
        match pivoted(alloc, table, row, column)? {
            Some(next) => *table = next,
            None => return Ok(None),
        }
    }
    Ok(None)
}

// Rows whose sum may be a negative number, by the simplex of few steps. Nothing is promised of
// them.
fn contradiction(context: &Context) -> Result<Option<Items<Term>>, AllocError> {
    match first_table(context)? {
        Some(mut table) => {
            let found = solved(context.system.rows.allocator(), &mut table);
            drop(table);
            found
        }
        None => Ok(None),
    }
}

// Whether the row bounds one variable or the difference of two.
fn is_difference(coefs: &[i128]) -> bool {
    coefs.iter().all(|c| *c == 0 || *c == 1 || *c == -1)
        && coefs.iter().filter(|c| **c == 1).count() <= 1
        && coefs.iter().filter(|c| **c == -1).count() <= 1
}

// Whether every row bounds one variable or the difference of two.
fn are_differences(context: &System) -> bool {
    let rows = context.rows.as_slice();
    rows.iter().all(|row| is_difference(row.coefs.as_slice()))
}

// Whether the proof shows that nothing meets the context.
fn is_refuted(context: &Context, proof: &Proof) -> bool
    ensures { OnTrue result
        (Refutes context.now.system.now.vars context.now.system.now.rows proof.now) }
{
    refutes(context.system, proof).is_ok()
}

// The Dead leaf of a context, where the sum of these rows shows that nothing meets it.
fn dead_by(context: &Context, terms: Items<Term>) -> Option<Tree>
    ensures joined { IfSome result
        (λ tree. (pairs : List ReadAndWrite) → IsTreeFor pairs context.now.system.now tree) }
    ensures low { IfSome result (λ tree. height_of tree ≡ 0) }
{
    let proof = Proof::Sum(terms);
    if is_refuted(context, &proof) {
        return Some(Tree::Dead(proof));
    }
    drop(proof);
    None
}

/// The Dead leaf of a context that nothing meets, where its rows tell that soon. Where they all are
/// differences, a Test is asked only of what neither side is known of, so that nothing is looked
/// for.
pub fn dead_leaf(context: &Context) -> Result<Option<Tree>, AllocError>
    ensures joined { IfOk result (λ leaf. IfSome leaf
        (λ tree. (pairs : List ReadAndWrite) → IsTreeFor pairs context.now.system.now tree)) }
    ensures low { IfOk result (λ leaf. IfSome leaf (λ tree. height_of tree ≡ 0)) }
{
    if are_differences(context.system) {
        return Ok(None);
    }
    match contradiction(context)? {
        Some(terms) => Ok(dead_by(context, terms)),
        None => Ok(None),
    }
}
