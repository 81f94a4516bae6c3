ghost use Rattle.std.specs.Prelude.{◌≡◌, ◌≤◌, ◌+◌, ◌++◌, ◌∷◌, [], IsTrue, IfOk, OnOk, ℤ, pos, ◌-ℤ◌, length, map, nat_le};
ghost use Rattle.std.specs.List.{list_all, range_with_len};
ghost use Rattle.affine_core.specs.Affine.{constant_form};
ghost use Rattle.sanlp.specs.Around.{loops_round};
ghost use Rattle.sanlp.specs.Cells.{natural};
ghost use Rattle.sanlp.specs.WellFormed.{own_cell, input_extents, output_extents, array_loops};
ghost use Rattle.loop_bind.specs.Forms.{form_over, is_limited_number};
ghost use Rattle.loop_bind.specs.Ranges.{has_small_extents};
ghost use Rattle.loop_bind.specs.Terminals.{extent_rows, source_statement, sink_statement, sources_from, sinks_from, loop_count};

use crate::affine::Affine;
use crate::judge::over_all;
use crate::rows::push_range_rows;
use affine_core::Form;
use plain_data::Items;
use sanlp::{Access, ArrayDecl, Node, Role, Statement, natural_of};
use std::alloc::{AllocError, Global};
use wrap_expr::Expr;

// The last value of a loop up to an extent, which counts as 0 where it is negative.
fn last_value(extent: i64) -> i64
    ensures { result ≡ pos (natural extent) -ℤ pos 1 }
{
    natural_of(extent) as i64 - 1
}

// The rows of one loop for each extent.
fn rows_round(alloc: Global, extents: &[i64]) -> Result<Items<Form>, AllocError>
    requires few { length extents.now ≤ 6 }
    requires small { IsTrue (list_all is_limited_number extents.now) }
    ensures { IfOk result (λ rows.
        rows ≡ map (form_over (length extents.now)) (extent_rows 0 extents.now)) }
{
    let mut rows = Items::new(alloc);
    let lower = [Affine::constant(0)];
    for (number, extent) in extents.iter().enumerate() {
        let upper = [Affine::constant(last_value(*extent))];
        push_range_rows(&mut rows, number, &lower, &upper)?;
    }
    over_all(alloc, rows.as_slice(), extents.len())
}

// The number of the loop after so many.
fn after_loops(first: u32, count: usize) -> Result<u32, AllocError>
    ensures { IfOk result (λ after. after ≡ first + count) }
{
    let count = u32::try_from(count).or(Err(AllocError))?;
    first.checked_add(count).ok_or(AllocError)
}

// So many loop numbers, from this one on.
fn loops_from(alloc: Global, first: u32, count: usize) -> Result<Items<u32>, AllocError>
    ensures { IfOk result (λ loops. loops ≡ range_with_len first count) }
{
    let mut loops = Items::new(alloc);
    for number in first..after_loops(first, count)? {
        loops.push(number)?;
    }
    Ok(loops)
}

// The cell of an array whose subscripts are the loop values.
fn cell_of_loops(alloc: Global, array: u32, depth: usize) -> Result<Access, AllocError>
    requires { depth ≤ 6 }
    ensures { IfOk result (λ access. access ≡ own_cell depth array) }
{
    let mut subscripts = Items::new(alloc);
    for number in 0..depth {
        subscripts.push(Form::variable(alloc, depth, number))?;
    }
    Ok(Access { array, subscripts })
}

// The rows round a source or a sink, and the cell of its array.
fn rows_and_cell(
    alloc: Global,
    array: u32,
    extents: &[i64],
) -> Result<(Items<Form>, Access), AllocError>
    requires few { length extents.now ≤ 6 }
    requires small { IsTrue (list_all is_limited_number extents.now) }
    ensures { IfOk result (λ made. made ≡ (
      map (form_over (length extents.now)) (extent_rows 0 extents.now),
      own_cell (length extents.now) array,
    )) }
{
    let rows = rows_round(alloc, extents)?;
    match cell_of_loops(alloc, array, extents.len()) {
        Ok(cell) => Ok((rows, cell)),
        Err(error) => {
            drop(rows);
            Err(error)
        }
    }
}

fn source(alloc: Global, array: u32, first: u32, extents: &[i64]) -> Result<Statement, AllocError>
    requires few { length extents.now ≤ 6 }
    requires small { IsTrue (list_all is_limited_number extents.now) }
    ensures { IfOk result (λ s. s ≡ source_statement array first extents.now) }
{
    let loops = loops_from(alloc, first, extents.len())?;
    match rows_and_cell(alloc, array, extents) {
        Ok((rows, cell)) => Ok(Statement {
            role: Role::Source(array),
            loops,
            rows,
            write: Some(cell),
            reads: Items::new(alloc),
            expr: Expr::Given,
        }),
        Err(error) => {
            drop(loops);
            Err(error)
        }
    }
}

// This item alone.
fn one<T: Drop>(alloc: Global, item: T) -> Result<Items<T>, AllocError>
    ensures { IfOk result (λ items. items ≡ item ∷ []) }
{
    let mut items = Items::new(alloc);
    match items.push(item) {
        Ok(()) => Ok(items),
        Err(error) => {
            drop(items);
            Err(error)
        }
    }
}

// The rows round a sink, and its read.
fn rows_and_read(
    alloc: Global,
    array: u32,
    extents: &[i64],
) -> Result<(Items<Form>, Items<Access>), AllocError>
    requires few { length extents.now ≤ 6 }
    requires small { IsTrue (list_all is_limited_number extents.now) }
    ensures { IfOk result (λ made. made ≡ (
      map (form_over (length extents.now)) (extent_rows 0 extents.now),
      own_cell (length extents.now) array ∷ [],
    )) }
{
    let (rows, cell) = rows_and_cell(alloc, array, extents)?;
    match one(alloc, cell) {
        Ok(reads) => Ok((rows, reads)),
        Err(error) => {
            drop(rows);
            Err(error)
        }
    }
}

fn sink(alloc: Global, array: u32, first: u32, extents: &[i64]) -> Result<Statement, AllocError>
    requires few { length extents.now ≤ 6 }
    requires small { IsTrue (list_all is_limited_number extents.now) }
    ensures { IfOk result (λ s. s ≡ sink_statement array first extents.now) }
{
    let loops = loops_from(alloc, first, extents.len())?;
    match rows_and_read(alloc, array, extents) {
        Ok((rows, reads)) => Ok(Statement {
            role: Role::Sink(array),
            loops,
            rows,
            write: None,
            reads,
            expr: Expr::Read(0),
        }),
        Err(error) => {
            drop(loops);
            Err(error)
        }
    }
}

// The bounds of a loop from 0 up to this number.
fn bounds_to(
    alloc: Global,
    depth: usize,
    last: i64,
) -> Result<(Items<Form>, Items<Form>), AllocError>
    requires { depth ≤ 6 }
    ensures { IfOk result (λ bounds.
        bounds ≡ (constant_form depth (pos 0) ∷ [], constant_form depth last ∷ [])) }
{
    let lower = one(alloc, Form::constant(alloc, depth, 0))?;
    match one(alloc, Form::constant(alloc, depth, last as i128)) {
        Ok(upper) => Ok((lower, upper)),
        Err(error) => {
            drop(lower);
            Err(error)
        }
    }
}

// The loop of this number from 0 up to a number, with this node inside.
fn loop_to(
    alloc: Global,
    id: u32,
    depth: usize,
    last: i64,
    inside: Node,
) -> Result<Node, AllocError>
    requires { depth ≤ 6 }
    ensures { IfOk result (λ node. node ≡ Node.Loop id (constant_form depth (pos 0) ∷ [])
        (constant_form depth last ∷ []) (pos 1) (inside ∷ [])) }
{
    let body = one(alloc, inside)?;
    match bounds_to(alloc, depth, last) {
        Ok((lower, upper)) => Ok(Node::Loop {
            id,
            lower,
            upper,
            step: 1,
            body,
        }),
        Err(error) => {
            drop(body);
            Err(error)
        }
    }
}

// The loops round a source or a sink: one for each extent, from 0 up to it.
fn loops_of(
    alloc: Global,
    first: u32,
    depth: usize,
    extents: &[i64],
    statement: u32,
) -> Result<Node, AllocError>
    requires { depth + length extents.now ≤ 6 }
    ensures { IfOk result (λ node. node ≡ loops_round first depth extents.now statement) }
{
    let Some((extent, others)) = extents.split_first() else {
        return Ok(Node::Assign(statement));
    };
    let second = first.checked_add(1).ok_or(AllocError)?;
    let inside = loops_of(alloc, second, depth + 1, others, statement)?;
    loop_to(alloc, first, depth, last_value(*extent), inside)
}

/// How many loops stand round the sources.
pub(crate) fn source_loops(arrays: &[ArrayDecl]) -> Result<u32, AllocError>
    ensures { IfOk result (λ count. count ≡ loop_count (input_extents arrays.now)) }
{
    let mut count = 0;
    for array in arrays {
        if array.kind.is_input() {
            count = after_loops(count, array.extents.len())?;
        }
    }
    Ok(count)
}

/// How many arrays have a source.
pub(crate) fn source_count(arrays: &[ArrayDecl]) -> Result<u32, AllocError>
    ensures { IfOk result (λ count. count ≡ length (input_extents arrays.now)) }
{
    let mut count: u32 = 0;
    for array in arrays {
        if array.kind.is_input() {
            count = count.checked_add(1).ok_or(AllocError)?;
        }
    }
    Ok(count)
}

/// How many arrays have a sink.
pub(crate) fn sink_count(arrays: &[ArrayDecl]) -> Result<u32, AllocError>
    ensures { IfOk result (λ count. count ≡ length (output_extents arrays.now)) }
{
    let mut count: u32 = 0;
    for array in arrays {
        if array.kind.is_output() {
            count = count.checked_add(1).ok_or(AllocError)?;
        }
    }
    Ok(count)
}

/// Adds the sources with the loops round them. The first source and the first loop have number 0.
pub fn push_sources(
    alloc: Global,
    arrays: &[ArrayDecl],
    statements: &mut Items<Statement>,
    body: &mut Items<Node>,
) -> Result<(), AllocError>
    requires { IsTrue (list_all has_small_extents arrays.now) }
    ensures statements { OnOk result (statements.new
        ≡ statements.old ++ sources_from 0 0 arrays.now) }
    ensures body { OnOk result (body.new ≡ body.old ++ array_loops 0 0 (input_extents arrays.now)) }
{
    let mut number: u32 = 0;
    let mut next_loop: u32 = 0;
    let mut statement: u32 = 0;
    for array in arrays {
        if array.kind.is_input() {
            let extents = array.extents.as_slice();
            statements.push(source(alloc, number, next_loop, extents)?)?;
            body.push(loops_of(alloc, next_loop, 0, extents, statement)?)?;
            next_loop = after_loops(next_loop, extents.len())?;
            statement = statement.checked_add(1).ok_or(AllocError)?;
        }
        number = number.checked_add(1).ok_or(AllocError)?;
    }
    Ok(())
}

/// Adds the sinks with the loops round them. The first loop and the first sink have these numbers.
pub fn push_sinks(
    alloc: Global,
    arrays: &[ArrayDecl],
    first_loop: u32,
    first: u32,
    statements: &mut Items<Statement>,
    body: &mut Items<Node>,
) -> Result<(), AllocError>
    requires { IsTrue (list_all has_small_extents arrays.now) }
    ensures statements { OnOk result (statements.new
        ≡ statements.old ++ sinks_from 0 first_loop arrays.now) }
    ensures body { OnOk result (body.new
        ≡ body.old ++ array_loops first_loop first (output_extents arrays.now)) }
{
    let mut number: u32 = 0;
    let mut next_loop = first_loop;
    let mut statement = first;
    for array in arrays {
        if array.kind.is_output() {
            let extents = array.extents.as_slice();
            statements.push(sink(alloc, number, next_loop, extents)?)?;
            body.push(loops_of(alloc, next_loop, 0, extents, statement)?)?;
            next_loop = after_loops(next_loop, extents.len())?;
            statement = statement.checked_add(1).ok_or(AllocError)?;
        }
        number = number.checked_add(1).ok_or(AllocError)?;
    }
    Ok(())
}
