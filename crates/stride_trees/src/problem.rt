ghost use Rattle.std.specs.Prelude.{◌≡◌, ◌≤◌, ◌<◌, ◌+◌, ◌^◌, ◌++◌, ◌||◌, ℕ, List, length, All, IfOk, IsTrue, OnOk};
ghost use Rattle.std.specs.List.{count_by};
ghost use Rattle.affine_core.specs.Affine.{variable_form};
ghost use Rattle.tree_graphs.specs.Asked.{read_of as asked_read, write_of as asked_write};
ghost use Rattle.tree_sums.specs.Parts.{IsWithin};
ghost use Rattle.tree_cuts.specs.Class.{is_stride};
ghost use Rattle.stride_trees.specs.Problem.{problem_read as read_told, problem_reads, problem_rows, problem_write as write_told, problem_writes, told_read, told_write, IsToldProblem};
ghost use Rattle.tree_cuts.specs.Sources.{divided_form, falls as falls_of, loop_of as loop_of_coefs};
ghost use Rattle.stride_trees.specs.Strides.{depth_of_read, read_of, write_of, ArePlaces, IsStrided};

use crate::divisions::moved;
use crate::strides::Strides;
use affine_core::{Form, Row};
use int_polyhedra::quotients;
use plain_data::Items;
use std::alloc::{AllocError, Global};
use tree_cuts::{falls, next_quotient, places_behind, size, small_stride, stride_of};
use tree_graphs::{Problem, Writes, negative};

// A domain row, divided by the size of its coefficient outside -1 to 1, if it has one.
fn divided_row(row: &Row) -> Row
    requires { IsWithin (2 ^ 32) row.now }
    ensures { result ≡ divided_form row.now }
{
    match small_stride(row) {
        Some(c) => quotients(row, size(c)),
        None => row.copy(),
    }
}

fn push_rows(out: &mut Items<Row>, rows: &[Row]) -> Result<(), AllocError>
    requires { All (IsWithin (2 ^ 32)) rows.now }
    ensures { OnOk result (out.new ≡ out.old ++ problem_rows rows.now) }
{
    let Some((row, rows)) = rows.split_first() else {
        return Ok(());
    };
    out.push(divided_row(row))?;
    push_rows(out, rows)
}

// The domain rows, each divided by the size of its coefficient outside -1 to 1, if it has one.
fn divided_rows(alloc: Global, rows: &[Row]) -> Result<Items<Row>, AllocError>
    requires { All (IsWithin (2 ^ 32)) rows.now }
    ensures { IfOk result (λ divided. divided ≡ problem_rows rows.now) }
{
    let mut divided = Items::new(alloc);
    push_rows(&mut divided, rows)?;
    Ok(divided)
}

// The first loop with a coefficient other than 0.
fn loop_of(coefs: &[i128]) -> usize
    ensures value { result ≡ loop_of_coefs coefs.now }
    ensures few { result ≤ length coefs.now }
{
    match coefs.split_first() {
        Some((coef, coefs)) if *coef == 0 => 1 + loop_of(coefs),
        _ => 0,
    }
}

// Whether a subscript is told as its loop alone: its coefficient is neither 0 nor 1.
fn is_alone(write: &Form) -> bool
    ensures { result ≡ (is_stride write.now || falls_of write.now) }
{
    stride_of(write).is_some() || falls(write)
}

// The loop of a subscript.
fn lone_loop(alloc: Global, write: &Form) -> Form
    requires { IsTrue (is_stride write.now || falls_of write.now) }
    ensures { result ≡ variable_form (length write.now.coefs) (loop_of_coefs write.now.coefs) }
{
    let coefs = write.coefs.as_slice();
    Form::variable(alloc, coefs.len(), loop_of(coefs))
}

// A subscript of the write: its loop alone, where the loop's coefficient is neither 0 nor 1.
fn problem_write(alloc: Global, write: &Form) -> Form
    ensures { result ≡ write_told write.now }
{
    if is_alone(write) {
        return lone_loop(alloc, write);
    }
    write.copy()
}

// The read's subscript over so many variables.
fn problem_read(alloc: Global, vars: usize, quotient: usize, write: &Form, read: &Form) -> Form
    requires write { IsWithin (2 ^ 32) write.now }
    requires read { IsWithin (2 ^ 32) read.now }
    requires over { length read.now.coefs ≤ vars }
    requires vars { vars ≤ 18 }
    requires quotient { IsTrue (is_stride write.now) → quotient < vars }
    ensures { result ≡ read_told vars quotient write.now read.now }
{
    if stride_of(write).is_some() {
        return Form::variable(alloc, vars, quotient);
    }
    if falls(write) {
        let less = negative(&moved(write, read));
        return less.widened(vars);
    }
    read.widened(vars)
}

// Adds the write's subscripts.
fn push_writes(out: &mut Items<Form>, alloc: Global, writes: &[Form]) -> Result<(), AllocError>
    ensures { OnOk result (out.new ≡ out.old ++ problem_writes writes.now) }
{
    let Some((write, writes)) = writes.split_first() else {
        return Ok(());
    };
    out.push(problem_write(alloc, write))?;
    push_writes(out, alloc, writes)
}

// Adds the read's subscripts over so many variables, where the tests stand at these places.
fn push_reads(
    out: &mut Items<Form>,
    alloc: Global,
    vars: usize,
    depth: usize,
    places: &[u32],
    writes: &[Form],
    reads: &[Form],
) -> Result<(), AllocError>
    requires writes { All (IsWithin (2 ^ 32)) writes.now }
    requires reads { All (IsWithin (2 ^ 32)) reads.now }
    requires over { All (λ read. length read.coefs ≤ vars) reads.now }
    requires few { (depth ≤ 6) × (vars ≤ 12) }
    requires places { All (λ i. (i < 6) × (depth + i < vars)) places.now }
    requires enough { count_by is_stride writes.now ≤ length places.now }
    ensures { OnOk result
        (out.new ≡ out.old ++ problem_reads vars depth places.now writes.now reads.now) }
{
    let Some((write, writes)) = writes.split_first() else {
        return Ok(());
    };
    let Some((read, reads)) = reads.split_first() else {
        return Ok(());
    };
    let quotient = next_quotient(depth, places);
    let form = problem_read(alloc, vars, quotient, write, read);
    out.push(form)?;
    let behind = places_behind(write, places);
    push_reads(out, alloc, vars, depth, behind, writes, reads)
}

// The write's subscripts: each loop alone, where its coefficient is neither 0 nor 1.
fn told_writes(alloc: Global, writes: &[Form]) -> Result<Items<Form>, AllocError>
    ensures { IfOk result (λ told. told ≡ problem_writes writes.now) }
{
    let mut told = Items::new(alloc);
    push_writes(&mut told, alloc, writes)?;
    Ok(told)
}

// The read's subscripts over so many variables of a context, where the tests of the write stand at these places.
fn told_reads(s: &Strides, vars: usize, places: &[u32]) -> Result<Items<Form>, AllocError>
    requires strided { IsStrided s.now }
    requires places { ArePlaces s.now vars places.now }
    ensures { IfOk result (λ told. told ≡ problem_reads vars (depth_of_read s.now) places.now
        s.now.write.access.now.subscripts s.now.read.access.now.subscripts) }
{
    let writes = s.write.access.subscripts.as_slice();
    let reads = s.read.access.subscripts.as_slice();
    let mut told = Items::new(s.alloc);
    let depth = s.read.statement.loops.len();
    push_reads(&mut told, s.alloc, vars, depth, places, writes, reads)?;
    Ok(told)
}

/// The write over quotients as a problem of differences over so many variables of a context, where its tests stand at these
/// places.
pub fn problem_of<'a>(
    s: &Strides<'a>,
    vars: usize,
    places: &[u32],
) -> Result<Problem<'a>, AllocError>
    requires strided { IsStrided s.now }
    requires places { ArePlaces s.now vars places.now }
    ensures { IfOk result (IsToldProblem s.now vars places.now) }
{
    let rows = divided_rows(s.alloc, s.write.statement.rows.as_slice())?;
    let write_forms = told_writes(s.alloc, s.write.access.subscripts.as_slice())?;
    let read_forms = told_reads(s, vars, places)?;
    Ok(Problem {
        write: s.write,
        rows,
        write_forms,
        read_forms,
    })
}

/// The writes of the problem at the level.
pub fn told<'a>(s: &Strides<'a>, vars: usize, problem: &'a Problem<'a>) -> Writes<'a>
    requires strided { IsStrided s.now }
    requires told { (places : List ℕ) × ArePlaces s.now vars places
        × IsToldProblem s.now vars places problem.now }
    ensures vars { result.vars ≡ vars }
    ensures level { result.level ≡ s.now.level }
    ensures number { result.write.number ≡ s.now.write.number }
    ensures read { (places : List ℕ) → IsToldProblem s.now vars places problem.now
        → asked_read result ≡ told_read vars places (read_of s.now) (write_of s.now) }
    ensures write { asked_write result ≡ told_write (write_of s.now) }
{
    Writes {
        alloc: s.alloc,
        vars,
        read: s.read,
        write: s.write,
        rows: problem.rows.as_slice(),
        write_forms: problem.write_forms.as_slice(),
        read_forms: problem.read_forms.as_slice(),
        common: s.common,
        level: s.level,
    }
}
