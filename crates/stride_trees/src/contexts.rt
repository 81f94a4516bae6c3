ghost use Rattle.std.specs.Prelude.{◌≡◌, ◌≤◌, ◌<◌, ◌+◌, ◌++◌, ◌^◌, ℕ, true, false, [], ◌∷◌, length, map, unsigned_abs, All, IfOk, OnOk};
ghost use Rattle.affine_core.specs.Affine.{form_product, variable_form, widened_form};
ghost use Rattle.tree_graphs.specs.Contexts.{IsMadeAs};
ghost use Rattle.lex_max.specs.Leaves.{IsMadeFrom};
ghost use Rattle.source_tree.specs.Systems.{root_context, Context};
ghost use Rattle.stride_trees.specs.Answers.{below_answer, HasSmallRows, IsSmallTest};
ghost use Rattle.stride_trees.specs.Divisions.{divided_context};
ghost use Rattle.stride_trees.specs.Strides.{depth_of_read, read_of, tests_of, IsStrided, IsTestOf};

use crate::divisions::Division;
use crate::strides::Strides;
use affine_core::{Form, Overflow, Row};
use int_polyhedra::System;
use plain_data::Items;
use std::alloc::{AllocError, Global};
use tree_graphs::{difference, raised, system_of};

// Adds the rows over so many variables.
fn push_widened(out: &mut Items<Row>, rows: &[Row], vars: usize) -> Result<(), AllocError>
    requires short { All (λ row. length row.coefs ≤ vars) rows.now }
    requires vars { vars ≤ 18 }
    ensures { OnOk result (out.new ≡ out.old ++ map (widened_form vars) rows.now) }
{
    let Some((row, rows)) = rows.split_first() else {
        return Ok(());
    };
    out.push(row.widened(vars))?;
    push_widened(out, rows, vars)
}

// Adds the rows of a context over one variable more, and two rows.
fn push_below(
    rows: &mut Items<Row>,
    context: &System,
    first: Row,
    second: Row,
) -> Result<(), AllocError>
    requires over { HasSmallRows context.now }
    requires few { context.now.vars < 18 }
    ensures { OnOk result (rows.new ≡ rows.old
        ++ (map (widened_form (context.now.vars + 1)) context.now.rows ++ first ∷ second ∷ [])) }
{
    match push_widened(rows, context.rows.as_slice(), context.vars as usize + 1) {
        Ok(()) => rows.push_both(first, second),
        Err(error) => {
            drop(first);
            drop(second);
            Err(error)
        }
    }
}

// The rows of a context over one variable more, and two rows.
fn rows_below(
    alloc: Global,
    context: &System,
    first: Row,
    second: Row,
) -> Result<Items<Row>, AllocError>
    requires over { HasSmallRows context.now }
    requires few { context.now.vars < 18 }
    ensures { IfOk result (λ rows. rows
        ≡ map (widened_form (context.now.vars + 1)) context.now.rows ++ first ∷ second ∷ []) }
{
    let mut rows = Items::new(alloc);
    match push_below(&mut rows, context, first, second) {
        Ok(()) => Ok(rows),
        Err(error) => {
            drop(rows);
            Err(error)
        }
    }
}

// So many times the last of so many variables.
fn multiple(alloc: Global, vars: usize, times: i128) -> Form
    requires some { 0 < vars }
    requires few { vars ≤ 18 }
    requires small { unsigned_abs times ≤ 2 ^ 32 }
    ensures { (q : ℕ) → vars ≡ q + 1 → result ≡ form_product times (variable_form vars q) }
{
    match Form::variable(alloc, vars, vars - 1).scale(times) {
        Ok(multiple) => multiple,
        Err(Overflow) => unreachable!(),
    }
}

// The context below the yes of a test: its divisor times the quotient, which is one variable more, is its form.
fn divided(alloc: Global, context: &System, test: &Division) -> Result<System, AllocError>
    requires rows { HasSmallRows context.now }
    requires few { context.now.vars < 18 }
    requires test { (depth : ℕ) × IsSmallTest depth test.now × (depth ≤ context.now.vars) }
    ensures made { IfOk result (λ below. (c : Context) → IsMadeAs context.now c
        → IsMadeAs below (below_answer c test.now true)) }
    ensures rows { IfOk result HasSmallRows }
    ensures vars { IfOk result (λ below. below.vars ≡ context.now.vars + 1) }
    ensures count { IfOk result (λ below. length below.rows ≡ length context.now.rows + 2) }
{
    let vars = context.vars as usize + 1;
    let form = test.form.widened(vars);
    let quotients = multiple(alloc, vars, test.divisor);
    let first = difference(&form, &quotients);
    let second = difference(&quotients, &form);
    drop(form);
    drop(quotients);
    let rows = rows_below(alloc, context, first, second)?;
    Ok(System {
        vars: context.vars + 1,
        rows,
    })
}

// The context below the no of a test: its form lies between two multiples of the divisor.
fn undivided(alloc: Global, context: &System, test: &Division) -> Result<System, AllocError>
    requires rows { HasSmallRows context.now }
    requires few { context.now.vars < 18 }
    requires test { (depth : ℕ) × IsSmallTest depth test.now × (depth ≤ context.now.vars) }
    ensures made { IfOk result (λ below. (c : Context) → IsMadeAs context.now c
        → IsMadeAs below (below_answer c test.now false)) }
    ensures rows { IfOk result HasSmallRows }
    ensures vars { IfOk result (λ below. below.vars ≡ context.now.vars + 1) }
    ensures count { IfOk result (λ below. length below.rows ≡ length context.now.rows + 2) }
{
    let vars = context.vars as usize + 1;
    let form = test.form.widened(vars);
    let quotients = multiple(alloc, vars, test.divisor);
    let above = difference(&form, &quotients);
    let last = raised(&quotients, test.divisor - 1);
    let first = raised(&above, -1);
    let second = difference(&last, &form);
    drop(form);
    drop(quotients);
    drop(above);
    drop(last);
    let rows = rows_below(alloc, context, first, second)?;
    Ok(System {
        vars: context.vars + 1,
        rows,
    })
}

/// The context below an answer to a test.
pub fn below_test(
    alloc: Global,
    context: &System,
    test: &Division,
    answer: bool,
) -> Result<System, AllocError>
    requires rows { HasSmallRows context.now }
    requires few { context.now.vars < 18 }
    requires test { (depth : ℕ) × IsSmallTest depth test.now × (depth ≤ context.now.vars) }
    ensures made { IfOk result (λ next. (c : Context) → IsMadeAs context.now c
        → IsMadeAs next (below_answer c test.now answer)) }
    ensures rows { IfOk result HasSmallRows }
    ensures vars { IfOk result (λ next. next.vars ≡ context.now.vars + 1) }
    ensures count { IfOk result (λ next. length next.rows ≡ length context.now.rows + 2) }
{
    if answer {
        return divided(alloc, context, test);
    }
    undivided(alloc, context, test)
}

// The context below the yes of each of these tests.
fn with_quotients(
    s: &Strides,
    context: System,
    divisions: &[Division],
) -> Result<System, AllocError>
    requires strided { IsStrided s.now }
    requires tests { All (IsTestOf s.now) divisions.now }
    requires reader { depth_of_read s.now ≤ context.vars }
    requires few { context.vars + length divisions.now ≤ 12 }
    requires rows { HasSmallRows context }
    ensures { IfOk result (λ last. HasSmallRows last × ((c : Context) → IsMadeAs context c
        → IsMadeAs last (divided_context c divisions.now))) }
{
    let Some((division, divisions)) = divisions.split_first() else {
        return Ok(context);
    };
    let next = below_test(s.alloc, &context, division, true)?;
    with_quotients(s, next, divisions)
}

/// The context where the reader is in its domain and all tests say yes.
pub fn context_of(s: &Strides, divisions: &[Division]) -> Result<System, AllocError>
    requires strided { IsStrided s.now }
    requires tests { divisions.now ≡ tests_of s.now }
    ensures { IfOk result
        (IsMadeFrom (divided_context (root_context (read_of s.now)) (tests_of s.now))) }
{
    let vars = s.read.statement.loops.len() as u32;
    let context = system_of(s.alloc, vars, s.read.statement.rows.as_slice())?;
    with_quotients(s, context, divisions)
}
