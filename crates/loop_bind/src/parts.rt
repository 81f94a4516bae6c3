ghost use Rattle.std.specs.Prelude.{◌≡◌, ◌≤◌, ◌<◌, ◌+◌, ◌++◌, [], ◌∷◌, IsTrue, IfOk, OnOk, Some, length, take, map, not};
ghost use Rattle.std.specs.List.{list_all};
ghost use Rattle.loop_bind.specs.Following.{Makes, next_statement, advanced};
ghost use Rattle.loop_bind.specs.Forms.{form_over};
ghost use Rattle.loop_bind.specs.Judging.{findings_of};
ghost use Rattle.loop_bind.specs.Names.{with_name};
ghost use Rattle.loop_bind.specs.Parts.{part_made, parts_made, for_findings, loop_node, loop_made, loop_body, inside_loop, guarded, assign_made, assign_statement, target_findings, else_made, new_name_findings, same_name_findings, nothing, array_number};
ghost use Rattle.loop_bind.specs.Ranges.{has_small_forms};
ghost use Rattle.loop_bind.specs.Reasons.{least_from};
ghost use Rattle.loop_bind.specs.Bounds.{loop_bounds, lower_of, upper_of};
ghost use Rattle.loop_bind.specs.Values.{valued};

use crate::affine::Affine;
use crate::bounds::{Bounds, bounds_by, read_step};
use crate::context::{Context, Progress};
use crate::error::{BindError, note};
use crate::judge::over_all;
use crate::rows::{allows_else, guard, lower, otherwise, push_loop_rows, upper};
use crate::scope::{Place, Scope, What};
use crate::value::{note_access, subscripts, value};
use affine_core::Form;
use loop_grammar::{Comparison, Name, Operand, Other, Part, Step};
use plain_data::Items;
use sanlp::{Access, Node, Role, Statement};
use std::alloc::{AllocError, Global};
use wrap_expr::Expr;

/// Notes a name that is in scope already.
pub(crate) fn note_new_name(scope: &Scope, name: &Name, least: &mut Option<BindError>)
    ensures { least.new ≡ least_from least.old (new_name_findings scope.now name.now) }
{
    if scope.find(name.text.as_slice()).is_some() {
        note(least, BindError::Duplicate(name.token));
    }
}

// Notes a name that isn't that of the first part of a `for`.
fn note_same_name(first: &Name, name: &Name, least: &mut Option<BindError>)
    ensures { least.new ≡ least_from least.old (same_name_findings first.now name.now) }
{
    if first.text.as_slice() != name.text.as_slice() {
        note(least, BindError::UnknownName(name.token));
    }
}

// The bounds of a loop. Each reason that stands in the head of its `for` is noted.
#[inline(never)]
fn read_head(
    alloc: Global,
    context: &Context,
    name: &Name,
    first: &Operand,
    second: &Name,
    inclusive: bool,
    bound: &Operand,
    third: &Name,
    step: &Step,
    least: &mut Option<BindError>,
) -> Result<Bounds, AllocError>
    ensures bounds { IfOk result (λ bounds.
        bounds ≡ loop_bounds context.now.scope first.now inclusive bound.now step.now) }
    ensures least { OnOk result (least.new ≡ least_from least.old
        (for_findings context.now name.now first.now second.now bound.now third.now step.now)) }
    ensures small { IfOk result (λ bounds. IsTrue (has_small_forms bounds)) }
{
    note_new_name(&context.scope, name, least);
    if context.loops.len() >= 6 {
        note(least, BindError::TooDeep(name.token));
    }
    let lower = lower(alloc, &context.scope, first, least)?;
    note_same_name(name, second, least);
    let upper = upper(alloc, &context.scope, inclusive, bound, least)?;
    note_same_name(name, third, least);
    let step = read_step(&context.scope, step, lower.len(), least);
    Ok(bounds_by(alloc, step, lower, upper))
}

// How far a context reached before a loop was entered.
#[derive(Clone, Copy)]
struct Reach {
    names: usize,
    loops: usize,
    rows: usize,
}

// Enters the loop of this number.
#[inline(never)]
fn enter(
    alloc: Global,
    context: &mut Context,
    name: &Name,
    number: u32,
    bounds: &Bounds,
) -> Result<Reach, AllocError>
    requires shallow { length context.old.loops < 6 }
    requires small { IsTrue (has_small_forms bounds.now) }
    ensures inside { OnOk result (context.new
        ≡ inside_loop context.old name.now.text number bounds.now) }
    ensures reach { IfOk result (λ reach. reach ≡ record {
      names = length context.old.scope;
      loops = length context.old.loops;
      rows = length context.old.rows;
    }) }
{
    let reach = Reach {
        names: context.scope.len(),
        loops: context.loops.len(),
        rows: context.rows.len(),
    };
    let depth = context.loops.len();
    let variable = bounds.variable(depth as u32);
    context.scope.add(alloc, name.text.as_slice(), variable)?;
    context.loops.push(number)?;
    push_loop_rows(&mut context.rows, depth, bounds)?;
    Ok(reach)
}

// Leaves a loop: what it added to the context goes.
#[inline(never)]
fn leave(context: &mut Context, reach: Reach)
    ensures { context.new ≡ record context.old {
      scope = take reach.names context.old.scope;
      loops = take reach.loops context.old.loops;
      rows = take reach.rows context.old.rows;
    } }
{
    context.scope.truncate(reach.names);
    context.loops.truncate(reach.loops);
    context.rows.truncate(reach.rows);
}

// A number after this one, or want of memory where numbers end: so many loops can't be held.
fn next(number: u32) -> Result<u32, AllocError>
    ensures { IfOk result (λ next. next ≡ number + 1) }
{
    number.checked_add(1).ok_or(AllocError)
}

fn push_rows(rows: &mut Items<Affine>, more: &[Affine]) -> Result<(), AllocError>
    ensures { OnOk result (rows.new ≡ rows.old ++ more.now) }
{
    for row in more {
        rows.push(*row)?;
    }
    Ok(())
}

// The lower and the upper forms of bounds, over so many variables.
fn bound_forms(
    alloc: Global,
    bounds: &Bounds,
    depth: usize,
) -> Result<(Items<Form>, Items<Form>), AllocError>
    requires { depth ≤ 6 }
    ensures { IfOk result (λ forms. forms ≡ (
      map (form_over depth) (lower_of bounds.now),
      map (form_over depth) (upper_of bounds.now),
    )) }
{
    let lower = over_all(alloc, bounds.lower(), depth)?;
    let Ok(upper) = over_all(alloc, bounds.upper(), depth) else {
        drop(lower);
        return Err(AllocError);
    };
    Ok((lower, upper))
}

// Adds the node of a loop.
#[inline(never)]
fn push_loop(
    alloc: Global,
    nodes: &mut Items<Node>,
    id: u32,
    bounds: &Bounds,
    depth: usize,
    body: Items<Node>,
) -> Result<(), AllocError>
    requires { depth ≤ 6 }
    ensures { OnOk result (nodes.new ≡ nodes.old ++ loop_node depth id bounds.now body ∷ []) }
{
    let Ok((lower, upper)) = bound_forms(alloc, bounds, depth) else {
        drop(body);
        return Err(AllocError);
    };
    nodes.push(Node::Loop {
        id,
        lower,
        upper,
        step: bounds.step(),
        body,
    })
}

// Adds the node of a guard.
#[inline(never)]
fn push_guard(
    alloc: Global,
    nodes: &mut Items<Node>,
    rows: &[Affine],
    depth: usize,
    body: Items<Node>,
) -> Result<(), AllocError>
    requires { depth ≤ 6 }
    ensures { OnOk result (nodes.new
        ≡ nodes.old ++ Node.Guard (map (form_over depth) rows.now) body ∷ []) }
{
    let Ok(rows) = over_all(alloc, rows, depth) else {
        drop(body);
        return Err(AllocError);
    };
    nodes.push(Node::Guard { rows, body })
}

/// Binds parts in text order.
#[cycle(parts)]
pub(crate) fn bind_parts(
    alloc: Global,
    parts: &[Part],
    context: &mut Context,
    progress: &mut Progress,
    nodes: &mut Items<Node>,
) -> Result<(), AllocError>
    requires { length context.old.loops ≤ 6 }
    ensures { OnOk result (Makes context.old context.new progress.old progress.new
        nodes.old nodes.new
        (parts_made parts.now context.old progress.old.next_loop (next_statement progress.old))) }
{
    for part in parts {
        bind_part(alloc, part, context, progress, nodes)?;
    }
    Ok(())
}

#[cycle(parts)]
fn bind_part(
    alloc: Global,
    part: &Part,
    context: &mut Context,
    progress: &mut Progress,
    nodes: &mut Items<Node>,
) -> Result<(), AllocError>
    requires { length context.old.loops ≤ 6 }
    ensures { OnOk result (Makes context.old context.new progress.old progress.new
        nodes.old nodes.new
        (part_made part.now context.old progress.old.next_loop (next_statement progress.old))) }
{
    match part {
        Part::For {
            name,
            first,
            second,
            inclusive,
            bound,
            third,
            step,
            body,
        } => {
            let bounds = read_head(
                alloc,
                context,
                name,
                first,
                second,
                *inclusive,
                bound,
                third,
                step,
                &mut progress.least,
            )?;
            bind_loop(alloc, name, &bounds, body.get(), context, progress, nodes)
        }
        Part::If { cond, body, other } => {
            let rows = guard(alloc, &context.scope, cond.as_slice(), &mut progress.least)?;
            bind_guarded(alloc, rows.as_slice(), body.get(), context, progress, nodes)?;
            match other {
                None => Ok(()),
                Some(other) => {
                    bind_other(alloc, cond.as_slice(), other, context, progress, nodes)
                }
            }
        }
        Part::Assign {
            target,
            subscripts,
            value,
        } => bind_assign(
            alloc,
            target,
            subscripts.as_slice(),
            value,
            context,
            progress,
            nodes,
        ),
        Part::Block(parts) => bind_parts(alloc, parts.as_slice(), context, progress, nodes),
    }
}

// A loop with these bounds. The body of a seventh nested loop isn't read: the loop is refused.
#[cycle(parts)]
#[inline(never)]
fn bind_loop(
    alloc: Global,
    name: &Name,
    bounds: &Bounds,
    body: &Part,
    context: &mut Context,
    progress: &mut Progress,
    nodes: &mut Items<Node>,
) -> Result<(), AllocError>
    requires shallow { length context.old.loops ≤ 6 }
    requires small { IsTrue (has_small_forms bounds.now) }
    ensures { OnOk result (Makes context.old context.new progress.old progress.new
        nodes.old nodes.new
        (loop_made (length context.old.loops) progress.old.next_loop bounds.now []
        (loop_body (part_made body.now) context.old name.now.text bounds.now progress.old.next_loop
        (next_statement progress.old)))) }
{
    let id = progress.next_loop;
    progress.next_loop = next(id)?;
    let depth = context.loops.len();
    let mut inside = Items::new(alloc);
    if depth < 6 {
        let Ok(reach) = enter(alloc, context, name, id, bounds) else {
            drop(inside);
            return Err(AllocError);
        };
        let Ok(()) = bind_part(alloc, body, context, progress, &mut inside) else {
            drop(inside);
            return Err(AllocError);
        };
        leave(context, reach);
    }
    push_loop(alloc, nodes, id, bounds, depth, inside)
}

// A part under rows of a guard.
#[cycle(parts)]
#[inline(never)]
fn bind_guarded(
    alloc: Global,
    rows: &[Affine],
    body: &Part,
    context: &mut Context,
    progress: &mut Progress,
    nodes: &mut Items<Node>,
) -> Result<(), AllocError>
    requires { length context.old.loops ≤ 6 }
    ensures { OnOk result (Makes context.old context.new progress.old progress.new
        nodes.old nodes.new
        (guarded (part_made body.now) rows.now context.old progress.old.next_loop
        (next_statement progress.old))) }
{
    let depth = context.loops.len();
    let reach = context.rows.len();
    push_rows(&mut context.rows, rows)?;
    let mut inside = Items::new(alloc);
    let Ok(()) = bind_part(alloc, body, context, progress, &mut inside) else {
        drop(inside);
        return Err(AllocError);
    };
    context.rows.truncate(reach);
    push_guard(alloc, nodes, rows, depth, inside)
}

// An `else` part.
#[cycle(parts)]
#[inline(never)]
fn bind_other(
    alloc: Global,
    cond: &[Comparison],
    other: &Other,
    context: &mut Context,
    progress: &mut Progress,
    nodes: &mut Items<Node>,
) -> Result<(), AllocError>
    requires { length context.old.loops ≤ 6 }
    ensures { OnOk result (Makes context.old context.new progress.old progress.new
        nodes.old nodes.new
        (else_made cond.now (Some (other.now.token, part_made other.now.body)) context.old
        progress.old.next_loop (next_statement progress.old))) }
{
    if !allows_else(cond) {
        note(&mut progress.least, BindError::ElseForm(other.token));
    }
    let rows = otherwise(alloc, &context.scope, cond)?;
    bind_guarded(
        alloc,
        rows.as_slice(),
        other.body.get(),
        context,
        progress,
        nodes,
    )
}

// The array that an assignment writes.
fn array_of(what: Option<What>) -> u32
    ensures { result ≡ array_number what }
{
    match what {
        Some(What::Array(number, _)) => number,
        _ => 0,
    }
}

// Notes what is wrong with the target of an assignment.
#[inline(never)]
fn note_target(
    context: &Context,
    number: u32,
    target: &Name,
    count: usize,
    least: &mut Option<BindError>,
)
    ensures { least.new
        ≡ least_from least.old (target_findings context.now number target.now count) }
{
    if number as u64 + context.sinks as u64 == 64 {
        note(least, BindError::TooManyProcesses(target.token));
    }
    if context.rows.len() > 32 {
        note(least, BindError::TooManyRows(target.token));
    }
    let what = context.scope.find(target.text.as_slice());
    note_access(target.token, what, count, least);
}

// The number of the next statement.
fn number_of_next(progress: &Progress) -> Result<u32, AllocError>
    ensures { IfOk result (λ number. number ≡ next_statement progress.now) }
{
    let count = u32::try_from(progress.statements.len()).or(Err(AllocError))?;
    progress.first.checked_add(count).ok_or(AllocError)
}

// The loops and the rows round an assignment.
fn loops_and_rows(alloc: Global, context: &Context) -> Result<(Items<u32>, Items<Form>), AllocError>
    requires { length context.now.loops ≤ 6 }
    ensures { IfOk result (λ round. round ≡ (
      context.now.loops,
      map (form_over (length context.now.loops)) context.now.rows,
    )) }
{
    let loops = Items::from_slice(alloc, context.loops.as_slice())?;
    match over_all(alloc, context.rows.as_slice(), context.loops.len()) {
        Ok(rows) => Ok((loops, rows)),
        Err(error) => {
            drop(loops);
            Err(error)
        }
    }
}

// The statement that writes this access, and whose right side is this with these reads.
fn statement(
    alloc: Global,
    context: &Context,
    write: Access,
    reads: Items<Access>,
    expr: Expr,
) -> Result<Statement, AllocError>
    requires { length context.now.loops ≤ 6 }
    ensures { IfOk result (λ s. s ≡ record {
      role = Role.Assign;
      loops = context.now.loops;
      rows = map (form_over (length context.now.loops)) context.now.rows;
      write = Some write;
      reads = reads;
      expr = expr;
    }) }
{
    match loops_and_rows(alloc, context) {
        Ok((loops, rows)) => Ok(Statement {
            role: Role::Assign,
            loops,
            rows,
            write: Some(write),
            reads,
            expr,
        }),
        Err(error) => {
            drop(write);
            drop(reads);
            drop(expr);
            Err(error)
        }
    }
}

// The statement of an assignment. Each reason that stands in its subscripts and its right side
// is noted.
#[inline(never)]
fn assignment(
    alloc: Global,
    target: &Name,
    operands: &[Operand],
    right: &Operand,
    context: &Context,
    least: &mut Option<BindError>,
) -> Result<Statement, AllocError>
    requires { length context.now.loops ≤ 6 }
    ensures statement { IfOk result (λ s.
        s ≡ assign_statement context.now target.now operands.now right.now) }
    ensures least { OnOk result (least.new ≡ least_from least.old
        (findings_of Place.Body context.now.scope operands.now
        ++ (valued (length context.now.loops) context.now.scope right.now 0).findings)) }
{
    let depth = context.loops.len();
    let what = context.scope.find(target.text.as_slice());
    let forms = subscripts(alloc, &context.scope, depth, operands, least)?;
    let mut reads = Items::new(alloc);
    match value(alloc, &context.scope, depth, right, &mut reads, least) {
        Ok(expr) => {
            let write = Access {
                array: array_of(what),
                subscripts: forms,
            };
            statement(alloc, context, write, reads, expr)
        }
        Err(error) => {
            drop(forms);
            drop(reads);
            Err(error)
        }
    }
}

// An assignment.
#[inline(never)]
fn bind_assign(
    alloc: Global,
    target: &Name,
    operands: &[Operand],
    right: &Operand,
    context: &Context,
    progress: &mut Progress,
    nodes: &mut Items<Node>,
) -> Result<(), AllocError>
    requires { length context.now.loops ≤ 6 }
    ensures { OnOk result (Makes context.now context.now progress.old progress.new
        nodes.old nodes.new
        (assign_made target.now operands.now right.now context.now progress.old.next_loop
        (next_statement progress.old))) }
{
    let number = number_of_next(progress)?;
    note_target(context, number, target, operands.len(), &mut progress.least);
    let statement = assignment(alloc, target, operands, right, context, &mut progress.least)?;
    progress.statements.push(statement)?;
    nodes.push(Node::Assign(number))
}
