ghost use Rattle.std.specs.Prelude.{◌≡◌, ◌≤◌, ◌+◌, ◌*◌, [], ◌∷◌, ◌++◌, ℕ, List, length, drop, slice_get, Some, All, IfOk, OnOk};
ghost use Rattle.tree_graphs.specs.declared.edges.Edge.{Edge as EdgeOf};
ghost use Rattle.tree_graphs.specs.Cycles.{IsCycle};
ghost use Rattle.tree_graphs.specs.Rounds.{IsBack, RoundIsAsked};

use crate::closure::{Bound, form_beyond};
use crate::edges::Edge;
use crate::forms::sum;
use crate::graph::Graph;
use crate::rows::copied_rows;
use crate::terms::{append, once};
use affine_core::{Form, Row};
use int_polyhedra::{System, Term};
use plain_data::Items;
use std::alloc::{AllocError, Global};

/// A form over the variables of a context and rows on the writer's point whose sum it is.
#[derive(Drop)]
pub struct Cycle {
    pub form: Form,
    pub terms: Items<Term>,
}

/// The context and one row more.
pub fn with_row(context: &System, row: Row) -> Result<System, AllocError>
    ensures { IfOk result
        (λ more. more ≡ record context.now { rows = context.now.rows ++ row ∷ [] }) }
{
    let mut rows = copied_rows(context.rows.allocator(), context.rows.as_slice())?;
    rows.push(row)?;
    Ok(System {
        vars: context.vars,
        rows,
    })
}

// The edge from 0 to a variable of this number, a path, and the edge of the other number back to 0.
fn round(
    alloc: Global,
    out: &Edge,
    out_number: u32,
    bound: &Bound,
    back: &Edge,
    back_number: u32,
) -> Result<Cycle, AllocError>
    requires { (edges : List EdgeOf) × (vars : ℕ) × (depth : ℕ)
        × RoundIsAsked edges vars depth out.now
        out_number bound.now back.now back_number }
    ensures { IfOk result (λ cycle. (edges : List EdgeOf) (vars depth : ℕ)
        → RoundIsAsked edges vars depth out.now out_number bound.now back.now back_number
        → IsCycle vars edges cycle) }
{
    let mut terms = Items::new(alloc);
    terms.push(Term {
        row: out_number,
        times: 1,
    })?;
    append(&mut terms, bound.terms.as_slice())?;
    terms.push(Term {
        row: back_number,
        times: 1,
    })?;
    Ok(Cycle {
        form: form_beyond(&sum(&out.weight, &back.weight), bound),
        terms,
    })
}

// The place of the first cycle with the same coefficients as this form, or how many cycles there are.
fn place_of(cycles: &[Cycle], form: &Form) -> usize
    ensures { result ≤ length cycles.now }
{
    for place in 0..cycles.len() {
        if cycles[place].form.coefs == form.coefs {
            return place;
        }
    }
    cycles.len()
}

// Adds a cycle, unless one with the same coefficients and no greater constant is there; that one takes its place where the
// constant is greater.
fn push_least(cycles: &mut Items<Cycle>, cycle: Cycle) -> Result<(), AllocError>
    ensures each { OnOk result ((vars : ℕ) (edges : List EdgeOf)
        → All (IsCycle vars edges) cycles.old → IsCycle vars edges cycle
        → All (IsCycle vars edges) cycles.new) }
    ensures count { OnOk result (length cycles.new ≤ length cycles.old + 1) }
{
    let place = place_of(cycles.as_slice(), &cycle.form);
    let count = cycles.len();
    if place >= count {
        return cycles.push(cycle);
    }
    let old = cycles.as_slice()[place].form.constant;
    if cycle.form.constant >= old {
        return Ok(());
    }
    cycles.set(place, cycle);
    Ok(())
}

// Adds the cycle by an edge from 0, if it is one to a variable, a path and an edge back to 0.
fn push_round(
    cycles: &mut Items<Cycle>,
    graph: &Graph,
    out: &Edge,
    number: u32,
    back: &Edge,
    back_number: u32,
) -> Result<(), AllocError>
    requires back { IsBack graph.now.writes graph.now.edges.now back.now back_number }
    requires out { slice_get graph.now.edges.now number ≡ Some out.now }
    ensures each { OnOk result (All (IsCycle graph.now.writes.vars graph.now.edges.now) cycles.old
        → All (IsCycle graph.now.writes.vars graph.now.edges.now) cycles.new) }
    ensures count { OnOk result (length cycles.new ≤ length cycles.old + 1) }
{
    if out.from != graph.writes.depth() {
        return Ok(());
    }
    match graph.bounds.at(out.to, back.from) {
        Some(bound) => {
            let alloc = graph.writes.alloc;
            push_least(cycles, round(alloc, out, number, bound, back, back_number)?)
        }
        None => Ok(()),
    }
}

// Adds the cycles by an edge back to 0 and each of these edges from 0, of which the first has this number.
fn push_rounds(
    cycles: &mut Items<Cycle>,
    graph: &Graph,
    outs: &[Edge],
    number: u32,
    back: &Edge,
    back_number: u32,
) -> Result<(), AllocError>
    requires back { IsBack graph.now.writes graph.now.edges.now back.now back_number }
    requires outs { drop number graph.now.edges.now ≡ outs.now }
    requires count { number + length outs.now ≤ 56 }
    ensures each { OnOk result (All (IsCycle graph.now.writes.vars graph.now.edges.now) cycles.old
        → All (IsCycle graph.now.writes.vars graph.now.edges.now) cycles.new) }
    ensures count { OnOk result (length cycles.new ≤ length cycles.old + length outs.now) }
{
    let Some((out, outs)) = outs.split_first() else {
        return Ok(());
    };
    push_round(cycles, graph, out, number, back, back_number)?;
    push_rounds(cycles, graph, outs, number + 1, back, back_number)
}

// Adds the cycles by this edge, if it is one back to 0.
fn push_back(
    cycles: &mut Items<Cycle>,
    graph: &Graph,
    edge: &Edge,
    number: u32,
) -> Result<(), AllocError>
    requires { slice_get graph.now.edges.now number ≡ Some edge.now }
    ensures each { OnOk result (All (IsCycle graph.now.writes.vars graph.now.edges.now) cycles.old
        → All (IsCycle graph.now.writes.vars graph.now.edges.now) cycles.new) }
    ensures count { OnOk result (length cycles.new ≤ length cycles.old + 57) }
{
    if edge.to != graph.writes.depth() {
        return Ok(());
    }
    if edge.from == graph.writes.depth() {
        let terms = once(graph.writes.alloc, number)?;
        let form = edge.weight.copy();
        return push_least(cycles, Cycle { form, terms });
    }
    push_rounds(cycles, graph, graph.edges, 0, edge, number)
}

fn push_cycles(
    cycles: &mut Items<Cycle>,
    graph: &Graph,
    edges: &[Edge],
    number: u32,
) -> Result<(), AllocError>
    requires rest { drop number graph.now.edges.now ≡ edges.now }
    requires count { number + length edges.now ≤ 56 }
    ensures each { OnOk result (All (IsCycle graph.now.writes.vars graph.now.edges.now) cycles.old
        → All (IsCycle graph.now.writes.vars graph.now.edges.now) cycles.new) }
    ensures count { OnOk result (length cycles.new ≤ length cycles.old + 57 * length edges.now) }
{
    let Some((edge, edges)) = edges.split_first() else {
        return Ok(());
    };
    push_back(cycles, graph, edge, number)?;
    push_cycles(cycles, graph, edges, number + 1)
}

/// The cycles through 0, the least one of those with the same coefficients. A writer's point wants each to be at least 0.
pub fn cycles_of(graph: &Graph) -> Result<Items<Cycle>, AllocError>
    ensures each { IfOk result (All (IsCycle graph.now.writes.vars graph.now.edges.now)) }
    ensures count { IfOk result (λ cycles. length cycles ≤ 3192) }
{
    let mut cycles = Items::new(graph.writes.alloc);
    push_cycles(&mut cycles, graph, graph.edges, 0)?;
    Ok(cycles)
}
