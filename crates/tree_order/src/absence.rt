ghost use Rattle.std.specs.Prelude.{◌≡◌, ◌≤◌, ◌<◌, ◌+◌, ◌^◌, ◌++◌, ◌∷◌, ℕ, List, length, nat_lt, All, Some, IfNone, IfOk, IfSome, OnOk};
ghost use Rattle.tree_order.specs.declared.candidates.Read.{Read as ReadOf};
ghost use Rattle.tree_order.specs.Absence.{AddsOrderEdges, AreBack, AreOut, AreRefuting, IsContradicted, IsNearEdge, NoRowRefutes, NoRowRefutesCycle, RoundIsNear};
ghost use Rattle.tree_order.specs.Candidates.{IsCandidate};
ghost use Rattle.tree_order.specs.Comparisons.{AreForms};
ghost use Rattle.tree_order.specs.Contexts.{IsPathContext};
ghost use Rattle.tree_order.specs.Reads.{pair_of};
ghost use Rattle.tree_order.specs.Refutations.{IsPointIn, RefutesBetween};
ghost use Rattle.tree_graphs.specs.Cycles.{IsCycle};
ghost use Rattle.tree_graphs.specs.Asked.{write_of};
ghost use Rattle.tree_graphs.specs.Level.{common_of};
ghost use Rattle.tree_graphs.specs.Paths.{terms_from};
ghost use Rattle.tree_graphs.specs.declared.edges.Edge.{Edge as EdgeOf};
ghost use Rattle.int_polyhedra.specs.declared.system.Proof.TheVariants.{Sum};
ghost use Rattle.source_tree.specs.Systems.{Occurrence};

use crate::candidates::Candidate;
use affine_core::Form;
use int_polyhedra::{System, Term};
use plain_data::Items;
use std::alloc::AllocError;
use tree_graphs::{
    Bound, Bounds, Closure, Context, Cycle, Edge, Search, append, append_from, form_beyond,
    known_by, negative, opposite, raised, sum,
};

// That a cycle of rows behind the context is below 0: terms of the context that show so, and the rows.
fn refutation(context: &Context, shown: &[Term], rows: &[Term]) -> Result<Items<Term>, AllocError>
    requires { All (λ t. length context.now.system.now.rows + t.row < 2 ^ 32) rows.now }
    ensures { IfOk result
        (λ ts. ts ≡ shown.now ++ terms_from (length context.now.system.now.rows) rows.now) }
{
    let mut terms = Items::from_slice(context.system.rows.allocator(), shown)?;
    append_from(&mut terms, context.system.rows.len() as u32, rows)?;
    Ok(terms)
}

// By the first of these cycles that is known to be below 0.
fn by_cycles(
    context: &Context,
    search: &mut Search,
    cycles: &[Cycle],
) -> Result<Option<Items<Term>>, AllocError>
    requires { (edges : List EdgeOf) × AreRefuting context.now.system.now edges
        × All (IsCycle context.now.system.now.vars edges) cycles.now }
    ensures some { IfOk result (λ found. IfSome found (λ ts. (edges : List EdgeOf)
        → AreRefuting context.now.system.now edges
        → All (IsCycle context.now.system.now.vars edges) cycles.now
        → IsContradicted context.now.system.now edges ts)) }
    ensures none { IfOk result
        (λ found. IfNone found (All (NoRowRefutesCycle context.now.system.now) cycles.now)) }
{
    let Some((cycle, cycles)) = cycles.split_first() else {
        return Ok(None);
    };
    let found = known_by(context, search, &opposite(&cycle.form))?;
    match found {
        Some(shown) => {
            let rows = cycle.terms.as_slice();
            Ok(Some(refutation(context, shown.as_slice(), rows)?))
        }
        None => by_cycles(context, search, cycles),
    }
}

/// Terms that refute that the candidate writes the read's cell before the read, where one cycle of its rows does so. `None`
/// says that the sum of no cycle of its rows between loop variables is a negative number, and that no row of the context by
/// itself tells that a cycle through 0 that the candidate keeps is below 0; it doesn't say that there is such a write.
pub fn absence_of(
    context: &System,
    search: &mut Search,
    candidate: &Candidate,
) -> Result<Option<Items<Term>>, AllocError>
    requires candidate { (r : ReadOf) × IsCandidate r candidate.now }
    requires context { IsPathContext candidate.now.writes.vars 0 context.now }
    ensures some { IfOk result
        (λ found. IfSome found (IsContradicted context.now candidate.now.edges)) }
    ensures none { IfOk result (λ found. IfNone found (NoRowRefutes context.now candidate.now)) }
{
    let here = Context { system: context };
    match &candidate.closure {
        Closure::Negative(rows) => Ok(Some(refutation(&here, &[], rows.as_slice())?)),
        Closure::Closed(_) => by_cycles(&here, search, candidate.cycles.as_slice()),
    }
}

// Adds the edges of the rows that a place stands before the writer's point at this level: `place - j` and `j - place` above
// it, and `j - place - 1` at it, where the level is one of a common loop. The place's first value is that of this loop.
fn push_order_edges(
    edges: &mut Items<Edge>,
    place: &[Form],
    at: usize,
    zero: usize,
    level: usize,
    within: bool,
) -> Result<(), AllocError>
    requires forms { (vars : ℕ) × AreForms vars place.now }
    requires few { at + length place.now < 2 ^ 32 }
    ensures rows { OnOk result (AddsOrderEdges place.now at zero level within edges.old edges.new) }
    ensures each { OnOk result ((vars : ℕ) → AreForms vars place.now
        → All (IsNearEdge vars) edges.old → All (IsNearEdge vars) edges.new) }
    ensures count { OnOk result (length edges.new ≤ length edges.old + (level + level + 1)) }
{
    let Some((value, place)) = place.split_first() else {
        return Ok(());
    };
    if level == 0 {
        if within {
            return edges.push(Edge {
                from: at,
                to: zero,
                weight: raised(&negative(value), -1),
            });
        }
        return Ok(());
    }
    edges.push(Edge {
        from: zero,
        to: at,
        weight: value.copy(),
    })?;
    edges.push(Edge {
        from: at,
        to: zero,
        weight: negative(value),
    })?;
    push_order_edges(edges, place, at + 1, zero, level - 1, within)
}

// Edges whose rows have numbers from this one on.
#[derive(Clone, Copy)]
struct Numbered<'a> {
    edges: &'a [Edge],
    first: u32,
}

// The rows of an edge from 0, a path and an edge back to 0, where their sum is known to be below 0.
fn by_round(
    context: &Context,
    search: &mut Search,
    out: &Edge,
    out_number: u32,
    bound: &Bound,
    back: &Edge,
    back_number: u32,
) -> Result<Option<Items<Term>>, AllocError>
    requires { (edges : List EdgeOf) × AreRefuting context.now.system.now edges
        × RoundIsNear edges context.now.system.now.vars out.now out_number bound.now back.now
        back_number }
    ensures { IfOk result (λ found. IfSome found (λ ts. (edges : List EdgeOf)
        → AreRefuting context.now.system.now edges
        → RoundIsNear edges context.now.system.now.vars out.now out_number bound.now back.now
        back_number
        → IsContradicted context.now.system.now edges ts)) }
{
    let form = form_beyond(&sum(&out.weight, &back.weight), bound);
    let found = known_by(context, search, &opposite(&form))?;
    let Some(shown) = found else {
        return Ok(None);
    };
    let mut rows = Items::new(context.system.rows.allocator());
    rows.push(Term {
        row: out_number,
        times: 1,
    })?;
    append(&mut rows, bound.terms.as_slice())?;
    rows.push(Term {
        row: back_number,
        times: 1,
    })?;
    Ok(Some(refutation(context, shown.as_slice(), rows.as_slice())?))
}

// By this edge, if it is one from 0, and this edge back to 0.
fn by_out(
    context: &Context,
    search: &mut Search,
    bounds: &Bounds,
    zero: usize,
    out: &Edge,
    number: u32,
    back: &Edge,
    back_number: u32,
) -> Result<Option<Items<Term>>, AllocError>
    requires { (own : List EdgeOf) × (edges : List EdgeOf) × (outs : List EdgeOf)
        × AreOut context.now.system.now own edges bounds.now zero (out.now ∷ outs) number back.now
        back_number }
    ensures { IfOk result (λ found. IfSome found (λ ts. (own edges outs : List EdgeOf)
        → AreOut context.now.system.now own edges bounds.now zero
        (out.now ∷ outs) number back.now back_number
        → IsContradicted context.now.system.now edges ts)) }
{
    if out.from != zero || out.to == zero {
        return Ok(None);
    }
    let Some(bound) = bounds.at(out.to, back.from) else {
        return Ok(None);
    };
    by_round(context, search, out, number, bound, back, back_number)
}

// By one of these edges from 0, the last one first, and this edge back to it. The first one has this number.
fn by_outs(
    context: &Context,
    search: &mut Search,
    bounds: &Bounds,
    zero: usize,
    outs: &[Edge],
    number: u32,
    back: &Edge,
    back_number: u32,
) -> Result<Option<Items<Term>>, AllocError>
    requires { (own : List EdgeOf) × (edges : List EdgeOf)
        × AreOut context.now.system.now own edges bounds.now zero outs.now number back.now
        back_number }
    ensures { IfOk result (λ found. IfSome found (λ ts. (own edges : List EdgeOf)
        → AreOut context.now.system.now own edges bounds.now zero outs.now number back.now
        back_number
        → IsContradicted context.now.system.now edges ts)) }
{
    let Some((out, outs)) = outs.split_first() else {
        return Ok(None);
    };
    let found = by_outs(
        context,
        search,
        bounds,
        zero,
        outs,
        number + 1,
        back,
        back_number,
    )?;
    match found {
        Some(terms) => Ok(Some(terms)),
        None => by_out(
            context,
            search,
            bounds,
            zero,
            out,
            number,
            back,
            back_number,
        ),
    }
}

// By one of these edges from 0 and this edge, if it is one back to 0.
fn by_back(
    context: &Context,
    search: &mut Search,
    bounds: &Bounds,
    zero: usize,
    outs: Numbered,
    back: &Edge,
    number: u32,
) -> Result<Option<Items<Term>>, AllocError>
    requires { (own : List EdgeOf) × (edges : List EdgeOf) × (backs : List EdgeOf)
        × AreBack context.now.system.now own edges bounds.now zero outs.edges.now outs.first
        (back.now ∷ backs)
        number }
    ensures { IfOk result (λ found. IfSome found (λ ts. (own edges backs : List EdgeOf)
        → AreBack context.now.system.now own edges bounds.now zero outs.entry.edges.now
        outs.entry.first
        (back.now ∷ backs) number
        → IsContradicted context.now.system.now edges ts)) }
{
    if back.to != zero || back.from == zero {
        return Ok(None);
    }
    by_outs(
        context, search, bounds, zero, outs.edges, outs.first, back, number,
    )
}

// By one of these edges from 0 and one of these edges back to it, the last one first. The first of those has this number.
fn by_rounds(
    context: &Context,
    search: &mut Search,
    bounds: &Bounds,
    zero: usize,
    outs: Numbered,
    backs: &[Edge],
    number: u32,
) -> Result<Option<Items<Term>>, AllocError>
    requires { (own : List EdgeOf) × (edges : List EdgeOf)
        × AreBack context.now.system.now own edges
        bounds.now zero outs.edges.now outs.first backs.now number }
    ensures { IfOk result (λ found. IfSome found (λ ts. (own edges : List EdgeOf)
        → AreBack context.now.system.now own edges bounds.now zero outs.entry.edges.now
        outs.entry.first
        backs.now number
        → IsContradicted context.now.system.now edges ts)) }
{
    let Some((back, backs)) = backs.split_first() else {
        return Ok(None);
    };
    let found = by_rounds(context, search, bounds, zero, outs, backs, number + 1)?;
    match found {
        Some(terms) => Ok(Some(terms)),
        None => by_back(context, search, bounds, zero, outs, back, number),
    }
}

// By one cycle that uses order rows behind the candidate's own. Mostly it is one of a subscript's rows, which stand behind those
// of the domain, and the last order row, so these are looked at first.
fn by_orders(
    context: &System,
    search: &mut Search,
    candidate: &Candidate,
    bounds: &Bounds,
    orders: &[Edge],
) -> Result<Option<Items<Term>>, AllocError>
    requires candidate { (r : ReadOf) × IsCandidate r candidate.now }
    requires bounds { candidate.now.closure ≡ Closure.Closed bounds.now }
    requires context { IsPathContext candidate.now.writes.vars 0 context.now }
    requires orders { All (IsNearEdge candidate.now.writes.vars) orders.now }
    requires few { length orders.now ≤ 13 }
    ensures { IfOk result (λ found. IfSome found
        (IsContradicted context.now (candidate.now.edges ++ orders.now))) }
{
    let here = Context { system: context };
    let zero = candidate.writes.depth();
    let behind = candidate.edges.len() as u32;
    let own = candidate.edges.as_slice();
    let order = Numbered {
        edges: orders,
        first: behind,
    };
    let first = Numbered {
        edges: own,
        first: 0,
    };
    let by_first = by_rounds(&here, search, bounds, zero, first, orders, behind)?;
    if let Some(terms) = by_first {
        return Ok(Some(terms));
    }
    let by_order = by_rounds(&here, search, bounds, zero, order, orders, behind)?;
    if let Some(terms) = by_order {
        return Ok(Some(terms));
    }
    by_rounds(&here, search, bounds, zero, order, own, 0)
}

/// Terms that refute that a write of the candidate stands after a place at this level, where one cycle of the candidate's
/// rows and the order rows of the place and the writer's point does so. `within` says that the level is one of a common
/// loop. Or terms that refute that the candidate has a write at all. `None` says what that of `absence_of` says, and nothing
/// of the place.
pub fn exclusion(
    context: &System,
    search: &mut Search,
    candidate: &Candidate,
    place: &[Form],
    level: usize,
    within: bool,
) -> Result<Option<Items<Term>>, AllocError>
    requires candidate { (r : ReadOf) × IsCandidate r candidate.now }
    requires context { IsPathContext candidate.now.writes.vars 0 context.now }
    requires place { (w : Occurrence) × IsPointIn context.now w place.now }
    requires level { level ≤ 6 }
    ensures some { IfOk result (λ found. IfSome found (λ ts. (r : ReadOf) (w : Occurrence)
        → IsCandidate r candidate.now → IsPointIn context.now w place.now
        → within ≡ nat_lt level (common_of w (write_of candidate.now.writes))
        → RefutesBetween (pair_of candidate.now.writes) context.now candidate.now.writes.level
        w place.now level (Sum ts))) }
    ensures none { IfOk result (λ found. IfNone found (NoRowRefutes context.now candidate.now)) }
{
    let Closure::Closed(bounds) = &candidate.closure else {
        return absence_of(context, search, candidate);
    };
    let zero = candidate.writes.depth();
    let mut orders = Items::new(candidate.writes.alloc);
    push_order_edges(&mut orders, place, 0, zero, level, within)?;
    let found = by_orders(context, search, candidate, bounds, orders.as_slice())?;
    match found {
        Some(terms) => Ok(Some(terms)),
        None => absence_of(context, search, candidate),
    }
}
