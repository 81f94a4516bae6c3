ghost use Rattle.std.specs.Prelude.{◌≡◌, ◌<◌, ◌+◌, ◌*◌, ◌^◌, [], ◌∷◌, ◌++◌, ℕ, List, false, length, slice_get, All, Contains, IfOk, MatchOption, OnOk, None};
ghost use Rattle.std.specs.List.{AllZip};
ghost use Rattle.affine_core.specs.declared.form.Form.{Form as FormOf};
ghost use Rattle.int_polyhedra.specs.declared.system.Proof.{Proof as ProofOf};
ghost use Rattle.int_polyhedra.specs.declared.system.System.{System as SystemOf};
ghost use Rattle.tree_order.specs.declared.candidates.Read.{Read as ReadOf};
ghost use Rattle.tree_order.specs.declared.seen.Position.{Position as PositionOf};
ghost use Rattle.tree_order.specs.Reads.{pair_in, pair_of, pairs_with, read_in, write_in};
ghost use Rattle.tree_order.specs.Contexts.{IsPathContext};
ghost use Rattle.tree_graphs.specs.Heights.{height_of};
ghost use Rattle.tree_graphs.specs.Joint.{head_systems, no_orders, orders_behind, write_systems_of, IsSum};
ghost use Rattle.tree_order.specs.Reads.{IsJoinedTree};
ghost use Rattle.tree_join.specs.Joining.{IsBest};
ghost use Rattle.tree_join.specs.Ending.{AddsOfLevel, IsAskedBetween, IsAskedWrite, IsBetweenAsked, IsEmptyEnd, IsLeaf};
ghost use Rattle.tree_join.specs.Leaves.{is_excluded, order_sums, AddsRefutations, CanBeCarried, IsCarried};
ghost use Rattle.tree_order.specs.Refutations.{IsPointIn, RefutesBetween, RefutesWrites};
ghost use Rattle.tree_order.specs.Positions.{IsAt, IsOwnProof, IsPointAt};
ghost use Rattle.tree_order.specs.Seen.{absent_at};
ghost use Rattle.tree_graphs.specs.Asked.{write_of};
ghost use Rattle.tree_graphs.specs.Paths.{term_of};
ghost use Rattle.source_tree.specs.Systems.{every, write_systems, Occurrence};

use crate::path::State;
use affine_core::KeptForm;
use int_polyhedra::{Proof, Term};
use plain_data::Items;
use source_tree::Tree;
use std::alloc::{AllocError, Global};
use tree_graphs::{Problem, append};
use tree_order::{
    Absence, Equality, Order, Outcome, Position, carried, carried_behind, level_count, outcome_of,
    places,
};

/// A candidate that is excluded at a leaf: per level of order the terms that refute that one of its
/// writes stands after the leaf's point.
#[derive(Drop)]
pub struct Excluded {
    pub writer: u32,
    pub level: usize,
    pub sums: Items<Items<Term>>,
}

/// The forms of the point of a candidate's Writer leaf.
pub fn point_of<'a>(at: &Position<'a>) -> &'a [KeptForm]
    requires { (place : List FormOf) × IsPointAt at.now place }
    ensures { IsPointAt at.now result.now }
{
    match at.node {
        Tree::Writer(_, forms, _) => forms.as_slice(),
        _ => unreachable!(),
    }
}

// The proofs of a candidate's Writer leaf.
fn point_proofs<'a>(at: &Position<'a>) -> &'a [Proof]
    requires { (place : List FormOf) × IsPointAt at.now place }
    ensures { (place : List FormOf) → IsPointAt at.now place → at.now.node.now
        ≡ Tree.Writer at.now.candidate.now.writes.write.number place result.now }
{
    match at.node {
        Tree::Writer(_, _, proofs) => proofs.as_slice(),
        _ => unreachable!(),
    }
}

// The proof that a candidate has no point, in the joined context of so many rows.
fn without(alloc: Global, absence: &Absence, here: u32) -> Result<Proof, AllocError>
    requires { (r : ReadOf) × (context : SystemOf) × IsAt r context (absent_at absence.now)
        × IsPathContext r.context.now.vars 0 context × (here ≡ length context.rows) }
    ensures alone { IfOk result (λ proof. (r : ReadOf) (context : SystemOf)
        → IsAt r context (absent_at absence.now) → IsPathContext r.context.now.vars 0 context
        → here ≡ length context.rows
        → RefutesWrites (pair_of absence.now.candidate.now.writes) context
        absence.now.candidate.now.writes.level proof) }
    ensures after { IfOk result (λ proof. (r : ReadOf) (context : SystemOf) (w : Occurrence)
        (place : List FormOf) (q : ℕ) → IsAt r context (absent_at absence.now)
        → IsPathContext r.context.now.vars 0 context
        → here ≡ length context.rows → IsPointIn context w place
        → RefutesBetween (pair_of absence.now.candidate.now.writes) context
        absence.now.candidate.now.writes.level w place q proof) }
    ensures sum { IfOk result IsSum }
{
    let further = absence.candidate.edges.len();
    let rows = absence.rows.as_slice();
    let terms = carried_behind(alloc, rows, here, further, absence.terms.as_slice())?;
    Ok(Proof::Sum(terms))
}

// Adds the terms of one more row: this row of the joined system, once, and what makes it the
// candidate's own.
fn push_sum(
    sums: &mut Items<Items<Term>>,
    alloc: Global,
    row: u32,
    rest: &[Term],
) -> Result<(), AllocError>
    ensures { OnOk result (sums.new ≡ sums.old ++ (term_of row ∷ rest.now) ∷ []) }
{
    let mut terms = Items::new(alloc);
    terms.push(Term { row, times: 1 })?;
    append(&mut terms, rest)?;
    sums.push(terms)
}

// Adds the terms in the places of the order rows of a point z before the writer's point. z stands
// before the best by these equal loops and then strictly, or by the text; the best stands before
// the writer's point at this level, by order rows from this one on. So z stands before it at the
// lesser of both levels. By the text the best's level is the lesser.
fn push_orders(
    sums: &mut Items<Items<Term>>,
    alloc: Global,
    equal: &[Equality],
    strict: &Option<Items<Term>>,
    level: usize,
    start: u32,
) -> Result<(), AllocError>
    requires rows { start + 2 * level + 1 < 2 ^ 32 }
    requires text { strict.now ≡ None → level < length equal.now }
    ensures { OnOk result (sums.new ≡ sums.old ++ order_sums equal.now strict.now level start) }
{
    let Some((equality, equal)) = equal.split_first() else {
        let Some(strict) = strict else { unreachable!() };
        if level == 0 {
            return push_sum(sums, alloc, start, strict.as_slice());
        }
        return push_sum(sums, alloc, start + 1, strict.as_slice());
    };
    if level == 0 {
        return push_sum(sums, alloc, start, equality.below.as_slice());
    }
    push_sum(sums, alloc, start, equality.above.as_slice())?;
    push_sum(sums, alloc, start + 1, equality.below.as_slice())?;
    push_orders(sums, alloc, equal, strict, level - 1, start + 2)
}

// The proof of a candidate's own leaf that none of its writes stands after its point at this level.
fn own_proof<'a>(at: &Position<'a>, level: usize) -> &'a Proof
    requires at { (r : ReadOf) × (context : SystemOf) × IsBest r context at.now
        × IsPathContext r.context.now.vars 0 context }
    requires level { level < length at.now.candidate.now.writes.write.statement.now.loops }
    ensures { (r : ReadOf) (context : SystemOf) (place : List FormOf) → IsAt r context at.now
        → IsPathContext r.context.now.vars 0 context
        → IsPointAt at.now place → IsOwnProof context at.now place level result.now }
{
    let proofs = point_proofs(at);
    let head = proofs.len() - at.candidate.writes.depth();
    &proofs[head + level]
}

// The proof that no write of a candidate, whose point stands before the best by this order, stands
// after the best at this level.
fn between(
    alloc: Global,
    at: &Position,
    order: &Order,
    level: usize,
    here: u32,
) -> Result<Proof, AllocError>
    requires { (r : ReadOf) × (context : SystemOf) × (best : PositionOf)
        × IsBetweenAsked r context best at.now order.now level here }
    ensures proof { IfOk result (λ proof. (r : ReadOf) (context : SystemOf) (best : PositionOf)
        (place : List FormOf) → IsBetweenAsked r context best at.now order.now level here
        → IsPointAt best place
        → RefutesBetween (pair_of at.now.candidate.now.writes) context
        at.now.candidate.now.writes.level (write_of best.candidate.now.writes) place level proof) }
    ensures sum { IfOk result IsSum }
{
    let fixed = at.candidate.edges.len();
    let mut sums = places(alloc, at.rows.as_slice(), here, fixed)?;
    let equal = order.equal.as_slice();
    push_orders(
        &mut sums,
        alloc,
        equal,
        &order.strict,
        level,
        here + fixed as u32,
    )?;
    let lesser = level.min(equal.len());
    carried(alloc, sums.as_slice(), own_proof(at, lesser))
}

// The same for the candidate of the best itself.
fn same_between(
    alloc: Global,
    best: &Position,
    level: usize,
    here: u32,
) -> Result<Proof, AllocError>
    requires best { (r : ReadOf) × (context : SystemOf) × IsBest r context best.now
        × IsPathContext r.context.now.vars 0 context
        × (here ≡ length context.rows) }
    requires level { level < length best.now.candidate.now.writes.write.statement.now.loops }
    ensures proof { IfOk result (λ proof. (r : ReadOf) (context : SystemOf) (place : List FormOf)
        → IsBest r context best.now
        → IsPathContext r.context.now.vars 0 context
        → here ≡ length context.rows → IsPointAt best.now place
        → RefutesBetween (pair_of best.now.candidate.now.writes) context
        best.now.candidate.now.writes.level (write_of best.now.candidate.now.writes) place level
        proof) }
    ensures sum { IfOk result IsSum }
{
    let sums = places(
        alloc,
        best.rows.as_slice(),
        here,
        best.candidate.edges.len() + 13,
    )?;
    carried(alloc, sums.as_slice(), own_proof(best, level))
}

// The candidate that is excluded, if it is.
fn excluded_of(excluded: &[Excluded], writer: u32, level: usize) -> Option<&Excluded>
    ensures { MatchOption result (is_excluded writer level excluded.now ≡ false)
        (λ e. (e.now.writer ≡ writer) × ((e.now.level ≡ level)
        × ((k : ℕ) × (slice_get excluded.now k ≡ Some e.now)))) }
{
    let (first, rest) = excluded.split_first()?;
    if first.writer == writer && first.level == level {
        return Some(first);
    }
    excluded_of(rest, writer, level)
}

// The proof that no write of this statement at this level before the read stands after the best at
// level q.
fn proof_between(
    state: &State,
    best: &Position,
    excluded: &[Excluded],
    problem: &Problem,
    level: usize,
    q: usize,
) -> Result<Proof, AllocError>
    requires leaf { IsLeaf state.now best.now excluded.now }
    requires asked { IsAskedBetween state.now best.now (pair_in state.now.read.now problem.now)
        level q }
    ensures proof { IfOk result (λ proof. (place : List FormOf) → IsPointAt best.now place
        → RefutesBetween (pair_in state.now.read.now problem.now) state.now.context.now level
        (write_of best.now.candidate.now.writes) place q proof) }
    ensures sum { IfOk result IsSum }
{
    let alloc = state.read.alloc;
    let here = state.context.rows.len() as u32;
    if best.candidate.is_of(problem.write.number, level) {
        return same_between(alloc, best, q, here);
    }
    if let Some(found) = excluded_of(excluded, problem.write.number, level) {
        let terms = found.sums.as_slice()[q].as_slice();
        return Ok(Proof::Sum(Items::from_slice(alloc, terms)?));
    }
    let seen = outcome_of(state.seen, alloc, problem.write.number, level, None)?;
    match seen {
        Some(Outcome::Without(absence)) => without(alloc, absence, here),
        Some(Outcome::Before(at, order)) => between(alloc, at, &order, q, here),
        None => unreachable!(),
    }
}

// Adds the proofs of one level of order before the read, one for each level of order behind the
// best.
fn push_level(
    proofs: &mut Items<Proof>,
    state: &State,
    best: &Position,
    excluded: &[Excluded],
    problem: &Problem,
    level: usize,
) -> Result<(), AllocError>
    requires leaf { IsLeaf state.now best.now excluded.now }
    requires write { IsAskedWrite state.now (pair_in state.now.read.now problem.now) level }
    ensures { OnOk result ((place : List FormOf) → IsPointAt best.now place
        → AddsOfLevel (pair_in state.now.read.now problem.now) state.now.context.now level
        (write_of best.now.candidate.now.writes) place proofs.old proofs.new) }
{
    for q in 0..level_count(&best.candidate.writes.write, &problem.write) {
        proofs.push(proof_between(state, best, excluded, problem, level, q)?)?;
    }
    Ok(())
}

// Adds the proofs of a writer, one level of order before the read after the other.
fn push_writer(
    proofs: &mut Items<Proof>,
    state: &State,
    best: &Position,
    excluded: &[Excluded],
    problem: &Problem,
) -> Result<(), AllocError>
    requires leaf { IsLeaf state.now best.now excluded.now }
    requires problem { Contains state.now.read.now.problems.now problem.now }
    ensures { OnOk result ((place : List FormOf) → IsPointAt best.now place
        → AddsRefutations state.now.context.now
        (λ c. write_systems (read_in state.now.read.now problem.now) every c
        (orders_behind (write_of best.now.candidate.now.writes) place c) (write_in problem.now))
        proofs.old proofs.new) }
{
    for level in 0..level_count(&problem.write, &state.read.reference) {
        push_level(proofs, state, best, excluded, problem, level)?;
    }
    Ok(())
}

// Adds the proofs of these problems.
fn push_between(
    proofs: &mut Items<Proof>,
    state: &State,
    best: &Position,
    excluded: &[Excluded],
    problems: &[Problem],
) -> Result<(), AllocError>
    requires leaf { IsLeaf state.now best.now excluded.now }
    requires problems { All (Contains state.now.read.now.problems.now) problems.now }
    ensures { OnOk result ((place : List FormOf) → IsPointAt best.now place
        → AddsRefutations state.now.context.now
        (λ c. write_systems_of every (pairs_with state.now.read.now problems.now) c
        (orders_behind (write_of best.now.candidate.now.writes) place c))
        proofs.old proofs.new) }
{
    let Some((problem, problems)) = problems.split_first() else {
        return Ok(());
    };
    push_writer(proofs, state, best, excluded, problem)?;
    push_between(proofs, state, best, excluded, problems)
}

// Adds these proofs of a candidate, where each row of their systems has these terms in its place.
fn push_carried(
    proofs: &mut Items<Proof>,
    alloc: Global,
    sums: &[Items<Term>],
    own: &[Proof],
) -> Result<(), AllocError>
    requires { All (CanBeCarried sums.now) own.now }
    ensures { OnOk result ((more : List ProofOf) × (proofs.new ≡ proofs.old ++ more)
        × AllZip (IsCarried sums.now) own.now more) }
{
    let Some((proof, own)) = own.split_first() else {
        return Ok(());
    };
    proofs.push(carried(alloc, sums, proof)?)?;
    push_carried(proofs, alloc, sums, own)
}

// Adds the proofs that the best's point is in the domain, writes the read's cell and stands before
// the read.
fn push_heads(
    proofs: &mut Items<Proof>,
    alloc: Global,
    best: &Position,
    here: u32,
) -> Result<(), AllocError>
    requires { (r : ReadOf) × (context : SystemOf) × IsBest r context best.now
        × IsPathContext r.context.now.vars 0 context
        × (here ≡ length context.rows) }
    ensures { OnOk result ((r : ReadOf) (context : SystemOf) (place : List FormOf)
        → IsBest r context best.now
        → IsPathContext r.context.now.vars 0 context
        → here ≡ length context.rows → IsPointAt best.now place
        → AddsRefutations context
        (head_systems (pair_of best.now.candidate.now.writes) place)
        proofs.old proofs.new) }
{
    let sums = places(
        alloc,
        best.rows.as_slice(),
        here,
        best.candidate.edges.len() + 13,
    )?;
    let own = point_proofs(best);
    let heads = own.len() - best.candidate.writes.depth();
    push_carried(proofs, alloc, sums.as_slice(), &own[..heads])
}

fn copy_forms(alloc: Global, forms: &[KeptForm]) -> Result<Items<KeptForm>, AllocError>
    ensures { IfOk result (λ copies. copies ≡ forms.now) }
{
    let mut copies = Items::new(alloc);
    for form in forms {
        let copy = KeptForm::of(alloc, &form.get())?;
        copies.push(copy)?;
    }
    Ok(copies)
}

/// The Writer leaf of the best, where every candidate was seen or is excluded.
pub fn writer_leaf(
    state: &State,
    best: &Position,
    excluded: &[Excluded],
) -> Result<Tree, AllocError>
    requires { IsLeaf state.now best.now excluded.now }
    ensures joined { IfOk result (IsJoinedTree state.now.read.now state.now.context.now) }
    ensures low { IfOk result (λ tree. height_of tree ≡ 0) }
{
    let alloc = state.read.alloc;
    let here = state.context.rows.len() as u32;
    let mut proofs = Items::new(alloc);
    push_heads(&mut proofs, alloc, best, here)?;
    push_between(&mut proofs, state, best, excluded, state.read.problems)?;
    let forms = copy_forms(alloc, point_of(best))?;
    Ok(Tree::Writer(best.candidate.writes.write.number, forms, proofs))
}

// The proof that a candidate that was seen has no point.
fn proof_without(state: &State, problem: &Problem, level: usize) -> Result<Proof, AllocError>
    requires end { IsEmptyEnd state.now }
    requires write { IsAskedWrite state.now (pair_in state.now.read.now problem.now) level }
    ensures proof { IfOk result (RefutesWrites (pair_in state.now.read.now problem.now)
        state.now.context.now level) }
    ensures sum { IfOk result IsSum }
{
    let alloc = state.read.alloc;
    let here = state.context.rows.len() as u32;
    let seen = outcome_of(state.seen, alloc, problem.write.number, level, None)?;
    let Some(outcome) = seen else { unreachable!() };
    match outcome {
        Outcome::Without(absence) => without(alloc, absence, here),
        Outcome::Before(_, _) => unreachable!(),
    }
}

// Adds the proofs that a writer has no point at any level.
fn push_writer_without(
    proofs: &mut Items<Proof>,
    state: &State,
    problem: &Problem,
) -> Result<(), AllocError>
    requires end { IsEmptyEnd state.now }
    requires problem { Contains state.now.read.now.problems.now problem.now }
    ensures { OnOk result (AddsRefutations state.now.context.now
        (λ c. write_systems (read_in state.now.read.now problem.now) every c no_orders
        (write_in problem.now)) proofs.old proofs.new) }
{
    for level in 0..level_count(&problem.write, &state.read.reference) {
        proofs.push(proof_without(state, problem, level)?)?;
    }
    Ok(())
}

// Adds the proofs that the writes of these problems have no point before the read.
fn push_without(
    proofs: &mut Items<Proof>,
    state: &State,
    problems: &[Problem],
) -> Result<(), AllocError>
    requires end { IsEmptyEnd state.now }
    requires problems { All (Contains state.now.read.now.problems.now) problems.now }
    ensures { OnOk result (AddsRefutations state.now.context.now
        (λ c. write_systems_of every (pairs_with state.now.read.now problems.now) c no_orders)
        proofs.old proofs.new) }
{
    let Some((problem, problems)) = problems.split_first() else {
        return Ok(());
    };
    push_writer_without(proofs, state, problem)?;
    push_without(proofs, state, problems)
}

/// The Zero leaf, where every candidate is without a point.
pub fn zero_leaf(state: &State) -> Result<Tree, AllocError>
    requires { IsEmptyEnd state.now }
    ensures joined { IfOk result (IsJoinedTree state.now.read.now state.now.context.now) }
    ensures low { IfOk result (λ tree. height_of tree ≡ 0) }
{
    let mut proofs = Items::new(state.read.alloc);
    push_without(&mut proofs, state, state.read.problems)?;
    Ok(Tree::Zero(proofs))
}
