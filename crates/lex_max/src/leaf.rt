ghost use Rattle.std.specs.Prelude.{◌≡◌, ◌≤◌, ◌<◌, ◌+◌, ◌*◌, [], ◌∷◌, ℕ, List, drop, length, map, slice_get, take, IsTrue, Some, All, IfOk, OnOk};
ghost use Rattle.std.specs.List.{list_all};
ghost use Rattle.affine_core.specs.declared.form.Form.{Form as FormOf};
ghost use Rattle.int_polyhedra.specs.declared.system.System.{System as SystemOf};
ghost use Rattle.lex_max.specs.Answer.{IsAnswer, IsContextOf};
ghost use Rattle.tree_graphs.specs.Asked.{depth_of_write, read_of, write_of};
ghost use Rattle.tree_graphs.specs.Problems.{AreCells};
ghost use Rattle.lex_max.specs.Choices.{chosen_place, AreCerts, AreChosen};
ghost use Rattle.lex_max.specs.Leaves.{after_levels, AddsProofs, AreOrderCerts, AreShown, HasAfter, IsAfterProof, IsBetweenProof, IsLeafOf};
ghost use Rattle.tree_graphs.specs.Simple.{IsLightSum};
ghost use Rattle.tree_graphs.specs.Joint.{later_systems, point_systems};
ghost use Rattle.sanlp.specs.WellFormed.{form_fits};
ghost use Rattle.source_tree.specs.Checked.{AreRefuted, IsRefuted};
ghost use Rattle.source_tree.specs.Places.{at_place, cell_rows, differ_rows, domain_rows, same_rows};
ghost use Rattle.source_tree.specs.Rows.{below_zero, row_forms};
ghost use Rattle.source_tree.specs.Systems.{after_systems, reader_place, with_rows, Context};

use crate::decide::{Choice, path_to};
use affine_core::KeptForm;
use int_polyhedra::{Proof, System, Term};
use plain_data::Items;
use source_tree::Tree;
use std::alloc::{AllocError, Global};
use tree_graphs::{Graph, Writes, append_from, sum_with_row};

// Where the leaf's point is outside the domain: each row at the point, and that it is below 0.
fn push_outside(
    proofs: &mut Items<Proof>,
    w: &Writes,
    here: u32,
    certs: &[Items<Term>],
) -> Result<(), AllocError>
    ensures { OnOk result ((c : Context) (context : SystemOf) (place rows : List FormOf)
        → IsLeafOf w.now c context place here
        → IsTrue (list_all (form_fits (depth_of_write w.now)) rows)
        → AreShown context (domain_rows rows place) certs.now
        → AddsProofs (map (λ row. with_rows c (below_zero (at_place row place) ∷ [])) rows)
        proofs.old proofs.new) }
{
    let Some((terms, certs)) = certs.split_first() else {
        return Ok(());
    };
    proofs.push(sum_with_row(w.alloc, terms.as_slice(), here)?)?;
    push_outside(proofs, w, here, certs)
}

// Where its cell is another one: of the two rows of each subscript, first the second and then the first.
fn push_cell(
    proofs: &mut Items<Proof>,
    w: &Writes,
    here: u32,
    certs: &[Items<Term>],
) -> Result<(), AllocError>
    ensures { OnOk result ((c : Context) (context : SystemOf) (place writes reads : List FormOf)
        → IsLeafOf w.now c context place here
        → AreCells w.now.vars (depth_of_write w.now) writes reads
        → AreShown context (cell_rows writes reads place) certs.now
        → AddsProofs (map (λ row. with_rows c (row ∷ [])) (differ_rows writes reads place))
        proofs.old proofs.new) }
{
    let Some((above, certs)) = certs.split_first() else {
        return Ok(());
    };
    let Some((below, certs)) = certs.split_first() else {
        return Ok(());
    };
    proofs.push(sum_with_row(w.alloc, below.as_slice(), here)?)?;
    proofs.push(sum_with_row(w.alloc, above.as_slice(), here)?)?;
    push_cell(proofs, w, here, certs)
}

// The number of the first of the two rows of a level behind so many rows.
fn level_row(here: u32, level: usize) -> u32
    requires here { here ≤ 8192 }
    requires level { level ≤ 6 }
    ensures { result ≡ here + 2 * level }
{
    here + 2 * level as u32
}

// The terms of the row of this number.
fn terms_of(order: &[Items<Term>], row: usize) -> &[Term]
    requires { row < length order.now }
    ensures { slice_get order.now row ≡ Some result.now }
{
    match order.get(row) {
        Some(terms) => terms.as_slice(),
        None => unreachable!(),
    }
}

// Where the reader is before the leaf's point at this level.
#[tactic(auto, using(tree_graphs::proofs::ProblemBounds::few_levels))]
fn after_proof(
    w: &Writes,
    here: u32,
    order: &[Items<Term>],
    level: usize,
) -> Result<Proof, AllocError>
    requires certs { (c : Context) × (context : SystemOf) × (place : List FormOf)
        × AreOrderCerts w.now here c context place order.now }
    requires level { HasAfter w.now level }
    requires here { here ≤ 4096 }
    requires few { level ≤ 6 }
    ensures { IfOk result (λ proof. (c : Context) (context : SystemOf) (place : List FormOf)
        → AreOrderCerts w.now here c context place order.now
        → IsAfterProof w.now c place level proof) }
{
    if level < w.level {
        let above = level_row(here, level);
        return sum_with_row(w.alloc, terms_of(order, 2 * level + 1), above);
    }
    let row = level_row(here, w.level);
    let terms = terms_of(order, 2 * w.level);
    if level == w.level {
        return sum_with_row(w.alloc, terms, row);
    }
    sum_with_row(w.alloc, terms, row + 1)
}

// Where the reader is at the leaf's point.
fn same_proof(w: &Writes, here: u32, order: &[Items<Term>]) -> Result<Proof, AllocError>
    requires certs { (c : Context) × (context : SystemOf) × (place : List FormOf)
        × AreOrderCerts w.now here c context place order.now }
    requires level { w.now.level < w.now.common }
    requires here { here ≤ 4096 }
    ensures { IfOk result (λ proof. (c : Context) (context : SystemOf) (place : List FormOf)
        → AreOrderCerts w.now here c context place order.now
        → IsRefuted (with_rows c (same_rows (reader_place (read_of w.now)) place)) proof
        × IsLightSum proof) }
{
    let row = level_row(here, w.level);
    sum_with_row(w.alloc, terms_of(order, 2 * w.level), row + 1)
}

// At how many levels the reader may be before a point of the writer.
fn after_count(w: &Writes) -> usize
    ensures levels { (l : ℕ) → l < result → HasAfter w.now l }
    ensures all { (place : List FormOf) → length (after_levels w.now place) ≤ result }
    ensures few { result ≤ 7 }
{
    if w.read.number < w.write.number {
        w.common + 1
    } else {
        w.common
    }
}

// Where the reader is before the leaf's point, per level.
fn push_levels(
    proofs: &mut Items<Proof>,
    w: &Writes,
    here: u32,
    order: &[Items<Term>],
) -> Result<(), AllocError>
    requires certs { (c : Context) × (context : SystemOf) × (place : List FormOf)
        × AreOrderCerts w.now here c context place order.now }
    requires here { here ≤ 4096 }
    ensures { OnOk result ((c : Context) (context : SystemOf) (place : List FormOf)
        → AreOrderCerts w.now here c context place order.now
        → AddsProofs (map (with_rows c) (after_levels w.now place)) proofs.old proofs.new) }
{
    for level in 0..after_count(w) {
        proofs.push(after_proof(w, here, order, level)?)?;
    }
    Ok(())
}

// Where the leaf's point is not before the read.
fn push_after(
    proofs: &mut Items<Proof>,
    w: &Writes,
    here: u32,
    order: &[Items<Term>],
) -> Result<(), AllocError>
    requires certs { (c : Context) × (context : SystemOf) × (place : List FormOf)
        × AreOrderCerts w.now here c context place order.now }
    requires here { here ≤ 4096 }
    ensures { OnOk result ((c : Context) (context : SystemOf) (place : List FormOf)
        → AreOrderCerts w.now here c context place order.now
        → AddsProofs (after_systems (read_of w.now) c (write_of w.now) place)
        proofs.old proofs.new) }
{
    push_levels(proofs, w, here, order)?;
    if w.write.number == w.read.number {
        return proofs.push(same_proof(w, here, order)?);
    }
    Ok(())
}

// Where another point of the writer is between the leaf's point and the read, at this level of order behind the leaf's
// point: it would be above the form that is chosen for the loop of that level.
fn between_proof(
    graph: &Graph,
    here: u32,
    choices: &[Choice],
    level: usize,
) -> Result<Proof, AllocError>
    requires chosen { (context : SystemOf)
        × AreChosen graph.now.writes graph.now.edges.now graph.now.bounds.now context choices.now }
    requires here { here ≤ 4096 }
    requires level { level < depth_of_write graph.now.writes }
    ensures { IfOk result
        (IsBetweenProof graph.now.writes graph.now.edges.now here choices.now level) }
{
    let path = path_to(graph, &choices[level], level)?;
    let mut terms = Items::new(graph.writes.alloc);
    append_from(&mut terms, here, path.as_slice())?;
    let count = graph.edges.len() as u32;
    let behind = here + count;
    let row = level_row(behind, level);
    sum_with_row(graph.writes.alloc, terms.as_slice(), row)
}

// Where another point of the writer is between the leaf's point and the read.
fn push_between(
    proofs: &mut Items<Proof>,
    graph: &Graph,
    here: u32,
    choices: &[Choice],
) -> Result<(), AllocError>
    requires chosen { (context : SystemOf)
        × AreChosen graph.now.writes graph.now.edges.now graph.now.bounds.now context choices.now }
    requires here { here ≤ 4096 }
    ensures { OnOk result ((c : Context) (context : SystemOf)
        → IsLeafOf graph.now.writes c context (chosen_place choices.now) here
        → AddsProofs (later_systems (read_of graph.now.writes) (write_of graph.now.writes)
        graph.now.writes.level c (chosen_place choices.now)) proofs.old proofs.new) }
{
    for level in 0..graph.writes.depth() {
        proofs.push(between_proof(graph, here, choices, level)?)?;
    }
    Ok(())
}

fn forms_of(alloc: Global, choices: &[Choice]) -> Result<Items<KeptForm>, AllocError>
    ensures { IfOk result (λ forms. forms ≡ chosen_place choices.now) }
{
    let mut forms = Items::new(alloc);
    for choice in choices {
        let form = KeptForm::of(alloc, &choice.form)?;
        forms.push(form)?;
    }
    Ok(forms)
}

// The terms of the first so many rows.
fn front(certs: &[Items<Term>], count: usize) -> &[Items<Term>]
    requires { count ≤ length certs.now }
    ensures { result.now ≡ take count certs.now }
{
    &certs[..count]
}

// The terms of the rows behind the first so many.
fn back(certs: &[Items<Term>], count: usize) -> &[Items<Term>]
    requires { count ≤ length certs.now }
    ensures { result.now ≡ drop count certs.now }
{
    &certs[count..]
}

// The proofs of the Writer leaf of the chosen point.
fn leaf_proofs(
    graph: &Graph,
    context: &System,
    choices: &[Choice],
    certs: &[Items<Term>],
) -> Result<Items<Proof>, AllocError>
    requires context { IsContextOf graph.now.writes 0 context.now }
    requires chosen { AreChosen graph.now.writes graph.now.edges.now graph.now.bounds.now
        context.now choices.now }
    requires certs { AreCerts context.now (chosen_place choices.now) graph.now.edges.now certs.now }
    ensures refuted { IfOk result (λ proofs. (c : Context) → c.vars ≡ graph.now.writes.vars
        → row_forms c.vars c.rows ≡ Some context.now.rows
        → AreRefuted (point_systems (read_of graph.now.writes) (write_of graph.now.writes)
        graph.now.writes.level c (chosen_place choices.now)) proofs) }
    ensures light { IfOk result (All IsLightSum) }
{
    let w = &graph.writes;
    let here = context.rows.len() as u32;
    let domain = w.rows.len();
    let cells = 2 * w.write_forms.len();
    let mut proofs = Items::new(w.alloc);
    push_outside(&mut proofs, w, here, front(certs, domain))?;
    push_cell(&mut proofs, w, here, front(back(certs, domain), cells))?;
    let before = domain + cells;
    push_after(&mut proofs, w, here, back(certs, before))?;
    push_between(&mut proofs, graph, here, choices)?;
    Ok(proofs)
}

/// The Writer leaf of the chosen point, where the terms show each edge there.
pub fn writer_leaf(
    graph: &Graph,
    context: &System,
    choices: &[Choice],
    certs: &[Items<Term>],
) -> Result<Tree, AllocError>
    requires context { IsContextOf graph.now.writes 0 context.now }
    requires chosen { AreChosen graph.now.writes graph.now.edges.now graph.now.bounds.now
        context.now choices.now }
    requires certs { AreCerts context.now (chosen_place choices.now) graph.now.edges.now certs.now }
    ensures { IfOk result (λ tree. (tests : ℕ) → IsAnswer graph.now.writes context.now tests tree) }
{
    let proofs = leaf_proofs(graph, context, choices, certs)?;
    Ok(Tree::Writer(
        graph.writes.write.number,
        forms_of(graph.writes.alloc, choices)?,
        proofs,
    ))
}
