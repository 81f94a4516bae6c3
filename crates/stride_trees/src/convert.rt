//! Proofs over quotients as proofs of the statements' own systems: the Cuts that tell the rows, and then the same Sum.

ghost use Rattle.std.specs.Prelude.{◌≡◌, ◌≤◌, ◌<◌, ◌||◌, ◌+◌, ◌*◌, ◌^◌, [], ◌∷◌, ◌++◌, ℕ, List, drop, length, take, All, IfOk, IsTrue, OnOk, if◌then◌else◌};
ghost use Rattle.std.specs.List.{list_all};
ghost use Rattle.affine_core.specs.declared.form.Form.{Form as FormOf};
ghost use Rattle.tree_graphs.specs.Joint.{IsSum};
ghost use Rattle.int_polyhedra.specs.declared.system.Term.{Term as TermOf};
ghost use Rattle.tree_graphs.specs.Simple.{IsLightSum};
ghost use Rattle.tree_sums.specs.Parts.{IsWithin};
ghost use Rattle.sanlp.specs.WellFormed.{form_fits};
ghost use Rattle.source_tree.specs.Checked.{AreRefuted, IsRefuted};
ghost use Rattle.source_tree.specs.Rows.{RowExpr};
ghost use Rattle.source_tree.specs.Systems.{Context};
ghost use Rattle.stride_trees.specs.Candidates.{order_number, AreCutSums, IsCutSumOf};
ghost use Rattle.tree_cuts.specs.Class.{is_pair, is_single};
ghost use Rattle.stride_trees.specs.Contexts.{differing, outside_of, own_system, outside_cell_systems, told_system, AddsConverted, AreMadeSmall, AreTestsIn, IsPlaceIn, IsTestedContext};
ghost use Rattle.tree_cuts.specs.Cuts.{converted_sum};
ghost use Rattle.stride_trees.specs.Problem.{problem_reads, problem_rows, problem_writes, told_read, told_write};
ghost use Rattle.tree_cuts.specs.Sources.{cell_source as cell_source_of, last_converted, subscript_converted, write_sources as write_sources_of};
ghost use Rattle.stride_trees.specs.Strides.{depth_of_read, depth_of_write, read_of, root_of, write_of, IsSmallContext, IsStrided};

use crate::strides::Strides;
use affine_core::{Form, Row};
use int_polyhedra::{Proof, Term};
use plain_data::Items;
use std::alloc::{AllocError, Global};
use tree_cuts::{
    Source, cell_source, converted, is_turned, next_test, places_behind, row_source, write_sources,
};

/// The terms of a Sum.
pub fn sum_terms(proof: &Proof) -> &[Term]
    requires { IsSum proof.now }
    ensures { proof.now ≡ Proof.Sum result.now }
{
    match proof {
        Proof::Sum(terms) => terms.as_slice(),
        _ => unreachable!(),
    }
}

/// The first so many proofs.
pub fn front(proofs: &[Proof], count: usize) -> &[Proof]
    requires { count ≤ length proofs.now }
    ensures { result.now ≡ take count proofs.now }
{
    &proofs[..count]
}

/// The proofs behind the first so many.
pub fn back(proofs: &[Proof], count: usize) -> &[Proof]
    requires { count ≤ length proofs.now }
    ensures { result.now ≡ drop count proofs.now }
{
    &proofs[count..]
}

// The proof of a system with one row behind the context's.
fn with_last(alloc: Global, here: u32, last: Source, proof: &Proof) -> Result<Proof, AllocError>
    requires here { here ≤ 2 ^ 30 }
    requires sum { IsSum proof.now }
    ensures { IfOk result (λ own. (terms : List TermOf) → proof.now ≡ Proof.Sum terms
        → own ≡ last_converted last here terms) }
{
    let terms = sum_terms(proof);
    let mut sources = Items::new(alloc);
    sources.push(last)?;
    converted(alloc, here, sources.as_slice(), here + 1, terms)
}

// The proof of the system of a write before the read, as it is made.
fn of_write(
    s: &Strides,
    places: &[u32],
    here: u32,
    more: u32,
    terms: &[Term],
) -> Result<Proof, AllocError>
    requires strided { IsStrided s.now }
    requires places { All (λ i. i < 6) places.now }
    requires here { here ≤ 2 ^ 30 }
    requires more { more ≤ 64 }
    ensures { IfOk result (λ own. own ≡ converted_sum
        (write_sources_of s.now.write.statement.now.rows s.now.write.access.now.subscripts
        (root_of s.now) places.now here more)
        (here + (length s.now.write.statement.now.rows
        + (2 * length s.now.write.access.now.subscripts + more))) terms.now) }
{
    let rows = s.write.statement.rows.as_slice();
    let writes = s.write.access.subscripts.as_slice();
    let root = s.read.statement.rows.len() as u32;
    let sources = write_sources(s.alloc, rows, writes, root, places, here, more)?;
    let count = here + (rows.len() as u32 + (2 * writes.len() as u32 + more));
    converted(s.alloc, here, sources.as_slice(), count, terms)
}

/// The proof of the system of a write before the read, from that of the same system over quotients: a Sum. The context has
/// `here` rows, and there are `more` order rows.
pub fn converted_write(
    s: &Strides,
    places: &[u32],
    here: u32,
    more: u32,
    proof: &Proof,
) -> Result<Proof, AllocError>
    requires strided { IsStrided s.now }
    requires places { All (λ i. i < 6) places.now }
    requires here { here ≤ 2 ^ 30 }
    requires more { more ≤ 64 }
    requires sum { IsSum proof.now }
    ensures refuted { IfOk result (λ own. (c : Context) (order : List RowExpr)
        → IsTestedContext s.now places.now here c
        → AreMadeSmall (c.vars + depth_of_write s.now) order → length order ≡ more
        → IsRefuted (told_system s.now places.now c order) proof.now
        → IsRefuted (own_system s.now c order) own) }
    ensures cuts { IfOk result (λ own. here ≤ 8192 → (c : Context) (order : List RowExpr)
        → IsTestedContext s.now places.now here c
        → AreMadeSmall (c.vars + depth_of_write s.now) order → length order ≡ more
        → IsRefuted (told_system s.now places.now c order) proof.now → IsLightSum proof.now
        → IsCutSumOf (order_number (read_of s.now) (write_of s.now) c) (own_system s.now c order)
        own) }
{
    let terms = sum_terms(proof);
    of_write(s, places, here, more, terms)
}

// Adds the proofs that a place is in the domain, row by row.
fn push_outside(
    proofs: &mut Items<Proof>,
    alloc: Global,
    rows: &[Row],
    here: u32,
    told: &[Proof],
) -> Result<(), AllocError>
    requires here { here ≤ 2 ^ 30 }
    requires rows { All (IsWithin (2 ^ 32)) rows.now }
    requires sums { All IsSum told.now }
    ensures { OnOk result ((c : Context) (depth : ℕ) (place : List FormOf) → IsSmallContext c here
        → depth ≤ 6 → IsPlaceIn c depth place → IsTrue (list_all (form_fits depth) rows.now)
        → IsTrue (list_all (λ row. is_single row || is_pair row) rows.now)
        → AddsConverted (here + 1) (All (IsWithin (2 ^ 40)) place)
        (outside_of c (problem_rows rows.now) place) (outside_of c rows.now place) told.now
        proofs.old proofs.new) }
{
    let Some((row, rows)) = rows.split_first() else {
        return Ok(());
    };
    let Some((proof, told)) = told.split_first() else {
        return Ok(());
    };
    let last = row_source(alloc, row, here)?;
    let own = with_last(alloc, here, last, proof)?;
    proofs.push(own)?;
    push_outside(proofs, alloc, rows, here, told)
}

// Adds two proofs, the second first if they are turned.
fn push_two(
    proofs: &mut Items<Proof>,
    turned: bool,
    first: Proof,
    second: Proof,
) -> Result<(), AllocError>
    ensures { OnOk result (proofs.new ≡ proofs.old
        ++ (if turned then second ∷ first ∷ [] else first ∷ second ∷ [])) }
{
    if turned {
        return proofs.push_both(second, first);
    }
    proofs.push_both(first, second)
}

// The proof of a system with a row of a subscript behind the context's, which the test's row of this number tells.
fn with_cell(
    alloc: Global,
    write: &Form,
    here: u32,
    test: u32,
    proof: &Proof,
) -> Result<Proof, AllocError>
    requires here { here ≤ 2 ^ 30 }
    requires write { IsWithin (2 ^ 32) write.now }
    requires sum { IsSum proof.now }
    ensures { IfOk result (λ own. (terms : List TermOf) → proof.now ≡ Proof.Sum terms
        → own ≡ last_converted (cell_source_of write.now here test) here terms) }
{
    let last = cell_source(alloc, write, here, test)?;
    with_last(alloc, here, last, proof)
}

// Adds the proofs that the subscript of a place is not above the read's, and not below it.
fn push_subscript(
    proofs: &mut Items<Proof>,
    alloc: Global,
    write: &Form,
    here: u32,
    test: u32,
    high: &Proof,
    low: &Proof,
) -> Result<(), AllocError>
    requires here { here ≤ 2 ^ 30 }
    requires test { test ≤ 8192 }
    requires write { IsWithin (2 ^ 32) write.now }
    requires high { IsSum high.now }
    requires low { IsSum low.now }
    ensures { OnOk result ((above below : List TermOf) → high.now ≡ Proof.Sum above
        → low.now ≡ Proof.Sum below
        → proofs.new ≡ proofs.old ++ subscript_converted write.now here test above below) }
{
    // Each of both rows has this number, in a system of its own.
    let first = with_cell(alloc, write, here, test, high)?;
    match with_cell(alloc, write, here, test + 1, low) {
        Ok(second) => push_two(proofs, is_turned(write), first, second),
        Err(error) => {
            drop(first);
            Err(error)
        }
    }
}

// Adds the proofs that a place writes the read's cell, subscript by subscript.
fn push_cells(
    proofs: &mut Items<Proof>,
    alloc: Global,
    writes: &[Form],
    here: u32,
    root: u32,
    places: &[u32],
    told: &[Proof],
) -> Result<(), AllocError>
    requires here { here ≤ 2 ^ 30 }
    requires root { root ≤ 32 }
    requires places { All (λ i. i < 6) places.now }
    requires writes { All (IsWithin (2 ^ 32)) writes.now }
    requires sums { All IsSum told.now }
    ensures { OnOk result ((c : Context) (depth d : ℕ) (place reads : List FormOf)
        → IsSmallContext c here → depth ≤ 6 → d ≤ c.vars → IsPlaceIn c depth place
        → IsTrue (list_all (form_fits depth) writes.now) → IsTrue (list_all is_single writes.now)
        → IsTrue (list_all (form_fits d) reads) → length writes.now ≡ length reads
        → AreTestsIn c d root places.now writes.now reads
        → AddsConverted (here + 1) (All (IsWithin (2 ^ 40)) place)
        (differing c (problem_writes writes.now)
        (problem_reads c.vars d places.now writes.now reads) place)
        (differing c writes.now reads place) told.now proofs.old proofs.new) }
{
    let Some((write, writes)) = writes.split_first() else {
        return Ok(());
    };
    let Some((high, told)) = told.split_first() else {
        return Ok(());
    };
    let Some((low, told)) = told.split_first() else {
        return Ok(());
    };
    push_subscript(
        proofs,
        alloc,
        write,
        here,
        next_test(root, places),
        high,
        low,
    )?;
    let behind = places_behind(write, places);
    push_cells(proofs, alloc, writes, here, root, behind, told)
}

/// The proofs that a place is in the domain and writes the read's cell, from those of the same systems over quotients: per
/// domain row one, and per subscript two. The context has `here` rows.
pub fn converted_place(
    s: &Strides,
    places: &[u32],
    here: u32,
    told: &[Proof],
) -> Result<Items<Proof>, AllocError>
    requires strided { IsStrided s.now }
    requires places { All (λ i. i < 6) places.now }
    requires here { here ≤ 2 ^ 30 }
    requires sums { All IsSum told.now }
    requires count { length told.now ≡ length s.now.write.statement.now.rows
        + 2 * length s.now.write.access.now.subscripts }
    ensures refuted { IfOk result (λ proofs. (c : Context) (place : List FormOf)
        → IsTestedContext s.now places.now here c → IsPlaceIn c (depth_of_write s.now) place
        → AreRefuted
        (outside_cell_systems (told_read c.vars places.now (read_of s.now) (write_of s.now))
        (told_write (write_of s.now)) c place) told.now
        → AreRefuted (outside_cell_systems (read_of s.now) (write_of s.now) c place) proofs) }
    ensures cuts { IfOk result (λ proofs. (c : Context) (place : List FormOf)
        → IsTestedContext s.now places.now here c → IsPlaceIn c (depth_of_write s.now) place
        → All (IsWithin (2 ^ 40)) place
        → AreRefuted
        (outside_cell_systems (told_read c.vars places.now (read_of s.now) (write_of s.now))
        (told_write (write_of s.now)) c place) told.now
        → All IsLightSum told.now
        → AreCutSums (here + 1) (outside_cell_systems (read_of s.now) (write_of s.now) c place)
        proofs) }
{
    let rows = s.write.statement.rows.as_slice();
    let writes = s.write.access.subscripts.as_slice();
    let root = s.read.statement.rows.len() as u32;
    let first = front(told, rows.len());
    let second = back(told, rows.len());
    let mut proofs = Items::new(s.alloc);
    let Ok(()) = push_outside(&mut proofs, s.alloc, rows, here, first) else {
        drop(proofs);
        return Err(AllocError);
    };
    let Ok(()) = push_cells(&mut proofs, s.alloc, writes, here, root, places, second) else {
        drop(proofs);
        return Err(AllocError);
    };
    Ok(proofs)
}
