//! The leaves of a tree of the problems over quotients as those of the nest: their proofs refute the systems of the writers'
//! own writes.

ghost use Rattle.std.specs.Prelude.{◌≡◌, ◌<◌, ◌≤◌, ◌+◌, ◌*◌, ◌^◌, ◌++◌, [], ◌∷◌, true, List, drop, map, length, take, All, Some, Contains, IfOk, IfSome, MatchOption, OnOk};
ghost use Rattle.std.specs.List.{flat_map, list_all, range_with_len};
ghost use Rattle.affine_core.specs.declared.form.Form.{Form as FormOf};
ghost use Rattle.int_polyhedra.specs.declared.system.Proof.{Proof as ProofOf};
ghost use Rattle.source_tree.specs.Checked.{AreRefuted, IsRefuted};
ghost use Rattle.source_tree.specs.References.{occurrence_of};
ghost use Rattle.source_tree.specs.Rows.{RowExpr};
ghost use Rattle.source_tree.specs.Systems.{chosen_levels, with_rows, zero_systems, Context, Occurrence};
ghost use Rattle.source_tree.specs.declared.tree.Tree.{Tree as TreeOf};
ghost use Rattle.source_tree.specs.declared.tree.Tree.TheViews.{Test as TestOf};
ghost use Rattle.stride_trees.specs.Candidates.{AreCutSums, AreNoneCutSums};
ghost use Rattle.stride_trees.specs.Contexts.{own_system, AreMadeSmall, IsPlaceIn};
ghost use Rattle.stride_trees.specs.Converted.{turns_left, IsConverting};
ghost use Rattle.stride_trees.specs.Leaves.{after_counts as counts_after, all_orders, answer_at as answer_of, domain_cell_rows, counts_behind as behind_counts, fact_context, is_told, level_count_of, order_counts, own_context, own_order_number, own_systems, own_place_systems, pairs_of, told_place_systems, told_systems, which_of, write_vars, AddsOrderProofs, AddsProofs, AddsWriters, AreOrderRows, Converts, HasWriter, HaveOrderRows, HaveRowCounts, IsAnswered, IsAtLeaf, IsForOne, IsFurther, IsJoinedBelow, IsJoinedPoint, IsLeafBelow, IsOwnPoint, IsRefusal, IsRefusalAmong, IsRefusedContext, IsToldSum, IsWithoutFacts, IsWriterIn};
ghost use Rattle.stride_trees.specs.Strides.{depth_of_write, write_of, IsStrided};
ghost use Rattle.stride_trees.specs.declared.leaves.Just.{Just as JustOf};
ghost use Rattle.stride_trees.specs.declared.writers.Writer.{Writer as WriterOf};
ghost use Rattle.tree_graphs.specs.Heights.{height_of};
ghost use Rattle.tree_graphs.specs.Joint.{no_orders, write_systems_of};
ghost use Rattle.tree_order.specs.Candidates.{levels_before};
ghost use Rattle.tree_sums.specs.Parts.{IsWithin};

use crate::convert::{back, converted_place, converted_write, front, sum_terms};
use crate::divisions::Division;
use crate::never::never_write;
use crate::strides::Strides;
use crate::undivided::undivided_write;
use crate::writers::{NO_PLACE, Writer};
use affine_core::{Form, Row};
use int_polyhedra::Proof;
use plain_data::Items;
use sanlp::{Nest, common_loops};
use source_tree::{Reference, Tree};
use std::alloc::{AllocError, Global};
use tree_cuts::Cut;
use tree_facts::{proof_by_cuts, proofs_by_cuts};
use tree_graphs::test;
use tree_order::level_count;

/// One writer, of this number, at one level of order before the read.
#[derive(Clone, Copy)]
pub struct Just {
    pub writer: u32,
    pub level: usize,
}

/// The writers of a read, where the first of their tests of divisibility have answers, and facts of the context where all
/// have: Cuts of its rows, and the rows that they add. A tree is made for all of them at each level, or for only one.
#[derive(Clone, Copy)]
pub struct Answered<'a> {
    pub alloc: Global,
    pub nest: &'a Nest,
    pub read: Reference<'a>,
    pub writers: &'a [Writer<'a>],
    pub tests: &'a [Division],
    pub answers: &'a [bool],
    pub cuts: &'a [Cut],
    pub facts: &'a [Row],
    pub only: Option<Just>,
}

/// A test of a writer that says no, and which of the tests of all writers it is.
#[derive(Clone, Copy)]
pub struct Refusal<'a> {
    pub division: &'a Division,
    pub place: u32,
}

// Whether the test at this place says yes.
fn answer_at(answers: &[bool], place: u32) -> bool
    ensures { result ≡ answer_of answers.now place }
{
    match answers.get(place as usize) {
        Some(answer) => *answer,
        None => false,
    }
}

// The first of these tests that says no, if there is one. They stand at these places.
fn first_no<'a>(divisions: &'a [Division], places: &[u32], answers: &[bool]) -> Option<Refusal<'a>>
    requires { length divisions.now ≡ length places.now }
    ensures { MatchOption result (list_all (answer_of answers.now) places.now ≡ true)
        (IsRefusalAmong answers.now divisions.now places.now) }
{
    let (division, divisions) = divisions.split_first()?;
    let (place, places) = places.split_first()?;
    if !answer_at(answers, *place) {
        return Some(Refusal {
            division,
            place: *place,
        });
    }
    first_no(divisions, places, answers)
}

/// The first test of a writer that says no, if there is one.
pub fn refusal_of<'a>(writer: &'a Writer, answers: &[bool]) -> Option<Refusal<'a>>
    requires { length writer.now.divisions ≡ length writer.now.places }
    ensures { MatchOption result (is_told answers.now writer.now ≡ true)
        (IsRefusalAmong answers.now writer.now.divisions writer.now.places) }
{
    first_no(
        writer.divisions.as_slice(),
        writer.places.as_slice(),
        answers,
    )
}

// Adds how many rows so many levels of order have, from this one on.
fn push_counts(
    counts: &mut Items<u32>,
    common: usize,
    level: usize,
    more: usize,
) -> Result<(), AllocError>
    requires { level + more ≤ 8 }
    ensures { OnOk result (counts.new
        ≡ counts.old ++ map (level_count_of common) (range_with_len level more)) }
{
    if more == 0 {
        return Ok(());
    }
    let equal = 2 * level as u32;
    counts.push(if level < common { equal + 1 } else { equal })?;
    push_counts(counts, common, level + 1, more - 1)
}

// Per level of order of the first statement before the second: how many rows it has.
fn row_counts(
    alloc: Global,
    first: &Reference,
    second: &Reference,
) -> Result<Items<u32>, AllocError>
    requires { length first.now.statement.now.loops ≤ 6 }
    ensures { IfOk result (λ counts. counts
        ≡ order_counts (occurrence_of first.now) (occurrence_of second.now)) }
{
    let (loops, others) = (&first.statement.loops, &second.statement.loops);
    let common = common_loops(loops.as_slice(), others.as_slice());
    let mut counts = Items::new(alloc);
    push_counts(&mut counts, common, 0, level_count(first, second))?;
    Ok(counts)
}

// The same behind a place of a writer, and without one no rows once.
fn counts_behind(
    alloc: Global,
    behind: &Option<Reference>,
    write: &Reference,
) -> Result<Items<u32>, AllocError>
    requires { IfSome behind.now (λ of. length of.statement.now.loops ≤ 6) }
    ensures { IfOk result (λ counts. counts ≡ behind_counts behind.now (occurrence_of write.now)) }
{
    match behind {
        Some(of) => row_counts(alloc, of, write),
        None => {
            let mut counts = Items::new(alloc);
            counts.push(0)?;
            Ok(counts)
        }
    }
}

// The number at this place, alone.
fn one_of(counts: &[u32], place: usize) -> &[u32]
    requires { place < length counts.now }
    ensures { result.now ≡ take 1 (drop place counts.now) }
{
    let from = &counts[place..];
    &from[..1]
}

// Of what there is for each level of this writer before the read, that for the levels for which the tree is made.
fn chosen<'c>(w: &Answered, writer: &Writer, counts: &'c [u32]) -> &'c [u32]
    requires writer { IsWriterIn w.now writer.now }
    requires counts { length counts.now
        ≡ levels_before (write_of writer.now.strides) (occurrence_of w.now.read) }
    ensures { result.now
        ≡ chosen_levels (which_of w.now) (write_of writer.now.strides).number counts.now }
{
    match w.only {
        Some(just) => one_of(counts, just.level),
        None => counts,
    }
}

// The proof for a write of which this test says no.
fn refused_write(s: &Strides, test: &Refusal, here: u32, more: u32) -> Result<Proof, AllocError>
    requires strided { IsStrided s.now }
    requires test { IsRefusal s.now test.now }
    requires here { here ≤ 2 ^ 30 }
    requires more { more ≤ 64 }
    ensures { IfOk result (λ proof. (c : Context) (order : List RowExpr)
        → IsRefusedContext s.now test.now here c
        → AreMadeSmall (c.vars + depth_of_write s.now) order → length order ≡ more
        → IsRefuted (own_system s.now c order) proof) }
{
    if test.place < NO_PLACE {
        undivided_write(s, test.division, test.place, here, more)
    } else {
        never_write(s, test.division, here, more)
    }
}

// How many rows the context has above those of the facts.
fn rows_above(w: &Answered) -> u32
    requires rows { length w.now.read.statement.now.rows ≤ 32 }
    requires answers { length w.now.answers.now ≤ 6 }
    ensures { result
        ≡ length w.now.read.statement.now.rows + 2 * length w.now.answers.now }
{
    w.read.statement.rows.len() as u32 + 2 * w.answers.len() as u32
}

// How many rows a context has with the facts, where it has so many without them.
fn rows_with(w: &Answered, here: u32) -> u32
    requires { here + length w.now.cuts.now < 2 ^ 32 }
    ensures { result ≡ here + length w.now.cuts.now }
{
    here + w.cuts.len() as u32
}

// How many rows a context has without the facts, where it has so many with them.
fn rows_without(w: &Answered, here: u32) -> u32
    requires { length w.now.cuts.now ≤ here }
    ensures { result + length w.now.cuts.now ≡ here }
{
    here - w.cuts.len() as u32
}

// The proof of a system that has so many rows behind those of a leaf's context, as one of the system without the facts. The
// context has `here` rows without them.
fn without_facts(w: &Answered, here: u32, more: u32, proof: Proof) -> Result<Proof, AllocError>
    requires leaf { IsLeafBelow w.now here }
    requires more { more ≤ 128 }
    ensures { IfOk result (IsWithoutFacts w.now here more proof) }
{
    let above = rows_above(w);
    let rows = here + more;
    proof_by_cuts(w.alloc, w.cuts, above, rows, proof)
}

// Adds it.
fn push_own(
    proofs: &mut Items<Proof>,
    w: &Answered,
    here: u32,
    more: u32,
    proof: Proof,
) -> Result<(), AllocError>
    requires leaf { IsLeafBelow w.now here }
    requires more { more ≤ 128 }
    ensures { OnOk result ((own : ProofOf) × (proofs.new ≡ proofs.old ++ own ∷ [])
        × IsWithoutFacts w.now here more proof own) }
{
    let own = without_facts(w, here, more, proof)?;
    proofs.push(own)
}

// How many rows a domain and a cell have.
fn cell_count(write: &Reference) -> u32
    requires rows { length write.now.statement.now.rows ≤ 32 }
    requires subscripts { length write.now.access.now.subscripts ≤ 6 }
    ensures { result ≡ domain_cell_rows (occurrence_of write.now) }
{
    let rows = write.statement.rows.len();
    let subscripts = write.access.subscripts.len();
    (rows + 2 * subscripts) as u32
}

// Adds the proof for a writer's write before the read with so many order rows: made from the first of the proofs over
// quotients, where all its tests say yes. Gives those that are left.
fn push_order<'t>(
    proofs: &mut Items<Proof>,
    w: &Answered,
    here: u32,
    writer: &Writer,
    order: u32,
    told: &'t [Proof],
) -> Result<&'t [Proof], AllocError>
    requires writer { IsWriterIn w.now writer.now }
    requires leaf { IsLeafBelow w.now here }
    requires order { order ≤ 64 }
    requires sums { All (IsToldSum w.now) told.now }
    ensures proofs { IfOk result (λ left. (rest rows : List RowExpr) → IsAtLeaf w.now here rest
        → AreOrderRows (write_vars w.now writer.now) order rows
        → AddsOrderProofs w.now rest writer.now (rows ∷ []) told.now left.now proofs.old
        proofs.new) }
    ensures sums { IfOk result (λ left. All (IsToldSum w.now) left.now) }
{
    let s = &writer.strides;
    let rows = rows_with(w, here);
    let cells = cell_count(&s.write);
    let more = cells + order;
    match refusal_of(writer, w.answers) {
        Some(test) => {
            let made = refused_write(s, &test, rows, order)?;
            push_own(proofs, w, here, more, made)?;
            Ok(told)
        }
        None => {
            let Some((proof, told)) = told.split_first() else {
                return Ok(told);
            };
            let places = writer.places.as_slice();
            let made = converted_write(s, places, rows, order, proof)?;
            push_own(proofs, w, here, more, made)?;
            Ok(told)
        }
    }
}

// The same for each of these numbers of order rows behind so many.
fn push_orders<'t>(
    proofs: &mut Items<Proof>,
    w: &Answered,
    here: u32,
    writer: &Writer,
    before: u32,
    orders: &[u32],
    told: &'t [Proof],
) -> Result<&'t [Proof], AllocError>
    requires writer { IsWriterIn w.now writer.now }
    requires leaf { IsLeafBelow w.now here }
    requires orders { All (λ order. before + order ≤ 64) orders.now }
    requires sums { All (IsToldSum w.now) told.now }
    ensures proofs { IfOk result (λ left. (rest level : List RowExpr)
        (behind : List (List RowExpr)) → IsAtLeaf w.now here rest
        → AreOrderRows (write_vars w.now writer.now) before level
        → HaveOrderRows (write_vars w.now writer.now) orders.now behind
        → AddsOrderProofs w.now rest writer.now (map (λ rows. level ++ rows) behind)
        told.now left.now proofs.old proofs.new) }
    ensures sums { IfOk result (λ left. All (IsToldSum w.now) left.now) }
{
    let Some((order, orders)) = orders.split_first() else {
        return Ok(told);
    };
    let told = push_order(proofs, w, here, writer, before + *order, told)?;
    push_orders(proofs, w, here, writer, before, orders, told)
}

// The same behind each of these numbers of rows of a level before the read.
fn push_levels<'t>(
    proofs: &mut Items<Proof>,
    w: &Answered,
    here: u32,
    writer: &Writer,
    levels: &[u32],
    orders: &[u32],
    told: &'t [Proof],
) -> Result<&'t [Proof], AllocError>
    requires writer { IsWriterIn w.now writer.now }
    requires leaf { IsLeafBelow w.now here }
    requires levels { All (λ level. level ≤ 32) levels.now }
    requires orders { All (λ order. order ≤ 32) orders.now }
    requires sums { All (IsToldSum w.now) told.now }
    ensures proofs { IfOk result (λ left. (rest : List RowExpr) (at behind : List (List RowExpr))
        → IsAtLeaf w.now here rest → HaveOrderRows (write_vars w.now writer.now) levels.now at
        → HaveOrderRows (write_vars w.now writer.now) orders.now behind
        → AddsOrderProofs w.now rest writer.now (all_orders behind at)
        told.now left.now proofs.old proofs.new) }
    ensures sums { IfOk result (λ left. All (IsToldSum w.now) left.now) }
{
    let Some((level, levels)) = levels.split_first() else {
        return Ok(told);
    };
    let told = push_orders(proofs, w, here, writer, *level, orders, told)?;
    push_levels(proofs, w, here, writer, levels, orders, told)
}

// Adds the proofs for the writes of one writer before the read. Gives those that are left of the proofs over quotients.
fn push_writer<'t>(
    proofs: &mut Items<Proof>,
    w: &Answered,
    here: u32,
    behind: &Option<Reference>,
    writer: &Writer,
    told: &'t [Proof],
) -> Result<&'t [Proof], AllocError>
    requires writer { IsWriterIn w.now writer.now }
    requires leaf { IsLeafBelow w.now here }
    requires behind { IfSome behind.now (λ of. length of.statement.now.loops ≤ 6) }
    requires sums { All (IsToldSum w.now) told.now }
    ensures proofs { IfOk result (λ left. (rest : List RowExpr)
        (further : Occurrence → List (List RowExpr)) → IsAtLeaf w.now here rest
        → IsFurther behind.now (fact_context w.now rest) further
        → AddsProofs w.now (own_order_number w.now rest writer.now)
        (told_systems (which_of w.now) w.now.answers.now (fact_context w.now rest) further
        writer.now)
        (own_systems (which_of w.now) (own_context w.now rest) further writer.now)
        told.now left.now proofs.old proofs.new) }
    ensures sums { IfOk result (λ left. All (IsToldSum w.now) left.now) }
{
    let write = &writer.strides.write;
    let counts = row_counts(w.alloc, write, &w.read)?;
    let orders = counts_behind(w.alloc, behind, write)?;
    let levels = chosen(w, writer, counts.as_slice());
    push_levels(proofs, w, here, writer, levels, orders.as_slice(), told)
}

// Adds the proofs for the writes of these writers before the read.
fn push_writers(
    proofs: &mut Items<Proof>,
    w: &Answered,
    here: u32,
    behind: &Option<Reference>,
    writers: &[Writer],
    told: &[Proof],
) -> Result<(), AllocError>
    requires writers { All (IsWriterIn w.now) writers.now }
    requires leaf { IsLeafBelow w.now here }
    requires behind { IfSome behind.now (λ of. length of.statement.now.loops ≤ 6) }
    requires sums { All (IsToldSum w.now) told.now }
    ensures { OnOk result ((rest : List RowExpr) (further : Occurrence → List (List RowExpr))
        → IsAtLeaf w.now here rest → IsFurther behind.now (fact_context w.now rest) further
        → AreRefuted (flat_map (told_systems (which_of w.now) w.now.answers.now
        (fact_context w.now rest) further) writers.now) told.now
        → AddsWriters w.now rest further writers.now proofs.old proofs.new) }
{
    let Some((writer, writers)) = writers.split_first() else {
        return Ok(());
    };
    let told = push_writer(proofs, w, here, behind, writer, told)?;
    push_writers(proofs, w, here, behind, writers, told)
}

// Adds the first of these Sums, one for each of these numbers of order rows. Gives those that are left.
fn push_sums<'t>(
    proofs: &mut Items<Proof>,
    w: &Answered,
    here: u32,
    counts: &[u32],
    told: &'t [Proof],
) -> Result<&'t [Proof], AllocError>
    requires leaf { IsLeafBelow w.now here }
    requires counts { All (λ count. count ≤ 32) counts.now }
    requires sums { All (IsToldSum w.now) told.now }
    ensures proofs { IfOk result (λ left. (rest : List RowExpr) (orders : List (List RowExpr))
        → IsAtLeaf w.now here rest → HaveRowCounts counts.now orders
        → AddsProofs w.now (length (own_context w.now rest).rows)
        (map (with_rows (fact_context w.now rest)) orders)
        (map (with_rows (own_context w.now rest)) orders)
        told.now left.now proofs.old proofs.new) }
    ensures sums { IfOk result (λ left. All (IsToldSum w.now) left.now) }
{
    let Some((count, counts)) = counts.split_first() else {
        return Ok(told);
    };
    let Some((proof, told)) = told.split_first() else {
        return Ok(told);
    };
    let terms = Items::from_slice(w.alloc, sum_terms(proof))?;
    push_own(proofs, w, here, *count, Proof::Sum(terms))?;
    push_sums(proofs, w, here, counts, told)
}

// How many rows there are of each order of the reader before a place of a write, and of that it is there.
fn after_counts(w: &Answered, write: &Reference) -> Result<Items<u32>, AllocError>
    requires { length w.now.read.statement.now.loops ≤ 6 }
    ensures { IfOk result (λ counts. counts
        ≡ counts_after (occurrence_of w.now.read) (occurrence_of write.now)) }
{
    let mut counts = row_counts(w.alloc, &w.read, write)?;
    if write.number == w.read.number {
        let loops = w.read.statement.loops.len() as u32;
        counts.push(2 * loops)?;
        return Ok(counts);
    }
    Ok(counts)
}

// The writer of this number.
fn writer_at<'a>(writers: &'a [Writer<'a>], number: u32) -> &'a Writer<'a>
    requires { HasWriter writers.now number }
    ensures among { Contains writers.now result.now }
    ensures number { result.now.strides.write.number ≡ number }
{
    let Some((writer, writers)) = writers.split_first() else {
        unreachable!()
    };
    if writer.strides.write.number == number {
        return writer;
    }
    writer_at(writers, number)
}

// The proofs that a place is in the domain and writes the read's cell, from those over quotients.
fn place_proofs(
    w: &Answered,
    here: u32,
    writer: &Writer,
    told: &[Proof],
) -> Result<Items<Proof>, AllocError>
    requires writer { IsWriterIn w.now writer.now }
    requires leaf { IsLeafBelow w.now here }
    requires says { is_told w.now.answers.now writer.now ≡ true }
    requires sums { All (IsToldSum w.now) told.now }
    requires count { length told.now ≡ domain_cell_rows (write_of writer.now.strides) }
    ensures refuted { IfOk result (λ proofs. (rest : List RowExpr) (place : List FormOf)
        → IsAtLeaf w.now here rest
        → IsPlaceIn (fact_context w.now rest) (depth_of_write writer.now.strides) place
        → AreRefuted (told_place_systems w.now rest writer.now place) told.now
        → AreRefuted (own_place_systems w.now rest writer.now place) proofs) }
    ensures cuts { IfOk result (λ proofs. (rest : List RowExpr) (place : List FormOf)
        → IsForOne w.now → IsAtLeaf w.now here rest
        → IsPlaceIn (fact_context w.now rest) (depth_of_write writer.now.strides) place
        → All (IsWithin (2 ^ 40)) place
        → AreRefuted (told_place_systems w.now rest writer.now place) told.now
        → AreCutSums (length (own_context w.now rest).rows + 1)
        (own_place_systems w.now rest writer.now place) proofs) }
{
    let places = writer.places.as_slice();
    let rows = rows_with(w, here);
    let above = rows_above(w);
    let made = converted_place(&writer.strides, places, rows, told)?;
    proofs_by_cuts(w.alloc, w.cuts, above, here + 1, made)
}

// The proofs of a Writer leaf, whose context has `here` rows without the facts.
fn point_proofs(
    w: &Answered,
    here: u32,
    number: u32,
    told: &[Proof],
) -> Result<Items<Proof>, AllocError>
    requires leaf { IsLeafBelow w.now here }
    requires point { (rest : List RowExpr) × (place : List FormOf) × IsAtLeaf w.now here rest
        × IsJoinedPoint w.now (fact_context w.now rest) number place told.now }
    requires sums { All (IsToldSum w.now) told.now }
    ensures { IfOk result (λ proofs. (rest : List RowExpr) (place : List FormOf)
        → IsAtLeaf w.now here rest
        → IsJoinedPoint w.now (fact_context w.now rest) number place told.now
        → IsOwnPoint w.now (own_context w.now rest) number place proofs) }
{
    let writer = writer_at(w.writers, number);
    let write = &writer.strides.write;
    let count = cell_count(write) as usize;
    let cells = front(told, count);
    let behind = back(told, count);
    let found = after_counts(w, write)?;
    let counts = found.as_slice();
    let mut proofs = place_proofs(w, here, writer, cells)?;
    let left = push_sums(&mut proofs, w, here, counts, behind)?;
    push_writers(&mut proofs, w, here, &Some(*write), w.writers, left)?;
    Ok(proofs)
}

// The proofs of a Zero leaf, whose context has `here` rows without the facts.
fn none_proofs(w: &Answered, here: u32, told: &[Proof]) -> Result<Items<Proof>, AllocError>
    requires leaf { IsLeafBelow w.now here }
    requires sums { All (IsToldSum w.now) told.now }
    ensures refuted { IfOk result (λ proofs. (rest : List RowExpr) → IsAtLeaf w.now here rest
        → AreRefuted (write_systems_of (which_of w.now) (pairs_of w.now) (fact_context w.now rest)
        no_orders) told.now
        → AreRefuted (zero_systems w.now.nest.now (occurrence_of w.now.read) (which_of w.now)
        (own_context w.now rest)) proofs) }
    ensures cuts { IfOk result (λ proofs. (one : JustOf) (x : WriterOf) (rest : List RowExpr)
        → w.now.only ≡ Some one → w.now.writers.now ≡ x ∷ [] → IsAtLeaf w.now here rest
        → AreRefuted (write_systems_of (which_of w.now) (pairs_of w.now) (fact_context w.now rest)
        no_orders) told.now
        → AreNoneCutSums (occurrence_of w.now.read) (write_of x.strides) one.level
        (own_context w.now rest) proofs) }
{
    let mut proofs = Items::new(w.alloc);
    push_writers(&mut proofs, w, here, &None, w.writers, told)?;
    Ok(proofs)
}

// A leaf of a joined tree, with proofs for the writes of the writers. Its context has `here` rows.
fn converted_leaf(w: &Answered, here: u32, leaf: Tree) -> Result<Tree, AllocError>
    requires answered { IsAnswered w.now }
    requires here { here ≤ 2 ^ 30 }
    requires leaf { IsJoinedBelow w.now here leaf × ((form : FormOf) (yes no : TreeOf)
        → leaf ≡ TestOf form yes no → ⊥) }
    ensures { IfOk result (Converts w.now here leaf) }
{
    let here = rows_without(w, here);
    match leaf {
        Tree::Writer(number, place, proofs) => {
            let own = point_proofs(w, here, number, proofs.as_slice());
            drop(proofs);
            match own {
                Ok(own) => Ok(Tree::Writer(number, place, own)),
                Err(error) => {
                    drop(place);
                    Err(error)
                }
            }
        }
        Tree::Zero(proofs) => {
            let own = none_proofs(w, here, proofs.as_slice());
            drop(proofs);
            Ok(Tree::Zero(own?))
        }
        Tree::Dead(proof) => Ok(Tree::Dead(without_facts(w, here, 0, proof)?)),
        _ => unreachable!(),
    }
}

// What is left to convert at a Test above.
#[derive(Drop)]
enum Open {
    // The first tree is under way, and the second is this.
    First(Form, Tree),
    // The second tree is under way. The first is this, which is converted.
    Second(Form, Tree),
}

// A tree that is yet to be converted, or one that is.
#[derive(Drop)]
enum Part {
    Joined(Tree),
    Own(Tree),
}

// Goes down in a tree, behind so many rows and the Tests above.
fn down(w: &Answered, rows: u32, opens: &mut Items<Open>, tree: Tree) -> Result<Part, AllocError>
    requires answered { IsAnswered w.now }
    requires part { (whole : TreeOf)
        × IsConverting w.now rows whole opens.old (Part.Joined tree) }
    ensures { IfOk result (λ part. (whole : TreeOf)
        → IsConverting w.now rows whole opens.old (Part.Joined tree)
        → IsConverting w.now rows whole opens.new part
        × (turns_left opens.new part < turns_left opens.old (Part.Joined tree))) }
{
    match tree {
        Tree::Test(form, yes, no) => {
            let form = form.get();
            let no = no.into_inner();
            match opens.push(Open::First(form, no)) {
                Ok(()) => Ok(Part::Joined(yes.into_inner())),
                Err(error) => {
                    drop(yes);
                    Err(error)
                }
            }
        }
        leaf => {
            let here = rows + opens.len() as u32;
            Ok(Part::Own(converted_leaf(w, here, leaf)?))
        }
    }
}

// Goes on behind a tree that is converted, at the Test above, which was the last one.
fn up(
    w: &Answered,
    rows: u32,
    opens: &mut Items<Open>,
    last: Open,
    own: Tree,
) -> Result<Part, AllocError>
    requires { (whole : TreeOf)
        × IsConverting w.now rows whole (opens.old ++ last ∷ []) (Part.Own own) }
    ensures { IfOk result (λ part. (whole : TreeOf)
        → IsConverting w.now rows whole (opens.old ++ last ∷ []) (Part.Own own)
        → IsConverting w.now rows whole opens.new part
        × (turns_left opens.new part < turns_left (opens.old ++ last ∷ []) (Part.Own own))) }
{
    match last {
        Open::First(form, no) => match opens.push(Open::Second(form, own)) {
            Ok(()) => Ok(Part::Joined(no)),
            Err(error) => {
                drop(no);
                Err(error)
            }
        },
        Open::Second(form, yes) => Ok(Part::Own(test(w.alloc, form, yes, own)?)),
    }
}

// The tree turn by turn: what is left to convert stands in the list, and takes none of the machine's stack.
fn converted_within(
    w: &Answered,
    rows: u32,
    opens: &mut Items<Open>,
    tree: Tree,
) -> Result<Tree, AllocError>
    requires answered { IsAnswered w.now }
    requires rows { rows + height_of tree ≤ 2 ^ 30 }
    requires tree { IsJoinedBelow w.now rows tree }
    requires none { opens.old ≡ [] }
    ensures { IfOk result (Converts w.now rows tree) }
{
    let mut part = Part::Joined(tree);
    'turns: loop {
        part = match part {
            Part::Joined(tree) => down(w, rows, opens, tree)?,
            Part::Own(own) => match opens.pop() {
                Some(last) => up(w, rows, opens, last, own)?,
                None => return Ok(own),
            },
        };
    }
}

/// A joined tree of the writers whose tests all say yes, with proofs for the writes of the writers as they stand in the nest.
/// Its context has `here` rows.
pub fn converted(w: &Answered, here: u32, tree: Tree) -> Result<Tree, AllocError>
    requires answered { IsAnswered w.now }
    requires here { here + height_of tree ≤ 2 ^ 30 }
    requires tree { IsJoinedBelow w.now here tree }
    ensures { IfOk result (Converts w.now here tree) }
{
    let mut opens = Items::new(w.alloc);
    let own = converted_within(w, here, &mut opens, tree);
    drop(opens);
    own
}
