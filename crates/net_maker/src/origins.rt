ghost use Rattle.std.specs.Prelude.{◌≡◌, ◌<◌, ◌+◌, ◌↔◌, ℕ, ℤ, List, [], None, Some, length, slice_get, slice_index_or, IfOk, IfSome, IsSomeAnd, IsTrue, OnOk};
ghost use Rattle.net_checker.specs.Shapes.{read_total};
ghost use Rattle.net_maker.specs.Origins.{HasOrigins, IsUsableOrigin};
ghost use Rattle.net_maker.specs.StatementPoints.{ArePoints, NeverOverflowsIn};
ghost use Rattle.sanlp.specs.Access.{read_count};
ghost use Rattle.sanlp.specs.Points.{points_of};
ghost use Rattle.sanlp.specs.Size.{SizeIsOk};
ghost use Rattle.source_tree.specs.Checked.{IsChecked};
ghost use Rattle.source_tree.specs.Sources.{read_number};
ghost use Rattle.source_tree.specs.Walk.{is_ready, outcome_of};
ghost use Rattle.tree_text.specs.TreeText.{TreeIsInRange};

use crate::ranges::has_text;
use affine_core::Vector;
use last_writer::{in_difference_class, source_of};
use plain_data::{Boxed, Items};
use sanlp::{LOOP_VALUE_LIMIT, Nest, Points};
use source_tree::{Origin, Tree};
use std::alloc::{AllocError, Global};
use tree_bounds::stays_within;
use tree_cuts::differences_are_strides;
use tree_eval::Follower;

// Whether the tree overflows at none of these points.
fn overflows_nowhere(tree: &Tree, vectors: &[Vector]) -> bool
    requires { (f : ℕ) (at : List ℤ) → slice_get vectors.now f ≡ Some at
        → IsTrue (is_ready (length at) tree.now (length at)) }
    ensures { IsTrue result ↔ ((f : ℕ) (at : List ℤ) → slice_get vectors.now f ≡ Some at
        → outcome_of tree.now at ≡ None → ⊥) }
{
    let mut follower = Follower::new();
    for at in vectors {
        if follower.overflows(tree, at) {
            return false;
        }
    }
    true
}

// The same of the points of a statement.
fn overflows_nowhere_of(points: &Points, statement: u32, tree: &Tree) -> bool
    requires statement { statement < length points.now.of }
    requires ready { (f : ℕ) (at : List ℤ)
        → slice_get (slice_index_or points.now.of statement []) f ≡ Some at
        → IsTrue (is_ready (length at) tree.now (length at)) }
    ensures { IsTrue result → (f : ℕ) (at : List ℤ)
        → slice_get (slice_index_or points.now.of statement []) f ≡ Some at
        → outcome_of tree.now at ≡ None → ⊥ }
{
    overflows_nowhere(tree, points.of.as_slice()[statement as usize].as_slice())
}

// Makes the points of a nest, unless they were made before.
fn make_points(alloc: Global, nest: &Nest, points: &mut Option<Points>) -> Result<(), AllocError>
    requires size { SizeIsOk nest.now }
    requires points { IfSome points.old (ArePoints nest.now) }
    ensures { OnOk result (IsSomeAnd points.new (ArePoints nest.now)) }
{
    if points.is_none() {
        *points = Some(loop_walk::points(alloc, nest)?);
    }
    Ok(())
}

// Whether the tree overflows at none of a statement's points, by a look at each of them.
fn overflows_at_no_point(
    alloc: Global,
    nest: &Nest,
    points: &mut Option<Points>,
    statement: u32,
    tree: &Tree,
) -> Result<bool, AllocError>
    requires size { SizeIsOk nest.now }
    requires points { IfSome points.old (ArePoints nest.now) }
    requires statement { statement < length nest.now.statements }
    requires ready { (f : ℕ) (at : List ℤ)
        → slice_get (slice_index_or (points_of nest.now) statement []) f ≡ Some at
        → IsTrue (is_ready (length at) tree.now (length at)) }
    ensures points { OnOk result (IfSome points.new (ArePoints nest.now)) }
    ensures fits { IfOk result
        (λ fits. IsTrue fits → NeverOverflowsIn nest.now statement tree.now) }
{
    make_points(alloc, nest, points)?;
    let Some(made) = points else { unreachable!() };
    Ok(overflows_nowhere_of(made, statement, tree))
}

// Whether a checked tree of a read of the statement may stand in a certificate: it overflows at no point of the statement and
// has a text that can be read. Mostly the sizes of its numbers tell the first, and the points are made only where they don't.
fn may_stand(
    alloc: Global,
    nest: &Nest,
    points: &mut Option<Points>,
    statement: u32,
    read: u32,
    tree: &Tree,
) -> Result<bool, AllocError>
    requires size { SizeIsOk nest.now }
    requires points { IfSome points.old (ArePoints nest.now) }
    requires statement { statement < length nest.now.statements }
    requires checked { IsChecked nest.now statement read tree.now }
    ensures points { OnOk result (IfSome points.new (ArePoints nest.now)) }
    ensures fits { IfOk result
        (λ stands. IsTrue stands → NeverOverflowsIn nest.now statement tree.now) }
    ensures text { IfOk result (λ stands. IsTrue stands → TreeIsInRange tree.now) }
{
    if !has_text(tree) {
        return Ok(false);
    }
    if stays_within(tree, LOOP_VALUE_LIMIT) {
        return Ok(true);
    }
    overflows_at_no_point(alloc, nest, points, statement, tree)
}

// Where a read has its values from: from the points that its tree gives, where that may stand in a certificate, and else
// from the last writers.
fn origin(
    alloc: Global,
    nest: &Nest,
    points: &mut Option<Points>,
    statement: u32,
    read: u32,
) -> Result<Origin, AllocError>
    requires size { SizeIsOk nest.now }
    requires points { IfSome points.old (ArePoints nest.now) }
    requires statement { statement < length nest.now.statements }
    requires read { read < read_count nest.now statement }
    ensures points { OnOk result (IfSome points.new (ArePoints nest.now)) }
    ensures origin { IfOk result (IsUsableOrigin nest.now statement read) }
{
    if !in_difference_class(nest, statement, read) {
        return Ok(Origin::Sweep);
    }
    differences_are_strides();
    let tree = source_of(alloc, nest, statement, read)?;
    let stands = may_stand(alloc, nest, points, statement, read, &tree)?;
    if stands {
        Ok(Origin::Tree(Boxed::new(alloc, tree)?))
    } else {
        Ok(Origin::Sweep)
    }
}

// Adds the origins of a statement's reads.
fn add_origins(
    alloc: Global,
    nest: &Nest,
    points: &mut Option<Points>,
    statement: u32,
    sources: &mut Items<Origin>,
) -> Result<(), AllocError>
    requires size { SizeIsOk nest.now }
    requires points { IfSome points.old (ArePoints nest.now) }
    requires statement { statement < length nest.now.statements }
    requires before { HasOrigins nest.now (read_number nest.now statement 0) sources.old }
    ensures points { OnOk result (IfSome points.new (ArePoints nest.now)) }
    ensures origins { OnOk result
        (HasOrigins nest.now (read_number nest.now (statement + 1) 0) sources.new) }
{
    for read in 0..nest.statement(statement).reads.len() {
        sources.push(origin(alloc, nest, points, statement, read as u32)?)?;
    }
    Ok(())
}

/// Where each read has its values from: reads of the difference class from the points that their trees give, where these fit
/// in a certificate, and others from the last writers.
pub(crate) fn origins(alloc: Global, nest: &Nest) -> Result<Items<Origin>, AllocError>
    requires { SizeIsOk nest.now }
    ensures { IfOk result (HasOrigins nest.now (read_total nest.now)) }
{
    let mut points = None;
    let mut sources = Items::new(alloc);
    for statement in 0..nest.statements.len() {
        add_origins(alloc, nest, &mut points, statement as u32, &mut sources)?;
    }
    Ok(sources)
}
