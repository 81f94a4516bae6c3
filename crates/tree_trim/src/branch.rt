ghost use Rattle.std.specs.Prelude.{◌≡◌, List, IfOk};
ghost use Rattle.affine_core.specs.declared.form.Form.{Form as FormOf};
ghost use Rattle.tree_graphs.specs.Joint.{IsTreeFor, ReadAndWrite};
ghost use Rattle.int_polyhedra.specs.declared.system.System.{System as SystemOf};
ghost use Rattle.source_tree.specs.declared.tree.Tree.TheViews.{Divides as DividesOf, Test as TestOf};
ghost use Rattle.tree_trim.specs.Sides.{AreJoinedSides, IsJoinedBranch};
ghost use Rattle.tree_trim.specs.Trees.{branch_or_test, proofs_name, tree_names_row, tree_without};

use crate::parts::{Parts, parts_of};
use crate::refutation::names_row;
use affine_core::{Form, KeptForm, KeptNumber};
use int_polyhedra::Proof;
use plain_data::Boxed;
use source_tree::Tree;
use std::alloc::{AllocError, Global};

// Whether one of the proofs names this row.
fn proofs_name(proofs: &[Proof], row: u32) -> bool
    ensures { result ≡ proofs_name row proofs.now }
{
    proofs.iter().any(|proof| names_row(proof, row))
}

/// Whether a proof of the tree names the row of this number of the tree's context. It takes no memory, and some fifty bytes
/// of the stack per level of the tree.
pub fn tree_names_row(tree: &Tree, row: u32) -> bool
    ensures { result ≡ tree_names_row row tree.now }
{
    match tree {
        Tree::Test(_, yes, no) => {
            if tree_names_row(yes.get(), row) {
                return true;
            }
            tree_names_row(no.get(), row)
        }
        Tree::Divides(_, _, yes, no) => {
            if tree_names_row(yes.get(), row) {
                return true;
            }
            tree_names_row(no.get(), row)
        }
        Tree::Writer(_, _, proofs) => proofs_name(proofs.as_slice(), row),
        Tree::Zero(proofs) => proofs_name(proofs.as_slice(), row),
        Tree::Dead(proof) => names_row(proof, row),
    }
}

#[inline(never)]
fn test(
    alloc: Global,
    form: KeptForm,
    yes: Boxed<Tree>,
    no: Boxed<Tree>,
) -> Result<Boxed<Tree>, AllocError>
    ensures { IfOk result (λ tree. tree ≡ TestOf form yes no) }
{
    Boxed::new(alloc, Tree::Test(form, yes, no))
}

#[inline(never)]
fn divides(
    alloc: Global,
    form: KeptForm,
    divisor: KeptNumber,
    yes: Boxed<Tree>,
    no: Boxed<Tree>,
) -> Result<Boxed<Tree>, AllocError>
    ensures { IfOk result (λ tree. tree ≡ DividesOf form divisor yes no) }
{
    Boxed::new(alloc, Tree::Divides(form, divisor, yes, no))
}

/// The tree once the row of this number of its context is away. The terms of its proofs stay in their own memory; each node
/// takes a box again. Its stack grows with the depth of the tree, by 0.9 KB per level, as much as letting go of a tree takes.
pub fn tree_without(alloc: Global, tree: Boxed<Tree>, row: u32) -> Result<Boxed<Tree>, AllocError>
    ensures { IfOk result (λ other. other ≡ tree_without row tree) }
{
    let parts = parts_of(alloc, tree, row)?;
    match parts {
        Parts::Test(form, yes, no) => match tree_without(alloc, yes, row) {
            Ok(yes) => match tree_without(alloc, no, row) {
                Ok(no) => test(alloc, form, yes, no),
                Err(error) => {
                    drop(form);
                    drop(yes);
                    Err(error)
                }
            },
            Err(error) => {
                drop(form);
                drop(no);
                Err(error)
            }
        },
        Parts::Divides(form, divisor, yes, no) => match tree_without(alloc, yes, row) {
            Ok(yes) => match tree_without(alloc, no, row) {
                Ok(no) => divides(alloc, form, divisor, yes, no),
                Err(error) => {
                    drop(form);
                    drop(yes);
                    Err(error)
                }
            },
            Err(error) => {
                drop(form);
                drop(no);
                Err(error)
            }
        },
        Parts::Leaf(leaf) => Ok(leaf),
    }
}

/// A branch of a Test once the Test's row is away, which is the row of this number of the branch's context. Of a branch that is
/// checked there for some reads and writes, and none of whose proofs names that row, the tree is checked for them where the
/// Test stands, whatever the other branch is. It takes memory and stack as `tree_without` does.
pub fn branch_without(alloc: Global, tree: Tree, row: u32) -> Result<Tree, AllocError>
    ensures tree { IfOk result (λ other. other ≡ tree_without row tree) }
    ensures joined { IfOk result (λ other. (pairs : List ReadAndWrite) (context : SystemOf)
        (form : FormOf) → IsJoinedBranch pairs context row form tree
        → IsTreeFor pairs context other) }
{
    let tree = Boxed::new(alloc, tree)?;
    let other = tree_without(alloc, tree, row)?;
    Ok(other.into_inner())
}

fn branch_or_test(
    alloc: Global,
    form: &Form,
    yes: Tree,
    no: Tree,
    row: u32,
) -> Result<Tree, AllocError>
    ensures { IfOk result (λ tree. tree ≡ branch_or_test row form.now yes no) }
{
    if !tree_names_row(&yes, row) {
        drop(no);
        return branch_without(alloc, yes, row);
    }
    if !tree_names_row(&no, row) {
        drop(yes);
        return branch_without(alloc, no, row);
    }
    tree_graphs::test(alloc, form.copy(), yes, no)
}

/// The tree of a Test from its two branches, where the Test's row has this number in their contexts. A branch none of whose
/// proofs names that row holds without it, and stands in the Test's place: the first one, or else the second. Where both
/// name it, the Test stays. Of branches that are checked in their contexts the tree is checked in the Test's.
pub fn trim_test(
    alloc: Global,
    form: &Form,
    yes: Tree,
    no: Tree,
    row: u32,
) -> Result<Tree, AllocError>
    ensures tree { IfOk result (λ tree. tree ≡ branch_or_test row form.now yes no) }
    ensures joined { IfOk result (λ tree. (pairs : List ReadAndWrite) (context : SystemOf)
        → AreJoinedSides pairs context row form.now yes no → IsTreeFor pairs context tree) }
{
    branch_or_test(alloc, form, yes, no, row)
}
