ghost use Rattle.std.specs.Prelude.{◌≡◌, IfOk};
ghost use Rattle.tree_trim.specs.Trees.{proofs_without};
ghost use Rattle.tree_trim.specs.Parts.{ArePartsOf};
ghost use Rattle.tree_trim.specs.declared.parts.Parts.TheVariants.{Leaf as LeafOf};

use crate::renumbering::{Renumbering, renumbered};
use affine_core::{KeptForm, KeptNumber};
use int_polyhedra::Proof;
use plain_data::{Boxed, Items};
use source_tree::Tree;
use std::alloc::{AllocError, Global};

/// A tree taken apart, once a row of its context is away: a test and its two trees as they were, or a leaf without the row.
/// All parts stand in boxes or few bytes, so that a level of a tree takes little of the stack.
#[derive(Drop)]
pub enum Parts {
    Test(KeptForm, Boxed<Tree>, Boxed<Tree>),
    Divides(KeptForm, KeptNumber, Boxed<Tree>, Boxed<Tree>),
    Leaf(Boxed<Tree>),
}

/// The proofs once this row is away.
fn proofs_without(alloc: Global, proofs: Items<Proof>, row: u32) -> Result<Items<Proof>, AllocError>
    ensures { IfOk result (λ others. others ≡ proofs_without row proofs) }
{
    let mut others = Items::new(alloc);
    for proof in proofs.into_vec() {
        others.push(renumbered(alloc, proof, Renumbering::Without(row))?)?;
    }
    Ok(others)
}

fn leaf(alloc: Global, tree: Tree) -> Result<Parts, AllocError>
    ensures { IfOk result (λ parts. parts ≡ LeafOf tree) }
{
    Ok(Parts::Leaf(Boxed::new(alloc, tree)?))
}

/// The parts of a tree. It is not inlined, so that a level of a tree takes less stack.
#[inline(never)]
pub fn parts_of(alloc: Global, tree: Boxed<Tree>, row: u32) -> Result<Parts, AllocError>
    ensures { IfOk result (ArePartsOf row tree) }
{
    match tree.into_inner() {
        Tree::Test(form, yes, no) => Ok(Parts::Test(form, yes, no)),
        Tree::Divides(form, divisor, yes, no) => Ok(Parts::Divides(form, divisor, yes, no)),
        Tree::Writer(statement, place, proofs) => match proofs_without(alloc, proofs, row) {
            Ok(proofs) => leaf(alloc, Tree::Writer(statement, place, proofs)),
            Err(error) => {
                drop(place);
                Err(error)
            }
        },
        Tree::Zero(proofs) => leaf(alloc, Tree::Zero(proofs_without(alloc, proofs, row)?)),
        Tree::Dead(proof) => {
            let proof = renumbered(alloc, proof, Renumbering::Without(row))?;
            leaf(alloc, Tree::Dead(proof))
        }
    }
}
