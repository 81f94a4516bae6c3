ghost use Rattle.std.specs.Prelude.{◌≡◌, ◌≤◌, ◌+◌, ◌*◌, [], ◌∷◌, length, All, IfOk};
ghost use Rattle.source_tree.specs.declared.tree.Tree.TheViews.{Divides as DividesOf};
ghost use Rattle.stride_trees.specs.Strides.{depth_of_read, read_of, IsNoLeaf, IsStrided, IsTested, IsTestOf};

use crate::divisions::Division;
use crate::strides::Strides;
use crate::undivided::{order_row_count, undivided_behind};
use affine_core::{Form, KeptForm, KeptNumber};
use int_polyhedra::Proof;
use plain_data::{Boxed, Items};
use source_tree::Tree;
use std::alloc::{AllocError, Global};

fn zero_leaf(alloc: Global, proof: Proof) -> Result<Tree, AllocError>
    ensures { IfOk result (λ tree. tree ≡ Tree.Zero (proof ∷ [])) }
{
    let mut proofs = Items::new(alloc);
    match proofs.push(proof) {
        Ok(()) => Ok(Tree::Zero(proofs)),
        Err(error) => {
            drop(proofs);
            Err(error)
        }
    }
}

// The test of a form, which is that of a division over the variables of a context, with the trees of its yes and its no.
fn divides(
    alloc: Global,
    form: Form,
    division: &Division,
    yes: Tree,
    no: Tree,
) -> Result<Tree, AllocError>
    ensures { IfOk result (λ tree. tree ≡ DividesOf form division.now.divisor yes no) }
{
    let form = KeptForm::of(alloc, &form)?;
    let divisor = KeptNumber::of(alloc, division.divisor)?;
    let yes = Boxed::new(alloc, yes)?;
    let no = Boxed::new(alloc, no)?;
    Ok(Tree::Divides(form, divisor, yes, no))
}

// The Zero leaf below the no of a test: by two Cuts the loop of its subscript is above the quotient, and no greater.
fn no_leaf(s: &Strides, division: &Division, here: u32) -> Result<Tree, AllocError>
    requires strided { IsStrided s.now }
    requires test { IsTestOf s.now division.now }
    requires here { here ≤ 4096 }
    ensures { IfOk result (IsNoLeaf s.now here division.now) }
{
    let more = order_row_count(s);
    let proof = undivided_behind(s, division, here, here + 2, more)?;
    zero_leaf(s.alloc, proof)
}

/// The tree below these tests of divisibility: each is the yes tree of the one before, and each no tree is a Zero leaf. So
/// many variables and rows has the context before the tests.
pub fn with_tests(
    s: &Strides,
    divisions: &[Division],
    vars: usize,
    here: u32,
    tree: Tree,
) -> Result<Tree, AllocError>
    requires strided { IsStrided s.now }
    requires tests { All (IsTestOf s.now) divisions.now }
    requires vars { depth_of_read s.now ≤ vars }
    requires few { vars + length divisions.now ≤ depth_of_read s.now + 6 }
    requires here { here + 2 * length divisions.now ≤ 4096 }
    ensures { IfOk result (IsTested s.now vars here divisions.now tree) }
{
    let Some((division, divisions)) = divisions.split_first() else {
        return Ok(tree);
    };
    let above = with_tests(s, divisions, vars + 1, here + 2, tree)?;
    match no_leaf(s, division, here) {
        Ok(below) => {
            let form = division.form.widened(vars);
            divides(s.alloc, form, division, above, below)
        }
        Err(error) => {
            drop(above);
            Err(error)
        }
    }
}
