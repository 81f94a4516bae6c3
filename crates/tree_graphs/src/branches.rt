ghost use Rattle.std.specs.Prelude.{◌≡◌, IfOk};

use affine_core::{Form, KeptForm};
use plain_data::Boxed;
use source_tree::Tree;
use std::alloc::{AllocError, Global};

/// The Test of a form, its first tree and its second. It takes a box for each of the two, and what the form takes to keep.
pub fn test(alloc: Global, form: Form, yes: Tree, no: Tree) -> Result<Tree, AllocError>
    ensures { IfOk result (λ tree. tree ≡ Tree.Test form yes no) }
{
    let form = KeptForm::of(alloc, &form)?;
    let yes = Boxed::new(alloc, yes)?;
    Ok(Tree::Test(form, yes, Boxed::new(alloc, no)?))
}
