ghost use Rattle.std.specs.Option.{option_map};
ghost use Rattle.std.specs.Bool.{OnTrue};
ghost use Rattle.std.specs.Prelude.{◌≡◌, ◌+◌, ◌≤◌, ◌++◌, ℕ, Some, length, IfOk, IfSome, IsTrue};
ghost use Rattle.std.specs.Result.{result_ok};
ghost use Rattle.source_tree.specs.Gives.{gives};
ghost use Rattle.source_tree.specs.Walk.{is_ready, map_values, outcome_of};

use affine_core::{KeptForm, Overflow, Vector};
use sanlp::Point;
use source_tree::{Found, Tree, eval};

// Adds the values of a map, if no number leaves 64 bits. It answers whether none does.
fn append_mapped(forms: &[KeptForm], at: &[i64], out: &mut Vector) -> bool
    requires { length out.old + length forms.now ≤ 6 }
    ensures { OnTrue result
        (option_map (λ values. out.old ++ values) (map_values forms.now at.now) ≡ Some out.new) }
{
    let Some((form, forms)) = forms.split_first() else {
        return true;
    };
    let Some(value) = form.eval_in_64_bits(at) else {
        return false;
    };
    out.push(value);
    append_mapped(forms, at, out)
}

// What a tree without Divides on the path gives, if no number leaves 64 bits.
fn follow(tree: &Tree, at: &Vector) -> Option<Found>
    requires { (depth variables : ℕ) × IsTrue (is_ready depth tree.now variables) }
    ensures { IfSome result (λ found. outcome_of tree.now at.now ≡ Some found) }
{
    match tree {
        Tree::Test(form, yes, no) => {
            let value = form.eval_in_64_bits(at.as_slice())?;
            if value >= 0 {
                follow(yes.get(), at)
            } else {
                follow(no.get(), at)
            }
        }
        Tree::Divides(_, _, _, _) => None,
        Tree::Writer(statement, forms, _) => {
            let mut mapped = Vector::empty(at.allocator());
            if append_mapped(forms.as_slice(), at.as_slice(), &mut mapped) {
                Some(Found::At(Point {
                    statement: *statement,
                    at: mapped,
                }))
            } else {
                None
            }
        }
        Tree::Zero(_) => Some(Found::Zero),
        Tree::Dead(_) => Some(Found::Dead),
    }
}

/// What the tree gives at these loop values, as `source_tree::eval` tells it (Feautrier 1991): by numbers of 64 bits, and
/// by those of 128 only where one leaves 64 or the path has a Divides. `Overflow` comes exactly where a form of the path
/// that is taken leaves 128 bits, or a value of the leaf's map 64 bits. It takes no memory.
pub(crate) fn eval_narrow(tree: &Tree, at: &Vector) -> Result<Found, Overflow>
    requires { IsTrue (is_ready (length at.now) tree.now (length at.now)) }
    ensures exact { result_ok result ≡ outcome_of tree.now at.now }
    ensures value { IfOk result (λ found. found ≡ gives tree.now at.now) }
{
    match follow(tree, at) {
        Some(found) => Ok(found),
        None => eval(tree, at),
    }
}
