ghost use Rattle.std.specs.Prelude.{IsTrue};
ghost use Rattle.tree_bounds.specs.Bounds.{NeverOverflows};

use crate::forms::{all_have_values, has_values, value_bound};
use source_tree::Tree;

/// Whether the sizes of its numbers tell that no form of a tree leaves 128 bits, where the loops' values are no further than
/// `limit` from 0. No point is looked at. It takes no memory, and its stack grows with the depth of the tree.
pub fn stays_within(tree: &Tree, limit: u128) -> bool
    ensures { IsTrue result → NeverOverflows limit tree.now }
{
    match tree {
        Tree::Test(form, yes, no) => {
            if !has_values(form, limit) {
                return false;
            }
            if stays_within(yes.get(), limit) {
                stays_within(no.get(), limit)
            } else {
                false
            }
        }
        Tree::Divides(form, _, yes, no) => {
            let Some(bound) = value_bound(form, limit) else {
                return false;
            };
            let wider = limit.max(bound);
            if stays_within(yes.get(), wider) {
                stays_within(no.get(), wider)
            } else {
                false
            }
        }
        Tree::Writer(_, place, _) => all_have_values(place.as_slice(), limit),
        Tree::Zero(_) => true,
        Tree::Dead(_) => true,
    }
}
