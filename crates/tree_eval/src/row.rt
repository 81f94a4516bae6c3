ghost use Rattle.std.specs.Prelude.{◌<◌, ◌≤ℤ◌, ◌+ℤ◌, ℕ, length, pos, IfSome, IsTrue};
ghost use Rattle.source_tree.specs.Walk.{is_ready};
ghost use Rattle.tree_eval.specs.Stretches.{IsRow, turn_limit};

use crate::leaf::{Leaf, append_lines};
use crate::line::{line_of, turns_on_side};
use affine_core::Vector;
use source_tree::Tree;
use std::alloc::Global;

/// What a tree gives from the first turn of the innermost loop on, for so many turns after it.
#[derive(Drop)]
pub(crate) struct Row {
    pub(crate) turns: i64,
    pub(crate) leaf: Leaf,
}

/// Follows the tree along the innermost loop, as far as it takes the same path, and for so many turns at most. There is no
/// row where the path has a Divides, or a number on it that isn't small.
pub(crate) fn follow_row(
    alloc: Global,
    tree: &Tree,
    outer: &[i64],
    first: i64,
    turns: i64,
) -> Option<Row>
    requires ready { (depth variables : ℕ) × IsTrue (is_ready depth tree.now variables) }
    requires not_negative { pos 0 ≤ℤ turns }
    requires few { turns ≤ℤ pos turn_limit }
    requires short { length outer.now < 6 }
    ensures { IfSome result (IsRow tree.now outer.now first turns) }
{
    match tree {
        Tree::Test(form, yes, no) => {
            let line = line_of(form, outer, first)?;
            let turns = turns_on_side(line, turns);
            if line.value >= 0 {
                follow_row(alloc, yes.get(), outer, first, turns)
            } else {
                follow_row(alloc, no.get(), outer, first, turns)
            }
        }
        Tree::Divides(_, _, _, _) => None,
        Tree::Writer(statement, forms, _) => {
            let mut starts = Vector::empty(alloc);
            let mut steps = Vector::empty(alloc);
            if append_lines(forms.as_slice(), outer, first, &mut starts, &mut steps) {
                Some(Row {
                    turns,
                    leaf: Leaf::Writer(*statement, starts, steps),
                })
            } else {
                None
            }
        }
        Tree::Zero(_) => Some(Row {
            turns,
            leaf: Leaf::Zero,
        }),
        Tree::Dead(_) => Some(Row {
            turns,
            leaf: Leaf::Dead,
        }),
    }
}
