ghost use Rattle.std.specs.Prelude.{◌≤◌, IfOk};
ghost use Rattle.tree_order.specs.declared.candidates.Candidate.{Candidate as CandidateOf};
ghost use Rattle.tree_graphs.specs.Heights.{height_of};
ghost use Rattle.tree_order.specs.Positions.{IsNode};

use int_polyhedra::Term;
use plain_data::Items;
use source_tree::Tree;
use std::alloc::AllocError;
use tree_graphs::{Context, Sign, opposite, sign_of};

/// A node of a candidate's tree, and per row of the candidate's own context there the terms that show it in the joined
/// context.
#[derive(Drop)]
pub struct Followed<'a> {
    pub node: &'a Tree,
    pub rows: Items<Items<Term>>,
}

/// Follows a candidate's tree as far as the joined context tells which tree a Test takes.
pub fn follow<'a>(
    node: &'a Tree,
    context: &Context,
    mut rows: Items<Items<Term>>,
) -> Result<Followed<'a>, AllocError>
    requires { (c : CandidateOf) × IsNode context.now.system.now c node.now rows }
    ensures node { IfOk result (λ to. (c : CandidateOf)
        → IsNode context.now.system.now c node.now rows
        → IsNode context.now.system.now c to.node.now to.rows) }
    ensures lower { IfOk result (λ to. height_of to.node.now ≤ height_of node.now) }
{
    let Tree::Test(form, yes, no) = node else {
        return Ok(Followed { node, rows });
    };
    let form = form.get();
    match sign_of(context, &form, &opposite(&form))? {
        Sign::AtLeastZero(terms) => {
            rows.push(terms)?;
            follow(yes.get(), context, rows)
        }
        Sign::BelowZero(terms) => {
            rows.push(terms)?;
            follow(no.get(), context, rows)
        }
        Sign::Unknown => Ok(Followed { node, rows }),
    }
}
