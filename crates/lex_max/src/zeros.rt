ghost use Rattle.std.specs.Prelude.{◌≡◌, ◌^◌, ◌++◌, [], ◌∷◌, ℕ, List, length, Some, All, IfOk, IfSome};
ghost use Rattle.affine_core.specs.declared.form.Form.{Form as FormOf};
ghost use Rattle.int_polyhedra.specs.declared.system.System.{System as SystemOf};
ghost use Rattle.int_polyhedra.specs.Steps.{negation_of};
ghost use Rattle.tree_graphs.specs.declared.edges.Edge.{Edge as EdgeOf};
ghost use Rattle.tree_graphs.specs.Cycles.{IsContradiction, IsCycle};
ghost use Rattle.tree_graphs.specs.Facts.{form_parts, IsFact};
ghost use Rattle.tree_graphs.specs.Rounds.{IsGraphOf};
ghost use Rattle.lex_max.specs.Answer.{IsAnswer, IsContextOf};
ghost use Rattle.tree_sums.specs.Parts.{IsWithin};

use affine_core::Form;
use int_polyhedra::{Proof, System, Term};
use plain_data::Items;
use source_tree::Tree;
use std::alloc::AllocError;
use tree_graphs::{
    Context, Cycle, Graph, Writes, append, append_from, known, once, opposite, with_row,
};

/// The Zero leaf of a context that shows `-form - 1` by some terms, where the form is the sum of rows on the writer's
/// point.
pub fn zero_leaf(
    w: &Writes,
    context: &System,
    shown: &[Term],
    rows: &[Term],
) -> Result<Tree, AllocError>
    requires context { IsContextOf w.now 0 context.now }
    requires refuted { (edges : List EdgeOf) × IsGraphOf w.now edges
        × IsContradiction context.now.vars context.now.rows edges shown.now rows.now }
    ensures { IfOk result (λ tree. (tests : ℕ) → IsAnswer w.now context.now tests tree) }
{
    let mut terms = Items::new(w.alloc);
    append(&mut terms, shown)?;
    append_from(&mut terms, context.rows.len() as u32, rows)?;
    let mut proofs = Items::new(w.alloc);
    proofs.push(Proof::Sum(terms))?;
    Ok(Tree::Zero(proofs))
}

/// The Zero leaf of the context where a cycle's form is below 0.
pub fn zero_below(graph: &Graph, context: &System, cycle: &Cycle) -> Result<Tree, AllocError>
    requires context { IsContextOf graph.now.writes 1 context.now }
    requires cycle { IsCycle graph.now.writes.vars graph.now.edges.now cycle.now }
    ensures { IfOk result (λ tree. (below : SystemOf) (row : FormOf) (tests : ℕ)
        → negation_of cycle.now.form ≡ Some row
        → below ≡ record context.now { rows = context.now.rows ++ row ∷ [] }
        → IsAnswer graph.now.writes below tests tree) }
{
    let own = once(graph.writes.alloc, context.rows.len() as u32)?;
    let row = opposite(&cycle.form);
    let below = with_row(context, row)?;
    zero_leaf(
        &graph.writes,
        &below,
        own.as_slice(),
        cycle.terms.as_slice(),
    )
}

// Terms that show `-form - 1`, if the form is known to be below 0.
fn known_below(context: &Context, form: &Form) -> Result<Option<Items<Term>>, AllocError>
    requires over { length form.now.coefs ≡ context.now.system.now.vars }
    requires small { IsWithin (2 ^ 60) form.now }
    ensures { IfOk result (λ found. IfSome found (λ terms. (row : FormOf)
        → negation_of form.now ≡ Some row
        → IsFact context.now.system.now 65536 (form_parts row) terms)) }
{
    let row = opposite(form);
    known(context, &row)
}

/// The Zero leaf by a cycle, if it is known to be below 0.
pub fn refuted_by(
    graph: &Graph,
    context: &System,
    cycle: &Cycle,
) -> Result<Option<Tree>, AllocError>
    requires context { IsContextOf graph.now.writes 0 context.now }
    requires cycle { IsCycle graph.now.writes.vars graph.now.edges.now cycle.now }
    ensures { IfOk result (λ leaf. IfSome leaf (λ tree. (tests : ℕ)
        → IsAnswer graph.now.writes context.now tests tree)) }
{
    let here = Context { system: context };
    match known_below(&here, &cycle.form)? {
        Some(shown) => {
            let leaf = zero_leaf(
                &graph.writes,
                context,
                shown.as_slice(),
                cycle.terms.as_slice(),
            );
            drop(shown);
            Ok(Some(leaf?))
        }
        None => Ok(None),
    }
}

/// The Zero leaf by the first cycle that is known to be below 0, if there is one.
pub fn refuted_leaf(
    graph: &Graph,
    context: &System,
    cycles: &[Cycle],
) -> Result<Option<Tree>, AllocError>
    requires context { IsContextOf graph.now.writes 0 context.now }
    requires cycles { All (IsCycle graph.now.writes.vars graph.now.edges.now) cycles.now }
    ensures { IfOk result (λ leaf. IfSome leaf (λ tree. (tests : ℕ)
        → IsAnswer graph.now.writes context.now tests tree)) }
{
    let Some((cycle, cycles)) = cycles.split_first() else {
        return Ok(None);
    };
    match refuted_by(graph, context, cycle)? {
        Some(leaf) => Ok(Some(leaf)),
        None => refuted_leaf(graph, context, cycles),
    }
}
