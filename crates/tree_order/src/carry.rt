ghost use Rattle.std.specs.Prelude.{◌≡◌, ◌<◌, ◌+◌, ◌^◌, ◌++◌, List, IfOk, OnOk};
ghost use Rattle.int_polyhedra.specs.declared.system.Term.{Term as TermOf};
ghost use Rattle.tree_graphs.specs.Joint.{IsSum};
ghost use Rattle.tree_order.specs.Positions.{own_sums};
ghost use Rattle.tree_sums.specs.Carried.{carried_terms, sum_in_place, CarryFits, ProductsFit};
ghost use Rattle.tree_sums.specs.Parts.{term_products};

use int_polyhedra::{Proof, Term};
use plain_data::Items;
use std::alloc::{AllocError, Global};
use tree_graphs::once;
use tree_sums::{append_place, carry};

/// The same lists of terms.
pub fn copy_rows(alloc: Global, rows: &[Items<Term>]) -> Result<Items<Items<Term>>, AllocError>
    ensures { IfOk result (λ copies. copies ≡ rows.now) }
{
    let mut copies = Items::new(alloc);
    for terms in rows {
        copies.push(Items::from_slice(alloc, terms.as_slice())?)?;
    }
    Ok(copies)
}

/// The first so many rows from this number on, each shown by itself.
pub fn own_rows(alloc: Global, first: u32, count: usize) -> Result<Items<Items<Term>>, AllocError>
    requires { first + count < 2 ^ 32 }
    ensures { IfOk result (λ rows. rows ≡ own_sums first count) }
{
    let mut rows = Items::new(alloc);
    push_own_rows(&mut rows, alloc, first, count)?;
    Ok(rows)
}

fn push_own_rows(
    rows: &mut Items<Items<Term>>,
    alloc: Global,
    first: u32,
    count: usize,
) -> Result<(), AllocError>
    requires { first + count < 2 ^ 32 }
    ensures { OnOk result (rows.new ≡ rows.old ++ own_sums first count) }
{
    for i in 0..count {
        rows.push(once(alloc, first + i as u32)?)?;
    }
    Ok(())
}

/// Per row of a system of a candidate the terms that show it in the joined system: for the rows of its own context these,
/// and for so many further rows those in their places behind the joined context, which has so many rows.
pub fn places(
    alloc: Global,
    rows: &[Items<Term>],
    here: u32,
    further: usize,
) -> Result<Items<Items<Term>>, AllocError>
    requires { here + further < 2 ^ 32 }
    ensures { IfOk result (λ sums. sums ≡ rows.now ++ own_sums here further) }
{
    let mut sums = copy_rows(alloc, rows)?;
    push_own_rows(&mut sums, alloc, here, further)?;
    Ok(sums)
}

// Adds what is in place of one row, a number of times.
fn push_place(
    out: &mut Items<Term>,
    rows: &[Items<Term>],
    here: u32,
    further: usize,
    by: i128,
    row: u32,
) -> Result<(), AllocError>
    requires few { here + further < 2 ^ 32 }
    requires fit { ProductsFit by (sum_in_place (rows.now ++ own_sums here further) row) }
    ensures { OnOk result (out.new
        ≡ out.old ++ term_products by (sum_in_place (rows.now ++ own_sums here further) row)) }
{
    let at = row as usize;
    if at < rows.len() {
        return append_place(out, rows, by, row);
    }
    let behind = at - rows.len();
    if behind < further {
        return out.push(Term {
            row: here + behind as u32,
            times: by,
        });
    }
    Ok(())
}

// Adds the terms with what is in place of their rows.
fn push_behind(
    out: &mut Items<Term>,
    rows: &[Items<Term>],
    here: u32,
    further: usize,
    terms: &[Term],
) -> Result<(), AllocError>
    requires few { here + further < 2 ^ 32 }
    requires fit { CarryFits (rows.now ++ own_sums here further) terms.now }
    ensures { OnOk result (out.new ≡ out.old
        ++ carried_terms (sum_in_place (rows.now ++ own_sums here further)) terms.now) }
{
    let Some((term, terms)) = terms.split_first() else {
        return Ok(());
    };
    push_place(out, rows, here, further, term.times, term.row)?;
    push_behind(out, rows, here, further, terms)
}

/// The terms of a system of a candidate in the joined system: those that show its row in place of each of the first rows, and
/// for so many further rows those in their places behind the joined context, which has `here` rows.
pub fn carried_behind(
    alloc: Global,
    rows: &[Items<Term>],
    here: u32,
    further: usize,
    terms: &[Term],
) -> Result<Items<Term>, AllocError>
    requires few { here + further < 2 ^ 32 }
    requires fit { CarryFits (rows.now ++ own_sums here further) terms.now }
    ensures { IfOk result (λ out. out
        ≡ carried_terms (sum_in_place (rows.now ++ own_sums here further)) terms.now) }
{
    let mut out = Items::new(alloc);
    push_behind(&mut out, rows, here, further, terms)?;
    Ok(out)
}

/// The proof, where each row of its system has these terms in its place. A candidate's proofs are Sums.
pub fn carried(alloc: Global, sums: &[Items<Term>], proof: &Proof) -> Result<Proof, AllocError>
    requires { (ts : List TermOf) × (proof.now ≡ Proof.Sum ts) × CarryFits sums.now ts }
    ensures terms { IfOk result (λ carried. (ts : List TermOf) → proof.now ≡ Proof.Sum ts
        → carried ≡ Proof.Sum (carried_terms (sum_in_place sums.now) ts)) }
    ensures sum { IfOk result IsSum }
{
    match proof {
        Proof::Sum(terms) => Ok(Proof::Sum(carry(alloc, sums, terms.as_slice())?)),
        _ => unreachable!(),
    }
}
