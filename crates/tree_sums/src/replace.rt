ghost use Rattle.std.specs.Prelude.{◌≡◌, ◌++◌, OnOk, IfOk};
ghost use Rattle.tree_sums.specs.Parts.{term_products};
ghost use Rattle.tree_sums.specs.Carried.{carried_terms, sum_in_place, CarryFits, ProductsFit};

use int_polyhedra::Term;
use plain_data::Items;
use std::alloc::{AllocError, Global};

fn append_multiplied(out: &mut Items<Term>, by: i128, terms: &[Term]) -> Result<(), AllocError>
    requires fit { ProductsFit by terms.now }
    ensures { OnOk result (out.new ≡ out.old ++ term_products by terms.now) }
{
    let Some((term, rest)) = terms.split_first() else {
        return Ok(());
    };
    out.push(Term {
        row: term.row,
        times: term.times * by,
    })?;
    append_multiplied(out, by, rest)
}

/// Adds the sum in place of one row, a number of times.
pub fn append_place(
    out: &mut Items<Term>,
    sums: &[Items<Term>],
    by: i128,
    row: u32,
) -> Result<(), AllocError>
    requires fit { ProductsFit by (sum_in_place sums.now row) }
    ensures { OnOk result (out.new ≡ out.old ++ term_products by (sum_in_place sums.now row)) }
{
    match sums.get(row as usize) {
        Some(sum) => append_multiplied(out, by, sum.as_slice()),
        None => Ok(()),
    }
}

fn append_carried(
    out: &mut Items<Term>,
    sums: &[Items<Term>],
    terms: &[Term],
) -> Result<(), AllocError>
    requires fit { CarryFits sums.now terms.now }
    ensures { OnOk result (out.new ≡ out.old ++ carried_terms (sum_in_place sums.now) terms.now) }
{
    let Some((term, rest)) = terms.split_first() else {
        return Ok(());
    };
    append_place(out, sums, term.times, term.row)?;
    append_carried(out, sums, rest)
}

/// The terms, with each row replaced by its sum.
pub fn carry(alloc: Global, sums: &[Items<Term>], terms: &[Term]) -> Result<Items<Term>, AllocError>
    requires fit { CarryFits sums.now terms.now }
    ensures { IfOk result (λ out. out ≡ carried_terms (sum_in_place sums.now) terms.now) }
{
    let mut out = Items::new(alloc);
    append_carried(&mut out, sums, terms)?;
    Ok(out)
}
