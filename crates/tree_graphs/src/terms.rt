ghost use Rattle.std.specs.Prelude.{◌≡◌, ◌<◌, ◌+◌, ◌^◌, [], ◌∷◌, ◌++◌, All, IfOk, OnOk};
ghost use Rattle.tree_graphs.specs.Paths.{term_of, terms_from};

use int_polyhedra::{Proof, Term};
use plain_data::Items;
use std::alloc::{AllocError, Global};

/// One row, once.
pub fn once(alloc: Global, row: u32) -> Result<Items<Term>, AllocError>
    ensures { IfOk result (λ terms. terms ≡ term_of row ∷ []) }
{
    let mut terms = Items::new(alloc);
    terms.push(Term { row, times: 1 })?;
    Ok(terms)
}

/// Adds terms at the end.
pub fn append(out: &mut Items<Term>, terms: &[Term]) -> Result<(), AllocError>
    ensures { OnOk result (out.new ≡ out.old ++ terms.now) }
{
    let Some((term, terms)) = terms.split_first() else {
        return Ok(());
    };
    out.push(*term)?;
    append(out, terms)
}

/// Adds terms at the end, whose row numbers are counted from this one on.
pub fn append_from(out: &mut Items<Term>, first: u32, terms: &[Term]) -> Result<(), AllocError>
    requires { All (λ t. first + t.row < 2 ^ 32) terms.now }
    ensures { OnOk result (out.new ≡ out.old ++ terms_from first terms.now) }
{
    let Some((term, terms)) = terms.split_first() else {
        return Ok(());
    };
    out.push(Term {
        row: first + term.row,
        times: term.times,
    })?;
    append_from(out, first, terms)
}

/// Terms one after the other.
pub fn joined(alloc: Global, first: &[Term], second: &[Term]) -> Result<Items<Term>, AllocError>
    ensures { IfOk result (λ terms. terms ≡ first.now ++ second.now) }
{
    let mut terms = Items::new(alloc);
    append(&mut terms, first)?;
    append(&mut terms, second)?;
    Ok(terms)
}

/// The Sum of terms and one more row, once.
pub fn sum_with_row(alloc: Global, terms: &[Term], row: u32) -> Result<Proof, AllocError>
    ensures { IfOk result (λ proof. proof ≡ Proof.Sum (terms.now ++ term_of row ∷ [])) }
{
    let mut all = Items::from_slice(alloc, terms)?;
    all.push(Term { row, times: 1 })?;
    Ok(Proof::Sum(all))
}
