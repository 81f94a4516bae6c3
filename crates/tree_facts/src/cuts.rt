ghost use Rattle.std.specs.Prelude.{◌≡◌, ◌<◌, ◌+◌, ◌^◌, [], ◌∷◌, ◌++◌, length, map, IfOk, OnOk};
ghost use Rattle.tree_facts.specs.Cuts.{proof_by_cut, proof_by_cuts};

use int_polyhedra::{Proof, by_cut};
use plain_data::Items;
use std::alloc::{AllocError, Global};
use tree_cuts::Cut;
use tree_trim::{Renumbering, names_row, renumbered};

// The proof of a system with the row of this number, as one of the system without it, to which the Cut adds that row: the
// Cut and then the proof, or where no step names the row, the proof alone.
fn proof_by_cut(
    alloc: Global,
    cut: &Cut,
    row: u32,
    last: u32,
    proof: Proof,
) -> Result<Proof, AllocError>
    ensures { IfOk result (λ own. own ≡ proof_by_cut row last cut.now proof) }
{
    if !names_row(&proof, row) {
        return renumbered(alloc, proof, Renumbering::Without(row));
    }
    let rest = renumbered(alloc, proof, Renumbering::Behind(row, last))?;
    match Items::from_slice(alloc, cut.terms.as_slice()) {
        Ok(terms) => by_cut(alloc, cut.divisor, terms, rest),
        Err(error) => {
            drop(rest);
            Err(error)
        }
    }
}

/// The proof of a system with facts, which stand in it from this number on, as one of the system of so many rows without
/// them: the Cuts whose rows it names, and then the same steps.
pub fn proof_by_cuts(
    alloc: Global,
    cuts: &[Cut],
    row: u32,
    rows: u32,
    proof: Proof,
) -> Result<Proof, AllocError>
    requires few { rows + length cuts.now < 2 ^ 32 }
    requires inside { row + length cuts.now < 2 ^ 32 }
    ensures { IfOk result (λ own. own ≡ proof_by_cuts row rows cuts.now proof) }
{
    let Some((cut, cuts)) = cuts.split_first() else {
        return Ok(proof);
    };
    let rest = proof_by_cuts(alloc, cuts, row + 1, rows + 1, proof)?;
    proof_by_cut(alloc, cut, row, rows, rest)
}

fn push_by_cuts(
    out: &mut Items<Proof>,
    cuts: &[Cut],
    row: u32,
    rows: u32,
    proof: Proof,
) -> Result<(), AllocError>
    requires few { rows + length cuts.now < 2 ^ 32 }
    requires inside { row + length cuts.now < 2 ^ 32 }
    ensures { OnOk result (out.new ≡ out.old ++ proof_by_cuts row rows cuts.now proof ∷ []) }
{
    let own = proof_by_cuts(out.allocator(), cuts, row, rows, proof)?;
    out.push(own)
}

/// The same of proofs of systems that have so many rows each without the facts.
pub fn proofs_by_cuts(
    alloc: Global,
    cuts: &[Cut],
    row: u32,
    rows: u32,
    proofs: Items<Proof>,
) -> Result<Items<Proof>, AllocError>
    requires few { rows + length cuts.now < 2 ^ 32 }
    requires inside { row + length cuts.now < 2 ^ 32 }
    ensures { IfOk result (λ own. own ≡ map (proof_by_cuts row rows cuts.now) proofs) }
{
    let mut own = Items::new(alloc);
    for proof in proofs.into_vec() {
        push_by_cuts(&mut own, cuts, row, rows, proof)?;
    }
    Ok(own)
}
