//! Proofs put together from their parts.

ghost use Rattle.std.specs.Prelude.{◌≡◌, IfOk};
ghost use Rattle.int_polyhedra.specs.declared.system.Proof.TheViews.{Cut as CutOf, Split as SplitOf};

use crate::system::{Proof, Term};
use affine_core::{KeptForm, KeptNumber};
use plain_data::{Boxed, Items};
use std::alloc::{AllocError, Global};

/// A Cut by this divisor of the sum of these terms, and then the rest of a proof, or want of memory. It takes two boxes, and
/// one for a divisor of more than 64 bits.
pub fn by_cut(
    alloc: Global,
    divisor: i128,
    terms: Items<Term>,
    rest: Proof,
) -> Result<Proof, AllocError>
    ensures { IfOk result (λ proof. proof ≡ CutOf divisor terms rest) }
{
    let divisor = KeptNumber::of(alloc, divisor)?;
    let terms = Boxed::new(alloc, terms)?;
    Ok(Proof::Cut(divisor, terms, Boxed::new(alloc, rest)?))
}

/// A Split by this form, with the proof where it is at least 0 and the one where it isn't, or want of memory. It takes a box
/// for each of the two.
pub fn by_split(alloc: Global, form: KeptForm, yes: Proof, no: Proof) -> Result<Proof, AllocError>
    ensures { IfOk result (λ proof. proof ≡ SplitOf form yes no) }
{
    let yes = Boxed::new(alloc, yes)?;
    Ok(Proof::Split(form, yes, Boxed::new(alloc, no)?))
}
