ghost use Rattle.std.specs.Prelude.{◌≡◌};
ghost use Rattle.tree_trim.specs.Proofs.{names_row, terms_name};

use int_polyhedra::{Proof, Term};

// Whether one of the terms names this row.
fn terms_name(terms: &[Term], row: u32) -> bool
    ensures { result ≡ terms_name row terms.now }
{
    terms.iter().any(|term| term.row == row)
}

/// Whether a step of the proof names the row of this number. It takes no memory, and some fifty bytes of the stack per
/// level of the proof.
pub fn names_row(proof: &Proof, row: u32) -> bool
    ensures { result ≡ names_row row proof.now }
{
    match proof {
        Proof::Sum(terms) => terms_name(terms.as_slice(), row),
        Proof::Cut(_, terms, rest) => {
            if terms_name(terms.get().as_slice(), row) {
                return true;
            }
            names_row(rest.get(), row)
        }
        Proof::Split(_, yes, no) => {
            if names_row(yes.get(), row) {
                return true;
            }
            names_row(no.get(), row)
        }
    }
}
