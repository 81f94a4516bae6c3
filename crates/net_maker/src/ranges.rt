ghost use Rattle.std.specs.Prelude.{◌↔◌, All, IsTrue};
ghost use Rattle.std.specs.List.{list_all};
ghost use Rattle.affine_core.specs.Within.{fits_128_bits};
ghost use Rattle.tree_text.specs.TreeText.{FormIsInRange, PlaceIsInRange, ProofIsInRange, ProofsAreInRange, TermIsInRange, TreeIsInRange, TreeIsWithin};

use affine_core::KeptForm;
use cert_lines::NESTING_LIMIT;
use int_polyhedra::{Proof, Term};
use source_tree::Tree;

// What the types of numbers say of forms and terms: these laws do nothing.

fn number_fits(number: i128)
    ensures { IsTrue (fits_128_bits number) }
{}

fn numbers_fit(numbers: &[i128])
    ensures { IsTrue (list_all fits_128_bits numbers.now) }
{
    if let Some((number, numbers)) = numbers.split_first() {
        number_fits(*number);
        numbers_fit(numbers);
    }
}

fn form_fits(form: &KeptForm)
    ensures { FormIsInRange form.now }
{
    let form = form.get();
    number_fits(form.constant);
    numbers_fit(form.coefs.as_slice());
}

fn forms_fit(forms: &[KeptForm])
    ensures { All FormIsInRange forms.now }
{
    if let Some((form, forms)) = forms.split_first() {
        form_fits(form);
        forms_fit(forms);
    }
}

fn term_fits(term: Term)
    ensures { TermIsInRange term }
{}

fn terms_fit(terms: &[Term])
    ensures { All TermIsInRange terms.now }
{
    if let Some((term, terms)) = terms.split_first() {
        term_fits(*term);
        terms_fit(terms);
    }
}

// Whether the proof nests at most so many levels deep.
fn proof_is_within(proof: &Proof, levels: u32) -> bool
    ensures { IsTrue result ↔ ProofIsInRange levels proof.now }
{
    if levels == 0 {
        return false;
    }
    match proof {
        Proof::Sum(terms) => {
            terms_fit(terms.as_slice());
            true
        }
        Proof::Cut(divisor, terms, rest) => {
            let divisor = divisor.get();
            let terms = terms.get();
            number_fits(divisor);
            terms_fit(terms.as_slice());
            proof_is_within(rest.get(), levels - 1)
        }
        Proof::Split(form, above, below) => {
            form_fits(form);
            if proof_is_within(above.get(), levels - 1) {
                proof_is_within(below.get(), levels - 1)
            } else {
                false
            }
        }
    }
}

// Whether each proof nests within the limit.
fn proofs_are_within(proofs: &[Proof]) -> bool
    ensures { IsTrue result ↔ All (ProofIsInRange 512) proofs.now }
{
    let Some((proof, proofs)) = proofs.split_first() else {
        return true;
    };
    if proof_is_within(proof, NESTING_LIMIT) {
        return proofs_are_within(proofs);
    }
    false
}

// Whether a text can tell how many proofs there are, and has each of them.
fn proofs_have_text(proofs: &[Proof]) -> bool
    ensures { IsTrue result ↔ ProofsAreInRange proofs.now }
{
    if proofs.len() > u32::MAX as usize {
        return false;
    }
    proofs_are_within(proofs)
}

// Whether a text can tell how many forms there are.
fn place_has_text(statement: u32, place: &[KeptForm]) -> bool
    ensures { IsTrue result ↔ PlaceIsInRange statement place.now }
{
    forms_fit(place);
    place.len() <= u32::MAX as usize
}

// Whether the tree nests at most so many levels deep, and its leaves can stand in a text.
fn tree_is_within(tree: &Tree, levels: u32) -> bool
    ensures { IsTrue result ↔ TreeIsWithin levels tree.now }
{
    if levels == 0 {
        return false;
    }
    match tree {
        Tree::Test(form, above, below) => {
            form_fits(form);
            if tree_is_within(above.get(), levels - 1) {
                tree_is_within(below.get(), levels - 1)
            } else {
                false
            }
        }
        Tree::Divides(form, divisor, above, below) => {
            form_fits(form);
            let divisor = divisor.get();
            number_fits(divisor);
            if tree_is_within(above.get(), levels - 1) {
                tree_is_within(below.get(), levels - 1)
            } else {
                false
            }
        }
        Tree::Writer(statement, place, proofs) => {
            if place_has_text(*statement, place.as_slice()) {
                proofs_have_text(proofs.as_slice())
            } else {
                false
            }
        }
        Tree::Zero(proofs) => proofs_have_text(proofs.as_slice()),
        Tree::Dead(proof) => proof_is_within(proof, NESTING_LIMIT),
    }
}

/// Whether the tree has a text that can be read. It takes no memory. Its stack grows with the depth of the tree and of its
/// proofs, up to the limit on nesting.
pub(crate) fn has_text(tree: &Tree) -> bool
    ensures { IsTrue result ↔ TreeIsInRange tree.now }
{
    tree_is_within(tree, NESTING_LIMIT)
}
