ghost use Rattle.std.specs.Prelude.{◌≡◌, IfOk};
ghost use Rattle.tree_trim.specs.Renumbering.{number_behind, number_by, number_without, proof_by, term_by, terms_by};

use int_polyhedra::{Proof, Term, by_cut, by_split};
use plain_data::Items;
use std::alloc::{AllocError, Global};

/// How the rows of a proof's system are numbered anew.
#[derive(Clone, Copy)]
pub enum Renumbering {
    /// The row of this number is away: each row behind it has the number before.
    Without(u32),
    /// The row of the first number is moved behind the others, where it has the second: each row between has the number
    /// before.
    Behind(u32, u32),
}

fn number_without(number: u32, away: u32) -> u32
    ensures { result ≡ number_without away number }
{
    if away < number { number - 1 } else { number }
}

fn number_behind(number: u32, row: u32, last: u32) -> u32
    ensures { result ≡ number_behind row last number }
{
    if number < row || last < number {
        return number;
    }
    if number == row {
        return last;
    }
    number - 1
}

// The new number of a row.
fn number_by(number: u32, renumbering: Renumbering) -> u32
    ensures { result ≡ number_by renumbering number }
{
    match renumbering {
        Renumbering::Without(away) => number_without(number, away),
        Renumbering::Behind(row, last) => number_behind(number, row, last),
    }
}

fn term_by(term: Term, renumbering: Renumbering) -> Term
    ensures { result ≡ term_by renumbering term }
{
    Term {
        row: number_by(term.row, renumbering),
        times: term.times,
    }
}

fn renumber(terms: &mut [Term], renumbering: Renumbering)
    ensures { terms.new ≡ terms_by renumbering terms.old }
{
    for term in terms.iter_mut() {
        *term = term_by(*term, renumbering);
    }
}

// The terms with the new numbers, in their own memory.
fn terms_by(terms: Items<Term>, renumbering: Renumbering) -> Items<Term>
    ensures { result ≡ terms_by renumbering terms }
{
    let mut terms = terms.into_vec();
    renumber(terms.as_mut_slice(), renumbering);
    Items::from_vec(terms)
}

/// The proof with the new numbers. Where a row is away that no step names, the proof refutes the rows without it as it refuted
/// them with it. Terms and forms stay in their own memory; each Cut and Split takes its boxes anew.
pub fn renumbered(
    alloc: Global,
    proof: Proof,
    renumbering: Renumbering,
) -> Result<Proof, AllocError>
    ensures { IfOk result (λ other. other ≡ proof_by renumbering proof) }
{
    match proof {
        Proof::Sum(terms) => Ok(Proof::Sum(terms_by(terms, renumbering))),
        Proof::Cut(divisor, terms, rest) => {
            match renumbered(alloc, rest.into_inner(), renumbering) {
                Ok(rest) => {
                    let divisor = divisor.get();
                    let terms = terms_by(terms.into_inner(), renumbering);
                    by_cut(alloc, divisor, terms, rest)
                }
                Err(error) => {
                    drop(divisor);
                    drop(terms);
                    Err(error)
                }
            }
        }
        Proof::Split(form, yes, no) => match renumbered(alloc, yes.into_inner(), renumbering) {
            Ok(yes) => match renumbered(alloc, no.into_inner(), renumbering) {
                Ok(no) => by_split(alloc, form, yes, no),
                Err(error) => {
                    drop(form);
                    drop(yes);
                    Err(error)
                }
            },
            Err(error) => {
                drop(form);
                drop(no);
                Err(error)
            }
        },
    }
}
