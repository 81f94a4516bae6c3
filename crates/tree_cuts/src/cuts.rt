ghost use Rattle.std.specs.Prelude.{◌≡◌, ◌<◌, ◌+◌, ◌^◌, ◌++◌, length, slice_index_or, IfOk, OnOk};
ghost use Rattle.std.specs.List.{range_with_len};
ghost use Rattle.tree_cuts.specs.Cuts.{after_cuts, converted_sum, cuts_of, numbers_from, renumbered};
ghost use Rattle.tree_cuts.specs.Sources.{own_sources};

use int_polyhedra::{Proof, Term, by_cut};
use plain_data::Items;
use std::alloc::{AllocError, Global};

/// A Cut of a system: it adds the sum of the rows with these multipliers, divided by the divisor.
#[derive(Drop)]
pub struct Cut {
    pub divisor: i128,
    pub terms: Items<Term>,
}

/// Where a row comes from: it is a row of a system, or one that a Cut of it adds.
#[derive(Drop)]
pub enum Source {
    Own(u32),
    Added(Cut),
}

// The Cuts among the sources, and then the rest of a proof.
fn with_cuts(alloc: Global, sources: &[Source], rest: Proof) -> Result<Proof, AllocError>
    ensures { IfOk result (λ proof. proof ≡ after_cuts (cuts_of sources.now) rest) }
{
    let Some((source, sources)) = sources.split_first() else {
        return Ok(rest);
    };
    let more = with_cuts(alloc, sources, rest)?;
    match source {
        Source::Own(_) => Ok(more),
        Source::Added(cut) => {
            let terms = Items::from_slice(alloc, cut.terms.as_slice())?;
            by_cut(alloc, cut.divisor, terms, more)
        }
    }
}

// Adds the numbers of the rows behind the Cuts, of which the next has this number.
fn push_numbers(numbers: &mut Items<u32>, sources: &[Source], next: u32) -> Result<(), AllocError>
    requires { next + length sources.now < 2 ^ 32 }
    ensures { OnOk result (numbers.new ≡ numbers.old ++ numbers_from next sources.now) }
{
    let Some((source, sources)) = sources.split_first() else {
        return Ok(());
    };
    match source {
        Source::Own(row) => {
            numbers.push(*row)?;
            push_numbers(numbers, sources, next)
        }
        Source::Added(_) => {
            numbers.push(next)?;
            push_numbers(numbers, sources, next + 1)
        }
    }
}

fn number_at(numbers: &[u32], row: u32) -> u32
    ensures { result ≡ slice_index_or numbers.now row 0 }
{
    match numbers.get(row as usize) {
        Some(number) => *number,
        None => 0,
    }
}

// The number of a row, where the first so many rows keep their own.
fn number_of(numbers: &[u32], here: u32, row: u32) -> u32
    ensures { result ≡ slice_index_or (range_with_len 0 here ++ numbers.now) row 0 }
{
    if row < here {
        return row;
    }
    number_at(numbers, row - here)
}

// Adds the terms with their rows' numbers, where the first so many rows keep their own.
fn push_renumbered(
    out: &mut Items<Term>,
    numbers: &[u32],
    here: u32,
    terms: &[Term],
) -> Result<(), AllocError>
    ensures { OnOk result
        (out.new ≡ out.old ++ renumbered (range_with_len 0 here ++ numbers.now) terms.now) }
{
    let Some((term, terms)) = terms.split_first() else {
        return Ok(());
    };
    out.push(Term {
        row: number_of(numbers, here, term.row),
        times: term.times,
    })?;
    push_renumbered(out, numbers, here, terms)
}

/// A Sum of the rows that the sources tell behind so many rows of the system itself, as a proof of their system of so many
/// rows: the Cuts, and then the Sum. It takes no time for the rows before.
pub fn converted(
    alloc: Global,
    here: u32,
    sources: &[Source],
    rows: u32,
    terms: &[Term],
) -> Result<Proof, AllocError>
    requires { rows + length sources.now < 2 ^ 32 }
    ensures { IfOk result
        (λ proof. proof ≡ converted_sum (own_sources 0 here ++ sources.now) rows terms.now) }
{
    let mut numbers = Items::new(alloc);
    push_numbers(&mut numbers, sources, rows)?;
    let mut sum = Items::new(alloc);
    push_renumbered(&mut sum, numbers.as_slice(), here, terms)?;
    with_cuts(alloc, sources, Proof::Sum(sum))
}
