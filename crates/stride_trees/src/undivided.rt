//! A write whose subscript can't be the read's, since the read's is no multiple of its stride from it.

ghost use Rattle.std.specs.Prelude.{◌≡◌, ◌≤◌, ◌<◌, ◌+◌, ◌*◌, ◌^◌, [], ◌∷◌, ℕ, List, length, nat_lt, IfOk, if◌then◌else◌};
ghost use Rattle.int_polyhedra.specs.declared.system.Proof.TheViews.{Cut as CutOf};
ghost use Rattle.tree_graphs.specs.Paths.{term_of};
ghost use Rattle.source_tree.specs.Checked.{IsRefuted};
ghost use Rattle.source_tree.specs.Rows.{RowExpr};
ghost use Rattle.source_tree.specs.Systems.{Context};
ghost use Rattle.stride_trees.specs.Candidates.{order_number, IsCutSumOf};
ghost use Rattle.stride_trees.specs.Contexts.{own_system, AreMadeSmall, IsNoIn, IsUndividedContext};
ghost use Rattle.stride_trees.specs.Strides.{depth_of_read, depth_of_write, read_of, write_of, IsStrided, IsTestOf};

use crate::divisions::Division;
use crate::strides::Strides;
use int_polyhedra::{Proof, Term, by_cut};
use plain_data::Items;
use std::alloc::{AllocError, Global};

// Two rows, once each.
fn both(alloc: Global, first: u32, second: u32) -> Result<Items<Term>, AllocError>
    ensures { IfOk result (λ terms. terms ≡ term_of first ∷ term_of second ∷ []) }
{
    let mut terms = Items::new(alloc);
    terms.push(Term {
        row: first,
        times: 1,
    })?;
    terms.push(Term {
        row: second,
        times: 1,
    })?;
    Ok(terms)
}

// A Cut by the divisor of a test, and then the rest of a proof.
fn cut(
    alloc: Global,
    division: &Division,
    terms: Items<Term>,
    rest: Proof,
) -> Result<Proof, AllocError>
    ensures { IfOk result (λ proof. proof ≡ CutOf division.now.divisor terms rest) }
{
    by_cut(alloc, division.divisor, terms, rest)
}

/// Of the two rows of a test's subscript, the first of which has this number, that it is no less than the read's, taken with
/// the sign of its stride: `M v - form`.
pub fn row_above(division: &Division, row: u32) -> u32
    requires { row < 2 ^ 31 }
    ensures { result ≡ (if division.now.rises then row else row + 1) }
{
    if division.rises { row } else { row + 1 }
}

/// And that it is no greater: `form - M v`.
pub fn row_below(division: &Division, row: u32) -> u32
    requires { row < 2 ^ 31 }
    ensures { result ≡ (if division.now.rises then row + 1 else row) }
{
    if division.rises { row + 1 } else { row }
}

// The proof that no loop value is what is asked where a test says no. The test's two rows stand from `test` on, those of its
// subscript at these places, and the system has `count` rows: by two Cuts the loop is above the quotient, and no greater.
fn indivisible(
    alloc: Global,
    division: &Division,
    test: u32,
    above: u32,
    below: u32,
    count: u32,
) -> Result<Proof, AllocError>
    requires test { test ≤ 16384 }
    requires count { count < 2 ^ 31 }
    ensures { IfOk result (λ proof. proof
        ≡ CutOf division.now.divisor (term_of test ∷ term_of above ∷ [])
        (CutOf division.now.divisor (term_of (test + 1) ∷ term_of below ∷ [])
        (Proof.Sum (term_of count ∷ term_of (count + 1) ∷ [])))) }
{
    let low = both(alloc, test, above)?;
    let high = both(alloc, test + 1, below)?;
    let sum = both(alloc, count, count + 1)?;
    let rest = cut(alloc, division, high, Proof::Sum(sum))?;
    cut(alloc, division, low, rest)
}

/// How many order rows stand before the read at the level.
pub fn order_row_count(s: &Strides) -> u32
    requires { IsStrided s.now }
    ensures value { result ≡ 2 * s.now.level + (if nat_lt s.now.level s.now.common then 1 else 0) }
    ensures few { result ≤ 13 }
{
    let level = 2 * s.level as u32;
    if s.level < s.common { level + 1 } else { level }
}

/// The proof that no write stands before the read in a context where a test says no, whose two rows stand from `row` on. The
/// context has `here` rows, and there are `more` order rows. It is two Cuts and a Sum.
pub fn undivided_behind(
    s: &Strides,
    division: &Division,
    row: u32,
    here: u32,
    more: u32,
) -> Result<Proof, AllocError>
    requires strided { IsStrided s.now }
    requires test { IsTestOf s.now division.now }
    requires row { row ≤ 16384 }
    requires here { here ≤ 2 ^ 30 }
    requires more { more ≤ 64 }
    ensures { IfOk result (λ proof. (c : Context) (order : List RowExpr) (quotient : ℕ)
        → IsNoIn division.now row quotient here c → depth_of_read s.now ≤ c.vars
        → AreMadeSmall (c.vars + depth_of_write s.now) order → length order ≡ more
        → IsRefuted (own_system s.now c order) proof
        × IsCutSumOf (order_number (read_of s.now) (write_of s.now) c) (own_system s.now c order)
        proof) }
{
    let rows = s.write.statement.rows.len() as u32;
    let subscripts = s.write.access.subscripts.len() as u32;
    let cell = here + (rows + 2 * division.subscript);
    let count = here + (rows + (2 * subscripts + more));
    let above = row_above(division, cell);
    let below = row_below(division, cell);
    indivisible(s.alloc, division, row, above, below, count)
}

/// The proof that no write stands before the read in a context where a test says no, whose rows are those of this place
/// behind the reader's. The context has `here` rows, and there are `more` order rows.
pub fn undivided_write(
    s: &Strides,
    division: &Division,
    place: u32,
    here: u32,
    more: u32,
) -> Result<Proof, AllocError>
    requires strided { IsStrided s.now }
    requires test { IsTestOf s.now division.now }
    requires place { place < 6 }
    requires here { here ≤ 2 ^ 30 }
    requires more { more ≤ 64 }
    ensures { IfOk result (λ proof. (c : Context) (order : List RowExpr)
        → IsUndividedContext s.now division.now place here c
        → AreMadeSmall (c.vars + depth_of_write s.now) order → length order ≡ more
        → IsRefuted (own_system s.now c order) proof) }
{
    let root = s.read.statement.rows.len() as u32;
    undivided_behind(s, division, root + 2 * place, here, more)
}
