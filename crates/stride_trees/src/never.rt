//! A write whose subscript is never the read's: a divisor of its stride divides all coefficients of what the read's is from
//! it, and not the constant.

ghost use Rattle.std.specs.Prelude.{◌≡◌, ◌≤◌, ◌≤ℤ◌, ◌+◌, ◌^◌, [], ◌∷◌, pos, List, length, unsigned_abs, IfOk, IsTrue};
ghost use Rattle.std.specs.List.{list_all};
ghost use Rattle.int_polyhedra.specs.declared.system.Proof.TheViews.{Cut as CutOf};
ghost use Rattle.tree_graphs.specs.Paths.{term_of};
ghost use Rattle.source_tree.specs.Checked.{IsRefuted};
ghost use Rattle.source_tree.specs.Rows.{RowExpr};
ghost use Rattle.source_tree.specs.Systems.{Context};
ghost use Rattle.source_tree.specs.Walk.{divides};
ghost use Rattle.stride_trees.specs.CommonDivisors.{IsGreatestCommonDivisor};
ghost use Rattle.stride_trees.specs.Contexts.{own_system, AreMadeSmall};
ghost use Rattle.stride_trees.specs.Divisions.{never_divides};
ghost use Rattle.stride_trees.specs.Strides.{depth_of_read, depth_of_write, IsSmallContext, IsStrided, IsTestOf};

use crate::common_divisors::common_divisor;
use crate::divisions::Division;
use crate::strides::Strides;
use crate::undivided::{row_above, row_below};
use int_polyhedra::{Proof, Term, by_cut};
use plain_data::Items;
use std::alloc::{AllocError, Global};
use tree_graphs::once;

/// Whether a divisor divides a number.
pub fn divides(value: i128, divisor: i128) -> bool
    requires { pos 1 ≤ℤ divisor }
    ensures { result ≡ divides value divisor }
{
    value % divisor == 0
}

/// Whether a divisor divides all of these.
pub fn divides_all(coefs: &[i128], divisor: i128) -> bool
    requires { pos 1 ≤ℤ divisor }
    ensures { result ≡ list_all (λ c. divides c divisor) coefs.now }
{
    coefs.iter().all(|coef| divides(*coef, divisor))
}

// The greatest common divisor of a test's divisor and of all coefficients of its form.
fn divisor_of(test: &Division) -> i128
    requires divisor { pos 1 ≤ℤ test.now.divisor }
    ensures positive { pos 1 ≤ℤ result }
    ensures greatest { IsGreatestCommonDivisor (unsigned_abs test.now.divisor)
        test.now.form.coefs (unsigned_abs result) }
{
    common_divisor(test.divisor, test.form.coefs.as_slice())
}

/// Whether a test says no by its form alone, whatever the loop values are: the greatest common divisor of the divisor and all
/// coefficients doesn't divide the constant. It takes no memory.
pub fn never_divides(test: &Division) -> bool
    requires { pos 1 ≤ℤ test.now.divisor }
    ensures { result ≡ never_divides test.now }
{
    !divides(test.form.constant, divisor_of(test))
}

/// A Cut of one row by this divisor, and the Sum of what it adds, so many times, and another row. The system has `count` rows.
pub fn rounded(
    alloc: Global,
    divisor: i128,
    above: u32,
    below: u32,
    count: u32,
) -> Result<Proof, AllocError>
    ensures { IfOk result (λ proof. proof ≡ CutOf divisor (term_of above ∷ [])
        (Proof.Sum (record { row = count; times = divisor } ∷ term_of below ∷ []))) }
{
    let mut terms = Items::new(alloc);
    terms.push(Term {
        row: count,
        times: divisor,
    })?;
    terms.push(Term {
        row: below,
        times: 1,
    })?;
    let cut = once(alloc, above)?;
    by_cut(alloc, divisor, cut, Proof::Sum(terms))
}

/// The proof that no write stands before the read, where one of its tests says no by its form alone. The context has `here`
/// rows, and there are `more` order rows. It asks for no row of the context, and for the rows of one subscript: one Cut
/// and a Sum.
pub fn never_write(s: &Strides, test: &Division, here: u32, more: u32) -> Result<Proof, AllocError>
    requires strided { IsStrided s.now }
    requires test { IsTestOf s.now test.now }
    requires never { IsTrue (never_divides test.now) }
    requires here { here ≤ 2 ^ 30 }
    requires more { more ≤ 64 }
    ensures { IfOk result (λ proof. (c : Context) (order : List RowExpr)
        → IsSmallContext c here → depth_of_read s.now ≤ c.vars
        → AreMadeSmall (c.vars + depth_of_write s.now) order → length order ≡ more
        → IsRefuted (own_system s.now c order) proof) }
{
    let rows = s.write.statement.rows.len() as u32;
    let subscripts = s.write.access.subscripts.len() as u32;
    let row = here + (rows + 2 * test.subscript);
    let count = here + (rows + (2 * subscripts + more));
    let common = divisor_of(test);
    rounded(
        s.alloc,
        common,
        row_above(test, row),
        row_below(test, row),
        count,
    )
}
