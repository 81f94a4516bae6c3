//! A test whose divisor divides all coefficients of its form, and the constant: its no is nowhere.

ghost use Rattle.std.specs.Prelude.{◌≡◌, ◌≤◌, ◌<◌, ◌≤ℤ◌, ◌+◌, ◌^◌, [], ◌∷◌, ℕ, pos, unsigned_abs, IfOk, IsTrue};
ghost use Rattle.source_tree.specs.Checked.{AreRefuted};
ghost use Rattle.source_tree.specs.Systems.{dead_systems, Context};
ghost use Rattle.stride_trees.specs.Contexts.{IsNoIn};
ghost use Rattle.stride_trees.specs.Divisions.{always_divides};

use crate::divisions::Division;
use crate::never::{divides, divides_all, rounded};
use int_polyhedra::Proof;
use std::alloc::{AllocError, Global};

/// Whether a test says yes by its form alone, whatever the loop values are: the divisor divides each coefficient, and the
/// constant. It takes no memory.
pub fn always_divides(test: &Division) -> bool
    requires { pos 1 ≤ℤ test.now.divisor }
    ensures { result ≡ always_divides test.now }
{
    divides_all(test.form.coefs.as_slice(), test.divisor)
        && divides(test.form.constant, test.divisor)
}

/// The proof that nothing meets a context where a test says no that says yes by its form alone. The test's two rows stand
/// from `row` on, and the context has `here` rows. It asks for no other row: one Cut and a Sum.
pub fn no_is_nowhere(
    alloc: Global,
    test: &Division,
    row: u32,
    here: u32,
) -> Result<Proof, AllocError>
    requires divisor { pos 1 ≤ℤ test.now.divisor }
    requires small { unsigned_abs test.now.divisor ≤ 2 ^ 32 }
    requires always { IsTrue (always_divides test.now) }
    requires row { row < 2 ^ 31 }
    ensures { IfOk result (λ proof. (c : Context) (quotient : ℕ)
        → IsNoIn test.now row quotient here c → AreRefuted (dead_systems c) (proof ∷ [])) }
{
    rounded(alloc, test.divisor, row, row + 1, here)
}
