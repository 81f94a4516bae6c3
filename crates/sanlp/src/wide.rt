//! Sums of products of moderate coefficients and loop values, which stay within 128 bits.

ghost use Rattle.std.specs.Prelude.{◌≡◌, ◌≤◌, ◌+ℤ◌, ◌*ℤ◌, unsigned_abs, IsTrue};
ghost use Rattle.sanlp.specs.WellFormed.{is_moderate};

/// The greatest absolute value of a form of an entered loop, and so of a loop's variable.
pub const LOOP_VALUE_LIMIT: u128 = 4_611_686_018_427_387_904;

/// A moderate coefficient in 64 bits.
pub fn moderate(coef: i128) -> i64
    requires { IsTrue (is_moderate coef) }
    ensures { result ≡ coef }
{
    coef as i64
}

/// Adds a product to a sum, where both are so small that the sum has 128 bits.
pub fn add_product(sum: i128, coef: i64, value: i64) -> i128
    requires coef { unsigned_abs coef ≤ 4294967296 }
    requires sum { unsigned_abs sum ≤ 300000000000000000000000000000 }
    ensures { result ≡ sum +ℤ (coef *ℤ value) }
{
    sum + coef as i128 * value as i128
}
