//! The greatest common divisor of numbers.

ghost use Rattle.std.specs.Prelude.{◌≡◌, ◌≤ℤ◌, ◌%◌, pos, unsigned_abs};
ghost use Rattle.std.specs.Int.{IsGcd};
ghost use Rattle.stride_trees.specs.CommonDivisors.{IsGreatestCommonDivisor};

// The size of what is left of a number divided by another.
fn remainder(value: i128, divisor: i128) -> i128
    requires { pos 1 ≤ℤ divisor }
    ensures least { pos 0 ≤ℤ result }
    ensures size { unsigned_abs result ≡ unsigned_abs value % unsigned_abs divisor }
{
    (value % divisor).abs()
}

// The greatest common divisor of two numbers (Euclid).
fn divisor_of_two(first: i128, second: i128) -> i128
    requires { pos 1 ≤ℤ first }
    ensures positive { pos 1 ≤ℤ result }
    ensures greatest { IsGcd (unsigned_abs first) (unsigned_abs second) (unsigned_abs result) }
{
    let rest = remainder(second, first);
    if rest == 0 {
        return first;
    }
    divisor_of_two(rest, first)
}

/// The greatest number that divides this one and each of these.
pub fn common_divisor(number: i128, values: &[i128]) -> i128
    requires { pos 1 ≤ℤ number }
    ensures positive { pos 1 ≤ℤ result }
    ensures greatest { IsGreatestCommonDivisor (unsigned_abs number) values.now
        (unsigned_abs result) }
{
    let Some((value, values)) = values.split_first() else {
        return number;
    };
    common_divisor(divisor_of_two(number, *value), values)
}
