ghost use Rattle.std.specs.Prelude.{◌≡◌};
ghost use Rattle.cell_rows.specs.SmallValues.{are_small_values, is_small_value};

/// The greatest absolute value of a small loop value: a form's value at small ones has 64 bits.
const SMALL_VALUE_LIMIT: i64 = 134_217_728;

/// Whether a loop value is small.
pub fn is_small(value: i64) -> bool
    ensures { result ≡ is_small_value value }
{
    value >= -SMALL_VALUE_LIMIT && value <= SMALL_VALUE_LIMIT
}

/// Whether these loop values are small.
pub fn are_small(values: &[i64]) -> bool
    ensures { result ≡ are_small_values values.now }
{
    for value in values {
        if !is_small(*value) {
            return false;
        }
    }
    true
}
