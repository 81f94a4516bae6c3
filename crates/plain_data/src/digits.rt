//! The number that decimal digits write.

ghost use Rattle.std.specs.Prelude.{◌≡◌, min, true};
ghost use Rattle.std.specs.Char.{is_ascii_digit};
ghost use Rattle.std.specs.List.{list_all};
ghost use Rattle.plain_data.specs.Digits.{decimal_number};

/// The number that these decimal digits write, or 18446744073709551615 where it passes that.
pub fn capped_number(digits: &[u8]) -> u64
    requires { list_all is_ascii_digit digits.now ≡ true }
    ensures { result ≡ min (decimal_number digits.now) u64.MAX }
{
    let mut value: u64 = 0;
    for digit in digits {
        value = value
            .saturating_mul(10)
            .saturating_add((*digit - b'0') as u64);
    }
    value
}
