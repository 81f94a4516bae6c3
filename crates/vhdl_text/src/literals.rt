ghost use Rattle.std.specs.Prelude.{◌≡◌, ◌<◌};
ghost use Rattle.text_out.specs.Wrote.{Wrote};
ghost use Rattle.vhdl_text.specs.Literals.{digit as digit_of, literal as literal_of};

use text_out::TextWriter;

/// The digit in base 16 whose place has this unit.
fn digit(number: u64, unit: u64) -> u8
    requires { 0 < unit }
    ensures { result ≡ digit_of number unit }
{
    b"0123456789abcdef"[(number / unit % 16) as usize]
}

/// A value as a bit string literal: the 16 hexadecimal digits of its two's complement between quotes.
#[tactic(auto, unfolding(crate::specs::Literals::literal))]
pub fn literal(value: i64) -> [u8; 19]
    ensures { result ≡ literal_of value }
{
    let number = value.cast_unsigned();
    [
        b'x',
        b'"',
        digit(number, 0x1000_0000_0000_0000),
        digit(number, 0x100_0000_0000_0000),
        digit(number, 0x10_0000_0000_0000),
        digit(number, 0x1_0000_0000_0000),
        digit(number, 0x1000_0000_0000),
        digit(number, 0x100_0000_0000),
        digit(number, 0x10_0000_0000),
        digit(number, 0x1_0000_0000),
        digit(number, 0x1000_0000),
        digit(number, 0x100_0000),
        digit(number, 0x10_0000),
        digit(number, 0x1_0000),
        digit(number, 0x1000),
        digit(number, 0x100),
        digit(number, 0x10),
        digit(number, 0x1),
        b'"',
    ]
}

/// Writes a value as a bit string literal.
pub(crate) fn write_literal<W: TextWriter>(value: i64, out: &mut W)
    ensures { Wrote W.given out.old out.new (literal_of value) }
{
    out.put(&literal(value));
}
