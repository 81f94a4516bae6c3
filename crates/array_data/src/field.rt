//! The fields of a record: blanks round them, and values.

ghost use Rattle.std.specs.Prelude.{◌≡◌, ◌≤◌, length, min, true};
ghost use Rattle.std.specs.Char.{is_ascii_digit};
ghost use Rattle.std.specs.List.{list_all, prefix_len, suffix_len};
ghost use Rattle.array_data.specs.Data.{is_blank as blank, is_digits as digits, negated_value as negated, plain_value as plain, value_of as value, without_blanks as trimmed, without_first_blanks as front_trimmed, without_last_blanks as back_trimmed};

use plain_data::capped_number;

fn is_blank(byte: u8) -> bool
    ensures { result ≡ blank byte }
{
    byte == b' ' || byte == b'\t'
}

// The number of blanks at the start.
fn first_blanks(field: &[u8]) -> usize
    ensures count { result ≡ prefix_len blank field.now }
    ensures within { result ≤ length field.now }
{
    field.iter().take_while(|b| is_blank(**b)).count()
}

// The number of blanks at the end.
fn last_blanks(field: &[u8]) -> usize
    ensures count { result ≡ suffix_len blank field.now }
    ensures within { result ≤ length field.now }
{
    field.iter().rev().take_while(|b| is_blank(**b)).count()
}

fn without_first_blanks(field: &[u8]) -> &[u8]
    ensures { result.now ≡ front_trimmed field.now }
{
    let (_, rest) = field.split_at(first_blanks(field));
    rest
}

fn without_last_blanks(field: &[u8]) -> &[u8]
    ensures { result.now ≡ back_trimmed field.now }
{
    let (rest, _) = field.split_at(field.len() - last_blanks(field));
    rest
}

/// The field without the spaces and tabs at its start and at its end.
pub(crate) fn without_blanks(field: &[u8]) -> &[u8]
    ensures { result.now ≡ trimmed field.now }
{
    without_last_blanks(without_first_blanks(field))
}

fn has_only_digits(text: &[u8]) -> bool
    ensures { result ≡ list_all is_ascii_digit text.now }
{
    text.iter().all(|b| b.is_ascii_digit())
}

fn is_digits(text: &[u8]) -> bool
    ensures { result ≡ digits text.now }
{
    !text.is_empty() && has_only_digits(text)
}

fn plain_value(text: &[u8]) -> Option<i64>
    ensures { result ≡ plain text.now }
{
    if is_digits(text) {
        i64::try_from(capped_number(text)).ok()
    } else {
        None
    }
}

fn negated_value(text: &[u8]) -> Option<i64>
    ensures { result ≡ negated text.now }
{
    if is_digits(text) {
        i64::try_from(-(capped_number(text) as i128)).ok()
    } else {
        None
    }
}

/// The value of a field, if it is an optional `-` and then decimal digits, within 64 signed bits.
pub(crate) fn value_of(field: &[u8]) -> Option<i64>
    ensures { result ≡ value field.now }
{
    match field.split_first() {
        Some((first, rest)) if *first == b'-' => negated_value(rest),
        _ => plain_value(field),
    }
}
