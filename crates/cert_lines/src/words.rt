//! Lines, their words, and the numbers that words may be.

ghost use Rattle.std.specs.Prelude.{◌≡◌, ◌≤◌, ◌==◌, ◌<◌, not, true, pos, neg_ℤ, [], ◌∷◌, length, min, MatchOption, None, Some};
ghost use Rattle.std.specs.Char.{is_ascii_digit};
ghost use Rattle.std.specs.List.{list_all, prefix_len};
ghost use Rattle.plain_data.specs.Digits.{decimal_number};
ghost use Rattle.cert_lines.specs.Words.{both as judged_together, cut_at, in_128_bits, integer as integer_of, is_negative as negative, is_numeral as numeral, number as number_of, words_of};

use crate::error::Fault;
use plain_data::capped_number;
use std::marker::Model;

/// The number of bytes before the first that is this one.
fn count_before(text: &[u8], wanted: u8) -> usize
    ensures count { result ≡ prefix_len (λ byte. not (byte == wanted)) text.now }
    ensures within { result ≤ length text.now }
{
    text.iter().take_while(|byte| **byte != wanted).count()
}

/// What stands before the first such byte, and what stands behind it.
pub(crate) fn cut(text: &[u8], wanted: u8) -> Option<(&[u8], &[u8])>
    ensures { MatchOption result (cut_at wanted text.now ≡ None)
        (λ parts. cut_at wanted text.now ≡ Some (parts.0.now, parts.1.now)) }
{
    let (before, rest) = text.split_at(count_before(text, wanted));
    match rest.split_first() {
        Some((_, behind)) => Some((before, behind)),
        None => None,
    }
}

/// The words of a line that weren't taken yet.
#[derive(Drop)]
pub struct Words<'a> {
    rest: Option<&'a [u8]>,
}

impl<'a> Model for Words<'a> {
    ghost use Rattle.std.specs.Prelude.{ℕ, List, []};
    ghost use Rattle.std.specs.Option.{option_map_or};
    ghost use Rattle.cert_lines.specs.Words.{words_of};

    ghost Value = { List (List ℕ) };

    ghost view = { λ words. option_map_or (λ rest. words_of rest.now) words.rest [] };
}

impl<'a> Words<'a> {
    /// The words of this line.
    pub fn new(line: &'a [u8]) -> Words<'a>
        ensures { result ≡ words_of line.now }
    {
        Words { rest: Some(line) }
    }

    /// Takes the next word.
    pub fn next(&mut self) -> Option<&'a [u8]>
        ensures { MatchOption result ((self.old ≡ []) × (self.new ≡ []))
            (λ word. self.old ≡ word.now ∷ self.new) }
    {
        let rest = self.rest?;
        match cut(rest, b' ') {
            Some((word, others)) => {
                self.rest = Some(others);
                Some(word)
            }
            None => {
                self.rest = None;
                Some(rest)
            }
        }
    }
}

fn has_only_digits(text: &[u8]) -> bool
    ensures { result ≡ list_all is_ascii_digit text.now }
{
    text.iter().all(|byte| byte.is_ascii_digit())
}

fn is_numeral(word: &[u8]) -> bool
    ensures { result ≡ numeral word.now }
{
    !word.is_empty() && has_only_digits(word) && (word[0] != b'0' || word.len() == 1)
}

fn is_negative(word: &[u8]) -> bool
    ensures { result ≡ negative word.now }
{
    match word {
        [first, digits @ ..] => {
            *first == b'-' && is_numeral(digits) && digits != b"0".as_slice()
        }
        [] => false,
    }
}

/// The value of a numeral, or the greatest number of 128 bits where it passes that.
fn wide_value(digits: &[u8]) -> u128
    requires { numeral digits.now ≡ true }
    ensures { result ≡ min (decimal_number digits.now) u128.MAX }
{
    let mut value: u128 = 0;
    for digit in digits {
        value = value
            .saturating_mul(10)
            .saturating_add(u128::from(*digit - b'0'));
    }
    value
}

/// The number, if it has 128 signed bits at most.
fn plain(magnitude: u128) -> Result<i128, Fault>
    ensures { result ≡ in_128_bits (pos magnitude) }
{
    if magnitude < 1 << 127 {
        Ok(magnitude as i128)
    } else {
        Err(Fault::Range)
    }
}

/// The number with a minus before it, if it has 128 signed bits at most.
fn negated(magnitude: u128) -> Result<i128, Fault>
    ensures { result ≡ in_128_bits (neg_ℤ (pos magnitude)) }
{
    if magnitude < 1 << 127 {
        Ok(-(magnitude as i128))
    } else if magnitude == 1 << 127 {
        Ok(i128::MIN)
    } else {
        Err(Fault::Range)
    }
}

/// A number within 0 to 4,294,967,295.
pub fn number(word: &[u8]) -> Result<u32, Fault>
    ensures { result ≡ number_of word.now }
{
    if is_numeral(word) {
        u32::try_from(capped_number(word)).map_err(|_| Fault::Range)
    } else if is_negative(word) {
        Err(Fault::Range)
    } else {
        Err(Fault::Words)
    }
}

/// A number within 128 signed bits.
pub fn integer(word: &[u8]) -> Result<i128, Fault>
    ensures { result ≡ integer_of word.now }
{
    if is_numeral(word) {
        return plain(wide_value(word));
    }
    match word {
        [_, digits @ ..] if is_negative(word) => negated(wide_value(digits)),
        _ => Err(Fault::Words),
    }
}

/// Both values, or what is wrong: wrong words before a number out of range.
pub fn both<A: Drop, B: Drop>(
    first: Result<A, Fault>,
    second: Result<B, Fault>,
) -> Result<(A, B), Fault>
    ensures { result ≡ judged_together first second }
{
    match (first, second) {
        (Ok(first), Ok(second)) => Ok((first, second)),
        (Err(Fault::Words), _) | (_, Err(Fault::Words)) => Err(Fault::Words),
        _ => Err(Fault::Range),
    }
}
