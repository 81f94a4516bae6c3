//! What stands at the front of bytes.

ghost use Rattle.std.specs.Prelude.{◌≡◌, ◌+◌, ◌<◌, ◌≤◌, [], ◌∷◌, length, take, not, true, false, if◌then◌else◌, MatchOption};
ghost use Rattle.std.specs.List.{prefix_len};
ghost use Rattle.loop_lex.specs.Lexical.{is_letter as letter, is_digit as digit, is_letter_or_digit as letter_or_digit, is_line_feed, is_reserved as reserved};
ghost use Rattle.loop_lex.specs.Front.{IsFront, ClosesAt, NeverCloses, Begins, BeginsSignOnly, begins_double_sign};

use crate::class::{is_digit, is_letter, is_letter_or_digit, is_reserved, is_sign, is_space};
use crate::token::TokenKind;

/// What stands at the front of bytes, with its length.
#[derive(Clone, Copy)]
pub enum Front {
    /// White space or a comment.
    Separator(usize),
    /// A token of this kind.
    Token(TokenKind, usize),
    /// A comment that has no end.
    OpenComment,
    /// No input element.
    Unknown,
}

/// The number of letters and digits at the front.
fn word_length(bytes: &[u8]) -> usize
    ensures { result ≡ prefix_len letter_or_digit bytes.now }
{
    bytes.iter().take_while(|b| is_letter_or_digit(**b)).count()
}

/// The number of digits at the front.
fn digits_length(bytes: &[u8]) -> usize
    ensures { result ≡ prefix_len digit bytes.now }
{
    bytes.iter().take_while(|b| is_digit(**b)).count()
}

/// The number of bytes before the first line feed, or of all.
fn line_length(bytes: &[u8]) -> usize
    ensures { result ≡ prefix_len (λ b. not (is_line_feed b)) bytes.now }
{
    bytes.iter().take_while(|b| **b != b'\n').count()
}

/// Where the first `*/` in the body of a comment ends.
fn close_of(body: &[u8]) -> Option<usize>
    ensures { MatchOption result (NeverCloses body.now) (ClosesAt body.now) }
{
    for i in 0..body.len().saturating_sub(1) {
        if body[i] == b'*' && body[i + 1] == b'/' {
            return Some(i + 2);
        }
    }
    None
}

/// What begins with a `/` and this second byte.
fn slash(second: u8, rest: &[u8]) -> Front
    ensures { IsFront (47 ∷ second ∷ rest.now) result }
{
    match second {
        b'/' => Front::Separator(line_length(rest) + 2),
        b'*' => match close_of(rest) {
            Some(end) => Front::Separator(end + 2),
            None => Front::OpenComment,
        },
        _ => Front::Unknown,
    }
}

/// The kind of a word.
fn word_kind(text: &[u8]) -> TokenKind
    ensures { result ≡ (if reserved text.now then TokenKind.Reserved else TokenKind.Name) }
{
    if is_reserved(text) {
        TokenKind::Reserved
    } else {
        TokenKind::Name
    }
}

/// A name or a reserved word.
fn word(bytes: &[u8]) -> Front
    requires { Begins letter bytes.now }
    ensures { IsFront bytes.now result }
{
    let length = word_length(bytes);
    let (text, _) = bytes.split_at(length);
    Front::Token(word_kind(text), length)
}

/// A number.
fn digits(bytes: &[u8]) -> Front
    requires { Begins digit bytes.now }
    ensures { IsFront bytes.now result }
{
    Front::Token(TokenKind::Number, digits_length(bytes))
}

/// Whether a sign of two bytes stands at the front.
fn is_double_sign(first: u8, rest: &[u8]) -> bool
    ensures { result ≡ begins_double_sign (first ∷ rest.now) }
{
    match rest {
        [] => false,
        [second, ..] => is_sign(&[first, *second]),
    }
}

/// The longest sign, where nothing else can stand.
fn sign(first: u8, rest: &[u8]) -> Front
    requires { BeginsSignOnly first }
    ensures { IsFront (first ∷ rest.now) result }
{
    if is_double_sign(first, rest) {
        Front::Token(TokenKind::Sign, 2)
    } else if is_sign(&[first]) {
        Front::Token(TokenKind::Sign, 1)
    } else {
        Front::Unknown
    }
}

/// The longest input element at the front, or why there is none.
pub fn front_of(bytes: &[u8]) -> Front
    ensures { IsFront bytes.now result }
{
    match bytes {
        [] => Front::Unknown,
        [first, rest @ ..] => {
            if is_space(*first) {
                return Front::Separator(1);
            }
            if is_letter(*first) {
                return word(bytes);
            }
            if is_digit(*first) {
                return digits(bytes);
            }
            if *first == b'/' {
                return match rest {
                    [] => Front::Unknown,
                    [second, body @ ..] => slash(*second, body),
                };
            }
            sign(*first, rest)
        }
    }
}
