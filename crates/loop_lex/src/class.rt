//! Classes of bytes, and the texts of words and signs.

ghost use Rattle.std.specs.Prelude.{◌≡◌, ◌<◌, ◌≤◌, if◌then◌else◌, not, true};
ghost use Rattle.std.specs.List.{list_all, list_any};
ghost use Rattle.loop_lex.specs.Lexical.{is_space as space, is_digit as digit, is_letter as letter, is_letter_or_digit as letter_or_digit, is_word as word, is_reserved as reserved, is_name as name, is_sign as sign};

/// A space, a tab, a line feed or a carriage return.
pub fn is_space(b: u8) -> bool
    ensures { result ≡ space b }
{
    [b' ', b'\t', b'\n', b'\r'].contains(&b)
}

/// A decimal digit.
pub fn is_digit(b: u8) -> bool
    ensures { result ≡ digit b }
{
    b >= b'0' && b <= b'9'
}

/// An ASCII letter or an underscore.
pub fn is_letter(b: u8) -> bool
    ensures { result ≡ letter b }
{
    (b >= b'A' && b <= b'Z') || (b >= b'a' && b <= b'z') || b == b'_'
}

/// A byte that a word goes on with.
pub fn is_letter_or_digit(b: u8) -> bool
    ensures { result ≡ letter_or_digit b }
{
    is_letter(b) || is_digit(b)
}

/// A reserved word.
pub fn is_reserved(text: &[u8]) -> bool
    ensures { result ≡ reserved text.now }
{
    text == b"param".as_slice()
        || text == b"in".as_slice()
        || text == b"out".as_slice()
        || text == b"inout".as_slice()
        || text == b"var".as_slice()
        || text == b"int".as_slice()
        || text == b"for".as_slice()
        || text == b"if".as_slice()
        || text == b"else".as_slice()
        || text == b"min".as_slice()
        || text == b"max".as_slice()
}

/// A letter, then letters and digits.
pub fn is_word(text: &[u8]) -> bool
    ensures { result ≡ word text.now }
{
    match text {
        [first, rest @ ..] => is_letter(*first) && are_letters_or_digits(rest),
        [] => false,
    }
}

fn are_letters_or_digits(text: &[u8]) -> bool
    ensures { result ≡ list_all letter_or_digit text.now }
{
    text.iter().all(|b| is_letter_or_digit(*b))
}

/// A name: a word that is not reserved.
pub fn is_name(text: &[u8]) -> bool
    ensures { result ≡ name text.now }
{
    is_word(text) && !is_reserved(text)
}

/// A sign.
pub fn is_sign(text: &[u8]) -> bool
    ensures { result ≡ sign text.now }
{
    text == b"(".as_slice()
        || text == b")".as_slice()
        || text == b"[".as_slice()
        || text == b"]".as_slice()
        || text == b"{".as_slice()
        || text == b"}".as_slice()
        || text == b";".as_slice()
        || text == b",".as_slice()
        || text == b"=".as_slice()
        || text == b"<".as_slice()
        || text == b"<=".as_slice()
        || text == b">".as_slice()
        || text == b">=".as_slice()
        || text == b"==".as_slice()
        || text == b"+".as_slice()
        || text == b"++".as_slice()
        || text == b"+=".as_slice()
        || text == b"-".as_slice()
        || text == b"*".as_slice()
        || text == b"&&".as_slice()
}
