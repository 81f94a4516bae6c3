ghost use Rattle.std.specs.Prelude.{◌≡◌, map};
ghost use Rattle.std.specs.List.{flat_map, join_with_byte};
ghost use Rattle.text_out.specs.Wrote.{Wrote};
ghost use Rattle.text_out.specs.Words.{word_text, spaced_text, line_text};

use crate::writer::TextWriter;
use itoa::{Buffer, Integer};

/// A word of a line.
#[derive(Clone, Copy)]
pub enum Word<'a> {
    Text(&'a [u8]),
    Number(u64),
}

/// Writes a number in decimal.
pub fn write_number<I: Integer, W: TextWriter>(number: I, out: &mut W)
    ensures { Wrote W.given out.old out.new (I.text number) }
{
    let mut buffer = Buffer::new();
    out.put(buffer.format(number).as_bytes());
}

/// Writes a word.
pub fn write_word<W: TextWriter>(word: Word, out: &mut W)
    ensures { Wrote W.given out.old out.new (word_text word.entry) }
{
    match word {
        Word::Text(text) => out.put(text),
        Word::Number(number) => write_number(number, out),
    }
}

/// Writes a space and a word.
pub fn write_spaced<W: TextWriter>(word: Word, out: &mut W)
    ensures { Wrote W.given out.old out.new (spaced_text word.entry) }
{
    out.put(b" ");
    write_word(word, out);
}

/// Writes words with a space before each.
fn write_others<W: TextWriter>(words: &[Word], out: &mut W)
    ensures { Wrote W.given out.old out.new (flat_map spaced_text words.now) }
{
    for word in words {
        write_spaced(*word, out);
    }
}

/// Writes words with a space between two of them.
pub fn write_words<W: TextWriter>(words: &[Word], out: &mut W)
    ensures { Wrote W.given out.old out.new (join_with_byte 32 (map word_text words.now)) }
{
    if let Some((first, others)) = words.split_first() {
        write_word(*first, out);
        write_others(others, out);
    }
}

/// Writes a line of words.
pub fn write_line<W: TextWriter>(words: &[Word], out: &mut W)
    ensures { Wrote W.given out.old out.new (line_text (map word_text words.now)) }
{
    write_words(words, out);
    out.put(b"\n");
}
