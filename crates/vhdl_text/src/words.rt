ghost use Rattle.std.specs.Prelude.{◌++◌, decimal};
ghost use Rattle.std.specs.List.{flat_map, join_by};
ghost use Rattle.text_out.specs.Wrote.{Wrote};
ghost use Rattle.text_out.specs.Words.{word_text};

use text_out::{TextWriter, Word, write_number, write_word};

/// Writes these words, one behind the other.
pub fn write_all<W: TextWriter>(words: &[Word], out: &mut W)
    ensures { Wrote W.given out.old out.new (flat_map word_text words.now) }
{
    for word in words {
        write_word(*word, out);
    }
}

fn write_behind<W: TextWriter>(number: u64, piece: &[u8], out: &mut W)
    ensures { Wrote W.given out.old out.new (decimal number ++ piece.now) }
{
    write_number(number, out);
    out.put(piece);
}

// Writes these pieces with a number before each.
fn write_each_behind<W: TextWriter>(number: u64, pieces: &[&[u8]], out: &mut W)
    ensures { Wrote W.given out.old out.new
        (flat_map (λ piece. decimal number ++ piece.now) pieces.now) }
{
    for piece in pieces {
        write_behind(number, *piece, out);
    }
}

/// Writes these pieces with a number between each two.
pub fn write_with_number<W: TextWriter>(number: u64, pieces: &[&[u8]], out: &mut W)
    ensures { Wrote W.given out.old out.new
        (join_by (λ piece. piece.now) (decimal number) pieces.now) }
{
    if let Some((first, others)) = pieces.split_first() {
        out.put(*first);
        write_each_behind(number, others, out);
    }
}
