ghost use Rattle.std.specs.Prelude.{◌≡◌, ◌≢◌, ◌*◌, ◌<◌, ◌≤◌, ℕ, false, length, slice_index_or, true, IfOk};
ghost use Rattle.channel_plan.specs.MarkBits.{mark_at, marks_in};

use std::alloc::{AllocError, Global};
use std::marker::Model;

/// A mark for each of so many turns, 64 of them in a word, which contracts see as their list.
#[derive(Drop)]
pub struct TokenMarks {
    count: usize,
    words: Vec<u64>,
}

impl Model for TokenMarks {
    ghost use Rattle.std.specs.Prelude.{◌*◌, ◌≤◌, Bool, List, length};
    ghost use Rattle.channel_plan.specs.MarkBits.{marks_in};

    ghost Value = { List Bool };

    ghost view = { λ marks. marks_in marks.count marks.words.items };

    ghost invariant = { λ marks. marks.count ≤ 64 * length marks.words.items };
}

// Marks a turn.
fn set_mark(words: &mut Vec<u64>, turn: usize)
    requires { turn < 64 * length words.old.items }
    ensures same_length { length words.new.items ≡ length words.old.items }
    ensures marked { mark_at words.new.items turn ≡ true }
    ensures others { (k : ℕ) → k ≢ turn
        → mark_at words.new.items k ≡ mark_at words.old.items k }
{
    words[turn / 64] |= 1 << (turn % 64);
}

// Whether a turn is marked.
fn is_marked(words: &[u64], turn: usize) -> bool
    requires { turn < 64 * length words.now }
    ensures { result ≡ mark_at words.now turn }
{
    (words[turn / 64] >> (turn % 64)) & 1 == 1
}

// These marks, 64 in a word.
fn words_of(alloc: Global, marks: &[bool]) -> Result<Vec<u64>, AllocError>
    ensures room { IfOk result (λ words. length marks.now ≤ 64 * length words.items) }
    ensures marks { IfOk result (λ words. marks_in (length marks.now) words.items ≡ marks.now) }
{
    let mut words = vec![in alloc; 0u64; marks.len() / 64 + 1]?;
    for (turn, mark) in marks.iter().enumerate() {
        if *mark {
            set_mark(&mut words, turn);
        }
    }
    Ok(words)
}

impl TokenMarks {
    /// These marks, or want of memory.
    pub(crate) fn of(alloc: Global, marks: &[bool]) -> Result<TokenMarks, AllocError>
        ensures { IfOk result (λ packed. packed ≡ marks.now) }
    {
        let words = words_of(alloc, marks)?;
        Ok(TokenMarks {
            count: marks.len(),
            words,
        })
    }

    /// Whether a turn is marked. Past the last one none is. It takes no memory.
    pub fn has(&self, turn: usize) -> bool
        ensures { result ≡ slice_index_or self.now turn false }
    {
        if turn >= self.count {
            return false;
        }
        is_marked(&self.words, turn)
    }
}
