ghost use Rattle.std.specs.Prelude.{◌≡◌, ◌+◌, ◌≤◌, ℕ, List, [], ◌++◌, take, length};
ghost use Rattle.text_out.specs.declared.waiting.TheConstants.{BLOCK};

use std::marker::Model;

/// How many bytes are gathered before they are handed to a sink.
const BLOCK: usize = 4096;

/// Bytes that wait, kept in place.
#[derive(Drop)]
pub(crate) struct Waiting {
    bytes: [u8; BLOCK],
    len: usize,
}

impl Model for Waiting {
    ghost Value = { List ℕ };

    ghost view = { λ waiting. take waiting.len waiting.bytes };

    ghost invariant = { λ waiting. waiting.len ≤ BLOCK };
}

impl Waiting {
    /// No byte waits.
    pub(crate) fn new() -> Waiting
        ensures { result ≡ [] }
    {
        Waiting {
            bytes: [0; BLOCK],
            len: 0,
        }
    }

    /// The bytes that wait, the first of them first.
    pub(crate) fn as_slice(&self) -> &[u8]
        ensures { result.now ≡ self.now }
    {
        let (front, _) = self.bytes.split_at(self.len);
        front
    }

    /// How many bytes more may wait.
    pub(crate) fn room(&self) -> usize
        ensures { result + length self.now ≡ BLOCK }
    {
        BLOCK - self.len
    }

    /// Lets these bytes wait behind the others. There is room for them.
    pub(crate) fn append(&mut self, piece: &[u8])
        requires { length self.old + length piece.now ≤ BLOCK }
        ensures { self.new ≡ self.old ++ piece.now }
    {
        let end = self.len + piece.len();
        self.bytes[self.len..end].copy_from_slice(piece);
        self.len = end;
    }

    /// Lets no byte wait any more.
    pub(crate) fn clear(&mut self)
        ensures { self.new ≡ [] }
    {
        self.len = 0;
    }
}
