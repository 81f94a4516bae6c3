ghost use Rattle.std.specs.Prelude.{◌≡◌, ◌≤◌, ◌+◌, ℕ, List, Option};
ghost use Rattle.std.specs.Io.{ReadsAtMost, WritesAtMost};
ghost use Rattle.std.specs.Io.KnownBytes.{ReadConsumes, WriteAppends};
ghost use Rattle.io_edge.specs.Causes.{ReadCause, WriteCause, one_more};

use thiserror::Error;

/// A read or a write failed.
#[derive(Clone, Copy, Debug, PartialEq, Eq, Error)]
#[error("a read or a write failed")]
pub struct Failed;

/// Where bytes come from.
pub trait Source {
    /// The bytes that are left, where the source tells them.
    ghost left: { Self → Option (List ℕ) };

    /// How many faults there were.
    ghost faults: { Self → ℕ };

    /// How many reads there were, where the source counts them, else always the same number.
    ghost reads: { Self → ℕ };

    /// Fills a front of the buffer with the next bytes, and gives their number.
    ///
    /// `Ok(0)` for a non-empty buffer is the end of input. At `Failed` no byte is lost, and the count rose.
    fn read(&mut self, buf: &mut [u8]) -> Result<usize, Failed>
        ensures bound { ReadsAtMost result buf.new }
        ensures bytes { ReadConsumes (left self.old) (left self.new) result buf.new }
        ensures cause { ReadCause (faults self.old) (faults self.new) result }
        ensures one { reads self.new ≤ reads self.old + 1 };
}

/// Where bytes go.
pub trait Sink {
    /// The bytes that it holds, where the sink tells them.
    ghost held: { Self → Option (List ℕ) };

    /// How many faults there were.
    ghost faults: { Self → ℕ };

    /// Takes a front of the piece, and gives its length.
    ///
    /// At `Ok(0)` for a non-empty piece, and at `Failed`, nothing was taken and the count rose.
    fn write(&mut self, piece: &[u8]) -> Result<usize, Failed>
        ensures bound { WritesAtMost result piece.now }
        ensures bytes { WriteAppends (held self.old) (held self.new) result piece.now }
        ensures cause { WriteCause (faults self.old) (faults self.new) piece.now result };
}

/// A count after one more. At its last value it stands still.
pub(crate) fn raised(count: u64) -> u64
    ensures { result ≡ one_more count }
{
    count.saturating_add(1)
}
