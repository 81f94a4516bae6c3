ghost use Rattle.std.specs.Prelude.{◌≡◌, map, IfOk};
ghost use Rattle.network_numbers.specs.Queues.{after_end, after_use};

use std::alloc::{AllocError, Global};

/// How many of a channel's writer's turns the uses so far have wanted, up to the last one that was used, and the greatest length
/// that its queue has had at the end of an entry.
#[derive(Clone, Copy)]
pub(crate) struct QueueCounts {
    pub wanted: usize,
    greatest: u32,
}

impl QueueCounts {
    /// No use yet, and nothing put.
    pub(crate) const EMPTY: QueueCounts = QueueCounts {
        wanted: 0,
        greatest: 0,
    };

    /// Counts a use that wants so many turns.
    pub(crate) fn note_use(&mut self, wanted: usize)
        ensures { self.new ≡ after_use wanted self.old }
    {
        self.wanted = self.wanted.max(wanted);
    }

    /// Counts the end of an entry, at which the queue has this length.
    pub(crate) fn note_end(&mut self, length: u32)
        ensures { self.new ≡ after_end length self.old }
    {
        self.greatest = self.greatest.max(length);
    }
}

/// The greatest length of each channel's queue.
pub(crate) fn greatest_lengths(
    alloc: Global,
    queues: &[QueueCounts],
) -> Result<Vec<u32>, AllocError>
    ensures { IfOk result (λ lengths. lengths.items ≡ map (λ queue. queue.greatest) queues.now) }
{
    queues.iter().map(|queue| queue.greatest).collect(alloc)
}
