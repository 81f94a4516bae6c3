//! What the queues of a network have had.
ghost use Rattle.std.specs.Prelude.{◌≡◌, map, length, IfOk};
ghost use Rattle.witness_plan.specs.Effects.{after_effect, with_get, with_put, HasQueue};

use crate::effects::Effect;
use plain_data::Items;
use std::alloc::{AllocError, Global};

/// How many tokens of a channel were put, how many got, and the greatest length that its queue has had.
#[derive(Clone, Copy)]
pub(crate) struct QueueTotals {
    puts: u32,
    gets: u32,
    greatest: u32,
}

impl QueueTotals {
    /// No token yet.
    pub(crate) const NONE: QueueTotals = QueueTotals {
        puts: 0,
        gets: 0,
        greatest: 0,
    };

    fn note_get(&mut self)
        ensures { self.new ≡ with_get self.old }
    {
        self.gets = self.gets.saturating_add(1);
    }

    fn note_put(&mut self)
        ensures { self.new ≡ with_put self.old }
    {
        self.puts = self.puts.saturating_add(1);
        self.greatest = self.greatest.max(self.puts.saturating_sub(self.gets));
    }
}

/// Notes what an event does.
pub(crate) fn note_effect(effect: Effect, queues: &mut [QueueTotals])
    requires { HasQueue (length queues.old) effect }
    ensures { queues.new ≡ after_effect queues.old effect }
{
    match effect {
        Effect::Take(channel) => queues[channel as usize].note_get(),
        Effect::Nothing => {}
        Effect::Append(channel) => queues[channel as usize].note_put(),
    }
}

/// The greatest length of each queue.
pub(crate) fn greatest_lengths(
    alloc: Global,
    queues: &[QueueTotals],
) -> Result<Items<u32>, AllocError>
    ensures { IfOk result (λ lengths. lengths ≡ map (λ queue. queue.greatest) queues.now) }
{
    let lengths = queues.iter().map(|queue| queue.greatest).collect(alloc)?;
    Ok(Items::from_vec(lengths))
}
