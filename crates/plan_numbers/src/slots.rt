ghost use Rattle.std.specs.Prelude.{◌≡◌, ◌+◌, ◌-◌, ◌<◌, ◌≤◌, All, length, vec_len, IfOk};
ghost use Rattle.channel_class.specs.Classes.{class_of};
ghost use Rattle.channel_plan.specs.Tokens.{uses_of};
ghost use Rattle.plan_numbers.specs.Numbers.{IsNumbered};
ghost use Rattle.plan_numbers.specs.Slots.{after_gets, after_use};
ghost use Rattle.reorder_slots.specs.Readers.{HasLastUses};
ghost use Rattle.reorder_slots.specs.Slots.{hold_of};

use channel_class::{ChannelClass, UseOrder};
use std::alloc::{AllocError, Global};

// The slots at the reader of a channel, as their numbers: how many Gets there were, how many slots are free, and how many there
// are.
#[derive(Clone, Copy)]
struct SlotCounts {
    gets: usize,
    free: usize,
    hold: usize,
}

impl SlotCounts {
    // Before the first Get.
    const NONE: SlotCounts = SlotCounts {
        gets: 0,
        free: 0,
        hold: 0,
    };

    // As many Gets as let the reader find this token. Each takes a free slot, else a new one.
    fn get_up_to(&mut self, token: usize)
        requires small { token < 4294967295 }
        requires few { self.old.hold ≤ self.old.gets }
        ensures { self.new ≡ after_gets (token + 1 - self.old.gets) self.old }
    {
        if token >= self.gets {
            let count = token + 1 - self.gets;
            self.gets = token + 1;
            self.hold += count.saturating_sub(self.free);
            self.free = self.free.saturating_sub(count);
        }
    }

    // A use of a token. Its slot is free from now on where this was the token's last use.
    fn note_use(&mut self, is_last: bool)
        requires { self.old.free < 4294967296 }
        ensures { self.new ≡ after_use is_last self.old }
    {
        if is_last {
            self.free += 1;
        }
    }
}

// For each of so many turns the number of its last use, and 0 for a turn without one.
fn last_uses(alloc: Global, used: &[u32], turns: usize) -> Result<Vec<usize>, AllocError>
    requires { All (λ turn. turn < turns) used.now }
    ensures turns { IfOk result (λ last. vec_len last ≡ turns) }
    ensures last { IfOk result (λ last. HasLastUses used.now (length used.now) last.items) }
{
    let mut last = vec![in alloc; 0; turns]?;
    for (number, turn) in used.iter().enumerate() {
        last[*turn as usize] = number;
    }
    Ok(last)
}

// How many slots the reader of a channel needs that uses these turns. Each Get takes a free slot, and a slot is free where its
// token has no use any more. Which of the free slots a Get takes makes no difference to their number, so they are only counted.
fn slots_of_uses(alloc: Global, used: &[u32], tokens_before: &[u32]) -> Result<u32, AllocError>
    requires few { length tokens_before.now < 4294967296 }
    requires within { All (λ turn. turn < length tokens_before.now) used.now }
    requires numbered { IsNumbered used.now tokens_before.now }
    ensures { IfOk result (λ hold. hold ≡ hold_of (uses_of used.now)) }
{
    let last_uses = last_uses(alloc, used, tokens_before.len())?;
    let mut slots = SlotCounts::NONE;
    for (number, turn) in used.iter().enumerate() {
        let turn = *turn as usize;
        slots.get_up_to(tokens_before[turn] as usize);
        slots.note_use(last_uses[turn] == number);
    }
    Ok(slots.hold as u32)
}

/// How many slots the reader of a channel of this class needs that uses these turns: one where their order is kept (Compaan
/// 2000).
pub(crate) fn slots_held(
    alloc: Global,
    used: &[u32],
    tokens_before: &[u32],
    class: ChannelClass,
) -> Result<u32, AllocError>
    requires some { 0 < length used.now }
    requires few { length tokens_before.now < 4294967296 }
    requires within { All (λ turn. turn < length tokens_before.now) used.now }
    requires numbered { IsNumbered used.now tokens_before.now }
    requires class { class ≡ class_of (uses_of used.now) }
    ensures { IfOk result (λ hold. hold ≡ hold_of (uses_of used.now)) }
{
    match class.order {
        UseOrder::InOrder => Ok(1),
        UseOrder::Reorder => slots_of_uses(alloc, used, tokens_before),
    }
}
