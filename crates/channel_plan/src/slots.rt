ghost use Rattle.std.specs.Prelude.{◌≡◌, ◌<◌, All, IfOk, IsTrue};
ghost use Rattle.channel_class.specs.Classes.{class_of, never_falls};
ghost use Rattle.reorder_slots.specs.Slots.{NamesAllBelow};
ghost use Rattle.channel_plan.specs.Plans.{slot_plan};

use channel_class::{ChannelClass, UseOrder};
use plain_data::Items;
use reorder_slots::{SlotPlan, plan};
use std::alloc::{AllocError, Global};

// The slots of a channel whose uses never fall. Before a use stand the Gets up to its token, and each takes the only slot.
fn one_slot_plan(alloc: Global, uses: &[u32]) -> Result<SlotPlan, AllocError>
    requires order { IsTrue (never_falls uses.now) }
    requires small { All (λ named. named < 4294967295) uses.now }
    ensures { IfOk result (λ plan. plan ≡ slot_plan uses.now) }
{
    let mut gets_before = Vec::with_capacity(alloc, uses.len())?;
    let mut gets = 0;
    for token in uses {
        gets = *token + 1;
        gets_before.push(gets)?;
    }
    let slot_of_get = vec![in alloc; 0; gets as usize]?;
    let slot_of_use = vec![in alloc; 0; uses.len()]?;
    Ok(SlotPlan {
        gets_before: Items::from_vec(gets_before),
        slot_of_get: Items::from_vec(slot_of_get),
        slot_of_use: Items::from_vec(slot_of_use),
        hold: gets.min(1),
    })
}

/// Where the reader of a channel of this class keeps the tokens that these uses name. One slot is enough where the uses
/// never fall (Compaan 2000), so no free slots are kept there.
pub(crate) fn slots_of(
    alloc: Global,
    uses: &[u32],
    class: ChannelClass,
) -> Result<SlotPlan, AllocError>
    requires dense { NamesAllBelow uses.now }
    requires small { All (λ named. named < 4294967295) uses.now }
    requires class { class ≡ class_of uses.now }
    ensures { IfOk result (λ plan. plan ≡ slot_plan uses.now) }
{
    match class.order {
        UseOrder::InOrder => one_slot_plan(alloc, uses),
        UseOrder::Reorder => plan(alloc, uses),
    }
}
