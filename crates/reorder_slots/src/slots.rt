ghost use Rattle.std.specs.Prelude.{◌≡◌, ◌<◌, ◌↔◌, length, All, IfOk, IsTrue};
ghost use Rattle.channel_class.specs.Classes.{never_falls};
ghost use Rattle.reorder_slots.specs.Slots.{FindsItsToken, NamesAllBelow, gets_before, hold_of, slots_of_gets, slots_of_uses};

use crate::reader::Reader;
use crate::tokens::last_uses;
use plain_data::Items;
use std::alloc::{AllocError, Global};

/// Where the reader of a channel keeps the tokens that it gets, until their last use.
#[derive(Drop)]
pub struct SlotPlan {
    /// For each use, how many Gets stand before it.
    pub gets_before: Items<u32>,
    /// The slot of each Get.
    pub slot_of_get: Items<u32>,
    /// The slot in which each use finds its token.
    pub slot_of_use: Items<u32>,
    /// The number of slots.
    pub hold: u32,
}

/// The slots of a channel at its reader, given the token that each use names. Before a use as many Gets stand as let it
/// find its token. A slot is free where its token has no use any more; each Get takes the lowest free slot, else a new
/// one. The time is near linear. Nothing is refused but want of memory.
#[tactic(auto, using(crate::proofs::Laws::finds, crate::proofs::Laws::one_slot))]
pub fn plan(alloc: Global, uses: &[u32]) -> Result<SlotPlan, AllocError>
    requires dense { NamesAllBelow uses.now }
    requires small { All (λ named. named < 4294967295) uses.now }
    ensures gets { IfOk result (λ plan. plan.gets_before ≡ gets_before uses.now) }
    ensures slots { IfOk result (λ plan. plan.slot_of_get ≡ slots_of_gets uses.now) }
    ensures uses { IfOk result (λ plan. plan.slot_of_use ≡ slots_of_uses uses.now) }
    ensures hold { IfOk result (λ plan. plan.hold ≡ hold_of uses.now) }
    ensures found { FindsItsToken uses.now }
    ensures one { 0 < length uses.now → ((hold_of uses.now ≡ 1) ↔ IsTrue (never_falls uses.now)) }
{
    let last_uses = last_uses(alloc, uses)?;
    let mut reader = Reader::new(alloc);
    let mut gets_before = Items::new(alloc);
    let mut slot_of_use = Items::new(alloc);
    for (number, token) in uses.iter().enumerate() {
        let token = *token as usize;
        reader.get_up_to(token)?;
        gets_before.push(reader.gets())?;
        let is_last = last_uses[token] == number;
        slot_of_use.push(reader.find(token, is_last)?)?;
    }
    Ok(SlotPlan {
        gets_before,
        slot_of_get: Items::from_vec(reader.slot_of_get),
        slot_of_use,
        hold: reader.hold,
    })
}
