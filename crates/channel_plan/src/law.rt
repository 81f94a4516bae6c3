ghost use Rattle.std.specs.List.{All};
ghost use Rattle.channel_plan.specs.Plans.{HasOneSlotInOrder, plans_of};

use sanlp::Nest;

/// A channel of a nest needs one slot exactly where its class is in order, so a FIFO needs no table of slots (Compaan
/// 2000). It does nothing: its contract is a law over the definitions.
#[tactic(auto, using(crate::proofs::OneSlot::one_slot_in_order))]
pub fn one_slot_in_order(nest: &Nest)
    ensures { All HasOneSlotInOrder (plans_of nest.now) }
{}
