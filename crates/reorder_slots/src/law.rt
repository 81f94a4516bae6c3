ghost use Rattle.std.specs.Prelude.{slice_index};
ghost use Rattle.reorder_slots.specs.Slots.{KeepsUntilUsed, slots_of_gets};

/// No Get takes the slot of a token that has a use to come. It does nothing: its contract is a law over the definitions.
pub fn keeps_until_used(uses: &[u32])
    ensures { KeepsUntilUsed uses.now (λ get. slice_index (slots_of_gets uses.now) get) }
{}
