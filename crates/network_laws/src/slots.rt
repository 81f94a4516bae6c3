ghost use Rattle.std.specs.Prelude.{◌≡◌, ◌<◌, ◌≤◌, ℕ, List, slice_index};
ghost use Rattle.reorder_slots.specs.Slots.{KeepsUntilUsed, gets_for, hold_of, slots_of_gets};
ghost use Rattle.network_laws.specs.LiveTokens.{live_tokens};

/// The hold of a channel is the least number of slots for its Gets, which stand where the script has them, as late as they can:
/// the slots that they are given are so many and keep each token until its last use, and whichever slots do that, there are at
/// least as many. It is the greatest number of tokens that are live at once: got and with a use to come, the one that is being
/// got included. Whether two channels of a process could share a slot isn't looked at. It does nothing: its contract is a law
/// over the definitions.
pub fn hold_is_least()
    ensures enough { (uses : List ℕ)
        → KeepsUntilUsed uses (λ get. slice_index (slots_of_gets uses) get) }
    ensures within { (uses : List ℕ) (get : ℕ) → get < gets_for uses
        → slice_index (slots_of_gets uses) get < hold_of uses }
    ensures least { (uses : List ℕ) (slot_of : ℕ → ℕ) (slots : ℕ) → KeepsUntilUsed uses slot_of
        → ((get : ℕ) → get < gets_for uses → slot_of get < slots) → hold_of uses ≤ slots }
    ensures live { (uses : List ℕ) (get : ℕ) → get < gets_for uses
        → live_tokens uses get ≤ hold_of uses }
    ensures met { (uses : List ℕ) → 0 < gets_for uses
        → (get : ℕ) × (get < gets_for uses) × (live_tokens uses get ≡ hold_of uses) }
{}
