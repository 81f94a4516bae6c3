ghost use Rattle.std.specs.Prelude.{◌≡◌, ◌<◌, ◌≤◌, ◌+◌, ◌⊎◌, ◌&&◌, ◌==◌, ℕ, List, not, slice_index, vec_len, IfOk, OnOk, IsTrue};
ghost use Rattle.std.specs.BTreeSet.{contains};
ghost use Rattle.std.specs.Ordering.{nat_cmp};
ghost use Rattle.reorder_slots.specs.Slots.{nothing_held};
ghost use Rattle.reorder_slots.specs.Readers.{Keeps, KeepsThroughGet, KeepsThroughGets, KeepsThroughUse};

use std::alloc::{AllocError, Global};
use std::collections::BTreeSet;

/// The reader of a channel with its slots, before a use.
#[derive(Drop)]
pub(crate) struct Reader {
    /// The slots that are free.
    free: BTreeSet<u32>,
    /// The slot of each Get so far.
    pub(crate) slot_of_get: Vec<u32>,
    /// The number of slots so far.
    pub(crate) hold: u32,
}

impl Reader {
    /// Before the first Get.
    pub(crate) fn new(alloc: Global) -> Reader
        ensures { (uses : List ℕ) → Keeps uses 0 nothing_held result }
    {
        Reader {
            free: BTreeSet::new(alloc),
            slot_of_get: Vec::new(alloc),
            hold: 0,
        }
    }

    /// The number of Gets so far.
    pub(crate) fn gets(&self) -> u32
        requires { vec_len self.now.slot_of_get < 4294967296 }
        ensures { result ≡ vec_len self.now.slot_of_get }
    {
        self.slot_of_get.len() as u32
    }

    // Takes the lowest free slot, else a new one.
    fn take_slot(&mut self) -> u32
        requires { self.old.hold < 4294967295 }
        ensures gets { self.new.slot_of_get.items ≡ self.old.slot_of_get.items }
        ensures lowest { (slot : ℕ) → slot < result
            → IsTrue (not (contains nat_cmp self.old.free slot)) }
        ensures free_or_new { (IsTrue (contains nat_cmp self.old.free result)
            × (self.new.hold ≡ self.old.hold))
            ⊎ ((result ≡ self.old.hold) × (self.new.hold ≡ self.old.hold + 1)) }
        ensures taken { (slot : ℕ)
            → contains nat_cmp self.new.free slot
            ≡ (not (slot == result) && contains nat_cmp self.old.free slot) }
    {
        match self.free.pop_first() {
            Some(slot) => slot,
            None => {
                let slot = self.hold;
                self.hold += 1;
                slot
            }
        }
    }

    // One Get.
    fn get(&mut self) -> Result<(), AllocError>
        requires { self.old.hold < 4294967295 }
        ensures len { OnOk result
            (vec_len self.new.slot_of_get ≡ vec_len self.old.slot_of_get + 1) }
        ensures hold { OnOk result (self.new.hold ≤ self.old.hold + 1) }
        ensures kept { OnOk result (KeepsThroughGet self.old self.new) }
    {
        let slot = self.take_slot();
        self.slot_of_get.push(slot)?;
        Ok(())
    }

    /// As many Gets as let the reader find this token.
    pub(crate) fn get_up_to(&mut self, token: usize) -> Result<(), AllocError>
        requires small { token < 4294967295 }
        requires hold { self.old.hold ≤ vec_len self.old.slot_of_get }
        ensures hold { OnOk result (self.new.hold ≤ vec_len self.new.slot_of_get) }
        ensures kept { OnOk result (KeepsThroughGets self.old self.new token) }
    {
        while self.slot_of_get.len() <= token {
            self.get()?;
        }
        Ok(())
    }

    /// The slot of a token. It is free from now on where this was the token's last use.
    pub(crate) fn find(&mut self, token: usize, is_last: bool) -> Result<u32, AllocError>
        requires { token < vec_len self.old.slot_of_get }
        ensures slot { IfOk result (λ slot. slot ≡ slice_index self.old.slot_of_get.items token) }
        ensures gets { self.new.slot_of_get.items ≡ self.old.slot_of_get.items }
        ensures hold { self.new.hold ≡ self.old.hold }
        ensures kept { OnOk result (KeepsThroughUse self.old self.new token is_last) }
    {
        let slot = self.slot_of_get[token];
        if is_last {
            self.free.insert(slot)?;
        }
        Ok(slot)
    }
}
