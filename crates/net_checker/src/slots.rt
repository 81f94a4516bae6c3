ghost use Rattle.std.specs.Prelude.{◌≡◌, None, Some, replicate, slice_get, slice_set, IfOk, OnOk};
ghost use Rattle.net_checker.specs.SlotRows.{slots_in};

use std::alloc::{AllocError, Global};
use std::collections::BTreeMap;

/// The slots of a process. The first ones stand in a row, and each other one is kept in a map once it is filled, so that a number
/// of slots takes no memory by itself.
#[derive(Drop)]
pub(crate) struct Slots<T> {
    count: u32,
    row: Vec<Option<T>>,
    others: BTreeMap<u32, T>,
}

impl<T: Copy> Slots<T> {
    /// So many empty slots, of which at most so many stand in the row; or want of memory.
    #[tactic(auto, using(crate::proofs::SlotLemmas::all_empty))]
    pub(crate) fn new(alloc: Global, count: u32, most: u64) -> Result<Slots<T>, AllocError>
        ensures { IfOk result (λ slots. slots_in slots ≡ replicate count None) }
    {
        let row = most.min(u64::from(count));
        Ok(Slots {
            count,
            row: vec![in alloc; None; row as usize]?,
            others: BTreeMap::new(alloc),
        })
    }

    /// What lies in a slot, if the slot is there. It takes no memory.
    pub(crate) fn get(&self, slot: u32) -> Option<Option<T>>
        ensures { result ≡ slice_get (slots_in self.now) slot }
    {
        if slot >= self.count {
            return None;
        }
        match self.row.get(slot as usize) {
            Some(token) => Some(*token),
            None => Some(self.others.get(&slot).copied()),
        }
    }

    /// Fills a slot, if it is there, or answers want of memory.
    pub(crate) fn fill(&mut self, slot: u32, token: T) -> Result<(), AllocError>
        ensures { OnOk result
            (slots_in self.new ≡ slice_set (slots_in self.old) slot (Some token)) }
    {
        if (slot as usize) < self.row.len() {
            self.row[slot as usize] = Some(token);
            return Ok(());
        }
        self.others.insert(slot, token)?;
        Ok(())
    }
}
