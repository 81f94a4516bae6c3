ghost use Rattle.std.specs.Prelude.{◌≡◌, ◌<◌, ◌≤◌, [], ◌∷◌, ◌++◌, length, slice_get, OnSome};
ghost use Rattle.std.specs.Option.{option_copied};

use std::marker::Model;

/// The most items that a batch has.
pub(crate) const BATCH: usize = 16;

/// At most 16 items, kept in place, which contracts see as their list.
#[derive(Drop)]
pub(crate) struct Batch<T> {
    items: [Option<T>; 16],
    len: usize,
}

impl<T> Model for Batch<T> {
    ghost use Rattle.std.specs.Prelude.{List, take};
    ghost use Rattle.std.specs.Coded.{coded_list};
    ghost use Rattle.script_blocks.specs.Batches.{IsFront, present};

    ghost Value = { List T };

    ghost coded = { coded_list T.code };

    ghost view = { λ batch. present (take batch.len batch.items) };

    ghost invariant = { λ batch. IsFront batch.items batch.len };
}

impl<T: Copy> Batch<T> {
    /// No item.
    pub(crate) fn new() -> Batch<T>
        ensures { result ≡ [] }
    {
        Batch {
            items: [None; 16],
            len: 0,
        }
    }

    /// The number of items.
    pub(crate) fn len(&self) -> usize
        ensures value { result ≡ length self.now }
        ensures few { result ≤ 16 }
    {
        self.len
    }

    /// The item at a place, or `None` past the last.
    pub(crate) fn get(&self, place: usize) -> Option<&T>
        ensures item { option_copied result ≡ slice_get self.now place }
        ensures few { OnSome result (place < 16) }
    {
        if place < self.len {
            self.items[place].as_ref()
        } else {
            None
        }
    }

    /// Takes all items out.
    pub(crate) fn clear(&mut self)
        ensures { self.new ≡ [] }
    {
        self.len = 0;
    }

    /// Adds an item at the end.
    pub(crate) fn push(&mut self, item: T)
        requires { length self.old < 16 }
        ensures { self.new ≡ self.old ++ item ∷ [] }
    {
        self.items[self.len] = Some(item);
        self.len += 1;
    }
}
