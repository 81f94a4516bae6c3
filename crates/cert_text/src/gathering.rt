//! Lists that grow by items and by repeats.

ghost use Rattle.std.specs.Prelude.{◌≡◌, ◌≤◌, [], ◌∷◌, ◌++◌, true, IfOk, IsTrue, OnOk};
ghost use Rattle.script_blocks.specs.Expansion.{expansion, repeated};
ghost use Rattle.script_blocks.specs.Nesting.{is_proper};

use crate::compact::compact_blocks;
use crate::folded::FoldedList;
use crate::keys::Keyed;
use plain_data::Items;
use script_blocks::{BlockPart, Blocks, ScriptBuilder};
use std::alloc::{AllocError, Global};
use std::marker::Model;
use std::mem;

/// The least number of items at which it is looked whether a run folds.
const LONG: usize = 262_144;

/// A run folds badly where its blocks have more than one node for so many items.
const ITEMS_OF_A_NODE: u64 = 4;

/// So many items are too few to be searched for repeats.
const FEW: usize = 3;

/// Items one after the other, which contracts see as their list. They are kept by kinds once they are more
/// than a few, so that few items take no search.
#[derive(Drop)]
struct Run<T> {
    items: ScriptBuilder<T>,
    few: Items<T>,
}

impl<T> Model for Run<T> {
    ghost use Rattle.std.specs.Prelude.{◌++◌, List};
    ghost use Rattle.std.specs.Coded.{coded_list};

    ghost Value = { List T };

    ghost coded = { coded_list T.code };

    ghost view = { λ run. run.items ++ run.few };
}

/// The blocks of these items as they stand, which take no more memory than they need.
fn unfolded_blocks<T: Drop>(alloc: Global, items: Items<T>) -> Result<Blocks<T>, AllocError>
    ensures expansion { IfOk result (λ blocks. expansion blocks ≡ items) }
    ensures proper { IfOk result (λ blocks. IsTrue (is_proper blocks)) }
{
    let mut parts = Vec::with_capacity(alloc, items.len())?;
    for item in items.into_vec() {
        parts.push(BlockPart::Item(item))?;
    }
    Ok(Blocks {
        parts: Items::from_vec(parts),
    })
}

/// Adds items at the end, or answers want of memory.
fn push_all<T: Copy + Eq + Keyed>(
    items: &mut ScriptBuilder<T>,
    more: &[T],
) -> Result<(), AllocError>
    requires same { (a b : T) → T.eq a b ≡ true → a ≡ b }
    ensures { OnOk result (items.new ≡ items.old ++ more.now) }
{
    for item in more {
        items.push_with_key(item.key(), item)?;
    }
    Ok(())
}

/// Whether it is to be looked whether so many items fold: at a number, and then each time that there are twice as many.
fn is_long(count: usize) -> bool {
    count >= LONG && count.is_power_of_two()
}

/// Whether blocks of so many nodes are few for so many items.
fn folds(nodes: u64, count: usize) -> bool {
    nodes.saturating_mul(ITEMS_OF_A_NODE) <= count as u64
}

impl<T> Run<T> {
    fn new(alloc: Global) -> Run<T>
        ensures { result ≡ [] }
    {
        Run {
            items: ScriptBuilder::new(alloc),
            few: Items::new(alloc),
        }
    }
}

impl<T: Copy + Eq + Keyed> Run<T> {
    fn push(&mut self, item: T) -> Result<(), AllocError>
        requires same { (a b : T) → T.eq a b ≡ true → a ≡ b }
        ensures { OnOk result (self.new ≡ self.old ++ item ∷ []) }
    {
        if self.items.is_empty() && self.few.len() < FEW {
            return self.few.push(item);
        }
        push_all(&mut self.items, self.few.as_slice())?;
        self.few.truncate(0);
        self.items.push_with_key(item.key(), &item)
    }

    /// Moves all items to the end of a list, with the stretches folded that repeat, or answers want of memory.
    fn move_to(&mut self, alloc: Global, list: &mut FoldedList<T>) -> Result<(), AllocError>
        requires same { (a b : T) → T.eq a b ≡ true → a ≡ b }
        ensures list { OnOk result (list.new ≡ list.old ++ self.old) }
        ensures rest { OnOk result (self.new ≡ []) }
    {
        let Run { mut items, few } = mem::replace(self, Run::new(alloc));
        if items.is_empty() {
            let blocks = unfolded_blocks(alloc, few)?;
            return list.append(alloc, blocks);
        }
        push_all(&mut items, few.as_slice())?;
        let blocks = items.blocks(alloc)?;
        let blocks = compact_blocks(alloc, blocks)?;
        list.append(alloc, blocks)
    }

    /// Moves the items that are kept by kinds to the end of a list where they are many that fold badly, or answers want of memory.
    fn settle(&mut self, alloc: Global, list: &mut FoldedList<T>) -> Result<(), AllocError>
        ensures { OnOk result (list.new ++ self.new ≡ list.old ++ self.old) }
    {
        let count = self.items.len();
        if !is_long(count) {
            return Ok(());
        }
        let blocks = self.items.blocks(alloc)?;
        if folds(blocks.nodes(), count) {
            return Ok(());
        }
        let blocks = compact_blocks(alloc, blocks)?;
        self.items = ScriptBuilder::new(alloc);
        list.append(alloc, blocks)
    }
}

/// A list that grows, which contracts see as its items. It folds each run of items as soon as a repeat follows, and before that
/// where the run is long and folds badly. So it takes little more than its blocks and four bytes for each item of the last run.
#[derive(Drop)]
pub(crate) struct Gathering<T> {
    list: FoldedList<T>,
    run: Run<T>,
}

impl<T> Model for Gathering<T> {
    ghost use Rattle.std.specs.Prelude.{◌++◌, List};
    ghost use Rattle.std.specs.Coded.{coded_list};

    ghost Value = { List T };

    ghost coded = { coded_list T.code };

    ghost view = { λ gathering. gathering.list ++ gathering.run };
}

impl<T> Gathering<T> {
    /// The empty list. It takes no memory.
    pub(crate) fn new(alloc: Global) -> Gathering<T>
        ensures { result ≡ [] }
    {
        Gathering {
            list: FoldedList::new(alloc),
            run: Run::new(alloc),
        }
    }
}

impl<T: Copy + Eq + Keyed> Gathering<T> {
    /// Adds an item at the end, or answers want of memory. Two items that compare equal have to be the same value.
    pub(crate) fn push(&mut self, alloc: Global, item: T) -> Result<(), AllocError>
        requires same { (a b : T) → T.eq a b ≡ true → a ≡ b }
        ensures { OnOk result (self.new ≡ self.old ++ item ∷ []) }
    {
        self.run.settle(alloc, &mut self.list)?;
        self.run.push(item)
    }

    /// Adds so many repetitions of a list at the end, or answers want of memory. Two items that compare equal have to be the
    /// same value.
    pub(crate) fn push_repeated(
        &mut self,
        alloc: Global,
        times: u32,
        list: FoldedList<T>,
    ) -> Result<(), AllocError>
        requires same { (a b : T) → T.eq a b ≡ true → a ≡ b }
        requires twice { 2 ≤ times }
        ensures { OnOk result (self.new ≡ self.old ++ repeated times list) }
    {
        self.run.move_to(alloc, &mut self.list)?;
        self.list.push_repeated(times, list)
    }

    /// The whole list, or want of memory. Two items that compare equal have to be the same value.
    pub(crate) fn into_list(mut self, alloc: Global) -> Result<FoldedList<T>, AllocError>
        requires same { (a b : T) → T.eq a b ≡ true → a ≡ b }
        ensures { IfOk result (λ list. list ≡ self) }
    {
        self.run.move_to(alloc, &mut self.list)?;
        Ok(self.list)
    }
}
