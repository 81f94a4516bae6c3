//! A list that grows, kept by kinds, so that each of its items takes four bytes.
ghost use Rattle.std.specs.Prelude.{◌≡◌, ◌<◌, ◌≤◌, ◌^◌, ◌↔◌, [], ◌∷◌, ◌++◌, length, true, IfOk, IsTrue, OnErr, OnOk};
ghost use Rattle.script_blocks.specs.Expansion.{expansion};
ghost use Rattle.script_blocks.specs.Nesting.{is_proper, nesting};

use crate::folding::fold_labels;
use crate::kinds::{Finder, kind_of};
use crate::{Blocks, Script};
use plain_data::Items;
use std::alloc::{AllocError, Global};
use std::marker::Model;

/// A list that grows, which contracts see as the list of its items. It keeps one item of each kind that was found, and four
/// bytes for each item. Two kinds may hold the same item: how well kinds are found is not promised.
#[derive(Drop)]
pub struct ScriptBuilder<T> {
    kinds: Vec<T>,
    labels: Vec<u32>,
    finder: Finder,
}

impl<T> Model for ScriptBuilder<T> {
    ghost use Rattle.std.specs.Prelude.{List};
    ghost use Rattle.std.specs.Coded.{coded_list};
    ghost use Rattle.script_blocks.specs.Labels.{items_at, AreBelow};

    ghost Value = { List T };

    ghost coded = { coded_list T.code };

    ghost view = { λ builder. items_at builder.kinds.items builder.labels.items };

    ghost invariant = { λ builder. AreBelow builder.kinds.items builder.labels.items };
}

impl<T> ScriptBuilder<T> {
    /// The empty list. It takes no memory.
    pub fn new(alloc: Global) -> ScriptBuilder<T>
        ensures { result ≡ [] }
    {
        ScriptBuilder {
            kinds: Vec::new(alloc),
            labels: Vec::new(alloc),
            finder: Finder::new(alloc),
        }
    }

    /// The number of items.
    pub fn len(&self) -> usize
        ensures { result ≡ length self.now }
    {
        self.labels.as_slice().len()
    }

    /// Whether there is no item.
    pub fn is_empty(&self) -> bool
        ensures { IsTrue result ↔ (self.now ≡ []) }
    {
        self.len() == 0
    }
}

impl<T: Copy + Eq> ScriptBuilder<T> {
    /// Adds an item at the end, or answers want of memory, also where there would be 2^32 kinds; the list is then as it was.
    /// Two items that compare equal have to be the same value.
    pub fn push(&mut self, item: T) -> Result<(), AllocError>
        requires same { (a b : T) → T.eq a b ≡ true → a ≡ b }
        ensures ok { OnOk result (self.new ≡ self.old ++ item ∷ []) }
        ensures err { OnErr result (self.new ≡ self.old) }
    {
        self.push_with_key(0, &item)
    }

    /// Adds an item, as `push` does. Its kind is sought among those with this key: it is soon found where items have the
    /// same key exactly if they are the same, and nothing else depends on the key.
    pub fn push_with_key(&mut self, key: u32, item: &T) -> Result<(), AllocError>
        requires same { (a b : T) → T.eq a b ≡ true → a ≡ b }
        ensures ok { OnOk result (self.new ≡ self.old ++ item.now ∷ []) }
        ensures err { OnErr result (self.new ≡ self.old) }
    {
        let kind = kind_of(&mut self.finder, &mut self.kinds, key, item)?;
        self.labels.push(kind)?;
        self.finder.follow(kind);
        Ok(())
    }
}

impl<T: Copy> ScriptBuilder<T> {
    /// The list with the stretches folded that repeat, or want of memory. Which stretches are found is not promised; a
    /// search proposes them, and each is compared before it is folded.
    pub fn blocks(&self, alloc: Global) -> Result<Blocks<T>, AllocError>
        ensures expansion { IfOk result (λ blocks. expansion blocks ≡ self.now) }
        ensures proper { IfOk result (λ blocks. IsTrue (is_proper blocks)) }
        ensures shallow { IfOk result (λ blocks. nesting blocks ≤ 64) }
    {
        match self.kinds.first() {
            Some(other) => fold_labels(
                alloc,
                self.kinds.as_slice(),
                *other,
                self.labels.as_slice(),
            ),
            None => Ok(Blocks {
                parts: Items::new(alloc),
            }),
        }
    }

    /// The script of these items, folded as by `blocks`, or want of memory.
    pub fn script(self, alloc: Global) -> Result<Script<T>, AllocError>
        requires short { length self < 2 ^ 32 }
        ensures { IfOk result (λ script. script ≡ self) }
    {
        let blocks = self.blocks(alloc)?;
        Script::of_blocks(alloc, blocks)
    }
}
