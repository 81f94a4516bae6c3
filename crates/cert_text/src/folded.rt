ghost use Rattle.std.specs.Prelude.{◌≡◌, ◌<◌, ◌≤◌, ◌^◌, [], ◌++◌, length, IfOk, IsTrue, OnOk};
ghost use Rattle.std.specs.Option.{SomeIff};
ghost use Rattle.script_blocks.specs.Expansion.{expansion, repeated};
ghost use Rattle.script_blocks.specs.Nesting.{is_proper};

use plain_data::Items;
use script_blocks::{BlockPart, Blocks, Script};
use std::alloc::{AllocError, Global};
use std::marker::Model;
use std::mem;

/// The parts of both lists, one after the other, or want of memory.
fn joined<T: Drop>(
    parts: Items<BlockPart<T>>,
    more: Items<BlockPart<T>>,
) -> Result<Items<BlockPart<T>>, AllocError>
    ensures { IfOk result (λ joined. joined ≡ parts ++ more) }
{
    let mut all = parts;
    for part in more.into_vec() {
        all.push(part)?;
    }
    Ok(all)
}

/// A list kept as blocks, which contracts see as the list that they stand for. Each repeat has a count of at least 2 and a
/// body with a part. Unlike a script it may have more items than can be counted.
#[derive(Drop)]
pub(crate) struct FoldedList<T> {
    blocks: Blocks<T>,
}

impl<T> Model for FoldedList<T> {
    ghost use Rattle.std.specs.Prelude.{List, IsTrue};
    ghost use Rattle.std.specs.Coded.{coded_list};
    ghost use Rattle.script_blocks.specs.Expansion.{expansion};
    ghost use Rattle.script_blocks.specs.Nesting.{is_proper};

    ghost Value = { List T };

    ghost coded = { coded_list T.code };

    ghost view = { λ list. expansion list.blocks };

    ghost invariant = { λ list. IsTrue (is_proper list.blocks) };
}

impl<T> FoldedList<T> {
    /// The empty list. It takes no memory.
    pub(crate) fn new(alloc: Global) -> FoldedList<T>
        ensures { result ≡ [] }
    {
        FoldedList {
            blocks: Blocks {
                parts: Items::new(alloc),
            },
        }
    }

    /// The number of items, or `None` exactly where it passes 2^62. It takes no memory.
    pub(crate) fn len(&self) -> Option<u64>
        ensures { SomeIff result (length self.now ≤ 2 ^ 62) (length self.now) }
    {
        self.blocks.expanded_len()
    }
}

impl<T: Drop> FoldedList<T> {
    /// Adds what these blocks stand for at the end, or answers want of memory.
    pub(crate) fn append(&mut self, alloc: Global, more: Blocks<T>) -> Result<(), AllocError>
        requires { IsTrue (is_proper more) }
        ensures { OnOk result (self.new ≡ self.old ++ expansion more) }
    {
        let parts = mem::replace(&mut self.blocks.parts, Items::new(alloc));
        if parts.is_empty() {
            self.blocks = more;
            return Ok(());
        }
        let parts = joined(parts, more.parts)?;
        self.blocks = Blocks { parts };
        Ok(())
    }

    /// Adds so many repetitions of a list at the end, or answers want of memory.
    pub(crate) fn push_repeated(
        &mut self,
        times: u32,
        list: FoldedList<T>,
    ) -> Result<(), AllocError>
        requires { 2 ≤ times }
        ensures { OnOk result (self.new ≡ self.old ++ repeated times list) }
    {
        if list.blocks.parts.is_empty() {
            return Ok(());
        }
        self.blocks
            .parts
            .push(BlockPart::Repeat(times, list.blocks))
    }

    /// The script of these items, or want of memory.
    pub(crate) fn into_script(self, alloc: Global) -> Result<Script<T>, AllocError>
        requires { length self < 2 ^ 32 }
        ensures { IfOk result (λ script. script ≡ self) }
    {
        Script::of_blocks(alloc, self.blocks)
    }
}
