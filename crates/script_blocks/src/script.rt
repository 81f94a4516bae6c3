//! Lists kept as blocks, which contracts see as what they stand for.
ghost use Rattle.std.specs.Prelude.{◌≡◌, ◌<◌, ◌≤◌, ◌^◌, ◌↔◌, [], ◌∷◌, length, slice_get, true, IfOk, IsTrue, MatchOption};
ghost use Rattle.std.specs.Option.{option_copied};
ghost use Rattle.std.specs.Iterator.{YieldsFirst, item_count};
ghost use Rattle.script_blocks.specs.Expansion.{expansion, parts_expansion};
ghost use Rattle.script_blocks.specs.Nesting.{is_proper, nesting, parts_nesting};

use crate::place::Place;
use crate::{BlockPart, Blocks, fold};
use std::alloc::{AllocError, Global};
use std::marker::Model;
use std::sync::Arc;

/// A list kept as blocks, which contracts see as the list that they stand for. Each repeat has a count of at least 2 and a
/// body with a part, and there are fewer than 2^32 items. The blocks may have several owners.
#[derive(Drop)]
pub struct Script<T> {
    blocks: Arc<Blocks<T>>,
    len: u32,
}

impl<T> Model for Script<T> {
    ghost use Rattle.std.specs.Prelude.{List};
    ghost use Rattle.std.specs.Arc.{arc_value};
    ghost use Rattle.std.specs.Coded.{coded_list};
    ghost use Rattle.script_blocks.specs.Expansion.{expansion};
    ghost use Rattle.script_blocks.specs.Scripts.{IsKept};

    ghost Value = { List T };

    ghost coded = { coded_list T.code };

    ghost view = { λ script. expansion (arc_value script.blocks) };

    ghost invariant = { λ script. IsKept (arc_value script.blocks) script.len };
}

impl<T: Drop> Script<T> {
    /// The script of these blocks, or want of memory.
    pub fn of_blocks(alloc: Global, blocks: Blocks<T>) -> Result<Script<T>, AllocError>
        requires proper { IsTrue (is_proper blocks) }
        requires short { length (expansion blocks) < 2 ^ 32 }
        ensures { IfOk result (λ script. script ≡ expansion blocks) }
    {
        let Some(len) = blocks.expanded_len() else {
            unreachable!()
        };
        let blocks = Arc::new(alloc, blocks)?;
        Ok(Script {
            blocks,
            len: len as u32,
        })
    }
}

impl<T: Copy> Script<T> {
    /// The script of these items, with a part for each, or want of memory.
    pub fn of_items(alloc: Global, items: &[T]) -> Result<Script<T>, AllocError>
        requires { length items.now < 2 ^ 32 }
        ensures { IfOk result (λ script. script ≡ items.now) }
    {
        let blocks = Blocks::of_items(alloc, items)?;
        Script::of_blocks(alloc, blocks)
    }
}

impl<T: Copy + Eq> Script<T> {
    /// The script of these items, where the stretches that repeat are folded, or want of memory. Two items that compare
    /// equal have to be the same value.
    pub fn folded(alloc: Global, items: &[T]) -> Result<Script<T>, AllocError>
        requires same { (a b : T) → T.eq a b ≡ true → a ≡ b }
        requires short { length items.now < 2 ^ 32 }
        ensures { IfOk result (λ script. script ≡ items.now) }
    {
        let blocks = fold(alloc, items)?;
        Script::of_blocks(alloc, blocks)
    }
}

impl<T> Script<T> {
    /// The number of items.
    pub fn len(&self) -> u32
        ensures { result ≡ length self.now }
    {
        self.len
    }

    /// Whether there is no item.
    pub fn is_empty(&self) -> bool
        ensures { IsTrue result ↔ (self.now ≡ []) }
    {
        self.len == 0
    }

    /// The blocks.
    pub fn blocks(&self) -> &Blocks<T>
        ensures stands { expansion result.now ≡ self.now }
        ensures proper { IsTrue (is_proper result.now) }
        ensures shallow { nesting result.now ≤ 31 }
    {
        &self.blocks
    }

    /// Another owner of the same blocks, or want of memory.
    pub fn share(&self) -> Result<Script<T>, AllocError>
        ensures { IfOk result (λ script. script ≡ self.now) }
    {
        let blocks = Arc::try_clone(&self.blocks)?;
        Ok(Script {
            blocks,
            len: self.len,
        })
    }
}

impl<T: Copy> Script<T> {
    /// The items, in order. It takes no memory.
    pub fn iter(&self) -> ScriptItems<'_, T>
        ensures items { result ≡ self.now }
        ensures few { length self.now < 2 ^ 32 }
    {
        ScriptItems::over(self.blocks.parts.as_slice())
    }
}

/// The items of a script in order, seen as the list of those that are left. It takes no memory: its frames stand in place,
/// which serves since a script nests at most 31 deep.
#[derive(Drop)]
pub struct ScriptItems<'a, T> {
    parts: &'a [BlockPart<T>],
    place: Place<T>,
}

impl<'a, T> Model for ScriptItems<'a, T> {
    ghost use Rattle.std.specs.Prelude.{List};
    ghost use Rattle.std.specs.Coded.{coded_list};
    ghost use Rattle.script_blocks.specs.Scripts.{IsWalk, items_left};

    ghost Value = { List T };

    ghost coded = { coded_list T.code };

    ghost view = { λ items. items_left items.place items.parts.now };

    ghost invariant = { λ items. IsWalk items.place items.parts.now };
}

impl<'a, T: Copy> ScriptItems<'a, T> {
    // All items of these parts.
    fn over(parts: &'a [BlockPart<T>]) -> ScriptItems<'a, T>
        requires { parts_nesting parts.now ≤ 31 }
        ensures { result ≡ parts_expansion parts.now }
    {
        let place = Place::before(parts);
        ScriptItems { parts, place }
    }

    /// The item that `next` would give, or `None` where there is no more. It takes no memory.
    pub fn peek(&self) -> Option<&T>
        ensures { option_copied result ≡ slice_get self.now 0 }
    {
        self.place.peek(self.parts)
    }
}

impl<'a, T: Copy> Iterator for ScriptItems<'a, T> {
    type Item = T;

    ghost next_gives = { YieldsFirst (λ rest. rest) };

    ghost remaining = { item_count (λ rest. rest) };

    fn next(&mut self) -> Option<T> {
        self.place.next(self.parts)
    }
}

/// A place in a script, seen as the list of the items that are left. It owns its share of the blocks.
#[derive(Drop)]
pub struct ScriptCursor<T> {
    blocks: Arc<Blocks<T>>,
    place: Place<T>,
}

impl<T> Model for ScriptCursor<T> {
    ghost use Rattle.std.specs.Prelude.{List};
    ghost use Rattle.std.specs.Arc.{arc_value};
    ghost use Rattle.std.specs.Coded.{coded_list};
    ghost use Rattle.script_blocks.specs.Scripts.{IsWalk, items_left};

    ghost Value = { List T };

    ghost coded = { coded_list T.code };

    ghost view = { λ cursor. items_left cursor.place (arc_value cursor.blocks).parts };

    ghost invariant = { λ cursor. IsWalk cursor.place (arc_value cursor.blocks).parts };
}

impl<T: Copy> ScriptCursor<T> {
    /// A cursor before the first item of a script, or want of memory.
    pub fn new(script: &Script<T>) -> Result<ScriptCursor<T>, AllocError>
        ensures { IfOk result (λ cursor. cursor ≡ script.now) }
    {
        let blocks = Arc::try_clone(&script.blocks)?;
        let place = Place::before(blocks.parts.as_slice());
        Ok(ScriptCursor { blocks, place })
    }

    /// The item that `next` would give, or `None` where there is no more. It takes no memory.
    pub fn peek(&self) -> Option<&T>
        ensures { option_copied result ≡ slice_get self.now 0 }
    {
        self.place.peek(self.blocks.parts.as_slice())
    }

    /// The next item, or `None` exactly where there is no more. It takes no memory.
    pub fn next(&mut self) -> Option<T>
        ensures { MatchOption result ((self.old ≡ []) × (self.new ≡ []))
            (λ item. self.old ≡ item ∷ self.new) }
    {
        self.place.next(self.blocks.parts.as_slice())
    }
}
