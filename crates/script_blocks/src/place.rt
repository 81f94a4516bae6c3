ghost use Rattle.std.specs.Prelude.{◌≡◌, ◌≤◌, [], ◌∷◌, slice_get, MatchOption};
ghost use Rattle.std.specs.Option.{option_copied};
ghost use Rattle.script_blocks.specs.Expansion.{parts_expansion};
ghost use Rattle.script_blocks.specs.Nesting.{parts_nesting};
ghost use Rattle.script_blocks.specs.Scripts.{IsReady, items_left};

use crate::BlockPart;
use crate::batch::Batch;
use crate::cursor::{Frame, START, fill_in, restart};

/// A place in parts that nest at most 31 deep. The walk from the outermost list of parts inwards is made once for a batch
/// of items, and not for each. The next item is always in the batch, so a look at it costs the same at any depth.
#[derive(Drop)]
pub(crate) struct Place<T> {
    /// Where the walk is: behind the batch.
    frames: [Frame; 32],
    /// The items that the walk last came by.
    batch: Batch<T>,
    /// How many of them were given.
    given: usize,
}

impl<T: Copy> Place<T> {
    /// The place before all items of these parts.
    pub(crate) fn before(parts: &[BlockPart<T>]) -> Place<T>
        requires { parts_nesting parts.now ≤ 31 }
        ensures left { items_left result parts.now ≡ parts_expansion parts.now }
        ensures ready { IsReady result parts.now }
    {
        let mut frames = [START; 32];
        restart(parts, &mut frames);
        let mut batch = Batch::new();
        fill_in(parts, &mut frames, &mut batch);
        Place {
            frames,
            batch,
            given: 0,
        }
    }

    /// The item that `next` would give, or `None` where there is no more.
    pub(crate) fn peek(&self, parts: &[BlockPart<T>]) -> Option<&T>
        requires { IsReady self.now parts.now }
        ensures { option_copied result ≡ slice_get (items_left self.now parts.now) 0 }
    {
        let _ = parts;
        self.batch.get(self.given)
    }

    // Gets the next batch, if all items of this one were given.
    #[tactic(auto, using(crate::proofs::CursorItems::giving))]
    fn prepare(&mut self, parts: &[BlockPart<T>])
        requires { parts_nesting parts.now ≤ 31 }
        ensures left { items_left self.new parts.now ≡ items_left self.old parts.now }
        ensures ready { IsReady self.new parts.now }
    {
        if self.given < self.batch.len() {
            return;
        }
        self.batch.clear();
        self.given = 0;
        fill_in(parts, &mut self.frames, &mut self.batch);
    }

    /// The next item, or `None` exactly where there is no more.
    #[tactic(auto, using(crate::proofs::CursorItems::giving))]
    pub(crate) fn next(&mut self, parts: &[BlockPart<T>]) -> Option<T>
        requires nesting { parts_nesting parts.now ≤ 31 }
        requires ready { IsReady self.old parts.now }
        ensures next { MatchOption result
            ((items_left self.old parts.now ≡ []) × (items_left self.new parts.now ≡ []))
            (λ item. items_left self.old parts.now ≡ item ∷ items_left self.new parts.now) }
        ensures ready { IsReady self.new parts.now }
    {
        let item = self.batch.get(self.given).copied()?;
        self.given += 1;
        self.prepare(parts);
        Some(item)
    }
}
