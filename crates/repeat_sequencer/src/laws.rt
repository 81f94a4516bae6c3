ghost use Rattle.std.specs.Prelude.{◌≡◌, ◌≤◌, ◌+◌, ℕ, true, length, None};
ghost use Rattle.script_blocks.specs.declared.blocks.Blocks.{Blocks};
ghost use Rattle.script_blocks.specs.Expansion.{expansion, repeated};
ghost use Rattle.script_blocks.specs.Nesting.{is_proper};
ghost use Rattle.script_blocks.specs.Nodes.{node_count};
ghost use Rattle.repeat_sequencer.specs.Instructions.{sequencer_of};
ghost use Rattle.repeat_sequencer.specs.Size.{end_count, item_count};
ghost use Rattle.repeat_sequencer.specs.Steps.{at_end, at_start, item_at, step, step_and_restart, Gives};

// Each of these does nothing: its contract is a law over the definitions.

/// The sequencer of proper blocks gives from its start what they stand for, an item at each step, and then stands at its
/// end, where it gives nothing.
pub fn one_round<T: Copy>()
    ensures gives { (blocks : Blocks T) → is_proper blocks ≡ true
        → Gives (sequencer_of blocks) (step (sequencer_of blocks)) (at_start (sequencer_of blocks))
        (expansion blocks) (at_end (sequencer_of blocks)) }
    ensures ends { (blocks : Blocks T)
        → item_at (sequencer_of blocks) (at_end (sequencer_of blocks)) ≡ None }
{}

/// Where it begins anew at its end, it gives this any number of times, and then stands at its start.
pub fn rounds<T: Copy>()
    ensures { (blocks : Blocks T) (count : ℕ) → is_proper blocks ≡ true
        → Gives (sequencer_of blocks) (step_and_restart (sequencer_of blocks))
        (at_start (sequencer_of blocks)) (repeated count (expansion blocks))
        (at_start (sequencer_of blocks)) }
{}

/// It has as many instructions as the blocks have items, each counted once. In proper blocks each repeat ends once, so with
/// the ends behind them these are the nodes of the blocks: its size is a matter of how the blocks are kept, and not of their
/// counts. They are never more than the items that proper blocks stand for.
pub fn size<T: Copy>()
    ensures items { (blocks : Blocks T)
        → length (sequencer_of blocks).instructions ≡ item_count blocks }
    ensures nodes { (blocks : Blocks T) → item_count blocks ≤ node_count blocks }
    ensures ends { (blocks : Blocks T) → is_proper blocks ≡ true
        → item_count blocks + end_count (sequencer_of blocks) ≡ node_count blocks }
    ensures within { (blocks : Blocks T) → is_proper blocks ≡ true
        → length (sequencer_of blocks).instructions ≤ length (expansion blocks) }
{}
