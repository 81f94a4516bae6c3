ghost use Rattle.std.specs.Prelude.{◌≡◌, ◌≢◌, ◌+◌, ◌≤◌, ◌∷◌, ◌++◌, [], true, length, IfOk, OnOk};
ghost use Rattle.script_blocks.specs.Expansion.{expansion};
ghost use Rattle.script_blocks.specs.Nesting.{is_proper, nesting, part_nesting, parts_nesting};
ghost use Rattle.repeat_sequencer.specs.Instructions.{part_code, parts_code, sequencer_of};
ghost use Rattle.repeat_sequencer.specs.Steps.{at_end, at_start, step, Gives};

use plain_data::Items;
use script_blocks::{BlockPart, Blocks};
use std::alloc::{AllocError, Global};

/// A repeat that ends behind an instruction.
#[derive(Clone, Copy, Debug, PartialEq, Eq)]
pub struct RepeatEnd {
    /// How many repeats stand round it. Its turns are counted by the counter of this number.
    pub level: usize,
    /// The number of its first instruction.
    pub first: usize,
    /// How many turns it has.
    pub count: u32,
}

/// An instruction of a sequencer: an item, and the repeats that end behind it, innermost first.
#[derive(Drop)]
pub struct Instruction<T> {
    pub item: T,
    pub ends: Items<RepeatEnd>,
}

/// A sequencer with repeat counters, as microprogrammed controls have them: its instructions in order, and how many counters
/// it has, one for each level of nesting.
#[derive(Drop)]
pub struct Sequencer<T> {
    pub levels: usize,
    pub instructions: Items<Instruction<T>>,
}

// How deep the repeats of these parts nest.
#[cycle(levels)]
#[tactic(auto, using(crate::proofs::Builds::nestings))]
fn levels_of<T>(parts: &[BlockPart<T>]) -> usize
    requires { parts_nesting parts.now ≤ 31 }
    ensures { result ≡ parts_nesting parts.now }
{
    let mut levels: usize = 0;
    for part in parts {
        levels = levels.max(levels_of_part(part));
    }
    levels
}

#[cycle(levels)]
fn levels_of_part<T>(part: &BlockPart<T>) -> usize
    requires { part_nesting part.now ≤ 31 }
    ensures { result ≡ part_nesting part.now }
{
    match part {
        BlockPart::Item(_) => 0,
        BlockPart::Repeat(_, body) => levels_of(body.parts.as_slice()) + 1,
    }
}

// A repeat's end before the ends of those round it.
fn with_end(alloc: Global, end: RepeatEnd, ends: &[RepeatEnd]) -> Result<Vec<RepeatEnd>, AllocError>
    ensures { IfOk result (λ all. all.items ≡ end ∷ ends.now) }
{
    let mut all = Vec::new(alloc);
    all.push(end)?;
    all.extend_from_slice(ends)?;
    Ok(all)
}

// The repeats that end behind a part that so many follow: these behind the last, else none.
fn ends_before(later: usize, ends: &[RepeatEnd]) -> &[RepeatEnd]
    ensures last { later ≡ 0 → result.now ≡ ends.now }
    ensures others { later ≢ 0 → result.now ≡ [] }
{
    if later == 0 { ends } else { &ends[..0] }
}

// Adds the instructions of these parts at a level. These repeats end behind the last.
#[cycle(code)]
#[tactic(auto, using(crate::proofs::Builds::nestings))]
fn add_parts<T: Copy>(
    parts: &[BlockPart<T>],
    level: usize,
    ends: &[RepeatEnd],
    code: &mut Items<Instruction<T>>,
) -> Result<(), AllocError>
    requires { level + parts_nesting parts.now ≤ 31 }
    ensures { OnOk result
        (code.new ≡ code.old ++ parts_code parts.now level (length code.old) ends.now) }
{
    let mut later = parts.len();
    for part in parts {
        later -= 1;
        add_part(part, level, ends_before(later, ends), code)?;
    }
    Ok(())
}

// Adds the instructions of a part.
#[cycle(code)]
#[tactic(auto, using(crate::proofs::Builds::codes))]
fn add_part<T: Copy>(
    part: &BlockPart<T>,
    level: usize,
    ends: &[RepeatEnd],
    code: &mut Items<Instruction<T>>,
) -> Result<(), AllocError>
    requires { level + part_nesting part.now ≤ 31 }
    ensures { OnOk result
        (code.new ≡ code.old ++ part_code part.now level (length code.old) ends.now) }
{
    match part {
        BlockPart::Item(item) => {
            let ends = Items::from_slice(code.allocator(), ends)?;
            code.push(Instruction { item: *item, ends })
        }
        BlockPart::Repeat(count, body) => {
            let end = RepeatEnd {
                level,
                first: code.len(),
                count: *count,
            };
            let all = with_end(code.allocator(), end, ends)?;
            add_parts(body.parts.as_slice(), level + 1, all.as_slice(), code)
        }
    }
}

// The sequencer of blocks, by its definition.
fn sequencer_for<T: Copy>(alloc: Global, blocks: &Blocks<T>) -> Result<Sequencer<T>, AllocError>
    requires { nesting blocks.now ≤ 31 }
    ensures { IfOk result (λ sequencer. sequencer ≡ sequencer_of blocks.now) }
{
    let parts = blocks.parts.as_slice();
    let mut instructions = Items::new(alloc);
    add_parts(parts, 0, &[], &mut instructions)?;
    Ok(Sequencer {
        levels: levels_of(parts),
        instructions,
    })
}

impl<T: Copy> Sequencer<T> {
    /// The sequencer of blocks that nest at most 31 deep, as those of a script do, or want of memory. It has as many
    /// instructions as the blocks have items, each counted once. Of proper blocks it gives from its start what they stand for.
    pub fn of_blocks(alloc: Global, blocks: &Blocks<T>) -> Result<Sequencer<T>, AllocError>
        requires { nesting blocks.now ≤ 31 }
        ensures sequencer { IfOk result (λ sequencer. sequencer ≡ sequencer_of blocks.now) }
        ensures gives { IfOk result (λ sequencer. is_proper blocks.now ≡ true
            → Gives sequencer (step sequencer) (at_start sequencer) (expansion blocks.now)
            (at_end sequencer)) }
    {
        sequencer_for(alloc, blocks)
    }
}
