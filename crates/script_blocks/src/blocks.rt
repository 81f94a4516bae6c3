ghost use Rattle.std.specs.Option.{SomeIff};
ghost use Rattle.std.specs.Prelude.{◌≡◌, ◌≤◌, ◌^◌, length, map, min, IfOk};
ghost use Rattle.script_blocks.specs.declared.blocks.BlockPart.TheVariants.{Item};
ghost use Rattle.script_blocks.specs.Expansion.{expansion, part_expansion, parts_expansion};
ghost use Rattle.script_blocks.specs.Nodes.{node_count, part_nodes, parts_nodes};

use plain_data::Items;
use std::alloc::{AllocError, Global};

/// A list of items in which stretches that repeat may be folded. It stands for its expansion.
#[derive(Drop)]
#[cycle(blocks)]
pub struct Blocks<T> {
    pub parts: Items<BlockPart<T>>,
}

/// A part of a list: one item, or so many repetitions of a body.
#[derive(Drop)]
#[cycle(blocks)]
pub enum BlockPart<T> {
    Item(T),
    Repeat(u32, Blocks<T>),
}

/// One more than the greatest length that is told.
const LENGTH_CAP: u64 = 4_611_686_018_427_387_905;

impl<T: Copy> Blocks<T> {
    /// One part for each item, in order and unfolded, or want of memory.
    #[tactic(auto, using(crate::proofs::Expansions::expansion_laws))]
    pub fn of_items(alloc: Global, items: &[T]) -> Result<Blocks<T>, AllocError>
        ensures items { IfOk result (λ blocks. blocks.parts ≡ map Item items.now) }
        ensures expansion { IfOk result (λ blocks. expansion blocks ≡ items.now) }
        ensures flat { IfOk result (λ blocks. node_count blocks ≡ length items.now) }
    {
        let mut parts = Items::new(alloc);
        for item in items {
            parts.push(BlockPart::Item(*item))?;
        }
        Ok(Blocks { parts })
    }
}

impl<T> Blocks<T> {
    /// The number of items and repeats as they are kept, each counted once, or 2^64 - 1 where there are more. It takes
    /// no memory.
    pub fn nodes(&self) -> u64
        ensures { result ≡ min (node_count self.now) u64.MAX }
    {
        count_nodes(self.parts.as_slice())
    }

    /// The length of the expansion, or `None` exactly where it passes 2^62. It takes no memory.
    pub fn expanded_len(&self) -> Option<u64>
        ensures { SomeIff result (length (expansion self.now) ≤ 2 ^ 62)
            (length (expansion self.now)) }
    {
        let length = capped_len(self.parts.as_slice());
        if length < LENGTH_CAP {
            Some(length)
        } else {
            None
        }
    }
}

#[cycle(nodes)]
fn count_nodes<T>(parts: &[BlockPart<T>]) -> u64
    ensures { result ≡ min (parts_nodes parts.now) u64.MAX }
{
    let mut count: u64 = 0;
    for part in parts {
        count = count.saturating_add(nodes_of_part(part));
    }
    count
}

#[cycle(nodes)]
fn nodes_of_part<T>(part: &BlockPart<T>) -> u64
    ensures { result ≡ min (part_nodes part.now) u64.MAX }
{
    match part {
        BlockPart::Item(_) => 1,
        BlockPart::Repeat(_, body) => count_nodes(body.parts.as_slice()).saturating_add(1),
    }
}

// The length of the expansion, or the cap where it is greater.
#[cycle(length)]
fn capped_len<T>(parts: &[BlockPart<T>]) -> u64
    ensures { result ≡ min (length (parts_expansion parts.now)) LENGTH_CAP }
{
    let mut length: u64 = 0;
    for part in parts {
        length = length
            .saturating_add(capped_len_of_part(part))
            .min(LENGTH_CAP);
    }
    length
}

#[cycle(length)]
fn capped_len_of_part<T>(part: &BlockPart<T>) -> u64
    ensures { result ≡ min (length (part_expansion part.now)) LENGTH_CAP }
{
    match part {
        BlockPart::Item(_) => 1,
        BlockPart::Repeat(count, body) => u64::from(*count)
            .saturating_mul(capped_len(body.parts.as_slice()))
            .min(LENGTH_CAP),
    }
}
