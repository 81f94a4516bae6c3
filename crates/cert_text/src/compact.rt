//! Blocks in no more memory than they need.

ghost use Rattle.std.specs.Prelude.{◌≡◌, IfOk};

use plain_data::Items;
use script_blocks::{BlockPart, Blocks};
use std::alloc::{AllocError, Global};

/// The same blocks, where each list of parts has room for its parts alone, or want of memory.
#[cycle(compact)]
pub(crate) fn compact_blocks<T: Drop>(
    alloc: Global,
    blocks: Blocks<T>,
) -> Result<Blocks<T>, AllocError>
    ensures { IfOk result (λ same. same ≡ blocks) }
{
    let mut parts = Vec::with_capacity(alloc, blocks.parts.len())?;
    for part in blocks.parts.into_vec() {
        parts.push(compact_part(alloc, part)?)?;
    }
    Ok(Blocks {
        parts: Items::from_vec(parts),
    })
}

#[cycle(compact)]
fn compact_part<T: Drop>(alloc: Global, part: BlockPart<T>) -> Result<BlockPart<T>, AllocError>
    ensures { IfOk result (λ same. same ≡ part) }
{
    match part {
        BlockPart::Item(item) => Ok(BlockPart::Item(item)),
        BlockPart::Repeat(times, body) => {
            let body = compact_blocks(alloc, body)?;
            Ok(BlockPart::Repeat(times, body))
        }
    }
}
