ghost use Rattle.std.specs.Prelude.{◌≡◌, ◌≤◌, ◌+◌, ◌^◌, length, IfOk};
ghost use Rattle.std.specs.List.{range_with_len};
ghost use Rattle.tree_graphs.specs.Heights.{height_of};
ghost use Rattle.tree_order.specs.Reads.{IsJoinedTree};
ghost use Rattle.tree_order.specs.Reads.{IsJoined};

use crate::candidates::candidates_of;
use crate::path::{Task, tree_of};
use int_polyhedra::System;
use plain_data::Items;
use source_tree::Tree;
use std::alloc::{AllocError, Global};
use tree_graphs::system_of;
use tree_order::Read;

// The first so many numbers.
fn numbers(alloc: Global, count: usize) -> Result<Items<u32>, AllocError>
    requires { count ≤ 896 }
    ensures { IfOk result (λ numbers. numbers ≡ range_with_len 0 count) }
{
    let mut numbers = Items::new(alloc);
    for number in 0..count {
        numbers.push(number as u32)?;
    }
    Ok(numbers)
}

fn copy_of(context: &System) -> Result<System, AllocError>
    ensures { IfOk result (λ copy. copy ≡ context.now) }
{
    let alloc = context.rows.allocator();
    system_of(alloc, context.vars, context.rows.as_slice())
}

/// The tree of the last write before a read: at each point that meets the read's context the write of the problems that
/// stands last before the read, or zero where there is none (Feautrier 1991). What is left to do on the way stands in
/// memory, so that only want of memory ends it. Its leaves' contexts have at most 2^30 rows.
pub fn join(read: &Read) -> Result<Tree, AllocError>
    requires { IsJoined read.now }
    ensures joined { IfOk result (IsJoinedTree read.now read.now.context.now) }
    ensures low { IfOk result
        (λ tree. length read.now.context.now.rows + height_of tree ≤ 2 ^ 30) }
{
    let candidates = candidates_of(read)?;
    let left = numbers(read.alloc, candidates.len())?;
    let context = copy_of(read.context)?;
    let task = Task {
        read: &*read,
        candidates: candidates.as_slice(),
    };
    tree_of(&task, context, left)
}
