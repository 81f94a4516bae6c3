ghost use Rattle.std.specs.List.{sum_by, range_with_len};
ghost use Rattle.std.specs.Prelude.{◌≡◌, ◌+◌, ◌<◌, [], ◌++◌, length, map, take, replicate, slice_index, slice_set, vec_len, IfOk, OnOk};
ghost use Rattle.source_tree.specs.Sources.{read_number};

use plain_data::Items;
use sanlp::{Nest, Tag};
use std::alloc::{AllocError, Global};

// Adds so many empty lists.
fn add_lists(
    alloc: Global,
    count: usize,
    lists: &mut Vec<Items<Option<Tag>>>,
) -> Result<(), AllocError>
    ensures { OnOk result (lists.new.items ≡ lists.old.items ++ replicate count []) }
{
    for _ in 0..count {
        lists.push(Items::new(alloc))?;
    }
    Ok(())
}

/// Adds an empty list for each read, in the order of reader and read. It answers for each statement the number of its
/// first read.
pub(crate) fn first_reads(
    alloc: Global,
    nest: &Nest,
    lists: &mut Vec<Items<Option<Tag>>>,
) -> Result<Vec<usize>, AllocError>
    requires { lists.old.items ≡ [] }
    ensures firsts { IfOk result (λ firsts.
        firsts.items ≡ map (λ p. read_number nest.now p 0)
        (range_with_len 0 (length nest.now.statements))) }
    ensures lists { OnOk result
        (lists.new.items ≡ replicate (sum_by (λ s. length s.reads) nest.now.statements) []) }
{
    let mut firsts = Vec::new(alloc);
    for statement in nest.statements.as_slice() {
        firsts.push(lists.len())?;
        add_lists(alloc, statement.reads.len(), lists)?;
    }
    Ok(firsts)
}

/// The number of the next turn of a process, which is counted.
pub(crate) fn next_turn(turns: &mut Vec<usize>, process: usize) -> u32
    requires exists { process < vec_len turns.old }
    requires few { slice_index turns.old.items process < 4294967295 }
    ensures turn { result ≡ slice_index turns.old.items process }
    ensures counted { turns.new.items
        ≡ slice_set turns.old.items process (slice_index turns.old.items process + 1) }
{
    let turn = turns[process];
    turns[process] = turn + 1;
    turn as u32
}
