ghost use Rattle.std.specs.List.{All, range_with_len};
ghost use Rattle.std.specs.Prelude.{◌≡◌, ◌<◌, [], length, map, replicate, vec_len, IfOk, OnOk};
ghost use Rattle.channel_plan.specs.Reads.{IsTurnAmong};
ghost use Rattle.channel_plan.specs.Tokens.{turns_used};
ghost use Rattle.plan_numbers.specs.Turns.{IsOfOne, with_turn};

use plain_data::Items;
use sanlp::Tag;
use std::alloc::{AllocError, Global};

// So many empty lists.
fn empty_lists(alloc: Global, count: usize) -> Result<Vec<Items<u32>>, AllocError>
    ensures { IfOk result (λ lists. lists.items ≡ replicate count []) }
{
    let mut lists = Vec::with_capacity(alloc, count)?;
    for _ in 0..count {
        lists.push(Items::new(alloc))?;
    }
    Ok(lists)
}

// Adds the turn that a source is to the list of its process.
fn add_turn(source: &Option<Tag>, lists: &mut Vec<Items<u32>>) -> Result<(), AllocError>
    requires { IsOfOne (vec_len lists.old) source.now }
    ensures { OnOk result (lists.new.items ≡ with_turn lists.old.items source.now) }
{
    match source {
        Some(tag) => lists[tag.process as usize].push(tag.turn),
        None => Ok(()),
    }
}

/// For each process, of which there are as many as counts of turns, its turns among the sources of a read, in their order.
pub(crate) fn turns_by_writer(
    alloc: Global,
    turns: &[usize],
    sources: &[Option<Tag>],
) -> Result<Vec<Items<u32>>, AllocError>
    requires { All (IsTurnAmong turns.now) sources.now }
    ensures { IfOk result (λ lists.
        lists.items ≡ map (λ w. turns_used w sources.now) (range_with_len 0 (length turns.now))) }
{
    let mut lists = empty_lists(alloc, turns.len())?;
    for source in sources {
        add_turn(source, &mut lists)?;
    }
    Ok(lists)
}
