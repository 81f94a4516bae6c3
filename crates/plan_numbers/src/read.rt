ghost use Rattle.std.specs.List.{All};
ghost use Rattle.std.specs.Prelude.{◌≡◌, ◌<◌, ◌≤◌, ◌++◌, length, map, IfOk, OnOk};
ghost use Rattle.sanlp.specs.Size.{size_limit};
ghost use Rattle.channel_plan.specs.Reads.{AreFew, IsTurnAmong, channels_of, channels_to};
ghost use Rattle.plan_numbers.specs.Numbers.{numbers_of};
ghost use Rattle.plan_numbers.specs.Used.{numbers_by};

use crate::numbers::PlanNumbers;
use crate::slots::slots_held;
use crate::tokens::{marked_turns, tokens_before};
use crate::turns::turns_by_writer;
use plain_data::Items;
use sanlp::Tag;
use std::alloc::{AllocError, Global};

// The numbers of the channel over which a read uses these turns of a writer, which has so many.
fn channel_numbers(
    alloc: Global,
    reader: u32,
    read: u32,
    writer: u32,
    turns: usize,
    used: &[u32],
) -> Result<PlanNumbers, AllocError>
    requires few { turns ≤ size_limit }
    requires some { 0 < length used.now }
    requires within { All (λ turn. turn < turns) used.now }
    ensures { IfOk result (λ numbers. numbers ≡ numbers_by reader read writer turns used.now) }
{
    let marked = marked_turns(alloc, turns, used)?;
    let before = tokens_before(alloc, &marked.is_token)?;
    let tokens = before[turns];
    let class = marked.class;
    let hold = slots_held(alloc, used, &before, class)?;
    Ok(PlanNumbers {
        reader,
        read,
        writer,
        tokens_before: Items::from_vec(before),
        tokens,
        class,
        hold,
    })
}

// Adds the numbers of the channels of a read, by writer.
fn add_numbers_of(
    alloc: Global,
    turns: &[usize],
    reader: u32,
    read: u32,
    sources: &[Option<Tag>],
    numbers: &mut Vec<PlanNumbers>,
) -> Result<(), AllocError>
    requires few { AreFew turns.now }
    requires among { All (IsTurnAmong turns.now) sources.now }
    ensures { OnOk result
        (numbers.new.items
        ≡ numbers.old.items ++ map numbers_of (channels_of turns.now reader read sources.now)) }
{
    let lists = turns_by_writer(alloc, turns, sources)?;
    for (writer, used) in lists.iter().enumerate() {
        if !used.is_empty() {
            let count = turns[writer];
            numbers.push(channel_numbers(
                alloc,
                reader,
                read,
                writer as u32,
                count,
                used.as_slice(),
            )?)?;
        }
    }
    Ok(())
}

/// Adds the numbers of the channels of a reader, by read and writer, where these are the sources of its reads.
pub(crate) fn add_numbers_to(
    alloc: Global,
    turns: &[usize],
    reader: u32,
    reads: &[Items<Option<Tag>>],
    numbers: &mut Vec<PlanNumbers>,
) -> Result<(), AllocError>
    requires few { AreFew turns.now }
    requires reads { length reads.now < 4294967296 }
    requires among { All (All (IsTurnAmong turns.now)) reads.now }
    ensures { OnOk result
        (numbers.new.items
        ≡ numbers.old.items ++ map numbers_of (channels_to turns.now reader reads.now)) }
{
    for (read, sources) in reads.iter().enumerate() {
        add_numbers_of(
            alloc,
            turns,
            reader,
            read as u32,
            sources.as_slice(),
            numbers,
        )?;
    }
    Ok(())
}
