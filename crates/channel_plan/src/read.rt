ghost use Rattle.std.specs.List.{All};
ghost use Rattle.std.specs.Prelude.{◌≡◌, ◌<◌, ◌≤◌, ◌++◌, length, IfOk, OnOk};
ghost use Rattle.sanlp.specs.Size.{size_limit};
ghost use Rattle.channel_plan.specs.Reads.{AreFew, IsTurnAmong, channel_of, channels_of, channels_to};
ghost use Rattle.channel_plan.specs.Tokens.{turns_used};

use crate::plans::ChannelPlan;
use crate::slots::slots_of;
use crate::token_marks::TokenMarks;
use crate::tokens::{token_count, tokens_among, turns_used, uses_of};
use crate::writers::writers_of;
use channel_class::class_of;
use plain_data::Items;
use sanlp::Tag;
use std::alloc::{AllocError, Global};

// The channel over which a read gets what a writer wrote, which has so many turns.
fn channel_of(
    alloc: Global,
    reader: u32,
    read: u32,
    sources: &[Option<Tag>],
    turns: usize,
    writer: u32,
) -> Result<ChannelPlan, AllocError>
    requires few { turns ≤ size_limit }
    requires within { All (λ turn. turn < turns) (turns_used writer sources.now) }
    ensures { IfOk result (λ plan. plan ≡ channel_of reader read sources.now turns writer) }
{
    let used = turns_used(alloc, writer, sources)?;
    let is_token = tokens_among(alloc, turns, &used)?;
    let tokens = token_count(&is_token);
    let uses = uses_of(alloc, used, &is_token)?;
    let class = class_of(alloc, &uses)?;
    let slots = slots_of(alloc, &uses, class)?;
    let marks = TokenMarks::of(alloc, &is_token)?;
    Ok(ChannelPlan {
        reader,
        read,
        writer,
        is_token: marks,
        tokens,
        class,
        slots,
    })
}

// Adds the channels of a read, by writer.
fn add_channels_of(
    alloc: Global,
    turns: &[usize],
    reader: u32,
    read: u32,
    sources: &[Option<Tag>],
    plans: &mut Vec<ChannelPlan>,
) -> Result<(), AllocError>
    requires few { AreFew turns.now }
    requires among { All (IsTurnAmong turns.now) sources.now }
    ensures { OnOk result
        (plans.new.items ≡ plans.old.items ++ channels_of turns.now reader read sources.now) }
{
    let writers = writers_of(alloc, turns, sources)?;
    for writer in &writers {
        let count = turns[*writer as usize];
        plans.push(channel_of(alloc, reader, read, sources, count, *writer)?)?;
    }
    Ok(())
}

/// Adds the channels of a reader, by read and writer, where these are the sources of its reads.
pub(crate) fn add_channels_to(
    alloc: Global,
    turns: &[usize],
    reader: u32,
    reads: &[Items<Option<Tag>>],
    plans: &mut Vec<ChannelPlan>,
) -> Result<(), AllocError>
    requires few { AreFew turns.now }
    requires reads { length reads.now < 4294967296 }
    requires among { All (All (IsTurnAmong turns.now)) reads.now }
    ensures { OnOk result
        (plans.new.items ≡ plans.old.items ++ channels_to turns.now reader reads.now) }
{
    for (read, sources) in reads.iter().enumerate() {
        add_channels_of(alloc, turns, reader, read as u32, sources.as_slice(), plans)?;
    }
    Ok(())
}
