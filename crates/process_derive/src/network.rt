ghost use Rattle.std.specs.Prelude.{◌≡◌, length, map, IfOk};
ghost use Rattle.sanlp.specs.Size.{SizeIsOk};
ghost use Rattle.sanlp.specs.Points.{points_of};
ghost use Rattle.source_tree.specs.Sources.{sources_of};
ghost use Rattle.process_derive.specs.Derived.{channel_of, net};

use crate::process::make_processes;
use channel_plan::{ChannelPlan, channel_plans, turn_counts};
use net_core::{Channel, Network};
use plain_data::Items;
use sanlp::{Nest, Points};
use source_tree::SourceTable;
use std::alloc::{AllocError, Global};

// A channel with the number of its tokens as its capacity.
fn make_channel(plan: &ChannelPlan) -> Channel
    ensures { result ≡ channel_of plan.now }
{
    Channel {
        writer: plan.writer,
        reader: plan.reader,
        read: plan.read,
        capacity: plan.tokens,
        class: plan.class,
    }
}

// The channels, in their order.
fn make_channels(alloc: Global, plans: &[ChannelPlan]) -> Result<Items<Channel>, AllocError>
    ensures { IfOk result (λ channels. channels ≡ map channel_of plans.now) }
{
    let mut channels = Vec::with_capacity(alloc, plans.len())?;
    for plan in plans {
        channels.push(make_channel(plan))?;
    }
    Ok(Items::from_vec(channels))
}

/// The network of a nest (Compaan 2000, pn 2007), whose statements have so many turns: one process for each statement, and
/// one channel for each reader, read and writer of which some point is the source of that read, with the number of its tokens
/// as its capacity. Each script is folded. The table of sources is the exact one. It takes the time of the network's events.
/// Nothing is refused but want of memory.
pub fn derive_by_turns(
    alloc: Global,
    nest: &Nest,
    turns: &[usize],
    sources: &SourceTable,
) -> Result<Network, AllocError>
    requires size { SizeIsOk nest.now }
    requires turns { turns.now ≡ map length (points_of nest.now) }
    requires sources { sources.now.of ≡ sources_of nest.now }
    ensures { IfOk result (λ network. network ≡ net nest.now) }
{
    let plans = channel_plans(alloc, nest, turns, sources)?;
    Ok(Network {
        processes: make_processes(alloc, nest, turns, sources, plans.as_slice())?,
        channels: make_channels(alloc, plans.as_slice())?,
    })
}

/// The network of `derive_by_turns`, where these are the points.
pub fn derive(
    alloc: Global,
    nest: &Nest,
    points: &Points,
    sources: &SourceTable,
) -> Result<Network, AllocError>
    requires size { SizeIsOk nest.now }
    requires points { points.now.of ≡ points_of nest.now }
    requires sources { sources.now.of ≡ sources_of nest.now }
    ensures { IfOk result (λ network. network ≡ net nest.now) }
{
    let turns = turn_counts(alloc, points)?;
    derive_by_turns(alloc, nest, &turns, sources)
}
