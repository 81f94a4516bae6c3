ghost use Rattle.std.specs.Prelude.{◌≡◌, ◌<◌, ◌^◌, length, IfOk};
ghost use Rattle.std.specs.List.{find};
ghost use Rattle.process_derive.specs.Incoming.{comes_from, incoming_from, outgoing_from};
ghost use Rattle.process_derive.specs.Scripts.{slots_of};

use channel_plan::ChannelPlan;
use std::alloc::{AllocError, Global};

/// An incoming channel of a process.
#[derive(Clone, Copy)]
pub(crate) struct Incoming {
    /// Its number.
    pub channel: u32,
    /// The number of the read.
    pub read: u32,
    /// The process that writes.
    pub writer: u32,
    /// Where its slots begin among those of the process.
    pub base: u32,
}

/// How many slots the channels that a process reads have together.
pub fn slot_count(plans: &[ChannelPlan], process: u32) -> u32
    requires { slots_of plans.now process < 2 ^ 32 }
    ensures { result ≡ slots_of plans.now process }
{
    plans
        .iter()
        .map(|plan| {
            if plan.reader == process {
                plan.slots.hold
            } else {
                0
            }
        })
        .sum()
}

/// The incoming channels of a process, in their order. Their slots stand side by side.
pub(crate) fn incoming_channels(
    alloc: Global,
    plans: &[ChannelPlan],
    process: u32,
) -> Result<Vec<Incoming>, AllocError>
    requires few { length plans.now < 2 ^ 32 }
    requires slots { slots_of plans.now process < 2 ^ 32 }
    ensures { IfOk result (λ incoming. incoming.items ≡ incoming_from 0 0 plans.now process) }
{
    let mut incoming = Vec::new(alloc);
    let mut base = 0;
    for (channel, plan) in plans.iter().enumerate() {
        if plan.reader == process {
            incoming.push(Incoming {
                channel: channel as u32,
                read: plan.read,
                writer: plan.writer,
                base,
            })?;
            base += plan.slots.hold;
        }
    }
    Ok(incoming)
}

/// The incoming channel from this writer to this read.
pub(crate) fn channel_from(incoming: &[Incoming], writer: u32, read: u32) -> Option<Incoming>
    ensures { result ≡ find (comes_from writer read) incoming.now }
{
    incoming
        .iter()
        .find(|channel| channel.writer == writer && channel.read == read)
        .copied()
}

/// The numbers of the channels that a process writes, ascending.
pub(crate) fn outgoing_channels(
    alloc: Global,
    plans: &[ChannelPlan],
    process: u32,
) -> Result<Vec<u32>, AllocError>
    requires few { length plans.now < 2 ^ 32 }
    ensures { IfOk result (λ outgoing. outgoing.items ≡ outgoing_from 0 plans.now process) }
{
    let mut outgoing = Vec::new(alloc);
    for (channel, plan) in plans.iter().enumerate() {
        if plan.writer == process {
            outgoing.push(channel as u32)?;
        }
    }
    Ok(outgoing)
}
