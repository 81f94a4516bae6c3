//! How many events a network has, and how many of a kind a script has. A count of a kind goes over the blocks as they are
//! kept: a body is looked at once, however often it is repeated.
ghost use Rattle.std.specs.Prelude.{◌≡◌, count_by, length, min};
ghost use Rattle.net_core.specs.Machine.{net_of};
ghost use Rattle.net_core.specs.Shape.{FitsNumbers, events_below, is_any_get, is_fire, is_put};
ghost use Rattle.net_core.specs.Kinds.{is_of_kind};
ghost use Rattle.script_blocks.specs.Expansion.{part_expansion, parts_expansion};

use crate::network::{Event, Network};
use script_blocks::{BlockPart, Script};

/// Which events are counted.
#[derive(Clone, Copy)]
pub(crate) enum Kind {
    Get,
    Fire,
    /// The Puts to this channel.
    PutTo(usize),
}

fn is_put(event: &Event, channel: usize) -> bool
    ensures { result ≡ is_put channel event.now }
{
    match event {
        Event::Put { channel: put } => channel == *put as usize,
        Event::Get { .. } | Event::Fire { .. } => false,
    }
}

fn is_of_kind(kind: Kind, event: &Event) -> bool
    ensures { result ≡ is_of_kind kind event.now }
{
    match kind {
        Kind::Get => matches!(event, Event::Get { .. }),
        Kind::Fire => matches!(event, Event::Fire { .. }),
        Kind::PutTo(channel) => is_put(event, channel),
    }
}

// How many events of a kind these parts stand for, or 2^64 - 1 where that is less.
#[cycle(counts)]
fn count_in_parts(parts: &[BlockPart<Event>], kind: Kind) -> u64
    ensures { result ≡ min (count_by (is_of_kind kind) (parts_expansion parts.now)) u64.MAX }
{
    let mut count: u64 = 0;
    for part in parts {
        count = count.saturating_add(count_in_part(part, kind));
    }
    count
}

#[cycle(counts)]
fn count_in_part(part: &BlockPart<Event>, kind: Kind) -> u64
    ensures { result ≡ min (count_by (is_of_kind kind) (part_expansion part.now)) u64.MAX }
{
    match part {
        BlockPart::Item(event) => u64::from(is_of_kind(kind, event)),
        BlockPart::Repeat(count, body) => {
            u64::from(*count).saturating_mul(count_in_parts(body.parts.as_slice(), kind))
        }
    }
}

fn count(script: &Script<Event>, kind: Kind) -> u32
    ensures { result ≡ count_by (is_of_kind kind) script.now }
{
    // No script has more events of a kind than events.
    let most = u64::from(script.len());
    count_in_parts(script.blocks().parts.as_slice(), kind).min(most) as u32
}

/// How many Gets a script has. It takes no memory, and the time of the blocks as they are kept.
pub fn get_count(script: &Script<Event>) -> u32
    ensures { result ≡ count_by is_any_get script.now }
{
    count(script, Kind::Get)
}

/// How many Fires a script has. It takes no memory, and the time of the blocks as they are kept.
pub fn fire_count(script: &Script<Event>) -> u32
    ensures { result ≡ count_by is_fire script.now }
{
    count(script, Kind::Fire)
}

/// How many Puts to a channel a script has. It takes no memory, and the time of the blocks as they are kept.
pub fn put_count(script: &Script<Event>, channel: usize) -> u32
    ensures { result ≡ count_by (is_put channel) script.now }
{
    count(script, Kind::PutTo(channel))
}

/// How many events the scripts of a network have together. It takes no memory.
pub fn event_count(network: &Network) -> u32
    requires { FitsNumbers (net_of network.now) }
    ensures { result ≡ events_below (net_of network.now) (length network.now.processes) }
{
    let mut count = 0;
    for process in network.processes.as_slice() {
        count += process.script.len();
    }
    count
}
