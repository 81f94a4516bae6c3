ghost use Rattle.std.specs.Prelude.{◌≡◌, ◌≤◌, ◌+◌, ◌-◌, count_by};
ghost use Rattle.std.specs.List.{flat_map};
ghost use Rattle.net_core.specs.Machine.{net_of};
ghost use Rattle.net_core.specs.Shape.{is_put, FitsNumbers};
ghost use Rattle.script_blocks.specs.Expansion.{part_expansion, parts_expansion};
ghost use Rattle.net_text.specs.NetworkText.{slot_got, span, event_count as count_of_events};
ghost use Rattle.net_text.specs.Ranges.{joined as join_of_ranges, range_of};

use net_core::{Event, Network, event_count as total_events, put_count as puts_to};
use script_blocks::{BlockPart, Script};

/// How often a process puts to a channel.
pub(crate) fn put_count(network: &Network, process: u32, channel: usize) -> usize
    ensures { result ≡ count_by (is_put channel) ((net_of network.now).script process) }
{
    match network.processes.get(process as usize) {
        Some(process) => puts_to(&process.script, channel) as usize,
        None => 0,
    }
}

/// The least and the greatest of the slots to which these parts get from a channel.
#[cycle(slots)]
pub(crate) fn slots_of_parts(parts: &[BlockPart<Event>], channel: usize) -> Option<(u32, u32)>
    ensures { result ≡ range_of (flat_map (slot_got channel) (parts_expansion parts.now)) }
{
    let mut range = None;
    for part in parts {
        range = joined(range, slots_of_part(part, channel));
    }
    range
}

// However often a body is repeated, its slots are the same.
#[cycle(slots)]
fn slots_of_part(part: &BlockPart<Event>, channel: usize) -> Option<(u32, u32)>
    ensures { result ≡ range_of (flat_map (slot_got channel) (part_expansion part.now)) }
{
    match part {
        BlockPart::Item(event) => slots_of_event(event, channel),
        BlockPart::Repeat(count, body) => {
            if *count == 0 {
                return None;
            }
            slots_of_parts(body.parts.as_slice(), channel)
        }
    }
}

fn slots_of_event(event: &Event, channel: usize) -> Option<(u32, u32)>
    ensures { result ≡ range_of (slot_got channel event.now) }
{
    if let Event::Get { channel: got, slot } = event
        && *got as usize == channel
    {
        return Some((*slot, *slot));
    }
    None
}

/// How many slots there are from the least to the greatest to which a script gets from a channel.
fn hold_in(script: &Script<Event>, channel: usize) -> u64
    ensures { result ≡ span (flat_map (slot_got channel) script.now) }
{
    match slots_of_parts(script.blocks().parts.as_slice(), channel) {
        Some((least, greatest)) => count_between(least, greatest),
        None => 0,
    }
}

/// How many slots there are from the least to the greatest to which a process gets from a channel.
pub(crate) fn hold(network: &Network, process: u32, channel: usize) -> u64
    ensures { result ≡ span (flat_map (slot_got channel) ((net_of network.now).script process)) }
{
    match network.processes.get(process as usize) {
        Some(process) => hold_in(&process.script, channel),
        None => 0,
    }
}

/// The least and the greatest of the numbers of two ranges.
fn joined(range: Option<(u32, u32)>, other: Option<(u32, u32)>) -> Option<(u32, u32)>
    ensures { result ≡ join_of_ranges range other }
{
    match (range, other) {
        (Some((least, greatest)), Some((low, high))) => Some((least.min(low), greatest.max(high))),
        (None, range) | (range, None) => range,
    }
}

/// How many numbers there are from one to another, both of them counted.
fn count_between(least: u32, greatest: u32) -> u64
    requires { least ≤ greatest }
    ensures { result ≡ greatest - least + 1 }
{
    u64::from(greatest - least) + 1
}

/// The number of events of all scripts together.
pub fn event_count(network: &Network) -> u64
    requires { FitsNumbers (net_of network.now) }
    ensures { result ≡ count_of_events network.now }
{
    u64::from(total_events(network))
}
