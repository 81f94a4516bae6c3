//! Whether the fires of a process are right, by the blocks of its script.
ghost use Rattle.std.specs.Prelude.{◌≡◌, ◌<◌, length};
ghost use Rattle.std.specs.List.{list_all};
ghost use Rattle.net_core.specs.Machine.{net_of};
ghost use Rattle.net_checker.specs.Firings.{is_within};
ghost use Rattle.net_checker.specs.FittingFires.{fires_fit, fits_reads, puts_first};
ghost use Rattle.script_blocks.specs.Expansion.{part_expansion, parts_expansion};

use crate::nest_network::NestNetwork;
use crate::parts::{reads_of, script_of, slots_of, turns_of};
use net_core::{Event, Network, Ref, Refs, fire_count};
use sanlp::Nest;
use script_blocks::{BlockPart, Script};

// Whether a reference is `Zero` or a slot that is there.
fn is_within(slots: u32, reference: Ref) -> bool
    ensures { result ≡ is_within slots reference }
{
    match reference {
        Ref::Zero => true,
        Ref::Slot(slot) => slot < slots,
    }
}

fn are_within(slots: u32, refs: &Refs) -> bool
    ensures { result ≡ list_all (is_within slots) refs.now }
{
    for read in 0..refs.len() {
        if !is_within(slots, refs.at(read)) {
            return false;
        }
    }
    true
}

/// Whether an event, if it is a Fire, has a reference for each read, and none to a slot that isn't there.
pub(crate) fn fits_reads(nest: &Nest, network: &Network, process: u32, event: &Event) -> bool
    ensures { result ≡ fits_reads nest.now (net_of network.now) process event.now }
{
    match event {
        Event::Fire { refs } => {
            refs.len() == reads_of(nest, process) && are_within(slots_of(network, process), refs)
        }
        Event::Get { .. } | Event::Put { .. } => true,
    }
}

// Whether all events for which these parts stand fit the reads.
#[cycle(fitting)]
fn parts_fit(nest: &Nest, network: &Network, process: u32, parts: &[BlockPart<Event>]) -> bool
    ensures { result
        ≡ list_all (fits_reads nest.now (net_of network.now) process)
        (parts_expansion parts.now) }
{
    for part in parts {
        if !part_fits(nest, network, process, part) {
            return false;
        }
    }
    true
}

// A repeat that stands for nothing has no event that doesn't fit.
#[cycle(fitting)]
fn part_fits(nest: &Nest, network: &Network, process: u32, part: &BlockPart<Event>) -> bool
    ensures { result
        ≡ list_all (fits_reads nest.now (net_of network.now) process) (part_expansion part.now) }
{
    match part {
        BlockPart::Item(event) => fits_reads(nest, network, process, event),
        BlockPart::Repeat(count, body) => {
            if *count == 0 {
                return true;
            }
            parts_fit(nest, network, process, body.parts.as_slice())
        }
    }
}

// Whether a Put stands before the first Fire. What comes after either isn't looked at.
fn puts_first(script: &Script<Event>) -> bool
    ensures { result ≡ puts_first script.now }
{
    for event in script.iter() {
        match event {
            Event::Get { .. } => {}
            Event::Fire { .. } => return false,
            Event::Put { .. } => return true,
        }
    }
    false
}

/// Whether all Fires of a process fit its reads, there is one for each of its points, and no Put stands before the first.
pub(crate) fn fires_fit(candidate: &NestNetwork, process: u32) -> bool
    requires { process < length candidate.now.network.now.processes }
    ensures { result
        ≡ fires_fit candidate.now.nest.now (net_of candidate.now.network.now) process }
{
    let script = script_of(candidate.network, process);
    let parts = script.blocks().parts.as_slice();
    parts_fit(candidate.nest, candidate.network, process, parts)
        && fire_count(script) as usize == turns_of(candidate.points, process)
        && !puts_first(script)
}
