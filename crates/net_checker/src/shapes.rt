ghost use Rattle.std.specs.Prelude.{◌≡◌, ◌<◌, ◌^◌, length};
ghost use Rattle.std.specs.List.{list_all};
ghost use Rattle.net_core.specs.Machine.{net_of};
ghost use Rattle.script_blocks.specs.Expansion.{part_expansion, parts_expansion};
ghost use Rattle.net_checker.specs.Shapes.{agrees, channel_agrees, is_own_event, keeps_shape, shape_refusal};

use crate::parts::{read_total, reads_of, script_of, slots_of};
use crate::verdict::Refusal;
use net_core::{Channel, Event, Network, get_count};
use sanlp::Nest;
use script_blocks::{BlockPart, Script};
use source_tree::Cert;

// Whether a channel's ends are statements, and its read one of its reader's.
fn channel_agrees(nest: &Nest, channel: &Channel) -> bool
    ensures { result ≡ channel_agrees nest.now channel.now }
{
    let statements = nest.statements.len();
    (channel.writer as usize) < statements
        && (channel.reader as usize) < statements
        && (channel.read as usize) < reads_of(nest, channel.reader)
}

fn channels_agree(nest: &Nest, channels: &[Channel]) -> bool
    ensures { result ≡ list_all (channel_agrees nest.now) channels.now }
{
    channels.iter().all(|channel| channel_agrees(nest, channel))
}

// Whether the numbers of processes and of sources, and all channels, agree with the nest.
fn agrees(nest: &Nest, network: &Network, cert: &Cert) -> bool
    ensures { result ≡ agrees nest.now network.now cert.now }
{
    network.processes.len() == nest.statements.len()
        && cert.sources.len() == read_total(nest)
        && channels_agree(nest, network.channels.as_slice())
}

// Whether an event names a channel of which the process is the right end, and a slot that is there.
fn is_own_event(network: &Network, process: u32, event: &Event) -> bool
    ensures { result ≡ is_own_event (net_of network.now) process event.now }
{
    match event {
        Event::Get { channel, slot } => match network.channels.get(*channel as usize) {
            Some(channel) => channel.reader == process && *slot < slots_of(network, process),
            None => false,
        },
        Event::Fire { .. } => true,
        Event::Put { channel } => match network.channels.get(*channel as usize) {
            Some(channel) => channel.writer == process,
            None => false,
        },
    }
}

// Whether all events for which these parts stand are the process's own.
#[cycle(own)]
fn parts_are_own(network: &Network, process: u32, parts: &[BlockPart<Event>]) -> bool
    ensures { result
        ≡ list_all (is_own_event (net_of network.now) process) (parts_expansion parts.now) }
{
    for part in parts {
        if !part_is_own(network, process, part) {
            return false;
        }
    }
    true
}

// A repeat that stands for nothing has no event of another.
#[cycle(own)]
fn part_is_own(network: &Network, process: u32, part: &BlockPart<Event>) -> bool
    ensures { result
        ≡ list_all (is_own_event (net_of network.now) process) (part_expansion part.now) }
{
    match part {
        BlockPart::Item(event) => is_own_event(network, process, event),
        BlockPart::Repeat(count, body) => {
            if *count == 0 {
                return true;
            }
            parts_are_own(network, process, body.parts.as_slice())
        }
    }
}

fn events_are_own(network: &Network, process: u32, script: &Script<Event>) -> bool
    ensures { result ≡ list_all (is_own_event (net_of network.now) process) script.now }
{
    parts_are_own(network, process, script.blocks().parts.as_slice())
}

// Whether all events are the process's own, and it has no more slots than Gets.
fn keeps_shape(network: &Network, process: u32) -> bool
    requires { process < length network.now.processes }
    ensures { result ≡ keeps_shape (net_of network.now) process }
{
    let script = script_of(network, process);
    events_are_own(network, process, script) && slots_of(network, process) <= get_count(script)
}

/// What is wrong with the shape, if anything is.
pub(crate) fn shape_refusal(nest: &Nest, network: &Network, cert: &Cert) -> Option<Refusal>
    requires { length network.now.processes < 2 ^ 32 }
    ensures { result ≡ shape_refusal nest.now network.now cert.now }
{
    if !agrees(nest, network, cert) {
        return Some(Refusal::Shape(nest.statements.len() as u32));
    }
    for process in 0..network.processes.len() as u32 {
        if !keeps_shape(network, process) {
            return Some(Refusal::Shape(process));
        }
    }
    None
}
