ghost use Rattle.std.specs.Prelude.{◌≡◌, ◌↔◌, ◌∷◌, List, true, false, IfOk, IsTrue};
ghost use Rattle.net_core.specs.declared.network.Event.{Event};

use crate::laws::equal_is_same;
use crate::network::{Channel, Event, Network, Process};
use channel_class::ChannelClass;
use plain_data::Items;
use script_blocks::{Script, ScriptItems};
use std::alloc::{AllocError, Global};

// Equal processes. They share the blocks of their scripts.
fn copy_processes(alloc: Global, processes: &[Process]) -> Result<Vec<Process>, AllocError>
    ensures { IfOk result (λ copies. copies.items ≡ processes.now) }
{
    let mut copies = Vec::with_capacity(alloc, processes.len())?;
    for process in processes {
        copies.push(Process {
            slots: process.slots,
            script: process.script.share()?,
        })?;
    }
    Ok(copies)
}

fn copy_channels(alloc: Global, channels: &[Channel]) -> Result<Vec<Channel>, AllocError>
    ensures { IfOk result (λ copies. copies.items ≡ channels.now) }
{
    let mut copies = Vec::with_capacity(alloc, channels.len())?;
    for channel in channels {
        copies.push(Channel {
            writer: channel.writer,
            reader: channel.reader,
            read: channel.read,
            capacity: channel.capacity,
            class: channel.class,
        })?;
    }
    Ok(copies)
}

// An event compares equal to itself.
fn same_is_equal()
    ensures { (a : Event) → ⟦<Event as PartialEq>⟧.eq a a ≡ true }
{}

fn is_same_event(event: &Event, other: &Event) -> bool
    ensures { IsTrue result ↔ (event.now ≡ other.now) }
{
    equal_is_same();
    same_is_equal();
    event == other
}

// Takes the next item off, and tells whether it was there and is this event.
fn is_next(rest: &mut ScriptItems<Event>, event: &Event) -> bool
    ensures next { result ≡ true → rest.old ≡ event.now ∷ rest.new }
    ensures other { result ≡ false → (items : List Event) → rest.old ≡ event.now ∷ items → ⊥ }
{
    match rest.next() {
        Some(further) => is_same_event(&further, event),
        None => false,
    }
}

// Whether two scripts have the same items. It takes no memory.
fn is_same_script(script: &Script<Event>, other: &Script<Event>) -> bool
    ensures { IsTrue result ↔ (script.now ≡ other.now) }
{
    let mut rest = other.iter();
    for event in script.iter() {
        if !is_next(&mut rest, &event) {
            return false;
        }
    }
    rest.next().is_none()
}

fn is_same_process(process: &Process, other: &Process) -> bool
    ensures { IsTrue result ↔ (process.now ≡ other.now) }
{
    process.slots == other.slots && is_same_script(&process.script, &other.script)
}

fn is_same_class(class: ChannelClass, other: ChannelClass) -> bool
    ensures { IsTrue result ↔ (class ≡ other) }
{
    class == other
}

fn is_same_channel(channel: &Channel, other: &Channel) -> bool
    ensures { IsTrue result ↔ (channel.now ≡ other.now) }
{
    channel.writer == other.writer
        && channel.reader == other.reader
        && channel.read == other.read
        && channel.capacity == other.capacity
        && is_same_class(channel.class, other.class)
}

fn are_same_processes(processes: &[Process], others: &[Process]) -> bool
    ensures { IsTrue result ↔ (processes.now ≡ others.now) }
{
    if processes.len() != others.len() {
        return false;
    }
    for at in 0..processes.len() {
        if !is_same_process(&processes[at], &others[at]) {
            return false;
        }
    }
    true
}

fn are_same_channels(channels: &[Channel], others: &[Channel]) -> bool
    ensures { IsTrue result ↔ (channels.now ≡ others.now) }
{
    if channels.len() != others.len() {
        return false;
    }
    for at in 0..channels.len() {
        if !is_same_channel(&channels[at], &others[at]) {
            return false;
        }
    }
    true
}

impl Network {
    /// An equal network, or want of memory. Both share the blocks of the scripts.
    pub fn copy(&self, alloc: Global) -> Result<Network, AllocError>
        ensures { IfOk result (λ copy. copy ≡ self.now) }
    {
        let processes = copy_processes(alloc, self.processes.as_slice())?;
        let channels = copy_channels(alloc, self.channels.as_slice())?;
        Ok(Network {
            processes: Items::from_vec(processes),
            channels: Items::from_vec(channels),
        })
    }

    /// Whether all fields of both are equal; scripts are compared item by item. It takes no memory.
    pub fn same(&self, other: &Network) -> bool
        ensures { IsTrue result ↔ (self.now ≡ other.now) }
    {
        are_same_processes(self.processes.as_slice(), other.processes.as_slice())
            && are_same_channels(self.channels.as_slice(), other.channels.as_slice())
    }
}
