//! The machine over tags, of which nothing takes memory by its number alone.
ghost use Rattle.std.specs.Prelude.{◌≡◌, ◌<◌, ◌+◌, ◌^◌, List, [], ◌∷◌, ◌++◌, None, Some, drop, length, map, pred, replicate, slice_index, slice_index_or, slice_set, true, IfOk, OnOk};
ghost use Rattle.std.specs.Option.{option_copied};
ghost use Rattle.net_core.specs.declared.refs.Ref.{Ref};
ghost use Rattle.net_core.specs.Machine.{enabled, net_of, next, start, step};
ghost use Rattle.net_core.specs.Names.{tag};
ghost use Rattle.net_core.specs.Rules.{tags};
ghost use Rattle.net_checker.specs.SlotRows.{slots_in};
ghost use Rattle.net_checker.specs.TagStates.{IsTagState, slot_lists, state_of};

use crate::nest_network::ShapedNetwork;
use crate::parts::{capacity_of, writer_of};
use crate::slots::Slots;
use crate::turn_queue::TurnQueue;
use net_core::{Event, Network, Process, Progress, WiredNetwork};
use sanlp::Tag;
use std::alloc::{AllocError, Global};

/// A state of the machine over tags: how far each process has come and how often it has fired, of each channel the turns of the
/// tokens in its queue, and which tags lie in the slots. It grows with what the queues and the slots hold.
#[derive(Drop)]
pub(crate) struct TagState {
    progress: Progress,
    fires: Vec<u32>,
    queues: Vec<TurnQueue>,
    slots: Vec<Slots<Tag>>,
}

// So many empty queues.
fn empty_queues(alloc: Global, count: usize) -> Result<Vec<TurnQueue>, AllocError>
    ensures { IfOk result (λ queues. queues.items ≡ replicate count []) }
{
    let mut queues = Vec::new(alloc);
    for _ in 0..count {
        queues.push(TurnQueue::new(alloc))?;
    }
    Ok(queues)
}

/// The empty slots of a process. As many stand in a row as its script is kept in nodes, repeats among them.
pub(crate) fn empty_slots<T: Copy>(alloc: Global, process: &Process) -> Result<Slots<T>, AllocError>
    ensures { IfOk result (λ slots. slots_in slots ≡ replicate process.now.slots None) }
{
    Slots::new(alloc, process.slots, process.script.blocks().nodes())
}

// The empty slots of each process.
fn all_slots(alloc: Global, processes: &[Process]) -> Result<Vec<Slots<Tag>>, AllocError>
    ensures { IfOk result (λ all. map slots_in all.items
        ≡ map (λ process. replicate process.slots None) processes.now) }
{
    let mut all = Vec::new(alloc);
    for process in processes {
        all.push(empty_slots(alloc, process)?)?;
    }
    Ok(all)
}

// Takes the first token of a channel off, and gives its turn.
fn pop_turn(queues: &mut Vec<TurnQueue>, channel: usize) -> u32
    requires channel { channel < length queues.old.items }
    requires token { 0 < length (slice_index_or queues.old.items channel []) }
    ensures first { slice_index_or queues.old.items channel []
        ≡ result ∷ drop 1 (slice_index_or queues.old.items channel []) }
    ensures rest { queues.new.items ≡ slice_set queues.old.items channel
        (drop 1 (slice_index_or queues.old.items channel [])) }
{
    match queues[channel].pop() {
        Some(turn) => turn,
        None => unreachable!(),
    }
}

// Adds a token of this turn to a channel.
fn push_turn(queues: &mut Vec<TurnQueue>, channel: usize, turn: u32) -> Result<(), AllocError>
    requires { channel < length queues.old.items }
    ensures { OnOk result (queues.new.items ≡ slice_set queues.old.items channel
        (slice_index_or queues.old.items channel [] ++ turn ∷ [])) }
{
    queues[channel].push(turn)?;
    Ok(())
}

// Puts a tag into a slot of a process.
fn fill_slot(
    slots: &mut Vec<Slots<Tag>>,
    process: usize,
    slot: u32,
    tag: Tag,
) -> Result<(), AllocError>
    requires { process < length slots.old.items }
    ensures { OnOk result (map slots_in slots.new.items
        ≡ slice_set (map slots_in slots.old.items) process
        (slice_set (slice_index_or (map slots_in slots.old.items) process []) slot (Some tag))) }
{
    slots[process].fill(slot, tag)?;
    Ok(())
}

impl TagState {
    /// The opening state, or want of memory.
    pub(crate) fn new(alloc: Global, fitting: &ShapedNetwork) -> Result<TagState, AllocError>
        ensures start { IfOk result (λ state. state_of (net_of fitting.now.network.now) state
            ≡ start (net_of fitting.now.network.now)) }
        ensures state { IfOk result (IsTagState (net_of fitting.now.network.now)) }
    {
        let network = fitting.network;
        let wired = WiredNetwork { network };
        Ok(TagState {
            progress: Progress::new(alloc, &wired)?,
            fires: vec![in alloc; 0; network.processes.len()]?,
            queues: empty_queues(alloc, network.channels.len())?,
            slots: all_slots(alloc, network.processes.as_slice())?,
        })
    }

    /// Whether a process may go on. One that isn't there may not. It takes no memory.
    pub(crate) fn is_enabled(&self, network: &Network, process: u32) -> bool
        requires { IsTagState (net_of network.now) self.now }
        ensures { result
            ≡ enabled (net_of network.now) (state_of (net_of network.now) self.now) process }
    {
        if process as usize >= network.processes.len() {
            return false;
        }
        match self.progress.next_event(network, process) {
            Some(Event::Get { channel, .. }) => self.progress.has_token(network, *channel),
            Some(Event::Fire { .. }) => true,
            Some(Event::Put { channel }) => {
                let capacity = capacity_of(network, *channel);
                self.progress.has_place(network, *channel, capacity)
            }
            None => false,
        }
    }

    /// The next event of a process, or `None` at its script's end. It takes no memory.
    pub(crate) fn next_event(&self, network: &Network, process: u32) -> Option<&Event>
        requires state { IsTagState (net_of network.now) self.now }
        requires process { process < length network.now.processes }
        ensures { option_copied result
            ≡ next (net_of network.now) (state_of (net_of network.now) self.now) process }
    {
        self.progress.next_event(network, process)
    }

    /// The next event of an enabled process. It takes no memory.
    pub(crate) fn next(&self, network: &Network, process: u32) -> &Event
        requires state { IsTagState (net_of network.now) self.now }
        requires enabled { enabled (net_of network.now) (state_of (net_of network.now) self.now)
            process ≡ true }
        ensures { next (net_of network.now) (state_of (net_of network.now) self.now) process
            ≡ Some result.now }
    {
        match self.progress.next_event(network, process) {
            Some(event) => event,
            None => unreachable!(),
        }
    }

    /// How often a process has fired.
    pub(crate) fn turn(&self, network: &Network, process: u32) -> u32
        requires state { IsTagState (net_of network.now) self.now }
        requires process { process < length network.now.processes }
        ensures { result ≡ length
            ((state_of (net_of network.now) self.now).local process).kept }
    {
        let _ = network;
        self.fires[process as usize]
    }

    /// The slots of a process.
    pub(crate) fn slots(&self, network: &Network, process: u32) -> &Slots<Tag>
        requires state { IsTagState (net_of network.now) self.now }
        requires process { process < length network.now.processes }
        ensures { slots_in result.now
            ≡ ((state_of (net_of network.now) self.now).local process).slots }
    {
        let _ = network;
        &self.slots[process as usize]
    }

    // A Get, where the event was counted: the first token of the channel goes to the slot.
    fn get(
        &mut self,
        network: &Network,
        process: u32,
        channel: u32,
        slot: u32,
    ) -> Result<(), AllocError>
        requires process { process < length self.old.slots.items }
        requires queue { channel < length self.old.queues.items }
        requires token { 0 < length (slice_index_or self.old.queues.items channel []) }
        ensures progress { OnOk result (self.new.progress ≡ self.old.progress) }
        ensures fires { OnOk result (self.new.fires ≡ self.old.fires) }
        ensures queues { OnOk result (self.new.queues.items
            ≡ slice_set self.old.queues.items channel
            (drop 1 (slice_index_or self.old.queues.items channel []))) }
        ensures slots { OnOk result (slot_lists self.new ≡ slice_set (slot_lists self.old) process
            (slice_set (slice_index_or (slot_lists self.old) process []) slot
            (Some (tag ((net_of network.now).writer channel)
            (slice_index (slice_index_or self.old.queues.items channel []) 0))))) }
    {
        let turn = pop_turn(&mut self.queues, channel as usize);
        let tag = Tag {
            process: writer_of(network, channel),
            turn,
        };
        fill_slot(&mut self.slots, process as usize, slot, tag)?;
        Ok(())
    }

    // A Fire.
    fn fire(&mut self, process: usize)
        requires process { process < length self.old.fires.items }
        requires few { slice_index self.old.fires.items process + 1 < 2 ^ 32 }
        ensures progress { self.new.progress ≡ self.old.progress }
        ensures fires { self.new.fires.items ≡ slice_set self.old.fires.items process
            (slice_index self.old.fires.items process + 1) }
        ensures queues { self.new.queues ≡ self.old.queues }
        ensures slots { self.new.slots ≡ self.old.slots }
    {
        self.fires[process] += 1;
    }

    // A Put: the turn of the last fire goes to the channel.
    fn put(&mut self, process: u32, channel: u32) -> Result<(), AllocError>
        requires process { process < length self.old.fires.items }
        requires fired { 0 < slice_index self.old.fires.items process }
        requires queue { channel < length self.old.queues.items }
        ensures progress { OnOk result (self.new.progress ≡ self.old.progress) }
        ensures fires { OnOk result (self.new.fires ≡ self.old.fires) }
        ensures queues { OnOk result (self.new.queues.items
            ≡ slice_set self.old.queues.items channel
            (slice_index_or self.old.queues.items channel []
            ++ pred (slice_index self.old.fires.items process) ∷ [])) }
        ensures slots { OnOk result (self.new.slots ≡ self.old.slots) }
    {
        let turn = self.fires[process as usize] - 1;
        push_turn(&mut self.queues, channel as usize, turn)?;
        Ok(())
    }

    /// Whether a process whose next event is this Get may go on. It takes no memory.
    pub(crate) fn can_get(&self, network: &Network, process: u32, channel: u32, slot: u32) -> bool
        requires state { IsTagState (net_of network.now) self.now }
        requires next { next (net_of network.now) (state_of (net_of network.now) self.now) process
            ≡ Some (Event.Get channel slot) }
        ensures { result
            ≡ enabled (net_of network.now) (state_of (net_of network.now) self.now) process }
    {
        let _ = (process, slot);
        self.progress.has_token(network, channel)
    }

    /// Whether a process whose next event is this Put may go on. It takes no memory.
    pub(crate) fn can_put(&self, network: &Network, process: u32, channel: u32) -> bool
        requires state { IsTagState (net_of network.now) self.now }
        requires next { next (net_of network.now) (state_of (net_of network.now) self.now) process
            ≡ Some (Event.Put channel) }
        ensures { result
            ≡ enabled (net_of network.now) (state_of (net_of network.now) self.now) process }
    {
        let _ = process;
        let capacity = capacity_of(network, channel);
        self.progress.has_place(network, channel, capacity)
    }

    /// The next event of an enabled process, which is this Get, or want of memory.
    pub(crate) fn step_get(
        &mut self,
        network: &Network,
        process: u32,
        channel: u32,
        slot: u32,
    ) -> Result<(), AllocError>
        requires state { IsTagState (net_of network.now) self.old }
        requires enabled { enabled (net_of network.now) (state_of (net_of network.now) self.old)
            process ≡ true }
        requires next { next (net_of network.now) (state_of (net_of network.now) self.old) process
            ≡ Some (Event.Get channel slot) }
        ensures run { OnOk result (state_of (net_of network.now) self.new
            ≡ step (net_of network.now) tags (state_of (net_of network.now) self.old) process) }
        ensures state { OnOk result (IsTagState (net_of network.now) self.new) }
    {
        self.progress.make_event(network, process);
        self.get(network, process, channel, slot)?;
        Ok(())
    }

    /// The next event of a process, which is a Fire. It takes no memory.
    pub(crate) fn step_fire(&mut self, network: &Network, process: u32)
        requires state { IsTagState (net_of network.now) self.old }
        requires next { (refs : List Ref)
            × (next (net_of network.now) (state_of (net_of network.now) self.old) process
            ≡ Some (Event.Fire refs)) }
        ensures run { state_of (net_of network.now) self.new
            ≡ step (net_of network.now) tags (state_of (net_of network.now) self.old) process }
        ensures state { IsTagState (net_of network.now) self.new }
    {
        self.progress.make_event(network, process);
        self.fire(process as usize);
    }

    /// The next event of an enabled process, which is this Put, or want of memory.
    pub(crate) fn step_put(
        &mut self,
        network: &Network,
        process: u32,
        channel: u32,
    ) -> Result<(), AllocError>
        requires state { IsTagState (net_of network.now) self.old }
        requires enabled { enabled (net_of network.now) (state_of (net_of network.now) self.old)
            process ≡ true }
        requires next { next (net_of network.now) (state_of (net_of network.now) self.old) process
            ≡ Some (Event.Put channel) }
        ensures run { OnOk result (state_of (net_of network.now) self.new
            ≡ step (net_of network.now) tags (state_of (net_of network.now) self.old) process) }
        ensures state { OnOk result (IsTagState (net_of network.now) self.new) }
    {
        self.progress.make_event(network, process);
        self.put(process, channel)?;
        Ok(())
    }
}
