ghost use Rattle.std.specs.Prelude.{◌≡◌, ◌<◌, ◌+◌, ◌^◌, ℕ, [], ◌∷◌, length, All, Some, true, IsTrue, ◌↔◌, IfSome, IfNone};
ghost use Rattle.std.specs.Option.{option_copied};
ghost use Rattle.net_core.specs.Machine.{Rule, net_of, last_of, next, enabled, step, after_event, HasEnded};
ghost use Rattle.net_core.specs.Shape.{IsWithin};
ghost use Rattle.net_core.specs.Rooms.{store_past_event, store_with_token, store_with_value};
ghost use Rattle.net_core.specs.Rules.{KeepsTo, AllKeepTo};
ghost use Rattle.net_core.specs.Held.{held_of, run_of, IsFor, IsReached, HasPassed, IsLeastUnended};

use crate::firing::Firing;
use crate::network::{Event, Network};
use crate::refs::Refs;
use crate::room::Room;
use std::collections::VecDeque;

/// What one process has: how many events it has made, and its room.
#[derive(Drop)]
pub(crate) struct Local<T> {
    pub(crate) position: u32,
    pub(crate) room: Room<T>,
}

/// A state of the machine: for each process its position, what is left of its script, its slots and what it fired, and for
/// each channel its queue.
#[derive(Drop)]
pub struct State<T> {
    pub(crate) locals: Vec<Local<T>>,
    pub(crate) queues: Vec<VecDeque<T>>,
}

impl<T: Copy> Local<T> {
    // One event further: a Put, or the end of another event.
    fn pass(&mut self)
        requires { self.old.position + 1 < 2 ^ 32 }
        ensures position { self.new.position ≡ self.old.position + 1 }
        ensures room { self.new.room ≡ store_past_event self.old.room }
    {
        self.room.pass();
        self.position += 1;
    }

    // A Get: the token goes to the slot.
    fn fill(&mut self, slot: usize, token: T)
        requires position { self.old.position + 1 < 2 ^ 32 }
        requires slot { slot < length self.old.room.slots }
        ensures position { self.new.position ≡ self.old.position + 1 }
        ensures room { self.new.room
            ≡ store_past_event (store_with_token self.old.room slot token) }
    {
        self.room.fill(slot, token);
        self.pass();
    }

    // A Fire: the value is kept. It takes no memory.
    fn keep(&mut self, value: T)
        requires position { self.old.position + 1 < 2 ^ 32 }
        requires reserved { length self.old.room.kept < self.old.room.space }
        ensures position { self.new.position ≡ self.old.position + 1 }
        ensures room { self.new.room
            ≡ store_past_event (store_with_value self.old.room value) }
    {
        self.room.keep(value);
        self.pass();
    }
}

impl<T: Copy> State<T> {
    fn get(&mut self, process: usize, channel: usize, slot: usize)
        requires process { process < (held_of self.old).processes }
        requires channel { channel < (held_of self.old).channels }
        requires token { 0 < length ((run_of self.old).queue channel) }
        requires position { ((run_of self.old).local process).position + 1 < 2 ^ 32 }
        requires slot { slot < length ((run_of self.old).local process).slots }
        ensures run { (rule : Rule T)
            → run_of self.new
            ≡ after_event rule (run_of self.old) process (Some (Event.Get channel slot)) }
        ensures passed { HasPassed process (held_of self.old) (held_of self.new) }
    {
        if let Some(token) = self.queues[channel].pop_front() {
            self.locals[process].fill(slot, token);
        }
    }

    fn fire<F: Firing<T>>(&mut self, rule: &F, process: u32, refs: &Refs)
        requires process { process < (held_of self.old).processes }
        requires position { ((run_of self.old).local process).position + 1 < 2 ^ 32 }
        requires turn { length ((run_of self.old).local process).kept < 2 ^ 32 }
        requires reserved { length ((run_of self.old).local process).kept
            < (held_of self.old).kept_room process }
        requires limits { KeepsTo (F.limits rule.now process)
            (length ((run_of self.old).local process).kept) (length refs.now) }
        requires slots { All (IsWithin (length ((run_of self.old).local process).slots)) refs.now }
        ensures run { run_of self.new
            ≡ after_event (F.meaning rule.now) (run_of self.old) process
            (Some (Event.Fire refs.now)) }
        ensures passed { HasPassed process (held_of self.old) (held_of self.new) }
    {
        let local = &mut self.locals[process as usize];
        let turn = local.room.kept().len() as u32;
        let value = rule.fire(process, turn, refs, local.room.slots());
        local.keep(value);
    }

    fn put(&mut self, process: usize, channel: usize)
        requires process { process < (held_of self.old).processes }
        requires channel { channel < (held_of self.old).channels }
        requires fired { 0 < length ((run_of self.old).local process).kept }
        requires position { ((run_of self.old).local process).position + 1 < 2 ^ 32 }
        requires reserved { length ((run_of self.old).queue channel)
            < (held_of self.old).queue_room channel }
        ensures run { (rule : Rule T)
            → run_of self.new
            ≡ after_event rule (run_of self.old) process (Some (Event.Put channel)) }
        ensures passed { HasPassed process (held_of self.old) (held_of self.new) }
    {
        let local = &mut self.locals[process];
        let value = local.room.last();
        local.pass();
        self.queues[channel].push_back_reserved(value);
    }
}

// The next event of a process, if it has one.
fn upcoming<'a, T: Copy>(state: &'a State<T>, network: &Network, process: u32) -> Option<&'a Event>
    requires { IsFor (net_of network.now) (held_of state.now) }
    ensures { option_copied result ≡ next (net_of network.now) (run_of state.now) process }
{
    let _ = network;
    match state.locals.get(process as usize) {
        Some(local) => local.room.upcoming(),
        None => None,
    }
}

/// Whether a process may go on: a Get needs a token in its channel's queue, a Put a queue shorter than its channel's
/// capacity, and a Fire nothing. A process at its script's end may not, nor one that isn't there. It takes no memory.
pub fn enabled<T: Copy>(state: &State<T>, network: &Network, process: u32) -> bool
    requires { IsFor (net_of network.now) (held_of state.now) }
    ensures { result ≡ enabled (net_of network.now) (run_of state.now) process }
{
    match upcoming(state, network, process) {
        None => false,
        Some(Event::Get { channel, .. }) => match state.queues.get(*channel as usize) {
            None => false,
            Some(queue) => queue.len() > 0,
        },
        Some(Event::Fire { .. }) => true,
        Some(Event::Put { channel }) => match (
            state.queues.get(*channel as usize),
            network.channels.get(*channel as usize),
        ) {
            (Some(queue), Some(channel)) => queue.len() < channel.capacity as usize,
            _ => false,
        },
    }
}

/// The next event of an enabled process. It takes no memory.
pub fn next<'a, T: Copy>(state: &'a State<T>, network: &Network, process: u32) -> &'a Event
    requires state { IsFor (net_of network.now) (held_of state.now) }
    requires enabled { enabled (net_of network.now) (run_of state.now) process ≡ true }
    ensures { next (net_of network.now) (run_of state.now) process ≡ Some result.now }
{
    match upcoming(state, network, process) {
        Some(event) => event,
        None => unreachable!(),
    }
}

/// One event of an enabled process, where a fire gives what the rule does. It takes no memory, and the time of one event.
pub fn step<T: Copy, F: Firing<T>>(state: &mut State<T>, network: &Network, rule: &F, process: u32)
    requires state { IsFor (net_of network.now) (held_of state.old) }
    requires limits { AllKeepTo (net_of network.now) (F.limits rule.now) }
    requires enabled { enabled (net_of network.now) (run_of state.old) process ≡ true }
    ensures run { run_of state.new
        ≡ step (net_of network.now) (F.meaning rule.now) (run_of state.old) process }
    ensures state { IsFor (net_of network.now) (held_of state.new) }
{
    let at = process as usize;
    match *next(state, network, process) {
        Event::Get { channel, slot } => state.get(at, channel as usize, slot as usize),
        Event::Fire { refs } => state.fire(rule, process, &refs),
        Event::Put { channel } => state.put(at, channel as usize),
    }
}

/// The least process that isn't at its script's end, if there is one. It takes no memory.
pub fn unended<T: Copy>(state: &State<T>, network: &Network) -> Option<u32>
    requires { IsFor (net_of network.now) (held_of state.now) }
    ensures none { IfNone result (HasEnded (net_of network.now) (run_of state.now)) }
    ensures least { IfSome result (λ p. IsLeastUnended (net_of network.now) (run_of state.now) p) }
{
    for at in 0..network.processes.len() {
        let script = &network.processes.as_slice()[at].script;
        if state.locals[at].position < script.len() {
            return Some(at as u32);
        }
    }
    None
}

/// Whether every process is at its script's end. It takes no memory.
pub fn ended<T: Copy>(state: &State<T>, network: &Network) -> bool
    requires { IsFor (net_of network.now) (held_of state.now) }
    ensures { IsTrue result ↔ HasEnded (net_of network.now) (run_of state.now) }
{
    unended(state, network).is_none()
}

/// What a process has fired, in order.
pub fn kept<T: Copy>(state: &State<T>, process: u32) -> &[T]
    requires { process < (held_of state.now).processes }
    ensures { result.now ≡ ((run_of state.now).local process).kept }
{
    state.locals[process as usize].room.kept()
}

/// How many events a process has made.
pub fn position<T: Copy>(state: &State<T>, process: u32) -> u32
    requires { process < (held_of state.now).processes }
    ensures { result ≡ ((run_of state.now).local process).position }
{
    state.locals[process as usize].position
}

/// The slots of a process: in each the token that was put there last, if there was one.
pub fn slots<T: Copy>(state: &State<T>, process: u32) -> &[Option<T>]
    requires { process < (held_of state.now).processes }
    ensures { result.now ≡ ((run_of state.now).local process).slots }
{
    state.locals[process as usize].room.slots()
}

// The length of a queue that is short.
fn short_length<T: Copy>(state: &State<T>, channel: u32) -> u32
    requires channel { channel < (held_of state.now).channels }
    requires short { length ((run_of state.now).queue channel) < 2 ^ 32 }
    ensures { result ≡ length ((run_of state.now).queue channel) }
{
    state.queues[channel as usize].len() as u32
}

/// The length of a channel's queue.
pub fn queued<T: Copy>(state: &State<T>, channel: u32) -> u32
    requires channel { channel < (held_of state.now).channels }
    requires reached { IsReached (held_of state.now) }
    ensures { result ≡ length ((run_of state.now).queue channel) }
{
    short_length(state, channel)
}
