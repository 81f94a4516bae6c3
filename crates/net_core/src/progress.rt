//! The machine without values: which process may go on, and what a step does to positions and queues, is a matter of the
//! positions alone.
ghost use Rattle.std.specs.Prelude.{◌≡◌, ◌↔◌, ◌<◌, ◌+◌, ◌-◌, ◌^◌, ℕ, Some, map, length, nat_lt, slice_get, IfOk, IsTrue};
ghost use Rattle.std.specs.Option.{option_copied};
ghost use Rattle.net_core.specs.Cuts.{advanced, enabled_at, gets_at, opening, puts_at};
ghost use Rattle.net_core.specs.Machine.{net_of};
ghost use Rattle.net_core.specs.Progress.{CanCount, IsProgress, at_capacities, counts_after, cut_of, place_list, with_one_get, with_one_put};

use crate::network::{Event, Network, Process};
use crate::wired_network::WiredNetwork;
use script_blocks::ScriptCursor;
use std::alloc::{AllocError, Global};

/// How many tokens of a channel were put, and how many got.
#[derive(Clone, Copy)]
pub(crate) struct TokenCounts {
    puts: u32,
    gets: u32,
}

impl TokenCounts {
    // No token yet.
    const NONE: TokenCounts = TokenCounts { puts: 0, gets: 0 };

    fn add_put(&mut self)
        requires { self.old.puts + 1 < 2 ^ 32 }
        ensures { self.new ≡ with_one_put self.old }
    {
        self.puts += 1;
    }

    fn add_get(&mut self)
        requires { self.old.gets + 1 < 2 ^ 32 }
        ensures { self.new ≡ with_one_get self.old }
    {
        self.gets += 1;
    }

    // Whether a token was put and not got.
    fn has_token(&self) -> bool
        ensures { result ≡ nat_lt self.now.gets self.now.puts }
    {
        self.gets < self.puts
    }

    // Whether fewer tokens were put and not got than this.
    fn has_place(&self, capacity: u32) -> bool
        ensures { result ≡ nat_lt self.now.puts (self.now.gets + capacity) }
    {
        u64::from(self.puts) < u64::from(self.gets) + u64::from(capacity)
    }

    // How many tokens were put and not got.
    fn queued(&self) -> u32
        ensures { result ≡ self.now.puts - self.now.gets }
    {
        self.puts.saturating_sub(self.gets)
    }
}

/// How far a network has come: for each process its position and what it has left of its script, and for each channel how
/// many tokens were put and got. No value is kept.
#[derive(Drop)]
pub struct Progress {
    positions: Vec<u32>,
    cursors: Vec<ScriptCursor<Event>>,
    counts: Vec<TokenCounts>,
}

// A cursor for each process, before its first event.
fn first_cursors(
    alloc: Global,
    processes: &[Process],
) -> Result<Vec<ScriptCursor<Event>>, AllocError>
    ensures { IfOk result
        (λ cursors. cursors.items ≡ map (λ process. process.script) processes.now) }
{
    let mut cursors = Vec::with_capacity(alloc, processes.len())?;
    for process in processes {
        cursors.push(ScriptCursor::new(&process.script)?)?;
    }
    Ok(cursors)
}

// Counts the token of an event, if it has one.
fn count_token(counts: &mut [TokenCounts], event: &Event)
    requires { CanCount counts.old event.now }
    ensures { counts.new ≡ counts_after counts.old event.now }
{
    match event {
        Event::Get { channel, .. } => counts[*channel as usize].add_get(),
        Event::Fire { .. } => {}
        Event::Put { channel } => counts[*channel as usize].add_put(),
    }
}

impl Progress {
    /// No event yet. Nothing is refused but want of memory.
    pub fn new(alloc: Global, wired: &WiredNetwork) -> Result<Progress, AllocError>
        ensures opening { IfOk result (λ progress. cut_of progress ≡ opening) }
        ensures progress { IfOk result (IsProgress (net_of wired.now.network.now)) }
    {
        let network = wired.network;
        Ok(Progress {
            positions: vec![in alloc; 0; network.processes.len()]?,
            cursors: first_cursors(alloc, network.processes.as_slice())?,
            counts: vec![in alloc; TokenCounts::NONE; network.channels.len()]?,
        })
    }

    /// How many events each process has made, in order.
    pub fn into_positions(self) -> Vec<u32>
        ensures { result.items ≡ place_list self }
    {
        let Progress { positions, .. } = self;
        positions
    }

    /// The event that a process makes next, or `None` at its script's end. It takes no memory.
    pub fn next_event(&self, network: &Network, process: u32) -> Option<&Event>
        requires progress { IsProgress (net_of network.now) self.now }
        requires process { process < length network.now.processes }
        ensures { option_copied result
            ≡ slice_get ((net_of network.now).script process) (cut_of self.now process) }
    {
        let _ = network;
        self.cursors[process as usize].peek()
    }

    /// Whether a channel's queue holds a token: one that was put and not got.
    pub fn has_token(&self, network: &Network, channel: u32) -> bool
        requires progress { IsProgress (net_of network.now) self.now }
        requires channel { channel < length network.now.channels }
        ensures { result
            ≡ nat_lt (gets_at (net_of network.now) (cut_of self.now) channel)
            (puts_at (net_of network.now) (cut_of self.now) channel) }
    {
        let _ = network;
        self.counts[channel as usize].has_token()
    }

    /// Whether a channel's queue is shorter than this capacity.
    pub fn has_place(&self, network: &Network, channel: u32, capacity: u32) -> bool
        requires progress { IsProgress (net_of network.now) self.now }
        requires channel { channel < length network.now.channels }
        ensures { result
            ≡ nat_lt (puts_at (net_of network.now) (cut_of self.now) channel)
            (gets_at (net_of network.now) (cut_of self.now) channel + capacity) }
    {
        let _ = network;
        self.counts[channel as usize].has_place(capacity)
    }

    /// The length of a channel's queue: how many tokens were put and not got.
    pub fn queued(&self, network: &Network, channel: u32) -> u32
        requires progress { IsProgress (net_of network.now) self.now }
        requires channel { channel < length network.now.channels }
        ensures { result
            ≡ puts_at (net_of network.now) (cut_of self.now) channel -
            gets_at (net_of network.now) (cut_of self.now) channel }
    {
        let _ = network;
        self.counts[channel as usize].queued()
    }

    /// Whether a process may go on where the channels have these capacities: a Get needs a token in its channel's queue, a
    /// Put a queue shorter than its channel's capacity, and a Fire nothing. It takes no memory.
    pub fn is_enabled(&self, network: &Network, capacities: &[u32], process: u32) -> bool
        requires progress { IsProgress (net_of network.now) self.now }
        requires capacities { length capacities.now ≡ length network.now.channels }
        requires process { process < length network.now.processes }
        ensures { result
            ≡ enabled_at (at_capacities (net_of network.now) capacities.now) (cut_of self.now)
            process }
    {
        match self.next_event(network, process) {
            Some(Event::Get { channel, .. }) => self.has_token(network, *channel),
            Some(Event::Fire { .. }) => true,
            Some(Event::Put { channel }) => {
                self.has_place(network, *channel, capacities[*channel as usize])
            }
            None => false,
        }
    }

    /// Lets a process make its next event, and tells which event that is. Whether the event may come isn't asked here. It
    /// takes no memory.
    pub fn make_event(&mut self, network: &Network, process: u32) -> Event
        requires progress { IsProgress (net_of network.now) self.old }
        requires process { process < length network.now.processes }
        requires left { cut_of self.old process
            < length ((net_of network.now).script process) }
        ensures event { slice_get ((net_of network.now).script process) (cut_of self.old process)
            ≡ Some result }
        ensures cut { cut_of self.new ≡ advanced (cut_of self.old) process }
        ensures progress { IsProgress (net_of network.now) self.new }
    {
        let _ = network;
        let Some(event) = self.cursors[process as usize].next() else {
            unreachable!()
        };
        self.positions[process as usize] += 1;
        count_token(&mut self.counts, &event);
        event
    }

    /// Whether every process is at its script's end. It takes no memory.
    pub fn has_ended(&self, network: &Network) -> bool
        requires { IsProgress (net_of network.now) self.now }
        ensures { IsTrue result
            ↔ ((p : ℕ) → cut_of self.now p ≡ length ((net_of network.now).script p)) }
    {
        for (at, process) in network.processes.as_slice().iter().enumerate() {
            if self.positions[at] < process.script.len() {
                return false;
            }
        }
        true
    }
}
