ghost use Rattle.std.specs.Prelude.{◌≡◌, ◌<◌, ◌≤◌, ◌+◌, ◌^◌, ◌==◌, ℕ, Some, List, true, false, not, ◌++◌, length, map, slice_get, IfOk};
ghost use Rattle.std.specs.List.{filter};
ghost use Rattle.sanlp.specs.declared.nest.Tag.{Tag};
ghost use Rattle.net_core.specs.declared.network.Process.{Process};
ghost use Rattle.net_core.specs.Machine.{net_of, can_come};
ghost use Rattle.net_core.specs.Rules.{tags};
ghost use Rattle.port_runs.specs.Ports.{IsPortRun, PortState, may_come_at, port_after, port_start, port_step};
ghost use Rattle.port_sim.specs.declared.window.Pending.{Pending};
ghost use Rattle.port_sim.specs.declared.window.Window.{Window};
ghost use Rattle.port_clocks.specs.PortClocks.{comes, part_of_clock, places_of};
ghost use Rattle.port_sim.specs.Windows.{CanCount, HasChannel, HasQueues, IsAt, IsReached, IsWindow, is_of_kind, place_of, queued_after};

use crate::window::{Kind, Window, is_due, is_of_kind, take_round};
use net_core::{Event, Network, Process, WiredNetwork};
use script_blocks::ScriptCursor;
use std::alloc::{AllocError, Global};

/// An event of a network, by its process and its place in the script.
#[derive(Clone, Copy)]
pub(crate) struct EventIndex {
    pub process: u32,
    pub place: u32,
}

/// How far the ports of a network have come: of each process a window of its script, and of each channel how many tokens it holds.
#[derive(Drop)]
pub(crate) struct Ports {
    pub windows: Vec<Window>,
    pub queued: Vec<u32>,
}

// Whether an event's channel has a token or room for it, where the channels hold so many tokens.
fn can_come(network: &Network, queued: &[u32], event: &Event) -> bool
    requires number { length queued.now ≡ length network.now.channels }
    requires channel { HasChannel (length network.now.channels) event.now }
    ensures { (s : PortState Tag) → HasQueues (net_of network.now) s queued.now
        → result ≡ can_come (net_of network.now) s.run (Some event.now) }
{
    match event {
        Event::Get { channel, .. } => queued[*channel as usize] > 0,
        Event::Fire { .. } => true,
        Event::Put { channel } => {
            let at = *channel as usize;
            queued[at] < network.channels.as_slice()[at].capacity
        }
    }
}

// Whether the event at a place of a window may come.
fn may_come(network: &Network, queued: &[u32], window: &Window, at: usize) -> bool
    requires number { length queued.now ≡ length network.now.channels }
    requires at { at < length window.now.events.items }
    requires channel { (x : Pending) → slice_get window.now.events.items at ≡ Some x
        → HasChannel (length network.now.channels) x.event }
    ensures { (s : PortState Tag) (p : ℕ) → HasQueues (net_of network.now) s queued.now
        → IsWindow ((net_of network.now).script p) (s.has_come p) window.now
        → result ≡ may_come_at (net_of network.now) s (p, window.now.first + at) }
{
    let pending = window.events[at];
    if pending.has_come {
        return false;
    }
    if !is_due(&window.events, at) {
        return false;
    }
    can_come(network, queued, &pending.event)
}

// Whether the event at a place of a window comes in a part of a clock at whose beginning the channels held so many tokens.
fn comes(
    network: &Network,
    kind: Kind,
    before: &[u32],
    queued: &[u32],
    window: &Window,
    at: usize,
) -> bool
    requires before { length before.now ≡ length network.now.channels }
    requires number { length queued.now ≡ length network.now.channels }
    requires at { at < length window.now.events.items }
    requires channel { (x : Pending) → slice_get window.now.events.items at ≡ Some x
        → HasChannel (length network.now.channels) x.event }
    ensures { (clock s : PortState Tag) (p : ℕ) → HasQueues (net_of network.now) clock before.now
        → HasQueues (net_of network.now) s queued.now
        → IsWindow ((net_of network.now).script p) (s.has_come p) window.now
        → result
        ≡ comes (net_of network.now) (is_of_kind kind) clock s (p, window.now.first + at) }
{
    let event = window.events[at].event;
    if !is_of_kind(kind, &event) {
        return false;
    }
    if !can_come(network, before, &event) {
        return false;
    }
    may_come(network, queued, window, at)
}

// Lists the events of a process that come in a part of a clock.
fn list_window(
    network: &Network,
    kind: Kind,
    before: &[u32],
    ports: &Ports,
    process: u32,
    list: &mut Vec<EventIndex>,
) -> Result<(), AllocError>
    requires reached { IsReached (net_of network.now) ports.now }
    requires before { length before.now ≡ length network.now.channels }
    requires process { process < length ports.now.windows.items }
    ensures { IfOk result (λ _. (clock s : PortState Tag)
        → HasQueues (net_of network.now) clock before.now → IsAt (net_of network.now) s ports.now
        → map place_of list.new.items
        ≡ map place_of list.old.items
        ++ filter (comes (net_of network.now) (is_of_kind kind) clock s)
        (places_of (net_of network.now) process)) }
{
    let window = &ports.windows[process as usize];
    for at in 0..window.events.len() {
        if comes(network, kind, before, &ports.queued, window, at) {
            list.push(EventIndex {
                process,
                place: window.first + at as u32,
            })?;
        }
    }
    Ok(())
}

// Lists the events of a network that come in a part of a clock.
fn list_part(
    network: &Network,
    kind: Kind,
    before: &[u32],
    ports: &Ports,
    list: &mut Vec<EventIndex>,
) -> Result<(), AllocError>
    requires reached { IsReached (net_of network.now) ports.now }
    requires before { length before.now ≡ length network.now.channels }
    ensures { IfOk result (λ _. (clock s : PortState Tag)
        → HasQueues (net_of network.now) clock before.now → IsAt (net_of network.now) s ports.now
        → map place_of list.new.items
        ≡ part_of_clock (net_of network.now) (is_of_kind kind) clock s) }
{
    list.clear();
    for process in 0..ports.windows.len() as u32 {
        list_window(network, kind, before, ports, process, list)?;
    }
    Ok(())
}

// Counts the token of an event, if it has one.
fn count_token(queued: &mut [u32], event: &Event)
    requires { CanCount queued.old event.now }
    ensures { queued.new ≡ queued_after queued.old event.now }
{
    match event {
        Event::Get { channel, .. } => queued[*channel as usize] -= 1,
        Event::Fire { .. } => {}
        Event::Put { channel } => queued[*channel as usize] += 1,
    }
}

// Lets the event at a place of a process's script come, which may.
fn make_event(
    ports: &mut Ports,
    network: &Network,
    process: u32,
    place: u32,
) -> Result<(), AllocError>
    requires { (s : PortState Tag) × IsAt (net_of network.now) s ports.old
        × (may_come_at (net_of network.now) s (process, place) ≡ true) }
    ensures { IfOk result (λ _. (s : PortState Tag) → IsAt (net_of network.now) s ports.old
        → may_come_at (net_of network.now) s (process, place) ≡ true
        → IsAt (net_of network.now)
        (port_step (net_of network.now) tags s (process, place)) ports.new) }
{
    let _ = network;
    let event = ports.windows[process as usize].make_event(place)?;
    count_token(&mut ports.queued, &event);
    Ok(())
}

// Lets the events of a run come.
fn make_all(ports: &mut Ports, network: &Network, list: &[EventIndex]) -> Result<(), AllocError>
    requires { (s : PortState Tag) × IsAt (net_of network.now) s ports.old
        × IsPortRun (net_of network.now) tags s (map place_of list.now) }
    ensures { IfOk result (λ _. (s : PortState Tag) → IsAt (net_of network.now) s ports.old
        → IsPortRun (net_of network.now) tags s (map place_of list.now)
        → IsAt (net_of network.now)
        (port_after (net_of network.now) tags s (map place_of list.now)) ports.new) }
{
    for at in list {
        make_event(ports, network, at.process, at.place)?;
    }
    Ok(())
}

/// Lets the events of a part of a clock come, at whose beginning the channels held so many tokens, and tells whether there are any.
pub(crate) fn make_part(
    network: &Network,
    kind: Kind,
    before: &[u32],
    ports: &mut Ports,
    list: &mut Vec<EventIndex>,
) -> Result<bool, AllocError>
    requires reached { IsReached (net_of network.now) ports.old }
    requires before { (clock : PortState Tag) × HasQueues (net_of network.now) clock before.now }
    ensures { IfOk result (λ some. (clock s : PortState Tag)
        → HasQueues (net_of network.now) clock before.now → IsAt (net_of network.now) s ports.old
        → IsAt (net_of network.now) (port_after (net_of network.now) tags s
        (part_of_clock (net_of network.now) (is_of_kind kind) clock s)) ports.new
        × (some
        ≡ not (length (part_of_clock (net_of network.now) (is_of_kind kind) clock s) == 0))) }
{
    list_part(network, kind, before, ports, list)?;
    make_all(ports, network, list)?;
    Ok(!list.is_empty())
}

// The first window of each process: the events up to its first fire.
fn first_windows(alloc: Global, processes: &[Process]) -> Result<Vec<Window>, AllocError>
    requires { (p : ℕ) (process : Process) → slice_get processes.now p ≡ Some process
        → length process.script < 2 ^ 32 }
    ensures { IfOk result (λ windows. (length windows.items ≡ length processes.now)
        × ((p : ℕ) (w : Window) (process : Process) → slice_get windows.items p ≡ Some w
        → slice_get processes.now p ≡ Some process
        → IsWindow process.script (λ k. false) w)) }
{
    let mut windows = Vec::with_capacity(alloc, processes.len())?;
    for process in processes {
        let mut rest = ScriptCursor::new(&process.script)?;
        let mut events = Vec::new(alloc);
        take_round(&mut events, &mut rest)?;
        windows.push(Window {
            first: 0,
            events,
            rest,
        })?;
    }
    Ok(windows)
}

impl Ports {
    /// No event has come.
    pub(crate) fn new(alloc: Global, wired: &WiredNetwork) -> Result<Ports, AllocError>
        ensures { IfOk result (IsAt (net_of wired.now.network.now)
            (port_start (net_of wired.now.network.now))) }
    {
        let network = wired.network;
        Ok(Ports {
            windows: first_windows(alloc, network.processes.as_slice())?,
            queued: vec![in alloc; 0; network.channels.len()]?,
        })
    }
}
