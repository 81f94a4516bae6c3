//! Places that a network can't end without: where they are enough they are its least capacities, which one run finds.
ghost use Rattle.std.specs.Bool.{OnTrue};
ghost use Rattle.std.specs.Prelude.{◌≡◌, ◌<◌, ◌≤◌, ◌+◌, ℕ, false, true, length, slice_get, slice_index, IfOk, IfSome};
ghost use Rattle.net_core.specs.Cuts.{enabled_at};
ghost use Rattle.net_core.specs.Machine.{net_of};
ghost use Rattle.net_core.specs.Progress.{IsProgress, at_capacities, cut_of};
ghost use Rattle.cap_trim.specs.Capacities.{capacity_list, trimmed_network};
ghost use Rattle.cap_trim.specs.Rests.{can_end};
ghost use Rattle.cap_trim.specs.Rings.{IsRing, waits_at, waits_for};

use crate::least_run::go_on;
use net_core::{Event, Network, Progress, WiredNetwork};
use std::alloc::{AllocError, Global};

// The capacity of a channel.
fn capacity_of(network: &Network, channel: u32) -> u32
    ensures { result ≡ (net_of network.now).capacity channel }
{
    match network.channels.get(channel as usize) {
        Some(channel) => channel.capacity,
        None => 0,
    }
}

// The writer of a channel.
fn writer_of(network: &Network, channel: u32) -> u32
    ensures { result ≡ (net_of network.now).writer channel }
{
    match network.channels.get(channel as usize) {
        Some(channel) => channel.writer,
        None => 0,
    }
}

// The reader of a channel.
fn reader_of(network: &Network, channel: u32) -> u32
    ensures { result ≡ (net_of network.now).reader channel }
{
    match network.channels.get(channel as usize) {
        Some(channel) => channel.reader,
        None => 0,
    }
}

// The process that this one waits for, where it is to get, or to put to this channel.
fn waits_for(progress: &Progress, network: &Network, channel: u32, process: u32) -> Option<u32>
    requires progress { IsProgress (net_of network.now) progress.now }
    requires process { process < length network.now.processes }
    ensures there { IfSome result (λ other. other < length network.now.processes) }
    ensures other { IfSome result
        (λ other. other ≡ waits_for (net_of network.now) (cut_of progress.now) process) }
    ensures waits { IfSome result (λ other. waits_at channel
        (slice_get ((net_of network.now).script process) (cut_of progress.now process)) ≡ true) }
{
    match progress.next_event(network, process) {
        Some(Event::Get { channel: from, .. }) => Some(writer_of(network, *from)),
        Some(Event::Put { channel: to }) => {
            if *to == channel {
                Some(reader_of(network, *to))
            } else {
                None
            }
        }
        Some(Event::Fire { .. }) | None => None,
    }
}

// Whether from this process on each waits for the next one, the last of them for this, while none of them is to put to
// another channel than this one.
fn is_ring(progress: &Progress, network: &Network, channel: u32, first: u32) -> bool
    requires progress { IsProgress (net_of network.now) progress.now }
    requires first { first < length network.now.processes }
    ensures { OnTrue result (IsRing (net_of network.now) (cut_of progress.now) channel first) }
{
    let mut process = first;
    for _ in 0..network.processes.len() {
        let Some(other) = waits_for(progress, network, channel, process) else {
            return false;
        };
        if other == first {
            return true;
        }
        process = other;
    }
    false
}

// A channel that needs a place more, since a process is to put to it that could never do so, if one is found. No process may
// go on with these places.
fn needing_place(progress: &Progress, network: &Network, places: &[u32]) -> Option<u32>
    requires progress { IsProgress (net_of network.now) progress.now }
    requires places { length places.now ≡ length network.now.channels }
    requires stuck { (p : ℕ) → enabled_at (at_capacities (net_of network.now) places.now)
        (cut_of progress.now) p ≡ false }
    ensures there { IfSome result (λ channel. channel < length network.now.channels) }
    ensures needed { IfSome result (λ channel. can_end (net_of network.now) ≡ true
        → slice_index places.now channel + 1
        ≤ (trimmed_network (net_of network.now)).capacity channel) }
{
    for process in 0..network.processes.len() as u32 {
        if let Some(Event::Put { channel }) = progress.next_event(network, process) {
            let channel = *channel;
            if places[channel as usize] == 0 {
                return Some(channel);
            }
            if is_ring(progress, network, channel, process) {
                return Some(channel);
            }
        }
    }
    None
}

/// The least capacities, where each place of them is found to be needed at a state in which the network would else stick; and
/// none where that isn't found. It takes the time of one run, and for each place at most one look
/// at all processes for each process.
pub(crate) fn needed_places(
    alloc: Global,
    wired: &WiredNetwork,
) -> Result<Option<Vec<u32>>, AllocError>
    ensures { IfOk result (λ found. IfSome found (λ places.
        places.items ≡ capacity_list (trimmed_network (net_of wired.now.network.now)))) }
{
    let network = wired.network;
    let mut places = vec![in alloc; 0; network.channels.len()]?;
    let mut progress = Progress::new(alloc, wired)?;
    // A channel isn't given more places than it has tokens, and there are fewer tokens than this.
    for _ in 0..u32::MAX {
        go_on(&mut progress, network, &places);
        if progress.has_ended(network) {
            return Ok(Some(places));
        }
        let Some(channel) = needing_place(&progress, network, &places) else {
            return Ok(None);
        };
        let at = channel as usize;
        if places[at] >= capacity_of(network, channel) {
            return Ok(None);
        }
        places[at] += 1;
    }
    Ok(None)
}
