ghost use Rattle.std.specs.Prelude.{◌≡◌, ◌<◌, ◌≤◌, ◌^◌, [], ◌∷◌, ◌++◌, length, slice_get, Some, IfOk, OnOk};
ghost use Rattle.std.specs.Option.{option_copied};
ghost use Rattle.net_core.specs.Cuts.{cut_after, opening};
ghost use Rattle.net_core.specs.Machine.{net_of};
ghost use Rattle.net_core.specs.Progress.{IsProgress, cut_of};
ghost use Rattle.net_core.specs.Shape.{IsWired};
ghost use Rattle.witness_plan.specs.Records.{IsOwn, IsRecord, IsThere, bound_after, lengths_after};
ghost use Rattle.witness_plan.specs.Schedules.{highest_ready, is_ready};

use crate::schedules::Witness;
use net_core::{Event, Network, Progress, WiredNetwork};
use plain_data::Items;
use std::alloc::{AllocError, Global};

/// A run of a network while it is made: the numbers of the processes that made its events, how far they have brought the
/// network, and the greatest length that each channel's queue has had.
#[derive(Drop)]
pub(crate) struct Recorder {
    pub(crate) schedule: Items<u32>,
    progress: Progress,
    greatest: Vec<u32>,
}

// The greatest lengths after an event that brought the network here. Only a Put can raise one.
fn note_event(greatest: &mut [u32], network: &Network, progress: &Progress, event: &Event)
    requires progress { IsProgress (net_of network.now) progress.now }
    requires channels { length greatest.old ≡ length network.now.channels }
    requires there { IsThere (net_of network.now) event.now }
    ensures { greatest.new
        ≡ lengths_after (net_of network.now) (cut_of progress.now) greatest.old event.now }
{
    match event {
        Event::Get { .. } | Event::Fire { .. } => {}
        Event::Put { channel } => {
            let length = progress.queued(network, *channel);
            let at = *channel as usize;
            greatest[at] = greatest[at].max(length);
        }
    }
}

impl Recorder {
    /// No event yet.
    pub(crate) fn new(alloc: Global, wired: &WiredNetwork) -> Result<Recorder, AllocError>
        ensures schedule { IfOk result (λ recorder. recorder.schedule ≡ []) }
        ensures recorder { IfOk result (IsRecord (net_of wired.now.network.now)) }
    {
        let schedule = Items::new(alloc);
        let progress = Progress::new(alloc, wired)?;
        let greatest = vec![in alloc; 0; wired.network.channels.len()]?;
        Ok(Recorder {
            schedule,
            progress,
            greatest,
        })
    }

    /// The schedule, and the greatest length of each channel's queue along it.
    pub(crate) fn into_witness(self) -> Witness
        ensures schedule { result.schedule ≡ self.schedule }
        ensures capacities { result.capacities ≡ self.greatest.items }
    {
        let Recorder {
            schedule,
            progress: _,
            greatest,
        } = self;
        Witness {
            schedule,
            capacities: Items::from_vec(greatest),
        }
    }

    /// The event that a process makes next, or `None` exactly at its script's end.
    pub(crate) fn next_event(&self, network: &Network, process: u32) -> Option<&Event>
        requires recorder { IsRecord (net_of network.now) self.now }
        requires process { process < length network.now.processes }
        ensures { option_copied result
            ≡ slice_get ((net_of network.now).script process)
            (cut_after opening self.now.schedule process) }
    {
        self.progress.next_event(network, process)
    }

    // Whether a process's next event could come if no channel were ever full.
    fn is_ready(&self, network: &Network, process: u32) -> bool
        requires recorder { IsRecord (net_of network.now) self.now }
        requires process { process < length network.now.processes }
        ensures { result
            ≡ is_ready (net_of network.now) (cut_after opening self.now.schedule) process }
    {
        match self.next_event(network, process) {
            Some(Event::Get { channel, .. }) => self.progress.has_token(network, *channel),
            Some(Event::Fire { .. } | Event::Put { .. }) => true,
            None => false,
        }
    }

    /// The highest-numbered process below this number whose next event could come if no channel were ever full.
    pub(crate) fn highest_ready(&self, network: &Network, below: u32) -> Option<u32>
        requires recorder { IsRecord (net_of network.now) self.now }
        requires below { below ≤ length network.now.processes }
        ensures { result
            ≡ highest_ready (net_of network.now) (cut_after opening self.now.schedule) below }
    {
        let mut process = below;
        while process > 0 {
            process -= 1;
            if self.is_ready(network, process) {
                return Some(process);
            }
        }
        None
    }

    /// Lets a process make its next event.
    pub(crate) fn make_event(&mut self, network: &Network, process: u32) -> Result<(), AllocError>
        requires recorder { IsRecord (net_of network.now) self.old }
        requires process { process < length network.now.processes }
        requires left { cut_after opening self.old.schedule process
            < length ((net_of network.now).script process) }
        ensures schedule { OnOk result (self.new.schedule ≡ self.old.schedule ++ process ∷ []) }
        ensures recorder { OnOk result (IsRecord (net_of network.now) self.new) }
    {
        self.schedule.push(process)?;
        let event = self.progress.make_event(network, process);
        note_event(&mut self.greatest, network, &self.progress, &event);
        Ok(())
    }
}

/// A number below which every process stands that an event of this process may have left or made ready: at a Put that is
/// also the channel's reader.
pub(crate) fn bound_after(network: &Network, process: u32, event: &Event) -> u32
    requires wired { IsWired (net_of network.now) }
    requires few { length network.now.processes < 2 ^ 32 }
    requires process { process < length network.now.processes }
    requires own { IsOwn (net_of network.now) process event.now }
    ensures value { result ≡ bound_after (net_of network.now) process event.now }
    ensures within { result ≤ length network.now.processes }
{
    match event {
        Event::Get { .. } | Event::Fire { .. } => process + 1,
        Event::Put { channel } => {
            let reader = network.channels.as_slice()[*channel as usize].reader;
            process.max(reader) + 1
        }
    }
}
