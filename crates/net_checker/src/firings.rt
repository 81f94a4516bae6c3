ghost use Rattle.std.specs.Prelude.{◌≡◌, ◌<◌, ◌^◌, length};
ghost use Rattle.net_core.specs.Machine.{net_of};
ghost use Rattle.net_core.specs.Shape.{is_fire};
ghost use Rattle.net_checker.specs.Firings.{firing_refusal, may_stand, process_firing};

use crate::fitting_fires::{fires_fit, fits_reads};
use crate::nest_network::NestNetwork;
use crate::parts::{script_of, turns_of};
use crate::verdict::Refusal;
use net_core::Event;

// Whether an event may stand in a process's script after so many fires.
fn may_stand(candidate: &NestNetwork, process: u32, before: usize, event: &Event) -> bool
    ensures { result
        ≡ may_stand candidate.now.nest.now (net_of candidate.now.network.now) process before
        event.now }
{
    match event {
        Event::Get { .. } => true,
        Event::Fire { .. } => {
            before < turns_of(candidate.points, process)
                && fits_reads(candidate.nest, candidate.network, process, event)
        }
        Event::Put { .. } => before > 0,
    }
}

fn is_fire(event: &Event) -> bool
    ensures { result ≡ is_fire event.now }
{
    matches!(event, Event::Fire { .. })
}

// Where the fires of a process go wrong, if they do, found event by event.
fn first_misfire(candidate: &NestNetwork, process: u32) -> Option<Refusal>
    requires process { process < length candidate.now.network.now.processes }
    requires short { length ((net_of candidate.now.network.now).script process) < 2 ^ 32 }
    ensures { result
        ≡ process_firing candidate.now.nest.now (net_of candidate.now.network.now) process }
{
    let mut place = 0;
    let mut fired = 0;
    for event in script_of(candidate.network, process).iter() {
        if !may_stand(candidate, process, fired, &event) {
            return Some(Refusal::Fires(process, place));
        }
        if is_fire(&event) {
            fired += 1;
        }
        place += 1;
    }
    if fired < turns_of(candidate.points, process) {
        return Some(Refusal::Fires(process, place));
    }
    None
}

// Where the fires of a process go wrong, if they do. Where its blocks tell that they don't, no place is sought.
fn process_firing(candidate: &NestNetwork, process: u32) -> Option<Refusal>
    requires process { process < length candidate.now.network.now.processes }
    requires short { length ((net_of candidate.now.network.now).script process) < 2 ^ 32 }
    ensures { result
        ≡ process_firing candidate.now.nest.now (net_of candidate.now.network.now) process }
{
    if fires_fit(candidate, process) {
        return None;
    }
    first_misfire(candidate, process)
}

/// The least process whose fires go wrong, and where, if there is one.
pub(crate) fn firing_refusal(candidate: &NestNetwork) -> Option<Refusal>
    ensures { result ≡ firing_refusal candidate.now.nest.now candidate.now.network.now }
{
    for process in 0..candidate.network.processes.len() as u32 {
        if let Some(refusal) = process_firing(candidate, process) {
            return Some(refusal);
        }
    }
    None
}
