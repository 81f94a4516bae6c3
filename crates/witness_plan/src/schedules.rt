ghost use Rattle.std.specs.Prelude.{◌≡◌, IfOk};
ghost use Rattle.sanlp.specs.Size.{SizeIsOk};
ghost use Rattle.net_core.specs.Machine.{net_of};
ghost use Rattle.net_core.specs.Orders.{EndsAll};
ghost use Rattle.net_core.specs.Rules.{tags};
ghost use Rattle.net_core.specs.Shape.{FitsNumbers, IsWired};
ghost use Rattle.process_derive.specs.Derived.{net};
ghost use Rattle.witness_plan.specs.Schedules.{downward_schedule, schedule};
ghost use Rattle.witness_plan.specs.Sequential.{capacities, channels_with, sequential_schedule, with_capacities};

use crate::laws::schedule_runs;
use crate::points::PointRun;
use crate::recorder::{Recorder, bound_after};
use fire_runs::trace_runs;
use net_core::{Channel, Network, WiredNetwork};
use plain_data::Items;
use process_derive::numbers_fit;
use sanlp::{Nest, Points};
use std::alloc::{AllocError, Global};

/// Which schedule of a nest's network is meant.
#[derive(Clone, Copy, PartialEq, Eq, Debug)]
pub enum Policy {
    /// The one that follows the sequential program: the process of each entry of the trace does all events of that point.
    Seq,
    /// The one that takes at each state the highest-numbered process whose next event could come if no channel were ever
    /// full.
    Down,
}

/// A run of a network, and for each channel the greatest length of its queue along that run.
#[derive(Drop)]
pub struct Witness {
    /// The number of the process that makes each event.
    pub schedule: Items<u32>,
    pub capacities: Items<u32>,
}

// The schedule that takes the trace and lets the process of each entry do all events of that point, with its capacities.
fn sequential(alloc: Global, nest: &Nest, network: &Network) -> Result<Witness, AllocError>
    requires size { SizeIsOk nest.now }
    requires network { network.now ≡ net nest.now }
    requires wired { IsWired (net_of network.now) }
    requires numbers { FitsNumbers (net_of network.now) }
    ensures schedule { IfOk result (λ witness. witness.schedule ≡ sequential_schedule nest.now) }
    ensures capacities { IfOk result
        (λ witness. witness.capacities ≡ capacities network.now (sequential_schedule nest.now)) }
{
    let mut made = PointRun::new(alloc, network)?;
    let runs = trace_runs(alloc, nest)?;
    for run in runs.as_slice() {
        made.make_points(network, run.process, run.count)?;
    }
    made.into_witness(alloc, network)
}

// The schedule that takes at each state the highest-numbered process that is ready, with its capacities. After an event of
// that process no higher one is ready but a Put's reader, so the search goes on from there.
fn downward(alloc: Global, wired: &WiredNetwork) -> Result<Witness, AllocError>
    ensures schedule { IfOk result
        (λ witness. witness.schedule ≡ downward_schedule (net_of wired.now.network.now)) }
    ensures capacities { IfOk result
        (λ witness. witness.capacities
        ≡ capacities wired.now.network.now
        (downward_schedule (net_of wired.now.network.now))) }
{
    let network = wired.network;
    let mut recorder = Recorder::new(alloc, wired)?;
    let mut below = network.processes.len() as u32;
    while let Some(process) = recorder.highest_ready(network, below) {
        let Some(event) = recorder.next_event(network, process) else {
            unreachable!()
        };
        below = bound_after(network, process, event);
        recorder.make_event(network, process)?;
    }
    Ok(recorder.into_witness())
}

/// The schedule of a nest's network under a policy, and the greatest length of each channel's queue along it. With these
/// capacities it is a run of the network that ends all. Nothing is refused but want of memory.
pub fn plan_for(
    alloc: Global,
    nest: &Nest,
    network: &Network,
    policy: Policy,
) -> Result<Witness, AllocError>
    requires size { SizeIsOk nest.now }
    requires network { network.now ≡ net nest.now }
    ensures schedule { IfOk result (λ witness. witness.schedule ≡ schedule nest.now policy) }
    ensures capacities { IfOk result
        (λ witness. witness.capacities ≡ capacities network.now (schedule nest.now policy)) }
    ensures run { IfOk result
        (λ witness. EndsAll
        (net_of (with_capacities network.now witness.capacities)) tags witness.schedule) }
{
    schedule_runs(nest);
    numbers_fit(nest);
    let wired = WiredNetwork { network };
    match policy {
        Policy::Seq => sequential(alloc, nest, network),
        Policy::Down => downward(alloc, &wired),
    }
}

/// The answer of `plan_for`, beside points, which it doesn't need.
pub fn plan(
    alloc: Global,
    nest: &Nest,
    _points: &Points,
    network: &Network,
    policy: Policy,
) -> Result<Witness, AllocError>
    requires size { SizeIsOk nest.now }
    requires network { network.now ≡ net nest.now }
    ensures schedule { IfOk result (λ witness. witness.schedule ≡ schedule nest.now policy) }
    ensures capacities { IfOk result
        (λ witness. witness.capacities ≡ capacities network.now (schedule nest.now policy)) }
    ensures run { IfOk result
        (λ witness. EndsAll
        (net_of (with_capacities network.now witness.capacities)) tags witness.schedule) }
{
    plan_for(alloc, nest, network, policy)
}

// The channels with these capacities; a channel past the list has none.
fn channels_with(
    alloc: Global,
    channels: &[Channel],
    capacities: &[u32],
) -> Result<Vec<Channel>, AllocError>
    ensures { IfOk result (λ changed. changed.items ≡ channels_with channels.now capacities.now) }
{
    let mut changed = Vec::with_capacity(alloc, channels.len())?;
    for (at, channel) in channels.iter().enumerate() {
        let capacity = capacities.get(at).copied().unwrap_or(0);
        changed.push(Channel {
            writer: channel.writer,
            reader: channel.reader,
            read: channel.read,
            capacity,
            class: channel.class,
        })?;
    }
    Ok(changed)
}

/// The network with other capacities, one for each channel.
pub fn with_capacities(
    alloc: Global,
    network: Network,
    capacities: &[u32],
) -> Result<Network, AllocError>
    ensures { IfOk result (λ changed. changed ≡ with_capacities network capacities.now) }
{
    let channels = channels_with(alloc, network.channels.as_slice(), capacities)?;
    Ok(Network {
        processes: network.processes,
        channels: Items::from_vec(channels),
    })
}
