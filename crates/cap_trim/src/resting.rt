ghost use Rattle.std.specs.Prelude.{◌≡◌, length, map, IfOk};
ghost use Rattle.net_core.specs.Machine.{net_of};
ghost use Rattle.net_core.specs.Shape.{FitsNumbers, IsShaped};
ghost use Rattle.net_core.specs.Progress.{at_capacities};
ghost use Rattle.cap_trim.specs.Rests.{rest};

use crate::least_run::go_on;
use net_core::{Network, Progress, WiredNetwork};
use sanlp::Points;
use std::alloc::{AllocError, Global};

/// The capacities of a network's channels, in order.
pub(crate) fn capacities_of(alloc: Global, network: &Network) -> Result<Vec<u32>, AllocError>
    ensures { IfOk result
        (λ capacities. capacities.items ≡ map (λ channel. channel.capacity) network.now.channels) }
{
    network
        .channels
        .as_slice()
        .iter()
        .map(|channel| channel.capacity)
        .collect(alloc)
}

/// Where a network comes to rest with other capacities.
pub(crate) fn rest_at(
    alloc: Global,
    wired: &WiredNetwork,
    capacities: &[u32],
) -> Result<Vec<u32>, AllocError>
    requires { length capacities.now ≡ length wired.now.network.now.channels }
    ensures { IfOk result
        (λ positions. positions.items
        ≡ rest (at_capacities (net_of wired.now.network.now) capacities.now)) }
{
    let mut progress = Progress::new(alloc, wired)?;
    go_on(&mut progress, wired.network, capacities);
    Ok(progress.into_positions())
}

/// The positions at which a network comes to rest: those that it reaches where at each state the least enabled process steps,
/// until none is enabled. Every run that can't go on has them (Kahn 1974). Nothing is refused but want of memory. It takes
/// the time of the network's events, each with a look at the processes that may go on.
pub fn rest(alloc: Global, network: &Network, _points: &Points) -> Result<Vec<u32>, AllocError>
    requires shaped { IsShaped (net_of network.now) _points.now.of }
    requires numbers { FitsNumbers (net_of network.now) }
    ensures { IfOk result (λ positions. positions.items ≡ rest (net_of network.now)) }
{
    let capacities = capacities_of(alloc, network)?;
    let wired = WiredNetwork { network };
    rest_at(alloc, &wired, &capacities)
}
