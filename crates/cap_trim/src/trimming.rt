ghost use Rattle.std.specs.Prelude.{◌≡◌, ◌<◌, ◌≤◌, ℕ, length, slice_index, slice_set, IfOk, OnOk};
ghost use Rattle.net_checker.specs.Fits.{Fits};
ghost use Rattle.swept_net.specs.Certificates.{swept_cert};
ghost use Rattle.net_core.specs.Machine.{net_of};
ghost use Rattle.net_core.specs.Shape.{FitsNumbers};
ghost use Rattle.witness_plan.specs.Sequential.{with_capacities};
ghost use Rattle.cap_trim.specs.Capacities.{IsPlanned, SticksBelow, capacity_list, least_capacity, lowered_rests, trimmed_network};
ghost use Rattle.net_core.specs.Progress.{at_capacities};
ghost use Rattle.cap_trim.specs.Rests.{least_run};

use crate::least_run::go_on;
use crate::needed_places::needed_places;
use crate::resting::{capacities_of, rest_at};
use derived_names::{has_classes_of_uses, names_last_writers};
use net_core::{Network, Progress, WiredNetwork};
use plain_data::Items;
use process_derive::fits_nest;
use sanlp::{Nest, Points};
use std::alloc::{AllocError, Global};

/// Capacities none of which can be lowered, and for each channel where the network comes to rest with one place less there.
#[derive(Drop)]
pub struct Trimmed {
    pub capacities: Items<u32>,
    /// One list of positions for each channel, with one position for each process.
    pub rests: Items<Items<u32>>,
}

// Gives a channel the least capacity at which the network ends, or leaves its own where no lesser one will do. Each try goes
// on from where the capacity before it stuck, since a run with less room is a run with more. So all tries together take the
// time of one run.
fn lower(
    alloc: Global,
    wired: &WiredNetwork,
    capacities: &mut [u32],
    channel: u32,
) -> Result<(), AllocError>
    requires capacities { length capacities.old ≡ length wired.now.network.now.channels }
    requires channel { channel < length wired.now.network.now.channels }
    ensures { OnOk result (capacities.new
        ≡ slice_set capacities.old channel
        (least_capacity (at_capacities (net_of wired.now.network.now) capacities.old) channel)) }
{
    let network = wired.network;
    let at = channel as usize;
    let own = capacities[at];
    let mut progress = Progress::new(alloc, wired)?;
    for capacity in 0..own {
        capacities[at] = capacity;
        go_on(&mut progress, network, capacities);
        if progress.has_ended(network) {
            return Ok(());
        }
    }
    capacities[at] = own;
    Ok(())
}

// Gives each channel its least capacity, in ascending order. Where each place is found to be needed, one run finds them.
fn trimmed_capacities(alloc: Global, wired: &WiredNetwork) -> Result<Vec<u32>, AllocError>
    ensures { IfOk result
        (λ capacities. capacities.items
        ≡ capacity_list (trimmed_network (net_of wired.now.network.now))) }
{
    if let Some(places) = needed_places(alloc, wired)? {
        return Ok(places);
    }
    let mut capacities = capacities_of(alloc, wired.network)?;
    for channel in 0..wired.network.channels.len() as u32 {
        lower(alloc, wired, &mut capacities, channel)?;
    }
    Ok(capacities)
}

// Where the network with these capacities comes to rest when a channel has one place less, for each channel.
fn lowered_rests(
    alloc: Global,
    wired: &WiredNetwork,
    capacities: &mut [u32],
) -> Result<Items<Items<u32>>, AllocError>
    requires { length capacities.old ≡ length wired.now.network.now.channels }
    ensures rests { IfOk result
        (λ rests. rests
        ≡ lowered_rests (at_capacities (net_of wired.now.network.now) capacities.old)) }
    ensures same { OnOk result (capacities.new ≡ capacities.old) }
{
    let mut rests = Items::new(alloc);
    for at in 0..capacities.len() {
        let kept = capacities[at];
        capacities[at] = kept.saturating_sub(1);
        rests.push(Items::from_vec(rest_at(alloc, wired, capacities)?))?;
        capacities[at] = kept;
    }
    Ok(rests)
}

/// Lowers the capacities of a network one after the other, in ascending order of channels, each to the least one at which the
/// network ends, and tells for each channel where the network comes to rest with one place less there. It takes for each
/// channel the time of two runs at most, and that of one more, in which needed places are looked for. Nothing is refused but
/// want of memory.
pub fn least_capacities(alloc: Global, wired: &WiredNetwork) -> Result<Trimmed, AllocError>
    ensures capacities { IfOk result
        (λ trimmed. trimmed.capacities
        ≡ capacity_list (trimmed_network (net_of wired.now.network.now))) }
    ensures rests { IfOk result
        (λ trimmed. trimmed.rests
        ≡ lowered_rests (trimmed_network (net_of wired.now.network.now))) }
{
    let mut capacities = trimmed_capacities(alloc, wired)?;
    let rests = lowered_rests(alloc, wired, &mut capacities)?;
    Ok(Trimmed {
        capacities: Items::from_vec(capacities),
        rests,
    })
}

/// The answer of `least_capacities` for a nest's network, beside points, which it doesn't need. With one place less
/// in a channel the network sticks. With the new capacities and its least-process run the network fits the nest, so it is
/// sound. Whether the sum of the capacities is the least isn't said.
pub fn trim(
    alloc: Global,
    nest: &Nest,
    _points: &Points,
    network: &Network,
) -> Result<Trimmed, AllocError>
    requires numbers { FitsNumbers (net_of network.now) }
    requires planned { IsPlanned nest.now network.now }
    ensures capacities { IfOk result
        (λ trimmed. trimmed.capacities ≡ capacity_list (trimmed_network (net_of network.now))) }
    ensures within { IfOk result
        (λ trimmed. (c : ℕ) → c < length network.now.channels
        → (1 ≤ slice_index trimmed.capacities c)
        × (slice_index trimmed.capacities c ≤ (net_of network.now).capacity c)) }
    ensures fits { IfOk result
        (λ trimmed. Fits nest.now (with_capacities network.now trimmed.capacities)
        (swept_cert nest.now
        (least_run (net_of (with_capacities network.now trimmed.capacities))))) }
    ensures rests { IfOk result
        (λ trimmed. trimmed.rests ≡ lowered_rests (trimmed_network (net_of network.now))) }
    ensures sticks { IfOk result
        (λ trimmed. SticksBelow (net_of (with_capacities network.now trimmed.capacities))
        trimmed.rests) }
{
    fits_nest(nest);
    names_last_writers(nest);
    has_classes_of_uses(nest);
    let wired = WiredNetwork { network };
    least_capacities(alloc, &wired)
}
