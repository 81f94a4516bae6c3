ghost use Rattle.std.specs.Prelude.{◌≡◌, ◌==◌, ◌<◌, ◌||◌, ℕ, not, length, IfOk};
ghost use Rattle.sanlp.specs.declared.nest.Tag.{Tag};
ghost use Rattle.net_core.specs.Machine.{net_of};
ghost use Rattle.net_core.specs.Rules.{tags};
ghost use Rattle.port_runs.specs.Ports.{PortState, port_after};
ghost use Rattle.port_clocks.specs.PortClocks.{PortClocksEnd, events_of_clock, port_clocks};
ghost use Rattle.port_sim.specs.Windows.{IsAt, IsReached};

use crate::ports::{EventIndex, Ports, make_part};
use crate::window::Kind;
use net_core::{Network, WiredNetwork};
use std::alloc::{AllocError, Global};

// Whether any part of a clock has events.
fn any(puts: bool, fires: bool, gets: bool) -> bool
    ensures { result ≡ (puts || (fires || gets)) }
{
    puts || fires || gets
}

// Lets the events of a clock come, and tells whether there are any.
fn make_clock(
    network: &Network,
    ports: &mut Ports,
    before: &mut [u32],
    list: &mut Vec<EventIndex>,
) -> Result<bool, AllocError>
    requires reached { IsReached (net_of network.now) ports.old }
    requires before { length before.old ≡ length network.now.channels }
    ensures number { length before.new ≡ length before.old }
    ensures clock { IfOk result (λ some. (s : PortState Tag)
        → IsAt (net_of network.now) s ports.old
        → IsAt (net_of network.now) (port_after (net_of network.now) tags s
        (events_of_clock (net_of network.now) tags s)) ports.new
        × (some ≡ not (length (events_of_clock (net_of network.now) tags s) == 0))) }
{
    before.copy_from_slice(&ports.queued);
    let puts = make_part(network, Kind::Puts, before, ports, list)?;
    let fires = make_part(network, Kind::Fires, before, ports, list)?;
    let gets = make_part(network, Kind::Gets, before, ports, list)?;
    Ok(any(puts, fires, gets))
}

/// The number of clocks that a network takes whose ports go each at its own pace: at each clock each port makes at most one event and
/// each process fires at most once, until no event comes. Nothing is refused but want of memory. It takes the time of all events, and
/// at each clock of one look at the events of each process up to its next fire.
pub fn clock_count(alloc: Global, wired: &WiredNetwork) -> Result<u64, AllocError>
    requires { PortClocksEnd (net_of wired.now.network.now) tags }
    ensures { IfOk result (λ clocks. clocks ≡ port_clocks (net_of wired.now.network.now)) }
{
    let network = wired.network;
    let mut ports = Ports::new(alloc, wired)?;
    let mut before = vec![in alloc; 0; network.channels.len()]?;
    let mut list = Vec::new(alloc);
    let mut clocks = 0;
    let mut more = make_clock(network, &mut ports, &mut before, &mut list)?;
    while more {
        clocks += 1;
        more = make_clock(network, &mut ports, &mut before, &mut list)?;
    }
    Ok(clocks)
}
