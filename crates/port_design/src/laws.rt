ghost use Rattle.std.specs.Prelude.{◌≡◌, ◌<◌, ℕ};
ghost use Rattle.sanlp.specs.declared.nest.Inputs.{Inputs};
ghost use Rattle.sanlp.specs.declared.nest.Nest.{Nest};
ghost use Rattle.sanlp.specs.Meaning.{arrays};
ghost use Rattle.net_core.specs.declared.network.Network.{Network};
ghost use Rattle.net_core.specs.Machine.{Net, Rule, net_of};
ghost use Rattle.net_core.specs.Orders.{EndsAlways};
ghost use Rattle.net_core.specs.Rules.{values};
ghost use Rattle.net_core.specs.Shape.{IsWired};
ghost use Rattle.net_core.specs.Sound.{IsSound};
ghost use Rattle.design_clocks.specs.Rings.{Holds};
ghost use Rattle.port_clocks.specs.PortClocks.{port_clocks};
ghost use Rattle.port_design.specs.Registers.{Controls, after_edges, no_stalls};
ghost use Rattle.port_design.specs.Clocked.{FiresFindValues, GiveItems, HasSlotsApart, RunsByPortClock, TakesPortClocks, results_of};
ghost use Rattle.port_design.specs.PortRings.{port_ring_after};

use port_clocks::{port_clocks_compute, port_clocks_end};
use port_runs::{port_runs_compute, port_runs_end, port_runs_name};

// Each of these does nothing: its contract is a law over the definitions.

/// A design whose sequencers give the items of a network's ports does at each edge of the clock what the clocked run of the ports
/// does at each clock, though there the events of a clock come one after the other, and here all registers change at once by what
/// they held before the edge. Between two Fires no two channels may be got into one slot.
pub fn port_design_runs_by_clock<T: Copy>()
    ensures { (n : Net) (controls : Controls) (rule : Rule T) → IsWired n → HasSlotsApart n
        → GiveItems n controls → RunsByPortClock n controls rule }
{}

/// Where every order of events ends all, the design takes exactly as many clocks as the clocked run of the ports: something moves at
/// each edge before so many, and from then on nothing does and each sequencer is at its end. No channel ever holds more tokens than
/// its capacity.
pub fn port_design_takes_clocks<T: Copy>()
    ensures { (n : Net) (controls : Controls) (rule : Rule T) → IsWired n → HasSlotsApart n
        → GiveItems n controls → EndsAlways n rule → TakesPortClocks n controls rule }
{
    port_runs_end::<T>();
    port_clocks_end::<T>();
}

/// The design of a network that is sound for a nest takes as many clocks as the clocked run of its ports, and by then the sinks have
/// fired the arrays after the nest. Each fire finds a value in each slot that it reads.
pub fn port_design_computes()
    ensures clocks { (nest : Nest) (network : Network) (controls : Controls) (d : Inputs)
        → IsSound nest network → HasSlotsApart (net_of network)
        → GiveItems (net_of network) controls
        → TakesPortClocks (net_of network) controls (values nest d) }
    ensures arrays { (nest : Nest) (network : Network) (controls : Controls) (d : Inputs)
        → IsSound nest network → HasSlotsApart (net_of network)
        → GiveItems (net_of network) controls
        → results_of nest (net_of network) controls (values nest d) no_stalls
        (port_clocks (net_of network)) ≡ arrays nest d }
    ensures reads { (nest : Nest) (network : Network) (controls : Controls) (d : Inputs)
        → IsSound nest network → HasSlotsApart (net_of network)
        → GiveItems (net_of network) controls
        → FiresFindValues (net_of network) controls (values nest d) }
{
    port_clocks_compute();
    port_runs_compute();
    port_runs_name::<i64>();
}

/// A channel may as well be a ring of as many places as its capacity: at each edge the ring has as many tokens as the channel of
/// the design, so it is ready and valid where that is, and these lie in it from the oldest one on, so it has the same front.
pub fn port_rings_hold_tokens<T: Copy>()
    ensures { (n : Net) (controls : Controls) (rule : Rule T) (k c : ℕ) → IsWired n
        → HasSlotsApart n → GiveItems n controls → 0 < n.capacity c
        → Holds (n.capacity c) (port_ring_after n controls rule c k)
        ((after_edges n controls rule k).fifo c) }
{
    port_design_runs_by_clock::<T>();
}
