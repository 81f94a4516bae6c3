ghost use Rattle.std.specs.Prelude.{◌≡◌, ◌++◌, ◌≢◌, ◌<◌, ◌^◌, ℕ, decimal, map, All, IsTrue, List};
ghost use Rattle.sanlp.specs.declared.nest.Inputs.{Inputs};
ghost use Rattle.sanlp.specs.declared.nest.Nest.{Nest};
ghost use Rattle.sanlp.specs.Meaning.{arrays};
ghost use Rattle.sanlp.specs.Points.{points_of};
ghost use Rattle.sanlp.specs.WellFormed.{all_differ};
ghost use Rattle.net_core.specs.declared.network.Network.{Network};
ghost use Rattle.net_core.specs.Machine.{net_of};
ghost use Rattle.net_core.specs.Rules.{values};
ghost use Rattle.net_core.specs.Shape.{IsShaped};
ghost use Rattle.net_core.specs.Sound.{IsSound};
ghost use Rattle.port_clocks.specs.PortClocks.{port_clocks};
ghost use Rattle.port_design.specs.Registers.{no_stalls};
ghost use Rattle.port_design.specs.Clocked.{FiresFindValues, GiveItems, HasSlotsApart, RunsByPortClock, TakesPortClocks, results_of};
ghost use Rattle.port_text.specs.declared.unit.PortUnit.{PortUnit};
ghost use Rattle.rtl_text.specs.Designs.{AreUnitsOf};
ghost use Rattle.rtl_text.specs.Names.{as_read};
ghost use Rattle.rtl_text.specs.Ports.{network_ports};
ghost use Rattle.port_rtl.specs.Controls.{port_controls};
ghost use Rattle.port_rtl.specs.Designs.{ArePortUnitsOf, IsPortDesignOf, port_rtl_text, units_of};

use port_design::{port_design_computes, port_design_runs_by_clock};
use rtl_text::network_ports_differ;

// Each of these does nothing: its contract is a law over the definitions.

/// Where there is hardware for each process of a network, in order, the text of the network with it is a design of the network.
pub fn port_units_make_a_design()
    ensures { (nest : Nest) (network : Network) (units : List PortUnit)
        → ArePortUnitsOf nest network units
        → IsPortDesignOf nest network (port_rtl_text nest network units) }
{}

/// What stands in the hardware of each process besides its ports' sequencers is hardware of the process, with the same ports: so each
/// port of a node is joined as in a design of the scripts.
pub fn port_units_are_units()
    ensures { (nest : Nest) (network : Network) (units : List PortUnit)
        → ArePortUnitsOf nest network units → AreUnitsOf nest network (units_of units) }
{}

/// No two ports of the network's entity have one name, in whatever case VHDL reads it, and none ends in a number, as the names of the
/// network's signals and parts do.
pub fn port_network_ports_differ()
    ensures names { (nest : Nest) (network : Network) (units : List PortUnit)
        → ArePortUnitsOf nest network units
        → IsTrue (all_differ (map (λ port. as_read port.0)
        (network_ports nest (units_of units)))) }
    ensures unnumbered { (nest : Nest) (network : Network) (units : List PortUnit)
        → ArePortUnitsOf nest network units → (word : List ℕ) (n : ℕ) → n < 2 ^ 64
        → All (λ port. as_read port.0 ≢ word ++ decimal n)
        (network_ports nest (units_of units)) }
{
    port_units_are_units();
    network_ports_differ();
}

/// The sequencers of the hardware of a network give the items of its ports. So, where between two Fires no two channels are got into
/// one slot, the design does at each edge of the clock what the clocked run of the ports does at each clock, where no stream stalls.
/// That of a network that is sound for a nest takes exactly as many clocks, and by then its sinks have fired the arrays after the
/// nest. Each fire finds a value in each slot that it reads. This is said of registers that stand for those of its text (a count of
/// fires for its loop counters), and not of what a tool makes of the text.
pub fn port_designs_run_by_clock()
    ensures items { (nest : Nest) (network : Network) (units : List PortUnit)
        → ArePortUnitsOf nest network units
        → GiveItems (net_of network) (port_controls (net_of network) units) }
    ensures runs { (nest : Nest) (network : Network) (text : List ℕ) (d : Inputs)
        → IsShaped (net_of network) (points_of nest) → HasSlotsApart (net_of network)
        → (design : IsPortDesignOf nest network text)
        → RunsByPortClock (net_of network) (port_controls (net_of network) design.units)
        (values nest d) }
    ensures clocks { (nest : Nest) (network : Network) (text : List ℕ) (d : Inputs)
        → IsSound nest network → HasSlotsApart (net_of network)
        → (design : IsPortDesignOf nest network text)
        → TakesPortClocks (net_of network) (port_controls (net_of network) design.units)
        (values nest d) }
    ensures arrays { (nest : Nest) (network : Network) (text : List ℕ) (d : Inputs)
        → IsSound nest network → HasSlotsApart (net_of network)
        → (design : IsPortDesignOf nest network text)
        → results_of nest (net_of network) (port_controls (net_of network) design.units)
        (values nest d) no_stalls (port_clocks (net_of network)) ≡ arrays nest d }
    ensures reads { (nest : Nest) (network : Network) (text : List ℕ) (d : Inputs)
        → IsSound nest network → HasSlotsApart (net_of network)
        → (design : IsPortDesignOf nest network text)
        → FiresFindValues (net_of network) (port_controls (net_of network) design.units)
        (values nest d) }
{
    port_design_runs_by_clock::<i64>();
    port_design_computes();
}
