ghost use Rattle.std.specs.Prelude.{◌≡◌, ◌≢◌, ◌<◌, ◌^◌, ◌++◌, ℕ, codes, decimal, map, All, IsTrue, List, None};
ghost use Rattle.sanlp.specs.declared.nest.Inputs.{Inputs};
ghost use Rattle.sanlp.specs.declared.nest.Nest.{Nest};
ghost use Rattle.sanlp.specs.Meaning.{arrays};
ghost use Rattle.sanlp.specs.Points.{points_of};
ghost use Rattle.sanlp.specs.WellFormed.{all_differ};
ghost use Rattle.net_core.specs.declared.network.Network.{Network};
ghost use Rattle.net_core.specs.Machine.{net_of};
ghost use Rattle.net_core.specs.Rules.{values};
ghost use Rattle.net_core.specs.Shape.{IsShaped};
ghost use Rattle.net_core.specs.Sound.{IsSound};
ghost use Rattle.clock_sim.specs.Clocks.{clocks};
ghost use Rattle.design_clocks.specs.Registers.{no_stalls};
ghost use Rattle.design_clocks.specs.Clocked.{FiresFindValues, GiveScripts, RunsByClock, TakesClocks, results_of};
ghost use Rattle.node_automata.specs.Automata.{automata};
ghost use Rattle.vhdl_text.specs.Refusal.{first_too_long};
ghost use Rattle.unit_text.specs.declared.unit.Unit.{Unit};
ghost use Rattle.unit_text.specs.Limits.{first_with_long_sequencer};
ghost use Rattle.unit_text.specs.Nodes.{entity_text};
ghost use Rattle.unit_text.specs.Ports.{entity_with, node_name, ports};
ghost use Rattle.rtl_text.specs.Designs.{AreUnitsOf, IsDesignOf, controls_of};
ghost use Rattle.rtl_text.specs.Joins.{joins, node_with};
ghost use Rattle.rtl_text.specs.Names.{as_read};
ghost use Rattle.rtl_text.specs.Networks.{network_entity, node_part, rtl_text};
ghost use Rattle.rtl_text.specs.Ports.{network_ports};

use design_clocks::{design_computes, design_runs_by_clock};
use unit_text::controls_give_scripts;

// Each of these does nothing: its contract is a law over the definitions.

/// Each port of a process's node is joined, and in the order in which its entity has them: the entity has these ports and no
/// others, the network's node has these joins and no others, and the names of the joins are those of the ports.
pub fn node_ports_are_joined_in_order()
    ensures entity { (unit : Unit) → entity_text unit
        ≡ entity_with (node_name unit.auto.process) (ports unit) }
    ensures node { (nest : Nest) (unit : Unit)
        → node_part nest unit ≡ node_with unit.auto.process (joins nest unit) }
    ensures names { (nest : Nest) (unit : Unit)
        → map (λ join. join.0) (joins nest unit) ≡ map (λ port. port.0) (ports unit) }
{}

/// Where there is hardware for each process of a network, in order, the text of the network with it is a design of the network.
pub fn units_make_a_design()
    ensures { (nest : Nest) (network : Network) (units : List Unit) → AreUnitsOf nest network units
        → IsDesignOf nest network (rtl_text nest network units) }
{}

/// The network's entity has these ports and no others, and no two of them have one name, in whatever case VHDL reads it: those of
/// two arrays, whose names may differ in case alone, those of the source and of the sink of one array, and the fixed ones. None
/// ends in a number, as the names of the network's signals and parts do.
pub fn network_ports_differ()
    ensures entity { (nest : Nest) (units : List Unit) → network_entity nest units
        ≡ entity_with (codes "network") (network_ports nest units) }
    ensures names { (nest : Nest) (network : Network) (units : List Unit)
        → AreUnitsOf nest network units
        → IsTrue (all_differ (map (λ port. as_read port.0) (network_ports nest units))) }
    ensures unnumbered { (nest : Nest) (network : Network) (units : List Unit)
        → AreUnitsOf nest network units → (word : List ℕ) (n : ℕ) → n < 2 ^ 64
        → All (λ port. as_read port.0 ≢ word ++ decimal n) (network_ports nest units) }
{}

/// Where no script of a network is too long for nodes with a table of all events, no sequencer of its processes is too long for a
/// design: a process fires once at each of its points.
pub fn short_scripts_have_short_sequencers()
    ensures { (nest : Nest) (network : Network) (units : List Unit)
        → IsShaped (net_of network) (points_of nest) → AreUnitsOf nest network units
        → first_too_long (automata nest network) ≡ None
        → first_with_long_sequencer units ≡ None }
{}

/// The sequencers of the hardware of a network give its scripts, so the design does at each edge of the clock what the clocked run
/// does at each clock, where no stream stalls. That of a network that is sound for a nest takes exactly as many clocks, and by then
/// its sinks have fired the arrays after the nest. Each fire finds a value in each slot that it reads. This is said of registers
/// that stand for those of its text (a count of fires for its loop counters), and not of what a tool makes of the text.
pub fn designs_run_by_clock()
    ensures scripts { (nest : Nest) (network : Network) (units : List Unit)
        → IsShaped (net_of network) (points_of nest) → AreUnitsOf nest network units
        → GiveScripts (net_of network) (controls_of units) }
    ensures runs { (nest : Nest) (network : Network) (text : List ℕ) (d : Inputs)
        → IsShaped (net_of network) (points_of nest) → (design : IsDesignOf nest network text)
        → RunsByClock (net_of network) (controls_of design.units) (values nest d) }
    ensures clocks { (nest : Nest) (network : Network) (text : List ℕ) (d : Inputs)
        → IsSound nest network → (design : IsDesignOf nest network text)
        → TakesClocks (net_of network) (controls_of design.units) (values nest d) }
    ensures arrays { (nest : Nest) (network : Network) (text : List ℕ) (d : Inputs)
        → IsSound nest network → (design : IsDesignOf nest network text)
        → results_of nest (net_of network) (controls_of design.units) (values nest d) no_stalls
        (clocks (net_of network)) ≡ arrays nest d }
    ensures reads { (nest : Nest) (network : Network) (text : List ℕ) (d : Inputs)
        → IsSound nest network → (design : IsDesignOf nest network text)
        → FiresFindValues (net_of network) (controls_of design.units) (values nest d) }
{
    controls_give_scripts();
    design_runs_by_clock::<i64>();
    design_computes();
}
