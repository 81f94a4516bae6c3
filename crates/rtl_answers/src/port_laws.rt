ghost use Rattle.std.specs.Prelude.{◌≡◌, ℕ, List};
ghost use Rattle.sanlp.specs.declared.nest.Inputs.{Inputs};
ghost use Rattle.sanlp.specs.Meaning.{arrays};
ghost use Rattle.net_core.specs.Machine.{net_of};
ghost use Rattle.net_core.specs.Rules.{values};
ghost use Rattle.port_design.specs.Clocked.{FiresFindValues, RunsByPortClock, TakesPortClocks, results_of};
ghost use Rattle.port_design.specs.Registers.{no_stalls};
ghost use Rattle.port_rtl.specs.Controls.{port_controls};
ghost use Rattle.port_rtl.specs.Designs.{IsPortDesignOf};
ghost use Rattle.rtl_line.specs.declared.words.Policy.{Policy};
ghost use Rattle.rtl_line.specs.declared.words.Ports.TheVariants.{All};
ghost use Rattle.rtl_answers.specs.Clocking.{clocks_for};
ghost use Rattle.rtl_answers.specs.Networks.{network_for};

use crate::laws::answered_clocks_are_those_of_designs;
use derived_slots::slots_lie_apart;
use port_rtl::port_designs_run_by_clock;
use sanlp::Nest;

/// It does nothing: its contract is a law over the definitions. The number that is answered where each port goes at its own pace is that
/// of each design with such ports under the same policy: where no stream stalls, its registers do at each edge from a reset on what a clock
/// of the ports' run does, and stand still after exactly so many edges, and its sinks have fired the arrays after the nest. Each fire
/// finds a value in each slot that it reads.
pub fn answered_port_clocks_are_those_of_designs(nest: &Nest)
    ensures runs { (policy : Policy) (text : List ℕ) (d : Inputs)
        → (design : IsPortDesignOf nest.now (network_for policy nest.now) text)
        → RunsByPortClock (net_of (network_for policy nest.now))
        (port_controls (net_of (network_for policy nest.now)) design.units) (values nest.now d) }
    ensures clocks { (policy : Policy) (text : List ℕ) (d : Inputs)
        → (design : IsPortDesignOf nest.now (network_for policy nest.now) text)
        → TakesPortClocks (net_of (network_for policy nest.now))
        (port_controls (net_of (network_for policy nest.now)) design.units) (values nest.now d) }
    ensures arrays { (policy : Policy) (text : List ℕ) (d : Inputs)
        → (design : IsPortDesignOf nest.now (network_for policy nest.now) text)
        → results_of nest.now (net_of (network_for policy nest.now))
        (port_controls (net_of (network_for policy nest.now)) design.units) (values nest.now d)
        no_stalls (clocks_for All policy nest.now) ≡ arrays nest.now d }
    ensures reads { (policy : Policy) (text : List ℕ) (d : Inputs)
        → (design : IsPortDesignOf nest.now (network_for policy nest.now) text)
        → FiresFindValues (net_of (network_for policy nest.now))
        (port_controls (net_of (network_for policy nest.now)) design.units) (values nest.now d) }
{
    answered_clocks_are_those_of_designs(nest);
    slots_lie_apart(nest);
    port_designs_run_by_clock();
}
