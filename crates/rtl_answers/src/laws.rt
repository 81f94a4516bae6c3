ghost use Rattle.std.specs.Prelude.{◌≡◌, ◌≤◌, ℕ, List};
ghost use Rattle.sanlp.specs.declared.nest.Inputs.{Inputs};
ghost use Rattle.sanlp.specs.Meaning.{arrays};
ghost use Rattle.net_core.specs.Machine.{net_of};
ghost use Rattle.net_core.specs.Rules.{values};
ghost use Rattle.net_core.specs.Sound.{IsSound, sink_lists};
ghost use Rattle.design_clocks.specs.Clocked.{TakesClocks, results_of};
ghost use Rattle.design_clocks.specs.Registers.{no_stalls};
ghost use Rattle.port_clocks.specs.PortClocks.{PortClocksEnd, after_port_clocks};
ghost use Rattle.rtl_line.specs.declared.words.Policy.{Policy};
ghost use Rattle.rtl_line.specs.declared.words.Ports.TheVariants.{One, All};
ghost use Rattle.rtl_text.specs.Designs.{IsDesignOf, controls_of};
ghost use Rattle.rtl_answers.specs.Clocking.{clocks_for};
ghost use Rattle.rtl_answers.specs.Networks.{network_for};

use net_checker::is_sound;
use network_laws::trimmed_network_is_sound;
use port_clocks::port_clocks_compute;
use rtl_text::designs_run_by_clock;
use sanlp::Nest;
use swept_net::has_certificate;

// Each of these does nothing: its contract is a law over the definitions.

/// The number that is answered where clocks are asked for, with one port after the other, is that of each design under the same
/// policy: where no stream stalls, its registers stand still after exactly so many edges from a reset on, each node at its script's
/// end, and its sinks have fired the arrays after the nest.
pub fn answered_clocks_are_those_of_designs(nest: &Nest)
    ensures sound { (policy : Policy) → IsSound nest.now (network_for policy nest.now) }
    ensures clocks { (policy : Policy) (text : List ℕ) (d : Inputs)
        → (design : IsDesignOf nest.now (network_for policy nest.now) text)
        → TakesClocks (net_of (network_for policy nest.now)) (controls_of design.units)
        (values nest.now d) }
    ensures arrays { (policy : Policy) (text : List ℕ) (d : Inputs)
        → (design : IsDesignOf nest.now (network_for policy nest.now) text)
        → results_of nest.now (net_of (network_for policy nest.now)) (controls_of design.units)
        (values nest.now d) no_stalls (clocks_for One policy nest.now) ≡ arrays nest.now d }
{
    is_sound();
    has_certificate(nest);
    trimmed_network_is_sound(nest);
    designs_run_by_clock();
}

/// The number that is answered where each port goes at its own pace is that of a run of the ports under the same policy: each of its
/// clocks has an event, all events have come at its end, and its sinks have kept the arrays after the nest. It is no more than the
/// number that is answered with one port after the other.
pub fn answered_port_clocks_end(nest: &Nest)
    ensures ends { (policy : Policy) (d : Inputs)
        → PortClocksEnd (net_of (network_for policy nest.now)) (values nest.now d) }
    ensures arrays { (policy : Policy) (d : Inputs)
        → sink_lists nest.now
        (after_port_clocks (net_of (network_for policy nest.now)) (values nest.now d)
        (clocks_for All policy nest.now)).run ≡ arrays nest.now d }
    ensures few { (policy : Policy)
        → clocks_for All policy nest.now ≤ clocks_for One policy nest.now }
{
    answered_clocks_are_those_of_designs(nest);
    port_clocks_compute();
}
