ghost use Rattle.std.specs.Prelude.{◌≡◌, ◌<◌, ℕ};
ghost use Rattle.sanlp.specs.declared.nest.Inputs.{Inputs};
ghost use Rattle.sanlp.specs.declared.nest.Nest.{Nest};
ghost use Rattle.sanlp.specs.Meaning.{arrays};
ghost use Rattle.net_core.specs.declared.network.Network.{Network};
ghost use Rattle.net_core.specs.Machine.{Net, Rule, net_of};
ghost use Rattle.net_core.specs.Orders.{EndsAlways};
ghost use Rattle.net_core.specs.Rules.{values};
ghost use Rattle.net_core.specs.Shape.{IsWired};
ghost use Rattle.net_core.specs.Sound.{IsSound};
ghost use Rattle.clock_sim.specs.Clocks.{clocks};
ghost use Rattle.design_clocks.specs.Registers.{Controls, after_edges, no_stalls};
ghost use Rattle.design_clocks.specs.Clocked.{FiresFindValues, GiveScripts, RunsByClock, TakesClocks, results_of};
ghost use Rattle.design_clocks.specs.Plain.{plain};
ghost use Rattle.design_clocks.specs.Rings.{Holds, ring_after_edges};

use clock_sim::{clocked_run_computes, clocked_run_ends};
use net_core::two_steps;

// Each of these does nothing: its contract is a law over the definitions.

/// A design whose sequencers give the scripts of a network does at each edge of the clock what the clocked run does at each clock,
/// though there one process steps after the other, and here all registers change at once by what they held before the edge.
pub fn design_runs_by_clock<T: Copy>()
    ensures { (n : Net) (controls : Controls) (rule : Rule T) → IsWired n
        → GiveScripts n controls → RunsByClock n controls rule }
{
    two_steps::<T>();
}

/// Where every order of events ends all, the design takes exactly as many clocks as the clocked run, and no channel ever holds more
/// tokens than its capacity.
pub fn design_takes_clocks<T: Copy>()
    ensures { (n : Net) (controls : Controls) (rule : Rule T) → IsWired n
        → GiveScripts n controls → EndsAlways n rule → TakesClocks n controls rule }
{
    clocked_run_ends::<T>();
}

/// The design of a network that is sound for a nest takes as many clocks as the clocked run, and by then the sinks have fired
/// the arrays after the nest. Each fire finds a value in each slot that it reads.
pub fn design_computes()
    ensures clocks { (nest : Nest) (network : Network) (controls : Controls) (d : Inputs)
        → IsSound nest network → GiveScripts (net_of network) controls
        → TakesClocks (net_of network) controls (values nest d) }
    ensures arrays { (nest : Nest) (network : Network) (controls : Controls) (d : Inputs)
        → IsSound nest network → GiveScripts (net_of network) controls
        → results_of nest (net_of network) controls (values nest d) no_stalls
        (clocks (net_of network)) ≡ arrays nest d }
    ensures reads { (nest : Nest) (network : Network) (controls : Controls) (d : Inputs)
        → IsSound nest network → GiveScripts (net_of network) controls
        → FiresFindValues (net_of network) controls (values nest d) }
{
    clocked_run_computes();
}

/// A channel may as well be a ring of as many places as its capacity: at each edge the ring has as many tokens as the channel of
/// the design, so it is ready and valid where that is, and these lie in it from the oldest one on, so it has the same front.
pub fn rings_hold_tokens<T: Copy>()
    ensures { (n : Net) (controls : Controls) (rule : Rule T) (k c : ℕ) → IsWired n
        → GiveScripts n controls → 0 < n.capacity c
        → Holds (n.capacity c) (ring_after_edges n controls rule c k)
        ((after_edges n controls rule k).fifo c) }
{
    design_runs_by_clock::<T>();
}

/// Sequencers without repeats give the scripts: a node may as well have a counter over all its events.
pub fn plain_sequencers_give_scripts()
    ensures { (n : Net) → GiveScripts n (λ p. plain (n.script p)) }
{}
