ghost use Rattle.std.specs.Prelude.{◌≡◌};
ghost use Rattle.sanlp.specs.declared.nest.Inputs.{Inputs};
ghost use Rattle.sanlp.specs.declared.nest.Nest.{Nest};
ghost use Rattle.sanlp.specs.Meaning.{arrays};
ghost use Rattle.net_core.specs.declared.network.Network.{Network};
ghost use Rattle.net_core.specs.Machine.{Net, Rule, State, net_of, IsRun};
ghost use Rattle.net_core.specs.Orders.{EndsAlways};
ghost use Rattle.net_core.specs.Rules.{values};
ghost use Rattle.net_core.specs.Shape.{IsWired};
ghost use Rattle.net_core.specs.Sound.{IsSound, sink_lists};
ghost use Rattle.clock_sim.specs.Clocks.{ClockedRunEnds, after_clocks, clocks, enabled_processes};

use net_core::{every_order, two_steps};
use sanlp::Tag;

// Each of these does nothing: its contract is a law over the definitions.

/// One clock of a network from any state: an event that is enabled at the clock's beginning is still enabled when its turn
/// comes, so the clock's events are a run.
pub fn enabled_in_turn<T: Copy>()
    ensures { (n : Net) (rule : Rule T) (s : State T) → IsWired n
        → IsRun n rule s (enabled_processes n s) }
{
    two_steps::<T>();
}

/// Where every order of events ends all, the clocked run does so: it is a run of the machine, each of its clocks has an
/// event, and it has at most as many clocks as the scripts have events. In the words of dataflow it is the self-timed
/// execution in which each event takes one clock.
pub fn clocked_run_ends<T: Copy>()
    ensures { (n : Net) (rule : Rule T) → IsWired n → EndsAlways n rule → ClockedRunEnds n rule }
{
    two_steps::<T>();
    two_steps::<Tag>();
    every_order::<T, Tag>();
    every_order::<Tag, T>();
}

/// The clocked run of a network that is sound for a nest ends all, and then the sinks have kept the arrays after the nest.
pub fn clocked_run_computes()
    ensures ends { (nest : Nest) (network : Network) (d : Inputs) → IsSound nest network
        → ClockedRunEnds (net_of network) (values nest d) }
    ensures arrays { (nest : Nest) (network : Network) (d : Inputs) → IsSound nest network
        → sink_lists nest
        (after_clocks (net_of network) (values nest d) (clocks (net_of network))) ≡ arrays nest d }
{
    clocked_run_ends::<i64>();
}
