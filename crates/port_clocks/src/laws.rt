ghost use Rattle.std.specs.Prelude.{◌≡◌};
ghost use Rattle.sanlp.specs.declared.nest.Inputs.{Inputs};
ghost use Rattle.sanlp.specs.declared.nest.Nest.{Nest};
ghost use Rattle.sanlp.specs.Meaning.{arrays};
ghost use Rattle.net_core.specs.declared.network.Network.{Network};
ghost use Rattle.net_core.specs.Machine.{Net, Rule, net_of};
ghost use Rattle.net_core.specs.Orders.{EndsAlways};
ghost use Rattle.net_core.specs.Rules.{values};
ghost use Rattle.net_core.specs.Shape.{IsWired};
ghost use Rattle.net_core.specs.Sound.{IsSound, sink_lists};
ghost use Rattle.port_clocks.specs.PortClocks.{PortClocksEnd, after_port_clocks, port_clocks};

use clock_sim::clocked_run_ends;
use net_core::every_order;
use port_runs::{port_runs_compute, port_runs_end};
use sanlp::Tag;

// Each of these does nothing: its contract is a law over the definitions.

/// Where every order of events of a network's scripts ends all, the clocked run of its ports does so: it is a run of the ports, each
/// of its clocks has an event, and it has no more clocks than the clocked run of the scripts, which it is nowhere behind. In the
/// words of dataflow it is a self-timed execution in which a process takes operands, fires and gives results side by side, and may
/// start a fire at every clock.
pub fn port_clocks_end<T: Copy>()
    ensures { (n : Net) (rule : Rule T) → IsWired n → EndsAlways n rule → PortClocksEnd n rule }
{
    port_runs_end::<T>();
    clocked_run_ends::<Tag>();
    every_order::<T, Tag>();
}

/// The clocked run of the ports of a network that is sound for a nest ends all, and then the sinks have kept the arrays after the
/// nest.
pub fn port_clocks_compute()
    ensures ends { (nest : Nest) (network : Network) (d : Inputs) → IsSound nest network
        → PortClocksEnd (net_of network) (values nest d) }
    ensures arrays { (nest : Nest) (network : Network) (d : Inputs) → IsSound nest network
        → sink_lists nest (after_port_clocks (net_of network) (values nest d)
        (port_clocks (net_of network))).run ≡ arrays nest d }
{
    port_clocks_end::<i64>();
    port_runs_compute();
}
