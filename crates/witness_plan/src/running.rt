ghost use Rattle.std.specs.Prelude.{◌≡◌};
ghost use Rattle.net_core.specs.Held.{held_of, run_of, IsFor};
ghost use Rattle.net_core.specs.Machine.{net_of, after, IsRun};
ghost use Rattle.net_core.specs.Rules.{AllKeepTo};

use net_core::{Firing, Network, State, step};

/// Runs a network along a schedule, which is a run from this state. It takes no memory, and the time of one event for each
/// entry.
pub fn run_by<T: Copy, F: Firing<T>>(
    state: &mut State<T>,
    network: &Network,
    rule: &F,
    schedule: &[u32],
)
    requires state { IsFor (net_of network.now) (held_of state.old) }
    requires limits { AllKeepTo (net_of network.now) (F.limits rule.now) }
    requires run { IsRun (net_of network.now) (F.meaning rule.now) (run_of state.old) schedule.now }
    ensures run { run_of state.new
        ≡ after (net_of network.now) (F.meaning rule.now) (run_of state.old) schedule.now }
    ensures state { IsFor (net_of network.now) (held_of state.new) }
{
    for process in schedule {
        step(state, network, rule, *process);
    }
}
