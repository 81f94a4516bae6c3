ghost use Rattle.std.specs.Prelude.{◌≡◌, ◌≤◌, ◌<◌, length, vec_capacity};
ghost use Rattle.net_core.specs.Held.{held_of, run_of, IsFor};
ghost use Rattle.net_core.specs.Machine.{net_of, start, enabled};
ghost use Rattle.net_core.specs.Rules.{AllKeepTo};
ghost use Rattle.clock_sim.specs.Clocks.{ClockedRunEnds, after_clocks, clocks, enabled_processes};
ghost use Rattle.clock_sim.specs.Nodes.{AreNodesOf};

use net_core::{Firing, Network, State, enabled};
use node_automata::NodeAuto;
use witness_plan::run_by;

// Lists the processes of the automata whose next event is enabled, in the room of a list.
fn list_enabled<T: Copy>(
    autos: &[NodeAuto],
    network: &Network,
    state: &State<T>,
    list: &mut Vec<u32>,
)
    requires nodes { AreNodesOf (net_of network.now) autos.now }
    requires state { IsFor (net_of network.now) (held_of state.now) }
    requires room { length autos.now ≤ vec_capacity list.old }
    ensures enabled { list.new.items ≡ enabled_processes (net_of network.now) (run_of state.now) }
    ensures room { vec_capacity list.new ≡ vec_capacity list.old }
{
    list.clear();
    for auto in autos {
        if enabled(state, network, auto.process) {
            list.push_reserved(auto.process);
        }
    }
}

/// Runs the automata of a network's processes by one clock until none is enabled, and gives the number of clocks. A clock
/// takes the time of its events and of one look at each automaton, and no memory: the list has room for all automata.
pub(crate) fn run_by_clock<T: Copy, F: Firing<T>>(
    autos: &[NodeAuto],
    network: &Network,
    rule: &F,
    state: &mut State<T>,
    mut list: Vec<u32>,
) -> u64
    requires nodes { AreNodesOf (net_of network.now) autos.now }
    requires limits { AllKeepTo (net_of network.now) (F.limits rule.now) }
    requires ends { ClockedRunEnds (net_of network.now) (F.meaning rule.now) }
    requires opening { run_of state.old ≡ start (net_of network.now) }
    requires state { IsFor (net_of network.now) (held_of state.old) }
    requires room { length autos.now ≤ vec_capacity list }
    ensures clocks { result ≡ clocks (net_of network.now) }
    ensures run { run_of state.new
        ≡ after_clocks (net_of network.now) (F.meaning rule.now) (clocks (net_of network.now)) }
    ensures state { IsFor (net_of network.now) (held_of state.new) }
{
    let mut clocks = 0;
    list_enabled(autos, network, state, &mut list);
    while !list.is_empty() {
        run_by(state, network, rule, &list);
        clocks += 1;
        list_enabled(autos, network, state, &mut list);
    }
    clocks
}
