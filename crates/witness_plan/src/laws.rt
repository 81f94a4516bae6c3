ghost use Rattle.std.specs.Prelude.{◌≡◌, ℕ, List, length, take};
ghost use Rattle.net_core.specs.declared.network.Network.{Network};
ghost use Rattle.net_core.specs.Cuts.{cut_after, opening};
ghost use Rattle.net_core.specs.Machine.{Net, net_of};
ghost use Rattle.net_core.specs.Orders.{EndsAll, reached};
ghost use Rattle.net_core.specs.Rules.{tags};
ghost use Rattle.net_core.specs.Shape.{IsWired};
ghost use Rattle.process_derive.specs.Derived.{net};
ghost use Rattle.witness_plan.specs.declared.schedules.Policy.{Policy};
ghost use Rattle.witness_plan.specs.Schedules.{IsDownward, downward_schedule, planned_network, schedule};
ghost use Rattle.witness_plan.specs.Sequential.{queue_length, with_capacities};

use sanlp::Nest;

// Each of these does nothing: its contract is a law over the definitions.

/// The network of a nest is wired. Under every policy its schedule is a run of it with the schedule's capacities, which ends
/// all, and the lengths of which a capacity is the greatest are those of the machine's queue along this run.
pub fn schedule_runs(nest: &Nest)
    ensures wired { IsWired (net_of (net nest.now)) }
    ensures run { (policy : Policy)
        → EndsAll (net_of (planned_network nest.now policy)) tags (schedule nest.now policy) }
    ensures lengths { (policy : Policy) (k c : ℕ)
        → length ((reached (net_of (planned_network nest.now policy)) tags
        (take k (schedule nest.now policy))).queue c)
        ≡ queue_length (net_of (net nest.now))
        (cut_after opening (take k (schedule nest.now policy))) c }
{}

/// The downward schedule of a network has at each of its places the highest-numbered process that is ready there, and at its
/// end no process is ready.
pub fn goes_downward()
    ensures { (network : Net) → IsDownward network (downward_schedule network) }
{}

/// A network stays wired with other capacities, and the machine takes the same of it but for these.
pub fn other_capacities()
    ensures wired { (network : Network) (capacities : List ℕ) → IsWired (net_of network)
        → IsWired (net_of (with_capacities network capacities)) }
    ensures same { (network : Network) (capacities : List ℕ)
        → net_of (with_capacities network capacities)
        ≡ record (net_of network) {
          capacity =
              (net_of (with_capacities network capacities)).capacity;
        } }
{}
