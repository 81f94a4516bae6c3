ghost use Rattle.std.specs.Prelude.{◌≡◌, ◌<◌, ◌≤◌, ℕ, Bool, true, length};
ghost use Rattle.sanlp.specs.declared.nest.Inputs.{Inputs};
ghost use Rattle.sanlp.specs.declared.nest.Nest.{Nest};
ghost use Rattle.sanlp.specs.Meaning.{arrays};
ghost use Rattle.net_core.specs.declared.network.Network.{Network};
ghost use Rattle.net_core.specs.Cuts.{positions};
ghost use Rattle.net_core.specs.Machine.{Net, Rule, net_of, start, HasEnded, IsRun};
ghost use Rattle.net_core.specs.Orders.{EndsAll, EndsAlways, reached};
ghost use Rattle.net_core.specs.Rules.{values};
ghost use Rattle.net_core.specs.Shape.{IsWired};
ghost use Rattle.net_core.specs.Sound.{IsSound, sink_lists};
ghost use Rattle.cap_trim.specs.Capacities.{with_room};
ghost use Rattle.clock_sim.specs.Clocks.{after_clocks, clocked_run, clocks};
ghost use Rattle.network_laws.specs.Stalls.{IsFair, run_with_stalls};

use clock_sim::clocked_run_ends;
use net_core::every_order;

// Each of these does nothing: its contract is a law over the definitions.

/// Stalls do no harm: however processes are held back, what comes of it is a run. So in a network in which every order of events
/// ends all, it keeps the capacities and can go on until all have ended. If no process is held back for ever, it ends all, and
/// then the sinks of a network that is sound for a nest have kept the arrays after the nest. So sources and sinks may wait, and
/// processes may be slow (Kahn 1974).
pub fn stalls_do_no_harm<T: Copy>()
    ensures runs { (n : Net) (rule : Rule T) (may : ℕ → ℕ → Bool) (k : ℕ) → IsWired n
        → IsRun n rule (start n) (run_with_stalls n rule may k) }
    ensures ends { (n : Net) (rule : Rule T) (may : ℕ → ℕ → Bool) → IsWired n → EndsAlways n rule
        → IsFair n rule may → (k : ℕ) × EndsAll n rule (run_with_stalls n rule may k) }
    ensures arrays { (nest : Nest) (network : Network) (d : Inputs) (may : ℕ → ℕ → Bool)
        → IsSound nest network → IsFair (net_of network) (values nest d) may
        → (k : ℕ) × EndsAll (net_of network) (values nest d)
        (run_with_stalls (net_of network) (values nest d) may k)
        × (sink_lists nest (reached (net_of network) (values nest d)
        (run_with_stalls (net_of network) (values nest d) may k)) ≡ arrays nest d) }
{}

/// The clocked run is the fastest execution in which each process makes at most one event a clock, and each event is enabled
/// at its clock's beginning: it is the one in which nobody is held back, and at every clock each process has come at least as
/// far as in any. So none that ends all has fewer clocks, and no process's script is longer than the number of clocks.
pub fn clocked_run_is_fastest<T: Copy>()
    ensures itself { (n : Net) (rule : Rule T) (k : ℕ)
        → clocked_run n rule k ≡ run_with_stalls n rule (λ clock p. true) k }
    ensures ahead { (n : Net) (rule : Rule T) (may : ℕ → ℕ → Bool) (k p : ℕ) → IsWired n
        → positions (reached n rule (run_with_stalls n rule may k)) p
        ≤ positions (after_clocks n rule k) p }
    ensures least { (n : Net) (rule : Rule T) (may : ℕ → ℕ → Bool) (k : ℕ) → IsWired n
        → HasEnded n (reached n rule (run_with_stalls n rule may k)) → clocks n ≤ k }
    ensures longest { (n : Net) (rule : Rule T) (p : ℕ) → IsWired n → EndsAlways n rule
        → length (n.script p) ≤ clocks n }
{
    clocked_run_ends::<T>();
    every_order::<T, T>();
}

/// Greater capacities are never slower: where no channel has a lesser capacity than in a network that is the same otherwise, each
/// process has come at least as far at every clock. So where that network ends, the clocked run has no more clocks.
pub fn greater_capacities_are_never_slower<T: Copy>()
    ensures ahead { (n : Net) (rule : Rule T) (capacities : ℕ → ℕ) (k p : ℕ) → IsWired n
        → ((c : ℕ) → c < n.channels → n.capacity c ≤ capacities c)
        → positions (after_clocks n rule k) p
        ≤ positions (after_clocks (with_room n capacities) rule k) p }
    ensures clocks { (n : Net) (rule : Rule T) (capacities : ℕ → ℕ) → IsWired n
        → EndsAlways n rule → ((c : ℕ) → c < n.channels → n.capacity c ≤ capacities c)
        → clocks (with_room n capacities) ≤ clocks n }
{
    clocked_run_ends::<T>();
    every_order::<T, T>();
}
