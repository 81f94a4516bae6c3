ghost use Rattle.std.specs.Prelude.{◌≡◌, ℕ, Bool, None};
ghost use Rattle.sanlp.specs.declared.nest.Inputs.{Inputs};
ghost use Rattle.sanlp.specs.declared.nest.Nest.{Nest};
ghost use Rattle.sanlp.specs.Meaning.{arrays};
ghost use Rattle.net_core.specs.declared.network.Network.{Network};
ghost use Rattle.net_core.specs.Machine.{Net, Rule, net_of};
ghost use Rattle.net_core.specs.Orders.{EndsAlways, reached};
ghost use Rattle.net_core.specs.Rules.{values};
ghost use Rattle.net_core.specs.Shape.{IsWired};
ghost use Rattle.net_core.specs.Sound.{IsSound};
ghost use Rattle.design_clocks.specs.Registers.{Controls, after_stalls, event_at};
ghost use Rattle.design_clocks.specs.Clocked.{GiveScripts, design_of, results_of};
ghost use Rattle.network_laws.specs.Stalls.{IsFair, run_with_stalls};

use crate::clocks::stalls_do_no_harm;

// It does nothing: its contract is a law over the definitions.

/// Stalls do no harm to a design either: however its nodes are held back, by a stream or by a gated clock, it stands for the run in
/// which the processes are held back at the same clocks. If none is held back for ever, every node comes to its script's end. In the
/// design of a network that is sound for a nest, wherever all are there, the sinks have fired the arrays after the nest.
pub fn stalled_designs_compute<T: Copy>()
    ensures design { (n : Net) (controls : Controls) (rule : Rule T) (may : ℕ → ℕ → Bool) (k : ℕ)
        → IsWired n → GiveScripts n controls
        → after_stalls n controls rule may k
        ≡ design_of controls (reached n rule (run_with_stalls n rule may k)) }
    ensures ends { (n : Net) (controls : Controls) (rule : Rule T) (may : ℕ → ℕ → Bool)
        → IsWired n → GiveScripts n controls → EndsAlways n rule → IsFair n rule may
        → (k : ℕ)
        × ((p : ℕ) → event_at controls (after_stalls n controls rule may k) p ≡ None) }
    ensures arrays { (nest : Nest) (network : Network) (controls : Controls) (d : Inputs)
        (may : ℕ → ℕ → Bool) (k : ℕ) → IsSound nest network
        → GiveScripts (net_of network) controls
        → ((p : ℕ)
        → event_at controls (after_stalls (net_of network) controls (values nest d) may k) p
        ≡ None)
        → results_of nest (net_of network) controls (values nest d) may k ≡ arrays nest d }
{
    stalls_do_no_harm::<T>();
    stalls_do_no_harm::<i64>();
}
