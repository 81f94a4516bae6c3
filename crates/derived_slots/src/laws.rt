ghost use Rattle.std.specs.Prelude.{◌≡◌, ℕ};
ghost use Rattle.net_core.specs.Machine.{Net, net_of};
ghost use Rattle.port_design.specs.Clocked.{HasSlotsApart};
ghost use Rattle.process_derive.specs.Derived.{net};

use sanlp::Nest;

/// It does nothing: its contract is a law over the definitions. In the network of a nest the slots of a process's channels lie side by
/// side, so no two channels are got into one slot, whatever capacities the channels have.
pub fn slots_lie_apart(nest: &Nest)
    ensures { (n : Net) → ((p : ℕ) → n.script p ≡ (net_of (net nest.now)).script p)
        → HasSlotsApart n }
{}
