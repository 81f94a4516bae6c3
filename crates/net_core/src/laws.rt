ghost use Rattle.std.specs.Prelude.{◌≡◌, ◌+◌, ℕ, List, length, true};
ghost use Rattle.net_core.specs.declared.refs.Ref.{Ref};
ghost use Rattle.net_core.specs.declared.network.Event.{Event};
ghost use Rattle.sanlp.specs.declared.nest.Tag.{Tag};
ghost use Rattle.sanlp.specs.declared.nest.Nest.{Nest};
ghost use Rattle.net_core.specs.declared.network.Network.{Network};
ghost use Rattle.sanlp.specs.declared.nest.Inputs.{Inputs};
ghost use Rattle.sanlp.specs.Meaning.{arrays};
ghost use Rattle.net_core.specs.Machine.{Net, Rule, net_of, enabled, start, IsRun};
ghost use Rattle.net_core.specs.Rules.{AllKeepTo, tags, values, value_limits};
ghost use Rattle.net_core.specs.Sound.{FitsNest, IsSound, NamesLastWriters, sink_lists};
ghost use Rattle.net_core.specs.Shape.{IsWired, fires};
ghost use Rattle.net_core.specs.Cuts.{positions, opening, cut_after, enabled_at, gets_at, puts_at};
ghost use Rattle.net_core.specs.Names.{GivesValues, IsNamed, fired, slot_names};
ghost use Rattle.net_core.specs.Orders.{reached, EndsAll, EndsAlways, StaysEnabled, StepsCommute, StopsAlike};

use crate::network::Event;
use crate::refs::{Ref, Refs};

// Each of these does nothing: its contract is a law over the definitions.

/// Two references that compare equal are the same, and so are two lists of them, and two events.
pub fn equal_is_same()
    ensures reference { (a b : Ref) → ⟦<Ref as PartialEq>⟧.eq a b ≡ true → a ≡ b }
    ensures references { (a b : List Ref) → ⟦<Refs as PartialEq>⟧.eq a b ≡ true → a ≡ b }
    ensures event { (a b : Event) → ⟦<Event as PartialEq>⟧.eq a b ≡ true → a ≡ b }
{}

/// Two steps of a network in any state: an enabled process stays enabled whatever another process does, and the steps of
/// two enabled processes give one state in either order (Kahn 1974).
pub fn two_steps<T: Copy>()
    ensures stays { (n : Net) (rule : Rule T) → IsWired n → StaysEnabled n rule }
    ensures commute { (n : Net) (rule : Rule T) → IsWired n → StepsCommute n rule }
{}

/// Along a run the machine goes as the cuts do: its positions are the cut's, which process may go on is a matter of the cut
/// alone, and a queue holds as many tokens as were put less those that were got.
pub fn cuts<T: Copy>()
    ensures positions { (n : Net) (rule : Rule T) (run : List ℕ) → IsRun n rule (start n) run
        → (p : ℕ) → positions (reached n rule run) p ≡ cut_after opening run p }
    ensures enabled { (n : Net) (rule : Rule T) (run : List ℕ) → IsWired n
        → IsRun n rule (start n) run
        → (p : ℕ) → enabled n (reached n rule run) p ≡ enabled_at n (cut_after opening run) p }
    ensures queues { (n : Net) (rule : Rule T) (run : List ℕ) → IsWired n
        → IsRun n rule (start n) run
        → (c : ℕ) → length ((reached n rule run).queue c) + gets_at n (cut_after opening run) c
        ≡ puts_at n (cut_after opening run) c }
{}

/// Every order of events: a run of a network is one whatever its fires give. Where one run ends all, every run can go on
/// until all have ended. Two runs that can't go on have the same positions.
pub fn every_order<T: Copy, U: Copy>()
    ensures same { (n : Net) (rule : Rule T) (other : Rule U) (run : List ℕ) → IsWired n
        → IsRun n rule (start n) run → IsRun n other (start n) run }
    ensures alike { (n : Net) (rule : Rule T) (other : Rule U) (run : List ℕ) → IsWired n
        → IsRun n rule (start n) run
        → (p : ℕ) → positions (reached n other run) p ≡ positions (reached n rule run) p }
    ensures ends { (n : Net) (rule : Rule T) (other : Rule U) (run : List ℕ) → IsWired n
        → EndsAll n rule run → EndsAlways n other }
    ensures stops { (n : Net) (rule : Rule T) → IsWired n → StopsAlike n rule }
{}

/// In every state that a run reaches, each slot, each kept value and each token in a queue is the value of the tag that it
/// names. Where all have ended, each process has kept the values of its fires in order.
pub fn names<T: Copy>()
    ensures named { (n : Net) (rule : Rule T) (v : Tag → T) (run : List ℕ) → IsWired n
        → GivesValues n rule v → IsRun n rule (start n) run → IsNamed n v (reached n rule run) }
    ensures kept { (n : Net) (rule : Rule T) (v : Tag → T) (run : List ℕ) → IsWired n
        → GivesValues n rule v → EndsAll n rule run
        → (p : ℕ) → ((reached n rule run).local p).kept
        ≡ fired v p (fires n p (length (n.script p))) }
{}

/// In every state that a run over tags reaches, each slot holds the tag that it names.
pub fn tags_name()
    ensures { (n : Net) (run : List ℕ) → IsWired n → IsRun n tags (start n) run
        → (p : ℕ) → ((reached n tags run).local p).slots
        ≡ slot_names n p ((reached n tags run).local p).position }
{}

/// Where a network has the shape of a nest, its fires keep to the numbers of the nest's points and reads. Where besides each
/// of its references names the last writer of what is read there, and one run over tags ends all, the network is sound for
/// the nest: in every order of events it computes what the nest computes.
pub fn sound()
    ensures limits { (nest : Nest) (network : Network) → FitsNest nest network
        → AllKeepTo (net_of network) (value_limits nest) }
    ensures sound { (nest : Nest) (network : Network) (run : List ℕ) → FitsNest nest network
        → NamesLastWriters nest (net_of network)
        → EndsAll (net_of network) tags run → IsSound nest network }
{}

/// Where a network has the shape of a nest and each of its references names the last writer of what is read there, each run
/// over values that ends all leaves in the sinks the arrays after the nest, whatever the inputs.
pub fn sinks_keep_arrays()
    ensures { (nest : Nest) (network : Network) (d : Inputs) (run : List ℕ) → FitsNest nest network
        → NamesLastWriters nest (net_of network)
        → EndsAll (net_of network) (values nest d) run
        → sink_lists nest (reached (net_of network) (values nest d) run) ≡ arrays nest d }
{}
