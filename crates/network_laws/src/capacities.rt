ghost use Rattle.std.specs.Prelude.{◌≡◌, ◌<◌, ◌≤◌, ◌↔◌, ℕ, List, min};
ghost use Rattle.net_core.specs.Machine.{Net, Rule};
ghost use Rattle.net_core.specs.Orders.{EndsAll, EndsAlways};
ghost use Rattle.net_core.specs.Shape.{IsWired, put_count};
ghost use Rattle.cap_trim.specs.Capacities.{lowered_network, trimmed_network, with_room};
ghost use Rattle.clock_sim.specs.Clocks.{clocks};
ghost use Rattle.network_laws.specs.EndsWithin.{EndsWithin, HasMinimalCapacities};
ghost use Rattle.network_laws.specs.LowerBounds.{capacity_bound, total_capacity};

use clock_sim::clocked_run_ends;
use net_core::every_order;

// Each of these does nothing: its contract is a law over the definitions.

/// Let each channel be given its least capacity, one after the other. No capacities that are in no channel above these, and below
/// them in some channel, let any run end all: none can be lowered, alone or together with others.
pub fn least_capacities_are_minimal<T: Copy>()
    ensures { (n : Net) (rule : Rule T) (capacities : ℕ → ℕ) (c : ℕ) (run : List ℕ) → IsWired n
        → c < n.channels
        → ((d : ℕ) → d < n.channels → capacities d ≤ (trimmed_network n).capacity d)
        → capacities c < (trimmed_network n).capacity c
        → EndsAll (with_room n capacities) rule run → ⊥ }
{}

/// A channel never needs a capacity above the number of its tokens to end. What a channel needs where the capacities of all others
/// are the numbers of their tokens is a lower bound of its capacity in every network that ends and is the same otherwise, and the
/// sum of these is one of the capacities of all channels together. It is 1 at least where the channel has a token. Where the least
/// capacities meet these bounds, their sum is the least.
pub fn capacities_have_lower_bounds<T: Copy>()
    ensures enough { (n : Net) (rule : Rule T) (capacities : ℕ → ℕ) (run : List ℕ) → IsWired n
        → EndsAll (with_room n capacities) rule run
        → EndsAll (with_room n (λ c. min (capacities c) (put_count n c))) rule run }
    ensures bound { (n : Net) (rule : Rule T) (capacities : ℕ → ℕ) (run : List ℕ) (c : ℕ)
        → IsWired n → EndsAll (with_room n capacities) rule run
        → capacity_bound n c ≤ capacities c }
    ensures some { (n : Net) (c : ℕ) → IsWired n → 0 < put_count n c → 1 ≤ capacity_bound n c }
    ensures total { (n : Net) (rule : Rule T) (capacities : ℕ → ℕ) (run : List ℕ) → IsWired n
        → EndsAll (with_room n capacities) rule run
        → total_capacity n (capacity_bound n) ≤ total_capacity n capacities }
    ensures least { (n : Net) (rule : Rule T) (capacities : ℕ → ℕ) (run : List ℕ) → IsWired n
        → ((c : ℕ) → c < n.channels → (trimmed_network n).capacity c ≡ capacity_bound n c)
        → EndsAll (with_room n capacities) rule run
        → total_capacity n (trimmed_network n).capacity ≤ total_capacity n capacities }
{}

/// Minimal capacities that keep a number of clocks can be found channel by channel. Where a capacity one less in one channel
/// alone takes more clocks or sticks, so do all capacities that are in no channel greater and in that one less. So none can be
/// lowered together where none can be lowered alone, and there are such capacities below any that end within the clocks. Greater
/// capacities end within as many clocks, so one channel's least capacity, with those of the others as they are, can be found by
/// halving. A network ends within a number of clocks exactly where every order of events ends all and the clocked run has no more
/// clocks than that. In the words of dataflow these are buffer sizes that are minimal in each channel for a bound on the
/// time of a run; others may have a lesser sum.
pub fn minimal_capacities_keep_the_clocks<T: Copy>()
    ensures clocks { (n : Net) (rule : Rule T) (count : ℕ) → IsWired n
        → EndsWithin n rule count ↔ (EndsAlways n rule × (clocks n ≤ count)) }
    ensures greater { (n : Net) (rule : Rule T) (capacities : ℕ → ℕ) (count : ℕ) → IsWired n
        → ((c : ℕ) → c < n.channels → n.capacity c ≤ capacities c)
        → EndsWithin n rule count → EndsWithin (with_room n capacities) rule count }
    ensures alone { (n : Net) (rule : Rule T) (capacities : ℕ → ℕ) (count c : ℕ) → IsWired n
        → (EndsWithin (lowered_network n c) rule count → ⊥)
        → ((d : ℕ) → d < n.channels → capacities d ≤ n.capacity d)
        → capacities c < n.capacity c → EndsWithin (with_room n capacities) rule count → ⊥ }
    ensures together { (n : Net) (rule : Rule T) (capacities : ℕ → ℕ) (count c : ℕ) → IsWired n
        → HasMinimalCapacities n rule count → c < n.channels
        → ((d : ℕ) → d < n.channels → capacities d ≤ n.capacity d)
        → capacities c < n.capacity c → EndsWithin (with_room n capacities) rule count → ⊥ }
    ensures found { (n : Net) (rule : Rule T) (count : ℕ) → IsWired n → EndsWithin n rule count
        → (capacities : ℕ → ℕ) × ((c : ℕ) → capacities c ≤ n.capacity c)
        × HasMinimalCapacities (with_room n capacities) rule count }
{
    clocked_run_ends::<T>();
    every_order::<T, T>();
}
