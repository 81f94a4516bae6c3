ghost use Rattle.std.specs.Prelude.{◌≡◌, ◌<◌, ◌≤◌, ℕ, List, true};
ghost use Rattle.net_core.specs.Machine.{Net, Rule, start, IsRun};
ghost use Rattle.net_core.specs.Orders.{EndsAll};
ghost use Rattle.net_core.specs.Rules.{tags};
ghost use Rattle.net_core.specs.Shape.{IsWired, put_count};
ghost use Rattle.cap_trim.specs.Capacities.{SticksAt, lowered_network, trimmed_network, with_room};
ghost use Rattle.cap_trim.specs.Rests.{IsLeastRun, StopsAtRest, can_end, least_run, rest};

// Each of these does nothing: its contract is a law over the definitions.

/// The least-process run of a network is a run that can't go on, and every run that can't go on has its positions, whatever
/// its fires give. The network ends exactly where some run ends all, and then the least-process run does.
pub fn comes_to_rest<T: Copy>()
    ensures least { (n : Net) → IsWired n → IsLeastRun n (least_run n) }
    ensures stops { (n : Net) (rule : Rule T) → IsWired n → StopsAtRest n rule }
    ensures ends { (n : Net) → IsWired n → can_end n ≡ true → EndsAll n tags (least_run n) }
    ensures some { (n : Net) (rule : Rule T) (run : List ℕ) → IsWired n → EndsAll n rule run
        → can_end n ≡ true }
{}

/// More room does no harm: where no channel has less room than in a network that is the same otherwise, each run of that
/// network is a run, and each that ends all there ends all. So ending is monotone in each capacity.
pub fn ends_with_more_room<T: Copy>()
    ensures runs { (n : Net) (room : ℕ → ℕ) (rule : Rule T) (run : List ℕ) → IsWired n
        → ((c : ℕ) → n.capacity c ≤ room c) → IsRun n rule (start n) run
        → IsRun (with_room n room) rule (start (with_room n room)) run }
    ensures ends { (n : Net) (room : ℕ → ℕ) (rule : Rule T) (run : List ℕ) → IsWired n
        → ((c : ℕ) → n.capacity c ≤ room c) → EndsAll n rule run
        → EndsAll (with_room n room) rule run }
    ensures can { (n : Net) (room : ℕ → ℕ) → IsWired n → ((c : ℕ) → n.capacity c ≤ room c)
        → can_end n ≡ true → can_end (with_room n room) ≡ true }
{}

/// Of a network that ends, the one with least capacities ends, and no capacity has grown. Where a channel has a Put, its
/// capacity is at least 1, and with one place less there the network sticks where it comes to rest.
pub fn has_least_capacities()
    ensures ends { (n : Net) → IsWired n → can_end n ≡ true → can_end (trimmed_network n) ≡ true }
    ensures within { (n : Net) (c : ℕ) → (trimmed_network n).capacity c ≤ n.capacity c }
    ensures some { (n : Net) (c : ℕ) → IsWired n → can_end n ≡ true → c < n.channels
        → 0 < put_count n c → 1 ≤ (trimmed_network n).capacity c }
    ensures sticks { (n : Net) (c : ℕ) → IsWired n → can_end n ≡ true → c < n.channels
        → 0 < put_count n c → SticksAt (lowered_network (trimmed_network n) c)
        (rest (lowered_network (trimmed_network n) c)) }
{}
