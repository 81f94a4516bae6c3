ghost use Rattle.std.specs.Prelude.{◌≡◌, ℕ, List, count_by, slice_get};
ghost use Rattle.std.specs.Option.{option_map};
ghost use Rattle.channel_plan.specs.declared.plans.ChannelPlan.{ChannelPlan};
ghost use Rattle.channel_plan.specs.Plans.{plans_of};
ghost use Rattle.net_core.specs.declared.network.Channel.{Channel};
ghost use Rattle.net_core.specs.Machine.{net_of};
ghost use Rattle.net_core.specs.Shape.{is_fire, put_count, turns};
ghost use Rattle.net_text.specs.NetworkText.{hold};
ghost use Rattle.process_derive.specs.Derived.{net};
ghost use Rattle.sanlp.specs.Points.{points_of};
ghost use Rattle.witness_plan.specs.Sequential.{with_capacities};

use process_derive::fits_nest;
use sanlp::Nest;

// Each of these does nothing: its contract is a law over the definitions.

/// What the text of a nest's network says of a process is what the nest says: it has as many fires as points. What it says of
/// a channel is what its plan says: the number of its tokens, its hold and its class.
pub fn text_tells_the_plans(nest: &Nest)
    ensures fires { (p : ℕ) → count_by is_fire ((net_of (net nest.now)).script p)
        ≡ turns (points_of nest.now) p }
    ensures tokens { (c : ℕ) (plan : ChannelPlan) → slice_get (plans_of nest.now) c ≡ Some plan
        → put_count (net_of (net nest.now)) c ≡ plan.tokens }
    ensures hold { (c : ℕ) (plan : ChannelPlan) → slice_get (plans_of nest.now) c ≡ Some plan
        → hold (net_of (net nest.now)) c ≡ plan.slots.hold }
    ensures class { (c : ℕ) (plan : ChannelPlan) → slice_get (plans_of nest.now) c ≡ Some plan
        → option_map (λ (channel : Channel). channel.class) (slice_get (net nest.now).channels c)
        ≡ Some plan.class }
{
    fits_nest(nest);
}

/// The text says the same of the network with other capacities, as with those of the sequential schedule.
pub fn other_capacities_tell_the_plans(nest: &Nest)
    ensures fires { (capacities : List ℕ) (p : ℕ)
        → count_by is_fire ((net_of (with_capacities (net nest.now) capacities)).script p)
        ≡ turns (points_of nest.now) p }
    ensures tokens { (capacities : List ℕ) (c : ℕ) (plan : ChannelPlan)
        → slice_get (plans_of nest.now) c ≡ Some plan
        → put_count (net_of (with_capacities (net nest.now) capacities)) c ≡ plan.tokens }
    ensures hold { (capacities : List ℕ) (c : ℕ) (plan : ChannelPlan)
        → slice_get (plans_of nest.now) c ≡ Some plan
        → hold (net_of (with_capacities (net nest.now) capacities)) c ≡ plan.slots.hold }
    ensures class { (capacities : List ℕ) (c : ℕ) (plan : ChannelPlan)
        → slice_get (plans_of nest.now) c ≡ Some plan
        → option_map (λ (channel : Channel). channel.class)
        (slice_get (with_capacities (net nest.now) capacities).channels c) ≡ Some plan.class }
{
    fits_nest(nest);
}
