ghost use Rattle.std.specs.Prelude.{◌≡◌, ◌<◌, ◌+◌, ◌*◌, ◌^◌};
ghost use Rattle.std.specs.List.{sum_by};
ghost use Rattle.network_numbers.specs.PlanNumbers.{event_total};

use plan_numbers::PlanNumbers;

// How many turns all processes have.
fn turn_total(turns: &[usize]) -> u64
    requires { sum_by (λ count. count) turns.now < 2 ^ 64 }
    ensures { result ≡ sum_by (λ count. count) turns.now }
{
    turns.iter().map(|count| *count as u64).sum()
}

// How many tokens all channels have.
fn token_total(plans: &[PlanNumbers]) -> u64
    requires { sum_by (λ plan. plan.tokens) plans.now < 2 ^ 64 }
    ensures { result ≡ sum_by (λ plan. plan.tokens) plans.now }
{
    plans.iter().map(|plan| u64::from(plan.tokens)).sum()
}

/// One Fire for each turn, and a Put and a Get for each token.
pub(crate) fn event_total(turns: &[usize], plans: &[PlanNumbers]) -> u64
    requires { event_total turns.now plans.now < 2 ^ 64 }
    ensures { result ≡ event_total turns.now plans.now }
{
    turn_total(turns) + 2 * token_total(plans)
}
