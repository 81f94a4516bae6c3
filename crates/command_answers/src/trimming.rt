ghost use Rattle.std.specs.Prelude.{◌≡◌, ◌<◌, ◌^◌, length, IfOk};
ghost use Rattle.cap_trim.specs.Capacities.{capacity_list, lowered_rests, trimmed_network};
ghost use Rattle.net_core.specs.Machine.{net_of};
ghost use Rattle.sanlp.specs.Size.{SizeIsOk};
ghost use Rattle.witness_plan.specs.Schedules.{planned_network};
ghost use Rattle.command_answers.specs.Judging.{Judges};
ghost use Rattle.command_answers.specs.Replying.{as_reply};
ghost use Rattle.command_answers.specs.Printing.{Prints};
ghost use Rattle.command_answers.specs.Trimming.{trimming_text};

use crate::answer::Answer;
use crate::refusal::Stop;
use crate::source::sized_nest;
use bundle::parts_of;
use cap_trim::{Trimmed, least_capacities};
use loop_class::Params;
use net_core::WiredNetwork;
use sanlp::Nest;
use std::alloc::{AllocError, Global};
use swept_net::compile_network;
use witness_plan::Policy;

// The least capacities of the network of a nest, and where it sticks with one place less. No points are made.
fn trimmed(alloc: Global, policy: Policy, nest: &Nest) -> Result<Trimmed, AllocError>
    requires { SizeIsOk nest.now }
    ensures capacities { IfOk result
        (λ made. made.capacities
        ≡ capacity_list (trimmed_network (net_of (planned_network nest.now policy)))) }
    ensures rests { IfOk result
        (λ made. made.rests
        ≡ lowered_rests (trimmed_network (net_of (planned_network nest.now policy)))) }
{
    let network = compile_network(alloc, nest, policy)?;
    let wired = WiredNetwork { network: &network };
    least_capacities(alloc, &wired)
}

/// The least capacities of the network of a bundle's source.
pub fn trim_network(
    alloc: Global,
    policy: Policy,
    params: &Params,
    bundle: &[u8],
) -> Result<Answer, Stop>
    requires { length bundle.now < 2 ^ 32 }
    ensures { Judges
        (λ answer. Prints (trimming_text policy) params.now bundle.now (as_reply answer)) result }
{
    let parts = parts_of(bundle);
    let nest = sized_nest(alloc, parts.source, params)?;
    let made = trimmed(alloc, policy, &nest)?;
    Ok(Answer::Trimmed(made))
}
