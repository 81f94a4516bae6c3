ghost use Rattle.std.specs.Prelude.{◌≡◌, ◌<◌, ◌^◌, length, IfOk};
ghost use Rattle.command_answers.specs.Judging.{Judges};
ghost use Rattle.command_answers.specs.Printing.{Prints, network_text};
ghost use Rattle.command_answers.specs.Replies.{done};
ghost use Rattle.command_answers.specs.Replying.{as_reply, reply_of};
ghost use Rattle.sanlp.specs.Size.{SizeIsOk};
ghost use Rattle.witness_plan.specs.declared.schedules.Policy.TheVariants.{Seq};

use crate::answer::{Answer, NetworkAnswer, NumbersAnswer};
use crate::refusal::Stop;
use crate::source::sized_nest;
use bundle::parts_of;
use loop_class::Params;
use network_numbers::sequential_numbers;
use number_text::text_tells_numbers;
use sanlp::Nest;
use std::alloc::{AllocError, Global};
use swept_net::compile_network;
use witness_plan::Policy;

// The network of a nest with the capacities that the sequential schedule needs, told by its numbers: no script is made.
fn sequential_answer(alloc: Global, nest: Nest) -> Result<Answer, AllocError>
    requires { SizeIsOk nest }
    ensures { IfOk result (λ answer. reply_of answer ≡ done (network_text Seq nest)) }
{
    text_tells_numbers(&nest);
    let numbers = sequential_numbers(alloc, &nest)?;
    Ok(Answer::Numbers(NumbersAnswer { nest, numbers }))
}

// The network of a nest with the capacities that its schedule under a policy needs.
fn compiled_answer(alloc: Global, nest: Nest, policy: Policy) -> Result<Answer, AllocError>
    requires { SizeIsOk nest }
    ensures { IfOk result (λ answer. reply_of answer ≡ done (network_text policy nest)) }
{
    let network = compile_network(alloc, &nest, policy)?;
    Ok(Answer::Network(NetworkAnswer { nest, network }))
}

// The answer of `compiled_answer`, by the way that makes least.
fn network_answer(alloc: Global, nest: Nest, policy: Policy) -> Result<Answer, AllocError>
    requires { SizeIsOk nest }
    ensures { IfOk result (λ answer. reply_of answer ≡ done (network_text policy nest)) }
{
    match policy {
        Policy::Seq => sequential_answer(alloc, nest),
        Policy::Down => compiled_answer(alloc, nest, policy),
    }
}

/// The network of a bundle's source.
pub fn print_network(
    alloc: Global,
    policy: Policy,
    params: &Params,
    bundle: &[u8],
) -> Result<Answer, Stop>
    requires { length bundle.now < 2 ^ 32 }
    ensures { Judges
        (λ answer. Prints (network_text policy) params.now bundle.now (as_reply answer)) result }
{
    let parts = parts_of(bundle);
    let nest = sized_nest(alloc, parts.source, params)?;
    let answer = network_answer(alloc, nest, policy)?;
    Ok(answer)
}
