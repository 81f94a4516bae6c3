ghost use Rattle.std.specs.Prelude.{◌<◌, ◌^◌, length};
ghost use Rattle.sanlp.specs.Meaning.{arrays};
ghost use Rattle.command_answers.specs.Judging.{Judges};
ghost use Rattle.command_answers.specs.Replying.{as_reply};
ghost use Rattle.command_answers.specs.Run.{Runs, run_text};
ghost use Rattle.command_answers.specs.Steps.{HasInputs, IsPrepared};

use crate::answer::{Answer, ArrayAnswer};
use crate::network_run::run_by_threads;
use crate::refusal::{Stop, data_refusal};
use crate::source::sized_nest;
use array_data::read_inputs;
use bundle::parts_of;
use io_edge::Gate;
use loop_class::Params;
use loop_run::interpret;
use sanlp::{Inputs, Nest};
use std::alloc::Global;
use std::sync::Wait;
use std::thread::Threads;
use witness_plan::Policy;

/// A nest with its inputs, from the data part of a bundle.
fn with_inputs(alloc: Global, nest: Nest, bytes: &[u8]) -> Result<(Nest, Inputs), Stop>
    ensures { Judges (HasInputs nest bytes.now) result }
{
    match read_inputs(alloc, &nest, bytes) {
        Ok(inputs) => Ok((nest, inputs)),
        Err(fault) => match data_refusal(nest.arrays, fault) {
            Some(refusal) => Err(Stop::Refused(refusal)),
            None => Err(Stop::Memory),
        },
    }
}

/// The nest of a bundle's source, with its inputs.
pub(crate) fn prepared(
    alloc: Global,
    params: &Params,
    bundle: &[u8],
) -> Result<(Nest, Inputs), Stop>
    requires { length bundle.now < 2 ^ 32 }
    ensures { Judges (IsPrepared params.now bundle.now) result }
{
    let parts = parts_of(bundle);
    let nest = sized_nest(alloc, parts.source, params)?;
    with_inputs(alloc, nest, parts.array_data)
}

/// What the loops of a bundle's source compute, by the interpreter.
pub fn run_by_interpreter(alloc: Global, params: &Params, bundle: &[u8]) -> Result<Answer, Stop>
    requires { length bundle.now < 2 ^ 32 }
    ensures { Judges (λ answer. Runs run_text params.now bundle.now (as_reply answer)) result }
{
    let (nest, inputs) = prepared(alloc, params, bundle)?;
    let arrays = interpret(alloc, &nest, &inputs)?;
    Ok(Answer::Arrays(ArrayAnswer { nest, arrays }))
}

/// What the loops of a bundle's source compute, by their network with one thread for each process.
pub fn run_by_network<R: Threads + Wait + Sync, G: Gate + Sync>(
    rt: &R,
    alloc: Global,
    policy: Policy,
    params: &Params,
    bundle: &[u8],
    gate: &G,
) -> Result<Answer, Stop>
    requires { length bundle.now < 2 ^ 32 }
    ensures { Judges (λ answer. Runs run_text params.now bundle.now (as_reply answer)) result }
{
    let (nest, inputs) = prepared(alloc, params, bundle)?;
    let run = run_by_threads(rt, alloc, &nest, &inputs, policy, gate)?;
    Ok(Answer::Arrays(ArrayAnswer {
        nest,
        arrays: run.arrays,
    }))
}
