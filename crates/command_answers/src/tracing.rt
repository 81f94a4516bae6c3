ghost use Rattle.std.specs.Prelude.{◌<◌, ◌^◌, length, IfOk};
ghost use Rattle.sanlp.specs.Size.{SizeIsOk};
ghost use Rattle.command_answers.specs.Judging.{Judges};
ghost use Rattle.command_answers.specs.Replying.{as_reply};
ghost use Rattle.command_answers.specs.Tracing.{EndsNetwork, Traces};

use crate::answer::Answer;
use crate::refusal::Stop;
use crate::source::sized_nest;
use bundle::parts_of;
use io_edge::Gate;
use loop_class::Params;
use loop_walk::points;
use plain_data::Items;
use sanlp::Nest;
use std::alloc::{AllocError, Global};
use std::sync::Wait;
use std::thread::Threads;
use swept_net::compile_network;
use trace_board::run_board;
use witness_plan::Policy;

/// How many workers step the network, besides the caller.
const LANES: u32 = 4;

// A run of the network of a nest, which workers over one locked board make. A worker asks the gate before each lock.
fn traced<R: Threads + Wait + Sync, G: Gate + Sync>(
    rt: &R,
    alloc: Global,
    policy: Policy,
    nest: &Nest,
    gate: &G,
) -> Result<Vec<u32>, AllocError>
    requires { SizeIsOk nest.now }
    ensures { IfOk result (λ run. EndsNetwork policy nest.now run.items) }
{
    let network = compile_network(alloc, nest, policy)?;
    let points = points(alloc, nest)?;
    run_board(rt, alloc, nest, &network, &points, LANES, gate)
}

/// A run of the network of a bundle's source, which workers over one locked board make.
pub fn trace_network<R: Threads + Wait + Sync, G: Gate + Sync>(
    rt: &R,
    alloc: Global,
    policy: Policy,
    params: &Params,
    bundle: &[u8],
    gate: &G,
) -> Result<Answer, Stop>
    requires { length bundle.now < 2 ^ 32 }
    ensures { Judges (λ answer. Traces policy params.now bundle.now (as_reply answer)) result }
{
    let parts = parts_of(bundle);
    let nest = sized_nest(alloc, parts.source, params)?;
    let run = traced(rt, alloc, policy, &nest, gate)?;
    Ok(Answer::Trace(Items::from_vec(run)))
}
