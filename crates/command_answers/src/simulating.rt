ghost use Rattle.std.specs.Prelude.{◌≡◌, ◌<◌, ◌^◌, length, IfOk};
ghost use Rattle.clock_sim.specs.Clocks.{clocks as clocks_of};
ghost use Rattle.net_core.specs.Machine.{net_of};
ghost use Rattle.sanlp.specs.Meaning.{arrays};
ghost use Rattle.sanlp.specs.Size.{SizeIsOk};
ghost use Rattle.witness_plan.specs.Schedules.{planned_network};
ghost use Rattle.command_answers.specs.Judging.{Judges};
ghost use Rattle.command_answers.specs.Replying.{as_reply};
ghost use Rattle.command_answers.specs.Run.{Runs};
ghost use Rattle.command_answers.specs.Simulating.{simulation_text};

use crate::answer::{Answer, ClockedAnswer};
use crate::refusal::Stop;
use crate::run::prepared;
use clock_sim::{Clocked, simulate};
use loop_class::Params;
use loop_walk::points;
use node_automata::automata;
use sanlp::{Inputs, Nest};
use std::alloc::{AllocError, Global};
use swept_net::compile_network;
use witness_plan::Policy;

// The clocked run of the network of a nest.
fn clocked_run(
    alloc: Global,
    policy: Policy,
    nest: &Nest,
    inputs: &Inputs,
) -> Result<Clocked, AllocError>
    requires { SizeIsOk nest.now }
    ensures arrays { IfOk result
        (λ clocked. clocked.arrays.arrays ≡ arrays nest.now inputs.now) }
    ensures clocks { IfOk result
        (λ clocked. clocked.clocks ≡ clocks_of (net_of (planned_network nest.now policy))) }
{
    let network = compile_network(alloc, nest, policy)?;
    let points = points(alloc, nest)?;
    let autos = automata(alloc, nest, &points, &network)?;
    simulate(alloc, nest, &points, inputs, &network, &autos)
}

/// What the loops of a bundle's source compute, by the automata of their network under one clock, and the number of clocks.
pub fn run_by_clock(
    alloc: Global,
    policy: Policy,
    params: &Params,
    bundle: &[u8],
) -> Result<Answer, Stop>
    requires { length bundle.now < 2 ^ 32 }
    ensures { Judges
        (λ answer. Runs (simulation_text policy) params.now bundle.now (as_reply answer)) result }
{
    let (nest, inputs) = prepared(alloc, params, bundle)?;
    let clocked = clocked_run(alloc, policy, &nest, &inputs)?;
    Ok(Answer::Clocked(ClockedAnswer { nest, clocked }))
}
