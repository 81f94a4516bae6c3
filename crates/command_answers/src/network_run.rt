ghost use Rattle.std.specs.Prelude.{◌≡◌, length, IfOk};
ghost use Rattle.sanlp.specs.Size.{SizeIsOk};
ghost use Rattle.sanlp.specs.Meaning.{arrays};
ghost use Rattle.sanlp.specs.Points.{points_of};
ghost use Rattle.sanlp.specs.Trace.{trace};
ghost use Rattle.net_core.specs.Machine.{net_of};
ghost use Rattle.net_core.specs.Shape.{FitsNumbers};
ghost use Rattle.witness_plan.specs.Schedules.{planned_network};

use io_edge::Gate;
use loop_walk::points;
use net_checker::{Verdict, check_with_sources};
use net_core::Network;
use sanlp::{Arrays, Inputs, Nest, Points};
use std::alloc::{AllocError, Global};
use std::sync::Wait;
use std::thread::Threads;
use swept_net::{SweptNetwork, compile_with_sources};
use thread_runner::{Bench, make_ends, run_threads};
use witness_plan::Policy;

/// What a run of a nest's network gives: the number of entries of the nest's trace, the network, and the arrays after the nest.
#[derive(Drop)]
pub(crate) struct NetworkRun {
    pub(crate) entries: u64,
    pub(crate) network: Network,
    pub(crate) arrays: Arrays,
    ghost numbers: { FitsNumbers (net_of network) },
}

// How many entries the trace of a nest with these points has.
fn entry_count(nest: &Nest, points: &Points) -> u64
    requires size { SizeIsOk nest.now }
    requires points { points.now.of ≡ points_of nest.now }
    ensures { result ≡ length (trace nest.now) }
{
    let _ = nest;
    let mut count = 0;
    for vectors in points.of.as_slice() {
        count += vectors.len() as u64;
    }
    count
}

/// Runs the network of a nest, with the capacities that its schedule under a policy needs, by one thread for each process. It
/// is run once the checker has accepted it, which it always does. A worker asks the gate before it works, and its process tells
/// the gate each value before it puts it. Nothing is refused but want of memory.
pub(crate) fn run_by_threads<R: Threads + Wait + Sync, G: Gate + Sync>(
    rt: &R,
    alloc: Global,
    nest: &Nest,
    inputs: &Inputs,
    policy: Policy,
    gate: &G,
) -> Result<NetworkRun, AllocError>
    requires { SizeIsOk nest.now }
    ensures entries { IfOk result (λ run. run.entries ≡ length (trace nest.now)) }
    ensures network { IfOk result (λ run. run.network ≡ planned_network nest.now policy) }
    ensures arrays { IfOk result (λ run. run.arrays.arrays ≡ arrays nest.now inputs.now) }
{
    let SweptNetwork {
        network,
        cert,
        sources,
    } = compile_with_sources(alloc, nest, policy)?;
    let points = points(alloc, nest)?;
    match check_with_sources(alloc, nest, &points, &network, &cert, sources)? {
        Verdict::Accepted => {
            let ends = make_ends(alloc, nest, &points, inputs, &network)?;
            let bench = Bench::new(alloc, nest, &points, &network)?;
            let schedule = cert.schedule.as_slice();
            let arrays = run_threads(
                rt, alloc, nest, &points, inputs, &network, schedule, bench, ends, gate,
            );
            Ok(NetworkRun {
                entries: entry_count(nest, &points),
                network,
                arrays,
            })
        }
        Verdict::Refused(_) => unreachable!(),
    }
}
