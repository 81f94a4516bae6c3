ghost use Rattle.std.specs.Prelude.{◌≡◌, ◌≤◌, ℕ, [], length, true, vec_capacity};
ghost use Rattle.sanlp.specs.Meaning.{arrays};
ghost use Rattle.sanlp.specs.Points.{points_of};
ghost use Rattle.sanlp.specs.Laws.{values_of};
ghost use Rattle.sanlp.specs.WellFormed.{output_numbers};
ghost use Rattle.net_core.specs.Held.{held_of, run_of, IsFor};
ghost use Rattle.net_core.specs.Machine.{net_of, start};
ghost use Rattle.net_core.specs.Orders.{EndsAll};
ghost use Rattle.net_core.specs.Rules.{tags};
ghost use Rattle.net_core.specs.Shape.{FitsNumbers, turns};
ghost use Rattle.net_core.specs.Sound.{IsSound};
ghost use Rattle.thread_runner.specs.Benches.{IsFreshBench, HaveSpace, kept_in};
ghost use Rattle.thread_runner.specs.Runs.{AreEndsOf, HaveKept};

use crate::bench::{Bench, Keeper, Rooms, gathered};
use crate::workers::run_workers;
use io_edge::Gate;
use net_core::{Network, Room, State, Values, every_order, sound};
use plain_data::Items;
use ruled_links::Ends;
use sanlp::{Arrays, Inputs, Nest, Points, Tag};
use std::alloc::Global;
use std::sync::Wait;
use std::thread::Threads;
use witness_plan::run_by;

// What the sinks have kept, where each process has kept the values of its points.
fn answer<K: Keeper>(
    alloc: Global,
    rule: &Values,
    network: &Network,
    keeper: &K,
    lists: Vec<Vec<i64>>,
    outputs: Vec<Items<i64>>,
) -> Arrays
    requires sound { IsSound rule.now.nest.now network.now }
    requires processes { K.processes keeper.now ≡ length rule.now.nest.now.statements }
    requires values { (p : ℕ)
        → K.values keeper.now p ≡ values_of rule.now.nest.now rule.now.inputs.now p }
    requires lists { (length lists.items ≡ length (output_numbers rule.now.nest.now.arrays))
        × HaveSpace (turns (points_of rule.now.nest.now))
        (length rule.now.nest.now.statements) lists.items }
    requires outputs { (outputs.items ≡ [])
        × (length rule.now.nest.now.arrays ≤ vec_capacity outputs) }
    ensures { result.arrays ≡ arrays rule.now.nest.now rule.now.inputs.now }
{
    let _network = network;
    gathered(alloc, rule.nest, keeper, lists, outputs)
}

// Asks the gate for each process, as its worker does before it works.
fn ask_for_each<G: Gate>(network: &Network, gate: &G)
    requires { FitsNumbers (net_of network.now) }
{
    for process in 0..network.processes.len() as u32 {
        gate.pass(process);
    }
}

// Runs a network along a schedule that ends all. Each process asks the gate before.
fn run_along<G: Gate>(
    rule: &Values,
    network: &Network,
    schedule: &[u32],
    state: &mut State<i64>,
    gate: &G,
)
    requires numbers { FitsNumbers (net_of network.now) }
    requires sound { IsSound rule.now.nest.now network.now }
    requires ends { EndsAll (net_of network.now) tags schedule.now }
    requires opening { run_of state.old ≡ start (net_of network.now) }
    requires state { IsFor (net_of network.now) (held_of state.old) }
    ensures kept { (p : ℕ)
        → ((run_of state.new).local p).kept ≡ values_of rule.now.nest.now rule.now.inputs.now p }
    ensures state { IsFor (net_of network.now) (held_of state.new) }
{
    every_order::<Tag, i64>();
    sound();
    ask_for_each(network, gate);
    run_by(state, network, rule, schedule);
}

/// Runs a network by one thread for each process, and gives the arrays after the nest. A worker asks the gate before it works,
/// and its process tells the gate each value before it puts it.
///
/// Where a thread can't be started, the network is run along the schedule instead. Then no worker has asked the gate, each process
/// asks it before that run, and nothing is told. So each process asks once: one that asks twice has been run twice. There is no
/// refusal, and it takes no memory but for the starts.
pub fn run_threads<R: Threads + Wait + Sync, E: Ends + Send + Drop, G: Gate + Sync>(
    rt: &R,
    alloc: Global,
    nest: &Nest,
    points: &Points,
    inputs: &Inputs,
    network: &Network,
    schedule: &[u32],
    bench: Bench,
    ends: Vec<E>,
    gate: &G,
) -> Arrays
    requires points { points.now.of ≡ points_of nest.now }
    requires numbers { FitsNumbers (net_of network.now) }
    requires sound { IsSound nest.now network.now }
    requires schedule { EndsAll (net_of network.now) tags schedule.now }
    requires bench { IsFreshBench nest.now network.now bench }
    requires ends { AreEndsOf E.from E.to nest.now network.now inputs.now ends.items }
    ensures { result.arrays ≡ arrays nest.now inputs.now }
{
    let Bench {
        rooms,
        lists,
        arrays,
        mut state,
    } = bench;
    let rule = Values {
        nest,
        points,
        inputs,
    };
    let (rooms, ran) = run_workers(rt, nest, points, inputs, network, rooms, ends, gate);
    if ran {
        let keeper = Rooms { rooms: &rooms };
        answer(alloc, &rule, network, &keeper, lists, arrays)
    } else {
        run_along(&rule, network, schedule, &mut state, gate);
        answer(alloc, &rule, network, &state, lists, arrays)
    }
}
