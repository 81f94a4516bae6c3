ghost use Rattle.std.specs.Prelude.{◌≡◌, ◌<◌, ◌≤◌, ℕ, true, false, length, vec_len, vec_capacity, slice_get, Some, MatchResult};
ghost use Rattle.sanlp.specs.Laws.{values_of};
ghost use Rattle.thread_runner.specs.Runs.{MayWork, MayStart, HaveKept};

use io_edge::Gate;
use net_core::{Network, Room};
use node_runner::run_node;
use ruled_links::Ends;
use sanlp::{Inputs, Nest, Points};
use std::sync::Wait;
use std::sync::atomic::{AtomicU64, Ordering};
use std::thread;
use std::thread::{Promise, PromisedHandle, Scope, Threads};

// What the start signal says. It carries no data.
const GO: u64 = 1;

const STAY: u64 = 2;

// What a worker is given and hands back: a process's room and its ends, and whether the process ran.
#[derive(Drop)]
struct Back<E> {
    room: Room<i64>,
    ends: E,
    ran: bool,
}

// What a worker does, and its promise: if it ran, its process has kept the values of its points.
#[derive(Clone, Copy)]
struct Task<'a> {
    nest: &'a Nest,
    points: &'a Points,
    inputs: &'a Inputs,
    network: &'a Network,
    process: u32,
}

impl<'a, E> Promise<Back<E>> for Task<'a> {
    ghost use Rattle.std.specs.Prelude.{◌≡◌, true};
    ghost use Rattle.sanlp.specs.Laws.{values_of};

    ghost kept_by = { λ task back. back.ran ≡ true
        → back.room.kept ≡ values_of task.nest.now task.inputs.now task.process };
}

// Waits until the signal says go or stay.
fn is_go<R: Wait>(rt: &R, signal: &AtomicU64) -> bool {
    for _ in rt.forever() {
        match signal.load(Ordering::SeqCst) {
            GO => return true,
            STAY => return false,
            _ => thread::yield_now(),
        }
    }
    unreachable!()
}

// Waits for the signal, and runs the process if it says go.
fn work<R: Wait, E: Ends, G: Gate>(
    rt: &R,
    task: Task,
    mut back: Back<E>,
    signal: &AtomicU64,
    gate: &G,
) -> Back<E>
    requires may { MayWork E.from E.to task.nest.now task.points.now.of task.inputs.now
        task.network.now task.process back.room back.ends }
    requires idle { back.ran ≡ false }
    ensures { result.ran ≡ true
        → result.room.kept
        ≡ values_of task.entry.nest.now task.entry.inputs.now task.entry.process }
{
    if !is_go(rt, signal) {
        return back;
    }
    gate.pass(task.process);
    run_node(
        rt,
        task.nest,
        task.points,
        task.inputs,
        task.network,
        task.process,
        &mut back.room,
        &mut back.ends,
        gate,
    );
    back.ran = true;
    back
}

// Starts a worker. Where no thread can be made, the signal says stay, and the work comes back unstarted.
fn launch<'s, S, R: Threads + Wait + Sync, E: Ends + Send + Drop + 's, G: Gate + Sync>(
    scope: &'s Scope<'s, S>,
    rt: &'s R,
    task: Task<'s>,
    signal: &'s AtomicU64,
    gate: &'s G,
    room: Room<i64>,
    ends: E,
) -> Result<PromisedHandle<Back<E>, Task<'s>>, Back<E>>
    requires { MayWork E.from E.to task.nest.now task.points.now.of task.inputs.now
        task.network.now task.process room ends }
    ensures { MatchResult result (λ worker. worker.promise ≡ task.entry)
        (λ back. back.ran ≡ true
        → back.room.kept
        ≡ values_of task.entry.nest.now task.entry.inputs.now task.entry.process) }
{
    let Task {
        nest,
        points,
        inputs,
        network,
        process,
    } = task;
    let back = Back {
        room,
        ends,
        ran: false,
    };
    match scope.spawn_with(
        task,
        move || -> Back<E>
            requires may { MayWork E.from E.to nest.now points.now.of inputs.now network.now
                process back.room back.ends }
            requires idle { back.ran ≡ false }
            ensures { result.ran ≡ true
                → result.room.kept ≡ values_of nest.entry.now inputs.entry.now process }
        {
            let task = Task {
                nest,
                points,
                inputs,
                network,
                process,
            };
            work(rt, task, back, signal, gate)
        },
    ) {
        Ok(worker) => Ok(worker),
        Err(refused) => {
            signal.store(STAY, Ordering::SeqCst);
            Err((refused.value)())
        }
    }
}

// Starts the last of these processes and those below it, and joins them. The call below process 0 says go.
fn start<'s, S, R: Threads + Wait + Sync, E: Ends + Send + Drop + 's, G: Gate + Sync>(
    scope: &'s Scope<'s, S>,
    rt: &'s R,
    nest: &'s Nest,
    points: &'s Points,
    inputs: &'s Inputs,
    network: &'s Network,
    signal: &'s AtomicU64,
    gate: &'s G,
    mut rooms: Vec<Room<i64>>,
    mut ends: Vec<E>,
) -> (Vec<Room<i64>>, Vec<E>, bool)
    requires { MayStart E.from E.to nest.now points.now.of inputs.now network.now rooms.items
        ends.items }
    ensures len { (vec_len result.0 ≡ vec_len rooms) × (vec_len result.1 ≡ vec_len ends) }
    ensures capacity { (vec_capacity result.0 ≡ vec_capacity rooms)
        × (vec_capacity result.1 ≡ vec_capacity ends) }
    ensures kept { result.2 ≡ true → HaveKept nest.now inputs.now result.0.items }
{
    let Some(room) = rooms.pop() else {
        signal.store(GO, Ordering::SeqCst);
        return (rooms, ends, true);
    };
    let Some(mine) = ends.pop() else {
        unreachable!();
    };
    let task = Task {
        nest,
        points,
        inputs,
        network,
        process: rooms.len() as u32,
    };
    match launch(scope, rt, task, signal, gate, room, mine) {
        Ok(worker) => {
            let (mut rooms, mut ends, all) = start(
                scope, rt, nest, points, inputs, network, signal, gate, rooms, ends,
            );
            let back = worker.join(rt);
            rooms.push_reserved(back.room);
            ends.push_reserved(back.ends);
            (rooms, ends, all && back.ran)
        }
        Err(back) => {
            rooms.push_reserved(back.room);
            ends.push_reserved(back.ends);
            (rooms, ends, false)
        }
    }
}

/// Runs all processes, each by a thread of its own. The answer says whether each of them ran.
pub(crate) fn run_workers<R: Threads + Wait + Sync, E: Ends + Send + Drop, G: Gate + Sync>(
    rt: &R,
    nest: &Nest,
    points: &Points,
    inputs: &Inputs,
    network: &Network,
    rooms: Vec<Room<i64>>,
    ends: Vec<E>,
    gate: &G,
) -> (Vec<Room<i64>>, bool)
    requires { MayStart E.from E.to nest.now points.now.of inputs.now network.now rooms.items
        ends.items }
    ensures len { vec_len result.0 ≡ vec_len rooms }
    ensures kept { result.1 ≡ true → HaveKept nest.now inputs.now result.0.items }
{
    let signal = AtomicU64::new(0);
    let word = &signal;
    let (rooms, _ends, ran) = thread::scope(
        thread::scope_env(),
        rt,
        |scope| -> (Vec<Room<i64>>, Vec<E>, bool)
            requires { MayStart E.from E.to nest.now points.now.of inputs.now network.now
                rooms.items ends.items }
            ensures len { vec_len result.0 ≡ vec_len rooms }
            ensures kept { result.2 ≡ true
                → HaveKept nest.entry.now inputs.entry.now result.0.items }
        {
            start(
                scope, rt, nest, points, inputs, network, word, gate, rooms, ends,
            )
        },
    );
    (rooms, ran)
}
