//! Tests of `thread_runner`.
ghost use Rattle.std.specs.Prelude.{◌≡◌, IfOk, map};
ghost use Rattle.net_core.specs.Machine.{net_of};
ghost use Rattle.net_core.specs.Orders.{EndsAll};
ghost use Rattle.net_core.specs.Rules.{tags};
ghost use Rattle.net_core.specs.Sound.{IsSound};

use crate::bound::{Made, has_list, inputs, make};
use io_edge::Open;
use ruled_links::Ends;
use sanlp::{Arrays, Inputs};
use std::alloc::{AllocError, Global};
use std::sync::Wait;
use std::sync::atomic::{AtomicU64, Ordering};
use std::test::Fail;
use std::thread;
use std::thread::Threads;
use thread_runner::{Bench, NodeEnds, make_ends, run_threads};
use witness_plan::Policy;

// How often a process looks for the other one that it waits for.
const MOST_TURNS: u64 = 100_000_000;

// Where processes 0 and 1 wait for each other.
#[derive(Drop)]
struct Meeting {
    came: [AtomicU64; 2],
    late: AtomicU64,
}

impl Meeting {
    fn new() -> Meeting {
        Meeting {
            came: [AtomicU64::new(0), AtomicU64::new(0)],
            late: AtomicU64::new(0),
        }
    }

    /// Whether both came, and neither gave up.
    fn met(&self) -> bool {
        self.came[0].load(Ordering::SeqCst) == 1
            && self.came[1].load(Ordering::SeqCst) == 1
            && self.late.load(Ordering::SeqCst) == 0
    }

    /// Holds process 0 or 1 until the other one came, for so many turns at most. No other process is held.
    fn wait(&self, who: usize) {
        if who >= 2 {
            return;
        }
        self.came[who].store(1, Ordering::SeqCst);
        for _ in 0..MOST_TURNS {
            if self.came[1 - who].load(Ordering::SeqCst) == 1 {
                return;
            }
            thread::yield_now();
        }
        self.late.store(1, Ordering::SeqCst);
    }
}

// A process's ends. The first puts of processes 0 and 1 wait for each other.
#[derive(Drop)]
struct MeetEnds<'a> {
    ends: NodeEnds,
    process: usize,
    meeting: &'a Meeting,
}

impl<'a> Ends for MeetEnds<'a> {
    ghost use Rattle.std.specs.Prelude.{[], false};

    ghost from = { λ e. ⟦<NodeEnds as Ends>⟧.from e.ends };

    ghost to = { λ e. ⟦<NodeEnds as Ends>⟧.to e.ends };

    ghost tells = { false };

    ghost calls = { λ e. [] };

    fn get<R: Wait>(&mut self, rt: &R, channel: u32) -> i64 {
        self.ends.get(rt, channel)
    }

    fn put<R: Wait>(&mut self, rt: &R, channel: u32, value: i64) {
        self.meeting.wait(self.process);
        self.ends.put(rt, channel, value);
    }
}

// The same ends, whose processes meet.
fn meeting_ends<'a>(
    alloc: Global,
    ends: Vec<NodeEnds>,
    meeting: &'a Meeting,
) -> Result<Vec<MeetEnds<'a>>, AllocError>
    ensures { IfOk result (λ all. map (λ e. e.ends) all.items ≡ ends.items) }
{
    let mut all = Vec::new(alloc);
    for ends in ends {
        let process = all.len();
        all.push(MeetEnds {
            ends,
            process,
            meeting,
        })?;
    }
    Ok(all)
}

// What a network computes, run by threads whose ends meet.
fn run_meeting<R: Threads + Wait + Sync>(
    rt: &R,
    alloc: Global,
    made: &Made,
    inputs: &Inputs,
    meeting: &Meeting,
) -> Result<Arrays, AllocError>
    requires sound { IsSound made.now.nest made.now.network }
    requires ends { EndsAll (net_of made.now.network) tags made.now.cert.schedule }
{
    let ends = make_ends(alloc, &made.nest, &made.points, inputs, &made.network)?;
    let ends = meeting_ends(alloc, ends, meeting)?;
    let bench = Bench::new(alloc, &made.nest, &made.points, &made.network)?;
    Ok(run_threads(
        rt,
        alloc,
        &made.nest,
        &made.points,
        inputs,
        &made.network,
        made.cert.schedule.as_slice(),
        bench,
        ends,
        &Open,
    ))
}

// The values of x and z.
static INPUTS: [&[i64]; 3] = [&[1], &[2], &[]];

// Whether it computes their sum.
fn gives_sum<R: Threads + Wait + Sync>(
    rt: &R,
    alloc: Global,
    made: &Made,
    meeting: &Meeting,
) -> Result<bool, AllocError>
    requires sound { IsSound made.now.nest made.now.network }
    requires ends { EndsAll (net_of made.now.network) tags made.now.cert.schedule }
{
    let inputs = inputs(alloc, &INPUTS)?;
    let outputs = run_meeting(rt, alloc, made, &inputs, meeting);
    drop(inputs);
    Ok(has_list(outputs?.arrays.as_slice(), &[3]))
}

#[test]
fn two_nodes_meet(rt: HostRuntime) -> Result<(), Fail> {
    let meeting = Meeting::new();
    let made = make(rt.alloc(), b"in x, z; out y; y = x + z;", 0, Policy::Seq)?;
    let gives_sum = gives_sum(&rt, rt.alloc(), &made, &meeting);
    drop(made);
    assert!(rt; gives_sum? && meeting.met());
    Ok(())
}
