//! The threads of `run` and of `load`.

use crate::meeting::{MOST_TURNS, Meeting};
use io_edge::Gate;
use std::alloc::{AllocError, Global};
use std::process::Abort;
use std::sync::Wait;
use std::sync::atomic::{AtomicU64, Ordering};
use std::test::Fail;
use std::thread;
use std::thread::Threads;
use top_calls::{SOUND, end_by};

/// What was heard of one process: how often it passed and how much it told, which is to be these channels and values.
#[derive(Drop)]
struct Heard {
    expected: Vec<(u32, i64)>,
    passes: AtomicU64,
    told: AtomicU64,
}

/// Whom a gate holds.
#[derive(Clone, Copy, PartialEq)]
enum Held {
    Nobody,
    /// Processes 0 and 1 at their first telling, until both are there.
    FirstTellings,
    /// Each process when it passes, until all have.
    Passes,
}

/// A gate that compares what each process tells with a list of channels and values, and counts its passes.
#[derive(Drop)]
struct Listener {
    processes: Vec<Heard>,
    wrong: AtomicU64,
    held: Held,
    meeting: Meeting,
}

impl Listener {
    fn new(alloc: Global, expected: &[&[(u32, i64)]], held: Held) -> Result<Listener, AllocError> {
        let mut processes = Vec::new(alloc);
        for list in expected {
            processes.push(Heard {
                expected: Vec::from_slice(alloc, *list)?,
                passes: AtomicU64::new(0),
                told: AtomicU64::new(0),
            })?;
        }
        Ok(Listener {
            processes,
            wrong: AtomicU64::new(0),
            held,
            meeting: Meeting::new(),
        })
    }

    fn have_all_passed(&self) -> bool {
        for heard in self.processes.as_slice() {
            if heard.passes.load(Ordering::SeqCst) == 0 {
                return false;
            }
        }
        true
    }

    /// Waits until each process has passed, for so many turns at most.
    fn wait_for_all(&self) {
        for _ in 0..MOST_TURNS {
            if self.have_all_passed() {
                return;
            }
            thread::yield_now();
        }
        self.wrong.fetch_add(1, Ordering::SeqCst);
    }

    /// Whether each process passed once and told all of its list, and nothing else was heard.
    fn heard_all(&self) -> bool {
        for heard in self.processes.as_slice() {
            if heard.passes.load(Ordering::SeqCst) != 1
                || heard.told.load(Ordering::SeqCst) != heard.expected.len() as u64
            {
                return false;
            }
        }
        self.wrong.load(Ordering::SeqCst) == 0
    }
}

impl Gate for Listener {
    fn pass(&self, who: u32) {
        match self.processes.get(who as usize) {
            Some(heard) => heard.passes.fetch_add(1, Ordering::SeqCst),
            None => self.wrong.fetch_add(1, Ordering::SeqCst),
        };
        if self.held == Held::Passes {
            self.wait_for_all();
        }
    }

    fn moved(&self, who: u32, channel: u32, value: i64) {
        let Some(heard) = self.processes.get(who as usize) else {
            self.wrong.fetch_add(1, Ordering::SeqCst);
            return;
        };
        let at = heard.told.fetch_add(1, Ordering::SeqCst) as usize;
        if heard.expected.get(at) != Some(&(channel, value)) {
            self.wrong.fetch_add(1, Ordering::SeqCst);
        }
        if self.held == Held::FirstTellings {
            self.meeting.wait(who as usize);
        }
    }
}

const SUM: &[u8] = b"in x, z; out y; y = x + z;\n%%\nx,1\nz,2\n";

const SUM_TELLS: [&[(u32, i64)]; 4] = [&[(0, 1)], &[(1, 2)], &[(2, 3)], &[]];

/// Calls the program with this gate, and compares what it writes.
pub(crate) fn expect_by<G: Gate + Sync>(
    rt: &(impl Abort + AllocGlobal + Threads + Wait + Sync),
    words: &[&str],
    bundle: &[u8],
    output: &[u8],
    gate: &G,
) -> Result<(), Fail> {
    let end = end_by(rt, SOUND, words, &[], bundle, gate)?;
    let holds = end.is(0, output, b"");
    drop(end);
    assert!(rt; holds);
    Ok(())
}

fn expect_heard(
    rt: &(impl Abort + AllocGlobal + Threads + Wait + Sync),
    words: &[&str],
    bundle: &[u8],
    output: &[u8],
    gate: &Listener,
) -> Result<(), Fail> {
    expect_by(rt, words, bundle, output, gate)?;
    assert!(rt; gate.heard_all());
    Ok(())
}

#[test]
fn run_meets(rt: HostRuntime) -> Result<(), Fail> {
    let gate = Listener::new(rt.alloc(), &SUM_TELLS, Held::FirstTellings)?;
    expect_heard(&rt, &["run"], SUM, b"y,3\n", &gate)?;
    assert!(rt; gate.meeting.met());
    Ok(())
}

#[test]
fn run_tells(rt: HostRuntime) -> Result<(), Fail> {
    let gate = Listener::new(
        rt.alloc(),
        &[
            &[(0, 1), (0, 2), (0, 3)],
            &[(1, 3), (1, 2), (1, 1), (1, 3), (1, 2), (1, 1)],
            &[],
        ],
        Held::Nobody,
    )?;
    let reversed =
        b"in x[3]; out b[2][3]; for (i = 0; i < 2; i++) for (j = 0; j < 3; j++) b[i][j] = x[2-j];\n%%\nx,1,2,3\n";
    expect_heard(&rt, &["run"], reversed, b"b,3,2,1,3,2,1\n", &gate)
}

// No process goes on before all have passed, so each has a thread of its own.
#[test]
fn each_process_has_a_thread(rt: HostRuntime) -> Result<(), Fail> {
    let gate = Listener::new(rt.alloc(), &SUM_TELLS, Held::Passes)?;
    expect_heard(&rt, &["run"], SUM, b"y,3\n", &gate)?;
    // two sources with one cell each, the zero, the product that is added to it, and the sink
    let gate = Listener::new(
        rt.alloc(),
        &[&[(1, -2)], &[(2, -5)], &[(0, 0)], &[(3, 10)], &[]],
        Held::Passes,
    )?;
    let summary = b"points 5\nchannels 4\nevents 13\nsum 10\n";
    expect_heard(&rt, &["load", "1"], b"", summary, &gate)
}
