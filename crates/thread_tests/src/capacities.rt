//! The capacities of channels in a run, and when the gate is told of a put.

use crate::meeting::MOST_TURNS;
use crate::threads::expect_by;
use io_edge::Gate;
use std::process::Abort;
use std::sync::Wait;
use std::sync::atomic::{AtomicU64, Ordering};
use std::test::Fail;
use std::thread;
use std::thread::Threads;

/// How often a gate yields before it takes it that no more is told.
const LOOKS: u64 = 100_000;

/// A gate by which process 1, which reads, begins once process 0, which writes, has told so many values, and a while after that. It
/// notes how many are told by then.
#[derive(Drop)]
struct LateGate {
    wanted: u64,
    told: AtomicU64,
    noted: AtomicU64,
}

impl LateGate {
    fn new(wanted: u64) -> LateGate {
        LateGate {
            wanted,
            told: AtomicU64::new(0),
            noted: AtomicU64::new(0),
        }
    }

    /// Waits until so many values are told, for so many turns at most.
    fn wait(&self) {
        for _ in 0..MOST_TURNS {
            if self.told.load(Ordering::SeqCst) >= self.wanted {
                return;
            }
            thread::yield_now();
        }
    }
}

impl Gate for LateGate {
    fn pass(&self, who: u32) {
        if who != 1 {
            return;
        }
        self.wait();
        for _ in 0..LOOKS {
            thread::yield_now();
        }
        let told = self.told.load(Ordering::SeqCst);
        self.noted.store(told, Ordering::SeqCst);
    }

    fn moved(&self, who: u32, _channel: u32, _value: i64) {
        if who == 0 {
            self.told.fetch_add(1, Ordering::SeqCst);
        }
    }
}

const INCREMENTS: &[u8] =
    b"param N; in x[N]; out y[N]; for (i = 0; i < N; i++) y[i] = x[i] + 1;\n%%\nx,5,6,7\n";

/// Words, and how many values the writer tells before its reader begins. By `seq` its channel has three places, and it puts all
/// of its values. By `down` it has one: the writer puts a value, tells the next, and waits.
static TOLD: [(&[&str], u64); 2] = [
    (&["run", "N=3", "--policy=seq"], 3),
    (&["run", "N=3", "--policy=down"], 2),
];

fn expect_told(
    rt: &(impl Abort + AllocGlobal + Threads + Wait + Sync),
    words: &[&str],
    wanted: u64,
) -> Result<(), Fail> {
    let gate = LateGate::new(wanted);
    expect_by(rt, words, INCREMENTS, b"y,6,7,8\n", &gate)?;
    assert!(rt; gate.noted.load(Ordering::SeqCst) == wanted, "{words:?}");
    Ok(())
}

#[test]
fn a_writer_fills_its_channel_and_waits(rt: HostRuntime) -> Result<(), Fail> {
    for (words, wanted) in &TOLD {
        expect_told(&rt, words, *wanted)?;
    }
    Ok(())
}
