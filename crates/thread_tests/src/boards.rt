//! The workers of `trace`.

use crate::meeting::MOST_TURNS;
use crate::threads::expect_by;
use io_edge::Gate;
use std::sync::atomic::{AtomicU64, Ordering};
use std::test::Fail;
use std::thread;
use top_calls::{INCREMENT, SOUND, end_by};

/// The number under which the caller asks the gate.
const CALLER: usize = 4;

/// The trace of the increment with N=1, which has one run.
const ONCE: &[u8] = b"trace 1\n0\n0\n1\n1\n1\n2\n2\nend\n";

/// A gate that holds workers 0 and 1 at their first pass until both have asked, and the caller at its first until worker 0 has
/// asked twice.
#[derive(Drop)]
struct LaneGate {
    first: AtomicU64,
    second: AtomicU64,
    caller: AtomicU64,
    wrong: AtomicU64,
}

impl LaneGate {
    fn new() -> LaneGate {
        LaneGate {
            first: AtomicU64::new(0),
            second: AtomicU64::new(0),
            caller: AtomicU64::new(0),
            wrong: AtomicU64::new(0),
        }
    }

    fn may_go(&self, who: usize) -> bool {
        let first = self.first.load(Ordering::SeqCst);
        let second = self.second.load(Ordering::SeqCst);
        match who {
            0 | 1 => first >= 1 && second >= 1,
            CALLER => first >= 2,
            _ => true,
        }
    }

    /// Notes that one asks, and gives how often it had asked before.
    fn note(&self, who: usize) -> u64 {
        match who {
            0 => self.first.fetch_add(1, Ordering::SeqCst),
            1 => self.second.fetch_add(1, Ordering::SeqCst),
            CALLER => self.caller.fetch_add(1, Ordering::SeqCst),
            _ => 0,
        }
    }

    /// Whether nobody waited in vain, and workers 0 and 1 and the caller asked.
    fn met(&self) -> bool {
        self.wrong.load(Ordering::SeqCst) == 0
            && self.may_go(CALLER)
            && self.second.load(Ordering::SeqCst) >= 1
            && self.caller.load(Ordering::SeqCst) >= 1
    }
}

impl Gate for LaneGate {
    fn pass(&self, who: u32) {
        let who = who as usize;
        if self.note(who) > 0 {
            return;
        }
        for _ in 0..MOST_TURNS {
            if self.may_go(who) {
                return;
            }
            thread::yield_now();
        }
        self.wrong.fetch_add(1, Ordering::SeqCst);
    }

    fn moved(&self, _who: u32, _channel: u32, _value: i64) {
        self.wrong.fetch_add(1, Ordering::SeqCst);
    }
}

#[test]
fn two_lanes_meet(rt: HostRuntime) -> Result<(), Fail> {
    let gate = LaneGate::new();
    expect_by(&rt, &["trace", "N=1"], INCREMENT, ONCE, &gate)?;
    assert!(rt; gate.met());
    Ok(())
}

/// A gate that holds all but worker 1 until worker 1 has asked twice.
#[derive(Drop)]
struct AheadGate {
    asked: AtomicU64,
    wrong: AtomicU64,
}

impl Gate for AheadGate {
    fn pass(&self, who: u32) {
        if who == 1 {
            self.asked.fetch_add(1, Ordering::SeqCst);
            return;
        }
        for _ in 0..MOST_TURNS {
            if self.asked.load(Ordering::SeqCst) >= 2 {
                return;
            }
            thread::yield_now();
        }
        self.wrong.fetch_add(1, Ordering::SeqCst);
    }

    fn moved(&self, _who: u32, _channel: u32, _value: i64) {
        self.wrong.fetch_add(1, Ordering::SeqCst);
    }
}

/// Two sources, whose processes can both fire first. That of the second has worker 1.
const TWO_SOURCES: &[u8] = b"in x, z; out y; y = x + z;";

/// Worker 1 steps before anyone else does, so the first entry is its process. Where nobody but the caller steps, or a worker
/// steps processes that aren't of its lane, it is process 0, the least that is enabled.
#[test]
fn a_worker_steps_its_lane(rt: HostRuntime) -> Result<(), Fail> {
    let gate = AheadGate {
        asked: AtomicU64::new(0),
        wrong: AtomicU64::new(0),
    };
    let end = end_by(&rt, SOUND, &["trace"], &[], TWO_SOURCES, &gate)?;
    let ahead = end.status == 0 && end.output.held().starts_with(b"trace 1\n1\n");
    drop(end);
    assert!(rt; ahead);
    assert!(rt; gate.wrong.load(Ordering::SeqCst) == 0);
    Ok(())
}

/// A gate that holds the caller until each of the four workers has asked.
#[derive(Drop)]
struct AllGate {
    asked: [AtomicU64; 4],
    wrong: AtomicU64,
}

impl AllGate {
    fn all_asked(&self) -> bool {
        self.asked
            .iter()
            .all(|count| count.load(Ordering::SeqCst) >= 1)
    }
}

impl Gate for AllGate {
    fn pass(&self, who: u32) {
        if let Some(count) = self.asked.get(who as usize) {
            count.fetch_add(1, Ordering::SeqCst);
            return;
        }
        for _ in 0..MOST_TURNS {
            if self.all_asked() {
                return;
            }
            thread::yield_now();
        }
        self.wrong.fetch_add(1, Ordering::SeqCst);
    }

    fn moved(&self, _who: u32, _channel: u32, _value: i64) {
        self.wrong.fetch_add(1, Ordering::SeqCst);
    }
}

#[test]
fn four_workers_ask(rt: HostRuntime) -> Result<(), Fail> {
    let gate = AllGate {
        asked: [
            AtomicU64::new(0),
            AtomicU64::new(0),
            AtomicU64::new(0),
            AtomicU64::new(0),
        ],
        wrong: AtomicU64::new(0),
    };
    expect_by(&rt, &["trace", "N=1"], INCREMENT, ONCE, &gate)?;
    assert!(rt; gate.all_asked() && gate.wrong.load(Ordering::SeqCst) == 0);
    Ok(())
}
