//! Two processes that wait for each other.

use std::sync::atomic::{AtomicU64, Ordering};
use std::thread;

/// How often a process looks for the other one that it waits for.
pub(crate) const MOST_TURNS: u64 = 100_000_000;

/// Where processes 0 and 1 wait for each other.
#[derive(Drop)]
pub(crate) struct Meeting {
    came: [AtomicU64; 2],
    late: AtomicU64,
}

impl Meeting {
    pub(crate) fn new() -> Meeting {
        Meeting {
            came: [AtomicU64::new(0), AtomicU64::new(0)],
            late: AtomicU64::new(0),
        }
    }

    /// Whether both came, and neither gave up.
    pub(crate) fn met(&self) -> bool {
        self.came[0].load(Ordering::SeqCst) == 1
            && self.came[1].load(Ordering::SeqCst) == 1
            && self.late.load(Ordering::SeqCst) == 0
    }

    /// Holds process 0 or 1 until the other one came, for so many turns at most. No other process is held.
    pub(crate) fn wait(&self, who: usize) {
        if who >= 2 {
            return;
        }
        self.came[who].store(1, Ordering::SeqCst);
        for _ in 0..MOST_TURNS {
            if self.came[1 - who].load(Ordering::SeqCst) == 1 {
                return;
            }
            thread::yield_now();
        }
        self.late.store(1, Ordering::SeqCst);
    }
}
