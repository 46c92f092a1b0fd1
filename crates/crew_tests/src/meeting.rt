//! A gate that several workers must meet.
use crew_core::Gate;
use std::sync::atomic::{AtomicU64, Ordering};

/// Holds the passes until `wanted` have come, and gives up after `turns` turns. With fewer threads, the last pass
/// wanted doesn't come while the others are held.
#[derive(Drop)]
pub struct Meeting {
    wanted: u64,
    turns: u64,
    passes: AtomicU64,
    // Four bits for each worker, the lowest for worker 0: how often it passed.
    workers: AtomicU64,
    gave_up: AtomicU64,
}

impl Meeting {
    /// Returns the gate before any pass.
    pub fn new(wanted: u64, turns: u64) -> Meeting {
        Meeting {
            wanted,
            turns,
            passes: AtomicU64::new(0),
            workers: AtomicU64::new(0),
            gave_up: AtomicU64::new(0),
        }
    }

    /// Returns how many passes there were.
    pub fn passes(&self) -> u64 {
        self.passes.load(Ordering::SeqCst)
    }

    /// Whether a pass was released before `wanted` had come.
    pub fn gave_up(&self) -> bool {
        self.gave_up.load(Ordering::SeqCst) > 0
    }

    /// Whether there were `passes` passes, and the gate gave up exactly if `gives_up`. If it didn't, each pass must be
    /// by a different worker, out of 16.
    pub fn is_met(&self, passes: u64, gives_up: bool) -> bool {
        let twice = self.workers.load(Ordering::SeqCst) & 0xeeee_eeee_eeee_eeee;
        self.passes() == passes && self.gave_up() == gives_up && (gives_up || twice == 0)
    }
}

impl Gate for Meeting {
    fn pass(&self, worker: u32, _piece: u32) {
        self.workers
            .fetch_add(1 << (4 * (worker % 16)), Ordering::SeqCst);
        self.passes.fetch_add(1, Ordering::SeqCst);
        for _turn in 0..self.turns {
            if self.passes.load(Ordering::SeqCst) >= self.wanted {
                return;
            }
        }
        self.gave_up.store(1, Ordering::SeqCst);
    }
}
