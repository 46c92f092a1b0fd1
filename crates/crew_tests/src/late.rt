//! A gate that holds one worker (or lane) with its piece (or job) until the other has passed with all the others.
use crew_core::Gate;
use std::sync::atomic::{AtomicU64, Ordering};

/// For two workers or lanes. It holds number 0 until number 1 has come, and number 1 until number 0 has passed `others`
/// times. It gives up after `turns` turns.
#[derive(Drop)]
pub struct Late {
    others: u64,
    turns: u64,
    first: AtomicU64,
    second: AtomicU64,
    gave_up: AtomicU64,
}

impl Late {
    /// Returns the gate before any pass.
    pub fn new(others: u64, turns: u64) -> Late {
        Late {
            others,
            turns,
            first: AtomicU64::new(0),
            second: AtomicU64::new(0),
            gave_up: AtomicU64::new(0),
        }
    }

    /// Returns how often lane 0 has passed, and how often lane 1.
    pub fn passes(&self) -> (u64, u64) {
        (
            self.first.load(Ordering::SeqCst),
            self.second.load(Ordering::SeqCst),
        )
    }

    /// Whether a lane was released too early.
    pub fn gave_up(&self) -> bool {
        self.gave_up.load(Ordering::SeqCst) > 0
    }

    // Waits until there are `wanted` passes, at most `turns` turns.
    fn wait(&self, passes: &AtomicU64, wanted: u64) {
        for _turn in 0..self.turns {
            if passes.load(Ordering::SeqCst) >= wanted {
                return;
            }
        }
        self.gave_up.store(1, Ordering::SeqCst);
    }
}

impl Gate for Late {
    fn pass(&self, lane: u32, _job: u32) {
        if lane == 0 {
            self.first.fetch_add(1, Ordering::SeqCst);
            self.wait(&self.second, 1);
        } else {
            self.second.fetch_add(1, Ordering::SeqCst);
            self.wait(&self.first, self.others);
        }
    }
}
