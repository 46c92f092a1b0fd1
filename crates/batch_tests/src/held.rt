//! A gate that holds one job until another has passed, and counts the passes.
use crew_core::Gate;
use std::sync::atomic::{AtomicU64, Ordering};

/// Holds the pass with job `job` until the pass with job `until` has come, and gives up after `turns` turns. It counts
/// the passes with each of the jobs 0 to 15, in four bits each.
#[derive(Drop)]
pub struct Held {
    job: u32,
    until: u32,
    turns: u64,
    counts: AtomicU64,
    gave_up: AtomicU64,
}

// One pass with this job.
fn one(job: u32) -> u64 {
    1 << (4 * (job % 16))
}

impl Held {
    /// Returns the gate before any pass.
    pub fn new(job: u32, until: u32, turns: u64) -> Held {
        Held {
            job,
            until,
            turns,
            counts: AtomicU64::new(0),
            gave_up: AtomicU64::new(0),
        }
    }

    /// The counts of all passes: 0x11 where jobs 0 and 1 have passed once, and no other.
    pub fn counts(&self) -> u64 {
        self.counts.load(Ordering::SeqCst)
    }

    /// Whether the job was released before the other came.
    pub fn gave_up(&self) -> bool {
        self.gave_up.load(Ordering::SeqCst) > 0
    }
}

impl Gate for Held {
    fn pass(&self, _lane: u32, job: u32) {
        self.counts.fetch_add(one(job), Ordering::SeqCst);
        if job != self.job {
            return;
        }
        for _turn in 0..self.turns {
            let counts = self.counts.load(Ordering::SeqCst);
            if (counts >> (4 * (self.until % 16))) % 16 > 0 {
                return;
            }
        }
        self.gave_up.store(1, Ordering::SeqCst);
    }
}
