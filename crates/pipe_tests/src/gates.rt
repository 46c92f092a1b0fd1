//! Gates that record who passed with what, and that hold a pass until another has come.
use std::alloc::{AllocError, Global};
use std::sync::atomic::{AtomicU64, Ordering};
use worker_core::Gate;

// Whether `count` reaches `wanted` within `turns` turns.
fn comes_to(count: &AtomicU64, wanted: u64, turns: u64) -> bool {
    for _turn in 0..turns {
        if count.load(Ordering::SeqCst) >= wanted {
            return true;
        }
    }
    false
}

/// Holds chunk 0's pass until chunk 1's has begun, and gives up after `turns` turns.
#[derive(Drop)]
pub struct Crossing {
    turns: u64,
    first: AtomicU64,
    second: AtomicU64,
    gave_up: AtomicU64,
}

impl Crossing {
    pub fn new(turns: u64) -> Crossing {
        Crossing {
            turns,
            first: AtomicU64::new(0),
            second: AtomicU64::new(0),
            gave_up: AtomicU64::new(0),
        }
    }

    /// Whether chunk 0's pass has begun, or begins within the turns.
    pub fn is_entered(&self) -> bool {
        comes_to(&self.first, 1, self.turns)
    }

    /// Whether chunk 0's pass was released too early.
    pub fn gave_up(&self) -> bool {
        self.gave_up.load(Ordering::SeqCst) > 0
    }
}

impl Gate for Crossing {
    fn pass(&self, _worker: u32, chunk: u32) {
        if chunk > 0 {
            self.second.fetch_add(1, Ordering::SeqCst);
            return;
        }
        self.first.fetch_add(1, Ordering::SeqCst);
        if !comes_to(&self.second, 1, self.turns) {
            self.gave_up.store(1, Ordering::SeqCst);
        }
    }
}

/// Counts the passes with each of 64 chunks and by each of 16 workers. It holds all until `wanted` have come, and gives
/// up after `turns` turns.
#[derive(Drop)]
pub struct Passes {
    wanted: u64,
    turns: u64,
    chunks: Vec<AtomicU64>,
    workers: Vec<AtomicU64>,
    strange: AtomicU64,
    passes: AtomicU64,
    gave_up: AtomicU64,
}

fn counts(alloc: Global, many: u32) -> Result<Vec<AtomicU64>, AllocError> {
    let mut counts = Vec::new(alloc);
    for _count in 0..many {
        counts.push(AtomicU64::new(0))?;
    }
    Ok(counts)
}

impl Passes {
    pub fn new(alloc: Global, wanted: u64, turns: u64) -> Result<Passes, AllocError> {
        let chunks = counts(alloc, 64)?;
        let workers = counts(alloc, 16)?;
        Ok(Passes {
            wanted,
            turns,
            chunks,
            workers,
            strange: AtomicU64::new(0),
            passes: AtomicU64::new(0),
            gave_up: AtomicU64::new(0),
        })
    }

    /// Whether each of the chunks was passed once, and no other was.
    pub fn is_each_once(&self) -> bool {
        for count in self.chunks.iter() {
            if count.load(Ordering::SeqCst) != 1 {
                return false;
            }
        }
        self.strange.load(Ordering::SeqCst) == 0
    }

    /// Whether each of the first `many` workers passed, and no other did.
    pub fn is_by_all_of(&self, many: usize) -> bool {
        for (worker, count) in self.workers.iter().enumerate() {
            if (count.load(Ordering::SeqCst) > 0) != (worker < many) {
                return false;
            }
        }
        self.strange.load(Ordering::SeqCst) == 0
    }

    /// Whether a pass was released too early.
    pub fn gave_up(&self) -> bool {
        self.gave_up.load(Ordering::SeqCst) > 0
    }

    // Increments the count at this place; if there is none, the count of strangers.
    fn count(&self, counts: &[AtomicU64], place: u32) {
        let count = counts.get(place as usize).unwrap_or(&self.strange);
        count.fetch_add(1, Ordering::SeqCst);
    }
}

impl Gate for Passes {
    fn pass(&self, worker: u32, chunk: u32) {
        self.count(self.chunks.as_slice(), chunk);
        self.count(self.workers.as_slice(), worker);
        self.passes.fetch_add(1, Ordering::SeqCst);
        if !comes_to(&self.passes, self.wanted, self.turns) {
            self.gave_up.store(1, Ordering::SeqCst);
        }
    }
}
