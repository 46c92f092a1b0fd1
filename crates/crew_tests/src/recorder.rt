//! A gate that records who passed with what.
use crew_core::Gate;
use std::alloc::{AllocError, Global};
use std::sync::atomic::{AtomicU64, Ordering};

// What one pass adds to its piece's word, in addition to the worker's number.
const PASS: u64 = 1000;

/// Lets every pass through, and keeps a word for each piece. Each pass adds 1000 and its worker's number. So a word of
/// 1000 + w means that the piece was passed once, by worker w of at most 16.
#[derive(Drop)]
pub struct Recorder {
    words: Vec<AtomicU64>,
    strange: AtomicU64,
}

impl Recorder {
    /// Returns the gate for `pieces` pieces, before any pass.
    pub fn new(alloc: Global, pieces: u32) -> Result<Recorder, AllocError> {
        let mut words = Vec::new(alloc);
        for _piece in 0..pieces {
            words.push(AtomicU64::new(0))?;
        }
        Ok(Recorder {
            words,
            strange: AtomicU64::new(0),
        })
    }

    /// Whether each piece was passed once, by one of `workers` workers, and no other piece was passed.
    pub fn is_each_once(&self, workers: u64) -> bool {
        for word in self.words.iter() {
            let passed = word.load(Ordering::SeqCst);
            if passed < PASS || passed - PASS >= workers {
                return false;
            }
        }
        self.strange.load(Ordering::SeqCst) == 0
    }
}

impl Gate for Recorder {
    fn pass(&self, worker: u32, piece: u32) {
        match self.words.as_slice().get(piece as usize) {
            Some(word) => {
                word.fetch_add(PASS + u64::from(worker), Ordering::SeqCst);
            }
            None => {
                self.strange.fetch_add(1, Ordering::SeqCst);
            }
        }
    }
}
