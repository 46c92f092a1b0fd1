//! The workers of an opening.
ghost use Rattle.std.specs.Prelude.{◌≡◌, ◌<◌, ◌≤◌, min, vec_len};
ghost use Rattle.opening_core.specs.Workers.{AreWorkers, worker_count};

use claim_core::MAX_WORKERS;
use std::alloc::{AllocError, Global};
use worker_core::{LetterBox, letter_boxes};

/// Who opens: the caller's thread, and at most 15 workers beside it.
#[derive(Clone, Copy)]
pub enum Workers<'b, 'a> {
    /// At most this many with the caller's thread. The engine starts those beside it once the first window was read, no
    /// more than a round has chunks, and they end with the reading.
    ToStart(u32),
    /// The caller's thread, and those of these letter boxes, which `with_workers` runs.
    Running(&'b [LetterBox<'a>]),
}

impl<'b, 'a> Workers<'b, 'a> {
    /// Returns how many they are, with the caller's thread.
    pub fn count(self) -> u32
        requires { AreWorkers self }
        ensures { result ≡ worker_count self.entry }
    {
        match self {
            Workers::ToStart(count) => count,
            Workers::Running(boxes) => boxes.len() as u32 + 1,
        }
    }

    /// Returns `most` of these workers, or all if they are no more.
    pub fn at_most(self, most: u32) -> Workers<'b, 'a>
        requires workers { AreWorkers self }
        requires some { 0 < most }
        ensures workers { AreWorkers result }
        ensures count { worker_count result ≡ min (worker_count self.entry) most }
    {
        match self {
            Workers::ToStart(count) => Workers::ToStart(count.min(most)),
            Workers::Running(boxes) => {
                // The last ones were started first.
                let beside = boxes.len().min(most as usize - 1);
                Workers::Running(&boxes[boxes.len() - beside..])
            }
        }
    }
}

/// Returns the letter boxes of the workers beside the caller's thread, where they are `count` with it. None if memory is
/// refused: then the caller's thread is alone.
pub fn boxes_beside<'a>(alloc: Global, count: u32) -> Vec<LetterBox<'a>>
    requires { (0 < count) × (count ≤ MAX_WORKERS) }
    ensures { vec_len result < MAX_WORKERS }
{
    match letter_boxes(alloc, count - 1) {
        Ok(boxes) => boxes,
        Err(AllocError) => Vec::new(alloc),
    }
}
