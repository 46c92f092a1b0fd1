//! A reader of a file in memory.
ghost use Rattle.std.specs.Prelude.{◌≡◌, ◌≤◌, Some, drop, length};

use crate::pages::one_more;
use io_core::{Failed, Source};

/// A reader of the bytes that a file had when it was opened. Its next `reads` reads succeed, and all after them fail.
#[derive(Drop)]
pub struct MemoryReader {
    pub(crate) bytes: Vec<u8>,
    pub(crate) at: usize,
    pub(crate) reads: u64,
    pub(crate) failures: Option<u64>,
    ghost inside: { at ≤ length bytes.items },
}

impl Source for MemoryReader {
    ghost left = { λ r. Some (drop r.at r.bytes.items) };

    ghost failures = { λ r. r.failures };

    fn read(&mut self, buffer: &mut [u8]) -> Result<usize, Failed> {
        if self.reads == 0 {
            self.failures = one_more(self.failures);
            return Err(Failed);
        }
        self.reads -= 1;
        let n = buffer.len().min(self.bytes.len() - self.at);
        buffer[..n].copy_from_slice(&self.bytes.as_slice()[self.at..self.at + n]);
        self.at += n;
        Ok(n)
    }
}
