//! Readers of the files of a folder in memory, and how they and the writers move their bytes.
ghost use Rattle.std.specs.Prelude.{◌≤◌, length};

use io_core::{Failed, Source};
use io_memory::{FromMemory, Schedule};

/// How a reader or a writer moves its bytes: the most bytes of a call, and the schedule of failures.
#[derive(Clone, Copy, PartialEq, Eq, Debug)]
pub struct Pace {
    /// The most bytes of a call. 0 is taken as 1.
    pub most: usize,
    /// Which calls fail.
    pub schedule: Schedule,
}

/// All bytes at once, and no call fails.
pub const STEADY: Pace = Pace {
    most: usize::MAX,
    schedule: Schedule::Never,
};

/// A reader of the bytes that a file had when it was opened.
#[derive(Drop)]
pub struct MemoryReader {
    pub(crate) bytes: Vec<u8>,
    pub(crate) at: usize,
    // How many calls it had, and how many bytes they moved, in all readings.
    calls: u64,
    moved: u64,
    pace: Pace,
    // Whether a call failed.
    pub(crate) failed: bool,
    ghost inside: { at ≤ length bytes.items },
}

impl MemoryReader {
    // A reader of all these bytes.
    pub(crate) fn new(bytes: Vec<u8>, pace: Pace) -> MemoryReader {
        MemoryReader {
            bytes,
            at: 0,
            calls: 0,
            moved: 0,
            pace,
            failed: false,
        }
    }
}

impl Source for MemoryReader {
    fn read(&mut self, buffer: &mut [u8]) -> Result<usize, Failed> {
        let at = self.at;
        let schedule = schedule_after(self.pace.schedule, self.calls, self.moved);
        self.calls = self.calls.saturating_add(1);
        let mut rest = FromMemory::new(&self.bytes.as_slice()[at..], self.pace.most, schedule);
        let n = match rest.read(buffer) {
            Ok(n) => n,
            Err(Failed) => {
                self.failed = true;
                return Err(Failed);
            }
        };
        self.at += n;
        self.moved = self.moved.saturating_add(n as u64);
        Ok(n)
    }
}

// What is left of a schedule after `calls` calls that moved `bytes` bytes.
fn schedule_after(schedule: Schedule, calls: u64, bytes: u64) -> Schedule {
    match schedule {
        Schedule::Never => Schedule::Never,
        Schedule::Call(number) => {
            if number < calls {
                Schedule::Never
            } else {
                Schedule::Call(number - calls)
            }
        }
        Schedule::Bytes(most) => Schedule::Bytes(most.saturating_sub(bytes)),
    }
}
