//! A reader and a writer in memory. Their contracts give their bytes, and they fail by a schedule.
ghost use Rattle.std.specs.Prelude.{◌≡◌, ◌≤◌, ◌<◌, [], Some, true, IfSome, IfOk, is_none};
ghost use Rattle.io_core.specs.Streams.{counted};
ghost use Rattle.io_memory.specs.Memory.{reading, writing};

use io_core::{Failed, Sink, Source};
use std::alloc::{AllocError, Global};
use std::marker::Model;

/// Which calls of a reader or a writer in memory fail.
#[derive(Clone, Copy, PartialEq, Eq, Debug)]
pub enum Schedule {
    /// None.
    Never,
    /// Only this call, counted from 0.
    Call(u64),
    /// Each call after this many bytes were moved. The call that reaches the number moves no byte past it.
    Bytes(u64),
}

// How many bytes a call moves, and which calls fail.
#[derive(Clone, Copy)]
struct Pace {
    // The most bytes of a call; 0 is taken as 1.
    most: usize,
    schedule: Schedule,
    failures: Option<u64>,
}

fn one_more(count: Option<u64>) -> Option<u64>
    ensures { result ≡ counted true count }
{
    match count {
        None => None,
        Some(n) => { if n < u64::MAX { Some(n + 1) } else { None } }
    }
}

impl Pace {
    // How many of `wanted` bytes this call moves, or `None` if it fails.
    fn step(&mut self, wanted: usize) -> Option<usize>
        ensures within { IfSome result (λ n. n ≤ wanted) }
        ensures some { IfSome result (λ n. 0 < wanted → 0 < n) }
        ensures count { self.new.failures ≡ counted (is_none result) self.old.failures }
    {
        let moved = wanted.min(self.most.max(1));
        match self.schedule {
            Schedule::Never => Some(moved),
            Schedule::Call(0) => {
                self.schedule = Schedule::Never;
                self.failures = one_more(self.failures);
                None
            }
            Schedule::Call(n) => {
                self.schedule = Schedule::Call(n - 1);
                Some(moved)
            }
            Schedule::Bytes(0) => {
                self.failures = one_more(self.failures);
                None
            }
            Schedule::Bytes(n) => {
                let moved = (moved as u64).min(n);
                self.schedule = Schedule::Bytes(n - moved);
                Some(moved as usize)
            }
        }
    }
}

/// A reader of bytes in memory.
#[derive(Drop)]
pub struct FromMemory<'a> {
    rest: &'a [u8],
    pace: Pace,
}

impl<'a> Model for FromMemory<'a> {
    ghost use Rattle.io_memory.specs.Memory.{Reading, reading};

    ghost Value = { Reading };

    ghost view = { λ s. reading s.rest.now s.pace.failures };
}

impl<'a> FromMemory<'a> {
    /// Makes a reader of these bytes. A call returns at most `most` bytes (0 is taken as 1) and fails by the schedule.
    pub fn new(bytes: &'a [u8], most: usize, schedule: Schedule) -> FromMemory<'a>
        ensures { result ≡ reading bytes.entry.now (Some 0) }
    {
        let pace = Pace {
            most,
            schedule,
            failures: Some(0),
        };
        FromMemory { rest: bytes, pace }
    }
}

impl<'a> Source for FromMemory<'a> {
    ghost left = { λ s. Some s.left };

    ghost failures = { λ s. s.failures };

    fn read(&mut self, buffer: &mut [u8]) -> Result<usize, Failed> {
        let rest = self.rest;
        let Some(n) = self.pace.step(rest.len().min(buffer.len())) else {
            return Err(Failed);
        };
        buffer[..n].copy_from_slice(&rest[..n]);
        self.rest = &rest[n..];
        Ok(n)
    }
}

/// A writer that keeps the bytes it takes. If memory for them is refused, the call fails.
#[derive(Drop)]
pub struct ToMemory {
    bytes: Vec<u8>,
    pace: Pace,
}

impl Model for ToMemory {
    ghost use Rattle.io_memory.specs.Memory.{Writing, writing};

    ghost Value = { Writing };

    ghost view = { λ s. writing s.bytes.items s.pace.failures };
}

impl ToMemory {
    /// Makes a writer with room for `room` bytes. A call takes at most `most` bytes (0 is taken as 1) and fails by the
    /// schedule.
    pub fn new(
        alloc: Global,
        room: usize,
        most: usize,
        schedule: Schedule,
    ) -> Result<ToMemory, AllocError>
        ensures { IfOk result (λ sink. sink ≡ writing [] (Some 0)) }
    {
        let bytes = Vec::with_capacity(alloc, room)?;
        let pace = Pace {
            most,
            schedule,
            failures: Some(0),
        };
        Ok(ToMemory { bytes, pace })
    }

    /// Returns the bytes that were taken.
    pub fn bytes(&self) -> &[u8]
        ensures { result.now ≡ self.now.taken }
    {
        self.bytes.as_slice()
    }
}

impl Sink for ToMemory {
    ghost taken = { λ s. Some s.taken };

    ghost failures = { λ s. s.failures };

    fn write(&mut self, bytes: &[u8]) -> Result<usize, Failed> {
        let Some(n) = self.pace.step(bytes.len()) else {
            return Err(Failed);
        };
        if self.bytes.extend_from_slice(&bytes[..n]).is_err() {
            self.pace.failures = one_more(self.pace.failures);
            return Err(Failed);
        }
        Ok(n)
    }
}
