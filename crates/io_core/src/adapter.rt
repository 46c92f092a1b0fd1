//! The readers and writers of `std` as a `Source` and a `Sink`.
//!
//! A call interrupted by a signal is repeated until it isn't, at most 2^64 - 1 times. Any other error is a failure. No
//! contract says this, since the contracts of std's readers and writers don't mention errors.
ghost use Rattle.std.specs.Prelude.{◌≡◌};

use crate::stream::{Failed, Sink, Source};
use std::io::{ErrorKind, Read, Write};

/// A reader of `std`. Its remaining bytes are known if that reader's are; its count of failures is unknown.
#[derive(Drop)]
pub struct FromRead<R: Drop>(pub R);

impl<R: Read + Drop> Source for FromRead<R> {
    ghost left = { λ s. R.remaining s.0 };

    // Repeats a read interrupted by a signal; the count bounds the loop.
    fn read(&mut self, buffer: &mut [u8]) -> Result<usize, Failed> {
        for _ in 0..u64::MAX {
            match self.0.read(buffer) {
                Ok(n) => return Ok(n),
                Err(e) => {
                    if e.kind() != ErrorKind::Interrupted {
                        return Err(Failed);
                    }
                }
            }
        }
        Err(Failed)
    }
}

/// A writer of `std`. The bytes that it took are known if that writer's are; its count of failures is unknown.
#[derive(Drop)]
pub struct ToWrite<W: Drop>(pub W);

impl<W: Write + Drop> Sink for ToWrite<W> {
    ghost taken = { λ s. W.contents s.0 };

    // Repeats a write interrupted by a signal; the count bounds the loop. A write of 0 bytes of a nonempty slice is a
    // failure.
    fn write(&mut self, bytes: &[u8]) -> Result<usize, Failed> {
        for _ in 0..u64::MAX {
            match self.0.write(bytes) {
                Ok(0) if !bytes.is_empty() => return Err(Failed),
                Ok(n) => return Ok(n),
                Err(e) => {
                    if e.kind() != ErrorKind::Interrupted {
                        return Err(Failed);
                    }
                }
            }
        }
        Err(Failed)
    }
}
