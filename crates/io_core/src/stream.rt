//! Readers and writers whose contracts see the bytes and count the failures.
//!
//! What either knows of its bytes, or of its failures, is an option. Contracts over a reader and a writer are about
//! what these know. If the bytes are known, a proof is about the bytes that go in and out.
ghost use Rattle.std.specs.Prelude.{◌≡◌, ℕ, ◌<◌, List, length, None, Option, IfOk, is_err};
ghost use Rattle.std.specs.Io.{ReadsAtMost, WritesAtMost};
ghost use Rattle.io_core.specs.Streams.{ReadConsumes, WriteAppends, counted};

use thiserror::Error;

/// A call of a reader or a writer failed.
#[derive(Clone, Copy, PartialEq, Eq, Debug, Error)]
#[error("failed")]
pub struct Failed;

/// A reader.
pub trait Source {
    // The bytes that later reads return, if known.
    ghost left: { Self → Option (List ℕ) } = { λ _. None };

    // How many calls failed so far, if known.
    ghost failures: { Self → Option ℕ } = { λ _. None };

    /// Reads into the front of `buffer`, and returns the number of bytes. A read of 0 bytes into a nonempty buffer is
    /// the end. A failed read consumes nothing, and raises the count of failures by one (past 2^64 - 1 it is unknown).
    fn read(&mut self, buffer: &mut [u8]) -> Result<usize, Failed>
        ensures bound { ReadsAtMost result buffer.new }
        ensures bytes { ReadConsumes (left self.old) (left self.new) result buffer.new }
        ensures count { failures self.new ≡ counted (is_err result) (failures self.old) };
}

/// A writer.
pub trait Sink {
    // The bytes that the writer took, if known.
    ghost taken: { Self → Option (List ℕ) } = { λ _. None };

    // How many calls failed so far, if known.
    ghost failures: { Self → Option ℕ } = { λ _. None };

    /// Takes a front of `bytes`, and returns its length. A write of a nonempty slice takes at least one byte, or fails.
    /// A failed write takes none, and raises the count of failures by one (past 2^64 - 1 it is unknown).
    fn write(&mut self, bytes: &[u8]) -> Result<usize, Failed>
        ensures bound { WritesAtMost result bytes.now }
        ensures some { IfOk result (λ n. 0 < length bytes.now → 0 < n) }
        ensures bytes { WriteAppends (taken self.old) (taken self.new) result bytes.now }
        ensures count { failures self.new ≡ counted (is_err result) (failures self.old) };
}
