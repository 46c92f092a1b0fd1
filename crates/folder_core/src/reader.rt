//! Readers of files, which may be read once more from the first byte.
ghost use Rattle.std.specs.Prelude.{◌≡◌, ℕ, List, None, Some, Option, OnOk, IfSome, is_err};
ghost use Rattle.std.specs.Io.{ReadsAtMost};
ghost use Rattle.io_core.specs.Streams.{ReadConsumes, counted};

use io_core::{Failed, Source};
use std::marker::Brand;

/// A reader of a file.
pub trait FileReader: Source {
    // All bytes of the file, as they were when it was opened, if known.
    ghost whole: { Self → Option (List ℕ) } = { λ _. None };

    /// Reads as `Source::read` does, and remains a reader of the same file.
    fn read_on(&mut self, buffer: &mut [u8]) -> Result<usize, Failed>
        ensures bound { ReadsAtMost result buffer.new }
        ensures bytes { ReadConsumes (Self.left self.old) (Self.left self.new) result buffer.new }
        ensures count { Self.failures self.new ≡ counted (is_err result) (Self.failures self.old) }
        ensures whole { whole self.new ≡ whole self.old };

    /// Goes back to the file's first byte. Fails if the file can't be read again.
    fn again(&mut self) -> Result<(), Failed>
        ensures again { OnOk result (IfSome (whole self.old) (λ bytes. Self.left self.new ≡ Some bytes)) }
        ensures whole { whole self.new ≡ whole self.old };
}

/// Names all bytes of a file, in proofs alone.
pub trait WholeFile {
    ghost whole: { Option (List ℕ) };
}

// A call that passes `Brand` picks the bytes.
impl WholeFile for Brand {
    ghost whole = { None };
}
