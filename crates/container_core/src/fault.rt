//! Why a plaintext wasn't sealed, and why a container wasn't opened. The texts are those that the program prints.
ghost use Rattle.std.specs.Prelude.{◌≡◌, Some};
ghost use Rattle.container_core.specs.Faults.{open_text, seal_text};

use std::error::Error;
use std::fmt;

/// Why a container wasn't opened. The first eight are tested in this order. Bytes that begin as version 2 have another:
/// `ShortHeader` (fewer than 24 bytes), `BadExponent`, `KeyMismatch`, `ShortHeader` (the header ends too early),
/// `TooLong`, `BadLength`, `Forged`. No function of this crate returns `Read` or `Write`.
#[derive(Clone, Copy, PartialEq, Eq, Debug)]
pub enum OpenFault {
    /// More bytes than the container of the greatest plaintext allowed.
    TooLong,
    /// Fewer bytes than a header has: 24, or in version 2 25 and those of the label.
    ShortHeader,
    /// Bytes 0 to 7 aren't `STRMSEAL`.
    BadMagic,
    /// Byte 8 is neither 1 nor 2.
    BadVersion,
    /// Byte 9 isn't 16, or in version 2 isn't 12 to 20.
    BadExponent,
    /// Bytes 17 to 23 aren't the key's hint.
    KeyMismatch,
    /// The bytes after the header can't be cut into chunks.
    BadLength,
    /// The first chunk whose tag differs, by its number.
    Forged { chunk: u32 },
    /// Memory was refused.
    OutOfMemory,
    /// The reader failed.
    Read,
    /// The writer failed.
    Write,
}

impl OpenFault {
    ghost use Rattle.container_core.specs.Faults.{open_number};

    /// The fault's number.
    pub fn number(self) -> u32
        ensures { result ≡ open_number self }
    {
        match self {
            OpenFault::TooLong => 1,
            OpenFault::ShortHeader => 2,
            OpenFault::BadMagic => 3,
            OpenFault::BadVersion => 4,
            OpenFault::BadExponent => 5,
            OpenFault::KeyMismatch => 6,
            OpenFault::BadLength => 7,
            OpenFault::Forged { chunk: _ } => 8,
            OpenFault::OutOfMemory => 9,
            OpenFault::Read => 10,
            OpenFault::Write => 16,
        }
    }
}

impl fmt::Display for OpenFault {
    ghost output = { λ fault. Some (open_text fault) };

    fn fmt<W: fmt::Write>(&self, f: &mut fmt::Formatter<W>) -> fmt::Result {
        match *self {
            OpenFault::TooLong => write!(f, "too long"),
            OpenFault::ShortHeader => write!(f, "header cut short"),
            OpenFault::BadMagic => write!(f, "not a sealed file"),
            OpenFault::BadVersion => write!(f, "unknown version"),
            OpenFault::BadExponent => write!(f, "unknown chunk size"),
            OpenFault::KeyMismatch => write!(f, "sealed under another key"),
            OpenFault::BadLength => write!(f, "wrong length"),
            OpenFault::Forged { chunk } => write!(f, "chunk {chunk} does not check"),
            OpenFault::OutOfMemory => write!(f, "out of memory"),
            OpenFault::Read => write!(f, "read failed"),
            OpenFault::Write => write!(f, "write failed"),
        }
    }
}

impl Error for OpenFault {}

/// Why a plaintext wasn't sealed. `seal` never returns `Read`, `Write` or `TooManyChunks`.
#[derive(Clone, Copy, PartialEq, Eq, Debug)]
pub enum SealFault {
    /// More bytes than the greatest plaintext allowed.
    TooLong,
    /// Memory was refused.
    OutOfMemory,
    /// The reader failed.
    Read,
    /// The writer failed.
    Write,
    /// A byte follows the most chunks that a stream may have.
    TooManyChunks,
}

impl SealFault {
    ghost use Rattle.container_core.specs.Faults.{seal_number};

    /// The fault's number.
    pub fn number(self) -> u32
        ensures { result ≡ seal_number self }
    {
        match self {
            SealFault::TooLong => 11,
            SealFault::OutOfMemory => 12,
            SealFault::Read => 13,
            SealFault::Write => 14,
            SealFault::TooManyChunks => 15,
        }
    }
}

impl fmt::Display for SealFault {
    ghost output = { λ fault. Some (seal_text fault) };

    fn fmt<W: fmt::Write>(&self, f: &mut fmt::Formatter<W>) -> fmt::Result {
        match *self {
            SealFault::TooLong => write!(f, "too long"),
            SealFault::OutOfMemory => write!(f, "out of memory"),
            SealFault::Read => write!(f, "read failed"),
            SealFault::Write => write!(f, "write failed"),
            SealFault::TooManyChunks => write!(f, "too many chunks"),
        }
    }
}

impl Error for SealFault {}
