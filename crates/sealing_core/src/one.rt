//! Sealing on one thread. The plaintext is read whole before anything is written, so every fault but a failed write
//! leaves the writer as it was.
ghost use Rattle.std.specs.Prelude.{◌≡◌, ◌≢◌, ◌≤◌, Err};
ghost use Rattle.container_core.specs.Shape.{one};
ghost use Rattle.sealing_core.specs.Engine.{HasReadPlain, HasWrittenContainer};
ghost use Rattle.io_core.specs.Streams.{IsAtEnd};
ghost use Rattle.io_core.specs.Views.{io_view};

use crate::reading::read_plain;
use container_core::{Key, MAX_PLAIN, SealFault, Shape, seal};
use io_core::{Failed, Sink, Source, write_all};
use std::alloc::Global;

/// Reads all of an input of at most `max_bytes` bytes (2^40 at most). Writes its container of version 1 under a key and
/// a prefix. Returns the input's length. At `TooLong` one byte more was read, and no other. At `TooLong`, `OutOfMemory`
/// and `Read` nothing was written. At `Write` the whole input was read, and a proper prefix of its container was
/// written.
pub fn seal_one<R: Source, W: Sink>(
    alloc: Global,
    key: &Key,
    prefix: [u8; 7],
    reader: &mut R,
    writer: &mut W,
    max_bytes: u64,
) -> Result<u64, SealFault>
    requires { max_bytes ≤ MAX_PLAIN }
    ensures reads { HasReadPlain max_bytes (R.left reader.old) (R.left reader.new)
        (R.failures reader.old) (R.failures reader.new) result }
    ensures all_read { result ≡ Err SealFault.Write → IsAtEnd (R.left reader.new) }
    ensures by_bytes { result ≢ Err SealFault.TooManyChunks }
    ensures writes { HasWrittenContainer key.now one prefix max_bytes
        (io_view (R.left reader.old) (R.failures reader.old) (W.taken writer.old) (W.failures writer.old))
        (io_view (R.left reader.new) (R.failures reader.new) (W.taken writer.new) (W.failures writer.new)) result }
{
    let plain = read_plain(alloc, reader, Vec::new(alloc), max_bytes, 0)?;
    let bytes = seal(alloc, key, &Shape::one(), prefix, plain.as_slice())?;
    match write_all(writer, bytes.as_slice()) {
        Ok(()) => Ok(plain.len() as u64),
        Err(Failed) => Err(SealFault::Write),
    }
}
