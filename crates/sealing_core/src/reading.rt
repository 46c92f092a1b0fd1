//! Reading a plaintext to its end. A reader's fault becomes the engine's.
ghost use Rattle.std.specs.Prelude.{◌≡◌, ◌≢◌, ◌≤◌, vec_len, Err, IfOk};
ghost use Rattle.io_core.specs.Streams.{Consumes};
ghost use Rattle.sealing_core.specs.Engine.{HasReadPlain};

use container_core::{MAX_PLAIN, SealFault};
use io_core::{ReadFault, Source, read_to_limit};
use std::alloc::Global;

/// Reads a plaintext of at most `max_bytes` bytes to its end, into the memory of `room` if it fits the `expected` bytes.
/// Of a longer one, one more byte is read.
pub fn read_plain<R: Source>(
    alloc: Global,
    reader: &mut R,
    room: Vec<u8>,
    max_bytes: u64,
    expected: u64,
) -> Result<Vec<u8>, SealFault>
    requires { max_bytes ≤ MAX_PLAIN }
    ensures plain { IfOk result (λ plain. Consumes (R.left reader.old) (R.left reader.new) plain.items) }
    ensures within { IfOk result (λ plain. vec_len plain ≤ max_bytes) }
    ensures no_write { result ≢ Err SealFault.Write }
    ensures by_bytes { result ≢ Err SealFault.TooManyChunks }
    ensures reads { HasReadPlain max_bytes (R.left reader.old) (R.left reader.new)
        (R.failures reader.old) (R.failures reader.new) result }
{
    match read_to_limit(alloc, reader, room, max_bytes, expected) {
        Ok(plain) => Ok(plain),
        Err(ReadFault::TooLong) => Err(SealFault::TooLong),
        Err(ReadFault::OutOfMemory) => Err(SealFault::OutOfMemory),
        Err(ReadFault::Read) => Err(SealFault::Read),
    }
}
