//! Functions that read a whole input, or fill a buffer from it.
//!
//! A failed read is never taken for the end. Only a read of 0 bytes into a nonempty buffer is the end.
ghost use Rattle.std.specs.Prelude.{◌≡◌, ◌+◌, ◌<◌, ◌≤◌, ◌^◌, length, take, vec_len, Err, is_err, IfOk, OnOk, OnErr};
ghost use Rattle.std.specs.Io.{ReadsAtMost};
ghost use Rattle.io_core.specs.Streams.{Consumes, IsAtEnd, counted};
ghost use Rattle.io_core.specs.Reads.{ConsumesExactly, ConsumesFewer, ConsumesUpTo, is_read};

use crate::stream::{Failed, Source};
use std::alloc::{AllocError, Global};

/// Why an input wasn't read to its end.
#[derive(Clone, Copy, PartialEq, Eq, Debug)]
pub enum ReadFault {
    /// It has more bytes than allowed.
    TooLong,
    /// Memory allocation failed.
    OutOfMemory,
    /// The reader failed.
    Read,
}

// Most bytes requested from the reader in one call where more are wanted: whoever watches sees how far it is.
const PART: usize = 1 << 22;

/// Reads until the buffer is full or the input ends, and returns the number of bytes read. On failure the buffer isn't
/// full.
pub fn fill<R: Source>(source: &mut R, buffer: &mut [u8]) -> Result<usize, Failed>
    ensures bound { ReadsAtMost result buffer.new }
    ensures bytes { IfOk result (λ n. Consumes (R.left source.old) (R.left source.new) (take n buffer.new)) }
    ensures end { IfOk result (λ n. n < length buffer.new → IsAtEnd (R.left source.new)) }
    ensures err { OnErr result (ConsumesUpTo (R.left source.old) (R.left source.new) (length buffer.new)) }
    ensures room { OnErr result (ConsumesFewer (R.left source.old) (R.left source.new) (length buffer.new)) }
    ensures count { R.failures source.new ≡ counted (is_err result) (R.failures source.old) }
{
    let mut filled = 0;
    while filled < buffer.len() {
        let end = filled + (buffer.len() - filled).min(PART);
        let n = source.read(&mut buffer[filled..end])?;
        if n == 0 {
            return Ok(filled);
        }
        filled += n;
    }
    Ok(filled)
}

// Most bytes requested in one call after those that were expected.
const WINDOW: usize = 1 << 14;

// How many bytes more than needed a room may have.
const SPARE: usize = 1 << 20;

// Makes a buffer of at least `size` bytes from `room`, or anew if that has room for fewer or for far more.
fn sized(alloc: Global, mut room: Vec<u8>, size: usize) -> Result<Vec<u8>, AllocError>
    ensures { IfOk result (λ bytes. size ≤ vec_len bytes) }
{
    if room.capacity() < size || room.capacity() - size > SPARE {
        drop(room);
        return vec![in alloc; 0; size];
    }
    if room.len() < size {
        room.resize(size, 0)?;
    }
    Ok(room)
}

/// Reads to the end of an input of at most `max` bytes. From a longer input it reads exactly `max` + 1 bytes, and
/// returns `TooLong`. `expected` bytes, or `max` if that is less, are read into the memory of `room` if it fits, or else
/// into new memory, so they aren't copied. The input may have another length. Nothing that `room` held is returned.
pub fn read_to_limit<R: Source>(
    alloc: Global,
    source: &mut R,
    room: Vec<u8>,
    max: u64,
    expected: u64,
) -> Result<Vec<u8>, ReadFault>
    requires { max < 2 ^ 63 }
    ensures bytes { IfOk result (λ bytes. Consumes (R.left source.old) (R.left source.new) bytes.items) }
    ensures end { OnOk result (IsAtEnd (R.left source.new)) }
    ensures within { IfOk result (λ bytes. vec_len bytes ≤ max) }
    ensures too_long { result ≡ Err ReadFault.TooLong
        → ConsumesExactly (R.left source.old) (R.left source.new) (max + 1) }
    ensures err { OnErr result (ConsumesUpTo (R.left source.old) (R.left source.new) (max + 1)) }
    ensures count { R.failures source.new ≡ counted (is_read result) (R.failures source.old) }
{
    let limit = max as usize + 1;
    let size = expected.min(max) as usize;
    let Ok(mut bytes) = sized(alloc, room, size) else {
        return Err(ReadFault::OutOfMemory);
    };
    let (whole, _) = bytes.as_mut_slice().split_at_mut(size);
    let Ok(n) = fill(source, whole) else {
        return Err(ReadFault::Read);
    };
    bytes.truncate(n);
    if n < size {
        return Ok(bytes);
    }
    let mut window = [0; WINDOW];
    while bytes.len() < limit {
        let most = (limit - bytes.len()).min(WINDOW);
        match source.read(&mut window[..most]) {
            Ok(0) => return Ok(bytes),
            Ok(n) => {
                if bytes.extend_from_slice(&window[..n]).is_err() {
                    return Err(ReadFault::OutOfMemory);
                }
            }
            Err(Failed) => return Err(ReadFault::Read),
        }
    }
    Err(ReadFault::TooLong)
}
