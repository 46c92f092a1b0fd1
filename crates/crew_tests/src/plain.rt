//! The prefix and plaintexts of the tests, and how to damage containers.
ghost use Rattle.std.specs.Prelude.{◌≡◌, length, IfOk};

use std::alloc::{AllocError, Global};

/// Device 1, file 0.
pub const PREFIX: [u8; 7] = [0, 0, 1, 0, 0, 0, 0];

/// Returns `count` zero bytes.
pub fn zeros(alloc: Global, count: usize) -> Result<Vec<u8>, AllocError>
    ensures { IfOk result (λ v. length v.items ≡ count) }
{
    vec![in alloc; 0; count]
}

fn fill(bytes: &mut [u8]) {
    for (i, byte) in bytes.iter_mut().enumerate() {
        *byte = (i % 251) as u8;
    }
}

/// Returns `count` bytes that don't repeat at a chunk's length: byte i is i modulo 251.
pub fn pattern(alloc: Global, count: usize) -> Result<Vec<u8>, AllocError>
    ensures { IfOk result (λ v. length v.items ≡ count) }
{
    let mut bytes = zeros(alloc, count)?;
    fill(bytes.as_mut_slice());
    Ok(bytes)
}

/// Flips bits of one byte; does nothing if `place` is past the end.
pub fn flip(bytes: &mut [u8], place: usize, bits: u8) {
    if let Some(byte) = bytes.get_mut(place) {
        *byte ^= bits;
    }
}
