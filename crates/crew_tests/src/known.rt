//! Containers of version 1 with digests from Python's `cryptography` and `hashlib`.
use crate::plain::PREFIX;
use container_core::{Shape, seal};
use container_tests::samples::counting_key;
use sha2::{Digest, Sha256};
use std::alloc::Global;

/// 65,537 zero bytes, without an allocation.
pub static ZERO_BYTES: [u8; 65_537] = [0; 65_537];

/// The length of their container in bytes.
pub const ZEROS_SEALED: usize = 65_593;

/// The digest of their container as file 0.
pub static ZEROS: [u8; 32] = [
    0x09, 0x45, 0xc8, 0xfb, 0xab, 0xf2, 0x3b, 0x7b, 0xdb, 0x61, 0xd4, 0x5d, 0x8e, 0x2b, 0x69, 0x57,
    0x92, 0x3e, 0x22, 0x49, 0x9b, 0xda, 0x51, 0xae, 0x09, 0xa1, 0xfa, 0x7c, 0xb8, 0x36, 0xbf, 0x66,
];

/// 524,288 bytes of the pattern, file 0: eight full chunks, 524,440 bytes.
pub static EIGHT: [u8; 32] = [
    0xd0, 0x43, 0x45, 0xf9, 0x6f, 0x03, 0x74, 0xa9, 0x91, 0x59, 0xd9, 0x6a, 0x0a, 0x2d, 0xc3, 0xaf,
    0x5e, 0xd7, 0x99, 0xe1, 0xa3, 0x27, 0x4b, 0xeb, 0xb1, 0x43, 0x30, 0x32, 0x92, 0xcc, 0x6b, 0x50,
];

/// 1,114,113 bytes of the pattern, file 258: 18 chunks, the last of one byte, 1,114,425 bytes.
pub static EIGHTEEN: [u8; 32] = [
    0x72, 0x41, 0xd5, 0x9b, 0xb0, 0x99, 0x37, 0xdd, 0x38, 0x25, 0x07, 0x61, 0x97, 0x91, 0x91, 0x80,
    0x15, 0x9d, 0x2d, 0x11, 0x54, 0x18, 0x75, 0x4c, 0xbb, 0xb1, 0x3f, 0xc3, 0x97, 0x62, 0x97, 0x0a,
];

/// Whether there are `count` bytes, with this digest.
pub fn is_digest(bytes: &[u8], count: usize, digest: &[u8; 32]) -> bool {
    bytes.len() == count && Sha256::digest(bytes) == *digest
}

fn zeros_once(alloc: Global) -> Option<Vec<u8>> {
    seal(alloc, &counting_key(), &Shape::one(), PREFIX, &ZERO_BYTES).ok()
}

/// Returns the container of `ZERO_BYTES`. An injected refusal of memory comes once, so the second try succeeds.
pub fn sealed_zeros(alloc: Global) -> Option<Vec<u8>> {
    let bytes = match zeros_once(alloc) {
        None => zeros_once(alloc)?,
        Some(bytes) => bytes,
    };
    if is_digest(bytes.as_slice(), ZEROS_SEALED, &ZEROS) {
        Some(bytes)
    } else {
        None
    }
}
