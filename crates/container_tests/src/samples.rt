//! What tests and measurements share: a key, prefixes, a label, and containers made by `cryptography`.
use container_core::{Key, SealFault, Shape, seal};
use std::alloc::Global;

/// 00 01 .. 1f.
pub const COUNTING: [u8; 32] = [
    0, 1, 2, 3, 4, 5, 6, 7, 8, 9, 10, 11, 12, 13, 14, 15, 16, 17, 18, 19, 20, 21, 22, 23, 24, 25,
    26, 27, 28, 29, 30, 31,
];

/// The key 00 01 .. 1f.
pub fn counting_key() -> Key {
    Key::new(COUNTING)
}

/// Returns the prefix of device 1 and this file number.
pub fn prefix_of(file: u8) -> [u8; 7] {
    [0, 0, 1, 0, 0, 0, file]
}

/// The container of the empty plaintext under this key, file 0.
pub static EMPTY: [u8; 40] = [
    0x53, 0x54, 0x52, 0x4d, 0x53, 0x45, 0x41, 0x4c, 0x01, 0x10, 0x00, 0x00, 0x01, 0x00, 0x00, 0x00,
    0x00, 0x63, 0x0d, 0xcd, 0x29, 0x66, 0xc4, 0x33, 0x27, 0x55, 0xaa, 0x90, 0x44, 0xd3, 0x91, 0x66,
    0x88, 0xa3, 0x63, 0xf0, 0x4a, 0x03, 0x69, 0x2e,
];

/// The same in version 2, with exponent 12 and the label `ab`.
pub static EMPTY_TWO: [u8; 43] = [
    0x53, 0x54, 0x52, 0x4d, 0x53, 0x45, 0x41, 0x4c, 0x02, 0x0c, 0x00, 0x00, 0x01, 0x00, 0x00, 0x00,
    0x00, 0x63, 0x0d, 0xcd, 0x29, 0x66, 0xc4, 0x33, 0x02, 0x61, 0x62, 0xae, 0x6a, 0xf0, 0xa1, 0xe6,
    0xbc, 0xb3, 0xfa, 0x11, 0xa2, 0x05, 0xc7, 0xe9, 0x8b, 0x46, 0xf5,
];

// A label of 255 bytes.
static LABEL: [u8; 255] =
    *b"A label names what a container holds, as its owner calls it: a path, a title, or a number of his \
    own. It stands behind the first 24 bytes of the header as it is, is no secret and is bound by the tags \
    of all chunks. It has from 0 to 255 bytes, as this one.";

/// Returns a label of `bytes` bytes, at most 255.
pub fn label_of(bytes: usize) -> &'static [u8] {
    &LABEL[..bytes.min(255)]
}

/// Returns the container of `count` zero bytes in this shape, for this file.
pub fn zeros_sealed(
    alloc: Global,
    key: &Key,
    shape: &Shape,
    file: u8,
    count: usize,
) -> Result<Vec<u8>, SealFault> {
    match vec![in alloc; 0; count] {
        Ok(plain) => seal(alloc, key, shape, prefix_of(file), plain.as_slice()),
        Err(_) => Err(SealFault::OutOfMemory),
    }
}
