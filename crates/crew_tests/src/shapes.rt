//! Containers of version 2, in chunks of 4 KiB and of 1 MiB, with several workers. They must equal what one thread
//! seals, and their digests are from Python's `cryptography` and `hashlib`. A round has 1,024 of the small chunks or 4
//! of the large ones.
ghost use Rattle.std.specs.Prelude.{◌<◌, ◌≤◌, length};

use crate::damaged::is_refused_for;
use crate::sealed::{opens_to, sealed_in};
use crate::{PREFIX, counting_key, flip, is_digest, pattern};
use container_core::{MAX_PLAIN, Shape, TAG, seal};
use container_tests::EMPTY_TWO;
use crew_core::{Free, MAX_WORKERS};
use std::alloc::Global;
use std::test::Fail;
use std::thread::Threads;

// The label of all these containers but the empty one.
const LABEL: &[u8] = b"db-dump";

// The length of their headers in bytes.
const FRONT: usize = 25 + 7;

// 4,198,401 bytes of the pattern in chunks of 4 KiB: 1,026 chunks, the last of one byte, 4,214,849 bytes.
static SMALL: [u8; 32] = [
    0xd5, 0xcc, 0xc6, 0x96, 0x52, 0x9f, 0x22, 0xbe, 0x9e, 0x54, 0xf6, 0x6d, 0xb9, 0x8c, 0xca, 0x51,
    0x61, 0x54, 0xc7, 0x49, 0x6e, 0x07, 0x92, 0xf8, 0x54, 0x65, 0xac, 0x96, 0x61, 0x4e, 0x35, 0x3f,
];

// 1,048,577 bytes of the pattern in chunks of 1 MiB: 2 chunks, the last of one byte, 1,048,641 bytes.
static GREAT: [u8; 32] = [
    0x44, 0x65, 0xa2, 0x83, 0xaa, 0xb5, 0xd2, 0xcf, 0x7c, 0x6d, 0x55, 0xc7, 0xff, 0xf2, 0xa4, 0xe9,
    0xdb, 0x6a, 0x08, 0x76, 0x5f, 0xc3, 0x38, 0xe5, 0x8e, 0x08, 0x55, 0xad, 0x93, 0x57, 0x68, 0x4e,
];

// 16,385 bytes of the pattern in chunks of 4 KiB: 5 chunks, the last of one byte, 16,497 bytes.
static FIVE: [u8; 32] = [
    0xb1, 0xad, 0xcb, 0x23, 0xb6, 0xd5, 0x7e, 0xc8, 0x3d, 0x62, 0x32, 0xa6, 0x67, 0xeb, 0xb3, 0x52,
    0x7e, 0xb9, 0xbb, 0x51, 0xd1, 0x76, 0x18, 0x46, 0x7f, 0xcd, 0xf6, 0x98, 0x11, 0x92, 0xaf, 0x1b,
];

// Whether `workers` workers seal a plaintext to these bytes, and open them to it.
fn is_made_by<R: Threads + Sync>(
    rt: &R,
    alloc: Global,
    shape: &Shape,
    plain: &[u8],
    workers: u32,
    bytes: &[u8],
) -> bool
    requires plain { length plain.now ≤ MAX_PLAIN }
    requires workers { (0 < workers) × (workers ≤ MAX_WORKERS) }
{
    match sealed_in(rt, alloc, shape, 0, plain, workers, &Free) {
        Some(sealed) => {
            sealed.as_slice() == bytes && opens_to(rt, alloc, bytes, plain, workers, &Free)
        }
        None => false,
    }
}

// The container of a plaintext in chunks of 2^exponent bytes, if 1, 4 and 16 workers seal and open it as one thread
// does.
fn made_by_all<R: Threads + Sync>(
    rt: &R,
    alloc: Global,
    exponent: u32,
    plain: &[u8],
) -> Option<Vec<u8>>
    requires plain { length plain.now ≤ MAX_PLAIN }
{
    let shape = Shape::two(exponent, LABEL).ok()?;
    let whole = seal(alloc, &counting_key(), &shape, PREFIX, plain).ok()?;
    for workers in [1, 4, 16] {
        if !is_made_by(rt, alloc, &shape, plain, workers, whole.as_slice()) {
            return None;
        }
    }
    Some(whole)
}

// Flips one ciphertext bit of chunk `number` in a container with chunks of `chunk` bytes.
fn damage(bytes: &mut [u8], chunk: usize, number: u16) {
    if chunk <= 1 << 20 {
        flip(bytes, FRONT + number as usize * (chunk + TAG), 4);
    }
}

// Whether opening with 1 and with 4 workers fails with `Forged` for this chunk.
fn is_refused_by_both<R: Threads + Sync>(rt: &R, alloc: Global, bytes: &[u8], chunk: u32) -> bool {
    is_refused_for(rt, alloc, bytes, 1, chunk) && is_refused_for(rt, alloc, bytes, 4, chunk)
}

#[test]
fn five_small_chunks(rt: HostRuntime) -> Result<(), Fail> {
    let plain = pattern(rt.alloc(), 16_385)?;
    let mut bytes = made_by_all(&rt, rt.alloc(), 12, plain.as_slice()).ok_or("another container")?;
    assert!(rt; is_digest(bytes.as_slice(), 16_497, &FIVE));
    damage(bytes.as_mut_slice(), 1 << 12, 4);
    damage(bytes.as_mut_slice(), 1 << 12, 2);
    assert!(rt; is_refused_by_both(&rt, rt.alloc(), bytes.as_slice(), 2));
    Ok(())
}

// The empty plaintext, one empty chunk, with the label `ab`. Its 43 bytes are from `cryptography`.
#[test]
fn no_byte_under_another_label(rt: HostRuntime) -> Result<(), Fail> {
    let shape = Shape::two(12, b"ab")?;
    for workers in [1, 4, 16] {
        assert!(rt; is_made_by(&rt, rt.alloc(), &shape, b"", workers, &EMPTY_TWO));
    }
    Ok(())
}

// The container that four workers seal of `length` bytes of the pattern, in chunks of 2^exponent bytes, and open again.
fn made_by_four<R: Threads + Sync>(
    rt: &R,
    alloc: Global,
    exponent: u32,
    length: usize,
) -> Option<Vec<u8>>
    requires { length ≤ MAX_PLAIN }
{
    let shape = Shape::two(exponent, LABEL).ok()?;
    let plain = pattern(alloc, length).ok()?;
    let plain = plain.as_slice();
    let bytes = sealed_in(rt, alloc, &shape, 0, plain, 4, &Free)?;
    if opens_to(rt, alloc, bytes.as_slice(), plain, 4, &Free) {
        Some(bytes)
    } else {
        None
    }
}

// More chunks than one round: two of the second round don't check.
#[test]
fn two_rounds_of_small_chunks(rt: HostRuntime) -> Result<(), Fail> {
    let mut bytes = made_by_four(&rt, rt.alloc(), 12, 4_198_401).ok_or("not made")?;
    assert!(rt; is_digest(bytes.as_slice(), 4_214_849, &SMALL));
    damage(bytes.as_mut_slice(), 1 << 12, 1_025);
    damage(bytes.as_mut_slice(), 1 << 12, 1_024);
    assert!(rt; is_refused_for(&rt, rt.alloc(), bytes.as_slice(), 4, 1_024));
    Ok(())
}

#[test]
fn two_great_chunks(rt: HostRuntime) -> Result<(), Fail> {
    let bytes = made_by_four(&rt, rt.alloc(), 20, 1_048_577).ok_or("not made")?;
    assert!(rt; is_digest(bytes.as_slice(), 1_048_641, &GREAT));
    Ok(())
}
