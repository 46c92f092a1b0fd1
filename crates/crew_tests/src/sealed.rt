//! Containers sealed and opened with any number of workers. The expected digests are from Python's `cryptography` and
//! `hashlib`.
ghost use Rattle.std.specs.Prelude.{◌<◌, ◌≤◌, length};

use crate::{EIGHT, EIGHTEEN, ZERO_BYTES, ZEROS, counting_key, grant_of, is_digest, pattern};
use container_core::{MAX_PLAIN, OpenFault, Shape};
use crew_core::{Free, Gate, MAX_WORKERS, open_whole, seal_whole};
use ledger_core::{Spent, Way};
use std::alloc::{AllocError, Global};
use std::thread::Threads;

// The empty plaintext, file 0: 40 bytes.
static EMPTY: [u8; 32] = [
    0xd3, 0xc5, 0x91, 0x6e, 0x88, 0x96, 0xf4, 0x57, 0xcd, 0x10, 0x35, 0xf6, 0xc8, 0x2a, 0xe1, 0x19,
    0x5d, 0xfe, 0xcf, 0xe8, 0x5c, 0x44, 0xb4, 0x0b, 0x99, 0xa2, 0xa5, 0x48, 0x9a, 0x57, 0xda, 0x05,
];

// Whether a number of device 1 was spent in this way.
pub fn is_spent(spent: &Spent, number: u32, way: Way) -> bool {
    spent.number() == number && spent.device().number() == 1 && spent.way() == way
}

// Tries once to seal a container in a shape under a grant of this number. The number's way must match the result.
fn tried<R: Threads + Sync, G: Gate + Sync>(
    rt: &R,
    alloc: Global,
    shape: &Shape,
    number: u32,
    plain: &[u8],
    workers: u32,
    gate: &G,
) -> Option<Result<Vec<u8>, AllocError>>
    requires plain { length plain.now ≤ MAX_PLAIN }
    requires workers { (0 < workers) × (workers ≤ MAX_WORKERS) }
{
    let grant = grant_of(alloc, number)?;
    let key = counting_key();
    let (result, spent) = seal_whole(rt, alloc, &key, shape, grant, plain, workers, gate);
    let way = if result.is_ok() {
        Way::Sealed
    } else {
        Way::Void
    };
    if is_spent(&spent, number, way) {
        Some(result)
    } else {
        None
    }
}

// The container of a plaintext in a shape under a grant of this number. An injected refusal of memory makes the number
// void, and is tried again.
pub fn sealed_in<R: Threads + Sync, G: Gate + Sync>(
    rt: &R,
    alloc: Global,
    shape: &Shape,
    number: u32,
    plain: &[u8],
    workers: u32,
    gate: &G,
) -> Option<Vec<u8>>
    requires plain { length plain.now ≤ MAX_PLAIN }
    requires workers { (0 < workers) × (workers ≤ MAX_WORKERS) }
{
    match tried(rt, alloc, shape, number, plain, workers, gate)? {
        Ok(bytes) => Some(bytes),
        Err(AllocError) => tried(rt, alloc, shape, number, plain, workers, gate)?.ok(),
    }
}

// The same for version 1.
pub fn sealed<R: Threads + Sync, G: Gate + Sync>(
    rt: &R,
    alloc: Global,
    number: u32,
    plain: &[u8],
    workers: u32,
    gate: &G,
) -> Option<Vec<u8>>
    requires plain { length plain.now ≤ MAX_PLAIN }
    requires workers { (0 < workers) × (workers ≤ MAX_WORKERS) }
{
    sealed_in(rt, alloc, &Shape::one(), number, plain, workers, gate)
}

// Whether `workers` workers open a container to this plaintext. An injected refusal of memory is tried again.
pub fn opens_to<R: Threads + Sync, G: Gate + Sync>(
    rt: &R,
    alloc: Global,
    bytes: &[u8],
    plain: &[u8],
    workers: u32,
    gate: &G,
) -> bool
    requires { (0 < workers) × (workers ≤ MAX_WORKERS) }
{
    let key = counting_key();
    let back = match open_whole(rt, alloc, &key, bytes, workers, gate) {
        Err(OpenFault::OutOfMemory) => open_whole(rt, alloc, &key, bytes, workers, gate),
        result => result,
    };
    match back {
        Ok(back) => back.as_slice() == plain,
        Err(_) => false,
    }
}

// Whether `workers` workers seal a plaintext to these bytes.
fn seals_to<R: Threads + Sync>(
    rt: &R,
    alloc: Global,
    number: u32,
    plain: &[u8],
    workers: u32,
    bytes: &[u8],
) -> bool
    requires plain { length plain.now ≤ MAX_PLAIN }
    requires workers { (0 < workers) × (workers ≤ MAX_WORKERS) }
{
    match sealed(rt, alloc, number, plain, workers, &Free) {
        Some(sealed) => sealed.as_slice() == bytes,
        None => false,
    }
}

// Whether any number of workers seals a plaintext to the same container, with this length and digest.
fn is_sealed_by_any<R: Threads + Sync>(
    rt: &R,
    alloc: Global,
    number: u32,
    plain: &[u8],
    count: usize,
    digest: &[u8; 32],
) -> Option<bool>
    requires plain { length plain.now ≤ MAX_PLAIN }
{
    let first = sealed(rt, alloc, number, plain, 1, &Free)?;
    let first = first.as_slice();
    for workers in 2..17 {
        if !seals_to(rt, alloc, number, plain, workers, first) {
            return Some(false);
        }
    }
    Some(is_digest(first, count, digest))
}

// The same for a plaintext of `bytes` bytes of the pattern.
fn is_pattern_sealed_by_any<R: Threads + Sync>(
    rt: &R,
    alloc: Global,
    number: u32,
    bytes: usize,
    count: usize,
    digest: &[u8; 32],
) -> Option<bool>
    requires { bytes ≤ MAX_PLAIN }
{
    let plain = pattern(alloc, bytes).ok()?;
    is_sealed_by_any(rt, alloc, number, plain.as_slice(), count, digest)
}

// Two chunks, and more chunks than workers.
#[test]
fn any_number_of_workers_gives_one_container(rt: HostRuntime) {
    let alloc = rt.alloc();
    assert!(rt; is_sealed_by_any(&rt, alloc, 0, &ZERO_BYTES, 65_593, &ZEROS) == Some(true));
    let eighteen = is_pattern_sealed_by_any(&rt, alloc, 258, 1_114_113, 1_114_425, &EIGHTEEN);
    assert!(rt; eighteen == Some(true));
}

// Whether workers seal a plaintext to bytes of this length and digest, and workers open them to it. The two numbers of
// workers are for sealing and for opening.
fn is_made<R: Threads + Sync>(
    rt: &R,
    alloc: Global,
    number: u32,
    plain: &[u8],
    workers: (u32, u32),
    count: usize,
    digest: &[u8; 32],
) -> bool
    requires plain { length plain.now ≤ MAX_PLAIN }
    requires sealing { (0 < workers.0) × (workers.0 ≤ MAX_WORKERS) }
    requires opening { (0 < workers.1) × (workers.1 ≤ MAX_WORKERS) }
{
    let (sealing, opening) = workers;
    match sealed(rt, alloc, number, plain, sealing, &Free) {
        Some(bytes) => {
            let bytes = bytes.as_slice();
            is_digest(bytes, count, digest) && opens_to(rt, alloc, bytes, plain, opening, &Free)
        }
        None => false,
    }
}

// The same for a plaintext of `bytes` bytes of the pattern.
fn is_pattern_made<R: Threads + Sync>(
    rt: &R,
    alloc: Global,
    number: u32,
    bytes: usize,
    workers: (u32, u32),
    count: usize,
    digest: &[u8; 32],
) -> Option<bool>
    requires plain { bytes ≤ MAX_PLAIN }
    requires sealing { (0 < workers.0) × (workers.0 ≤ MAX_WORKERS) }
    requires opening { (0 < workers.1) × (workers.1 ≤ MAX_WORKERS) }
{
    let plain = pattern(alloc, bytes).ok()?;
    Some(is_made(rt, alloc, number, plain.as_slice(), workers, count, digest))
}

// The empty plaintext is one empty chunk.
#[test]
fn containers_are_sealed_and_opened(rt: HostRuntime) {
    let alloc = rt.alloc();
    assert!(rt; is_made(&rt, alloc, 0, b"", (1, 1), 40, &EMPTY));
    assert!(rt; is_made(&rt, alloc, 0, b"", (2, 2), 40, &EMPTY));
    assert!(rt; is_made(&rt, alloc, 0, b"", (16, 16), 40, &EMPTY));
    let eight = is_pattern_made(&rt, alloc, 0, 524_288, (3, 16), 524_440, &EIGHT);
    assert!(rt; eight == Some(true));
    let eighteen = is_pattern_made(&rt, alloc, 258, 1_114_113, (16, 4), 1_114_425, &EIGHTEEN);
    assert!(rt; eighteen == Some(true));
}

// When memory for a growth or a claim word is refused, the helpers check the result and call again. Opening returns
// `OutOfMemory`, and sealing makes the number void.
#[test]
fn a_refused_growth_is_out_of_memory(rt: HostRuntime) {
    assert!(rt; is_made(&rt, rt.alloc(), 0, &ZERO_BYTES, (2, 2), 65_593, &ZEROS));
}
