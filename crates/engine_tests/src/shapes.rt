//! Version 2: chunks of 2^12, 2^16 and 2^20 bytes with labels of 0, 1 and 255 bytes, sealed and opened with all
//! engines. The digests are from Python's `cryptography` and `hashlib`.
ghost use Rattle.std.specs.Prelude.{◌<◌, ◌≤◌};
ghost use Rattle.container_core.specs.Chunks.{most_chunk};

use crate::containers::SHAPED;
use crate::openings::opens_in;
use crate::windows::LIMIT;
use container_core::{Shape, seal};
use crew_core::{Free, MAX_WINDOW, MAX_WORKERS};
use crew_tests::{PREFIX, counting_key, grant_of, is_digest, pattern};
use io_memory::{FromMemory, Schedule, ToMemory};
use ledger_core::Way;
use opening_core::{open_one, run_open_by, verify_one};
use sealing_core::run_seal_by;
use std::alloc::Global;
use std::sync::Wait;
use std::thread::Threads;
use std::time::Clock;

const MOST: usize = usize::MAX;

// The length of a header of version 2 before its label.
pub(crate) const FRONT: usize = 25;

static LABEL: [u8; 255] = [0x61; 255];

// Version 2 with a label of `label` bytes.
fn shape_of(exponent: u32, label: usize) -> Option<Shape> {
    Shape::two(exponent, &LABEL[..label.min(255)]).ok()
}

// The plaintext bytes of a full chunk.
pub(crate) fn size_of(exponent: u32) -> usize
    ensures { result ≤ most_chunk }
{
    match exponent {
        12 => 4096,
        16 => 65_536,
        _ => 1_048_576,
    }
}

// The container of a plaintext in version 2, for device 1 and file 0.
pub(crate) fn container_of(
    alloc: Global,
    exponent: u32,
    label: usize,
    plain: &[u8],
) -> Option<Vec<u8>> {
    let shape = shape_of(exponent, label)?;
    seal(alloc, &counting_key(), &shape, PREFIX, plain).ok()
}

// Whether a plaintext is sealed to these bytes.
fn seals_to<R: Threads + Wait + Sync>(
    rt: &R,
    alloc: Global,
    shape: &Shape,
    plain: &[u8],
    bytes: &[u8],
    workers: u32,
    window: u32,
) -> Option<bool>
    requires workers { (0 < workers) × (workers ≤ MAX_WORKERS) }
    requires window { (0 < window) × (window ≤ MAX_WINDOW) }
{
    let key = counting_key();
    let mut reader = FromMemory::new(plain, 70_001, Schedule::Never);
    let mut writer = ToMemory::new(alloc, 64, MOST, Schedule::Never).ok()?;
    let grant = grant_of(alloc, 0)?;
    let mut kept = Vec::new(alloc);
    let (result, spent) = run_seal_by(
        rt,
        alloc,
        &key,
        shape,
        grant,
        &mut reader,
        &mut writer,
        LIMIT,
        workers,
        window,
        &Free,
        &mut kept,
    );
    let is_sealed = result == Ok(plain.len() as u64) && spent.way() == Way::Sealed;
    Some(is_sealed && writer.bytes() == bytes)
}

// Whether a container opens to this plaintext, and all of it is written.
fn opens_to<R: Threads + Clock + Sync>(
    rt: &R,
    alloc: Global,
    bytes: &[u8],
    plain: &[u8],
    workers: u32,
    window: u32,
) -> Option<bool>
    requires workers { (0 < workers) × (workers ≤ MAX_WORKERS) }
    requires window { (0 < window) × (window ≤ MAX_WINDOW) }
{
    let key = counting_key();
    let mut reader = FromMemory::new(bytes, 70_001, Schedule::Never);
    let mut writer = ToMemory::new(alloc, 64, MOST, Schedule::Never).ok()?;
    let result = run_open_by(
        rt,
        alloc,
        &key,
        &mut reader,
        &mut writer,
        LIMIT,
        workers,
        window,
        &Free,
    );
    Some(result == Ok(plain.len() as u64) && writer.bytes() == plain)
}

// The same for the engines of one thread.
fn opens_by_one(alloc: Global, bytes: &[u8], plain: &[u8]) -> Option<bool> {
    let key = counting_key();
    let mut reader = FromMemory::new(bytes, 1001, Schedule::Never);
    let mut writer = ToMemory::new(alloc, 64, MOST, Schedule::Never).ok()?;
    let opened = open_one(alloc, &key, &mut reader, &mut writer, LIMIT);
    let mut reader = FromMemory::new(bytes, MOST, Schedule::Never);
    let verified = verify_one(alloc, &key, &mut reader, LIMIT);
    let count = Ok(plain.len() as u64);
    Some(opened == count && verified == count && writer.bytes() == plain)
}

// Whether 1 and 4 workers in two windows make this container, and all engines open it.
fn goes_round<R: Threads + Clock + Wait + Sync>(
    rt: &R,
    alloc: Global,
    shape: &Shape,
    plain: &[u8],
    bytes: &[u8],
) -> bool {
    for (workers, window) in [(1, 1), (4, 1), (1, 3), (4, 3)] {
        if seals_to(rt, alloc, shape, plain, bytes, workers, window) != Some(true)
            || opens_to(rt, alloc, bytes, plain, workers, window) != Some(true)
            || opens_in(rt, alloc, bytes, plain, workers, window) != Some(true)
        {
            return false;
        }
    }
    opens_by_one(alloc, bytes, plain) == Some(true)
}

// The container of `length` bytes of the pattern, if all engines make and open it.
fn made_by_all<R: Threads + Clock + Wait + Sync>(
    rt: &R,
    alloc: Global,
    exponent: u32,
    label: usize,
    length: usize,
) -> Option<Vec<u8>> {
    let plain = pattern(alloc, length).ok()?;
    let bytes = container_of(alloc, exponent, label, plain.as_slice())?;
    let shape = shape_of(exponent, label)?;
    if goes_round(rt, alloc, &shape, plain.as_slice(), bytes.as_slice()) {
        Some(bytes)
    } else {
        None
    }
}

// Whether all engines make and open the container of `count` bytes, and it has this length and digest.
fn is_known<R: Threads + Clock + Wait + Sync>(
    rt: &R,
    alloc: Global,
    exponent: u32,
    label: usize,
    count: usize,
    length: usize,
    digest: &[u8; 32],
) -> bool {
    match made_by_all(rt, alloc, exponent, label, count) {
        Some(bytes) => is_digest(bytes.as_slice(), length, digest),
        None => false,
    }
}

#[test]
fn containers_made_elsewhere(rt: HostRuntime) {
    for (exponent, label, count, length, digest) in &SHAPED {
        assert!(rt;
            is_known(&rt, rt.alloc(), *exponent, *label, *count, *length, digest),
            "{exponent} {label}"
        );
    }
}

// Whether all engines make and open the containers of no byte, one byte, a full chunk, and a byte more.
fn all_lengths_go_round<R: Threads + Clock + Wait + Sync>(
    rt: &R,
    alloc: Global,
    exponent: u32,
    label: usize,
) -> bool {
    let size = size_of(exponent);
    for length in [0, 1, size, size + 1] {
        if made_by_all(rt, alloc, exponent, label, length).is_none() {
            return false;
        }
    }
    true
}

// Exponents and label lengths.
static ASKED: [(u32, usize); 7] = [
    (12, 0),
    (12, 1),
    (12, 255),
    (16, 0),
    (16, 1),
    (16, 255),
    (20, 1),
];

#[test]
fn all_lengths_are_made_and_opened(rt: HostRuntime) {
    for (exponent, label) in &ASKED {
        assert!(rt;
            all_lengths_go_round(&rt, rt.alloc(), *exponent, *label),
            "{exponent} {label}"
        );
    }
    // More than one round, in each window.
    assert!(rt; made_by_all(&rt, rt.alloc(), 12, 1, 81_921).is_some());
}
