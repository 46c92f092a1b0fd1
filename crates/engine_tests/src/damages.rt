//! Version 2: containers that are cut or altered, or with chunks exchanged or moved. All engines refuse them as the
//! tables of `container_tests` say, before anything is written. The format fixes the faults. The first bad chunk is
//! named, even after a thousand good ones.
ghost use Rattle.std.specs.Prelude.{◌<◌, ◌≤◌};

use crate::shapes::{FRONT, container_of, size_of};
use crate::windows::{LIMIT, fault_in};
use container_core::{OpenFault, TAG};
use container_tests::{CHUNK_COUNT, Case, SHAPES, chunk_cases, header_cases, header_count};
use crew_core::{Free, MAX_WORKERS};
use crew_tests::{counting_key, flip, is_digest, pattern, zeros};
use io_memory::{FromMemory, Schedule, ToMemory};
use opening_core::{run_open, run_read, run_verify, verify_one};
use std::alloc::Global;
use std::test::Fail;
use std::thread::Threads;
use std::time::Clock;

const MOST: usize = usize::MAX;

// The fault for these bytes with `workers` workers, if opening and verifying agree and nothing is written.
fn refusal_by<R: Threads + Clock + Sync>(
    rt: &R,
    alloc: Global,
    bytes: &[u8],
    workers: u32,
) -> Option<OpenFault>
    requires workers { (0 < workers) × (workers ≤ MAX_WORKERS) }
{
    let key = counting_key();
    let mut reader = FromMemory::new(bytes, 70_001, Schedule::Never);
    let verified = run_verify(rt, alloc, &key, &mut reader, LIMIT, workers, &Free);
    let mut reader = FromMemory::new(bytes, MOST, Schedule::Never);
    let mut writer = ToMemory::new(alloc, 64, MOST, Schedule::Never).ok()?;
    let opened = run_open(
        rt,
        alloc,
        &key,
        &mut reader,
        &mut writer,
        LIMIT,
        workers,
        &Free,
    );
    if opened == verified && writer.bytes().is_empty() {
        opened.err()
    } else {
        None
    }
}

// The fault with one thread.
fn refusal_by_one(alloc: Global, bytes: &[u8]) -> Option<OpenFault> {
    let mut reader = FromMemory::new(bytes, MOST, Schedule::Never);
    verify_one(alloc, &counting_key(), &mut reader, LIMIT).err()
}

// The fault for these bytes, if all agree: one thread, 1 and 4 workers, and 2 workers in windows of one chunk.
pub(crate) fn refusal_of<R: Threads + Clock + Sync>(
    rt: &R,
    alloc: Global,
    bytes: &[u8],
) -> Option<OpenFault> {
    let fault = refusal_by_one(alloc, bytes);
    let is_one = fault_in(rt, alloc, bytes, LIMIT, 2, 1) == fault
        && refusal_by(rt, alloc, bytes, 1) == fault
        && refusal_by(rt, alloc, bytes, 4) == fault;
    if is_one { fault } else { None }
}

// Whether all engines refuse the bytes of a case with the expected fault.
fn is_refused<R: Threads + Clock + Sync>(rt: &R, alloc: Global, case: &Case) -> bool {
    match refusal_of(rt, alloc, case.bytes()) {
        Some(fault) => case.is_answered(&Err(fault)),
        None => false,
    }
}

// Whether there are `count` cases, and all but the first (a good container) are refused.
fn are_refused<R: Threads + Clock + Sync>(
    rt: &R,
    alloc: Global,
    cases: &[Case],
    count: usize,
) -> bool {
    let Some(damaged) = cases.get(1..) else {
        return false;
    };
    for case in damaged {
        if !is_refused(rt, alloc, case) {
            return false;
        }
    }
    cases.len() == count
}

#[test]
fn damaged_headers_are_refused(rt: HostRuntime) -> Result<(), Fail> {
    for (exponent, label) in &SHAPES {
        let cases = header_cases(rt.alloc(), *exponent, *label)?;
        assert!(rt;
            are_refused(&rt, rt.alloc(), cases.as_slice(), header_count(*label)),
            "{exponent} {label}"
        );
    }
    Ok(())
}

// Containers that are cut, or have chunks exchanged, inserted again, removed, or taken from another file.
#[test]
fn damaged_chunks_are_refused(rt: HostRuntime) -> Result<(), Fail> {
    for (exponent, label) in &SHAPES {
        let cases = chunk_cases(rt.alloc(), *exponent, *label)?;
        assert!(rt;
            are_refused(&rt, rt.alloc(), cases.as_slice(), CHUNK_COUNT),
            "{exponent} {label}"
        );
    }
    Ok(())
}

// The place of a byte changed in a container of two whole chunks and a byte: how many whole chunks after the header,
// plus how many bytes, minus how many. Then the chunk that is named.
static CHANGES: [(u8, u8, u8, u32); 8] = [
    (0, 0, 0, 0),
    (1, 0, 17, 0),
    (1, 0, 16, 0),
    (1, 0, 1, 0),
    (1, 0, 0, 1),
    (2, 0, 1, 1),
    (2, 0, 0, 2),
    (2, 16, 0, 2),
];

// Whether each of these changes is detected. A header has `header` bytes, and a sealed chunk `sealed`.
fn are_seen<R: Threads + Clock + Sync>(
    rt: &R,
    alloc: Global,
    bytes: &mut [u8],
    header: usize,
    sealed: usize,
) -> bool
    requires header { header ≤ 280 }
    requires sealed { sealed ≤ 1048592 }
{
    for (chunks, more, less, chunk) in &CHANGES {
        let most = header + usize::from(*chunks) * sealed + usize::from(*more);
        let place = most.saturating_sub(usize::from(*less));
        flip(bytes, place, 1);
        if refusal_of(rt, alloc, bytes) != Some(OpenFault::Forged { chunk: *chunk }) {
            return false;
        }
        flip(bytes, place, 1);
    }
    true
}

// The container of two whole chunks of the pattern and a byte.
fn three_chunks(alloc: Global, exponent: u32, label: usize) -> Option<Vec<u8>> {
    let size = size_of(exponent);
    let plain = pattern(alloc, 2 * size + 1).ok()?;
    let bytes = container_of(alloc, exponent, label, plain.as_slice())?;
    if bytes.len() == FRONT + label.min(255) + 2 * (size + TAG) + 1 + TAG {
        Some(bytes)
    } else {
        None
    }
}

// Whether they are detected in the container with this exponent and a label of `label` bytes.
fn are_named<R: Threads + Clock + Sync>(
    rt: &R,
    alloc: Global,
    exponent: u32,
    label: usize,
) -> Option<bool> {
    let mut bytes = three_chunks(alloc, exponent, label)?;
    let header = FRONT + label.min(255);
    let sealed = size_of(exponent) + TAG;
    Some(are_seen(rt, alloc, bytes.as_mut_slice(), header, sealed))
}

#[test]
fn changed_chunks_are_named(rt: HostRuntime) {
    for (exponent, label) in &SHAPES {
        assert!(rt;
            are_named(&rt, rt.alloc(), *exponent, *label) == Some(true),
            "{exponent} {label}"
        );
    }
}

// A label length that is one too great leaves a last chunk without a byte of plaintext.
fn is_length_wrong<R: Threads + Clock + Sync>(rt: &R, alloc: Global) -> Option<bool> {
    let mut bytes = three_chunks(alloc, 12, 0)?;
    flip(bytes.as_mut_slice(), FRONT - 1, 1);
    Some(refusal_of(rt, alloc, bytes.as_slice()) == Some(OpenFault::BadLength))
}

#[test]
fn a_longer_label_is_a_wrong_length(rt: HostRuntime) {
    assert!(rt; is_length_wrong(&rt, rt.alloc()) == Some(true));
}

// The SHA-256 (from Python's `hashlib`) of the container that `cryptography` made of 4,501,505 zero bytes. It has
// chunks of 4 KiB and an empty label: 1,100 chunks, the last of one byte.
static MANY: [u8; 32] = [
    0x4b, 0x08, 0x48, 0x35, 0x1d, 0x29, 0xfb, 0xca, 0xd0, 0x99, 0xff, 0xca, 0x22, 0x9b, 0x46, 0x57,
    0xb8, 0x25, 0xac, 0x50, 0x48, 0xfc, 0x1d, 0x38, 0x83, 0x7e, 0x86, 0x9e, 0x68, 0x4d, 0xda, 0x8f,
];

// The length of a sealed chunk of 4 KiB.
const SMALL: usize = 4_112;

// That container with chunks 1,090 and 1,060 changed.
fn late_damaged(alloc: Global) -> Option<Vec<u8>> {
    let plain = zeros(alloc, 4_501_505).ok()?;
    let mut bytes = container_of(alloc, 12, 0, plain.as_slice())?;
    if !is_digest(bytes.as_slice(), 4_519_130, &MANY) {
        return None;
    }
    flip(bytes.as_mut_slice(), FRONT + 1_090 * SMALL, 1);
    flip(bytes.as_mut_slice(), FRONT + 1_060 * SMALL, 1);
    Some(bytes)
}

// The fault of `run_read` for these bytes with `workers` workers.
fn read_refusal<R: Threads + Clock + Sync>(
    rt: &R,
    alloc: Global,
    bytes: &[u8],
    workers: u32,
) -> Option<OpenFault>
    requires workers { (0 < workers) × (workers ≤ MAX_WORKERS) }
{
    let mut reader = FromMemory::new(bytes, MOST, Schedule::Never);
    run_read(
        rt,
        alloc,
        &counting_key(),
        &mut reader,
        LIMIT,
        workers,
        &Free,
    )
    .err()
}

// Whether all engines name chunk 1,060, also in windows of 256 chunks.
fn is_late_named<R: Threads + Clock + Sync>(rt: &R, alloc: Global) -> Option<bool> {
    let damaged = late_damaged(alloc)?;
    let bytes = damaged.as_slice();
    let fault = Some(OpenFault::Forged { chunk: 1_060 });
    Some(
        refusal_of(rt, alloc, bytes) == fault
            && fault_in(rt, alloc, bytes, LIMIT, 4, 256) == fault
            && read_refusal(rt, alloc, bytes, 1) == fault
            && read_refusal(rt, alloc, bytes, 4) == fault,
    )
}

#[test]
fn the_least_bad_chunk_behind_many_is_named(rt: HostRuntime) {
    assert!(rt; is_late_named(&rt, rt.alloc()) == Some(true));
}
