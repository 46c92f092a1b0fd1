//! Containers of several windows that open, empty containers where no byte is allowed, and readers that fail in any
//! window.
use crate::containers::{ONE, ONE_OF_TWO};
use crate::windows::{LIMIT, fault_of, forty_chunks};
use container_core::{CHUNK, HEADER, OpenFault, SEALED, Shape, seal};
use container_tests::{EMPTY, EMPTY_TWO};
use crew_core::{Free, MAX_WINDOW, MAX_WORKERS};
use crew_tests::{PREFIX, counting_key, pattern};
use io_memory::{FromMemory, Schedule, ToMemory};
use opening_core::{run_open, run_plain, run_plain_by, run_verify, run_verify_by};
use std::alloc::Global;
use std::test::Fail;
use std::thread::Threads;
use std::time::Clock;

const MOST: usize = usize::MAX;

// Whether the container of the empty plaintext opens and verifies where no byte is allowed, and writes nothing.
fn is_empty_opened<R: Threads + Clock + Sync>(
    rt: &R,
    alloc: Global,
    bytes: &[u8],
    workers: u32,
) -> Option<bool> {
    if workers == 0 || workers > MAX_WORKERS {
        return None;
    }
    let key = counting_key();
    let mut reader = FromMemory::new(bytes, MOST, Schedule::Never);
    let verified = run_verify(rt, alloc, &key, &mut reader, 0, workers, &Free);
    let mut reader = FromMemory::new(bytes, MOST, Schedule::Never);
    let mut writer = ToMemory::new(alloc, 64, MOST, Schedule::Never).ok()?;
    let opened = run_open(rt, alloc, &key, &mut reader, &mut writer, 0, workers, &Free);
    Some(verified == Ok(0) && opened == Ok(0) && writer.bytes().is_empty())
}

// Whether no byte is then opened, and one byte is too long.
fn is_none_allowed<R: Threads + Clock + Sync>(
    rt: &R,
    alloc: Global,
    empty: &[u8],
    one: &[u8],
) -> bool {
    for workers in [1, 4] {
        if is_empty_opened(rt, alloc, empty, workers) != Some(true)
            || fault_of(rt, alloc, one, 0, workers) != Some(OpenFault::TooLong)
        {
            return false;
        }
    }
    true
}

// Version 1, and version 2 with a label of two bytes in the header.
#[test]
fn no_plaintext_byte_allowed(rt: HostRuntime) {
    assert!(rt; is_none_allowed(&rt, rt.alloc(), &EMPTY, &ONE));
    assert!(rt; is_none_allowed(&rt, rt.alloc(), &EMPTY_TWO, &ONE_OF_TWO));
}

// Whether a container opens to this plaintext and verifies, with `workers` workers in windows of `window` chunks.
pub(crate) fn opens_in<R: Threads + Clock + Sync>(
    rt: &R,
    alloc: Global,
    bytes: &[u8],
    plain: &[u8],
    workers: u32,
    window: u32,
) -> Option<bool> {
    if workers == 0 || workers > MAX_WORKERS || window == 0 || window > MAX_WINDOW {
        return None;
    }
    let key = counting_key();
    let mut reader = FromMemory::new(bytes, MOST, Schedule::Never);
    let verified = run_verify_by(rt, alloc, &key, &mut reader, LIMIT, workers, window, &Free);
    let mut reader = FromMemory::new(bytes, 70_001, Schedule::Never);
    match run_plain_by(rt, alloc, &key, &mut reader, LIMIT, workers, window, &Free) {
        Ok(opened) => Some(opened.as_slice() == plain && verified == Ok(plain.len() as u64)),
        Err(_) => None,
    }
}

// Whether it does with these workers and windows.
fn all_open<R: Threads + Clock + Sync>(rt: &R, alloc: Global, bytes: &[u8], plain: &[u8]) -> bool {
    for (workers, window) in [(1, 16), (3, 16), (2, 1), (4, 5), (3, 256)] {
        if opens_in(rt, alloc, bytes, plain, workers, window) != Some(true) {
            return false;
        }
    }
    true
}

// The same for `length` bytes of the pattern.
fn are_opened<R: Threads + Clock + Sync>(rt: &R, alloc: Global, length: usize) -> Option<bool> {
    let plain = pattern(alloc, length).ok()?;
    let plain = plain.as_slice();
    let bytes = seal(alloc, &counting_key(), &Shape::one(), PREFIX, plain).ok()?;
    Some(all_open(rt, alloc, bytes.as_slice(), plain))
}

static WHOLE: [usize; 4] = [16 * CHUNK - 1, 16 * CHUNK, 16 * CHUNK + 1, 32 * CHUNK];

#[test]
fn whole_windows_open(rt: HostRuntime) {
    for length in &WHOLE {
        assert!(rt;
            are_opened(&rt, rt.alloc(), *length) == Some(true),
            "{length}"
        );
    }
}

// Whether opening and verifying fail with `Read` if the reader fails after `after` bytes, with nothing written.
fn is_failure_seen<R: Threads + Clock + Sync>(
    rt: &R,
    alloc: Global,
    bytes: &[u8],
    after: u64,
    workers: u32,
) -> Option<bool> {
    if workers == 0 || workers > MAX_WORKERS {
        return None;
    }
    let key = counting_key();
    let mut reader = FromMemory::new(bytes, MOST, Schedule::Bytes(after));
    let mut writer = ToMemory::new(alloc, 64, MOST, Schedule::Never).ok()?;
    let opened = run_open(
        rt,
        alloc,
        &key,
        &mut reader,
        &mut writer,
        LIMIT,
        workers,
        &Free,
    );
    let mut reader = FromMemory::new(bytes, MOST, Schedule::Bytes(after));
    let verified = run_verify(rt, alloc, &key, &mut reader, LIMIT, workers, &Free);
    let mut reader = FromMemory::new(bytes, MOST, Schedule::Bytes(after));
    let plain = run_plain(rt, alloc, &key, &mut reader, LIMIT, workers, &Free).err();
    let failed = Err(OpenFault::Read);
    let both = opened == failed && verified == failed;
    Some(both && plain == Some(OpenFault::Read) && writer.bytes().is_empty())
}

// Whether each of these numbers of workers reports it at each of `places`.
pub(crate) fn are_failures_seen<R: Threads + Clock + Sync>(
    rt: &R,
    alloc: Global,
    bytes: &[u8],
    places: &[u64],
    workers: &[u32],
) -> bool {
    for after in places {
        for count in workers {
            if is_failure_seen(rt, alloc, bytes, *after, *count) != Some(true) {
                return false;
            }
        }
    }
    true
}

// Places in a container of 40 chunks: in the header, and in the first, second and third window.
static FAILED_READS: [u64; 7] = [
    0,
    23,
    24,
    HEADER as u64 + 5,
    (HEADER + 16 * SEALED) as u64,
    (HEADER + 16 * SEALED) as u64 + 1,
    (HEADER + 35 * SEALED) as u64,
];

// A reader that fails in any window causes `Read`, and no other fault.
#[test]
fn a_failed_read_in_any_window_is_read_failed(rt: HostRuntime) -> Result<(), Fail> {
    let bytes = forty_chunks(rt.alloc()).ok_or("no container")?;
    assert!(rt; are_failures_seen(&rt, rt.alloc(), bytes.as_slice(), &FAILED_READS, &[2]));
    Ok(())
}
