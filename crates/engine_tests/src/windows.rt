//! A container of several windows, which are read one at a time: damaged, cut, and longer than allowed. None of it is
//! written.
use container_core::{CHUNK, HEADER, OpenFault, SEALED, Shape, open, seal};
use crew_core::{Free, MAX_WINDOW, MAX_WORKERS};
use crew_tests::{PREFIX, counting_key, flip, pattern};
use io_memory::{FromMemory, Schedule, ToMemory};
use opening_core::{run_open_by, run_plain_by, run_verify_by, verify_one};
use std::alloc::Global;
use std::test::Fail;
use std::thread::Threads;
use std::time::Clock;

const MOST: usize = usize::MAX;

// The highest plaintext limit that the engines are given.
pub(crate) const LIMIT: u64 = 1 << 24;

// The length of a container of 39 full chunks and one of a byte: two full windows and eight chunks.
const FORTY: usize = HEADER + 39 * SEALED + 17;

// The length of its plaintext.
const PLAIN: u64 = 39 * (CHUNK as u64) + 1;

pub(crate) fn forty_chunks(alloc: Global) -> Option<Vec<u8>> {
    let plain = pattern(alloc, 39 * CHUNK + 1).ok()?;
    let bytes = seal(
        alloc,
        &counting_key(),
        &Shape::one(),
        PREFIX,
        plain.as_slice(),
    )
    .ok()?;
    if bytes.len() == FORTY {
        Some(bytes)
    } else {
        None
    }
}

// The fault of verifying these bytes with `workers` workers in windows of `window` chunks. Opening them must fail in
// the same way and write nothing, and so must the engine that returns the plaintext.
pub(crate) fn fault_in<R: Threads + Clock + Sync>(
    rt: &R,
    alloc: Global,
    bytes: &[u8],
    max_bytes: u64,
    workers: u32,
    window: u32,
) -> Option<OpenFault> {
    if max_bytes > LIMIT
        || workers == 0
        || workers > MAX_WORKERS
        || window == 0
        || window > MAX_WINDOW
    {
        return None;
    }
    let key = counting_key();
    let mut reader = FromMemory::new(bytes, 100_000, Schedule::Never);
    let verified = run_verify_by(
        rt,
        alloc,
        &key,
        &mut reader,
        max_bytes,
        workers,
        window,
        &Free,
    );
    let mut reader = FromMemory::new(bytes, MOST, Schedule::Never);
    let mut writer = ToMemory::new(alloc, 64, MOST, Schedule::Never).ok()?;
    let opened = run_open_by(
        rt,
        alloc,
        &key,
        &mut reader,
        &mut writer,
        max_bytes,
        workers,
        window,
        &Free,
    );
    let mut reader = FromMemory::new(bytes, MOST, Schedule::Never);
    let plain = run_plain_by(
        rt,
        alloc,
        &key,
        &mut reader,
        max_bytes,
        workers,
        window,
        &Free,
    )
    .err();
    if verified == opened && plain == verified.err() && writer.bytes().is_empty() {
        plain
    } else {
        None
    }
}

// The same in windows of 16 chunks and of one, which must agree.
pub(crate) fn fault_of<R: Threads + Clock + Sync>(
    rt: &R,
    alloc: Global,
    bytes: &[u8],
    max_bytes: u64,
    workers: u32,
) -> Option<OpenFault> {
    let fault = fault_in(rt, alloc, bytes, max_bytes, workers, 16)?;
    if fault_in(rt, alloc, bytes, max_bytes, workers, 1) == Some(fault) {
        Some(fault)
    } else {
        None
    }
}

// Whether the first `kept` bytes of a container fail with `fault`, with `workers` workers and at most `max_bytes` bytes
// of plaintext.
fn is_refused_so<R: Threads + Clock + Sync>(
    rt: &R,
    alloc: Global,
    bytes: &[u8],
    kept: usize,
    max_bytes: u64,
    workers: u32,
    fault: OpenFault,
) -> bool {
    match bytes.get(..kept) {
        Some(front) => fault_of(rt, alloc, front, max_bytes, workers) == Some(fault),
        None => false,
    }
}

// Flips a bit of each of these chunks.
fn flip_chunks(bytes: &mut [u8], chunks: &[u8]) {
    for chunk in chunks {
        flip(bytes, HEADER + usize::from(*chunk) * SEALED, 1);
    }
}

// Chunks that are changed, the number of workers, and the chunk that is named.
static BAD_CHUNKS: [(&[u8], u32, u32); 11] = [
    // One chunk, in any window.
    (&[0], 4, 0),
    (&[15], 1, 15),
    (&[16], 4, 16),
    (&[31], 1, 31),
    (&[39], 1, 39),
    // Two chunks, in two windows and in one.
    (&[3, 20], 4, 3),
    (&[17, 30], 4, 17),
    (&[33, 38], 4, 33),
    (&[5, 2], 1, 2),
    (&[5, 2], 4, 2),
    (&[5, 2], 16, 2),
];

// Whether one thread reports this fault, from a reader and in memory.
fn is_named_alone(alloc: Global, bytes: &[u8], fault: OpenFault) -> bool {
    let key = counting_key();
    let mut reader = FromMemory::new(bytes, MOST, Schedule::Never);
    let verified = verify_one(alloc, &key, &mut reader, LIMIT).err();
    verified == Some(fault) && open(alloc, &key, bytes).err() == Some(fault)
}

// Whether `workers` workers and one thread name the lowest of these changed chunks. The changes are undone.
fn is_least_named<R: Threads + Clock + Sync>(
    rt: &R,
    alloc: Global,
    bytes: &mut [u8],
    chunks: &[u8],
    workers: u32,
    least: u32,
) -> bool {
    let fault = OpenFault::Forged { chunk: least };
    flip_chunks(bytes, chunks);
    let named = fault_of(rt, alloc, bytes, LIMIT, workers);
    let is_named = is_named_alone(alloc, bytes, fault);
    flip_chunks(bytes, chunks);
    named == Some(fault) && is_named
}

#[test]
fn the_least_bad_chunk_of_any_window_is_named(rt: HostRuntime) -> Result<(), Fail> {
    let mut bytes = forty_chunks(rt.alloc()).ok_or("no container")?;
    for (chunks, workers, least) in &BAD_CHUNKS {
        assert!(rt;
            is_least_named(
                &rt,
                rt.alloc(),
                bytes.as_mut_slice(),
                chunks,
                *workers,
                *least
            ),
            "{least} by {workers}"
        );
    }
    Ok(())
}

// How many bytes are left of the container, and the fault.
static CUTS: [(usize, OpenFault); 15] = [
    // A container that ends at a window's or chunk's end has a last chunk that wasn't sealed as the last.
    (HEADER + SEALED, OpenFault::Forged { chunk: 0 }),
    (HEADER + 15 * SEALED, OpenFault::Forged { chunk: 14 }),
    (HEADER + 16 * SEALED, OpenFault::Forged { chunk: 15 }),
    (HEADER + 17 * SEALED, OpenFault::Forged { chunk: 16 }),
    (HEADER + 32 * SEALED, OpenFault::Forged { chunk: 31 }),
    (HEADER + 39 * SEALED, OpenFault::Forged { chunk: 38 }),
    // Nothing, a header cut short, and a whole header.
    (0, OpenFault::ShortHeader),
    (HEADER - 1, OpenFault::ShortHeader),
    (HEADER, OpenFault::BadLength),
    // Of chunk 0: less than a tag, exactly a tag, and all but a byte.
    (HEADER + 15, OpenFault::BadLength),
    (HEADER + 16, OpenFault::Forged { chunk: 0 }),
    (HEADER + SEALED - 1, OpenFault::Forged { chunk: 0 }),
    // Of chunk 1: a byte, a tag, and both.
    (HEADER + SEALED + 1, OpenFault::BadLength),
    (HEADER + SEALED + 16, OpenFault::BadLength),
    (HEADER + SEALED + 17, OpenFault::Forged { chunk: 1 }),
];

#[test]
fn a_cut_is_seen_at_a_window_and_elsewhere(rt: HostRuntime) -> Result<(), Fail> {
    let bytes = forty_chunks(rt.alloc()).ok_or("no container")?;
    for (kept, fault) in &CUTS {
        assert!(rt;
            is_refused_so(&rt, rt.alloc(), bytes.as_slice(), *kept, LIMIT, 2, *fault),
            "{kept}"
        );
    }
    Ok(())
}

// How many bytes are left of the container whose chunk 0 doesn't check, how many plaintext bytes are allowed, and the
// fault. Reading continues after a bad chunk, since a wrong or too great length takes precedence.
static LENGTHS: [(usize, u64, OpenFault); 6] = [
    (HEADER + 16 * SEALED + 1, LIMIT, OpenFault::BadLength),
    (HEADER + 16 * SEALED + 16, LIMIT, OpenFault::BadLength),
    (HEADER + 20 * SEALED + 5, LIMIT, OpenFault::BadLength),
    (FORTY - 1, LIMIT, OpenFault::BadLength),
    (FORTY, PLAIN - 1, OpenFault::TooLong),
    (FORTY, PLAIN, OpenFault::Forged { chunk: 0 }),
];

#[test]
fn a_wrong_length_comes_before_a_bad_chunk(rt: HostRuntime) -> Result<(), Fail> {
    let mut bytes = forty_chunks(rt.alloc()).ok_or("no container")?;
    flip(bytes.as_mut_slice(), HEADER, 1);
    for (kept, most, fault) in &LENGTHS {
        for workers in [1, 4] {
            assert!(rt;
                is_refused_so(
                    &rt,
                    rt.alloc(),
                    bytes.as_slice(),
                    *kept,
                    *most,
                    workers,
                    *fault
                ),
                "{kept} {most} by {workers}"
            );
        }
    }
    Ok(())
}

// A changed byte of the header, how many plaintext bytes are allowed, and the fault. A fault of the header is reported
// only after it is known that the container isn't too long.
static HEADERS: [(usize, u64, OpenFault); 9] = [
    (8, PLAIN - 1, OpenFault::TooLong),
    (8, PLAIN, OpenFault::BadVersion),
    // The magic's first and last byte, the exponent, the prefix's first and last byte, and the hint's.
    (0, PLAIN, OpenFault::BadMagic),
    (7, PLAIN, OpenFault::BadMagic),
    (9, PLAIN, OpenFault::BadExponent),
    (10, PLAIN, OpenFault::Forged { chunk: 0 }),
    (16, PLAIN, OpenFault::Forged { chunk: 0 }),
    (17, PLAIN, OpenFault::KeyMismatch),
    (23, PLAIN, OpenFault::KeyMismatch),
];

// Whether 1 and 4 workers refuse the container with `fault` after this byte is changed. The change is undone.
fn is_header_refused<R: Threads + Clock + Sync>(
    rt: &R,
    alloc: Global,
    bytes: &mut [u8],
    place: usize,
    max_bytes: u64,
    fault: OpenFault,
) -> bool {
    flip(bytes, place, 1);
    let refused = is_refused_so(rt, alloc, bytes, FORTY, max_bytes, 1, fault)
        && is_refused_so(rt, alloc, bytes, FORTY, max_bytes, 4, fault);
    flip(bytes, place, 1);
    refused
}

#[test]
fn a_changed_header_has_its_fault_behind_too_long(rt: HostRuntime) -> Result<(), Fail> {
    let mut bytes = forty_chunks(rt.alloc()).ok_or("no container")?;
    for (place, most, fault) in &HEADERS {
        assert!(rt;
            is_header_refused(&rt, rt.alloc(), bytes.as_mut_slice(), *place, *most, *fault),
            "byte {place}, {most}"
        );
    }
    Ok(())
}
