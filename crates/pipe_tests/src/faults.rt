//! Readers and writers that fail: the fault names which, and a prefix of the container was written.
use crate::containers::{LENGTHS, TWO_CHUNKS};
use crate::pipes::{Asked, known, piped, small};
use container_core::{SealFault, Shape};
use crew_tests::{pattern, zeros};
use io_memory::{FromMemory, Schedule, ToMemory};
use std::alloc::Global;
use std::sync::Wait;
use std::thread::Threads;
use worker_core::Free;

// How many bytes of the container are written if a call of the reader fails. The reader returns 1,000 bytes of two
// small chunks a call.
fn written_till<T: Threads + Wait + Sync>(
    rt: &T,
    alloc: Global,
    shape: &Shape,
    plain: &[u8],
    container: &[u8],
    call: u64,
    workers: u32,
    answer: Result<u64, SealFault>,
) -> Option<usize> {
    let mut reader = FromMemory::new(plain, 1_000, Schedule::Call(call));
    let mut writer = ToMemory::new(alloc, 64, usize::MAX, Schedule::Never).ok()?;
    let asked = Asked {
        max_chunks: 2,
        workers,
        depth: 4,
    };
    let answered = piped(rt, alloc, shape, &mut reader, &mut writer, asked, &Free)?;
    if answered == answer && container.starts_with(writer.bytes()) {
        Some(writer.bytes().len())
    } else {
        None
    }
}

// Two small chunks and the end are read with eleven calls: 4,097 bytes with five, 4,095 with five more, and the end.
// Whether each call's failure is reported, and no other call is made. In the first five only the header is written, and
// later at most one chunk.
fn are_calls_seen<T: Threads + Wait + Sync>(rt: &T, alloc: Global, workers: u32) -> Option<bool> {
    let shape = small()?;
    let plain = zeros(alloc, 8_192).ok()?;
    let plain = plain.as_slice();
    let container = known(alloc, &shape, plain, &TWO_CHUNKS)?;
    let container = container.as_slice();
    let failed = Err(SealFault::Read);
    for call in 0..11 {
        let written = written_till(rt, alloc, &shape, plain, container, call, workers, failed)?;
        if written != 25 && (call < 5 || written != 4_137) {
            return Some(false);
        }
    }
    let sealed = Ok(8_192);
    let written = written_till(rt, alloc, &shape, plain, container, 11, workers, sealed)?;
    Some(written == 8_249)
}

#[test]
fn each_failed_read_is_the_answer(rt: HostRuntime) {
    assert!(rt; are_calls_seen(&rt, rt.alloc(), 1) == Some(true));
    assert!(rt; are_calls_seen(&rt, rt.alloc(), 2) == Some(true));
}

// Whether a reader that fails after `given` bytes of three chunks is reported. A chunk may be written only if the
// reader returned a byte after it.
fn fails_behind<T: Threads + Wait + Sync>(
    rt: &T,
    alloc: Global,
    plain: &[u8],
    container: &[u8],
    given: usize,
    workers: u32,
) -> Option<bool> {
    let mut reader = FromMemory::new(plain, 1_000, Schedule::Bytes(given as u64));
    let mut writer = ToMemory::new(alloc, 64, usize::MAX, Schedule::Never).ok()?;
    let asked = Asked {
        max_chunks: 3,
        workers,
        depth: 4,
    };
    let shape = Shape::one();
    let answered = piped(rt, alloc, &shape, &mut reader, &mut writer, asked, &Free)?;
    let written = writer.bytes();
    let is_few = written.len() == 24 || given > 65_536 && written.len() == 65_576;
    Some(answered == Err(SealFault::Read) && is_few && container.starts_with(written))
}

// In chunk 0, at its end, after it, and in chunk 1.
static GIVEN: [usize; 11] = [
    0, 1, 23, 24, 25, 65_535, 65_536, 65_537, 65_575, 65_576, 65_592,
];

fn are_reads_seen<T: Threads + Wait + Sync>(rt: &T, alloc: Global, workers: u32) -> Option<bool> {
    let (count, _, digest) = &LENGTHS[6];
    let plain = pattern(alloc, *count).ok()?;
    let plain = plain.as_slice();
    let container = known(alloc, &Shape::one(), plain, digest)?;
    for given in &GIVEN {
        if !fails_behind(rt, alloc, plain, container.as_slice(), *given, workers)? {
            return Some(false);
        }
    }
    Some(true)
}

#[test]
fn a_read_that_fails_behind_some_bytes_is_the_answer(rt: HostRuntime) {
    assert!(rt; are_reads_seen(&rt, rt.alloc(), 1) == Some(true));
    assert!(rt; are_reads_seen(&rt, rt.alloc(), 2) == Some(true));
}

// The result and what was written, if the writer has room for `room` bytes.
fn ends_at<T: Threads + Wait + Sync>(
    rt: &T,
    alloc: Global,
    plain: &[u8],
    container: &[u8],
    room: usize,
    workers: u32,
    answer: Result<u64, SealFault>,
) -> Option<bool> {
    let mut reader = FromMemory::new(plain, usize::MAX, Schedule::Never);
    let mut writer = ToMemory::new(alloc, 64, 1_000, Schedule::Bytes(room as u64)).ok()?;
    let asked = Asked {
        max_chunks: 3,
        workers,
        depth: 4,
    };
    let shape = Shape::one();
    let answered = piped(rt, alloc, &shape, &mut reader, &mut writer, asked, &Free)?;
    let front = container.get(..room)?;
    Some(answered == answer && writer.bytes() == front)
}

// In the header, at its end and after it; in chunk 0's tag, at its end and after it; and one byte before the end of the
// container.
static ROOMS: [usize; 9] = [0, 1, 23, 24, 25, 65_575, 65_576, 65_592, 131_144];

// Whether a writer that fails in three chunks is reported, and holds what it took. With room for everything it doesn't
// fail.
fn are_writes_seen<T: Threads + Wait + Sync>(rt: &T, alloc: Global, workers: u32) -> Option<bool> {
    let (count, length, digest) = &LENGTHS[6];
    let plain = pattern(alloc, *count).ok()?;
    let plain = plain.as_slice();
    let container = known(alloc, &Shape::one(), plain, digest)?;
    let container = container.as_slice();
    let failed = Err(SealFault::Write);
    for room in &ROOMS {
        if !ends_at(rt, alloc, plain, container, *room, workers, failed)? {
            return Some(false);
        }
    }
    ends_at(rt, alloc, plain, container, *length, workers, Ok(131_073))
}

#[test]
fn each_failed_write_is_the_answer(rt: HostRuntime) {
    assert!(rt; are_writes_seen(&rt, rt.alloc(), 1) == Some(true));
    assert!(rt; are_writes_seen(&rt, rt.alloc(), 2) == Some(true));
}
