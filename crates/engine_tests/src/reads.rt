//! Version 2: how much is read of an endless input, and what happens if a reader fails within a header.
ghost use Rattle.std.specs.Prelude.{◌<◌, ◌≤◌};

use crate::openings::are_failures_seen;
use crate::shapes::{FRONT, container_of};
use crate::windows::LIMIT;
use container_core::OpenFault;
use container_tests::EMPTY;
use crew_core::{Free, MAX_WORKERS};
use crew_tests::{counting_key, flip};
use io_core::FromRead;
use io_memory::{Schedule, ToMemory};
use opening_core::{run_open, run_verify};
use std::alloc::Global;
use std::io;
use std::io::Read;
use std::test::Fail;
use std::thread::Threads;
use std::time::Clock;

const MOST: usize = usize::MAX;

// A reader of these bytes and then of endless zeros. It counts the bytes that it returns.
#[derive(Drop)]
struct Endless<'a> {
    front: &'a [u8],
    given: u64,
}

impl Read for Endless<'_> {
    fn read(&mut self, buf: &mut [u8]) -> io::Result<usize> {
        let n = buf.len();
        let begun = n.min(self.front.len());
        buf[..begun].copy_from_slice(&self.front[..begun]);
        buf[begun..].fill(0);
        self.front = &self.front[begun..];
        self.given = self.given.saturating_add(n as u64);
        Ok(n)
    }
}

// How many bytes opening reads of an endless input, if it fails with `fault` and writes nothing.
fn opening_reads<R: Threads + Clock + Sync>(
    rt: &R,
    alloc: Global,
    front: &[u8],
    max_bytes: u64,
    workers: u32,
    fault: OpenFault,
) -> Option<u64> {
    if max_bytes > LIMIT || workers == 0 || workers > MAX_WORKERS {
        return None;
    }
    let key = counting_key();
    let mut reader = FromRead(Endless { front, given: 0 });
    let mut writer = ToMemory::new(alloc, 64, MOST, Schedule::Never).ok()?;
    let opened = run_open(
        rt,
        alloc,
        &key,
        &mut reader,
        &mut writer,
        max_bytes,
        workers,
        &Free,
    );
    if opened == Err(fault) && writer.bytes().is_empty() {
        Some(reader.0.given)
    } else {
        None
    }
}

// The same for verifying.
fn verifying_reads<R: Threads + Clock + Sync>(
    rt: &R,
    alloc: Global,
    front: &[u8],
    max_bytes: u64,
    workers: u32,
    fault: OpenFault,
) -> Option<u64> {
    if max_bytes > LIMIT || workers == 0 || workers > MAX_WORKERS {
        return None;
    }
    let key = counting_key();
    let mut reader = FromRead(Endless { front, given: 0 });
    let verified = run_verify(rt, alloc, &key, &mut reader, max_bytes, workers, &Free);
    if verified == Err(fault) {
        Some(reader.0.given)
    } else {
        None
    }
}

// Whether 1 and 4 workers read `bytes` bytes of an endless input, and fail with `fault`.
fn read_so_many<R: Threads + Clock + Sync>(
    rt: &R,
    alloc: Global,
    front: &[u8],
    max_bytes: u64,
    bytes: u64,
    fault: OpenFault,
) -> bool {
    let wanted = Some(bytes);
    opening_reads(rt, alloc, front, max_bytes, 1, fault) == wanted
        && opening_reads(rt, alloc, front, max_bytes, 4, fault) == wanted
        && verifying_reads(rt, alloc, front, max_bytes, 1, fault) == wanted
        && verifying_reads(rt, alloc, front, max_bytes, 4, fault) == wanted
}

// How many plaintext bytes are allowed, and how many tags their chunks of 4 KiB, 64 KiB and 1 MiB have.
static READS: [(u64, [u64; 3]); 8] = [
    (0, [1, 1, 1]),
    (1, [1, 1, 1]),
    (4096, [1, 1, 1]),
    (4097, [2, 1, 1]),
    (65_536, [16, 1, 1]),
    (65_537, [17, 2, 1]),
    (1_000_000, [245, 16, 1]),
    (1_048_577, [257, 17, 2]),
];

// Whether an endless input is read one byte past the longest container allowed. The header has `header` bytes, and the
// chunks 4 KiB, 64 KiB or 1 MiB.
fn are_reads_bound<R: Threads + Clock + Sync>(
    rt: &R,
    alloc: Global,
    begun: &[u8],
    header: u64,
    chunks: usize,
) -> bool
    requires { (header ≤ 280) × (chunks < 3) }
{
    for (max_bytes, tags) in &READS {
        let bytes = header + *max_bytes + 16 * tags[chunks] + 1;
        if !read_so_many(rt, alloc, begun, *max_bytes, bytes, OpenFault::TooLong) {
            return false;
        }
    }
    true
}

// Whether that holds for an input that begins as a container of version 2.
fn are_second_reads_bound<R: Threads + Clock + Sync>(
    rt: &R,
    alloc: Global,
    exponent: u32,
    chunks: usize,
    label: usize,
) -> Option<bool>
    requires { chunks < 3 }
{
    let begun = container_of(alloc, exponent, label, b"")?;
    let header = (FRONT + label.min(255)) as u64;
    Some(are_reads_bound(rt, alloc, begun.as_slice(), header, chunks))
}

#[test]
fn an_endless_input_is_read_to_the_bound(rt: HostRuntime) {
    assert!(rt; are_second_reads_bound(&rt, rt.alloc(), 12, 0, 0) == Some(true));
    assert!(rt; are_second_reads_bound(&rt, rt.alloc(), 12, 0, 1) == Some(true));
    assert!(rt; are_second_reads_bound(&rt, rt.alloc(), 12, 0, 255) == Some(true));
    assert!(rt; are_second_reads_bound(&rt, rt.alloc(), 16, 1, 255) == Some(true));
    assert!(rt; are_second_reads_bound(&rt, rt.alloc(), 20, 2, 1) == Some(true));
}

// If the header of an endless input of version 2 has a fault, the header is read and no more. The exponent is 11, with
// zeros after it; or the hint is another key's, and the label has 255 bytes.
#[test]
fn nothing_is_read_behind_a_bad_header(rt: HostRuntime) -> Result<(), Fail> {
    let exponent = b"STRMSEAL\x02\x0b";
    assert!(rt; read_so_many(&rt, rt.alloc(), exponent, 4096, 25, OpenFault::BadExponent));
    let mut begun = container_of(rt.alloc(), 12, 255, b"").ok_or("not sealed")?;
    flip(begun.as_mut_slice(), 17, 1);
    let fault = OpenFault::KeyMismatch;
    assert!(rt; read_so_many(&rt, rt.alloc(), begun.as_slice(), 4096, 280, fault));
    Ok(())
}

#[test]
fn an_endless_input_of_another_version_is_read_to_its_bound(rt: HostRuntime) -> Result<(), Fail> {
    assert!(rt; are_reads_bound(&rt, rt.alloc(), b"", 24, 1));
    assert!(rt; are_reads_bound(&rt, rt.alloc(), b"STRMSEAL\x03\x0c", 24, 1));
    assert!(rt; are_reads_bound(&rt, rt.alloc(), &EMPTY, 24, 1));
    Ok(())
}

// Whether 1 and 4 workers report a reader that fails after 24 bytes of a container, after 25, and one byte before the
// end of the header. The label has `label` bytes.
fn is_end_no_failure<R: Threads + Clock + Sync>(
    rt: &R,
    alloc: Global,
    label: usize,
) -> Option<bool> {
    let bytes = container_of(alloc, 12, label, b"1")?;
    let header = (FRONT + label.min(255)) as u64;
    Some(are_failures_seen(rt, alloc, bytes.as_slice(), &[24, 25, header - 1], &[1, 4]))
}

// If the input ended there, the header would be too short.
#[test]
fn a_failed_read_within_a_header_is_no_end(rt: HostRuntime) {
    assert!(rt; is_end_no_failure(&rt, rt.alloc(), 0) == Some(true));
    assert!(rt; is_end_no_failure(&rt, rt.alloc(), 3) == Some(true));
    assert!(rt; is_end_no_failure(&rt, rt.alloc(), 255) == Some(true));
}
