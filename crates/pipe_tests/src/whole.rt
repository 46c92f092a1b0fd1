//! Whole streams: with the most chunks and one byte more, with lengths near a chunk's, and a byte a call. The expected
//! results are in `containers` and in `crew_tests`, from Python's `cryptography`.
use crate::containers::{A_BYTE_MORE, A_PART_MORE, EMPTY, LENGTHS, TWO_CHUNKS};
use crate::pipes::{Asked, known, piped, seals_freely, seals_to, small};
use container_core::{SealFault, Shape};
use crew_tests::{ZERO_BYTES, pattern, sealed_zeros, zeros};
use io_core::{Failed, fill};
use io_memory::{FromMemory, Schedule, ToMemory};
use std::alloc::Global;
use std::sync::Wait;
use std::thread::Threads;
use worker_core::Free;

// How many bytes a reader has left, at most 4,096.
fn left_of(reader: &mut FromMemory<'_>) -> Option<usize> {
    let mut rest = [0; 4_096];
    match fill(reader, &mut rest) {
        Ok(n) => Some(n),
        Err(Failed) => None,
    }
}

// How many bytes of a plaintext stay unread if fewer chunks are allowed than it has. A prefix of its container must
// have been written.
fn left_behind<T: Threads + Wait + Sync>(
    rt: &T,
    alloc: Global,
    shape: &Shape,
    plain: &[u8],
    container: &[u8],
    asked: Asked,
) -> Option<usize> {
    let mut reader = FromMemory::new(plain, 1_000, Schedule::Never);
    let mut writer = ToMemory::new(alloc, plain.len(), usize::MAX, Schedule::Never).ok()?;
    let answer = piped(rt, alloc, shape, &mut reader, &mut writer, asked, &Free)?;
    let begun = container.starts_with(writer.bytes()) && writer.bytes().len() >= 24;
    if answer == Err(SealFault::TooManyChunks) && begun {
        left_of(&mut reader)
    } else {
        None
    }
}

// The same for `count` zeros in small chunks, of which two are allowed. Their container has this SHA-256.
fn leaves<T: Threads + Wait + Sync>(
    rt: &T,
    alloc: Global,
    count: usize,
    digest: &[u8; 32],
    workers: u32,
    depth: u32,
) -> Option<usize> {
    let shape = small()?;
    let plain = zeros(alloc, count).ok()?;
    let plain = plain.as_slice();
    let container = known(alloc, &shape, plain, digest)?;
    let asked = Asked {
        max_chunks: 2,
        workers,
        depth,
    };
    left_behind(rt, alloc, &shape, plain, container.as_slice(), asked)
}

// The same for 65,537 zeros, of which one chunk is allowed.
fn leaves_of_one<T: Threads + Wait + Sync>(rt: &T, alloc: Global) -> Option<usize> {
    let container = sealed_zeros(alloc)?;
    let asked = Asked {
        max_chunks: 1,
        workers: 2,
        depth: 4,
    };
    left_behind(
        rt,
        alloc,
        &Shape::one(),
        &ZERO_BYTES,
        container.as_slice(),
        asked,
    )
}

#[test]
fn a_byte_behind_the_most_chunks(rt: HostRuntime) {
    for (workers, depth) in [(1, 1), (1, 4), (2, 1), (2, 4), (16, 64)] {
        assert!(rt; leaves(&rt, rt.alloc(), 8_193, &A_BYTE_MORE, workers, depth) == Some(0));
        assert!(rt; leaves(&rt, rt.alloc(), 9_000, &A_PART_MORE, workers, depth) == Some(807));
    }
    assert!(rt; leaves_of_one(&rt, rt.alloc()) == Some(0));
}

// Whether the empty plaintext and two full chunks of 4 KiB, and two of 64 KiB (the last of one byte), have their
// containers.
fn all_are_known<T: Threads + Wait + Sync>(rt: &T, alloc: Global) -> Option<bool> {
    let (shape, one) = (small()?, Shape::one());
    let asked = Asked {
        max_chunks: 2,
        workers: 2,
        depth: 4,
    };
    let plain = zeros(alloc, 8_192).ok()?;
    let plain = plain.as_slice();
    let two = known(alloc, &shape, plain, &TWO_CHUNKS)?;
    let whole = sealed_zeros(alloc)?;
    Some(
        seals_freely(rt, alloc, &shape, &[], asked, &EMPTY)
            && seals_to(
                rt,
                alloc,
                &shape,
                plain,
                1_000,
                asked,
                &Free,
                two.as_slice(),
            )
            && seals_freely(rt, alloc, &one, &ZERO_BYTES, asked, whole.as_slice()),
    )
}

#[test]
fn known_containers(rt: HostRuntime) {
    assert!(rt; all_are_known(&rt, rt.alloc()) == Some(true));
}

// Whether a plaintext is sealed to its container with 1, 2, 4 and 16 workers, and depths 1, 2, 16 and 64.
fn all_seal<T: Threads + Wait + Sync>(
    rt: &T,
    alloc: Global,
    plain: &[u8],
    container: &[u8],
) -> bool {
    for workers in [1, 2, 4, 16] {
        for depth in [1, 2, 16, 64] {
            let asked = Asked {
                max_chunks: 16,
                workers,
                depth,
            };
            if !seals_freely(rt, alloc, &Shape::one(), plain, asked, container) {
                return false;
            }
        }
    }
    true
}

// Whether `count` bytes are sealed to a container of this length and digest.
fn seal_length<T: Threads + Wait + Sync>(
    rt: &T,
    alloc: Global,
    count: usize,
    length: usize,
    digest: &[u8; 32],
) -> Option<bool> {
    let plain = pattern(alloc, count).ok()?;
    let container = known(alloc, &Shape::one(), plain.as_slice(), digest)?;
    let container = container.as_slice();
    Some(container.len() == length && all_seal(rt, alloc, plain.as_slice(), container))
}

#[test]
fn all_lengths(rt: HostRuntime) {
    for (count, length, digest) in &LENGTHS {
        let right = seal_length(&rt, rt.alloc(), *count, *length, digest);
        assert!(rt; right == Some(true), "at {count}");
    }
}

// Whether three chunks are sealed to their container with a reader and a writer that transfer one byte a call.
fn seals_by_bytes<T: Threads + Wait + Sync>(rt: &T, alloc: Global, workers: u32) -> Option<bool> {
    let (count, _, digest) = &LENGTHS[6];
    let plain = pattern(alloc, *count).ok()?;
    let plain = plain.as_slice();
    let container = known(alloc, &Shape::one(), plain, digest)?;
    let asked = Asked {
        max_chunks: 3,
        workers,
        depth: 2,
    };
    let container = container.as_slice();
    Some(seals_to(rt, alloc, &Shape::one(), plain, 1, asked, &Free, container))
}

#[test]
fn a_byte_a_call(rt: HostRuntime) {
    assert!(rt; seals_by_bytes(&rt, rt.alloc(), 1) == Some(true));
    assert!(rt; seals_by_bytes(&rt, rt.alloc(), 3) == Some(true));
}
