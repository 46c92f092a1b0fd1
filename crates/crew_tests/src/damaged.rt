//! Altered containers: with any number of workers, the first chunk that does not check is named.
use crate::sealed::sealed;
use crate::{counting_key, flip, pattern};
use container_core::{CHUNK, HEADER, OpenFault, SEALED};
use crew_core::{Free, MAX_WORKERS, open_whole};
use std::alloc::Global;
use std::thread::Threads;

// A container of `chunks` full chunks. One ciphertext bit is flipped in each of the chunks `bad` and `other`.
fn damaged<R: Threads + Sync>(
    rt: &R,
    alloc: Global,
    chunks: u8,
    bad: u8,
    other: u8,
) -> Option<Vec<u8>> {
    let plain = pattern(alloc, CHUNK * chunks as usize).ok()?;
    let mut bytes = sealed(rt, alloc, 0, plain.as_slice(), 2, &Free)?;
    if bytes.len() != HEADER + SEALED * chunks as usize {
        return None;
    }
    flip(
        bytes.as_mut_slice(),
        HEADER + SEALED * bad as usize + 1_000,
        4,
    );
    flip(
        bytes.as_mut_slice(),
        HEADER + SEALED * other as usize + 1_000,
        4,
    );
    Some(bytes)
}

// Whether opening with `workers` workers fails with `Forged` for this chunk.
pub fn is_refused_for<R: Threads + Sync>(
    rt: &R,
    alloc: Global,
    bytes: &[u8],
    workers: u32,
    chunk: u32,
) -> bool {
    if workers == 0 || workers > MAX_WORKERS {
        return false;
    }
    let key = counting_key();
    match open_whole(rt, alloc, &key, bytes, workers, &Free) {
        Ok(_) => false,
        Err(fault) => fault == OpenFault::Forged { chunk },
    }
}

// The number of full chunks, two that don't check (the lower number second), and the numbers of workers.
static DAMAGED: [(u8, u8, u8, &[u32]); 2] = [
    (8, 5, 2, &[1, 4, 16]),
    // The two are in the last of several rounds. No other fault is reported instead, such as `OutOfMemory`.
    (100, 99, 97, &[1, 2, 3, 4]),
];

// Whether opening with each of these numbers of workers fails with `Forged` for this chunk.
fn all_refuse<R: Threads + Sync>(
    rt: &R,
    alloc: Global,
    bytes: &[u8],
    workers: &[u32],
    chunk: u32,
) -> bool {
    for count in workers {
        if !is_refused_for(rt, alloc, bytes, *count, chunk) {
            return false;
        }
    }
    true
}

// Whether all of them name the lowest chunk that doesn't check.
fn is_least_named<R: Threads + Sync>(
    rt: &R,
    alloc: Global,
    chunks: u8,
    bad: u8,
    least: u8,
    workers: &[u32],
) -> Option<bool> {
    let bytes = damaged(rt, alloc, chunks, bad, least)?;
    Some(all_refuse(rt, alloc, bytes.as_slice(), workers, u32::from(least)))
}

#[test]
fn the_least_bad_chunk_is_named(rt: HostRuntime) {
    for (chunks, bad, least, workers) in &DAMAGED {
        assert!(rt;
            is_least_named(&rt, rt.alloc(), *chunks, *bad, *least, workers) == Some(true),
            "{least} of {chunks}"
        );
    }
}
