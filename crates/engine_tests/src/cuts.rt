//! Version 1, a container of three chunks. It is cut to each length near the ends of its header and chunks, a header
//! byte is changed, or chunks are moved. All engines refuse it and write nothing. The faults follow from
//! docs/FORMATS.md.
use crate::damages::refusal_of;
use container_core::{HEADER, OpenFault, SEALED, Shape};
use container_tests::{MOVES, counting_key, moved, zeros_sealed};
use crew_tests::flip;
use std::alloc::Global;
use std::thread::Threads;
use std::time::Clock;

// The length of the container of 131,073 zero bytes.
const LENGTH: usize = 131_145;

// That container, for this file.
fn three_chunks(alloc: Global, file: u8) -> Option<Vec<u8>> {
    let bytes = zeros_sealed(alloc, &counting_key(), &Shape::one(), file, 131_073).ok()?;
    if bytes.len() == LENGTH {
        Some(bytes)
    } else {
        None
    }
}

// The lengths that the container is cut to: first, end (exclusive), and the fault.
static CUTS: [(usize, usize, OpenFault); 8] = [
    (0, 24, OpenFault::ShortHeader),
    (24, 40, OpenFault::BadLength),
    (40, 101, OpenFault::Forged { chunk: 0 }),
    (65_500, 65_577, OpenFault::Forged { chunk: 0 }),
    (65_577, 65_593, OpenFault::BadLength),
    (65_593, 65_701, OpenFault::Forged { chunk: 1 }),
    (131_100, 131_129, OpenFault::Forged { chunk: 1 }),
    (131_129, 131_145, OpenFault::BadLength),
];

// Whether the cut to each of these lengths has this fault.
fn are_refused<R: Threads + Clock + Sync>(
    rt: &R,
    alloc: Global,
    bytes: &[u8],
    from: usize,
    upto: usize,
    fault: OpenFault,
) -> bool {
    for length in from..upto {
        let Some(front) = bytes.get(..length) else {
            return false;
        };
        if refusal_of(rt, alloc, front) != Some(fault) {
            return false;
        }
    }
    true
}

fn are_cuts_refused<R: Threads + Clock + Sync>(rt: &R, alloc: Global) -> Option<bool> {
    let bytes = three_chunks(alloc, 0)?;
    for (from, upto, fault) in &CUTS {
        if !are_refused(rt, alloc, bytes.as_slice(), *from, *upto, *fault) {
            return Some(false);
        }
    }
    Some(true)
}

#[test]
fn each_cut_is_refused(rt: HostRuntime) {
    assert!(rt; are_cuts_refused(&rt, rt.alloc()) == Some(true));
}

// The header bytes changed one at a time: first, end (exclusive), and the fault.
static CHANGES: [(usize, usize, OpenFault); 5] = [
    (0, 8, OpenFault::BadMagic),
    (8, 9, OpenFault::BadVersion),
    (9, 10, OpenFault::BadExponent),
    (10, 17, OpenFault::Forged { chunk: 0 }),
    (17, 24, OpenFault::KeyMismatch),
];

// Whether the change of each of these bytes has this fault. Each change is undone.
fn are_noticed<R: Threads + Clock + Sync>(
    rt: &R,
    alloc: Global,
    bytes: &mut [u8],
    from: usize,
    upto: usize,
    fault: OpenFault,
) -> bool {
    for place in from..upto {
        flip(bytes, place, 1);
        let refused = refusal_of(rt, alloc, bytes);
        flip(bytes, place, 1);
        if refused != Some(fault) {
            return false;
        }
    }
    true
}

fn are_changes_refused<R: Threads + Clock + Sync>(rt: &R, alloc: Global) -> Option<bool> {
    let mut bytes = three_chunks(alloc, 0)?;
    for (from, upto, fault) in &CHANGES {
        if !are_noticed(rt, alloc, bytes.as_mut_slice(), *from, *upto, *fault) {
            return Some(false);
        }
    }
    Some(true)
}

#[test]
fn each_changed_byte_of_the_header_is_refused(rt: HostRuntime) {
    assert!(rt; are_changes_refused(&rt, rt.alloc()) == Some(true));
}

// Whether the chunks in this order are refused because of this chunk.
fn is_move_refused<R: Threads + Clock + Sync>(
    rt: &R,
    alloc: Global,
    bytes: &[u8],
    other: &[u8],
    order: &[u32],
    chunk: u32,
) -> Option<bool> {
    if bytes.len() != LENGTH || other.len() != LENGTH {
        return None;
    }
    let made = moved(alloc, bytes, other, HEADER, SEALED, order).ok()?;
    Some(refusal_of(rt, alloc, made.as_slice()) == Some(OpenFault::Forged { chunk }))
}

// Whether each order of `MOVES` is refused. `other` is the container for another file number.
fn are_moves_refused<R: Threads + Clock + Sync>(
    rt: &R,
    alloc: Global,
    other: &[u8],
) -> Option<bool> {
    let bytes = three_chunks(alloc, 0)?;
    for (_, order, chunk) in &MOVES {
        if is_move_refused(rt, alloc, bytes.as_slice(), other, order, *chunk) != Some(true) {
            return Some(false);
        }
    }
    Some(true)
}

fn are_all_moves_refused<R: Threads + Clock + Sync>(rt: &R, alloc: Global) -> Option<bool> {
    let other = three_chunks(alloc, 1)?;
    are_moves_refused(rt, alloc, other.as_slice())
}

#[test]
fn moved_chunks_are_refused(rt: HostRuntime) {
    assert!(rt; are_all_moves_refused(&rt, rt.alloc()) == Some(true));
}
