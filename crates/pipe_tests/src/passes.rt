//! Who passes the gate with which chunk: each of 64 chunks is passed once, and all workers pass.
use crate::containers::MANY_CHUNKS;
use crate::gates::Passes;
use crate::pipes::{Asked, known, seals_to, small};
use crew_tests::pattern;
use std::alloc::Global;
use std::sync::Wait;
use std::thread::Threads;

const TURNS: u64 = 1_000_000_000;

const FEW_TURNS: u64 = 1_000;

// Whether `workers` workers seal 64 small chunks to their container, and pass a gate.
fn are_passed<T: Threads + Wait + Sync>(
    rt: &T,
    alloc: Global,
    workers: u32,
    depth: u32,
    gate: &Passes,
) -> Option<bool> {
    let shape = small()?;
    let plain = pattern(alloc, 262_144).ok()?;
    let plain = plain.as_slice();
    let container = known(alloc, &shape, plain, &MANY_CHUNKS)?;
    let container = container.as_slice();
    let asked = Asked {
        max_chunks: 64,
        workers,
        depth,
    };
    Some(seals_to(rt, alloc, &shape, plain, 70_001, asked, gate, container))
}

// Whether exactly `workers` workers meet, and each chunk is passed once.
fn all_pass<T: Threads + Wait + Sync>(
    rt: &T,
    alloc: Global,
    workers: u32,
    depth: u32,
) -> Option<bool> {
    let gate = Passes::new(alloc, u64::from(workers), TURNS).ok()?;
    let sealed = are_passed(rt, alloc, workers, depth, &gate) == Some(true);
    let all = gate.is_each_once() && gate.is_by_all_of(workers as usize);
    Some(sealed && all && !gate.gave_up())
}

#[test]
fn all_workers_pass_with_each_chunk_once(rt: HostRuntime) {
    for (workers, depth) in [
        (1, 1),
        (1, 64),
        (2, 2),
        (2, 4),
        (2, 64),
        (4, 4),
        (4, 64),
        (16, 16),
    ] {
        assert!(rt;
            all_pass(&rt, rt.alloc(), workers, depth) == Some(true),
            "{workers} {depth}"
        );
    }
}

// Whether a gate that wants five gives up with four workers.
fn four_miss_a_fifth<T: Threads + Wait + Sync>(rt: &T, alloc: Global) -> Option<bool> {
    let gate = Passes::new(alloc, 5, FEW_TURNS).ok()?;
    let sealed = are_passed(rt, alloc, 4, 4, &gate) == Some(true);
    Some(sealed && gate.is_each_once() && gate.gave_up())
}

// Shows that the test above can fail.
#[test]
fn four_workers_meet_no_fifth(rt: HostRuntime) {
    assert!(rt; four_miss_a_fifth(&rt, rt.alloc()) == Some(true));
}
