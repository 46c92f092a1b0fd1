//! Files in small chunks, which go through the queues in blocks. Their lengths are near those of a chunk, a block and a
//! round. They are compared with the container that `container_core` makes of the whole. Some have a limit or a fault
//! within a block.
use crate::containers::{MANY_CHUNKS, MANY_ROUNDS, ONE_ROUND};
use crate::gates::Passes;
use crate::pipes::{container, in_rounds, known, small};
use container_core::{SealFault, Shape};
use crew_tests::pattern;
use io_memory::{FromMemory, Schedule, ToMemory};
use std::alloc::Global;
use std::sync::Wait;
use std::thread::Threads;
use worker_core::{Free, Gate};

// How often a gate checks for the other workers.
const TURNS: u64 = 1_000_000_000;

// How an input is sealed: with `workers` workers, in rounds of `window` chunks. A call transfers at most `step` bytes.
#[derive(Clone, Copy)]
struct Asked {
    workers: u32,
    window: u32,
    step: usize,
}

// What ends a sealing: the input's end, a byte past a limit, or a reader or writer that fails after n bytes.
#[derive(Clone, Copy)]
enum End {
    Input,
    Limit(u64),
    Read(u64),
    Write(u64),
}

// The limit, the schedules of reader and writer, and the expected result, for an input of `count` bytes.
fn terms(end: End, count: u64) -> (u64, Schedule, Schedule, Result<u64, SealFault>) {
    let never = Schedule::Never;
    match end {
        End::Input => (count, never, never, Ok(count)),
        End::Limit(most) => (most, never, never, Err(SealFault::TooLong)),
        End::Read(given) => (count, Schedule::Bytes(given), never, Err(SealFault::Read)),
        End::Write(room) => (count, never, Schedule::Bytes(room), Err(SealFault::Write)),
    }
}

// Whether a sealing that ends this way returns that result, and has written exactly these bytes.
fn writes<T: Threads + Wait + Sync, G: Gate + Sync>(
    rt: &T,
    alloc: Global,
    shape: &Shape,
    plain: &[u8],
    asked: Asked,
    end: End,
    gate: &G,
    bytes: &[u8],
) -> Option<bool> {
    let (most, read, write, answer) = terms(end, plain.len() as u64);
    let Asked {
        workers,
        window,
        step,
    } = asked;
    let mut reader = FromMemory::new(plain, step, read);
    let mut writer = ToMemory::new(alloc, plain.len(), step, write).ok()?;
    let answered = in_rounds(
        rt,
        alloc,
        shape,
        &mut reader,
        &mut writer,
        most,
        workers,
        window,
        gate,
    )?;
    Some(answered == answer && writer.bytes() == bytes)
}

// Whether `count` bytes are sealed to their container with 1, 2 and 4 workers.
fn all_seal<T: Threads + Wait + Sync>(
    rt: &T,
    alloc: Global,
    shape: &Shape,
    count: usize,
    window: u32,
    step: usize,
) -> Option<bool> {
    let plain = pattern(alloc, count).ok()?;
    let plain = plain.as_slice();
    let whole = container(alloc, shape, plain)?;
    let whole = whole.as_slice();
    for workers in [1, 2, 4] {
        let asked = Asked {
            workers,
            window,
            step,
        };
        if !writes(rt, alloc, shape, plain, asked, End::Input, &Free, whole)? {
            return Some(false);
        }
    }
    Some(true)
}

// Near the lengths of a chunk, a block of 16 chunks, and two such blocks.
static LENGTHS: [usize; 10] = [
    0, 1, 4_095, 4_096, 4_097, 65_535, 65_536, 65_537, 131_072, 131_073,
];

// Windows of few chunks, and their bytes. Blocks of 16 chunks don't fill windows of 6, 17 and 24. There blocks have at
// most 6 chunks, 1, and at most 12.
static WINDOWS: [(u32, usize); 6] = [
    (1, 4_096),
    (2, 8_192),
    (6, 24_576),
    (16, 65_536),
    (17, 69_632),
    (24, 98_304),
];

// Whether each length is sealed, alone and after a full round.
fn all_lengths_seal<T: Threads + Wait + Sync>(
    rt: &T,
    alloc: Global,
    window: u32,
    round: usize,
    step: usize,
) -> Option<bool> {
    let shape = small()?;
    for count in &LENGTHS {
        let behind = count.saturating_add(round);
        if !all_seal(rt, alloc, &shape, *count, window, step)?
            || !all_seal(rt, alloc, &shape, behind, window, step)?
        {
            return Some(false);
        }
    }
    Some(true)
}

#[test]
fn all_lengths_in_windows_of_few_chunks(rt: HostRuntime) {
    for (window, round) in &WINDOWS {
        let right = all_lengths_seal(&rt, rt.alloc(), *window, *round, 70_001);
        assert!(rt; right == Some(true), "{window}");
    }
}

#[test]
fn all_lengths_where_many_calls_move_a_block(rt: HostRuntime) {
    for (window, round) in [(16, 65_536), (24, 98_304)] {
        let right = all_lengths_seal(&rt, rt.alloc(), window, round, 1_001);
        assert!(rt; right == Some(true), "{window}");
    }
}

// There blocks have 15 chunks.
#[test]
fn all_lengths_in_windows_of_255_chunks(rt: HostRuntime) {
    assert!(rt; all_lengths_seal(&rt, rt.alloc(), 255, 1_044_480, 70_001) == Some(true));
}

#[test]
fn all_lengths_in_windows_of_many_blocks(rt: HostRuntime) {
    assert!(rt; all_lengths_seal(&rt, rt.alloc(), 256, 1_048_576, 70_001) == Some(true));
}

// Exponents of larger chunks, and windows. Then the lengths of a chunk, a block, a round, and a round with one block
// after it.
static LARGER: [(u32, u32, [usize; 4]); 6] = [
    (13, 8, [8_192, 65_536, 65_536, 131_072]),
    (13, 32, [8_192, 65_536, 262_144, 327_680]),
    (14, 8, [16_384, 65_536, 131_072, 196_608]),
    (14, 32, [16_384, 65_536, 524_288, 589_824]),
    (15, 8, [32_768, 65_536, 262_144, 327_680]),
    (15, 32, [32_768, 65_536, 1_048_576, 1_114_112]),
];

// Whether these lengths are sealed, and those one byte shorter and longer.
fn all_beside_seal<T: Threads + Wait + Sync>(
    rt: &T,
    alloc: Global,
    exponent: u32,
    window: u32,
    lengths: &[usize],
) -> Option<bool> {
    let shape = Shape::two(exponent, b"").ok()?;
    for length in lengths {
        let fewer = length.saturating_sub(1);
        let more = length.saturating_add(1);
        for count in [fewer, *length, more] {
            if !all_seal(rt, alloc, &shape, count, window, 70_001)? {
                return Some(false);
            }
        }
    }
    Some(true)
}

// The same for each window with chunks of this exponent.
fn larger_seal<T: Threads + Wait + Sync>(rt: &T, alloc: Global, asked: u32) -> Option<bool> {
    for (exponent, window, lengths) in &LARGER {
        if *exponent == asked && !all_beside_seal(rt, alloc, asked, *window, lengths)? {
            return Some(false);
        }
    }
    Some(true)
}

#[test]
fn all_lengths_in_chunks_of_8_kib(rt: HostRuntime) {
    assert!(rt; larger_seal(&rt, rt.alloc(), 13) == Some(true));
}

#[test]
fn all_lengths_in_chunks_of_16_kib(rt: HostRuntime) {
    assert!(rt; larger_seal(&rt, rt.alloc(), 14) == Some(true));
}

#[test]
fn all_lengths_in_chunks_of_32_kib(rt: HostRuntime) {
    assert!(rt; larger_seal(&rt, rt.alloc(), 15) == Some(true));
}

// How 400,000 bytes end in rounds of 32 chunks, and how many bytes of the container are written: 131,584 for each
// round, and 25 of the header before the first. Blocks have 16 chunks, or 8 with four workers.
static MANY_ENDS: [(End, usize); 24] = [
    // In block 1 of round 0, after the round, and a byte later.
    (End::Limit(100_000), 0),
    (End::Limit(131_072), 0),
    (End::Limit(131_073), 131_609),
    // The same for round 1, and before the last byte.
    (End::Limit(230_000), 131_609),
    (End::Limit(262_144), 131_609),
    (End::Limit(262_145), 263_193),
    (End::Limit(399_999), 394_777),
    // In both blocks of round 0, after the round, and a byte later. A round is written after the next one was read.
    (End::Read(30_000), 0),
    (End::Read(100_000), 0),
    (End::Read(131_072), 0),
    (End::Read(131_073), 0),
    // The same for rounds 1 and 2, and at the end.
    (End::Read(230_000), 0),
    (End::Read(262_144), 0),
    (End::Read(262_145), 131_609),
    (End::Read(330_000), 131_609),
    (End::Read(400_000), 263_193),
    // In the header and after it; before, in and after the tag of chunk 5.
    (End::Write(24), 24),
    (End::Write(25), 25),
    (End::Write(24_681), 24_681),
    (End::Write(24_689), 24_689),
    (End::Write(24_697), 24_697),
    // After round 0; in the tag of chunk 53, which is in block 1 of round 1; and before the last byte.
    (End::Write(131_609), 131_609),
    (End::Write(222_065), 222_065),
    (End::Write(401_592), 401_592),
];

// The same for 100,000 bytes, which end in block 1 of round 0.
static FEW_ENDS: [(End, usize); 8] = [
    (End::Limit(70_000), 0),
    (End::Limit(99_999), 0),
    (End::Read(70_000), 0),
    (End::Read(100_000), 0),
    (End::Write(0), 0),
    (End::Write(25), 25),
    (End::Write(24_689), 24_689),
    (End::Write(100_424), 100_424),
];

// Whether a plaintext ends as the rows say. A block takes many calls to read and to write.
fn all_end<T: Threads + Wait + Sync>(
    rt: &T,
    alloc: Global,
    plain: &[u8],
    whole: &[u8],
    workers: u32,
    rows: &[(End, usize)],
) -> Option<bool> {
    let shape = small()?;
    let asked = Asked {
        workers,
        window: 32,
        step: 1_001,
    };
    for (end, written) in rows {
        let front = whole.get(..*written)?;
        if !writes(rt, alloc, &shape, plain, asked, *end, &Free, front)? {
            return Some(false);
        }
    }
    Some(true)
}

// The same for `count` bytes. Their container has this SHA-256.
fn ends_as<T: Threads + Wait + Sync>(
    rt: &T,
    alloc: Global,
    count: usize,
    digest: &[u8; 32],
    workers: u32,
    rows: &[(End, usize)],
) -> Option<bool> {
    let plain = pattern(alloc, count).ok()?;
    let whole = known(alloc, &small()?, plain.as_slice(), digest)?;
    all_end(rt, alloc, plain.as_slice(), whole.as_slice(), workers, rows)
}

#[test]
fn limits_and_faults_inside_a_block(rt: HostRuntime) {
    for workers in [1, 2, 4] {
        let many = ends_as(&rt, rt.alloc(), 400_000, &MANY_ROUNDS, workers, &MANY_ENDS);
        assert!(rt; many == Some(true), "{workers}");
        let few = ends_as(&rt, rt.alloc(), 100_000, &ONE_ROUND, workers, &FEW_ENDS);
        assert!(rt; few == Some(true), "{workers}");
    }
}

// Whether each of a plaintext's 64 chunks is passed once, with its own number. Exactly `workers` workers must meet.
fn pass_all<T: Threads + Wait + Sync>(
    rt: &T,
    alloc: Global,
    shape: &Shape,
    plain: &[u8],
    whole: &[u8],
    workers: u32,
    window: u32,
) -> Option<bool> {
    let gate = Passes::new(alloc, u64::from(workers), TURNS).ok()?;
    let asked = Asked {
        workers,
        window,
        step: 70_001,
    };
    let right = writes(rt, alloc, shape, plain, asked, End::Input, &gate, whole) == Some(true);
    let all = gate.is_each_once() && gate.is_by_all_of(workers as usize);
    Some(right && all && !gate.gave_up())
}

// The same for 64 chunks of the pattern.
fn all_pass<T: Threads + Wait + Sync>(
    rt: &T,
    alloc: Global,
    workers: u32,
    window: u32,
) -> Option<bool> {
    let shape = small()?;
    let plain = pattern(alloc, 262_144).ok()?;
    let whole = known(alloc, &shape, plain.as_slice(), &MANY_CHUNKS)?;
    pass_all(
        rt,
        alloc,
        &shape,
        plain.as_slice(),
        whole.as_slice(),
        workers,
        window,
    )
}

#[test]
fn all_workers_pass_with_each_chunk_of_a_block_once(rt: HostRuntime) {
    for (workers, window) in [(1, 16), (1, 256), (2, 16), (4, 32), (4, 256)] {
        assert!(rt;
            all_pass(&rt, rt.alloc(), workers, window) == Some(true),
            "{workers} {window}"
        );
    }
}
