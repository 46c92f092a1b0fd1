//! How engines use a gate: as many workers as asked for do work, and each passes the given gate. Whatever the gate
//! does, the result is the container or the plaintext.
ghost use Rattle.std.specs.Prelude.{◌<◌, ◌≤◌};

use crate::windows::LIMIT;
use container_core::{CHUNK, Shape, seal};
use crew_core::{Gate, MAX_DEPTH, MAX_WORKERS};
use crew_tests::{Late, Meeting, PREFIX, Recorder, counting_key, grant_of, pattern, zeros};
use io_memory::{FromMemory, Schedule, ToMemory};
use opening_core::{run_check, run_open, run_plain, run_read, run_verify};
use sealing_core::{run_pipe, run_seal};
use std::alloc::Global;
use std::sync::Wait;
use std::sync::atomic::AtomicU64;
use std::sync::atomic::Ordering::SeqCst;
use std::test::Fail;
use std::thread::Threads;
use std::time::Clock;

const MOST: usize = usize::MAX;

// How often a pass checks for the others: where workers can meet, and (`FEW_TURNS`) where they can't.
const TURNS: u64 = 1_000_000_000;

const FEW_TURNS: u64 = 1000;

#[derive(Clone, Copy)]
enum Engine {
    Seal,
    // With this depth.
    Pipe(u32),
    Open,
    Verify,
    Plain,
    Read,
    Check,
}

// Those whose rounds have at least eight chunks of 64 KiB, and those whose rounds have four.
static OF_EIGHT: [Engine; 5] = [
    Engine::Seal,
    Engine::Pipe(64),
    Engine::Open,
    Engine::Verify,
    Engine::Plain,
];

static OF_FOUR: [Engine; 2] = [Engine::Read, Engine::Check];

static ENGINES: [Engine; 7] = [
    Engine::Seal,
    Engine::Pipe(64),
    Engine::Open,
    Engine::Verify,
    Engine::Plain,
    Engine::Read,
    Engine::Check,
];

// Whether an engine works on this plaintext or its container, and returns what it must.
fn runs<R: Threads + Clock + Wait + Sync, G: Gate + Sync>(
    rt: &R,
    alloc: Global,
    engine: Engine,
    plain: &[u8],
    workers: u32,
    gate: &G,
) -> bool
    requires workers { (0 < workers) × (workers ≤ MAX_WORKERS) }
{
    let Ok(sealed) = seal(alloc, &counting_key(), &Shape::one(), PREFIX, plain) else {
        return false;
    };
    let container = sealed.as_slice();
    match engine {
        Engine::Seal => seals(rt, alloc, plain, container, workers, gate) == Some(true),
        Engine::Pipe(depth) => {
            pipes(rt, alloc, plain, container, workers, depth, gate) == Some(true)
        }
        _ => reads(rt, alloc, engine, plain, container, workers, gate),
    }
}

fn seals<R: Threads + Wait + Sync, G: Gate + Sync>(
    rt: &R,
    alloc: Global,
    plain: &[u8],
    container: &[u8],
    workers: u32,
    gate: &G,
) -> Option<bool>
    requires workers { (0 < workers) × (workers ≤ MAX_WORKERS) }
{
    let key = counting_key();
    let mut reader = FromMemory::new(plain, MOST, Schedule::Never);
    let mut writer = ToMemory::new(alloc, 64, MOST, Schedule::Never).ok()?;
    let grant = grant_of(alloc, 0)?;
    let (sealed, _) = run_seal(
        rt,
        alloc,
        &key,
        &Shape::one(),
        grant,
        &mut reader,
        &mut writer,
        LIMIT,
        workers,
        gate,
    );
    Some(sealed == Ok(plain.len() as u64) && writer.bytes() == container)
}

// The most chunks of a stream.
const CHUNKS: u32 = 18;

fn pipes<R: Threads + Wait + Sync, G: Gate + Sync>(
    rt: &R,
    alloc: Global,
    plain: &[u8],
    container: &[u8],
    workers: u32,
    depth: u32,
    gate: &G,
) -> Option<bool>
    requires workers { (0 < workers) × (workers ≤ MAX_WORKERS) }
{
    if depth == 0 || depth > MAX_DEPTH {
        return None;
    }
    let key = counting_key();
    let mut reader = FromMemory::new(plain, MOST, Schedule::Never);
    let mut writer = ToMemory::new(alloc, 64, MOST, Schedule::Never).ok()?;
    let grant = grant_of(alloc, 0)?;
    let (sealed, _) = run_pipe(
        rt,
        alloc,
        &key,
        &Shape::one(),
        grant,
        &mut reader,
        &mut writer,
        CHUNKS,
        workers,
        depth,
        gate,
    );
    Some(sealed == Ok(plain.len() as u64) && writer.bytes() == container)
}

fn reads<R: Threads + Clock + Sync, G: Gate + Sync>(
    rt: &R,
    alloc: Global,
    engine: Engine,
    plain: &[u8],
    container: &[u8],
    workers: u32,
    gate: &G,
) -> bool
    requires workers { (0 < workers) × (workers ≤ MAX_WORKERS) }
{
    let key = counting_key();
    let bytes = plain.len() as u64;
    let mut reader = FromMemory::new(container, MOST, Schedule::Never);
    match engine {
        Engine::Open => opens(rt, alloc, &mut reader, plain, workers, gate) == Some(true),
        Engine::Verify => {
            run_verify(rt, alloc, &key, &mut reader, LIMIT, workers, gate) == Ok(bytes)
        }
        Engine::Read => {
            reads_all(rt, alloc, &mut reader, plain, container, workers, gate) == Some(true)
        }
        Engine::Check => match run_check(rt, alloc, &key, &mut reader, LIMIT, workers, gate) {
            Ok((header, checked)) => checked == bytes && begins(container, header.bytes()),
            Err(_) => false,
        },
        _ => match run_plain(rt, alloc, &key, &mut reader, LIMIT, workers, gate) {
            Ok(all) => all.as_slice() == plain,
            Err(_) => false,
        },
    }
}

fn begins(bytes: &[u8], front: &[u8]) -> bool {
    bytes.get(..front.len()) == Some(front)
}

// Whether `run_read` returns the header and the plaintext.
fn reads_all<R: Threads + Clock + Sync, G: Gate + Sync>(
    rt: &R,
    alloc: Global,
    reader: &mut FromMemory<'_>,
    plain: &[u8],
    container: &[u8],
    workers: u32,
    gate: &G,
) -> Option<bool>
    requires workers { (0 < workers) × (workers ≤ MAX_WORKERS) }
{
    let key = counting_key();
    let mut writer = ToMemory::new(alloc, 64, MOST, Schedule::Never).ok()?;
    let (header, all) = run_read(rt, alloc, &key, reader, LIMIT, workers, gate).ok()?;
    let is_put = all.put_to(&mut writer).is_ok() && all.len() == plain.len() as u64;
    Some(is_put && writer.bytes() == plain && begins(container, header.bytes()))
}

fn opens<R: Threads + Clock + Sync, G: Gate + Sync>(
    rt: &R,
    alloc: Global,
    reader: &mut FromMemory<'_>,
    plain: &[u8],
    workers: u32,
    gate: &G,
) -> Option<bool>
    requires workers { (0 < workers) × (workers ≤ MAX_WORKERS) }
{
    let key = counting_key();
    let mut writer = ToMemory::new(alloc, 64, MOST, Schedule::Never).ok()?;
    let opened = run_open(rt, alloc, &key, reader, &mut writer, LIMIT, workers, gate);
    Some(opened == Ok(plain.len() as u64) && writer.bytes() == plain)
}

// The number of chunks, which is also how many passes must meet; the number of workers; how often a pass checks for the
// others; and whether the gate gives up.
static MEETINGS: [(u32, u32, u64, bool); 4] = [
    (2, 2, TURNS, false),
    (4, 4, TURNS, false),
    // Shows that these can fail: with one worker fewer, one passes twice, and the gate gives up.
    (2, 1, FEW_TURNS, true),
    (4, 3, FEW_TURNS, true),
];

// Whether `workers` workers of each engine meet (or don't) as expected.
fn are_met<R: Threads + Clock + Wait + Sync>(
    rt: &R,
    alloc: Global,
    chunks: u32,
    workers: u32,
    turns: u64,
    gives_up: bool,
) -> Option<bool> {
    if chunks == 0 || chunks > 16 || workers == 0 || workers > MAX_WORKERS {
        return None;
    }
    let plain = zeros(alloc, (chunks as usize - 1) * CHUNK + 1).ok()?;
    for engine in &ENGINES {
        let gate = Meeting::new(u64::from(chunks), turns);
        let is_done = runs(rt, alloc, *engine, plain.as_slice(), workers, &gate);
        if !is_done || !gate.is_met(u64::from(chunks), gives_up) {
            return Some(false);
        }
    }
    Some(true)
}

#[test]
fn as_many_workers_meet_in_each_engine_as_are_asked_for(rt: HostRuntime) {
    for (chunks, workers, turns, gives_up) in &MEETINGS {
        assert!(rt;
            are_met(&rt, rt.alloc(), *chunks, *workers, *turns, *gives_up) == Some(true),
            "{chunks} chunks by {workers}"
        );
    }
}

// Shows that a meeting can fail even if the gate doesn't give up: a worker that passes twice has met nobody.
#[test]
fn a_worker_does_not_meet_itself(rt: HostRuntime) {
    let alone = Meeting::new(1, TURNS);
    alone.pass(0, 0);
    alone.pass(0, 1);
    assert!(rt; !alone.is_met(2, false));
    let both = Meeting::new(1, TURNS);
    both.pass(0, 0);
    both.pass(1, 1);
    assert!(rt; both.is_met(2, false));
}

// Whether two workers meet over a container of two chunks of 1 MiB. Its windows have a chunk for each worker.
fn meet_over_great_chunks<R: Threads + Clock + Sync>(
    rt: &R,
    alloc: Global,
    plain: &[u8],
) -> Option<bool> {
    let shape = Shape::two(20, b"").ok()?;
    let container = seal(alloc, &counting_key(), &shape, PREFIX, plain).ok()?;
    for engine in [Engine::Read, Engine::Check] {
        let gate = Meeting::new(2, TURNS);
        let is_done = reads(rt, alloc, engine, plain, container.as_slice(), 2, &gate);
        if !is_done || !gate.is_met(2, false) {
            return Some(false);
        }
    }
    Some(true)
}

#[test]
fn two_workers_meet_over_great_chunks(rt: HostRuntime) -> Result<(), Fail> {
    let plain = zeros(rt.alloc(), (1 << 20) + 1)?;
    assert!(rt; meet_over_great_chunks(&rt, rt.alloc(), plain.as_slice()) == Some(true));
    Ok(())
}

// Whether `workers` workers of an engine pass once with each of 18 pieces.
fn passes_each_once<R: Threads + Clock + Wait + Sync>(
    rt: &R,
    alloc: Global,
    engine: Engine,
    plain: &[u8],
    workers: u32,
) -> Option<bool>
    requires workers { (0 < workers) × (workers ≤ MAX_WORKERS) }
{
    let gate = Recorder::new(alloc, 18).ok()?;
    let is_done = runs(rt, alloc, engine, plain, workers, &gate);
    Some(is_done && gate.is_each_once(u64::from(workers)))
}

fn pass_each_once<R: Threads + Clock + Wait + Sync>(
    rt: &R,
    alloc: Global,
    plain: &[u8],
    workers: u32,
) -> bool
    requires workers { (0 < workers) × (workers ≤ MAX_WORKERS) }
{
    for engine in &ENGINES {
        if passes_each_once(rt, alloc, *engine, plain, workers) != Some(true) {
            return false;
        }
    }
    true
}

#[test]
fn all_workers_pass_with_each_piece_once(rt: HostRuntime) -> Result<(), Fail> {
    let plain = pattern(rt.alloc(), 17 * CHUNK + 1)?;
    assert!(rt; pass_each_once(&rt, rt.alloc(), plain.as_slice(), 1));
    assert!(rt; pass_each_once(&rt, rt.alloc(), plain.as_slice(), 4));
    assert!(rt; pass_each_once(&rt, rt.alloc(), plain.as_slice(), 16));
    Ok(())
}

// Whether four workers pass once with each piece of a stream, at each depth.
fn pass_at_any_depth<R: Threads + Clock + Wait + Sync>(
    rt: &R,
    alloc: Global,
    plain: &[u8],
) -> bool {
    for depth in 1..65 {
        if passes_each_once(rt, alloc, Engine::Pipe(depth), plain, 4) != Some(true) {
            return false;
        }
    }
    true
}

#[test]
fn all_pieces_of_a_stream_pass_at_any_depth(rt: HostRuntime) -> Result<(), Fail> {
    let plain = pattern(rt.alloc(), 17 * CHUNK + 1)?;
    assert!(rt; pass_at_any_depth(&rt, rt.alloc(), plain.as_slice()));
    Ok(())
}

// Whether each engine's first worker makes the other pieces while the second is held with one.
fn are_held_with_one<R: Threads + Clock + Wait + Sync>(
    rt: &R,
    alloc: Global,
    engines: &[Engine],
    plain: &[u8],
    others: u64,
) -> bool {
    for engine in engines {
        let gate = Late::new(others, TURNS);
        let is_done = runs(rt, alloc, *engine, plain, 2, &gate);
        if !is_done || gate.gave_up() || gate.passes() != (others, 1) {
            return false;
        }
    }
    true
}

// A worker that is slow with one piece holds up no other: meanwhile the caller's makes the others of the round.
#[test]
fn a_held_worker_holds_one_piece(rt: HostRuntime) -> Result<(), Fail> {
    let eight = pattern(rt.alloc(), 8 * CHUNK)?;
    let four = pattern(rt.alloc(), 4 * CHUNK)?;
    assert!(rt; are_held_with_one(&rt, rt.alloc(), &OF_EIGHT, eight.as_slice(), 7));
    assert!(rt; are_held_with_one(&rt, rt.alloc(), &OF_FOUR, four.as_slice(), 3));
    Ok(())
}

// Holds worker 0 with a piece of a round of four chunks until worker 1 has passed with the three others.
#[derive(Drop)]
struct EachRound {
    passes: [AtomicU64; 3],
    gave_up: AtomicU64,
}

impl EachRound {
    fn new() -> EachRound {
        EachRound {
            passes: [AtomicU64::new(0), AtomicU64::new(0), AtomicU64::new(0)],
            gave_up: AtomicU64::new(0),
        }
    }

    // Whether worker 1 passed with three pieces of each round at least.
    fn is_passed(&self) -> bool {
        for passes in &self.passes {
            if passes.load(SeqCst) < 3 {
                return false;
            }
        }
        self.gave_up.load(SeqCst) == 0
    }
}

impl Gate for EachRound {
    fn pass(&self, worker: u32, piece: u32) {
        let Some(passes) = self.passes.get(piece as usize / 4) else {
            return;
        };
        if worker == 1 {
            passes.fetch_add(1, SeqCst);
            return;
        }
        for _turn in 0..TURNS {
            if passes.load(SeqCst) >= 3 {
                return;
            }
        }
        self.gave_up.store(1, SeqCst);
    }
}

// Whether a second worker that lasts makes three pieces of each of three rounds, or all four.
fn works_in_each_round<R: Threads + Clock + Sync>(
    rt: &R,
    alloc: Global,
    plain: &[u8],
) -> Option<bool> {
    let shape = Shape::one();
    let container = seal(alloc, &counting_key(), &shape, PREFIX, plain).ok()?;
    for engine in &OF_FOUR {
        let gate = EachRound::new();
        let is_done = reads(rt, alloc, *engine, plain, container.as_slice(), 2, &gate);
        if !is_done || !gate.is_passed() {
            return Some(false);
        }
    }
    Some(true)
}

#[test]
fn a_worker_that_lasts_works_in_each_round(rt: HostRuntime) -> Result<(), Fail> {
    let plain = pattern(rt.alloc(), 12 * CHUNK)?;
    assert!(rt; works_in_each_round(&rt, rt.alloc(), plain.as_slice()) == Some(true));
    Ok(())
}
