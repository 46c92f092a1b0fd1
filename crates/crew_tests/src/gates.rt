//! How workers pass a gate.
ghost use Rattle.std.specs.Prelude.{◌<◌, ◌≤◌, length};

use crate::sealed::{opens_to, sealed};
use crate::{EIGHT, Late, Meeting, Recorder, ZEROS, is_digest, pattern, zeros};
use container_core::MAX_PLAIN;
use crew_core::MAX_WORKERS;
use std::alloc::Global;
use std::test::Fail;
use std::thread::Threads;

// How often a pass checks for the others: where workers can meet, and (`FEW_TURNS`) where they can't.
const TURNS: u64 = 1_000_000_000;

const FEW_TURNS: u64 = 1000;

// A gate that `wanted` passes must meet, with few turns if it is expected to give up.
fn meeting(wanted: u64, gives_up: bool) -> Meeting {
    Meeting::new(wanted, if gives_up { FEW_TURNS } else { TURNS })
}

// Whether `workers` workers open a container to this plaintext at a gate that holds all passes until `wanted` have
// come. There must be `wanted` passes, and the gate gives up exactly if `gives_up`.
fn opens_held<R: Threads + Sync>(
    rt: &R,
    alloc: Global,
    bytes: &[u8],
    plain: &[u8],
    workers: u32,
    wanted: u64,
    gives_up: bool,
) -> bool
    requires workers { (0 < workers) × (workers ≤ MAX_WORKERS) }
{
    let gate = meeting(wanted, gives_up);
    opens_to(rt, alloc, bytes, plain, workers, &gate) && gate.is_met(wanted, gives_up)
}

// The container that `workers` workers seal at such a gate. They then open it at another. Each gate must give up
// exactly if `gives_up`.
fn held<R: Threads + Sync>(
    rt: &R,
    alloc: Global,
    plain: &[u8],
    workers: u32,
    wanted: u64,
    gives_up: bool,
) -> Option<Vec<u8>>
    requires plain { length plain.now ≤ MAX_PLAIN }
    requires workers { (0 < workers) × (workers ≤ MAX_WORKERS) }
{
    let gate = meeting(wanted, gives_up);
    let bytes = sealed(rt, alloc, 0, plain, workers, &gate)?;
    if gate.is_met(wanted, gives_up)
        && opens_held(
            rt,
            alloc,
            bytes.as_slice(),
            plain,
            workers,
            wanted,
            gives_up,
        )
    {
        Some(bytes)
    } else {
        None
    }
}

// The number of zero bytes to seal and open, the number of workers, how many must meet, and whether the gate gives up.
static MEETINGS: [(usize, u32, u64, bool); 4] = [
    (65_537, 2, 2, false),
    // Shows that the test can fail: with one worker the container is the same.
    (65_537, 1, 2, true),
    // Each worker has its own thread: with fewer threads, four passes couldn't all be held at once.
    (196_609, 4, 4, false),
    // Shows that the test can fail: of three workers only three passes come at first.
    (196_609, 3, 4, true),
];

// Whether `held` returns a container with these arguments. For two chunks it must be the known one.
fn is_met<R: Threads + Sync>(
    rt: &R,
    alloc: Global,
    bytes: usize,
    workers: u32,
    wanted: u64,
    gives_up: bool,
) -> Option<bool> {
    if bytes > 1 << 24 || workers == 0 || workers > MAX_WORKERS {
        return None;
    }
    let plain = zeros(alloc, bytes).ok()?;
    let sealed = held(rt, alloc, plain.as_slice(), workers, wanted, gives_up)?;
    Some(bytes != 65_537 || is_digest(sealed.as_slice(), 65_593, &ZEROS))
}

#[test]
fn as_many_workers_meet_as_are_asked_for(rt: HostRuntime) {
    for (bytes, workers, wanted, gives_up) in &MEETINGS {
        assert!(rt;
            is_met(&rt, rt.alloc(), *bytes, *workers, *wanted, *gives_up) == Some(true),
            "{workers} workers, {wanted} wanted"
        );
    }
}

// Whether each of `pieces` pieces is passed once when `workers` workers open a container to this plaintext.
fn are_opened_once<R: Threads + Sync>(
    rt: &R,
    alloc: Global,
    bytes: &[u8],
    plain: &[u8],
    chunks: u32,
    workers: u32,
) -> Option<bool>
    requires { (0 < workers) × (workers ≤ MAX_WORKERS) }
{
    let gate = Recorder::new(alloc, chunks).ok()?;
    Some(opens_to(rt, alloc, bytes, plain, workers, &gate) && gate.is_each_once(u64::from(workers)))
}

// The same when they seal this plaintext, and when they open its container.
fn are_passed_once<R: Threads + Sync>(
    rt: &R,
    alloc: Global,
    plain: &[u8],
    chunks: u32,
    workers: u32,
) -> Option<bool>
    requires plain { length plain.now ≤ MAX_PLAIN }
    requires workers { (0 < workers) × (workers ≤ MAX_WORKERS) }
{
    let gate = Recorder::new(alloc, chunks).ok()?;
    let bytes = sealed(rt, alloc, 0, plain, workers, &gate)?;
    let opened = are_opened_once(rt, alloc, bytes.as_slice(), plain, chunks, workers);
    Some(opened == Some(true) && gate.is_each_once(u64::from(workers)))
}

#[test]
fn each_piece_is_passed_once(rt: HostRuntime) -> Result<(), Fail> {
    let plain = pattern(rt.alloc(), 1_114_113)?;
    // 1, 4, 7, 10, 13 and 16 workers.
    for third in 0..6 {
        let workers = 3 * third + 1;
        assert!(rt; are_passed_once(&rt, rt.alloc(), plain.as_slice(), 18, workers) == Some(true));
    }
    Ok(())
}

// More pieces than two rounds of 64.
#[test]
fn each_piece_is_passed_once_in_three_rounds(rt: HostRuntime) -> Result<(), Fail> {
    let plain = pattern(rt.alloc(), 128 * 65_536 + 1)?;
    for workers in 2..4 {
        assert!(rt; are_passed_once(&rt, rt.alloc(), plain.as_slice(), 129, workers) == Some(true));
    }
    Ok(())
}

// Whether the gate never gave up, and one worker passed seven times, the other once.
fn held_one(gate: &Late) -> bool {
    !gate.gave_up() && gate.passes() == (7, 1)
}

// Whether two workers open a container of eight chunks to this plaintext while one of them is held with one piece.
fn opens_late<R: Threads + Sync>(rt: &R, alloc: Global, bytes: &[u8], plain: &[u8]) -> bool {
    let gate = Late::new(7, TURNS);
    opens_to(rt, alloc, bytes, plain, 2, &gate) && held_one(&gate)
}

// The container of eight chunks that two workers seal while one of them is held with one piece.
fn sealed_late<R: Threads + Sync>(rt: &R, alloc: Global, plain: &[u8]) -> Option<Vec<u8>>
    requires plain { length plain.now ≤ MAX_PLAIN }
{
    let gate = Late::new(7, TURNS);
    let bytes = sealed(rt, alloc, 0, plain, 2, &gate)?;
    if held_one(&gate) { Some(bytes) } else { None }
}

// A held worker holds one piece: the other makes the remaining seven, and nobody waits forever. With shares dealt
// beforehand it would pass four times, and the gate would give up.
#[test]
fn a_held_worker_holds_one_piece(rt: HostRuntime) -> Result<(), Fail> {
    let plain = pattern(rt.alloc(), 524_288)?;
    let bytes = sealed_late(&rt, rt.alloc(), plain.as_slice()).ok_or("not sealed")?;
    assert!(rt; is_digest(bytes.as_slice(), 524_440, &EIGHT));
    assert!(rt; opens_late(&rt, rt.alloc(), bytes.as_slice(), plain.as_slice()));
    Ok(())
}
