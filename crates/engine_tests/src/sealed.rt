//! A plaintext sealed into an output whose contracts say what it may hold. No other write could be proved.
ghost use Rattle.std.specs.Prelude.{◌≤◌, ◌<◌};

use container_core::{Shape, seal};
use crew_core::{Free, MAX_WORKERS};
use crew_tests::{counting_key, grant_of, pattern};
use io_memory::{FromMemory, Schedule};
use output_tests::Bounded;
use sealing_core::run_seal_by;
use std::alloc::Global;
use std::sync::Wait;
use std::thread::Threads;

// The limit on a plaintext's bytes.
const MOST: u64 = 1 << 20;

// The chunks of a window.
const WINDOW: u32 = 2;

// Whether the output holds the container of a plaintext, sealed into it with `workers` workers as file 5. `kept` is the
// buffer of the plaintext before.
fn holds_sealed<T: Threads + Wait + Sync>(
    rt: &T,
    alloc: Global,
    shape: &Shape,
    plain: &[u8],
    workers: u32,
    kept: &mut Vec<u8>,
) -> Option<bool>
    requires workers { (0 < workers) × (workers ≤ MAX_WORKERS) }
{
    let key = counting_key();
    let grant = grant_of(alloc, 5)?;
    let prefix = grant.prefix();
    let whole = seal(alloc, &key, shape, prefix, plain).ok()?;
    let mut reader = FromMemory::new(plain, 1_000, Schedule::Never);
    let mut output = Bounded::new(alloc, &key, shape, prefix);
    let (result, _spent) = run_seal_by(
        rt,
        alloc,
        &key,
        shape,
        grant,
        &mut reader,
        &mut output,
        MOST,
        workers,
        WINDOW,
        &Free,
        kept,
    );
    Some(result == Ok(plain.len() as u64) && output.bytes.as_slice() == whole.as_slice())
}

// Lengths at the ends of chunks and windows, next to them, and elsewhere. A buffer that is kept had longer plaintexts
// and shorter ones.
static COUNTS: [usize; 7] = [8_193, 30_000, 1, 4_097, 0, 8_192, 4_096];

// Whether it does for each of these lengths, with one worker and with two. Where two plaintexts have a byte in one place
// it is another one.
fn all_hold<T: Threads + Wait + Sync>(rt: &T, alloc: Global, shape: &Shape) -> Option<bool> {
    let mut kept = Vec::new(alloc);
    for turn in 0..COUNTS.len() {
        let plain = pattern(alloc, COUNTS[turn] + turn).ok()?;
        let plain = &plain.as_slice()[turn..];
        for workers in [1, 2] {
            if !holds_sealed(rt, alloc, shape, plain, workers, &mut kept)? {
                return Some(false);
            }
        }
    }
    Some(true)
}

#[test]
fn a_sealing_is_taken(rt: HostRuntime) {
    assert!(rt; all_hold(&rt, rt.alloc(), &Shape::one()) == Some(true));
    let Ok(two) = Shape::two(12, b"home") else {
        panic!(rt; "a label of four bytes is refused");
    };
    assert!(rt; all_hold(&rt, rt.alloc(), &two) == Some(true));
}
