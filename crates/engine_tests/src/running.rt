//! Workers that run open one container after another.
ghost use Rattle.std.specs.Prelude.{◌<◌, length};

use container_core::{CHUNK, Key, OpenFault, Shape, seal};
use crew_core::{Gate, MAX_WORKERS};
use crew_tests::{PREFIX, counting_key, pattern};
use io_memory::{FromMemory, Schedule, ToMemory};
use opening_core::{Workers, boxes_beside, check_beside, read_beside, write_again};
use std::alloc::Global;
use std::sync::atomic::AtomicU64;
use std::sync::atomic::Ordering::SeqCst;
use std::test::Fail;
use std::thread::Threads;
use std::time::Clock;
use worker_core::{LetterBox, with_workers};

const LIMIT: u64 = 1 << 30;

const MOST: usize = usize::MAX;

// How often a pass looks for the other worker.
const TURNS: u64 = 1_000_000_000;

// How many readings there are: three each of three containers, and two of one that is refused.
const READINGS: u64 = 11;

// Holds worker 0 until worker 1 has passed with a piece of this reading.
#[derive(Drop)]
struct EachReading {
    // The readings that have begun.
    begun: AtomicU64,
    // The last one in which worker 1 passed, and in how many it did.
    last: AtomicU64,
    passed: AtomicU64,
    gave_up: AtomicU64,
}

impl EachReading {
    fn new() -> EachReading {
        EachReading {
            begun: AtomicU64::new(0),
            last: AtomicU64::new(0),
            passed: AtomicU64::new(0),
            gave_up: AtomicU64::new(0),
        }
    }

    // Another reading begins.
    fn begin(&self) {
        self.begun.fetch_add(1, SeqCst);
    }

    // Whether worker 1 passed with a piece of each reading.
    fn is_passed(&self) -> bool {
        self.begun.load(SeqCst) == READINGS
            && self.passed.load(SeqCst) == READINGS
            && self.gave_up.load(SeqCst) == 0
    }
}

impl Gate for EachReading {
    fn pass(&self, worker: u32, _piece: u32) {
        let reading = self.begun.load(SeqCst);
        if worker == 1 {
            if self.last.swap(reading, SeqCst) != reading {
                self.passed.fetch_add(1, SeqCst);
            }
            return;
        }
        for _turn in 0..TURNS {
            if self.last.load(SeqCst) == reading {
                return;
            }
        }
        self.gave_up.store(1, SeqCst);
    }
}

// What a container is read as. It must be checked, read and written alike.
fn read_by<'a, T: Threads + Clock + Sync>(
    rt: &T,
    alloc: Global,
    key: &'a Key,
    container: &[u8],
    boxes: &[LetterBox<'a>],
    gate: &EachReading,
) -> Option<Result<Vec<u8>, OpenFault>>
    requires { length boxes.now < MAX_WORKERS }
{
    let workers = Workers::Running(boxes);
    gate.begin();
    let mut reader = FromMemory::new(container, MOST, Schedule::Never);
    let checked = check_beside(rt, alloc, key, &mut reader, LIMIT, workers, gate);
    gate.begin();
    let mut reader = FromMemory::new(container, MOST, Schedule::Never);
    let plain = match read_beside(rt, alloc, key, &mut reader, LIMIT, workers, gate) {
        Ok((_, plain)) => plain,
        Err(fault) => {
            return match checked {
                Err(other) if other == fault => Some(Err(fault)),
                _ => None,
            };
        }
    };
    let (header, bytes) = checked.ok()?;
    let mut first = ToMemory::new(alloc, 64, MOST, Schedule::Never).ok()?;
    plain.put_to(&mut first).ok()?;
    gate.begin();
    let mut reader = FromMemory::new(container, MOST, Schedule::Never);
    let second = ToMemory::new(alloc, 64, MOST, Schedule::Never).ok()?;
    let (written, second) = write_again(
        rt,
        alloc,
        key,
        &header,
        &mut reader,
        second,
        LIMIT,
        workers,
        gate,
    );
    if written == Ok(bytes) && second.bytes() == first.bytes() {
        let mut all = Vec::new(alloc);
        all.extend_from_slice(first.bytes()).ok()?;
        Some(Ok(all))
    } else {
        None
    }
}

// Whether these workers read a container of this plaintext in chunks of 2^exponent bytes.
fn is_read<'a, T: Threads + Clock + Sync>(
    rt: &T,
    alloc: Global,
    key: &'a Key,
    exponent: u32,
    plain: &[u8],
    boxes: &[LetterBox<'a>],
    gate: &EachReading,
) -> Option<bool>
    requires { length boxes.now < MAX_WORKERS }
{
    let shape = Shape::two(exponent, b"").ok()?;
    let container = seal(alloc, key, &shape, PREFIX, plain).ok()?;
    match read_by(rt, alloc, key, container.as_slice(), boxes, gate)? {
        Ok(all) => Some(all.as_slice() == plain),
        Err(_) => Some(false),
    }
}

// Whether these workers refuse a container whose second chunk doesn't check.
fn is_refused<'a, T: Threads + Clock + Sync>(
    rt: &T,
    alloc: Global,
    key: &'a Key,
    plain: &[u8],
    boxes: &[LetterBox<'a>],
    gate: &EachReading,
) -> Option<bool>
    requires { length boxes.now < MAX_WORKERS }
{
    let mut container = seal(alloc, key, &Shape::one(), PREFIX, plain).ok()?;
    *container.get_mut(24 + 65_552)? ^= 1;
    match read_by(rt, alloc, key, container.as_slice(), boxes, gate)? {
        Ok(_) => Some(false),
        Err(fault) => Some(fault == OpenFault::Forged { chunk: 1 }),
    }
}

// Containers in turn: one in small chunks, a long one in greater chunks, one that is refused, and a short one.
fn read_in_turn<'a, T: Threads + Clock + Sync>(
    rt: &T,
    alloc: Global,
    key: &'a Key,
    plain: &[u8],
    boxes: &[LetterBox<'a>],
    gate: &EachReading,
) -> Option<bool>
    requires { length boxes.now < MAX_WORKERS }
{
    let small = is_read(rt, alloc, key, 12, plain.get(..300_000)?, boxes, gate)?;
    let long = is_read(rt, alloc, key, 16, plain, boxes, gate)?;
    let refused = is_refused(rt, alloc, key, plain, boxes, gate)?;
    let short = is_read(rt, alloc, key, 16, plain.get(..CHUNK + 1)?, boxes, gate)?;
    Some(small && long && refused && short)
}

fn are_read_in_turn<T: Threads + Clock + Sync>(
    rt: &T,
    alloc: Global,
    plain: &[u8],
) -> Option<bool> {
    let key = counting_key();
    let key = &key;
    let boxes = boxes_beside(alloc, 2);
    let boxes = boxes.as_slice();
    let gate = EachReading::new();
    let gate = &gate;
    let mut chore = || -> Option<bool>
        requires { length boxes.now < MAX_WORKERS }
    { read_in_turn(rt, alloc, key, plain, boxes, gate) };
    let are_read = with_workers(rt, alloc, boxes, gate, &mut chore)?;
    Some(are_read && gate.is_passed())
}

// The second worker, which is started once, has a piece of each reading of each container. Nothing of one is in another.
#[test]
fn workers_that_run_open_one_container_after_another(rt: HostRuntime) -> Result<(), Fail> {
    let plain = pattern(rt.alloc(), 12 * CHUNK + 5)?;
    assert!(rt; are_read_in_turn(&rt, rt.alloc(), plain.as_slice()) == Some(true));
    Ok(())
}
