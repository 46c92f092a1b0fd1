//! A file is read while it is processed: a reader that waits for a second worker to begin isn't kept waiting.
ghost use Rattle.std.specs.Prelude.{◌<◌, ◌≤◌};

use container_core::{CHUNK, HEADER, OpenFault, SEALED, SealFault, Shape, seal};
use crew_core::{Gate, MAX_WORKERS};
use crew_tests::{PREFIX, counting_key, grant_of, pattern};
use io_core::FromRead;
use io_memory::{Schedule, ToMemory};
use opening_core::{run_plain_by, run_verify_by};
use sealing_core::run_seal_by;
use std::alloc::Global;
use std::io;
use std::io::{ErrorKind, Read};
use std::sync::Wait;
use std::sync::atomic::{AtomicU64, Ordering};
use std::thread::Threads;
use std::time::Clock;

// How often the reader checks for the second worker: where there is one, and (`FEW_TURNS`) where there isn't.
const TURNS: u64 = 1_000_000_000;

const FEW_TURNS: u64 = 1000;

// A gate that counts the passes of all workers except the caller's thread.
#[derive(Drop)]
struct Others {
    passes: AtomicU64,
}

impl Gate for Others {
    fn pass(&self, worker: u32, _piece: u32) {
        if worker > 0 {
            self.passes.fetch_add(1, Ordering::SeqCst);
        }
    }
}

// A reader that returns the bytes up to a place, and the rest once another worker has passed the gate. It fails if none
// passes within `turns` turns.
#[derive(Drop)]
struct Held<'a> {
    bytes: &'a [u8],
    place: usize,
    from: usize,
    others: &'a Others,
    turns: u64,
}

impl Held<'_> {
    // Whether another worker has passed the gate, or does so within the turns.
    fn meets(&self) -> bool {
        for _turn in 0..self.turns {
            if self.others.passes.load(Ordering::SeqCst) > 0 {
                return true;
            }
        }
        false
    }
}

impl Read for Held<'_> {
    fn read(&mut self, buf: &mut [u8]) -> io::Result<usize> {
        if self.place >= self.from && !self.meets() {
            return Err(ErrorKind::WouldBlock.into());
        }
        let end = if self.place < self.from {
            self.from.min(self.bytes.len())
        } else {
            self.bytes.len()
        };
        let n = end.saturating_sub(self.place).min(buf.len());
        let Some(part) = self.bytes.get(self.place..self.place + n) else {
            return Ok(0);
        };
        buf[..n].copy_from_slice(part);
        self.place += n;
        Ok(n)
    }
}

// Seals a plaintext in rounds of two chunks. All bytes after the first round and one more byte are held.
fn seal_held_from<T: Threads + Wait + Sync>(
    rt: &T,
    alloc: Global,
    plain: &[u8],
    workers: u32,
    turns: u64,
) -> Option<Result<u64, SealFault>>
    requires workers { (0 < workers) × (workers ≤ MAX_WORKERS) }
{
    let grant = grant_of(alloc, 0)?;
    let others = Others {
        passes: AtomicU64::new(0),
    };
    let mut reader = FromRead(Held {
        bytes: plain,
        place: 0,
        from: 2 * CHUNK + 1,
        others: &others,
        turns,
    });
    let mut writer = ToMemory::new(alloc, 1 << 20, usize::MAX, Schedule::Never).ok()?;
    let key = counting_key();
    let mut kept = Vec::new(alloc);
    let (result, _) = run_seal_by(
        rt,
        alloc,
        &key,
        &Shape::one(),
        grant,
        &mut reader,
        &mut writer,
        1 << 20,
        workers,
        2,
        &others,
        &mut kept,
    );
    Some(result)
}

// The same for five chunks of the pattern.
fn seal_held<T: Threads + Wait + Sync>(
    rt: &T,
    alloc: Global,
    workers: u32,
    turns: u64,
) -> Option<Result<u64, SealFault>>
    requires workers { (0 < workers) × (workers ≤ MAX_WORKERS) }
{
    let plain = pattern(alloc, 5 * CHUNK).ok()?;
    seal_held_from(rt, alloc, plain.as_slice(), workers, turns)
}

// Verifies or opens a container in the same way.
fn read_held_from<T: Threads + Clock + Sync>(
    rt: &T,
    alloc: Global,
    bytes: &[u8],
    opens: bool,
    workers: u32,
    turns: u64,
) -> Result<u64, OpenFault>
    requires workers { (0 < workers) × (workers ≤ MAX_WORKERS) }
{
    let key = counting_key();
    let others = Others {
        passes: AtomicU64::new(0),
    };
    let mut reader = FromRead(Held {
        bytes,
        place: 0,
        from: HEADER + 2 * SEALED + 1,
        others: &others,
        turns,
    });
    if !opens {
        return run_verify_by(rt, alloc, &key, &mut reader, 1 << 20, workers, 2, &others);
    }
    match run_plain_by(rt, alloc, &key, &mut reader, 1 << 20, workers, 2, &others) {
        Ok(plain) => Ok(plain.len() as u64),
        Err(fault) => Err(fault),
    }
}

// The same for the container of five chunks of the pattern.
fn read_held<T: Threads + Clock + Sync>(
    rt: &T,
    alloc: Global,
    opens: bool,
    workers: u32,
    turns: u64,
) -> Option<Result<u64, OpenFault>>
    requires workers { (0 < workers) × (workers ≤ MAX_WORKERS) }
{
    let plain = pattern(alloc, 5 * CHUNK).ok()?;
    let bytes = seal(
        alloc,
        &counting_key(),
        &Shape::one(),
        PREFIX,
        plain.as_slice(),
    )
    .ok()?;
    Some(read_held_from(rt, alloc, bytes.as_slice(), opens, workers, turns))
}

#[test]
fn a_round_is_sealed_while_the_next_one_is_read(rt: HostRuntime) {
    assert!(rt; seal_held(&rt, rt.alloc(), 2, TURNS) == Some(Ok(327_680)));
    // Shows that the test can fail: with one worker, nothing is done while reading.
    assert!(rt; seal_held(&rt, rt.alloc(), 1, FEW_TURNS) == Some(Err(SealFault::Read)));
}

#[test]
fn a_round_is_opened_while_the_next_one_is_read(rt: HostRuntime) {
    for opens in [false, true] {
        assert!(rt; read_held(&rt, rt.alloc(), opens, 2, TURNS) == Some(Ok(327_680)));
        let alone = read_held(&rt, rt.alloc(), opens, 1, FEW_TURNS);
        assert!(rt; alone == Some(Err(OpenFault::Read)));
    }
}
