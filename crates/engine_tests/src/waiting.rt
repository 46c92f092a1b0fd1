//! What is written before what is read: sealing in rounds, and sealing a stream with some chunks pending.
use crate::rounds::seal_by;
use container_core::{SealFault, Shape};
use crew_core::{Free, MAX_DEPTH};
use crew_tests::{counting_key, grant_of};
use io_core::{FromRead, ToWrite};
use sealing_core::run_pipe;
use std::alloc::Global;
use std::io;
use std::io::{ErrorKind, Read, Write};
use std::sync::Wait;
use std::sync::atomic::{AtomicU64, Ordering};
use std::thread::Threads;

// A reader of zeros. It fails if bytes from `from` on are requested before `wanted` bytes were written.
#[derive(Drop)]
struct Waiting<'a> {
    given: u64,
    all: u64,
    from: u64,
    wanted: u64,
    written: &'a AtomicU64,
}

impl Read for Waiting<'_> {
    fn read(&mut self, buf: &mut [u8]) -> io::Result<usize> {
        if self.given >= self.from && self.written.load(Ordering::SeqCst) < self.wanted {
            return Err(ErrorKind::WouldBlock.into());
        }
        let most = if self.given < self.from {
            self.from
        } else {
            self.all
        };
        let n = most.saturating_sub(self.given).min(buf.len() as u64) as usize;
        buf[..n].fill(0);
        self.given += n as u64;
        Ok(n)
    }
}

// A writer that counts the bytes it takes.
#[derive(Drop)]
struct Counting<'a> {
    written: &'a AtomicU64,
}

impl Write for Counting<'_> {
    fn write(&mut self, buf: &[u8]) -> io::Result<usize> {
        self.written.fetch_add(buf.len() as u64, Ordering::SeqCst);
        Ok(buf.len())
    }

    fn flush(&mut self) -> io::Result<()> {
        Ok(())
    }
}

// Seals five chunks of zeros. The bytes from `from` on are returned only after `wanted` bytes were written.
fn seal_waiting<T: Threads + Wait + Sync>(
    rt: &T,
    alloc: Global,
    from: u64,
    wanted: u64,
    workers: u32,
    window: u32,
) -> Option<Result<u64, SealFault>> {
    let written = AtomicU64::new(0);
    let mut reader = FromRead(Waiting {
        given: 0,
        all: 327_680,
        from,
        wanted,
        written: &written,
    });
    let mut writer = ToWrite(Counting { written: &written });
    let (result, _) = seal_by(
        rt,
        alloc,
        &mut reader,
        &mut writer,
        1 << 20,
        workers,
        window,
    )?;
    Some(result)
}

// After how many bytes the reader waits, until how many are written; the number of workers, the chunks of a round, and
// the result. Chunk 3 begins at byte 196,608, and chunk 4 at byte 262,144.
static WAITING: [(u64, u64, u32, u32, Result<u64, SealFault>); 5] = [
    // Rounds 0 and 1 are written before round 3 is read, so a reader that waits for that isn't kept waiting forever.
    // Round 2 isn't: this shows that the test can fail.
    (196_609, 131_128, 1, 1, Ok(327_680)),
    (196_609, 196_680, 1, 1, Err(SealFault::Read)),
    // With several workers: rounds 0 and 1 of one chunk before round 3, and round 0 of two chunks before round 2; but
    // not chunk 2, which is part of the previous round.
    (196_609, 131_128, 4, 1, Ok(327_680)),
    (262_145, 131_128, 4, 2, Ok(327_680)),
    (262_145, 131_129, 4, 2, Err(SealFault::Read)),
];

#[test]
fn a_round_is_written_before_the_second_behind_it_is_read(rt: HostRuntime) {
    for (from, wanted, workers, window, answer) in &WAITING {
        assert!(rt;
            seal_waiting(&rt, rt.alloc(), *from, *wanted, *workers, *window) == Some(*answer),
            "{from} {wanted} {workers}"
        );
    }
}

// Seals a stream of five chunks of zeros with one worker at this depth. The reader returns the bytes from `from` on
// only after `wanted` bytes were written.
fn pipe_waiting<T: Threads + Wait + Sync>(
    rt: &T,
    alloc: Global,
    from: u64,
    wanted: u64,
    depth: u32,
) -> Option<Result<u64, SealFault>> {
    if depth == 0 || depth > MAX_DEPTH {
        return None;
    }
    let grant = grant_of(alloc, 0)?;
    let written = AtomicU64::new(0);
    let mut reader = FromRead(Waiting {
        given: 0,
        all: 327_680,
        from,
        wanted,
        written: &written,
    });
    let mut writer = ToWrite(Counting { written: &written });
    let (key, shape) = (counting_key(), Shape::one());
    let (result, _) = run_pipe(
        rt,
        alloc,
        &key,
        &shape,
        grant,
        &mut reader,
        &mut writer,
        5,
        1,
        depth,
        &Free,
    );
    Some(result)
}

// After how many bytes the reader waits, until how many are written; the depth, and the result. The header is written
// first, and chunk 0 ends at byte 65,576 of the container.
static IN_HAND: [(u64, u64, u32, Result<u64, SealFault>); 7] = [
    // Chunk 0 and nothing more is written before the first, second or fourth chunk after it is read.
    (65_537, 65_576, 1, Ok(327_680)),
    (131_073, 65_576, 2, Ok(327_680)),
    (131_073, 65_577, 2, Err(SealFault::Read)),
    (262_145, 65_576, 4, Ok(327_680)),
    // One chunk earlier only the header is written.
    (65_537, 25, 2, Err(SealFault::Read)),
    (196_609, 25, 4, Err(SealFault::Read)),
    (262_145, 25, 64, Err(SealFault::Read)),
];

#[test]
fn no_more_chunks_are_in_hand_than_may_be(rt: HostRuntime) {
    for (from, wanted, depth, answer) in &IN_HAND {
        assert!(rt;
            pipe_waiting(&rt, rt.alloc(), *from, *wanted, *depth) == Some(*answer),
            "{from} {wanted} {depth}"
        );
    }
}
