//! Reading continues while chunks are sealed. A reader is held until chunk 0 is being sealed, and chunk 0 until chunk 1
//! is. Nobody waits forever.
use crate::containers::TWO_CHUNKS;
use crate::gates::Crossing;
use crate::pipes::{Asked, known, piped, small};
use container_core::Shape;
use crew_tests::zeros;
use io_core::FromRead;
use io_memory::{Schedule, ToMemory};
use std::alloc::Global;
use std::io;
use std::io::Read;
use std::sync::Wait;
use std::thread::Threads;

// How often the reader and the gate check: where they can meet, and (`FEW_TURNS`) where they can't.
const TURNS: u64 = 1_000_000_000;

const FEW_TURNS: u64 = 1_000;

// The byte that is held, counted from 0: the first after chunk 0 and the byte read with it.
const HELD: usize = 4_097;

// A reader that returns a byte a call. It returns byte 4,097 once chunk 0's pass has begun, or after the gate's turns.
#[derive(Drop)]
struct Held<'a> {
    rest: &'a [u8],
    given: usize,
    gate: &'a Crossing,
    gave_up: bool,
}

impl Read for Held<'_> {
    fn read(&mut self, buf: &mut [u8]) -> io::Result<usize> {
        if self.given == HELD && !self.gate.is_entered() {
            self.gave_up = true;
        }
        if buf.is_empty() || self.rest.is_empty() {
            return Ok(0);
        }
        buf[0] = self.rest[0];
        self.rest = &self.rest[1..];
        self.given = self.given.saturating_add(1);
        Ok(1)
    }
}

// Whether the reader and the gate give up while `workers` workers seal a plaintext to its container.
fn give_up_over<T: Threads + Wait + Sync>(
    rt: &T,
    alloc: Global,
    shape: &Shape,
    plain: &[u8],
    container: &[u8],
    workers: u32,
    turns: u64,
) -> Option<(bool, bool)> {
    let gate = Crossing::new(turns);
    let mut reader = FromRead(Held {
        rest: plain,
        given: 0,
        gate: &gate,
        gave_up: false,
    });
    let mut writer = ToMemory::new(alloc, 64, usize::MAX, Schedule::Never).ok()?;
    let asked = Asked {
        max_chunks: 2,
        workers,
        depth: 4,
    };
    let answer = piped(rt, alloc, shape, &mut reader, &mut writer, asked, &gate)?;
    if answer == Ok(8_192) && writer.bytes() == container {
        Some((reader.0.gave_up, gate.gave_up()))
    } else {
        None
    }
}

// The same for two small chunks.
fn give_up<T: Threads + Wait + Sync>(
    rt: &T,
    alloc: Global,
    workers: u32,
    turns: u64,
) -> Option<(bool, bool)> {
    let shape = small()?;
    let plain = zeros(alloc, 8_192).ok()?;
    let container = known(alloc, &shape, plain.as_slice(), &TWO_CHUNKS)?;
    give_up_over(
        rt,
        alloc,
        &shape,
        plain.as_slice(),
        container.as_slice(),
        workers,
        turns,
    )
}

// The number of workers, how often reader and gate check, and whether both give up.
static MEETINGS: [(u32, u64, bool); 2] = [
    (2, TURNS, false),
    // Shows that this can fail: one worker seals nothing while it reads, and one chunk after the other.
    (1, FEW_TURNS, true),
];

#[test]
fn two_workers_meet_a_held_reader(rt: HostRuntime) {
    for (workers, turns, both) in &MEETINGS {
        assert!(rt;
            give_up(&rt, rt.alloc(), *workers, *turns) == Some((*both, *both)),
            "{workers}"
        );
    }
}
