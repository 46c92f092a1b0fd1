//! Sealing in rounds of 1, 2, 16 and 256 chunks: the same container, the dropped round, and what failures leave.
use crate::containers::PLAIN;
use crate::windows::LIMIT;
use container_core::{CHUNK, HEADER, SEALED, SealFault, Shape, seal};
use container_tests::EMPTY;
use crew_core::{DEFAULT_WINDOW, Free, MAX_WINDOW, MAX_WORKERS};
use crew_tests::{PREFIX, counting_key, grant_of, pattern, zeros};
use io_core::{Sink, Source};
use io_memory::{FromMemory, Schedule, ToMemory};
use ledger_core::Way;
use sealing_core::{run_seal, run_seal_by};
use std::alloc::Global;
use std::sync::Wait;
use std::test::Fail;
use std::thread::Threads;

const MOST: usize = usize::MAX;

// Seals under a grant of device 1 and file 0, with `run_seal` in rounds of 16 chunks. Returns the engine's result and
// how the grant ended, or `None` if the arguments are out of range.
pub(crate) fn seal_by<T: Threads + Wait + Sync, R: Source, W: Sink>(
    rt: &T,
    alloc: Global,
    reader: &mut R,
    writer: &mut W,
    max_bytes: u64,
    workers: u32,
    window: u32,
) -> Option<(Result<u64, SealFault>, Way)> {
    if max_bytes > LIMIT
        || workers == 0
        || workers > MAX_WORKERS
        || window == 0
        || window > MAX_WINDOW
    {
        return None;
    }
    let key = counting_key();
    let shape = Shape::one();
    let grant = grant_of(alloc, 0)?;
    let mut kept = Vec::new(alloc);
    let (result, spent) = if window == DEFAULT_WINDOW {
        run_seal(
            rt, alloc, &key, &shape, grant, reader, writer, max_bytes, workers, &Free,
        )
    } else {
        run_seal_by(
            rt, alloc, &key, &shape, grant, reader, writer, max_bytes, workers, window, &Free,
            &mut kept,
        )
    };
    Some((result, spent.way()))
}

// The arguments: which reader and writer calls fail, how many bytes may be sealed, and with how many workers.
#[derive(Clone, Copy)]
struct Asked {
    reads: Schedule,
    writes: Schedule,
    max_bytes: u64,
    workers: u32,
    window: u32,
}

// Rounds of `window` chunks with `workers` workers, where nothing fails.
fn steady(max_bytes: u64, workers: u32, window: u32) -> Asked {
    Asked {
        reads: Schedule::Never,
        writes: Schedule::Never,
        max_bytes,
        workers,
        window,
    }
}

// Whether sealing these bytes returns `answer`, the grant ends accordingly, and the expected bytes are written.
fn ends_as<T: Threads + Wait + Sync>(
    rt: &T,
    alloc: Global,
    plain: &[u8],
    asked: Asked,
    answer: Result<u64, SealFault>,
    written: &[u8],
) -> Option<bool> {
    let mut reader = FromMemory::new(plain, 70_001, asked.reads);
    let mut writer = ToMemory::new(alloc, 64, MOST, asked.writes).ok()?;
    let (result, way) = seal_by(
        rt,
        alloc,
        &mut reader,
        &mut writer,
        asked.max_bytes,
        asked.workers,
        asked.window,
    )?;
    let wanted = if answer.is_ok() {
        Way::Sealed
    } else {
        Way::Void
    };
    Some(result == answer && way == wanted && writer.bytes() == written)
}

// The container of these bytes for device 1 and file 0.
fn container_of(alloc: Global, plain: &[u8]) -> Option<Vec<u8>> {
    seal(alloc, &counting_key(), &Shape::one(), PREFIX, plain).ok()
}

// The window in chunks, and the number of workers.
static WINDOWS: [(u32, u32); 7] = [(1, 1), (1, 4), (2, 1), (2, 4), (16, 3), (256, 1), (256, 4)];

// Whether all windows produce this container of a plaintext.
fn all_give<T: Threads + Wait + Sync>(rt: &T, alloc: Global, plain: &[u8], whole: &[u8]) -> bool {
    let bytes = plain.len() as u64;
    for (window, workers) in &WINDOWS {
        let asked = steady(bytes, *workers, *window);
        if ends_as(rt, alloc, plain, asked, Ok(bytes), whole) != Some(true) {
            return false;
        }
    }
    true
}

// Whether they do for `length` bytes of the pattern.
fn gives_the_container<T: Threads + Wait + Sync>(
    rt: &T,
    alloc: Global,
    length: usize,
) -> Option<bool> {
    let plain = pattern(alloc, length).ok()?;
    let whole = container_of(alloc, plain.as_slice())?;
    Some(all_give(rt, alloc, plain.as_slice(), whole.as_slice()))
}

static LENGTHS: [usize; 8] = [
    0,
    1,
    CHUNK - 1,
    CHUNK,
    CHUNK + 1,
    2 * CHUNK,
    2 * CHUNK + 1,
    17 * CHUNK + 1,
];

#[test]
fn any_window_gives_the_container(rt: HostRuntime) {
    assert!(rt; all_give(&rt, rt.alloc(), b"", &EMPTY));
    assert!(rt; all_give(&rt, rt.alloc(), b"plain", &PLAIN));
    for length in &LENGTHS {
        assert!(rt;
            gives_the_container(&rt, rt.alloc(), *length) == Some(true),
            "{length}"
        );
    }
}

// Of two chunks and a byte too many, the first `written` bytes of the container of the two chunks are written.
fn drops_the_rest<T: Threads + Wait + Sync>(
    rt: &T,
    alloc: Global,
    workers: u32,
    window: u32,
    written: usize,
) -> Option<bool> {
    let plain = zeros(alloc, 2 * CHUNK + 1).ok()?;
    let plain = plain.as_slice();
    let whole = container_of(alloc, plain.get(..2 * CHUNK)?)?;
    let front = whole.as_slice().get(..written)?;
    let asked = steady(131_072, workers, window);
    ends_as(rt, alloc, plain, asked, Err(SealFault::TooLong), front)
}

// The number of workers, the chunks of a round, and how much is written. The byte too many follows chunk 1. With rounds
// of one chunk, chunk 0 was written and chunk 1 is dropped.
static DROPPED: [(u32, u32, usize); 5] = [
    (1, 1, HEADER + SEALED),
    (1, 2, 0),
    (4, 2, 0),
    (4, 16, 0),
    (4, 256, 0),
];

#[test]
fn a_byte_too_many_drops_the_round_in_hand(rt: HostRuntime) {
    for (workers, window, written) in &DROPPED {
        assert!(rt;
            drops_the_rest(&rt, rt.alloc(), *workers, *window, *written) == Some(true),
            "{workers} {window}"
        );
    }
}

// In the header, at its end and after it; near the end of chunk 0's ciphertext, in its tag, at its end and after it;
// after chunk 3; and before the last byte, and the whole container.
static ROOMS: [usize; 12] = [
    0, 1, 23, 24, 25, 65_535, 65_575, 65_576, 65_592, 262_232, 262_252, 262_253,
];

// Whether a writer with this room gets exactly that much of the container of four chunks and five bytes. It must fail
// unless there is room for all.
fn ends_in_room<T: Threads + Wait + Sync>(
    rt: &T,
    alloc: Global,
    plain: &[u8],
    whole: &[u8],
    workers: u32,
    window: u32,
    room: usize,
) -> Option<bool> {
    let mut asked = steady(1 << 20, workers, window);
    asked.writes = Schedule::Bytes(room as u64);
    let answer = if room < 262_253 {
        Err(SealFault::Write)
    } else {
        Ok(262_149)
    };
    ends_as(rt, alloc, plain, asked, answer, whole.get(..room)?)
}

#[test]
fn a_failed_write_leaves_a_beginning(rt: HostRuntime) -> Result<(), Fail> {
    let plain = pattern(rt.alloc(), 4 * CHUNK + 5)?;
    let plain = plain.as_slice();
    let whole = container_of(rt.alloc(), plain).ok_or("no container")?;
    let whole = whole.as_slice();
    for (window, workers) in [(1, 1), (2, 2), (3, 4), (16, 16)] {
        for room in &ROOMS {
            assert!(rt;
                ends_in_room(&rt, rt.alloc(), plain, whole, workers, window, *room) == Some(true),
                "{workers} {window} {room}"
            );
        }
    }
    Ok(())
}

// The number of workers, the chunks of a round, after how many bytes the reader fails, and how much is then written:
// the rounds before the one being sealed.
static FAILED_READS: [(u32, u32, usize, usize); 10] = [
    (1, 1, 0, 0),
    (1, 1, CHUNK, 0),
    (1, 1, CHUNK + 1, 0),
    (1, 1, 2 * CHUNK + 1, HEADER + SEALED),
    (1, 1, 4 * CHUNK + 5, HEADER + 3 * SEALED),
    (2, 2, CHUNK + 1, 0),
    (2, 2, 2 * CHUNK + 1, 0),
    (2, 2, 4 * CHUNK + 1, HEADER + 2 * SEALED),
    (2, 2, 4 * CHUNK + 5, HEADER + 2 * SEALED),
    (4, 4, 4 * CHUNK + 5, 0),
];

// Whether sealing four chunks and five bytes returns `answer` and writes the first `written` bytes of the container.
fn leaves<T: Threads + Wait + Sync>(
    rt: &T,
    alloc: Global,
    asked: Asked,
    answer: Result<u64, SealFault>,
    written: usize,
) -> Option<bool> {
    let plain = pattern(alloc, 4 * CHUNK + 5).ok()?;
    let whole = container_of(alloc, plain.as_slice())?;
    let front = whole.as_slice().get(..written)?;
    ends_as(rt, alloc, plain.as_slice(), asked, answer, front)
}

fn leaves_at_read<T: Threads + Wait + Sync>(
    rt: &T,
    alloc: Global,
    workers: u32,
    window: u32,
    read: usize,
    written: usize,
) -> Option<bool> {
    let mut asked = steady(1 << 20, workers, window);
    asked.reads = Schedule::Bytes(read as u64);
    leaves(rt, alloc, asked, Err(SealFault::Read), written)
}

#[test]
fn a_failed_read_leaves_whole_rounds(rt: HostRuntime) {
    for (workers, window, read, written) in &FAILED_READS {
        assert!(rt;
            leaves_at_read(&rt, rt.alloc(), *workers, *window, *read, *written) == Some(true),
            "{workers} {window} {read}"
        );
    }
}
