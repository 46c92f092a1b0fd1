//! Sealing a stream with the key 00 01 .. 1f and the grant of device 1 and file 0, sealing in rounds (which uses the
//! same workers), and the expected containers.
ghost use Rattle.std.specs.Prelude.{◌≡◌, drop, take, true};
ghost use Rattle.container_core.specs.Container.{hint_of};

use container_core::{Header, Key, MAX_PLAIN, SealFault, Shape, seal};
use crew_tests::{PREFIX, counting_key, grant_of};
use io_core::{Sink, Source};
use io_memory::{FromMemory, Schedule, ToMemory};
use ledger_core::Way;
use sealing_core::{MAX_DEPTH, pipe_rounds, run_pipe};
use sha2::{Digest, Sha256};
use std::alloc::Global;
use std::sync::Wait;
use std::thread::Threads;
use worker_core::{Free, Gate, MAX_WINDOW, MAX_WORKERS};

/// How a stream is sealed: at most `max_chunks` chunks, with `workers` workers, and `depth` chunks read and not yet
/// written.
#[derive(Clone, Copy)]
pub struct Asked {
    pub max_chunks: u32,
    pub workers: u32,
    pub depth: u32,
}

/// Returns the shape of chunks of 4 KiB with an empty label.
pub fn small() -> Option<Shape> {
    Shape::two(12, b"").ok()
}

/// Returns the container of a plaintext.
pub fn container(alloc: Global, shape: &Shape, plain: &[u8]) -> Option<Vec<u8>> {
    seal(alloc, &counting_key(), shape, PREFIX, plain).ok()
}

/// The same, if its SHA-256 is `digest`.
pub fn known(alloc: Global, shape: &Shape, plain: &[u8], digest: &[u8; 32]) -> Option<Vec<u8>> {
    let bytes = container(alloc, shape, plain)?;
    if Sha256::digest(bytes.as_slice()) == *digest {
        Some(bytes)
    } else {
        None
    }
}

// Whether a header names this key.
#[tactic(auto, unfolding(container_core::specs::Container::hint_of))]
fn is_of(header: &Header, key: &Key) -> bool
    ensures { result ≡ true → take 7 (drop 17 header.now) ≡ hint_of key.now }
{
    header.bytes()[17..24] == key.id()[..7]
}

/// Returns the engine's result. Returns `None` if an argument is out of range, or the grant ends in the wrong way.
pub fn piped<T: Threads + Wait + Sync, R: Source, W: Sink, G: Gate + Sync>(
    rt: &T,
    alloc: Global,
    shape: &Shape,
    reader: &mut R,
    writer: &mut W,
    asked: Asked,
    gate: &G,
) -> Option<Result<u64, SealFault>> {
    let Asked {
        max_chunks,
        workers,
        depth,
    } = asked;
    if max_chunks == 0 || workers == 0 || workers > MAX_WORKERS || depth == 0 || depth > MAX_DEPTH {
        return None;
    }
    let grant = grant_of(alloc, 0)?;
    let key = counting_key();
    let (answer, spent) = run_pipe(
        rt, alloc, &key, shape, grant, reader, writer, max_chunks, workers, depth, gate,
    );
    let way = if answer.is_ok() {
        Way::Sealed
    } else {
        Way::Void
    };
    if spent.number() == 0 && spent.way() == way {
        Some(answer)
    } else {
        None
    }
}

/// Returns the result of sealing in rounds, or `None` if an argument is out of range.
pub fn in_rounds<T: Threads + Wait + Sync, R: Source, W: Sink, G: Gate + Sync>(
    rt: &T,
    alloc: Global,
    shape: &Shape,
    reader: &mut R,
    writer: &mut W,
    max_bytes: u64,
    workers: u32,
    window: u32,
    gate: &G,
) -> Option<Result<u64, SealFault>> {
    let key = counting_key();
    let header = Header::of(&key, shape, PREFIX);
    if max_bytes > MAX_PLAIN
        || workers == 0
        || workers > MAX_WORKERS
        || window == 0
        || window > MAX_WINDOW
        || !is_of(&header, &key)
    {
        return None;
    }
    let mut kept = Vec::new(alloc);
    Some(pipe_rounds(
        rt, alloc, &key, &header, reader, writer, max_bytes, workers, window, gate, &mut kept,
    ))
}

/// Returns the result over memory that doesn't fail, and what was written. A call transfers at most `step` bytes.
pub fn sealed<T: Threads + Wait + Sync, G: Gate + Sync>(
    rt: &T,
    alloc: Global,
    shape: &Shape,
    plain: &[u8],
    step: usize,
    asked: Asked,
    gate: &G,
) -> Option<(Result<u64, SealFault>, ToMemory)> {
    let mut reader = FromMemory::new(plain, step, Schedule::Never);
    let mut writer = ToMemory::new(alloc, plain.len(), step, Schedule::Never).ok()?;
    let answer = piped(rt, alloc, shape, &mut reader, &mut writer, asked, gate)?;
    Some((answer, writer))
}

/// Whether this plaintext is sealed to this container.
pub fn seals_to<T: Threads + Wait + Sync, G: Gate + Sync>(
    rt: &T,
    alloc: Global,
    shape: &Shape,
    plain: &[u8],
    step: usize,
    asked: Asked,
    gate: &G,
    container: &[u8],
) -> bool {
    match sealed(rt, alloc, shape, plain, step, asked, gate) {
        Some((answer, writer)) => {
            answer == Ok(plain.len() as u64) && writer.bytes() == container
        }
        None => false,
    }
}

/// The same if all pass freely, and a call may transfer any number of bytes.
pub fn seals_freely<T: Threads + Wait + Sync>(
    rt: &T,
    alloc: Global,
    shape: &Shape,
    plain: &[u8],
    asked: Asked,
    container: &[u8],
) -> bool {
    seals_to(rt, alloc, shape, plain, usize::MAX, asked, &Free, container)
}
