//! Streams: a run of `pipe_all` over a reader and a writer in memory, what it must print, and what it must write. The
//! key is 00 01 .. 1f, the device 1. There are at most two chunks of 4 KiB with an empty label, two workers, and depth
//! 4.
ghost use Rattle.std.specs.Prelude.{IfSome};
ghost use Rattle.folder_core.specs.Changes.{IsFresh, IsNewStream, IsUnstarted};

use crate::runs::{MemoryOuts, counting_key, journal_of, ledger_after, outs};
use container_core::{Shape, seal};
use io_memory::{FromMemory, Schedule, ToMemory};
use ledger_core::{Device, Failed, fill};
use reserve_core::{Fold, LedgerFile, Unwitnessed};
use sealer_core::{OneOutput, PipeOptions, SealingOutputs, Stream, pipe_all};
use sha2::{Digest, Sha256};
use std::alloc::Global;
use std::sync::Wait;
use std::thread::Threads;

// What is written.
#[derive(Clone, Copy)]
pub(crate) enum Left<'a> {
    // Nothing, and nothing is read.
    Untouched,
    Is(&'a [u8]),
    // This many bytes, with this SHA-256.
    Whole(usize, &'a [u8; 32]),
    // A prefix of the stream's container under number 0: its least and greatest length, and the container's SHA-256.
    Begun(usize, usize, &'a [u8; 32]),
}

// A run, what it must print (an empty journal means none), and what it writes.
#[derive(Clone, Copy)]
pub(crate) struct Run<'a> {
    // How many bytes the stream has, and how many a call transfers.
    pub(crate) count: usize,
    pub(crate) step: usize,
    pub(crate) reads: Schedule,
    pub(crate) writes: Schedule,
    // For the writer of the line, and for the journal's if there is one.
    pub(crate) lines: Schedule,
    pub(crate) journals: Option<Schedule>,
    pub(crate) status: u8,
    pub(crate) line: &'a [u8],
    pub(crate) journal: &'a [u8],
    pub(crate) left: Left<'a>,
}

// How a run ended.
#[derive(Drop)]
struct Ended {
    // `None` if the options were invalid.
    status: Option<u8>,
    writer: ToMemory,
    out: MemoryOuts,
    // How many bytes of the stream were not read, if the reader's later calls don't fail.
    unread: Option<usize>,
}

fn outs_of(alloc: Global, run: &Run) -> Option<MemoryOuts> {
    let mut out = outs(
        alloc,
        Schedule::Never,
        run.journals.unwrap_or(Schedule::Never),
    )?;
    out.faults = ToMemory::new(alloc, 64, 64, run.lines).ok()?;
    if run.journals.is_none() {
        out.journal = None;
    }
    Some(out)
}

// How many bytes a reader has left, at most 10,000; 0 if it fails.
fn unread_of(alloc: Global, reader: &mut FromMemory<'_>) -> Option<usize> {
    let mut rest = vec![in alloc; 0u8; 10_000].ok()?;
    match fill(reader, rest.as_mut_slice()) {
        Ok(count) => Some(count),
        Err(Failed) => Some(0),
    }
}

// The status of `pipe_all` over this ledger file.
pub(crate) fn status_over<R: AllocGlobal + Threads + Wait + Sync, S: Fold, W: SealingOutputs>(
    rt: &R,
    file: &mut LedgerFile<S>,
    reader: &mut FromMemory<'_>,
    writer: &mut W,
    output: W::Handle,
    out: &mut MemoryOuts,
) -> Option<u8>
    requires unstarted { IfSome (W.rest writer.old) IsUnstarted }
    requires new { IfSome (W.rest writer.old) (IsNewStream (W.Handle.at output)) }
    requires fresh { IsFresh (W.rest writer.old) (W.taken writer.old) (W.failures writer.old) }
{
    let shape = Shape::two(12, b"").ok()?;
    let options = PipeOptions {
        device: Device::new(1)?,
        workers: 2,
        depth: 4,
        max_chunks: 2,
        shape: &shape,
    };
    let key = counting_key();
    Some(pipe_all(
        rt,
        rt.alloc(),
        &key,
        file,
        &mut Unwitnessed,
        reader,
        writer,
        output,
        &options,
        out,
    ))
}

fn end_over<R: AllocGlobal + Threads + Wait + Sync, S: Fold>(
    rt: &R,
    file: &mut LedgerFile<S>,
    run: &Run,
) -> Option<Ended> {
    let plain = vec![in rt.alloc(); 0u8; run.count].ok()?;
    let mut reader = FromMemory::new(plain.as_slice(), run.step, run.reads);
    let writer = ToMemory::new(rt.alloc(), 64, run.step, run.writes).ok()?;
    let mut stream = Stream { writer };
    let mut out = outs_of(rt.alloc(), run)?;
    let status = status_over(rt, file, &mut reader, &mut stream, OneOutput, &mut out);
    let Stream { writer } = stream;
    let unread = unread_of(rt.alloc(), &mut reader);
    Some(Ended {
        status,
        writer,
        out,
        unread,
    })
}

// Whether the bytes are a prefix, with a length in this range, of the container of `count` zero bytes with this
// SHA-256.
fn is_begun(
    alloc: Global,
    bytes: &[u8],
    count: usize,
    least: usize,
    most: usize,
    digest: &[u8; 32],
) -> Option<bool> {
    let plain = vec![in alloc; 0u8; count].ok()?;
    let shape = Shape::two(12, b"").ok()?;
    // Device 1, number 0.
    let prefix = [0, 0, 1, 0, 0, 0, 0];
    let whole = seal(alloc, &counting_key(), &shape, prefix, plain.as_slice()).ok()?;
    let is_known = Sha256::digest(whole.as_slice()) == *digest;
    let fits = least <= bytes.len() && bytes.len() <= most;
    Some(is_known && fits && whole.as_slice().starts_with(bytes))
}

// Whether these bytes were to be written of a stream of `count` zero bytes.
pub(crate) fn is_left(alloc: Global, bytes: &[u8], count: usize, left: Left) -> bool {
    match left {
        Left::Untouched => bytes.is_empty(),
        Left::Is(all) => bytes == all,
        Left::Whole(length, digest) => bytes.len() == length && Sha256::digest(bytes) == *digest,
        Left::Begun(least, most, digest) => {
            is_begun(alloc, bytes, count, least, most, digest) == Some(true)
        }
    }
}

fn is_written(alloc: Global, ended: &Ended, run: &Run) -> bool {
    let is_read_so = match run.left {
        Left::Untouched => ended.unread == Some(run.count),
        _ => true,
    };
    is_read_so && is_left(alloc, ended.writer.bytes(), run.count, run.left)
}

// Whether a run ended as expected.
fn is_as(alloc: Global, ended: &Ended, run: &Run) -> bool {
    ended.status == Some(run.status)
        && ended.out.faults.bytes() == run.line
        && ended.out.lines.bytes().is_empty()
        && journal_of(&ended.out) == run.journal
        && is_written(alloc, ended, run)
}

// Whether a run over this ledger file ends as expected.
pub(crate) fn stream_ends_over<R: AllocGlobal + Threads + Wait + Sync, S: Fold>(
    rt: &R,
    file: &mut LedgerFile<S>,
    run: &Run,
) -> bool {
    match end_over(rt, file, run) {
        Some(ended) => is_as(rt.alloc(), &ended, run),
        None => false,
    }
}

// The same over a new ledger file.
pub(crate) fn ends<R: AllocGlobal + Threads + Wait + Sync>(rt: &R, run: &Run) -> bool {
    match ledger_after(rt.alloc(), "") {
        Some(mut file) => stream_ends_over(rt, &mut file, run),
        None => false,
    }
}

// `Some(true)` if a run over this ledger file ends as `first` expects, `Some(false)` if as `second` does, else `None`.
pub(crate) fn first_or_second<R: AllocGlobal + Threads + Wait + Sync, S: Fold>(
    rt: &R,
    file: &mut LedgerFile<S>,
    first: &Run,
    second: &Run,
) -> Option<bool> {
    let ended = end_over(rt, file, first)?;
    if is_as(rt.alloc(), &ended, first) {
        Some(true)
    } else if is_as(rt.alloc(), &ended, second) {
        Some(false)
    } else {
        None
    }
}
