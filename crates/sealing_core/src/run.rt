//! Sealing with any number of workers, a round of the input at a time. What is written is the container that one thread
//! makes.
//!
//! A container is written while its plaintext is read. The grant comes back spent: sealed with `Ok`, else void. A round
//! is `window` chunks of the size that the shape names, 2^12 to 2^20 bytes.
ghost use Rattle.std.specs.Prelude.{◌≡◌, ◌≢◌, ℕ, ◌<◌, ◌≤◌, List, Err, OnOk, OnErr};
ghost use Rattle.container_core.specs.Container.{container};
ghost use Rattle.journal_core.specs.declared.entry.Way.TheVariants.{Sealed, Void};
ghost use Rattle.ledger_core.specs.Range.{prefix_of};
ghost use Rattle.ledger_core.specs.Shared.{spent_as};
ghost use Rattle.io_core.specs.Views.{io_view};
ghost use Rattle.sealing_core.specs.Engine.{HasReadPlain, HasWrittenRounds};
ghost use Rattle.output_core.specs.Bounds.{Admits};

use crate::rounds::pipe_rounds;
use claim_core::{DEFAULT_WINDOW, Gate, MAX_WINDOW, MAX_WORKERS};
use container_core::{Header, Key, MAX_PLAIN, SealFault, Shape};
use io_core::Source;
use ledger_core::{Grant, Spent};
use output_core::Output;
use std::alloc::Global;
use std::sync::Wait;
use std::thread::Threads;

/// Reads all of an input of at most `max_bytes` bytes (2^40 at most). Writes its container in a shape, under a key and
/// a grant's prefix, in rounds of `window` chunks (1 to 256). 1 to 16 workers seal it, which live as long as the input.
/// At most two windows of chunks are read and not yet written. Returns the input's length.
///
/// At `TooLong` one byte more was read, and no other; the current round is dropped, and those before it were written.
/// At every fault what was written begins the container of the input, or of some plaintext where the reader doesn't
/// show its bytes. At `Write` it isn't all of that, and at `OutOfMemory` it is nothing. Allocates before anything is
/// written: two windows of chunks, two queues, and a bell for each worker. An input that ends within the first round
/// needs only a buffer for each chunk, or for each block of small ones. It needs no queue where one worker suffices.
///
/// `kept` is empty, or the buffer that the call before left there: it is read into first. Nothing of what it held is
/// written.
///
/// What the writer may hold, where that is bounded, has to allow the container of any plaintext. So a run that is
/// killed leaves no more than a prefix of the container.
pub fn run_seal_by<T: Threads + Wait + Sync, R: Source, W: Output, G: Gate + Sync>(
    rt: &T,
    alloc: Global,
    key: &Key,
    shape: &Shape,
    grant: Grant,
    reader: &mut R,
    writer: &mut W,
    max_bytes: u64,
    workers: u32,
    window: u32,
    gate: &G,
    kept: &mut Vec<u8>,
) -> (Result<u64, SealFault>, Spent)
    requires max_bytes { max_bytes ≤ MAX_PLAIN }
    requires workers { (0 < workers) × (workers ≤ MAX_WORKERS) }
    requires window { (0 < window) × (window ≤ MAX_WINDOW) }
    requires may { (plain : List ℕ) → Admits (W.bound writer.old) (W.taken writer.old)
        (container key.now shape.now (prefix_of grant.device grant.number) plain) }
    ensures reads { HasReadPlain max_bytes (R.left reader.old) (R.left reader.new)
        (R.failures reader.old) (R.failures reader.new) result.0 }
    ensures writes { HasWrittenRounds key.now shape.now (prefix_of grant.device grant.number) max_bytes window
        (io_view (R.left reader.old) (R.failures reader.old) (W.taken writer.old) (W.failures writer.old))
        (io_view (R.left reader.new) (R.failures reader.new) (W.taken writer.new) (W.failures writer.new)) result.0 }
    // A file is bounded by bytes.
    ensures by_bytes { result.0 ≢ Err SealFault.TooManyChunks }

    // The grant is spent.
    ensures sealed { OnOk result.0 (result.1 ≡ spent_as grant Sealed) }
    ensures void { OnErr result.0 (result.1 ≡ spent_as grant Void) }
{
    let header = Header::of(key, shape, grant.prefix());
    match pipe_rounds(
        rt, alloc, key, &header, reader, writer, max_bytes, workers, window, gate, kept,
    ) {
        Ok(bytes) => (Ok(bytes), grant.used()),
        Err(fault) => (Err(fault), grant.waste()),
    }
}

/// `run_seal_by` in rounds of `DEFAULT_WINDOW` chunks, 16.
pub fn run_seal<T: Threads + Wait + Sync, R: Source, W: Output, G: Gate + Sync>(
    rt: &T,
    alloc: Global,
    key: &Key,
    shape: &Shape,
    grant: Grant,
    reader: &mut R,
    writer: &mut W,
    max_bytes: u64,
    workers: u32,
    gate: &G,
) -> (Result<u64, SealFault>, Spent)
    requires max_bytes { max_bytes ≤ MAX_PLAIN }
    requires workers { (0 < workers) × (workers ≤ MAX_WORKERS) }
    requires may { (plain : List ℕ) → Admits (W.bound writer.old) (W.taken writer.old)
        (container key.now shape.now (prefix_of grant.device grant.number) plain) }
    ensures reads { HasReadPlain max_bytes (R.left reader.old) (R.left reader.new)
        (R.failures reader.old) (R.failures reader.new) result.0 }
    ensures writes { HasWrittenRounds key.now shape.now (prefix_of grant.device grant.number) max_bytes DEFAULT_WINDOW
        (io_view (R.left reader.old) (R.failures reader.old) (W.taken writer.old) (W.failures writer.old))
        (io_view (R.left reader.new) (R.failures reader.new) (W.taken writer.new) (W.failures writer.new)) result.0 }
    ensures by_bytes { result.0 ≢ Err SealFault.TooManyChunks }
    ensures sealed { OnOk result.0 (result.1 ≡ spent_as grant Sealed) }
    ensures void { OnErr result.0 (result.1 ≡ spent_as grant Void) }
{
    let mut kept = Vec::new(alloc);
    run_seal_by(
        rt,
        alloc,
        key,
        shape,
        grant,
        reader,
        writer,
        max_bytes,
        workers,
        DEFAULT_WINDOW,
        gate,
        &mut kept,
    )
}
