//! The engine that seals a stream of any length, in the memory of `depth` chunks.
ghost use Rattle.std.specs.Prelude.{◌≡◌, ℕ, ◌<◌, ◌≤◌, List, OnOk, OnErr};
ghost use Rattle.container_core.specs.Container.{container};
ghost use Rattle.io_core.specs.Views.{io_view};
ghost use Rattle.sealing_core.specs.Piped.{HasPipedContainer};
ghost use Rattle.journal_core.specs.declared.entry.Way.TheVariants.{Sealed, Void};
ghost use Rattle.ledger_core.specs.Range.{prefix_of};
ghost use Rattle.ledger_core.specs.Shared.{spent_as};
ghost use Rattle.output_core.specs.Bounds.{Admits};

use crate::endless::pipe;
use claim_core::{Gate, MAX_DEPTH, MAX_WORKERS};
use container_core::{Header, Key, SealFault, Shape};
use io_core::Source;
use ledger_core::{Grant, Spent};
use output_core::Output;
use std::alloc::Global;
use std::sync::Wait;
use std::thread::Threads;

/// Reads a stream of at most `max_chunks` chunks (at least 1) to its end. Writes its container in a shape, under a key
/// and a grant's prefix. 1 to 16 workers seal it, which live as long as the stream. At most `depth` chunks (1 to 64)
/// are read and not yet written. The header is written before anything is read. Returns the stream's length in bytes,
/// and the grant spent: sealed with `Ok`, else void.
///
/// Fails with `TooManyChunks` where a byte follows `max_chunks` full chunks; nothing past it is read. Never fails with
/// `TooLong`. At every fault what was written begins the container of the whole stream. At `Write` it isn't all of
/// that, and at `OutOfMemory` no more than the header. Allocates at most `depth` chunks, two queues, and a bell for
/// each worker.
///
/// What the writer may hold, where that is bounded, has to allow the container of any plaintext.
pub fn run_pipe<T: Threads + Wait + Sync, R: Source, W: Output, G: Gate + Sync>(
    rt: &T,
    alloc: Global,
    key: &Key,
    shape: &Shape,
    grant: Grant,
    reader: &mut R,
    writer: &mut W,
    max_chunks: u32,
    workers: u32,
    depth: u32,
    gate: &G,
) -> (Result<u64, SealFault>, Spent)
    requires most { 0 < max_chunks }
    requires workers { (0 < workers) × (workers ≤ MAX_WORKERS) }
    requires depth { (0 < depth) × (depth ≤ MAX_DEPTH) }
    requires may { (plain : List ℕ) → Admits (W.bound writer.old) (W.taken writer.old)
        (container key.now shape.now (prefix_of grant.device grant.number) plain) }
    ensures pipes { HasPipedContainer key.now shape.now (prefix_of grant.device grant.number) max_chunks
        (io_view (R.left reader.old) (R.failures reader.old) (W.taken writer.old) (W.failures writer.old))
        (io_view (R.left reader.new) (R.failures reader.new) (W.taken writer.new) (W.failures writer.new)) result.0 }

    // The grant is spent.
    ensures sealed { OnOk result.0 (result.1 ≡ spent_as grant Sealed) }
    ensures void { OnErr result.0 (result.1 ≡ spent_as grant Void) }
{
    let header = Header::of(key, shape, grant.prefix());
    match pipe(
        rt, alloc, key, &header, reader, writer, max_chunks, workers, depth, gate,
    ) {
        Ok(bytes) => (Ok(bytes), grant.used()),
        Err(fault) => (Err(fault), grant.waste()),
    }
}
