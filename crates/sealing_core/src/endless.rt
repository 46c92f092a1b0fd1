//! A stream of any length: rounds of one chunk, under a limit on chunks. Each block is one chunk, so it is written as
//! soon as it is sealed and its turn comes.
ghost use Rattle.std.specs.Prelude.{◌≡◌, ℕ, ◌+◌, ◌*◌, ◌^◌, ◌<◌, ◌≤◌, List, take, drop};
ghost use Rattle.container_core.specs.Container.{hint_of, size_in};
ghost use Rattle.io_core.specs.Views.{io_view};
ghost use Rattle.output_core.specs.Bounds.{Admits};
ghost use Rattle.sealing_core.specs.Pipe.{HasPiped, answer_of_stream, whole};
ghost use Rattle.sealing_core.specs.Round.{IsPlan};

use crate::context::SealingContext;
use crate::line::Naming;
use crate::round::{Plan, Round};
use crate::stream::through;
use claim_core::{Gate, MAX_DEPTH, MAX_WORKERS};
use container_core::{Header, Key, SealFault};
use io_core::{Failed, Source};
use output_core::{Output, put_all};
use std::alloc::Global;
use std::marker::{Brand, PhantomData};
use std::sync::Wait;
use std::thread::Threads;

// For a stream, whose length is limited in chunks.
fn of_stream(answer: Result<u64, SealFault>) -> Result<u64, SealFault>
    ensures { result ≡ answer_of_stream answer }
{
    match answer {
        Err(SealFault::TooLong) => Err(SealFault::TooManyChunks),
        answer => answer,
    }
}

fn pipe_named<
    N: Naming + Send + Sync,
    T: Threads + Wait + Sync,
    R: Source,
    W: Output,
    G: Gate + Sync,
>(
    rt: &T,
    alloc: Global,
    key: &Key,
    header: &Header,
    reader: &mut R,
    writer: &mut W,
    plan: Plan,
    workers: u32,
    gate: &G,
) -> Result<u64, SealFault>
    requires named { (key.now ≡ N.key) × (header.now ≡ N.header) × (R.left reader.old ≡ N.told) }
    requires plan { IsPlan N.each N.header plan × (plan.depth ≤ 2 ^ 20) }
    requires workers { (0 < workers) × (workers ≤ MAX_WORKERS) }
    requires may { (plain : List ℕ)
        → Admits (W.bound writer.old) (W.taken writer.old) (whole key.now header.now plain) }
    ensures piped { (most : ℕ) → plan.limit ≡ most * size_in header.now + 1
        → HasPiped key.now header.now most
        (io_view (R.left reader.old) (R.failures reader.old) (W.taken writer.old) (W.failures writer.old))
        (io_view (R.left reader.new) (R.failures reader.new) (W.taken writer.new) (W.failures writer.new)) result }
{
    let context: SealingContext<'_, N, G> = SealingContext {
        key,
        header,
        plan,
        front: &[],
        gate,
        of: PhantomData,
    };
    let Ok(mut round) = Round::new(alloc, plan.group) else {
        return Err(SealFault::OutOfMemory);
    };
    if let Err(Failed) = put_all(writer, header.bytes()) {
        return Err(SealFault::Write);
    }
    of_stream(through(rt, alloc, &context, reader, writer, &mut round, workers).0)
}

/// Seals a stream under a header of this key, with 1 to 16 workers. The caller's thread is worker 0 and does all
/// reading and writing. At most `depth` chunks (1 to 64) are read and not yet written. Returns the stream's length in
/// bytes.
///
/// The header is written before anything is read. A chunk is sealed once a byte after it, or the end, was seen, and
/// written once those before it are. The caller's thread seals the last chunk, and others while it may not read on. If
/// a thread can't be started, the others do its work.
///
/// `TooManyChunks` if a byte follows `max_chunks` full chunks: nothing past that byte is read. `OutOfMemory` if memory
/// for a queue, the workers' bells or the `depth` buffers was refused; each buffer holds a chunk and is reused. Then at
/// most the header is written.
///
/// If the writer is bounded, its bound must allow all that is written of any stream.
pub fn pipe<T: Threads + Wait + Sync, R: Source, W: Output, G: Gate + Sync>(
    rt: &T,
    alloc: Global,
    key: &Key,
    header: &Header,
    reader: &mut R,
    writer: &mut W,
    max_chunks: u32,
    workers: u32,
    depth: u32,
    gate: &G,
) -> Result<u64, SealFault>
    requires hint { take 7 (drop 17 header.now) ≡ hint_of key.now }
    requires most { 0 < max_chunks }
    requires workers { (0 < workers) × (workers ≤ MAX_WORKERS) }
    requires depth { (0 < depth) × (depth ≤ MAX_DEPTH) }
    requires may { (plain : List ℕ)
        → Admits (W.bound writer.old) (W.taken writer.old) (whole key.now header.now plain) }
    ensures piped { HasPiped key.now header.now max_chunks
        (io_view (R.left reader.old) (R.failures reader.old) (W.taken writer.old) (W.failures writer.old))
        (io_view (R.left reader.new) (R.failures reader.new) (W.taken writer.new) (W.failures writer.new)) result }
{
    let plan = Plan {
        limit: max_chunks as u64 * header.chunk() as u64 + 1,
        group: 1,
        depth: depth as usize,
        each: 1,
        eager: true,
    };
    pipe_named::<Brand, T, R, W, G>(rt, alloc, key, header, reader, writer, plan, workers, gate)
}
