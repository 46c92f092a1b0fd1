//! An input sealed in rounds of chunks. The first round is read before anything else. If the input ends there and one
//! worker suffices, this thread seals it without a queue.
//!
//! Small chunks go through the queues in blocks of several, so one read, one job and one write carry up to 64 KiB.
ghost use Rattle.std.specs.Prelude.{◌≡◌, ℕ, ◌+◌, ◌-◌, ◌*◌, ◌/◌, ◌^◌, ◌<◌, ◌≤◌, List, [], ◌∷◌, Option, OnOk, OnErr};
ghost use Rattle.std.specs.Prelude.{is_err, true, take, drop};
ghost use Rattle.container_core.specs.Container.{hint_of};
ghost use Rattle.io_core.specs.Streams.{counted};
ghost use Rattle.io_core.specs.Views.{io_view};
ghost use Rattle.output_core.specs.Bounds.{Admits};
ghost use Rattle.sealing_core.specs.Order.{behind, AreWritten, IsCutOff, MayGoOn};
ghost use Rattle.sealing_core.specs.Pieces.{IsTask, task_numbers};
ghost use Rattle.sealing_core.specs.Round.{IsInHand, IsPlan};
ghost use Rattle.sealing_core.specs.Rounds.{HasSealedRounds};

use crate::context::SealingContext;
use crate::feed::end;
use crate::handing::first_of;
use crate::line::Naming;
use crate::piece::{Task, make_piece};
use crate::round::{Plan, Round};
use crate::stream::through;
use crate::writing::write_part;
use claim_core::{Gate, MAX_WINDOW, MAX_WORKERS};
use container_core::{Header, Key, MAX_PLAIN, SealFault};
use io_core::{Failed, Source};
use output_core::Output;
use std::alloc::Global;
use std::marker::{Brand, PhantomData};
use std::mem;
use std::sync::Wait;
use std::thread::Threads;

// Most plaintext bytes of a block of small chunks.
const BLOCK: usize = 1 << 16;

// Seals and writes a job of the only round.
fn write_job<N: Naming, W: Output, G: Gate>(
    context: &SealingContext<'_, N, G>,
    writer: &mut W,
    task: Task,
) -> Result<(), Failed>
    requires task { IsTask N.each N.header N.told task }
    requires may { (number : ℕ) → task_numbers task ≡ number ∷ []
        → MayGoOn N.each context.now.front.now N.key N.header N.told (W.bound writer.old) (W.taken writer.old) number }
    ensures written { (taken : Option (List ℕ)) (number : ℕ) → task_numbers task ≡ number ∷ []
        → AreWritten N.each context.now.front.now N.key N.header N.told taken (W.taken writer.old) number
        → OnOk result
        (AreWritten N.each context.now.front.now N.key N.header N.told taken (W.taken writer.new) (number + 1)) }
    ensures begun { (taken : Option (List ℕ)) (number : ℕ) → task_numbers task ≡ number ∷ []
        → AreWritten N.each context.now.front.now N.key N.header N.told taken (W.taken writer.old) number
        → OnErr result (IsCutOff context.now.front.now N.key N.header N.told taken (W.taken writer.new)) }
    ensures same { W.bound writer.new ≡ W.bound writer.old }
    ensures count { W.failures writer.new ≡ counted (is_err result) (W.failures writer.old) }
{
    match task {
        Task::Stop => Ok(()),
        Task::Job { number, buffer } => {
            let piece = make_piece(context, 0, number, buffer);
            write_part(writer, context.front, number, piece.buffer.as_slice())
        }
    }
}

// Seals and writes the only round on this thread alone.
fn alone<N: Naming, W: Output, G: Gate>(
    context: &SealingContext<'_, N, G>,
    writer: &mut W,
    round: &mut Round,
) -> Result<u64, SealFault>
    requires ended { round.old.intake.ended ≡ true }
    requires hand { (left : Option (List ℕ)) × (limit : ℕ)
        × IsInHand N.each N.key N.header N.told left limit 0 round.old }
    requires may { (plain : List ℕ)
        → Admits (W.bound writer.old) (W.taken writer.old) (behind context.now.front.now N.key N.header plain) }
    ensures sealed { (left : Option (List ℕ)) (failures : Option ℕ) (limit group : ℕ) → 0 < limit
        → IsInHand N.each N.key N.header N.told left limit 0 round.old
        → HasSealedRounds context.now.front.now N.key N.header (limit - 1) (group * N.each)
        (io_view N.told failures (W.taken writer.old) (W.failures writer.old))
        (io_view left failures (W.taken writer.new) (W.failures writer.new)) result }
{
    'jobs: while !round.held.is_empty() {
        match write_job(context, writer, first_of(&mut round.held)) {
            Ok(()) => {}
            Err(Failed) => return Err(SealFault::Write),
        }
    }
    end(context, writer, round)
}

// Whether blocks of `each` chunks fill a window, with at least one for each worker.
#[tactic(auto, using(crate::proofs::BlockLemmas::whole_parts))]
fn fills(window: u32, each: u32, workers: u32) -> bool
    requires each { 0 < each }
    requires workers { 0 < workers }
    ensures rounds { result ≡ true → window / each * each ≡ window }
    ensures groups { result ≡ true → 0 < window / each }
{
    if window % each != 0 {
        return false;
    }
    window / each >= workers
}

// Returns how many chunks of `size` bytes go through the queues as one block: as many as 64 KiB has, or fewer, so that
// blocks fill a round and each worker has one. At least one.
fn each_of(size: usize, workers: u32, window: u32) -> u32
    requires size { (0 < size) × (size ≤ 2 ^ 20) }
    requires workers { 0 < workers }
    requires window { 0 < window }
    ensures some { 0 < result }
    ensures bytes { result * size ≤ 2 ^ 20 }
    ensures rounds { window / result * result ≡ window }
    ensures groups { 0 < window / result }
{
    let mut each = (BLOCK / size) as u32;
    'fewer: while each > 1 {
        if fills(window, each, workers) {
            return each;
        }
        each -= 1;
    }
    1
}

fn rounds_named<
    N: Naming + Send + Sync,
    T: Threads + Wait + Sync,
    R: Source,
    W: Output,
    G: Gate + Sync,
>(
    rt: &T,
    alloc: Global,
    key: &Key,
    header: &Header,
    reader: &mut R,
    writer: &mut W,
    plan: Plan,
    workers: u32,
    gate: &G,
    kept: &mut Vec<u8>,
) -> Result<u64, SealFault>
    requires named { (key.now ≡ N.key) × (header.now ≡ N.header) × (R.left reader.old ≡ N.told) }
    requires plan { IsPlan N.each N.header plan × (plan.depth ≤ 2 ^ 20) }
    requires workers { (0 < workers) × (workers ≤ MAX_WORKERS) }
    requires may { (plain : List ℕ)
        → Admits (W.bound writer.old) (W.taken writer.old) (behind header.now key.now header.now plain) }
    ensures sealed { HasSealedRounds header.now key.now header.now (plan.limit - 1) (plan.group * N.each)
        (io_view (R.left reader.old) (R.failures reader.old) (W.taken writer.old) (W.failures writer.old))
        (io_view (R.left reader.new) (R.failures reader.new) (W.taken writer.new) (W.failures writer.new)) result }
{
    let context: SealingContext<'_, N, G> = SealingContext {
        key,
        header,
        plan,
        front: header.bytes(),
        gate,
        of: PhantomData,
    };
    let Ok(mut round) = Round::new(alloc, plan.group) else {
        return Err(SealFault::OutOfMemory);
    };
    if let Err(fault) = round.read_first(alloc, kept, reader, &context) {
        return Err(fault);
    }
    if round.intake.over {
        return Err(SealFault::TooLong);
    }
    let workers = if round.intake.ended {
        workers.min(round.intake.blocks)
    } else {
        workers
    };
    if round.intake.ended && workers == 1 {
        let sealed = alone(&context, writer, &mut round);
        *kept = mem::replace(&mut round.last, Vec::new(alloc));
        return sealed;
    }
    let (sealed, _) = through(rt, alloc, &context, reader, writer, &mut round, workers);
    *kept = mem::replace(&mut round.last, Vec::new(alloc));
    sealed
}

/// Seals an input of at most `max_bytes` bytes (2^40 at most) under a header of this key, in rounds of `window` chunks
/// (1 to 256), with 1 to 16 workers. The caller's thread is worker 0 and does all reading and writing. Returns the
/// input's length in bytes.
///
/// Chunks of less than 64 KiB are read, handed to a worker and written in blocks of several, at most 64 KiB each. The
/// blocks fill the window, and there is one for each worker if the window has that many chunks. A round is sealed once
/// a byte after it, or the end, was seen. Nothing is read while two windows of chunks are read and not yet written. The
/// header is written with the first round. An input that ends within the first round takes as many buffers as it has
/// blocks, and, if one worker suffices, no queue.
///
/// `TooLong` if a byte more was read, and nothing past it is. Then the round in hand is dropped, and those before it
/// are written. `OutOfMemory` if memory for a queue, the workers' bells or the buffers of two windows was refused: then
/// nothing is written.
///
/// `kept` is the last block's buffer of the input before, or empty. It is read into first, and has such a buffer, or is
/// empty, at the end. Nothing of what it held is written.
///
/// If the writer is bounded, its bound must allow all that is written of any input. So a killed run left at most a
/// front of that.
pub fn pipe_rounds<T: Threads + Wait + Sync, R: Source, W: Output, G: Gate + Sync>(
    rt: &T,
    alloc: Global,
    key: &Key,
    header: &Header,
    reader: &mut R,
    writer: &mut W,
    max_bytes: u64,
    workers: u32,
    window: u32,
    gate: &G,
    kept: &mut Vec<u8>,
) -> Result<u64, SealFault>
    requires hint { take 7 (drop 17 header.now) ≡ hint_of key.now }
    requires max_bytes { max_bytes ≤ MAX_PLAIN }
    requires workers { (0 < workers) × (workers ≤ MAX_WORKERS) }
    requires window { (0 < window) × (window ≤ MAX_WINDOW) }
    requires may { (plain : List ℕ)
        → Admits (W.bound writer.old) (W.taken writer.old) (behind header.now key.now header.now plain) }
    ensures sealed { HasSealedRounds header.now key.now header.now max_bytes window
        (io_view (R.left reader.old) (R.failures reader.old) (W.taken writer.old) (W.failures writer.old))
        (io_view (R.left reader.new) (R.failures reader.new) (W.taken writer.new) (W.failures writer.new)) result }
{
    let each = each_of(header.chunk(), workers, window);
    let group = (window / each) as usize;
    let plan = Plan {
        limit: max_bytes + 1,
        group,
        depth: 2 * group,
        each,
        eager: false,
    };
    rounds_named::<Brand, T, R, W, G>(
        rt, alloc, key, header, reader, writer, plan, workers, gate, kept,
    )
}
