//! The workers and the caller's thread together.
ghost use Rattle.std.specs.Prelude.{◌≡◌, ℕ, ◌+◌, ◌-◌, ◌*◌, ◌^◌, ◌<◌, ◌≤◌, List, [], OnOk, IfOk, IfSome, length};
ghost use Rattle.std.specs.Thread.{IsSync};
ghost use Rattle.crossbeam_queue.specs.Passes.{view, IsPassOf};
ghost use Rattle.io_core.specs.Views.{io_view};
ghost use Rattle.output_core.specs.Bounds.{Admits};
ghost use Rattle.sealing_core.specs.Hands.{newcomer, HasRelayed, HasAll, EachOnce};
ghost use Rattle.sealing_core.specs.Order.{behind};
ghost use Rattle.sealing_core.specs.Round.{IsPlan, IsRead};
ghost use Rattle.sealing_core.specs.Rounds.{HasSealedRounds};

use crate::context::SealingContext;
use crate::feed::feed;
use crate::handing::ring;
use crate::line::{
    Cut, Hand, Hands, JobLine, Naming, PieceLine, Queues, Total, put_task, take_task,
};
use crate::piece::{Piece, Task};
use crate::round::Round;
use crate::worker::worker;
use claim_core::{Gate, MAX_WORKERS};
use container_core::SealFault;
use crossbeam_queue::Pass;
use io_core::Source;
use output_core::Output;
use std::alloc::{AllocError, Global};
use std::sync::Wait;
use std::thread::{Parker, Threads, join_mut};

// Drops the jobs that nobody has taken, at most `most` of them.
fn drop_jobs<N: Naming>(jobs: &JobLine<N>, into: &mut Pass<Task, Hand>, most: usize)
    requires into { IsPassOf jobs.now into.old × (0 < (view into.old).parts) }
    ensures into { IsPassOf jobs.now into.new × ((view into.new).parts ≡ (view into.old).parts) }
{
    'jobs: for _ in 0..most {
        if take_task(jobs, into).is_none() {
            return;
        }
    }
}

// Puts `stops` stops, one for each other worker.
fn stop_all<N: Naming, T: Wait>(
    rt: &T,
    jobs: &JobLine<N>,
    into: &mut Pass<Task, Hand>,
    stops: usize,
)
    requires into { IsPassOf jobs.now into.old × (0 < (view into.old).parts) }
    ensures into { IsPassOf jobs.now into.new × (view into.new ≡ view into.old) }
{
    'stops: for _ in 0..stops {
        put_task(rt, jobs, into, Task::Stop);
    }
}

// Joins the hands of a worker that has ended to the caller's.
fn meet<N: Naming>(
    jobs: &JobLine<N>,
    pieces: &PieceLine<N>,
    hands: &mut Hands,
    theirs: Pass<Task, Hand>,
    back: Pass<Piece, Hand>,
)
    requires ours { IsPassOf jobs.now hands.old.into × (0 < (view hands.old.into).parts)
        × IsPassOf pieces.now hands.old.from × (0 < (view hands.old.from).parts) }
    requires theirs { IsPassOf jobs.now theirs × IsPassOf pieces.now back × HasRelayed 1 (view theirs) (view back) }
    ensures passes { IsPassOf jobs.now hands.new.into × IsPassOf pieces.now hands.new.from }
    ensures parts { ((view hands.new.into).parts ≡ (view hands.old.into).parts + 1)
        × ((view hands.new.from).parts ≡ (view hands.old.from).parts + 1) }
    ensures all { (n : ℕ) → HasAll n (view hands.old.into) (view hands.old.from)
        → HasAll n (view hands.new.into) (view hands.new.from) }
{
    jobs.absorb::<Cut>(&mut hands.into, theirs);
    pieces.absorb::<Cut>(&mut hands.from, back);
}

// Runs `upto` workers, of which the caller's thread is the first. The innermost call feeds them, and then puts a stop
// for each other one. There is a bell for each worker.
#[cycle(crew)]
fn crew<N: Naming + Send + Sync, T: Threads + Wait + Sync, R: Source, W: Output, G: Gate + Sync>(
    rt: &T,
    alloc: Global,
    queues: &Queues<'_, N>,
    context: &SealingContext<'_, N, G>,
    reader: &mut R,
    writer: &mut W,
    round: &mut Round,
    upto: u32,
    hands: &mut Hands,
) -> Result<u64, SealFault>
    requires plan { IsPlan N.each N.header context.now.plan }
    requires read { IsRead N.each N.key N.header N.told (R.left reader.old) context.now.plan round.old }
    requires upto { (0 < upto) × (upto ≤ length queues.now.bells.now) }
    requires into { IsPassOf queues.now.jobs.now hands.old.into × (upto ≤ (view hands.old.into).parts)
        × ((view hands.old.into).put ≡ []) }
    requires from { IsPassOf queues.now.pieces.now hands.old.from × (upto ≤ (view hands.old.from).parts)
        × ((view hands.old.from).put ≡ []) }
    requires may { (plain : List ℕ)
        → Admits (W.bound writer.old) (W.taken writer.old) (behind context.now.front.now N.key N.header plain) }
    ensures into { IsPassOf queues.now.jobs.now hands.new.into
        × ((view hands.new.into).parts ≡ (view hands.old.into).parts) }
    ensures from { IsPassOf queues.now.pieces.now hands.new.from
        × ((view hands.new.from).parts ≡ (view hands.old.from).parts) }
    ensures sealed { HasSealedRounds context.now.front.now N.key N.header (context.now.plan.limit - 1)
        (context.now.plan.group * N.each)
        (io_view N.told (R.failures reader.old) (W.taken writer.old) (W.failures writer.old))
        (io_view (R.left reader.new) (R.failures reader.new) (W.taken writer.new) (W.failures writer.new)) result }
    ensures all { OnOk result ((n : ℕ) × HasAll n (view hands.new.into) (view hands.new.from)) }
{
    if upto == 1 {
        let answer = feed(rt, alloc, queues, context, reader, writer, round, hands);
        if answer.is_err() {
            drop_jobs(queues.jobs, &mut hands.into, context.plan.depth);
        }
        stop_all(rt, queues.jobs, &mut hands.into, queues.bells.len() - 1);
        ring(queues.bells);
        return answer;
    }
    let last = upto - 1;
    let mut theirs = queues.jobs.another::<Cut>(&mut hands.into);
    let mut back = queues.pieces.another::<Cut>(&mut hands.from);
    let mut other = ||
        requires { IsSync T.row × (0 < last) × (last < length queues.now.bells.now)
            × IsPassOf queues.now.jobs.now theirs × (view theirs ≡ newcomer)
            × IsPassOf queues.now.pieces.now back × (view back ≡ newcomer) }
        ensures { IsPassOf queues.entry.now.jobs.now theirs.exit × IsPassOf queues.entry.now.pieces.now back.exit
            × HasRelayed 1 (view theirs.exit) (view back.exit) }
    { worker(rt, queues, context, last, &mut theirs, &mut back) };
    let mut here = || -> Result<u64, SealFault>
        requires { IsSync T.row × IsPlan N.each N.header context.now.plan
            × IsRead N.each N.key N.header N.told (R.left reader.now) context.now.plan round.now × (0 < last)
            × (last ≤ length queues.now.bells.now)
            × IsPassOf queues.now.jobs.now hands.now.into × (last ≤ (view hands.now.into).parts)
            × ((view hands.now.into).put ≡ [])
            × IsPassOf queues.now.pieces.now hands.now.from × (last ≤ (view hands.now.from).parts)
            × ((view hands.now.from).put ≡ [])
            × ((plain : List ℕ)
            → Admits (W.bound writer.now) (W.taken writer.now) (behind context.now.front.now N.key N.header plain)) }
        ensures { OnOk result ((n : ℕ) × HasAll n (view hands.exit.now.into) (view hands.exit.now.from))
            × (IsPassOf queues.entry.now.jobs.now hands.exit.now.into
            × ((view hands.exit.now.into).parts ≡ (view hands.entry.now.into).parts))
            × (IsPassOf queues.entry.now.pieces.now hands.exit.now.from
            × ((view hands.exit.now.from).parts ≡ (view hands.entry.now.from).parts))
            × HasSealedRounds context.entry.now.front.now N.key N.header (context.entry.now.plan.limit - 1)
            (context.entry.now.plan.group * N.each)
            (io_view N.told (R.failures reader.entry.now) (W.taken writer.entry.now) (W.failures writer.entry.now))
            (io_view (R.left reader.exit.now) (R.failures reader.exit.now) (W.taken writer.exit.now)
            (W.failures writer.exit.now)) result }
    {
        crew(
            rt, alloc, queues, context, reader, writer, round, last, hands,
        )
    };
    let ((), answer) = join_mut(rt, &mut other, &mut here);
    meet(queues.jobs, queues.pieces, hands, theirs, back);
    answer
}

// Returns a bell for each worker.
fn bells_of(alloc: Global, workers: u32) -> Result<Vec<Parker>, AllocError>
    ensures { IfOk result (λ bells. length bells.items ≡ workers) }
{
    let mut bells = Vec::with_capacity(alloc, workers as usize)?;
    'bells: for _ in 0..workers {
        bells.push_reserved(Parker::new());
    }
    Ok(bells)
}

// Seals the input, of which `round` was already read, with `workers` workers. Returns the result, and the hands of all
// workers together.
pub(crate) fn through<
    N: Naming + Send + Sync,
    T: Threads + Wait + Sync,
    R: Source,
    W: Output,
    G: Gate + Sync,
>(
    rt: &T,
    alloc: Global,
    context: &SealingContext<'_, N, G>,
    reader: &mut R,
    writer: &mut W,
    round: &mut Round,
    workers: u32,
) -> (Result<u64, SealFault>, Option<Hands>)
    requires plan { IsPlan N.each N.header context.now.plan × (context.now.plan.depth ≤ 2 ^ 20) }
    requires read { IsRead N.each N.key N.header N.told (R.left reader.old) context.now.plan round.old }
    requires workers { (0 < workers) × (workers ≤ MAX_WORKERS) }
    requires may { (plain : List ℕ)
        → Admits (W.bound writer.old) (W.taken writer.old) (behind context.now.front.now N.key N.header plain) }
    ensures sealed { HasSealedRounds context.now.front.now N.key N.header (context.now.plan.limit - 1)
        (context.now.plan.group * N.each)
        (io_view N.told (R.failures reader.old) (W.taken writer.old) (W.failures writer.old))
        (io_view (R.left reader.new) (R.failures reader.new) (W.taken writer.new) (W.failures writer.new)) result.0 }
    ensures once { OnOk result.0 (IfSome result.1 (λ hands. (n : ℕ) × EachOnce n (view hands.into) (view hands.from))) }
{
    let Ok(bells) = bells_of(alloc, workers) else {
        return (Err(SealFault::OutOfMemory), None);
    };
    let depth = context.plan.depth;
    let Ok((jobs, into)) = JobLine::<N>::ruled(alloc, depth + workers as usize) else {
        return (Err(SealFault::OutOfMemory), None);
    };
    let Ok((pieces, from)) = PieceLine::<N>::ruled(alloc, depth) else {
        return (Err(SealFault::OutOfMemory), None);
    };
    let queues = Queues {
        jobs: &jobs,
        pieces: &pieces,
        bells: bells.as_slice(),
    };
    let mut hands = Hands { into, from };
    let answer = crew(
        rt, alloc, &queues, context, reader, writer, round, workers, &mut hands,
    );
    jobs.learn_as::<Total>(&mut hands.into);
    pieces.learn_as::<Total>(&mut hands.from);
    (answer, Some(hands))
}
