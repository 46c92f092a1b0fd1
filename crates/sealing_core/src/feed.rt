//! The caller's thread: it reads and writes, and seals a block itself while it may not read on.
ghost use Rattle.std.specs.Prelude.{◌≡◌, ℕ, ◌+◌, ◌-◌, ◌*◌, ◌<◌, ◌≤◌, [], All, Option, List};
ghost use Rattle.std.specs.Prelude.{OnOk, OnErr, IfOk};
ghost use Rattle.std.specs.Prelude.{length, true, false, is_err, not};
ghost use Rattle.std.specs.VecDeque.{deque_capacity};
ghost use Rattle.crossbeam_queue.specs.Passes.{view, IsPassOf};
ghost use Rattle.io_core.specs.Reads.{ConsumesUpTo};
ghost use Rattle.io_core.specs.Streams.{counted};
ghost use Rattle.io_core.specs.Views.{io_view};
ghost use Rattle.output_core.specs.Bounds.{Admits};
ghost use Rattle.sealing_core.specs.Hands.{hands_view};
ghost use Rattle.sealing_core.specs.Order.{behind, below, AreWritten, IsCutOff, IsSeen, MayGoOn};
ghost use Rattle.sealing_core.specs.Pieces.{block, room};
ghost use Rattle.sealing_core.specs.Round.{AreRounds, IsHanded, IsInHand, IsLast, IsPlan, IsRead};
ghost use Rattle.sealing_core.specs.Round.{IsUnderWay, MayEnd};
ghost use Rattle.sealing_core.specs.Rounds.{HasSealedRounds};
ghost use Rattle.sealing_core.specs.declared.line.Hand.{Hand};
ghost use Rattle.sealing_core.specs.declared.round.Plan.{Plan};

use crate::context::SealingContext;
use crate::early::Early;
use crate::handing::hand_over;
use crate::line::{Hand, Hands, Naming, Queues, take_task};
use crate::piece::{Task, make_piece};
use crate::round::Round;
use crate::spare::{buffers, take_spare};
use crate::worker::rest;
use crate::writing::{write_or_take_back, write_part};
use claim_core::Gate;
use container_core::SealFault;
use crossbeam_queue::Pass;
use io_core::{Failed, Source};
use output_core::Output;
use std::alloc::Global;
use std::sync::Wait;

// Seals a block on this thread, or rests if there is none. The last block comes first, since no other worker can seal
// it; if this worker is alone, `end` seals it. Returns how often it has looked in vain since it last found one or slept.
fn seal_or_rest<N: Naming, T: Wait, G: Gate>(
    rt: &T,
    queues: &Queues<'_, N>,
    context: &SealingContext<'_, N, G>,
    looks: u32,
    round: &mut Round,
    early: &mut Early,
    into: &mut Pass<Task, Hand>,
) -> u32
    requires bells { 0 < length queues.now.bells.now }
    requires into { IsPassOf queues.now.jobs.now into.old × (0 < (view into.old).parts) }
    requires last { round.old.intake.ended ≡ true → MayEnd N.each N.header round.old }
    ensures into { IsPassOf queues.now.jobs.now into.new × ((view into.new).parts ≡ (view into.old).parts) }
    ensures same { (early.new.written ≡ early.old.written)
        × (deque_capacity early.new.places ≡ deque_capacity early.old.places)
        × (length early.new.places.items ≡ length early.old.places.items)
        × (round.new.intake ≡ round.old.intake) × (round.new.held ≡ round.old.held) }
    ensures way { (left : Option (List ℕ)) (plan : Plan) (pieces : Hand)
        → IsUnderWay N.each N.key N.header N.told left plan early.old (hands_view (view into.old) pieces) round.old
        → IsUnderWay N.each N.key N.header N.told left plan early.new (hands_view (view into.new) pieces) round.new }
{
    let bells = queues.bells;
    if bells.len() > 1 && round.seal_last(context) {
        return 0;
    }
    match take_task(queues.jobs, into) {
        Some(Task::Job { number, buffer }) => {
            early.place(make_piece(context, 0, number, buffer));
            0
        }
        Some(Task::Stop) | None => rest(rt, &bells[0], looks),
    }
}

// Reads to the end of the input or to a byte too many, puts each round that was read, and writes until all that was put
// is written. Returns whether no read failed; a failed one ends it at once.
fn run_rounds<N: Naming, T: Wait, R: Source, W: Output, G: Gate>(
    rt: &T,
    queues: &Queues<'_, N>,
    context: &SealingContext<'_, N, G>,
    reader: &mut R,
    writer: &mut W,
    spare: &mut Vec<Vec<u8>>,
    round: &mut Round,
    early: &mut Early,
    hands: &mut Hands,
) -> Result<bool, Failed>
    requires plan { IsPlan N.each N.header context.now.plan }
    requires bells { 0 < length queues.now.bells.now }
    requires into { IsPassOf queues.now.jobs.now hands.old.into × (0 < (view hands.old.into).parts) }
    requires from { IsPassOf queues.now.pieces.now hands.old.from × (0 < (view hands.old.from).parts) }
    requires way { IsUnderWay N.each N.key N.header N.told (R.left reader.old) context.now.plan
        early.old (hands_view (view hands.old.into) (view hands.old.from)) round.old }
    requires handed { IsHanded context.now.plan.group round.old }
    requires room { (context.now.plan.depth ≤ deque_capacity early.old.places)
        × (context.now.plan.group ≤ deque_capacity round.old.held)
        × (length early.old.places.items + length round.old.held.items ≤ context.now.plan.depth) }
    requires spare { All (λ b. length b.items ≡ room N.each N.header) spare.old.items }
    requires fresh { early.old.written ≡ 0 }
    requires may { (plain : List ℕ)
        → Admits (W.bound writer.old) (W.taken writer.old) (behind context.now.front.now N.key N.header plain) }
    ensures into { IsPassOf queues.now.jobs.now hands.new.into
        × ((view hands.new.into).parts ≡ (view hands.old.into).parts) }
    ensures from { IsPassOf queues.now.pieces.now hands.new.from
        × ((view hands.new.from).parts ≡ (view hands.old.from).parts) }
    ensures all { IfOk result (λ all. all ≡ true
        → IsUnderWay N.each N.key N.header N.told (R.left reader.new) context.now.plan
        early.new (hands_view (view hands.new.into) (view hands.new.from)) round.new
        × IsHanded context.now.plan.group round.new
        × (round.new.intake.over ≡ false → round.new.intake.ended ≡ true) × (length early.new.places.items ≡ 0)) }
    ensures bound { ConsumesUpTo N.told (R.left reader.new) context.now.plan.limit }
    ensures written { OnOk result (AreWritten N.each context.now.front.now N.key N.header N.told
        (W.taken writer.old) (W.taken writer.new) early.new.written) }
    ensures begun { OnErr result (IsCutOff context.now.front.now N.key N.header N.told
        (W.taken writer.old) (W.taken writer.new)) }
    ensures reads { IfOk result (λ all. R.failures reader.new ≡ counted (not all) (R.failures reader.old)) }
    ensures unread { OnErr result (R.failures reader.new ≡ R.failures reader.old) }
    ensures same { W.bound writer.new ≡ W.bound writer.old }
    ensures writes { W.failures writer.new ≡ counted (is_err result) (W.failures writer.old) }
{
    let size = context.block_bytes();
    let room = context.room_bytes();
    let plan = context.plan;
    let front = context.front;
    let mut looks = 0;
    for _ in rt.forever() {
        match write_or_take_back(
            queues.pieces,
            early,
            writer,
            front,
            spare,
            room,
            &mut hands.from,
        ) {
            Ok(true) => {
                looks = 0;
                continue;
            }
            Ok(false) => {}
            Err(Failed) => return Err(Failed),
        }
        if round.is_open() {
            // Unless eager, it reads a round after writing those that may be. So no write follows a failed read.
            let waits = !plan.eager && early.is_ripe();
            let count = early.len() + round.held.len();
            if let Some(buffer) = take_spare(spare, room, waits, count, plan.depth) {
                match round.read::<N, R>(reader, size, plan.limit, buffer) {
                    Err(Failed) => return Ok(false),
                    Ok(()) => {}
                }
                hand_over(rt, queues, plan, round, early, &mut hands.into);
                continue;
            }
        } else if early.is_empty() {
            return Ok(true);
        }
        looks = seal_or_rest(rt, queues, context, looks, round, early, &mut hands.into);
    }
    unreachable!()
}

/// Ends the output when all before is written: writes the last block, unless there is a byte too many.
pub(crate) fn end<N: Naming, W: Output, G: Gate>(
    context: &SealingContext<'_, N, G>,
    writer: &mut W,
    round: &mut Round,
) -> Result<u64, SealFault>
    requires closed { round.old.intake.over ≡ false → round.old.intake.ended ≡ true }
    requires hand { (left : Option (List ℕ)) × (limit : ℕ) × (put : ℕ)
        × IsInHand N.each N.key N.header N.told left limit put round.old }
    requires may { round.old.intake.ended ≡ true
        → MayGoOn N.each context.now.front.now N.key N.header N.told
        (W.bound writer.old) (W.taken writer.old) (round.old.intake.blocks - 1) }
    ensures sealed { (left taken : Option (List ℕ)) (failures : Option ℕ) (limit group put : ℕ) → 0 < limit
        → IsInHand N.each N.key N.header N.told left limit put round.old → IsHanded group round.old
        → (round.old.intake.ended ≡ false → AreRounds (block N.each N.header) limit group put)
        → AreWritten N.each context.now.front.now N.key N.header N.told taken (W.taken writer.old) put
        → HasSealedRounds context.now.front.now N.key N.header (limit - 1) (group * N.each)
        (io_view N.told failures taken (W.failures writer.old))
        (io_view left failures (W.taken writer.new) (W.failures writer.new)) result }
{
    if round.intake.over {
        return Err(SealFault::TooLong);
    }
    round.seal_last(context);
    let sealed = &round.last[..round.filled];
    match write_part(writer, context.front, round.intake.blocks - 1, sealed) {
        Ok(()) => Ok(round.intake.total),
        Err(Failed) => Err(SealFault::Write),
    }
}

/// Reads on and writes, to the end or to the first fault, after what was already read. All room is allocated before
/// anything is written.
pub(crate) fn feed<N: Naming, T: Wait, R: Source, W: Output, G: Gate>(
    rt: &T,
    alloc: Global,
    queues: &Queues<'_, N>,
    context: &SealingContext<'_, N, G>,
    reader: &mut R,
    writer: &mut W,
    round: &mut Round,
    hands: &mut Hands,
) -> Result<u64, SealFault>
    requires plan { IsPlan N.each N.header context.now.plan }
    requires read { IsRead N.each N.key N.header N.told (R.left reader.old) context.now.plan round.old }
    requires bells { 0 < length queues.now.bells.now }
    requires into { IsPassOf queues.now.jobs.now hands.old.into × (0 < (view hands.old.into).parts)
        × ((view hands.old.into).put ≡ []) }
    requires from { IsPassOf queues.now.pieces.now hands.old.from × (0 < (view hands.old.from).parts)
        × ((view hands.old.from).put ≡ []) }
    requires may { (plain : List ℕ)
        → Admits (W.bound writer.old) (W.taken writer.old) (behind context.now.front.now N.key N.header plain) }
    ensures into { IsPassOf queues.now.jobs.now hands.new.into
        × ((view hands.new.into).parts ≡ (view hands.old.into).parts) }
    ensures from { IsPassOf queues.now.pieces.now hands.new.from
        × ((view hands.new.from).parts ≡ (view hands.old.from).parts) }
    ensures sealed { HasSealedRounds context.now.front.now N.key N.header (context.now.plan.limit - 1)
        (context.now.plan.group * N.each)
        (io_view N.told (R.failures reader.old) (W.taken writer.old) (W.failures writer.old))
        (io_view (R.left reader.new) (R.failures reader.new) (W.taken writer.new) (W.failures writer.new)) result }
    ensures seen { OnOk result ((n : ℕ) × ((view hands.new.into).put ≡ below n) × ((view hands.new.from).put ≡ [])
        × IsSeen n (view hands.new.into).taken (view hands.new.from).taken) }
{
    let plan = context.plan;
    let Ok(mut early) = Early::new(alloc, plan.depth) else {
        return Err(SealFault::OutOfMemory);
    };
    let count = if round.is_open() {
        plan.depth - round.held.len()
    } else {
        0
    };
    let room = context.room_bytes();
    let Ok(mut spare) = buffers(alloc, count, room) else {
        return Err(SealFault::OutOfMemory);
    };
    hand_over(rt, queues, plan, round, &mut early, &mut hands.into);
    let all = match run_rounds(
        rt, queues, context, reader, writer, &mut spare, round, &mut early, hands,
    ) {
        Ok(all) => all,
        Err(Failed) => return Err(SealFault::Write),
    };
    if !all {
        return Err(SealFault::Read);
    }
    end(context, writer, round)
}
