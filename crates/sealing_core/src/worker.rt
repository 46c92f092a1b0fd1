//! A worker: it takes jobs and gives pieces back, until a stop comes.
ghost use Rattle.std.specs.Prelude.{◌≡◌, [], ◌<◌, length};
ghost use Rattle.crossbeam_queue.specs.Passes.{view, IsPassOf};
ghost use Rattle.sealing_core.specs.Hands.{hand, newcomer, HasRelayed};

use crate::context::SealingContext;
use crate::line::{Hand, Naming, Queues, put_piece, take_task};
use crate::piece::{Piece, Task, make_piece};
use claim_core::Gate;
use crossbeam_queue::Pass;
use std::sync::Wait;
use std::thread;
use std::thread::Parker;

// How often a thread looks for something to do before it sleeps.
const LOOKS: u32 = 100;

/// Yields, or sleeps if it has looked `LOOKS` times in vain. Returns how often it has looked since it last slept.
pub(crate) fn rest<T: Wait>(rt: &T, bell: &Parker, looks: u32) -> u32 {
    if looks < LOOKS {
        thread::yield_now();
        return looks + 1;
    }
    bell.park(rt);
    0
}

/// Runs the worker of this number. For each job that it takes it gives one piece back. It passes the gate with a
/// chunk's number right before it seals the chunk. It wakes the caller's thread, worker 0, once the piece is there.
pub(crate) fn worker<N: Naming, R: Wait, G: Gate>(
    rt: &R,
    queues: &Queues<'_, N>,
    context: &SealingContext<'_, N, G>,
    me: u32,
    from: &mut Pass<Task, Hand>,
    into: &mut Pass<Piece, Hand>,
)
    requires me { (0 < me) × (me < length queues.now.bells.now) }
    requires from { IsPassOf queues.now.jobs.now from.old × (view from.old ≡ newcomer) }
    requires into { IsPassOf queues.now.pieces.now into.old × (view into.old ≡ newcomer) }
    ensures { IsPassOf queues.now.jobs.now from.new × IsPassOf queues.now.pieces.now into.new
        × HasRelayed 1 (view from.new) (view into.new) }
{
    let mut looks = 0;
    for _ in rt.forever() {
        match take_task(queues.jobs, from) {
            Some(Task::Job { number, buffer }) => {
                let piece = make_piece(context, me, number, buffer);
                put_piece(rt, queues.pieces, into, piece);
                queues.bells[0].unpark();
                looks = 0;
            }
            Some(Task::Stop) => break,
            None => looks = rest(rt, &queues.bells[me as usize], looks),
        }
    }
}
