//! Puts whole rounds into the queue.
ghost use Rattle.std.specs.Prelude.{◌≡◌, ℕ, ◌+◌, ◌<◌, ◌≤◌, ◌++◌, [], ◌∷◌, Option, List, length, true};
ghost use Rattle.std.specs.VecDeque.{deque_capacity, deque_len};
ghost use Rattle.crossbeam_queue.specs.Passes.{view, IsPassOf};
ghost use Rattle.sealing_core.specs.Hands.{all_numbers, hand, hands_view};
ghost use Rattle.sealing_core.specs.Order.{empty};
ghost use Rattle.sealing_core.specs.Pieces.{task_numbers};
ghost use Rattle.sealing_core.specs.Round.{AreJobs, IsHanded, IsUnderWay};
ghost use Rattle.sealing_core.specs.declared.line.Hand.{Hand};
ghost use Rattle.sealing_core.specs.declared.round.Plan.{Plan};

use crate::early::Early;
use crate::line::{Hand, JobLine, Naming, Queues, put_task};
use crate::piece::Task;
use crate::round::{Plan, Round};
use crossbeam_queue::Pass;
use std::collections::VecDeque;
use std::sync::Wait;
use std::thread::Parker;

/// Wakes the threads that sleep.
pub(crate) fn ring(bells: &[Parker]) {
    for bell in bells {
        bell.unpark();
    }
}

/// The first of some jobs.
pub(crate) fn first_of(held: &mut VecDeque<Task>) -> Task
    requires { 0 < deque_len held.old }
    ensures items { held.old.items ≡ result ∷ held.new.items }
    ensures room { deque_capacity held.new ≡ deque_capacity held.old }
{
    match held.pop_front() {
        Some(task) => task,
        None => unreachable!(),
    }
}

// Puts the jobs of the round in hand.
fn put_jobs<N: Naming, T: Wait>(
    rt: &T,
    jobs: &JobLine<N>,
    held: &mut VecDeque<Task>,
    early: &mut Early,
    into: &mut Pass<Task, Hand>,
)
    requires jobs { (put : ℕ) × AreJobs N.each N.header N.told put held.old.items }
    requires room { length early.old.places.items + length held.old.items ≤ deque_capacity early.old.places }
    requires into { IsPassOf jobs.now into.old × (0 < (view into.old).parts) }
    ensures into { IsPassOf jobs.now into.new × (view into.new ≡ hand (view into.old).parts
        ((view into.old).put ++ all_numbers task_numbers held.old.items) (view into.old).taken) }
    ensures places { early.new.places.items ≡ early.old.places.items ++ empty (length held.old.items) }
    ensures same { (early.new.written ≡ early.old.written)
        × (deque_capacity early.new.places ≡ deque_capacity early.old.places) }
    ensures held { (held.new.items ≡ []) × (deque_capacity held.new ≡ deque_capacity held.old) }
{
    'putting: while !held.is_empty() {
        put_task(rt, jobs, into, first_of(held));
        early.open_place();
    }
}

/// Puts the round in hand, if it is full or the last. Then what was put before may be written; at the end, or if the
/// plan is eager, all may.
pub(crate) fn hand_over<N: Naming, T: Wait>(
    rt: &T,
    queues: &Queues<'_, N>,
    plan: Plan,
    round: &mut Round,
    early: &mut Early,
    into: &mut Pass<Task, Hand>,
)
    requires group { 0 < plan.group }
    requires jobs { (put : ℕ) × AreJobs N.each N.header N.told put round.old.held.items }
    requires room { length early.old.places.items + length round.old.held.items ≤ deque_capacity early.old.places }
    requires into { IsPassOf queues.now.jobs.now into.old × (0 < (view into.old).parts) }
    ensures into { IsPassOf queues.now.jobs.now into.new × ((view into.new).parts ≡ (view into.old).parts) }
    ensures same { (early.new.written ≡ early.old.written) × (round.new.intake ≡ round.old.intake)
        × (deque_capacity early.new.places ≡ deque_capacity early.old.places)
        × (deque_capacity round.new.held ≡ deque_capacity round.old.held) }
    ensures room { length early.new.places.items + length round.new.held.items
        ≡ length early.old.places.items + length round.old.held.items }
    ensures handed { length round.old.held.items ≤ plan.group → IsHanded plan.group round.new }
    ensures way { (left : Option (List ℕ)) (pieces : Hand) → length round.old.held.items ≤ plan.group
        → (round.old.intake.over ≡ true → length round.old.held.items < plan.group)
        → IsUnderWay N.each N.key N.header N.told left plan early.old (hands_view (view into.old) pieces) round.old
        → IsUnderWay N.each N.key N.header N.told left plan early.new (hands_view (view into.new) pieces) round.new }
{
    if round.is_full(plan.group) {
        early.ripen(true);
        put_jobs(rt, queues.jobs, &mut round.held, early, into);
        ring(queues.bells);
    }
    early.ripen(plan.eager || !round.is_open());
}
