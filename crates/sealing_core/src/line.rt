//! The two queues and their rules.
//!
//! Each rule says two things:
//! - Each item is as defined: a job is a number and that block of the input, a piece a number and that block's sealed
//!   bytes.
//! - Each number was put as often as it was taken or is in the queue.
ghost use Rattle.std.specs.Prelude.{◌≡◌, ◌++◌, ◌<◌, IfSome, IfNone};
ghost use Rattle.crossbeam_queue.specs.Passes.{view, IsPassOf};
ghost use Rattle.sealing_core.specs.Pieces.{IsTask, IsPiece, task_numbers, piece_numbers};
ghost use Rattle.sealing_core.specs.Hands.{hand};

use crate::piece::{Piece, Task};
use crossbeam_queue::protocol::{Join, Lesson, Outcome, Protocol, Split};
use crossbeam_queue::{Pass, RuledArrayQueue};
use std::alloc::Global;
use std::collections::LinkedList;
use std::marker::{Brand, PhantomData};
use std::sync::Wait;
use std::thread;
use std::thread::Parker;

/// What a pass has put and taken, and its parts of the right to know the whole. No value of this type exists at run
/// time.
pub(crate) struct Hand {
    pub parts: u64,
    pub put: LinkedList<u32>,
    pub taken: LinkedList<u32>,
}

/// Names what a call works on. Each call picks it.
pub(crate) trait Naming {
    ghost use Rattle.std.specs.Prelude.{ℕ, List, Option};

    ghost key: { List ℕ };

    ghost header: { List ℕ };

    // How many chunks a block has.
    ghost each: { ℕ };

    // The input, if the reader knows it.
    ghost told: { Option (List ℕ) };
}

impl Naming for Brand {
    ghost use Rattle.std.specs.Prelude.{[], None};

    ghost key = { [] };

    ghost header = { [] };

    ghost each = { 1 };

    ghost told = { None };
}

pub(crate) struct Jobs<N> {
    of: PhantomData<N>,
}

impl<N: Naming> Protocol<Task, Hand> for Jobs<N> {
    ghost use Rattle.std.specs.Prelude.{[]};
    ghost use Rattle.sealing_core.specs.Pieces.{IsTask, task_numbers};
    ghost use Rattle.sealing_core.specs.Hands.{hand, Holds};

    ghost holds = { Holds (IsTask N.each N.header N.told) task_numbers };

    ghost first = { hand 1024 [] [] };
}

pub(crate) struct Pieces<N> {
    of: PhantomData<N>,
}

impl<N: Naming> Protocol<Piece, Hand> for Pieces<N> {
    ghost use Rattle.std.specs.Prelude.{[]};
    ghost use Rattle.sealing_core.specs.Pieces.{IsPiece, piece_numbers};
    ghost use Rattle.sealing_core.specs.Hands.{hand, Holds};

    ghost holds = { Holds (IsPiece N.each N.key N.header N.told) piece_numbers };

    ghost first = { hand 1024 [] [] };
}

pub(crate) struct Cut;

impl Split<Hand> for Cut {
    ghost use Rattle.sealing_core.specs.Hands.{left, newcomer};

    ghost left = { left };

    ghost right = { λ v. newcomer };
}

impl Join<Hand> for Cut {
    ghost use Rattle.sealing_core.specs.Hands.{both, nobody};

    ghost both = { both };

    ghost spent = { nobody };
}

/// A push.
pub(crate) struct Put;

impl Outcome<Task, Hand> for Put {
    ghost use Rattle.std.specs.Prelude.{◌≡◌, ◌++◌};
    ghost use Rattle.sealing_core.specs.Pieces.{task_numbers};
    ghost use Rattle.sealing_core.specs.Hands.{hand};

    ghost then = { λ v x w. w ≡ hand v.parts (v.put ++ task_numbers x) v.taken };
}

impl Outcome<Piece, Hand> for Put {
    ghost use Rattle.std.specs.Prelude.{◌≡◌, ◌++◌};
    ghost use Rattle.sealing_core.specs.Pieces.{piece_numbers};
    ghost use Rattle.sealing_core.specs.Hands.{hand};

    ghost then = { λ v x w. w ≡ hand v.parts (v.put ++ piece_numbers x) v.taken };
}

/// A pop from a queue of this call.
pub(crate) struct Take<N> {
    of: PhantomData<N>,
}

impl<N: Naming> Outcome<Task, Hand> for Take<N> {
    ghost use Rattle.std.specs.Prelude.{◌≡◌, ◌++◌};
    ghost use Rattle.sealing_core.specs.Pieces.{IsTask, task_numbers};
    ghost use Rattle.sealing_core.specs.Hands.{hand};

    ghost then = { λ v x w. IsTask N.each N.header N.told x × (w ≡ hand v.parts v.put (v.taken ++ task_numbers x)) };
}

impl<N: Naming> Outcome<Piece, Hand> for Take<N> {
    ghost use Rattle.std.specs.Prelude.{◌≡◌, ◌++◌};
    ghost use Rattle.sealing_core.specs.Pieces.{IsPiece, piece_numbers};
    ghost use Rattle.sealing_core.specs.Hands.{hand};

    ghost then = { λ v x w. IsPiece N.each N.key N.header N.told x
        × (w ≡ hand v.parts v.put (v.taken ++ piece_numbers x)) };
}

/// What was put is what was taken and what the queue holds.
pub(crate) struct Total;

impl Lesson<Task, Hand> for Total {
    ghost use Rattle.sealing_core.specs.Pieces.{task_numbers};
    ghost use Rattle.sealing_core.specs.Hands.{Balanced};

    ghost fact = { Balanced task_numbers };
}

impl Lesson<Piece, Hand> for Total {
    ghost use Rattle.sealing_core.specs.Pieces.{piece_numbers};
    ghost use Rattle.sealing_core.specs.Hands.{Balanced};

    ghost fact = { Balanced piece_numbers };
}

pub(crate) type JobLine<N> = RuledArrayQueue<Task, Hand, Jobs<N>, Global>;

pub(crate) type PieceLine<N> = RuledArrayQueue<Piece, Hand, Pieces<N>, Global>;

/// The two queues of a call, and a bell for each worker, which wakes it. Worker 0 is the caller's thread.
#[derive(Drop)]
pub(crate) struct Queues<'a, N: Naming> {
    pub(crate) jobs: &'a JobLine<N>,
    pub(crate) pieces: &'a PieceLine<N>,
    pub(crate) bells: &'a [Parker],
}

/// The passes of the caller's thread, into the queue of jobs and from the queue of pieces; at the end those of all workers.
#[derive(Drop)]
pub(crate) struct Hands {
    pub(crate) into: Pass<Task, Hand>,
    pub(crate) from: Pass<Piece, Hand>,
}

/// Puts a task, waiting until there is room.
pub(crate) fn put_task<N: Naming, R: Wait>(
    rt: &R,
    jobs: &JobLine<N>,
    pass: &mut Pass<Task, Hand>,
    task: Task,
)
    requires pass { IsPassOf jobs.now pass.old × (0 < (view pass.old).parts) }
    requires task { IsTask N.each N.header N.told task }
    ensures pass { IsPassOf jobs.now pass.new }
    ensures view { view pass.new
        ≡ hand (view pass.old).parts ((view pass.old).put ++ task_numbers task) (view pass.old).taken }
{
    let mut task = task;
    for _ in rt.forever() {
        match jobs.try_push_as::<Put>(pass, task) {
            Ok(()) => return,
            Err(back) => task = back,
        }
        thread::yield_now();
    }
    unreachable!()
}

/// Puts a piece, waiting until there is room.
pub(crate) fn put_piece<N: Naming, R: Wait>(
    rt: &R,
    pieces: &PieceLine<N>,
    pass: &mut Pass<Piece, Hand>,
    piece: Piece,
)
    requires pass { IsPassOf pieces.now pass.old × (0 < (view pass.old).parts) }
    requires piece { IsPiece N.each N.key N.header N.told piece }
    ensures pass { IsPassOf pieces.now pass.new }
    ensures view { view pass.new
        ≡ hand (view pass.old).parts ((view pass.old).put ++ piece_numbers piece) (view pass.old).taken }
{
    let mut piece = piece;
    for _ in rt.forever() {
        match pieces.try_push_as::<Put>(pass, piece) {
            Ok(()) => return,
            Err(back) => piece = back,
        }
        thread::yield_now();
    }
    unreachable!()
}

/// Takes a task, if there is one.
pub(crate) fn take_task<N: Naming>(jobs: &JobLine<N>, pass: &mut Pass<Task, Hand>) -> Option<Task>
    requires pass { IsPassOf jobs.now pass.old × (0 < (view pass.old).parts) }
    ensures pass { IsPassOf jobs.now pass.new }
    ensures some { IfSome result (λ x. IsTask N.each N.header N.told x
        × (view pass.new ≡ hand (view pass.old).parts (view pass.old).put ((view pass.old).taken ++ task_numbers x))) }
    ensures none { IfNone result (view pass.new ≡ view pass.old) }
{
    jobs.try_pop_as::<Take<N>>(pass)
}

/// Takes a piece, if there is one.
pub(crate) fn take_piece<N: Naming>(
    pieces: &PieceLine<N>,
    pass: &mut Pass<Piece, Hand>,
) -> Option<Piece>
    requires pass { IsPassOf pieces.now pass.old × (0 < (view pass.old).parts) }
    ensures pass { IsPassOf pieces.now pass.new }
    ensures some { IfSome result (λ x. IsPiece N.each N.key N.header N.told x
        × (view pass.new ≡ hand (view pass.old).parts (view pass.old).put ((view pass.old).taken ++ piece_numbers x))) }
    ensures none { IfNone result (view pass.new ≡ view pass.old) }
{
    pieces.try_pop_as::<Take<N>>(pass)
}
