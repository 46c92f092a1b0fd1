//! What the lanes of a batch have done, in places that were made before the first lane started. Once the lanes have
//! ended, all of it is put in the order of the jobs. Each lane has drawn its jobs in the order of their numbers, so the
//! next job is always the first that some lane has left.
ghost use Rattle.std.specs.Prelude.{◌≡◌, ◌↔◌, ℕ, ◌<◌, ◌≤◌, ◌++◌, [], ◌∷◌, length, All, IfOk, IsTrue};
ghost use Rattle.std.specs.Prelude.{vec_len, vec_capacity};
ghost use Rattle.crew_core.specs.Places.{AreDrawn, AreInOrder, BeginsWith, done_at, done_of};

use crate::MAX_JOBS;
use crate::outcome::Outcome;
use std::alloc::{AllocError, Global};
use std::collections::VecDeque;
use std::marker::Model;

/// A job that a lane has done: its number, and what became of it.
#[derive(Drop)]
pub(crate) struct Done {
    pub(crate) job: u32,
    pub(crate) outcome: Outcome,
}

/// What one lane has done, in the order in which it did it, in room that was made beforehand.
#[derive(Drop)]
pub(crate) struct LanePlaces {
    done: VecDeque<Done>,
}

impl Model for LanePlaces {
    ghost use Rattle.std.specs.VecDeque.{deque_capacity};
    ghost use Rattle.crew_core.specs.Places.{LanePlacesView};

    ghost Value = { LanePlacesView };

    ghost view = { λ p. record { done = p.done.items; room = deque_capacity p.done } };
}

impl LanePlaces {
    // Makes room for `room` jobs.
    fn new(alloc: Global, room: usize) -> Result<LanePlaces, AllocError>
        ensures { IfOk result (λ places. (places.done ≡ []) × (room ≤ places.room)) }
    {
        let done = VecDeque::with_capacity(alloc, room)?;
        Ok(LanePlaces { done })
    }

    /// Adds a job that is done, in room that is there.
    pub(crate) fn put(&mut self, done: Done)
        requires { length self.old.done < self.old.room }
        ensures { self.new ≡ record self.old { done = self.old.done ++ done ∷ [] } }
    {
        self.done.push_back_reserved(done);
    }

    // Whether the first job left is the one of this number.
    fn begins_with(&self, job: u32) -> bool
        ensures { IsTrue result ↔ BeginsWith job self.now.done }
    {
        match self.done.front() {
            Some(done) => done.job == job,
            None => false,
        }
    }

    // Takes out the outcome of the first job, which has the number `_job`.
    fn take(&mut self, _job: u32) -> Outcome
        requires { BeginsWith _job self.old.done }
        ensures { self.old.done ≡ done_of _job result ∷ self.new.done }
    {
        match self.done.pop_front() {
            Some(Done { job: _, outcome }) => outcome,
            None => unreachable!(),
        }
    }
}

/// Makes places for each lane, with room for `room` jobs.
pub(crate) fn all_places(
    alloc: Global,
    room: usize,
    lanes: u32,
) -> Result<Vec<LanePlaces>, AllocError>
    ensures { IfOk result (λ all. (vec_len all ≡ lanes)
        × All (λ places. (places.done ≡ []) × (room ≤ places.room)) all.items) }
{
    let mut all = Vec::with_capacity(alloc, lanes as usize)?;
    for _ in 0..lanes {
        all.push(LanePlaces::new(alloc, room)?)?;
    }
    Ok(all)
}

// The lane whose first job left is this one.
fn lane_with(places: &[LanePlaces], job: u32) -> usize
    requires { (lane : ℕ) × (lane < length places.now) × BeginsWith job (done_at places.now lane) }
    ensures below { result < length places.now }
    ensures first { BeginsWith job (done_at places.now result) }
{
    for lane in 0..places.len() {
        if places[lane].begins_with(job) {
            return lane;
        }
    }
    unreachable!()
}

/// Puts the outcomes of all lanes in the order of their jobs, into room that is there.
pub(crate) fn put_in_order(outcomes: &mut Vec<Outcome>, places: &mut [LanePlaces], jobs: u32)
    requires room { (vec_len outcomes.old ≡ 0) × (jobs ≤ vec_capacity outcomes.old) }
    requires drawn { AreDrawn jobs places.old }
    ensures { AreInOrder jobs places.old outcomes.new.items }
{
    for job in 0..jobs {
        let lane = lane_with(places, job);
        let outcome = places[lane].take(job);
        outcomes.push_reserved(outcome);
    }
}
