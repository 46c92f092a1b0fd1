//! The lanes of a batch. Each draws jobs from the claims that all share, one after another until none is left. It works
//! with its own seat and its own places. So a lane that is held up delays only one job.
ghost use Rattle.std.specs.Prelude.{◌≡◌, ℕ, ◌+◌, ◌<◌, ◌≤◌, [], length, map, All, IfOk};
ghost use Rattle.std.specs.Prelude.{OnOk, OnErr, IfSome, IfNone, slice_index_or};
ghost use Rattle.std.specs.Thread.{IsSync};
ghost use Rattle.claim_core.specs.Claims.{IsOf, newcomer, with_number, with_end, joined, times, once_below};
ghost use Rattle.container_core.specs.Container.{container};
ghost use Rattle.journal_core.specs.declared.entry.Way.TheVariants.{Sealed, Void};
ghost use Rattle.ledger_core.specs.Range.{prefix_of};
ghost use Rattle.crew_core.specs.Spending.{spent_as};
ghost use Rattle.crew_core.specs.Lanes.{ended, AreFree, AreLanes, AreReady, IsLaneStep, IsLaneWorked};
ghost use Rattle.crew_core.specs.Places.{all_jobs, jobs_of};

use crate::MAX_JOBS;
use crate::outcome::Outcome;
use crate::places::{Done, LanePlaces};
use claim_core::{Claimant, Claims, Gate, MAX_LANES};
use container_core::{Key, MAX_PLAIN, Shape, seal};
use ledger_core::{Grant, Ledger, Seat, Spent};
use std::alloc::{AllocError, Global};
use std::marker::Model;
use std::thread::{Threads, join_mut};

/// What all lanes of a batch share.
#[derive(Drop)]
pub(crate) struct Batch<'a> {
    key: &'a Key,
    shape: &'a Shape,
    ledger: &'a Ledger,
    jobs: &'a [Vec<u8>],
    claims: Claims,
}

impl<'a> Model for Batch<'a> {
    ghost use Rattle.std.specs.Prelude.{map};
    ghost use Rattle.crew_core.specs.Lanes.{BatchView, IsBatch, batch_of};

    ghost Value = { BatchView };

    ghost view = { λ b.
        batch_of b.key.now b.shape.now b.ledger.now.ledger (map (λ job. job.items) b.jobs.now) b.claims };

    ghost invariant = { λ b. IsBatch
        (batch_of b.key.now b.shape.now b.ledger.now.ledger (map (λ job. job.items) b.jobs.now) b.claims) };
}

impl<'a> Batch<'a> {
    /// Makes a batch of these jobs for `lanes` lanes, and the claimant that represents all of them.
    pub(crate) fn open(
        alloc: Global,
        key: &'a Key,
        shape: &'a Shape,
        ledger: &'a Ledger,
        jobs: &'a [Vec<u8>],
        lanes: u32,
    ) -> Result<(Batch<'a>, Claimant), AllocError>
        requires lanes { (0 < lanes) × (lanes ≤ MAX_LANES) }
        requires few { length jobs.now ≤ MAX_JOBS }
        requires short { All (λ job. length job.items ≤ MAX_PLAIN) jobs.now }
        ensures key { IfOk result (λ r. r.0.key ≡ key.now) }
        ensures shape { IfOk result (λ r. r.0.shape ≡ shape.now) }
        ensures ledger { IfOk result (λ r. r.0.ledger ≡ ledger.now.ledger) }
        ensures jobs { IfOk result (λ r. r.0.jobs ≡ map (λ job. job.items) jobs.now) }
        ensures lanes { IfOk result (λ r. r.0.claims.workers ≡ lanes) }
        ensures claimant { IfOk result (λ r. r.1 ≡ newcomer r.0.claims lanes) }
    {
        let (claims, claimant) = Claims::open(alloc, jobs.len() as u32, lanes)?;
        let batch = Batch {
            key,
            shape,
            ledger,
            jobs,
            claims,
        };
        Ok((batch, claimant))
    }

    // Draws the next job, or None where none is left.
    fn draw(&self, claimant: &mut Claimant) -> Option<u32>
        requires ours { IsOf self.now.claims claimant.old }
        requires may { claimant.old.ends < claimant.old.workers }
        ensures some { IfSome result (λ n. claimant.new ≡ with_number claimant.old n) }
        ensures within { IfSome result (λ n. n < length self.now.jobs) }
        ensures ascends { IfSome result (λ n. (x : ℕ) → 0 < times x claimant.old.drawn → x < n) }
        ensures fewer { IfSome result (λ n. length claimant.old.drawn < length self.now.jobs) }
        ensures none { IfNone result (claimant.new ≡ with_end claimant.old) }
    {
        self.claims.draw(claimant)
    }

    // Cuts off the claimant of one lane. The other still has `_left` lanes.
    fn cut_off(&self, claimant: &mut Claimant, _left: u32) -> Claimant
        requires left { 0 < _left }
        requires fresh { claimant.old ≡ newcomer self.now.claims (_left + 1) }
        ensures left { claimant.new ≡ newcomer self.now.claims _left }
        ensures right { result ≡ newcomer self.now.claims 1 }
    {
        self.claims.split(claimant)
    }

    // Joins the claimant of a lane that has ended to that of the lanes before it.
    fn take_in(&self, claimant: &mut Claimant, other: Claimant)
        requires ours { IsOf self.now.claims claimant.old }
        requires other { IsOf self.now.claims other }
        requires lanes { (0 < claimant.old.workers) × (0 < other.workers) }
        ensures { claimant.new ≡ joined claimant.old other }
    {
        self.claims.join(claimant, other);
    }

    /// All lanes have ended: together they have drawn each job once.
    pub(crate) fn close(self, claimant: Claimant)
        requires ours { IsOf self.claims claimant }
        requires all { claimant.workers ≡ self.claims.workers }
        requires ended { 0 < claimant.ends }
        ensures { (x : ℕ) → times x claimant.drawn ≡ once_below x (length self.entry.jobs) }
    {
        let Batch {
            key: _,
            shape: _,
            ledger: _,
            jobs: _,
            claims,
        } = self;
        claims.close(claimant);
    }

    // Issues a number at the seat, and seals the job under it.
    fn seal_job(&self, alloc: Global, lane: u32, job: u32, seat: &mut Seat) -> Outcome
        requires job { job < length self.now.jobs }
        requires ours { seat.old.ledger ≡ self.now.ledger }
        ensures { IsLaneStep self.now.key self.now.shape (slice_index_or self.now.jobs job [])
            lane seat.old seat.new result }
    {
        sealed_job(
            alloc,
            self.key,
            self.shape,
            self.ledger,
            lane,
            self.jobs[job as usize].as_slice(),
            seat,
        )
    }
}

// Seals a plaintext under a grant. The grant is spent: sealed with the container, void where memory for it was refused.
fn seal_granted(
    alloc: Global,
    key: &Key,
    shape: &Shape,
    grant: Grant,
    text: &[u8],
) -> (Result<Vec<u8>, AllocError>, Spent)
    requires short { length text.now ≤ MAX_PLAIN }
    ensures container { IfOk result.0 (λ bytes. bytes.items
        ≡ container key.now shape.now (prefix_of grant.device grant.number) text.now) }
    ensures sealed { OnOk result.0 (result.1 ≡ spent_as grant Sealed) }
    ensures void { OnErr result.0 (result.1 ≡ spent_as grant Void) }
{
    match seal(alloc, key, shape, grant.prefix(), text) {
        Ok(bytes) => (Ok(bytes), grant.used()),
        // A plaintext has at most 2^40 bytes, so only memory was refused.
        Err(_) => (Err(AllocError), grant.waste()),
    }
}

// Issues a number at the seat, and seals a plaintext under it.
fn sealed_job(
    alloc: Global,
    key: &Key,
    shape: &Shape,
    ledger: &Ledger,
    lane: u32,
    job: &[u8],
    seat: &mut Seat,
) -> Outcome
    requires ours { seat.old.ledger ≡ ledger.now.ledger }
    requires short { length job.now ≤ MAX_PLAIN }
    ensures { IsLaneStep key.now shape.now job.now lane seat.old seat.new result }
{
    let grant = match ledger.issue(seat) {
        Ok(grant) => grant,
        Err(fault) => return Outcome::Unissued { seat: lane, fault },
    };
    let (sealed, spent) = seal_granted(alloc, key, shape, grant, job);
    match sealed {
        Ok(bytes) => Outcome::Sealed {
            seat: lane,
            bytes,
            spent,
        },
        Err(AllocError) => Outcome::Spoiled { seat: lane, spent },
    }
}

// Works on one job after another, until none is left.
fn work_lane<G: Gate>(
    alloc: Global,
    batch: &Batch,
    lane: u32,
    gate: &G,
    seat: &mut Seat,
    places: &mut LanePlaces,
    claimant: &mut Claimant,
)
    requires ours { seat.old.ledger ≡ batch.now.ledger }
    requires free { AreFree batch.now places.old }
    requires fresh { claimant.old ≡ newcomer batch.now.claims 1 }
    ensures worked { IsLaneWorked batch.now lane seat.old seat.new places.new.done }
    ensures drawn { claimant.new ≡ ended batch.now.claims 1 (jobs_of places.new.done) }
{
    while let Some(job) = batch.draw(claimant) {
        gate.pass(lane, job);
        let outcome = batch.seal_job(alloc, lane, job, seat);
        places.put(Done { job, outcome });
    }
}

// Runs one lane, with its seat and its places, each alone in its slice.
fn one_lane<G: Gate>(
    alloc: Global,
    batch: &Batch,
    lane: u32,
    gate: &G,
    seats: &mut [Seat],
    places: &mut [LanePlaces],
    claimant: &mut Claimant,
)
    requires ready { AreReady batch.now 1 seats.old places.old }
    requires fresh { claimant.old ≡ newcomer batch.now.claims 1 }
    ensures lanes { AreLanes batch.now lane seats.old seats.new places.new }
    ensures drawn { claimant.new ≡ ended batch.now.claims 1 (all_jobs places.new) }
{
    let places = &mut places[0];
    let seat = &mut seats[0];
    work_lane(alloc, batch, lane, gate, seat, places, claimant);
}

/// Runs the lanes below `upto`, each with the seat and the places of its number.
#[cycle(lanes)]
pub(crate) fn work_lanes<R: Threads + Sync, G: Gate + Sync>(
    rt: &R,
    alloc: Global,
    batch: &Batch,
    upto: u32,
    gate: &G,
    seats: &mut [Seat],
    places: &mut [LanePlaces],
    claimant: &mut Claimant,
)
    requires upto { 0 < upto }
    requires ready { AreReady batch.now upto seats.old places.old }
    requires fresh { claimant.old ≡ newcomer batch.now.claims upto }
    ensures lanes { AreLanes batch.now 0 seats.old seats.new places.new }
    ensures drawn { claimant.new ≡ ended batch.now.claims upto (all_jobs places.new) }
{
    if upto == 1 {
        one_lane(alloc, batch, 0, gate, seats, places, claimant);
        return;
    }
    let last = upto - 1;
    let (seats, seat) = seats.split_at_mut(last as usize);
    let (places, place) = places.split_at_mut(last as usize);
    let theirs = work_both(
        rt, alloc, batch, last, gate, seats, places, claimant, seat, place,
    );
    batch.take_in(claimant, theirs);
}

// Runs the lane `last` on its own thread, and those below it from this thread.
#[cycle(lanes)]
fn work_both<R: Threads + Sync, G: Gate + Sync>(
    rt: &R,
    alloc: Global,
    batch: &Batch,
    last: u32,
    gate: &G,
    seats: &mut [Seat],
    places: &mut [LanePlaces],
    claimant: &mut Claimant,
    seat: &mut [Seat],
    place: &mut [LanePlaces],
) -> Claimant
    requires last { 0 < last }
    requires before { AreReady batch.now last seats.old places.old }
    requires at { AreReady batch.now 1 seat.old place.old }
    requires fresh { claimant.old ≡ newcomer batch.now.claims (last + 1) }
    ensures before { AreLanes batch.now 0 seats.old seats.new places.new }
    ensures at { AreLanes batch.now last seat.old seat.new place.new }
    ensures ours { claimant.new ≡ ended batch.now.claims last (all_jobs places.new) }
    ensures theirs { result ≡ ended batch.now.claims 1 (all_jobs place.new) }
{
    let mut theirs = batch.cut_off(claimant, last);
    let mut other = ||
        requires { IsSync G.row × AreReady batch.now 1 seat.now place.now × (theirs ≡ newcomer batch.now.claims 1) }
        ensures { AreLanes batch.entry.now last seat.entry.now seat.exit.now place.exit.now
            × (theirs.exit ≡ ended batch.entry.now.claims 1 (all_jobs place.exit.now)) }
    { one_lane(alloc, batch, last, gate, seat, place, &mut theirs) };
    let mut here = ||
        requires { IsSync R.row × IsSync G.row × (0 < last) × AreReady batch.now last seats.now places.now
            × (claimant.now ≡ newcomer batch.now.claims last) }
        ensures { AreLanes batch.entry.now 0 seats.entry.now seats.exit.now places.exit.now
            × (claimant.exit.now ≡ ended batch.entry.now.claims last (all_jobs places.exit.now)) }
    { work_lanes(rt, alloc, batch, last, gate, seats, places, claimant) };
    join_mut(rt, &mut other, &mut here);
    theirs
}
