//! A batch: many plaintexts sealed under one key, each under its own number, with several lanes that have a seat each.
ghost use Rattle.std.specs.Prelude.{◌≡◌, ℕ, ◌<◌, ◌≤◌, length, map, slice_get, Some, All, IfOk, OnErr};
ghost use Rattle.crew_core.specs.Batch.{AreOutcomes, AreAmong, AreIssued, GoOn};
ghost use Rattle.ledger_core.specs.Shared.{SeatView};

use crate::MAX_JOBS;
use crate::lanes::{Batch, work_lanes};
use crate::outcome::Outcome;
use crate::places::{all_places, put_in_order};
use claim_core::{Gate, MAX_LANES};
use container_core::{Key, MAX_PLAIN, Shape};
use ledger_core::{Ledger, Seat};
use std::alloc::{AllocError, Global};
use std::thread::Threads;

/// Seals at most 65,535 jobs, each of at most 2^40 bytes, in one shape, with 1 to 16 lanes. Lane i uses the seat at
/// place i. The lanes draw the jobs in the order of their numbers, until none is left; a lane draws the next when it is
/// done with one. For each job it passes the gate with the job's number, issues a number, and seals the job on its own
/// thread. So a lane that is held up delays only one job. The caller's thread is lane 0, and a lane that can't be
/// started is left out. There are no more lanes than jobs.
///
/// Returns one outcome for each job, in the order of the jobs. Settles nothing; the caller does. Where memory for what
/// the lanes share, or for the places of all outcomes, is refused, nothing was issued. Each lane has places for all
/// jobs.
pub fn seal_batch<R: Threads + Sync, G: Gate + Sync>(
    rt: &R,
    alloc: Global,
    key: &Key,
    shape: &Shape,
    ledger: &Ledger,
    seats: &mut [Seat],
    jobs: &[Vec<u8>],
    lanes: u32,
    gate: &G,
) -> Result<Vec<Outcome>, AllocError>
    requires lanes { (0 < lanes) × (lanes ≤ MAX_LANES) }
    requires seats { lanes ≤ length seats.old }
    requires ours { (i : ℕ) (seat : SeatView) → slice_get seats.old i ≡ Some seat → seat.ledger ≡ ledger.now.ledger }
    requires few { length jobs.now ≤ MAX_JOBS }
    requires short { All (λ job. length job.items ≤ MAX_PLAIN) jobs.now }
    ensures outcomes { IfOk result (λ out. AreOutcomes key.now shape.now (map (λ job. job.items) jobs.now) out.items) }
    ensures issued { IfOk result (λ out. AreIssued seats.old seats.new out.items) }
    ensures at_seats { IfOk result (λ out. AreAmong lanes seats.new out.items) }
    ensures seen { GoOn seats.old seats.new }
    ensures past_lanes { (i : ℕ) → lanes ≤ i → slice_get seats.new i ≡ slice_get seats.old i }
    ensures refused { OnErr result (seats.new ≡ seats.old) }
{
    let count = jobs.len() as u32;
    // More lanes than jobs would have nothing to do.
    let lanes = lanes.min(count).max(1);
    let mut outcomes = Vec::with_capacity(alloc, jobs.len())?;
    let mut all = all_places(alloc, jobs.len(), lanes)?;
    let (batch, mut claimant) = Batch::open(alloc, key, shape, ledger, jobs, lanes)?;
    let places = all.as_mut_slice();
    let (used, _) = seats.split_at_mut(lanes as usize);
    work_lanes(rt, alloc, &batch, lanes, gate, used, places, &mut claimant);
    batch.close(claimant);
    put_in_order(&mut outcomes, places, count);
    Ok(outcomes)
}
