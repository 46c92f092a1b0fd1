//! A shared ledger with all its seats, to seal batches.
ghost use Rattle.std.specs.Prelude.{◌≡◌, ◌<◌, ◌≤◌, length, All, IfOk, IfErr};
ghost use Rattle.ledger_core.specs.Closing.{AreAllSeats};
ghost use Rattle.ledger_core.specs.Journal.{terms_of};

use container_core::{Key, MAX_PLAIN, Shape};
use crew_core::{Gate, MAX_JOBS, MAX_LANES, Outcome, seal_batch};
use ledger_core::{Journal, Ledger, OpenLedgerFault, Range, Seat, Spent, Tally};
use std::alloc::{AllocError, Global};
use std::marker::Model;
use std::thread::Threads;

/// A ledger and all its seats.
#[derive(Drop)]
pub struct Run {
    ledger: Ledger,
    seats: Vec<Seat>,
}

impl Model for Run {
    ghost use Rattle.ledger_core.specs.Closing.{AreAllSeats};
    ghost use Rattle.ledger_core.specs.Shared.{LedgerView};

    ghost Value = { LedgerView };

    ghost view = { λ r. r.ledger };

    ghost invariant = { λ r. AreAllSeats r.ledger r.seats.items };
}

impl Run {
    pub fn open(alloc: Global, range: Range, seats: u32) -> Result<Run, OpenLedgerFault>
        ensures { IfOk result (λ run. run.terms ≡ terms_of range seats) }
    {
        match Ledger::open(alloc, range, seats) {
            Ok((ledger, seats)) => Ok(Run { ledger, seats }),
            Err(fault) => Err(fault),
        }
    }

    pub fn seal<R: Threads + Sync, G: Gate + Sync>(
        &mut self,
        rt: &R,
        alloc: Global,
        key: &Key,
        shape: &Shape,
        jobs: &[Vec<u8>],
        lanes: u32,
        gate: &G,
    ) -> Result<Vec<Outcome>, AllocError>
        requires lanes { (0 < lanes) × (lanes ≤ MAX_LANES) × (lanes ≤ self.old.terms.seats) }
        requires few { length jobs.now ≤ MAX_JOBS }
        requires short { All (λ job. length job.items ≤ MAX_PLAIN) jobs.now }
        ensures same { self.new ≡ self.old }
        ensures count { IfOk result (λ outcomes. length outcomes.items ≡ length jobs.now) }
    {
        let ledger = &self.ledger;
        let seats = self.seats.as_mut_slice();
        seal_in(rt, alloc, key, shape, ledger, seats, jobs, lanes, gate)
    }

    /// Whether this could be settled at the seat with this number.
    pub fn settled(&mut self, seat: usize, spent: Spent) -> bool
        ensures { self.new ≡ self.old }
    {
        if seat >= self.seats.len() {
            return false;
        }
        let seat = &mut self.seats[seat];
        self.ledger.settle(seat, spent).is_ok()
    }

    pub fn tally(&mut self, seat: usize) -> Tally
        requires { seat < self.old.terms.seats }
        ensures { self.new ≡ self.old }
    {
        let seat = &mut self.seats[seat];
        self.ledger.tally(seat)
    }

    pub fn close(self) -> Result<Journal, Run>
        ensures refused { IfErr result (λ run. run ≡ self) }
    {
        let Run { ledger, seats } = self;
        match ledger.close(seats) {
            Ok(journal) => Ok(journal),
            Err((_, ledger, seats)) => Err(Run { ledger, seats }),
        }
    }
}

// Seals a batch with all seats of a ledger.
fn seal_in<R: Threads + Sync, G: Gate + Sync>(
    rt: &R,
    alloc: Global,
    key: &Key,
    shape: &Shape,
    ledger: &Ledger,
    seats: &mut [Seat],
    jobs: &[Vec<u8>],
    lanes: u32,
    gate: &G,
) -> Result<Vec<Outcome>, AllocError>
    requires all { AreAllSeats ledger.now seats.old }
    requires lanes { (0 < lanes) × (lanes ≤ MAX_LANES) × (lanes ≤ ledger.now.terms.seats) }
    requires few { length jobs.now ≤ MAX_JOBS }
    requires short { All (λ job. length job.items ≤ MAX_PLAIN) jobs.now }
    ensures all { AreAllSeats ledger.now seats.new }
    ensures count { IfOk result (λ outcomes. length outcomes.items ≡ length jobs.now) }
{
    seal_batch(rt, alloc, key, shape, ledger, seats, jobs, lanes, gate)
}
