//! A shared ledger with all its seats. Calls name the seats by number.
ghost use Rattle.std.specs.Prelude.{◌≡◌, ◌<◌, length, IfOk, IfErr};
ghost use Rattle.ledger_core.specs.Closing.{AreAllSeats};
ghost use Rattle.ledger_core.specs.Journal.{terms_of};
ghost use Rattle.ledger_core.specs.Shared.{IsSameSeat};

use crate::order::in_order;
use ledger_core::{
    Grant, IssueFault, Journal, Ledger, OpenLedgerFault, Range, Seat, SettleFault, Spent, Tally,
};
use std::alloc::Global;
use std::marker::Model;
use std::thread::{Threads, for_each_mut};

/// A ledger and all its seats.
#[derive(Drop)]
pub struct Run {
    ledger: Ledger,
    seats: Vec<Seat>,
}

impl Model for Run {
    ghost use Rattle.ledger_core.specs.Closing.{AreAllSeats};
    ghost use Rattle.ledger_core.specs.Shared.{LedgerView};

    ghost Value = { LedgerView };

    ghost view = { λ r. r.ledger };

    ghost invariant = { λ r. AreAllSeats r.ledger r.seats.items };
}

impl Run {
    pub fn open(alloc: Global, range: Range, seats: u32) -> Result<Run, OpenLedgerFault>
        ensures { IfOk result (λ run. run.terms ≡ terms_of range seats) }
    {
        match Ledger::open(alloc, range, seats) {
            Ok((ledger, seats)) => Ok(Run { ledger, seats }),
            Err(fault) => Err(fault),
        }
    }

    pub fn issue(&mut self, seat: usize) -> Result<Grant, IssueFault>
        requires { seat < self.old.terms.seats }
        ensures { self.new ≡ self.old }
    {
        let seat = &mut self.seats[seat];
        self.ledger.issue(seat)
    }

    pub fn settle(&mut self, seat: usize, spent: Spent) -> Result<(), (SettleFault, Spent)>
        requires { seat < self.old.terms.seats }
        ensures { self.new ≡ self.old }
    {
        let seat = &mut self.seats[seat];
        self.ledger.settle(seat, spent)
    }

    pub fn tally(&mut self, seat: usize) -> Tally
        requires { seat < self.old.terms.seats }
        ensures { self.new ≡ self.old }
    {
        let seat = &mut self.seats[seat];
        self.ledger.tally(seat)
    }

    pub fn meet(&mut self, first: usize, second: usize)
        requires order { first < second }
        requires inside { second < self.old.terms.seats }
        ensures { self.new ≡ self.old }
    {
        meet_two(&self.ledger, self.seats.as_mut_slice(), first, second);
    }

    /// The first seat passes a note to the second, as in `order::in_order`.
    pub fn in_order(
        &mut self,
        first: usize,
        second: usize,
    ) -> Result<(Grant, Tally, Grant), IssueFault>
        requires order { first < second }
        requires inside { second < self.old.terms.seats }
        ensures { self.new ≡ self.old }
    {
        tell(&self.ledger, self.seats.as_mut_slice(), first, second)
    }

    /// All seats meet.
    pub fn meet_all(&mut self)
        ensures { self.new ≡ self.old }
    {
        meet_everyone(&self.ledger, self.seats.as_mut_slice());
    }

    /// Returns the seat with this number.
    pub fn seat(&self, seat: usize) -> &Seat
        requires { seat < self.now.terms.seats }
        ensures { result.now.number ≡ seat }
    {
        &self.seats[seat]
    }

    /// With `threads` threads, the seats issue numbers until the range ends, and settle each: even ones as used, odd
    /// ones as wasted.
    pub fn spend<R: Threads + Sync>(&mut self, rt: &R, threads: u32)
        ensures { self.new ≡ self.old }
    {
        let ledger = &self.ledger;
        let work = |_seat: usize, seat: &mut Seat|
            requires { seat.now.ledger ≡ ledger.now.ledger }
            ensures { IsSameSeat seat.entry.now seat.exit.now }
        { spend(ledger, seat) };
        let threads = (threads as usize).max(1);
        for_each_mut(rt, self.seats.as_mut_slice(), threads, &work);
    }

    pub fn close(self) -> Result<Journal, Run>
        ensures refused { IfErr result (λ run. run ≡ self) }
    {
        let Run { ledger, seats } = self;
        match ledger.close(seats) {
            Ok(journal) => Ok(journal),
            Err((_, ledger, seats)) => Err(Run { ledger, seats }),
        }
    }
}

// Two of a ledger's seats meet.
fn meet_two(ledger: &Ledger, seats: &mut [Seat], first: usize, second: usize)
    requires all { AreAllSeats ledger.now seats.old }
    requires order { first < second }
    requires inside { second < length seats.old }
    ensures { AreAllSeats ledger.now seats.new }
{
    let (front, back) = seats.split_at_mut(second);
    ledger.meet(&mut front[first], &mut back[0]);
}

// One of a ledger's seats passes a note to another.
fn tell(
    ledger: &Ledger,
    seats: &mut [Seat],
    first: usize,
    second: usize,
) -> Result<(Grant, Tally, Grant), IssueFault>
    requires all { AreAllSeats ledger.now seats.old }
    requires order { first < second }
    requires inside { second < length seats.old }
    ensures { AreAllSeats ledger.now seats.new }
{
    let (front, back) = seats.split_at_mut(second);
    in_order(ledger, &mut front[first], &mut back[0])
}

// All of a ledger's seats meet.
fn meet_everyone(ledger: &Ledger, seats: &mut [Seat])
    requires { AreAllSeats ledger.now seats.old }
    ensures { AreAllSeats ledger.now seats.new }
{
    ledger.meet_all(seats);
}

// Issues numbers until none is left, and settles each.
fn spend(ledger: &Ledger, seat: &mut Seat)
    requires { seat.old.ledger ≡ ledger.now.ledger }
    ensures { IsSameSeat seat.old seat.new }
{
    for _ in 0..=Range::MAX_SIZE {
        let Ok(grant) = ledger.issue(seat) else {
            return;
        };
        let spent = if grant.number() % 2 == 0 {
            grant.used()
        } else {
            grant.waste()
        };
        let _ = ledger.settle(seat, spent);
    }
}
