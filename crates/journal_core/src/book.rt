//! The ledger of one thread: it issues the numbers of a range to seats, settles them, and stores its journal.
//!
//! It is the reference for every other ledger: any ledger replies what a book replies at that point of its history.
ghost use Rattle.std.specs.Prelude.{◌≡◌, ◌≢◌, ◌<◌, ◌≤◌, ◌↔◌, ◌⊎◌, [], IfOk, IfErr, OnOk, OnErr};
ghost use Rattle.journal_core.specs.Book.{fault_number};
ghost use Rattle.journal_core.specs.History.{IsClosed, IsOpen, tally_of};
ghost use Rattle.journal_core.specs.Journal.{IsJournal, adds, journal_of};

use crate::entry::{Entry, Event, Tally, Way};
use crate::journal::Journal;
use crate::range::Range;
use crate::standing::Standing;
use crate::terms::{MAX_SEATS, Terms};
use std::alloc::Global;
use std::marker::Model;
use thiserror::Error;

/// Why a book refused a call.
#[derive(Clone, Copy, PartialEq, Eq, Debug, Error)]
pub enum BookFault {
    /// The range has no number left. This is recorded as an operation, and closes the seat for issue.
    #[error("no file number")]
    Exhausted,
    /// The seat got `Exhausted` before.
    #[error("no file number")]
    SeatClosed,
    /// The number is not open at this seat.
    #[error("number not open")]
    NotOpen,
    /// Memory could not be allocated.
    #[error("out of memory")]
    OutOfMemory,
    /// No such seat, or a number of seats outside 1 to 64.
    #[error("bad seats")]
    BadSeats,
}

impl BookFault {
    /// The fault's number.
    pub fn number(self) -> u32
        ensures { result ≡ fault_number self }
    {
        match self {
            BookFault::Exhausted => 20,
            BookFault::SeatClosed => 21,
            BookFault::NotOpen => 22,
            BookFault::OutOfMemory => 23,
            BookFault::BadSeats => 25,
        }
    }
}

/// The ledger of one thread. Its value in contracts is its journal.
#[derive(Drop)]
pub struct Book {
    standing: Standing,
    journal: Journal,
}

impl Model for Book {
    ghost use Rattle.journal_core.specs.Journal.{JournalView};
    ghost use Rattle.journal_core.specs.Booked.{IsBook};

    ghost Value = { JournalView };

    ghost view = { λ b. b.journal };

    ghost invariant = { λ b. IsBook b.standing b.journal };
}

impl Book {
    /// Makes an empty book over the range, with 1 to 64 seats, numbered from 0. Returns `BadSeats` if `seats` is 0 or
    /// over 64, else `OutOfMemory` if memory could not be allocated.
    pub fn new(alloc: Global, range: Range, seats: u32) -> Result<Book, BookFault>
        ensures empty { IfOk result (λ book. book ≡ journal_of range seats []) }
        ensures bad_seats { result ≡ Err BookFault.BadSeats ↔ ((seats ≡ 0) ⊎ (MAX_SEATS < seats)) }
        ensures only { IfErr result (λ e. (e ≡ BookFault.OutOfMemory) ⊎ (e ≡ BookFault.BadSeats)) }
    {
        if seats == 0 || seats > MAX_SEATS {
            return Err(BookFault::BadSeats);
        }
        // This call gives the prover the fact that the range is lawful.
        let _ = range.size();
        let Ok(standing) = Standing::new(alloc, Terms { range, seats }) else {
            return Err(BookFault::OutOfMemory);
        };
        let journal = Journal::new(range, seats, Vec::new(alloc));
        Ok(Book { standing, journal })
    }

    /// Issues the next number to a seat. Errors, tested in this order: `BadSeats` (no such seat), `SeatClosed`,
    /// `OutOfMemory`, `Exhausted`. All but `Exhausted` leave the book unchanged.
    pub fn issue(&mut self, seat: u32) -> Result<u32, BookFault>
        ensures granted { IfOk result (λ n. self.new ≡ adds self.old seat (Event.Granted n)) }
        ensures exhausted { result ≡ Err BookFault.Exhausted → self.new ≡ adds self.old seat Event.Exhausted }
        ensures unchanged { IfErr result (λ e. e ≢ BookFault.Exhausted → self.new ≡ self.old) }
        ensures bad_seats { result ≡ Err BookFault.BadSeats ↔ (self.old.terms.seats ≤ seat) }
        ensures seat_closed { result ≡ Err BookFault.SeatClosed
            ↔ ((seat < self.old.terms.seats) × IsClosed seat self.old.history) }
        ensures no_other { result ≢ Err BookFault.NotOpen }
        ensures legal { IsJournal self.new }
    {
        if seat >= self.standing.seats() {
            return Err(BookFault::BadSeats);
        }
        if self.standing.is_closed(seat) {
            return Err(BookFault::SeatClosed);
        }
        let event = self.standing.answer();
        let entry = Entry { seat, event };
        if self.journal.push(entry).is_err() {
            return Err(BookFault::OutOfMemory);
        }
        self.standing.take(entry);
        match event {
            Event::Granted(number) => Ok(number),
            _ => Err(BookFault::Exhausted),
        }
    }

    /// Settles a number that is open at a seat, as sealed or void. Errors, tested in this order: `BadSeats` (no such
    /// seat), `NotOpen`, `OutOfMemory`. Each leaves the book unchanged.
    pub fn settle(&mut self, seat: u32, number: u32, way: Way) -> Result<(), BookFault>
        ensures settled { OnOk result (self.new ≡ adds self.old seat (Event.Settled number way)) }
        ensures unchanged { OnErr result (self.new ≡ self.old) }
        ensures bad_seats { result ≡ Err BookFault.BadSeats ↔ (self.old.terms.seats ≤ seat) }
        ensures not_open { result ≡ Err BookFault.NotOpen
            ↔ ((seat < self.old.terms.seats) × ¬ IsOpen seat number self.old.history) }
        ensures no_other { (result ≢ Err BookFault.Exhausted) × (result ≢ Err BookFault.SeatClosed) }
        ensures legal { IsJournal self.new }
    {
        if seat >= self.standing.seats() {
            return Err(BookFault::BadSeats);
        }
        let entry = Entry {
            seat,
            event: Event::Settled(number, way),
        };
        if !self.standing.can_follow(entry) {
            return Err(BookFault::NotOpen);
        }
        if self.journal.push(entry).is_err() {
            return Err(BookFault::OutOfMemory);
        }
        self.standing.take(entry);
        Ok(())
    }

    /// Counts the journal's entries of each kind.
    pub fn tally(&self) -> Tally
        ensures { result ≡ tally_of self.now.history }
    {
        self.standing.tally()
    }

    /// Returns the journal so far.
    pub fn journal(&self) -> &Journal
        ensures journal { result.now ≡ self.now }
        ensures legal { IsJournal self.now }
    {
        &self.journal
    }
}
