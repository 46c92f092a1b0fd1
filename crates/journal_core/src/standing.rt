//! What a running ledger keeps of its history: the counts, which seats are closed, and what became of each number.
//!
//! It allocates memory for the numbers of the range, once. Each call then takes a constant number of steps, however
//! long the history.
ghost use Rattle.std.specs.Prelude.{◌≡◌, ◌<◌, ◌↔◌, false, length, IfOk, IsTrue};
ghost use Rattle.journal_core.specs.History.{IsLawful};
ghost use Rattle.journal_core.specs.Standing.{CanFollow, IsSmall, after, answer_of, fresh};
ghost use Rattle.journal_core.specs.Standing.{is_closed, issued, number_at};

use crate::entry::{Entry, Event, Tally, Way};
use crate::terms::{MAX_SEATS, Terms};
use std::alloc::{AllocError, Global};
use std::marker::Model;

// A number that was issued: its seat, and whether it is settled.
#[derive(Clone, Copy)]
struct Issued {
    seat: u32,
    settled: bool,
}

#[derive(Drop)]
pub(crate) struct Standing {
    terms: Terms,
    tally: Tally,
    closed: [bool; MAX_SEATS as usize],
    numbers: Vec<Issued>,
}

impl Model for Standing {
    ghost use Rattle.std.specs.Prelude.{◌≤◌, vec_len, vec_capacity};
    ghost use Rattle.journal_core.specs.History.{IsLawful};
    ghost use Rattle.journal_core.specs.Standing.{StandingView, standing_of};

    ghost Value = { StandingView };

    ghost view = { λ s. standing_of s.terms s.tally s.closed s.numbers.items };

    ghost invariant = { λ s. IsLawful s.terms × (vec_len s.numbers ≤ s.terms.range.size)
        × (s.terms.range.size ≤ vec_capacity s.numbers) };
}

impl Standing {
    // The state before the first call. Allocates room for all numbers of the range.
    pub(crate) fn new(alloc: Global, terms: Terms) -> Result<Standing, AllocError>
        requires { IsLawful terms }
        ensures { IfOk result (λ s. s ≡ fresh terms) }
    {
        let numbers = Vec::with_capacity(alloc, terms.range.size() as usize)?;
        Ok(Standing {
            terms,
            tally: Tally::default(),
            closed: [false; MAX_SEATS as usize],
            numbers,
        })
    }

    pub(crate) fn seats(&self) -> u32
        ensures { result ≡ self.now.terms.seats }
    {
        self.terms.seats
    }

    pub(crate) fn tally(&self) -> Tally
        ensures { result ≡ self.now.tally }
    {
        self.tally
    }

    pub(crate) fn is_closed(&self, seat: u32) -> bool
        requires { seat < self.now.terms.seats }
        ensures { result ≡ is_closed self.now seat }
    {
        self.closed[seat as usize]
    }

    // The reply to the next issue.
    pub(crate) fn answer(&self) -> Event
        ensures { result ≡ answer_of self.now }
    {
        let issued = self.numbers.len() as u32;
        if issued < self.terms.range.size() {
            Event::Granted(self.terms.range.lo() + issued)
        } else {
            Event::Exhausted
        }
    }

    // Whether this entry may come next.
    pub(crate) fn can_follow(&self, entry: Entry) -> bool
        ensures { IsTrue result ↔ CanFollow self.now entry }
    {
        if entry.seat >= self.terms.seats {
            return false;
        }
        let closed = self.closed[entry.seat as usize];
        let (lo, size) = (self.terms.range.lo(), self.terms.range.size());
        let issued = self.numbers.len() as u32;
        match entry.event {
            Event::Granted(number) => issued < size && number == lo + issued && !closed,
            Event::Exhausted => issued == size && !closed,
            Event::Settled(number, _) => number >= lo && self.is_open(entry.seat, number - lo),
        }
    }

    // Whether the k-th number, counted from 0, was issued to this seat and is not settled.
    fn is_open(&self, seat: u32, k: u32) -> bool
        ensures { IsTrue result ↔ ((k < length self.now.numbers) × (number_at self.now k ≡ issued seat false)) }
    {
        match self.numbers.get(k as usize) {
            Some(number) => number.seat == seat && !number.settled,
            None => false,
        }
    }

    // Records the next entry. No count of a legal history overflows.
    pub(crate) fn take(&mut self, entry: Entry)
        requires { CanFollow self.old entry }
        ensures { IsSmall self.old.tally → self.new ≡ after self.old entry.seat entry.event }
    {
        match entry.event {
            Event::Granted(_) => {
                self.tally.granted = self.tally.granted.saturating_add(1);
                let number = Issued {
                    seat: entry.seat,
                    settled: false,
                };
                self.numbers.push(number).unwrap();
            }
            Event::Exhausted => {
                self.tally.refused = self.tally.refused.saturating_add(1);
                self.closed[entry.seat as usize] = true;
            }
            Event::Settled(number, way) => {
                match way {
                    Way::Sealed => {
                        self.tally.sealed = self.tally.sealed.saturating_add(1);
                    }
                    Way::Void => {
                        self.tally.void = self.tally.void.saturating_add(1);
                    }
                }
                let k = number - self.terms.range.lo();
                self.numbers[k as usize].settled = true;
            }
        }
    }
}
