//! The shared ledger: callers in any threads issue and settle numbers of one range, each at its own seat.
//!
//! An operation is one addition to one atomic word, and a tally is one load. No call waits: there is no lock, and no
//! step is retried. Under any schedule the operations of all seats are one legal history, each once. What each seat has
//! seen is a prefix of it.
ghost use Rattle.std.specs.Prelude.{◌≡◌, ◌<◌, ◌↔◌, ◌⊎◌, ℕ, List, [], Some, IsOk};
ghost use Rattle.std.specs.Prelude.{IfOk, IfErr, slice_get, replicate, false};
ghost use Rattle.journal_core.specs.declared.entry.Entry.{Entry};
ghost use Rattle.journal_core.specs.declared.entry.Event.TheVariants.{Granted, Settled};
ghost use Rattle.journal_core.specs.declared.entry.Way.{Way};
ghost use Rattle.ledger_core.specs.declared.fault.IssueFault.TheVariants.{SeatClosed};
ghost use Rattle.ledger_core.specs.Closing.{AreAllSeats, HaveMet, IsWhole};
ghost use Rattle.journal_core.specs.History.{Begins, IsLawful, tally_of};
ghost use Rattle.journal_core.specs.Journal.{terms_of};
ghost use Rattle.ledger_core.specs.Shared.{Agree, Extends, Holds, IsClosedSeat, IsSameSeat, Knows, SeatView, Sees};
ghost use Rattle.ledger_core.specs.Shared.{Unissued, Unsettled, fresh_seats, spent_as};

use crate::close::{operations_of, put_together, room};
use crate::fault::{IssueFault, OpenLedgerFault, SettleFault};
use crate::grant::{Grant, Spent};
use crate::meeting::{adopt, learn, meet_all, show};
use crate::note::Note;
use crate::seat::{Seat, issue_in, look_in, settle_in, tally_of_word};
use crate::steps::{deal_step, open_word};
use crate::table::{Own, Word};
use journal_core::{Journal, MAX_SEATS, Range, Tally, Terms};
use std::alloc::{AllocError, Global};
use std::marker::Model;

/// A ledger shared by callers.
#[derive(Drop)]
pub struct Ledger {
    pub(crate) opening: Terms,
    pub(crate) word: Word,
    pub(crate) alloc: Global,
}

impl Model for Ledger {
    ghost use Rattle.std.specs.Prelude.{◌≡◌};
    ghost use Rattle.journal_core.specs.History.{IsLawful};
    ghost use Rattle.ledger_core.specs.Shared.{LedgerView};

    ghost Value = { LedgerView };

    ghost view = { λ l. record { ledger = l.word.shared.table_id; terms = l.opening } };

    ghost invariant = { λ l. (l.word.shared.table_id.words ≡ 1) × IsLawful l.opening };
}

impl Ledger {
    /// Opens a ledger over this range with `seats` seats, numbered from 0. Returns `BadSeats` exactly if `seats` is 0
    /// or over 64, and `OutOfMemory` if memory could not be allocated.
    pub fn open(
        alloc: Global,
        range: Range,
        seats: u32,
    ) -> Result<(Ledger, Vec<Seat>), OpenLedgerFault>
        ensures opened { IfOk result (λ r. r.0.terms ≡ terms_of range seats) }
        ensures seats { IfOk result (λ r. r.1.items ≡ fresh_seats r.0.ledger (terms_of range seats) seats) }
        ensures all { IfOk result (λ r. AreAllSeats r.0 r.1.items) }
        ensures bad_seats { result ≡ Err OpenLedgerFault.BadSeats ↔ ((seats ≡ 0) ⊎ (64 < seats)) }
    {
        if seats == 0 || seats > MAX_SEATS {
            return Err(OpenLedgerFault::BadSeats);
        }
        let _lawful = range.size();
        match deal_out(alloc, &Terms { range, seats }) {
            Ok(made) => Ok(made),
            Err(_) => Err(OpenLedgerFault::OutOfMemory),
        }
    }

    /// Grants the next number of the range to the seat, and reserves room for its settlement. Never waits.
    ///
    /// `SeatClosed` and `OutOfMemory` leave everything unchanged. `Exhausted` is an operation, and closes the seat for
    /// issue.
    pub fn issue(&self, seat: &mut Seat) -> Result<Grant, IssueFault>
        requires ours { seat.old.ledger ≡ self.now.ledger }
        ensures granted { IfOk result (λ grant. Extends seat.old (Granted grant.number) seat.new) }
        ensures device { IfOk result (λ grant. grant.device ≡ seat.old.terms.range.device) }
        ensures held { IfOk result (λ grant. (way : Way) → Holds seat.new (spent_as grant way)) }
        ensures refused { IfErr result (λ fault. Unissued fault seat.old seat.new) }
        ensures closed { IsClosedSeat seat.old → result ≡ Err SeatClosed }
        ensures same { IsSameSeat seat.old seat.new }
        ensures knows { Knows seat.new }
    {
        if seat.fields.own.closed {
            return Err(IssueFault::SeatClosed);
        }
        let owing = seat.fields.own.owing as usize;
        if seat.fields.own.log.reserve(owing + 2).is_err() {
            return Err(IssueFault::OutOfMemory);
        }
        let number = issue_in(&self.word, &mut seat.fields);
        match number {
            Some(number) => Ok(Grant::of(
                seat.fields.opening.range.device(),
                number,
                &seat.fields.own,
            )),
            None => Err(IssueFault::Exhausted),
        }
    }

    /// Records how a number that is open at the seat ended. Never waits and allocates no memory, so an open number can
    /// always be settled. On `NotOpen` nothing changes, and `spent` is handed back.
    pub fn settle(&self, seat: &mut Seat, spent: Spent) -> Result<(), (SettleFault, Spent)>
        requires ours { seat.old.ledger ≡ self.now.ledger }
        ensures settled { IfOk result (λ _. Holds seat.old spent
            × Extends seat.old (Settled spent.number spent.way) seat.new) }
        ensures held { Holds seat.old spent → IsOk result }
        ensures refused { IfErr result (λ f. Unsettled f.0 seat.old spent) }
        ensures unchanged { IfErr result (λ f. (f.1 ≡ spent) × (seat.new ≡ seat.old)) }
        ensures same { IsSameSeat seat.old seat.new }
        ensures knows { Knows seat.new }
    {
        if !seat.holds(&spent) {
            return Err((SettleFault::NotOpen, spent));
        }
        settle_in(&self.word, &mut seat.fields, &spent);
        Ok(())
    }

    /// Loads the word and counts the operations of all seats that this seat now knows of: those that it knew before,
    /// and those that the word adds. Never waits.
    pub fn tally(&self, seat: &mut Seat) -> Tally
        requires ours { seat.old.ledger ≡ self.now.ledger }
        ensures sees { Sees seat.old seat.new }
        ensures counts { result ≡ tally_of seat.new.seen }
        ensures knows { Knows seat.new }
    {
        let found = look_in(&self.word, &mut seat.fields);
        tally_of_word(&seat.fields.opening, found)
    }

    /// Makes a note of what the seat has seen so far, for one other seat to hear. Never waits and allocates no memory.
    pub fn note(&self, seat: &mut Seat) -> Note
        requires ours { seat.old.ledger ≡ self.now.ledger }
        ensures ledger { result.ledger ≡ self.now.ledger }
        ensures shows { result.seen ≡ seat.old.seen }
        ensures same { seat.new ≡ seat.old }
        ensures knows { Knows seat.new }
    {
        Note {
            token: show(&self.word, seat),
        }
    }

    /// Lets the seat hear a note. All that the note shows comes before whatever the seat does later, even if the seat
    /// that wrote the note no longer exists. Never waits and allocates no memory.
    pub fn hear(&self, seat: &mut Seat, note: Note)
        requires ours { seat.old.ledger ≡ self.now.ledger }
        requires note { note.ledger ≡ self.now.ledger }
        ensures sees { Sees seat.old seat.new }
        ensures heard { Begins note.seen seat.new.seen }
        ensures knows { Knows seat.new }
    {
        let Note { token } = note;
        learn(&self.word, seat, token);
    }

    /// Lets the first seat see what either has seen, and then the second what the first has seen. Never waits.
    ///
    /// Two seats of one ledger always agree: what one has seen is a prefix of what the other has. This call proves it
    /// to the caller.
    pub fn meet(&self, first: &mut Seat, second: &mut Seat)
        requires first { first.old.ledger ≡ self.now.ledger }
        requires second { second.old.ledger ≡ self.now.ledger }
        ensures first { Sees first.old first.new × Begins second.old.seen first.new.seen }
        ensures second { Sees second.old second.new × Begins first.new.seen second.new.seen }
        ensures one { second.new.seen ≡ first.new.seen }
        ensures agreed { Agree first.old second.old }
        ensures agree { Agree first.new second.new }
        ensures knows { Knows first.new × Knows second.new }
    {
        let others = show(&self.word, second);
        learn(&self.word, first, others);
        let both = show(&self.word, first);
        adopt(&self.word, second, both);
    }

    /// Lets seats meet, in two rounds in their order. Each then sees one history with all that any of them has seen and
    /// done. Never waits and allocates no memory.
    pub fn meet_all(&self, seats: &mut [Seat])
        requires ours { (i : ℕ) (seat : SeatView) → slice_get seats.old i ≡ Some seat → seat.ledger ≡ self.now.ledger }
        ensures { (history : List Entry) × HaveMet seats.old seats.new history }
    {
        if !seats.is_empty() {
            meet_all(&self.word, seats);
        }
    }

    /// Returns the journal of the whole history. The seats must be all those that `open` gave, in the order of their
    /// numbers.
    ///
    /// Every seat's history is a prefix of the journal. The journal's entries of a seat are that seat's own operations,
    /// in order, and it has no others. If memory could not be allocated, the ledger and seats are handed back
    /// unchanged.
    pub fn close(self, mut seats: Vec<Seat>) -> Result<Journal, (AllocError, Ledger, Vec<Seat>)>
        requires all { AreAllSeats self seats.items }
        ensures terms { IfOk result (λ journal. journal.terms ≡ self.terms) }
        ensures whole { IfOk result (λ journal. IsWhole self.terms seats.items journal.history) }
        ensures refused { IfErr result (λ r. (r.1 ≡ self) × (r.2.items ≡ seats.items)) }
    {
        match room(self.alloc, operations_of(seats.as_slice())) {
            Ok(mut entries) => {
                put_together(&self, &mut entries, seats.as_mut_slice());
                Ok(Journal::new(self.opening.range, self.opening.seats, entries))
            }
            Err(error) => Err((error, self, seats)),
        }
    }
}

// Makes the word of a new ledger, and its seats.
fn deal_out(alloc: Global, opening: &Terms) -> Result<(Ledger, Vec<Seat>), AllocError>
    requires { IsLawful opening.now }
    ensures terms { IfOk result (λ r. r.0.terms ≡ opening.now) }
    ensures seats { IfOk result (λ r. r.1.items ≡ fresh_seats r.0.ledger opening.now opening.now.seats) }
{
    let last = opening.seats - 1;
    let mut seats = Vec::with_capacity(alloc, opening.seats as usize)?;
    let (word, mut token) = open_word(alloc, opening)?;
    for number in 0..last {
        let own = new_own(alloc, opening)?;
        let others = deal_step(&word, &mut token);
        seats.push(Seat::new(*opening, number, own, token))?;
        token = others;
    }
    seats.push(Seat::new(*opening, last, new_own(alloc, opening)?, token))?;
    let ledger = Ledger {
        opening: *opening,
        word,
        alloc,
    };
    Ok((ledger, seats))
}

// What a seat keeps before its first operation.
fn new_own(alloc: Global, opening: &Terms) -> Result<Own, AllocError>
    ensures empty { IfOk result (λ own. (own.closed ≡ false) × (own.log.items ≡ [])) }
    ensures held { IfOk result (λ own. own.held.items ≡ replicate opening.now.range.size false) }
{
    let held = Vec::from_elem(alloc, false, opening.range.size() as usize)?;
    Ok(Own {
        closed: false,
        log: Vec::new(alloc),
        held,
        owing: 0,
    })
}
