//! A seat of a shared ledger: what one caller has seen and done.
//!
//! The seat's own log has its operations in order. Each record has an entry and its index in what the seat has seen:
//! the sum of the counts in the word that the step found. The log has room for the settlement of each open number, so
//! that a settlement allocates no memory.
ghost use Rattle.std.specs.Prelude.{◌≡◌, ℕ, ◌+◌, ◌/◌, ◌%◌, ◌^◌, ◌<◌, ◌≤◌, ◌↔◌, min, false, IsTrue, length, vec_len};
ghost use Rattle.std.specs.Prelude.{vec_capacity, [], ◌∷◌, ◌++◌, ◌||◌};
ghost use Rattle.std.specs.List.{slice_index_or};
ghost use Rattle.std.specs.Option.{IfSome};
ghost use Rattle.journal_core.specs.declared.entry.Event.TheVariants.{Granted, Exhausted, Settled};
ghost use Rattle.journal_core.specs.History.{Begins, IsLawful, calls_of, entry, is_exhausted};
ghost use Rattle.ledger_core.specs.Rule.{IsHeld, issue_reply, issues_of, knower, packed, sealed_of, void_of};
ghost use Rattle.ledger_core.specs.Logs.{AreFields, AreSameSeat, EndsByGranting, HasMark, HasRoom, IsMarked, Steps};
ghost use Rattle.ledger_core.specs.Logs.{event_of, held_after, place_of_word};
ghost use Rattle.ledger_core.specs.Shared.{Holds, IsClosedSeat, Knows, fresh_seat};

use crate::counts::counts_in;
use crate::grant::Spent;
use crate::steps::{issue_step, look_step, settle_step};
use crate::table::{Fields, Own, Record, Token, Word};
use journal_core::{Entry, Event, Tally, Terms};
use std::marker::Model;

/// A seat of a shared ledger.
#[derive(Drop)]
pub struct Seat {
    pub(crate) fields: Fields,
}

impl Model for Seat {
    ghost use Rattle.ledger_core.specs.Logs.{AreFields};
    ghost use Rattle.ledger_core.specs.Shared.{SeatView, seat_view};

    ghost Value = { SeatView };

    ghost view = { λ s. seat_view s.fields.token.table_id s.fields.opening s.fields.number
        s.fields.token.me.0.seen s.fields.token.me.0.mine };

    ghost invariant = { λ s. AreFields s.fields };
}

impl Seat {
    // Makes a seat that has done nothing.
    pub(crate) fn new(opening: Terms, number: u32, own: Own, token: Token) -> Seat
        requires terms { IsLawful opening × (number < opening.seats) }
        requires own { (own.closed ≡ false) × (own.log.items ≡ []) × (length own.held.items ≡ opening.range.size) }
        requires none_held { (k : ℕ) → slice_index_or own.held.items k false ≡ false }
        requires token { token.me ≡ (knower opening number [] [] [], []) }
        ensures { result ≡ fresh_seat token.table_id opening number }
    {
        Seat {
            fields: Fields {
                opening,
                number,
                own,
                token,
            },
        }
    }

    /// Returns the seat's number. `open` numbers seats from 0.
    pub fn number(&self) -> u32
        ensures number { result ≡ self.now.number }
        ensures knows { Knows self.now }
    {
        self.fields.number
    }

    /// Returns whether an issue found no number left, so that the seat issues no more.
    pub fn closed(&self) -> bool
        ensures { IsTrue result ↔ IsClosedSeat self.now }
    {
        self.fields.own.closed
    }

    /// Returns whether this number is open at this seat: it is of the seat's device, was granted to the seat, and isn't
    /// settled.
    pub fn holds(&self, spent: &Spent) -> bool
        ensures { IsTrue result ↔ Holds self.now spent.now }
    {
        spent.device() == self.fields.opening.range.device()
            && is_marked(&self.fields.opening, &self.fields.own, spent.number())
    }

    // How many operations the seat has made.
    pub(crate) fn operations(&self) -> usize
        ensures count { result ≡ length self.now.mine }
        ensures few { result < 2 ^ 20 }
    {
        self.fields.own.log.len()
    }
}

// Whether the number is in the range, and held.
fn is_marked(opening: &Terms, own: &Own, number: u32) -> bool
    requires { length own.now.held.items ≡ opening.now.range.size }
    ensures { IsTrue result ↔ IsMarked opening.now own.now.held.items number }
{
    let lo = opening.range.lo();
    if number < lo {
        return false;
    }
    match own.held.get((number - lo) as usize) {
        Some(held) => *held,
        None => false,
    }
}

// The index of the entry that a step added when it found this word.
fn place(found: u64) -> u32
    requires { found < 2 ^ 60 }
    ensures { result ≡ place_of_word found }
{
    let counts = counts_in(found);
    counts.issues + counts.sealed + counts.void
}

// The number granted by an issue that found this word, or `None`.
fn reply(opening: &Terms, found: u64) -> Option<u32>
    requires numbers { opening.now.range.lo + opening.now.range.size ≤ 2 ^ 32 }
    requires word { found < 2 ^ 60 }
    ensures { event_of result ≡ issue_reply opening.now (issues_of found) }
{
    let issues = counts_in(found).issues;
    if issues < opening.range.size() {
        Some(opening.range.lo() + issues)
    } else {
        None
    }
}

fn event_of(number: Option<u32>) -> Event
    ensures { result ≡ event_of number }
{
    match number {
        Some(number) => Event::Granted(number),
        None => Event::Exhausted,
    }
}

// Records an operation that the seat has made.
fn keep(own: &mut Own, lo: u32, kept: Record)
    requires room { HasRoom (vec_len own.old.log + own.old.owing) (vec_capacity own.old.log) kept.entry.event }
    requires mark { HasMark lo own.old.held.items kept.entry.event }
    ensures log { own.new.log.items ≡ own.old.log.items ++ kept ∷ [] }
    ensures held { own.new.held.items ≡ held_after lo own.old.held.items kept.entry.event }
    ensures closed { own.new.closed ≡ (is_exhausted kept.entry || own.old.closed) }
{
    own.log.push_reserved(kept);
    match kept.entry.event {
        Event::Granted(number) => {
            own.held[(number - lo) as usize] = true;
            own.owing += 1;
        }
        Event::Exhausted => own.closed = true,
        Event::Settled(number, _) => {
            own.held[(number - lo) as usize] = false;
            own.owing -= 1;
        }
    }
}

// Issues a number and updates the seat's fields. Returns the number granted, if any.
pub(crate) fn issue_in(word: &Word, fields: &mut Fields) -> Option<u32>
    requires table { fields.old.token.table_id ≡ word.now.shared.table_id }
    requires word { word.now.shared.table_id.words ≡ 1 }
    requires seat { AreFields fields.old }
    requires clear { fields.old.own.closed ≡ false }
    requires room { vec_len fields.old.own.log + fields.old.own.owing + 2 ≤ vec_capacity fields.old.own.log }
    ensures same { AreSameSeat fields.old fields.new }
    ensures seat { AreFields fields.new }
    ensures step { Steps fields.old.token.me.0 (entry fields.old.number (event_of result)) fields.new.token.me.0 }
    ensures granted { IfSome result (λ number. EndsByGranting number fields.new.own.log.items) }
    ensures held { IfSome result (λ number. IsHeld number fields.new.token.me.0.mine) }
{
    let found = issue_step(word, &mut fields.token);
    let granted = reply(&fields.opening, found);
    let entry = Entry {
        seat: fields.number,
        event: event_of(granted),
    };
    let place = place(found);
    keep(
        &mut fields.own,
        fields.opening.range.lo(),
        Record { entry, place },
    );
    granted
}

// Settles a number that the seat holds, and updates its fields.
pub(crate) fn settle_in(word: &Word, fields: &mut Fields, spent: &Spent)
    requires table { fields.old.token.table_id ≡ word.now.shared.table_id }
    requires word { word.now.shared.table_id.words ≡ 1 }
    requires seat { AreFields fields.old }
    requires held { IsHeld spent.now.number fields.old.token.me.0.mine }
    ensures same { AreSameSeat fields.old fields.new }
    ensures seat { AreFields fields.new }
    ensures step { Steps fields.old.token.me.0 (entry fields.old.number (Settled spent.now.number spent.now.way))
        fields.new.token.me.0 }
{
    let (settled, way) = (spent.number(), spent.way());
    let found = settle_step(word, &mut fields.token, settled, way);
    let entry = Entry {
        seat: fields.number,
        event: Event::Settled(settled, way),
    };
    let place = place(found);
    keep(
        &mut fields.own,
        fields.opening.range.lo(),
        Record { entry, place },
    );
}

// Loads the word and lets the seat see the history so far.
pub(crate) fn look_in(word: &Word, fields: &mut Fields) -> u64
    requires table { fields.old.token.table_id ≡ word.now.shared.table_id }
    requires word { word.now.shared.table_id.words ≡ 1 }
    requires seat { AreFields fields.old }
    ensures same { AreSameSeat fields.old fields.new }
    ensures seat { AreFields fields.new }
    ensures seen { Begins fields.old.token.me.0.seen fields.new.token.me.0.seen }
    ensures mine { fields.new.token.me.0.mine ≡ fields.old.token.me.0.mine }
    ensures told { Begins fields.old.token.me.0.told fields.new.token.me.0.seen }
    ensures found { result ≡ packed fields.new.token.me.0.seen }
{
    look_step(word, &mut fields.token)
}

// The counts in a word. At most as many issues as the range has numbers were granted; the others were refused.
pub(crate) fn tally_of_word(opening: &Terms, found: u64) -> Tally
    requires { found < 2 ^ 60 }
    ensures issues { result.granted + result.refused ≡ issues_of found }
    ensures granted { result.granted ≡ min (issues_of found) opening.now.range.size }
    ensures settled { (result.sealed ≡ sealed_of found) × (result.void ≡ void_of found) }
{
    let counts = counts_in(found);
    let granted = counts.issues.min(opening.range.size());
    Tally {
        granted,
        refused: counts.issues - granted,
        sealed: counts.sealed,
        void: counts.void,
    }
}
