//! Meetings: a seat shows in a note what it has seen, and another learns it.
//!
//! A note goes round the seats twice in the order of their numbers. After the first round it shows all that any seat
//! had done. In the second round each seat has seen it, so it has only each seat's own operations.
ghost use Rattle.std.specs.Prelude.{◌≡◌, ℕ, List, ◌<◌, [], length, slice_get, Some};
ghost use Rattle.journal_core.specs.History.{Begins};
ghost use Rattle.ledger_core.specs.Closing.{HaveMet};
ghost use Rattle.ledger_core.specs.Logs.{AreFields, AreSameSeat};
ghost use Rattle.ledger_core.specs.Meeting.{ArePassed, IsPassed};
ghost use Rattle.ledger_core.specs.Shared.{Knows, SeatView, Sees};

use crate::seat::{Seat, look_in};
use crate::steps::{adopt_step, hear_step, write_step};
use crate::table::{Fields, Token, Word};
use journal_core::Entry;

// Makes a note of what the seat has seen.
pub fn show(word: &Word, seat: &mut Seat) -> Token
    requires table { (seat.old.ledger ≡ word.now.shared.table_id) × (word.now.shared.table_id.words ≡ 1) }
    ensures same { seat.new ≡ seat.old }
    ensures known { Knows seat.old }
    ensures note { (result.table_id ≡ word.now.shared.table_id) × (result.me.1 ≡ []) }
    ensures shown { result.me.0.seen ≡ seat.old.seen }
{
    write_step(word, &mut seat.fields.token)
}

// The seat sees what a note shows, and the history so far.
pub fn learn(word: &Word, seat: &mut Seat, note: Token)
    requires table { (seat.old.ledger ≡ word.now.shared.table_id) × (word.now.shared.table_id.words ≡ 1) }
    requires note { (note.table_id ≡ word.now.shared.table_id) × (note.me.1 ≡ []) }
    ensures sees { Sees seat.old seat.new }
    ensures told { Begins note.me.0.seen seat.new.seen }
    ensures known { Knows seat.old }
    ensures knows { Knows seat.new }
{
    hear_step(word, &mut seat.fields.token, note);
    look_in(word, &mut seat.fields);
}

// Makes what the seat heard, which extends what it has seen, what it has seen.
fn adopt_in(word: &Word, fields: &mut Fields)
    requires table { fields.old.token.table_id ≡ word.now.shared.table_id }
    requires word { word.now.shared.table_id.words ≡ 1 }
    requires seat { AreFields fields.old }
    requires further { Begins fields.old.token.me.0.seen fields.old.token.me.0.told }
    ensures same { AreSameSeat fields.old fields.new }
    ensures seat { AreFields fields.new }
    ensures seen { fields.new.token.me.0.seen ≡ fields.old.token.me.0.told }
    ensures mine { fields.new.token.me.0.mine ≡ fields.old.token.me.0.mine }
{
    adopt_step(word, &mut fields.token);
}

// The seat sees what a note shows, which extends what it has seen.
pub fn adopt(word: &Word, seat: &mut Seat, note: Token)
    requires table { (seat.old.ledger ≡ word.now.shared.table_id) × (word.now.shared.table_id.words ≡ 1) }
    requires note { (note.table_id ≡ word.now.shared.table_id) × (note.me.1 ≡ []) }
    requires further { Begins seat.old.seen note.me.0.seen }
    ensures sees { Sees seat.old seat.new }
    ensures shown { seat.new.seen ≡ note.me.0.seen }
    ensures known { Knows seat.old }
    ensures knows { Knows seat.new }
{
    hear_step(word, &mut seat.fields.token, note);
    adopt_in(word, &mut seat.fields);
}

// The seat sees what the note shows, and makes a note of what it has then seen.
fn pass(word: &Word, seat: &mut Seat, note: Token) -> Token
    requires word { word.now.shared.table_id.words ≡ 1 }
    requires ours { seat.old.ledger ≡ word.now.shared.table_id }
    requires note { (note.table_id ≡ word.now.shared.table_id) × (note.me.1 ≡ []) }
    ensures note { (result.table_id ≡ word.now.shared.table_id) × (result.me.1 ≡ []) }
    ensures on { IsPassed note.me.0.seen result.me.0.seen seat.old seat.new }
{
    learn(word, seat, note);
    show(word, seat)
}

// Passes the note from seat to seat.
fn round(word: &Word, seats: &mut [Seat], mut note: Token) -> Token
    requires word { word.now.shared.table_id.words ≡ 1 }
    requires ours { (i : ℕ) (v : SeatView) → slice_get seats.old i ≡ Some v → v.ledger ≡ word.now.shared.table_id }
    requires note { (note.table_id ≡ word.now.shared.table_id) × (note.me.1 ≡ []) }
    ensures note { (result.table_id ≡ word.now.shared.table_id) × (result.me.1 ≡ []) }
    ensures on { ArePassed note.me.0.seen result.me.0.seen seats.old seats.new }
{
    for seat in seats.iter_mut() {
        note = pass(word, seat, note);
    }
    note
}

/// Lets the seats meet in their order, in two rounds.
pub fn meet_all(word: &Word, seats: &mut [Seat])
    requires word { word.now.shared.table_id.words ≡ 1 }
    requires ours { (i : ℕ) (v : SeatView) → slice_get seats.old i ≡ Some v → v.ledger ≡ word.now.shared.table_id }
    requires some { 0 < length seats.old }
    ensures { (history : List Entry) × HaveMet seats.old seats.new history }
{
    let first = &mut seats[0];
    let note = show(word, first);
    let note = round(word, seats, note);
    round(word, seats, note);
}
