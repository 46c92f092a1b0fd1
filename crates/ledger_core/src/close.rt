//! The end of a shared ledger: the seats meet, and each log record goes to its index in the one history.
ghost use Rattle.std.specs.Prelude.{◌≡◌, ◌≤◌, IfOk, length};
ghost use Rattle.ledger_core.specs.Closing.{AreAllSeats, IsWhole};
ghost use Rattle.ledger_core.specs.Placing.{ArePlaced, operations_in, written};

use crate::ledger::Ledger;
use crate::meeting::meet_all;
use crate::seat::Seat;
use crate::table::Record;
use journal_core::{Entry, Event};
use std::alloc::{AllocError, Global};

// Writes each record's entry at its index. The indexes of one ledger's seats are in bounds, but that is provable only
// once all logs are written. So this function checks it.
fn fill(entries: &mut Vec<Entry>, log: &[Record])
    ensures { entries.new.items ≡ written log.now entries.old.items }
{
    for record in log {
        let place = record.place as usize;
        if place < entries.len() {
            entries[place] = record.entry;
        }
    }
}

// Writes the records of all seats at their indexes.
fn fill_all(entries: &mut Vec<Entry>, seats: &[Seat])
    ensures length { length entries.new.items ≡ length entries.old.items }
    ensures placed { ArePlaced seats.now entries.new.items }
{
    for seat in seats {
        fill(entries, seat.fields.own.log.as_slice());
    }
}

/// Writes the history of all seats into `entries`, which has room for exactly that many.
pub fn put_together(ledger: &Ledger, entries: &mut Vec<Entry>, seats: &mut [Seat])
    requires all { AreAllSeats ledger.now seats.old }
    requires room { length entries.old.items ≡ operations_in seats.old }
    ensures { IsWhole ledger.now.terms seats.old entries.new.items }
{
    let word = &ledger.word;
    meet_all(word, seats);
    fill_all(entries, seats);
}

/// Returns a vector of `count` placeholder entries.
pub fn room(alloc: Global, count: usize) -> Result<Vec<Entry>, AllocError>
    ensures { IfOk result (λ entries. length entries.items ≡ count) }
{
    let nothing = Entry {
        seat: 0,
        event: Event::Exhausted,
    };
    Vec::from_elem(alloc, nothing, count)
}

/// Counts the operations of all seats.
pub fn operations_of(seats: &[Seat]) -> usize
    requires { length seats.now ≤ 64 }
    ensures { result ≡ operations_in seats.now }
{
    let mut count = 0;
    for seat in seats {
        count += seat.operations();
    }
    count
}
