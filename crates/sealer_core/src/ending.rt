//! The end of a run that seals: its seats meet, and its journal is written if one was asked for.
ghost use Rattle.std.specs.Prelude.{List, is_ok, MatchResult, OnOk, OnErr};
ghost use Rattle.journal_core.specs.declared.entry.Entry.{Entry};
ghost use Rattle.io_core.specs.Streams.{Appends, AppendsFront, LacksSome};
ghost use Rattle.journal_core.specs.Text.{journal_text};
ghost use Rattle.ledger_core.specs.Closing.{AreAllSeats, IsWhole};
ghost use Rattle.sealer_core.specs.Sealing.{IsWritten};

use crate::trouble::RunFault;
use command_core::Report;
use ledger_core::{Failed, Journal, Ledger, Seat};
use std::alloc::Global;

// Lets the seats meet, twice round in their order.
fn meet_twice(ledger: Ledger, mut seats: Vec<Seat>)
    requires { AreAllSeats ledger seats.items }
    ensures { (history : List Entry) × IsWhole ledger.terms seats.items history }
{
    ledger.meet_all(seats.as_mut_slice());
}

fn write_text<J: Report>(alloc: Global, journal: &Journal, writer: &mut J) -> Result<(), RunFault>
    ensures ok { OnOk result (Appends (J.taken writer.old) (J.taken writer.new)
        (journal_text journal.now.terms journal.now.history)) }
    ensures err { OnErr result (AppendsFront (J.taken writer.old) (J.taken writer.new)
        (journal_text journal.now.terms journal.now.history)) }
    ensures short { OnErr result (LacksSome (J.taken writer.old) (J.taken writer.new)
        (journal_text journal.now.terms journal.now.history)) }
{
    let Ok(text) = journal.text(alloc) else {
        return Err(RunFault::NoJournal);
    };
    match writer.print(text.as_bytes()) {
        Ok(()) => Ok(()),
        Err(Failed) => Err(RunFault::JournalCut),
    }
}

// Closes the ledger, whose seats then meet, and writes the journal.
fn write_journal<J: Report>(
    alloc: Global,
    ledger: Ledger,
    seats: Vec<Seat>,
    writer: &mut J,
) -> Result<(), RunFault>
    requires { AreAllSeats ledger seats.items }
    ensures { (history : List Entry) × IsWhole ledger.terms seats.items history
        × MatchResult result (λ _. Appends (J.taken writer.old) (J.taken writer.new)
        (journal_text ledger.terms history))
        (λ _. AppendsFront (J.taken writer.old) (J.taken writer.new) (journal_text ledger.terms history)
        × LacksSome (J.taken writer.old) (J.taken writer.new) (journal_text ledger.terms history)) }
{
    match ledger.close(seats) {
        Ok(journal) => write_text(alloc, &journal, writer),
        Err((_, ledger, seats)) => {
            meet_twice(ledger, seats);
            Err(RunFault::NoJournal)
        }
    }
}

/// Ends a ledger: its seats meet, with or without a journal, and the journal is written if one was asked for.
pub(crate) fn end_ledger<J: Report>(
    alloc: Global,
    ledger: Ledger,
    seats: Vec<Seat>,
    journal: &mut Option<J>,
) -> Result<(), RunFault>
    requires { AreAllSeats ledger seats.items }
    ensures { (history : List Entry) × IsWhole ledger.terms seats.items history
        × IsWritten J.taken (journal_text ledger.terms history) (is_ok result) journal.old journal.new }
{
    match journal {
        None => {
            meet_twice(ledger, seats);
            Ok(())
        }
        Some(writer) => write_journal(alloc, ledger, seats, writer),
    }
}
