//! The journal: what a ledger was opened with, and every operation with its reply, in order.
ghost use Rattle.std.specs.Prelude.{◌≡◌, [], ◌∷◌, ◌++◌, IfOk, is_ok, if◌then◌else◌, string_bytes};
ghost use Rattle.journal_core.specs.History.{Legal};
ghost use Rattle.journal_core.specs.Journal.{IsJournal, journal_of, adds};
ghost use Rattle.journal_core.specs.Text.{journal_text, entry_text};

use crate::entry::Entry;
use crate::range::Range;
use crate::terms::Terms;
use std::alloc::{AllocError, Global};
use std::marker::Model;

/// A legal history over a range and a number of seats.
#[derive(Drop)]
pub struct Journal {
    terms: Terms,
    entries: Vec<Entry>,
}

impl Model for Journal {
    ghost use Rattle.journal_core.specs.Journal.{JournalView, IsJournal, journal_over};

    ghost Value = { JournalView };

    ghost view = { λ j. journal_over j.terms j.entries.items };

    ghost invariant = { λ j. IsJournal (journal_over j.terms j.entries.items) };
}

impl Journal {
    /// Makes the journal of these entries. They must be a legal history over the range and 1 to 64 seats.
    pub fn new(range: Range, seats: u32, entries: Vec<Entry>) -> Journal
        requires { IsJournal (journal_of range seats entries.items) }
        ensures { result ≡ journal_of range seats entries.items }
    {
        let terms = Terms { range, seats };
        Journal { terms, entries }
    }

    /// Returns the range over which the ledger was opened.
    pub fn range(&self) -> Range
        ensures { result ≡ self.now.terms.range }
    {
        self.terms.range
    }

    /// Returns the number of seats: 1 to 64.
    pub fn seats(&self) -> u32
        ensures { result ≡ self.now.terms.seats }
    {
        self.terms.seats
    }

    /// Returns the operations, in order. They are a legal history.
    pub fn entries(&self) -> &[Entry]
        ensures history { result.now ≡ self.now.history }
        ensures legal { IsJournal self.now }
    {
        self.entries.as_slice()
    }

    // Appends an entry, which must be the next of a legal history. On an error nothing changes.
    pub(crate) fn push(&mut self, entry: Entry) -> Result<(), AllocError>
        requires { Legal self.old.terms (self.old.history ++ entry ∷ []) }
        ensures { self.new ≡ (if is_ok result then adds self.old entry.seat entry.event else self.old) }
    {
        self.entries.push(entry)?;
        Ok(())
    }

    /// Returns the journal's text: the range line, then one line for each operation. Each ends with a line feed.
    pub fn text(&self, alloc: Global) -> Result<String, AllocError>
        ensures { IfOk result (λ text. string_bytes text ≡ journal_text self.now.terms self.now.history) }
    {
        let terms = self.terms;
        let mut text = format!(in alloc; "{terms}\n")?;
        for entry in &self.entries {
            push_line(&mut text, *entry)?;
        }
        Ok(text)
    }
}

fn push_line(text: &mut String, entry: Entry) -> Result<(), AllocError>
    ensures { IfOk result (λ _. string_bytes text.new ≡ string_bytes text.old ++ entry_text entry ++ 10 ∷ []) }
{
    writeln!(text, "{entry}")?;
    Ok(())
}
