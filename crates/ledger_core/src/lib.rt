//! The ledger of file numbers for many threads: one atomic word, a seat for each caller, one legal history.
//!
//! `journal_core` defines histories, journals and their audit. This crate re-exports its names, so a caller that issues
//! numbers needs only this crate.
#![tactic(auto)]

mod close;
mod counts;
pub mod fault;
pub mod grant;
pub mod laws;
pub mod ledger;
mod meeting;
pub mod note;
mod once;
pub mod seat;
mod steps;
mod table;

pub use crate::fault::{IssueFault, OpenLedgerFault, SettleFault};
pub use crate::grant::{Grant, Spent};
pub use crate::ledger::Ledger;
pub use crate::note::Note;
pub use crate::seat::Seat;
pub use journal_core::{
    AuditFault, BadRange, Book, BookFault, Device, Entry, Event, Failed, FromRead, Journal,
    MAX_SEATS, Range, ReadFault, Sink, Source, Tally, ToWrite, Verdict, Way, audit, fill, prefix,
    read_to_limit, write_all,
};
