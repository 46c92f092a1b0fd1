//! The ledger of file numbers, as a list: which device sealed under which number, and how each number ended.
//!
//! A number makes the prefix of every nonce of one container, so no number may be issued twice. This crate defines
//! device, range, prefix, entry and legal history. It has the ledger of one thread, the journal and its audit. It uses
//! the readers and writers of `io_core`, and re-exports their names. `ledger_core` builds the ledger of many threads on
//! it.
#![tactic(auto)]

pub mod auditing;
pub mod book;
pub mod device;
pub mod entry;
pub mod journal;
pub mod laws;
mod line;
mod progress;
pub mod range;
mod standing;
mod state;
pub mod terms;
pub mod verdict;

pub use crate::auditing::{AuditFault, audit};
pub use crate::book::{Book, BookFault};
pub use crate::device::{Device, prefix};
pub use crate::entry::{Entry, Event, Tally, Way};
pub use crate::journal::Journal;
pub use crate::range::{BadRange, Range};
pub use crate::terms::{MAX_SEATS, Terms};
pub use crate::verdict::Verdict;
pub use io_core::{
    Failed, FromRead, ReadFault, Sink, Source, ToWrite, fill, read_to_limit, write_all,
};
