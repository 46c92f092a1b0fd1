//! Which file numbers of a key and device were ever reserved: ranges in two tables of an SQLite database, the ledger
//! file.
//!
//! For each key ID and device the ranges are adjacent from 0, so no number is in two of them. Once `Keeper::reserve`
//! returns a range, it is reserved for good, even across crashes. This holds if nobody else writes the database, and
//! its disk returns what was written and keeps what was synced. One transaction moves the mark and records the range.
//! `ranges_core` has the tables and statements.
#![tactic(auto)]

pub mod file;
pub mod keeper;
pub mod laws;
pub mod witness;

pub use crate::file::{Fold, LedgerFile};
pub use crate::keeper::Keeper;
pub use crate::witness::{Unrecorded, Unwitnessed, Witness};
pub use ranges_core::{NUMBERS, ReserveFault};
