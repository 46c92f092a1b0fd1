//! The two tables of a ledger file: their statements, their rows, and what they mean as lists of ranges.
//!
//! `taken` has a row for each range of file numbers ever reserved. `mark` has, for each key ID and device, the number
//! at which the next range begins. The statements here open such a database, read a mark and a list, and append a
//! range. The reads and the append each use one transaction, and the contracts are about the lists. `reserve_core`
//! decides who may reserve what.
#![tactic(auto)]

mod fault;
mod opening;
mod pass;
mod reads;
mod rows;
mod schema;
mod tables;
mod writes;

pub use crate::fault::ReserveFault;
pub use crate::opening::open_tables;
pub use crate::reads::{mark_of, ranges_of};
pub use crate::writes::append_range;

/// How many file numbers one key and device have: 0 to 2^32 - 1, so a number has 32 bits.
pub const NUMBERS: u64 = 1 << 32;
