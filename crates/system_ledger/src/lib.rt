//! The ledger file at a path: whether a run may open it, opening and closing it, and what it holds.
#![tactic(auto)]

mod begun;
mod foreign;
pub mod holdings;
pub mod ledger;
mod log;
mod marks;
pub mod older;
pub mod turn;
pub mod witness;
pub mod witness_file;
mod witness_text;

pub use crate::holdings::{Holding, read_holdings};
pub use crate::ledger::{LedgerFault, LedgerPath, close_ledger, is_beside, may_open, open_ledger};
pub use crate::older::is_older;
pub use crate::turn::{MAX_TRIES, Turn};
pub use crate::witness::{
    FileMark, Seen, WitnessFault, WitnessRefusal, floor_by, mark_by, may_renew,
};
pub use crate::witness_file::{FileWitness, WitnessPath, folder_and_name};
