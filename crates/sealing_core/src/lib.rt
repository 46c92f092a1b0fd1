//! The engines that seal, from any reader to any writer, and the audit of a journal.
//!
//! `one` seals on one thread, and `run` with workers the same container; `piped` seals a stream of any length. `reading`
//! reads a whole plaintext, and `auditor` has the audit. With workers an input is sealed under its header through two
//! queues: jobs go to the workers, and pieces come back. There `endless` seals a stream, and `rounds` an input of
//! bounded length in rounds of chunks. The caller's thread reads and writes (`feed`). Each worker runs until the input
//! ends, and sleeps while there is nothing to do.
#![tactic(auto)]

pub mod auditor;
mod block;
mod context;
mod early;
mod endless;
mod feed;
mod handing;
mod intake;
mod line;
pub mod one;
mod piece;
pub mod piped;
pub mod reading;
mod round;
mod rounds;
pub mod run;
mod spare;
mod stream;
mod worker;
mod writing;

pub use crate::auditor::run_audit;
pub use crate::endless::pipe;
pub use crate::one::seal_one;
pub use crate::piped::run_pipe;
pub use crate::reading::read_plain;
pub use crate::rounds::pipe_rounds;
pub use crate::run::{run_seal, run_seal_by};
pub use claim_core::MAX_DEPTH;
