//! What the commands share, and those that open and verify.
//!
//! A command prints one line for each file, and ends with an exit status. It works over a folder of
//! `folder_core`. Key files are read here too.
#![tactic(auto)]

pub mod commands;
mod context;
pub mod facts;
pub mod key_file;
pub(crate) mod label;
pub mod line;
pub mod opening;
pub(crate) mod putting;
pub(crate) mod reading;
pub mod report;
pub mod sealing_outputs;
pub mod unpiping;
pub mod verifying;

pub use crate::commands::{MAX_BYTES, MAX_OPENED_BYTES, OpenOptions, Outs, tell};
pub use crate::facts::{Facts, ShownLabel, hex_digit};
pub use crate::key_file::{KeyFault, read_key};
pub use crate::line::{FileFault, FileOutcome, Line};
pub use crate::opening::open_all;
pub use crate::report::Report;
pub use crate::sealing_outputs::SealingOutputs;
pub use crate::unpiping::{UnpipeOptions, unpipe_all};
pub use crate::verifying::verify_all;
pub use claim_core::MAX_WORKERS;
