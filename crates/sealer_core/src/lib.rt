//! The sealer as a library: what the commands do, but `ledger` and `show`, over any reader and any writer.
//!
//! `seal_all` and `pipe_all` are here, with the theorems over their runs (`theorem`). The engines are in `sealing_core`
//! and `opening_core`. `command_core` has `open_all`, `verify_all`, `unpipe_all` and the lines of all commands,
//! `folder_core` their folders. `reserve_core` has the keeper of the ledger file, and its witness. `laws` are on the life of a ledger
//! file, and on outputs.
#![tactic(auto)]

mod context;
mod ending;
mod group;
mod lane;
pub mod laws;
pub mod piping;
mod prepare;
pub mod runs;
pub mod sealing;
pub mod theorem;
mod trouble;
mod waiting;

pub use crate::piping::{PipeOptions, pipe_all};
pub use crate::sealing::{SealOptions, seal_all};
pub use crate::theorem::{a_call_is_a_run, no_nonce_is_used_twice, what_was_opened_was_sealed};
pub use command_core::{
    Facts, FileFault, FileOutcome, KeyFault, Line, MAX_BYTES, MAX_OPENED_BYTES, OpenOptions, Outs,
    Report, SealingOutputs, UnpipeOptions, open_all, read_key, unpipe_all, verify_all,
};
pub use crew_core::{MAX_DEPTH, MAX_LANES, MAX_WINDOW, MAX_WORKERS};
pub use folder_core::{
    Folder, FolderFault, OneOutput, OpeningFolder, Outputs, Place, Stream, ToStream, Whole,
};
pub use opening_core::{
    Plaintext, open_one, run_open, run_open_by, run_plain, run_plain_by, run_verify, run_verify_by,
    verify_one,
};
pub use output_core::Output;
pub use reserve_core::{LedgerFile, Unrecorded, Unwitnessed, Witness};
pub use sealing_core::{run_audit, run_pipe, run_seal, run_seal_by, seal_one};
