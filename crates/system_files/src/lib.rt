//! The file system as `sealer` uses it: its files as a `Folder`, the journal's file, a spool, and why a file can't be
//! used.
//!
//! `look`, `seen`, `shown` and `sealed` are of headers at paths, read without a key: what they say, and how that fits a
//! ledger and a journal. Nothing that a header says there was authenticated, and the body is never read.
#![tactic(auto)]

pub(crate) mod blocks;
pub mod cause;
pub mod files;
pub(crate) mod folders;
pub mod hands;
pub mod input;
pub mod journals;
pub mod kept;
pub mod lines;
pub mod look;
pub mod names;
pub mod outputs;
pub mod own;
pub mod progress;
pub mod sealed;
pub mod seen;
pub mod shown;
pub mod spool;

pub use crate::cause::{About, Cause, Step, cause_of, is_for_others};
pub use crate::files::{
    FileOptions, STREAM, SystemFiles, SystemReader, open_unbuffered, stand_ins,
};
pub use crate::input::{FileInput, OneOf, can_reopen_input};
pub use crate::journals::{JournalFault, JournalPlace, new_journal};
pub use crate::kept::{Destination, Makes, Split, output_key, print_kept, split_names};
pub use crate::lines::{Lines, Style};
pub use crate::look::header_at;
pub use crate::names::{Names, Target, target_of};
pub use crate::own::{OwnPaths, StandardInput};
pub use crate::progress::{ProgressLine, Told};
pub use crate::sealed::{Keeping, SealedNumbers};
pub use crate::seen::{SeenHeader, plain_in, read_seen};
pub use crate::shown::{KeyAlone, Shown};
pub use crate::spool::{FileSpool, is_folder, spool_folder};
pub use folder_core::{PlaceFault, are_apart, are_placed_apart, last_name};
