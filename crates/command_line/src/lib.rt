//! The command line of `sealer`: its commands and options, with their ranges, and the requests they make.
//!
//! Numbers that the parser accepts are in the ranges that `sealer_core` requires. So the program meets its
//! preconditions.
#![tactic(auto)]

pub mod arguments;
pub mod fault;
pub mod given;
pub mod laws;
pub mod lists;
pub mod names;
pub mod opening;
mod options;
pub mod printing;
mod rows;
pub mod sealing;
pub mod version;
pub mod words;

pub use crate::arguments::command;
pub use crate::fault::UsageFault;
pub use crate::given::{
    DEFAULT_DEPTH, DEFAULT_LANES, DEFAULT_MAX_BYTES, DEFAULT_MAX_CHUNKS, DEFAULT_WAIT,
    DEFAULT_WORKERS, MAX_WAIT, device_asked,
};
pub use crate::lists::{BadPiece, PieceFault, bad_pieces};
pub use crate::names::{
    ListRequest, Naming, borrowed, files_of, list_request, names_in, naming_asked, quoted_files_of,
    quoted_names,
};
pub use crate::opening::{OpenRequest, Reading, UnpipeRequest, open_request, unpipe_request};
pub use crate::printing::{
    Printing, Showing, against_asked, printing_asked, showing_asked, verbose_asked,
};
pub use crate::sealing::{
    DEFAULT_EXPONENT, PipeRequest, RunRequest, SealRequest, pipe_request, seal_request,
};
pub use crate::version::VERSION;
pub use crate::words::{asks_for_processors, write_out};
