//! Sealing and opening with several workers, with the result of one thread.
//!
//! `seal_whole`, `seal_round` and `open_whole` make the pieces of a body round by round. Each piece is made by the
//! worker that draws its number. The caller's thread is worker 0. The workers share only two things that change: the
//! word from which numbers are drawn, and the gate. `seal_batch` draws its jobs in the same way. Works, pieces and
//! shelves are those of `piece_core`.
#![tactic(auto)]

pub mod batch;
mod lanes;
pub mod laws;
pub mod outcome;
mod places;
mod rounds;
pub mod whole;

pub use crate::batch::seal_batch;
pub use crate::outcome::Outcome;
pub use crate::whole::{open_whole, seal_round, seal_whole};
pub use claim_core::{
    DEFAULT_WINDOW, Free, Gate, MAX_LANES, MAX_WINDOW, MAX_WORKERS, usual_window,
};
pub use piece_core::{Kind, Piece, PutFault, Shelf, ShelfFault, Work};
pub use sealing_core::{MAX_DEPTH, pipe};

/// The most jobs of a batch.
pub const MAX_JOBS: usize = 65_535;
