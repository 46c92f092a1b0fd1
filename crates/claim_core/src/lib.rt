//! What workers share: the numbers that they draw, the gate that they pass, and how many there may be.
//!
//! `claims` has numbers below a count, drawn from one atomic word: each once, in any order. A worker draws with one
//! atomic addition, waits for nobody and allocates nothing. What a claimant's workers drew is known only in contracts,
//! and is stored nowhere. `gate` has what each worker and lane calls before a piece of work, `window` the number of
//! chunks of a round if none is asked for, and `laws` the limits as a contract.
#![tactic(auto)]

pub mod claims;
pub mod gate;
pub mod laws;
mod steps;
mod table;
pub mod window;

pub use crate::claims::{Claimant, Claims};
pub use crate::gate::{Free, Gate};
pub use crate::window::{OPENING_BYTES, ROUND_BYTES, usual_opening, usual_window};

/// The most workers of one claims table.
pub const MAX_CLAIMANTS: u32 = 16;
/// The most workers of one sealing or opening.
pub const MAX_WORKERS: u32 = 16;
/// The most lanes of a batch.
pub const MAX_LANES: u32 = 16;
/// The most chunks of a round of a file.
pub const MAX_WINDOW: u32 = 256;
/// The most chunks of a round of a file with one worker, if no number is asked for: 1 MiB of chunks of 64 KiB.
pub const DEFAULT_WINDOW: u32 = 16;
/// The most chunks of a stream that are read and not yet written.
pub const MAX_DEPTH: u32 = 64;
