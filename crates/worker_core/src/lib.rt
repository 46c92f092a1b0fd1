//! Rounds of consecutive chunks, sealed, opened or checked piece by piece, and the workers that make them.
//!
//! A `Round` makes each of its pieces by its number. `Places` takes them, each into its place. So the result doesn't
//! depend on who made which piece, or when. There are two crews:
//!
//! - A `LastingCrew` makes the rounds of a reader. Its workers are started once, by `with_workers`, and share rounds that
//!   own their bytes: each of them makes the pieces whose numbers it draws, for the round's slots.
//! - A `Crew` makes the rounds of bytes that its caller lends. It has a bench for each worker, the room in which that
//!   makes pieces, and starts its threads for each round.
//!
//! With both the caller's thread does something else meanwhile. The gate that each worker calls before each piece, and
//! the limits, are in `claim_core`. Only `lasting` and `workers` start threads.
#![tactic(auto)]

mod append;
pub mod bench;
mod filling;
pub mod lasting;
pub mod laws;
pub mod letters;
pub mod owned;
pub mod parts;
mod piece;
pub mod places;
mod resting;
pub mod round;
pub mod rounds;
mod shared;
mod slots;
mod word;
mod workers;

pub use crate::bench::Bench;
pub use crate::lasting::{LastingCrew, with_workers};
pub use crate::letters::{LetterBox, letter_boxes};
pub use crate::owned::OwnedRound;
pub use crate::parts::Parts;
pub use crate::places::Places;
pub use crate::round::{Round, Task};
pub use crate::rounds::Crew;
pub use claim_core::{
    DEFAULT_WINDOW, Free, Gate, MAX_WINDOW, MAX_WORKERS, usual_opening, usual_window,
};
