//! The tests of `crew_core`, and what they share: a key, grants, plaintexts, containers, and three gates. Two workers
//! must meet at the first, the second holds a worker back, and the third records who passed with what.
#![tactic(auto)]

#[cfg(test)]
mod damaged;
#[cfg(test)]
mod damages;
#[cfg(test)]
mod gates;
pub mod grants;
pub mod known;
pub mod late;
pub mod meeting;
pub mod plain;
pub mod recorder;
#[cfg(test)]
mod rounds;
#[cfg(test)]
mod sealed;
#[cfg(test)]
mod seats;
#[cfg(test)]
mod shapes;
#[cfg(test)]
mod shelves;
#[cfg(test)]
mod windows;

pub use crate::grants::grant_of;
pub use crate::known::{EIGHT, EIGHTEEN, ZERO_BYTES, ZEROS, ZEROS_SEALED, is_digest, sealed_zeros};
pub use crate::late::Late;
pub use crate::meeting::Meeting;
pub use crate::plain::{PREFIX, flip, pattern, zeros};
pub use crate::recorder::Recorder;
pub use container_tests::samples::counting_key;
