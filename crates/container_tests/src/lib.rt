//! The tests of `container_core`, and what they share with the tests and measurements of other crates: a key,
//! containers under it, and cut and altered containers with the results of opening them.
#![tactic(auto)]

pub mod damages;
pub mod moves;
#[cfg(test)]
mod parts;
pub mod samples;
#[cfg(test)]
mod version_two;
#[cfg(test)]
mod whole;

pub use crate::damages::{CHUNK_COUNT, Case, SHAPES, chunk_cases, header_cases, header_count};
pub use crate::moves::{MOVES, moved};
pub use crate::samples::{COUNTING, EMPTY, EMPTY_TWO, counting_key, prefix_of, zeros_sealed};
