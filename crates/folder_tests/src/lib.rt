//! A folder in memory whose record is what it did, and tests.
//!
//! Begin with `memory`. `openings` runs the commands that open and verify over it.
#![tactic(auto)]

pub mod keyed;
pub mod memory;
pub mod note;
#[cfg(test)]
mod openings;
#[cfg(test)]
mod outputs;
pub mod pages;
pub mod reader;

pub use crate::memory::{MemoryFolder, MemoryHandle};
pub use crate::pages::Limits;
pub use crate::reader::MemoryReader;
