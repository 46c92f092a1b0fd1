//! Readers and writers in memory that fail by a schedule, to test crates that use readers and writers.
//!
//! A caller whose bytes are in memory needs none of this. The contracts of std's readers over slices and writers over
//! `Vec` give their bytes too, through `FromRead` and `ToWrite` of `io_core`.
#![tactic(auto)]

pub mod memory;

pub use crate::memory::{FromMemory, Schedule, ToMemory};
