//! A folder in memory, for tests of the commands. Its calls, readers and writers fail where a test asks for it, and it
//! records what happened.
#![tactic(auto)]

pub mod memory;
pub mod reader;
pub mod told;

pub use crate::memory::{MemoryFolder, MemoryHandle};
pub use crate::reader::{MemoryReader, Pace, STEADY};
pub use crate::told::{Told, What};
