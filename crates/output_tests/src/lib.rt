//! Outputs in memory whose contracts say what they may hold, and tests with them.
//!
//! Begin with `bounded`.
#![tactic(auto)]

pub mod bounded;
pub mod checked;
#[cfg(test)]
mod cuts;
pub mod parts;

pub use crate::bounded::Bounded;
pub use crate::checked::CheckedOutput;
pub use crate::parts::holds_both;
