//! Outputs: writers that may only be given bytes that they may hold. This is proof only; nothing is checked at run
//! time.
//!
//! Begin with `output`. Each `Sink` is an output that may hold anything.
#![tactic(auto)]

pub mod output;
pub mod parts;

pub use crate::output::{Output, put_all};
pub use crate::parts::put_each;
