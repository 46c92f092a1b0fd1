//! Readers and writers: the traits that contracts mention, adapters for std's, and functions that read or write to the
//! end.
//!
//! Begin with `stream`: what is known of the bytes and the failures of a reader and a writer.
#![tactic(auto)]

pub mod adapter;
pub mod input;
pub mod output;
pub mod stream;

pub use crate::adapter::{FromRead, ToWrite};
pub use crate::input::{ReadFault, fill, read_to_limit};
pub use crate::output::write_all;
pub use crate::stream::{Failed, Sink, Source};
