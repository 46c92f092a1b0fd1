//! The lines of the commands, read again: their parts, the same parts as JSON, their totals, and containers compared with
//! the lines of the run that sealed them.
#![tactic(auto)]

pub mod json;
pub mod listed;
pub mod message;
pub mod objects;
pub mod totals;

pub use crate::listed::{Finding, Listed, What, push_finding};
pub use crate::message::{Message, PrintedFacts, message_of};
pub use crate::objects::{Extras, push_object};
pub use crate::totals::{Command, Totals, is_line_of, push_totals};
