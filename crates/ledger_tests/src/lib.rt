//! Runs of the shared ledger, with one thread and with four, from opening it to the text of its journal.
#![tactic(auto)]

#[cfg(test)]
mod calls;
pub mod order;
pub mod run;
#[cfg(test)]
mod spending;
#[cfg(test)]
mod tests;

pub use crate::run::Run;
