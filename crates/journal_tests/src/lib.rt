//! The tests of the plain ledger, its journal and its audit.
#![tactic(auto)]

#[cfg(test)]
mod tests;
