//! Tests of names as lines show them (`folder_core`), and of `line_core`.
#![tactic(auto)]

#[cfg(test)]
mod lines;
#[cfg(test)]
mod names;
