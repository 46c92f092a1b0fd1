//! Tests of batches with ledgers, and of the gates that their lanes pass.
#![tactic(auto)]

#[cfg(test)]
mod held;
#[cfg(test)]
mod jobs;
#[cfg(test)]
mod outcomes;
#[cfg(test)]
mod run;
#[cfg(test)]
mod tests;
