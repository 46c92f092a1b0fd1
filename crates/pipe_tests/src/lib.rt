//! Tests of `sealing_core`: streams sealed through `run_pipe` with 1 to 16 workers, and files in small chunks. Readers
//! and writers are in memory.
#![tactic(auto)]

#[cfg(test)]
mod blocks;
#[cfg(test)]
mod containers;
#[cfg(test)]
mod faults;
#[cfg(test)]
mod gates;
#[cfg(test)]
mod held;
#[cfg(test)]
mod passes;
#[cfg(test)]
mod pipes;
#[cfg(test)]
mod refused;
#[cfg(test)]
mod whole;
