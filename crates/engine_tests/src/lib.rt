//! Tests of `sealing_core` and `opening_core`: the engines with workers and those of one thread, and audits.
#![tactic(auto)]

#[cfg(test)]
mod audits;
#[cfg(test)]
mod containers;
#[cfg(test)]
mod cuts;
#[cfg(test)]
mod damages;
#[cfg(test)]
mod gates;
#[cfg(test)]
mod one_thread;
#[cfg(test)]
mod openings;
#[cfg(test)]
mod overlap;
#[cfg(test)]
mod reads;
#[cfg(test)]
mod rounds;
#[cfg(test)]
mod running;
#[cfg(test)]
mod sealed;
#[cfg(test)]
mod shapes;
#[cfg(test)]
mod twice;
#[cfg(test)]
mod two_chunks;
#[cfg(test)]
mod waiting;
#[cfg(test)]
mod windows;
