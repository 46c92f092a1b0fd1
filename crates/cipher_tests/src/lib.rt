//! The tests of the cipher: vectors of others, cuts at every length, altered pairs.
#![tactic(auto)]

#[cfg(test)]
mod aead;
#[cfg(test)]
mod chacha;
#[cfg(test)]
mod poly;
#[cfg(test)]
mod vectors;
