//! Measures what the program uses: `bench cipher`, `bench container`, `bench crew` or `bench ledger`.
//!
//! Without a word, it prints what is the same on every machine: the cipher's output for zeros, what opening returns for
//! cut and altered containers, and the counts of a ledger and a lock.
#![tactic(auto)]

mod answers;
mod cipher;
mod clock;
mod container;
mod ledger;

use anyhow::{Result, bail};
use std::alloc::Global;
use std::env;
use std::io::Print;
use std::rt::Env;
use std::sync::Wait;
use std::thread::Threads;
use std::time::Clock;

// Prints what is the same on every machine.
fn show<R: Print + Clock + Threads + Wait + Sync>(rt: &R, alloc: Global) -> Result<()> {
    cipher::show(rt, alloc)?;
    answers::show(rt, alloc)?;
    ledger::show(rt, alloc)
}

// Prints the times or speeds that this word names.
fn measure<R: Print + Clock + Threads + Wait + Sync>(
    rt: &R,
    alloc: Global,
    word: &str,
) -> Result<()> {
    if word == "cipher" {
        return cipher::measure(rt, alloc);
    }
    if word == "container" {
        return container::measure_one_thread(rt, alloc);
    }
    if word == "crew" {
        return container::measure_workers(rt, alloc);
    }
    if word == "ledger" {
        return ledger::measure(rt, alloc);
    }
    bail!("bench, or with `cipher`, `container`, `crew` or `ledger`")
}

fn main(rt: HostRuntime) -> Result<()> {
    let alloc = rt.alloc();
    let words: Vec<String> = env::args(&rt)?.collect(alloc)?;
    match words.get(1) {
        None => show(&rt, alloc),
        Some(word) => measure(&rt, alloc, word.as_str()),
    }
}
