//! The shared ledger: operations per second of 1, 2 and 4 threads that issue and settle, compared with the same three
//! counts under a `Mutex`. A round's time includes starting and ending its threads.

use crate::clock::nanos_since;
use anyhow::Result;
use ledger_core::{BadRange, Device, Range, Tally};
use ledger_tests::Run;
use std::alloc::Global;
use std::io::{self, Print};
use std::sync::{Mutex, Wait};
use std::thread::{Threads, for_each_mut};
use std::time::{Clock, Instant};

/// How many numbers are spent if nothing is measured.
const SHORT: u32 = 1_000;

/// How many rounds of each are measured.
const ROUNDS: u32 = 101;

/// The three counts of the ledger's word, as the value in a lock.
#[derive(Drop)]
struct Counts {
    issues: u32,
    sealed: u32,
    void: u32,
}

impl Counts {
    // The next number below `size`, or none.
    fn issue(&mut self, size: u32) -> Option<u32> {
        let number = self.issues;
        self.issues = number.saturating_add(1);
        if number < size { Some(number) } else { None }
    }

    fn settle(&mut self, number: u32) {
        if number % 2 == 0 {
            self.sealed = self.sealed.saturating_add(1);
        } else {
            self.void = self.void.saturating_add(1);
        }
    }
}

// The time of a round, and its counts.
#[derive(Clone, Copy)]
struct Round {
    nanos: u64,
    tally: Tally,
}

// The threads spend the range of a ledger.
fn ledger_round<R: Clock + Threads + Sync>(
    rt: &R,
    alloc: Global,
    size: u32,
    threads: u32,
) -> Result<Round> {
    let threads = threads.max(1);
    let device = Device::new(1).ok_or(BadRange)?;
    let range = Range::new(device, 0, size)?;
    let mut run = Run::open(alloc, range, threads)?;
    let start = Instant::now(rt)?;
    run.spend(rt, threads);
    let nanos = nanos_since(rt, &start)?;
    let tally = run.tally(0);
    Ok(Round { nanos, tally })
}

// Issues numbers until none is left, and settles each.
fn spend_counts<R: Wait>(rt: &R, counts: &Mutex<Counts>, size: u32) {
    for _ in 0..=Range::MAX_SIZE {
        let Some(number) = counts.lock(rt).issue(size) else {
            return;
        };
        counts.lock(rt).settle(number);
    }
}

// The threads spend `size` numbers of three counts under a lock.
fn lock_round<R: Clock + Threads + Wait + Sync>(
    rt: &R,
    alloc: Global,
    size: u32,
    threads: u32,
) -> Result<Round> {
    let counts = Mutex::new(Counts {
        issues: 0,
        sealed: 0,
        void: 0,
    });
    let mut workers = vec![in alloc; 0u32; threads as usize]?;
    let start = Instant::now(rt)?;
    let shared = &counts;
    let work = |_worker: usize, _seat: &mut u32| spend_counts(rt, shared, size);
    for_each_mut(rt, workers.as_mut_slice(), (threads as usize).max(1), &work);
    let nanos = nanos_since(rt, &start)?;
    let counts = counts.into_inner();
    let granted = counts.issues.min(size);
    let tally = Tally {
        granted,
        refused: counts.issues - granted,
        sealed: counts.sealed,
        void: counts.void,
    };
    Ok(Round { nanos, tally })
}

fn print_tally<R: Print>(rt: &R, name: &str, threads: u32, tally: Tally) -> io::Result<()> {
    let Tally {
        granted,
        refused,
        sealed,
        void,
    } = tally;
    println!(rt;
        "{name}, {threads} threads: {granted} granted, {refused} refused, {sealed} sealed, {void} void"
    )
}

// Millions of operations per second: an issue and a settlement for each number, and a refusal for each thread.
fn speed(nanos: u64, threads: u32) -> u64 {
    let operations = 2 * u64::from(Range::MAX_SIZE) + u64::from(threads);
    operations.saturating_mul(1_000) / nanos.max(1)
}

// Speeds in millions of operations per second.
#[derive(Clone, Copy)]
struct Speeds {
    middle: u64,
    best: u64,
}

fn speeds_of(mut nanos: Vec<u64>, threads: u32) -> Speeds {
    nanos.sort_unstable();
    let middle = nanos.get(nanos.len() / 2).copied().unwrap_or(u64::MAX);
    let best = nanos.first().copied().unwrap_or(u64::MAX);
    Speeds {
        middle: speed(middle, threads),
        best: speed(best, threads),
    }
}

fn print_speeds<R: Clock + Print + Threads + Wait + Sync>(
    rt: &R,
    alloc: Global,
    threads: u32,
) -> Result<()> {
    let mut ledger = Vec::new(alloc);
    let mut lock = Vec::new(alloc);
    for _round in 0..ROUNDS {
        ledger.push(ledger_round(rt, alloc, Range::MAX_SIZE, threads)?.nanos)?;
        lock.push(lock_round(rt, alloc, Range::MAX_SIZE, threads)?.nanos)?;
    }
    let (ledger, lock) = (speeds_of(ledger, threads), speeds_of(lock, threads));
    println!(rt;
        "{threads} threads, million operations a second, middle and best round: ledger {} and {}, lock {} and {}",
        ledger.middle, ledger.best, lock.middle, lock.best
    )?;
    Ok(())
}

/// Prints the speeds of the median and the best round with the largest range.
pub fn measure<R: Clock + Print + Threads + Wait + Sync>(rt: &R, alloc: Global) -> Result<()> {
    for threads in [1, 2, 4] {
        print_speeds(rt, alloc, threads)?;
    }
    Ok(())
}

/// Prints what the ledger and the lock count with a short range.
pub fn show<R: Clock + Print + Threads + Wait + Sync>(rt: &R, alloc: Global) -> Result<()> {
    for threads in [1, 2, 4] {
        let ledger = ledger_round(rt, alloc, SHORT, threads)?;
        print_tally(rt, "ledger", threads, ledger.tally)?;
        let lock = lock_round(rt, alloc, SHORT, threads)?;
        print_tally(rt, "lock", threads, lock.tally)?;
    }
    Ok(())
}
