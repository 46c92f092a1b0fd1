//! Batches with new ledgers, and checks of their outcomes.
ghost use Rattle.std.specs.Prelude.{◌≡◌, ◌<◌, ◌≤◌, length, All, IfSome};

use crate::jobs::jobs_of;
use crate::run::Run;
use container_core::{Key, MAX_PLAIN, Shape, open, seal};
use crew_core::{Gate, MAX_JOBS, MAX_LANES, Outcome};
use crew_tests::counting_key;
use ledger_core::{Device, IssueFault, Range, Spent, Way, prefix};
use std::alloc::Global;
use std::thread::Threads;

// A run with `size` numbers from `lo` on. The only refused allocation is the one that the test run injects, so the
// second call succeeds.
pub fn opened(alloc: Global, lo: u32, size: u32, seats: u32) -> Option<Run>
    ensures { IfSome result (λ run. run.terms.seats ≡ seats) }
{
    let range = Range::new(Device::new(1)?, lo, size).ok()?;
    match Run::open(alloc, range, seats) {
        Err(_) => Run::open(alloc, range, seats).ok(),
        Ok(run) => Some(run),
    }
}

// Whether a text's container in a shape with this prefix is these bytes.
fn seals_to(
    alloc: Global,
    key: &Key,
    shape: &Shape,
    prefix: [u8; 7],
    text: &[u8],
    bytes: &[u8],
) -> bool {
    match seal(alloc, key, shape, prefix, text) {
        Ok(whole) => whole.as_slice() == bytes,
        Err(_) => false,
    }
}

// Whether a container opens to this text.
fn opens_to(alloc: Global, key: &Key, bytes: &[u8], text: &[u8]) -> bool {
    match open(alloc, key, bytes) {
        Ok(plain) => plain.as_slice() == text,
        Err(_) => false,
    }
}

// Whether the outcome is this job's container in a shape, under a number spent as sealed, and opens to the job.
fn is_sealed(alloc: Global, key: &Key, shape: &Shape, job: &[u8], outcome: &Outcome) -> bool {
    let Outcome::Sealed {
        seat: _,
        bytes,
        spent,
    } = outcome
    else {
        return false;
    };
    let bytes = bytes.as_slice();
    let prefix = prefix(spent.device(), spent.number());
    spent.way() == Way::Sealed
        && seals_to(alloc, key, shape, prefix, job, bytes)
        && opens_to(alloc, key, bytes, job)
}

// Whether each job has its container in a shape.
pub fn all_sealed(
    alloc: Global,
    key: &Key,
    shape: &Shape,
    jobs: &[Vec<u8>],
    outcomes: &[Outcome],
) -> bool {
    for (job, outcome) in jobs.iter().zip(outcomes) {
        if !is_sealed(alloc, key, shape, job.as_slice(), outcome) {
            return false;
        }
    }
    jobs.len() == outcomes.len()
}

pub fn seat_of(outcome: &Outcome) -> u32 {
    match outcome {
        Outcome::Sealed {
            seat,
            bytes: _,
            spent: _,
        } => *seat,
        Outcome::Spoiled { seat, spent: _ } => *seat,
        Outcome::Unissued { seat, fault: _ } => *seat,
    }
}

fn fault_of(outcome: &Outcome) -> Option<IssueFault> {
    match outcome {
        Outcome::Unissued { seat: _, fault } => Some(*fault),
        _ => None,
    }
}

fn number_of(outcome: &Outcome) -> Option<u32> {
    match outcome {
        Outcome::Sealed {
            seat: _,
            bytes: _,
            spent,
        } => Some(spent.number()),
        Outcome::Spoiled { seat: _, spent } => Some(spent.number()),
        Outcome::Unissued { seat: _, fault: _ } => None,
    }
}

// The number that was spent, if any.
pub fn spent_of(outcome: Outcome) -> Option<Spent> {
    match outcome {
        Outcome::Sealed {
            seat: _,
            bytes,
            spent,
        } => {
            drop(bytes);
            Some(spent)
        }
        Outcome::Spoiled { seat: _, spent } => Some(spent),
        Outcome::Unissued { seat: _, fault: _ } => None,
    }
}

// How many of the outcomes name this seat.
pub fn at_seat(outcomes: &[Outcome], seat: u32) -> usize {
    outcomes
        .iter()
        .filter(|outcome| seat_of(outcome) == seat)
        .count()
}

// How many outcomes have this fault.
pub fn faults(outcomes: &[Outcome], fault: IssueFault) -> usize {
    outcomes
        .iter()
        .filter(|outcome| fault_of(outcome) == Some(fault))
        .count()
}

// How many outcomes have a number.
pub fn numbers(outcomes: &[Outcome]) -> usize {
    outcomes
        .iter()
        .filter(|outcome| number_of(outcome).is_some())
        .count()
}

// Whether each of `seats` seats drew one job.
pub fn draw_one_each(outcomes: &[Outcome], seats: u32) -> bool {
    for seat in 0..seats {
        if at_seat(outcomes, seat) != 1 {
            return false;
        }
    }
    true
}

// Whether the first two outcomes have these numbers.
pub fn are_numbered(outcomes: &[Outcome], first: u32, second: u32) -> bool {
    outcomes.first().and_then(number_of) == Some(first)
        && outcomes.get(1).and_then(number_of) == Some(second)
}

// Whether jobs 1 to 6 have the numbers 0 to 5, and job 0 a later one.
pub fn is_first_job_late(outcomes: &[Outcome]) -> bool {
    for n in 0..6 {
        if outcomes.get(n + 1).and_then(number_of) != Some(n as u32) {
            return false;
        }
    }
    match outcomes.first().and_then(number_of) {
        Some(held) => held >= 6,
        None => false,
    }
}

// Whether a container opens to this text. An injected refusal of memory comes once, so the second call succeeds.
fn opens_again(alloc: Global, bytes: &[u8], text: &[u8]) -> bool {
    opens_to(alloc, &counting_key(), bytes, text) || opens_to(alloc, &counting_key(), bytes, text)
}

// Whether the outcome is this text's container, a void number, or a refused growth.
pub fn is_kept(alloc: Global, text: &[u8], outcome: &Outcome) -> bool {
    match outcome {
        Outcome::Sealed {
            seat: _,
            bytes,
            spent,
        } => spent.way() == Way::Sealed && opens_again(alloc, bytes.as_slice(), text),
        Outcome::Spoiled { seat: _, spent } => spent.way() == Way::Void,
        Outcome::Unissued { seat: _, fault } => *fault == IssueFault::OutOfMemory,
    }
}

// The outcomes of a batch in a shape at a gate, with a new ledger that has a number for each job, from `lo` on.
pub fn outcomes_of<R: Threads + Sync, G: Gate + Sync>(
    rt: &R,
    alloc: Global,
    shape: &Shape,
    lo: u32,
    seats: u32,
    jobs: &[Vec<u8>],
    lanes: u32,
    gate: &G,
) -> Option<Vec<Outcome>>
    requires lanes { (0 < lanes) × (lanes ≤ MAX_LANES) × (lanes ≤ seats) }
    requires few { length jobs.now ≤ MAX_JOBS }
    requires short { All (λ job. length job.items ≤ MAX_PLAIN) jobs.now }
{
    let mut run = opened(alloc, lo, jobs.len() as u32, seats)?;
    run.seal(rt, alloc, &counting_key(), shape, jobs, lanes, gate)
        .ok()
}

// The outcomes of `count` jobs under numbers from 0 on, if each job has its container of version 1.
pub fn sealed<R: Threads + Sync, G: Gate + Sync>(
    rt: &R,
    alloc: Global,
    count: u8,
    seats: u32,
    lanes: u32,
    gate: &G,
) -> Option<Vec<Outcome>>
    requires lanes { (0 < lanes) × (lanes ≤ MAX_LANES) × (lanes ≤ seats) }
{
    let jobs = jobs_of(alloc, count).ok()?;
    let jobs = jobs.as_slice();
    let shape = Shape::one();
    let outcomes = outcomes_of(rt, alloc, &shape, 0, seats, jobs, lanes, gate)?;
    if all_sealed(alloc, &counting_key(), &shape, jobs, outcomes.as_slice()) {
        Some(outcomes)
    } else {
        None
    }
}
