//! What no clause says of batches: that they succeed, that lanes run concurrently, and that containers equal those made
//! elsewhere.
ghost use Rattle.std.specs.Prelude.{◌≡◌, ◌<◌, ◌≤◌};

use crate::held::Held;
use crate::jobs::{jobs_of, texts};
use crate::outcomes::{
    all_sealed, are_numbered, at_seat, draw_one_each, faults, is_first_job_late, is_kept, numbers,
    opened, outcomes_of, sealed, seat_of, spent_of,
};
use crate::run::Run;
use container_core::Shape;
use crew_core::{Free, MAX_LANES, Outcome};
use crew_tests::{Late, Meeting, counting_key};
use io_memory::{FromMemory, Schedule, ToMemory};
use ledger_core::{IssueFault, Journal, Tally, audit};
use std::alloc::Global;
use std::thread::Threads;

// How often a pass checks for the others: where lanes can meet, and (`FEW_TURNS`) where they can't.
const TURNS: u64 = 1_000_000_000;

const FEW_TURNS: u64 = 1000;

static TEXTS: [&[u8]; 3] = [b"", b"a", b"bc"];

// Their containers with the key 00 01 .. 1f, device 1 and files 7, 8 and 9; from Python's `cryptography`.
static OF_ONE: [&[u8]; 3] = [
    &[
        0x53, 0x54, 0x52, 0x4d, 0x53, 0x45, 0x41, 0x4c, 0x01, 0x10, 0x00, 0x00, 0x01, 0x00, 0x00,
        0x00, 0x07, 0x63, 0x0d, 0xcd, 0x29, 0x66, 0xc4, 0x33, 0x47, 0x44, 0xc4, 0xde, 0x8d, 0x8c,
        0x35, 0xb3, 0x63, 0x78, 0x70, 0xde, 0x7c, 0xfe, 0xc3, 0x20,
    ],
    &[
        0x53, 0x54, 0x52, 0x4d, 0x53, 0x45, 0x41, 0x4c, 0x01, 0x10, 0x00, 0x00, 0x01, 0x00, 0x00,
        0x00, 0x08, 0x63, 0x0d, 0xcd, 0x29, 0x66, 0xc4, 0x33, 0x89, 0x5d, 0x41, 0x07, 0x27, 0x29,
        0x49, 0xf8, 0x53, 0x21, 0x1e, 0x26, 0x45, 0xfc, 0x3c, 0x7a, 0xb6,
    ],
    &[
        0x53, 0x54, 0x52, 0x4d, 0x53, 0x45, 0x41, 0x4c, 0x01, 0x10, 0x00, 0x00, 0x01, 0x00, 0x00,
        0x00, 0x09, 0x63, 0x0d, 0xcd, 0x29, 0x66, 0xc4, 0x33, 0x60, 0xb6, 0xd0, 0xb1, 0x58, 0xf1,
        0xbd, 0xf8, 0xd3, 0xa1, 0xeb, 0x03, 0x38, 0xa9, 0x0b, 0xe3, 0x73, 0x22,
    ],
];

// The same in version 2, in chunks of 4 KiB, with the label `db-dump`.
static OF_TWO: [&[u8]; 3] = [
    &[
        0x53, 0x54, 0x52, 0x4d, 0x53, 0x45, 0x41, 0x4c, 0x02, 0x0c, 0x00, 0x00, 0x01, 0x00, 0x00,
        0x00, 0x07, 0x63, 0x0d, 0xcd, 0x29, 0x66, 0xc4, 0x33, 0x07, 0x64, 0x62, 0x2d, 0x64, 0x75,
        0x6d, 0x70, 0x9c, 0xf0, 0x92, 0xe8, 0xb0, 0xb6, 0x8e, 0x5c, 0x89, 0x01, 0xd1, 0x4b, 0xe3,
        0x15, 0xd7, 0xe1,
    ],
    &[
        0x53, 0x54, 0x52, 0x4d, 0x53, 0x45, 0x41, 0x4c, 0x02, 0x0c, 0x00, 0x00, 0x01, 0x00, 0x00,
        0x00, 0x08, 0x63, 0x0d, 0xcd, 0x29, 0x66, 0xc4, 0x33, 0x07, 0x64, 0x62, 0x2d, 0x64, 0x75,
        0x6d, 0x70, 0x89, 0xc3, 0x86, 0xf4, 0xf2, 0x4c, 0x86, 0x43, 0x67, 0x43, 0xa1, 0xa0, 0xe0,
        0x4b, 0x3e, 0xda, 0xd3,
    ],
    &[
        0x53, 0x54, 0x52, 0x4d, 0x53, 0x45, 0x41, 0x4c, 0x02, 0x0c, 0x00, 0x00, 0x01, 0x00, 0x00,
        0x00, 0x09, 0x63, 0x0d, 0xcd, 0x29, 0x66, 0xc4, 0x33, 0x07, 0x64, 0x62, 0x2d, 0x64, 0x75,
        0x6d, 0x70, 0x60, 0xb6, 0xbf, 0xe9, 0x4e, 0xc5, 0xb9, 0x63, 0x72, 0xf2, 0xcb, 0x0c, 0x2c,
        0x33, 0xd5, 0xa4, 0xe2, 0x0b,
    ],
];

const NOTHING: Tally = Tally {
    granted: 0,
    refused: 0,
    sealed: 0,
    void: 0,
};

// Whether the outcome is this container, sealed at seat 0.
fn is_container(outcome: &Outcome, want: &[u8]) -> bool {
    match outcome {
        Outcome::Sealed {
            seat: 0,
            bytes,
            spent: _,
        } => bytes.as_slice() == want,
        _ => false,
    }
}

// Whether the outcomes are these containers.
fn are_containers(outcomes: &[Outcome], wanted: &[&[u8]]) -> bool {
    for (outcome, want) in outcomes.iter().zip(wanted) {
        if !is_container(outcome, want) {
            return false;
        }
    }
    outcomes.len() == wanted.len()
}

// Whether one lane seals the texts in a shape to these containers.
fn gives<R: Threads + Sync>(
    rt: &R,
    alloc: Global,
    shape: &Shape,
    wanted: &[&[u8]],
) -> Option<bool> {
    let jobs = texts(alloc, &TEXTS).ok()?;
    let jobs = jobs.as_slice();
    let outcomes = outcomes_of(rt, alloc, shape, 7, 1, jobs, 1, &Free)?;
    let outcomes = outcomes.as_slice();
    Some(
        are_containers(outcomes, wanted)
            && all_sealed(alloc, &counting_key(), shape, jobs, outcomes),
    )
}

fn gives_both<R: Threads + Sync>(rt: &R, alloc: Global) -> Option<bool> {
    let two = Shape::two(12, b"db-dump").ok()?;
    Some(gives(rt, alloc, &Shape::one(), &OF_ONE)? && gives(rt, alloc, &two, &OF_TWO)?)
}

#[test]
fn containers_made_elsewhere(rt: HostRuntime) {
    assert!(rt; gives_both(&rt, rt.alloc()) == Some(true));
}

// The number of jobs, which must all meet at a gate; the number of seats, the number of lanes, and whether the gate
// gives up.
static MEETINGS: [(u8, u32, u32, bool); 3] = [
    (2, 2, 2, false),
    // Each lane with a job has its own thread: with fewer threads, four passes couldn't all be held at once.
    (4, 16, 16, false),
    // Shows that the rows above can fail: two jobs on one lane.
    (2, 2, 1, true),
];

// Whether two outcomes have the numbers 0 and 1 in either order. If the jobs met, each of `jobs` seats must have drawn
// one.
fn are_met(outcomes: &[Outcome], jobs: u32, gives_up: bool) -> bool {
    let numbered = are_numbered(outcomes, 0, 1) || are_numbered(outcomes, 1, 0);
    (gives_up || draw_one_each(outcomes, jobs)) && (outcomes.len() != 2 || numbered)
}

// Whether `count` jobs meet (or don't) as expected, and each is sealed.
fn is_met<R: Threads + Sync>(
    rt: &R,
    alloc: Global,
    count: u8,
    seats: u32,
    lanes: u32,
    gives_up: bool,
) -> Option<bool> {
    if lanes == 0 || lanes > MAX_LANES || lanes > seats {
        return None;
    }
    let wanted = u64::from(count);
    let gate = Meeting::new(wanted, if gives_up { FEW_TURNS } else { TURNS });
    let outcomes = sealed(rt, alloc, count, seats, lanes, &gate)?;
    let right = are_met(outcomes.as_slice(), u32::from(count), gives_up);
    Some(right && gate.is_met(wanted, gives_up))
}

fn all_are_met<R: Threads + Sync>(rt: &R, alloc: Global) -> bool {
    for (count, seats, lanes, gives_up) in &MEETINGS {
        if is_met(rt, alloc, *count, *seats, *lanes, *gives_up) != Some(true) {
            return false;
        }
    }
    true
}

#[test]
fn as_many_lanes_meet_as_have_a_job(rt: HostRuntime) {
    assert!(rt; all_are_met(&rt, rt.alloc()));
}

fn holds_one_job<R: Threads + Sync>(rt: &R, alloc: Global) -> Option<bool> {
    let gate = Late::new(7, TURNS);
    let outcomes = sealed(rt, alloc, 8, 2, 2, &gate)?;
    let outcomes = outcomes.as_slice();
    let is_held = !gate.gave_up() && gate.passes() == (7, 1);
    Some(is_held && at_seat(outcomes, 0) == 7 && at_seat(outcomes, 1) == 1)
}

// A held lane holds up only one job: lane 1 is held with its job until lane 0 has passed with all others.
#[test]
fn a_held_lane_holds_one_job(rt: HostRuntime) {
    assert!(rt; holds_one_job(&rt, rt.alloc()) == Some(true));
}

fn issues_behind_the_gate<R: Threads + Sync>(rt: &R, alloc: Global) -> Option<bool> {
    let gate = Held::new(0, 7, TURNS);
    let outcomes = sealed(rt, alloc, 8, 2, 2, &gate)?;
    let is_held = !gate.gave_up() && gate.counts() == 0x1111_1111;
    Some(is_held && is_first_job_late(outcomes.as_slice()))
}

// Job 0 is held at the gate until the other lane comes with job 7. By then that lane has six numbers. A number issued
// for job 0 before the gate would be among the first.
#[test]
fn the_gate_comes_before_the_issue(rt: HostRuntime) {
    assert!(rt; issues_behind_the_gate(&rt, rt.alloc()) == Some(true));
}

// The outcomes of `count` jobs with a new ledger of the single number `lo`, and a seat's counts afterwards.
fn told<R: Threads + Sync>(
    rt: &R,
    alloc: Global,
    lo: u32,
    seats: u32,
    count: u8,
    lanes: u32,
    seat: usize,
) -> Option<(Vec<Outcome>, Tally)>
    requires lanes { (0 < lanes) × (lanes ≤ MAX_LANES) × (lanes ≤ seats) }
    requires seat { seat < seats }
{
    let jobs = jobs_of(alloc, count).ok()?;
    let mut run = opened(alloc, lo, 1, seats)?;
    let outcomes = run
        .seal(
            rt,
            alloc,
            &counting_key(),
            &Shape::one(),
            jobs.as_slice(),
            lanes,
            &Free,
        )
        .ok()?;
    Some((outcomes, run.tally(seat)))
}

// Whether one of six jobs on `lanes` lanes has a number, and the others found none.
fn is_one_numbered(outcomes: &[Outcome], tally: Tally, lanes: u32) -> bool {
    let exhausted = faults(outcomes, IssueFault::Exhausted);
    numbers(outcomes) == 1
        && 0 < exhausted
        && exhausted <= lanes as usize
        && exhausted <= 5
        && faults(outcomes, IssueFault::SeatClosed) == 5 - exhausted
        && (tally.granted, tally.refused as usize) == (1, exhausted)
        && (tally.sealed, tally.void) == (0, 0)
}

fn is_range_too_small<R: Threads + Sync>(rt: &R, alloc: Global, lanes: u32) -> Option<bool>
    requires { (0 < lanes) × (lanes ≤ 2) }
{
    let (outcomes, tally) = told(rt, alloc, 7, 2, 6, lanes, 0)?;
    Some(is_one_numbered(outcomes.as_slice(), tally, lanes))
}

// The range ends within the batch, and one lane gets the number. A lane that finds none gets `Exhausted` once, and is
// then closed. A second lane may find no job left.
#[test]
fn a_range_too_small(rt: HostRuntime) {
    assert!(rt; is_range_too_small(&rt, rt.alloc(), 1) == Some(true));
    assert!(rt; is_range_too_small(&rt, rt.alloc(), 2) == Some(true));
}

fn has_no_jobs<R: Threads + Sync>(rt: &R, alloc: Global) -> Option<bool> {
    let (outcomes, tally) = told(rt, alloc, 0, 3, 0, 3, 2)?;
    Some(outcomes.is_empty() && tally == NOTHING)
}

#[test]
fn no_jobs(rt: HostRuntime) {
    assert!(rt; has_no_jobs(&rt, rt.alloc()) == Some(true));
}

// Whether each outcome's number could be settled at its seat.
fn are_settled(run: &mut Run, outcomes: Vec<Outcome>) -> bool {
    for outcome in outcomes {
        let seat = seat_of(&outcome) as usize;
        let Some(spent) = spent_of(outcome) else {
            return false;
        };
        if !run.settled(seat, spent) {
            return false;
        }
    }
    true
}

// The journal of a hundred jobs on sixteen lanes, each sealed and settled.
fn journal_of<R: Threads + Sync>(rt: &R, alloc: Global) -> Option<Journal> {
    let jobs = jobs_of(alloc, 100).ok()?;
    let jobs = jobs.as_slice();
    let mut run = opened(alloc, 3, 100, 16)?;
    let outcomes = run
        .seal(rt, alloc, &counting_key(), &Shape::one(), jobs, 16, &Free)
        .ok()?;
    let sealed = all_sealed(
        alloc,
        &counting_key(),
        &Shape::one(),
        jobs,
        outcomes.as_slice(),
    );
    if are_settled(&mut run, outcomes) && sealed {
        run.close().ok()
    } else {
        None
    }
}

// Whether the audit of a journal's text writes this line.
fn audits_to(alloc: Global, text: &[u8], line: &[u8]) -> Option<bool> {
    let mut reader = FromMemory::new(text, 4_096, Schedule::Never);
    let mut writer = ToMemory::new(alloc, 100, 100, Schedule::Never).ok()?;
    audit(alloc, &mut reader, &mut writer).ok()?;
    Some(writer.bytes() == line)
}

fn is_journal_whole<R: Threads + Sync>(rt: &R, alloc: Global) -> Option<bool> {
    let journal = journal_of(rt, alloc)?;
    let text = journal.text(alloc).ok()?;
    let line = b"legal: 100 granted, 100 sealed, 0 void, 0 open, 0 refused\n";
    Some(journal.entries().len() == 200 && audits_to(alloc, text.as_bytes(), line)?)
}

// A batch with sixteen seats, settled and closed: the journal has each number granted and settled once.
#[test]
fn sixteen_lanes_and_their_journal(rt: HostRuntime) {
    assert!(rt; is_journal_whole(&rt, rt.alloc()) == Some(true));
}

// The outcomes of three jobs on two lanes. A refused batch has issued nothing, and is sealed again.
fn sealed_again<R: Threads + Sync>(rt: &R, alloc: Global, run: &mut Run) -> Option<Vec<Outcome>>
    requires seats { 2 ≤ run.old.terms.seats }
    ensures same { run.new ≡ run.old }
{
    let jobs = match jobs_of(alloc, 3) {
        Ok(jobs) => jobs,
        Err(_) => jobs_of(alloc, 3).ok()?,
    };
    match run.seal(
        rt,
        alloc,
        &counting_key(),
        &Shape::one(),
        jobs.as_slice(),
        2,
        &Free,
    ) {
        Ok(outcomes) => Some(outcomes),
        Err(_) => {
            if run.tally(0) == NOTHING {
                run.seal(
                    rt,
                    alloc,
                    &counting_key(),
                    &Shape::one(),
                    jobs.as_slice(),
                    2,
                    &Free,
                )
                .ok()
            } else {
                None
            }
        }
    }
}

// The three jobs of `jobs_of`.
static THREE: [&[u8]; 3] = [b"", b"\x01", b"\x02\x02"];

// Whether each of the outcomes fits its job.
fn all_kept(alloc: Global, outcomes: &[Outcome]) -> bool {
    for (outcome, job) in outcomes.iter().zip(&THREE) {
        if !is_kept(alloc, job, outcome) {
            return false;
        }
    }
    outcomes.len() == 3
}

// Whether each of three jobs has an outcome, and the ledger granted as many numbers as outcomes have one.
fn are_kept(alloc: Global, outcomes: &[Outcome], tally: Tally) -> bool {
    all_kept(alloc, outcomes) && tally.granted as usize == numbers(outcomes) && tally.refused == 0
}

fn loses_no_number<R: Threads + Sync>(rt: &R, alloc: Global) -> Option<bool> {
    let mut run = opened(alloc, 0, 3, 2)?;
    let outcomes = sealed_again(rt, alloc, &mut run)?;
    let tally = run.tally(1);
    Some(are_kept(alloc, outcomes.as_slice(), tally))
}

// Three jobs on two lanes. Run it with each allocation refused in turn. Either the batch was refused and nothing
// issued, or each job has an outcome and the ledger granted as many numbers as outcomes have one.
#[test]
fn a_refused_growth_loses_no_number(rt: HostRuntime) {
    assert!(rt; loses_no_number(&rt, rt.alloc()) == Some(true));
}
