//! Each call of a folder, its readers and its writers fails once in turn, while files are sealed, opened and verified.
//! Each file has its line. At most one more fails than without the failing call, with that call's fault. An output is
//! whole if its line says that it was made, and absent if its line says that it failed. The journal is legal with
//! nothing open, and has as many numbers sealed and void as the lines say.
use crate::failing::{Calls, Failing};
use crate::runs::{
    CUT, EMPTY, MemoryOuts, SECRET, folder_of, has_bytes, has_counts, holds, journal_of,
    ledger_after, open_over, seal_over, steady_outs,
};
use folder_memory::{MemoryFolder, Pace};
use io_memory::Schedule;
use sealer_core::OpenOptions;
use std::alloc::{AllocError, Global};
use std::sync::Wait;
use std::thread::Threads;
use std::time::Clock;

#[derive(Clone, Copy, PartialEq, Eq)]
enum Work {
    Seal { lanes: u32 },
    // The files can be read again, or only once.
    Open { workers: u32, once: bool },
    Verify { workers: u32 },
}

// The work to do. For each of the files, `results` has the name of its output, the plaintext, and the fault if no call
// fails (empty if none).
#[derive(Clone, Copy)]
struct Run<'a> {
    work: Work,
    folder: &'a [(&'a str, &'a [u8])],
    files: &'a [&'a str],
    results: &'a [(&'a str, &'a [u8], &'a str)],
    max_bytes: u64,
    // The bytes of a reader's or writer's call.
    step: usize,
}

// What a run left and printed.
#[derive(Drop)]
struct Ended {
    folder: MemoryFolder,
    out: MemoryOuts,
    // `None` if the options were invalid.
    status: Option<u8>,
    has_failed: bool,
    // The fault of the failed call.
    fault: &'static str,
    is_unremoved: bool,
}

// The status of `open_all` or `verify_all` over a folder with a failing call.
fn status_of_opening<R: AllocGlobal + Threads + Clock + Sync>(
    rt: &R,
    folder: &mut Failing,
    run: &Run,
    out: &mut MemoryOuts,
    workers: u32,
    verifies: bool,
) -> Option<u8> {
    let options = OpenOptions {
        files: run.files,
        workers,
        max_bytes: run.max_bytes,
        label: None,
        to: None,
        show: false,
    };
    open_over(rt, folder, &options, verifies, out)
}

fn status_of<R: AllocGlobal + Threads + Clock + Wait + Sync>(
    rt: &R,
    folder: &mut Failing,
    run: &Run,
    out: &mut MemoryOuts,
) -> Option<u8> {
    match run.work {
        Work::Seal { lanes } => {
            let mut file = ledger_after(rt.alloc(), "")?;
            seal_over(
                rt,
                &mut file,
                folder,
                run.files,
                out,
                run.max_bytes,
                1,
                lanes,
            )
        }
        Work::Open { workers, .. } => status_of_opening(rt, folder, run, out, workers, false),
        Work::Verify { workers } => status_of_opening(rt, folder, run, out, workers, true),
    }
}

fn is_read_once(work: Work) -> bool {
    match work {
        Work::Open { once, .. } => once,
        _ => false,
    }
}

// The run in which the call with this number fails.
fn run_failing<R: AllocGlobal + Threads + Clock + Wait + Sync>(
    rt: &R,
    run: &Run,
    number: u64,
) -> Option<Ended> {
    let mut folder = folder_of(rt.alloc(), run.folder)?;
    let pace = Pace {
        most: run.step,
        schedule: Schedule::Never,
    };
    folder.pace_readers(pace);
    folder.pace_writers(pace);
    let mut out = steady_outs(rt.alloc())?;
    let calls = Calls::new(number);
    let mut failing = Failing {
        folder,
        calls: &calls,
        once: is_read_once(run.work),
    };
    let status = status_of(rt, &mut failing, run, &mut out);
    let Failing { folder, .. } = failing;
    Some(Ended {
        folder,
        out,
        status,
        has_failed: calls.has_failed(),
        fault: calls.fault(),
        is_unremoved: calls.has_failed_to_remove(),
    })
}

fn is_text(line: &str, text: Result<String, AllocError>) -> bool {
    match text {
        Ok(text) => text.as_str() == line,
        Err(AllocError) => false,
    }
}

// Whether a line says that this file failed with this fault.
fn is_failed(alloc: Global, line: &str, name: &str, fault: &str) -> bool {
    is_text(line, format!(in alloc; "failed {name}: {fault}"))
}

// The number under which a line says that a file was sealed: one of the first ten.
fn number_in(alloc: Global, line: &str, name: &str, bytes: usize) -> Option<u8> {
    for number in 0..10u8 {
        if is_text(
            line,
            format!(in alloc; "sealed {name} file {number} bytes {bytes}"),
        ) {
            return Some(number);
        }
    }
    None
}

// Whether a line says that a file was processed, and its output is whole.
fn is_worked(
    alloc: Global,
    work: Work,
    folder: &MemoryFolder,
    line: &str,
    name: &str,
    output: &str,
    plain: &[u8],
) -> bool {
    let bytes = plain.len();
    match work {
        Work::Seal { lanes: _ } => match number_in(alloc, line, name, bytes) {
            Some(number) => holds(alloc, folder, output, number, plain),
            None => false,
        },
        Work::Open { .. } => {
            is_text(line, format!(in alloc; "opened {name} bytes {bytes}"))
                && has_bytes(folder, output, plain)
        }
        Work::Verify { workers: _ } => {
            is_text(line, format!(in alloc; "good {name} bytes {bytes}")) && !folder.has(output)
        }
    }
}

// Whether some line says that a file with this name was processed.
fn is_told_elsewhere(text: &str, name: &str) -> bool {
    for line in text.lines() {
        if line.split_whitespace().nth(1) == Some(name) {
            return true;
        }
    }
    false
}

// What the lines say of the failed files.
#[derive(Clone, Copy)]
struct Failures {
    // How many files failed, and how many of them with a fault that they have without a failing call.
    all: usize,
    own: usize,
    // How many left a void number.
    void: usize,
}

// Whether the file with this line received a number before it failed. With one lane that happens before the file is
// read, with several after it. A file that is too long is not read.
fn has_void_number(work: Work, line: &str) -> bool {
    match work {
        Work::Seal { lanes } => {
            line.ends_with(": write failed") || (lanes == 1 && line.ends_with(": read failed"))
        }
        _ => false,
    }
}

// How many of the files failed, each with its own fault or that of the failed call. Each line must fit what is left of
// its file's output.
fn failures_in(alloc: Global, run: &Run, ended: &Ended, text: &str) -> Option<Failures> {
    let mut lines = text.lines();
    let (mut all, mut own, mut void) = (0usize, 0usize, 0usize);
    for (name, (output, plain, fault)) in run.files.iter().zip(run.results) {
        let line = lines.next()?;
        let is_own = is_failed(alloc, line, name, fault);
        if is_own || is_failed(alloc, line, name, ended.fault) {
            all = all.saturating_add(1);
            own = own.saturating_add(usize::from(is_own));
            void = void.saturating_add(usize::from(has_void_number(run.work, line)));
            let may_be_there = ended.is_unremoved || is_told_elsewhere(text, name);
            if ended.folder.has(output) && !may_be_there {
                return None;
            }
        } else if !is_worked(alloc, run.work, &ended.folder, line, name, output, plain) {
            return None;
        }
    }
    if lines.next().is_none() {
        Some(Failures { all, own, void })
    } else {
        None
    }
}

fn is_journal(alloc: Global, run: &Run, journal: &[u8], failed: Failures) -> bool {
    match run.work {
        Work::Seal { lanes: _ } => {
            let sealed = run.files.len().saturating_sub(failed.all);
            has_counts(alloc, journal, sealed, failed.void)
        }
        _ => journal.is_empty(),
    }
}

// How many files fail if no call does.
fn faulty_in(run: &Run) -> usize {
    let mut faulty = 0usize;
    for (_, _, fault) in run.results {
        faulty = faulty.saturating_add(usize::from(!fault.is_empty()));
    }
    faulty
}

// Whether a run ended as expected: without a failed call, each file with its own fault failed; with one, at most one
// more failed.
fn is_right(alloc: Global, run: &Run, ended: &Ended) -> Option<bool> {
    let text = std::str::from_utf8(ended.out.lines.bytes()).ok()?;
    let failed = failures_in(alloc, run, ended, text)?;
    let faulty = faulty_in(run);
    let others = failed.all.saturating_sub(failed.own);
    Some(
        others <= usize::from(ended.has_failed)
            && (ended.has_failed || failed.own == faulty)
            && ended.status == Some(u8::from(failed.all > 0))
            && ended.out.faults.bytes().is_empty()
            && is_journal(alloc, run, journal_of(&ended.out), failed),
    )
}

// How many calls there are, if the run ends as expected whichever of them fails.
fn calls_of<R: AllocGlobal + Threads + Clock + Wait + Sync>(rt: &R, run: &Run) -> Option<u64> {
    for number in 0..1_000u64 {
        let ended = run_failing(rt, run, number)?;
        if is_right(rt.alloc(), run, &ended) != Some(true) {
            return None;
        }
        if !ended.has_failed {
            return Some(number);
        }
    }
    None
}

// Whether there are at least `least` calls, and the run ends as expected whichever of them fails.
fn holds_at_each_call<R: AllocGlobal + Threads + Clock + Wait + Sync>(
    rt: &R,
    run: &Run,
    least: u64,
) -> bool {
    match calls_of(rt, run) {
        Some(calls) => calls >= least,
        None => false,
    }
}

static EMPTY_MISSING_AGAIN: Run = Run {
    work: Work::Seal { lanes: 1 },
    folder: &[("a", b"")],
    files: &["a", "m", "a"],
    results: &[
        ("a.stm", b"", ""),
        ("m.stm", b"", "cannot open"),
        ("a.stm", b"", "output exists"),
    ],
    max_bytes: 1 << 30,
    step: 16,
};

static LONG_AND_OTHERS: Run = Run {
    work: Work::Seal { lanes: 1 },
    folder: &[("a", b""), ("long", b"twelve bytes"), ("b", b"eleven byte")],
    files: &["a", "long", "m", "b", "a"],
    results: &[
        ("a.stm", b"", ""),
        ("long.stm", b"twelve bytes", "too long"),
        ("m.stm", b"", "cannot open"),
        ("b.stm", b"eleven byte", ""),
        ("a.stm", b"", "output exists"),
    ],
    max_bytes: 11,
    step: 4,
};

#[test]
fn each_call_fails_while_one_lane_seals(rt: HostRuntime) {
    assert!(rt; holds_at_each_call(&rt, &EMPTY_MISSING_AGAIN, 9));
    assert!(rt; holds_at_each_call(&rt, &LONG_AND_OTHERS, 40));
}

// Long enough for each to be worth a lane.
static ONES: [u8; 262_144] = [1; 262_144];

static TWOS: [u8; 262_144] = [2; 262_144];

static LONG: [u8; 262_145] = [3; 262_145];

// Six files with two lanes, in groups of two.
fn holds_in_groups<R: AllocGlobal + Threads + Clock + Wait + Sync>(rt: &R) -> bool {
    let folder: [(&str, &[u8]); 4] = [("a", &ONES), ("b", &TWOS), ("c", b"333"), ("long", &LONG)];
    let results: [(&str, &[u8], &str); 6] = [
        ("a.stm", &ONES, ""),
        ("b.stm", &TWOS, ""),
        ("long.stm", b"", "too long"),
        ("c.stm", b"333", ""),
        ("m.stm", b"", "cannot open"),
        ("a.stm", &ONES, "output exists"),
    ];
    let run = Run {
        work: Work::Seal { lanes: 2 },
        folder: &folder,
        files: &["a", "b", "long", "c", "m", "a"],
        results: &results,
        max_bytes: 262_144,
        step: 131_072,
    };
    holds_at_each_call(rt, &run, 30)
}

#[test]
fn each_call_fails_while_two_lanes_seal(rt: HostRuntime) {
    assert!(rt; holds_in_groups(&rt));
}

// Containers, one of them cut short.
static OPENED: Run = Run {
    work: Work::Open {
        workers: 1,
        once: false,
    },
    folder: &[("a.stm", &EMPTY), ("b.stm", &SECRET), ("cut.stm", &CUT)],
    files: &["a.stm", "b.stm", "m.stm", "cut.stm", "b.stm"],
    results: &[
        ("a", b"", ""),
        ("b", b"a secret", ""),
        ("m", b"", "cannot open"),
        ("cut", b"", "chunk 0 does not check"),
        ("b", b"a secret", "output exists"),
    ],
    max_bytes: 8,
    step: 5,
};

static VERIFIED: Run = Run {
    work: Work::Verify { workers: 1 },
    folder: &[("a.stm", &EMPTY), ("b.stm", &SECRET), ("cut.stm", &CUT)],
    files: &["a.stm", "b.stm", "m.stm", "cut.stm", "b.stm"],
    results: &[
        ("a", b"", ""),
        ("b", b"a secret", ""),
        ("m", b"", "cannot open"),
        ("cut", b"", "chunk 0 does not check"),
        ("b", b"a secret", ""),
    ],
    max_bytes: 8,
    step: 5,
};

fn by_workers<'a>(run: &Run<'a>, work: Work) -> Run<'a> {
    Run { work, ..*run }
}

// Whether the run ends as expected for files that can be read again, and for files that can't. A second reading has
// more calls.
fn holds_for_both_files<R: AllocGlobal + Threads + Clock + Wait + Sync>(
    rt: &R,
    workers: u32,
) -> bool {
    let again = Work::Open {
        workers,
        once: false,
    };
    let once = Work::Open {
        workers,
        once: true,
    };
    let again = calls_of(rt, &by_workers(&OPENED, again));
    let once = calls_of(rt, &by_workers(&OPENED, once));
    match (again, once) {
        (Some(again), Some(once)) => once >= 30 && again >= once.saturating_add(20),
        _ => false,
    }
}

#[test]
fn each_call_fails_while_files_are_opened(rt: HostRuntime) {
    assert!(rt; holds_for_both_files(&rt, 1));
    assert!(rt; holds_for_both_files(&rt, 2));
}

#[test]
fn each_call_fails_while_files_are_verified(rt: HostRuntime) {
    assert!(rt; holds_at_each_call(&rt, &VERIFIED, 30));
    let run = by_workers(&VERIFIED, Work::Verify { workers: 2 });
    assert!(rt; holds_at_each_call(&rt, &run, 30));
}
