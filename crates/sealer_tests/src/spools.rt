//! `unpipe_all` where a call of the input, the spool or the stream fails: the fault in the line, and what was written.
use crate::failing::Calls;
use crate::inputs::{End, Ended, How, by, ends_once, input_of, is_end, pipe_of, refused, run_over};
use crate::runs::{CUT, LABELLED};
use crate::unpipes::{pattern, sealed_as};
use io_memory::Schedule;
use std::alloc::Global;
use std::thread::Threads;
use std::time::Clock;

// The SHA-256 of the container of 196,609 bytes i modulo 251 for file 0, from Python's `cryptography` and `hashlib`: 48
// chunks of 4,096 bytes and one of a byte, with the label `db dump`.
pub(crate) static MANY_CHUNKS: [u8; 32] = [
    0x9e, 0xdd, 0x9f, 0x56, 0xe0, 0x95, 0xcf, 0xb5, 0xfa, 0x69, 0x23, 0xbe, 0x59, 0x96, 0x36, 0x64,
    0xb7, 0x05, 0x5a, 0xc9, 0x2b, 0x1f, 0xa3, 0xc8, 0xf9, 0x4f, 0xc4, 0xd5, 0xf2, 0x19, 0x68, 0xcd,
];

/// The bytes of that plaintext.
pub(crate) const LENGTH: usize = 196_609;

// The bytes of a call.
const STEP: usize = 20_000;

// ---- each call

// Whether a run ended with the fault of the call that failed. If that was in the first reading, or one of the spool,
// nothing was written.
fn is_failed(alloc: Global, calls: &Calls, ended: &Ended, plain: &[u8]) -> bool {
    let fault = calls.fault();
    let Ok(line) = format!(in alloc; "failed a.stm: {fault}\n") else {
        return false;
    };
    let mut end = refused(line.as_bytes());
    if calls.has_failed_late() {
        end.most = plain.len();
    }
    is_end(ended, plain, &end)
}

// The run in which the call with this number fails, of an input that can be read once or again.
fn run_failing<R: AllocGlobal + Threads + Clock + Sync>(
    rt: &R,
    sealed: &[u8],
    how: &How,
    calls: &Calls,
    once: bool,
) -> Option<Ended> {
    if once {
        let pipe = pipe_of(rt.alloc(), sealed, STEP, calls);
        run_over(rt, Some(pipe), how, calls)
    } else {
        let input = input_of(sealed, sealed, STEP, calls);
        run_over(rt, Some(input), how, calls)
    }
}

// Whether the run in which the call with this number fails ends with its fault, or opens the input if no call fails.
// Then there are `Some(false)` more calls.
fn ends_at<R: AllocGlobal + Threads + Clock + Sync>(
    rt: &R,
    sealed: &[u8],
    plain: &[u8],
    how: &How,
    number: u64,
    once: bool,
) -> Option<bool> {
    let calls = Calls::new(number);
    let ended = run_failing(rt, sealed, how, &calls, once)?;
    let is_right = if calls.has_failed() {
        is_failed(rt.alloc(), &calls, &ended, plain)
    } else {
        let all = End {
            status: 0,
            line: b"opened a.stm bytes 196609\n",
            least: LENGTH,
            most: LENGTH,
        };
        is_end(&ended, plain, &all)
    };
    if is_right {
        Some(calls.has_failed())
    } else {
        None
    }
}

// How many calls there are, if the run ends as expected whichever of them fails.
fn calls_of<R: AllocGlobal + Threads + Clock + Sync>(
    rt: &R,
    sealed: &[u8],
    plain: &[u8],
    workers: u32,
    once: bool,
) -> Option<u64> {
    for number in 0..1_000u64 {
        if !ends_at(rt, sealed, plain, &by(workers), number, once)? {
            return Some(number);
        }
    }
    None
}

// How many calls there are of the container of many chunks.
fn calls_of_many<R: AllocGlobal + Threads + Clock + Sync>(
    rt: &R,
    workers: u32,
    once: bool,
) -> Option<u64> {
    let plain = pattern(rt.alloc(), LENGTH)?;
    let sealed = sealed_as(rt.alloc(), plain.as_slice(), true, 0, &MANY_CHUNKS)?;
    calls_of(rt, sealed.as_slice(), plain.as_slice(), workers, once)
}

// The first reading has at least ten calls that give 20,000 bytes and one that finds the end. So has what is kept of
// it.
#[test]
fn each_call_fails_while_an_input_is_opened_that_can_be_read_once(rt: HostRuntime) {
    for workers in [1u32, 4] {
        let calls = calls_of_many(&rt, workers, true).unwrap_or(0);
        assert!(rt; calls >= 24, "{workers}: {calls}");
    }
}

#[test]
fn each_call_fails_while_an_input_is_opened_that_can_be_read_again(rt: HostRuntime) {
    for workers in [1u32, 4] {
        let calls = calls_of_many(&rt, workers, false).unwrap_or(0);
        assert!(rt; calls >= 24, "{workers}: {calls}");
    }
}

// ---- a spool that fails

// Call 1 is the first of the spool: what the first read gave.
fn is_spool_failure_late<R: AllocGlobal + Threads + Clock + Sync>(rt: &R) -> bool {
    let spool = refused(b"failed a.stm: spool failed\n");
    let damage = refused(b"failed a.stm: chunk 0 does not check\n");
    let label = refused(b"failed a.stm: another label\n");
    let (any, mut other) = (by(1), by(1));
    other.label = Some(b"db");
    ends_once(
        rt,
        &LABELLED,
        b"a secret",
        STEP,
        &any,
        &Calls::new(1),
        &spool,
    ) && ends_once(rt, &CUT, b"a secret", STEP, &any, &Calls::new(1), &damage)
        && ends_once(
            rt,
            &LABELLED,
            b"a secret",
            STEP,
            &other,
            &Calls::new(1),
            &label,
        )
}

#[test]
fn a_spool_that_failed_is_told_only_of_what_would_be_opened(rt: HostRuntime) {
    assert!(rt; is_spool_failure_late(&rt));
}

// ---- a stream that fails

// Whether exactly this many bytes are written where the stream takes no more.
fn stops_after<R: AllocGlobal + Threads + Clock + Sync>(
    rt: &R,
    sealed: &[u8],
    plain: &[u8],
    bytes: usize,
    workers: u32,
) -> bool {
    let mut how = by(workers);
    how.writes = Schedule::Bytes(bytes as u64);
    let end = End {
        status: 1,
        line: b"failed a.stm: write failed\n",
        least: bytes,
        most: bytes,
    };
    ends_once(rt, sealed, plain, STEP, &how, &Calls::steady(), &end)
}

// None, one, all of a window but a byte, a window, and all but the last.
static TAKEN: [usize; 6] = [0, 1, 65_535, 65_536, 65_537, LENGTH - 1];

fn stops_after_each<R: AllocGlobal + Threads + Clock + Sync>(rt: &R, workers: u32) -> Option<bool> {
    let plain = pattern(rt.alloc(), LENGTH)?;
    let sealed = sealed_as(rt.alloc(), plain.as_slice(), true, 0, &MANY_CHUNKS)?;
    for bytes in &TAKEN {
        if !stops_after(rt, sealed.as_slice(), plain.as_slice(), *bytes, workers) {
            return Some(false);
        }
    }
    Some(true)
}

#[test]
fn a_stream_that_takes_no_more_has_the_first_bytes(rt: HostRuntime) {
    assert!(rt; stops_after_each(&rt, 1) == Some(true));
    assert!(rt; stops_after_each(&rt, 4) == Some(true));
}
