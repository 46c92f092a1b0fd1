//! `pipe_all` over streams of zero bytes. The expected output is from Python's `cryptography` and `hashlib`, with the
//! key 00 01 .. 1f and device 1. Lines and journals are written by hand.
use crate::pipes::{Left, Run, ends, first_or_second};
use crate::stops::{Next, both_run};
use folder_memory::MemoryFolder;
use io_memory::Schedule;
use reserve_core::{Fold, LedgerFile};
use std::sync::Wait;
use std::thread::Threads;
use std::time::Clock;

// The container of the empty plaintext under number 0.
const EMPTY: [u8; 41] = [
    0x53, 0x54, 0x52, 0x4d, 0x53, 0x45, 0x41, 0x4c, 0x02, 0x0c, 0x00, 0x00, 0x01, 0x00, 0x00, 0x00,
    0x00, 0x63, 0x0d, 0xcd, 0x29, 0x66, 0xc4, 0x33, 0x00, 0xc6, 0x9f, 0x37, 0x43, 0xf1, 0x49, 0x2f,
    0x12, 0x0b, 0xda, 0xaf, 0x05, 0x62, 0x48, 0xbb, 0x14,
];

// The SHA-256 of the container of 8,192 bytes under number 0.
pub(crate) const FIRST: [u8; 32] = [
    0x11, 0x81, 0x88, 0x9c, 0x0d, 0x4d, 0x08, 0x31, 0x24, 0x17, 0x11, 0x63, 0x04, 0x21, 0x78, 0xc2,
    0x8b, 0xa3, 0x27, 0xcd, 0xd6, 0xa8, 0x88, 0x86, 0x62, 0x34, 0x9b, 0x5c, 0x1d, 0xe2, 0x27, 0x37,
];

// The same for number 1.
const SECOND: [u8; 32] = [
    0xf9, 0xb9, 0x84, 0x77, 0xfb, 0xd2, 0xb1, 0x1f, 0xa5, 0xc8, 0xeb, 0xf8, 0xf7, 0x78, 0x4d, 0x59,
    0x9b, 0x3f, 0xa7, 0x62, 0xb8, 0xd4, 0x88, 0x18, 0x50, 0x04, 0xfe, 0xc2, 0x11, 0xdf, 0x5a, 0x5a,
];

// The same for 8,193 bytes under number 0.
const A_BYTE_MORE: [u8; 32] = [
    0x62, 0xd8, 0xdd, 0x59, 0xef, 0x16, 0xb8, 0x2c, 0x2f, 0x56, 0x41, 0x40, 0x44, 0xea, 0x20, 0xe9,
    0xd1, 0x98, 0x83, 0xae, 0x7a, 0x26, 0xaa, 0x29, 0xb7, 0xd0, 0x9f, 0x79, 0x0d, 0x61, 0x4a, 0x9e,
];

static TWO_CHUNKS: Run = Run {
    count: 8_192,
    step: 1_000,
    reads: Schedule::Never,
    writes: Schedule::Never,
    lines: Schedule::Never,
    journals: Some(Schedule::Never),
    status: 0,
    line: b"sealed - file 0 bytes 8192\n",
    journal: b"range 1 0 1 1\n0 issue 0\n0 sealed 0\n",
    left: Left::Whole(8_249, &FIRST),
};

// What a row shows, and its run.
static RUNS: [(&str, Run); 6] = [
    (
        "without a journal a stream is sealed",
        Run {
            count: 8_192,
            step: usize::MAX,
            reads: Schedule::Never,
            writes: Schedule::Never,
            lines: Schedule::Never,
            journals: None,
            status: 0,
            line: b"sealed - file 0 bytes 8192\n",
            journal: b"",
            left: Left::Whole(8_249, &FIRST),
        },
    ),
    (
        "a byte a call is the same",
        Run {
            count: 8_192,
            step: 1,
            reads: Schedule::Never,
            writes: Schedule::Never,
            lines: Schedule::Never,
            journals: Some(Schedule::Never),
            status: 0,
            line: b"sealed - file 0 bytes 8192\n",
            journal: b"range 1 0 1 1\n0 issue 0\n0 sealed 0\n",
            left: Left::Whole(8_249, &FIRST),
        },
    ),
    (
        "no byte is sealed as one empty chunk",
        Run {
            count: 0,
            step: 1_000,
            reads: Schedule::Never,
            writes: Schedule::Never,
            lines: Schedule::Never,
            journals: Some(Schedule::Never),
            status: 0,
            line: b"sealed - file 0 bytes 0\n",
            journal: b"range 1 0 1 1\n0 issue 0\n0 sealed 0\n",
            left: Left::Is(&EMPTY),
        },
    ),
    (
        // The header was written before anything was read. How many chunks were written depends on the workers.
        "a byte past the most chunks voids the number",
        Run {
            count: 8_193,
            step: 1_000,
            reads: Schedule::Never,
            writes: Schedule::Never,
            lines: Schedule::Never,
            journals: Some(Schedule::Never),
            status: 1,
            line: b"failed -: too many chunks\n",
            journal: b"range 1 0 1 1\n0 issue 0\n0 void 0\n",
            left: Left::Begun(25, 8_266, &A_BYTE_MORE),
        },
    ),
    (
        "a line that fails is status 2, and the journal is written",
        Run {
            count: 8_192,
            step: 1_000,
            reads: Schedule::Never,
            writes: Schedule::Never,
            lines: Schedule::Bytes(8),
            journals: Some(Schedule::Never),
            status: 2,
            line: b"sealed -",
            journal: b"range 1 0 1 1\n0 issue 0\n0 sealed 0\n",
            left: Left::Whole(8_249, &FIRST),
        },
    ),
    (
        "a journal that fails is status 2, and the line stands",
        Run {
            count: 8_192,
            step: 1_000,
            reads: Schedule::Never,
            writes: Schedule::Never,
            lines: Schedule::Never,
            journals: Some(Schedule::Bytes(9)),
            status: 2,
            line: b"sealed - file 0 bytes 8192\njournal: write failed\n",
            journal: b"range 1 0",
            left: Left::Whole(8_249, &FIRST),
        },
    ),
];

#[test]
fn each_stream_has_its_line_its_number_and_its_container(rt: HostRuntime) {
    for (what, run) in &RUNS {
        assert!(rt; ends(&rt, run), "{what}");
    }
}

// ---- a call that fails

// In the tag of chunk 0.
static WRITE_FAILED: Run = Run {
    count: 8_192,
    step: 1_000,
    reads: Schedule::Never,
    writes: Schedule::Bytes(4_130),
    lines: Schedule::Never,
    journals: Some(Schedule::Never),
    status: 1,
    line: b"failed -: write failed\n",
    journal: b"range 1 0 1 1\n0 issue 0\n0 void 0\n",
    left: Left::Begun(4_130, 4_130, &FIRST),
};

// ---- the ledger file

static UNRESERVED: Run = Run {
    count: 8_192,
    step: 1_000,
    reads: Schedule::Never,
    writes: Schedule::Never,
    lines: Schedule::Never,
    journals: Some(Schedule::Never),
    status: 2,
    line: b"ledger: store failed\n",
    journal: b"",
    left: Left::Untouched,
};

// Whether a run over this ledger file seals two chunks. `Some(false)` if no range is reserved and nothing read or
// written; `None` if it ends otherwise.
pub(crate) fn sealed_or_unreserved<R: AllocGlobal + Threads + Wait + Sync, S: Fold>(
    rt: &R,
    file: &mut LedgerFile<S>,
) -> Option<bool> {
    first_or_second(rt, file, &TWO_CHUNKS, &UNRESERVED)
}

static UNDER_NUMBER_1: Run = Run {
    count: 8_192,
    step: 1_000,
    reads: Schedule::Never,
    writes: Schedule::Never,
    lines: Schedule::Never,
    journals: Some(Schedule::Never),
    status: 0,
    line: b"sealed - file 1 bytes 8192\n",
    journal: b"range 1 1 1 1\n0 issue 1\n0 sealed 1\n",
    left: Left::Whole(8_249, &SECOND),
};

// Whether the run after this one has number 1, and both end as expected.
fn is_followed<R: AllocGlobal + Threads + Clock + Wait + Sync>(rt: &R, first: &Run) -> bool {
    let mut folder = MemoryFolder::new(rt.alloc());
    let (first, second) = (Next::Stream(first), Next::Stream(&UNDER_NUMBER_1));
    both_run(rt, &mut folder, first, second)
}

#[test]
fn the_next_run_has_the_next_number(rt: HostRuntime) {
    assert!(rt; is_followed(&rt, &TWO_CHUNKS));
    assert!(rt; is_followed(&rt, &WRITE_FAILED));
}
