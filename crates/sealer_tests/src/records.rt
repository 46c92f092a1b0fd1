//! `seal_all` and `pipe_all` over a folder whose record is known, so each call of it has to show that it may come. Files
//! and streams are sealed in it, and each kind of call fails.
use crate::pipes::{Left, is_left, status_over};
use crate::runs::{SECRET, has_counts, journal_of, ledger_after, seal_over, steady_outs};
use crate::streams::FIRST;
use crate::traces::{MORE_UNDER_2, NONE_UNDER_1};
use folder_tests::{Limits, MemoryFolder};
use io_memory::{FromMemory, Schedule};
use std::sync::Wait;
use std::thread::Threads;

// No call fails.
const NONE: Limits = Limits {
    writes: u64::MAX,
    ends: u64::MAX,
    reads: u64::MAX,
    turns: u64::MAX,
    can_repeat: true,
};

// The files. One has an output already, and one is too long.
static FILES: [(&str, &[u8]); 6] = [
    ("a", b"a secret"),
    ("c", b"x"),
    ("c.stm", b"kept"),
    ("d", b""),
    ("e", b"more"),
    ("long", b"nine more"),
];

// What fails, with how many lanes, the lines, and how many numbers are sealed and void.
struct Row {
    limits: Limits,
    lanes: u32,
    lines: &'static str,
    sealed: usize,
    void: usize,
}

const SEALED: &str = "sealed a file 0 bytes 8\nfailed m: cannot open\nfailed c: output exists\n\
  sealed d file 1 bytes 0\nsealed e file 2 bytes 4\nfailed long: too long\n";

const UNWRITTEN: &str = "failed a: write failed\nfailed m: cannot open\nfailed c: output exists\n\
  failed d: write failed\nfailed e: write failed\nfailed long: too long\n";

// The end of the second output fails, and those after it.
const UNENDED: &str = "sealed a file 0 bytes 8\nfailed m: cannot open\nfailed c: output exists\n\
  failed d: write failed\nfailed e: write failed\nfailed long: too long\n";

const UNREAD: &str = "failed a: read failed\nfailed m: cannot open\nfailed c: output exists\n\
  failed d: read failed\nfailed e: read failed\nfailed long: too long\n";

// One lane issues a number before it reads a file, three lanes after it.
static ROWS: [Row; 10] = [
    Row {
        limits: NONE,
        lanes: 1,
        lines: SEALED,
        sealed: 3,
        void: 0,
    },
    Row {
        limits: NONE,
        lanes: 3,
        lines: SEALED,
        sealed: 3,
        void: 0,
    },
    Row {
        limits: Limits { writes: 0, ..NONE },
        lanes: 1,
        lines: UNWRITTEN,
        sealed: 0,
        void: 3,
    },
    Row {
        limits: Limits { writes: 0, ..NONE },
        lanes: 3,
        lines: UNWRITTEN,
        sealed: 0,
        void: 3,
    },
    Row {
        limits: Limits { ends: 0, ..NONE },
        lanes: 1,
        lines: UNWRITTEN,
        sealed: 0,
        void: 3,
    },
    Row {
        limits: Limits { ends: 0, ..NONE },
        lanes: 3,
        lines: UNWRITTEN,
        sealed: 0,
        void: 3,
    },
    Row {
        limits: Limits { ends: 1, ..NONE },
        lanes: 1,
        lines: UNENDED,
        sealed: 1,
        void: 2,
    },
    Row {
        limits: Limits { ends: 1, ..NONE },
        lanes: 3,
        lines: UNENDED,
        sealed: 1,
        void: 2,
    },
    Row {
        limits: Limits { reads: 0, ..NONE },
        lanes: 1,
        lines: UNREAD,
        sealed: 0,
        void: 3,
    },
    Row {
        limits: Limits { reads: 0, ..NONE },
        lanes: 3,
        lines: UNREAD,
        sealed: 0,
        void: 0,
    },
];

// Whether the folder has these bytes under this name; `None`: no such file.
fn has(folder: &MemoryFolder, name: &str, bytes: Option<&[u8]>) -> bool {
    match (folder.bytes(name), bytes) {
        (Some(found), Some(bytes)) => found.as_slice() == bytes,
        (None, None) => true,
        _ => false,
    }
}

// Whether the folder has so many of these outputs, the first ones.
fn has_outputs(folder: &MemoryFolder, sealed: usize) -> bool {
    let outputs: [(&str, &[u8]); 3] = [
        ("a.stm", &SECRET),
        ("d.stm", &NONE_UNDER_1),
        ("e.stm", &MORE_UNDER_2),
    ];
    let mut left = sealed;
    for (name, bytes) in outputs {
        let there = if left > 0 { Some(bytes) } else { None };
        left = left.saturating_sub(1);
        if !has(folder, name, there) {
            return false;
        }
    }
    has(folder, "c.stm", Some(b"kept")) && has(folder, "long.stm", None)
}

// Whether a run ends as the row says. `None` if memory is refused.
fn ends<R: AllocGlobal + Threads + Wait + Sync>(rt: &R, row: &Row) -> Option<bool> {
    let alloc = rt.alloc();
    let mut folder = MemoryFolder::unkeyed(alloc, &FILES)?;
    folder.limit(row.limits);
    let mut file = ledger_after(alloc, "")?;
    let mut out = steady_outs(alloc)?;
    let files = ["a", "m", "c", "d", "e", "long"];
    let status = seal_over(
        rt,
        &mut file,
        &mut folder,
        &files,
        &mut out,
        8,
        1,
        row.lanes,
    )?;
    Some(
        status == 1
            && out.lines.bytes() == row.lines.as_bytes()
            && has_counts(alloc, journal_of(&out), row.sealed, row.void)
            && has_outputs(&folder, row.sealed),
    )
}

#[test]
fn a_run_over_a_known_record_seals_or_says_why_not(rt: HostRuntime) {
    for row in &ROWS {
        assert!(rt;
            ends(&rt, row) == Some(true),
            "{} lanes: {}",
            row.lanes,
            row.lines
        );
    }
}

// ---- streams

// What fails while a stream of 8,192 zero bytes is sealed, its line, and what was written: the header, and each of its two
// chunks, in a call of its own.
struct Piped {
    limits: Limits,
    reads: Schedule,
    line: &'static str,
    left: Left<'static>,
}

// A stream has no end that could fail.
static PIPED: [Piped; 5] = [
    Piped {
        limits: NONE,
        reads: Schedule::Never,
        line: "sealed - file 0 bytes 8192\n",
        left: Left::Whole(8_249, &FIRST),
    },
    Piped {
        limits: Limits { ends: 0, ..NONE },
        reads: Schedule::Never,
        line: "sealed - file 0 bytes 8192\n",
        left: Left::Whole(8_249, &FIRST),
    },
    Piped {
        limits: Limits { writes: 0, ..NONE },
        reads: Schedule::Never,
        line: "failed -: write failed\n",
        left: Left::Is(b""),
    },
    Piped {
        limits: Limits { writes: 2, ..NONE },
        reads: Schedule::Never,
        line: "failed -: write failed\n",
        left: Left::Begun(4_137, 4_137, &FIRST),
    },
    Piped {
        limits: NONE,
        reads: Schedule::Bytes(8_191),
        line: "failed -: read failed\n",
        left: Left::Begun(25, 4_137, &FIRST),
    },
];

// Whether a run ends as the row says. `None` if memory is refused.
fn pipes<R: AllocGlobal + Threads + Wait + Sync>(rt: &R, row: &Piped) -> Option<bool> {
    let alloc = rt.alloc();
    let mut folder = MemoryFolder::unkeyed(alloc, &[])?;
    folder.limit(row.limits);
    let stream = folder.new_stream()?;
    let mut file = ledger_after(alloc, "")?;
    let mut out = steady_outs(alloc)?;
    let plain = [0u8; 8_192];
    let mut reader = FromMemory::new(&plain, 1_000, row.reads);
    let status = status_over(rt, &mut file, &mut reader, &mut folder, stream, &mut out)?;
    let fails = usize::from(row.line.starts_with("failed"));
    Some(
        usize::from(status) == fails
            && out.faults.bytes() == row.line.as_bytes()
            && out.lines.bytes().is_empty()
            && has_counts(alloc, journal_of(&out), 1 - fails, fails)
            && is_left(alloc, folder.taken(), 8_192, row.left),
    )
}

#[test]
fn a_stream_over_a_known_record_is_sealed_or_its_line_says_why_not(rt: HostRuntime) {
    for row in &PIPED {
        assert!(rt; pipes(&rt, row) == Some(true), "{}", row.line);
    }
}
