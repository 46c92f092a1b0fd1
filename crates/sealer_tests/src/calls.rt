//! Runs over two files in which each call of the folder fails in turn: to open an input, to read it again if it is
//! opened, to create its output, to finish it. The lines and journals are written by hand.
use crate::cases::{Case, Left, Trouble, Work, ends};
use crate::runs::{EMPTY, SECRET};

// What a run must print and leave.
struct Run {
    status: u8,
    lines: &'static [u8],
    journal: &'static [u8],
    left: &'static [(&'static str, Left<'static>)],
}

// Runs over a folder. In the first, the first call fails, in the second the second, and so on; in the last none fails.
struct Runs {
    what: &'static str,
    folder: &'static [(&'static str, &'static [u8])],
    files: &'static [&'static str],
    work: Work,
    runs: &'static [Run],
}

static RUNS: [Runs; 3] = [
    // The calls are: open `a`, create `a.stm`, finish it, and the same for `b`. After a failed finish, the output is
    // removed.
    Runs {
        what: "a sealing by one lane",
        folder: &[("a", b"1"), ("b", b"22")],
        files: &["a", "b"],
        work: Work::Seal {
            workers: 1,
            lanes: 1,
        },
        runs: &[
            Run {
                status: 1,
                lines: b"failed a: cannot open\nsealed b file 0 bytes 2\n",
                journal: b"range 1 0 2 1\n0 issue 0\n0 sealed 0\n",
                left: &[("a.stm", Left::Absent), ("b.stm", Left::Holds(0, b"22"))],
            },
            Run {
                status: 1,
                lines: b"failed a: cannot create\nsealed b file 0 bytes 2\n",
                journal: b"range 1 0 2 1\n0 issue 0\n0 sealed 0\n",
                left: &[("a.stm", Left::Absent), ("b.stm", Left::Holds(0, b"22"))],
            },
            Run {
                status: 1,
                lines: b"failed a: write failed\nsealed b file 1 bytes 2\n",
                journal: b"range 1 0 2 1\n0 issue 0\n0 void 0\n0 issue 1\n0 sealed 1\n",
                left: &[("a.stm", Left::Absent), ("b.stm", Left::Holds(1, b"22"))],
            },
            Run {
                status: 1,
                lines: b"sealed a file 0 bytes 1\nfailed b: cannot open\n",
                journal: b"range 1 0 2 1\n0 issue 0\n0 sealed 0\n",
                left: &[("a.stm", Left::Holds(0, b"1")), ("b.stm", Left::Absent)],
            },
            Run {
                status: 1,
                lines: b"sealed a file 0 bytes 1\nfailed b: cannot create\n",
                journal: b"range 1 0 2 1\n0 issue 0\n0 sealed 0\n",
                left: &[("a.stm", Left::Holds(0, b"1")), ("b.stm", Left::Absent)],
            },
            Run {
                status: 1,
                lines: b"sealed a file 0 bytes 1\nfailed b: write failed\n",
                journal: b"range 1 0 2 1\n0 issue 0\n0 sealed 0\n0 issue 1\n0 void 1\n",
                left: &[("a.stm", Left::Holds(0, b"1")), ("b.stm", Left::Absent)],
            },
            Run {
                status: 0,
                lines: b"sealed a file 0 bytes 1\nsealed b file 1 bytes 2\n",
                journal: b"range 1 0 2 1\n0 issue 0\n0 sealed 0\n0 issue 1\n0 sealed 1\n",
                left: &[
                    ("a.stm", Left::Holds(0, b"1")),
                    ("b.stm", Left::Holds(1, b"22")),
                ],
            },
        ],
    },
    // In a group the outputs are finished after all were created, each before its number is settled.
    Runs {
        what: "a sealing by two lanes",
        folder: &[("a", b"1"), ("b", b"22")],
        files: &["a", "b"],
        work: Work::Seal {
            workers: 1,
            lanes: 2,
        },
        runs: &[
            Run {
                status: 1,
                lines: b"failed a: cannot open\nsealed b file 0 bytes 2\n",
                journal: b"range 1 0 2 2\n0 issue 0\n0 sealed 0\n",
                left: &[("a.stm", Left::Absent), ("b.stm", Left::Holds(0, b"22"))],
            },
            Run {
                status: 1,
                lines: b"failed a: cannot create\nsealed b file 0 bytes 2\n",
                journal: b"range 1 0 2 2\n0 issue 0\n0 sealed 0\n",
                left: &[("a.stm", Left::Absent), ("b.stm", Left::Holds(0, b"22"))],
            },
            Run {
                status: 1,
                lines: b"sealed a file 0 bytes 1\nfailed b: cannot open\n",
                journal: b"range 1 0 2 2\n0 issue 0\n0 sealed 0\n",
                left: &[("a.stm", Left::Holds(0, b"1")), ("b.stm", Left::Absent)],
            },
            Run {
                status: 1,
                lines: b"sealed a file 0 bytes 1\nfailed b: cannot create\n",
                journal: b"range 1 0 2 2\n0 issue 0\n0 sealed 0\n",
                left: &[("a.stm", Left::Holds(0, b"1")), ("b.stm", Left::Absent)],
            },
            Run {
                status: 1,
                lines: b"failed a: write failed\nsealed b file 1 bytes 2\n",
                journal: b"range 1 0 2 2\n0 issue 0\n0 issue 1\n0 void 0\n0 sealed 1\n",
                left: &[("a.stm", Left::Absent), ("b.stm", Left::Holds(1, b"22"))],
            },
            Run {
                status: 1,
                lines: b"sealed a file 0 bytes 1\nfailed b: write failed\n",
                journal: b"range 1 0 2 2\n0 issue 0\n0 issue 1\n0 sealed 0\n0 void 1\n",
                left: &[("a.stm", Left::Holds(0, b"1")), ("b.stm", Left::Absent)],
            },
            Run {
                status: 0,
                lines: b"sealed a file 0 bytes 1\nsealed b file 1 bytes 2\n",
                journal: b"range 1 0 2 2\n0 issue 0\n0 issue 1\n0 sealed 0\n0 sealed 1\n",
                left: &[
                    ("a.stm", Left::Holds(0, b"1")),
                    ("b.stm", Left::Holds(1, b"22")),
                ],
            },
        ],
    },
    // The calls are: open `a.stm`, read it again, create `a`, finish it, and the same for `b.stm`.
    Runs {
        what: "an opening",
        folder: &[("a.stm", &SECRET), ("b.stm", &EMPTY)],
        files: &["a.stm", "b.stm"],
        work: Work::Open,
        runs: &[
            Run {
                status: 1,
                lines: b"failed a.stm: cannot open\nopened b.stm bytes 0\n",
                journal: b"",
                left: &[("a", Left::Absent), ("b", Left::Is(b""))],
            },
            Run {
                status: 1,
                lines: b"failed a.stm: read failed\nopened b.stm bytes 0\n",
                journal: b"",
                left: &[("a", Left::Absent), ("b", Left::Is(b""))],
            },
            Run {
                status: 1,
                lines: b"failed a.stm: cannot create\nopened b.stm bytes 0\n",
                journal: b"",
                left: &[("a", Left::Absent), ("b", Left::Is(b""))],
            },
            Run {
                status: 1,
                lines: b"failed a.stm: write failed\nopened b.stm bytes 0\n",
                journal: b"",
                left: &[("a", Left::Absent), ("b", Left::Is(b""))],
            },
            Run {
                status: 1,
                lines: b"opened a.stm bytes 8\nfailed b.stm: cannot open\n",
                journal: b"",
                left: &[("a", Left::Is(b"a secret")), ("b", Left::Absent)],
            },
            Run {
                status: 1,
                lines: b"opened a.stm bytes 8\nfailed b.stm: read failed\n",
                journal: b"",
                left: &[("a", Left::Is(b"a secret")), ("b", Left::Absent)],
            },
            Run {
                status: 1,
                lines: b"opened a.stm bytes 8\nfailed b.stm: cannot create\n",
                journal: b"",
                left: &[("a", Left::Is(b"a secret")), ("b", Left::Absent)],
            },
            Run {
                status: 1,
                lines: b"opened a.stm bytes 8\nfailed b.stm: write failed\n",
                journal: b"",
                left: &[("a", Left::Is(b"a secret")), ("b", Left::Absent)],
            },
            Run {
                status: 0,
                lines: b"opened a.stm bytes 8\nopened b.stm bytes 0\n",
                journal: b"",
                left: &[("a", Left::Is(b"a secret")), ("b", Left::Is(b""))],
            },
        ],
    },
];

// The case of a run in which the call with this number fails.
fn case_of(runs: &Runs, number: u64, run: &Run) -> Case<'static> {
    Case {
        folder: runs.folder,
        trouble: Trouble::Call(number),
        work: runs.work,
        files: runs.files,
        max_bytes: 8,
        status: run.status,
        lines: run.lines,
        faults: b"",
        journal: run.journal,
        left: run.left,
    }
}

#[test]
fn each_call_of_a_folder_that_fails_has_its_line_and_keeps_no_other_file_from_its_own(
    rt: HostRuntime,
) {
    for runs in &RUNS {
        let mut number = 0;
        for run in runs.runs {
            let what = runs.what;
            assert!(rt;
                ends(&rt, &case_of(runs, number, run)),
                "{what}, call {number}"
            );
            number = u64::saturating_add(number, 1);
        }
    }
}
