//! `seal_all` with one lane, over folders and ledger files in memory. Containers are from Python's `cryptography`, with
//! the key 00 01 .. 1f and device 1. Lines and journals are written by hand.
use crate::cases::{Case, Left, Trouble, Work, ends, ends_over};
use crate::runs::{BEGUN, DUMPED_0, DUMPED_1, EMPTY, SECRET, folder_of, ledger_after};
use folder_memory::Pace;
use io_memory::Schedule;
use std::sync::Wait;
use std::thread::Threads;
use std::time::Clock;

// What a row shows, and its case.
static CASES: [(&str, Case); 11] = [
    (
        "files are sealed under numbers in their order",
        Case {
            folder: &[("s", b"a secret"), ("t", b"a secret")],
            trouble: Trouble::Nothing,
            work: Work::Seal {
                workers: 16,
                lanes: 1,
            },
            files: &["s", "t"],
            max_bytes: 8,
            status: 0,
            lines: b"sealed s file 0 bytes 8\nsealed t file 1 bytes 8\n",
            faults: b"",
            journal: b"range 1 0 2 1\n0 issue 0\n0 sealed 0\n0 issue 1\n0 sealed 1\n",
            left: &[
                ("s.stm", Left::Is(&SECRET)),
                ("t.stm", Left::Holds(1, b"a secret")),
            ],
        },
    ),
    (
        "in version 2 too",
        Case {
            folder: &[("s", b"a secret"), ("t", b"a secret")],
            trouble: Trouble::Nothing,
            work: Work::SealLabelled {
                lanes: 1,
                label: b"db-dump",
            },
            files: &["s", "t"],
            max_bytes: 8,
            status: 0,
            lines: b"sealed s file 0 bytes 8\nsealed t file 1 bytes 8\n",
            faults: b"",
            journal: b"range 1 0 2 1\n0 issue 0\n0 sealed 0\n0 issue 1\n0 sealed 1\n",
            left: &[
                ("s.stm", Left::Is(&DUMPED_0)),
                ("t.stm", Left::Is(&DUMPED_1)),
            ],
        },
    ),
    (
        "an output that fails is removed, and its number is void",
        Case {
            folder: &[("a", b"x")],
            trouble: Trouble::Writers(Pace {
                most: 3,
                schedule: Schedule::Bytes(10),
            }),
            work: Work::Seal {
                workers: 1,
                lanes: 1,
            },
            files: &["a"],
            max_bytes: 1 << 30,
            status: 1,
            lines: b"failed a: write failed\n",
            faults: b"",
            journal: b"range 1 0 1 1\n0 issue 0\n0 void 0\n",
            left: &[("a.stm", Left::Absent)],
        },
    ),
    (
        // The calls are to open the input, create the output and remove it.
        "the line is the same where it can't be removed",
        Case {
            folder: &[("a", b"x")],
            trouble: Trouble::WritersAndCall(
                Pace {
                    most: 3,
                    schedule: Schedule::Bytes(10),
                },
                2,
            ),
            work: Work::Seal {
                workers: 1,
                lanes: 1,
            },
            files: &["a"],
            max_bytes: 1 << 30,
            status: 1,
            lines: b"failed a: write failed\n",
            faults: b"",
            journal: b"range 1 0 1 1\n0 issue 0\n0 void 0\n",
            left: &[("a.stm", Left::Is(&BEGUN))],
        },
    ),
    (
        "files that fail keep no other from being sealed",
        Case {
            folder: &[("long", b"123456789"), ("fits", b"a secret")],
            trouble: Trouble::Nothing,
            work: Work::Seal {
                workers: 2,
                lanes: 1,
            },
            files: &["long", "fits"],
            max_bytes: 8,
            status: 1,
            lines: b"failed long: too long\nsealed fits file 0 bytes 8\n",
            faults: b"",
            journal: b"range 1 0 2 1\n0 issue 0\n0 sealed 0\n",
            left: &[
                ("long.stm", Left::Absent),
                ("fits.stm", Left::Holds(0, b"a secret")),
            ],
        },
    ),
    (
        "a file whose length isn't known is too long only once it is read, and its number is void",
        Case {
            folder: &[("long", b"123456789"), ("fits", b"a secret")],
            trouble: Trouble::NoLengths,
            work: Work::Seal {
                workers: 2,
                lanes: 1,
            },
            files: &["long", "fits"],
            max_bytes: 8,
            status: 1,
            lines: b"failed long: too long\nsealed fits file 1 bytes 8\n",
            faults: b"",
            journal: b"range 1 0 2 1\n0 issue 0\n0 void 0\n0 issue 1\n0 sealed 1\n",
            left: &[
                ("long.stm", Left::Absent),
                ("fits.stm", Left::Holds(1, b"a secret")),
            ],
        },
    ),
    (
        // Each reader's first call fails.
        "of a file that is too long nothing is read",
        Case {
            folder: &[("long", b"123456789"), ("fits", b"a secret")],
            trouble: Trouble::Readers(Pace {
                most: 3,
                schedule: Schedule::Call(0),
            }),
            work: Work::Seal {
                workers: 1,
                lanes: 1,
            },
            files: &["long", "fits"],
            max_bytes: 8,
            status: 1,
            lines: b"failed long: too long\nfailed fits: read failed\n",
            faults: b"",
            journal: b"range 1 0 2 1\n0 issue 0\n0 void 0\n",
            left: &[("long.stm", Left::Absent), ("fits.stm", Left::Absent)],
        },
    ),
    (
        "that an output exists comes before that its file is too long",
        Case {
            folder: &[("long", b"123456789"), ("long.stm", b"kept")],
            trouble: Trouble::Nothing,
            work: Work::Seal {
                workers: 1,
                lanes: 1,
            },
            files: &["long"],
            max_bytes: 8,
            status: 1,
            lines: b"failed long: output exists\n",
            faults: b"",
            journal: b"range 1 0 1 1\n",
            left: &[("long.stm", Left::Is(b"kept"))],
        },
    ),
    (
        "an input that fails is told, and its number is void",
        Case {
            folder: &[("u", b"1234567")],
            trouble: Trouble::Readers(Pace {
                most: 3,
                schedule: Schedule::Bytes(6),
            }),
            work: Work::Seal {
                workers: 1,
                lanes: 1,
            },
            files: &["u"],
            max_bytes: 8,
            status: 1,
            lines: b"failed u: read failed\n",
            faults: b"",
            journal: b"range 1 0 1 1\n0 issue 0\n0 void 0\n",
            left: &[("u.stm", Left::Absent)],
        },
    ),
    (
        // The second line's write fails, and a third would succeed.
        "behind a line that fails files and journal are worked",
        Case {
            folder: &[("a", b""), ("b", b""), ("c", b"")],
            trouble: Trouble::Lines(Schedule::Call(1)),
            work: Work::Seal {
                workers: 1,
                lanes: 1,
            },
            files: &["a", "b", "c"],
            max_bytes: 8,
            status: 2,
            lines: b"sealed a file 0 bytes 0\n",
            faults: b"",
            journal: b"range 1 0 3 1\n0 issue 0\n0 sealed 0\n0 issue 1\n0 sealed 1\n\
              0 issue 2\n0 sealed 2\n",
            left: &[
                ("a.stm", Left::Is(&EMPTY)),
                ("b.stm", Left::Holds(1, b"")),
                ("c.stm", Left::Holds(2, b"")),
            ],
        },
    ),
    (
        "a journal that fails is status 2, and the lines stand",
        Case {
            folder: &[("a", b"")],
            trouble: Trouble::Journal(Schedule::Bytes(9)),
            work: Work::Seal {
                workers: 1,
                lanes: 1,
            },
            files: &["a"],
            max_bytes: 8,
            status: 2,
            lines: b"sealed a file 0 bytes 0\n",
            faults: b"journal: write failed\n",
            journal: b"range 1 0",
            left: &[("a.stm", Left::Is(&EMPTY))],
        },
    ),
];

#[test]
fn each_file_that_one_lane_seals_has_its_line_its_number_and_its_output(rt: HostRuntime) {
    for (what, case) in &CASES {
        assert!(rt; ends(&rt, case), "{what}");
    }
}

// ---- two runs over one ledger file

// The tables of a ledger file, and rows that leave device 1 one number under the key 00 01 .. 1f. The key is named by
// its SHA-256.
const NEARLY_SPENT: &str = "CREATE TABLE mark (key_id BLOB NOT NULL, device INTEGER NOT NULL,
      next INTEGER NOT NULL, PRIMARY KEY (key_id, device),
      CHECK (next >= 0 AND next <= 4294967296));
    CREATE TABLE taken (key_id BLOB NOT NULL, device INTEGER NOT NULL,
      lo INTEGER NOT NULL, size INTEGER NOT NULL,
      PRIMARY KEY (key_id, device, lo),
      CHECK (lo >= 0 AND size >= 1 AND lo + size <= 4294967296));
    INSERT INTO mark VALUES (x'630dcd2966c4336691125448bbb25b4ff412a49c732db2c8abc1b8581bd710dd', 1, 4294967295);
    INSERT INTO taken VALUES (x'630dcd2966c4336691125448bbb25b4ff412a49c732db2c8abc1b8581bd710dd', 1, 0, 4294967295)";

// What a row shows, the statements that make the ledger file, the first run, and the second.
static PAIRS: [(&str, &str, Case, Case); 2] = [
    (
        "where too few numbers are left no file is touched",
        NEARLY_SPENT,
        Case {
            folder: &[("a", b"")],
            trouble: Trouble::Nothing,
            work: Work::Seal {
                workers: 1,
                lanes: 1,
            },
            files: &["a", "a"],
            max_bytes: 8,
            status: 2,
            lines: b"",
            faults: b"ledger: 1 numbers left\n",
            journal: b"",
            left: &[("a.stm", Left::Absent)],
        },
        Case {
            folder: &[],
            trouble: Trouble::Nothing,
            work: Work::Seal {
                workers: 1,
                lanes: 1,
            },
            files: &["a"],
            max_bytes: 8,
            status: 0,
            lines: b"sealed a file 4294967295 bytes 0\n",
            faults: b"",
            journal: b"range 1 4294967295 1 1\n0 issue 4294967295\n0 sealed 4294967295\n",
            left: &[],
        },
    ),
    (
        "a ledger file that was folded reserves no more",
        "",
        Case {
            folder: &[("a", b""), ("b", b"")],
            trouble: Trouble::Nothing,
            work: Work::Seal {
                workers: 1,
                lanes: 1,
            },
            files: &["a"],
            max_bytes: 8,
            status: 0,
            lines: b"sealed a file 0 bytes 0\n",
            faults: b"",
            journal: b"range 1 0 1 1\n0 issue 0\n0 sealed 0\n",
            left: &[],
        },
        Case {
            folder: &[],
            trouble: Trouble::Nothing,
            work: Work::Seal {
                workers: 1,
                lanes: 1,
            },
            files: &["b"],
            max_bytes: 8,
            status: 2,
            lines: b"",
            faults: b"ledger: store failed\n",
            journal: b"",
            left: &[("b.stm", Left::Absent)],
        },
    ),
];

// Whether two runs in a row over a ledger file after these statements end as expected, in the folder of the first.
fn both_end<R: AllocGlobal + Threads + Clock + Wait + Sync>(
    rt: &R,
    sql: &str,
    first: &Case,
    second: &Case,
) -> Option<bool> {
    let mut folder = folder_of(rt.alloc(), first.folder)?;
    let mut file = ledger_after(rt.alloc(), sql)?;
    Some(
        ends_over(rt, &mut file, &mut folder, first)
            && ends_over(rt, &mut file, &mut folder, second),
    )
}

#[test]
fn a_second_run_has_the_numbers_and_the_ledger_file_that_the_first_left(rt: HostRuntime) {
    for (what, sql, first, second) in &PAIRS {
        assert!(rt; both_end(&rt, sql, first, second) == Some(true), "{what}");
    }
}
