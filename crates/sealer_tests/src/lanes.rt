//! `seal_all` with several lanes, over folders and ledger files in memory. Lines and journals are written by hand.
//! `open` reads the containers; its definition is tested elsewhere against Python's `cryptography`.
use crate::cases::{Case, Left, Trouble, Work, ends};
use crate::runs::{
    BEGUN, DUMPED_0, DUMPED_1, EMPTY, MemoryOuts, folder_of, holds, is_legal, journal_of,
    ledger_after, seal_over, steady_outs,
};
use folder_memory::{MemoryFolder, Pace};
use io_memory::Schedule;
use std::alloc::Global;
use std::sync::Wait;
use std::thread::Threads;

// Groups of files so short that one lane seals all of them, under numbers in order. What a row shows, and its case.
static CASES: [(&str, Case); 10] = [
    (
        "files that fail in a group spend no number",
        Case {
            folder: &[("a", b"1"), ("long", b"333"), ("c", b"22")],
            trouble: Trouble::Nothing,
            work: Work::Seal {
                workers: 1,
                lanes: 3,
            },
            files: &["m", "long", "a", "a", "c", "long"],
            max_bytes: 2,
            status: 1,
            lines: b"failed m: cannot open\nfailed long: too long\nsealed a file 0 bytes 1\n\
              failed a: output exists\nsealed c file 1 bytes 2\nfailed long: too long\n",
            faults: b"",
            journal: b"range 1 0 6 3\n0 issue 0\n0 sealed 0\n0 issue 1\n0 sealed 1\n",
            left: &[
                ("a.stm", Left::Holds(0, b"1")),
                ("c.stm", Left::Holds(1, b"22")),
                ("long.stm", Left::Absent),
                ("m.stm", Left::Absent),
            ],
        },
    ),
    (
        "a file whose length isn't known is too long once it is read, and has nothing of a longer one before",
        Case {
            folder: &[("long", b"333"), ("c", b"22"), ("d", b"44"), ("e", b"5")],
            trouble: Trouble::NoLengths,
            work: Work::Seal {
                workers: 1,
                lanes: 3,
            },
            files: &["long", "c", "d", "e"],
            max_bytes: 2,
            status: 1,
            lines: b"failed long: too long\nsealed c file 0 bytes 2\nsealed d file 1 bytes 2\n\
              sealed e file 2 bytes 1\n",
            faults: b"",
            journal: b"range 1 0 4 3\n0 issue 0\n0 issue 1\n0 sealed 0\n0 sealed 1\n0 issue 2\n\
              0 sealed 2\n",
            left: &[
                ("long.stm", Left::Absent),
                ("c.stm", Left::Holds(0, b"22")),
                ("d.stm", Left::Holds(1, b"44")),
                ("e.stm", Left::Holds(2, b"5")),
            ],
        },
    ),
    (
        // Each reader's first call fails.
        "of a file in a group that is too long nothing is read",
        Case {
            folder: &[("long", b"333"), ("c", b"22")],
            trouble: Trouble::Readers(Pace {
                most: 3,
                schedule: Schedule::Call(0),
            }),
            work: Work::Seal {
                workers: 1,
                lanes: 3,
            },
            files: &["long", "c"],
            max_bytes: 2,
            status: 1,
            lines: b"failed long: too long\nfailed c: read failed\n",
            faults: b"",
            journal: b"range 1 0 2 3\n",
            left: &[("long.stm", Left::Absent), ("c.stm", Left::Absent)],
        },
    ),
    (
        "an input that fails spends no number",
        Case {
            folder: &[("u", b"1234567"), ("v", b"12")],
            trouble: Trouble::Readers(Pace {
                most: 3,
                schedule: Schedule::Bytes(6),
            }),
            work: Work::Seal {
                workers: 1,
                lanes: 2,
            },
            files: &["u", "v"],
            max_bytes: 8,
            status: 1,
            lines: b"failed u: read failed\nsealed v file 0 bytes 2\n",
            faults: b"",
            journal: b"range 1 0 2 2\n0 issue 0\n0 sealed 0\n",
            left: &[("u.stm", Left::Absent), ("v.stm", Left::Holds(0, b"12"))],
        },
    ),
    (
        "an output that fails is removed, and its number is void",
        Case {
            folder: &[("a", b"x")],
            trouble: Trouble::Writers(Pace {
                most: 3,
                schedule: Schedule::Bytes(10),
            }),
            work: Work::Seal {
                workers: 1,
                lanes: 2,
            },
            files: &["a"],
            max_bytes: 1 << 30,
            status: 1,
            lines: b"failed a: write failed\n",
            faults: b"",
            journal: b"range 1 0 1 2\n0 issue 0\n0 void 0\n",
            left: &[("a.stm", Left::Absent)],
        },
    ),
    (
        // The third call would remove the output.
        "the line is the same where it can't be removed",
        Case {
            folder: &[("a", b"x")],
            trouble: Trouble::WritersAndCall(
                Pace {
                    most: 3,
                    schedule: Schedule::Bytes(10),
                },
                2,
            ),
            work: Work::Seal {
                workers: 1,
                lanes: 2,
            },
            files: &["a"],
            max_bytes: 8,
            status: 1,
            lines: b"failed a: write failed\n",
            faults: b"",
            journal: b"range 1 0 1 2\n0 issue 0\n0 void 0\n",
            left: &[("a.stm", Left::Is(&BEGUN))],
        },
    ),
    (
        // The container of one byte has 41 bytes.
        "of a group each file fails or is sealed by its own outcome",
        Case {
            folder: &[("a", b"22"), ("b", b"1"), ("c", b"333")],
            trouble: Trouble::Writers(Pace {
                most: 64,
                schedule: Schedule::Bytes(41),
            }),
            work: Work::Seal {
                workers: 1,
                lanes: 3,
            },
            files: &["a", "b", "c"],
            max_bytes: 8,
            status: 1,
            lines: b"failed a: write failed\nsealed b file 1 bytes 1\nfailed c: write failed\n",
            faults: b"",
            journal: b"range 1 0 3 3\n0 issue 0\n0 issue 1\n0 issue 2\n\
              0 void 0\n0 sealed 1\n0 void 2\n",
            left: &[
                ("a.stm", Left::Absent),
                ("b.stm", Left::Holds(1, b"1")),
                ("c.stm", Left::Absent),
            ],
        },
    ),
    (
        "a name given twice has one output",
        Case {
            folder: &[("e", b"")],
            trouble: Trouble::Nothing,
            work: Work::Seal {
                workers: 1,
                lanes: 16,
            },
            files: &["e", "e"],
            max_bytes: 8,
            status: 1,
            lines: b"sealed e file 0 bytes 0\nfailed e: output exists\n",
            faults: b"",
            journal: b"range 1 0 2 16\n0 issue 0\n0 sealed 0\n",
            left: &[("e.stm", Left::Is(&EMPTY))],
        },
    ),
    (
        "behind a line that fails the groups are worked",
        Case {
            folder: &[
                ("a", b""),
                ("b", b"1"),
                ("c", b"22"),
                ("d", b"333"),
                ("e", b"4444"),
            ],
            trouble: Trouble::Lines(Schedule::Call(0)),
            work: Work::Seal {
                workers: 1,
                lanes: 4,
            },
            files: &["a", "b", "c", "d", "e"],
            max_bytes: 8,
            status: 2,
            lines: b"",
            faults: b"",
            journal: b"range 1 0 5 4\n0 issue 0\n0 issue 1\n0 issue 2\n0 issue 3\n\
              0 sealed 0\n0 sealed 1\n0 sealed 2\n0 sealed 3\n0 issue 4\n0 sealed 4\n",
            left: &[
                ("a.stm", Left::Is(&EMPTY)),
                ("b.stm", Left::Holds(1, b"1")),
                ("c.stm", Left::Holds(2, b"22")),
                ("d.stm", Left::Holds(3, b"333")),
                ("e.stm", Left::Holds(4, b"4444")),
            ],
        },
    ),
    (
        "in version 2 too",
        Case {
            folder: &[("s", b"a secret"), ("t", b"a secret")],
            trouble: Trouble::Nothing,
            work: Work::SealLabelled {
                lanes: 2,
                label: b"db-dump",
            },
            files: &["s", "t"],
            max_bytes: 8,
            status: 0,
            lines: b"sealed s file 0 bytes 8\nsealed t file 1 bytes 8\n",
            faults: b"",
            journal: b"range 1 0 2 2\n0 issue 0\n0 issue 1\n0 sealed 0\n0 sealed 1\n",
            left: &[
                ("s.stm", Left::Is(&DUMPED_0)),
                ("t.stm", Left::Is(&DUMPED_1)),
            ],
        },
    ),
];

#[test]
fn each_file_of_a_group_has_its_line_its_number_and_its_output(rt: HostRuntime) {
    for (what, case) in &CASES {
        assert!(rt; ends(&rt, case), "{what}");
    }
}

// ---- two lanes

// Two texts of a group, long enough for each to be worth a lane.
static ONES: [u8; 300_000] = [1; 300_000];

static TWOS: [u8; 300_000] = [2; 300_000];

// The numbers of the first two files, if the lines of the three are in order.
fn first_two(lines: &[u8]) -> Option<(u8, u8)> {
    let in_order =
        b"sealed a file 0 bytes 300000\nsealed b file 1 bytes 300000\nsealed c file 2 bytes 3\n";
    let swapped =
        b"sealed a file 1 bytes 300000\nsealed b file 0 bytes 300000\nsealed c file 2 bytes 3\n";
    if lines == in_order.as_slice() {
        Some((0, 1))
    } else if lines == swapped.as_slice() {
        Some((1, 0))
    } else {
        None
    }
}

// Whether three files were sealed, each under its own number, whichever lane drew which.
fn has_three(alloc: Global, folder: &MemoryFolder, out: &MemoryOuts) -> bool {
    let Some((first, second)) = first_two(out.lines.bytes()) else {
        return false;
    };
    out.faults.bytes().is_empty()
        && is_journal_of_three(alloc, journal_of(out))
        && holds(alloc, folder, "a.stm", first, &ONES)
        && holds(alloc, folder, "b.stm", second, &TWOS)
        && holds(alloc, folder, "c.stm", 2, b"333")
}

fn is_journal_of_three(alloc: Global, journal: &[u8]) -> bool {
    let line = b"legal: 3 granted, 3 sealed, 0 void, 0 open, 0 refused\n";
    journal.starts_with(b"range 1 0 3 2\n") && is_legal(alloc, journal, line)
}

// The status of a run over the three files with two lanes and its own ledger file.
fn status_of_three<R: AllocGlobal + Threads + Wait + Sync>(
    rt: &R,
    folder: &mut MemoryFolder,
    out: &mut MemoryOuts,
) -> Option<u8> {
    let mut file = ledger_after(rt.alloc(), "")?;
    let files = ["a", "b", "c"];
    seal_over(rt, &mut file, folder, &files, out, 1 << 30, 1, 2)
}

fn seals_three<R: AllocGlobal + Threads + Wait + Sync>(rt: &R) -> Option<bool> {
    let mut folder = folder_of(rt.alloc(), &[("a", &ONES), ("b", &TWOS), ("c", b"333")])?;
    let mut out = steady_outs(rt.alloc())?;
    let status = status_of_three(rt, &mut folder, &mut out);
    Some(status == Some(0) && has_three(rt.alloc(), &folder, &out))
}

#[test]
fn files_worth_a_lane_each_are_sealed_under_numbers_of_their_own_and_a_third_follows(
    rt: HostRuntime,
) {
    assert!(rt; seals_three(&rt) == Some(true));
}
