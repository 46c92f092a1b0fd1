//! What happened in a folder while `open_all`, `verify_all` and `seal_all` processed its files: what was read, created,
//! finished and discarded, by name and with all its bytes, and what was refused. The short containers are from Python's
//! `cryptography`.
use crate::cases::{Case, Left, Trouble, Work, ends_in};
use crate::runs::{BARE, CUT, EMPTY, LABELLED, SECRET, folder_of};
use folder_memory::{MemoryFolder, Pace, Told, What};
use io_memory::Schedule;
use sealer_core::FolderFault;
use std::sync::Wait;
use std::thread::Threads;
use std::time::Clock;

/// An expected event.
#[derive(Clone, Copy)]
pub(crate) enum Seen<'a> {
    Reading(&'a str, &'a [u8]),
    Unread(&'a str),
    Rewound(&'a str, bool),
    Closed(&'a str, bool),
    Created(&'a str),
    Refused(&'a str, FolderFault),
    Finished(&'a str, &'a [u8]),
    Discarded(&'a str, &'a [u8]),
}

fn is_seen(told: &Told, seen: Seen) -> bool {
    let (what, name, bytes): (What, &str, &[u8]) = match seen {
        Seen::Reading(name, bytes) => (What::Reading, name, bytes),
        Seen::Unread(name) => (What::Unread, name, &[]),
        Seen::Rewound(name, failed) => (What::Rewound(failed), name, &[]),
        Seen::Closed(name, failed) => (What::Closed(failed), name, &[]),
        Seen::Created(name) => (What::Created, name, &[]),
        Seen::Refused(name, fault) => (What::Refused(fault), name, &[]),
        Seen::Finished(name, bytes) => (What::Finished, name, bytes),
        Seen::Discarded(name, bytes) => (What::Discarded, name, bytes),
    };
    told.what == what && told.name.as_str() == name && told.bytes.as_slice() == bytes
}

/// Whether exactly this happened in the folder, in this order.
pub(crate) fn tells(folder: &MemoryFolder, seen: &[Seen]) -> bool {
    let Some(told) = folder.told() else {
        return false;
    };
    if told.len() != seen.len() {
        return false;
    }
    for at in 0..seen.len() {
        if !is_seen(&told[at], seen[at]) {
            return false;
        }
    }
    true
}

// Whether the run over the case's folder ends as the case says, and exactly this happened there.
fn goes<R: AllocGlobal + Threads + Clock + Wait + Sync>(
    rt: &R,
    case: &Case,
    seen: &[Seen],
) -> bool {
    match folder_of(rt.alloc(), case.folder) {
        Some(mut folder) => ends_in(rt, &mut folder, case) && tells(&folder, seen),
        None => false,
    }
}

// What a row shows, its case, and what happens.
static OPENED: [(&str, Case, &[Seen]); 9] = [
    (
        "what is opened is read twice, then its output is created, and finished once",
        Case {
            folder: &[
                ("a.stm", &SECRET),
                ("b.txt", &SECRET),
                ("c.stm", &EMPTY),
                ("c", b"kept"),
                ("d.stm", &CUT),
                ("e.stm", &EMPTY),
            ],
            trouble: Trouble::Nothing,
            work: Work::Open,
            files: &["a.stm", "b.txt", "m.stm", "c.stm", "d.stm", "e.stm"],
            max_bytes: 8,
            status: 1,
            lines: b"opened a.stm bytes 8\n\
              failed b.txt: name does not end in .stm\n\
              failed m.stm: cannot open\n\
              failed c.stm: output exists\n\
              failed d.stm: chunk 0 does not check\n\
              opened e.stm bytes 0\n",
            faults: b"",
            journal: b"",
            left: &[("a", Left::Is(b"a secret")), ("d", Left::Absent)],
        },
        &[
            Seen::Reading("a.stm", &SECRET),
            Seen::Rewound("a.stm", false),
            Seen::Reading("a.stm", &SECRET),
            Seen::Created("a"),
            Seen::Finished("a", b"a secret"),
            Seen::Closed("a.stm", false),
            Seen::Unread("m.stm"),
            Seen::Reading("c.stm", &EMPTY),
            Seen::Rewound("c.stm", false),
            Seen::Reading("c.stm", &EMPTY),
            Seen::Refused("c", FolderFault::Exists),
            Seen::Closed("c.stm", false),
            Seen::Reading("d.stm", &CUT),
            Seen::Closed("d.stm", false),
            Seen::Reading("e.stm", &EMPTY),
            Seen::Rewound("e.stm", false),
            Seen::Reading("e.stm", &EMPTY),
            Seen::Created("e"),
            Seen::Finished("e", b""),
            Seen::Closed("e.stm", false),
        ],
    ),
    (
        "an output that was not written whole is given up",
        Case {
            folder: &[("a.stm", &SECRET), ("b.stm", &EMPTY)],
            trouble: Trouble::Writers(Pace {
                most: 3,
                schedule: Schedule::Bytes(5),
            }),
            work: Work::Open,
            files: &["a.stm", "b.stm"],
            max_bytes: 8,
            status: 1,
            lines: b"failed a.stm: write failed\nopened b.stm bytes 0\n",
            faults: b"",
            journal: b"",
            left: &[
                ("a", Left::Absent),
                ("b", Left::Is(b"")),
                ("a.stm", Left::Is(&SECRET)),
            ],
        },
        &[
            Seen::Reading("a.stm", &SECRET),
            Seen::Rewound("a.stm", false),
            Seen::Reading("a.stm", &SECRET),
            Seen::Created("a"),
            Seen::Discarded("a", b"a sec"),
            Seen::Closed("a.stm", false),
            Seen::Reading("b.stm", &EMPTY),
            Seen::Rewound("b.stm", false),
            Seen::Reading("b.stm", &EMPTY),
            Seen::Created("b"),
            Seen::Finished("b", b""),
            Seen::Closed("b.stm", false),
        ],
    ),
    (
        // The calls are to open the input, read it again, create the output and finish it.
        "an output that could not be finished is given up",
        Case {
            folder: &[("a.stm", &SECRET)],
            trouble: Trouble::Call(3),
            work: Work::Open,
            files: &["a.stm"],
            max_bytes: 8,
            status: 1,
            lines: b"failed a.stm: write failed\n",
            faults: b"",
            journal: b"",
            left: &[("a", Left::Absent)],
        },
        &[
            Seen::Reading("a.stm", &SECRET),
            Seen::Rewound("a.stm", false),
            Seen::Reading("a.stm", &SECRET),
            Seen::Created("a"),
            Seen::Discarded("a", b"a secret"),
            Seen::Closed("a.stm", false),
        ],
    ),
    (
        // The calls are to open the input, read it again and create the output.
        "an output that could not be created is refused",
        Case {
            folder: &[("a.stm", &SECRET)],
            trouble: Trouble::Call(2),
            work: Work::Open,
            files: &["a.stm"],
            max_bytes: 8,
            status: 1,
            lines: b"failed a.stm: cannot create\n",
            faults: b"",
            journal: b"",
            left: &[("a", Left::Absent)],
        },
        &[
            Seen::Reading("a.stm", &SECRET),
            Seen::Rewound("a.stm", false),
            Seen::Reading("a.stm", &SECRET),
            Seen::Refused("a", FolderFault::Failed),
            Seen::Closed("a.stm", false),
        ],
    ),
    (
        "of a file whose reading fails nothing is created",
        Case {
            folder: &[("a.stm", &SECRET)],
            trouble: Trouble::Readers(Pace {
                most: 3,
                schedule: Schedule::Bytes(30),
            }),
            work: Work::Open,
            files: &["a.stm"],
            max_bytes: 8,
            status: 1,
            lines: b"failed a.stm: read failed\n",
            faults: b"",
            journal: b"",
            left: &[("a", Left::Absent)],
        },
        &[Seen::Reading("a.stm", &SECRET), Seen::Closed("a.stm", true)],
    ),
    (
        // The calls are to open the input and read it again.
        "of a file that could not be read again nothing is created",
        Case {
            folder: &[("a.stm", &SECRET)],
            trouble: Trouble::Call(1),
            work: Work::Open,
            files: &["a.stm"],
            max_bytes: 8,
            status: 1,
            lines: b"failed a.stm: read failed\n",
            faults: b"",
            journal: b"",
            left: &[("a", Left::Absent)],
        },
        &[
            Seen::Reading("a.stm", &SECRET),
            Seen::Rewound("a.stm", true),
            Seen::Closed("a.stm", true),
        ],
    ),
    (
        // The second reading fails in the header.
        "an output whose second reading fails is given up",
        Case {
            folder: &[("a.stm", &SECRET)],
            trouble: Trouble::Readers(Pace {
                most: 3,
                schedule: Schedule::Bytes(60),
            }),
            work: Work::Open,
            files: &["a.stm"],
            max_bytes: 8,
            status: 1,
            lines: b"failed a.stm: read failed\n",
            faults: b"",
            journal: b"",
            left: &[("a", Left::Absent)],
        },
        &[
            Seen::Reading("a.stm", &SECRET),
            Seen::Rewound("a.stm", false),
            Seen::Reading("a.stm", &SECRET),
            Seen::Created("a"),
            Seen::Discarded("a", b""),
            Seen::Closed("a.stm", true),
        ],
    ),
    (
        "the output that is given is created, and no other",
        Case {
            folder: &[("a.stm", &SECRET), ("b.txt", &SECRET)],
            trouble: Trouble::Nothing,
            work: Work::OpenTo("other"),
            files: &["a.stm", "b.txt"],
            max_bytes: 8,
            status: 1,
            lines: b"opened a.stm bytes 8\nfailed b.txt: output exists\n",
            faults: b"",
            journal: b"",
            left: &[("a", Left::Absent), ("other", Left::Is(b"a secret"))],
        },
        &[
            Seen::Reading("a.stm", &SECRET),
            Seen::Rewound("a.stm", false),
            Seen::Reading("a.stm", &SECRET),
            Seen::Created("other"),
            Seen::Finished("other", b"a secret"),
            Seen::Closed("a.stm", false),
            Seen::Reading("b.txt", &SECRET),
            Seen::Rewound("b.txt", false),
            Seen::Reading("b.txt", &SECRET),
            Seen::Refused("other", FolderFault::Exists),
            Seen::Closed("b.txt", false),
        ],
    ),
    (
        "what is verified is read once, and nothing else happens",
        Case {
            folder: &[
                ("a.stm", &LABELLED),
                ("b.stm", &SECRET),
                ("c.stm", &CUT),
                ("d", &LABELLED),
                ("e.stm", &BARE),
            ],
            trouble: Trouble::Nothing,
            work: Work::VerifyLabelled(b"db dump"),
            files: &["a.stm", "b.stm", "m.stm", "c.stm", "d", "e.stm"],
            max_bytes: 8,
            status: 1,
            lines: b"good a.stm bytes 8\n\
              failed b.stm: another label\n\
              failed m.stm: cannot open\n\
              failed c.stm: chunk 0 does not check\n\
              good d bytes 8\n\
              failed e.stm: another label\n",
            faults: b"",
            journal: b"",
            left: &[],
        },
        &[
            Seen::Reading("a.stm", &LABELLED),
            Seen::Closed("a.stm", false),
            Seen::Reading("b.stm", &SECRET),
            Seen::Closed("b.stm", false),
            Seen::Unread("m.stm"),
            Seen::Reading("c.stm", &CUT),
            Seen::Closed("c.stm", false),
            Seen::Reading("d", &LABELLED),
            Seen::Closed("d", false),
            Seen::Reading("e.stm", &BARE),
            Seen::Closed("e.stm", false),
        ],
    ),
];

#[test]
fn an_opening_and_a_verifying_do_this_in_the_folder_and_nothing_else(rt: HostRuntime) {
    for (what, case, seen) in &OPENED {
        assert!(rt; goes(&rt, case, seen), "{what}");
    }
}

// Of the empty plaintext, under number 1.
pub(crate) const NONE_UNDER_1: [u8; 40] = [
    0x53, 0x54, 0x52, 0x4d, 0x53, 0x45, 0x41, 0x4c, 0x01, 0x10, 0x00, 0x00, 0x01, 0x00, 0x00, 0x00,
    0x01, 0x63, 0x0d, 0xcd, 0x29, 0x66, 0xc4, 0x33, 0x16, 0x4f, 0xe9, 0x88, 0xc6, 0x2c, 0x60, 0x17,
    0x4c, 0xce, 0x1f, 0xb8, 0xf1, 0x40, 0x26, 0x1f,
];

// Of `more`, under number 2.
pub(crate) const MORE_UNDER_2: [u8; 44] = [
    0x53, 0x54, 0x52, 0x4d, 0x53, 0x45, 0x41, 0x4c, 0x01, 0x10, 0x00, 0x00, 0x01, 0x00, 0x00, 0x00,
    0x02, 0x63, 0x0d, 0xcd, 0x29, 0x66, 0xc4, 0x33, 0x26, 0x47, 0x9f, 0x18, 0x95, 0x61, 0x2f, 0x87,
    0xd1, 0x57, 0x3b, 0xa4, 0x48, 0x14, 0x67, 0x19, 0x4f, 0x28, 0x5a, 0xe5,
];

// One file for each outcome.
static FATES: Case = Case {
    folder: &[
        ("a", b"a secret"),
        ("c", b"x"),
        ("c.stm", b"kept"),
        ("d", b""),
        ("e", b"more"),
        ("long", b"nine more"),
    ],
    trouble: Trouble::NoJournal,
    work: Work::Seal {
        workers: 1,
        lanes: 1,
    },
    files: &["a", "m", "c", "d", "e", "long"],
    max_bytes: 8,
    status: 1,
    lines: b"sealed a file 0 bytes 8\n\
      failed m: cannot open\n\
      failed c: output exists\n\
      sealed d file 1 bytes 0\n\
      sealed e file 2 bytes 4\n\
      failed long: too long\n",
    faults: b"",
    journal: b"",
    left: &[
        ("e.stm", Left::Holds(2, b"more")),
        ("long.stm", Left::Absent),
    ],
};

fn sealed_by(lanes: u32) -> Case<'static> {
    let mut case = FATES;
    case.work = Work::Seal { workers: 1, lanes };
    case
}

// The number of lanes, and what happens. One lane takes each file in turn, three take the first three files and then
// the others.
static SEALED: [(u32, &[Seen]); 2] = [
    (
        1,
        &[
            Seen::Reading("a", b"a secret"),
            Seen::Created("a.stm"),
            Seen::Finished("a.stm", &SECRET),
            Seen::Closed("a", false),
            Seen::Unread("m"),
            Seen::Reading("c", b"x"),
            Seen::Refused("c.stm", FolderFault::Exists),
            Seen::Closed("c", false),
            Seen::Reading("d", b""),
            Seen::Created("d.stm"),
            Seen::Finished("d.stm", &NONE_UNDER_1),
            Seen::Closed("d", false),
            Seen::Reading("e", b"more"),
            Seen::Created("e.stm"),
            Seen::Finished("e.stm", &MORE_UNDER_2),
            Seen::Closed("e", false),
            Seen::Reading("long", b"nine more"),
            Seen::Created("long.stm"),
            Seen::Discarded("long.stm", b""),
            Seen::Closed("long", false),
        ],
    ),
    (
        3,
        &[
            Seen::Reading("a", b"a secret"),
            Seen::Created("a.stm"),
            Seen::Closed("a", false),
            Seen::Unread("m"),
            Seen::Reading("c", b"x"),
            Seen::Refused("c.stm", FolderFault::Exists),
            Seen::Closed("c", false),
            Seen::Finished("a.stm", &SECRET),
            Seen::Reading("d", b""),
            Seen::Created("d.stm"),
            Seen::Closed("d", false),
            Seen::Reading("e", b"more"),
            Seen::Created("e.stm"),
            Seen::Closed("e", false),
            Seen::Reading("long", b"nine more"),
            Seen::Created("long.stm"),
            Seen::Closed("long", false),
            Seen::Finished("d.stm", &NONE_UNDER_1),
            Seen::Finished("e.stm", &MORE_UNDER_2),
            Seen::Discarded("long.stm", b""),
        ],
    ),
];

#[test]
fn a_sealing_by_one_lane_and_by_three_does_this_in_the_folder_and_nothing_else(rt: HostRuntime) {
    for (lanes, seen) in &SEALED {
        assert!(rt; goes(&rt, &sealed_by(*lanes), seen), "by {lanes}");
    }
}
