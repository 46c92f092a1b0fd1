//! `open_all` and `verify_all`. The containers are from Python's `cryptography`, with the key 00 01 .. 1f, device 1 and
//! number 0. The lines are written by hand.
use crate::cases::{Case, Left, Trouble, Work, ends};
use crate::runs::{CUT, EMPTY, SECRET};
use folder_memory::Pace;
use io_memory::Schedule;

// Texts of 48 bytes, the length of `SECRET`.
const NOT_SEALED: [u8; 48] = *b"STRMSEAM\x01\x10 is how a text begins, not a container";

const NO_VERSION: [u8; 48] = *b"STRMSEAL\x03\x10 begins one of a version not there yet";

const NO_SIZE: [u8; 48] = *b"STRMSEAL\x01\x11 begins one that has some other chunks";

const ANOTHER_KEY: [u8; 48] = *b"STRMSEAL\x01\x10 begins one that has quite another key";

// The header of `SECRET`, followed by fewer bytes than a tag has.
const NO_TAG: [u8; 39] =
    *b"STRMSEAL\x01\x10\x00\x00\x01\x00\x00\x00\x00\x63\x0d\xcd\x29\x66\xc4\x33fifteen bytes .";

// The container of `SECRET` under number 1.
const SEALED_TWICE: [u8; 88] = [
    0x53, 0x54, 0x52, 0x4d, 0x53, 0x45, 0x41, 0x4c, 0x01, 0x10, 0x00, 0x00, 0x01, 0x00, 0x00, 0x00,
    0x01, 0x63, 0x0d, 0xcd, 0x29, 0x66, 0xc4, 0x33, 0xc5, 0xf4, 0x72, 0x10, 0x51, 0x2b, 0x7d, 0x2e,
    0x29, 0x41, 0xa1, 0xfd, 0x0c, 0xd9, 0x95, 0x08, 0x4f, 0x71, 0xe2, 0x71, 0x7e, 0xc0, 0x33, 0x5c,
    0xf9, 0x87, 0x24, 0xbd, 0x55, 0x55, 0xde, 0x2e, 0x16, 0x39, 0xaa, 0x1d, 0xf6, 0x06, 0x75, 0xe9,
    0x16, 0x9c, 0xd2, 0x30, 0xd3, 0x82, 0x9d, 0x84, 0x2a, 0xbc, 0x3e, 0xa2, 0xb3, 0x8f, 0xf5, 0xdd,
    0x6d, 0x12, 0xc1, 0xfd, 0x8a, 0x46, 0x0e, 0x8c,
];

// What a row shows, and its case.
static CASES: [(&str, Case); 14] = [
    (
        "a file is opened, and another name is refused",
        Case {
            folder: &[("a.stm", &EMPTY), ("b.txt", &EMPTY)],
            trouble: Trouble::Nothing,
            work: Work::Open,
            files: &["a.stm", "b.txt"],
            max_bytes: 0,
            status: 1,
            lines: b"opened a.stm bytes 0\nfailed b.txt: name does not end in .stm\n",
            faults: b"",
            journal: b"",
            left: &[("a", Left::Is(b""))],
        },
    ),
    (
        "files are worked in order, and a name twice",
        Case {
            folder: &[("a.stm", &SECRET), ("c.stm", &EMPTY), ("c", b"kept")],
            trouble: Trouble::Nothing,
            work: Work::Open,
            files: &["a.stm", "m.stm", "a.stm", "c.stm", ".stm", "a"],
            max_bytes: 1 << 30,
            status: 1,
            lines: b"opened a.stm bytes 8\n\
              failed m.stm: cannot open\n\
              failed a.stm: output exists\n\
              failed c.stm: output exists\n\
              failed .stm: name does not end in .stm\n\
              failed a: name does not end in .stm\n",
            faults: b"",
            journal: b"",
            left: &[("a", Left::Is(b"a secret")), ("c", Left::Is(b"kept"))],
        },
    ),
    (
        "a file is opened to the output that is given",
        Case {
            folder: &[("a.stm", &SECRET)],
            trouble: Trouble::Nothing,
            work: Work::OpenTo("other"),
            files: &["a.stm"],
            max_bytes: 8,
            status: 0,
            lines: b"opened a.stm bytes 8\n",
            faults: b"",
            journal: b"",
            left: &[("other", Left::Is(b"a secret")), ("a", Left::Absent)],
        },
    ),
    (
        "where an output is given a file may have any name",
        Case {
            folder: &[("a.txt", &SECRET)],
            trouble: Trouble::Nothing,
            work: Work::OpenTo("other"),
            files: &["a.txt"],
            max_bytes: 8,
            status: 0,
            lines: b"opened a.txt bytes 8\n",
            faults: b"",
            journal: b"",
            left: &[("other", Left::Is(b"a secret"))],
        },
    ),
    (
        "an output that is given and is there stays as it is",
        Case {
            folder: &[("a.stm", &SECRET), ("other", b"kept")],
            trouble: Trouble::Nothing,
            work: Work::OpenTo("other"),
            files: &["a.stm"],
            max_bytes: 8,
            status: 1,
            lines: b"failed a.stm: output exists\n",
            faults: b"",
            journal: b"",
            left: &[("other", Left::Is(b"kept")), ("a", Left::Absent)],
        },
    ),
    (
        "the first of several files is opened to the output that is given",
        Case {
            folder: &[("a.stm", &SECRET), ("b", &EMPTY)],
            trouble: Trouble::Nothing,
            work: Work::OpenTo("other"),
            files: &["m", "a.stm", "b"],
            max_bytes: 8,
            status: 1,
            lines: b"failed m: cannot open\n\
              opened a.stm bytes 8\n\
              failed b: output exists\n",
            faults: b"",
            journal: b"",
            left: &[("other", Left::Is(b"a secret")), ("a", Left::Absent)],
        },
    ),
    (
        "an output is a file like any other",
        Case {
            folder: &[("a.stm.stm", &SEALED_TWICE)],
            trouble: Trouble::Nothing,
            work: Work::Open,
            files: &["a.stm.stm", "a.stm"],
            max_bytes: 48,
            status: 0,
            lines: b"opened a.stm.stm bytes 48\nopened a.stm bytes 8\n",
            faults: b"",
            journal: b"",
            left: &[("a.stm", Left::Is(&SECRET)), ("a", Left::Is(b"a secret"))],
        },
    ),
    (
        "each fault of a container has its text, and where there is none no output is made",
        Case {
            folder: &[
                ("header", b"STRMSEAL\x01\x10 and so on..."),
                ("magic", &NOT_SEALED),
                ("version", &NO_VERSION),
                ("size", &NO_SIZE),
                ("key", &ANOTHER_KEY),
                ("length", &NO_TAG),
                ("tag", &CUT),
                ("long", &SECRET),
                ("empty.stm", &EMPTY),
            ],
            trouble: Trouble::Nothing,
            work: Work::Verify,
            files: &[
                "header",
                "magic",
                "version",
                "size",
                "key",
                "length",
                "tag",
                "long",
                "empty.stm",
            ],
            max_bytes: 8,
            status: 1,
            lines: b"failed header: header cut short\n\
              failed magic: not a sealed file\n\
              failed version: unknown version\n\
              failed size: unknown chunk size\n\
              failed key: sealed under another key\n\
              failed length: wrong length\n\
              failed tag: chunk 0 does not check\n\
              good long bytes 8\n\
              good empty.stm bytes 0\n",
            faults: b"",
            journal: b"",
            left: &[("empty", Left::Absent)],
        },
    ),
    (
        "a byte too many is too long",
        Case {
            folder: &[("long", &SECRET)],
            trouble: Trouble::Nothing,
            work: Work::Verify,
            files: &["long"],
            max_bytes: 7,
            status: 1,
            lines: b"failed long: too long\n",
            faults: b"",
            journal: b"",
            left: &[],
        },
    ),
    (
        "a file that is too long is told as that, whatever else is wrong with it",
        Case {
            folder: &[
                ("header", b"STRMSEAL\x01\x10 and so on..."),
                ("magic", &NOT_SEALED),
                ("version", &NO_VERSION),
                ("size", &NO_SIZE),
                ("key", &ANOTHER_KEY),
                ("length", &NO_TAG),
                ("tag", &CUT),
                ("long", &SECRET),
                ("empty.stm", &EMPTY),
            ],
            trouble: Trouble::Nothing,
            work: Work::Verify,
            files: &[
                "header",
                "magic",
                "version",
                "size",
                "key",
                "length",
                "tag",
                "long",
                "empty.stm",
            ],
            max_bytes: 6,
            status: 1,
            lines: b"failed header: header cut short\n\
              failed magic: too long\n\
              failed version: too long\n\
              failed size: too long\n\
              failed key: too long\n\
              failed length: wrong length\n\
              failed tag: too long\n\
              failed long: too long\n\
              good empty.stm bytes 0\n",
            faults: b"",
            journal: b"",
            left: &[],
        },
    ),
    (
        // The calls are to open the input, read it again, create the output and remove it.
        "the line is the same where an output that fails can't be removed",
        Case {
            folder: &[("a.stm", &SECRET)],
            trouble: Trouble::WritersAndCall(
                Pace {
                    most: 3,
                    schedule: Schedule::Bytes(5),
                },
                3,
            ),
            work: Work::Open,
            files: &["a.stm"],
            max_bytes: 8,
            status: 1,
            lines: b"failed a.stm: write failed\n",
            faults: b"",
            journal: b"",
            left: &[("a", Left::Is(b"a sec"))],
        },
    ),
    (
        // The second line's write fails, and a third would succeed.
        "behind a line that fails no other is tried, and the files are worked",
        Case {
            folder: &[("a.stm", &SECRET), ("b.stm", &SECRET), ("c.stm", &SECRET)],
            trouble: Trouble::Lines(Schedule::Call(1)),
            work: Work::Open,
            files: &["a.stm", "b.stm", "c.stm"],
            max_bytes: 8,
            status: 2,
            lines: b"opened a.stm bytes 8\n",
            faults: b"",
            journal: b"",
            left: &[
                ("a", Left::Is(b"a secret")),
                ("b", Left::Is(b"a secret")),
                ("c", Left::Is(b"a secret")),
            ],
        },
    ),
    (
        "a line that fails wins over a file that does",
        Case {
            folder: &[],
            trouble: Trouble::Lines(Schedule::Bytes(9)),
            work: Work::Verify,
            files: &["a", "b"],
            max_bytes: 8,
            status: 2,
            lines: b"failed a:",
            faults: b"",
            journal: b"",
            left: &[],
        },
    ),
    (
        // With 9 bytes a call, the fourth call would find the end.
        "a reader that fails where the file ends is told",
        Case {
            folder: &[("a.stm", &SECRET)],
            trouble: Trouble::Readers(Pace {
                most: 9,
                schedule: Schedule::Bytes(48),
            }),
            work: Work::Open,
            files: &["a.stm"],
            max_bytes: 8,
            status: 1,
            lines: b"failed a.stm: read failed\n",
            faults: b"",
            journal: b"",
            left: &[("a", Left::Absent)],
        },
    ),
];

#[test]
fn each_file_that_is_opened_or_verified_has_its_line_and_its_output(rt: HostRuntime) {
    for (what, case) in &CASES {
        assert!(rt; ends(&rt, case), "{what}");
    }
}
