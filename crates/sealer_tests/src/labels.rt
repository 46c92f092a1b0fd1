//! Labels: `open_all` and `verify_all` with a required or shown label. The containers are from Python's `cryptography`;
//! the lines are written by hand.
use crate::cases::{Case, Left, Trouble, Work, ends};
use crate::runs::{BARE, CUT, LABELLED, ODD, SECRET};

// What a row shows, and its case.
static CASES: [(&str, Case); 4] = [
    (
        "a file with the label is opened, and no other",
        Case {
            folder: &[
                ("one.stm", &SECRET),
                ("two.stm", &LABELLED),
                ("bare.stm", &BARE),
                ("cut.stm", &CUT),
            ],
            trouble: Trouble::Nothing,
            work: Work::OpenLabelled(b"db dump"),
            files: &["one.stm", "two.stm", "bare.stm", "cut.stm"],
            max_bytes: 8,
            status: 1,
            lines: b"failed one.stm: another label\n\
              opened two.stm bytes 8\n\
              failed bare.stm: another label\n\
              failed cut.stm: chunk 0 does not check\n",
            faults: b"",
            journal: b"",
            left: &[
                ("one", Left::Absent),
                ("two", Left::Is(b"a secret")),
                ("bare", Left::Absent),
                ("cut", Left::Absent),
            ],
        },
    ),
    (
        "a label that begins so is another, and damage is told before it",
        Case {
            folder: &[
                ("one.stm", &SECRET),
                ("two.stm", &LABELLED),
                ("bare.stm", &BARE),
                ("cut.stm", &CUT),
            ],
            trouble: Trouble::Nothing,
            work: Work::OpenLabelled(b"db"),
            files: &["one.stm", "two.stm", "bare.stm", "cut.stm"],
            max_bytes: 8,
            status: 1,
            lines: b"failed one.stm: another label\n\
              failed two.stm: another label\n\
              failed bare.stm: another label\n\
              failed cut.stm: chunk 0 does not check\n",
            faults: b"",
            journal: b"",
            left: &[
                ("one", Left::Absent),
                ("two", Left::Absent),
                ("bare", Left::Absent),
                ("cut", Left::Absent),
            ],
        },
    ),
    (
        "a file of version 1 has no label, which is not the empty one",
        Case {
            folder: &[
                ("one.stm", &SECRET),
                ("two.stm", &LABELLED),
                ("bare.stm", &BARE),
            ],
            trouble: Trouble::Nothing,
            work: Work::OpenLabelled(b""),
            files: &["one.stm", "two.stm", "bare.stm"],
            max_bytes: 8,
            status: 1,
            lines: b"failed one.stm: another label\n\
              failed two.stm: another label\n\
              opened bare.stm bytes 0\n",
            faults: b"",
            journal: b"",
            left: &[
                ("one", Left::Absent),
                ("two", Left::Absent),
                ("bare", Left::Is(b"")),
            ],
        },
    ),
    (
        "what a header says is shown, and can't leave its line",
        Case {
            folder: &[
                ("one.stm", &SECRET),
                ("two.stm", &LABELLED),
                ("odd", &ODD),
                ("cut.stm", &CUT),
            ],
            trouble: Trouble::Nothing,
            work: Work::Show,
            files: &["one.stm", "two.stm", "odd", "cut.stm"],
            max_bytes: 8,
            status: 1,
            lines: b"good one.stm bytes 8\n\
              \x20 version 1 chunk 65536 device 1 file 0\n\
              good two.stm bytes 8\n\
              \x20 version 2 chunk 4096 device 1 file 0 label \"db dump\"\n\
              good odd bytes 0\n\
              \x20 version 2 chunk 1048576 device 1 file 0 label \"\\x1b[2J\\x22\\x5c\\x0a\\xc3\\xa4\"\n\
              failed cut.stm: chunk 0 does not check\n",
            faults: b"",
            journal: b"",
            left: &[("one", Left::Absent), ("two", Left::Absent)],
        },
    ),
];

#[test]
fn a_label_that_is_asked_for_or_shown_is_the_one_in_the_container(rt: HostRuntime) {
    for (what, case) in &CASES {
        assert!(rt; ends(&rt, case), "{what}");
    }
}
