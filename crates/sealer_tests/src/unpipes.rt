//! `unpipe_all` and `open_all` of whole containers. The digests are from Python's `cryptography` and `hashlib`. Lines are
//! written by hand.
use crate::failing::Calls;
use crate::inputs::{
    End, How, Input, STEADY, by, ends_once, ends_twice, is_end, refused, run_in, run_over,
};
use crate::runs::{CUT, EMPTY, SECRET, counting_key, folder_of, has_bytes, open_over, steady_outs};
use crate::traces::{Seen, tells};
use container_core::{Shape, seal};
use io_memory::Schedule;
use sealer_core::OpenOptions;
use sha2::{Digest, Sha256};
use std::alloc::Global;
use std::thread::Threads;
use std::time::Clock;

const MOST: usize = usize::MAX;

// The label of the containers of version 2.
const LABEL: &[u8] = b"db dump";

// Whether in version 2, in chunks of 4,096 bytes with the label, the number of bytes i modulo 251, and the SHA-256 of
// their container under the key 00 01 .. 1f, device 1 and number 0.
static SEALED: [(bool, usize, [u8; 32]); 10] = [
    (
        false,
        0,
        [
            0xd3, 0xc5, 0x91, 0x6e, 0x88, 0x96, 0xf4, 0x57, 0xcd, 0x10, 0x35, 0xf6, 0xc8, 0x2a,
            0xe1, 0x19, 0x5d, 0xfe, 0xcf, 0xe8, 0x5c, 0x44, 0xb4, 0x0b, 0x99, 0xa2, 0xa5, 0x48,
            0x9a, 0x57, 0xda, 0x05,
        ],
    ),
    (
        false,
        1,
        [
            0x7b, 0x00, 0x7d, 0xdc, 0x9c, 0x2e, 0xf0, 0x7b, 0x4c, 0xb6, 0xd3, 0x1d, 0x57, 0xb0,
            0x23, 0x1b, 0x26, 0xf7, 0x80, 0x63, 0x92, 0x8c, 0x31, 0x39, 0x21, 0xa4, 0x1f, 0x87,
            0x3a, 0x7f, 0x57, 0xf1,
        ],
    ),
    (
        false,
        65_535,
        [
            0x86, 0x54, 0x61, 0x55, 0xd0, 0xe9, 0x02, 0x1e, 0xb7, 0xbf, 0x51, 0xf8, 0x02, 0xcc,
            0x36, 0xce, 0x94, 0x9b, 0x92, 0xc8, 0xbf, 0xf5, 0x12, 0xfc, 0x98, 0x97, 0x4c, 0x2e,
            0x3b, 0xa5, 0x82, 0x78,
        ],
    ),
    (
        false,
        65_536,
        [
            0xdd, 0x01, 0x0f, 0x6e, 0x90, 0x31, 0x91, 0xbd, 0xf5, 0x37, 0x0f, 0xa7, 0xd7, 0x6c,
            0xf1, 0xfd, 0xab, 0xcc, 0x53, 0xb3, 0xe4, 0x6e, 0xab, 0xcc, 0xb4, 0x41, 0x0f, 0xf9,
            0x1d, 0x40, 0x5e, 0xf6,
        ],
    ),
    (
        false,
        65_537,
        [
            0xef, 0x1d, 0xf7, 0x49, 0xcd, 0x62, 0xe3, 0x9d, 0x14, 0xe1, 0x1b, 0x9d, 0xf3, 0x5d,
            0xf2, 0x1a, 0x6f, 0x79, 0xc0, 0x53, 0x90, 0xa2, 0x36, 0xcb, 0xda, 0x0e, 0x75, 0x3f,
            0x84, 0x72, 0x8c, 0x0a,
        ],
    ),
    (
        true,
        0,
        [
            0x26, 0xf7, 0x75, 0x40, 0x46, 0x72, 0x43, 0x53, 0xb2, 0xb0, 0x3b, 0x68, 0x4d, 0x4a,
            0x7a, 0x85, 0xce, 0x22, 0xc0, 0x06, 0x85, 0x63, 0x79, 0xac, 0x99, 0x33, 0x42, 0xd1,
            0x31, 0x22, 0x9f, 0x68,
        ],
    ),
    (
        true,
        1,
        [
            0x90, 0x3d, 0x47, 0x5e, 0x57, 0x18, 0x4c, 0xc6, 0xf9, 0xb8, 0xd3, 0x09, 0x85, 0x7a,
            0x9f, 0xc0, 0xaa, 0x31, 0x3e, 0x8b, 0xcd, 0x68, 0xa9, 0xe7, 0x9c, 0x43, 0x8b, 0x39,
            0x1f, 0x5e, 0x84, 0x72,
        ],
    ),
    (
        true,
        65_535,
        [
            0x7c, 0x25, 0x77, 0xd6, 0x72, 0xf4, 0x3a, 0x02, 0xd6, 0xf4, 0xa5, 0x11, 0x3c, 0x52,
            0x20, 0xa6, 0xc9, 0xaa, 0x3d, 0x2d, 0xb2, 0xcc, 0x73, 0xe0, 0x0a, 0x41, 0x0c, 0x1e,
            0xee, 0xff, 0xb9, 0x0c,
        ],
    ),
    (
        true,
        65_536,
        [
            0x69, 0xf7, 0x37, 0x30, 0x83, 0x33, 0x1b, 0x8f, 0x04, 0x11, 0x57, 0xff, 0x5c, 0x5a,
            0xb4, 0x35, 0xd1, 0xce, 0xb9, 0x81, 0x1f, 0xd5, 0x4a, 0x91, 0x6c, 0xb6, 0x8f, 0x1b,
            0xbd, 0xae, 0x2e, 0x84,
        ],
    ),
    (
        true,
        65_537,
        [
            0x69, 0xf3, 0x48, 0x91, 0xdd, 0x60, 0x29, 0x4a, 0xb5, 0x92, 0xfc, 0x52, 0x9c, 0xab,
            0x94, 0x56, 0xe7, 0xed, 0x11, 0xb5, 0x27, 0x6d, 0x9d, 0x66, 0x61, 0x5b, 0x88, 0x6f,
            0x1b, 0xd2, 0x14, 0x58,
        ],
    ),
];

/// Returns this many bytes i modulo 251.
pub(crate) fn pattern(alloc: Global, count: usize) -> Option<Vec<u8>> {
    let mut bytes = vec![in alloc; 0u8; count].ok()?;
    for (i, byte) in bytes.as_mut_slice().iter_mut().enumerate() {
        *byte = (i % 251) as u8;
    }
    Some(bytes)
}

/// Returns the container of a plaintext for this file, in version 1, or in version 2 with the label, if it has this
/// SHA-256.
pub(crate) fn sealed_as(
    alloc: Global,
    plain: &[u8],
    is_two: bool,
    number: u8,
    digest: &[u8; 32],
) -> Option<Vec<u8>> {
    let shape = if is_two {
        Shape::two(12, LABEL).ok()?
    } else {
        Shape::one()
    };
    let sealed = seal(
        alloc,
        &counting_key(),
        &shape,
        [0, 0, 1, 0, 0, 0, number],
        plain,
    )
    .ok()?;
    if Sha256::digest(sealed.as_slice()) == *digest {
        Some(sealed)
    } else {
        None
    }
}

// ---- whole openings

// A label that is asked for, and whether a container has it: of version 1, and of version 2.
static LABELS: [(Option<&[u8]>, bool, bool); 5] = [
    (None, true, true),
    (Some(LABEL), false, true),
    (Some(b"db dum"), false, false),
    (Some(b"db dumps"), false, false),
    (Some(b""), false, false),
];

// Whether a container is opened to this plaintext, by one reading and a spool, and by two readings. `line` says so.
fn is_opened<R: AllocGlobal + Threads + Clock + Sync>(
    rt: &R,
    sealed: &[u8],
    plain: &[u8],
    line: &[u8],
    how: &How,
) -> bool {
    let end = End {
        status: 0,
        line,
        least: plain.len(),
        most: plain.len(),
    };
    let calls = Calls::steady();
    ends_once(rt, sealed, plain, 10_007, how, &calls, &end)
        && ends_twice(rt, (sealed, sealed), plain, MOST, how, &calls, &end)
}

// Whether neither opens it, since it has another label.
fn is_refused<R: AllocGlobal + Threads + Clock + Sync>(
    rt: &R,
    sealed: &[u8],
    plain: &[u8],
    how: &How,
) -> bool {
    let end = refused(b"failed a.stm: another label\n");
    let calls = Calls::steady();
    ends_once(rt, sealed, plain, 10_007, how, &calls, &end)
        && ends_twice(rt, (sealed, sealed), plain, MOST, how, &calls, &end)
}

// Whether `open_all` opens a container in a folder to this plaintext.
fn is_opened_in_folder<R: AllocGlobal + Threads + Clock + Sync>(
    rt: &R,
    sealed: &[u8],
    plain: &[u8],
    line: &[u8],
    how: &How,
) -> Option<bool> {
    let mut folder = folder_of(rt.alloc(), &[("a.stm", sealed)])?;
    let mut out = steady_outs(rt.alloc())?;
    let options = OpenOptions {
        files: &["a.stm"],
        workers: how.workers,
        max_bytes: 1 << 30,
        label: how.label,
        to: None,
        show: false,
    };
    let status = open_over(rt, &mut folder, &options, false, &mut out);
    Some(status == Some(0) && out.lines.bytes() == line && has_bytes(&folder, "a", plain))
}

// Whether a container is opened, and with each label as it should.
fn is_opened_by<R: AllocGlobal + Threads + Clock + Sync>(
    rt: &R,
    sealed: &[u8],
    plain: &[u8],
    is_two: bool,
    workers: u32,
) -> bool {
    let n = plain.len();
    let Ok(line) = format!(in rt.alloc(); "opened a.stm bytes {n}\n") else {
        return false;
    };
    for (label, of_one, of_two) in &LABELS {
        let mut how = by(workers);
        how.label = *label;
        let has_it = if is_two { *of_two } else { *of_one };
        let is_right = if has_it {
            is_opened(rt, sealed, plain, line.as_bytes(), &how)
                && is_opened_in_folder(rt, sealed, plain, line.as_bytes(), &how) == Some(true)
        } else {
            is_refused(rt, sealed, plain, &how)
        };
        if !is_right {
            return false;
        }
    }
    true
}

// Whether the container of this many bytes is opened, by one worker and by four.
fn opens<R: AllocGlobal + Threads + Clock + Sync>(
    rt: &R,
    is_two: bool,
    count: usize,
    digest: &[u8; 32],
) -> Option<bool> {
    let plain = pattern(rt.alloc(), count)?;
    let sealed = sealed_as(rt.alloc(), plain.as_slice(), is_two, 0, digest)?;
    let (plain, sealed) = (plain.as_slice(), sealed.as_slice());
    Some(is_opened_by(rt, sealed, plain, is_two, 1) && is_opened_by(rt, sealed, plain, is_two, 4))
}

#[test]
fn a_whole_container_is_opened_if_it_has_the_label(rt: HostRuntime) {
    for (is_two, count, digest) in &SEALED {
        assert!(rt;
            opens(&rt, *is_two, *count, digest) == Some(true),
            "{is_two} {count}"
        );
    }
}

// ---- a folder that tells what happened

// A file of a folder of which a call may fail, how `unpipe_all` of `a.stm` is to end, and what is to happen.
#[derive(Clone, Copy)]
struct InFolder {
    what: &'static str,
    name: &'static str,
    sealed: &'static [u8],
    // Calls are to open the file, and to read it again.
    failing: u64,
    status: u8,
    line: &'static [u8],
    written: &'static [u8],
    seen: &'static [Seen<'static>],
}

static IN_FOLDER: [InFolder; 6] = [
    InFolder {
        what: "a file is read twice, and nothing is created",
        name: "a.stm",
        sealed: &SECRET,
        failing: 2,
        status: 0,
        line: b"opened a.stm bytes 8\n",
        written: b"a secret",
        seen: &[
            Seen::Reading("a.stm", &SECRET),
            Seen::Rewound("a.stm", false),
            Seen::Reading("a.stm", &SECRET),
            Seen::Closed("a.stm", false),
        ],
    },
    InFolder {
        what: "of a file that could not be read again nothing is written",
        name: "a.stm",
        sealed: &SECRET,
        failing: 1,
        status: 1,
        line: b"failed a.stm: spool failed\n",
        written: b"",
        seen: &[
            Seen::Reading("a.stm", &SECRET),
            Seen::Rewound("a.stm", true),
            Seen::Closed("a.stm", true),
        ],
    },
    InFolder {
        what: "a file that is damaged is not read again",
        name: "a.stm",
        sealed: &CUT,
        failing: 1,
        status: 1,
        line: b"failed a.stm: chunk 0 does not check\n",
        written: b"",
        seen: &[Seen::Reading("a.stm", &CUT), Seen::Closed("a.stm", false)],
    },
    InFolder {
        what: "a file that could not be opened",
        name: "a.stm",
        sealed: &SECRET,
        failing: 0,
        status: 1,
        line: b"failed a.stm: cannot open\n",
        written: b"",
        seen: &[Seen::Unread("a.stm")],
    },
    InFolder {
        what: "a file that is not there",
        name: "a",
        sealed: &SECRET,
        failing: 2,
        status: 1,
        line: b"failed a.stm: cannot open\n",
        written: b"",
        seen: &[Seen::Unread("a.stm")],
    },
    InFolder {
        what: "the empty plaintext",
        name: "a.stm",
        sealed: &EMPTY,
        failing: 2,
        status: 0,
        line: b"opened a.stm bytes 0\n",
        written: b"",
        seen: &[
            Seen::Reading("a.stm", &EMPTY),
            Seen::Rewound("a.stm", false),
            Seen::Reading("a.stm", &EMPTY),
            Seen::Closed("a.stm", false),
        ],
    },
];

// Whether the run over such a folder ends so, and exactly this happened there.
fn goes_in_folder<R: AllocGlobal + Threads + Clock + Sync>(rt: &R, row: &InFolder) -> Option<bool> {
    let mut folder = folder_of(rt.alloc(), &[(row.name, row.sealed)])?;
    folder.refuse_call(row.failing);
    let (folder, ended) = run_in(rt, folder, &STEADY, &Calls::steady())?;
    let end = End {
        status: row.status,
        line: row.line,
        least: row.written.len(),
        most: row.written.len(),
    };
    Some(is_end(&ended, row.written, &end) && tells(&folder, row.seen))
}

#[test]
fn an_opening_to_a_stream_does_this_in_the_folder_and_nothing_else(rt: HostRuntime) {
    for row in &IN_FOLDER {
        let what = row.what;
        assert!(rt; goes_in_folder(&rt, row) == Some(true), "{what}");
    }
}

// ---- no input, and lines

// Whether an input that couldn't be opened has its line.
fn is_not_there<R: AllocGlobal + Threads + Clock + Sync>(rt: &R) -> bool {
    let ended = run_over::<R, Input<'_>>(rt, None, &STEADY, &Calls::steady());
    match ended {
        Some(ended) => is_end(&ended, b"", &refused(b"failed a.stm: cannot open\n")),
        None => false,
    }
}

#[test]
fn where_there_is_no_input_the_line_says_so(rt: HostRuntime) {
    assert!(rt; is_not_there(&rt));
}

// A line of which 8 bytes can be written.
static UNTOLD: How = How {
    workers: 1,
    label: None,
    writes: Schedule::Never,
    lines: Schedule::Bytes(8),
};

// Whether the status is 2 if the line can't be written, and the plaintext is written all the same.
fn is_untold<R: AllocGlobal + Threads + Clock + Sync>(rt: &R) -> bool {
    let calls = Calls::steady();
    let opened = End {
        status: 2,
        line: b"opened a",
        least: 8,
        most: 8,
    };
    let failed = End {
        status: 2,
        line: b"failed a",
        least: 0,
        most: 0,
    };
    ends_once(rt, &SECRET, b"a secret", 5, &UNTOLD, &calls, &opened)
        && ends_once(rt, &CUT, b"a secret", 5, &UNTOLD, &calls, &failed)
}

#[test]
fn a_line_that_cannot_be_written_is_status_2(rt: HostRuntime) {
    assert!(rt; is_untold(&rt));
}
