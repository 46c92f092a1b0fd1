//! Audits: journals with verdicts derived by hand from the rules in docs/FORMATS.md.
use io_memory::{FromMemory, Schedule, ToMemory};
use ledger_core::AuditFault;
use sealing_core::run_audit;
use std::alloc::Global;

const JOURNAL: &str = "range 1 7 2 2\n0 issue 7\n1 issue 8\n0 issue none\n1 sealed 8\n0 void 7\n";

static AUDITS: [(&str, &str); 37] = [
    (
        JOURNAL,
        "legal: 2 granted, 1 sealed, 1 void, 0 open, 1 refused\n",
    ),
    ("", "malformed line 1\n"),
    ("\n", "malformed line 1\n"),
    ("range 1 7 2 2", "malformed line 1\n"),
    ("range 1 7 02 2\n", "malformed line 1\n"),
    ("range 1 7 2 2\n0 issue 7", "malformed line 2\n"),
    ("range 1 7 2 2\n0 issue 8\n", "illegal line 2\n"),
    (
        "range 1 7 2 2\n",
        "legal: 0 granted, 0 sealed, 0 void, 0 open, 0 refused\n",
    ),
    (
        "range 1 4294967295 1 1\n0 issue 4294967295\n",
        "legal: 1 granted, 0 sealed, 0 void, 1 open, 0 refused\n",
    ),
    // Each line of the journal, altered.
    ("range 16777216 7 2 2\n", "malformed line 1\n"),
    ("range 1 7 0 2\n", "malformed line 1\n"),
    ("range 1 7 65536 2\n", "malformed line 1\n"),
    ("range 1 4294967295 2 1\n", "malformed line 1\n"),
    ("range 1 7 2 0\n", "malformed line 1\n"),
    ("range 1 7 2 65\n", "malformed line 1\n"),
    ("range +1 7 2 2\n", "malformed line 1\n"),
    ("range 1 7 2 2 \n", "malformed line 1\n"),
    ("range 1 7 2 2\n2 issue 7\n1 issue 8\n", "illegal line 2\n"),
    (
        "range 1 7 2 2\n64 issue 7\n1 issue 8\n",
        "malformed line 2\n",
    ),
    ("range 1 7 2 2\n0 issue 4294967296\n", "malformed line 2\n"),
    ("range 1 7 2 2\n0  issue 7\n", "malformed line 2\n"),
    ("range 1 7 2 2\n\n0 issue 7\n", "malformed line 2\n"),
    (
        "range 1 7 2 2\n0 issue 7\r\n1 issue 8\n",
        "malformed line 2\n",
    ),
    ("range 1 7 2 2\nrange 1 7 2 2\n", "malformed line 2\n"),
    (
        "range 1 7 2 2\n0 issue 7\n0 issue 8\n0 issue none\n1 sealed 8\n0 void 7\n",
        "illegal line 5\n",
    ),
    (
        "range 1 7 2 2\n0 issue 7\n0 issue none\n1 issue 8\n1 sealed 8\n0 void 7\n",
        "illegal line 3\n",
    ),
    (
        "range 1 7 2 2\n0 issue 7\n1 issue 8\n1 issue none\n1 sealed 8\n0 void 7\n",
        "legal: 2 granted, 1 sealed, 1 void, 0 open, 1 refused\n",
    ),
    (
        "range 1 7 2 2\n0 issue 7\n1 issue 8\n0 issue none\n0 issue none\n1 sealed 8\n",
        "illegal line 5\n",
    ),
    (
        "range 1 7 2 2\n0 issue 7\n1 issue 8\n0 issue none\n0 sealed 8\n0 void 7\n",
        "illegal line 5\n",
    ),
    (
        "range 1 7 2 2\n0 issue 7\n1 issue 8\n0 issue none\n1 sealed 8\n0 sealed 7\n",
        "legal: 2 granted, 2 sealed, 0 void, 0 open, 1 refused\n",
    ),
    (
        "range 1 7 2 2\n0 issue 7\n1 issue 8\n0 issue none\n1 sealed 8\n0 void 7\n0 void 7\n",
        "illegal line 7\n",
    ),
    (
        "range 1 7 2 2\n0 issue 7\n1 issue 8\n0 issue none\n1 sealed 8\n0 void 9\n",
        "illegal line 6\n",
    ),
    // The longest possible line, then one byte longer, and 64 longer.
    (
        "range 16777215 4294901760 65535 64\n",
        "legal: 0 granted, 0 sealed, 0 void, 0 open, 0 refused\n",
    ),
    (
        "range 16777215 4294901760 65535 640\n",
        "malformed line 1\n",
    ),
    (
        "range 16777215 4294901760 65535 64                                                                \n",
        "malformed line 1\n",
    ),
    // The first fault is named, whatever follows it.
    ("range 1 7 2 2\n0 issue 8\nnonsense\n", "illegal line 2\n"),
    (
        "range 1 7 2 2\n0 issue 7\nnonsense\n0 issue 7\n",
        "malformed line 3\n",
    ),
];

// Whether the audit of `journal` writes `line` and has its status. The reader returns at most `most` bytes a call.
fn is_audited(alloc: Global, journal: &str, line: &str, most: usize) -> Option<bool> {
    let mut reader = FromMemory::new(journal.as_bytes(), most, Schedule::Never);
    let mut writer = ToMemory::new(alloc, 100, 100, Schedule::Never).ok()?;
    let status = run_audit(alloc, &mut reader, &mut writer);
    let legal = if line.starts_with("legal") { 0 } else { 1 };
    Some(status == Ok(legal) && writer.bytes() == line.as_bytes())
}

#[test]
fn journals_have_their_verdict_also_by_a_byte_a_call(rt: HostRuntime) {
    for (journal, line) in &AUDITS {
        for most in [65_536, 1] {
            assert!(rt;
                is_audited(rt.alloc(), journal, line, most) == Some(true),
                "{journal}"
            );
        }
    }
}

// Whether the audit fails with `Read` and writes nothing if the reader fails midway.
fn is_read_failed(alloc: Global) -> Option<bool> {
    let mut reader = FromMemory::new(JOURNAL.as_bytes(), 9, Schedule::Bytes(40));
    let mut writer = ToMemory::new(alloc, 100, 100, Schedule::Never).ok()?;
    let status = run_audit(alloc, &mut reader, &mut writer);
    Some(status == Err(AuditFault::Read) && writer.bytes().is_empty())
}

#[test]
fn a_reader_that_fails_midway_gives_read(rt: HostRuntime) {
    assert!(rt; is_read_failed(rt.alloc()) == Some(true));
}
