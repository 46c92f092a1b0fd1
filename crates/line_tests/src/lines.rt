//! Lines as JSON objects: what Python's `json.dumps` writes, with four digits for each control character. And outputs that are
//! compared with lines.

use line_core::{Extras, Finding, Listed, What, message_of, push_object};
use std::alloc::{AllocError, Global};

// Lines, with their objects under an output and a device.
static OBJECTS: [(&str, &str); 56] = [
    (
        "sealed a file 7 bytes 12",
        "{\"status\":\"sealed\",\"file\":\"a\",\"output\":\"o.stm\",\"number\":7,\"device\":3,\"bytes\":12}",
    ),
    (
        "failed a: chunk 3 does not check",
        "{\"status\":\"failed\",\"file\":\"a\",\"output\":\"o.stm\",\"fault\":\"chunk 3 does not check\"}",
    ),
    (
        "good a bytes 5",
        "{\"status\":\"good\",\"file\":\"a\",\"output\":\"o.stm\",\"bytes\":5}",
    ),
    (
        "good a bytes 5\n  version 1 chunk 65536 device 16777215 file 4294967295",
        "{\"status\":\"good\",\"file\":\"a\",\"output\":\"o.stm\",\"bytes\":5,\"version\":1,\"chunk\":65536,\"device\":16777215,\"number\":4294967295}",
    ),
    (
        "sealed x file 3 bytes 4 file 7 bytes 12",
        "{\"status\":\"sealed\",\"file\":\"x file 3 bytes 4\",\"output\":\"o.stm\",\"number\":7,\"device\":3,\"bytes\":12}",
    ),
    (
        "failed x file 3 bytes 4: chunk 3 does not check",
        "{\"status\":\"failed\",\"file\":\"x file 3 bytes 4\",\"output\":\"o.stm\",\"fault\":\"chunk 3 does not check\"}",
    ),
    (
        "good x file 3 bytes 4 bytes 5",
        "{\"status\":\"good\",\"file\":\"x file 3 bytes 4\",\"output\":\"o.stm\",\"bytes\":5}",
    ),
    (
        "good x file 3 bytes 4 bytes 5\n  version 1 chunk 65536 device 16777215 file 4294967295",
        "{\"status\":\"good\",\"file\":\"x file 3 bytes 4\",\"output\":\"o.stm\",\"bytes\":5,\"version\":1,\"chunk\":65536,\"device\":16777215,\"number\":4294967295}",
    ),
    (
        "sealed a: b file 7 bytes 12",
        "{\"status\":\"sealed\",\"file\":\"a: b\",\"output\":\"o.stm\",\"number\":7,\"device\":3,\"bytes\":12}",
    ),
    (
        "failed a: b: chunk 3 does not check",
        "{\"status\":\"failed\",\"file\":\"a: b\",\"output\":\"o.stm\",\"fault\":\"chunk 3 does not check\"}",
    ),
    (
        "good a: b bytes 5",
        "{\"status\":\"good\",\"file\":\"a: b\",\"output\":\"o.stm\",\"bytes\":5}",
    ),
    (
        "good a: b bytes 5\n  version 1 chunk 65536 device 16777215 file 4294967295",
        "{\"status\":\"good\",\"file\":\"a: b\",\"output\":\"o.stm\",\"bytes\":5,\"version\":1,\"chunk\":65536,\"device\":16777215,\"number\":4294967295}",
    ),
    (
        "sealed \"q\"\\ file 7 bytes 12",
        "{\"status\":\"sealed\",\"file\":\"\\\"q\\\"\\\\\",\"output\":\"o.stm\",\"number\":7,\"device\":3,\"bytes\":12}",
    ),
    (
        "failed \"q\"\\: chunk 3 does not check",
        "{\"status\":\"failed\",\"file\":\"\\\"q\\\"\\\\\",\"output\":\"o.stm\",\"fault\":\"chunk 3 does not check\"}",
    ),
    (
        "good \"q\"\\ bytes 5",
        "{\"status\":\"good\",\"file\":\"\\\"q\\\"\\\\\",\"output\":\"o.stm\",\"bytes\":5}",
    ),
    (
        "good \"q\"\\ bytes 5\n  version 1 chunk 65536 device 16777215 file 4294967295",
        "{\"status\":\"good\",\"file\":\"\\\"q\\\"\\\\\",\"output\":\"o.stm\",\"bytes\":5,\"version\":1,\"chunk\":65536,\"device\":16777215,\"number\":4294967295}",
    ),
    (
        "sealed two\nlines file 7 bytes 12",
        "{\"status\":\"sealed\",\"file\":\"two\\u000alines\",\"output\":\"o.stm\",\"number\":7,\"device\":3,\"bytes\":12}",
    ),
    (
        "failed two\nlines: chunk 3 does not check",
        "{\"status\":\"failed\",\"file\":\"two\\u000alines\",\"output\":\"o.stm\",\"fault\":\"chunk 3 does not check\"}",
    ),
    (
        "good two\nlines bytes 5",
        "{\"status\":\"good\",\"file\":\"two\\u000alines\",\"output\":\"o.stm\",\"bytes\":5}",
    ),
    (
        "good two\nlines bytes 5\n  version 1 chunk 65536 device 16777215 file 4294967295",
        "{\"status\":\"good\",\"file\":\"two\\u000alines\",\"output\":\"o.stm\",\"bytes\":5,\"version\":1,\"chunk\":65536,\"device\":16777215,\"number\":4294967295}",
    ),
    (
        "sealed \u{0}\u{1}\u{8}\u{9}\u{c}\u{d}\u{1b}\u{1f}\u{7f} file 7 bytes 12",
        "{\"status\":\"sealed\",\"file\":\"\\u0000\\u0001\\u0008\\u0009\\u000c\\u000d\\u001b\\u001f\u{7f}\",\"output\":\"o.stm\",\"number\":7,\"device\":3,\"bytes\":12}",
    ),
    (
        "failed \u{0}\u{1}\u{8}\u{9}\u{c}\u{d}\u{1b}\u{1f}\u{7f}: chunk 3 does not check",
        "{\"status\":\"failed\",\"file\":\"\\u0000\\u0001\\u0008\\u0009\\u000c\\u000d\\u001b\\u001f\u{7f}\",\"output\":\"o.stm\",\"fault\":\"chunk 3 does not check\"}",
    ),
    (
        "good \u{0}\u{1}\u{8}\u{9}\u{c}\u{d}\u{1b}\u{1f}\u{7f} bytes 5",
        "{\"status\":\"good\",\"file\":\"\\u0000\\u0001\\u0008\\u0009\\u000c\\u000d\\u001b\\u001f\u{7f}\",\"output\":\"o.stm\",\"bytes\":5}",
    ),
    (
        "good \u{0}\u{1}\u{8}\u{9}\u{c}\u{d}\u{1b}\u{1f}\u{7f} bytes 5\n  version 1 chunk 65536 device 16777215 file 4294967295",
        "{\"status\":\"good\",\"file\":\"\\u0000\\u0001\\u0008\\u0009\\u000c\\u000d\\u001b\\u001f\u{7f}\",\"output\":\"o.stm\",\"bytes\":5,\"version\":1,\"chunk\":65536,\"device\":16777215,\"number\":4294967295}",
    ),
    (
        "sealed \u{1f512}\u{2028}\u{e9} file 7 bytes 12",
        "{\"status\":\"sealed\",\"file\":\"\u{1f512}\u{2028}\u{e9}\",\"output\":\"o.stm\",\"number\":7,\"device\":3,\"bytes\":12}",
    ),
    (
        "failed \u{1f512}\u{2028}\u{e9}: chunk 3 does not check",
        "{\"status\":\"failed\",\"file\":\"\u{1f512}\u{2028}\u{e9}\",\"output\":\"o.stm\",\"fault\":\"chunk 3 does not check\"}",
    ),
    (
        "good \u{1f512}\u{2028}\u{e9} bytes 5",
        "{\"status\":\"good\",\"file\":\"\u{1f512}\u{2028}\u{e9}\",\"output\":\"o.stm\",\"bytes\":5}",
    ),
    (
        "good \u{1f512}\u{2028}\u{e9} bytes 5\n  version 1 chunk 65536 device 16777215 file 4294967295",
        "{\"status\":\"good\",\"file\":\"\u{1f512}\u{2028}\u{e9}\",\"output\":\"o.stm\",\"bytes\":5,\"version\":1,\"chunk\":65536,\"device\":16777215,\"number\":4294967295}",
    ),
    (
        "sealed x bytes 3\n  version 1 chunk 65536 device 1 file 3 file 7 bytes 12",
        "{\"status\":\"sealed\",\"file\":\"x bytes 3\\u000a  version 1 chunk 65536 device 1 file 3\",\"output\":\"o.stm\",\"number\":7,\"device\":3,\"bytes\":12}",
    ),
    (
        "failed x bytes 3\n  version 1 chunk 65536 device 1 file 3: chunk 3 does not check",
        "{\"status\":\"failed\",\"file\":\"x bytes 3\\u000a  version 1 chunk 65536 device 1 file 3\",\"output\":\"o.stm\",\"fault\":\"chunk 3 does not check\"}",
    ),
    (
        "good x bytes 3\n  version 1 chunk 65536 device 1 file 3 bytes 5",
        "{\"status\":\"good\",\"file\":\"x bytes 3\\u000a  version 1 chunk 65536 device 1 file 3\",\"output\":\"o.stm\",\"bytes\":5}",
    ),
    (
        "good x bytes 3\n  version 1 chunk 65536 device 1 file 3 bytes 5\n  version 1 chunk 65536 device 16777215 file 4294967295",
        "{\"status\":\"good\",\"file\":\"x bytes 3\\u000a  version 1 chunk 65536 device 1 file 3\",\"output\":\"o.stm\",\"bytes\":5,\"version\":1,\"chunk\":65536,\"device\":16777215,\"number\":4294967295}",
    ),
    (
        "sealed  file 7 bytes 12",
        "{\"status\":\"sealed\",\"file\":\"\",\"output\":\"o.stm\",\"number\":7,\"device\":3,\"bytes\":12}",
    ),
    (
        "failed : chunk 3 does not check",
        "{\"status\":\"failed\",\"file\":\"\",\"output\":\"o.stm\",\"fault\":\"chunk 3 does not check\"}",
    ),
    (
        "good  bytes 5",
        "{\"status\":\"good\",\"file\":\"\",\"output\":\"o.stm\",\"bytes\":5}",
    ),
    (
        "good  bytes 5\n  version 1 chunk 65536 device 16777215 file 4294967295",
        "{\"status\":\"good\",\"file\":\"\",\"output\":\"o.stm\",\"bytes\":5,\"version\":1,\"chunk\":65536,\"device\":16777215,\"number\":4294967295}",
    ),
    (
        "kept a b",
        "{\"status\":\"kept\",\"file\":\"a b\",\"output\":\"o.stm\"}",
    ),
    (
        "opened a b.stm bytes 18446744073709551615",
        "{\"status\":\"opened\",\"file\":\"a b.stm\",\"output\":\"o.stm\",\"bytes\":18446744073709551615}",
    ),
    (
        "good a bytes 5\n  version 2 chunk 4096 device 0 file 0 label \"x \\x22\\x5c label \\x0a\\xc3\\xa9\"",
        "{\"status\":\"good\",\"file\":\"a\",\"output\":\"o.stm\",\"bytes\":5,\"version\":2,\"chunk\":4096,\"device\":0,\"number\":0,\"label\":\"x \\\"\\\\ label \\u000a\u{e9}\"}",
    ),
    (
        "good a bytes 5\n  version 2 chunk 4096 device 0 file 0 label \"\\xff\\xfe\"",
        "{\"status\":\"good\",\"file\":\"a\",\"output\":\"o.stm\",\"bytes\":5,\"version\":2,\"chunk\":4096,\"device\":0,\"number\":0,\"label_hex\":\"fffe\"}",
    ),
    (
        "good a bytes 5\n  version 2 chunk 4096 device 0 file 0 label \"\"",
        "{\"status\":\"good\",\"file\":\"a\",\"output\":\"o.stm\",\"bytes\":5,\"version\":2,\"chunk\":4096,\"device\":0,\"number\":0,\"label\":\"\"}",
    ),
    (
        "key 0123456789abcd device 1 ranges 2 given 3 left 4294967293",
        "{\"status\":\"ledger\",\"key\":\"0123456789abcd\",\"output\":\"o.stm\",\"device\":1,\"ranges\":2,\"given\":3,\"left\":4294967293}",
    ),
    (
        "legal: 2 granted, 1 sealed, 1 void, 0 open, 3 refused",
        "{\"status\":\"audit\",\"verdict\":\"legal\",\"output\":\"o.stm\",\"granted\":2,\"sealed\":1,\"void\":1,\"open\":0,\"refused\":3}",
    ),
    (
        "malformed line 1",
        "{\"status\":\"audit\",\"verdict\":\"malformed\",\"output\":\"o.stm\",\"line\":1}",
    ),
    (
        "illegal line 20",
        "{\"status\":\"audit\",\"verdict\":\"illegal\",\"output\":\"o.stm\",\"line\":20}",
    ),
    (
        "unchecked a version 1 chunk 65536 key 0a1b2c3d4e5f60 device 16777215 file 4294967295 bytes 5",
        "{\"status\":\"unchecked\",\"file\":\"a\",\"output\":\"o.stm\",\"version\":1,\"chunk\":65536,\"key\":\"0a1b2c3d4e5f60\",\"device\":16777215,\"number\":4294967295,\"bytes\":5}",
    ),
    (
        "unchecked a version 1 chunk 65536 key 0a1b2c3d4e5f60 device 0 file 0 bytes ?",
        "{\"status\":\"unchecked\",\"file\":\"a\",\"output\":\"o.stm\",\"version\":1,\"chunk\":65536,\"key\":\"0a1b2c3d4e5f60\",\"device\":0,\"number\":0}",
    ),
    (
        "unchecked a version 2 chunk 4096 key 0a1b2c3d4e5f60 device 1 file 2 bytes ? label \"\"",
        "{\"status\":\"unchecked\",\"file\":\"a\",\"output\":\"o.stm\",\"version\":2,\"chunk\":4096,\"key\":\"0a1b2c3d4e5f60\",\"device\":1,\"number\":2,\"label\":\"\"}",
    ),
    (
        "unchecked a version 2 chunk 4096 key 0a1b2c3d4e5f60 device 1 file 2 bytes 5 label \"a\\x22 label \\xc3\\xa4\"",
        "{\"status\":\"unchecked\",\"file\":\"a\",\"output\":\"o.stm\",\"version\":2,\"chunk\":4096,\"key\":\"0a1b2c3d4e5f60\",\"device\":1,\"number\":2,\"bytes\":5,\"label\":\"a\\\" label ä\"}",
    ),
    (
        "unchecked a version 2 chunk 4096 key 0a1b2c3d4e5f60 device 1 file 2 bytes 5 label \"\\xff\"",
        "{\"status\":\"unchecked\",\"file\":\"a\",\"output\":\"o.stm\",\"version\":2,\"chunk\":4096,\"key\":\"0a1b2c3d4e5f60\",\"device\":1,\"number\":2,\"bytes\":5,\"label_hex\":\"ff\"}",
    ),
    (
        "unchecked a version 2 chunk 8 key b device 1 file 2 bytes ? label \"l\" version 1 chunk 65536 key 0a1b2c3d4e5f60 device 0 file 0 bytes 7",
        "{\"status\":\"unchecked\",\"file\":\"a version 2 chunk 8 key b device 1 file 2 bytes ? label \\\"l\\\"\",\"output\":\"o.stm\",\"version\":1,\"chunk\":65536,\"key\":\"0a1b2c3d4e5f60\",\"device\":0,\"number\":0,\"bytes\":7}",
    ),
    (
        "unchecked a label \"\nb version 2 chunk 4096 key 0a1b2c3d4e5f60 device 0 file 0 bytes 7 label \"l\"",
        "{\"status\":\"unchecked\",\"file\":\"a label \\\"\\u000ab\",\"output\":\"o.stm\",\"version\":2,\"chunk\":4096,\"key\":\"0a1b2c3d4e5f60\",\"device\":0,\"number\":0,\"bytes\":7,\"label\":\"l\"}",
    ),
    (
        "key 0a1b2c3d4e5f60 no ranges",
        "{\"status\":\"ledger\",\"key\":\"0a1b2c3d4e5f60\",\"output\":\"o.stm\",\"ranges\":0,\"given\":0}",
    ),
    (
        "ledger: older than a older than b",
        "{\"status\":\"older\",\"file\":\"a older than b\",\"output\":\"o.stm\"}",
    ),
    (
        "not sealed sealed c",
        "{\"status\":\"not_sealed\",\"file\":\"sealed c\",\"output\":\"o.stm\"}",
    ),
    (
        "missing file 4294967295",
        "{\"status\":\"missing\",\"number\":4294967295,\"output\":\"o.stm\"}",
    ),
];

// Texts that are no line.
static OTHERS: [&str; 23] = [
    "",
    "sealed",
    "sealed a file  bytes 1",
    "sealed a file 1 bytes 1 ",
    "sealed a file x bytes 1",
    "opened a bytes -1",
    "good a",
    "failed a",
    "journal: write failed",
    "legal: 1 granted, 1 sealed, 0 void, 0 open, 0 refused.",
    "malformed line",
    "illegal line 1x",
    "unchecked a version 1 chunk 65536 key 0a1b2c3d4e5f60 device 0 file 0 bytes ??",
    "unchecked a version 1 chunk 65536 key 0a1b2c3d4e5f60 device 0 file 0 bytes 1 label",
    "unchecked a version 1 chunk 65536 key 0a1b2c3d4e5f60 device 0 file 0 bytes 1 label \"l\" ",
    "unchecked a version 1 chunk 65536 device 0 file 0 bytes 1",
    "key 0a1b2c3d4e5f60 no ranges ",
    "ledger: not there",
    "ledger: is older than a",
    "not a sealed file",
    "missing a",
    "missing files 1",
    "missing file x",
];

// Whether this is the object of that line.
fn is_object(alloc: Global, line: &str, wanted: &str) -> Result<bool, AllocError> {
    let Some(message) = message_of(line) else {
        return Ok(false);
    };
    let extras = Extras {
        device: Some("3"),
        output: Some("o.stm"),
    };
    let mut object = Vec::new(alloc);
    push_object(alloc, &mut object, &message, extras)?;
    Ok(object.strip_suffix(b"\n") == Some(wanted.as_bytes()))
}

#[test]
fn lines_become_objects(rt: HostRuntime) -> Result<(), AllocError> {
    for (line, object) in &OBJECTS {
        assert!(rt; is_object(rt.alloc(), line, object)?, "{line}");
    }
    Ok(())
}

#[test]
fn others_are_no_lines(rt: HostRuntime) {
    for text in &OTHERS {
        assert!(rt; message_of(text).is_none(), "{text}");
    }
}

// Lines of two runs, and others.
const LINES: &[u8] =
    b"sealed a file 0 bytes 1\nkept b\nsealed c/d file 1 bytes 1\n\xff\nsealed e file 4294967296 bytes 1\n\
    failed f: cannot open\nsealed g file 2 bytes 1\nsealed a file 5 bytes 1";

// Whether what is found has this name, and these numbers.
fn is_found(
    finding: Option<&Finding>,
    what: What,
    name: &str,
    number: Option<u32>,
    listed: Option<u32>,
) -> bool {
    match finding {
        Some(found) => {
            found.what == what
                && found.name.as_str() == name
                && found.number == number
                && found.listed == listed
        }
        None => false,
    }
}

// What is found of one container of each kind.
fn found_of(alloc: Global, into: Option<&str>, parents: bool) -> Result<Vec<Finding>, AllocError> {
    let mut listed = Listed::of(alloc, LINES, into, parents)?;
    listed.meet("a.stm", Some((5, 1)))?;
    listed.meet("g.stm", Some((2, 3)))?;
    listed.meet("e.stm", Some((0, 1)))?;
    listed.meet("h.stm", None)?;
    listed.end()
}

#[test]
fn outputs_are_compared(rt: HostRuntime) -> Result<(), AllocError> {
    let found = found_of(rt.alloc(), None, false)?;
    assert!(rt; found.len() == 3);
    assert!(rt; is_found(found.get(0), What::OtherNumber, "g.stm", Some(2), Some(2)));
    assert!(rt; is_found(found.get(1), What::NotListed, "e.stm", Some(0), None));
    assert!(rt; is_found(found.get(2), What::Missing, "c/d.stm", None, Some(1)));
    Ok(())
}

#[test]
fn outputs_in_a_folder_are_compared(rt: HostRuntime) -> Result<(), AllocError> {
    let found = found_of(rt.alloc(), Some("r/s/"), false)?;
    assert!(rt; found.len() == 6);
    assert!(rt; is_found(found.get(0), What::NotListed, "a.stm", Some(5), None));
    assert!(rt; is_found(found.get(3), What::Missing, "r/s/a.stm", None, Some(5)));
    assert!(rt; is_found(found.get(4), What::Missing, "r/s/d.stm", None, Some(1)));
    assert!(rt; is_found(found.get(5), What::Missing, "r/s/g.stm", None, Some(2)));
    Ok(())
}

#[test]
fn outputs_below_a_folder_are_compared(rt: HostRuntime) -> Result<(), AllocError> {
    let found = found_of(rt.alloc(), Some("r/s"), true)?;
    assert!(rt; found.len() == 6);
    assert!(rt; is_found(found.get(0), What::NotListed, "a.stm", Some(5), None));
    assert!(rt; is_found(found.get(3), What::Missing, "r/s/a.stm", None, Some(5)));
    assert!(rt; is_found(found.get(4), What::Missing, "r/s/c/d.stm", None, Some(1)));
    assert!(rt; is_found(found.get(5), What::Missing, "r/s/g.stm", None, Some(2)));
    Ok(())
}
