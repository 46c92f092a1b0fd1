//! Names as lines show them. All values are written by hand.

use folder_core::{quote, unquote};
use std::alloc::{AllocError, Global};

// Names, with what a line shows of each.
static SHOWN: [(&[u8], &str); 18] = [
    (b"", ""),
    (b"a file.stm", "a file.stm"),
    (b"-", "-"),
    (b"a\\b", "a\\\\b"),
    (b"a\\nb", "a\\\\nb"),
    (b"a\nb", "a\\nb"),
    (b"\r\t", "\\r\\t"),
    (b"\x00\x08\x1b\x1f\x7f", "\\u{0}\\u{8}\\u{1b}\\u{1f}\\u{7f}"),
    (b" ~", " ~"),
    // U+0080, U+009F, and U+00A0 and U+00E9, which stay.
    (
        b"\xc2\x80\xc2\x9f\xc2\xa0\xc3\xa9",
        "\\u{80}\\u{9f}\u{a0}\u{e9}",
    ),
    // U+061C, U+FEFF, and U+061B and U+FEFE, which stay.
    (
        b"\xd8\x9c\xef\xbb\xbf\xd8\x9b\xef\xbb\xbe",
        "\\u{61c}\\u{feff}\u{61b}\u{fefe}",
    ),
    // U+200B, U+200F, and U+200A and U+2010, which stay.
    (
        b"\xe2\x80\x8b\xe2\x80\x8f\xe2\x80\x8a\xe2\x80\x90",
        "\\u{200b}\\u{200f}\u{200a}\u{2010}",
    ),
    // U+2028, U+202E, and U+2027 and U+202F, which stay.
    (
        b"\xe2\x80\xa8\xe2\x80\xae\xe2\x80\xa7\xe2\x80\xaf",
        "\\u{2028}\\u{202e}\u{2027}\u{202f}",
    ),
    // U+2060, U+2069, and U+205F and U+206A, which stay.
    (
        b"\xe2\x81\xa0\xe2\x81\xa9\xe2\x81\x9f\xe2\x81\xaa",
        "\\u{2060}\\u{2069}\u{205f}\u{206a}",
    ),
    (b"\xff", "\\xff"),
    (b"caf\xe9.stm", "caf\\xe9.stm"),
    // A character cut short, a surrogate, and what is no shortest form.
    (b"\xe2\x80a\xed\xa0\x80", "\\xe2\\x80a\\xed\\xa0\\x80"),
    (b"\xc0\x8a\n", "\\xc0\\x8a\\n"),
];

// Texts that show no name.
static UNREAD: [&str; 9] = [
    "\\",
    "\\q",
    "\\xff",
    "\\x41",
    "\\u",
    "\\u{",
    "\\u{1b",
    "\\u{d800}",
    "\\u{g}",
];

fn is_quoted(alloc: Global, name: &[u8], shown: &str) -> Result<bool, AllocError> {
    let text = quote(alloc, name)?;
    Ok(text.as_str() == shown)
}

// Whether this text shows this name, or shows none.
fn is_unquoted(alloc: Global, text: &str, wanted: Option<&str>) -> Result<bool, AllocError> {
    match (unquote(alloc, text)?, wanted) {
        (Some(name), Some(wanted)) => Ok(name.as_str() == wanted),
        (None, None) => Ok(true),
        _ => Ok(false),
    }
}

#[test]
fn names_are_shown(rt: HostRuntime) -> Result<(), AllocError> {
    for (name, shown) in &SHOWN {
        assert!(rt; is_quoted(rt.alloc(), name, shown)?, "{shown}");
    }
    Ok(())
}

#[test]
fn what_is_shown_is_read(rt: HostRuntime) -> Result<(), AllocError> {
    for (name, shown) in &SHOWN {
        let wanted = std::str::from_utf8(name).ok();
        assert!(rt; is_unquoted(rt.alloc(), shown, wanted)?, "{shown}");
    }
    for text in &UNREAD {
        assert!(rt; is_unquoted(rt.alloc(), text, None)?, "{text}");
    }
    Ok(())
}
