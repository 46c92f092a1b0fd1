//! JSON strings (RFC 8259, section 7), and members of objects. Bytes above 127 stay as they are, so a text in UTF-8 is a
//! string in UTF-8.
ghost use Rattle.std.specs.Prelude.{◌≡◌, ◌++◌, ◌<◌, OnOk};
ghost use Rattle.std.specs.Fmt.{digit_glyph};
ghost use Rattle.std.specs.Prelude.{false};
ghost use Rattle.line_core.specs.Json.{json_text, escaped, number_member, text_member};

use std::alloc::AllocError;

/// Appends a text as a JSON string, with its quotes.
pub fn push_string(to: &mut Vec<u8>, text: &str) -> Result<(), AllocError>
    ensures { OnOk result (to.new.items ≡ to.old.items ++ json_text text.now) }
{
    to.push(b'"')?;
    let mut rest = text.as_bytes();
    'bytes: while let Some((first, more)) = rest.split_first() {
        push_escaped(to, *first)?;
        rest = more;
    }
    to.push(b'"')?;
    Ok(())
}

// Appends what a string has for a byte.
#[tactic(auto, unfolding(crate::specs::Json::escaped))]
fn push_escaped(to: &mut Vec<u8>, byte: u8) -> Result<(), AllocError>
    ensures { OnOk result (to.new.items ≡ to.old.items ++ escaped byte) }
{
    if byte == b'"' || byte == b'\\' {
        to.push(b'\\')?;
        to.push(byte)?;
    } else if byte < 32 {
        to.extend_from_slice(b"\\u00")?;
        to.push(hex_glyph(byte / 16))?;
        to.push(hex_glyph(byte % 16))?;
    } else {
        to.push(byte)?;
    }
    Ok(())
}

/// Returns a hexadecimal digit.
pub(crate) fn hex_glyph(digit: u8) -> u8
    requires { digit < 16 }
    ensures { result ≡ digit_glyph false digit }
{
    if digit < 10 {
        b'0' + digit
    } else {
        b'a' - 10 + digit
    }
}

/// Appends a member of an object, after others: its name, and a string.
pub fn push_text_member(to: &mut Vec<u8>, name: &str, text: &str) -> Result<(), AllocError>
    ensures { OnOk result (to.new.items ≡ to.old.items ++ text_member name.now text.now) }
{
    to.extend_from_slice(b",\"")?;
    to.extend_from_slice(name.as_bytes())?;
    to.extend_from_slice(b"\":")?;
    push_string(to, text)
}

/// The same for a number, which is given by its digits.
pub fn push_number(to: &mut Vec<u8>, name: &str, digits: &str) -> Result<(), AllocError>
    ensures { OnOk result (to.new.items ≡ to.old.items ++ number_member name.now digits.now) }
{
    to.extend_from_slice(b",\"")?;
    to.extend_from_slice(name.as_bytes())?;
    to.extend_from_slice(b"\":")?;
    to.extend_from_slice(digits.as_bytes())
}
