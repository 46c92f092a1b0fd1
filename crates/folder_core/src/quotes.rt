//! Names as a line shows them, and back. Escaped are a backslash, an end of line, a control character, a mark of direction,
//! a character without width, and each byte that is in no character. So a name is in one line, and no two are shown alike.
ghost use Rattle.std.specs.Prelude.{◌≡◌, ◌++◌, ◌<◌, ◌+◌, IfOk, IfSome, MatchOption, OnOk, drop, encode_utf8_all, length};
ghost use Rattle.std.specs.Prelude.{option_map, option_to_list, slice_index, string_bytes, take};
ghost use Rattle.std.specs.Str.Lossy.{utf8_valid_len};
ghost use Rattle.folder_core.specs.Quotes.{ends, is_hidden, quoted, quoted_byte, quoted_text, read_on, shown, unquoted};

use std::alloc::{AllocError, Global};
use std::str::from_utf8;

/// What was read of an escape.
#[derive(Clone, Copy)]
pub enum Escape {
    /// Nothing: the next character isn't in one.
    Outside,
    /// Its backslash.
    Begun,
    /// `\u`.
    Named,
    /// `\u{` and digits of this value.
    Digits(u32),
}

/// Returns a name as a line shows it: `\\` for a backslash, `\n`, `\r` and `\t`, `\u{..}` for other control characters,
/// U+2028, U+2029, marks of direction and characters without width, and `\xHH` for a byte that is in no character.
pub fn quote(alloc: Global, name: &[u8]) -> Result<String, AllocError>
    ensures { IfOk result (λ text. string_bytes text ≡ quoted name.now) }
{
    let mut text = String::new(alloc);
    let mut rest = name;
    'bytes: loop {
        let (front, back) = cut(rest);
        push_text(alloc, &mut text, front)?;
        let Some((byte, more)) = back else {
            return Ok(text);
        };
        push_byte(alloc, &mut text, byte)?;
        rest = more;
    }
}

// The text that these bytes begin with, and the byte and what follows it that end that text, if some do.
fn cut(bytes: &[u8]) -> (&str, Option<(u8, &[u8])>)
    ensures front { result.0.now ≡ take (utf8_valid_len bytes.now) bytes.now }
    ensures back { MatchOption result.1 (utf8_valid_len bytes.now ≡ length bytes.now)
        (λ back. (utf8_valid_len bytes.now < length bytes.now)
        × (back.0 ≡ slice_index bytes.now (utf8_valid_len bytes.now))
        × (back.1.now ≡ drop (utf8_valid_len bytes.now + 1) bytes.now)) }
{
    match from_utf8(bytes) {
        Ok(text) => (text, None),
        Err(error) => {
            let (front, back) = bytes.split_at(error.valid_up_to());
            let front = from_utf8(front).unwrap_or("");
            match back.split_first() {
                Some((byte, more)) => (front, Some((*byte, more))),
                None => (front, None),
            }
        }
    }
}

// Appends a text as a line shows it.
fn push_text(alloc: Global, to: &mut String, text: &str) -> Result<(), AllocError>
    ensures { OnOk result (string_bytes to.new ≡ string_bytes to.old ++ quoted_text text.now) }
{
    for c in text.chars() {
        push_char(alloc, to, c)?;
    }
    Ok(())
}

// Appends what a line shows for a character.
fn push_char(alloc: Global, to: &mut String, c: char) -> Result<(), AllocError>
    ensures { OnOk result (string_bytes to.new ≡ string_bytes to.old ++ encode_utf8_all (shown c)) }
{
    match c {
        '\\' => to.push_str("\\\\"),
        '\n' => to.push_str("\\n"),
        '\r' => to.push_str("\\r"),
        '\t' => to.push_str("\\t"),
        _ if is_hidden(c) => {
            let code = u32::from(c);
            let escape = format!(in alloc; "\\u{{{code:x}}}")?;
            to.push_str(escape.as_str())
        }
        _ => to.push(c),
    }
}

// Appends what a line shows for a byte that is in no character.
fn push_byte(alloc: Global, to: &mut String, byte: u8) -> Result<(), AllocError>
    ensures { OnOk result (string_bytes to.new ≡ string_bytes to.old ++ quoted_byte byte) }
{
    let escape = format!(in alloc; "\\x{byte:02x}")?;
    to.push_str(escape.as_str())
}

// Whether a line shows an escape for this character, besides those with a letter of their own.
fn is_hidden(c: char) -> bool
    ensures { result ≡ is_hidden c }
{
    c.is_control()
        || c == '\u{61c}'
        || matches!(c, '\u{200b}'..='\u{200f}' | '\u{2028}'..='\u{202e}' | '\u{2060}'..='\u{2069}')
        || c == '\u{feff}'
}

/// Returns the name that a line shows as this text. `None` if it isn't UTF-8, or the text has escapes of other kinds.
pub fn unquote(alloc: Global, text: &str) -> Result<Option<String>, AllocError>
    ensures { IfOk result (λ name. option_map string_bytes name ≡ unquoted text.now) }
{
    let mut name = String::new(alloc);
    let mut escape = Escape::Outside;
    for c in text.chars() {
        let Some((next, read)) = read_on(escape, c) else {
            return Ok(None);
        };
        push_some(&mut name, read)?;
        escape = next;
    }
    Ok(ended(escape, name))
}

// What was read, if nothing is left of an escape.
fn ended(escape: Escape, name: String) -> Option<String>
    ensures { option_map string_bytes result ≡ option_map (λ _. string_bytes name) (ends escape) }
{
    match escape {
        Escape::Outside => Some(name),
        Escape::Begun | Escape::Named | Escape::Digits(_) => None,
    }
}

// Appends a character, if there is one.
fn push_some(to: &mut String, read: Option<char>) -> Result<(), AllocError>
    ensures { OnOk result (string_bytes to.new ≡ string_bytes to.old ++ encode_utf8_all (option_to_list read)) }
{
    match read {
        Some(c) => to.push(c),
        None => Ok(()),
    }
}

// What a character says after what was read of an escape.
#[tactic(auto, unfolding(crate::specs::Quotes::read_on))]
fn read_on(escape: Escape, c: char) -> Option<(Escape, Option<char>)>
    ensures { result ≡ read_on escape c }
{
    match escape {
        Escape::Outside if c == '\\' => Some((Escape::Begun, None)),
        Escape::Outside => Some((Escape::Outside, Some(c))),
        Escape::Begun => after_backslash(c),
        Escape::Named if c == '{' => Some((Escape::Digits(0), None)),
        Escape::Named => None,
        Escape::Digits(code) => in_digits(code, c),
    }
}

// The same after a backslash.
#[tactic(auto, unfolding(crate::specs::Quotes::read_on))]
fn after_backslash(c: char) -> Option<(Escape, Option<char>)>
    ensures { result ≡ read_on Escape.Begun c }
{
    match c {
        '\\' => Some((Escape::Outside, Some('\\'))),
        'n' => Some((Escape::Outside, Some('\n'))),
        'r' => Some((Escape::Outside, Some('\r'))),
        't' => Some((Escape::Outside, Some('\t'))),
        'u' => Some((Escape::Named, None)),
        _ => None,
    }
}

// The same after digits of this value.
#[tactic(auto, unfolding(crate::specs::Quotes::read_on))]
fn in_digits(code: u32, c: char) -> Option<(Escape, Option<char>)>
    ensures { result ≡ read_on (Escape.Digits code) c }
{
    if c == '}' {
        return match char::from_u32(code) {
            Some(read) => Some((Escape::Outside, Some(read))),
            None => None,
        };
    }
    let Some(digit) = c.to_digit(16) else {
        return None;
    };
    let more = u64::from(code) * 16 + u64::from(digit);
    if more < 0x11_0000 {
        Some((Escape::Digits(more as u32), None))
    } else {
        None
    }
}
