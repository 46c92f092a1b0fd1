//! Lines as JSON objects, each in a line of its own. Every object begins with its status.
ghost use Rattle.std.specs.Prelude.{◌<◌, ◌≤◌, ◌≡◌, ◌↔◌, ◌∷◌, ◌++◌, [], ℕ, IfNone, IfOk, IfSome, IsTrue, List, OnOk, codes, length};
ghost use Rattle.std.specs.Prelude.{slice_index};
ghost use Rattle.line_core.specs.Json.{number_member, text_member};
ghost use Rattle.line_core.specs.Labels.{HasLabel, hex_digits, hex_member, hex_value, read_label};
ghost use Rattle.line_core.specs.Objects.{HasFacts, HasHeaderMembers, HasNumbers, HasTally, IsObject, facts_members, front_text, head};
ghost use Rattle.line_core.specs.Objects.{header_members, name_member, some_number, some_text, status_text};

use crate::json::{hex_glyph, push_number, push_text_member};
use crate::message::{Message, PrintedFacts};
use std::alloc::{AllocError, Global};
use std::str::from_utf8;

/// What an object has beside its line.
#[derive(Clone, Copy)]
pub struct Extras<'a> {
    /// The digits of the device under whose numbers the run seals.
    pub device: Option<&'a str>,
    /// The path of the output.
    pub output: Option<&'a str>,
}

/// Appends the object of a line, with a line feed.
pub fn push_object(
    alloc: Global,
    to: &mut Vec<u8>,
    message: &Message<'_>,
    extras: Extras<'_>,
) -> Result<(), AllocError>
    ensures { OnOk result ((object : List ℕ) × (to.new.items ≡ to.old.items ++ object)
        × IsObject message.now extras.entry.device extras.entry.output object) }
{
    push_front(to, message, extras.output)?;
    push_numbers(alloc, to, message, extras.device)?;
    to.extend_from_slice(b"}\n")?;
    Ok(())
}

// Appends an object up to the path of its output.
#[tactic(auto, unfolding(crate::specs::Objects::front_text))]
fn push_front(
    to: &mut Vec<u8>,
    message: &Message<'_>,
    output: Option<&str>,
) -> Result<(), AllocError>
    ensures { OnOk result (to.new.items ≡ to.old.items ++ front_text message.now output.entry) }
{
    push_head(to, status_of(message))?;
    push_name(to, message)?;
    push_some_text(to, "output", output)?;
    Ok(())
}

// The status of a line.
fn status_of(message: &Message<'_>) -> &'static str
    ensures { result.now ≡ status_text message.now }
{
    match *message {
        Message::Sealed { .. } => "sealed",
        Message::Kept { .. } => "kept",
        Message::Opened { .. } => "opened",
        Message::Good { .. } | Message::Shown { .. } => "good",
        Message::Failed { .. } => "failed",
        Message::Held { .. } => "ledger",
        Message::Legal { .. } | Message::Malformed { .. } | Message::Illegal { .. } => "audit",
        Message::Unchecked { .. } => "unchecked",
        Message::Unused { .. } => "ledger",
        Message::Older { .. } => "older",
        Message::NotSealed { .. } => "not_sealed",
        Message::Missing { .. } => "missing",
    }
}

// Appends what a line is about: its file, its key, its number or its verdict.
fn push_name(to: &mut Vec<u8>, message: &Message<'_>) -> Result<(), AllocError>
    ensures { OnOk result (to.new.items ≡ to.old.items ++ name_member message.now) }
{
    match *message {
        Message::Sealed { name, .. }
        | Message::Kept { name }
        | Message::Opened { name, .. }
        | Message::Good { name, .. }
        | Message::Shown { name, .. }
        | Message::Failed { name, .. }
        | Message::Unchecked { name, .. }
        | Message::Older { name }
        | Message::NotSealed { name } => push_text_member(to, "file", name),
        Message::Held { key, .. } | Message::Unused { key } => push_text_member(to, "key", key),
        Message::Legal { .. } => push_text_member(to, "verdict", "legal"),
        Message::Malformed { .. } => push_text_member(to, "verdict", "malformed"),
        Message::Illegal { .. } => push_text_member(to, "verdict", "illegal"),
        Message::Missing { number } => push_number(to, "number", number),
    }
}

// Appends the rest of a line's parts.
fn push_numbers(
    alloc: Global,
    to: &mut Vec<u8>,
    message: &Message<'_>,
    sealed_by: Option<&str>,
) -> Result<(), AllocError>
    ensures { OnOk result ((members : List ℕ) × (to.new.items ≡ to.old.items ++ members)
        × HasNumbers message.now sealed_by.entry members) }
{
    match *message {
        Message::Sealed { number, bytes, .. } => push_sealed(to, number, bytes, sealed_by)?,
        Message::Kept { .. } => {}
        Message::Opened { bytes, .. } | Message::Good { bytes, .. } => {
            push_number(to, "bytes", bytes)?
        }
        Message::Shown { bytes, facts, .. } => push_facts(alloc, to, bytes, &facts)?,
        Message::Failed { fault, .. } => push_text_member(to, "fault", fault)?,
        Message::Held {
            device,
            ranges,
            given,
            left,
            ..
        } => push_held(to, device, ranges, given, left)?,
        Message::Legal {
            granted,
            sealed,
            void,
            open,
            refused,
        } => push_tally(to, granted, sealed, void, open, refused)?,
        Message::Malformed { line } | Message::Illegal { line } => push_number(to, "line", line)?,
        Message::Unchecked {
            key,
            bytes,
            facts,
            ..
        } => push_unchecked(alloc, to, key, bytes, &facts)?,
        Message::Unused { .. } => push_none(to)?,
        Message::Older { .. } | Message::NotSealed { .. } | Message::Missing { .. } => {}
    }
    Ok(())
}

// Appends the numbers of a file that was sealed.
fn push_sealed(
    to: &mut Vec<u8>,
    number: &str,
    bytes: &str,
    device: Option<&str>,
) -> Result<(), AllocError>
    ensures { OnOk result (to.new.items ≡ to.old.items ++ number_member (codes "number") number.now
        ++ some_number (codes "device") device.entry ++ number_member (codes "bytes") bytes.now) }
{
    push_number(to, "number", number)?;
    push_some_number(to, "device", device)?;
    push_number(to, "bytes", bytes)
}

// Appends the numbers of a ledger's line.
fn push_held(
    to: &mut Vec<u8>,
    device: &str,
    ranges: &str,
    given: &str,
    left: &str,
) -> Result<(), AllocError>
    ensures { OnOk result (to.new.items ≡ to.old.items ++ number_member (codes "device") device.now
        ++ number_member (codes "ranges") ranges.now ++ number_member (codes "given") given.now
        ++ number_member (codes "left") left.now) }
{
    push_number(to, "device", device)?;
    push_number(to, "ranges", ranges)?;
    push_number(to, "given", given)?;
    push_number(to, "left", left)
}

// Appends the counts of a legal journal.
fn push_tally(
    to: &mut Vec<u8>,
    granted: &str,
    sealed: &str,
    void: &str,
    left: &str,
    refused: &str,
) -> Result<(), AllocError>
    ensures { OnOk result ((members : List ℕ) × (to.new.items ≡ to.old.items ++ members)
        × HasTally granted.now sealed.now void.now left.now refused.now members) }
{
    push_number(to, "granted", granted)?;
    push_number(to, "sealed", sealed)?;
    push_number(to, "void", void)?;
    push_number(to, "open", left)?;
    push_number(to, "refused", refused)?;
    Ok(())
}

// Appends the counts of a key without ranges.
fn push_none(to: &mut Vec<u8>) -> Result<(), AllocError>
    ensures { OnOk result (to.new.items ≡ to.old.items ++ number_member (codes "ranges") (codes "0")
        ++ number_member (codes "given") (codes "0")) }
{
    push_number(to, "ranges", "0")?;
    push_number(to, "given", "0")
}

/// Appends the beginning of an object: its status.
pub(crate) fn push_head(to: &mut Vec<u8>, status: &str) -> Result<(), AllocError>
    ensures { OnOk result (to.new.items ≡ to.old.items ++ head status.now) }
{
    to.extend_from_slice(b"{\"status\":\"")?;
    to.extend_from_slice(status.as_bytes())?;
    to.extend_from_slice(b"\"")
}

// Appends a member with a string, if there is one.
fn push_some_text(to: &mut Vec<u8>, name: &str, text: Option<&str>) -> Result<(), AllocError>
    ensures { OnOk result (to.new.items ≡ to.old.items ++ some_text name.now text.entry) }
{
    match text {
        Some(text) => push_text_member(to, name, text),
        None => Ok(()),
    }
}

// The same for a number.
fn push_some_number(to: &mut Vec<u8>, name: &str, digits: Option<&str>) -> Result<(), AllocError>
    ensures { OnOk result (to.new.items ≡ to.old.items ++ some_number name.now digits.entry) }
{
    match digits {
        Some(digits) => push_number(to, name, digits),
        None => Ok(()),
    }
}

// Appends the bytes and the facts of a good container.
fn push_facts(
    alloc: Global,
    to: &mut Vec<u8>,
    bytes: &str,
    facts: &PrintedFacts<'_>,
) -> Result<(), AllocError>
    ensures { OnOk result ((members : List ℕ) × (to.new.items ≡ to.old.items ++ members)
        × HasFacts bytes.now facts.now members) }
{
    push_header(to, bytes, facts)?;
    if let Some(label) = facts.label {
        push_label(alloc, to, label)?;
    }
    Ok(())
}

// Appends the bytes and the facts, but for the label.
#[tactic(auto, unfolding(crate::specs::Objects::facts_members))]
fn push_header(to: &mut Vec<u8>, bytes: &str, facts: &PrintedFacts<'_>) -> Result<(), AllocError>
    ensures { OnOk result (to.new.items ≡ to.old.items ++ facts_members bytes.now facts.now) }
{
    push_number(to, "bytes", bytes)?;
    push_number(to, "version", facts.version)?;
    push_number(to, "chunk", facts.chunk)?;
    push_number(to, "device", facts.device)?;
    push_number(to, "number", facts.number)?;
    Ok(())
}

// Appends what an unchecked header says.
fn push_unchecked(
    alloc: Global,
    to: &mut Vec<u8>,
    key: &str,
    bytes: Option<&str>,
    facts: &PrintedFacts<'_>,
) -> Result<(), AllocError>
    ensures { OnOk result ((members : List ℕ) × (to.new.items ≡ to.old.items ++ members)
        × HasHeaderMembers key.now bytes.entry facts.now members) }
{
    push_unlabelled(to, key, bytes, facts)?;
    if let Some(label) = facts.label {
        push_label(alloc, to, label)?;
    }
    Ok(())
}

// Appends what an unchecked header says, but for the label.
#[tactic(auto, unfolding(crate::specs::Objects::header_members))]
fn push_unlabelled(
    to: &mut Vec<u8>,
    key: &str,
    bytes: Option<&str>,
    facts: &PrintedFacts<'_>,
) -> Result<(), AllocError>
    ensures { OnOk result (to.new.items ≡ to.old.items ++ header_members key.now bytes.entry facts.now) }
{
    push_number(to, "version", facts.version)?;
    push_number(to, "chunk", facts.chunk)?;
    push_text_member(to, "key", key)?;
    push_number(to, "device", facts.device)?;
    push_number(to, "number", facts.number)?;
    push_some_number(to, "bytes", bytes)
}

// Appends a label: as text if its bytes are UTF-8, else the hexadecimal digits of its bytes.
fn push_label(alloc: Global, to: &mut Vec<u8>, shown: &str) -> Result<(), AllocError>
    ensures { OnOk result ((member : List ℕ) × (to.new.items ≡ to.old.items ++ member) × HasLabel shown.now member) }
{
    let label = label_bytes(alloc, shown)?;
    match from_utf8(label.as_slice()) {
        Ok(text) => push_text_member(to, "label", text)?,
        Err(_) => push_hex(to, label.as_slice())?,
    }
    Ok(())
}

// Appends the member of a label that is no text.
fn push_hex(to: &mut Vec<u8>, label: &[u8]) -> Result<(), AllocError>
    ensures { OnOk result (to.new.items ≡ to.old.items ++ hex_member label.now) }
{
    to.extend_from_slice(b",\"label_hex\":\"")?;
    let mut rest = label;
    'bytes: while let Some((first, more)) = rest.split_first() {
        push_digits(to, *first)?;
        rest = more;
    }
    to.push(b'"')?;
    Ok(())
}

// Appends the two digits of a byte.
#[tactic(auto, unfolding(crate::specs::Labels::hex_digits))]
fn push_digits(to: &mut Vec<u8>, byte: u8) -> Result<(), AllocError>
    ensures { OnOk result (to.new.items ≡ to.old.items ++ hex_digits byte) }
{
    to.push(hex_glyph(byte / 16))?;
    to.push(hex_glyph(byte % 16))?;
    Ok(())
}

// The bytes of a label that a line shows like this: `\xHH` is the byte of these digits, and each other byte is itself.
#[tactic(auto, unfolding(crate::specs::Labels::read_label))]
fn label_bytes(alloc: Global, shown: &str) -> Result<Vec<u8>, AllocError>
    ensures { IfOk result (λ label. label.items ≡ read_label shown.now) }
{
    let mut label = Vec::new(alloc);
    let mut rest = shown.as_bytes();
    'bytes: while let Some((byte, more)) = first_in(rest) {
        label.push(byte)?;
        rest = more;
    }
    Ok(label)
}

// The first byte of a label of which a line shows these bytes, and what shows the others.
fn first_in(shown: &[u8]) -> Option<(u8, &[u8])>
    ensures none { IfNone result (shown.now ≡ []) }
    ensures some { IfSome result (λ (byte, more). read_label shown.now ≡ byte ∷ read_label more.now) }
    ensures less { IfSome result (λ (byte, more). length more.now < length shown.now) }
{
    if is_escape(shown) {
        let byte = hex_value(shown[2]) * 16 + hex_value(shown[3]);
        return Some((byte, &shown[4..]));
    }
    match shown {
        [] => None,
        [first, more @ ..] => Some((*first, more)),
    }
}

// Whether the first bytes are a backslash, an x and two more.
fn is_escape(shown: &[u8]) -> bool
    ensures { IsTrue result ↔ ((4 ≤ length shown.now) × (slice_index shown.now 0 ≡ 92) × (slice_index shown.now 1 ≡ 120)) }
{
    shown.len() >= 4 && shown[0] == b'\\' && shown[1] == b'x'
}

// The value of a hexadecimal digit in small letters; 0 of another byte.
fn hex_value(digit: u8) -> u8
    ensures value { result ≡ hex_value digit }
    ensures small { result < 16 }
{
    match digit {
        b'0'..=b'9' => digit - b'0',
        b'a'..=b'f' => digit - b'a' + 10,
        _ => 0,
    }
}
