//! The lines about headers that were read without a key.
ghost use Rattle.std.specs.Prelude.{Some};
ghost use Rattle.std.specs.Fmt.{WritesOnOk};
ghost use Rattle.command_core.specs.Facts.{label_part};
ghost use Rattle.system_files.specs.Shown.{alone_text, bytes_text, hex_byte, hex_text};

use crate::seen::SeenHeader;
use command_core::{Facts, ShownLabel, hex_digit};
use std::fmt;
use std::fmt::Write;

/// The line of a container that `show` looked at.
#[derive(Clone, Copy)]
pub struct Shown<'a> {
    /// The name, as it was given.
    pub name: &'a str,
    pub seen: SeenHeader,
    /// How many bytes its plaintext has, if there is a container of the file's length.
    pub bytes: Option<u64>,
}

/// The line, without a line feed: `unchecked FILE version V chunk C key ID device D file N bytes B label "L"`. In version 1
/// there is no label.
impl fmt::Display for Shown<'_> {
    fn fmt<W: fmt::Write>(&self, f: &mut fmt::Formatter<W>) -> fmt::Result {
        let name = self.name;
        let (version, chunk) = (self.seen.facts.version, self.seen.facts.chunk);
        let (device, number) = (self.seen.facts.device, self.seen.facts.number);
        let (key, bytes, end) = (
            Hex(&self.seen.hint),
            Length(self.bytes),
            End(&self.seen.facts),
        );
        write!(
            f,
            "unchecked {name} version {version} chunk {chunk} key {key} device {device} file {number} bytes {bytes}{end}"
        )
    }
}

// The label, in version 2.
#[derive(Clone, Copy)]
struct End<'a>(&'a Facts);

impl fmt::Display for End<'_> {
    ghost output = { λ end. Some (label_part end.0.now) };

    fn fmt<W: fmt::Write>(&self, f: &mut fmt::Formatter<W>) -> fmt::Result {
        if self.0.version == 1 {
            return Ok(());
        }
        let label = ShownLabel(&self.0.label[..self.0.length as usize]);
        write!(f, " label {label}")
    }
}

// How many bytes, or a question mark.
#[derive(Clone, Copy)]
struct Length(Option<u64>);

impl fmt::Display for Length {
    ghost output = { λ length. Some (bytes_text length.0) };

    fn fmt<W: fmt::Write>(&self, f: &mut fmt::Formatter<W>) -> fmt::Result {
        match self.0 {
            Some(bytes) => write!(f, "{bytes}"),
            None => f.write_str("?"),
        }
    }
}

/// The line of a key of which a ledger has no range.
#[derive(Clone, Copy)]
pub struct KeyAlone {
    /// The key's hint.
    pub hint: [u8; 7],
}

/// The line, without a line feed.
impl fmt::Display for KeyAlone {
    ghost output = { λ key. Some (alone_text key.hint) };

    fn fmt<W: fmt::Write>(&self, f: &mut fmt::Formatter<W>) -> fmt::Result {
        let key = Hex(&self.hint);
        write!(f, "key {key} no ranges")
    }
}

// Bytes in hexadecimal digits.
#[derive(Clone, Copy)]
struct Hex<'a>(&'a [u8]);

impl fmt::Display for Hex<'_> {
    ghost output = { λ bytes. Some (hex_text bytes.0.now) };

    fn fmt<W: fmt::Write>(&self, f: &mut fmt::Formatter<W>) -> fmt::Result {
        write_hex(f, self.0)
    }
}

fn write_hex<W: Write>(f: &mut fmt::Formatter<W>, bytes: &[u8]) -> fmt::Result
    ensures { WritesOnOk W.write_str_gives f.old result (hex_text bytes.now) f.new }
{
    'bytes: for at in 0..bytes.len() {
        write_hex_byte(f, bytes[at])?;
    }
    Ok(())
}

fn write_hex_byte<W: Write>(f: &mut fmt::Formatter<W>, byte: u8) -> fmt::Result
    ensures { WritesOnOk W.write_str_gives f.old result (hex_byte byte) f.new }
{
    f.write_char(hex_digit(byte / 16))?;
    f.write_char(hex_digit(byte % 16))
}
