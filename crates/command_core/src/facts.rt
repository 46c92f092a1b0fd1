//! What a good container's header says, as `verify --show` prints it. The tags of all chunks cover the header.
ghost use Rattle.std.specs.Prelude.{◌≡◌, ◌<◌, Some, false};
ghost use Rattle.std.specs.Fmt.{WritesOnOk, digit_glyph};
ghost use Rattle.command_core.specs.Facts.{IsOfHeader, byte_text, facts_text, is_printed, label_text, quoted_label};

use container_core::{Header, MAX_LABEL};
use std::fmt;
use std::fmt::Write;

/// What a header says.
#[derive(Clone, Copy, PartialEq, Eq, Debug)]
pub struct Facts {
    /// 1 or 2.
    pub version: u8,
    /// Plaintext bytes of every chunk but the last.
    pub chunk: u32,
    /// The device under whose numbers the file was sealed.
    pub device: u32,
    /// The file's number.
    pub number: u32,
    /// The label's bytes, then zeros.
    pub label: [u8; 255],
    /// How many bytes the label has: 0 in version 1.
    pub length: u8,
}

impl Facts {
    /// Returns what this header says.
    pub fn of(header: &Header) -> Facts
        ensures { IsOfHeader result header.now }
    {
        let bytes = header.bytes();
        let [a, b, c, d, e, f, g] = header.prefix();
        let label = header.label();
        let length = label.len();
        let mut image = [0; MAX_LABEL];
        image[..length].copy_from_slice(label);
        Facts {
            version: bytes[8],
            chunk: header.chunk() as u32,
            device: u32::from_be_bytes([0, a, b, c]),
            number: u32::from_be_bytes([d, e, f, g]),
            label: image,
            length: length as u8,
        }
    }
}

/// The second line of a file that `verify --show` found good, without its line feed.
impl fmt::Display for Facts {
    ghost output = { λ facts. Some (facts_text facts) };

    #[tactic(auto, unfolding(crate::specs::Facts::facts_text))]
    fn fmt<W: fmt::Write>(&self, f: &mut fmt::Formatter<W>) -> fmt::Result {
        let version = self.version;
        let chunk = self.chunk;
        let device = self.device;
        let number = self.number;
        write!(
            f,
            "  version {version} chunk {chunk} device {device} file {number}"
        )?;
        if version == 1 {
            return Ok(());
        }
        let label = ShownLabel(&self.label[..self.length as usize]);
        write!(f, " label {label}")
    }
}

/// A label as lines show it: between quotes. No byte of it can end the quotes or the line.
#[derive(Clone, Copy, Debug)]
pub struct ShownLabel<'a>(pub &'a [u8]);

impl fmt::Display for ShownLabel<'_> {
    ghost output = { λ label. Some (quoted_label label.0.now) };

    fn fmt<W: fmt::Write>(&self, f: &mut fmt::Formatter<W>) -> fmt::Result {
        f.write_char('"')?;
        write_label(f, self.0)?;
        f.write_char('"')
    }
}

fn write_label<W: Write>(f: &mut fmt::Formatter<W>, label: &[u8]) -> fmt::Result
    ensures { WritesOnOk W.write_str_gives f.old result (label_text label.now) f.new }
{
    'bytes: for at in 0..label.len() {
        write_byte(f, label[at])?;
    }
    Ok(())
}

fn write_byte<W: Write>(f: &mut fmt::Formatter<W>, byte: u8) -> fmt::Result
    ensures { WritesOnOk W.write_str_gives f.old result (byte_text byte) f.new }
{
    if is_printed(byte) {
        f.write_char(char::from(byte))
    } else {
        f.write_str("\\x")?;
        f.write_char(hex_digit(byte / 16))?;
        f.write_char(hex_digit(byte % 16))
    }
}

// Whether a byte of a label is printed as it is.
fn is_printed(byte: u8) -> bool
    ensures { result ≡ is_printed byte }
{
    byte > 31 && byte < 127 && byte != b'"' && byte != b'\\'
}

/// Returns a hexadecimal digit, in small letters.
pub fn hex_digit(digit: u8) -> char
    requires { digit < 16 }
    ensures value { result ≡ digit_glyph false digit }
    ensures ascii { result < 128 }
{
    char::from(if digit < 10 {
        b'0' + digit
    } else {
        b'a' - 10 + digit
    })
}
