//! The text of a witness: a line for each key and device.
//!
//! A line is `key`, the key ID in 64 digits, `device` and its number, `next` and where the next range begins, and `file`
//! with what marks the ledger file: device, inode, and the time of its creation or `-`.
use crate::ledger::LedgerFault;
use crate::witness::{FileMark, MAX_BYTES, Seen, WitnessFault, WitnessRefusal, may_renew};
use journal_core::Device;
use reserve_core::NUMBERS;
use std::alloc::{AllocError, Global};
use std::fmt;
use std::fmt::{Display, Formatter, Write as _};

// What the text of a witness says for this owner. `None` if it is no witness: it has a line or more, each of the form,
// all of one ledger file, and one of the owner at most.
pub(crate) fn seen_in(bytes: &[u8], owner: &str) -> Option<Seen> {
    let text = std::str::from_utf8(bytes).ok()?;
    if !text.ends_with('\n') {
        return None;
    }
    let mut file = None;
    let mut next = None;
    for line in text.lines() {
        let line = line_in(line)?;
        if file.is_some() && file != Some(line.file) {
            return None;
        }
        file = Some(line.file);
        if line.owner == owner {
            if next.is_some() {
                return None;
            }
            next = Some(line.next);
        }
    }
    Some(Seen {
        file: file?,
        next,
        lines: text.lines().count() as u64,
    })
}

// A line of a witness: the key ID and device as text, where the next range begins, and the mark of the ledger file.
#[derive(Clone, Copy)]
pub(crate) struct WitnessLine<'a> {
    pub(crate) owner: &'a str,
    pub(crate) next: u64,
    pub(crate) file: FileMark,
}

fn line_in(line: &str) -> Option<WitnessLine<'_>> {
    let (owner, rest) = line.split_once(" next ")?;
    let (next, file) = rest.split_once(" file ")?;
    let (device, rest) = file.split_once(' ')?;
    let (inode, born) = rest.split_once(' ')?;
    let next = number_in(next)?;
    if !is_owner(owner) || next > NUMBERS {
        return None;
    }
    let file = FileMark {
        device: number_in(device)?,
        inode: number_in(inode)?,
        born: if born == "-" {
            None
        } else {
            Some(number_in(born)?)
        },
    };
    Some(WitnessLine { owner, next, file })
}

// Whether a text is `key`, 64 digits, `device` and a number, as a line begins.
fn is_owner(text: &str) -> bool {
    let Some(rest) = text.strip_prefix("key ") else {
        return false;
    };
    match rest.split_once(" device ") {
        Some((key, device)) => {
            let are_digits = key
                .bytes()
                .all(|byte| matches!(byte, b'0'..=b'9' | b'a'..=b'f'));
            key.len() == 64 && are_digits && number_in(device).is_some()
        }
        None => false,
    }
}

// A number in at most 20 digits, and nothing else.
fn number_in(text: &str) -> Option<u64> {
    if text.starts_with('+') || text.len() > 20 {
        return None;
    }
    text.parse::<u64>().ok()
}

// How a line begins: the key ID and the device.
pub(crate) fn owner_text(
    alloc: Global,
    key_id: &[u8; 32],
    device: Device,
) -> Result<String, AllocError> {
    let key = Digits(key_id);
    let device = device.number();
    format!(in alloc; "key {key} device {device}")
}

#[derive(Clone, Copy)]
struct Digits<'a>(&'a [u8; 32]);

impl Display for Digits<'_> {
    fn fmt<W: fmt::Write>(&self, f: &mut Formatter<W>) -> fmt::Result {
        for byte in self.0 {
            write!(f, "{byte:02x}")?;
        }
        Ok(())
    }
}

impl Display for WitnessLine<'_> {
    fn fmt<W: fmt::Write>(&self, f: &mut Formatter<W>) -> fmt::Result {
        let (owner, next, file) = (self.owner, self.next, self.file);
        let (device, inode) = (file.device, file.inode);
        match file.born {
            Some(born) => writeln!(f, "{owner} next {next} file {device} {inode} {born}"),
            None => writeln!(f, "{owner} next {next} file {device} {inode} -"),
        }
    }
}

// The text of a witness, with this line for its owner, and with the line's ledger file in all others. It never replaces
// what is no witness, or that of another ledger file than the line's or the one `moved`, and lowers no number.
pub(crate) fn renewed(
    alloc: Global,
    old: &[u8],
    line: WitnessLine<'_>,
    moved: Option<FileMark>,
) -> Result<String, WitnessRefusal> {
    let no_witness = WitnessRefusal::Witness(WitnessFault::NotWitness);
    let (Some(seen), Ok(text)) = (seen_in(old, line.owner), std::str::from_utf8(old)) else {
        return Err(no_witness);
    };
    if !may_renew(&seen.file, &line.file, moved) || seen.next.unwrap_or(0) > line.next {
        return Err(WitnessRefusal::Ledger(LedgerFault::NotSeen));
    }
    let Ok(new) = with_line(alloc, text, line) else {
        return Err(WitnessRefusal::Witness(WitnessFault::OutOfMemory));
    };
    match new {
        Some(new) if new.len() as u64 <= MAX_BYTES => Ok(new),
        Some(_) => Err(WitnessRefusal::Witness(WitnessFault::Full)),
        None => Err(no_witness),
    }
}

// The lines of a witness, with this one in the place of its owner's or at the end. `None` if one is no line.
fn with_line(
    alloc: Global,
    text: &str,
    line: WitnessLine<'_>,
) -> Result<Option<String>, fmt::Error> {
    let mut new = String::new(alloc);
    let mut is_there = false;
    for other in text.lines() {
        let Some(other) = line_in(other) else {
            return Ok(None);
        };
        let is_owners = other.owner == line.owner;
        let next = if is_owners { line.next } else { other.next };
        let file = line.file;
        write!(
            new,
            "{}",
            WitnessLine {
                next,
                file,
                ..other
            }
        )?;
        is_there = is_there || is_owners;
    }
    if !is_there {
        write!(new, "{line}")?;
    }
    Ok(Some(new))
}
