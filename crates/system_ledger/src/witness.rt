//! The rule of a witness: which ledger files a run refuses by what its witness says, and where its next range begins.
//!
//! A witness is a small text file, best on another volume, with a line for each key and device. A line says where the
//! next range begins, and which file the ledger is. So a ledger file that was put back, copied or made anew is noticed.
//! A witness is of one ledger file: all its lines name that.
ghost use Rattle.std.specs.Prelude.{◌≡◌, ◌≢◌, ◌↔◌, ◌+◌, ◌%◌, ◌^◌, Err, IfOk, IfSome, IsErr, IsTrue, None, Ok, false, true};
ghost use Rattle.system_ledger.specs.Witness.{Fits, HasRoom};

use crate::ledger::LedgerFault;
use std::io::ErrorKind;
use thiserror::Error;

/// Bytes of the longest witness that is read or written.
pub const MAX_BYTES: u64 = 1 << 24;

/// Lines of the longest witness: each has at most 181 bytes.
pub const MAX_LINES: u64 = 92_691;

/// Why a witness can't be used. The texts are those that the program prints.
#[derive(Clone, Copy, PartialEq, Eq, Debug, Error)]
pub enum WitnessFault {
    /// There is none, and none may be made.
    #[error("not there")]
    NotThere,
    /// It can't be read, or the ledger file can't be looked up: the system's error.
    #[error("cannot open")]
    CannotOpen(ErrorKind),
    /// It has no line of the run's key and device.
    #[error("no line of this key and device")]
    NoLine,
    /// No file can be made, written or named in its folder: the system's error.
    #[error("cannot create")]
    CannotCreate(ErrorKind),
    /// It is the ledger file, or a file beside that.
    #[error("cannot create")]
    OfLedger,
    /// It has no line, or a line of another form, or is too long.
    #[error("not a witness")]
    NotWitness,
    /// It has no room for another line.
    #[error("too many lines")]
    Full,
    /// Memory was refused.
    #[error("out of memory")]
    OutOfMemory,
}

/// Why a run may not begin by its witness.
#[derive(Clone, Copy)]
pub enum WitnessRefusal {
    /// The witness can't be used.
    Witness(WitnessFault),
    /// The ledger file isn't the one that the witness saw.
    Ledger(LedgerFault),
}

/// What tells a file from others that get its path.
#[derive(Clone, Copy, PartialEq, Eq)]
pub struct FileMark {
    /// The number of its device.
    pub device: u64,
    /// The number of its inode.
    pub inode: u64,
    /// When it was created, in nanoseconds since 1970, if the system tells that.
    pub born: Option<u64>,
}

impl FileMark {
    /// Returns whether both can be marks of one file: they have one inode and one time of creation. The number of a
    /// device can change while the system is down, so it counts only if one of the times is unknown.
    pub fn fits(&self, other: &FileMark) -> bool
        ensures { IsTrue result ↔ Fits self.now other.now }
    {
        if self.inode != other.inode {
            return false;
        }
        match (self.born, other.born) {
            (Some(born), Some(time)) => born == time,
            _ => self.device == other.device,
        }
    }
}

/// What a witness says, for one key and device.
#[derive(Clone, Copy)]
pub struct Seen {
    /// The mark of the ledger file.
    pub file: FileMark,
    /// The number at which the next range begins, if there is a line of the key and device.
    pub next: Option<u64>,
    /// How many lines it has.
    pub lines: u64,
}

impl Seen {
    /// Returns whether a run can renew the witness, with one line more if it has none of the key and device. Then the new
    /// text can be read again.
    pub fn has_room(&self) -> bool
        ensures { IsTrue result ↔ HasRoom self.now }
    {
        match self.next {
            Some(_) => self.lines <= MAX_LINES,
            None => self.lines < MAX_LINES,
        }
    }
}

/// Returns the least number with which the next range may begin, by what the witness says, if there is one, and by the
/// ledger file that is found. With `is_new` the witness takes another file for its ledger file, and gets a line of the
/// key and device. That never lowers a number.
pub fn floor_by(
    seen: Option<Seen>,
    found: Option<FileMark>,
    is_new: bool,
) -> Result<u64, WitnessRefusal>
    ensures unseen { seen ≡ None → result ≡ Ok 0 }
    ensures gone { seen ≢ None → found ≡ None → result ≡ Err (WitnessRefusal.Ledger LedgerFault.NotSeen) }
    ensures another { IfSome seen (λ seen. IfSome found (λ file. is_new ≡ false → (Fits seen.file file → ⊥)
        → result ≡ Err (WitnessRefusal.Ledger LedgerFault.NotSeen))) }
    ensures floor { IfOk result (λ floor. IfSome seen (λ seen. IfSome seen.next (λ next. floor ≡ next))) }
    ensures same { IfSome seen (λ seen. IfSome found (λ file. IfSome seen.next (λ next. Fits seen.file file
        → result ≡ Ok next))) }
    ensures moved { IfSome seen (λ seen. IfSome seen.next (λ next. found ≢ None → is_new ≡ true → result ≡ Ok next)) }
    ensures no_line { IfSome seen (λ seen. seen.next ≡ None → is_new ≡ false → IsErr result) }
{
    let Some(seen) = seen else {
        return Ok(0);
    };
    let Some(file) = found else {
        return Err(WitnessRefusal::Ledger(LedgerFault::NotSeen));
    };
    if !is_new && !seen.file.fits(&file) {
        return Err(WitnessRefusal::Ledger(LedgerFault::NotSeen));
    }
    match seen.next {
        Some(next) => Ok(next),
        None if is_new => Ok(0),
        None => Err(WitnessRefusal::Witness(WitnessFault::NoLine)),
    }
}

/// Returns the mark that a renewed witness gets: that of the ledger file `now`, if it is still the one `before` that the
/// run looked at, or if there was none.
pub fn mark_by(before: Option<FileMark>, now: Option<FileMark>) -> Result<FileMark, WitnessRefusal>
    ensures gone { now ≡ None → result ≡ Err (WitnessRefusal.Ledger LedgerFault.NotSeen) }
    ensures first { before ≡ None → IfSome now (λ now. result ≡ Ok now) }
    ensures same { IfSome before (λ before. IfSome now (λ now. Fits before now → result ≡ Ok now)) }
    ensures another { IfSome before (λ before. IfSome now (λ now. (Fits before now → ⊥)
        → result ≡ Err (WitnessRefusal.Ledger LedgerFault.NotSeen))) }
{
    let Some(now) = now else {
        return Err(WitnessRefusal::Ledger(LedgerFault::NotSeen));
    };
    match before {
        Some(before) if !before.fits(&now) => Err(WitnessRefusal::Ledger(LedgerFault::NotSeen)),
        _ => Ok(now),
    }
}

/// Returns whether a run over the ledger file `now` may renew a witness that names this file: it is the run's own, or
/// the one `moved` that the run was asked to replace.
pub fn may_renew(named: &FileMark, now: &FileMark, moved: Option<FileMark>) -> bool
    ensures own { Fits named.now now.now → result ≡ true }
    ensures moved { IfSome moved (λ moved. Fits moved named.now → result ≡ true) }
    ensures another { (Fits named.now now.now → ⊥) → moved ≡ None → result ≡ false }
    ensures others { IfSome moved (λ moved. (Fits named.now now.now → ⊥) → (Fits moved named.now → ⊥)
        → result ≡ false) }
{
    if named.fits(now) {
        return true;
    }
    match moved {
        Some(moved) => moved.fits(named),
        None => false,
    }
}

/// Returns the number in the name of a file beside the witness: the time when the run looked at it, and which of the
/// names is tried. Each try has another.
pub(crate) fn stamp_of(begun: u64, nth: u32) -> u64
    ensures { result ≡ (begun + nth) % 2 ^ 64 }
{
    begun.wrapping_add(u64::from(nth))
}
