//! The numbers that a journal settles as sealed, and whether containers have them.
ghost use Rattle.std.specs.Prelude.{◌≡◌, IfOk};

use io_core::{Failed, Source};
use std::alloc::{AllocError, Global};

/// Bytes of the longest journal that is kept. A legal one has at most 131,135 lines of 35 bytes.
const MAX_JOURNAL: usize = 5 << 20;

/// A reader that keeps what it gives, up to the length of the longest legal journal.
#[derive(Drop)]
pub struct Keeping<R: Source + Drop> {
    reader: R,
    text: Vec<u8>,
    is_whole: bool,
}

impl<R: Source + Drop> Keeping<R> {
    /// Reads this.
    pub fn of(alloc: Global, reader: R) -> Keeping<R>
        ensures { result.reader ≡ reader }
    {
        Keeping {
            reader,
            text: Vec::new(alloc),
            is_whole: true,
        }
    }

    /// Returns what was read. `None` if that is longer than a legal journal, or memory was refused.
    pub fn text(&self) -> Option<&[u8]> {
        if self.is_whole {
            Some(self.text.as_slice())
        } else {
            None
        }
    }
}

impl<R: Source + Drop> Source for Keeping<R> {
    ghost left = { λ keeping. R.left keeping.reader };

    ghost failures = { λ keeping. R.failures keeping.reader };

    fn read(&mut self, buffer: &mut [u8]) -> Result<usize, Failed> {
        let read = self.reader.read(buffer);
        if let Ok(n) = &read {
            let n = *n;
            let fits = n <= MAX_JOURNAL - self.text.len().min(MAX_JOURNAL);
            self.is_whole = self.is_whole
                && fits
                && self.text.extend_from_slice(&buffer[..n]).is_ok();
        }
        read
    }
}

/// What a journal says of a number of its range.
#[derive(Clone, Copy, PartialEq, Eq)]
enum NumberState {
    /// It isn't settled as sealed.
    Other,
    /// It is, and no container has it yet.
    Sealed,
    /// It is, and a container has it.
    Found,
}

/// The numbers of a journal's range, with what it says of each.
#[derive(Drop)]
pub struct SealedNumbers {
    device: u32,
    lo: u32,
    states: Vec<NumberState>,
}

impl SealedNumbers {
    /// Returns the numbers that a legal journal settles as sealed. `Ok(None)` if the text isn't of that form.
    pub fn of(alloc: Global, journal: &[u8]) -> Result<Option<SealedNumbers>, AllocError> {
        let Ok(text) = std::str::from_utf8(journal) else {
            return Ok(None);
        };
        let Some((first, rest)) = text.split_once('\n') else {
            return Ok(None);
        };
        let Some((device, lo, size)) = range_in(first) else {
            return Ok(None);
        };
        let mut states = Vec::new(alloc);
        states.resize(size as usize, NumberState::Other)?;
        let mut sealed = SealedNumbers { device, lo, states };
        for line in rest.split('\n') {
            if let Some((_, number)) = line.split_once(" sealed ") {
                sealed.note(number);
            }
        }
        Ok(Some(sealed))
    }

    // Notes that a number is settled as sealed.
    fn note(&mut self, number: &str) {
        let Ok(number) = number.parse::<u32>() else {
            return;
        };
        let Some(k) = number.checked_sub(self.lo) else {
            return;
        };
        if let Some(state) = self.states.get_mut(k as usize) {
            *state = NumberState::Sealed;
        }
    }

    /// Returns whether the number of a container of this device is settled as sealed, and notes that a container has it.
    pub fn find(&mut self, device: u32, number: u32) -> bool {
        if device != self.device || number < self.lo {
            return false;
        }
        let k = (number - self.lo) as usize;
        if k >= self.states.len() || self.states[k] == NumberState::Other {
            return false;
        }
        self.states[k] = NumberState::Found;
        true
    }

    /// Returns the next number from `from` on, counted from the range's first, that is settled as sealed and that no
    /// container has. With it comes where to go on.
    pub fn missing(&self, from: usize) -> Option<(u32, usize)> {
        for k in from..self.states.len() {
            if self.states[k] == NumberState::Sealed {
                return Some((
                    self.lo.saturating_add(u32::try_from(k).unwrap_or(u32::MAX)),
                    k + 1,
                ));
            }
        }
        None
    }
}

// The device, the first number and the size of a range line.
fn range_in(line: &str) -> Option<(u32, u32, u32)> {
    let mut words = line.split(' ');
    if words.next() != Some("range") {
        return None;
    }
    let device = words.next()?.parse().ok()?;
    let lo = words.next()?.parse().ok()?;
    let size: u32 = words.next()?.parse().ok()?;
    if size > 65_535 {
        return None;
    }
    Some((device, lo, size))
}
