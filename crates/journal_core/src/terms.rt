//! What a ledger is opened with: a range of numbers, and how many seats may issue and settle them.
ghost use Rattle.std.specs.Prelude.{Some};
ghost use Rattle.journal_core.specs.Text.{terms_text};

use crate::range::Range;
use std::fmt;

/// The maximum number of seats.
pub const MAX_SEATS: u32 = 64;

/// A range and a number of seats. A ledger is opened with 1 to 64 seats, numbered from 0.
#[derive(Clone, Copy, PartialEq, Eq, Debug)]
pub struct Terms {
    pub range: Range,
    pub seats: u32,
}

/// The range line of a journal, without its line feed.
impl fmt::Display for Terms {
    ghost output = { λ t. Some (terms_text t) };

    fn fmt<W: fmt::Write>(&self, f: &mut fmt::Formatter<W>) -> fmt::Result {
        let (range, seats) = (self.range, self.seats);
        let (device, lo, size) = (range.device().number(), range.lo(), range.size());
        write!(f, "range {device} {lo} {size} {seats}")
    }
}
