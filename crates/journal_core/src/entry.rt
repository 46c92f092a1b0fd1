//! The entries of a ledger's history, and their counts.
ghost use Rattle.std.specs.Prelude.{Some};
ghost use Rattle.journal_core.specs.Text.{entry_text};

use std::fmt;

/// How an issued number was settled.
#[derive(Clone, Copy, PartialEq, Eq, Debug)]
pub enum Way {
    /// A container was sealed under it.
    Sealed,
    /// It was given up, and nothing was sealed under it.
    Void,
}

/// A call of the ledger with its reply.
#[derive(Clone, Copy, PartialEq, Eq, Debug)]
pub enum Event {
    /// An issue that returned this number.
    Granted(u32),
    /// An issue that found no number left.
    Exhausted,
    /// A settlement of this number.
    Settled(u32, Way),
}

/// One operation of the ledger: the seat that called, and the call with its reply.
#[derive(Clone, Copy, PartialEq, Eq, Debug)]
pub struct Entry {
    pub seat: u32,
    pub event: Event,
}

impl fmt::Display for Entry {
    ghost output = { λ e. Some (entry_text e) };

    fn fmt<W: fmt::Write>(&self, f: &mut fmt::Formatter<W>) -> fmt::Result {
        let seat = self.seat;
        match self.event {
            Event::Granted(number) => write!(f, "{seat} issue {number}"),
            Event::Exhausted => write!(f, "{seat} issue none"),
            Event::Settled(number, Way::Sealed) => write!(f, "{seat} sealed {number}"),
            Event::Settled(number, Way::Void) => write!(f, "{seat} void {number}"),
        }
    }
}

/// How many entries of each kind a history has.
#[derive(Clone, Copy, PartialEq, Eq, Debug, Default)]
pub struct Tally {
    /// Numbers issued.
    pub granted: u32,
    /// Issues that found no number left.
    pub refused: u32,
    /// Numbers settled as sealed.
    pub sealed: u32,
    /// Numbers settled as void.
    pub void: u32,
}
