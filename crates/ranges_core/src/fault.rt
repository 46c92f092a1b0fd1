//! Why a call of the keeper was refused.
ghost use Rattle.std.specs.Prelude.{◌≡◌, Some};
ghost use Rattle.ranges_core.specs.Faults.{IsRefusal, fault_number, fault_of, reserve_text};

use sqlite::ErrorCode;
use std::error::Error;
use std::fmt;

/// Why a call was refused. What was committed before is unchanged.
#[derive(Clone, Copy, PartialEq, Eq, Debug)]
pub enum ReserveFault {
    /// The requested count is 0.
    ZeroCount,
    /// The requested count is over 65,535.
    TooMany,
    /// Fewer than the requested count are left of the 2^32 numbers of the key and device: only `left`.
    FieldSpent { left: u64 },
    /// The database refused a statement for another cause than memory. Or `open` found an open transaction, or tables
    /// other than those the keeper makes.
    Store,
    /// The database is not a ledger file: one of the two tables cannot be read, or the rows do not form lists of
    /// adjacent ranges.
    BadStore,
    /// The next range would begin below the number that the caller gave: the ledger file is an older one.
    BelowFloor,
    /// Memory was refused, to the database or for what the call holds.
    OutOfMemory,
}

impl ReserveFault {
    /// The fault of a call to which the database answered with this error.
    pub fn of(error: sqlite::Error) -> ReserveFault
        ensures value { result ≡ fault_of error }
        ensures named { IsRefusal result }
    {
        match error {
            sqlite::Error::SqliteFailure(ErrorCode::OutOfMemory) => ReserveFault::OutOfMemory,
            _ => ReserveFault::Store,
        }
    }

    /// The fault's number.
    pub fn number(self) -> u32
        ensures { result ≡ fault_number self }
    {
        match self {
            ReserveFault::ZeroCount => 30,
            ReserveFault::TooMany => 31,
            ReserveFault::FieldSpent { left: _ } => 32,
            ReserveFault::Store => 33,
            ReserveFault::BadStore => 34,
            ReserveFault::BelowFloor => 35,
            ReserveFault::OutOfMemory => 36,
        }
    }
}

impl fmt::Display for ReserveFault {
    ghost output = { λ fault. Some (reserve_text fault) };

    fn fmt<W: fmt::Write>(&self, f: &mut fmt::Formatter<W>) -> fmt::Result {
        match *self {
            ReserveFault::ZeroCount => write!(f, "no files"),
            ReserveFault::TooMany => write!(f, "too many files"),
            ReserveFault::FieldSpent { left } => write!(f, "{left} numbers left"),
            ReserveFault::Store => write!(f, "store failed"),
            ReserveFault::BadStore => write!(f, "not a ledger"),
            ReserveFault::BelowFloor => write!(f, "older than its witness"),
            ReserveFault::OutOfMemory => write!(f, "out of memory"),
        }
    }
}

impl Error for ReserveFault {}
