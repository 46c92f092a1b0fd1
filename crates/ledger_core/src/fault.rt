//! Why a call of the shared ledger was refused.
ghost use Rattle.std.specs.Prelude.{◌≡◌};
ghost use Rattle.ledger_core.specs.Shared.{open_fault_number, issue_fault_number, settle_fault_number};

use thiserror::Error;

/// Why no shared ledger was opened.
#[derive(Clone, Copy, PartialEq, Eq, Debug, Error)]
pub enum OpenLedgerFault {
    /// The number of seats is 0 or over 64.
    #[error("bad seats")]
    BadSeats,
    /// Memory could not be allocated.
    #[error("out of memory")]
    OutOfMemory,
}

impl OpenLedgerFault {
    /// The fault's number.
    pub fn number(self) -> u32
        ensures { result ≡ open_fault_number self }
    {
        match self {
            OpenLedgerFault::BadSeats => 25,
            OpenLedgerFault::OutOfMemory => 23,
        }
    }
}

/// Why an issue granted no number.
#[derive(Clone, Copy, PartialEq, Eq, Debug, Error)]
pub enum IssueFault {
    /// No number is left in the range. This is recorded as an operation, and closes the seat for issue.
    #[error("no file number")]
    Exhausted,
    /// The seat got `Exhausted` before. Nothing changed.
    #[error("no file number")]
    SeatClosed,
    /// Memory could not be allocated. Nothing changed.
    #[error("out of memory")]
    OutOfMemory,
}

impl IssueFault {
    /// The fault's number.
    pub fn number(self) -> u32
        ensures { result ≡ issue_fault_number self }
    {
        match self {
            IssueFault::Exhausted => 20,
            IssueFault::SeatClosed => 21,
            IssueFault::OutOfMemory => 23,
        }
    }
}

/// Why a number was not settled. Nothing changed.
#[derive(Clone, Copy, PartialEq, Eq, Debug, Error)]
pub enum SettleFault {
    /// No number of that device is open at this seat under that number.
    #[error("number not open")]
    NotOpen,
    /// Memory could not be allocated. Never returned: room for the settlement is reserved when the number is granted.
    #[error("out of memory")]
    OutOfMemory,
}

impl SettleFault {
    /// The fault's number.
    pub fn number(self) -> u32
        ensures { result ≡ settle_fault_number self }
    {
        match self {
            SettleFault::NotOpen => 22,
            SettleFault::OutOfMemory => 23,
        }
    }
}
