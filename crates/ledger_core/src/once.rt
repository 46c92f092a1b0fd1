//! What makes a grant unique: it is made where a seat's last operation granted its number, and can't be copied.
ghost use Rattle.ledger_core.specs.Logs.{EndsByGranting};

use crate::table::Own;

/// One operation that granted a number. It is neither `Clone` nor `Copy`, so its holder is neither.
#[derive(Debug, Drop)]
pub struct Once {
    made: (),
}

impl Once {
    /// Represents the seat's last operation.
    pub fn of(_own: &Own, _number: u32) -> Once
        requires granted { EndsByGranting _number _own.now.log.items }
    {
        Once { made: () }
    }
}
