//! What became of one job of a batch.

use ledger_core::{IssueFault, Spent};

/// What became of one job of a batch. `seat` is the place of the seat that worked on it, among the seats that the batch
/// was given. Where these are in the order of their numbers, it is the seat's number. Nothing is settled yet.
#[derive(Debug, Drop)]
pub enum Outcome {
    /// The job's container, under the prefix of a number that is spent as sealed.
    Sealed {
        seat: u32,
        bytes: Vec<u8>,
        spent: Spent,
    },
    /// A number was issued, and then memory was refused: the number is spent as void.
    Spoiled {
        seat: u32,
        spent: Spent,
    },
    /// No number was issued.
    Unissued {
        seat: u32,
        fault: IssueFault,
    },
}
