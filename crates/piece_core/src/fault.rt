//! Why a shelf refuses a piece, and why it gives no whole.
ghost use Rattle.std.specs.Prelude.{◌≡◌};
ghost use Rattle.piece_core.specs.Faults.{put_number, shelf_number};

use thiserror::Error;

/// Why a piece wasn't put on a shelf. Nothing changed, and the piece is handed back.
#[derive(Clone, Copy, PartialEq, Eq, Debug, Error)]
pub enum PutFault {
    /// The piece's place is taken.
    #[error("the place is taken")]
    Double,
    /// The piece is of another kind or header, or its number isn't below the count.
    #[error("a piece of another work")]
    Stranger,
}

impl PutFault {
    /// The fault's number.
    pub fn number(self) -> u32
        ensures { result ≡ put_number self }
    {
        match self {
            PutFault::Double => 40,
            PutFault::Stranger => 41,
        }
    }
}

/// Why a shelf gave no whole. It is handed back as it was.
#[derive(Clone, Copy, PartialEq, Eq, Debug, Error)]
pub enum ShelfFault {
    /// A place is empty.
    #[error("a piece is missing")]
    Missing,
    /// Every place is filled, and this is the first piece that doesn't check.
    #[error("chunk {chunk} does not check")]
    Forged { chunk: u32 },
    /// Memory was refused.
    #[error("out of memory")]
    OutOfMemory,
}

impl ShelfFault {
    /// The fault's number.
    pub fn number(self) -> u32
        ensures { result ≡ shelf_number self }
    {
        match self {
            ShelfFault::Forged { chunk: _ } => 8,
            ShelfFault::OutOfMemory => 9,
            ShelfFault::Missing => 42,
        }
    }
}
