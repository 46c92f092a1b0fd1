//! The limits, as the contract of a function that does nothing.
ghost use Rattle.std.specs.Prelude.{◌≡◌, ◌^◌};

use crate::{
    DEFAULT_WINDOW, MAX_DEPTH, MAX_LANES, MAX_WINDOW, MAX_WORKERS, OPENING_BYTES, ROUND_BYTES,
};

/// The constants are the numbers in the documents.
pub fn limits()
    ensures workers { MAX_WORKERS ≡ 16 }
    ensures lanes { MAX_LANES ≡ 16 }
    ensures window { MAX_WINDOW ≡ 256 }
    ensures usual { DEFAULT_WINDOW ≡ 16 }
    ensures depth { MAX_DEPTH ≡ 64 }
    ensures round { ROUND_BYTES ≡ 2 ^ 20 }
    ensures opening { OPENING_BYTES ≡ 2 ^ 18 }
{}
