//! What the limit of a batch is, as the contract of a function that does nothing.
ghost use Rattle.std.specs.Prelude.{◌≡◌};

use crate::MAX_JOBS;

/// The constant is the number in the documents.
pub fn limits()
    ensures jobs { MAX_JOBS ≡ 65535 }
{}
