//! What sees each range of a ledger file from outside that file, so that an older file in its place is noticed.
ghost use Rattle.std.specs.Prelude.{◌≡◌, ℕ, List, None, Option, OnErr, OnOk};
ghost use Rattle.journal_core.specs.Range.{Numbers};
ghost use Rattle.reserve_core.specs.Witness.{Records};

use journal_core::Range;

/// The witness couldn't record a range.
#[derive(Clone, Copy, PartialEq, Eq, Debug)]
pub struct Unrecorded;

/// What sees each range of a ledger file, for one key and device.
pub trait Witness {
    // No range may begin below this number.
    ghost floor: { Self → ℕ };

    // The ranges that it recorded, if they are known.
    ghost recorded: { Self → Option (List Numbers) } = { λ _. None };

    /// Returns the least number with which the next range may begin: where the last one ended that it recorded.
    fn floor(&self) -> u64
        ensures { result ≡ floor self.now };

    /// Records a range that the ledger file has for good. Nothing is sealed under its numbers before.
    fn record(&mut self, key_id: &[u8; 32], range: &Range) -> Result<(), Unrecorded>
        ensures recorded { OnOk result (Records (recorded self.old) (recorded self.new) range.now) }
        ensures refused { OnErr result (recorded self.new ≡ recorded self.old) };
}

/// No witness: a range may begin anywhere, and nothing is recorded.
#[derive(Clone, Copy, Debug)]
pub struct Unwitnessed;

impl Witness for Unwitnessed {
    ghost floor = { λ _. 0 };

    fn floor(&self) -> u64 {
        0
    }

    fn record(&mut self, _key_id: &[u8; 32], _range: &Range) -> Result<(), Unrecorded> {
        Ok(())
    }
}
