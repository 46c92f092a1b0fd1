//! The layout of the ledger's word: three counts of 20 bits. A step adds 1 to one of them.
ghost use Rattle.std.specs.Prelude.{◌≡◌, ◌^◌, ◌<◌};
ghost use Rattle.ledger_core.specs.Rule.{issues_of, sealed_of, void_of};

/// What an issue adds to the word: 1 in the count that starts at bit 0.
pub const ISSUED: u64 = 1;

/// What a settlement as sealed adds to the word: 1 in the count that starts at bit 20.
pub const SEALED: u64 = 1 << 20;

/// What a settlement as void adds to the word: 1 in the count that starts at bit 40.
pub const VOID: u64 = 1 << 40;

/// The three counts of a word.
#[derive(Clone, Copy)]
pub struct Counts {
    /// Grants and refusals.
    pub issues: u32,
    pub sealed: u32,
    pub void: u32,
}

/// Returns the three counts of a word below 2^60.
pub fn counts_in(word: u64) -> Counts
    requires { word < 2 ^ 60 }
    ensures issues { result.issues ≡ issues_of word }
    ensures sealed { result.sealed ≡ sealed_of word }
    ensures void { result.void ≡ void_of word }
{
    Counts {
        issues: (word % SEALED) as u32,
        sealed: (word / SEALED % SEALED) as u32,
        void: (word / VOID) as u32,
    }
}
