//! The word from which the workers of a round draw the numbers of its pieces, allocated before the round begins.
ghost use Rattle.std.specs.Prelude.{◌≡◌, ◌<◌, ◌≤◌, IfOk, IfSome};
ghost use Rattle.std.specs.Bool.{OnTrue};
ghost use Rattle.claim_core.specs.Claims.{newcomer};
ghost use Rattle.worker_core.specs.Crew.{word_of};

use claim_core::{Claimant, Claims, MAX_WORKERS};
use std::alloc::{AllocError, Global};
use std::marker::Model;

/// A claim word from which nothing was drawn. Contracts see how many pieces its round has, and how many workers draw.
#[derive(Drop)]
pub(crate) struct Word {
    pieces: u32,
    workers: u32,
    claims: Claims,
    claimant: Claimant,
}

impl Model for Word {
    ghost use Rattle.std.specs.Prelude.{◌≡◌};
    ghost use Rattle.claim_core.specs.Claims.{newcomer};
    ghost use Rattle.worker_core.specs.Crew.{WordView};

    ghost Value = { WordView };

    ghost view = { λ w. record { pieces = w.pieces; workers = w.workers } };

    ghost invariant = { λ w. (w.claims.count ≡ w.pieces) × (w.claims.workers ≡ w.workers)
        × (w.claimant ≡ newcomer w.claims w.workers) };
}

impl Word {
    /// Returns the word of a round of `pieces` pieces. `AllocError` if memory for it was refused.
    pub(crate) fn new(alloc: Global, pieces: u32, workers: u32) -> Result<Word, AllocError>
        requires { (0 < workers) × (workers ≤ MAX_WORKERS) }
        ensures { IfOk result (λ word. word ≡ word_of pieces workers) }
    {
        let (claims, claimant) = Claims::open(alloc, pieces, workers)?;
        Ok(Word {
            pieces,
            workers,
            claims,
            claimant,
        })
    }

    // Whether it is the word of a round of `pieces` pieces, for `workers` workers.
    fn fits(&self, pieces: u32, workers: u32) -> bool
        ensures { OnTrue result (self.now ≡ word_of pieces workers) }
    {
        self.pieces == pieces && self.workers == workers
    }

    /// Returns the claims, and the claimant of all workers.
    pub(crate) fn parts(self) -> (Claims, Claimant)
        ensures count { result.0.count ≡ self.pieces }
        ensures workers { result.0.workers ≡ self.workers }
        ensures claimant { result.1 ≡ newcomer result.0 self.workers }
    {
        let Word {
            pieces: _,
            workers: _,
            claims,
            claimant,
        } = self;
        (claims, claimant)
    }
}

/// Returns the word of a round of `pieces` pieces: the one kept for it if it fits, or else a new one. `None` if memory
/// was refused.
pub(crate) fn word_for(alloc: Global, kept: Option<Word>, pieces: u32, workers: u32) -> Option<Word>
    requires { (0 < workers) × (workers ≤ MAX_WORKERS) }
    ensures { IfSome result (λ word. word ≡ word_of pieces workers) }
{
    if let Some(word) = kept {
        if word.fits(pieces, workers) {
            return Some(word);
        }
    }
    Word::new(alloc, pieces, workers).ok()
}
