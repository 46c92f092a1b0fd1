//! Claims and their claimants: the calls. Opening the claims returns one claimant, which represents all workers. Its
//! owner splits off one for each worker before any has drawn, and joins them again when their workers have met the end.
//! Then it closes the claims, which shows that they drew each number once.
ghost use Rattle.std.specs.Prelude.{◌≡◌, ℕ, ◌-◌, ◌<◌, ◌≤◌, [], length, IfOk, IfSome, IfNone};
ghost use Rattle.claim_core.specs.Claims.{IsOf, newcomer, with_number, with_end, joined, times, once_below};

use crate::MAX_CLAIMANTS;
use crate::steps::{close_word, cut_off_step, draw_step, open_word, take_in_step};
use crate::table::{Terms, Token, Word};
use std::alloc::{AllocError, Global};
use std::marker::Model;

/// The numbers below a count, which claimants share.
#[derive(Drop)]
pub struct Claims {
    terms: Terms,
    word: Word,
}

impl Model for Claims {
    ghost use Rattle.std.specs.Prelude.{◌≡◌};
    ghost use Rattle.claim_core.specs.Claims.{ClaimsView};

    ghost Value = { ClaimsView };

    ghost view = { λ c. record { id = c.word.shared.table_id; count = c.terms.count; workers = c.terms.workers } };

    ghost invariant = { λ c. (c.word.shared.table_id.words ≡ 1) × (c.word.shared.table_id.slots ≡ 0)
        × (c.word.shared.key ≡ c.terms) };
}

/// Represents some of the workers that draw. It has no bytes, and may move to another thread.
#[derive(Drop)]
pub struct Claimant {
    token: Token,
}

impl Model for Claimant {
    ghost use Rattle.std.specs.Prelude.{◌≡◌, []};
    ghost use Rattle.claim_core.specs.Claims.{ClaimantView};

    ghost Value = { ClaimantView };

    ghost view = { λ c. record {
      id = c.token.table_id;
      count = c.token.me.0.count;
      workers = c.token.me.0.workers;
      drawn = c.token.me.0.drawn;
      ends = c.token.me.0.ends;
    } };

    ghost invariant = { λ c. c.token.me.1 ≡ [] };
}

impl Claims {
    /// Returns claims on the numbers below `count`, for 1 to 16 workers, and a claimant that represents all of these.
    /// Allocates one word; nothing else here allocates.
    pub fn open(alloc: Global, count: u32, workers: u32) -> Result<(Claims, Claimant), AllocError>
        requires { (0 < workers) × (workers ≤ MAX_CLAIMANTS) }
        ensures claims { IfOk result (λ r. (r.0.count ≡ count) × (r.0.workers ≡ workers)) }
        ensures claimant { IfOk result (λ r. r.1 ≡ newcomer r.0 workers) }
    {
        let terms = Terms { count, workers };
        let (word, token) = open_word(alloc, terms)?;
        Ok((Claims { terms, word }, Claimant { token }))
    }

    /// Draws the next number, greater than all that this claimant drew before. Returns None when the worker has met the
    /// end; then it draws no more. One atomic addition, which waits for nobody. The claimant must represent a worker
    /// that has not met the end.
    pub fn draw(&self, claimant: &mut Claimant) -> Option<u32>
        requires ours { IsOf self.now claimant.old }
        requires may { claimant.old.ends < claimant.old.workers }
        ensures some { IfSome result (λ n. claimant.new ≡ with_number claimant.old n) }
        ensures below { IfSome result (λ n. n < self.now.count) }
        ensures ascends { IfSome result (λ n. (x : ℕ) → 0 < times x claimant.old.drawn → x < n) }
        ensures fewer { IfSome result (λ n. length claimant.old.drawn < self.now.count) }
        ensures none { IfNone result (claimant.new ≡ with_end claimant.old) }
        ensures ours { IsOf self.now claimant.new }
    {
        let number = draw_step(&self.word, &mut claimant.token);
        if number < u64::from(self.terms.count) {
            Some(number as u32)
        } else {
            None
        }
    }

    /// Splits one worker off a claimant that represents several and has drawn nothing.
    pub fn split(&self, claimant: &mut Claimant) -> Claimant
        requires ours { IsOf self.now claimant.old }
        requires several { 1 < claimant.old.workers }
        requires fresh { (claimant.old.drawn ≡ []) × (claimant.old.ends ≡ 0) }
        ensures left { claimant.new ≡ newcomer self.now (claimant.old.workers - 1) }
        ensures right { result ≡ newcomer self.now 1 }
    {
        Claimant {
            token: cut_off_step(&self.word, &mut claimant.token),
        }
    }

    /// Adds another claimant to this one: its workers, what they drew, and how often they met the end.
    pub fn join(&self, claimant: &mut Claimant, other: Claimant)
        requires ours { IsOf self.now claimant.old }
        requires other { IsOf self.now other }
        requires workers { (0 < claimant.old.workers) × (0 < other.workers) }
        ensures { claimant.new ≡ joined claimant.old other }
    {
        let Claimant { token } = other;
        take_in_step(&self.word, &mut claimant.token, token);
    }

    /// Gives up the claims with a claimant that represents all workers. At least one of them has met the end, so they
    /// drew each number below the count once, and no other.
    pub fn close(self, claimant: Claimant)
        requires ours { IsOf self claimant }
        requires all { claimant.workers ≡ self.workers }
        requires ended { 0 < claimant.ends }
        ensures { (x : ℕ) → times x claimant.drawn ≡ once_below x self.count }
    {
        let Claims { terms: _, word } = self;
        let Claimant { token } = claimant;
        close_word(word, token);
    }
}
