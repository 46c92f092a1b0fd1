//! The steps of a token on the claim word: one addition for a draw, and the split and join of tokens.
ghost use Rattle.std.specs.Prelude.{◌≡◌, ℕ, ◌<◌, ◌≤◌, [], IfOk};
ghost use Rattle.claim_core.specs.Claims.{times, once_below};
ghost use Rattle.claim_core.specs.Rule.{all_workers, MayStep, Draws, other_workers, one_worker, both_hands};

use crate::table::{CutOff, Draw, TakeIn, Terms, Token, Word};
use atomic_table::Table;
use std::alloc::{AllocError, Global};

// Returns a word from which nothing was drawn, and a token that represents all workers.
pub fn open_word(alloc: Global, terms: Terms) -> Result<(Word, Token), AllocError>
    requires { terms.workers ≤ 16 }
    ensures word { IfOk result (λ t. (t.0.shared.table_id.words ≡ 1) × (t.0.shared.table_id.slots ≡ 0)
        × (t.0.shared.key ≡ terms)) }
    ensures token { IfOk result (λ t. (t.1.table_id ≡ t.0.shared.table_id) × (t.1.me ≡ (all_workers terms, []))) }
{
    Table::of_words(alloc, &[0], &terms)
}

pub fn draw_step(word: &Word, token: &mut Token) -> u64
    requires table { MayStep word.now.shared.table_id token.old.table_id }
    requires may { token.old.me.0.ends < token.old.me.0.workers }
    ensures table { (token.new.table_id ≡ token.old.table_id) × (token.new.me.1 ≡ token.old.me.1) }
    ensures step { Draws token.old.me.0 result token.new.me.0 }
{
    word.shared.fetch_add::<Draw>(token, 0, 1)
}

pub fn cut_off_step(word: &Word, token: &mut Token) -> Token
    requires table { MayStep word.now.shared.table_id token.old.table_id }
    requires fresh { (1 < token.old.me.0.workers) × (token.old.me.0.drawn ≡ []) × (token.old.me.0.ends ≡ 0) }
    ensures left { (token.new.table_id ≡ token.old.table_id)
        × (token.new.me ≡ (other_workers token.old.me.0, token.old.me.1)) }
    ensures right { (result.table_id ≡ token.old.table_id) × (result.me ≡ (one_worker token.old.me.0, [])) }
{
    word.shared.split_seat::<CutOff>(token)
}

pub fn take_in_step(word: &Word, token: &mut Token, other: Token)
    requires table { MayStep word.now.shared.table_id token.old.table_id }
    requires other { (other.table_id ≡ token.old.table_id) × (other.me.1 ≡ []) }
    requires workers { (0 < token.old.me.0.workers) × (0 < other.me.0.workers) }
    ensures table { token.new.table_id ≡ token.old.table_id }
    ensures both { token.new.me ≡ (both_hands token.old.me.0 other.me.0, token.old.me.1) }
{
    word.shared.join_seat::<TakeIn>(token, other)
}

// Frees the table, with a token that represents all workers. Since one of them met the end, they drew each number.
pub fn close_word(word: Word, token: Token)
    requires table { (token.table_id ≡ word.shared.table_id) × (word.shared.table_id.slots ≡ 0) }
    requires all { token.me.0.workers ≡ word.shared.key.workers }
    requires ended { 0 < token.me.0.ends }
    ensures { (x : ℕ) → times x token.me.0.drawn ≡ once_below x word.shared.key.count }
{
    word.close_with(token).free();
}
