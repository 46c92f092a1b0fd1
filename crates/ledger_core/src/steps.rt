//! The steps of a seat on the ledger's word. Each is one atomic operation.
ghost use Rattle.std.specs.Prelude.{◌≡◌, ◌<◌, [], IfOk};
ghost use Rattle.journal_core.specs.declared.entry.Way.TheVariants.{Sealed, Void};
ghost use Rattle.journal_core.specs.History.{IsLawful, refused};
ghost use Rattle.ledger_core.specs.Rule.{newcomer, MayStep, IsHeld, Adopts, Issues, Settles, Looks, note_of, hears};
ghost use Rattle.ledger_core.specs.Rule.{first_seat, other_seats};

use crate::counts::{ISSUED, SEALED, VOID};
use crate::table::{Adopt, Deal, Hear, Issue, Look, Naming, Seal, Token, Waste, Word, Write};
use atomic_table::Table;
use journal_core::{Terms, Way};
use std::alloc::{AllocError, Global};
use std::marker::Brand;

// Makes a word with all counts at 0, and a token that covers all seats.
pub fn open_word(alloc: Global, opening: &Terms) -> Result<(Word, Token), AllocError>
    requires { IsLawful opening.now }
    ensures { IfOk result (λ t. (t.0.shared.table_id.words ≡ 1) × (t.1.table_id ≡ t.0.shared.table_id)
        × (t.1.me ≡ (newcomer opening.now, []))) }
{
    Table::of_words(alloc, &[0], opening)
}

pub fn issue_step(word: &Word, token: &mut Token) -> u64
    requires table { MayStep word.now.shared.table_id token.old.table_id token.old.me }
    requires clear { refused token.old.me.0.mine ≡ 0 }
    ensures table { (token.new.table_id ≡ token.old.table_id) × (token.new.me.1 ≡ token.old.me.1) }
    ensures step { Issues token.old.me.0 result token.new.me.0 }
{
    word.shared.fetch_add::<Issue>(token, 0, ISSUED)
}

fn seal_step<N: Naming>(word: &Word, token: &mut Token, number: u32) -> u64
    requires table { MayStep word.now.shared.table_id token.old.table_id token.old.me }
    requires named { number ≡ N.number }
    requires held { IsHeld number token.old.me.0.mine }
    ensures table { (token.new.table_id ≡ token.old.table_id) × (token.new.me.1 ≡ token.old.me.1) }
    ensures step { Settles number Sealed token.old.me.0 result token.new.me.0 }
{
    word.shared.fetch_add::<Seal<N>>(token, 0, SEALED)
}

fn waste_step<N: Naming>(word: &Word, token: &mut Token, number: u32) -> u64
    requires table { MayStep word.now.shared.table_id token.old.table_id token.old.me }
    requires named { number ≡ N.number }
    requires held { IsHeld number token.old.me.0.mine }
    ensures table { (token.new.table_id ≡ token.old.table_id) × (token.new.me.1 ≡ token.old.me.1) }
    ensures step { Settles number Void token.old.me.0 result token.new.me.0 }
{
    word.shared.fetch_add::<Waste<N>>(token, 0, VOID)
}

pub fn settle_step(word: &Word, token: &mut Token, number: u32, way: Way) -> u64
    requires table { MayStep word.now.shared.table_id token.old.table_id token.old.me }
    requires held { IsHeld number token.old.me.0.mine }
    ensures table { (token.new.table_id ≡ token.old.table_id) × (token.new.me.1 ≡ token.old.me.1) }
    ensures step { Settles number way token.old.me.0 result token.new.me.0 }
{
    match way {
        Way::Sealed => seal_step::<Brand>(word, token, number),
        Way::Void => waste_step::<Brand>(word, token, number),
    }
}

pub fn look_step(word: &Word, token: &mut Token) -> u64
    requires table { MayStep word.now.shared.table_id token.old.table_id token.old.me }
    ensures table { (token.new.table_id ≡ token.old.table_id) × (token.new.me.1 ≡ token.old.me.1) }
    ensures step { Looks token.old.me.0 result token.new.me.0 }
{
    word.shared.load::<Look>(token, 0)
}

// What the seat heard is then what it has seen.
pub fn adopt_step(word: &Word, token: &mut Token) -> u64
    requires table { MayStep word.now.shared.table_id token.old.table_id token.old.me }
    ensures table { (token.new.table_id ≡ token.old.table_id) × (token.new.me.1 ≡ token.old.me.1) }
    ensures step { Adopts token.old.me.0 result token.new.me.0 }
{
    word.shared.load::<Adopt>(token, 0)
}

// Splits off a note of what this seat has seen.
pub fn write_step(word: &Word, token: &mut Token) -> Token
    requires table { MayStep word.now.shared.table_id token.old.table_id token.old.me }
    ensures same { (token.new.table_id ≡ token.old.table_id) × (token.new.me ≡ token.old.me) }
    ensures given { (result.table_id ≡ token.old.table_id) × (result.me ≡ (note_of token.old.me.0, [])) }
{
    word.shared.split_seat::<Write>(token)
}

// The seat hears what the note shows.
pub fn hear_step(word: &Word, token: &mut Token, note: Token)
    requires table { MayStep word.now.shared.table_id token.old.table_id token.old.me }
    requires note { (note.table_id ≡ token.old.table_id) × (note.me.1 ≡ []) }
    ensures same { token.new.table_id ≡ token.old.table_id }
    ensures told { token.new.me ≡ (hears token.old.me.0 note.me.0, token.old.me.1) }
{
    word.shared.join_seat::<Hear>(token, note)
}

// Leaves the first of the token's seats with it, and returns a token for the others.
pub fn deal_step(word: &Word, token: &mut Token) -> Token
    requires table { (token.old.table_id ≡ word.now.shared.table_id) × (word.now.shared.table_id.words ≡ 1) }
    requires new { (1 < token.old.me.0.width) × (token.old.me.0.mine ≡ []) }
    ensures same { (token.new.table_id ≡ token.old.table_id)
        × (token.new.me ≡ (first_seat token.old.me.0, token.old.me.1)) }
    ensures given { (result.table_id ≡ token.old.table_id) × (result.me ≡ (other_seats token.old.me.0, [])) }
{
    word.shared.split_seat::<Deal>(token)
}
