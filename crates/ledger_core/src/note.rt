//! A note: what one seat had seen, for another to hear. Notes order events: what a note shows comes before whatever a
//! seat does after hearing it.

use crate::table::Token;
use std::marker::Model;

/// What a seat of a ledger had seen. It occupies no bytes, and may be sent to another thread. One seat hears it, once.
#[derive(Drop)]
pub struct Note {
    pub(crate) token: Token,
}

impl Model for Note {
    ghost use Rattle.std.specs.Prelude.{◌≡◌, []};
    ghost use Rattle.ledger_core.specs.Shared.{NoteView};

    ghost Value = { NoteView };

    ghost view = { λ n. record { ledger = n.token.table_id; seen = n.token.me.0.seen } };

    ghost invariant = { λ n. n.token.me.1 ≡ [] };
}
