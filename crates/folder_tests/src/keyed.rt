//! A note of the key and range that a folder was given, for proofs alone: what the seat of an atomic table knows. At run
//! time a ledger doesn't give its range.
ghost use Rattle.std.specs.Prelude.{◌≡◌, IfSome};
ghost use Rattle.folder_tests.specs.Keyed.{keyed_of, keyed_range};

use atomic_table::{Play, Seat, Table, TableRule};
use container_core::Key;
use journal_core::Range;
use ledger_core::Ledger;
use std::alloc::Global;
use std::collections::LinkedList;
use std::marker::{Brand, PhantomData};

/// What the seat knows. No value of it is made.
pub struct Noted {
    pub key: LinkedList<u8>,
    pub range: Range,
}

/// Any key and range may be noted.
pub struct AnyKey;

impl TableRule<(), Noted, ()> for AnyKey {
    ghost use Rattle.folder_tests.specs.Keyed.{IsAnything, nothing};

    ghost holds = { IsAnything };

    ghost first = { nothing };
}

/// Names the key and range that are noted.
pub trait Keying {
    ghost use Rattle.folder_core.specs.Record.{KeyedRange};

    ghost keyed: { KeyedRange };
}

// A call that passes `Brand` picks its own. This one is nobody's.
impl Keying for Brand {
    ghost use Rattle.folder_tests.specs.Keyed.{no_key};

    ghost keyed = { no_key };
}

/// They are noted.
pub struct Put<N> {
    of: PhantomData<N>,
}

impl<N: Keying> Play<(), Noted> for Put<N> {
    ghost use Rattle.folder_tests.specs.Keyed.{puts};

    ghost then = { puts N.keyed };
}

type Word = Table<(), Noted, (), AnyKey, Global>;

type Mark = Seat<(), Noted>;

/// A note of a key and a range.
#[derive(Drop)]
pub struct KeyNote {
    word: Word,
    mark: Mark,
    ghost one_word: { word.shared.table_id.words ≡ 1 },
    ghost same: { mark.table_id ≡ word.shared.table_id },
}

impl KeyNote {
    // A note of this key and the range of this ledger, unless memory is refused.
    pub(crate) fn new(alloc: Global, key: &Key, ledger: &Ledger) -> Option<KeyNote>
        ensures { IfSome result (λ note.
            keyed_of note.mark.me.0 ≡ keyed_range key.now ledger.now.terms.range) }
    {
        let Ok((word, mut mark)) = Table::of_words(alloc, &[0], &()) else {
            return None;
        };
        note_down::<Brand>(&word, &mut mark, key, ledger);
        Some(KeyNote { word, mark })
    }
}

fn note_down<N: Keying>(word: &Word, mark: &mut Mark, _key: &Key, _ledger: &Ledger)
    requires same { mark.old.table_id ≡ word.now.shared.table_id }
    requires word { word.now.shared.table_id.words ≡ 1 }
    ensures same { mark.new.table_id ≡ mark.old.table_id }
    ensures put { keyed_of mark.new.me.0 ≡ N.keyed }
{
    word.shared.load::<Put<N>>(mark, 0);
}
