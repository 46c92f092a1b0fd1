//! A note of what an output may hold, for proofs alone: what the seat of an atomic table knows.
ghost use Rattle.std.specs.Prelude.{◌≡◌, IfSome};
ghost use Rattle.folder_core.specs.Record.{Nothing};
ghost use Rattle.folder_tests.specs.Noted.{content_of};

use atomic_table::{Play, Seat, Table, TableRule};
use container_core::Shape;
use std::alloc::Global;
use std::collections::LinkedList;
use std::marker::{Brand, PhantomData};

/// What the seat knows. No value of it is made.
pub enum Noted {
    Nothing,
    Container(u32, Shape),
    Plain(LinkedList<u8>, LinkedList<u8>),
    Checked(LinkedList<u8>, LinkedList<u8>, LinkedList<u8>),
}

/// Any content may be noted.
pub struct AnyContent;

impl TableRule<(), Noted, ()> for AnyContent {
    ghost use Rattle.folder_tests.specs.Noted.{IsAnything, nothing};

    ghost holds = { IsAnything };

    ghost first = { nothing };
}

/// Names the content that is noted.
pub trait Naming {
    ghost use Rattle.folder_core.specs.Record.{Content};

    ghost content: { Content };
}

// A call that passes `Brand` picks its own content.
impl Naming for Brand {
    ghost use Rattle.folder_core.specs.Record.{Nothing};

    ghost content = { Nothing };
}

/// The content is noted.
pub struct Put<N> {
    of: PhantomData<N>,
}

impl<N: Naming> Play<(), Noted> for Put<N> {
    ghost use Rattle.folder_tests.specs.Noted.{puts};

    ghost then = { puts N.content };
}

type Word = Table<(), Noted, (), AnyContent, Global>;

type Mark = Seat<(), Noted>;

/// A note of a content.
#[derive(Drop)]
pub struct ContentNote {
    word: Word,
    mark: Mark,
    ghost one_word: { word.shared.table_id.words ≡ 1 },
    ghost same: { mark.table_id ≡ word.shared.table_id },
}

impl ContentNote {
    // A note that an output may hold nothing yet, unless memory is refused.
    pub(crate) fn new(alloc: Global) -> Option<ContentNote>
        ensures { IfSome result (λ note. content_of note.mark.me.0 ≡ Nothing) }
    {
        let Ok((word, mut mark)) = Table::of_words(alloc, &[0], &()) else {
            return None;
        };
        note_down::<Brand>(&word, &mut mark);
        Some(ContentNote { word, mark })
    }

    // Notes this content.
    pub(crate) fn set<N: Naming>(&mut self)
        ensures { content_of self.new.mark.me.0 ≡ N.content }
    {
        note_down::<N>(&self.word, &mut self.mark);
    }
}

fn note_down<N: Naming>(word: &Word, mark: &mut Mark)
    requires same { mark.old.table_id ≡ word.now.shared.table_id }
    requires word { word.now.shared.table_id.words ≡ 1 }
    ensures same { mark.new.table_id ≡ mark.old.table_id }
    ensures put { content_of mark.new.me.0 ≡ N.content }
{
    word.shared.load::<Put<N>>(mark, 0);
}
