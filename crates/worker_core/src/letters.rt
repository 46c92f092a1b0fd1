//! Where a worker that lasts looks for its next round.
ghost use Rattle.std.specs.Prelude.{◌≡◌, [], vec_len, IfOk, IfSome};

use crate::shared::Shared;
use counted_slot::{Counted, FREE, Fits, PRESENT, TAKEN};
use std::alloc::{AllocError, Global};
use std::sync::Arc;
use std::sync::atomic::AtomicU64;
use std::sync::atomic::Ordering::SeqCst;

/// What a letter box holds: a shared round, and an empty buffer where the worker's own has no room for its pieces.
#[derive(Drop)]
pub(crate) struct Letter<'a> {
    pub(crate) round: Arc<Shared<'a>, Global>,
    pub(crate) hand: Option<Vec<u8>>,
}

impl<'a> Fits for Letter<'a> {
    type Tag = ();

    ghost use Rattle.std.specs.Prelude.{◌≡◌, [], IfSome};

    ghost fits = { λ _ letter. IfSome letter.hand (λ hand. hand.items ≡ []) };
}

/// A worker's letter box: the caller's thread puts rounds in, one at a time, and the worker takes them out.
#[derive(Drop)]
pub struct LetterBox<'a> {
    slot: Counted<Option<Letter<'a>>>,
    // How many bytes the worker's buffer has room for.
    room: AtomicU64,
}

/// Returns this many empty letter boxes. `AllocError` if memory was refused.
pub fn letter_boxes<'a>(alloc: Global, count: u32) -> Result<Vec<LetterBox<'a>>, AllocError>
    ensures { IfOk result (λ boxes. vec_len boxes ≡ count) }
{
    let mut boxes = Vec::with_capacity(alloc, count as usize)?;
    for _n in 0..count {
        boxes.push(LetterBox::new())?;
    }
    Ok(boxes)
}

impl<'a> LetterBox<'a> {
    // An empty letter box, of a worker without a buffer.
    fn new() -> LetterBox<'a> {
        LetterBox {
            slot: Counted::new(None, &()),
            room: AtomicU64::new(0),
        }
    }

    // Puts a round in, with a buffer for its pieces if the worker's own is too small. Where another round is still in the
    // box, or is just being taken out, or memory for the buffer is refused, this worker gets none of the new one: others
    // make its pieces.
    pub(crate) fn put(&self, alloc: Global, round: Arc<Shared<'a>, Global>) {
        let size = round.size;
        let hand = if self.room.load(SeqCst) < size as u64 {
            match Vec::with_capacity(alloc, size) {
                Ok(hand) => Some(hand),
                Err(AllocError) => return,
            }
        } else {
            None
        };
        let (found, claim) = self.slot.turn(FREE, TAKEN);
        if found == FREE {
            claim.put(Some(Letter { round, hand }), PRESENT);
        } else {
            claim.done();
        }
    }

    // Takes the letter out, if there is one.
    pub(crate) fn take(&self) -> Option<Letter<'a>>
        ensures { IfSome result (λ letter. IfSome letter.hand (λ hand. hand.items ≡ [])) }
    {
        if self.slot.load() != PRESENT {
            return None;
        }
        let (found, claim) = self.slot.turn(PRESENT, TAKEN);
        if found != PRESENT {
            claim.done();
            return None;
        }
        claim.put(None, FREE)
    }

    // Notes how many bytes the worker's buffer has room for.
    pub(crate) fn note(&self, room: usize) {
        self.room.store(room as u64, SeqCst);
    }
}
