//! A round that threads share, until its last owner is the caller's thread.
ghost use Rattle.std.specs.Prelude.{◌≡◌, ◌<◌, ◌≤◌, [], length, vec_capacity};
ghost use Rattle.worker_core.specs.Parts.{room_of};
ghost use Rattle.worker_core.specs.Slots.{AreSlotsOf};

use crate::filling::fill;
use crate::owned::OwnedRound;
use crate::slots::Slot;
use claim_core::Gate;
use counted_slot::Counted;
use std::marker::Model;
use std::sync::atomic::AtomicU64;
use std::sync::atomic::Ordering::SeqCst;

/// A round with a slot for each of its pieces, and the number that is drawn next.
#[derive(Drop)]
pub(crate) struct Shared<'a> {
    pub(crate) owned: OwnedRound<'a>,
    pub(crate) size: usize,
    pub(crate) slots: Vec<Counted<Slot>>,
    pub(crate) next: AtomicU64,
    ghost slot_each: { AreSlotsOf size owned.round.values slots.items },
    ghost fits: { room_of owned.round.task owned.round.size ≤ size },
}

impl<'a> Shared<'a> {
    // A round of which nothing was drawn.
    pub(crate) fn of(owned: OwnedRound<'a>, size: usize, slots: Vec<Counted<Slot>>) -> Shared<'a>
        requires slots { AreSlotsOf size owned.round.values slots.items }
        requires fits { room_of owned.round.task owned.round.size ≤ size }
        ensures { (result.owned ≡ owned.entry) × (result.size ≡ size) × (result.slots ≡ slots) }
    {
        Shared {
            owned,
            size,
            slots,
            next: AtomicU64::new(0),
        }
    }
}

// Makes the pieces whose numbers this worker draws, as long as there are any, in a buffer of its own and those of the
// slots. Returns the buffer that is left, empty. A buffer without room for a piece is returned at once.
pub(crate) fn make_drawn<G: Gate>(shared: &Shared, worker: u32, gate: &G, hand: Vec<u8>) -> Vec<u8>
    requires { hand.items ≡ [] }
    ensures empty { result.items ≡ [] }
    ensures room { shared.now.size ≤ vec_capacity hand → shared.now.size ≤ vec_capacity result }
{
    let mut hand = hand;
    if hand.capacity() < shared.size {
        return hand;
    }
    let round = shared.owned.round();
    let count = round.count();
    'drawing: for _ in 0..=count {
        let number = shared.next.fetch_add(1, SeqCst);
        if number >= u64::from(count) {
            return hand;
        }
        let number = number as u32;
        gate.pass(worker, round.chunk(number));
        hand = fill(&shared.slots[number as usize], &round, number, hand);
    }
    hand
}
