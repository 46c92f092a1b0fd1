//! What is done with slots: they are laid out for a round, filled, and cleared into the places of its pieces.
ghost use Rattle.std.specs.Prelude.{◌≡◌, ◌+◌, ◌<◌, ◌≤◌, [], length, map, take, All, slice_index_or, None};
ghost use Rattle.std.specs.Prelude.{vec_capacity, vec_len};
ghost use Rattle.worker_core.specs.Parts.{room_of};
ghost use Rattle.worker_core.specs.Rooms.{shown, HasRoom};
ghost use Rattle.worker_core.specs.Slots.{expected_value, AreSlotsOf};

use crate::owned::OwnedRound;
use crate::piece::{Made, Piece, exchange, push_within};
use crate::round::Round;
use crate::slots::Slot;
use claim_core::Gate;
use counted_slot::{Counted, FREE, PRESENT, TAKEN};

/// Makes a slot for each piece of a round, with spare buffers.
pub(crate) fn lay_out(
    slots: &mut Vec<Counted<Slot>>,
    spare: &mut Vec<Vec<u8>>,
    size: usize,
    owned: &OwnedRound,
)
    requires none { slots.old.items ≡ [] }
    requires places { length owned.now.round.values ≤ vec_capacity slots.old }
    requires empty { All (λ buffer. buffer.items ≡ []) spare.old.items }
    requires room { All (λ buffer. size ≤ vec_capacity buffer) spare.old.items }
    requires enough { length owned.now.round.values ≤ vec_len spare.old }
    ensures slots { AreSlotsOf size owned.now.round.values slots.new.items }
    ensures places { vec_capacity slots.old ≤ vec_capacity slots.new }
    ensures empty { All (λ buffer. buffer.items ≡ []) spare.new.items }
    ensures room { All (λ buffer. size ≤ vec_capacity buffer) spare.new.items }
    ensures count { vec_len spare.new + length owned.now.round.values ≡ vec_len spare.old }
    ensures list { vec_capacity spare.old ≤ vec_capacity spare.new }
{
    'laying: for number in 0..owned.round().count() {
        let Some(bytes) = spare.pop() else {
            unreachable!();
        };
        let piece = Piece {
            checks: false,
            bytes,
        };
        let slot = Slot {
            filled: false,
            piece,
        };
        push_within(slots, Counted::new(slot, &owned.expected(size, number)));
    }
}

/// Makes the piece of this number in a spare buffer, and exchanges that for the one in its slot. Returns the slot's
/// buffer, emptied; or the spare one, if the slot isn't free.
pub(crate) fn fill(slot: &Counted<Slot>, round: &Round, number: u32, spare: Vec<u8>) -> Vec<u8>
    requires number { number < length round.now.values }
    requires value { expected_value slot.now ≡ slice_index_or round.now.values number None }
    requires room { room_of round.now.task round.now.size ≤ slot.now.size }
    requires empty { spare.items ≡ [] }
    requires spare { slot.now.size ≤ vec_capacity spare }
    ensures empty { result.items ≡ [] }
    ensures room { slot.now.size ≤ vec_capacity result }
{
    let mut bytes = spare;
    let checks = round.make(number, &mut bytes);
    let (found, claim) = slot.turn(FREE, TAKEN);
    if found != FREE {
        claim.done();
        bytes.clear();
        return bytes;
    }
    let piece = Piece { checks, bytes };
    let slot = Slot {
        filled: true,
        piece,
    };
    let left = claim.put(slot, PRESENT);
    let mut bytes = left.piece.bytes;
    bytes.clear();
    bytes
}

// The piece of a slot. If it isn't there it is made in the slot's buffer, once the gate was passed.
fn piece_in<G: Gate>(slot: Counted<Slot>, size: usize, round: &Round, number: u32, gate: &G) -> Made
    requires size { slot.size ≡ size }
    requires number { number < length round.now.values }
    requires value { expected_value slot ≡ slice_index_or round.now.values number None }
    requires room { room_of round.now.task round.now.size ≤ size }
    ensures number { result.number ≡ number }
    ensures piece { shown result.piece ≡ slice_index_or round.now.values number None }
    ensures room { HasRoom size result.piece }
{
    let held = slot.into_inner();
    if held.filled {
        return Made {
            number,
            piece: held.piece,
        };
    }
    gate.pass(0, round.chunk(number));
    let mut bytes = held.piece.bytes;
    let checks = round.make(number, &mut bytes);
    Made {
        number,
        piece: Piece { checks, bytes },
    }
}

/// Puts the pieces of a round from its slots in their places, and makes those that are missing, which no run has. The
/// buffers from the places become spare, and no slot is left.
pub(crate) fn clear_slots<G: Gate>(
    slots: &mut Vec<Counted<Slot>>,
    round: &Round,
    pieces: &mut Vec<Piece>,
    spare: &mut Vec<Vec<u8>>,
    size: usize,
    gate: &G,
)
    requires slots { AreSlotsOf size round.now.values slots.old.items }
    requires places { length round.now.values ≤ vec_len pieces.old }
    requires fits { room_of round.now.task round.now.size ≤ size }
    requires each { All (HasRoom size) pieces.old.items }
    requires empty { All (λ buffer. buffer.items ≡ []) spare.old.items }
    requires room { All (λ buffer. size ≤ vec_capacity buffer) spare.old.items }
    requires list { vec_len spare.old + length round.now.values ≤ vec_capacity spare.old }
    ensures values { take (length round.now.values) (map shown pieces.new.items) ≡ round.now.values }
    ensures none { slots.new.items ≡ [] }
    ensures slots { vec_capacity slots.old ≤ vec_capacity slots.new }
    ensures places { vec_len pieces.new ≡ vec_len pieces.old }
    ensures each { All (HasRoom size) pieces.new.items }
    ensures empty { All (λ buffer. buffer.items ≡ []) spare.new.items }
    ensures room { All (λ buffer. size ≤ vec_capacity buffer) spare.new.items }
    ensures count { vec_len spare.new ≡ vec_len spare.old + length round.now.values }
    ensures list { vec_capacity spare.old ≤ vec_capacity spare.new }
{
    let mut number = round.count();
    'clearing: while let Some(slot) = slots.pop() {
        number -= 1;
        let made = piece_in(slot, size, round, number, gate);
        push_within(spare, exchange(pieces, made));
    }
}
