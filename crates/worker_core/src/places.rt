//! The places of a round's pieces, in the order of their numbers.
//!
//! The places are made once, and serve one round after another. The pieces of all benches are taken by exchanging
//! buffers, so no byte is copied and no memory allocated.
ghost use Rattle.std.specs.Prelude.{◌≡◌, ◌≤◌, ◌<◌, [], length, map, All, IfOk, None, option_map, slice_index_or};
ghost use Rattle.std.specs.Prelude.{◌+◌, vec_len, vec_capacity};
ghost use Rattle.worker_core.specs.Parts.{room_of};
ghost use Rattle.worker_core.specs.Slots.{AreSlotsOf};
ghost use Rattle.worker_core.specs.Pieces.{IsPiece, Covers, all_made, emptied};
ghost use Rattle.worker_core.specs.Answer.{first_refused};
ghost use Rattle.worker_core.specs.Rooms.{shown, HasRoom};

use crate::bench::Bench;
use crate::filling::clear_slots;
use crate::piece::Piece;
use crate::round::Round;
use crate::slots::Slot;
use claim_core::Gate;
use counted_slot::Counted;
use std::alloc::{AllocError, Global};
use std::marker::Model;

/// A place for each piece of a round. Contracts see the values in the places that are taken, in order: the bytes of a
/// piece, or `None` if it doesn't check.
#[derive(Drop)]
pub struct Places {
    pub(crate) size: usize,
    pub(crate) count: u32,
    pub(crate) pieces: Vec<Piece>,
}

impl Model for Places {
    ghost use Rattle.std.specs.Prelude.{length, map, take};
    ghost use Rattle.worker_core.specs.Views.{PlacesView};

    ghost Value = { PlacesView };

    ghost use Rattle.worker_core.specs.Rooms.{shown, IsPlaces};

    ghost view = { λ p. record {
      size = p.size;
      room = length p.pieces.items;
      values = take p.count (map shown p.pieces.items);
    } };

    ghost invariant = { IsPlaces };
}

// Returns `count` empty places, each with room for `size` bytes.
fn empty_places(alloc: Global, count: u32, size: usize) -> Result<Vec<Piece>, AllocError>
    ensures count { IfOk result (λ v. vec_len v ≡ count) }
    ensures room { IfOk result (λ v. All (HasRoom size) v.items) }
{
    let mut pieces = Vec::with_capacity(alloc, count as usize)?;
    for _n in 0..count {
        let bytes = Vec::with_capacity(alloc, size)?;
        pieces.push(Piece {
            checks: false,
            bytes,
        })?;
    }
    Ok(pieces)
}

impl Places {
    /// Returns places for the rounds of at most `pieces` pieces, each with room for `size` bytes. `AllocError` if
    /// memory was refused.
    pub fn new(alloc: Global, pieces: u32, size: usize) -> Result<Places, AllocError>
        ensures size { IfOk result (λ p. p.size ≡ size) }
        ensures room { IfOk result (λ p. p.room ≡ pieces) }
        ensures values { IfOk result (λ p. p.values ≡ []) }
    {
        let pieces = empty_places(alloc, pieces, size)?;
        Ok(Places {
            size,
            count: 0,
            pieces,
        })
    }

    /// Takes the pieces of all benches, each into its place; every piece of the round must be on one of them. The
    /// buffers that were in the places become spare ones of the benches. Allocates nothing.
    pub fn take(&mut self, round: &Round, benches: &mut [Bench])
        requires room { length round.now.values ≤ self.old.room }
        requires sizes { All (λ b. b.size ≡ self.old.size) benches.old }
        requires pieces { All (IsPiece round.now) (all_made benches.old) }
        requires all { Covers round.now benches.old }
        ensures values { self.new.values ≡ round.now.values }
        ensures benches { benches.new ≡ map emptied benches.old }
        ensures room { self.new.room ≡ self.old.room }
        ensures size { self.new.size ≡ self.old.size }
    {
        self.count = round.count();
        for i in 0..benches.len() {
            benches[i].put_all(&mut self.pieces);
        }
    }

    // Takes the pieces of a round from its slots, and makes those that are missing. No slot is left, and the buffers that
    // were in the places become spare.
    pub(crate) fn take_slots<G: Gate>(
        &mut self,
        round: &Round,
        slots: &mut Vec<Counted<Slot>>,
        spare: &mut Vec<Vec<u8>>,
        gate: &G,
    )
        requires slots { AreSlotsOf self.old.size round.now.values slots.old.items }
        requires room { length round.now.values ≤ self.old.room }
        requires fits { room_of round.now.task round.now.size ≤ self.old.size }
        requires empty { All (λ buffer. buffer.items ≡ []) spare.old.items }
        requires each { All (λ buffer. self.old.size ≤ vec_capacity buffer) spare.old.items }
        requires list { vec_len spare.old + length round.now.values ≤ vec_capacity spare.old }
        ensures values { self.new.values ≡ round.now.values }
        ensures room { self.new.room ≡ self.old.room }
        ensures size { self.new.size ≡ self.old.size }
        ensures empty { All (λ buffer. buffer.items ≡ []) spare.new.items }
        ensures each { All (λ buffer. self.old.size ≤ vec_capacity buffer) spare.new.items }
        ensures count { vec_len spare.new ≡ vec_len spare.old + length round.now.values }
        ensures list { vec_capacity spare.old ≤ vec_capacity spare.new }
        ensures none { slots.new.items ≡ [] }
        ensures slots { vec_capacity slots.old ≤ vec_capacity slots.new }
    {
        clear_slots(slots, round, &mut self.pieces, spare, self.size, gate);
        self.count = round.count();
    }

    /// Returns how many places are taken: one for each piece of the round that was taken last.
    pub fn count(&self) -> u32
        ensures { result ≡ length self.now.values }
    {
        self.count
    }

    /// Returns the bytes of the piece of this number; `None` if it doesn't check.
    pub fn piece(&self, number: u32) -> Option<&[u8]>
        requires { number < length self.now.values }
        ensures { option_map (λ b. b.now) result ≡ slice_index_or self.now.values number None }
    {
        let piece = &self.pieces[number as usize];
        if piece.checks {
            Some(piece.bytes.as_slice())
        } else {
            None
        }
    }

    /// Returns the least number whose piece doesn't check.
    pub fn first_refused(&self) -> Option<u32>
        ensures { result ≡ first_refused self.now.values }
    {
        for n in 0..self.count {
            if !self.pieces[n as usize].checks {
                return Some(n);
            }
        }
        None
    }
}
