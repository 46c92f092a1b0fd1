//! A bench: the room in which one worker makes pieces of rounds.
//!
//! Its buffers are allocated before the worker starts. A piece takes a spare one. When the pieces are put in their
//! places, the buffers from those places become spare, so as many are spare as before. So no round allocates memory.
ghost use Rattle.std.specs.Prelude.{◌≡◌, ◌+◌, ◌<◌, ◌≤◌, ◌++◌, ◌∷◌, [], length, map, slice_set, All, IfOk};
ghost use Rattle.std.specs.Prelude.{vec_len, vec_capacity};
ghost use Rattle.std.specs.Bool.{OnTrue, OnFalse};
ghost use Rattle.worker_core.specs.Views.{BenchView};
ghost use Rattle.worker_core.specs.Pieces.{piece_of, emptied};
ghost use Rattle.worker_core.specs.Parts.{room_of};
ghost use Rattle.worker_core.specs.Rooms.{shown, HasRoom, IsPutLast, placed};

use crate::piece::{Made, Piece, exchange, push_within};
use crate::round::Round;
use std::alloc::{AllocError, Global};
use std::marker::Model;

/// The room of one worker: buffers of `size` bytes each, and the pieces that it made. Contracts see how many buffers
/// are spare, and the pieces.
#[derive(Drop)]
pub struct Bench {
    size: usize,
    spare: Vec<Vec<u8>>,
    made: Vec<Made>,
}

impl Model for Bench {
    ghost use Rattle.std.specs.Prelude.{length, map};
    ghost use Rattle.worker_core.specs.Views.{BenchView};

    ghost Value = { BenchView };

    ghost use Rattle.worker_core.specs.Rooms.{made_view, IsBench};

    ghost view = { λ b. record {
      size = b.size;
      spare = length b.spare.items;
      made = map made_view b.made.items;
    } };

    ghost invariant = { IsBench };
}

// Returns `count` empty buffers, each with room for `size` bytes.
pub(crate) fn buffers(alloc: Global, count: u32, size: usize) -> Result<Vec<Vec<u8>>, AllocError>
    ensures count { IfOk result (λ v. vec_len v ≡ count) }
    ensures room { IfOk result (λ v. count ≤ vec_capacity v) }
    ensures empty { IfOk result (λ v. All (λ b. b.items ≡ []) v.items) }
    ensures each { IfOk result (λ v. All (λ b. size ≤ vec_capacity b) v.items) }
{
    let mut buffers = Vec::with_capacity(alloc, count as usize)?;
    for _n in 0..count {
        buffers.push(Vec::with_capacity(alloc, size)?)?;
    }
    Ok(buffers)
}

impl Bench {
    /// Returns a bench with `pieces` spare buffers, each with room for `size` bytes. `AllocError` if memory was
    /// refused.
    pub fn new(alloc: Global, pieces: u32, size: usize) -> Result<Bench, AllocError>
        ensures size { IfOk result (λ b. b.size ≡ size) }
        ensures spare { IfOk result (λ b. b.spare ≡ pieces) }
        ensures made { IfOk result (λ b. b.made ≡ []) }
    {
        let spare = buffers(alloc, pieces, size)?;
        let made = Vec::with_capacity(alloc, pieces as usize)?;
        Ok(Bench { size, spare, made })
    }

    /// Makes the round's piece of this number, from 0 within the round, in a spare buffer. Allocates nothing.
    pub fn make(&mut self, round: &Round, number: u32)
        requires spare { 0 < self.old.spare }
        requires number { number < length round.now.values }
        requires room { room_of round.now.task round.now.size ≤ self.old.size }
        ensures made { self.new.made ≡ self.old.made ++ piece_of round.now number ∷ [] }
        ensures spare { self.new.spare + 1 ≡ self.old.spare }
        ensures size { self.new.size ≡ self.old.size }
    {
        let Some(mut bytes) = self.spare.pop() else {
            unreachable!();
        };
        let checks = round.make(number, &mut bytes);
        let piece = Piece { checks, bytes };
        push_within(&mut self.made, Made { number, piece });
    }

    // Puts the piece made last in its place, and returns true, or returns false if there is none. The buffer that was
    // in the place is spare afterwards.
    fn put_last(&mut self, places: &mut Vec<Piece>) -> bool
        requires numbers { All (λ p. p.number < vec_len places.old) self.old.made }
        requires room { All (HasRoom self.old.size) places.old.items }
        ensures put { OnTrue result (IsPutLast self.old self.new (map shown places.old.items)
            (map shown places.new.items)) }
        ensures none { OnFalse result ((self.old.made ≡ []) × (self.new ≡ self.old) × (places.new ≡ places.old)) }
        ensures room { All (HasRoom self.old.size) places.new.items }
        ensures count { vec_len places.new ≡ vec_len places.old }
    {
        let Some(made) = self.made.pop() else {
            return false;
        };
        let buffer = exchange(places, made);
        push_within(&mut self.spare, buffer);
        true
    }

    // Puts all pieces in their places.
    pub(crate) fn put_all(&mut self, places: &mut Vec<Piece>)
        requires numbers { All (λ p. p.number < vec_len places.old) self.old.made }
        requires room { All (HasRoom self.old.size) places.old.items }
        ensures bench { self.new ≡ emptied self.old }
        ensures places { map shown places.new.items ≡ placed self.old.made (map shown places.old.items) }
        ensures room { All (HasRoom self.old.size) places.new.items }
        ensures count { vec_len places.new ≡ vec_len places.old }
    {
        while self.put_last(places) {}
    }
}
