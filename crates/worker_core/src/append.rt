//! Appends the bytes of a round's pieces from their places, in order: copied, or moved with their buffers.
ghost use Rattle.std.specs.Prelude.{◌≡◌, ◌+◌, ◌<◌, ◌≤◌, ◌++◌, ◌∷◌, [], length, map, take, All, OnOk, OnErr};
ghost use Rattle.std.specs.Prelude.{vec_len, vec_capacity};
ghost use Rattle.worker_core.specs.Answer.{joined, AppendsSome};
ghost use Rattle.worker_core.specs.Rooms.{shown, HasRoom};

use crate::parts::Parts;
use crate::piece::Piece;
use crate::places::Places;
use std::alloc::{AllocError, Global};
use std::mem;

// Appends the bytes of a piece, if it checks, by moving its buffer. In the buffer's place it puts a new one with room
// for `size` bytes.
fn move_piece(
    alloc: Global,
    piece: &mut Piece,
    size: usize,
    out: &mut Parts,
) -> Result<(), AllocError>
    requires room { HasRoom size piece.old }
    ensures bytes { OnOk result (out.new ≡ out.old ++ joined (shown piece.old ∷ [])) }
    ensures kept { OnErr result (out.new ≡ out.old) }
    ensures room { HasRoom size piece.new }
{
    if !piece.checks {
        return Ok(());
    }
    let mut bytes = Vec::with_capacity(alloc, size)?;
    mem::swap(&mut piece.bytes, &mut bytes);
    out.push(bytes)
}

// The same for the first `count` pieces, in order.
fn move_pieces(
    alloc: Global,
    pieces: &mut Vec<Piece>,
    count: u32,
    size: usize,
    out: &mut Parts,
) -> Result<(), AllocError>
    requires count { count ≤ vec_len pieces.old }
    requires room { All (HasRoom size) pieces.old.items }
    ensures bytes { OnOk result (out.new ≡ out.old ++ joined (take count (map shown pieces.old.items))) }
    ensures kept { OnErr result (AppendsSome out.old out.new (take count (map shown pieces.old.items))) }
    ensures room { All (HasRoom size) pieces.new.items }
    ensures count { vec_len pieces.new ≡ vec_len pieces.old }
{
    'moving: for number in 0..count {
        move_piece(alloc, &mut pieces[number as usize], size, out)?;
    }
    Ok(())
}

impl Places {
    /// Appends the bytes of the pieces in their places, in order: none for a piece that doesn't check. `out` grows if
    /// it has no room for them. `AllocError`, with a front of them appended, if that was refused.
    pub fn append_to(&self, out: &mut Vec<u8>) -> Result<(), AllocError>
        ensures items { OnOk result (out.new.items ≡ out.old.items ++ joined self.now.values) }
        ensures kept { OnErr result (AppendsSome out.old.items out.new.items self.now.values) }
        ensures full { OnErr result (vec_capacity out.old < vec_len out.old + length (joined self.now.values)) }
        ensures room { OnOk result (vec_capacity out.old ≤ vec_capacity out.new) }
    {
        'appending: for number in 0..self.count() {
            if let Some(bytes) = self.piece(number) {
                out.extend_from_slice(bytes)?;
            }
        }
        Ok(())
    }

    /// Moves the bytes of the pieces from their places to the end of `out`, in order, and none of a piece that doesn't
    /// check. No byte is copied: each place gets a new buffer with room for as many bytes as before. Afterwards no
    /// place is taken. `AllocError`, with some of the bytes moved, if memory was refused.
    pub fn move_to(&mut self, alloc: Global, out: &mut Parts) -> Result<(), AllocError>
        ensures bytes { OnOk result (out.new ≡ out.old ++ joined self.old.values) }
        ensures kept { OnErr result (AppendsSome out.old out.new self.old.values) }
        ensures values { OnOk result (self.new.values ≡ []) }
        ensures room { self.new.room ≡ self.old.room }
        ensures size { self.new.size ≡ self.old.size }
    {
        move_pieces(alloc, &mut self.pieces, self.count, self.size, out)?;
        self.count = 0;
        Ok(())
    }

    /// The same for a last round: no new buffers are made, and no places are left. `AllocError`, with some of the bytes
    /// moved, if memory for the list of buffers was refused.
    pub fn pour_to(&mut self, alloc: Global, out: &mut Parts) -> Result<(), AllocError>
        ensures bytes { OnOk result (out.new ≡ out.old ++ joined self.old.values) }
        ensures kept { OnErr result (AppendsSome out.old out.new self.old.values) }
        ensures values { self.new.values ≡ [] }
        ensures room { self.new.room ≡ 0 }
        ensures size { self.new.size ≡ self.old.size }
    {
        let mut pieces = Vec::new(alloc);
        mem::swap(&mut self.pieces, &mut pieces);
        let count = self.count;
        self.count = 0;
        move_pieces(alloc, &mut pieces, count, 0, out)
    }
}
