//! The whole that the pieces of a work are joined to: one buffer, reserved once, with a part for each piece.
ghost use Rattle.std.specs.Prelude.{◌≡◌, ℕ, ◌+◌, ◌*◌, ◌^◌, ◌<◌, ◌≤◌, ◌++◌, List, [], length, take, drop, replicate};
ghost use Rattle.std.specs.Prelude.{slice_index_or, slice_set, None, Some, IfOk, OnOk};
ghost use Rattle.container_core.specs.Container.{size_in};
ghost use Rattle.worker_core.specs.Parts.{room_of};
ghost use Rattle.piece_core.specs.Answer.{bytes_before};
ghost use Rattle.piece_core.specs.Rooms.{all_of};
ghost use Rattle.piece_core.specs.Values.{task_of};

use crate::work::{Kind, Work};
use container_core::{Header, TAG};
use std::alloc::{AllocError, Global};
use std::marker::Model;

// What comes before the pieces, and a part for each of them.
#[derive(Drop)]
pub(crate) struct Room {
    front: usize,
    size: usize,
    count: u32,
    whole: Vec<u8>,
}

impl Model for Room {
    ghost use Rattle.std.specs.Prelude.{◌≤◌, ◌+◌, ◌-◌, ◌*◌, ◌<◌, take, drop, length};
    ghost use Rattle.container_core.specs.Chunks.{parts};
    ghost use Rattle.piece_core.specs.Rooms.{RoomView};

    ghost Value = { RoomView };

    ghost view = { λ r. record {
      front = take r.front r.whole.items;
      parts = parts r.size (r.count - 1) (drop r.front r.whole.items);
    } };

    // Every part but the last has `size` bytes, and the last has at most `size`.
    ghost invariant = { λ r. (0 < r.count) × (r.front + (r.count - 1) * r.size ≤ length r.whole.items)
        × (length r.whole.items ≤ r.front + r.count * r.size) };
}

// Appends `count` zeros, which are overwritten later.
fn append_zeros(bytes: &mut Vec<u8>, count: usize) -> Result<(), AllocError>
    requires { length bytes.old.items + count < 2 ^ 63 }
    ensures { OnOk result (bytes.new.items ≡ bytes.old.items ++ replicate count 0) }
{
    bytes.resize(bytes.len() + count, 0)
}

// How many bytes every piece but the last has.
fn size_of_piece(kind: Kind, header: &Header) -> usize
    ensures { result ≡ room_of (task_of kind) (size_in header.now) }
{
    match kind {
        Kind::Sealing => header.chunk() + TAG,
        Kind::Opening => header.chunk(),
    }
}

// What comes before the pieces, with room for `bytes` bytes more.
fn front_bytes(alloc: Global, work: &Work, bytes: usize) -> Result<Vec<u8>, AllocError>
    requires { bytes ≤ 2 ^ 53 }
    ensures front { IfOk result (λ v. v.items ≡ bytes_before work.now.kind work.now.header) }
    ensures short { IfOk result (λ v. length v.items ≤ 280) }
{
    let header = work.header().bytes();
    let mut front = Vec::with_capacity(alloc, header.len() + bytes)?;
    match work.kind() {
        Kind::Sealing => front.extend_from_slice(header)?,
        Kind::Opening => {}
    }
    Ok(front)
}

// Where the part of this number begins.
fn begin_at(front: usize, size: usize, number: usize, bytes: usize) -> usize
    requires { front + number * size ≤ bytes }
    ensures { result ≡ front + number * size }
{
    front + number * size
}

// The part that begins at `begin`, at most `size` bytes.
fn cut_at(whole: &[u8], begin: usize, size: usize) -> &[u8]
    requires { begin ≤ length whole.now }
    ensures { result.now ≡ take size (drop begin whole.now) }
{
    let (_, rest) = whole.split_at(begin);
    let (part, _) = rest.split_at(size.min(rest.len()));
    part
}

// Overwrites the bytes from `begin` on with these.
fn write_over(whole: &mut [u8], begin: usize, bytes: &[u8])
    requires { begin + length bytes.now ≤ length whole.old }
    ensures { whole.new ≡ take begin whole.old ++ (bytes.now ++ drop (begin + length bytes.now) whole.old) }
{
    let (_, rest) = whole.split_at_mut(begin);
    let (part, _) = rest.split_at_mut(bytes.len());
    part.copy_from_slice(bytes);
}

// The same in a vector.
fn write_at(whole: &mut Vec<u8>, begin: usize, bytes: &[u8])
    requires { begin + length bytes.now ≤ length whole.old.items }
    ensures { whole.new.items ≡ take begin whole.old.items
        ++ (bytes.now ++ drop (begin + length bytes.now) whole.old.items) }
{
    write_over(whole.as_mut_slice(), begin, bytes);
}

impl Room {
    // Makes the front of a work's whole, and for each piece a part that is as long as the piece.
    pub(crate) fn new(alloc: Global, work: &Work) -> Result<Room, AllocError>
        ensures front { IfOk result (λ room. room.front ≡ bytes_before work.now.kind work.now.header) }
        ensures count { IfOk result (λ room. length room.parts ≡ length work.now.values) }
        ensures sizes { IfOk result (λ room. (n : ℕ) (bytes : List ℕ)
            → n < length work.now.values → slice_index_or work.now.values n None ≡ Some bytes
            → length bytes ≡ length (slice_index_or room.parts n [])) }
    {
        let bytes = work.bytes_of_pieces();
        let mut whole = front_bytes(alloc, work, bytes)?;
        let front = whole.as_slice().len();
        append_zeros(&mut whole, bytes)?;
        Ok(Room {
            front,
            size: size_of_piece(work.kind(), work.header()),
            count: work.count(),
            whole,
        })
    }

    // What comes before the pieces.
    pub(crate) fn front(&self) -> &[u8]
        ensures { result.now ≡ self.now.front }
    {
        let (front, _) = self.whole.as_slice().split_at(self.front);
        front
    }

    // How many bytes the part of this number has.
    pub(crate) fn bytes_at(&self, number: usize) -> usize
        requires { number < length self.now.parts }
        ensures { result ≡ length (slice_index_or self.now.parts number []) }
    {
        let whole = self.whole.as_slice();
        let begin = begin_at(self.front, self.size, number, whole.len());
        self.size.min(whole.len() - begin)
    }

    // The part of this number.
    pub(crate) fn part(&self, number: usize) -> &[u8]
        requires { number < length self.now.parts }
        ensures { result.now ≡ slice_index_or self.now.parts number [] }
    {
        let whole = self.whole.as_slice();
        let begin = begin_at(self.front, self.size, number, whole.len());
        cut_at(whole, begin, self.size)
    }

    // Overwrites the part of this number.
    pub(crate) fn write(&mut self, number: usize, bytes: &[u8])
        requires inside { number < length self.old.parts }
        requires fits { length bytes.now ≡ length (slice_index_or self.old.parts number []) }
        ensures front { self.new.front ≡ self.old.front }
        ensures parts { self.new.parts ≡ slice_set self.old.parts number bytes.now }
    {
        let begin = begin_at(self.front, self.size, number, self.whole.as_slice().len());
        write_at(&mut self.whole, begin, bytes);
    }

    // The front and all parts, one after another.
    pub(crate) fn into_bytes(self) -> Vec<u8>
        ensures { result.items ≡ self.front ++ all_of self.parts }
    {
        let Room { whole, .. } = self;
        whole
    }
}
