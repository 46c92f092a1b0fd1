//! A round that owns the bytes of its chunks, so that threads can share it.
ghost use Rattle.std.specs.Prelude.{◌≡◌, ◌+◌, ◌^◌, ◌≤◌, take, vec_len, vec_capacity};
ghost use Rattle.container_core.specs.Chunks.{chunk_count};
ghost use Rattle.container_core.specs.Container.{size_in};
ghost use Rattle.worker_core.specs.Parts.{body_bytes};
ghost use Rattle.worker_core.specs.Values.{round_of};

use crate::round::{Round, Task};
use crate::slots::Expected;
use container_core::{Cut, Header, Key};
use std::marker::Model;
use std::snapshot::Snapshot;

/// The chunks in the first `length` bytes of a buffer, and their header. Contracts see the round of these, and all bytes
/// of the buffer.
#[derive(Drop)]
pub struct OwnedRound<'a> {
    task: Task,
    key: &'a Key,
    header: Header,
    first: u32,
    last: bool,
    cut: Cut,
    length: usize,
    bytes: Vec<u8>,
}

impl<'a> Model for OwnedRound<'a> {
    ghost use Rattle.std.specs.Prelude.{◌≤◌, take, vec_len, vec_capacity};
    ghost use Rattle.worker_core.specs.Owned.{OwnedView};

    ghost Value = { OwnedView };

    ghost use Rattle.worker_core.specs.Values.{round_of};
    ghost use Rattle.worker_core.specs.Parts.{IsCutBy};

    ghost view = { λ o. record {
      round = round_of o.task o.key.now o.header o.first o.last (take o.length o.bytes.items);
      bytes = o.bytes.items;
      room = vec_capacity o.bytes;
    } };

    ghost invariant = { λ o. (o.length ≤ vec_len o.bytes)
        × IsCutBy o.task o.header o.first o.cut (take o.length o.bytes.items) };
}

impl<'a> OwnedRound<'a> {
    ghost use Rattle.std.specs.Prelude.{slice_index_or, None};
    ghost use Rattle.worker_core.specs.Slots.{expected_value};

    /// Returns the round of the body in the first `length` bytes of a buffer, with a copy of its header. `cut` cuts as
    /// many plaintext bytes as that has into chunks of the header's size. `first` is the number of its first chunk, and
    /// `last` whether its last chunk is the last of all.
    pub fn new(
        task: Task,
        key: &'a Key,
        header: &Header,
        first: u32,
        last: bool,
        cut: Cut,
        bytes: Vec<u8>,
        length: usize,
    ) -> OwnedRound<'a>
        requires length { length ≤ vec_len bytes }
        requires size { cut.size ≡ size_in header.now }
        requires numbers { first + chunk_count cut.size cut.plain ≤ 2 ^ 32 }
        requires body { length ≡ body_bytes task cut.size cut.plain }
        ensures round { result.round ≡ round_of task key.now header.now first last (take length bytes.items) }
        ensures bytes { (result.bytes ≡ bytes.items) × (result.room ≡ vec_capacity bytes) }
    {
        OwnedRound {
            task,
            key,
            header: header.copy(),
            first,
            last,
            cut,
            length,
            bytes,
        }
    }

    /// Returns the buffer.
    pub(crate) fn into_bytes(self) -> Vec<u8>
        ensures { (result.items ≡ self.entry.bytes) × (vec_capacity result ≡ self.entry.room) }
    {
        let OwnedRound {
            task: _,
            key: _,
            header: _,
            first: _,
            last: _,
            cut: _,
            length: _,
            bytes,
        } = self;
        bytes
    }

    /// Returns the round, which borrows the bytes.
    pub(crate) fn round(&self) -> Round<'_>
        ensures { result ≡ self.now.round }
    {
        let (body, _) = self.bytes.as_slice().split_at(self.length);
        Round::new(
            self.task,
            self.key,
            &self.header,
            self.first,
            self.last,
            self.cut,
            body,
        )
    }

    /// Returns what a slot for the piece of this number expects, with room for `size` bytes.
    pub(crate) fn expected(&self, size: usize, number: u32) -> Expected
        ensures size { result.size ≡ size }
        ensures value { expected_value result ≡ slice_index_or self.now.round.values number None }
    {
        Expected {
            size,
            number,
            task: self.task,
            key: Snapshot::of(self.key),
            header: Snapshot::of(&self.header),
            first: self.first,
            last: self.last,
            bytes: Snapshot::of(&self.bytes),
            length: self.length,
        }
    }
}
