//! A round: consecutive chunks, numbered from `first`. Each is sealed, opened or checked by its number, in any order.
//!
//! The nonce of a chunk encodes its number and whether it is the last of all. The last chunk of a round is the last of
//! all if the round's flag says so; no other chunk of a round is. Nothing here allocates memory.
ghost use Rattle.std.specs.Prelude.{◌≡◌, ◌+◌, ◌^◌, ◌==◌, ◌&&◌, ◌<◌, ◌≤◌, [], length, slice_index_or, None, Some};
ghost use Rattle.std.specs.Prelude.{vec_capacity};
ghost use Rattle.std.specs.Bool.{OnTrue, OnFalse};
ghost use Rattle.container_core.specs.Chunks.{chunk_count, most_chunk};
ghost use Rattle.container_core.specs.Container.{size_in};
ghost use Rattle.worker_core.specs.Values.{parts_of, value_at, round_of};
ghost use Rattle.worker_core.specs.Parts.{body_bytes, room_of, part_size, least_part};

use container_core::{Cut, Header, Key, TAG, append_opened, append_sealed, check_chunk};
use std::marker::Model;

/// What is done to each chunk of a round.
#[derive(Clone, Copy, PartialEq, Eq, Debug)]
pub enum Task {
    /// It is sealed.
    Sealing,
    /// It is opened.
    Opening,
    /// It is opened and its plaintext dropped: only whether it checks is kept.
    Checking,
}

impl Task {
    /// Returns the bytes of room that a piece needs, for chunks of at most `size` bytes (2^20 at most).
    pub fn room(self, size: usize) -> usize
        requires { size ≤ most_chunk }
        ensures { result ≡ room_of self size }
    {
        match self {
            Task::Sealing => size + TAG,
            Task::Opening => size,
            Task::Checking => 0,
        }
    }
}

/// Chunks to be sealed, opened or checked under a key and a header. Contracts see what comes of each of them.
#[derive(Drop)]
pub struct Round<'a> {
    task: Task,
    key: &'a Key,
    header: &'a Header,
    first: u32,
    last: bool,
    cut: Cut,
    body: &'a [u8],
}

impl<'a> Model for Round<'a> {
    ghost use Rattle.worker_core.specs.Views.{RoundView};
    ghost use Rattle.worker_core.specs.Values.{values_of};
    ghost use Rattle.worker_core.specs.Parts.{IsCutBy};
    ghost use Rattle.container_core.specs.Container.{size_in};

    ghost Value = { RoundView };

    ghost view = { λ r. record {
      task = r.task;
      size = size_in r.header.now;
      first = r.first;
      values = values_of r.task r.key.now r.header.now r.first r.last r.body.now;
    } };

    ghost invariant = { λ r. IsCutBy r.task r.header.now r.first r.cut r.body.now };
}

// The part of a body from which the piece of this number is made.
fn part_at(task: Task, cut: Cut, body: &[u8], number: u32) -> &[u8]
    requires number { number < chunk_count cut.size cut.plain }
    requires body { length body.now ≡ body_bytes task cut.size cut.plain }
    ensures part { result.now ≡ slice_index_or (parts_of task cut.size body.now) number [] }
    ensures enough { least_part task ≤ length result.now }
    ensures small { length result.now ≤ part_size task cut.size }
{
    match task {
        Task::Sealing => cut.chunk_of(body, number),
        Task::Opening | Task::Checking => cut.sealed_of(body, number),
    }
}

// Whether the chunk of this number, of `count` chunks, is the last of all.
fn is_last(number: u32, count: u32, last: bool) -> bool
    requires { number < count }
    ensures { result ≡ ((number + 1 == count) && last) }
{
    number + 1 == count && last
}

// Makes what comes of one part in `out`, and returns whether it checks.
fn make_value(
    task: Task,
    key: &Key,
    header: &Header,
    number: u32,
    last: bool,
    part: &[u8],
    out: &mut Vec<u8>,
) -> bool
    requires enough { least_part task ≤ length part.now }
    requires small { length part.now ≤ part_size task (size_in header.now) }
    requires empty { out.old.items ≡ [] }
    requires room { room_of task (size_in header.now) ≤ vec_capacity out.old }
    ensures made { OnTrue result (value_at task key.now header.now number last part.now ≡ Some out.new.items) }
    ensures refused { OnFalse result ((value_at task key.now header.now number last part.now ≡ None)
        × (out.new.items ≡ [])) }
    ensures capacity { vec_capacity out.old ≤ vec_capacity out.new }
{
    match task {
        Task::Sealing => {
            append_sealed(out, key, header, number, last, part);
            true
        }
        Task::Opening => append_opened(out, key, header, number, last, part),
        Task::Checking => check_chunk(key, header, number, last, part),
    }
}

impl<'a> Round<'a> {
    /// Returns the round of a body: a plaintext, whose chunks are sealed, or sealed chunks, which are opened or
    /// checked. `first` is the number of its first chunk, and `last` whether its last chunk is the last of all. `cut`
    /// cuts as many plaintext bytes as the body has into chunks of the header's size.
    pub fn new(
        task: Task,
        key: &'a Key,
        header: &'a Header,
        first: u32,
        last: bool,
        cut: Cut,
        body: &'a [u8],
    ) -> Round<'a>
        requires size { cut.size ≡ size_in header.now }
        requires numbers { first + chunk_count cut.size cut.plain ≤ 2 ^ 32 }
        requires body { length body.now ≡ body_bytes task cut.size cut.plain }
        ensures { result ≡ round_of task key.now header.now first last body.now }
    {
        Round {
            task,
            key,
            header,
            first,
            last,
            cut,
            body,
        }
    }

    /// Returns what is done to each chunk.
    pub fn task(&self) -> Task
        ensures { result ≡ self.now.task }
    {
        self.task
    }

    /// Returns the plaintext bytes of each chunk but the last of all.
    pub fn size(&self) -> usize
        ensures value { result ≡ self.now.size }
        ensures most { result ≤ most_chunk }
    {
        self.header.chunk()
    }

    /// Returns the number of its first chunk.
    pub fn first(&self) -> u32
        ensures { result ≡ self.now.first }
    {
        self.first
    }

    /// Returns the chunk number for the piece of this number, from 0 within the round.
    pub fn chunk(&self, number: u32) -> u32
        requires { number < length self.now.values }
        ensures { result ≡ self.now.first + number }
    {
        self.first + number
    }

    /// Returns how many pieces there are: one for each chunk, and at least one.
    pub fn count(&self) -> u32
        ensures count { result ≡ length self.now.values }
        ensures some { 0 < result }
        ensures numbers { self.now.first + result ≤ 2 ^ 32 }
    {
        self.cut.count()
    }

    /// Makes the piece of this number, from 0 within the round, in a buffer with room for it. The piece is its chunk
    /// sealed, with the tag after it; or opened; or nothing if it is only checked. Returns whether the chunk checks,
    /// which is always true in sealing; if not, nothing is written. Allocates nothing.
    pub fn make(&self, number: u32, out: &mut Vec<u8>) -> bool
        requires number { number < length self.now.values }
        requires empty { out.old.items ≡ [] }
        requires room { room_of self.now.task self.now.size ≤ vec_capacity out.old }
        ensures made { OnTrue result (slice_index_or self.now.values number None ≡ Some out.new.items) }
        ensures refused { OnFalse result ((slice_index_or self.now.values number None ≡ None)
            × (out.new.items ≡ [])) }
        ensures capacity { vec_capacity out.old ≤ vec_capacity out.new }
    {
        let part = part_at(self.task, self.cut, self.body, number);
        let last = is_last(number, self.cut.count(), self.last);
        make_value(
            self.task,
            self.key,
            self.header,
            self.first + number,
            last,
            part,
            out,
        )
    }
}
