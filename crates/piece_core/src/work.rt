//! One sealing or opening, cut into pieces that can be made one by one, in any order.
ghost use Rattle.std.specs.Prelude.{◌≡◌, ℕ, ◌+◌, ◌-◌, ◌*◌, ◌^◌, ◌<◌, ◌≤◌, List, [], length, min, slice_index_or};
ghost use Rattle.std.specs.Prelude.{None, Some, IfOk, IfErr, OnOk, option_map};
ghost use Rattle.container_core.specs.Chunks.{chunk_count};
ghost use Rattle.container_core.specs.Container.{size_in};
ghost use Rattle.container_core.specs.Opening.{early_fault};
ghost use Rattle.worker_core.specs.Parts.{body_bytes, part_size, least_part, room_of};
ghost use Rattle.worker_core.specs.Values.{parts_of, value_at};
ghost use Rattle.piece_core.specs.Pieces.{piece_of_work};
ghost use Rattle.piece_core.specs.Values.{task_of, sealing_of, opening_of};
ghost use Rattle.piece_core.specs.Parts.{pieces_sum};

use crate::piece::Piece;
use container_core::{
    Cut, Header, Key, MAX_CHUNKS, MAX_OPENED, MAX_PLAIN, OpenFault, Shape, TAG, append_opened,
    append_sealed, begin,
};
use std::alloc::{AllocError, Global};
use std::marker::Model;

/// The most pieces of a work: as many as a container has chunks. A sealing has at most 2^28, since the longest
/// plaintext has that many of the smallest chunks.
pub const MAX_PIECES: u32 = MAX_CHUNKS;

/// What is done to each chunk.
#[derive(Clone, Copy, PartialEq, Eq, Debug)]
pub enum Kind {
    /// It is sealed.
    Sealing,
    /// It is opened.
    Opening,
}

/// A plaintext to be sealed under a key and a prefix in a shape, or a container to be opened under a key.
#[derive(Drop)]
pub struct Work<'a> {
    kind: Kind,
    key: &'a Key,
    header: Header,
    cut: Cut,
    body: &'a [u8],
}

impl<'a> Model for Work<'a> {
    ghost use Rattle.piece_core.specs.Pieces.{WorkView};
    ghost use Rattle.piece_core.specs.Values.{work_of};
    ghost use Rattle.piece_core.specs.Parts.{IsCut};

    ghost Value = { WorkView };

    ghost view = { λ w. work_of w.kind w.key.now w.header w.body.now };

    ghost invariant = { λ w. IsCut w.kind w.header w.cut w.body.now };
}

// The part of a body that the piece of this number is made from.
fn part_of_work(kind: Kind, cut: Cut, body: &[u8], number: u32) -> &[u8]
    requires number { number < chunk_count cut.size cut.plain }
    requires cut { length body.now ≡ body_bytes (task_of kind) cut.size cut.plain }
    ensures part { result.now ≡ slice_index_or (parts_of (task_of kind) cut.size body.now) number [] }
    ensures enough { least_part (task_of kind) ≤ length result.now }
    ensures small { length result.now ≤ part_size (task_of kind) cut.size }
{
    match kind {
        Kind::Sealing => cut.chunk_of(body, number),
        Kind::Opening => cut.sealed_of(body, number),
    }
}

// What comes of one part.
fn made_of(
    alloc: Global,
    kind: Kind,
    key: &Key,
    header: &Header,
    number: u32,
    last: bool,
    part: &[u8],
) -> Result<Option<Vec<u8>>, AllocError>
    requires enough { least_part (task_of kind) ≤ length part.now }
    requires small { length part.now ≤ part_size (task_of kind) (size_in header.now) }
    ensures { IfOk result (λ o. option_map (λ v. v.items) o
        ≡ value_at (task_of kind) key.now header.now number last part.now) }
{
    match kind {
        Kind::Sealing => {
            let mut bytes = Vec::with_capacity(alloc, part.len() + TAG)?;
            append_sealed(&mut bytes, key, header, number, last, part);
            Ok(Some(bytes))
        }
        Kind::Opening => {
            let mut bytes = Vec::with_capacity(alloc, part.len() - TAG)?;
            if append_opened(&mut bytes, key, header, number, last, part) {
                Ok(Some(bytes))
            } else {
                Ok(None)
            }
        }
    }
}

// How many bytes all pieces of a body with this cut have together.
fn sum_of_pieces(kind: Kind, cut: Cut) -> usize
    requires { cut.plain ≤ MAX_OPENED }
    ensures sum { result ≡ pieces_sum kind cut.size cut.plain }
    ensures few { result ≤ 2 ^ 53 }
{
    match kind {
        Kind::Sealing => cut.plain() as usize + TAG * cut.count() as usize,
        Kind::Opening => cut.plain() as usize,
    }
}

impl<'a> Work<'a> {
    /// The work of sealing a plaintext of at most 2^40 bytes in a shape. Allocates nothing.
    pub fn sealing(key: &'a Key, shape: &Shape, prefix: [u8; 7], plain: &'a [u8]) -> Work<'a>
        requires { length plain.now ≤ MAX_PLAIN }
        ensures { result ≡ sealing_of key.now shape.now prefix plain.now }
    {
        let header = Header::of(key, shape, prefix);
        let cut = Cut::of(&header, plain.len() as u64);
        Work {
            kind: Kind::Sealing,
            key,
            header,
            cut,
            body: plain,
        }
    }

    /// The work of opening a container, of either version, of at most 2^52 - 2^20 plaintext bytes in at most 2^32 - 1
    /// chunks. Or the first fault that is found before any chunk is opened, as `container_core::begin` names it: from
    /// `TooLong` and those of the header to `BadLength`. Allocates nothing.
    pub fn opening(key: &'a Key, container: &'a [u8]) -> Result<Work<'a>, OpenFault>
        ensures work { IfOk result (λ w. w ≡ opening_of key.now container.now) }
        ensures faultless { OnOk result (early_fault key.now MAX_OPENED container.now ≡ None) }
        ensures fault { IfErr result (λ fault. early_fault key.now MAX_OPENED container.now ≡ Some fault) }
    {
        match begin(key, container) {
            Ok((header, cut)) => {
                let (_, body) = container.split_at(header.bytes().len());
                Ok(Work {
                    kind: Kind::Opening,
                    key,
                    header,
                    cut,
                    body,
                })
            }
            Err(fault) => Err(fault),
        }
    }

    /// How many pieces there are: one for each chunk. Allocates nothing.
    pub fn count(&self) -> u32
        ensures count { result ≡ length self.now.values }
        ensures some { 0 < result }
        ensures few { result ≤ MAX_PIECES }
        ensures sealing { self.now.kind ≡ Kind.Sealing → result ≤ 2 ^ 28 }
    {
        self.cut.count()
    }

    /// Makes the piece of this number, counted from 0: its chunk sealed, or opened, or that it doesn't check. The same
    /// number gives the same piece. Fails with `AllocError` where memory was refused.
    pub fn piece(&self, alloc: Global, number: u32) -> Result<Piece, AllocError>
        requires { number < length self.now.values }
        ensures { IfOk result (λ p. p ≡ piece_of_work self.now number) }
    {
        let part = part_of_work(self.kind, self.cut, self.body, number);
        let count = self.count();
        let last = number + 1 == count;
        let value = made_of(alloc, self.kind, self.key, &self.header, number, last, part)?;
        Ok(Piece {
            kind: self.kind,
            header: self.header.copy(),
            number,
            value,
        })
    }

    // How many bytes all pieces have together.
    pub(crate) fn bytes_of_pieces(&self) -> usize
        ensures least { (length self.now.values - 1) * room_of (task_of self.now.kind) (size_in self.now.header)
            ≤ result }
        ensures most { result ≤ length self.now.values * room_of (task_of self.now.kind) (size_in self.now.header) }
        ensures few { result ≤ 2 ^ 53 }

        // Every piece that checks has the length of its part, if `result` bytes are cut after every `room_of` bytes.
        ensures each { (n : ℕ) (bytes : List ℕ)
            → n < length self.now.values → slice_index_or self.now.values n None ≡ Some bytes
            → length bytes ≡ min (room_of (task_of self.now.kind) (size_in self.now.header))
            (result - n * room_of (task_of self.now.kind) (size_in self.now.header)) }
    {
        sum_of_pieces(self.kind, self.cut)
    }

    // The kind of all pieces.
    pub(crate) fn kind(&self) -> Kind
        ensures { result ≡ self.now.kind }
    {
        self.kind
    }

    // The header of the container.
    pub(crate) fn header(&self) -> &Header
        ensures { result.now ≡ self.now.header }
    {
        &self.header
    }
}
