//! How a plaintext and the body of its container are cut into chunks, and how long a container is.
//!
//! A `Cut` is a size of chunks and the number of plaintext bytes. It gives each chunk by its number, of the plaintext
//! and of the container. Nothing here allocates.
ghost use Rattle.std.specs.Prelude.{◌≡◌, ℕ, ◌+◌, ◌-◌, ◌*◌, ◌^◌, ◌<◌, ◌≤◌, List, []};
ghost use Rattle.std.specs.Prelude.{length, take, drop, min, slice_index_or};
ghost use Rattle.std.specs.Prelude.{◌≢◌, IfOk, IfErr, IfSome, IfNone};
ghost use Rattle.container_core.specs.Chunks.{chunks, chunk_count, body_length, container_length, container_limit};
ghost use Rattle.container_core.specs.Chunks.{most_of, sealed_chunks, most_chunk};
ghost use Rattle.container_core.specs.Container.{label_bytes, size_in};
ghost use Rattle.container_core.specs.Shape.{size_of};
ghost use Rattle.container_core.specs.Cutting.{RefusesCut};

use crate::fault::OpenFault;
use crate::header::Header;
use crate::shape::Shape;
use crate::{MAX_CHUNKS, MAX_OPENED, MAX_PLAIN, TAG};
use std::marker::Model;

// How many chunks of `size` bytes a plaintext of `plain` bytes has.
#[tactic(auto, unfolding(crate::specs::Chunks::chunk_count))]
fn chunks_of(size: u64, plain: u64) -> u64
    requires size { 0 < size }
    requires plain { plain ≤ MAX_OPENED }
    ensures count { result ≡ chunk_count size plain }
    ensures few { result ≤ plain + 1 }
    ensures fewer { 4096 ≤ size → plain ≤ MAX_PLAIN → result ≤ 2 ^ 28 }
    ensures numbers { plain ≤ MAX_CHUNKS * size → result ≤ MAX_CHUNKS }
{
    plain.saturating_sub(1) / size + 1
}

// How many bytes a container of `plain` plaintext bytes has, under a header of `header` bytes, in chunks of `size`.
#[tactic(auto, unfolding(crate::specs::Chunks::body_length))]
pub(crate) fn container_of(header: u64, size: u64, plain: u64) -> u64
    requires header { header ≤ 280 }
    requires size { 0 < size }
    requires plain { plain ≤ MAX_OPENED }
    ensures { result ≡ container_length header size plain }
{
    header + plain + TAG as u64 * chunks_of(size, plain)
}

// The bytes of the greatest plaintext in chunks of `size` bytes: a chunk's number has 32 bits.
fn greatest(size: u64) -> u64
    requires { size ≤ most_chunk }
    ensures value { result ≡ MAX_CHUNKS * size }
    ensures few { result ≤ MAX_OPENED }
{
    u64::from(MAX_CHUNKS) * size
}

// How many bytes the longest container of a plaintext of up to `most` bytes has, under a header of `header` bytes, in
// chunks of `size`.
#[tactic(auto, unfolding(crate::specs::Chunks::most_of))]
pub(crate) fn longest_of(header: u64, size: u64, most: u64) -> u64
    requires header { header ≤ 280 }
    requires size { (0 < size) × (size ≤ most_chunk) }
    requires most { most ≤ MAX_OPENED }
    ensures { result ≡ container_limit header size most }
{
    container_of(header, size, most.min(greatest(size)))
}

/// Returns how many bytes the container of `plain` plaintext bytes has in a shape: the header's, the plaintext's, and
/// 16 for each chunk.
pub fn container_bytes(shape: &Shape, plain: u64) -> u64
    requires { plain ≤ MAX_OPENED }
    ensures { result ≡ container_length (24 + length (label_bytes shape.now.label)) (size_of shape.now) plain }
{
    container_of(shape.header_bytes() as u64, shape.chunk() as u64, plain)
}

/// Returns how many bytes the longest container in a shape has, of a plaintext of up to `most` bytes. That plaintext
/// has `most` bytes, or 2^32 - 1 chunks if they hold fewer.
pub fn longest_bytes(shape: &Shape, most: u64) -> u64
    requires { most ≤ MAX_OPENED }
    ensures { result ≡ container_limit (24 + length (label_bytes shape.now.label)) (size_of shape.now) most }
{
    longest_of(shape.header_bytes() as u64, shape.chunk() as u64, most)
}

/// How a plaintext, or the body of its container, is cut into chunks. Contracts see the size of the chunks, 2^12 to
/// 2^20 bytes, and the number of plaintext bytes, at most those of 2^32 - 1 chunks.
#[derive(Clone, Copy, PartialEq, Eq, Debug)]
pub struct Cut {
    size: u64,
    plain: u64,
}

impl Model for Cut {
    ghost use Rattle.container_core.specs.Views.{CutView, IsCut};

    ghost Value = { CutView };

    ghost view = { λ c. record { size = c.size; plain = c.plain } };

    ghost invariant = { λ c. IsCut (record { size = c.size; plain = c.plain }) };

    ghost inverse = { λ v. record { size = v.size; plain = v.plain } };
}

impl Cut {
    /// Returns the cut of a plaintext of `plain` bytes, and of its container, into chunks of the size that a header
    /// names.
    pub fn of(header: &Header, plain: u64) -> Cut
        requires { plain ≤ MAX_PLAIN }
        ensures size { result.size ≡ size_in header.now }
        ensures plain { result.plain ≡ plain }
    {
        Cut {
            size: header.chunk() as u64,
            plain,
        }
    }

    /// Returns the cut of the `body` bytes after a header, into chunks of 2^e bytes; e is the header's exponent.
    /// `TooLong` over (2^32 - 1) * (2^e + 16) bytes, which are 2^32 - 1 chunks. Else `BadLength` if no plaintext has a
    /// container with `body` bytes after its header.
    ///
    /// All chunks but the last have 2^e + 16 bytes with their tags. The last has 17 to 2^e + 16, or 16 if it is the
    /// only one.
    pub fn of_body(header: &Header, body: u64) -> Result<Cut, OpenFault>
        ensures size { IfOk result (λ cut. cut.size ≡ size_in header.now) }
        ensures places { IfOk result (λ cut. body ≡ body_length cut.size cut.plain) }
        ensures within { IfOk result (λ cut. cut.plain ≤ MAX_OPENED) }
        ensures few { IfOk result (λ cut. cut.plain ≤ MAX_CHUNKS * cut.size) }
        ensures refused { IfErr result (RefusesCut (size_in header.now) body) }
    {
        let size = header.chunk() as u64;
        if body > container_of(0, size, greatest(size)) {
            return Err(OpenFault::TooLong);
        }
        match plain_of(size, body) {
            Some(plain) => Ok(Cut { size, plain }),
            None => Err(OpenFault::BadLength),
        }
    }

    /// Returns how many bytes the plaintext has.
    pub fn plain(self) -> u64
        ensures { result ≡ self.plain }
    {
        self.plain
    }

    /// Returns how many chunks there are: at least one.
    pub fn count(self) -> u32
        ensures count { result ≡ chunk_count self.size self.plain }
        ensures some { 0 < result }
        ensures few { self.plain ≤ MAX_PLAIN → result ≤ 2 ^ 28 }
    {
        chunks_of(self.size, self.plain) as u32
    }

    /// Returns where the ciphertext of a chunk begins, counted from the byte after the header, and how many bytes it
    /// has. Its tag follows.
    pub fn place(self, number: u32) -> (u64, u32)
        requires { number < chunk_count self.size self.plain }
        ensures begin { result.0 ≡ number * (self.size + TAG) }
        ensures bytes { result.1 ≡ min self.size (self.plain - number * self.size) }
        ensures within { number * self.size ≤ self.plain }
        ensures chunk { (body : List ℕ) → length body ≡ body_length self.size self.plain
            → slice_index_or (sealed_chunks self.size body) number [] ≡ take (result.1 + TAG) (drop result.0 body) }
        ensures inside { result.0 + (result.1 + TAG) ≤ body_length self.size self.plain }
    {
        let before = u64::from(number) * self.size;
        let bytes = (self.plain - before).min(self.size);
        (u64::from(number) * (self.size + TAG as u64), bytes as u32)
    }

    /// Returns the chunk of this number of a plaintext.
    pub fn chunk_of(self, plain: &[u8], number: u32) -> &[u8]
        requires number { number < chunk_count self.size self.plain }
        requires plain { length plain.now ≡ self.plain }
        ensures chunk { result.now ≡ slice_index_or (chunks self.size plain.now) number [] }
        ensures bytes { length result.now ≡ min self.size (self.plain - number * self.size) }
    {
        let (_, bytes) = self.place(number);
        let (_, rest) = plain.split_at(number as usize * self.size as usize);
        let (chunk, _) = rest.split_at(bytes as usize);
        chunk
    }

    /// Returns the sealed chunk of this number of a body: the ciphertext, then its tag.
    pub fn sealed_of(self, body: &[u8], number: u32) -> &[u8]
        requires number { number < chunk_count self.size self.plain }
        requires body { length body.now ≡ body_length self.size self.plain }
        ensures sealed { result.now ≡ slice_index_or (sealed_chunks self.size body.now) number [] }
        ensures bytes { length result.now ≡ min self.size (self.plain - number * self.size) + TAG }
    {
        let (begin, bytes) = self.place(number);
        let (_, rest) = body.split_at(begin as usize);
        let (sealed, _) = rest.split_at(bytes as usize + TAG);
        sealed
    }
}

// The number of plaintext bytes of a container with `body` bytes after its header, if there is one.
fn plain_of(size: u64, body: u64) -> Option<u64>
    requires size { (4096 ≤ size) × (size ≤ most_chunk) }
    requires body { body ≤ body_length size (MAX_CHUNKS * size) }
    ensures some { IfSome result (λ plain. body ≡ body_length size plain) }
    ensures within { IfSome result (λ plain. plain ≤ MAX_CHUNKS * size) }
    ensures none { IfNone result ((plain : ℕ) → body ≢ body_length size plain) }
{
    let tag = TAG as u64;
    let sealed = size + tag;
    let full = body / sealed;
    let rest = body % sealed;
    if rest == 0 && full > 0 {
        Some(body - tag * full)
    } else if rest > tag || (rest == tag && full == 0) {
        Some(body - tag * (full + 1))
    } else {
        None
    }
}
