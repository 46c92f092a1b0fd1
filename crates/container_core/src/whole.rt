//! A whole container in memory. `begin` reads the header and the cut of any bytes, or returns the first fault that shows
//! before a chunk is opened. `begin_within` does so from the header alone and the number of bytes. `seal_into` and
//! `open_into` seal and open the chunks into room that the caller provides. `seal` and `open` allocate it, and call them.
//!
//! The room for the whole is the only allocation, made before the first chunk is touched. So no result about a chunk
//! is that memory was refused.
ghost use Rattle.std.specs.Prelude.{◌≡◌, ℕ, ◌+◌, ◌<◌, ◌≤◌, ◌++◌, ◌⊎◌, ◌↔◌, List, length, take, vec_len};
ghost use Rattle.std.specs.Bool.{OnTrue, OnFalse};
ghost use Rattle.std.specs.Prelude.{false, vec_capacity, Ok, Err, Some, None, IfOk, IfErr, OnOk, OnErr, MatchResult};
ghost use Rattle.container_core.specs.Container.{container, header_length, is_two, label_bytes, shape_in, size_in};
ghost use Rattle.container_core.specs.Chunks.{body_length, container_length, container_limit};
ghost use Rattle.container_core.specs.Chunks.{most_of, sealed_chunks, chunk_of_one};
ghost use Rattle.container_core.specs.Opening.{early_fault, opening, unsealed};
ghost use Rattle.container_core.specs.Shape.{size_of, IsShape};
ghost use Rattle.container_core.specs.Stream.{prefix_in};

use crate::chunk::{append, append_opened, append_sealed};
use crate::cutting::{Cut, container_bytes, longest_bytes};
use crate::fault::{OpenFault, SealFault};
use crate::header::{Header, begins_as_two, read_header};
use crate::key::Key;
use crate::shape::Shape;
use crate::{MAX_OPENED, MAX_PLAIN};
use std::alloc::Global;

// Whether a container doesn't begin as version 2, and has more bytes than the longest of version 1 with a plaintext of
// up to `most` bytes.
fn is_long_one(front: &[u8], bytes: u64, most: u64) -> bool
    requires { most ≤ MAX_OPENED }
    ensures long { OnTrue result ((is_two front.now ≡ false) × (container_limit 24 chunk_of_one most < bytes)) }
    ensures within { OnFalse result (is_two front.now ≡ false → bytes ≤ container_limit 24 chunk_of_one most) }
{
    !begins_as_two(front) && bytes > longest_bytes(&Shape::one(), most)
}

/// Returns the header and the cut of a container of `bytes` bytes under a key, or the first fault that shows before any
/// chunk is opened. It has at most `most` plaintext bytes (2^52 - 2^20 at most) and 2^32 - 1 chunks. `front` is the
/// container's beginning: at least its header, or all its bytes. In version 2 the header's faults come first, then
/// `TooLong` and `BadLength`. Else `TooLong` comes first, then the header's and `BadLength`. Allocates nothing.
pub fn begin_within(
    key: &Key,
    front: &[u8],
    bytes: u64,
    most: u64,
) -> Result<(Header, Cut), OpenFault>
    requires most { most ≤ MAX_OPENED }
    requires front { length front.now ≤ bytes }
    requires header { length front.now < bytes → header_length front.now ≤ length front.now }
    ensures header { IfOk result (λ begun. begun.0 ≡ take (header_length front.now) front.now) }
    ensures enough { OnOk result (header_length front.now ≤ length front.now) }
    ensures size { IfOk result (λ begun. begun.1.size ≡ size_in begun.0) }
    ensures named { IfOk result (λ begun. begun.1.size ≡ size_in front.now) }
    ensures cut { IfOk result (λ begun. bytes ≡ container_length (header_length front.now) begun.1.size begun.1.plain) }
    ensures within { IfOk result (λ begun. begun.1.plain ≤ most) }
    ensures few { IfOk result (λ begun. begun.1.plain ≤ most_of most begun.1.size) }

    // For every container of `bytes` bytes that begins with `front`.
    ensures faultless { OnOk result ((whole : List ℕ) → length whole ≡ bytes → take (length front.now) whole ≡ front.now
        → early_fault key.now most whole ≡ None) }
    ensures fault { IfErr result (λ fault. (whole : List ℕ) → length whole ≡ bytes
        → take (length front.now) whole ≡ front.now → early_fault key.now most whole ≡ Some fault) }
{
    let long = is_long_one(front, bytes, most);
    if long {
        return Err(OpenFault::TooLong);
    }
    let header = match read_header(key, front) {
        Ok(header) => header,
        Err(fault) => return Err(fault),
    };
    let too_long = bytes > header.longest_bytes(most);
    if too_long {
        return Err(OpenFault::TooLong);
    }
    match Cut::of_body(&header, bytes - header.bytes().len() as u64) {
        Ok(cut) => Ok((header, cut)),
        Err(fault) => Err(fault),
    }
}

/// Returns the header and the cut of a container under a key, of at most 2^52 - 2^20 plaintext bytes and 2^32 - 1
/// chunks. Else returns the first fault that shows before any chunk is opened, as `begin_within` does. Allocates
/// nothing.
pub fn begin(key: &Key, bytes: &[u8]) -> Result<(Header, Cut), OpenFault>
    ensures header { IfOk result (λ begun. begun.0 ≡ take (header_length bytes.now) bytes.now) }
    ensures size { IfOk result (λ begun. begun.1.size ≡ size_in begun.0) }
    ensures named { IfOk result (λ begun. begun.1.size ≡ size_in bytes.now) }
    ensures cut { IfOk result (λ begun. length bytes.now
        ≡ container_length (header_length bytes.now) begun.1.size begun.1.plain) }
    ensures few { IfOk result (λ begun. begun.1.plain ≤ most_of MAX_OPENED begun.1.size) }
    ensures faultless { OnOk result (early_fault key.now MAX_OPENED bytes.now ≡ None) }
    ensures fault { IfErr result (λ fault. early_fault key.now MAX_OPENED bytes.now ≡ Some fault) }
{
    begin_within(key, bytes, bytes.len() as u64, MAX_OPENED)
}

/// Appends the container of a plaintext of at most 2^40 bytes under a key and a prefix, in a shape. `out` must have
/// room for it: for `container_bytes` of the shape and the plaintext's length. Allocates nothing.
pub fn seal_into(out: &mut Vec<u8>, key: &Key, shape: &Shape, prefix: [u8; 7], plain: &[u8])
    requires plain { length plain.now ≤ MAX_PLAIN }
    requires room { vec_len out.old + container_length (24 + length (label_bytes shape.now.label)) (size_of shape.now)
        (length plain.now) ≤ vec_capacity out.old }
    ensures container { out.new.items ≡ out.old.items ++ container key.now shape.now prefix plain.now }
    ensures capacity { vec_capacity out.old ≤ vec_capacity out.new }
{
    let header = Header::of(key, shape, prefix);
    let cut = Cut::of(&header, plain.len() as u64);
    let count = cut.count();
    append(out, header.bytes());
    for number in 0..count {
        let chunk = cut.chunk_of(plain, number);
        append_sealed(out, key, &header, number, number + 1 == count, chunk);
    }
}

/// Returns the container of a plaintext under a key and a prefix, in a shape. `TooLong` over 2^40 bytes, `OutOfMemory`
/// if memory was refused.
pub fn seal(
    alloc: Global,
    key: &Key,
    shape: &Shape,
    prefix: [u8; 7],
    plain: &[u8],
) -> Result<Vec<u8>, SealFault>
    ensures container { IfOk result (λ out. out.items ≡ container key.now shape.now prefix plain.now) }
    ensures too_long { (result ≡ Err SealFault.TooLong) ↔ (MAX_PLAIN < length plain.now) }
    ensures faults { IfErr result (λ fault. (fault ≡ SealFault.TooLong) ⊎ (fault ≡ SealFault.OutOfMemory)) }
{
    let bytes = plain.len() as u64;
    if bytes > MAX_PLAIN {
        return Err(SealFault::TooLong);
    }
    let Ok(mut out) = Vec::with_capacity(alloc, container_bytes(shape, bytes) as usize) else {
        return Err(SealFault::OutOfMemory);
    };
    seal_into(&mut out, key, shape, prefix, plain);
    Ok(out)
}

/// Appends the plaintext of the chunks after a header. `out` must have room for `cut.plain()` bytes. `Forged` names
/// the first chunk that doesn't check; then nothing is appended. It is the only fault: nothing is allocated.
pub fn open_into(
    out: &mut Vec<u8>,
    key: &Key,
    header: &Header,
    cut: Cut,
    body: &[u8],
) -> Result<(), OpenFault>
    requires size { cut.size ≡ size_in header.now }
    requires body { length body.now ≡ body_length cut.size cut.plain }
    requires room { vec_len out.old + cut.plain ≤ vec_capacity out.old }
    ensures plaintext { OnOk result ((plain : List ℕ)
        × (unsealed key.now header.now 0 (sealed_chunks cut.size body.now) ≡ Ok plain)
        × (out.new.items ≡ out.old.items ++ plain)) }
    ensures forged { IfErr result (λ fault.
        unsealed key.now header.now 0 (sealed_chunks cut.size body.now) ≡ Err fault) }
    ensures unchanged { OnErr result (out.new.items ≡ out.old.items) }
    ensures capacity { vec_capacity out.old ≤ vec_capacity out.new }
{
    let before = out.len();
    let count = cut.count();
    for number in 0..count {
        let sealed = cut.sealed_of(body, number);
        if !append_opened(out, key, header, number, number + 1 == count, sealed) {
            out.truncate(before);
            return Err(OpenFault::Forged { chunk: number });
        }
    }
    Ok(())
}

/// Returns the plaintext of a container under a key, of at most 2^52 - 2^20 bytes and 2^32 - 1 chunks. Else returns
/// the first fault: one of `begin`, then `Forged`. `OutOfMemory` if the room for the plaintext was refused; it is
/// requested after all else was tested and before any tag is.
pub fn open(alloc: Global, key: &Key, bytes: &[u8]) -> Result<Vec<u8>, OpenFault>
    ensures plaintext { IfOk result (λ out. opening key.now MAX_OPENED bytes.now ≡ Ok out.items) }
    ensures fault { IfErr result (λ fault. (fault ≡ OpenFault.OutOfMemory)
        ⊎ (opening key.now MAX_OPENED bytes.now ≡ Err fault)) }

    // Memory is requested only if neither the length nor the header has a fault.
    ensures memory { result ≡ Err OpenFault.OutOfMemory → early_fault key.now MAX_OPENED bytes.now ≡ None }

    // Bytes that open are the container of their plaintext, of the shape and under the prefix that their header names.
    // Such a container opens.
    ensures sealed { IfOk result (λ out. bytes.now
        ≡ container key.now (shape_in bytes.now) (prefix_in bytes.now) out.items) }
    ensures shape { OnOk result (IsShape (shape_in bytes.now)) }
    ensures opens { (plain : List ℕ) → length plain ≤ most_of MAX_OPENED (size_in bytes.now)
        → IsShape (shape_in bytes.now)
        → bytes.now ≡ container key.now (shape_in bytes.now) (prefix_in bytes.now) plain
        → MatchResult result (λ out. out.items ≡ plain) (λ fault. fault ≡ OpenFault.OutOfMemory) }
    ensures opens_sealed { (plain : List ℕ) → length plain ≤ MAX_PLAIN → IsShape (shape_in bytes.now)
        → bytes.now ≡ container key.now (shape_in bytes.now) (prefix_in bytes.now) plain
        → MatchResult result (λ out. out.items ≡ plain) (λ fault. fault ≡ OpenFault.OutOfMemory) }
{
    let (header, cut) = match begin(key, bytes) {
        Ok(begun) => begun,
        Err(fault) => return Err(fault),
    };
    let Ok(mut out) = Vec::with_capacity(alloc, cut.plain() as usize) else {
        return Err(OpenFault::OutOfMemory);
    };
    let (_, body) = bytes.split_at(header.bytes().len());
    match open_into(&mut out, key, &header, cut, body) {
        Ok(()) => Ok(out),
        Err(fault) => Err(fault),
    }
}
