//! One chunk of STREAM, sealed and opened in place or into room that the caller provides. The nonce encodes the
//! header's prefix, the chunk's number and whether it is the last. The header is the associated data.
//!
//! Nothing here allocates, so no result about a chunk is one about memory.
ghost use Rattle.std.specs.Prelude.{◌≡◌, ℕ, ◌++◌, ◌+◌, ◌-◌, ◌≤◌, List, length, vec_len, vec_capacity, IsTrue, Some};
ghost use Rattle.std.specs.Prelude.{None, false, if◌then◌else◌};
ghost use Rattle.std.specs.Bool.{OnTrue, OnFalse};
ghost use Rattle.container_core.specs.Container.{size_in};
ghost use Rattle.container_core.specs.Stream.{nonce_of, sealed_chunk, opened_chunk};

use crate::TAG;
use crate::header::Header;
use crate::key::Key;
use aead_core::{check, open_in_place, seal_in_place};
use std::alloc::AllocError;

/// Returns the nonce of a chunk: the prefix, the number in 4 big-endian bytes, and 1 for the last chunk, else 0.
#[tactic(auto, unfolding(crate::specs::Stream::nonce_of))]
pub fn nonce(prefix: [u8; 7], chunk: u32, last: bool) -> [u8; 12]
    ensures { result ≡ nonce_of prefix chunk last }
{
    let [a, b, c, d, e, f, g] = prefix;
    let [h, i, j, k] = chunk.to_be_bytes();
    [a, b, c, d, e, f, g, h, i, j, k, if last { 1 } else { 0 }]
}

/// Seals a chunk of at most 2^e bytes in place, and returns its tag; e is the header's exponent.
#[tactic(auto, unfolding(crate::specs::Stream::sealed_chunk))]
pub fn seal_chunk(key: &Key, header: &Header, number: u32, last: bool, text: &mut [u8]) -> [u8; 16]
    requires { length text.old ≤ size_in header.now }
    ensures { text.new ++ result ≡ sealed_chunk key.now header.now number last text.old }
{
    let nonce = nonce(header.prefix(), number, last);
    seal_in_place(key.bytes(), &nonce, header.bytes(), text)
}

/// Opens a chunk of at most 2^e bytes in place, and returns whether `tag` is its tag; e is the header's exponent. If it
/// isn't, the chunk is unchanged.
pub fn open_chunk(
    key: &Key,
    header: &Header,
    number: u32,
    last: bool,
    text: &mut [u8],
    tag: &[u8; 16],
) -> bool
    requires { length text.old ≤ size_in header.now }
    ensures value { opened_chunk key.now header.now number last (text.old ++ tag.now)
        ≡ (if result then Some text.new else None) }
    ensures was_sealed { IsTrue result → sealed_chunk key.now header.now number last text.new ≡ text.old ++ tag.now }
    ensures unchanged { result ≡ false → text.new ≡ text.old }
{
    let nonce = nonce(header.prefix(), number, last);
    open_in_place(key.bytes(), &nonce, header.bytes(), text, tag)
}

// Appends bytes that fit the capacity.
pub(crate) fn append(out: &mut Vec<u8>, bytes: &[u8])
    requires { vec_len out.old + length bytes.now ≤ vec_capacity out.old }
    ensures items { out.new.items ≡ out.old.items ++ bytes.now }
    ensures len { vec_len out.new ≡ vec_len out.old + length bytes.now }
    ensures room { vec_capacity out.old ≤ vec_capacity out.new }
{
    match out.extend_from_slice(bytes) {
        Ok(()) => {}
        Err(AllocError) => unreachable!(),
    }
}

/// Seals a chunk of at most 2^e bytes and appends it, with its tag after it; e is the header's exponent. The capacity
/// must suffice for both.
pub fn append_sealed(
    out: &mut Vec<u8>,
    key: &Key,
    header: &Header,
    number: u32,
    last: bool,
    chunk: &[u8],
)
    requires small { length chunk.now ≤ size_in header.now }
    requires room { vec_len out.old + (length chunk.now + TAG) ≤ vec_capacity out.old }
    ensures sealed { out.new.items ≡ out.old.items ++ sealed_chunk key.now header.now number last chunk.now }
    ensures capacity { vec_capacity out.old ≤ vec_capacity out.new }
{
    let begin = out.len();
    append(out, chunk);
    let tag = seal_chunk(key, header, number, last, &mut out[begin..]);
    append(out, &tag);
}

/// Opens a sealed chunk, of at most 2^e bytes and its tag, and appends its plaintext; e is the header's exponent. The
/// capacity must suffice. Returns whether the tag is right; if it isn't, nothing is appended.
pub fn append_opened(
    out: &mut Vec<u8>,
    key: &Key,
    header: &Header,
    number: u32,
    last: bool,
    sealed: &[u8],
) -> bool
    requires tag { TAG ≤ length sealed.now }
    requires small { length sealed.now ≤ size_in header.now + TAG }
    requires room { vec_len out.old + (length sealed.now - TAG) ≤ vec_capacity out.old }
    ensures opened { OnTrue result ((plain : List ℕ)
        × (opened_chunk key.now header.now number last sealed.now ≡ Some plain)
        × (out.new.items ≡ out.old.items ++ plain)) }
    ensures refused { OnFalse result (opened_chunk key.now header.now number last sealed.now ≡ None) }
    ensures unchanged { OnFalse result (out.new.items ≡ out.old.items) }
    ensures capacity { vec_capacity out.old ≤ vec_capacity out.new }
{
    let (text, end) = sealed.split_at(sealed.len() - TAG);
    let mut tag = [0; TAG];
    tag.copy_from_slice(end);
    let begin = out.len();
    append(out, text);
    if open_chunk(key, header, number, last, &mut out[begin..], &tag) {
        true
    } else {
        out.truncate(begin);
        false
    }
}

/// Returns whether the last 16 bytes of a sealed chunk are its right tag. It changes nothing.
pub fn check_chunk(key: &Key, header: &Header, number: u32, last: bool, sealed: &[u8]) -> bool
    requires { TAG ≤ length sealed.now }
    ensures checks { OnTrue result ((plain : List ℕ)
        × (opened_chunk key.now header.now number last sealed.now ≡ Some plain)) }
    ensures refused { OnFalse result (opened_chunk key.now header.now number last sealed.now ≡ None) }
{
    let (text, end) = sealed.split_at(sealed.len() - TAG);
    let mut tag = [0; TAG];
    tag.copy_from_slice(end);
    let nonce = nonce(header.prefix(), number, last);
    check(key.bytes(), &nonce, header.bytes(), text, &tag)
}
