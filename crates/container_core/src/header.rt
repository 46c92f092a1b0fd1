//! The header of a container: 24 bytes, and in version 2 the label's length and a label after them.
//!
//! | bytes | content |
//! |---|---|
//! | 0 to 7 | `STRMSEAL` |
//! | 8 | the version, 1 or 2 |
//! | 9 | the exponent of the chunks' size: 16 in version 1, 12 to 20 in version 2 |
//! | 10 to 16 | the prefix of all nonces |
//! | 17 to 23 | the key's hint |
//! | 24 | version 2: the label's length |
//! | from 25 | version 2: the label |
ghost use Rattle.std.specs.Prelude.{◌≡◌, ◌≤◌, ◌+◌, length, take, drop, slice_index, None, Some, IfOk, IfErr, OnOk};
ghost use Rattle.container_core.specs.Chunks.{container_length, container_limit, most_chunk};
ghost use Rattle.container_core.specs.Container.{front_of, header_of, header_length, is_two};
ghost use Rattle.container_core.specs.Container.{size_in, label_bytes, version_of};
ghost use Rattle.container_core.specs.Opening.{header_fault, header_fault_one, header_fault_two};
ghost use Rattle.container_core.specs.Stream.{prefix_in};

use crate::cutting::{container_of, longest_of};
use crate::fault::OpenFault;
use crate::image::Image;
use crate::key::Key;
use crate::shape::{Shape, power};
use crate::{EXPONENT, HEADER, MAX_EXPONENT, MAX_OPENED, MIN_EXPONENT};
use std::marker::Model;

const MAGIC: [u8; 8] = *b"STRMSEAL";
// What a container of version 2 begins with.
const MAGIC_TWO: [u8; 9] = *b"STRMSEAL\x02";

/// A header. Contracts see its bytes.
#[derive(Drop)]
pub struct Header {
    image: Image,
}

impl Model for Header {
    ghost use Rattle.std.specs.Prelude.{ℕ, List};
    ghost use Rattle.container_core.specs.Views.{IsHeader};

    ghost Value = { List ℕ };

    ghost view = { λ h. h.image };

    ghost invariant = { λ h. IsHeader h.image };
}

// The first 24 bytes of a header.
#[tactic(auto)]
fn front(key: &Key, version: u8, exponent: u8, prefix: [u8; 7]) -> [u8; 24]
    ensures { result ≡ front_of key.now version exponent prefix }
{
    let [o, p, q, r, s, t, u, v] = MAGIC;
    let [a, b, c, d, e, f, g] = prefix;
    let [h, i, j, k, l, m, n] = key.hint();
    [
        o, p, q, r, s, t, u, v, version, exponent, a, b, c, d, e, f, g, h, i, j, k, l, m, n,
    ]
}

impl Header {
    /// Returns the header of a container under this key, in a shape, whose nonces begin with this prefix.
    pub fn of(key: &Key, shape: &Shape, prefix: [u8; 7]) -> Header
        ensures header { result ≡ header_of key.now shape.now prefix }
    {
        match shape.label() {
            None => {
                let mut image = Image::new();
                image.append(&front(key, 1, shape.exponent(), prefix));
                Header { image }
            }
            Some(label) => {
                let mut image = Image::new();
                image.append(&front(key, 2, shape.exponent(), prefix));
                image.append(&[label.len() as u8]);
                image.append(label);
                Header { image }
            }
        }
    }

    /// Returns a copy of the header. Allocates nothing.
    pub fn copy(&self) -> Header
        ensures { result ≡ self.now }
    {
        let mut image = Image::new();
        image.append(self.bytes());
        Header { image }
    }

    /// Returns the prefix of all nonces.
    #[tactic(auto, unfolding(crate::specs::Stream::prefix_in))]
    pub fn prefix(&self) -> [u8; 7]
        ensures { result ≡ prefix_in self.now }
    {
        let mut prefix = [0; 7];
        prefix.copy_from_slice(&self.bytes()[10..17]);
        prefix
    }

    /// Returns the header's bytes: 24 in version 1, 25 to 280 in version 2.
    pub fn bytes(&self) -> &[u8]
        ensures bytes { result.now ≡ self.now }
        ensures most { length result.now ≤ 280 }
        ensures least { 24 ≤ length result.now }
        ensures exponent { (12 ≤ slice_index self.now 9) × (slice_index self.now 9 ≤ 20) }
        ensures size { (4096 ≤ size_in self.now) × (size_in self.now ≤ most_chunk) }
    {
        self.image.as_slice()
    }

    /// Returns the exponent of the chunks' size: 16 in version 1, 12 to 20 in version 2.
    pub fn exponent(&self) -> u32
        ensures value { result ≡ slice_index self.now 9 }
        ensures least { 12 ≤ result }
        ensures most { result ≤ 20 }
    {
        u32::from(self.bytes()[9])
    }

    /// Returns the plaintext bytes of every chunk but the last: 2 to the exponent.
    pub fn chunk(&self) -> usize
        ensures value { result ≡ size_in self.now }
        ensures least { 4096 ≤ result }
        ensures most { result ≤ most_chunk }
    {
        power(self.bytes()[9])
    }

    /// Returns the label: no bytes in version 1.
    pub fn label(&self) -> &[u8]
        ensures { result.now ≡ drop 25 self.now }
    {
        let bytes = self.bytes();
        if bytes.len() > 25 { &bytes[25..] } else { &[] }
    }

    /// Returns how many bytes the container of `plain` plaintext bytes has under this header: the header's, the
    /// plaintext's, and 16 for each chunk.
    pub fn container_bytes(&self, plain: u64) -> u64
        requires { plain ≤ MAX_OPENED }
        ensures { result ≡ container_length (length self.now) (size_in self.now) plain }
    {
        container_of(self.bytes().len() as u64, self.chunk() as u64, plain)
    }

    /// Returns how many bytes the longest container under this header has, of a plaintext of up to `most` bytes. That
    /// plaintext has `most` bytes, or 2^32 - 1 chunks if they hold fewer.
    pub fn longest_bytes(&self, most: u64) -> u64
        requires { most ≤ MAX_OPENED }
        ensures { result ≡ container_limit (length self.now) (size_in self.now) most }
    {
        longest_of(self.bytes().len() as u64, self.chunk() as u64, most)
    }
}

/// Returns whether bytes begin as a container of version 2 does.
#[tactic(auto, unfolding(crate::specs::Container::is_two))]
pub fn begins_as_two(bytes: &[u8]) -> bool
    ensures { result ≡ is_two bytes.now }
{
    let (begin, _) = bytes.split_at(bytes.len().min(9));
    begin == MAGIC_TWO.as_slice()
}

/// Returns how many bytes the header at the start of these bytes has: 24, in version 2 25 and the label's, which byte
/// 24 counts. For fewer than 25 bytes of version 2 it is 25.
#[tactic(auto, unfolding(crate::specs::Container::header_length))]
pub fn header_bytes(bytes: &[u8]) -> usize
    ensures value { result ≡ header_length bytes.now }
    ensures most { result ≤ 280 }
    ensures least { 24 ≤ result }
{
    if !begins_as_two(bytes) {
        HEADER
    } else if bytes.len() > HEADER {
        HEADER + 1 + bytes[HEADER] as usize
    } else {
        HEADER + 1
    }
}

// The first fault of a header that isn't of version 2.
#[tactic(auto, unfolding(crate::specs::Opening::header_fault_one))]
fn fault_one(key: &Key, bytes: &[u8]) -> Option<OpenFault>
    ensures { result ≡ header_fault_one key.now bytes.now }
{
    if bytes.len() < HEADER {
        return Some(OpenFault::ShortHeader);
    }
    if &bytes[..8] != MAGIC.as_slice() {
        return Some(OpenFault::BadMagic);
    }
    if bytes[8] != 1 {
        return Some(OpenFault::BadVersion);
    }
    if bytes[9] != EXPONENT {
        return Some(OpenFault::BadExponent);
    }
    if &bytes[17..24] != key.hint().as_slice() {
        return Some(OpenFault::KeyMismatch);
    }
    None
}

// The first fault of a header of version 2.
#[tactic(auto, unfolding(crate::specs::Opening::header_fault_two))]
fn fault_two(key: &Key, bytes: &[u8]) -> Option<OpenFault>
    ensures { result ≡ header_fault_two key.now bytes.now }
{
    if bytes.len() < HEADER {
        return Some(OpenFault::ShortHeader);
    }
    if bytes[9] < MIN_EXPONENT as u8 {
        return Some(OpenFault::BadExponent);
    }
    if bytes[9] > MAX_EXPONENT as u8 {
        return Some(OpenFault::BadExponent);
    }
    if &bytes[17..24] != key.hint().as_slice() {
        return Some(OpenFault::KeyMismatch);
    }
    if bytes.len() < header_bytes(bytes) {
        return Some(OpenFault::ShortHeader);
    }
    None
}

// The first fault of a header.
#[tactic(auto, unfolding(crate::specs::Opening::header_fault))]
fn fault_of(key: &Key, bytes: &[u8]) -> Option<OpenFault>
    ensures { result ≡ header_fault key.now bytes.now }
{
    if begins_as_two(bytes) {
        fault_two(key, bytes)
    } else {
        fault_one(key, bytes)
    }
}

/// Returns the header at the start of these bytes, if it is one of this key; else its first fault. In version 2 the
/// order is `ShortHeader` (fewer than 24 bytes), `BadExponent`, `KeyMismatch`, `ShortHeader` (an incomplete label).
/// Otherwise it is `ShortHeader`, `BadMagic`, `BadVersion`, `BadExponent`, `KeyMismatch`.
pub fn read_header(key: &Key, bytes: &[u8]) -> Result<Header, OpenFault>
    ensures fault { IfErr result (λ fault. header_fault key.now bytes.now ≡ Some fault) }
    ensures faultless { OnOk result (header_fault key.now bytes.now ≡ None) }
    ensures header { IfOk result (λ header. header ≡ take (header_length bytes.now) bytes.now) }
    ensures enough { OnOk result (header_length bytes.now ≤ length bytes.now) }
{
    match fault_of(key, bytes) {
        Some(fault) => Err(fault),
        None => {
            let mut image = Image::new();
            image.append(&bytes[..header_bytes(bytes)]);
            Ok(Header { image })
        }
    }
}
