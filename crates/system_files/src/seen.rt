//! What a container's header says, without a key. It is what `container_core` reads, less the test of the hint.
ghost use Rattle.std.specs.Prelude.{◌+◌, ◌-◌, ◌<◌, ◌≡◌, ◌≤◌, ◌⊎◌, ◌^◌, ℕ, IfErr, IfNone, IfOk, IfSome, List, None};
ghost use Rattle.std.specs.Prelude.{OnOk, Some, drop, false, length, slice_index, take};
ghost use Rattle.command_core.specs.Facts.{IsOfHeader};
ghost use Rattle.container_core.specs.Chunks.{body_length, container_length};
ghost use Rattle.container_core.specs.Container.{header_length, hint_of, is_two, size_in};
ghost use Rattle.container_core.specs.Cutting.{RefusesCut};
ghost use Rattle.container_core.specs.declared.fault.OpenFault.{OpenFault};
ghost use Rattle.container_core.specs.Opening.{header_fault};
ghost use Rattle.container_core.specs.Stream.{prefix_in};
ghost use Rattle.system_files.specs.Seen.{fault_one, fault_seen, fault_two};

use command_core::Facts;
use container_core::{
    Cut, HEADER, Header, Key, MAX_EXPONENT, MAX_LABEL, MIN_EXPONENT, OpenFault, Shape,
    begins_as_two, header_bytes,
};

const MAGIC: [u8; 8] = *b"STRMSEAL";

// The exponent of version 1.
const EXPONENT: u8 = 16;

/// What a header says. Nothing of it was authenticated.
#[derive(Clone, Copy)]
pub struct SeenHeader {
    /// The version, the size of chunks, the device, the number and the label.
    pub facts: Facts,
    /// The key's hint.
    pub hint: [u8; 7],
}

// The first fault of a header that isn't of version 2.
#[tactic(auto, unfolding(crate::specs::Seen::fault_one, container_core::specs::Container::header_length))]
fn fault_of_one(bytes: &[u8]) -> Option<OpenFault>
    requires { is_two bytes.now ≡ false }
    ensures value { result ≡ fault_one bytes.now }
    ensures long { IfNone result (24 ≤ length bytes.now) }
    ensures exponent { IfNone result (slice_index bytes.now 9 ≡ 16) }
    ensures enough { IfNone result (header_length bytes.now ≤ length bytes.now) }
{
    if bytes.len() < HEADER {
        return Some(OpenFault::ShortHeader);
    }
    if &bytes[..8] != MAGIC.as_slice() {
        return Some(OpenFault::BadMagic);
    }
    if bytes[8] != 1 {
        return Some(OpenFault::BadVersion);
    }
    if bytes[9] != EXPONENT {
        return Some(OpenFault::BadExponent);
    }
    None
}

// The first fault of a header of version 2.
#[tactic(auto, unfolding(crate::specs::Seen::fault_two))]
fn fault_of_two(bytes: &[u8]) -> Option<OpenFault>
    ensures value { result ≡ fault_two bytes.now }
    ensures long { IfNone result (24 ≤ length bytes.now) }
    ensures exponent { IfNone result ((12 ≤ slice_index bytes.now 9) × (slice_index bytes.now 9 ≤ 20)) }
    ensures enough { IfNone result (header_length bytes.now ≤ length bytes.now) }
{
    if bytes.len() < HEADER {
        return Some(OpenFault::ShortHeader);
    }
    if bytes[9] < MIN_EXPONENT as u8 {
        return Some(OpenFault::BadExponent);
    }
    if bytes[9] > MAX_EXPONENT as u8 {
        return Some(OpenFault::BadExponent);
    }
    if bytes.len() < header_bytes(bytes) {
        return Some(OpenFault::ShortHeader);
    }
    None
}

// The first fault of a header.
#[tactic(auto, unfolding(crate::specs::Seen::fault_seen))]
fn fault_of(bytes: &[u8]) -> Option<OpenFault>
    ensures value { result ≡ fault_seen bytes.now }
    ensures long { IfNone result (24 ≤ length bytes.now) }
    ensures exponent { IfNone result ((12 ≤ slice_index bytes.now 9) × (slice_index bytes.now 9 ≤ 20)) }
    ensures enough { IfNone result (header_length bytes.now ≤ length bytes.now) }
{
    if begins_as_two(bytes) {
        fault_of_two(bytes)
    } else {
        fault_of_one(bytes)
    }
}

// What a header says, but for the key's hint.
fn facts_of(header: &[u8]) -> Facts
    requires least { 24 ≤ length header.now }
    requires most { length header.now ≤ 280 }
    requires exponent { (12 ≤ slice_index header.now 9) × (slice_index header.now 9 ≤ 20) }
    ensures { IsOfHeader result header.now }
{
    let [a, b, c, d, e, f, g] = prefix_of(header);
    let label = label_of(header);
    let length = label.len();
    let mut image = [0; MAX_LABEL];
    image[..length].copy_from_slice(label);
    Facts {
        version: header[8],
        chunk: chunk_of(header),
        device: u32::from_be_bytes([0, a, b, c]),
        number: u32::from_be_bytes([d, e, f, g]),
        label: image,
        length: length as u8,
    }
}

// The prefix of all nonces.
#[tactic(auto, unfolding(container_core::specs::Stream::prefix_in))]
fn prefix_of(header: &[u8]) -> [u8; 7]
    requires { 24 ≤ length header.now }
    ensures { result ≡ prefix_in header.now }
{
    let mut prefix = [0; 7];
    prefix.copy_from_slice(&header[10..17]);
    prefix
}

// The label: no bytes in version 1.
fn label_of(header: &[u8]) -> &[u8]
    requires { length header.now ≤ 280 }
    ensures value { result.now ≡ drop 25 header.now }
    ensures short { length result.now ≤ 255 }
{
    if header.len() > 25 {
        &header[25..]
    } else {
        &[]
    }
}

// The plaintext bytes of every chunk but the last.
#[tactic(auto, unfolding(container_core::specs::Container::size_in))]
fn chunk_of(header: &[u8]) -> u32
    requires least { 24 ≤ length header.now }
    requires exponent { (12 ≤ slice_index header.now 9) × (slice_index header.now 9 ≤ 20) }
    ensures { result ≡ size_in header.now }
{
    1 << header[9]
}

/// Returns what the header at the start of these bytes says; else its first fault. That is the fault of `read_header`
/// under each key that the header names by its hint. So it is never `KeyMismatch`.
pub fn read_seen(bytes: &[u8]) -> Result<SeenHeader, OpenFault>
    ensures fault { IfErr result (λ fault. fault_seen bytes.now ≡ Some fault) }
    ensures faultless { OnOk result (fault_seen bytes.now ≡ None) }
    ensures facts { IfOk result (λ seen. IsOfHeader seen.facts (take (header_length bytes.now) bytes.now)) }
    ensures hint { IfOk result (λ seen. seen.hint ≡ take 7 (drop 17 bytes.now)) }
    ensures exponent { OnOk result ((12 ≤ slice_index bytes.now 9) × (slice_index bytes.now 9 ≤ 20)) }
    ensures long { OnOk result (24 ≤ length bytes.now) }
    ensures same { (key : List ℕ) → hint_of key ≡ take 7 (drop 17 bytes.now)
        → header_fault key bytes.now ≡ fault_seen bytes.now }
{
    match fault_of(bytes) {
        Some(fault) => Err(fault),
        None => {
            let mut hint = [0; 7];
            hint.copy_from_slice(&bytes[17..24]);
            let facts = facts_of(&bytes[..header_bytes(bytes)]);
            Ok(SeenHeader { facts, hint })
        }
    }
}

/// Returns how many plaintext bytes a container of `total` bytes has that begins with these, which are a header or
/// more; `None` if no container has that length.
pub fn plain_in(bytes: &[u8], total: u64) -> Option<u64>
    requires long { 24 ≤ length bytes.now }
    requires exponent { (12 ≤ slice_index bytes.now 9) × (slice_index bytes.now 9 ≤ 20) }
    ensures some { IfSome result (λ plain. total ≡ container_length (header_length bytes.now) (size_in bytes.now) plain) }
    ensures none { IfNone result ((total < header_length bytes.now) ⊎ ((fault : OpenFault)
        × RefusesCut (size_in bytes.now) (total - header_length bytes.now) fault)) }
{
    let header = header_bytes(bytes) as u64;
    if total < header {
        return None;
    }
    match Cut::of_body(&header_like(bytes), total - header) {
        Ok(cut) => Some(cut.plain()),
        Err(_) => None,
    }
}

// A header of the same chunk size. Its key, its numbers and its label say nothing.
#[tactic(auto, unfolding(container_core::specs::Container::header_of, container_core::specs::Container::size_in))]
fn header_like(bytes: &[u8]) -> Header
    requires long { 24 ≤ length bytes.now }
    requires exponent { (12 ≤ slice_index bytes.now 9) × (slice_index bytes.now 9 ≤ 20) }
    ensures { size_in result ≡ size_in bytes.now }
{
    let shape = match Shape::two(u32::from(bytes[9]), &[]) {
        Ok(shape) => shape,
        Err(_) => Shape::one(),
    };
    Header::of(&Key::new([0; 32]), &shape, [0; 7])
}
