//! Whole containers. The expected bytes and digests are from Python's `cryptography` and `hashlib`.
ghost use Rattle.std.specs.Prelude.{◌≡◌, ◌≤◌, length};
ghost use Rattle.container_core.specs.Container.{size_in};

use crate::samples::{COUNTING, EMPTY, counting_key, prefix_of, zeros_sealed};
use aead_core::seal_in_place;
use container_core::{
    Cut, HEADER, Header, Key, OpenFault, SEALED, Shape, begin, container_bytes, nonce, open,
    open_chunk, open_into, seal, seal_chunk, seal_into,
};
use sha2::{Digest, Sha256};
use std::alloc::{AllocError, Global};
use std::test::Fail;

// The number of zero bytes, and of their container the length, the number of chunks and the SHA-256.
static CONTAINERS: [(usize, usize, u32, [u8; 32]); 3] = [
    (
        65_535,
        65_575,
        1,
        [
            0x8b, 0x4e, 0x4b, 0xee, 0xa4, 0x02, 0xa0, 0x71, 0x81, 0x80, 0x6b, 0x3d, 0x9d, 0x53,
            0x0c, 0x6b, 0x44, 0xc8, 0xd5, 0x63, 0x32, 0x40, 0x20, 0x46, 0x7c, 0xe7, 0x6a, 0xbb,
            0x50, 0x4b, 0x5e, 0xff,
        ],
    ),
    (
        65_536,
        65_576,
        1,
        [
            0x38, 0x41, 0xf5, 0x1d, 0xbf, 0x9d, 0x63, 0xd9, 0x3f, 0xd4, 0x96, 0xc0, 0x37, 0x7c,
            0x99, 0x43, 0x9b, 0x35, 0x4a, 0xbe, 0x23, 0x17, 0x3a, 0x04, 0x4a, 0xa3, 0xec, 0xac,
            0xc3, 0x5f, 0x46, 0x06,
        ],
    ),
    (
        65_537,
        65_593,
        2,
        [
            0x09, 0x45, 0xc8, 0xfb, 0xab, 0xf2, 0x3b, 0x7b, 0xdb, 0x61, 0xd4, 0x5d, 0x8e, 0x2b,
            0x69, 0x57, 0x92, 0x3e, 0x22, 0x49, 0x9b, 0xda, 0x51, 0xae, 0x09, 0xa1, 0xfa, 0x7c,
            0xb8, 0x36, 0xbf, 0x66,
        ],
    ),
];

// Whether opening fails with this fault.
pub(crate) fn has_fault(alloc: Global, key: &Key, bytes: &[u8], fault: OpenFault) -> bool {
    match open(alloc, key, bytes) {
        Ok(_plain) => false,
        Err(found) => found == fault,
    }
}

// Whether the container of `count` zero bytes opens to them.
pub(crate) fn opens_to_zeros(alloc: Global, key: &Key, bytes: &[u8], count: usize) -> bool {
    match open(alloc, key, bytes) {
        Ok(plain) => plain.len() == count && plain.iter().all(|byte| *byte == 0),
        Err(_) => false,
    }
}

// Whether these bytes have this length, this number of chunks after the header, and this digest.
pub(crate) fn is_cut_and_digested(
    key: &Key,
    bytes: &[u8],
    length: usize,
    chunks: u32,
    digest: &[u8; 32],
) -> bool {
    match begin(key, bytes) {
        Ok((_header, cut)) => {
            bytes.len() == length && cut.count() == chunks && Sha256::digest(bytes) == *digest
        }
        Err(_) => false,
    }
}

#[test]
fn empty_plaintext_is_one_chunk(rt: HostRuntime) -> Result<(), Fail> {
    let key = counting_key();
    let bytes = seal(rt.alloc(), &key, &Shape::one(), prefix_of(0), b"")?;
    assert!(rt; bytes.as_slice() == EMPTY.as_slice());
    assert!(rt; opens_to_zeros(rt.alloc(), &key, bytes.as_slice(), 0));
    Ok(())
}

#[test]
fn containers_of_zeros(rt: HostRuntime) -> Result<(), Fail> {
    let key = counting_key();
    for (count, length, chunks, digest) in &CONTAINERS {
        let bytes = zeros_sealed(rt.alloc(), &key, &Shape::one(), 0, *count)?;
        let sealed = is_cut_and_digested(&key, bytes.as_slice(), *length, *chunks, digest);
        let opened = opens_to_zeros(rt.alloc(), &key, bytes.as_slice(), *count);
        assert!(rt; sealed && opened, "{count}");
    }
    Ok(())
}

// These parts in a row.
fn joined(alloc: Global, parts: &[&[u8]]) -> Result<Vec<u8>, AllocError> {
    let mut bytes = Vec::new(alloc);
    for part in parts {
        bytes.extend_from_slice(part)?;
    }
    Ok(bytes)
}

// Whether these parts in a row are 65,592 bytes, and opening fails with `BadLength`.
fn have_a_bad_length(alloc: Global, key: &Key, parts: &[&[u8]]) -> Result<bool, AllocError> {
    let bytes = joined(alloc, parts)?;
    let bad = has_fault(alloc, key, bytes.as_slice(), OpenFault::BadLength);
    Ok(bytes.len() == 65_592 && bad)
}

// Whether the sealed chunk opens to zeros as the first chunk, and doesn't open as the last.
fn opens_as_first(key: &Key, header: &Header, chunk: &mut [u8; 65536], tag: &[u8; 16]) -> bool
    requires { 65536 ≤ size_in header.now }
{
    !open_chunk(key, header, 0, true, chunk, tag)
        && open_chunk(key, header, 0, false, chunk, tag)
        && *chunk == [0; 65536]
}

// Whether a chunk of zeros and an empty one after it open one by one, the first not as the last. Together they must be
// a bad length.
fn are_refused(
    alloc: Global,
    key: &Key,
    header: &Header,
    chunk: &mut [u8; 65536],
) -> Result<bool, AllocError>
    requires { 65536 ≤ size_in header.now }
{
    let first = seal_chunk(key, header, 0, false, chunk);
    let last = seal_chunk(key, header, 1, true, &mut []);
    let opened = open_chunk(key, header, 1, true, &mut [], &last);
    let bad = have_a_bad_length(alloc, key, &[header.bytes(), chunk, &first, &last])?;
    Ok(opened && bad && opens_as_first(key, header, chunk, &first))
}

#[test]
fn empty_chunk_behind_a_full_one_is_a_bad_length(rt: HostRuntime) -> Result<(), AllocError> {
    let key = counting_key();
    let header = Header::of(&key, &Shape::one(), prefix_of(0));
    assert!(rt; header.chunk() == 65536);
    assert!(rt; are_refused(rt.alloc(), &key, &header, &mut [0; 65536])?);
    Ok(())
}

// Whether the first chunk is forged once the first two of three whole chunks are exchanged.
fn is_forged_when_exchanged(alloc: Global, key: &Key, bytes: &[u8]) -> Result<bool, AllocError>
    requires { length bytes.now ≡ 196680 }
{
    let header = &bytes[..HEADER];
    let first = &bytes[HEADER..HEADER + SEALED];
    let second = &bytes[HEADER + SEALED..HEADER + 2 * SEALED];
    let third = &bytes[HEADER + 2 * SEALED..];
    let other = joined(alloc, &[header, second, first, third])?;
    Ok(has_fault(alloc, key, other.as_slice(), OpenFault::Forged { chunk: 0 }))
}

// Whether opening reports the wrong key, with the right key the wrong version, and before that a wrong magic.
fn names_first_fault(alloc: Global, bytes: &mut [u8]) -> bool
    requires { 9 ≤ length bytes.old }
{
    let mismatch = has_fault(alloc, &Key::new([0; 32]), bytes, OpenFault::KeyMismatch);
    let key = counting_key();
    bytes[8] = 9;
    let version = has_fault(alloc, &key, bytes, OpenFault::BadVersion);
    bytes[0] = 0x54;
    let magic = has_fault(alloc, &key, bytes, OpenFault::BadMagic);
    mismatch && version && magic
}

#[test]
fn altered_container_names_the_first_fault(rt: HostRuntime) -> Result<(), Fail> {
    let key = counting_key();
    let mut bytes = zeros_sealed(rt.alloc(), &key, &Shape::one(), 0, 196_608)?;
    assert!(rt; bytes.len() == 196_680);
    assert!(rt; is_forged_when_exchanged(rt.alloc(), &key, bytes.as_slice())?);
    assert!(rt; names_first_fault(rt.alloc(), bytes.as_mut_slice()));
    Ok(())
}

// Three chunks of zeros under a header of version 9, each with the tag for that header.
fn under_version_9(alloc: Global) -> Result<Vec<u8>, AllocError> {
    let mut header = [0; HEADER];
    header.copy_from_slice(&EMPTY[..HEADER]);
    header[8] = 9;
    let mut bytes = Vec::from_slice(alloc, &header)?;
    for number in 0..3u32 {
        let mut chunk = [0; 65536];
        let nonce = nonce(prefix_of(0), number, number == 2);
        let tag = seal_in_place(&COUNTING, &nonce, &header, &mut chunk);
        bytes.extend_from_slice(&chunk)?;
        bytes.extend_from_slice(&tag)?;
    }
    Ok(bytes)
}

// The version is tested before the tags, which are valid for this header.
#[test]
fn good_tags_under_another_version(rt: HostRuntime) -> Result<(), AllocError> {
    let bytes = under_version_9(rt.alloc())?;
    let key = counting_key();
    assert!(rt; has_fault(rt.alloc(), &key, bytes.as_slice(), OpenFault::BadVersion));
    Ok(())
}

// These bytes in a vector of capacity `room`.
fn with_room(alloc: Global, front: &[u8], room: usize) -> Result<Vec<u8>, AllocError> {
    let mut bytes = Vec::with_capacity(alloc, room)?;
    bytes.extend_from_slice(front)?;
    Ok(bytes)
}

// Whether the container of the empty plaintext is sealed after three bytes, which stay.
fn seals_behind(bytes: &mut Vec<u8>) -> bool {
    if bytes.len() != 3 || bytes.capacity() < 43 {
        return false;
    }
    let shape = Shape::one();
    // The contract of `seal_into` requires this.
    if container_bytes(&shape, 0) != 40 {
        return false;
    }
    seal_into(bytes, &counting_key(), &shape, prefix_of(0), b"");
    let (front, rest) = bytes.as_slice().split_at(3);
    front == b"abc".as_slice() && rest == EMPTY.as_slice()
}

// Whether opening this body of the empty plaintext after other bytes returns the expected result and keeps them.
fn opens_behind(
    out: &mut Vec<u8>,
    header: &Header,
    body: &[u8; 16],
    fault: Option<OpenFault>,
) -> bool {
    // The contract of `open_into` requires this.
    let body_bytes = header.container_bytes(0) - header.bytes().len() as u64;
    if out.len() > out.capacity() || body_bytes != 16 {
        return false;
    }
    let opened = open_into(out, &counting_key(), header, Cut::of(header, 0), body);
    opened.err() == fault && out.as_slice() == b"before".as_slice()
}

// Whether the body of the empty plaintext's container opens after other bytes, and fails once its last byte is changed.
fn opens_in_room(out: &mut Vec<u8>) -> bool {
    let Ok((header, cut)) = begin(&counting_key(), &EMPTY) else {
        return false;
    };
    let mut body = [0; 16];
    body.copy_from_slice(&EMPTY[24..]);
    let opens = opens_behind(out, &header, &body, None);
    body[15] ^= 1;
    let forged = Some(OpenFault::Forged { chunk: 0 });
    cut == Cut::of(&header, 0)
        && cut.plain() == 0
        && opens
        && opens_behind(out, &header, &body, forged)
}

// Seals and opens a container in existing room, after other bytes. A chunk that doesn't check leaves them unchanged.
#[test]
fn whole_in_given_room(rt: HostRuntime) -> Result<(), AllocError> {
    let mut bytes = with_room(rt.alloc(), b"abc", 43)?;
    assert!(rt; seals_behind(&mut bytes));
    let mut out = with_room(rt.alloc(), b"before", 8)?;
    assert!(rt; opens_in_room(&mut out));
    Ok(())
}
