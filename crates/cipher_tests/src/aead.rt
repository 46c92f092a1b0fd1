//! The AEAD with the vectors of RFC 8439 and of OpenSSL, sealed and opened, and altered pairs.

use crate::vectors::{LENGTHS, ONE_TIME_KEYS, PAIRS};
use aead_core::{check, open_in_place, seal_in_place};
use chacha_core::block;
use std::alloc::{AllocError, Global};
use std::test::Fail;

#[test]
fn one_time_keys_of_the_rfc(rt: HostRuntime) {
    for (place, key, nonce, want) in &ONE_TIME_KEYS {
        assert!(rt;
            block(key, 0, nonce).starts_with(want.as_slice()),
            "{place}"
        );
    }
}

// Whether a text with associated data is sealed with this tag, and its ciphertext checks and opens to it. Leaves the
// ciphertext in `text`.
fn has_tag(
    alloc: Global,
    key: &[u8; 32],
    nonce: &[u8; 12],
    aad: &[u8],
    text: &mut [u8],
    want: &[u8; 16],
) -> Result<bool, AllocError> {
    if text.len() > 10_000 {
        return Ok(false);
    }
    let plain = text.to_vec(alloc)?;
    let tag = seal_in_place(key, nonce, aad, text);
    if tag != *want || !check(key, nonce, aad, text, want) || text.len() > 10_000 {
        return Ok(false);
    }
    let mut opened = text.to_vec(alloc)?;
    if opened.len() > 10_000 {
        return Ok(false);
    }
    Ok(open_in_place(key, nonce, aad, &mut opened, want) && opened.as_slice() == plain.as_slice())
}

#[test]
fn pairs_of_the_rfc(rt: HostRuntime) -> Result<(), Fail> {
    for (place, key, nonce, aad, plain, ciphertext, want) in &PAIRS {
        let mut text = plain.to_vec(rt.alloc())?;
        let is_sealed = has_tag(rt.alloc(), key, nonce, aad, &mut text, want)?;
        assert!(rt; is_sealed && text.as_slice() == *ciphertext, "{place}");
    }
    Ok(())
}

// The first pair of the RFC: key, nonce, associated data, ciphertext and tag.
#[derive(Clone, Copy)]
struct Pair {
    key: &'static [u8; 32],
    nonce: &'static [u8; 12],
    aad: &'static [u8],
    ciphertext: &'static [u8],
    tag: &'static [u8; 16],
}

fn first_pair() -> Pair {
    let (_, key, nonce, aad, _, ciphertext, tag) = &PAIRS[0];
    Pair {
        key,
        nonce,
        aad,
        ciphertext,
        tag,
    }
}

// Whether both calls refuse a text with this tag and associated data, and leave the text unchanged.
fn stays_shut(pair: Pair, aad: &[u8], text: &mut Vec<u8>, tag: &[u8; 16]) -> bool {
    if text.len() != 114 || check(pair.key, pair.nonce, aad, text, tag) {
        return false;
    }
    !open_in_place(pair.key, pair.nonce, aad, text, tag)
        && text.len() == 114
        && text.as_slice() == pair.ciphertext
}

// Whether the pair is refused if any one byte of its tag is wrong.
fn stays_shut_by_each_tag(pair: Pair, text: &mut Vec<u8>) -> bool {
    for i in 0..16usize {
        let mut other = *pair.tag;
        other[i] ^= 1;
        if !stays_shut(pair, pair.aad, text, &other) {
            return false;
        }
    }
    true
}

// A pair is refused if one byte of its tag is wrong, or with other associated data. The text stays unchanged.
#[test]
fn altered_pairs_stay_shut(rt: HostRuntime) -> Result<(), Fail> {
    let pair = first_pair();
    let mut text = pair.ciphertext.to_vec(rt.alloc())?;
    assert!(rt; stays_shut_by_each_tag(pair, &mut text));
    assert!(rt; stays_shut(pair, b"", &mut text, pair.tag));
    assert!(rt; text.len() == 114);
    assert!(rt;
        open_in_place(pair.key, pair.nonce, pair.aad, &mut text, pair.tag),
        "the pair itself"
    );
    Ok(())
}

// Whether a ciphertext with one altered byte is refused and left unchanged.
fn is_refused_altered_at(pair: Pair, text: &mut Vec<u8>, place: usize) -> bool {
    if text.len() != 114 || place >= 114 {
        return false;
    }
    text[place] ^= 128;
    if check(pair.key, pair.nonce, pair.aad, text, pair.tag)
        || open_in_place(pair.key, pair.nonce, pair.aad, text, pair.tag)
        || text.len() != 114
    {
        return false;
    }
    text[place] ^= 128;
    text.as_slice() == pair.ciphertext
}

// Whether that holds for each byte of the text.
fn is_refused_altered_anywhere(pair: Pair, text: &mut Vec<u8>) -> bool {
    for place in 0..114usize {
        if !is_refused_altered_at(pair, text, place) {
            return false;
        }
    }
    true
}

fn is_refused_cut(pair: Pair) -> bool {
    match pair.ciphertext.split_first() {
        Some((_, rest)) => !check(pair.key, pair.nonce, pair.aad, rest, pair.tag),
        None => false,
    }
}

// Both calls refuse a ciphertext with any one byte altered. `check` also refuses one without its first byte, and
// accepts the pair itself.
#[test]
fn each_altered_byte_is_seen(rt: HostRuntime) -> Result<(), Fail> {
    let pair = first_pair();
    let mut text = pair.ciphertext.to_vec(rt.alloc())?;
    assert!(rt; is_refused_altered_anywhere(pair, &mut text));
    assert!(rt; check(pair.key, pair.nonce, pair.aad, &text, pair.tag));
    assert!(rt; is_refused_cut(pair));
    Ok(())
}

// `len` bytes: byte i is `step` times i, modulo 256.
fn multiples(alloc: Global, len: usize, step: u8) -> Result<Vec<u8>, AllocError> {
    let mut bytes = Vec::with_capacity(alloc, len)?;
    let mut byte = 0u8;
    for _i in 0..len {
        bytes.push(byte)?;
        byte = byte.wrapping_add(step);
    }
    Ok(bytes)
}

#[test]
fn tags_at_and_between_multiples_of_16(rt: HostRuntime) -> Result<(), Fail> {
    let mut key = [0; 32];
    for i in 0..32u8 {
        key[i as usize] = i;
    }
    let nonce = b"\x40\x41\x42\x43\x44\x45\x46\x47\x48\x49\x4a\x4b";
    for (aad_len, len, want) in &LENGTHS {
        let aad = multiples(rt.alloc(), *aad_len, 5)?;
        let mut text = multiples(rt.alloc(), *len, 7)?;
        assert!(rt;
            has_tag(rt.alloc(), &key, nonce, &aad, &mut text, want)?,
            "{aad_len} and {len}"
        );
    }
    Ok(())
}
