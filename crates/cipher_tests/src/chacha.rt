//! ChaCha20 with the vectors of RFC 8439, and a text compared with its joined blocks.

ghost use Rattle.std.specs.Prelude.{◌+◌, ◌/◌, ◌^◌, ◌≤◌, length};

use crate::vectors::{BLOCK_KEY, BLOCK_NONCE, BLOCKS, QUARTERS, TEXTS};
use chacha_core::{apply, apply_by_eight, apply_by_four, block, quarter};
use std::alloc::{AllocError, Global};
use std::test::Fail;

#[test]
fn quarter_rounds_of_the_rfc(rt: HostRuntime) {
    for (place, words, want) in &QUARTERS {
        let [a, b, c, d] = *words;
        let [e, f, g, h] = *want;
        assert!(rt; quarter(a, b, c, d) == (e, f, g, h), "{place}");
    }
}

#[test]
fn blocks_of_the_rfc(rt: HostRuntime) {
    for (place, key, counter, nonce, want) in &BLOCKS {
        assert!(rt; block(key, *counter, nonce) == **want, "{place}");
    }
}

// Which code encrypts: what this build has, or one of the two.
#[derive(Clone, Copy)]
enum Body {
    Built,
    Four,
    Eight,
}

static BODIES: [Body; 3] = [Body::Built, Body::Four, Body::Eight];

fn encipher(body: Body, key: &[u8; 32], nonce: &[u8; 12], first: u32, text: &mut [u8])
    requires { first + (length text.old + 63) / 64 ≤ 2 ^ 32 }
{
    match body {
        Body::Built => apply(key, nonce, first, text),
        Body::Four => apply_by_four(key, nonce, first, text),
        Body::Eight => apply_by_eight(key, nonce, first, text),
    }
}

// Whether encryption turns a text into `want`, and `want` back into the text.
fn gives(
    alloc: Global,
    body: Body,
    key: &[u8; 32],
    nonce: &[u8; 12],
    first: u32,
    plain: &[u8],
    want: &[u8],
) -> Result<bool, AllocError> {
    if plain.len() > 10_000 || first > u32::MAX - 10_000 {
        return Ok(false);
    }
    let mut text = plain.to_vec(alloc)?;
    encipher(body, key, nonce, first, &mut text);
    let is_sealed = text.as_slice() == want;
    if text.len() != plain.len() {
        return Ok(false);
    }
    encipher(body, key, nonce, first, &mut text);
    Ok(is_sealed && text.as_slice() == plain)
}

#[test]
fn texts_of_the_rfc(rt: HostRuntime) -> Result<(), Fail> {
    for (place, key, nonce, first, plain, want) in &TEXTS {
        for body in &BODIES {
            assert!(rt;
                gives(rt.alloc(), *body, key, nonce, *first, plain, want)?,
                "{place}"
            );
        }
    }
    Ok(())
}

// `count` blocks of `BLOCK_KEY` and `BLOCK_NONCE` in a row, from counter `first` on.
fn joined(alloc: Global, first: u32, count: u32) -> Result<Vec<u8>, AllocError> {
    let mut stream = Vec::new(alloc);
    for i in 0..count {
        stream.extend_from_slice(&block(BLOCK_KEY, first.wrapping_add(i), BLOCK_NONCE))?;
    }
    Ok(stream)
}

// The XOR of a text with the first bytes of a stream.
fn xored(alloc: Global, text: &[u8], stream: &[u8]) -> Result<Vec<u8>, AllocError> {
    let mut bytes = Vec::with_capacity(alloc, text.len())?;
    for (byte, key) in text.iter().zip(stream.iter()) {
        bytes.push(*byte ^ *key)?;
    }
    Ok(bytes)
}

// Whether each prefix of a text is encrypted to its XOR with the stream from block 1 on, and decrypted back.
fn is_xored_at_each_length(
    alloc: Global,
    body: Body,
    plain: &[u8],
    stream: &[u8],
) -> Result<bool, AllocError> {
    for len in 0..plain.len() + 1 {
        let (text, _) = plain.split_at(len);
        let want = xored(alloc, text, stream)?;
        if !gives(alloc, body, BLOCK_KEY, BLOCK_NONCE, 1, text, &want)? {
            return Ok(false);
        }
    }
    Ok(true)
}

// For each length up to 1,025 (two groups of eight blocks and a byte), each body computes the XOR with the joined
// blocks. Applied twice it restores the text.
#[test]
fn apply_is_the_xor_with_joined_blocks(rt: HostRuntime) -> Result<(), Fail> {
    let mut plain = Vec::new(rt.alloc());
    for i in 0..1025u32 {
        plain.push((i % 205) as u8)?;
    }
    let stream = joined(rt.alloc(), 1, 17)?;
    for body in &BODIES {
        assert!(rt; is_xored_at_each_length(rt.alloc(), *body, &plain, &stream)?);
    }
    Ok(())
}

// Whether each body encrypts zeros from this counter on to a prefix of the joined blocks.
fn is_front_of_blocks(
    alloc: Global,
    zeros: &[u8],
    first: u32,
    count: u32,
) -> Result<bool, AllocError> {
    let stream = joined(alloc, first, count)?;
    if u64::from(first) + zeros.len().div_ceil(64) as u64 > 1 << 32 {
        return Ok(false);
    }
    for body in &BODIES {
        let mut text = zeros.to_vec(alloc)?;
        if text.len() != zeros.len() {
            return Ok(false);
        }
        encipher(*body, BLOCK_KEY, BLOCK_NONCE, first, &mut text);
        if !stream.as_slice().starts_with(&text) {
            return Ok(false);
        }
    }
    Ok(true)
}

// From counter 0: two groups of eight blocks, and then a partial block.
#[test]
fn apply_begins_at_counter_zero(rt: HostRuntime) -> Result<(), Fail> {
    assert!(rt; is_front_of_blocks(rt.alloc(), &[0; 1030], 0, 17)?);
    Ok(())
}

// The last eight blocks that the counter allows, whole and cut. They are encrypted in groups.
#[test]
fn apply_reaches_the_last_counter_in_lanes(rt: HostRuntime) -> Result<(), Fail> {
    assert!(rt; is_front_of_blocks(rt.alloc(), &[0; 512], 4_294_967_288, 8)?);
    assert!(rt; is_front_of_blocks(rt.alloc(), &[0; 500], 4_294_967_288, 8)?);
    Ok(())
}

// Whole groups and then three blocks that reach the last counter. The counters of another group would exceed 32 bits.
#[test]
fn apply_reaches_the_last_counter_after_a_group(rt: HostRuntime) -> Result<(), Fail> {
    assert!(rt; is_front_of_blocks(rt.alloc(), &[0; 704], 4_294_967_285, 11)?);
    Ok(())
}

// The last three blocks, and the last four. They are encrypted one by one, since a group's counters would exceed 32
// bits.
#[test]
fn apply_reaches_the_last_counter_block_by_block(rt: HostRuntime) -> Result<(), Fail> {
    assert!(rt; is_front_of_blocks(rt.alloc(), &[0; 192], 4_294_967_293, 3)?);
    assert!(rt; is_front_of_blocks(rt.alloc(), &[0; 256], 4_294_967_292, 4)?);
    Ok(())
}

// The last block that the counter allows, whole and cut.
#[test]
fn apply_reaches_the_last_counter(rt: HostRuntime) -> Result<(), Fail> {
    assert!(rt; is_front_of_blocks(rt.alloc(), &[0; 64], u32::MAX, 1)?);
    assert!(rt; is_front_of_blocks(rt.alloc(), &[0; 5], u32::MAX, 1)?);
    Ok(())
}
