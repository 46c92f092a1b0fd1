//! Poly1305 with the vectors of RFC 8439, and messages in pieces.

use crate::vectors::{LONG_TAG, POLY_KEY, POLY_MESSAGE, POLY_TAG, TAGS};
use poly_core::{Mac, same};
use std::alloc::{AllocError, Global};
use std::test::Fail;

// The tag of a message absorbed in these two pieces.
fn tag_of(key: &[u8; 32], front: &[u8], rest: &[u8]) -> [u8; 16] {
    let mut mac = Mac::new(key);
    mac.absorb(front);
    mac.absorb(rest);
    mac.finish()
}

// Whether a message in two pieces has this tag at every cut.
fn has_tag_at_each_cut(key: &[u8; 32], message: &[u8], want: &[u8; 16]) -> bool {
    for cut in 0..message.len() + 1 {
        let (front, rest) = message.split_at(cut);
        if tag_of(key, front, rest) != *want {
            return false;
        }
    }
    true
}

// The bytes i % 251 for i below 1,100.
fn long_message(alloc: Global) -> Result<Vec<u8>, AllocError> {
    let mut message = Vec::with_capacity(alloc, 1100)?;
    for i in 0..1100u32 {
        message.push((i % 251) as u8)?;
    }
    Ok(message)
}

#[test]
fn tags_of_the_rfc(rt: HostRuntime) {
    for (place, key, message, want) in &TAGS {
        let mut mac = Mac::new(key);
        mac.absorb(message);
        assert!(rt; mac.finish() == **want, "{place}");
    }
}

// The RFC's message of 34 bytes in two pieces, at each cut. The tag of the empty message is the s of its key.
#[test]
fn cuts_make_no_difference(rt: HostRuntime) {
    assert!(rt; has_tag_at_each_cut(POLY_KEY, POLY_MESSAGE, POLY_TAG));
    let empty = *b"\x01\x03\x80\x8a\xfb\x0d\xb2\xfd\x4a\xbf\xf6\xaf\x41\x49\xf5\x1b";
    let mut mac = Mac::new(POLY_KEY);
    mac.absorb(b"");
    assert!(rt; mac.finish() == empty);
}

// A message of 1,100 bytes in two pieces, at each cut.
#[test]
fn cuts_of_a_long_message_make_no_difference(rt: HostRuntime) -> Result<(), Fail> {
    let message = long_message(rt.alloc())?;
    assert!(rt; has_tag_at_each_cut(POLY_KEY, &message, LONG_TAG));
    Ok(())
}

// The same message in pieces of 64 bytes. Their blocks are absorbed one by one.
#[test]
fn short_pieces_give_the_same_tag(rt: HostRuntime) -> Result<(), Fail> {
    let message = long_message(rt.alloc())?;
    let mut mac = Mac::new(POLY_KEY);
    for piece in message.chunks(64) {
        mac.absorb(piece);
    }
    assert!(rt; mac.finish() == *LONG_TAG);
    Ok(())
}

// Whether a padded message has the tag of the message with these zeros after it.
fn pads_by(message: &[u8], zeros: &[u8]) -> bool {
    let mut padded = Mac::new(POLY_KEY);
    padded.absorb(message);
    padded.pad();
    padded.finish() == tag_of(POLY_KEY, message, zeros)
}

// Padding adds zeros up to a multiple of 16 bytes, and none at a multiple.
#[test]
fn pad_adds_zeros(rt: HostRuntime) {
    assert!(rt; pads_by(b"", b""));
    assert!(rt; pads_by(b"C", &[0; 15]));
    assert!(rt; pads_by(b"Cryptographic F", &[0; 1]));
    assert!(rt; pads_by(b"Cryptographic Fo", b""));
    assert!(rt; pads_by(b"Cryptographic For", &[0; 15]));
    assert!(rt; pads_by(b"Cryptographic Forum Research Gro", b""));
    assert!(rt; pads_by(b"Cryptographic Forum Research Group", &[0; 14]));
}

// Whether `same` detects a change of any one byte, on either side.
fn sees_each_byte(tag: &[u8; 16]) -> bool {
    for i in 0..16usize {
        let mut other = *tag;
        other[i] ^= 1;
        if same(tag, &other) || same(&other, tag) {
            return false;
        }
    }
    same(tag, tag)
}

#[test]
fn same_sees_each_byte(rt: HostRuntime) {
    assert!(rt; sees_each_byte(POLY_TAG));
}
