//! The words of a block as bytes, and a text XORed with them (RFC 8439, 2.3 and 2.4), a row of four
//! words at a time.

ghost use Rattle.std.specs.Prelude.{◌≡◌, ◌+◌, ◌*◌, ◌<◌, ◌≤◌, length, take, drop, slice_index};
ghost use Rattle.chacha_core.specs.ChaCha20.{word_bytes, xor_from};

use std::simd::{u8x16, u32x4};

// The bytes of a row of words: a row is 4 words, 16 bytes.
#[inline(always)]
fn row_bytes(words: &[u32], row: usize) -> u8x16
    requires { 4 * row + 4 ≤ length words.now }
    ensures { result ≡ take 16 (drop (16 * row) (word_bytes words.now)) }
{
    u32x4::from_slice(&words[4 * row..]).to_le_bytes()
}

/// The bytes of a block's words, each word little-endian.
#[inline(always)]
pub(crate) fn block_bytes(words: &[u32; 16]) -> [u8; 64]
    ensures { result ≡ word_bytes words.now }
{
    let mut bytes = [0; 64];
    'rows: for row in 0..4 {
        row_bytes(words, row).copy_to_slice(&mut bytes[16 * row..]);
    }
    bytes
}

/// XORs a whole block of a text with the bytes of a block's words.
#[inline(always)]
pub(crate) fn xor_block(text: &mut [u8], words: &[u32; 16])
    requires { length text.old ≡ 64 }
    ensures { text.new ≡ xor_from (λ j. slice_index (word_bytes words.now) j) 0 text.old }
{
    'rows: for row in 0..4 {
        let bytes = u8x16::from_slice(&text[16 * row..]);
        (bytes ^ row_bytes(words, row)).copy_to_slice(&mut text[16 * row..]);
    }
}

/// XORs the rest of a text, shorter than a block, with the first bytes of a block's words.
pub(crate) fn xor_rest(text: &mut [u8], words: &[u32; 16])
    requires { length text.old < 64 }
    ensures { text.new ≡ xor_from (λ j. slice_index (word_bytes words.now) j) 0 text.old }
{
    let mut block = [0; 64];
    let len = text.len();
    block[..len].copy_from_slice(text);
    xor_block(&mut block, words);
    text.copy_from_slice(&block[..len]);
}
