//! AEAD_CHACHA20_POLY1305 (RFC 8439, 2.6 and 2.8): seals and opens in place. Nothing here allocates or
//! waits.
//!
//! `specs/Aead.antt` has the definitions, in the RFC's terms. `aead` is a plaintext's pair of ciphertext
//! and tag, `opened` the plaintext of such a pair.
#![tactic(auto)]

ghost use Rattle.std.specs.Prelude.{◌≡◌, ℕ, ◌+◌, ◌-◌, ◌*◌, ◌/◌, ◌^◌, ◌<◌, ◌≤◌, ◌↔◌, List, ◌++◌, length, take, drop};
ghost use Rattle.std.specs.Prelude.{IsTrue, Some, None, false, if◌then◌else◌};
ghost use Rattle.chacha_core.specs.ChaCha20.{chacha20};
ghost use Rattle.poly_core.specs.Absorbed.{Absorbed};
ghost use Rattle.poly_core.specs.Poly1305.{poly1305, pad16};
ghost use Rattle.aead_core.specs.Aead.{one_time_key, mac_data, enciphered, tag_of, aead, opened};

use chacha_core::{apply, block};
use poly_core::{Mac, same};

pub mod laws;

// The counter of the text's first block; block 0 gives the one-time key.
const FIRST: u32 = 1;

// The bytes of a block.
const BLOCK: usize = 64;

// How many bytes are encrypted before they are absorbed: whole blocks that fit in a second-level cache.
const STRIP: usize = 65536;

// The first 32 bytes of a block of 64.
fn first_half(block: &[u8; 64]) -> [u8; 32]
    ensures { result ≡ take 32 block.now }
{
    let mut bytes = [0; 32];
    bytes.copy_from_slice(&block[..32]);
    bytes
}

// The one-time key of Poly1305 (2.6).
fn one_time_key(key: &[u8; 32], nonce: &[u8; 12]) -> [u8; 32]
    ensures { result ≡ one_time_key key.now nonce.now }
{
    first_half(&block(key, 0, nonce))
}

// The mac of a message, with the associated data and the zeros after it absorbed (2.8).
fn begin(key: &[u8; 32], nonce: &[u8; 12], aad: &[u8]) -> Mac
    ensures { Absorbed result (one_time_key key.now nonce.now) (aad.now ++ pad16 aad.now) }
{
    let mut front = Mac::new(&one_time_key(key, nonce));
    front.absorb(aad);
    front.pad();
    front
}

// The tag, given the mac after the padded associated data and the ciphertext. Absorbs zeros and the two
// lengths (2.8).
fn finish(mac: Mac, aad: &[u8], ciphertext: &[u8]) -> [u8; 16]
    ensures { (key : List ℕ) → Absorbed mac key ((aad.now ++ pad16 aad.now) ++ ciphertext.now)
        → result ≡ poly1305 key (mac_data aad.now ciphertext.now) }
{
    let mut mac = mac;
    mac.pad();
    mac.absorb(&(aad.len() as u64).to_le_bytes());
    mac.absorb(&(ciphertext.len() as u64).to_le_bytes());
    mac.finish()
}

// The tag of associated data and a ciphertext (2.8).
fn tag_of(key: &[u8; 32], nonce: &[u8; 12], aad: &[u8], ciphertext: &[u8]) -> [u8; 16]
    ensures { result ≡ tag_of key.now nonce.now aad.now ciphertext.now }
{
    let mut mac = begin(key, nonce, aad);
    mac.absorb(ciphertext);
    finish(mac, aad, ciphertext)
}

// Encrypts or decrypts a text, from counter 1 on (2.8).
fn encipher(key: &[u8; 32], nonce: &[u8; 12], text: &mut [u8])
    requires { length text.old ≤ (2 ^ 32 - 1) * 64 }
    ensures { text.new ≡ enciphered key.now nonce.now text.old }
{
    apply(key, nonce, FIRST, text);
}

// Encrypts the strip of a text from `at` to `end`, and absorbs it. Whole blocks precede it.
fn seal_strip(
    mac: &mut Mac,
    key: &[u8; 32],
    nonce: &[u8; 12],
    text: &mut [u8],
    at: usize,
    end: usize,
)
    requires { (at / 64 < 2 ^ 32 - 1) × (at ≤ end) × (end ≤ length text.old) × (length text.old ≤ (2 ^ 32 - 1) * 64) }
    ensures text { text.new ≡ take at text.old
        ++ (chacha20 key.now nonce.now (1 + at / 64) (take (end - at) (drop at text.old)) ++ drop end text.old) }
    ensures mac { (key message : List ℕ) → Absorbed mac.old key message
        → Absorbed mac.new key (message ++ take (end - at) (drop at text.new)) }
{
    let strip = &mut text[at..end];
    apply(key, nonce, FIRST + (at / BLOCK) as u32, strip);
    mac.absorb(strip);
}

/// Seals `text` in place under a key of 32 bytes, a nonce of 12 and associated data (RFC 8439, 2.8).
/// The text becomes its ciphertext; returns the tag of 16 bytes. A text has at most 2^32 - 1 blocks of
/// 64 bytes.
pub fn seal_in_place(key: &[u8; 32], nonce: &[u8; 12], aad: &[u8], text: &mut [u8]) -> [u8; 16]
    requires { length text.old ≤ (2 ^ 32 - 1) * 64 }
    ensures ciphertext { text.new ≡ (aead key.now nonce.now aad.now text.old).0 }
    ensures tag { result ≡ (aead key.now nonce.now aad.now text.old).1 }
{
    let mut mac = begin(key, nonce, aad);
    let strips = text.len() / STRIP;
    'strips: for i in 0..strips {
        seal_strip(&mut mac, key, nonce, text, STRIP * i, STRIP * i + STRIP);
    }
    let end = text.len();
    seal_strip(&mut mac, key, nonce, text, STRIP * strips, end);
    finish(mac, aad, text)
}

/// Returns whether `tag` is the tag of associated data and a ciphertext, under a key of 32 bytes and a
/// nonce of 12 (RFC 8439, 2.8). It changes nothing. Nothing is claimed about the time that the
/// comparison takes.
pub fn check(
    key: &[u8; 32],
    nonce: &[u8; 12],
    aad: &[u8],
    ciphertext: &[u8],
    tag: &[u8; 16],
) -> bool
    ensures { IsTrue result ↔ (tag.now ≡ tag_of key.now nonce.now aad.now ciphertext.now) }
{
    same(tag, &tag_of(key, nonce, aad, ciphertext))
}

/// Opens `text` in place: returns whether `tag` is the tag of the associated data and of `text` as a
/// ciphertext (RFC 8439, 2.8). If it is, the text becomes the plaintext; else it is unchanged. A text
/// has at most 2^32 - 1 blocks of 64 bytes. Nothing is claimed about the time that the comparison takes.
pub fn open_in_place(
    key: &[u8; 32],
    nonce: &[u8; 12],
    aad: &[u8],
    text: &mut [u8],
    tag: &[u8; 16],
) -> bool
    requires { length text.old ≤ (2 ^ 32 - 1) * 64 }
    ensures accepts { IsTrue result ↔ (tag.now ≡ tag_of key.now nonce.now aad.now text.old) }
    ensures plaintext { IsTrue result → aead key.now nonce.now aad.now text.new
        ≡ (text.old, tag.now) }
    ensures unchanged { result ≡ false → text.new ≡ text.old }
    ensures value { opened key.now nonce.now aad.now text.old tag.now
        ≡ (if result then Some text.new else None) }
{
    if check(key, nonce, aad, text, tag) {
        encipher(key, nonce, text);
        true
    } else {
        false
    }
}
