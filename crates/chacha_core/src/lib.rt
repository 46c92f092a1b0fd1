//! ChaCha20 (RFC 8439, 2.1 to 2.4): the quarter round, the block, and the XOR of a text with the
//! keystream. Nothing here allocates or waits.
//!
//! `specs/ChaCha20.antt` has the definitions, in the RFC's terms. `quarter`, `block` and `apply` return
//! their definitions' values on every input.
#![tactic(auto)]

ghost use Rattle.std.specs.Prelude.{◌≡◌, ◌+◌, ◌/◌, ◌^◌, ◌<◌, ◌≤◌, length};
ghost use Rattle.chacha_core.specs.ChaCha20.{quarter_round, block, chacha20};

pub use eight::apply_by_eight;
pub use four::apply_by_four;
use state::{block_words, quarter_round, start_state};
use stream::{block_bytes, xor_block, xor_rest};

mod eight;
mod four;
pub mod laws;
mod state;
mod stream;

// The bytes of a block.
const BLOCK: usize = 64;

// Up to this many bytes, single blocks are no slower than a group: measured (docs/PERFORMANCE.md).
const FEW: usize = 128;

// The counter's place among the words of a state.
const COUNTER: usize = 12;

/// The quarter round on four words (RFC 8439, 2.1).
pub fn quarter(a: u32, b: u32, c: u32, d: u32) -> (u32, u32, u32, u32)
    ensures { result ≡ quarter_round a b c d }
{
    quarter_round(a, b, c, d)
}

/// The 64 bytes of the block with this counter (RFC 8439, 2.3), from a key of 32 bytes and a nonce
/// of 12.
pub fn block(key: &[u8; 32], counter: u32, nonce: &[u8; 12]) -> [u8; 64]
    ensures { result ≡ block key.now counter nonce.now }
{
    block_bytes(&block_words(&start_state(key, counter, nonce)))
}

// Whether eight blocks go side by side, for vectors of 256 bits, or four, for vectors of 128. No clause
// fixes the result, so `apply` is proved for both. A build for processors with AVX2 proves and uses
// this crate with `true` here (tools/build.py).
fn is_wide() -> bool {
    false
}

/// Encrypts or decrypts `text` in place: XORs it with the keystream from the block with counter `first`
/// on (RFC 8439, 2.4). Every block's counter must fit in 32 bits.
pub fn apply(key: &[u8; 32], nonce: &[u8; 12], first: u32, text: &mut [u8])
    requires { first + (length text.old + 63) / 64 ≤ 2 ^ 32 }
    ensures { text.new ≡ chacha20 key.now nonce.now first text.old }
{
    if is_wide() {
        apply_by_eight(key, nonce, first, text);
    } else {
        apply_by_four(key, nonce, first, text);
    }
}

// Encrypts a text of any length a block at a time; `first` is its first block's counter. All the
// counters used fit in 32 bits.
fn apply_plain(key: &[u8; 32], nonce: &[u8; 12], first: u32, text: &mut [u8])
    requires { first + (length text.old + 63) / 64 ≤ 2 ^ 32 }
    ensures { text.new ≡ chacha20 key.now nonce.now first text.old }
{
    let mut state = start_state(key, first, nonce);
    let whole = text.len() / BLOCK;
    'whole_blocks: for i in 0..whole {
        state[COUNTER] = first + i as u32;
        xor_block(
            &mut text[BLOCK * i..BLOCK * i + BLOCK],
            &block_words(&state),
        );
    }
    if text.len() % BLOCK > 0 {
        state[COUNTER] = first + whole as u32;
        xor_rest(&mut text[BLOCK * whole..], &block_words(&state));
    }
}
