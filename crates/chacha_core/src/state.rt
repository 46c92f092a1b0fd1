//! The state of sixteen words and its twenty rounds (RFC 8439, 2.1 to 2.3).
//!
//! A state is four rows of four words: the constants, the key in two rows, and the counter with the
//! nonce. The words are numbered from 0 to 15, row by row, and sums are modulo 2^32.

ghost use Rattle.std.specs.Prelude.{◌≡◌, ◌+◌, ◌*◌, ◌≤◌, length};
ghost use Rattle.chacha_core.specs.ChaCha20.{quarter_round, column_rounds, diagonal_rounds};
ghost use Rattle.chacha_core.specs.ChaCha20.{word_at, start_state, add_states, block_words};

use byteorder::{ByteOrder, LittleEndian};

/// The RFC's twenty rounds, two at a time.
pub(crate) const DOUBLE_ROUNDS: u32 = 10;

/// The quarter round on four words (2.1).
#[inline(always)]
pub(crate) fn quarter_round(a: u32, b: u32, c: u32, d: u32) -> (u32, u32, u32, u32)
    ensures { result ≡ quarter_round a b c d }
{
    let a = a.wrapping_add(b);
    let d = (d ^ a).rotate_left(16);
    let c = c.wrapping_add(d);
    let b = (b ^ c).rotate_left(12);
    let a = a.wrapping_add(b);
    let d = (d ^ a).rotate_left(8);
    let c = c.wrapping_add(d);
    let b = (b ^ c).rotate_left(7);
    (a, b, c, d)
}

// Quarter rounds on the four columns (2.3.1).
#[inline(always)]
fn column_rounds(state: [u32; 16]) -> [u32; 16]
    ensures { result ≡ column_rounds state }
{
    let (x0, x4, x8, x12) = quarter_round(state[0], state[4], state[8], state[12]);
    let (x1, x5, x9, x13) = quarter_round(state[1], state[5], state[9], state[13]);
    let (x2, x6, x10, x14) = quarter_round(state[2], state[6], state[10], state[14]);
    let (x3, x7, x11, x15) = quarter_round(state[3], state[7], state[11], state[15]);
    [
        x0, x1, x2, x3, x4, x5, x6, x7, x8, x9, x10, x11, x12, x13, x14, x15,
    ]
}

// Quarter rounds on the four diagonals (2.3.1).
#[inline(always)]
fn diagonal_rounds(state: [u32; 16]) -> [u32; 16]
    ensures { result ≡ diagonal_rounds state }
{
    let (x0, x5, x10, x15) = quarter_round(state[0], state[5], state[10], state[15]);
    let (x1, x6, x11, x12) = quarter_round(state[1], state[6], state[11], state[12]);
    let (x2, x7, x8, x13) = quarter_round(state[2], state[7], state[8], state[13]);
    let (x3, x4, x9, x14) = quarter_round(state[3], state[4], state[9], state[14]);
    [
        x0, x1, x2, x3, x4, x5, x6, x7, x8, x9, x10, x11, x12, x13, x14, x15,
    ]
}

// Word i of a list of bytes, little-endian.
#[inline(always)]
fn word_at(bytes: &[u8], i: usize) -> u32
    requires { 4 * i + 4 ≤ length bytes.now }
    ensures { result ≡ word_at bytes.now i }
{
    LittleEndian::read_u32(&bytes[4 * i..])
}

/// The state that the block with this counter begins with.
#[inline(always)]
pub(crate) fn start_state(key: &[u8; 32], counter: u32, nonce: &[u8; 12]) -> [u32; 16]
    ensures { result ≡ start_state key.now counter nonce.now }
{
    [
        0x6170_7865,
        0x3320_646e,
        0x7962_2d32,
        0x6b20_6574,
        word_at(key, 0),
        word_at(key, 1),
        word_at(key, 2),
        word_at(key, 3),
        word_at(key, 4),
        word_at(key, 5),
        word_at(key, 6),
        word_at(key, 7),
        counter,
        word_at(nonce, 0),
        word_at(nonce, 1),
        word_at(nonce, 2),
    ]
}

// Two states added word by word.
#[inline(always)]
fn add_states(x: &[u32; 16], y: &[u32; 16]) -> [u32; 16]
    ensures { result ≡ add_states x.now y.now }
{
    [
        x[0].wrapping_add(y[0]),
        x[1].wrapping_add(y[1]),
        x[2].wrapping_add(y[2]),
        x[3].wrapping_add(y[3]),
        x[4].wrapping_add(y[4]),
        x[5].wrapping_add(y[5]),
        x[6].wrapping_add(y[6]),
        x[7].wrapping_add(y[7]),
        x[8].wrapping_add(y[8]),
        x[9].wrapping_add(y[9]),
        x[10].wrapping_add(y[10]),
        x[11].wrapping_add(y[11]),
        x[12].wrapping_add(y[12]),
        x[13].wrapping_add(y[13]),
        x[14].wrapping_add(y[14]),
        x[15].wrapping_add(y[15]),
    ]
}

/// The words of a block: the twenty rounds on its state, then the state added to their result.
pub(crate) fn block_words(state: &[u32; 16]) -> [u32; 16]
    ensures { result ≡ block_words state.now }
{
    let mut words = *state;
    'rounds: for _round in 0..DOUBLE_ROUNDS {
        words = diagonal_rounds(column_rounds(words));
    }
    add_states(&words, state)
}
