//! Four blocks side by side: a vector for each word of a state, with a lane for each block (RFC 8439,
//! 2.1 to 2.4).
//!
//! A group begins with `start_states`, or with `next_states` of the group before it. `apply_group` does
//! ten times `double_round`, then XORs the group with 256 bytes of a text (`xor_group`). `eight` is the
//! same with eight lanes.

ghost use Rattle.std.specs.Prelude.{◌≡◌, ℕ, ◌+◌, ◌*◌, ◌/◌, ◌%◌, ◌^◌, ◌<◌, ◌≤◌, List, [], ◌∷◌, ◌++◌};
ghost use Rattle.std.specs.Prelude.{length, take, drop, slice_index, slice_index_or};
ghost use Rattle.chacha_core.specs.ChaCha20.{add32, xor_roll, quarter_round, column_rounds, diagonal_rounds};
ghost use Rattle.chacha_core.specs.ChaCha20.{add_states, word_bytes, xor_from, chacha20};
ghost use Rattle.chacha_core.specs.Lanes.{lane_at, lane, UnderWay, places_16, places_8};

use crate::state::{DOUBLE_ROUNDS, start_state};
use crate::{FEW, apply_plain};
use std::simd::{u8x16, u32x4};

// The blocks of a group.
const BLOCKS: u32 = 4;

// The bytes of a group.
const GROUP: usize = 256;

// The bytes of a vector.
const ROW: usize = 16;

#[inline(always)]
fn add(a: u32x4, b: u32x4) -> u32x4
    ensures { (j : ℕ) → j < 4 → slice_index result j ≡ add32 (slice_index a j) (slice_index b j) }
{
    a + b
}

#[inline(always)]
fn xor_roll(a: u32x4, b: u32x4, k: u32) -> u32x4
    requires { (0 < k) × (k < 32) }
    ensures { (j : ℕ) → j < 4 → slice_index result j ≡ xor_roll (slice_index a j) (slice_index b j) k }
{
    let x = a ^ b;
    (x << u32x4::splat(k)) | (x >> u32x4::splat(32 - k))
}

// Where each byte comes from when words are rolled by 16 bits, and by 8.
#[derive(Drop)]
struct Rolls {
    by_16: u8x16,
    by_8: u8x16,
}

// The bytes' places. Not inlined, so that the compiler doesn't know them: it would split a roll that it
// knows to move whole bytes in two.
#[inline(never)]
fn byte_places() -> Rolls
    ensures by_16 { result.by_16 ≡ places_16 }
    ensures by_8 { result.by_8 ≡ places_8 }
{
    Rolls {
        by_16: u8x16::from_array([2, 3, 0, 1, 6, 7, 4, 5, 10, 11, 8, 9, 14, 15, 12, 13]),
        by_8: u8x16::from_array([3, 0, 1, 2, 7, 4, 5, 6, 11, 8, 9, 10, 15, 12, 13, 14]),
    }
}

#[inline(always)]
fn xor_roll_16(a: u32x4, b: u32x4, rolls: &Rolls) -> u32x4
    requires { rolls.now.by_16 ≡ places_16 }
    ensures { (j : ℕ) → j < 4 → slice_index result j ≡ xor_roll (slice_index a j) (slice_index b j) 16 }
{
    let x = a ^ b;
    u32x4::from_le_bytes(x.to_le_bytes().swizzle_dyn_within::<16>(rolls.by_16))
}

#[inline(always)]
fn xor_roll_8(a: u32x4, b: u32x4, rolls: &Rolls) -> u32x4
    requires { rolls.now.by_8 ≡ places_8 }
    ensures { (j : ℕ) → j < 4 → slice_index result j ≡ xor_roll (slice_index a j) (slice_index b j) 8 }
{
    let x = a ^ b;
    u32x4::from_le_bytes(x.to_le_bytes().swizzle_dyn_within::<16>(rolls.by_8))
}

// Quarter rounds on the four columns, in each lane (2.3.1). They go side by side, step by step: none
// waits for another.
#[inline(always)]
fn columns(x: [u32x4; 16], rolls: &Rolls) -> [u32x4; 16]
    requires by_16 { rolls.now.by_16 ≡ places_16 }
    requires by_8 { rolls.now.by_8 ≡ places_8 }
    ensures { (j : ℕ) → j < 4 → lane j result ≡ column_rounds (lane j x) }
{
    let a0 = add(x[0], x[4]);
    let a1 = add(x[1], x[5]);
    let a2 = add(x[2], x[6]);
    let a3 = add(x[3], x[7]);
    let d0 = xor_roll_16(x[12], a0, rolls);
    let d1 = xor_roll_16(x[13], a1, rolls);
    let d2 = xor_roll_16(x[14], a2, rolls);
    let d3 = xor_roll_16(x[15], a3, rolls);
    let c0 = add(x[8], d0);
    let c1 = add(x[9], d1);
    let c2 = add(x[10], d2);
    let c3 = add(x[11], d3);
    let b0 = xor_roll(x[4], c0, 12);
    let b1 = xor_roll(x[5], c1, 12);
    let b2 = xor_roll(x[6], c2, 12);
    let b3 = xor_roll(x[7], c3, 12);
    let y0 = add(a0, b0);
    let y1 = add(a1, b1);
    let y2 = add(a2, b2);
    let y3 = add(a3, b3);
    let y12 = xor_roll_8(d0, y0, rolls);
    let y13 = xor_roll_8(d1, y1, rolls);
    let y14 = xor_roll_8(d2, y2, rolls);
    let y15 = xor_roll_8(d3, y3, rolls);
    let y8 = add(c0, y12);
    let y9 = add(c1, y13);
    let y10 = add(c2, y14);
    let y11 = add(c3, y15);
    let y4 = xor_roll(b0, y8, 7);
    let y5 = xor_roll(b1, y9, 7);
    let y6 = xor_roll(b2, y10, 7);
    let y7 = xor_roll(b3, y11, 7);
    [
        y0, y1, y2, y3, y4, y5, y6, y7, y8, y9, y10, y11, y12, y13, y14, y15,
    ]
}

// Quarter rounds on the four diagonals (2.3.1). They become columns when the second row is rotated by
// one word, the third by two and the fourth by three.
#[inline(always)]
fn diagonals(x: [u32x4; 16], rolls: &Rolls) -> [u32x4; 16]
    requires by_16 { rolls.now.by_16 ≡ places_16 }
    requires by_8 { rolls.now.by_8 ≡ places_8 }
    ensures { (j : ℕ) → j < 4 → lane j result ≡ diagonal_rounds (lane j x) }
{
    let turned = [
        x[0], x[1], x[2], x[3], x[5], x[6], x[7], x[4], x[10], x[11], x[8], x[9], x[15], x[12],
        x[13], x[14],
    ];
    let y = columns(turned, rolls);
    [
        y[0], y[1], y[2], y[3], y[7], y[4], y[5], y[6], y[10], y[11], y[8], y[9], y[13], y[14],
        y[15], y[12],
    ]
}

// Two groups of states added word by word.
#[inline(always)]
fn sums(x: [u32x4; 16], y: [u32x4; 16]) -> [u32x4; 16]
    ensures { (j : ℕ) → j < 4 → lane j result ≡ add_states (lane j x) (lane j y) }
{
    let z0 = add(x[0], y[0]);
    let z1 = add(x[1], y[1]);
    let z2 = add(x[2], y[2]);
    let z3 = add(x[3], y[3]);
    let z4 = add(x[4], y[4]);
    let z5 = add(x[5], y[5]);
    let z6 = add(x[6], y[6]);
    let z7 = add(x[7], y[7]);
    let z8 = add(x[8], y[8]);
    let z9 = add(x[9], y[9]);
    let z10 = add(x[10], y[10]);
    let z11 = add(x[11], y[11]);
    let z12 = add(x[12], y[12]);
    let z13 = add(x[13], y[13]);
    let z14 = add(x[14], y[14]);
    let z15 = add(x[15], y[15]);
    [
        z0, z1, z2, z3, z4, z5, z6, z7, z8, z9, z10, z11, z12, z13, z14, z15,
    ]
}

// Transposes four vectors: row j has lane j of each.
#[inline(always)]
fn transpose(a: u32x4, b: u32x4, c: u32x4, d: u32x4) -> [u32x4; 4]
    ensures { (j : ℕ) → j < 4
        → slice_index_or result j []
        ≡ slice_index a j ∷ slice_index b j ∷ slice_index c j ∷ slice_index d j ∷ [] }
{
    let ab0 = a.shuffle(b, [0, 4, 1, 5]);
    let ab1 = a.shuffle(b, [2, 6, 3, 7]);
    let cd0 = c.shuffle(d, [0, 4, 1, 5]);
    let cd1 = c.shuffle(d, [2, 6, 3, 7]);
    let r0 = ab0.shuffle(cd0, [0, 1, 4, 5]);
    let r1 = ab0.shuffle(cd0, [2, 3, 6, 7]);
    let r2 = ab1.shuffle(cd1, [0, 1, 4, 5]);
    let r3 = ab1.shuffle(cd1, [2, 3, 6, 7]);
    [r0, r1, r2, r3]
}

// The words of four blocks, block after block, four rows of four words for each.
#[inline(always)]
fn rows(x: [u32x4; 16]) -> [u32x4; 16]
    ensures { (k : ℕ) → k < 16
        → slice_index_or result k [] ≡ take 4 (drop (4 * (k % 4)) (lane (k / 4) x)) }
{
    let r = transpose(x[0], x[1], x[2], x[3]);
    let s = transpose(x[4], x[5], x[6], x[7]);
    let t = transpose(x[8], x[9], x[10], x[11]);
    let u = transpose(x[12], x[13], x[14], x[15]);
    [
        r[0], s[0], t[0], u[0], r[1], s[1], t[1], u[1], r[2], s[2], t[2], u[2], r[3], s[3], t[3],
        u[3],
    ]
}

// The bytes of a row, each word little-endian.
#[inline(always)]
fn row_bytes(words: u32x4) -> u8x16
    ensures { result ≡ word_bytes words }
{
    words.to_le_bytes()
}

// XORs a text with the bytes of sixteen rows.
#[inline(always)]
fn xor_rows(text: &mut [u8], rows: [u32x4; 16])
    requires { length text.old ≡ 256 }
    ensures { text.new
        ≡ xor_from (λ j. slice_index (word_bytes (slice_index_or rows (j / 16) [])) (j % 16)) 0 text.old }
{
    'rows: for k in 0..16 {
        let bytes = u8x16::from_slice(&text[ROW * k..]);
        (bytes ^ row_bytes(rows[k])).copy_to_slice(&mut text[ROW * k..]);
    }
}

// The states that the four blocks from counter `first` on begin with (2.3).
#[inline(always)]
fn start_states(key: &[u8; 32], nonce: &[u8; 12], first: u32) -> [u32x4; 16]
    ensures { first + 4 ≤ 2 ^ 32 → UnderWay 4 0 key.now nonce.now first result }
{
    let s = start_state(key, first, nonce);
    [
        u32x4::splat(s[0]),
        u32x4::splat(s[1]),
        u32x4::splat(s[2]),
        u32x4::splat(s[3]),
        u32x4::splat(s[4]),
        u32x4::splat(s[5]),
        u32x4::splat(s[6]),
        u32x4::splat(s[7]),
        u32x4::splat(s[8]),
        u32x4::splat(s[9]),
        u32x4::splat(s[10]),
        u32x4::splat(s[11]),
        u32x4::splat(first) + u32x4::from_array([0, 1, 2, 3]),
        u32x4::splat(s[13]),
        u32x4::splat(s[14]),
        u32x4::splat(s[15]),
    ]
}

// The states that the next four blocks begin with (2.3).
#[inline(always)]
fn next_states(x: [u32x4; 16]) -> [u32x4; 16]
    ensures { (first : ℕ) (key nonce : List ℕ) → first + 8 ≤ 2 ^ 32 → UnderWay 4 0 key nonce first x
        → UnderWay 4 0 key nonce (first + 4) result }
{
    [
        x[0],
        x[1],
        x[2],
        x[3],
        x[4],
        x[5],
        x[6],
        x[7],
        x[8],
        x[9],
        x[10],
        x[11],
        add(x[12], u32x4::splat(BLOCKS)),
        x[13],
        x[14],
        x[15],
    ]
}

// One more double round on each of the four states (2.3.1).
#[inline(always)]
fn double_round(x: [u32x4; 16], rolls: &Rolls) -> [u32x4; 16]
    requires by_16 { rolls.now.by_16 ≡ places_16 }
    requires by_8 { rolls.now.by_8 ≡ places_8 }
    ensures { (n first : ℕ) (key nonce : List ℕ) → UnderWay 4 n key nonce first x
        → UnderWay 4 (n + 1) key nonce first result }
{
    let y = columns(x, rolls);
    diagonals(y, rolls)
}

// XORs 256 bytes of a text, from `at` on, with a group that began with `start` and has had its ten
// double rounds (2.3 and 2.4). The rest of the text is unchanged.
#[inline(always)]
fn xor_group(text: &mut [u8], at: usize, x: [u32x4; 16], start: [u32x4; 16])
    requires { at + 256 ≤ length text.old }
    ensures { (first : ℕ) (key nonce : List ℕ) → UnderWay 4 0 key nonce first start → UnderWay 4 10 key nonce first x
        → text.new ≡ take at text.old ++ (chacha20 key nonce first (take 256 (drop at text.old))
        ++ drop (at + 256) text.old) }
{
    let words = sums(x, start);
    xor_rows(&mut text[at..at + GROUP], rows(words));
}

// Encrypts 256 bytes of a text, from `at` on, given the states that its four blocks begin with.
#[inline(always)]
fn apply_group(text: &mut [u8], at: usize, start: &[u32x4; 16], rolls: &Rolls)
    requires room { at + 256 ≤ length text.old }
    requires by_16 { rolls.now.by_16 ≡ places_16 }
    requires by_8 { rolls.now.by_8 ≡ places_8 }
    ensures { (first : ℕ) (key nonce : List ℕ) → UnderWay 4 0 key nonce first start.now
        → text.new ≡ take at text.old ++ (chacha20 key nonce first (take 256 (drop at text.old))
        ++ drop (at + 256) text.old) }
{
    let mut x = *start;
    'rounds: for _round in 0..DOUBLE_ROUNDS {
        let y = double_round(x, rolls);
        x = y;
    }
    xor_group(text, at, x, *start);
}

// Encrypts the whole groups of a text. The bytes after them are unchanged.
fn apply_groups(key: &[u8; 32], nonce: &[u8; 12], first: u32, text: &mut [u8])
    requires { first + length text.old / 64 ≤ 2 ^ 32 }
    ensures { text.new ≡ chacha20 key.now nonce.now first (take (256 * (length text.old / 256)) text.old)
        ++ drop (256 * (length text.old / 256)) text.old }
{
    let mut start = start_states(key, nonce, first);
    run_groups(text, &mut start, &byte_places());
}

// The same, given the states that the first group begins with. Not inlined, so that these stay in memory
// and aren't rebuilt for each group.
#[inline(never)]
fn run_groups(text: &mut [u8], start: &mut [u32x4; 16], rolls: &Rolls)
    requires by_16 { rolls.now.by_16 ≡ places_16 }
    requires by_8 { rolls.now.by_8 ≡ places_8 }
    ensures { (first : ℕ) (key nonce : List ℕ) → first + length text.old / 64 ≤ 2 ^ 32
        → (first + 4 ≤ 2 ^ 32 → UnderWay 4 0 key nonce first start.old)
        → text.new ≡ chacha20 key nonce first (take (256 * (length text.old / 256)) text.old)
        ++ drop (256 * (length text.old / 256)) text.old }
{
    'groups: for g in 0..text.len() / GROUP {
        apply_group(text, GROUP * g, start, rolls);
        let next = next_states(*start);
        *start = next;
    }
}

// Encrypts a text shorter than a group, as the first bytes of a group.
fn apply_part(key: &[u8; 32], nonce: &[u8; 12], first: u32, text: &mut [u8])
    requires { (first + 4 ≤ 2 ^ 32) × (length text.old < 256) }
    ensures { text.new ≡ chacha20 key.now nonce.now first text.old }
{
    let mut group = [0; GROUP];
    let len = text.len();
    group[..len].copy_from_slice(text);
    let start = start_states(key, nonce, first);
    apply_group(&mut group, 0, &start, &byte_places());
    text.copy_from_slice(&group[..len]);
}

// Encrypts a text shorter than a group; `first` is its first block's counter. A text of more than `FEW`
// bytes is the first part of a group, if all the group's counters fit in 32 bits. Else it goes block by
// block.
fn apply_rest(key: &[u8; 32], nonce: &[u8; 12], first: u32, text: &mut [u8])
    requires { (first + (length text.old + 63) / 64 ≤ 2 ^ 32) × (length text.old < 256) }
    ensures { text.new ≡ chacha20 key.now nonce.now first text.old }
{
    if text.len() > FEW && first <= u32::MAX - (BLOCKS - 1) {
        apply_part(key, nonce, first, text);
    } else {
        apply_plain(key, nonce, first, text);
    }
}

/// Encrypts or decrypts `text` in place as `apply` does, four blocks at a time.
pub fn apply_by_four(key: &[u8; 32], nonce: &[u8; 12], first: u32, text: &mut [u8])
    requires { first + (length text.old + 63) / 64 ≤ 2 ^ 32 }
    ensures { text.new ≡ chacha20 key.now nonce.now first text.old }
{
    let groups = text.len() / GROUP;
    apply_groups(key, nonce, first, text);
    if text.len() > GROUP * groups {
        let next = first + BLOCKS * groups as u32;
        apply_rest(key, nonce, next, &mut text[GROUP * groups..]);
    }
}
