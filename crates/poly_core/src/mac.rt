//! The authenticator of a message that comes piece by piece (RFC 8439, 2.5).

ghost use Rattle.std.specs.Prelude.{◌≡◌, ◌+◌, ◌-◌, ◌%◌, ◌<◌, ◌≤◌, ℕ, List, [], ◌++◌, length};
ghost use Rattle.poly_core.specs.Poly1305.{poly1305, pad16};
ghost use Rattle.poly_core.specs.Absorbed.{Absorbed};

use crate::blocks::{BLOCK, absorb_blocks, block_at, cut_block, key_r, key_s};
use crate::limbs::{Limbs, ZERO, step, tag_number};
use std::marker::Model;

/// Poly1305 under a one-time key, over the bytes absorbed so far.
///
/// It keeps the sum over the whole blocks, and the bytes after them, fewer than 16.
#[derive(Drop)]
pub struct Mac {
    r: Limbs,
    s: u128,
    sum: Limbs,
    rest: [u8; 16],
    filled: usize,
}

impl Model for Mac {
    ghost use Rattle.std.specs.Prelude.{◌≡◌, ◌*◌, ◌%◌, ◌^◌, ◌<◌, take};
    ghost use Rattle.poly_core.specs.Absorbed.{Progress};
    ghost use Rattle.poly_core.specs.Poly1305.{prime};
    ghost use Rattle.poly_core.specs.Limbs.{value, AllBelow};

    ghost Value = { Progress };

    ghost view = { λ m. record {
      r = value m.r;
      s = m.s;
      sum = value m.sum % prime;
      rest = take m.filled m.rest;
    } };

    ghost invariant = { λ m. AllBelow (2 ^ 26) m.r × AllBelow (2 ^ 27) m.sum × (m.filled < 16) };
}

impl Mac {
    /// Returns a mac under a key of 32 bytes (r, then s), with nothing absorbed.
    pub fn new(key: &[u8; 32]) -> Mac
        ensures { Absorbed result key.now [] }
    {
        Mac {
            r: key_r(key),
            s: key_s(key),
            sum: ZERO,
            rest: [0; BLOCK],
            filled: 0,
        }
    }

    /// Appends bytes to the message. How a message is split into pieces makes no difference.
    pub fn absorb(&mut self, bytes: &[u8])
        ensures { (key message : List ℕ) → Absorbed self.old key message
            → Absorbed self.new key (message ++ bytes.now) }
    {
        let front = self.lacking().min(bytes.len());
        self.take_in(&bytes[..front]);
        if front < bytes.len() {
            let end = front + (bytes.len() - front) / BLOCK * BLOCK;
            self.absorb_whole(&bytes[front..end]);
            self.take_in(&bytes[end..]);
        }
    }

    /// Appends zeros up to a multiple of 16 bytes, none at a multiple (RFC 8439, 2.8.1).
    pub fn pad(&mut self)
        ensures { (key message : List ℕ) → Absorbed self.old key message
            → Absorbed self.new key (message ++ pad16 message) }
    {
        let lacking = self.lacking();
        self.take_in(&[0; BLOCK][..lacking]);
    }

    /// Returns the tag of the bytes absorbed, 16 bytes.
    pub fn finish(self) -> [u8; 16]
        ensures { (key message : List ℕ) → Absorbed self key message
            → result ≡ poly1305 key message }
    {
        let Mac {
            r,
            s,
            sum,
            rest,
            filled,
        } = self;
        let total = if filled > 0 {
            step(&sum, &cut_block(&rest[..filled]), &r)
        } else {
            sum
        };
        tag_number(&total, s).to_le_bytes()
    }

    // How many bytes an unfinished block lacks; 0 if there is none.
    fn lacking(&self) -> usize
        ensures value { result ≡ (16 - length self.now.rest) % 16 }
        ensures short { length self.now.rest < 16 }
    {
        (BLOCK - self.filled) % BLOCK
    }

    // Appends a piece that ends within the block that it begins or continues.
    fn take_in(&mut self, piece: &[u8])
        requires { length self.old.rest + length piece.now ≤ 16 }
        ensures absorbed { (key message : List ℕ) → Absorbed self.old key message
            → Absorbed self.new key (message ++ piece.now) }
        ensures full { length self.old.rest + length piece.now ≡ 16 → self.new.rest ≡ [] }
        ensures short { length self.old.rest + length piece.now < 16
            → self.new.rest ≡ self.old.rest ++ piece.now }
    {
        let end = self.filled + piece.len();
        self.rest[self.filled..end].copy_from_slice(piece);
        if end < BLOCK {
            self.filled = end;
        } else {
            self.sum = step(&self.sum, &block_at(&self.rest, 0), &self.r);
            self.filled = 0;
        }
    }

    // Appends whole blocks when no block is unfinished.
    fn absorb_whole(&mut self, blocks: &[u8])
        requires none_begun { self.old.rest ≡ [] }
        requires whole { length blocks.now % 16 ≡ 0 }
        ensures absorbed { (key message : List ℕ) → Absorbed self.old key message
            → Absorbed self.new key (message ++ blocks.now) }
        ensures none_begun { self.new.rest ≡ [] }
    {
        self.sum = absorb_blocks(&self.sum, &self.r, blocks);
    }
}
