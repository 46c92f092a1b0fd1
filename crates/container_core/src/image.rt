//! Up to 280 bytes, stored in place without allocation: a header, or a label.
ghost use Rattle.std.specs.Prelude.{◌≡◌, ◌+◌, ◌≤◌, ◌++◌, [], length};

use crate::MAX_HEADER;
use std::marker::Model;

// Contracts see the bytes.
#[derive(Drop)]
pub(crate) struct Image {
    bytes: [u8; 280],
    length: usize,
}

impl Model for Image {
    ghost use Rattle.std.specs.Prelude.{ℕ, ◌≤◌, List, take};

    ghost Value = { List ℕ };

    ghost view = { λ i. take i.length i.bytes };

    ghost invariant = { λ i. i.length ≤ 280 };
}

impl Image {
    // No bytes.
    pub(crate) fn new() -> Image
        ensures { result ≡ [] }
    {
        Image {
            bytes: [0; MAX_HEADER],
            length: 0,
        }
    }

    // Appends bytes that fit.
    pub(crate) fn append(&mut self, more: &[u8])
        requires { length self.old + length more.now ≤ 280 }
        ensures { self.new ≡ self.old ++ more.now }
    {
        let begin = self.length;
        let end = begin + more.len();
        self.bytes[begin..end].copy_from_slice(more);
        self.length = end;
    }

    pub(crate) fn as_slice(&self) -> &[u8]
        ensures value { result.now ≡ self.now }
        ensures short { length result.now ≤ 280 }
    {
        &self.bytes[..self.length]
    }
}
