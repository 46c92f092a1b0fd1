//! One piece of a work: what came of one chunk, and its number in the work.
ghost use Rattle.std.specs.Prelude.{◌≡◌, option_map};
ghost use Rattle.container_core.specs.Stream.{prefix_in};

use crate::work::Kind;
use container_core::Header;
use std::marker::Model;

/// One chunk sealed, or opened; or that the chunk doesn't check. `Work::piece` makes it.
#[derive(Drop)]
pub struct Piece {
    pub(crate) kind: Kind,
    pub(crate) header: Header,
    pub(crate) number: u32,
    pub(crate) value: Option<Vec<u8>>,
}

impl Model for Piece {
    ghost use Rattle.std.specs.Prelude.{option_map};
    ghost use Rattle.piece_core.specs.Pieces.{PieceView};

    ghost Value = { PieceView };

    ghost view = { λ p. record {
      kind = p.kind;
      header = p.header;
      number = p.number;
      value = option_map (λ v. v.items) p.value;
    } };
}

impl Piece {
    /// Whether it is a piece of a sealing or of an opening.
    pub fn kind(&self) -> Kind
        ensures { result ≡ self.now.kind }
    {
        self.kind
    }

    /// The header of the work's container.
    pub fn header(&self) -> &Header
        ensures { result.now ≡ self.now.header }
    {
        &self.header
    }

    /// The prefix of the work's nonces, which the header names.
    pub fn prefix(&self) -> [u8; 7]
        ensures { result ≡ prefix_in self.now.header }
    {
        self.header.prefix()
    }

    /// The number of its chunk.
    pub fn number(&self) -> u32
        ensures { result ≡ self.now.number }
    {
        self.number
    }

    /// The sealed chunk with its tag after it, or the opened chunk; `None` where it doesn't check.
    pub fn bytes(&self) -> Option<&[u8]>
        ensures { option_map (λ b. b.now) result ≡ self.now.value }
    {
        match &self.value {
            Some(bytes) => Some(bytes.as_slice()),
            None => None,
        }
    }
}
