//! The pieces of a list that are no names. A piece is what a list has between two of its separators, before the first or
//! after the last. They are counted from 1, as the lines of a text are.
ghost use Rattle.std.specs.Prelude.{◌≡◌, ◌<◌, ◌++◌, ◌∷◌, [], ℕ, IfErr, IfOk, List, OnOk, map};
ghost use Rattle.command_line.specs.Names.{ArePiecesOf, bad_pieces, fault_of_piece};

use crate::fault::UsageFault;
use crate::names::cut_bytes;
use std::alloc::Global;
use std::str::from_utf8;
use thiserror::Error as ThisError;

/// Why a piece of a list is no name. The texts are those that the program prints.
#[derive(Clone, Copy, PartialEq, Eq, Debug, ThisError)]
pub enum PieceFault {
    /// It has no bytes.
    #[error("empty")]
    Empty,
    /// Its bytes aren't UTF-8.
    #[error("not UTF-8")]
    NotText,
}

/// A piece of a list that is no name.
#[derive(Clone, Copy)]
pub struct BadPiece<'a> {
    /// Its number among all pieces of the list, counted from 1.
    pub number: usize,
    /// Why it is no name.
    pub fault: PieceFault,
    /// Its bytes, without a separator.
    pub bytes: &'a [u8],
}

/// Returns the pieces of a list that are no names, in its order. `OutOfMemory` if there is none for them.
pub fn bad_pieces<'a>(
    alloc: Global,
    list: &'a [u8],
    separator: char,
) -> Result<Vec<BadPiece<'a>>, UsageFault>
    requires ascii { separator < 128 }
    ensures bad { IfOk result (λ bad. (pieces : List (List ℕ)) × ArePiecesOf separator list.now pieces
        × (map (λ one. (one.number, one.fault, one.bytes.now)) bad.items ≡ bad_pieces 1 pieces)) }
    ensures fault { IfErr result (λ fault. fault ≡ UsageFault.OutOfMemory) }
{
    let separator = separator as u32 as u8;
    let mut bad = Vec::new(alloc);
    let mut rest = list;
    let mut number = 1;
    'pieces: while let Some((piece, more)) = cut_bytes(rest, separator) {
        push_bad(&mut bad, number, piece)?;
        number += 1;
        rest = more;
    }
    if rest.is_empty() {
        return Ok(bad);
    }
    push_bad(&mut bad, number, rest)?;
    Ok(bad)
}

// Adds the piece of this number, if it is no name.
fn push_bad<'a>(
    bad: &mut Vec<BadPiece<'a>>,
    number: usize,
    piece: &'a [u8],
) -> Result<(), UsageFault>
    ensures bad { OnOk result (map (λ one. (one.number, one.fault, one.bytes.now)) bad.new.items
        ≡ map (λ one. (one.number, one.fault, one.bytes.now)) bad.old.items ++ bad_pieces number (piece.now ∷ [])) }
    ensures fault { IfErr result (λ fault. fault ≡ UsageFault.OutOfMemory) }
{
    let Some(fault) = fault_of_piece(piece) else {
        return Ok(());
    };
    match bad.push(BadPiece {
        number,
        fault,
        bytes: piece,
    }) {
        Ok(()) => Ok(()),
        Err(_) => Err(UsageFault::OutOfMemory),
    }
}

// Why a piece is no name, if it is none.
#[tactic(auto, unfolding(crate::specs::Names::fault_of_piece))]
fn fault_of_piece(piece: &[u8]) -> Option<PieceFault>
    ensures { result ≡ fault_of_piece piece.now }
{
    if piece.is_empty() {
        return Some(PieceFault::Empty);
    }
    match from_utf8(piece) {
        Ok(_) => None,
        Err(_) => Some(PieceFault::NotText),
    }
}
