//! A piece of a round: what came of one chunk, in a buffer that was allocated before.
ghost use Rattle.std.specs.Prelude.{◌≡◌, ◌+◌, ◌<◌, ◌≤◌, ◌++◌, ◌∷◌, [], slice_index_or, slice_set, vec_len};
ghost use Rattle.std.specs.Prelude.{vec_capacity};

use std::mem;

// The bytes of a piece, and whether its chunk checks.
#[derive(Drop)]
pub(crate) struct Piece {
    pub(crate) checks: bool,
    pub(crate) bytes: Vec<u8>,
}

// A piece with its number within the round.
#[derive(Drop)]
pub(crate) struct Made {
    pub(crate) number: u32,
    pub(crate) piece: Piece,
}

// Pushes a value within the capacity.
pub(crate) fn push_within<T: Drop>(list: &mut Vec<T>, value: T)
    requires { vec_len list.old < vec_capacity list.old }
    ensures items { list.new.items ≡ list.old.items ++ value ∷ [] }
    ensures len { vec_len list.new ≡ vec_len list.old + 1 }
    ensures room { vec_capacity list.old ≤ vec_capacity list.new }
{
    match list.push(value) {
        Ok(()) => {}
        Err(_) => unreachable!(),
    }
}

// Puts a piece in its place, and returns the buffer that was there, emptied. No byte is copied.
pub(crate) fn exchange(places: &mut Vec<Piece>, made: Made) -> Vec<u8>
    requires { made.number < vec_len places.old }
    ensures put { places.new.items ≡ slice_set places.old.items made.number made.piece }
    ensures empty { result.items ≡ [] }
    ensures room { vec_capacity result
        ≡ vec_capacity (slice_index_or places.old.items made.number made.piece).bytes }
{
    let Made { number, mut piece } = made;
    mem::swap(&mut places[number as usize], &mut piece);
    let Piece {
        checks: _,
        mut bytes,
    } = piece;
    bytes.clear();
    bytes
}
