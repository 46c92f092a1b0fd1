//! What a shelf accepts and refuses.
ghost use Rattle.std.specs.Prelude.{◌≤◌, length};

use crate::{PREFIX, counting_key, flip, pattern};
use container_core::{Key, MAX_PLAIN, Shape, seal};
use crew_core::{Kind, PutFault, Shelf, ShelfFault, Work};
use std::alloc::Global;
use std::test::Fail;

// Device 1, file 1.
const OTHER: [u8; 7] = [0, 0, 1, 0, 0, 0, 1];

// Puts a piece of a work on a shelf. Returns why it was refused, with the returned piece's own data. Returns `None` if
// there is no such piece.
fn refusal(
    alloc: Global,
    shelf: &mut Shelf,
    work: &Work,
    number: u32,
) -> Option<Option<(PutFault, Kind, [u8; 7], u32)>> {
    if number >= work.count() {
        return None;
    }
    let piece = work.piece(alloc, number).ok()?;
    match shelf.put(piece) {
        Ok(()) => Some(None),
        Err((fault, back)) => Some(Some((fault, back.kind(), back.prefix(), back.number()))),
    }
}

// Whether a piece of a work is accepted.
fn is_taken(alloc: Global, shelf: &mut Shelf, work: &Work, number: u32) -> bool {
    refusal(alloc, shelf, work, number) == Some(None)
}

// Whether a new shelf accepts piece 1 once, and reports the other as missing.
fn is_taken_once(alloc: Global, work: &Work) -> Option<bool> {
    let mut shelf = Shelf::new(alloc, work).ok()?;
    let first = is_taken(alloc, &mut shelf, work, 1);
    let second = refusal(alloc, &mut shelf, work, 1);
    let double = second == Some(Some((PutFault::Double, Kind::Sealing, PREFIX, 1)));
    match shelf.finish(alloc) {
        Err((ShelfFault::Missing, _)) => Some(first && double),
        _ => None,
    }
}

#[test]
fn a_place_is_taken_once(rt: HostRuntime) -> Result<(), Fail> {
    let key = counting_key();
    let plain = pattern(rt.alloc(), 65_537)?;
    let work = Work::sealing(&key, &Shape::one(), PREFIX, plain.as_slice());
    assert!(rt; work.count() == 2);
    assert!(rt; is_taken_once(rt.alloc(), &work) == Some(true));
    Ok(())
}

// Whether a piece of a work is refused as a stranger of this kind and prefix.
fn is_stranger(
    alloc: Global,
    shelf: &mut Shelf,
    work: &Work,
    number: u32,
    kind: Kind,
    prefix: [u8; 7],
) -> bool {
    let refused = refusal(alloc, shelf, work, number);
    refused == Some(Some((PutFault::Stranger, kind, prefix, number)))
}

// Whether a shelf for a work under `PREFIX` refuses piece 0 of a work under `OTHER`, and of an opening.
fn refuses_both(alloc: Global, work: &Work, other: &Work, opening: &Work) -> bool {
    match Shelf::new(alloc, work) {
        Ok(mut shelf) => {
            let prefix = is_stranger(alloc, &mut shelf, other, 0, Kind::Sealing, OTHER);
            let kind = is_stranger(alloc, &mut shelf, opening, 0, Kind::Opening, PREFIX);
            prefix && kind
        }
        Err(_) => false,
    }
}

// Whether a shelf for a work of one piece refuses piece 1 of another work.
fn refuses_past(alloc: Global, small: &Work, work: &Work) -> bool {
    match Shelf::new(alloc, small) {
        Ok(mut shelf) => is_stranger(alloc, &mut shelf, work, 1, Kind::Sealing, PREFIX),
        Err(_) => false,
    }
}

#[test]
fn strangers_are_refused(rt: HostRuntime) -> Result<(), Fail> {
    let key = counting_key();
    let plain = pattern(rt.alloc(), 65_537)?;
    let bytes = seal(rt.alloc(), &key, &Shape::one(), PREFIX, plain.as_slice())?;
    let work = Work::sealing(&key, &Shape::one(), PREFIX, plain.as_slice());
    let other = Work::sealing(&key, &Shape::one(), OTHER, plain.as_slice());
    let empty = Work::sealing(&key, &Shape::one(), PREFIX, b"");
    let opening = Work::opening(&key, bytes.as_slice())?;
    assert!(rt; refuses_both(rt.alloc(), &work, &other, &opening));
    assert!(rt; refuses_past(rt.alloc(), &empty, &work));
    Ok(())
}

// Whether a shelf for a work refuses piece 0 of another work under the same prefix.
fn refuses_other(alloc: Global, work: &Work, other: &Work) -> bool {
    match Shelf::new(alloc, work) {
        Ok(mut shelf) => is_stranger(alloc, &mut shelf, other, 0, Kind::Sealing, PREFIX),
        Err(_) => false,
    }
}

// Whether a shelf for a work in one shape refuses piece 0 of the same plaintext in another shape.
fn refuses_shape(alloc: Global, plain: &[u8], shape: &Shape, other: &Shape) -> bool
    requires { length plain.now ≤ MAX_PLAIN }
{
    let key = counting_key();
    let work = Work::sealing(&key, shape, PREFIX, plain);
    let other = Work::sealing(&key, other, PREFIX, plain);
    work.count() == 17 && refuses_other(alloc, &work, &other)
}

// Whether it refuses a piece with another label, with another chunk size, and of version 1.
fn refuses_shapes(alloc: Global) -> Option<bool> {
    let plain = pattern(alloc, 65_537).ok()?;
    let plain = plain.as_slice();
    let shape = Shape::two(12, b"db-dump").ok()?;
    let label = Shape::two(12, b"db-dumb").ok()?;
    let size = Shape::two(13, b"db-dump").ok()?;
    Some(
        refuses_shape(alloc, plain, &shape, &label)
            && refuses_shape(alloc, plain, &shape, &size)
            && refuses_shape(alloc, plain, &shape, &Shape::one()),
    )
}

// In version 2 the header contains the label and the chunk size, so they distinguish pieces, as the version does.
#[test]
fn pieces_of_another_shape_are_strangers(rt: HostRuntime) {
    assert!(rt; refuses_shapes(rt.alloc()) == Some(true));
}

// The whole of a work. Its pieces are put from the last to the first.
fn whole_of(alloc: Global, work: &Work) -> Option<Vec<u8>> {
    let mut shelf = Shelf::new(alloc, work).ok()?;
    for number in 0..work.count() {
        if !is_taken(alloc, &mut shelf, work, work.count() - 1 - number) {
            return None;
        }
    }
    shelf.finish(alloc).ok()
}

// Whether these bytes are the whole of a work.
fn is_whole(alloc: Global, work: &Work, bytes: &[u8]) -> bool {
    match whole_of(alloc, work) {
        Some(whole) => whole.as_slice() == bytes,
        None => false,
    }
}

#[test]
fn pieces_in_any_order(rt: HostRuntime) -> Result<(), Fail> {
    let key = counting_key();
    let plain = pattern(rt.alloc(), 200_000)?;
    let one = seal(rt.alloc(), &key, &Shape::one(), PREFIX, plain.as_slice())?;
    let work = Work::sealing(&key, &Shape::one(), PREFIX, plain.as_slice());
    assert!(rt; is_whole(rt.alloc(), &work, one.as_slice()));
    let opening = Work::opening(&key, one.as_slice())?;
    assert!(rt; is_whole(rt.alloc(), &opening, plain.as_slice()));
    Ok(())
}

// The whole made of another work's piece 0 and this work's piece 1.
fn mixed(alloc: Global, work: &Work, other: &Work) -> Option<Vec<u8>> {
    let mut shelf = Shelf::new(alloc, work).ok()?;
    let taken = is_taken(alloc, &mut shelf, other, 0) && is_taken(alloc, &mut shelf, work, 1);
    match shelf.finish(alloc) {
        Ok(bytes) if taken => Some(bytes),
        _ => None,
    }
}

// Whether these bytes are the container of 20 bytes and then the last chunk of another, which has 4 bytes.
fn are_joined(bytes: &[u8], twenty: &[u8], long: &[u8]) -> bool {
    let begin = long.len().saturating_sub(4 + 16);
    bytes.get(..24 + 20 + 16) == Some(twenty) && bytes.get(24 + 20 + 16..) == long.get(begin..)
}

// Whether that whole consists of these bytes.
fn is_mixed(alloc: Global, work: &Work, other: &Work, twenty: &[u8], long: &[u8]) -> bool {
    match mixed(alloc, work, other) {
        Some(bytes) => are_joined(bytes.as_slice(), twenty, long),
        None => false,
    }
}

// A piece of another plaintext under the same prefix may have a length that differs from its place's.
#[test]
fn a_piece_of_another_length_is_joined_too(rt: HostRuntime) -> Result<(), Fail> {
    let key = counting_key();
    let plain = pattern(rt.alloc(), 65_540)?;
    let text = b"twenty bytes of text";
    let long = seal(rt.alloc(), &key, &Shape::one(), PREFIX, plain.as_slice())?;
    let twenty = seal(rt.alloc(), &key, &Shape::one(), PREFIX, text)?;
    let work = Work::sealing(&key, &Shape::one(), PREFIX, plain.as_slice());
    let other = Work::sealing(&key, &Shape::one(), PREFIX, text);
    assert!(rt;
        is_mixed(
            rt.alloc(),
            &work,
            &other,
            twenty.as_slice(),
            long.as_slice()
        )
    );
    Ok(())
}

// A container of four chunks. Chunks 3 and 1 don't check.
fn damaged(alloc: Global, key: &Key) -> Option<Vec<u8>> {
    let plain = pattern(alloc, 200_000).ok()?;
    let mut bytes = seal(alloc, key, &Shape::one(), PREFIX, plain.as_slice()).ok()?;
    if bytes.len() != 200_088 {
        return None;
    }
    flip(bytes.as_mut_slice(), 24 + 3 * 65_552, 1);
    flip(bytes.as_mut_slice(), 24 + 65_552, 1);
    Some(bytes)
}

// Whether all pieces of a work of four are accepted, and the whole is refused for chunk 1.
fn is_forged(alloc: Global, work: &Work) -> Option<bool> {
    let mut shelf = Shelf::new(alloc, work).ok()?;
    let taken = is_taken(alloc, &mut shelf, work, 3)
        && is_taken(alloc, &mut shelf, work, 0)
        && is_taken(alloc, &mut shelf, work, 1)
        && is_taken(alloc, &mut shelf, work, 2);
    match shelf.finish(alloc) {
        Err((ShelfFault::Forged { chunk: 1 }, _)) => Some(taken),
        _ => None,
    }
}

#[test]
fn the_least_piece_that_does_not_check(rt: HostRuntime) -> Result<(), Fail> {
    let key = counting_key();
    let bytes = damaged(rt.alloc(), &key).ok_or("no container")?;
    let work = Work::opening(&key, bytes.as_slice())?;
    assert!(rt; is_forged(rt.alloc(), &work) == Some(true));
    Ok(())
}
