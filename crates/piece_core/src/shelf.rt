//! A place for each piece of a work.
//!
//! A piece that has as many bytes as its place is copied to its position in the whole, and dropped. One of another
//! length was made by another work. It is kept apart.
ghost use Rattle.std.specs.Prelude.{◌≡◌, ◌≢◌, ℕ, ◌+◌, ◌<◌, ◌≤◌, ◌++◌, ◌↔◌, [], length, replicate, slice_index_or};
ghost use Rattle.std.specs.Prelude.{option_map, None, Some, Ok, Err, IfOk, IfErr, OnOk, OnErr, IfSome, IfNone, IsTrue};
ghost use Rattle.std.specs.Bool.{OnTrue, OnFalse};
ghost use Rattle.piece_core.specs.Pieces.{WorkView, empty_shelf, HasPlaceFor, place_of, with_piece};
ghost use Rattle.piece_core.specs.Answer.{IsFull, IsShelfOf, shelf_whole, whole_of};
ghost use Rattle.piece_core.specs.Faults.{Refuses, EndsBy};
ghost use Rattle.piece_core.specs.Rooms.{held, held_from, IsWithout, IsFirstWithout, AllHaveBytes, AllCheck};
ghost use Rattle.piece_core.specs.Rooms.{KeepsPiece};

use crate::fault::{PutFault, ShelfFault};
use crate::piece::Piece;
use crate::room::Room;
use crate::work::{Kind, MAX_PIECES, Work};
use container_core::Header;
use std::alloc::{AllocError, Global};
use std::marker::Model;

// What is known of a piece's place.
#[derive(Drop)]
pub(crate) enum ShelfPlace {
    // No piece came yet.
    Empty,
    // The piece doesn't check.
    Forged,
    // The piece's bytes are in the whole.
    Here,
    // The piece's bytes, which don't have the length of the place.
    Apart(Vec<u8>),
}

/// A place for each piece of a work, empty or filled. Contracts see the places.
#[derive(Drop)]
pub struct Shelf {
    kind: Kind,
    header: Header,
    room: Room,
    places: Vec<ShelfPlace>,
}

impl Model for Shelf {
    ghost use Rattle.std.specs.Prelude.{◌≡◌, ◌≤◌, length, vec_len};
    ghost use Rattle.piece_core.specs.Answer.{bytes_before};
    ghost use Rattle.piece_core.specs.Pieces.{ShelfView};
    ghost use Rattle.piece_core.specs.Rooms.{shelf_of};
    ghost use Rattle.piece_core.specs.declared.work.TheConstants.{MAX_PIECES};

    ghost Value = { ShelfView };

    ghost view = { λ s. shelf_of s.kind s.header s.places.items s.room.parts };

    ghost invariant = { λ s. (s.room.front ≡ bytes_before s.kind s.header)
        × (length s.places.items ≡ length s.room.parts) × (vec_len s.places ≤ MAX_PIECES) };
}

// Makes `count` empty places.
fn empty_shelf_places(alloc: Global, count: u32) -> Result<Vec<ShelfPlace>, AllocError>
    ensures { IfOk result (λ v. v.items ≡ replicate count ShelfPlace.Empty) }
{
    let mut places = Vec::with_capacity(alloc, count as usize)?;
    for _n in 0..count {
        places.push(ShelfPlace::Empty)?;
    }
    Ok(places)
}

// Whether no piece came yet.
fn is_empty(place: &ShelfPlace) -> bool
    ensures { IsTrue result ↔ (place.now ≡ ShelfPlace.Empty) }
{
    match place {
        ShelfPlace::Empty => true,
        _ => false,
    }
}

// Whether no piece came yet for the place of this number.
fn is_empty_at(places: &[ShelfPlace], number: usize) -> bool
    requires { number < length places.now }
    ensures yes { OnTrue result (slice_index_or places.now number ShelfPlace.Empty ≡ ShelfPlace.Empty) }
    ensures no { OnFalse result (slice_index_or places.now number ShelfPlace.Empty ≢ ShelfPlace.Empty) }
{
    is_empty(&places[number])
}

// Whether a place is empty.
fn has_gap(places: &[ShelfPlace]) -> bool
    ensures gap { OnTrue result ((n : ℕ) × (n < length places.now)
        × (slice_index_or places.now n ShelfPlace.Empty ≡ ShelfPlace.Empty)) }
    ensures full { OnFalse result ((n : ℕ) → n < length places.now
        → slice_index_or places.now n ShelfPlace.Empty ≢ ShelfPlace.Empty) }
{
    for n in 0..places.len() {
        if is_empty(&places[n]) {
            return true;
        }
    }
    false
}

// Whether no piece is there, or it doesn't check.
fn is_without(place: &ShelfPlace) -> bool
    ensures yes { OnTrue result (IsWithout place.now) }
    ensures no { OnFalse result (IsWithout place.now → ⊥) }
{
    match place {
        ShelfPlace::Empty | ShelfPlace::Forged => true,
        ShelfPlace::Here | ShelfPlace::Apart(_) => false,
    }
}

// The first place without bytes.
fn first_without(places: &[ShelfPlace]) -> Option<u32>
    requires { length places.now ≤ MAX_PIECES }
    ensures found { IfSome result (IsFirstWithout places.now) }
    ensures none { IfNone result (AllHaveBytes places.now) }
{
    for n in 0..places.len() {
        if is_without(&places[n]) {
            return Some(n as u32);
        }
    }
    None
}

// Whether the bytes of all pieces are in the whole.
fn are_here(places: &[ShelfPlace]) -> bool
    ensures yes { OnTrue result ((n : ℕ) → n < length places.now
        → slice_index_or places.now n ShelfPlace.Empty ≡ ShelfPlace.Here) }
    ensures no { OnFalse result ((n : ℕ) × (n < length places.now)
        × (slice_index_or places.now n ShelfPlace.Empty ≢ ShelfPlace.Here)) }
{
    for n in 0..places.len() {
        match &places[n] {
            ShelfPlace::Here => {}
            _ => return false,
        }
    }
    true
}

// Appends the bytes that a place holds.
fn append_held(bytes: &mut Vec<u8>, place: &ShelfPlace, part: &[u8]) -> Result<(), AllocError>
    ensures { OnOk result (bytes.new.items ≡ bytes.old.items ++ held place.now part.now) }
{
    match place {
        ShelfPlace::Empty | ShelfPlace::Forged => Ok(()),
        ShelfPlace::Here => bytes.extend_from_slice(part),
        ShelfPlace::Apart(other) => bytes.extend_from_slice(other.as_slice()),
    }
}

// The bytes of all places, after what comes before the pieces.
fn joined(alloc: Global, room: &Room, places: &[ShelfPlace]) -> Result<Vec<u8>, AllocError>
    requires { length places.now ≡ length room.now.parts }
    ensures { IfOk result (λ v. v.items ≡ room.now.front ++ held_from 0 places.now room.now.parts) }
{
    let mut bytes = Vec::from_slice(alloc, room.front())?;
    for n in 0..places.len() {
        append_held(&mut bytes, &places[n], room.part(n))?;
    }
    Ok(bytes)
}

// Copies the bytes of a piece to their position, or keeps them apart where they don't have the length of their place.
fn keep_piece(room: &mut Room, number: usize, value: Option<Vec<u8>>) -> ShelfPlace
    requires { number < length room.old.parts }
    ensures front { room.new.front ≡ room.old.front }
    ensures kept { KeepsPiece room.old.parts room.new.parts number (option_map (λ v. v.items) value) result }
    ensures here { IfSome value (λ v. length v.items ≡ length (slice_index_or room.old.parts number [])
        → result ≡ ShelfPlace.Here) }
{
    let Some(bytes) = value else {
        return ShelfPlace::Forged;
    };
    if bytes.as_slice().len() == room.bytes_at(number) {
        room.write(number, bytes.as_slice());
        ShelfPlace::Here
    } else {
        ShelfPlace::Apart(bytes)
    }
}

impl Shelf {
    /// Makes a shelf for the pieces of this work, with all places empty, and room for the whole. Fails with
    /// `AllocError` where memory was refused.
    pub fn new(alloc: Global, work: &Work) -> Result<Shelf, AllocError>
        ensures { IfOk result (λ s. s ≡ empty_shelf work.now) }
    {
        let room = Room::new(alloc, work)?;
        let places = empty_shelf_places(alloc, work.count())?;
        Ok(Shelf {
            kind: work.kind(),
            header: work.header().copy(),
            room,
            places,
        })
    }

    // How many places there are.
    fn count(&self) -> usize
        ensures { result ≡ length self.now.places }
    {
        self.places.as_slice().len()
    }

    // Whether the piece has a place here.
    fn fits(&self, piece: &Piece) -> bool
        ensures yes { OnTrue result (HasPlaceFor self.now piece.now) }
        ensures no { OnFalse result (HasPlaceFor self.now piece.now → ⊥) }
    {
        piece.kind == self.kind
            && piece.header.bytes() == self.header.bytes()
            && (piece.number as usize) < self.count()
    }

    // Whether a piece came for this place.
    fn is_taken(&self, number: usize) -> bool
        requires { number < length self.now.places }
        ensures yes { OnTrue result (slice_index_or self.now.places number None ≢ None) }
        ensures no { OnFalse result (slice_index_or self.now.places number None ≡ None) }
    {
        if is_empty_at(self.places.as_slice(), number) {
            return false;
        }
        true
    }

    // Why these pieces have no whole.
    fn fault(&self) -> Option<ShelfFault>
        ensures fault { IfSome result (λ fault. (fault ≢ ShelfFault.OutOfMemory) × EndsBy self.now fault) }
        ensures none { IfNone result (AllCheck self.now) }
    {
        if has_gap(self.places.as_slice()) {
            return Some(ShelfFault::Missing);
        }
        match first_without(self.places.as_slice()) {
            Some(chunk) => Some(ShelfFault::Forged { chunk }),
            None => None,
        }
    }

    /// Puts a piece on its place. First tests for `Stranger`: the piece is of another kind or header, or its number
    /// isn't below the count. Then for `Double`: its place is taken. At both nothing changes, and the piece is handed
    /// back. Allocates nothing.
    pub fn put(&mut self, piece: Piece) -> Result<(), (PutFault, Piece)>
        // The place was empty and is filled, and no other changed.
        ensures filled { OnOk result (HasPlaceFor self.old piece × (place_of self.old piece ≡ None)
            × (self.new ≡ with_piece self.old piece)) }
        ensures back { IfErr result (λ e. e.1 ≡ piece) }
        ensures same { OnErr result (self.new ≡ self.old) }
        ensures refused { IfErr result (λ e. Refuses self.old piece e.0) }
    {
        if !self.fits(&piece) {
            return Err((PutFault::Stranger, piece));
        }
        let number = piece.number as usize;
        if self.is_taken(number) {
            return Err((PutFault::Double, piece));
        }
        let Piece { value, .. } = piece;
        let place = keep_piece(&mut self.room, number, value);
        self.places[number] = place;
        Ok(())
    }

    /// Joins the pieces: those of a sealing are the container, those of an opening the plaintext. Fails with `Missing`
    /// where a place is empty, else with `Forged` for the first piece that doesn't check, else with `OutOfMemory` where
    /// memory was refused. A fault hands the shelf back as it was.
    pub fn finish(self, alloc: Global) -> Result<Vec<u8>, (ShelfFault, Shelf)>
        ensures whole { IfOk result (λ v. IsFull self × (shelf_whole self ≡ Ok v.items)) }
        ensures back { IfErr result (λ e. e.1 ≡ self) }
        ensures fault { IfErr result (λ e. EndsBy self e.0) }

        // For pieces that a work of this shelf made, the whole is that work's, and so is the chunk that doesn't check.
        ensures made { IfOk result (λ v. (work : WorkView) → IsShelfOf work self → whole_of work ≡ Ok v.items) }
        ensures unmade { IfErr result (λ e. (work : WorkView) (chunk : ℕ) → IsShelfOf work self
            → e.0 ≡ ShelfFault.Forged chunk → whole_of work ≡ Err chunk) }
    {
        if let Some(fault) = self.fault() {
            return Err((fault, self));
        }
        if are_here(self.places.as_slice()) {
            let Shelf { room, .. } = self;
            return Ok(room.into_bytes());
        }
        match joined(alloc, &self.room, self.places.as_slice()) {
            Ok(bytes) => Ok(bytes),
            Err(AllocError) => Err((ShelfFault::OutOfMemory, self)),
        }
    }
}
