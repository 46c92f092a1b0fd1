//! The pieces that came early, each in its place until its turn.
ghost use Rattle.std.specs.Prelude.{◌≡◌, ◌+◌, ◌^◌, ◌<◌, ◌≤◌, ◌++◌, [], ◌∷◌, Some, None, IfOk, IfSome, IfNone, length, true};
ghost use Rattle.std.specs.VecDeque.{deque_len, deque_capacity};
ghost use Rattle.sealing_core.specs.Order.{placed};
ghost use Rattle.container_core.specs.Chunks.{max_chunks};

use crate::piece::Piece;
use std::alloc::{AllocError, Global};
use std::collections::VecDeque;

/// A place for each block that was put and not yet written. The first is for the number `written`.
#[derive(Drop)]
pub(crate) struct Early {
    places: VecDeque<Option<Piece>>,
    written: u32,
    // How many of the first places may be written.
    ripe: usize,
}

impl Early {
    pub(crate) fn new(alloc: Global, depth: usize) -> Result<Early, AllocError>
        ensures { IfOk result (λ e. (e.places.items ≡ []) × (e.written ≡ 0) × (depth ≤ deque_capacity e.places)) }
    {
        let places = VecDeque::with_capacity(alloc, depth)?;
        Ok(Early {
            places,
            written: 0,
            ripe: 0,
        })
    }

    // Returns how many were put and not yet written.
    pub(crate) fn len(&self) -> usize
        ensures { (result ≡ length self.now.places.items) × (result ≡ deque_len self.now.places) }
    {
        self.places.len()
    }

    // Whether all that was put is written.
    pub(crate) fn is_empty(&self) -> bool
        ensures { result ≡ true → length self.now.places.items ≡ 0 }
    {
        self.places.is_empty()
    }

    // Whether there is a place that may be written.
    pub(crate) fn is_ripe(&self) -> bool {
        self.ripe > 0
    }

    // Lets all that have a place be written, if `all` is true.
    pub(crate) fn ripen(&mut self, all: bool)
        ensures same { (self.new.places ≡ self.old.places) × (self.new.written ≡ self.old.written) }
    {
        if all {
            self.ripe = self.places.len();
        }
    }

    // Opens a place for one more that was put.
    pub(crate) fn open_place(&mut self)
        requires { deque_len self.old.places < deque_capacity self.old.places }
        ensures places { self.new.places.items ≡ self.old.places.items ++ None ∷ [] }
        ensures same { (self.new.written ≡ self.old.written)
            × (deque_capacity self.new.places ≡ deque_capacity self.old.places) }
    {
        self.places.push_back_reserved(None);
    }

    // Keeps the piece, or drops it if its number has no place.
    pub(crate) fn place(&mut self, piece: Piece)
        ensures places { self.new.places.items ≡ placed self.old.written self.old.places.items piece }
        ensures same { (self.new.written ≡ self.old.written)
            × (deque_capacity self.new.places ≡ deque_capacity self.old.places) }
    {
        if piece.number < self.written {
            return;
        }
        let place = (piece.number - self.written) as usize;
        if place < self.places.len() {
            self.places[place] = Some(piece);
        }
    }

    // Takes the piece whose turn it is, if it is there and may be written.
    pub(crate) fn next(&mut self) -> Option<Piece>
        requires { self.old.written + length self.old.places.items ≤ max_chunks }
        ensures some { IfSome result (λ p. (self.old.places.items ≡ Some p ∷ self.new.places.items)
            × (self.new.written ≡ self.old.written + 1)
            × (deque_capacity self.new.places ≡ deque_capacity self.old.places)) }
        ensures none { IfNone result ((self.new.places.items ≡ self.old.places.items)
            × (self.new.written ≡ self.old.written)
            × (deque_capacity self.new.places ≡ deque_capacity self.old.places)) }
    {
        if self.ripe == 0 || self.places.is_empty() || self.places[0].is_none() {
            return None;
        }
        self.ripe -= 1;
        self.written += 1;
        self.places.pop_front()?
    }
}
