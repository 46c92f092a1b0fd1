//! The slots of a round that several threads share: one for each piece, with its buffer.
//!
//! A thread that has drawn a number makes its piece in a spare buffer, and exchanges that for the one in the slot. What
//! the piece must be was fixed when the slot was made, so the caller's thread knows each piece by its place. For the
//! proof it makes those that it doesn't find: whoever draws a number fills its slot.

use crate::piece::Piece;
use crate::round::Task;
use container_core::{Header, Key};
use counted_slot::Fits;
use std::snapshot::Snapshot;

/// For which piece of which round a slot is, and how many bytes of room its buffer has.
#[derive(Drop)]
pub(crate) struct Expected {
    pub(crate) size: usize,
    pub(crate) number: u32,
    pub(crate) task: Task,
    pub(crate) key: Snapshot<Key>,
    pub(crate) header: Snapshot<Header>,
    pub(crate) first: u32,
    pub(crate) last: bool,
    pub(crate) bytes: Snapshot<Vec<u8>>,
    pub(crate) length: usize,
}

/// A piece, or an empty buffer for it.
#[derive(Drop)]
pub(crate) struct Slot {
    pub(crate) filled: bool,
    pub(crate) piece: Piece,
}

impl Fits for Slot {
    type Tag = Expected;

    ghost use Rattle.worker_core.specs.Slots.{IsSlotOf};

    ghost fits = { IsSlotOf };
}
