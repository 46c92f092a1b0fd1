//! A crew whose workers last: they are started once, and then make the pieces of one round after another.
//!
//! The caller's thread shares a round, does something else, and finishes the round: it makes the pieces that nobody has
//! drawn, waits until the workers are done with the round, and puts all pieces in their places. A round owns its bytes,
//! so a worker may be late: the round isn't given back before its last owner is the caller's thread. A worker without a
//! round looks into its letter box, ever more rarely. Nobody waits as `Wait` means it: each loop ends, after 2^64 looks.
ghost use Rattle.std.specs.Prelude.{◌≡◌, ◌+◌, ◌<◌, ◌≤◌, [], length, vec_capacity, IfOk, IfSome, OnOk};
ghost use Rattle.std.specs.Thread.{IsSync};
ghost use Rattle.worker_core.specs.Parts.{room_of};
ghost use Rattle.worker_core.specs.Shared.{owners_view};

use crate::bench::buffers;
use crate::filling::lay_out;
use crate::letters::{Letter, LetterBox};
use crate::owned::OwnedRound;
use crate::places::Places;
use crate::resting::{LOOKS, look_again, sleep_longer};
use crate::shared::{Shared, make_drawn};
use crate::slots::Slot;
use claim_core::{Gate, MAX_WORKERS};
use counted_slot::Counted;
use std::alloc::{AllocError, AllocFailed, Global};
use std::marker::Model;
use std::mem;
use std::sync::Arc;
use std::sync::atomic::AtomicU64;
use std::sync::atomic::Ordering::SeqCst;
use std::thread::{Threads, join_mut};
use std::time::Clock;

/// The buffers of a crew, between its rounds. Contracts see how many pieces a round can have, how many bytes each, how
/// many buffers are spare, and for how many slots there is room.
#[derive(Drop)]
pub struct LastingCrew {
    room: u32,
    size: usize,
    spare: Vec<Vec<u8>>,
    slots: Vec<Counted<Slot>>,
    hand: Vec<u8>,
}

impl Model for LastingCrew {
    ghost use Rattle.std.specs.Prelude.{vec_len, vec_capacity};
    ghost use Rattle.worker_core.specs.Shared.{LastingView, IsLasting};

    ghost Value = { LastingView };

    ghost view = { λ c. record {
      room = c.room;
      size = c.size;
      spare = vec_len c.spare;
      slots = vec_capacity c.slots;
    } };

    ghost invariant = { IsLasting };
}

// A round that workers own too, or the caller's thread alone.
#[derive(Drop)]
pub(crate) enum Owners<'a> {
    Several(Arc<Shared<'a>, Global>),
    One(Shared<'a>),
}

impl<'a> Owners<'a> {
    // The round.
    #[tactic(auto, unfolding(crate::specs::Shared::owners_view))]
    fn shared(&self) -> &Shared<'a>
        ensures { result.now.size ≡ (owners_view self.now).size }
    {
        match self {
            Owners::Several(shared) => shared,
            Owners::One(shared) => shared,
        }
    }
}

/// A round that isn't finished, and the letter boxes of the workers that may have it. Contracts see the round, how many
/// bytes of room each piece has, and for how many slots there is room.
#[derive(Drop)]
pub struct Sharing<'s, 'a> {
    owners: Owners<'a>,
    boxes: &'s [LetterBox<'a>],
}

impl<'s, 'a> Model for Sharing<'s, 'a> {
    ghost use Rattle.worker_core.specs.Shared.{SharingView, owners_view};

    ghost Value = { SharingView };

    ghost view = { λ s. owners_view s.owners };
}

// Looks into the letter box, and makes pieces of the rounds that come, until the chore has ended.
fn serve<R: Clock, G: Gate>(
    rt: &R,
    alloc: Global,
    letters: &LetterBox,
    worker: u32,
    ended: &AtomicU64,
    gate: &G,
) {
    let mut hand = Vec::new(alloc);
    let mut looks = 0;
    let mut slept = 0;
    for _ in 0..u64::MAX {
        if let Some(letter) = letters.take() {
            let Letter {
                round,
                hand: larger,
            } = letter;
            hand = work_on(alloc, &round, worker, gate, hand, larger);
            // Before the round is let go of: the caller's thread then may share the next one.
            letters.note(hand.capacity());
            drop(round);
            looks = 0;
            slept = 0;
        } else if ended.load(SeqCst) != 0 {
            return;
        } else if looks < LOOKS {
            looks = look_again(looks);
        } else {
            slept = sleep_longer(rt, slept);
        }
    }
}

// Makes pieces of a round in the worker's buffer, or in a larger one that came with it. Returns the buffer that is left.
// Pieces without bytes need none, and leave the worker its own.
fn work_on<G: Gate>(
    alloc: Global,
    round: &Shared,
    worker: u32,
    gate: &G,
    hand: Vec<u8>,
    larger: Option<Vec<u8>>,
) -> Vec<u8>
    requires hand { hand.items ≡ [] }
    requires larger { IfSome larger (λ buffer. buffer.items ≡ []) }
    ensures { result.items ≡ [] }
{
    if round.size == 0 {
        make_drawn(round, worker, gate, Vec::new(alloc));
        return hand;
    }
    match larger {
        Some(larger) => make_drawn(round, worker, gate, larger),
        None => make_drawn(round, worker, gate, hand),
    }
}

// Runs the chore, and a worker for each letter box.
#[cycle(beside_workers)]
fn beside_workers<R: Threads + Clock + Sync, G: Gate + Sync, C: FnMut() -> A, A>(
    rt: &R,
    alloc: Global,
    boxes: &[LetterBox],
    ended: &AtomicU64,
    gate: &G,
    chore: &mut C,
) -> A
    requires boxes { length boxes.now < MAX_WORKERS }
    requires chore { C.pre chore.old }
    ensures { C.step chore.old result chore.new }
{
    let others = boxes.len();
    if others == 0 {
        let done = chore();
        ended.store(1, SeqCst);
        return done;
    }
    let (front, last) = boxes.split_at(others - 1);
    beside_worker(rt, alloc, front, &last[0], ended, gate, chore)
}

// Runs the chore and the workers of these letter boxes, and beside them one more on a thread of its own.
#[cycle(beside_workers)]
fn beside_worker<R: Threads + Clock + Sync, G: Gate + Sync, C: FnMut() -> A, A>(
    rt: &R,
    alloc: Global,
    boxes: &[LetterBox],
    other: &LetterBox,
    ended: &AtomicU64,
    gate: &G,
    chore: &mut C,
) -> A
    requires boxes { length boxes.now + 1 < MAX_WORKERS }
    requires chore { C.pre chore.old }
    ensures { C.step chore.old result chore.new }
{
    let worker = boxes.len() as u32 + 1;
    let (_, done) = join_mut(
        rt,
        &mut ||
            requires { IsSync R.row × IsSync G.row }
        { serve(rt, alloc, other, worker, ended, gate) },
        &mut || -> A
            requires { IsSync R.row × IsSync G.row × (length boxes.now + 1 < MAX_WORKERS) × C.pre chore.now }
            ensures { C.step chore.entry.now result chore.exit.now }
        { beside_workers(rt, alloc, boxes, ended, gate, chore) },
    );
    done
}

/// Runs a chore, and beside it a worker for each letter box, each on a thread of its own. They end once the chore has
/// ended. A worker that can't be started makes nothing.
pub fn with_workers<R: Threads + Clock + Sync, G: Gate + Sync, C: FnMut() -> A, A>(
    rt: &R,
    alloc: Global,
    boxes: &[LetterBox],
    gate: &G,
    chore: &mut C,
) -> A
    requires boxes { length boxes.now < MAX_WORKERS }
    requires chore { C.pre chore.old }
    ensures { C.step chore.old result chore.new }
{
    let ended = AtomicU64::new(0);
    beside_workers(rt, alloc, boxes, &ended, gate, chore)
}

// The round, once this is its last owner. A worker is a piece behind at most, unless its gate holds it.
#[tactic(auto, unfolding(crate::specs::Shared::owners_view))]
fn taken_back(owners: Owners) -> Result<Shared, AllocError>
    ensures owned { IfOk result (λ s. s.owned ≡ (owners_view owners.entry).owned) }
    ensures size { IfOk result (λ s. s.size ≡ (owners_view owners.entry).size) }
    ensures slots { IfOk result (λ s. vec_capacity s.slots ≡ (owners_view owners.entry).slots) }
{
    let mut shared = match owners {
        Owners::Several(shared) => shared,
        Owners::One(shared) => return Ok(shared),
    };
    let mut looks = 0;
    'looking: for _ in 0..u64::MAX {
        match Arc::try_unwrap(shared) {
            Ok(last) => return Ok(last),
            Err(others) => shared = others,
        }
        looks = look_again(looks);
    }
    Err(AllocError)
}

impl LastingCrew {
    /// Returns the buffers for rounds of at most `room` pieces of `size` bytes. `AllocError` if memory was refused.
    pub fn new(alloc: Global, room: u32, size: usize) -> Result<LastingCrew, AllocError>
        ensures shape { IfOk result (λ crew. (crew.room ≡ room) × (crew.size ≡ size)) }
        ensures spare { IfOk result (λ crew. (crew.spare ≡ room) × (room ≤ crew.slots)) }
    {
        let spare = buffers(alloc, room, size)?;
        let slots = Vec::with_capacity(alloc, room as usize)?;
        let hand = Vec::with_capacity(alloc, size)?;
        Ok(LastingCrew {
            room,
            size,
            spare,
            slots,
            hand,
        })
    }

    /// Returns how many pieces a round can have.
    pub fn room(&self) -> u32
        ensures { result ≡ self.now.room }
    {
        self.room
    }

    /// Shares a round with the workers of these letter boxes. Where there is none, the round has one piece, or memory was
    /// refused, the caller's thread has it alone.
    #[tactic(auto, unfolding(crate::specs::Shared::owners_view))]
    pub fn share<'s, 'a>(
        &mut self,
        alloc: Global,
        round: OwnedRound<'a>,
        boxes: &'s [LetterBox<'a>],
    ) -> Sharing<'s, 'a>
        requires count { length round.round.values ≤ self.old.spare }
        requires slots { length round.round.values ≤ self.old.slots }
        requires size { room_of round.round.task round.round.size ≤ self.old.size }
        ensures shared { (result.owned ≡ round.entry) × (result.size ≡ self.old.size) }
        ensures spare { self.new.spare + length round.entry.round.values ≡ self.old.spare }
        ensures slots { self.old.slots ≤ result.slots }
        ensures crew { (self.new.room ≡ self.old.room) × (self.new.size ≡ self.old.size) }
    {
        let count = round.round().count();
        let mut slots = Vec::new(alloc);
        mem::swap(&mut slots, &mut self.slots);
        lay_out(&mut slots, &mut self.spare, self.size, &round);
        let shared = Shared::of(round, self.size, slots);
        let owners = if boxes.is_empty() || count < 2 {
            Owners::One(shared)
        } else {
            match Arc::new(alloc, shared) {
                Ok(shared) => {
                    send(alloc, &shared, boxes, count);
                    Owners::Several(shared)
                }
                Err(AllocFailed { value }) => Owners::One(value),
            }
        };
        Sharing { owners, boxes }
    }

    /// Finishes a round, and puts its pieces in their places. Returns the buffer with its bytes. `AllocError` if a
    /// worker hasn't let go of it after 2^64 looks, which no run lives to see.
    pub fn finish<'s, 'a, G: Gate>(
        &mut self,
        alloc: Global,
        sharing: Sharing<'s, 'a>,
        gate: &G,
        places: &mut Places,
    ) -> Result<Vec<u8>, AllocError>
        requires size { (sharing.size ≡ self.old.size) × (places.old.size ≡ self.old.size) }
        requires room { length sharing.owned.round.values ≤ places.old.room }
        requires spare { self.old.spare + length sharing.owned.round.values ≤ self.old.room }
        ensures values { OnOk result (places.new.values ≡ sharing.entry.owned.round.values) }
        ensures bytes { IfOk result (λ bytes. bytes.items ≡ sharing.entry.owned.bytes) }
        ensures capacity { IfOk result (λ bytes. vec_capacity bytes ≡ sharing.entry.owned.room) }
        ensures spare { OnOk result (self.new.spare ≡ self.old.spare + length sharing.entry.owned.round.values) }
        ensures slots { OnOk result (sharing.entry.slots ≤ self.new.slots) }
        ensures crew { (self.new.room ≡ self.old.room) × (self.new.size ≡ self.old.size) }
        ensures places { (places.new.room ≡ places.old.room) × (places.new.size ≡ places.old.size) }
    {
        let Sharing { owners, boxes } = sharing;
        let mut hand = Vec::new(alloc);
        mem::swap(&mut hand, &mut self.hand);
        self.hand = make_drawn(owners.shared(), 0, gate, hand);
        recall(boxes);
        let Shared {
            owned,
            size: _,
            mut slots,
            next: _,
        } = taken_back(owners)?;
        places.take_slots(&owned.round(), &mut slots, &mut self.spare, gate);
        self.slots = slots;
        Ok(owned.into_bytes())
    }
}

// Gives the round to as many workers as it has pieces besides the caller's: to those that were started first.
fn send<'a>(alloc: Global, shared: &Arc<Shared<'a>, Global>, boxes: &[LetterBox<'a>], count: u32) {
    let others = boxes.len().min((count as usize).saturating_sub(1));
    for letters in &boxes[boxes.len() - others..] {
        if let Ok(theirs) = Arc::try_clone(shared) {
            letters.put(alloc, theirs);
        }
    }
}

// Takes the round out of the letter boxes whose workers haven't.
fn recall(boxes: &[LetterBox]) {
    for letters in boxes {
        letters.take();
    }
}
