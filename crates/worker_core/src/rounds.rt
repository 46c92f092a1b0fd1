//! Rounds made by a crew. Each of its workers has room for all pieces of a round, allocated before any worker starts.
//!
//! `Crew::make` makes the pieces of a round, in any order, and `Crew::put` puts them in their places. For a round it
//! starts its threads, and takes the one word from which the numbers are drawn. That is a word that `Crew::reserve`
//! made, or else a new one. Without a word the caller's thread works alone. So once a crew exists, no call of the two
//! fails for lack of memory; a chore may.
ghost use Rattle.std.specs.Prelude.{◌≡◌, ◌<◌, ◌≤◌, [], length, map, All, IfOk};
ghost use Rattle.worker_core.specs.Parts.{room_of};
ghost use Rattle.worker_core.specs.Pieces.{all_made, emptied, Covers, IsPiece};
ghost use Rattle.worker_core.specs.Crew.{AreWorked, HasMade, IsOfCrew, IsReady, idle};

use crate::bench::Bench;
use crate::places::Places;
use crate::round::Round;
use crate::word::Word;
use crate::workers::make_round;
use claim_core::{Gate, MAX_WORKERS};
use std::alloc::{AllocError, Global};
use std::marker::Model;
use std::thread::Threads;

/// Workers with their room. Contracts see how many there are, the room of each (how many pieces, of how many bytes),
/// and the pieces made and not yet put in their places.
#[derive(Drop)]
pub struct Crew {
    room: u32,
    size: usize,
    benches: Vec<Bench>,
    // The words of later rounds, that of the next one last.
    words: Vec<Word>,
}

impl Model for Crew {
    ghost use Rattle.std.specs.Prelude.{◌<◌, ◌≤◌, length, All};
    ghost use Rattle.worker_core.specs.Pieces.{all_made};
    ghost use Rattle.worker_core.specs.Crew.{CrewView, IsOfCrew};

    ghost Value = { CrewView };

    ghost view = { λ c. record {
      workers = length c.benches.items;
      room = c.room;
      size = c.size;
      made = all_made c.benches.items;
    } };

    ghost invariant = { λ c. (0 < length c.benches.items) × (length c.benches.items ≤ 16)
        × All (IsOfCrew c.room c.size) c.benches.items };
}

// Returns `workers` benches, each with room for `room` pieces of `size` bytes.
fn benches_of(alloc: Global, workers: u32, room: u32, size: usize) -> Result<Vec<Bench>, AllocError>
    ensures count { IfOk result (λ benches. length benches.items ≡ workers) }
    ensures each { IfOk result (λ benches. All (IsOfCrew room size) benches.items) }
    ensures made { IfOk result (λ benches. all_made benches.items ≡ []) }
{
    let mut benches = Vec::with_capacity(alloc, workers as usize)?;
    for _n in 0..workers {
        benches.push(Bench::new(alloc, room, size)?)?;
    }
    Ok(benches)
}

// Returns the words of the rounds of a body of `chunks` chunks: rounds of `each` pieces, and a last one of the rest.
// Each word is for `workers` workers, or for as many as the round has pieces if these are fewer. That of the first
// round is last.
fn words_of(alloc: Global, chunks: u32, each: u32, workers: u32) -> Result<Vec<Word>, AllocError>
    requires chunks { 0 < chunks }
    requires each { 0 < each }
    requires workers { (0 < workers) × (workers ≤ MAX_WORKERS) }
{
    let full = (chunks - 1) / each;
    let rest = (chunks - 1) % each + 1;
    let mut words = Vec::with_capacity(alloc, full as usize + 1)?;
    words.push(Word::new(alloc, rest, workers.min(rest))?)?;
    for _n in 0..full {
        words.push(Word::new(alloc, each, workers.min(each))?)?;
    }
    Ok(words)
}

// Makes the pieces of a round on benches that have none, and room for all.
fn make_on<R: Threads + Sync, G: Gate + Sync, C: FnMut() -> A, A>(
    rt: &R,
    alloc: Global,
    kept: Option<Word>,
    round: &Round,
    benches: &mut Vec<Bench>,
    gate: &G,
    chore: &mut C,
) -> A
    requires workers { (0 < length benches.old.items) × (length benches.old.items ≤ MAX_WORKERS) }
    requires ready { All (IsReady round.now) benches.old.items }
    requires chore { C.pre chore.old }
    ensures chore { C.step chore.old result chore.new }
    ensures made { Covers round.now benches.new.items }
    ensures worked { AreWorked round.now benches.old.items benches.new.items }
{
    make_round(rt, alloc, kept, round, benches.as_mut_slice(), gate, chore)
}

// Puts the pieces of a round from benches that have them all in their places.
fn put_from(round: &Round, benches: &mut Vec<Bench>, places: &mut Places)
    requires room { length round.now.values ≤ places.old.room }
    requires sizes { All (λ bench. bench.size ≡ places.old.size) benches.old.items }
    requires pieces { All (IsPiece round.now) (all_made benches.old.items) }
    requires all { Covers round.now benches.old.items }
    ensures values { places.new.values ≡ round.now.values }
    ensures benches { benches.new.items ≡ map emptied benches.old.items }
    ensures room { places.new.room ≡ places.old.room }
    ensures size { places.new.size ≡ places.old.size }
{
    places.take(round, benches.as_mut_slice());
}

impl Crew {
    /// Returns `workers` workers, each with room for `room` pieces of `size` bytes. `AllocError` if memory was refused.
    pub fn new(alloc: Global, workers: u32, room: u32, size: usize) -> Result<Crew, AllocError>
        requires { (0 < workers) × (workers ≤ MAX_WORKERS) }
        ensures { IfOk result (λ crew. crew ≡ idle workers room size) }
    {
        let benches = benches_of(alloc, workers, room, size)?;
        let words = Vec::new(alloc);
        Ok(Crew {
            room,
            size,
            benches,
            words,
        })
    }

    /// Allocates all words of a body of `chunks` chunks beforehand, for rounds of as many pieces as there is room for
    /// and a last one of the rest. `AllocError` if memory was refused. A single worker needs none.
    pub fn reserve(&mut self, alloc: Global, chunks: u32) -> Result<(), AllocError>
        requires chunks { 0 < chunks }
        requires room { 0 < self.old.room }
        ensures { self.new ≡ self.old }
    {
        let workers = self.benches.len() as u32;
        if workers > 1 {
            self.words = words_of(alloc, chunks, self.room, workers)?;
        }
        Ok(())
    }

    /// Makes all pieces of a round, each with the worker that draws its number. The caller's thread is worker 0: it
    /// does a chore first, and then draws as the others do. Each worker passes the gate before each piece. A worker
    /// that can't be started makes nothing. If no word was reserved and memory for one is refused, the caller's thread
    /// makes all.
    pub fn make<R: Threads + Sync, G: Gate + Sync, C: FnMut() -> A, A>(
        &mut self,
        rt: &R,
        alloc: Global,
        round: &Round,
        gate: &G,
        chore: &mut C,
    ) -> A
        requires idle { self.old.made ≡ [] }
        requires room { length round.now.values ≤ self.old.room }
        requires size { room_of round.now.task round.now.size ≤ self.old.size }
        requires chore { C.pre chore.old }
        ensures chore { C.step chore.old result chore.new }
        ensures made { HasMade round.now self.new.made }
        ensures workers { self.new.workers ≡ self.old.workers }
        ensures room { self.new.room ≡ self.old.room }
        ensures size { self.new.size ≡ self.old.size }
    {
        let kept = self.words.pop();
        make_on(rt, alloc, kept, round, &mut self.benches, gate, chore)
    }

    /// Puts the pieces of a round in their places, and keeps none. All of them must have been made. Allocates nothing.
    pub fn put(&mut self, round: &Round, places: &mut Places)
        requires made { HasMade round.now self.old.made }
        requires room { length round.now.values ≤ places.old.room }
        requires size { places.old.size ≡ self.old.size }
        ensures values { places.new.values ≡ round.now.values }
        ensures idle { self.new.made ≡ [] }
        ensures workers { self.new.workers ≡ self.old.workers }
        ensures room { (self.new.room ≡ self.old.room) × (places.new.room ≡ places.old.room) }
        ensures size { (self.new.size ≡ self.old.size) × (places.new.size ≡ places.old.size) }
    {
        put_from(round, &mut self.benches, places);
    }
}
