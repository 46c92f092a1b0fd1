//! A body sealed or opened in rounds. While the crew makes a round, the caller's thread appends the bytes of the
//! previous one, and then draws pieces as the others do.
//!
//! The room of the crew is made before the first piece, with the words of all rounds. The caller makes the room of the
//! whole before too. From then on no memory is refused.
ghost use Rattle.std.specs.Prelude.{◌≡◌, ◌+◌, ◌-◌, ◌*◌, ◌^◌, ◌<◌, ◌≤◌, ◌++◌, ℕ, [], length, min, false, true, Ok, Err};
ghost use Rattle.std.specs.Prelude.{vec_len, vec_capacity, IfOk, IfErr, OnOk};
ghost use Rattle.container_core.specs.declared.fault.OpenFault.TheVariants.{Forged};
ghost use Rattle.container_core.specs.Chunks.{body_length, chunk_count, chunks, sealed_chunks, most_chunk};
ghost use Rattle.container_core.specs.Opening.{unsealed_by};
ghost use Rattle.container_core.specs.Stream.{stream_by};
ghost use Rattle.worker_core.specs.Answer.{answer, joined, named};
ghost use Rattle.worker_core.specs.Parts.{body_bytes, room_of};
ghost use Rattle.worker_core.specs.Values.{round_of};
ghost use Rattle.container_core.specs.Container.{size_in};
ghost use Rattle.crew_core.specs.Rounds.{CanMake, round_count};
ghost use Rattle.worker_core.specs.Crew.{idle};

use claim_core::{Gate, MAX_WORKERS};
use container_core::laws::{chunks_by_number, chunks_counted, rounds_of_a_stream, rounds_open};
use container_core::{Cut, Header, Key, MAX_CHUNKS, MAX_PLAIN, TAG};
use std::alloc::{AllocError, Global};
use std::thread::Threads;
use worker_core::laws::{pieces_by_number, refused_pieces, rounds_are_opened, rounds_are_sealed};
use worker_core::{Crew, Places, Round, Task};

// Plaintext bytes of a round that isn't the last: 4 MiB. One worker seals them in some 5 ms, and a thread starts in
// less than 0.1 ms. A round has 4 chunks of 1 MiB, 64 of 64 KiB, or 1,024 of 4 KiB.
const ROUND: usize = 1 << 22;

// How many chunks of this size a round has that isn't the last.
#[tactic(auto, unfolding(crate::specs::Rounds::round_count))]
fn chunks_of_round(size: usize) -> u32
    requires { (4096 ≤ size) × (size ≤ most_chunk) }
    ensures value { result ≡ round_count size }
    ensures some { 0 < result }
    ensures few { result ≤ 1024 }
    ensures bytes { result * size ≤ ROUND }
{
    (ROUND / size) as u32
}

// The first `count` chunks of a plaintext, all of them whole, and what follows them.
fn split_plain(size: usize, count: u32, rest: &[u8]) -> (&[u8], &[u8])
    requires size { 0 < size }
    requires full { count * size < length rest.now }
    ensures parts { rest.now ≡ result.0.now ++ result.1.now }
    ensures whole { length result.0.now ≡ count * size }
    ensures more { 0 < length result.1.now }
    ensures counted { chunk_count size (length rest.now) ≡ count + chunk_count size (length result.1.now) }
{
    rest.split_at(count as usize * size)
}

// The first `count` sealed chunks of a body of `plain` plaintext bytes, all of them whole, and what follows them.
fn split_sealed(size: usize, count: u32, plain: u64, rest: &[u8]) -> (&[u8], &[u8])
    requires size { 0 < size }
    requires count { 0 < count }
    requires body { length rest.now ≡ body_length size plain }
    requires full { count * (size + TAG) < length rest.now }
    ensures parts { rest.now ≡ result.0.now ++ result.1.now }
    ensures whole { length result.0.now ≡ count * (size + TAG) }
    ensures round { length result.0.now ≡ body_length size (count * size) }
    ensures more { 0 < length result.1.now }
    ensures fits { count * size < plain }
    ensures left { length result.1.now ≡ body_length size (plain - count * size) }
    ensures counted { chunk_count size plain ≡ count + chunk_count size (plain - count * size) }
{
    rest.split_at(count as usize * (size + TAG))
}

// The round of some whole chunks, none of which is the last of all.
fn whole_round<'a>(
    task: Task,
    key: &'a Key,
    header: &'a Header,
    first: u32,
    count: u32,
    body: &'a [u8],
) -> Round<'a>
    requires count { (0 < count) × (count ≤ 1024) }
    requires numbers { first + count ≤ 2 ^ 32 }
    requires body { length body.now ≡ body_bytes task (size_in header.now) (count * size_in header.now) }
    requires small { count * size_in header.now ≤ ROUND }
    ensures round { result ≡ round_of task key.now header.now first false body.now }
    ensures count { length result.values ≡ count }
{
    pieces_by_number();
    chunks_by_number();
    chunks_counted();
    let cut = Cut::of(header, count as u64 * header.chunk() as u64);
    Round::new(task, key, header, first, false, cut, body)
}

// A crew, and the places of a round.
#[derive(Drop)]
pub(crate) struct RoundRooms {
    crew: Crew,
    places: Places,
}

impl RoundRooms {
    // Makes the room for a body of `chunks` chunks of `size` bytes, for no more workers than a round has pieces. Fails
    // with `AllocError` where memory was refused.
    pub(crate) fn new(
        alloc: Global,
        task: Task,
        size: usize,
        chunks: u32,
        workers: u32,
    ) -> Result<RoundRooms, AllocError>
        requires size { (4096 ≤ size) × (size ≤ most_chunk) }
        requires chunks { 0 < chunks }
        requires workers { (0 < workers) × (workers ≤ MAX_WORKERS) }
        ensures crew { IfOk result (λ rooms. rooms.crew
            ≡ idle (min workers (min (round_count size) chunks)) (min (round_count size) chunks) (room_of task size)) }
        ensures ready { IfOk result (λ rooms.
            CanMake task size (min (round_count size) chunks) rooms.crew rooms.places) }
        ensures empty { IfOk result (λ rooms. rooms.places.values ≡ []) }
    {
        let pieces = chunks.min(chunks_of_round(size));
        let room = task.room(size);
        let mut crew = Crew::new(alloc, workers.min(pieces), pieces, room)?;
        crew.reserve(alloc, chunks)?;
        let places = Places::new(alloc, pieces, room)?;
        Ok(RoundRooms { crew, places })
    }
}

// Appends the bytes of the pieces on their places. There is room for them.
fn append_pieces(out: &mut Vec<u8>, places: &Places)
    requires room { vec_len out.old + length (joined places.now.values) ≤ vec_capacity out.old }
    ensures items { out.new.items ≡ out.old.items ++ joined places.now.values }
    ensures room { vec_capacity out.old ≤ vec_capacity out.new }
{
    match places.append_to(out) {
        Ok(()) => {}
        Err(AllocError) => unreachable!(),
    }
}

// Makes a round, and puts its pieces on their places. Meanwhile those of the previous round are appended from there.
fn make_and_append<R: Threads + Sync, G: Gate + Sync>(
    rt: &R,
    alloc: Global,
    round: &Round,
    rooms: &mut RoundRooms,
    out: &mut Vec<u8>,
    gate: &G,
)
    requires ready { CanMake round.now.task round.now.size (length round.now.values) rooms.old.crew rooms.old.places }
    requires room { vec_len out.old + length (joined rooms.old.places.values) ≤ vec_capacity out.old }
    ensures values { rooms.new.places.values ≡ round.now.values }
    ensures items { out.new.items ≡ out.old.items ++ joined rooms.old.places.values }
    ensures room { vec_capacity out.old ≤ vec_capacity out.new }
    ensures ready { (task : Task) (size pieces : ℕ) → CanMake task size pieces rooms.old.crew rooms.old.places
        → CanMake task size pieces rooms.new.crew rooms.new.places }
{
    let RoundRooms { crew, places } = rooms;
    let waiting = &*places;
    let mut chore = ||
        requires { vec_len out.now + length (joined waiting.now.values) ≤ vec_capacity out.now }
        ensures items { out.exit.now.items ≡ out.entry.now.items ++ joined waiting.entry.now.values }
        ensures room { vec_capacity out.entry.now ≤ vec_capacity out.exit.now }
    { append_pieces(out, waiting) };
    crew.make(rt, alloc, round, gate, &mut chore);
    crew.put(round, places);
}

// Appends the sealed chunks of a plaintext, the first of which has the number `first`. `last` says whether its last
// chunk is the last of all. There is room for them.
pub(crate) fn seal_rounds<R: Threads + Sync, G: Gate + Sync>(
    rt: &R,
    alloc: Global,
    key: &Key,
    header: &Header,
    first: u32,
    last: bool,
    plain: &[u8],
    mut rooms: RoundRooms,
    out: &mut Vec<u8>,
    gate: &G,
)
    requires plain { length plain.now ≤ MAX_PLAIN }
    requires numbers { first + chunk_count (size_in header.now) (length plain.now) ≤ 2 ^ 32 }
    requires ready { CanMake Task.Sealing (size_in header.now)
        (min (round_count (size_in header.now)) (chunk_count (size_in header.now) (length plain.now)))
        rooms.crew rooms.places }
    requires empty { rooms.places.values ≡ [] }
    requires room { vec_len out.old + body_length (size_in header.now) (length plain.now) ≤ vec_capacity out.old }
    ensures { out.new.items ≡ out.old.items
        ++ stream_by key.now header.now first last (chunks (size_in header.now) plain.now) }
{
    // Consecutive rounds are STREAM, and the pieces of a round are its part of STREAM.
    rounds_of_a_stream();
    rounds_are_sealed();
    pieces_by_number();
    chunks_by_number();
    let size = header.chunk();
    let count = chunks_of_round(size);
    let step = count as usize * size;
    let mut number = first;
    let mut rest = plain;
    'rounds: while rest.len() > step {
        let (bytes, more) = split_plain(size, count, rest);
        let round = whole_round(Task::Sealing, key, header, number, count, bytes);
        make_and_append(rt, alloc, &round, &mut rooms, out, gate);
        number += count;
        rest = more;
    }
    let cut = Cut::of(header, rest.len() as u64);
    let round = Round::new(Task::Sealing, key, header, number, last, cut, rest);
    make_and_append(rt, alloc, &round, &mut rooms, out, gate);
    append_pieces(out, &rooms.places);
}

// Whether all pieces of a round of an opening check, else the number of the first that doesn't. The round's first piece
// has the number `first`.
fn all_checked(places: &Places, first: u32) -> Result<(), u32>
    requires numbers { first + length places.now.values ≤ 2 ^ 32 }
    ensures ok { OnOk result (named first (answer places.now.values) ≡ Ok (joined places.now.values)) }
    ensures err { IfErr result (λ chunk. named first (answer places.now.values) ≡ Err (Forged chunk)) }
{
    refused_pieces();
    match places.first_refused() {
        None => Ok(()),
        Some(number) => Err(first + number),
    }
}

// Appends the plaintext of the sealed chunks of a body with this cut, numbered from 0 on. Returns the number of the
// first that doesn't check, if there is one. There is room for the plaintext.
pub(crate) fn open_in_rounds<R: Threads + Sync, G: Gate + Sync>(
    rt: &R,
    alloc: Global,
    key: &Key,
    header: &Header,
    cut: Cut,
    body: &[u8],
    mut rooms: RoundRooms,
    out: &mut Vec<u8>,
    gate: &G,
) -> Result<(), u32>
    requires size { cut.size ≡ size_in header.now }
    requires plain { cut.plain ≤ MAX_CHUNKS * cut.size }
    requires body { length body.now ≡ body_length cut.size cut.plain }
    requires ready { CanMake Task.Opening cut.size (min (round_count cut.size) (chunk_count cut.size cut.plain))
        rooms.crew rooms.places }
    requires empty { (rooms.places.values ≡ []) × (out.old.items ≡ []) }
    requires room { cut.plain ≤ vec_capacity out.old }
    ensures opened { OnOk result
        (unsealed_by key.now header.now 0 true (sealed_chunks cut.size body.now) ≡ Ok out.new.items) }
    ensures refused { IfErr result (λ chunk.
        unsealed_by key.now header.now 0 true (sealed_chunks cut.size body.now) ≡ Err (Forged chunk)) }
{
    // Consecutive rounds open as all chunks do, and the pieces of a round as its chunks.
    rounds_open();
    rounds_are_opened();
    pieces_by_number();
    chunks_by_number();
    let size = header.chunk();
    let count = chunks_of_round(size);
    let step = count as usize * size;
    let sealed = count as usize * (size + TAG);
    let mut plain = cut.plain();
    let mut number = 0;
    let mut rest = body;
    'rounds: while rest.len() > sealed {
        let (bytes, more) = split_sealed(size, count, plain, rest);
        let round = whole_round(Task::Opening, key, header, number, count, bytes);
        make_and_append(rt, alloc, &round, &mut rooms, out, gate);
        match all_checked(&rooms.places, number) {
            Ok(()) => {}
            Err(chunk) => return Err(chunk),
        }
        number += count;
        plain -= step as u64;
        rest = more;
    }
    let cut = Cut::of(header, plain);
    let round = Round::new(Task::Opening, key, header, number, true, cut, rest);
    make_and_append(rt, alloc, &round, &mut rooms, out, gate);
    match all_checked(&rooms.places, number) {
        Ok(()) => {}
        Err(chunk) => return Err(chunk),
    }
    append_pieces(out, &rooms.places);
    Ok(())
}
