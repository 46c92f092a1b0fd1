//! One round of an opening: workers open or only check the chunks of a window. Meanwhile the caller's thread takes the
//! plaintext of the round before, and after a full round reads the next.
ghost use Rattle.std.specs.Prelude.{◌≡◌, ◌≢◌, ◌⊎◌, ℕ, ◌+◌, ◌*◌, ◌^◌, ◌<◌, ◌≤◌, ◌++◌, Bool, true, false, List};
ghost use Rattle.std.specs.Prelude.{length, take, slice_index, Err, IfErr, OnOk, OnErr, vec_capacity};
ghost use Rattle.container_core.specs.Chunks.{body_length, chunk_count, most_chunk, sealed_chunks};
ghost use Rattle.container_core.specs.Container.{size_in};
ghost use Rattle.container_core.specs.Faults.{IsOfBytes};
ghost use Rattle.container_core.specs.Opening.{unsealed_by};
ghost use Rattle.io_core.specs.Streams.{Appends, counted};
ghost use Rattle.output_core.specs.Bounds.{Admits};
ghost use Rattle.worker_core.specs.Values.{round_of, values_of};
ghost use Rattle.worker_core.specs.Answer.{joined};
ghost use Rattle.opening_core.specs.Engine.{open_write_failed};
ghost use Rattle.opening_core.specs.Windows.{HasBegunLast, HasGathered, HasTurned, IsReady, IsTakingFault};
ghost use Rattle.opening_core.specs.Windows.{IsTurningFault, MayTakeLast, OpensRound};

use crate::context::OpeningContext;
use crate::rooms::{Rooms, byte_behind};
use crate::taking::Taking;
use crate::window::Window;
use claim_core::{Gate, MAX_WINDOW};
use container_core::laws::{chunks_by_number, chunks_of_two_parts};
use container_core::{Cut, Header, Key, MAX_CHUNKS, OpenFault, TAG};
use io_core::{Failed, Source};
use std::alloc::{AllocError, Global};
use std::mem;
use worker_core::laws::{pieces_by_number, refused_pieces, rounds_are_checked, rounds_are_opened};
use worker_core::{LetterBox, OwnedRound, Places, Task};

// How many bytes `chunks` sealed chunks have under a header, where none of them is the last.
pub(crate) fn sealed_bytes(chunks: u32, header: &Header) -> usize
    requires { chunks ≤ MAX_WINDOW }
    ensures value { result ≡ chunks * (size_in header.now + TAG) }
    ensures most { result ≤ MAX_WINDOW * (most_chunk + TAG) }
{
    chunks as usize * (header.chunk() + TAG)
}

// How many plaintext bytes `chunks` chunks have under a header, where none of them is the last.
fn plain_bytes(chunks: u32, header: &Header) -> u64
    requires { chunks ≤ MAX_WINDOW }
    ensures value { result ≡ chunks * size_in header.now }
    ensures most { result ≤ MAX_WINDOW * most_chunk }
{
    u64::from(chunks) * header.chunk() as u64
}

// Takes the plaintext of the previous round, and reads the rest of the next after its first byte `ahead`, seen before.
fn turn<R: Source, O: Taking>(
    alloc: Global,
    reader: &mut R,
    out: &mut O,
    places: &mut Places,
    next: &mut Window,
    ahead: u8,
    upto: usize,
) -> Result<(), OpenFault>
    requires upto { (0 < upto) × (upto ≤ next.old.room) }
    requires may { Admits (O.bound out.old) (O.bytes out.old) (joined places.old.values) }
    ensures turned { HasTurned (R.left reader.old) (R.left reader.new) (R.failures reader.old) (R.failures reader.new)
        next.old next.new ahead upto result }
    ensures gathered { HasGathered (O.bytes out.old) (O.bytes out.new) (O.failures out.old) (O.failures out.new)
        (O.bound out.old) (O.bound out.new) places.old.values result }
    ensures fault { IfErr result (IsTurningFault O.writes) }
    ensures places { (places.new.room ≡ places.old.room) × (places.new.size ≡ places.old.size) }
{
    match out.take(alloc, places) {
        Ok(()) => {}
        Err(fault) => return Err(fault),
    }
    next.begin_with(ahead);
    match next.fill(reader, upto) {
        Ok(()) => Ok(()),
        Err(Failed) => Err(OpenFault::Read),
    }
}

// Whether all chunks of a round check, else the first that doesn't. The round's first chunk has the number `first`.
pub(crate) fn checked(places: &Places, task: Task, first: u32) -> Result<(), OpenFault>
    requires task { task ≢ Task.Sealing }
    requires numbers { first + length places.now.values ≤ 2 ^ 32 }
    ensures opened { OnOk result ((key header body : List ℕ) (last : Bool)
        → places.now.values ≡ values_of task key header first last body
        → OpensRound task key header first last body (joined places.now.values)) }
    ensures refused { IfErr result (λ fault. (key header body : List ℕ) (last : Bool)
        → places.now.values ≡ values_of task key header first last body
        → unsealed_by key header first last (sealed_chunks (size_in header) body) ≡ Err fault) }
    ensures fault { IfErr result IsOfBytes }
{
    // What the pieces say of the chunks.
    rounds_are_opened();
    rounds_are_checked();
    refused_pieces();
    match places.first_refused() {
        None => Ok(()),
        Some(number) => Err(OpenFault::Forged {
            chunk: first + number,
        }),
    }
}

// The full round with which a buffer begins, where a byte was seen after it.
fn full_round<'a>(
    task: Task,
    key: &'a Key,
    header: &Header,
    first: u32,
    chunks: u32,
    bytes: Vec<u8>,
) -> OwnedRound<'a>
    requires task { task ≢ Task.Sealing }
    requires chunks { (0 < chunks) × (chunks ≤ MAX_WINDOW) }
    requires numbers { first + chunks ≤ 2 ^ 32 }
    requires full { chunks * (size_in header.now + TAG) < length bytes.items }
    ensures round { result.round ≡ round_of task key.now header.now first false
        (take (chunks * (size_in header.now + TAG)) bytes.items) }
    ensures bytes { (result.bytes ≡ bytes.items) × (result.room ≡ vec_capacity bytes) }
    ensures count { length result.round.values ≡ chunks }
{
    pieces_by_number();
    chunks_of_two_parts();
    let cut = Cut::of(header, plain_bytes(chunks, header));
    let length = sealed_bytes(chunks, header);
    OwnedRound::new(task, key, header, first, false, cut, bytes, length)
}

// Opens a full round. Meanwhile the plaintext of the previous one is taken, and the next one is read after its first
// byte, which was seen before.
pub(crate) fn open_full<'a, R: Source, G: Gate, O: Taking>(
    alloc: Global,
    context: &OpeningContext<'_, 'a, G>,
    first: u32,
    rooms: &mut Rooms,
    boxes: &[LetterBox<'a>],
    reader: &mut R,
    out: &mut O,
    upto: usize,
) -> Result<(), OpenFault>
    requires numbers { first + context.now.window ≤ 2 ^ 32 }
    requires full { context.now.window * (size_in context.now.header.now + TAG) < length rooms.old.current.held }
    requires upto { (0 < upto) × (upto ≤ rooms.old.next.room) }
    requires may { Admits (O.bound out.old) (O.bytes out.old) (joined rooms.old.places.values) }
    requires ready { IsReady context.now.task (size_in context.now.header.now)
        (context.now.window * (size_in context.now.header.now + TAG))
        rooms.old.crew rooms.old.places }
    ensures values { OnOk result (rooms.new.places.values
        ≡ values_of context.now.task context.now.key.now context.now.header.now first false
        (take (context.now.window * (size_in context.now.header.now + TAG)) rooms.old.current.held)) }
    ensures count { OnOk result (length rooms.new.places.values ≡ context.now.window) }
    ensures turned { HasTurned (R.left reader.old) (R.left reader.new) (R.failures reader.old) (R.failures reader.new)
        rooms.old.next rooms.new.current
        (slice_index rooms.old.current.held (context.now.window * (size_in context.now.header.now + TAG))) upto result }
    ensures gathered { HasGathered (O.bytes out.old) (O.bytes out.new) (O.failures out.old) (O.failures out.new)
        (O.bound out.old) (O.bound out.new) rooms.old.places.values result }
    ensures fault { IfErr result (IsTurningFault O.writes) }
    ensures ready { OnOk result (IsReady context.now.task (size_in context.now.header.now)
        (context.now.window * (size_in context.now.header.now + TAG))
        rooms.new.crew rooms.new.places) }
    ensures room { OnOk result (rooms.new.next ≡ rooms.old.current) }
{
    let Rooms {
        current,
        next,
        crew,
        places,
    } = rooms;
    let header = context.header;
    let chunks = context.window;
    let ahead = byte_behind(current, sealed_bytes(chunks, header));
    let held = current.held().len();
    let round = full_round(
        context.task,
        context.key,
        header,
        first,
        chunks,
        current.take_buffer(alloc),
    );
    let sharing = crew.share(alloc, round, boxes);
    let turned = turn(alloc, reader, out, places, next, ahead, upto);
    // Also after a fault: a gate may wait for the other pieces.
    let finished = crew.finish(alloc, sharing, context.gate, places);
    match turned {
        Ok(()) => {}
        Err(fault) => return Err(fault),
    }
    match finished {
        Ok(bytes) => current.give_buffer(bytes, held),
        Err(AllocError) => return Err(OpenFault::OutOfMemory),
    }
    mem::swap(current, next);
    Ok(())
}

// Opens the last round, and takes the plaintext of the previous one and of this one.
pub(crate) fn open_last<'a, G: Gate, O: Taking>(
    alloc: Global,
    context: &OpeningContext<'_, 'a, G>,
    first: u32,
    rooms: &mut Rooms,
    boxes: &[LetterBox<'a>],
    out: &mut O,
) -> Result<(), OpenFault>
    requires cut { (plain : ℕ) × (length rooms.old.current.held ≡ body_length (size_in context.now.header.now) plain)
        × (plain ≤ MAX_CHUNKS * size_in context.now.header.now)
        × (first + chunk_count (size_in context.now.header.now) plain ≤ 2 ^ 32) }
    requires ready { IsReady context.now.task (size_in context.now.header.now) (length rooms.old.current.held)
        rooms.old.crew rooms.old.places }
    requires may { MayTakeLast context.now.task context.now.key.now context.now.header.now first
        rooms.old.current.held rooms.old.places.values
        (O.bound out.old) (O.bytes out.old) }
    ensures opened { OnOk result ((last : List ℕ)
        × OpensRound context.now.task context.now.key.now context.now.header.now first true rooms.old.current.held last
        × Appends (O.bytes out.old) (O.bytes out.new) (joined rooms.old.places.values ++ last)) }
    ensures begun { OnErr result (context.now.task ≡ Task.Opening
        → HasBegunLast context.now.key.now context.now.header.now first rooms.old.current.held rooms.old.places.values
        (O.bytes out.old) (O.bytes out.new)) }
    ensures refused { IfErr result (λ fault. IsOfBytes fault
        → unsealed_by context.now.key.now context.now.header.now first true
        (sealed_chunks (size_in context.now.header.now) rooms.old.current.held)
        ≡ Err fault) }
    ensures fault { IfErr result (λ fault. IsOfBytes fault ⊎ IsTakingFault O.writes fault) }
    ensures writes { O.failures out.new ≡ counted (open_write_failed result) (O.failures out.old) }
{
    pieces_by_number();
    chunks_by_number();
    let Rooms {
        current,
        next: _,
        crew,
        places,
    } = rooms;
    let task = context.task;
    let header = context.header;
    let length = current.held().len();
    let Ok(cut) = Cut::of_body(header, length as u64) else {
        unreachable!();
    };
    let bytes = current.take_buffer(alloc);
    let round = OwnedRound::new(task, context.key, header, first, true, cut, bytes, length);
    let sharing = crew.share(alloc, round, boxes);
    let taken = out.take(alloc, places);
    let finished = crew.finish(alloc, sharing, context.gate, places);
    match taken {
        Ok(()) => {}
        Err(fault) => return Err(fault),
    }
    match finished {
        Ok(_) => {}
        Err(AllocError) => return Err(OpenFault::OutOfMemory),
    }
    match checked(places, task, first) {
        Ok(()) => {}
        Err(fault) => return Err(fault),
    }
    match out.take_last(alloc, places) {
        Ok(()) => Ok(()),
        Err(fault) => Err(fault),
    }
}
