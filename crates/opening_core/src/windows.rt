//! Opening in rounds: workers open or only check a window of a container. Meanwhile the caller's thread takes the
//! plaintext of the previous window and reads the next. Workers that don't run yet are started once the first window was
//! read, and last until the container's end.
//!
//! A full window is opened once one more byte was seen after it, so its last chunk isn't the last of all. A wrong
//! length comes before a chunk that doesn't check. So a container with such a chunk is read to its end, or to one byte
//! past the longest.
ghost use Rattle.std.specs.Prelude.{◌≡◌, ◌≢◌, ◌⊎◌, ℕ, ◌+◌, ◌-◌, ◌*◌, ◌<◌, ◌≤◌, true, false, List, [], length, min};
ghost use Rattle.std.specs.Prelude.{Option, None, Ok, Err, IfOk, IfErr, OnErr, IfSome};
ghost use Rattle.container_core.specs.Chunks.{container_limit};
ghost use Rattle.container_core.specs.Container.{size_in};
ghost use Rattle.container_core.specs.Faults.{IsOfBytes};
ghost use Rattle.container_core.specs.Opening.{longest};
ghost use Rattle.io_core.specs.Reads.{ConsumesUpTo};
ghost use Rattle.io_core.specs.Streams.{Appends, Consumes, IsAtEnd, counted};
ghost use Rattle.opening_core.specs.Engine.{HasHeader, HasReadContainer, OpensTo, open_read_failed};
ghost use Rattle.opening_core.specs.Engine.{open_write_failed};
ghost use Rattle.opening_core.specs.Fronts.{Answers, SaysLength};
ghost use Rattle.opening_core.specs.Workers.{AreWorkers};
ghost use Rattle.opening_core.specs.Windows.{HasBegun, HasSent, HasTaken, most_first, IsReady, MayTake};

use crate::context::OpeningContext;
use crate::front::{open_front, refuse};
use crate::rooms::Rooms;
use crate::rounds::{checked, open_full, open_last, sealed_bytes};
use crate::taking::Taking;
use crate::window::Window;
use crate::workers::{Workers, boxes_beside};
use claim_core::{Gate, MAX_WINDOW, usual_opening};
use container_core::laws::rounds_open;
use container_core::{Header, Key, MAX_OPENED, OpenFault, TAG, begin_within};
use io_core::Source;
use std::alloc::{AllocError, Global};
use std::thread::Threads;
use std::time::Clock;
use worker_core::{LetterBox, Task, with_workers};

// For how many chunks of a container's body room is made, where `bytes` bytes were read.
fn pieces_of(bytes: usize, header: &Header, window: u32) -> u32
    requires window { (0 < window) × (window ≤ MAX_WINDOW) }
    ensures some { 0 < result }
    ensures few { result ≤ window }
    ensures enough { min (window * (size_in header.now + TAG)) bytes ≤ result * (size_in header.now + TAG) }
{
    let most = bytes.min(sealed_bytes(window, header));
    (most.saturating_sub(1) / sealed_bytes(1, header) + 1) as u32
}

// Reads the first round of a container's body, at most `most` bytes, and makes the room for opening it in rounds of
// `window` chunks. Beyond the first window it is no more than a body of one round needs.
fn begin<R: Source>(
    alloc: Global,
    task: Task,
    header: &Header,
    reader: &mut R,
    most: usize,
    window: u32,
) -> Result<Rooms, OpenFault>
    requires window { (0 < window) × (window ≤ MAX_WINDOW) }
    ensures held { IfOk result (λ rooms. Consumes (R.left reader.old) (R.left reader.new) rooms.current.held) }
    ensures within { IfOk result (λ rooms. length rooms.current.held
        ≤ min most (window * (size_in header.now + TAG) + 1)) }
    ensures end { IfOk result (λ rooms. length rooms.current.held < min most (window * (size_in header.now + TAG) + 1)
        → IsAtEnd (R.left reader.new)) }
    ensures lost { OnErr result (ConsumesUpTo (R.left reader.old) (R.left reader.new) most) }
    ensures fault { IfErr result (λ fault. (fault ≡ OpenFault.OutOfMemory) ⊎ (fault ≡ OpenFault.Read)) }
    ensures count { R.failures reader.new ≡ counted (open_read_failed result) (R.failures reader.old) }
    ensures window { IfOk result (λ rooms. window * (size_in header.now + TAG) + 1 ≤ rooms.current.room) }
    ensures next { IfOk result (λ rooms. length rooms.current.held ≤ rooms.next.room) }
    ensures ready { IfOk result (λ rooms. IsReady task (size_in header.now)
        (min (window * (size_in header.now + TAG)) (length rooms.current.held)) rooms.crew rooms.places) }
    ensures places { IfOk result (λ rooms. rooms.places.values ≡ []) }
    ensures some { IfOk result (λ rooms. 0 < rooms.crew.room) }
{
    let room = sealed_bytes(window, header) + 1;
    let Ok(mut current) = Window::new(alloc, room) else {
        return Err(OpenFault::OutOfMemory);
    };
    if current.fill(reader, most.min(room)).is_err() {
        return Err(OpenFault::Read);
    }
    let pieces = pieces_of(current.held().len(), header, window);
    match Rooms::new(alloc, task, header.chunk(), current, pieces) {
        Ok(rooms) => Ok(rooms),
        Err(AllocError) => Err(OpenFault::OutOfMemory),
    }
}

// Opens a container's body, of which the first window was read, in rounds, and has its plaintext taken where it isn't
// only checked. Returns how many bytes the plaintext has. Clauses are of any input that began with that window.
fn open_begun<'a, R: Source, G: Gate, O: Taking>(
    alloc: Global,
    context: &OpeningContext<'_, 'a, G>,
    rooms: &mut Rooms,
    boxes: &[LetterBox<'a>],
    reader: &mut R,
    out: &mut O,
) -> Result<u64, OpenFault>
    requires front { SaysLength context.now.key.now context.now.header.now }
    requires limit { longest context.now.max_bytes context.now.header.now
        ≡ container_limit (length context.now.header.now) (size_in context.now.header.now) context.now.max_bytes }
    requires within { length rooms.old.current.held
        ≤ most_first context.now.max_bytes context.now.header.now context.now.window }
    requires end { length rooms.old.current.held
        < most_first context.now.max_bytes context.now.header.now context.now.window → IsAtEnd (R.left reader.old) }
    requires room { context.now.window * (size_in context.now.header.now + TAG) + 1 ≤ rooms.old.current.room }
    requires next { length rooms.old.current.held ≤ rooms.old.next.room }
    requires ready { IsReady context.now.task (size_in context.now.header.now)
        (min (context.now.window * (size_in context.now.header.now + TAG))
        (length rooms.old.current.held)) rooms.old.crew rooms.old.places }
    requires places { rooms.old.places.values ≡ [] }
    requires may { (left : Option (List ℕ)) × Consumes left (R.left reader.old) rooms.old.current.held
        × IfSome (O.bound out.old) (MayTake context.now.task context.now.key.now context.now.header.now
        context.now.max_bytes left (O.bytes out.old)) }
    ensures opened { (left : Option (List ℕ)) → Consumes left (R.left reader.old) rooms.old.current.held
        → IfOk result (λ n. (plain : List ℕ) × (n ≡ length plain)
        × Answers context.now.key.now context.now.header.now context.now.max_bytes left (R.left reader.new) (Ok plain)
        × (context.now.task ≡ Task.Opening → Appends (O.bytes out.old) (O.bytes out.new) plain)) }
    ensures begun { (left : Option (List ℕ)) → Consumes left (R.left reader.old) rooms.old.current.held
        → OnErr result (context.now.task ≡ Task.Opening
        → HasBegun context.now.key.now context.now.header.now context.now.max_bytes left (O.bytes out.old)
        (O.bytes out.new)) }
    ensures sent { (left : Option (List ℕ)) → Consumes left (R.left reader.old) rooms.old.current.held
        → OnErr result (context.now.task ≡ Task.Opening
        → HasSent context.now.key.now context.now.header.now [] left (O.bytes out.old) (O.bytes out.new)) }
    ensures refused { (left : Option (List ℕ)) → Consumes left (R.left reader.old) rooms.old.current.held
        → IfErr result (λ fault. IsOfBytes fault
        → Answers context.now.key.now context.now.header.now context.now.max_bytes left (R.left reader.new)
        (Err fault)) }
    ensures bound { (left : Option (List ℕ)) → Consumes left (R.left reader.old) rooms.old.current.held
        → ConsumesUpTo left (R.left reader.new)
        (longest context.now.max_bytes context.now.header.now + 1 - length context.now.header.now) }
    ensures no_write { result ≡ Err OpenFault.Write → O.writes ≡ true }
    ensures count { R.failures reader.new ≡ counted (open_read_failed result) (R.failures reader.old) }
    ensures writes { O.failures out.new ≡ counted (open_write_failed result) (O.failures out.old) }
{
    // Consecutive rounds open as the whole does.
    rounds_open();
    let OpeningContext {
        task,
        key,
        header,
        max_bytes,
        window,
        gate: _,
    } = *context;
    let image = header.bytes();
    let limit = header.longest_bytes(max_bytes) as usize + 1;
    let size = sealed_bytes(window, header);
    let mut total = image.len() + rooms.current.held().len();
    let mut first = 0;
    'rounds: while total < limit && rooms.current.held().len() > size {
        let upto = (limit - total).min(size) + 1;
        match open_full(alloc, context, first, rooms, boxes, reader, out, upto) {
            Ok(()) => {}
            Err(fault) => return Err(fault),
        }
        total += rooms.current.held().len() - 1;
        match checked(&rooms.places, task, first) {
            Ok(()) => {}
            Err(fault) => return Err(refuse(key, image, reader, total, limit, max_bytes, fault)),
        }
        first += window;
    }
    let cut = match begin_within(key, image, total as u64, max_bytes) {
        Ok((_, cut)) => cut,
        Err(fault) => return Err(fault),
    };
    match open_last(alloc, context, first, rooms, boxes, out) {
        Ok(()) => Ok(cut.plain()),
        Err(fault) => Err(fault),
    }
}

// Opens a container's body in rounds, and has its plaintext taken where it isn't only checked. Returns how many bytes
// the plaintext has.
pub(crate) fn open_body<'b, 'a, T: Threads + Clock + Sync, R: Source, G: Gate + Sync, O: Taking>(
    rt: &T,
    alloc: Global,
    context: &OpeningContext<'_, 'a, G>,
    reader: &mut R,
    workers: Workers<'b, 'a>,
    out: &mut O,
) -> Result<u64, OpenFault>
    requires front { SaysLength context.now.key.now context.now.header.now }
    requires limit { longest context.now.max_bytes context.now.header.now
        ≡ container_limit (length context.now.header.now) (size_in context.now.header.now) context.now.max_bytes }
    requires workers { AreWorkers workers }
    requires may { IfSome (O.bound out.old)
        (MayTake context.now.task context.now.key.now context.now.header.now context.now.max_bytes (R.left reader.old)
        (O.bytes out.old)) }
    ensures opened { IfOk result (λ n. (plain : List ℕ) × (n ≡ length plain)
        × Answers context.now.key.now context.now.header.now context.now.max_bytes (R.left reader.old)
        (R.left reader.new) (Ok plain)
        × (context.now.task ≡ Task.Opening → Appends (O.bytes out.old) (O.bytes out.new) plain)) }
    ensures begun { OnErr result (context.now.task ≡ Task.Opening
        → HasBegun context.now.key.now context.now.header.now context.now.max_bytes (R.left reader.old)
        (O.bytes out.old) (O.bytes out.new)) }
    ensures sent { OnErr result (context.now.task ≡ Task.Opening
        → HasSent context.now.key.now context.now.header.now [] (R.left reader.old) (O.bytes out.old)
        (O.bytes out.new)) }
    ensures refused { IfErr result (λ fault. IsOfBytes fault
        → Answers context.now.key.now context.now.header.now context.now.max_bytes (R.left reader.old)
        (R.left reader.new) (Err fault)) }
    ensures bound { ConsumesUpTo (R.left reader.old) (R.left reader.new)
        (longest context.now.max_bytes context.now.header.now + 1 - length context.now.header.now) }
    ensures no_write { result ≡ Err OpenFault.Write → O.writes ≡ true }
    ensures count { R.failures reader.new ≡ counted (open_read_failed result) (R.failures reader.old) }
    ensures writes { O.failures out.new ≡ counted (open_write_failed result) (O.failures out.old) }
{
    let header = context.header;
    let image = header.bytes();
    let most = header.longest_bytes(context.max_bytes) as usize + 1 - image.len();
    let mut rooms = match begin(alloc, context.task, header, reader, most, context.window) {
        Ok(rooms) => rooms,
        Err(fault) => return Err(fault),
    };
    let count = match workers {
        Workers::ToStart(count) => count,
        Workers::Running(boxes) => {
            return open_begun(alloc, context, &mut rooms, boxes, reader, out);
        }
    };
    // More workers than a round has pieces would have nothing to do.
    let boxes = boxes_beside(alloc, count.min(rooms.crew.room()));
    let boxes = boxes.as_slice();
    let kept = &mut rooms;
    let mut chore = || -> Result<u64, OpenFault>
        requires front { SaysLength context.now.key.now context.now.header.now }
        requires limit { longest context.now.max_bytes context.now.header.now
            ≡ container_limit (length context.now.header.now) (size_in context.now.header.now) context.now.max_bytes }
        requires within { length kept.now.current.held
            ≤ most_first context.now.max_bytes context.now.header.now context.now.window }
        requires end { length kept.now.current.held
            < most_first context.now.max_bytes context.now.header.now context.now.window
            → IsAtEnd (R.left reader.now) }
        requires room { context.now.window * (size_in context.now.header.now + TAG) + 1 ≤ kept.now.current.room }
        requires next { length kept.now.current.held ≤ kept.now.next.room }
        requires ready { IsReady context.now.task (size_in context.now.header.now)
            (min (context.now.window * (size_in context.now.header.now + TAG))
            (length kept.now.current.held)) kept.now.crew kept.now.places }
        requires places { kept.now.places.values ≡ [] }
        requires may { (left : Option (List ℕ)) × Consumes left (R.left reader.now) kept.now.current.held
            × IfSome (O.bound out.now) (MayTake context.now.task context.now.key.now context.now.header.now
            context.now.max_bytes left (O.bytes out.now)) }
        ensures opened { (left : Option (List ℕ)) → Consumes left (R.left reader.entry.now) kept.entry.now.current.held
            → IfOk result (λ n. (plain : List ℕ) × (n ≡ length plain)
            × Answers context.entry.now.key.now context.entry.now.header.now context.entry.now.max_bytes left
            (R.left reader.exit.now) (Ok plain)
            × (context.entry.now.task ≡ Task.Opening → Appends (O.bytes out.entry.now) (O.bytes out.exit.now) plain)) }
        ensures begun { (left : Option (List ℕ)) → Consumes left (R.left reader.entry.now) kept.entry.now.current.held
            → OnErr result (context.entry.now.task ≡ Task.Opening
            → HasBegun context.entry.now.key.now context.entry.now.header.now context.entry.now.max_bytes left
            (O.bytes out.entry.now) (O.bytes out.exit.now)) }
        ensures sent { (left : Option (List ℕ)) → Consumes left (R.left reader.entry.now) kept.entry.now.current.held
            → OnErr result (context.entry.now.task ≡ Task.Opening
            → HasSent context.entry.now.key.now context.entry.now.header.now [] left
            (O.bytes out.entry.now) (O.bytes out.exit.now)) }
        ensures refused { (left : Option (List ℕ)) → Consumes left (R.left reader.entry.now) kept.entry.now.current.held
            → IfErr result (λ fault. IsOfBytes fault
            → Answers context.entry.now.key.now context.entry.now.header.now context.entry.now.max_bytes left
            (R.left reader.exit.now) (Err fault)) }
        ensures bound { (left : Option (List ℕ)) → Consumes left (R.left reader.entry.now) kept.entry.now.current.held
            → ConsumesUpTo left (R.left reader.exit.now)
            (longest context.entry.now.max_bytes context.entry.now.header.now + 1
            - length context.entry.now.header.now) }
        ensures no_write { result ≡ Err OpenFault.Write → O.writes ≡ true }
        ensures count { R.failures reader.exit.now ≡ counted (open_read_failed result) (R.failures reader.entry.now) }
        ensures writes { O.failures out.exit.now ≡ counted (open_write_failed result) (O.failures out.entry.now) }
    { open_begun(alloc, context, kept, boxes, reader, out) };
    with_workers(rt, alloc, boxes, context.gate, &mut chore)
}

/// Opens all that the reader has left, in rounds of `window` chunks, or of `usual_opening` where
/// `window` is `None`. Has its plaintext taken where the task is `Opening`. Returns the header and how many bytes the
/// plaintext has, or the first fault of the container. At a failure some of the plaintext was taken. Of an input that
/// is too long one byte past the longest container is read.
pub(crate) fn open_rounds<'b, 'a, T: Threads + Clock + Sync, R: Source, G: Gate + Sync, O: Taking>(
    rt: &T,
    alloc: Global,
    task: Task,
    key: &'a Key,
    reader: &mut R,
    max_bytes: u64,
    workers: Workers<'b, 'a>,
    window: Option<u32>,
    out: &mut O,
    gate: &G,
) -> Result<(Header, u64), OpenFault>
    requires task { task ≢ Task.Sealing }
    requires max_bytes { max_bytes ≤ MAX_OPENED }
    requires workers { AreWorkers workers }
    requires window { IfSome window (λ chunks. (0 < chunks) × (chunks ≤ MAX_WINDOW)) }
    requires unbounded { O.bound out.old ≡ None }
    requires kept { O.writes ≡ false }
    ensures header { IfOk result (λ opened. IfSome (R.left reader.old) (HasHeader opened.0)) }
    ensures length { IfOk result (λ opened. IfSome (R.left reader.old) (λ input.
        OpensTo key.now max_bytes input opened.1)) }
    ensures taken { IfOk result (λ opened. task ≡ Task.Opening
        → HasTaken key.now max_bytes (R.left reader.old) (O.bytes out.old) (O.bytes out.new) opened.1) }
    ensures no_write { result ≢ Err OpenFault.Write }
    ensures reads { HasReadContainer key.now max_bytes (R.left reader.old) (R.left reader.new)
        (R.failures reader.old) (R.failures reader.new) result }
{
    match open_front(key, reader, max_bytes) {
        Ok(header) => {
            let window = window.unwrap_or(usual_opening(header.chunk(), workers.count()));
            let context = OpeningContext {
                task,
                key,
                header: &header,
                max_bytes,
                window,
                gate,
            };
            match open_body(rt, alloc, &context, reader, workers, out) {
                Ok(bytes) => Ok((header, bytes)),
                Err(fault) => Err(fault),
            }
        }
        Err(fault) => Err(fault),
    }
}
