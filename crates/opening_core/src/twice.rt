//! Opening what can be read twice, in the memory of a verification. The first reading checks every chunk. The second
//! checks each again before it writes it.
//!
//! The header ties the second reading to the first: it has a device and a number, and a number is sealed once. So
//! another container of the key is refused before a byte is written, and a chunk that was changed before that chunk is
//! written.
ghost use Rattle.std.specs.Prelude.{◌≡◌, ℕ, ◌<◌, ◌≤◌, List, [], length, Option, None, Ok, Err};
ghost use Rattle.std.specs.Prelude.{IfOk, IfErr, IfSome, OnErr, OnOk, false, true};
ghost use Rattle.container_core.specs.Chunks.{container_limit};
ghost use Rattle.container_core.specs.Container.{size_in};
ghost use Rattle.container_core.specs.Faults.{IsOfBytes};
ghost use Rattle.container_core.specs.Opening.{longest};
ghost use Rattle.io_core.specs.Streams.{Appends, Keeps, counted};
ghost use Rattle.io_core.specs.Views.{io_view};
ghost use Rattle.opening_core.specs.Engine.{open_read_failed, open_write_failed};
ghost use Rattle.opening_core.specs.Fronts.{Answers, SaysLength};
ghost use Rattle.opening_core.specs.Workers.{AreWorkers};
ghost use Rattle.opening_core.specs.Twice.{CountsOn, HasOpenedTwice, HasWrittenAgain, MayWrite, MayWriteIt};
ghost use Rattle.opening_core.specs.Twice.{broken_by_read, broken_by_write};
ghost use Rattle.opening_core.specs.Windows.{HasBegun, HasSent, MayTake};

use crate::context::OpeningContext;
use crate::front::open_front;
use crate::pouring::Pouring;
use crate::run::run_check;
use crate::windows::open_body;
use crate::workers::Workers;
use claim_core::{Gate, MAX_WORKERS, usual_opening};
use container_core::{Header, Key, MAX_OPENED, OpenFault};
use io_core::{Failed, Source};
use output_core::Output;
use std::alloc::Global;
use std::thread::Threads;
use std::time::Clock;
use worker_core::Task;

/// Why an opening by two readings stopped.
#[derive(Clone, Copy, PartialEq, Eq, Debug)]
pub enum Stopped {
    /// Nothing was written.
    Refused(OpenFault),
    /// The second reading gave other bytes than the first. All that was written had passed the check again.
    Changed,
    /// Memory was refused or a call failed, after the whole check. All that was written, perhaps nothing, had passed the
    /// check again.
    Broken(OpenFault),
}

/// What can be read more than once from its first byte, one reading after the other.
pub trait Readings {
    /// What reads it once.
    type Reading: Source + Drop;

    // The bytes that each reading gives, where they are known. The implementor proves that all give the same.
    ghost bytes: { Self → Option (List ℕ) } = { λ _. None };

    // How many calls failed so far, in all readings that ended and at their beginnings, if known. While a reading goes
    // on, that one has the count.
    ghost failures: { Self → Option ℕ } = { λ _. None };

    /// Begins a reading. Its count of failed calls goes on from that of the readings before. A reading that can't be begun
    /// counts as a failed call.
    fn begin(&mut self) -> Result<Self::Reading, Failed>
        ensures left { IfOk result (λ reading. Keeps (bytes self.old) (Self.Reading.left reading)) }
        ensures same { Keeps (bytes self.old) (bytes self.new) }
        ensures begun { IfOk result (λ reading. CountsOn false (failures self.old) (Self.Reading.failures reading)) }
        ensures open { OnOk result (failures self.new ≡ None) }
        ensures refused { OnErr result (CountsOn true (failures self.old) (failures self.new)) };

    /// Ends a reading, and so knows how many of its calls failed.
    fn end(&mut self, reading: Self::Reading)
        ensures same { Keeps (bytes self.old) (bytes self.new) }
        ensures count { failures self.new ≡ Self.Reading.failures reading };
}

// What a fault of the second reading is returned as.
fn stop_at(fault: OpenFault) -> Stopped
    ensures changed { result ≡ Stopped.Changed → IsOfBytes fault }
    ensures broken { (f : OpenFault) → result ≡ Stopped.Broken f → IsOfBytes f → ⊥ }
    ensures checked_before { (f : OpenFault) → result ≡ Stopped.Refused f → ⊥ }
    ensures read { broken_by_read (Err result) ≡ open_read_failed {A = ℕ} (Err fault) }
    ensures write { broken_by_write (Err result) ≡ open_write_failed {A = ℕ} (Err fault) }
{
    match fault {
        OpenFault::OutOfMemory | OpenFault::Read | OpenFault::Write => Stopped::Broken(fault),
        _ => Stopped::Changed,
    }
}

// Writes the plaintext of a container's body, each round while the next is checked. Returns the writer too.
fn write_body<'b, 'a, T: Threads + Clock + Sync, R: Source, W: Output + Drop, G: Gate + Sync>(
    rt: &T,
    alloc: Global,
    key: &'a Key,
    header: &Header,
    reader: &mut R,
    writer: W,
    max_bytes: u64,
    workers: Workers<'b, 'a>,
    gate: &G,
) -> (Result<u64, OpenFault>, W)
    requires front { SaysLength key.now header.now }
    requires limit { longest max_bytes header.now
        ≡ container_limit (length header.now) (size_in header.now) max_bytes }
    requires max_bytes { max_bytes ≤ MAX_OPENED }
    requires workers { AreWorkers workers }
    requires may { IfSome (W.bound writer)
        (MayTake Task.Opening key.now header.now max_bytes (R.left reader.old) (W.taken writer)) }
    ensures written { IfOk result.0 (λ n. (plain : List ℕ) × (n ≡ length plain)
        × Answers key.now header.now max_bytes (R.left reader.old) (R.left reader.new) (Ok plain)
        × Appends (W.taken writer) (W.taken result.1) plain) }
    ensures begun { OnErr result.0 (HasBegun key.now header.now max_bytes (R.left reader.old)
        (W.taken writer) (W.taken result.1)) }
    ensures sent { OnErr result.0 (HasSent key.now header.now [] (R.left reader.old)
        (W.taken writer) (W.taken result.1)) }
    ensures refused { IfErr result.0 (λ fault. IsOfBytes fault
        → Answers key.now header.now max_bytes (R.left reader.old) (R.left reader.new) (Err fault)) }
    ensures read { R.failures reader.new ≡ counted (open_read_failed result.0) (R.failures reader.old) }
    ensures write { W.failures result.1 ≡ counted (open_write_failed result.0) (W.failures writer) }
{
    let mut out = Pouring { sink: writer };
    let window = usual_opening(header.chunk(), workers.count());
    let context = OpeningContext {
        task: Task::Opening,
        key,
        header,
        max_bytes,
        window,
        gate,
    };
    let done = open_body(rt, alloc, &context, reader, workers, &mut out);
    let Pouring { sink } = out;
    (done, sink)
}

/// Reads once more a container with this header, which was checked before, with workers that may run already. Writes its
/// plaintext, each chunk once it was checked again. This holds whatever the reading gives. At `Ok` it is a container with
/// this header, and its whole plaintext was written. Else what was written is chunks that had passed the check, from the
/// first on; of a container with another header it is nothing. Returns the writer too.
pub fn write_again<'b, 'a, T: Threads + Clock + Sync, R: Source, W: Output + Drop, G: Gate + Sync>(
    rt: &T,
    alloc: Global,
    key: &'a Key,
    header: &Header,
    reader: &mut R,
    writer: W,
    max_bytes: u64,
    workers: Workers<'b, 'a>,
    gate: &G,
) -> (Result<u64, Stopped>, W)
    requires max_bytes { max_bytes ≤ MAX_OPENED }
    requires workers { AreWorkers workers }
    requires may { IfSome (W.bound writer)
        (MayWrite key.now header.now max_bytes (R.left reader.old) (W.taken writer)) }
    ensures { HasWrittenAgain key.now header.now max_bytes
        (io_view (R.left reader.old) (R.failures reader.old) (W.taken writer) (W.failures writer))
        (io_view (R.left reader.new) (R.failures reader.new) (W.taken result.1) (W.failures result.1)) result.0 }
{
    let again = match open_front(key, reader, max_bytes) {
        Ok(again) => again,
        Err(fault) => return (Err(stop_at(fault)), writer),
    };
    if again.bytes() != header.bytes() {
        return (Err(Stopped::Changed), writer);
    }
    match write_body(
        rt, alloc, key, &again, reader, writer, max_bytes, workers, gate,
    ) {
        (Ok(n), writer) => (Ok(n), writer),
        (Err(fault), writer) => (Err(stop_at(fault)), writer),
    }
}

/// Opens what can be read twice, with 1 to 16 workers, in the memory of a verification. The first reading checks every
/// chunk. Only then the second writes the plaintext, of at most `max_bytes` bytes, chunk by chunk. Returns the
/// plaintext's length and the writer. At `Refused` nothing was written. At `Broken` the bytes are a container, memory
/// was refused or a call failed, and a prefix of the plaintext was written. `Changed` comes only where the two readings
/// differ.
pub fn run_open_twice<T: Threads + Clock + Sync, S: Readings, W: Output + Drop, G: Gate + Sync>(
    rt: &T,
    alloc: Global,
    key: &Key,
    source: &mut S,
    writer: W,
    max_bytes: u64,
    workers: u32,
    gate: &G,
) -> (Result<u64, Stopped>, W)
    requires max_bytes { max_bytes ≤ MAX_OPENED }
    requires workers { (0 < workers) × (workers ≤ MAX_WORKERS) }
    requires may { IfSome (W.bound writer) (MayWriteIt key.now max_bytes (S.bytes source.old) (W.taken writer)) }
    ensures { HasOpenedTwice key.now max_bytes
        (io_view (S.bytes source.old) (S.failures source.old) (W.taken writer) (W.failures writer))
        (io_view (S.bytes source.new) (S.failures source.new) (W.taken result.1) (W.failures result.1)) result.0 }
{
    let Ok(mut first) = source.begin() else {
        return (Err(Stopped::Refused(OpenFault::Read)), writer);
    };
    let checked = run_check(rt, alloc, key, &mut first, max_bytes, workers, gate);
    source.end(first);
    let header = match checked {
        Ok((header, _)) => header,
        Err(fault) => return (Err(Stopped::Refused(fault)), writer),
    };
    let Ok(mut second) = source.begin() else {
        return (Err(Stopped::Refused(OpenFault::Read)), writer);
    };
    let (done, writer) = write_again(
        rt,
        alloc,
        key,
        &header,
        &mut second,
        writer,
        max_bytes,
        Workers::ToStart(workers),
        gate,
    );
    source.end(second);
    (done, writer)
}
