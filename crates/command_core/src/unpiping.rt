//! Opening one file to a stream: `unpipe`.
ghost use Rattle.std.specs.Prelude.{◌≡◌, ◌<◌, ◌≤◌, [], ◌∷◌, length, Option, Some, IfSome, option_map};
ghost use Rattle.io_core.specs.Streams.{counted};
ghost use Rattle.opening_core.specs.Workers.{AreWorkers};
ghost use Rattle.folder_core.specs.Record.{Read, RunRecord};
ghost use Rattle.folder_core.specs.Changes.{HasStreamAlone, IsFresh, IsNewStream, TellsBytes};
ghost use Rattle.command_core.specs.Files.{IsOpenFile};
ghost use Rattle.command_core.specs.Unpiping.{HasUnpiped, HasUnpipedRead, outputs_view};
ghost use Rattle.command_core.specs.Work.{AreTold, reading_failed};

use crate::commands::{MAX_OPENED_BYTES, fault_again, tell};
use crate::context::UnpipeContext;
use crate::line::{FileFault, FileOutcome};
use crate::putting::fill_again;
use crate::reading::{check_labelled, room_to_start, workers_for, workers_from};
use crate::report::Report;
use claim_core::{Free, MAX_WORKERS};
use container_core::Key;
use folder_core::OpeningFolder;
use io_core::Failed;
use opening_core::{Workers, boxes_beside};
use std::alloc::Global;
use std::thread::Threads;
use std::time::Clock;
use worker_core::with_workers;

/// What `unpipe_all` works on.
#[derive(Clone, Copy, Debug)]
pub struct UnpipeOptions<'a> {
    /// The number of workers: 1 to 16.
    pub workers: u32,
    /// The greatest number of plaintext bytes: at most 2^52 - 2^20.
    pub max_bytes: u64,
    /// The label that the container must have, if one is asked for. Version 1 has none, which is not the empty label.
    pub label: Option<&'a [u8]>,
}

// Checks the whole container of a file that is read. Only then takes the stream in hand, and writes the plaintext to it
// by reading the file again.
fn unpipe_read<'b, 'a, T: Threads + Clock + Sync, F: OpeningFolder>(
    rt: &T,
    context: &UnpipeContext<'_, 'a>,
    folder: &mut F,
    reader: &mut F::Reader,
    name: &str,
    output: F::Handle,
    workers: Workers<'b, 'a>,
) -> FileOutcome
    requires workers { AreWorkers workers }
    requires open { IsOpenFile name.now (F.Reader.left reader.old) (F.Reader.failures reader.old) (F.rest folder.old) }
    requires new { IfSome (F.rest folder.old) (IsNewStream (F.Handle.at output)) }
    requires fresh { IsFresh (F.rest folder.old) (F.taken folder.old) (F.failures folder.old) }
    ensures alone { IfSome (F.rest folder.new) HasStreamAlone }
    ensures run { (before : Option RunRecord)
        → TellsBytes (Read name.now) (F.Reader.left reader.old) before (F.rest folder.old)
        → HasUnpipedRead context.now.key.now context.now.options.now.max_bytes
        (option_map (λ b. b.now) context.now.options.now.label)
        name.now (F.Handle.at output) (outputs_view before (F.taken folder.old) (F.failures folder.old))
        (outputs_view (F.rest folder.new) (F.taken folder.new) (F.failures folder.new)) result }
    ensures read { IfSome (F.rest folder.new) (λ _. F.Reader.failures reader.new
        ≡ counted (reading_failed result) (F.Reader.failures reader.old)) }
{
    let UnpipeContext {
        alloc,
        key,
        options,
    } = *context;
    let most = options.max_bytes;
    let header = match check_labelled(rt, alloc, key, reader, most, workers, options.label) {
        Ok((header, _)) => header,
        Err(fault) => return FileOutcome::Failed(fault),
    };
    match folder.again(name, reader) {
        Ok(()) => {}
        Err(Failed) => return FileOutcome::Failed(FileFault::SpoolFailed),
    }
    folder.allow_checked(output, key, &header, reader);
    match fill_again(rt, alloc, key, folder, &header, reader, most, workers) {
        Ok(n) => FileOutcome::Opened(n),
        Err(stopped) => FileOutcome::Failed(fault_again(stopped)),
    }
}

// Unpipes what is read of a file, with workers that last for both readings; alone where there is no room to start them.
// Where the file's length isn't known each reading starts its own, as nothing may come of it for long.
fn unpipe_beside<'a, T: Threads + Clock + Sync, F: OpeningFolder>(
    rt: &T,
    context: &UnpipeContext<'_, 'a>,
    folder: &mut F,
    reader: &mut F::Reader,
    name: &str,
    output: F::Handle,
) -> FileOutcome
    requires open { IsOpenFile name.now (F.Reader.left reader.old) (F.Reader.failures reader.old) (F.rest folder.old) }
    requires new { IfSome (F.rest folder.old) (IsNewStream (F.Handle.at output)) }
    requires fresh { IsFresh (F.rest folder.old) (F.taken folder.old) (F.failures folder.old) }
    ensures alone { IfSome (F.rest folder.new) HasStreamAlone }
    ensures run { (before : Option RunRecord)
        → TellsBytes (Read name.now) (F.Reader.left reader.old) before (F.rest folder.old)
        → HasUnpipedRead context.now.key.now context.now.options.now.max_bytes
        (option_map (λ b. b.now) context.now.options.now.label)
        name.now (F.Handle.at output) (outputs_view before (F.taken folder.old) (F.failures folder.old))
        (outputs_view (F.rest folder.new) (F.taken folder.new) (F.failures folder.new)) result }
    ensures read { IfSome (F.rest folder.new) (λ _. F.Reader.failures reader.new
        ≡ counted (reading_failed result) (F.Reader.failures reader.old)) }
{
    let alloc = context.alloc;
    let bytes = folder.length(reader);
    let count = workers_from(bytes, context.options.workers, true);
    if count == 1 {
        let workers = Workers::ToStart(workers_for(bytes, context.options.workers));
        return unpipe_read(rt, context, folder, reader, name, output, workers);
    }
    let Some(reserve) = room_to_start(alloc, count) else {
        let workers = Workers::ToStart(1);
        return unpipe_read(rt, context, folder, reader, name, output, workers);
    };
    let mut reserve = Some(reserve);
    let boxes = boxes_beside(alloc, count);
    let boxes = boxes.as_slice();
    let mut kept = Some(output);
    let mut chore = || -> FileOutcome
        requires workers { length boxes.now < MAX_WORKERS }
        requires open { IsOpenFile name.now (F.Reader.left reader.now) (F.Reader.failures reader.now) (F.rest folder.now) }
        requires new { (output : F.Handle) × (kept ≡ Some output)
            × IfSome (F.rest folder.now) (IsNewStream (F.Handle.at output)) }
        requires fresh { IsFresh (F.rest folder.now) (F.taken folder.now) (F.failures folder.now) }
        ensures alone { IfSome (F.rest folder.exit.now) HasStreamAlone }
        ensures run { (output : F.Handle) (before : Option RunRecord) → kept.entry ≡ Some output
            → TellsBytes (Read name.entry.now) (F.Reader.left reader.entry.now) before (F.rest folder.entry.now)
            → HasUnpipedRead context.entry.now.key.now context.entry.now.options.now.max_bytes
            (option_map (λ b. b.now) context.entry.now.options.now.label) name.entry.now (F.Handle.at output)
            (outputs_view before (F.taken folder.entry.now) (F.failures folder.entry.now))
            (outputs_view (F.rest folder.exit.now) (F.taken folder.exit.now) (F.failures folder.exit.now)) result }
        ensures read { IfSome (F.rest folder.exit.now) (λ _. F.Reader.failures reader.exit.now
            ≡ counted (reading_failed result) (F.Reader.failures reader.entry.now)) }
    {
        let Some(output) = kept.take() else {
            unreachable!();
        };
        reserve = None;
        let workers = Workers::Running(boxes);
        unpipe_read(rt, context, folder, reader, name, output, workers)
    };
    with_workers(rt, alloc, boxes, &Free, &mut chore)
}

// Opens a file, and unpipes what is read of it. At last the file is closed.
fn unpipe<T: Threads + Clock + Sync, F: OpeningFolder>(
    rt: &T,
    alloc: Global,
    key: &Key,
    options: &UnpipeOptions,
    folder: &mut F,
    name: &str,
    output: F::Handle,
) -> FileOutcome
    requires workers { (0 < options.now.workers) × (options.now.workers ≤ MAX_WORKERS) }
    requires max_bytes { options.now.max_bytes ≤ MAX_OPENED_BYTES }
    requires new { IfSome (F.rest folder.old) (IsNewStream (F.Handle.at output)) }
    requires fresh { IsFresh (F.rest folder.old) (F.taken folder.old) (F.failures folder.old) }
    ensures { HasUnpiped key.now options.now.max_bytes (option_map (λ b. b.now) options.now.label) name.now
        (F.Handle.at output) (outputs_view (F.rest folder.old) (F.taken folder.old) (F.failures folder.old))
        (outputs_view (F.rest folder.new) (F.taken folder.new) (F.failures folder.new)) result }
{
    let Ok(mut reader) = folder.open(name) else {
        return FileOutcome::Failed(FileFault::CannotOpen);
    };
    let context = UnpipeContext {
        alloc,
        key,
        options,
    };
    let outcome = unpipe_beside(rt, &context, folder, &mut reader, name, output);
    folder.close(name, reader);
    outcome
}

/// Opens the container in a file of a folder, to its end, and writes the plaintext to a stream of that folder, which is
/// new (`ToStream` makes such a folder of any folder and a `Stream`). The file is read twice. The first reading checks
/// every chunk and the label. Only then the second writes, each chunk once it was checked again. The line, `opened NAME
/// bytes N` or `failed NAME: FAULT`, is printed to `lines`. Returns the exit status: 0 if the file was opened, 1 if that
/// failed, 2 if the line couldn't be written.
///
/// At a fault of the bytes nothing was written. If memory, a read or a write failed after the whole check, or if the
/// second reading gave other bytes (`changed while it was opened`), what was written had passed the check again. The
/// stream stays in hand. Where nothing is read again `output` is unused: in the record it stays new and open.
pub fn unpipe_all<T: Threads + Clock + Sync, F: OpeningFolder, E: Report>(
    rt: &T,
    alloc: Global,
    key: &Key,
    folder: &mut F,
    name: &str,
    output: F::Handle,
    options: &UnpipeOptions,
    lines: &mut E,
) -> u8
    requires workers { (0 < options.now.workers) × (options.now.workers ≤ MAX_WORKERS) }
    requires max_bytes { options.now.max_bytes ≤ MAX_OPENED_BYTES }
    // Where the record is known, the output is a new stream that took nothing.
    requires new { IfSome (F.rest folder.old) (IsNewStream (F.Handle.at output)) }
    requires fresh { IsFresh (F.rest folder.old) (F.taken folder.old) (F.failures folder.old) }
    ensures status { result ≤ 2 }
    ensures run { (outcome : FileOutcome)
        × HasUnpiped key.now options.now.max_bytes (option_map (λ b. b.now) options.now.label) name.now
        (F.Handle.at output) (outputs_view (F.rest folder.old) (F.taken folder.old) (F.failures folder.old))
        (outputs_view (F.rest folder.new) (F.taken folder.new) (F.failures folder.new)) outcome
        × AreTold result (record { name = name.now; outcome = outcome } ∷ [])
        (E.taken lines.old) (E.taken lines.new) (E.failures lines.old) (E.failures lines.new) }
{
    let outcome = unpipe(rt, alloc, key, options, folder, name, output);
    tell(alloc, lines, 0, name, outcome)
}
