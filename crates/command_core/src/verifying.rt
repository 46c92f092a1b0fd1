//! Verifying: each file in turn, with its line on standard output. No file is created. Workers are started, and last,
//! as in `opening`.
ghost use Rattle.std.specs.Prelude.{◌≡◌, ◌+◌, ◌<◌, ◌≤◌, length, map, take, Option, Some, option_map};
ghost use Rattle.opening_core.specs.Workers.{AreWorkers};
ghost use Rattle.folder_core.specs.Record.{Read, RunRecord};
ghost use Rattle.folder_core.specs.Changes.{IsIdle, TellsBytes};
ghost use Rattle.folder_core.specs.Growth.{Grows};
ghost use Rattle.command_core.specs.Files.{AddsVerified, HaveAdded, HaveVerified, IsOpenFile};
ghost use Rattle.command_core.specs.Turns.{IsFileAt, Printed, printed};
ghost use Rattle.command_core.specs.Work.{IsOfVerifying, asked_label};

use crate::commands::{MAX_OPENED_BYTES, OpenOptions, Outs, tell};
use crate::context::FilesContext;
use crate::facts::Facts;
use crate::line::{FileFault, FileOutcome};
use crate::reading::{check_labelled, room_to_start, workers_for, workers_from};
use crate::report::Report;
use claim_core::{Free, MAX_WORKERS};
use container_core::Key;
use folder_core::Folder;
use opening_core::{Workers, boxes_beside};
use std::alloc::Global;
use std::thread::Threads;
use std::time::Clock;
use worker_core::with_workers;

// Checks the whole container of a file that was opened for reading, and closes it.
fn verify_opened<'b, 'a, T: Threads + Clock + Sync, F: Folder>(
    rt: &T,
    context: &FilesContext<'_, 'a>,
    folder: &mut F,
    reader: F::Reader,
    name: &str,
    workers: Workers<'b, 'a>,
) -> FileOutcome
    requires workers { AreWorkers workers }
    requires open { IsOpenFile name.now (F.Reader.left reader) (F.Reader.failures reader) (F.rest folder.old) }
    ensures fits { IsOfVerifying context.now.options.now.show result }
    ensures adds { (before : Option RunRecord)
        → TellsBytes (Read name.now) (F.Reader.left reader) before (F.rest folder.old)
        → Grows (AddsVerified context.now.key.now context.now.options.now.max_bytes
        (asked_label context.now.options.now) name.now result) before (F.rest folder.new) }
{
    let FilesContext {
        alloc,
        key,
        options,
    } = *context;
    let mut reader = reader;
    let most = options.max_bytes;
    let checked = check_labelled(rt, alloc, key, &mut reader, most, workers, options.label);
    folder.close(name, reader);
    match checked {
        Ok((header, bytes)) if options.show => FileOutcome::Shown {
            bytes,
            facts: Facts::of(&header),
        },
        Ok((_, bytes)) => FileOutcome::Good(bytes),
        Err(fault) => FileOutcome::Failed(fault),
    }
}

// Verifies one file, with these workers.
fn verify_file<'b, 'a, T: Threads + Clock + Sync, F: Folder>(
    rt: &T,
    context: &FilesContext<'_, 'a>,
    folder: &mut F,
    name: &str,
    workers: Workers<'b, 'a>,
) -> FileOutcome
    requires workers { AreWorkers workers }
    requires idle { IsIdle (F.rest folder.old) }
    ensures fits { IsOfVerifying context.now.options.now.show result }
    ensures adds { Grows (AddsVerified context.now.key.now context.now.options.now.max_bytes
        (asked_label context.now.options.now) name.now result) (F.rest folder.old) (F.rest folder.new) }
{
    match folder.open(name) {
        Ok(reader) => {
            let most = workers_for(folder.length(&reader), workers.count());
            verify_opened(rt, context, folder, reader, name, workers.at_most(most))
        }
        Err(_) => FileOutcome::Failed(FileFault::CannotOpen),
    }
}

// Verifies the files from number `next` on, with these workers. Returns the status.
fn verify_rest<'b, 'a, T: Threads + Clock + Sync, F: Folder, L: Report>(
    rt: &T,
    context: &FilesContext<'_, 'a>,
    folder: &mut F,
    workers: Workers<'b, 'a>,
    lines: &mut L,
    next: usize,
    status: u8,
) -> u8
    requires workers { AreWorkers workers }
    requires next { next ≤ length context.now.options.now.files.now }
    requires idle { IsIdle (F.rest folder.old) }
    ensures { (old : Printed) (before : Option RunRecord)
        → HaveVerified context.now.key.now context.now.options.now next status old
        (printed (L.taken lines.old) (L.failures lines.old)) before (F.rest folder.old)
        → HaveVerified context.now.key.now context.now.options.now (length context.now.options.now.files.now) result old
        (printed (L.taken lines.new) (L.failures lines.new)) before (F.rest folder.new) }
{
    let files = context.options.files;
    let mut status = status;
    'files: for number in next..files.len() {
        let name = files[number];
        let outcome = verify_file(rt, context, folder, name, workers);
        status = tell(context.alloc, lines, status, name, outcome);
    }
    status
}

// Verifies the file of this number, which this reader has open, and then those after it, with these workers. Returns
// the status.
fn verify_from<'b, 'a, T: Threads + Clock + Sync, F: Folder, L: Report>(
    rt: &T,
    context: &FilesContext<'_, 'a>,
    folder: &mut F,
    workers: Workers<'b, 'a>,
    lines: &mut L,
    number: usize,
    status: u8,
    name: &str,
    reader: F::Reader,
) -> u8
    requires workers { AreWorkers workers }
    requires name { IsFileAt context.now.options.now number name.now }
    requires open { IsOpenFile name.now (F.Reader.left reader) (F.Reader.failures reader) (F.rest folder.old) }
    ensures { (old : Printed) (before : Option RunRecord) (start : Option RunRecord)
        → HaveVerified context.now.key.now context.now.options.now number status old
        (printed (L.taken lines.old) (L.failures lines.old)) before start
        → TellsBytes (Read name.now) (F.Reader.left reader) start (F.rest folder.old)
        → HaveVerified context.now.key.now context.now.options.now (length context.now.options.now.files.now) result old
        (printed (L.taken lines.new) (L.failures lines.new)) before (F.rest folder.new) }
{
    let most = workers_for(folder.length(&reader), workers.count());
    let outcome = verify_opened(rt, context, folder, reader, name, workers.at_most(most));
    let status = tell(context.alloc, lines, status, name, outcome);
    verify_rest(rt, context, folder, workers, lines, number + 1, status)
}

// The same with `count` workers, which are started first. Where there is no room for that, this thread is alone.
fn verify_beside<'a, T: Threads + Clock + Sync, F: Folder, L: Report>(
    rt: &T,
    context: &FilesContext<'_, 'a>,
    folder: &mut F,
    lines: &mut L,
    number: usize,
    status: u8,
    name: &str,
    reader: F::Reader,
    count: u32,
) -> u8
    requires some { (0 < count) × (count ≤ MAX_WORKERS) }
    requires name { IsFileAt context.now.options.now number name.now }
    requires open { IsOpenFile name.now (F.Reader.left reader) (F.Reader.failures reader) (F.rest folder.old) }
    ensures { (old : Printed) (before : Option RunRecord) (start : Option RunRecord)
        → HaveVerified context.now.key.now context.now.options.now number status old
        (printed (L.taken lines.old) (L.failures lines.old)) before start
        → TellsBytes (Read name.now) (F.Reader.left reader) start (F.rest folder.old)
        → HaveVerified context.now.key.now context.now.options.now (length context.now.options.now.files.now) result old
        (printed (L.taken lines.new) (L.failures lines.new)) before (F.rest folder.new) }
{
    let alloc = context.alloc;
    let Some(reserve) = room_to_start(alloc, count) else {
        let workers = Workers::ToStart(1);
        return verify_from(
            rt, context, folder, workers, lines, number, status, name, reader,
        );
    };
    let boxes = boxes_beside(alloc, count);
    let boxes = boxes.as_slice();
    let mut kept = Some(reader);
    let mut reserve = Some(reserve);
    let mut chore = || -> u8
        requires boxes { length boxes.now < MAX_WORKERS }
        requires name { IsFileAt context.now.options.now number name.now }
        requires open { (reader : F.Reader) × (kept ≡ Some reader)
            × IsOpenFile name.now (F.Reader.left reader) (F.Reader.failures reader) (F.rest folder.now) }
        ensures { (reader : F.Reader) (old : Printed) (before : Option RunRecord) (start : Option RunRecord)
            → kept.entry ≡ Some reader
            → HaveVerified context.entry.now.key.now context.entry.now.options.now number status old
            (printed (L.taken lines.entry.now) (L.failures lines.entry.now)) before start
            → TellsBytes (Read name.entry.now) (F.Reader.left reader) start (F.rest folder.entry.now)
            → HaveVerified context.entry.now.key.now context.entry.now.options.now
            (length context.entry.now.options.now.files.now) result old
            (printed (L.taken lines.exit.now) (L.failures lines.exit.now)) before (F.rest folder.exit.now) }
    {
        let Some(reader) = kept.take() else {
            unreachable!();
        };
        reserve = None;
        let workers = Workers::Running(boxes);
        verify_from(
            rt, context, folder, workers, lines, number, status, name, reader,
        )
    };
    with_workers(rt, alloc, boxes, &Free, &mut chore)
}

/// Checks each file's container and its label, as `open_all` does, and creates no file. With `show`, each good file
/// has a second line with what its header says. Returns the exit status: 0 if every file is good, 1 if one failed, 2 if a
/// line couldn't be written.
pub fn verify_all<
    T: Threads + Clock + Sync,
    F: Folder,
    L: Report + Drop,
    E: Report + Drop,
    J: Report + Drop,
>(
    rt: &T,
    alloc: Global,
    key: &Key,
    folder: &mut F,
    options: &OpenOptions,
    out: &mut Outs<L, E, J>,
) -> u8
    requires files { 0 < length options.now.files.now }
    requires workers { (0 < options.now.workers) × (options.now.workers ≤ MAX_WORKERS) }
    requires max_bytes { options.now.max_bytes ≤ MAX_OPENED_BYTES }
    requires idle { IsIdle (F.rest folder.old) }
    ensures idle { IsIdle (F.rest folder.new) }
    ensures status { result ≤ 2 }
    ensures files { HaveAdded (λ name. IsOfVerifying options.now.show)
        (AddsVerified key.now options.now.max_bytes (option_map (λ b. b.now) options.now.label))
        (map (λ name. name.now) options.now.files.now) result
        (printed (L.taken out.old.lines) (L.failures out.old.lines))
        (printed (L.taken out.new.lines) (L.failures out.new.lines)) (F.rest folder.old) (F.rest folder.new) }
    ensures others { (out.new.faults ≡ out.old.faults) × (out.new.journal ≡ out.old.journal) }
{
    let context = FilesContext {
        alloc,
        key,
        options,
    };
    let lines = &mut out.lines;
    let mut status = 0;
    'files: for number in 0..options.files.len() {
        let name = options.files[number];
        let outcome = match folder.open(name) {
            Ok(reader) => {
                let bytes = folder.length(&reader);
                let is_last = number + 1 == options.files.len();
                let count = workers_from(bytes, options.workers, is_last);
                if count > 1 {
                    return verify_beside(
                        rt, &context, folder, lines, number, status, name, reader, count,
                    );
                }
                let workers = Workers::ToStart(workers_for(bytes, options.workers));
                verify_opened(rt, &context, folder, reader, name, workers)
            }
            Err(_) => FileOutcome::Failed(FileFault::CannotOpen),
        };
        status = tell(alloc, lines, status, name, outcome);
    }
    status
}
