//! Opening: each file in turn, with its line on standard output.
//!
//! The first file that is worth several workers starts them, once, and they last
//! to the end of the command; where there is no room for that, this thread goes on alone. Until then a file whose length
//! isn't known, of which nothing may come for long, starts its own for each reading.
ghost use Rattle.std.specs.Prelude.{◌≡◌, ℕ, ◌+◌, ◌<◌, ◌≤◌, List, length, map, take, Option, Some, Err};
ghost use Rattle.std.specs.Prelude.{IfErr, IfOk, IfSome, MatchOption, OnOk, option_map};
ghost use Rattle.io_core.specs.Streams.{counted};
ghost use Rattle.opening_core.specs.Workers.{AreWorkers};
ghost use Rattle.folder_core.specs.Record.{Read, RunRecord};
ghost use Rattle.folder_core.specs.Changes.{IsIdle, TellsBytes};
ghost use Rattle.folder_core.specs.Growth.{Grows};
ghost use Rattle.command_core.specs.Files.{AddsOpened, AddsOpenedRead, HaveAdded, HaveOpened, IsOpenFile};
ghost use Rattle.command_core.specs.Turns.{IsFileAt, Printed, printed};
ghost use Rattle.command_core.specs.Work.{IsOfOpening, IsOpenable, asked_label, asked_output, output_for};
ghost use Rattle.command_core.specs.Work.{reading_failed};

use crate::commands::{MAX_OPENED_BYTES, OpenOptions, Outs, SUFFIX, tell};
use crate::context::FilesContext;
use crate::line::{FileFault, FileOutcome};
use crate::putting::{fault_of_output, put_again, put_plain};
use crate::reading::{check_labelled, read_labelled, room_to_start, workers_for, workers_from};
use crate::report::Report;
use claim_core::{Free, MAX_WORKERS};
use container_core::{Key, OpenFault};
use folder_core::OpeningFolder;
use io_core::Failed;
use opening_core::{Workers, boxes_beside};
use std::alloc::Global;
use std::thread::Threads;
use std::time::Clock;
use worker_core::with_workers;

// The name of the output of a file: the one that is given, or else that of a sealed file, at least one byte before
// `.stm`.
fn output_name<'n>(name: &'n str, to: Option<&'n str>) -> Option<&'n str>
    ensures name { IfSome result (λ output. output.now ≡ output_for (option_map (λ to. to.now) to.entry) name.now) }
    ensures openable { MatchOption result (¬ IsOpenable (option_map (λ to. to.now) to.entry) name.now)
        (λ output. IsOpenable (option_map (λ to. to.now) to.entry) name.now) }
{
    if let Some(to) = to {
        return Some(to);
    }
    let output = name.strip_suffix(SUFFIX)?;
    if output.is_empty() {
        None
    } else {
        Some(output)
    }
}

// Opens a file that can be read again: a first reading checks its whole container. Then the output is created, and a
// second reading writes the plaintext.
fn open_again<'b, 'a, T: Threads + Clock + Sync, F: OpeningFolder>(
    rt: &T,
    context: &FilesContext<'_, 'a>,
    folder: &mut F,
    reader: &mut F::Reader,
    name: &str,
    output: &str,
    workers: Workers<'b, 'a>,
) -> FileOutcome
    requires workers { AreWorkers workers }
    requires open { IsOpenFile name.now (F.Reader.left reader.old) (F.Reader.failures reader.old) (F.rest folder.old) }
    ensures fits { (to : Option (List ℕ)) → IsOpenable to name.now → IsOfOpening to name.now result }
    ensures adds { (before : Option RunRecord)
        → TellsBytes (Read name.now) (F.Reader.left reader.old) before (F.rest folder.old)
        → Grows (AddsOpenedRead context.now.key.now context.now.options.now.max_bytes
        (asked_label context.now.options.now) output.now name.now result) before (F.rest folder.new) }
    ensures read { IfSome (F.rest folder.new) (λ _. F.Reader.failures reader.new
        ≡ counted (reading_failed result) (F.Reader.failures reader.old)) }
{
    let FilesContext {
        alloc,
        key,
        options,
    } = *context;
    let most = options.max_bytes;
    let header = match check_labelled(rt, alloc, key, reader, most, workers, options.label) {
        Ok((header, _)) => header,
        Err(fault) => return FileOutcome::Failed(fault),
    };
    match folder.again(name, reader) {
        Ok(()) => {}
        Err(Failed) => return FileOutcome::Failed(FileFault::Unopened(OpenFault::Read)),
    }
    match put_again(rt, context, folder, output, &header, reader, workers) {
        Ok(n) => FileOutcome::Opened(n),
        Err(fault) => FileOutcome::Failed(fault_of_output(fault)),
    }
}

// Opens a file that can be read only once: its plaintext is in memory until its whole container was checked.
fn open_once<'b, 'a, T: Threads + Clock + Sync, F: OpeningFolder>(
    rt: &T,
    context: &FilesContext<'_, 'a>,
    folder: &mut F,
    reader: &mut F::Reader,
    output: &str,
    workers: Workers<'b, 'a>,
) -> FileOutcome
    requires workers { AreWorkers workers }
    requires open { (name : List ℕ)
        × IsOpenFile name (F.Reader.left reader.old) (F.Reader.failures reader.old) (F.rest folder.old) }
    ensures fits { (to : Option (List ℕ)) (name : List ℕ) → IsOpenable to name → IsOfOpening to name result }
    ensures adds { (name : List ℕ) (before : Option RunRecord)
        → TellsBytes (Read name) (F.Reader.left reader.old) before (F.rest folder.old)
        → Grows (AddsOpenedRead context.now.key.now context.now.options.now.max_bytes
        (asked_label context.now.options.now) output.now name result) before (F.rest folder.new) }
    ensures read { IfSome (F.rest folder.new) (λ _. F.Reader.failures reader.new
        ≡ counted (reading_failed result) (F.Reader.failures reader.old)) }
{
    let FilesContext {
        alloc,
        key,
        options,
    } = *context;
    let most = options.max_bytes;
    let plain = match read_labelled(rt, alloc, key, reader, most, workers, options.label) {
        Ok(plain) => plain,
        Err(fault) => return FileOutcome::Failed(fault),
    };
    match put_plain(folder, output, key, &plain) {
        Ok(()) => FileOutcome::Opened(plain.len()),
        Err(fault) => FileOutcome::Failed(fault_of_output(fault)),
    }
}

// Opens a file that is read, in one of the two ways.
fn open_read<'b, 'a, T: Threads + Clock + Sync, F: OpeningFolder>(
    rt: &T,
    context: &FilesContext<'_, 'a>,
    folder: &mut F,
    reader: &mut F::Reader,
    name: &str,
    output: &str,
    workers: Workers<'b, 'a>,
) -> FileOutcome
    requires workers { AreWorkers workers }
    requires open { IsOpenFile name.now (F.Reader.left reader.old) (F.Reader.failures reader.old) (F.rest folder.old) }
    ensures fits { (to : Option (List ℕ)) → IsOpenable to name.now → IsOfOpening to name.now result }
    ensures adds { (before : Option RunRecord)
        → TellsBytes (Read name.now) (F.Reader.left reader.old) before (F.rest folder.old)
        → Grows (AddsOpenedRead context.now.key.now context.now.options.now.max_bytes
        (asked_label context.now.options.now) output.now name.now result) before (F.rest folder.new) }
    ensures read { IfSome (F.rest folder.new) (λ _. F.Reader.failures reader.new
        ≡ counted (reading_failed result) (F.Reader.failures reader.old)) }
{
    if folder.can_repeat(reader) {
        open_again(rt, context, folder, reader, name, output, workers)
    } else {
        open_once(rt, context, folder, reader, output, workers)
    }
}

// Opens a file for reading, where a name of its output is given or follows from its own. At `Err` nothing more is done.
fn begin<F: OpeningFolder>(
    folder: &mut F,
    name: &str,
    options: &OpenOptions,
) -> Result<F::Reader, FileOutcome>
    requires idle { IsIdle (F.rest folder.old) }
    ensures opens { OnOk result (IsOpenable (asked_output options.now) name.now) }
    ensures opened { IfOk result (λ reader.
        TellsBytes (Read name.now) (F.Reader.left reader) (F.rest folder.old) (F.rest folder.new)) }
    ensures count { IfOk result (λ reader. IfSome (F.rest folder.new) (λ _. F.Reader.failures reader ≡ Some 0)) }
    ensures fits { IfErr result (IsOfOpening (asked_output options.now) name.now) }
    ensures adds { IfErr result (λ outcome. (key : List ℕ)
        → Grows (AddsOpened key options.now.max_bytes (asked_label options.now)
        (output_for (asked_output options.now) name.now) name.now outcome) (F.rest folder.old) (F.rest folder.new)) }
{
    if output_name(name, options.to).is_none() {
        return Err(FileOutcome::Failed(FileFault::NoSuffix));
    }
    match folder.open(name) {
        Ok(reader) => Ok(reader),
        Err(_) => Err(FileOutcome::Failed(FileFault::CannotOpen)),
    }
}

// Opens a file that was opened for reading: checks its whole container, then creates its output, writes the plaintext
// and finishes the output. At last the file is closed.
fn open_opened<'b, 'a, T: Threads + Clock + Sync, F: OpeningFolder>(
    rt: &T,
    context: &FilesContext<'_, 'a>,
    folder: &mut F,
    reader: F::Reader,
    name: &str,
    workers: Workers<'b, 'a>,
) -> FileOutcome
    requires workers { AreWorkers workers }
    requires opens { IsOpenable (asked_output context.now.options.now) name.now }
    requires open { IsOpenFile name.now (F.Reader.left reader) (F.Reader.failures reader) (F.rest folder.old) }
    ensures fits { IsOfOpening (asked_output context.now.options.now) name.now result }
    ensures adds { (before : Option RunRecord)
        → TellsBytes (Read name.now) (F.Reader.left reader) before (F.rest folder.old)
        → Grows (AddsOpened context.now.key.now context.now.options.now.max_bytes
        (asked_label context.now.options.now) (output_for (asked_output context.now.options.now) name.now) name.now
        result) before (F.rest folder.new) }
{
    let Some(output) = output_name(name, context.options.to) else {
        unreachable!();
    };
    let mut reader = reader;
    let outcome = open_read(rt, context, folder, &mut reader, name, output, workers);
    folder.close(name, reader);
    outcome
}

// Opens one file, with these workers.
fn open_file<'b, 'a, T: Threads + Clock + Sync, F: OpeningFolder>(
    rt: &T,
    context: &FilesContext<'_, 'a>,
    folder: &mut F,
    name: &str,
    workers: Workers<'b, 'a>,
) -> FileOutcome
    requires workers { AreWorkers workers }
    requires idle { IsIdle (F.rest folder.old) }
    ensures fits { IsOfOpening (asked_output context.now.options.now) name.now result }
    ensures adds { Grows (AddsOpened context.now.key.now context.now.options.now.max_bytes
        (asked_label context.now.options.now) (output_for (asked_output context.now.options.now) name.now) name.now
        result) (F.rest folder.old) (F.rest folder.new) }
{
    match begin(folder, name, context.options) {
        Ok(reader) => {
            let most = workers_for(folder.length(&reader), workers.count());
            open_opened(rt, context, folder, reader, name, workers.at_most(most))
        }
        Err(outcome) => outcome,
    }
}

// Opens the files from number `next` on, with these workers. Returns the status.
fn open_rest<'b, 'a, T: Threads + Clock + Sync, F: OpeningFolder, L: Report>(
    rt: &T,
    context: &FilesContext<'_, 'a>,
    folder: &mut F,
    workers: Workers<'b, 'a>,
    lines: &mut L,
    next: usize,
    status: u8,
) -> u8
    requires workers { AreWorkers workers }
    requires next { next ≤ length context.now.options.now.files.now }
    requires idle { IsIdle (F.rest folder.old) }
    ensures { (old : Printed) (before : Option RunRecord)
        → HaveOpened context.now.key.now context.now.options.now next status old
        (printed (L.taken lines.old) (L.failures lines.old)) before (F.rest folder.old)
        → HaveOpened context.now.key.now context.now.options.now (length context.now.options.now.files.now) result old
        (printed (L.taken lines.new) (L.failures lines.new)) before (F.rest folder.new) }
{
    let files = context.options.files;
    let mut status = status;
    'files: for number in next..files.len() {
        let name = files[number];
        let outcome = open_file(rt, context, folder, name, workers);
        status = tell(context.alloc, lines, status, name, outcome);
    }
    status
}

// Opens the file of this number, which this reader has open, and then those after it, with these workers. Returns the
// status.
fn open_from<'b, 'a, T: Threads + Clock + Sync, F: OpeningFolder, L: Report>(
    rt: &T,
    context: &FilesContext<'_, 'a>,
    folder: &mut F,
    workers: Workers<'b, 'a>,
    lines: &mut L,
    number: usize,
    status: u8,
    name: &str,
    reader: F::Reader,
) -> u8
    requires workers { AreWorkers workers }
    requires name { IsFileAt context.now.options.now number name.now }
    requires opens { IsOpenable (asked_output context.now.options.now) name.now }
    requires open { IsOpenFile name.now (F.Reader.left reader) (F.Reader.failures reader) (F.rest folder.old) }
    ensures { (old : Printed) (before : Option RunRecord) (start : Option RunRecord)
        → HaveOpened context.now.key.now context.now.options.now number status old
        (printed (L.taken lines.old) (L.failures lines.old)) before start
        → TellsBytes (Read name.now) (F.Reader.left reader) start (F.rest folder.old)
        → HaveOpened context.now.key.now context.now.options.now (length context.now.options.now.files.now) result old
        (printed (L.taken lines.new) (L.failures lines.new)) before (F.rest folder.new) }
{
    let most = workers_for(folder.length(&reader), workers.count());
    let outcome = open_opened(rt, context, folder, reader, name, workers.at_most(most));
    let status = tell(context.alloc, lines, status, name, outcome);
    open_rest(rt, context, folder, workers, lines, number + 1, status)
}

// The same with `count` workers, which are started first. Where there is no room for that, this thread is alone.
fn open_beside<'a, T: Threads + Clock + Sync, F: OpeningFolder, L: Report>(
    rt: &T,
    context: &FilesContext<'_, 'a>,
    folder: &mut F,
    lines: &mut L,
    number: usize,
    status: u8,
    name: &str,
    reader: F::Reader,
    count: u32,
) -> u8
    requires some { (0 < count) × (count ≤ MAX_WORKERS) }
    requires name { IsFileAt context.now.options.now number name.now }
    requires opens { IsOpenable (asked_output context.now.options.now) name.now }
    requires open { IsOpenFile name.now (F.Reader.left reader) (F.Reader.failures reader) (F.rest folder.old) }
    ensures { (old : Printed) (before : Option RunRecord) (start : Option RunRecord)
        → HaveOpened context.now.key.now context.now.options.now number status old
        (printed (L.taken lines.old) (L.failures lines.old)) before start
        → TellsBytes (Read name.now) (F.Reader.left reader) start (F.rest folder.old)
        → HaveOpened context.now.key.now context.now.options.now (length context.now.options.now.files.now) result old
        (printed (L.taken lines.new) (L.failures lines.new)) before (F.rest folder.new) }
{
    let alloc = context.alloc;
    let Some(reserve) = room_to_start(alloc, count) else {
        let workers = Workers::ToStart(1);
        return open_from(
            rt, context, folder, workers, lines, number, status, name, reader,
        );
    };
    let boxes = boxes_beside(alloc, count);
    let boxes = boxes.as_slice();
    let mut kept = Some(reader);
    let mut reserve = Some(reserve);
    let mut chore = || -> u8
        requires boxes { length boxes.now < MAX_WORKERS }
        requires name { IsFileAt context.now.options.now number name.now }
        requires opens { IsOpenable (asked_output context.now.options.now) name.now }
        requires open { (reader : F.Reader) × (kept ≡ Some reader)
            × IsOpenFile name.now (F.Reader.left reader) (F.Reader.failures reader) (F.rest folder.now) }
        ensures { (reader : F.Reader) (old : Printed) (before : Option RunRecord) (start : Option RunRecord)
            → kept.entry ≡ Some reader
            → HaveOpened context.entry.now.key.now context.entry.now.options.now number status old
            (printed (L.taken lines.entry.now) (L.failures lines.entry.now)) before start
            → TellsBytes (Read name.entry.now) (F.Reader.left reader) start (F.rest folder.entry.now)
            → HaveOpened context.entry.now.key.now context.entry.now.options.now
            (length context.entry.now.options.now.files.now) result old
            (printed (L.taken lines.exit.now) (L.failures lines.exit.now)) before (F.rest folder.exit.now) }
    {
        let Some(reader) = kept.take() else {
            unreachable!();
        };
        reserve = None;
        let workers = Workers::Running(boxes);
        open_from(
            rt, context, folder, workers, lines, number, status, name, reader,
        )
    };
    with_workers(rt, alloc, boxes, &Free, &mut chore)
}

/// Opens each file: reads its container, checks all of it, and then writes the plaintext to the output, which must not
/// exist yet. A file that can be read again is read twice, in the memory of a verification: the second reading checks
/// each chunk again before it writes it. If a label is asked for, a container with another one fails after it was
/// checked, and its output isn't created. Returns the exit status: 0 if every file was opened, 1 if one failed, 2 if a
/// line couldn't be written. The folder is asked to remove an output that couldn't be written whole, or finished.
pub fn open_all<
    T: Threads + Clock + Sync,
    F: OpeningFolder,
    L: Report + Drop,
    E: Report + Drop,
    J: Report + Drop,
>(
    rt: &T,
    alloc: Global,
    key: &Key,
    folder: &mut F,
    options: &OpenOptions,
    out: &mut Outs<L, E, J>,
) -> u8
    requires files { 0 < length options.now.files.now }
    requires workers { (0 < options.now.workers) × (options.now.workers ≤ MAX_WORKERS) }
    requires max_bytes { options.now.max_bytes ≤ MAX_OPENED_BYTES }
    // No output is in hand: not before the command, and not after it.
    requires idle { IsIdle (F.rest folder.old) }
    ensures idle { IsIdle (F.rest folder.new) }
    ensures status { result ≤ 2 }
    ensures files { HaveAdded (IsOfOpening (option_map (λ to. to.now) options.now.to))
        (λ name. AddsOpened key.now options.now.max_bytes (option_map (λ b. b.now) options.now.label)
        (output_for (option_map (λ to. to.now) options.now.to) name) name)
        (map (λ name. name.now) options.now.files.now) result
        (printed (L.taken out.old.lines) (L.failures out.old.lines))
        (printed (L.taken out.new.lines) (L.failures out.new.lines)) (F.rest folder.old) (F.rest folder.new) }
    ensures others { (out.new.faults ≡ out.old.faults) × (out.new.journal ≡ out.old.journal) }
{
    let context = FilesContext {
        alloc,
        key,
        options,
    };
    let lines = &mut out.lines;
    let mut status = 0;
    'files: for number in 0..options.files.len() {
        let name = options.files[number];
        let outcome = match begin(folder, name, options) {
            Ok(reader) => {
                let bytes = folder.length(&reader);
                let is_last = number + 1 == options.files.len();
                let count = workers_from(bytes, options.workers, is_last);
                if count > 1 {
                    return open_beside(
                        rt, &context, folder, lines, number, status, name, reader, count,
                    );
                }
                let workers = Workers::ToStart(workers_for(bytes, options.workers));
                open_opened(rt, &context, folder, reader, name, workers)
            }
            Err(outcome) => outcome,
        };
        status = tell(alloc, lines, status, name, outcome);
    }
    status
}
