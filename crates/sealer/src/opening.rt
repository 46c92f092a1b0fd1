//! The commands that open and verify.
ghost use Rattle.std.specs.Prelude.{◌<◌, ◌≤◌, ◌≡◌, length, map, option_map};
ghost use Rattle.command_core.specs.Files.{AddsOpened, AddsVerified, HaveAdded};
ghost use Rattle.folder_core.specs.Changes.{IsIdle};
ghost use Rattle.command_core.specs.Turns.{printed};
ghost use Rattle.command_core.specs.Work.{IsOfOpening, IsOfVerifying, output_for};
ghost use Rattle.sealer.specs.Status.{IsOfCommand, IsOfReading, IsStatusOf, IsStatusOver};

use crate::files::{clear, key_at, outs_of, progress_of, streams_of};
use crate::kept::{destination_of, worked_of};
use crate::telling::reading_names;
use crate::{OverFiles, Streams, print_complaint};
use clap::ArgMatches;
use command_line::{OpenRequest, Reading, UsageFault, naming_asked, open_request};
use container_core::{Key, MAX_OPENED};
use folder_core::{Folder, OpeningFolder};
use sealer_core::{MAX_WORKERS, OpenOptions, Outs, Report, open_all, verify_all};
use std::io::{Read, Write};
use std::rt::{Clock, Files};
use std::thread::Threads;
use system_files::{FileOptions, Makes, Names, SystemFiles, can_reopen_input};

/// Opens or verifies the files of these names, of which `-` is the input. Returns the status, with the streams.
pub(crate) fn open_as_asked<
    R: Files + AllocGlobal + Clock + Eprint + Threads + Sync,
    I: Read + Drop,
    O: Write + Drop,
    E: Write + Drop,
>(
    rt: &R,
    reading: Reading,
    matches: &ArgMatches<'_>,
    names: &[&str],
    input: I,
    streams: Streams<O, E>,
) -> (u8, Streams<O, E>)
    ensures status { IsStatusOver (IsOfCommand (OverFiles.Read reading) matches.now) matches.now result.0
        (map (λ name. name.now) names.now) (O.contents streams.output.0) (O.contents result.1.output.0) }
{
    let Some(readers) = reading_names(rt, reading, matches, names) else {
        return (
            print_complaint(rt, "usage", UsageFault::OutOfMemory),
            streams,
        );
    };
    let readers = readers.as_slice();
    open_requested(rt, reading, matches, names, readers, input, streams)
}

// The same, once it is known for which names it is looked at who reads standard input.
fn open_requested<
    R: Files + AllocGlobal + Clock + Eprint + Threads + Sync,
    I: Read + Drop,
    O: Write + Drop,
    E: Write + Drop,
>(
    rt: &R,
    reading: Reading,
    matches: &ArgMatches<'_>,
    names: &[&str],
    readers: &[&str],
    input: I,
    streams: Streams<O, E>,
) -> (u8, Streams<O, E>)
    ensures status { IsStatusOver (IsOfCommand (OverFiles.Read reading) matches.now) matches.now result.0
        (map (λ name. name.now) names.now) (O.contents streams.output.0) (O.contents result.1.output.0) }
{
    let request = match open_request(reading, matches, readers) {
        Ok(request) => request,
        Err(fault) => return (print_complaint(rt, "usage", fault), streams),
    };
    let mut streams = streams;
    let naming = naming_asked(matches);
    let folder = folder_of(reading, request.into);
    let to = destination_of(Makes::Plaintext, folder, request.parents, naming);
    let causes = streams.terminals.causes;
    let output = &mut streams.output;
    let files = match worked_of(rt, matches, to, request.skip, names, output, causes) {
        Ok(files) => files,
        Err(status) => return (status, streams),
    };
    if files.is_empty() {
        return (0, streams);
    }
    let request = OpenRequest {
        files: files.as_slice(),
        ..request
    };
    let reads_again = reading == Reading::Open;
    let readings = if reads_again { 2 } else { 1 };
    let (files, terminal) = (request.files, streams.terminals.errors);
    let progress = progress_of(rt, matches, to.names, files, readings, terminal);
    let options = FileOptions {
        names: to.names,
        outputs: names_of_outputs(to.names, request.to),
        target: to.target,
        sync: request.sync,
        private: request.private,
        own: None,
        refuses_output: false,
        reads_again,
        // Standard input is opened only under another name.
        reopens_input: request.to.is_some() && can_reopen_input(rt),
        spool: None,
        causes,
        warns_of_changes: false,
    };
    let folder = SystemFiles::new(rt, Some(input), progress.as_ref(), options);
    open_to(rt, reading, &request, folder, streams)
}

// The folder of the outputs, if one is given. `verify` has no outputs: its folder is that of the run whose lines it reads.
fn folder_of(reading: Reading, into: Option<&str>) -> Option<&str> {
    match reading {
        Reading::Open => into,
        Reading::Verify => None,
    }
}

// How the names of outputs denote paths. The name of --to is its path.
fn names_of_outputs(names: Names, to: Option<&str>) -> Names {
    match to {
        Some(_) => Names::Plain,
        None => names,
    }
}

// Opens or verifies what is asked for, with the outputs in this folder.
fn open_to<
    R: Files + AllocGlobal + Clock + Eprint + Threads + Sync,
    I: Read + Drop,
    O: Write + Drop,
    E: Write + Drop,
>(
    rt: &R,
    reading: Reading,
    request: &OpenRequest<'_, '_>,
    folder: SystemFiles<'_, '_, R, I>,
    streams: Streams<O, E>,
) -> (u8, Streams<O, E>)
    requires files { 0 < length request.now.files.now }
    requires workers { (0 < request.now.workers) × (request.now.workers ≤ MAX_WORKERS) }
    requires max_bytes { request.now.max_bytes ≤ MAX_OPENED }
    ensures status { IsStatusOf
        (IsOfReading reading request.now.show (option_map (λ to. to.now) request.now.to)) result.0
        (map (λ name. name.now) request.now.files.now) (O.contents streams.output.0) (O.contents result.1.output.0) }
{
    let progress = folder.progress;
    let terminals = streams.terminals;
    let key = match key_at(rt, request.key, terminals.causes) {
        Ok(key) => key,
        Err(status) => return (status, streams),
    };
    let mut out = outs_of(streams, progress, None);
    let status = read_files(rt, reading, &key, folder, request, &mut out);
    clear(progress);
    (status, streams_of(out, terminals))
}

// Opens or verifies the files that are asked for. Returns the status.
fn read_files<
    R: Files + AllocGlobal + Clock + Eprint + Threads + Sync,
    I: Read + Drop,
    L: Report + Drop,
    E: Report + Drop,
    J: Report + Drop,
>(
    rt: &R,
    reading: Reading,
    key: &Key,
    folder: SystemFiles<'_, '_, R, I>,
    request: &OpenRequest<'_, '_>,
    out: &mut Outs<L, E, J>,
) -> u8
    requires files { 0 < length request.now.files.now }
    requires workers { (0 < request.now.workers) × (request.now.workers ≤ MAX_WORKERS) }
    requires max_bytes { request.now.max_bytes ≤ MAX_OPENED }
    ensures status { IsStatusOf
        (IsOfReading reading request.now.show (option_map (λ to. to.now) request.now.to)) result
        (map (λ name. name.now) request.now.files.now) (L.taken out.old.lines) (L.taken out.new.lines) }
{
    let mut folder = folder;
    match reading {
        Reading::Open => open_files(rt, key, &mut folder, request, out),
        Reading::Verify => verify_files(rt, key, &mut folder, request, out),
    }
}

// Opens the files that are asked for.
fn open_files<
    R: AllocGlobal + Clock + Threads + Sync,
    F: OpeningFolder,
    L: Report + Drop,
    E: Report + Drop,
    J: Report + Drop,
>(rt: &R, key: &Key, folder: &mut F, request: &OpenRequest<'_, '_>, out: &mut Outs<L, E, J>) -> u8
    requires files { 0 < length request.now.files.now }
    requires workers { (0 < request.now.workers) × (request.now.workers ≤ MAX_WORKERS) }
    requires max_bytes { request.now.max_bytes ≤ MAX_OPENED }
    requires idle { IsIdle (F.rest folder.old) }
    ensures files { HaveAdded (IsOfOpening (option_map (λ to. to.now) request.now.to))
        (λ name. AddsOpened key.now request.now.max_bytes (option_map (λ b. b.now) request.now.label)
        (output_for (option_map (λ to. to.now) request.now.to) name) name)
        (map (λ name. name.now) request.now.files.now) result
        (printed (L.taken out.old.lines) (L.failures out.old.lines))
        (printed (L.taken out.new.lines) (L.failures out.new.lines)) (F.rest folder.old) (F.rest folder.new) }
    ensures others { (out.new.faults ≡ out.old.faults) × (out.new.journal ≡ out.old.journal) }
{
    open_all(rt, rt.alloc(), key, folder, &options_of(request), out)
}

// Verifies the files that are asked for.
fn verify_files<
    R: AllocGlobal + Clock + Threads + Sync,
    F: Folder,
    L: Report + Drop,
    E: Report + Drop,
    J: Report + Drop,
>(rt: &R, key: &Key, folder: &mut F, request: &OpenRequest<'_, '_>, out: &mut Outs<L, E, J>) -> u8
    requires files { 0 < length request.now.files.now }
    requires workers { (0 < request.now.workers) × (request.now.workers ≤ MAX_WORKERS) }
    requires max_bytes { request.now.max_bytes ≤ MAX_OPENED }
    requires idle { IsIdle (F.rest folder.old) }
    ensures files { HaveAdded (λ name. IsOfVerifying request.now.show)
        (AddsVerified key.now request.now.max_bytes (option_map (λ b. b.now) request.now.label))
        (map (λ name. name.now) request.now.files.now) result
        (printed (L.taken out.old.lines) (L.failures out.old.lines))
        (printed (L.taken out.new.lines) (L.failures out.new.lines)) (F.rest folder.old) (F.rest folder.new) }
    ensures others { (out.new.faults ≡ out.old.faults) × (out.new.journal ≡ out.old.journal) }
{
    verify_all(rt, rt.alloc(), key, folder, &options_of(request), out)
}

// The options of this request.
fn options_of<'q>(request: &'q OpenRequest<'_, '_>) -> OpenOptions<'q>
    ensures files { result.files.now ≡ request.now.files.now }
    ensures workers { result.workers ≡ request.now.workers }
    ensures max_bytes { result.max_bytes ≡ request.now.max_bytes }
    ensures label { option_map (λ b. b.now) result.label ≡ option_map (λ b. b.now) request.now.label }
    ensures to { option_map (λ to. to.now) result.to ≡ option_map (λ to. to.now) request.now.to }
    ensures show { result.show ≡ request.now.show }
{
    OpenOptions {
        files: request.files,
        workers: request.workers,
        max_bytes: request.max_bytes,
        label: request.label,
        to: request.to,
        show: request.show,
    }
}
