//! The command that opens one container to standard output.
ghost use Rattle.std.specs.Prelude.{◌<◌, ◌≤◌, ◌≡◌, IfSome, [], ◌∷◌, codes, option_map, unwrap_or};
ghost use Rattle.clap.specs.Matches.{first_value, found_of};
ghost use Rattle.command_core.specs.declared.line.FileOutcome.{FileOutcome};
ghost use Rattle.command_core.specs.Unpiping.{HasUnpiped, IsOfUnpiping, outputs_view};
ghost use Rattle.command_core.specs.Work.{AreTold};
ghost use Rattle.folder_core.specs.Changes.{IsFresh, IsIdle, IsNewStream};
ghost use Rattle.sealer.specs.Status.{IsStatusOf};

use crate::files::{clear, key_at, progress_of};
use crate::{Streams, print_complaint};
use clap::ArgMatches;
use command_line::{UnpipeRequest, UsageFault, unpipe_request};
use container_core::{Key, MAX_OPENED};
use ledger_core::{Sink, ToWrite};
use sealer_core::{
    Folder, MAX_WORKERS, OneOutput, OpeningFolder, Report, Stream, ToStream, UnpipeOptions,
    unpipe_all,
};
use std::io::{Read, Write};
use std::rt::{Clock, Env, Files};
use std::thread::Threads;
use system_files::{
    FileOptions, Names, STREAM, SystemFiles, Target, Told, can_reopen_input, is_folder,
    spool_folder,
};

/// Opens one container and writes its plaintext to the output. A terminal is refused as output, unless it was asked
/// for. Returns the status, with the streams.
pub(crate) fn unpipe_as_asked<
    R: Files + AllocGlobal + Clock + Env + Eprint + Threads + Sync,
    I: Read + Drop,
    O: Write + Drop,
    E: Write + Drop,
>(rt: &R, matches: &ArgMatches<'_>, input: I, streams: Streams<O, E>) -> (u8, Streams<O, E>)
    ensures status { IsStatusOf
        (λ name. IsOfUnpiping (O.contents streams.output.0) (O.contents result.1.output.0)) result.0
        (unwrap_or (first_value (found_of matches.now) (codes "FILE")) (codes "-") ∷ [])
        (E.contents streams.errors.0) (E.contents result.1.errors.0) }
{
    let request = match unpipe_request(matches) {
        Ok(request) => request,
        Err(fault) => return (print_complaint(rt, "usage", fault), streams),
    };
    if streams.terminals.output && !request.to_terminal {
        return (print_complaint(rt, "usage", UsageFault::Terminal), streams);
    }
    let Ok(spool) = spool_folder(rt, request.spool) else {
        return (
            print_complaint(rt, "usage", UsageFault::OutOfMemory),
            streams,
        );
    };
    let is_input = request.file == STREAM;
    let reopens_input = is_input && can_reopen_input(rt);
    if is_input && !reopens_input && !is_folder(rt, spool.as_str()) {
        return (
            print_complaint(rt, "usage", UsageFault::NoSpoolFolder),
            streams,
        );
    }
    let options = FileOptions {
        names: Names::Plain,
        outputs: Names::Plain,
        target: Target::AsNamed,
        sync: false,
        private: false,
        own: None,
        refuses_output: true,
        reads_again: true,
        reopens_input,
        spool: Some(spool.as_str()),
        causes: streams.terminals.causes,
        warns_of_changes: false,
    };
    let (files, terminal) = ([request.file], streams.terminals.errors);
    let progress = progress_of(rt, matches, Names::Plain, &files, 2, terminal);
    let folder = SystemFiles::new(rt, Some(input), progress.as_ref(), options);
    unpipe_to(rt, &request, folder, streams)
}

// Opens the file that is asked for, which is in this folder.
fn unpipe_to<
    R: Files + AllocGlobal + Clock + Eprint + Threads + Sync,
    I: Read + Drop,
    O: Write + Drop,
    E: Write + Drop,
>(
    rt: &R,
    request: &UnpipeRequest<'_>,
    folder: SystemFiles<'_, '_, R, I>,
    streams: Streams<O, E>,
) -> (u8, Streams<O, E>)
    requires workers { (0 < request.now.workers) × (request.now.workers ≤ MAX_WORKERS) }
    requires max_bytes { request.now.max_bytes ≤ MAX_OPENED }
    ensures status { IsStatusOf
        (λ name. IsOfUnpiping (O.contents streams.output.0) (O.contents result.1.output.0)) result.0
        (request.now.file.now ∷ []) (E.contents streams.errors.0) (E.contents result.1.errors.0) }
{
    let progress = folder.progress;
    let key = match key_at(rt, request.key, streams.terminals.causes) {
        Ok(key) => key,
        Err(status) => return (status, streams),
    };
    let Streams {
        output,
        errors,
        terminals,
    } = streams;
    let mut errors = ToWrite(Told {
        writer: errors.0,
        progress,
        of_files: true,
    });
    let (status, output) = unpipe_out(rt, &key, request, folder, output, &mut errors);
    clear(progress);
    let streams = Streams {
        output,
        errors: ToWrite(errors.0.writer),
        terminals,
    };
    (status, streams)
}

// Opens the file that is asked for, which is in this folder, to a writer. Returns the status and the writer.
fn unpipe_out<R: AllocGlobal + Clock + Threads + Sync, F: Folder + Drop, W: Sink + Drop, E: Report>(
    rt: &R,
    key: &Key,
    request: &UnpipeRequest<'_>,
    folder: F,
    writer: W,
    lines: &mut E,
) -> (u8, W)
    requires workers { (0 < request.now.workers) × (request.now.workers ≤ MAX_WORKERS) }
    requires max_bytes { request.now.max_bytes ≤ MAX_OPENED }
    requires idle { IsIdle (F.rest folder) }
    ensures run { (outcome : FileOutcome) × IsOfUnpiping (W.taken writer) (W.taken result.1) outcome
        × AreTold result.0 (record { name = request.now.file.now; outcome = outcome } ∷ [])
        (E.taken lines.old) (E.taken lines.new) (E.failures lines.old) (E.failures lines.new) }
{
    let mut both = ToStream::of(folder, Stream { writer });
    let status = unpipe_from(rt, key, request, &mut both, OneOutput, lines);
    let ToStream { folder: _, stream } = both;
    let Stream { writer } = stream;
    (status, writer)
}

// The options of this request.
fn unpipe_options<'q>(request: &'q UnpipeRequest<'_>) -> UnpipeOptions<'q>
    ensures workers { result.workers ≡ request.now.workers }
    ensures max_bytes { result.max_bytes ≡ request.now.max_bytes }
    ensures label { option_map (λ b. b.now) result.label ≡ option_map (λ b. b.now) request.now.label }
{
    UnpipeOptions {
        workers: request.workers,
        max_bytes: request.max_bytes,
        label: request.label,
    }
}

/// Opens the file that is asked for to a new stream of its folder, as `unpipe_all` does. Returns the status.
fn unpipe_from<R: AllocGlobal + Clock + Threads + Sync, F: OpeningFolder, E: Report>(
    rt: &R,
    key: &Key,
    request: &UnpipeRequest<'_>,
    folder: &mut F,
    output: F::Handle,
    lines: &mut E,
) -> u8
    requires workers { (0 < request.now.workers) × (request.now.workers ≤ MAX_WORKERS) }
    requires max_bytes { request.now.max_bytes ≤ MAX_OPENED }
    requires new { IfSome (F.rest folder.old) (IsNewStream (F.Handle.at output)) }
    requires fresh { IsFresh (F.rest folder.old) (F.taken folder.old) (F.failures folder.old) }
    ensures status { result ≤ 2 }
    ensures run { (outcome : FileOutcome)
        × HasUnpiped key.now request.now.max_bytes (option_map (λ b. b.now) request.now.label) request.now.file.now
        (F.Handle.at output) (outputs_view (F.rest folder.old) (F.taken folder.old) (F.failures folder.old))
        (outputs_view (F.rest folder.new) (F.taken folder.new) (F.failures folder.new)) outcome
        × AreTold result (record { name = request.now.file.now; outcome = outcome } ∷ [])
        (E.taken lines.old) (E.taken lines.new) (E.failures lines.old) (E.failures lines.new) }
{
    let (name, options) = (request.file, unpipe_options(request));
    unpipe_all(rt, rt.alloc(), key, folder, name, output, &options, lines)
}
