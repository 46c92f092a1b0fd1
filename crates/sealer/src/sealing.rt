//! The command that seals files, and the ledger file over which it seals them.
ghost use Rattle.std.specs.Prelude.{◌≡◌, ◌⊎◌, ◌<◌, ◌≤◌, ℕ, Bool, List, length, map, ◌≢◌, IfSome, [], false};
ghost use Rattle.std.specs.Prelude.{if◌then◌else◌, option_map};
ghost use Rattle.sha2.specs.Sha256.{sha256};
ghost use Rattle.journal_core.specs.declared.entry.Entry.{Entry};
ghost use Rattle.journal_core.specs.Journal.{terms_of};
ghost use Rattle.journal_core.specs.Range.{IsLawfulRange, Numbers};
ghost use Rattle.journal_core.specs.Text.{journal_text};
ghost use Rattle.sqlite_wal.specs.Files.{image_at};
ghost use Rattle.sqlite.specs.Files.{file_state, over_files};
ghost use Rattle.sqlite.specs.State.{HasCleanDisk};
ghost use Rattle.reserve_core.specs.NextRun.{IsFound};
ghost use Rattle.reserve_core.specs.Witness.{IsWitnessed};
ghost use Rattle.command_core.specs.Printing.{Complains};
ghost use Rattle.command_core.specs.Turns.{printed};
ghost use Rattle.folder_core.specs.Changes.{IsUnstarted, started};
ghost use Rattle.sealer_core.specs.Sealing.{FoldsFiles, HasSealed, IsOfSealing, IsWritten, ReservesFilesOnce};
ghost use Rattle.sealer_core.specs.Sealing.{range_asked, sealed_under};
ghost use Rattle.sealer.specs.Status.{IsOfCommand, IsStatusOf, IsStatusOver};

use crate::beginning::{Begun, begin_run, open_in_turn, refuse_run, tell_unrecorded};
use crate::files::{clear, outs_of, progress_of, streams_of};
use crate::kept::{destination_of, worked_of};
use crate::{OverFiles, Streams, print_complaint};
use clap::ArgMatches;
use command_line::{SealRequest, naming_asked, seal_request};
use container_core::Key;
use folder_core::Folder;
use ledger_core::ToWrite;
use sealer_core::{
    LedgerFile, MAX_BYTES, MAX_LANES, MAX_WINDOW, MAX_WORKERS, Outs, Report, SealOptions,
    SealingOutputs, Witness, seal_all,
};
use sqlite::{FileFrom, FileStore, Start};
use std::io::Write;
use std::rt::{Clock, Files};
use std::sync::Wait;
use std::thread::Threads;
use system_files::{FileOptions, Makes, OwnPaths, ProgressLine, SystemFiles};
use system_ledger::close_ledger;

/// Seals the files of these names. Returns the status, with the streams.
pub(crate) fn seal_as_asked<
    R: Files + AllocGlobal + Clock + Eprint + Threads + Wait + Sync,
    O: Write + Drop,
    E: Write + Drop,
>(
    rt: &R,
    host: &HostRuntime,
    matches: &ArgMatches<'_>,
    names: &[&str],
    streams: Streams<O, E>,
) -> (u8, Streams<O, E>)
    ensures status { IsStatusOver (IsOfCommand OverFiles.Seal matches.now) matches.now result.0
        (map (λ name. name.now) names.now) (O.contents streams.output.0) (O.contents result.1.output.0) }
{
    let request = match seal_request(matches, names) {
        Ok(request) => request,
        Err(fault) => return (print_complaint(rt, "usage", fault), streams),
    };
    let mut streams = streams;
    let naming = naming_asked(matches);
    let to = destination_of(Makes::Container, request.into, request.parents, naming);
    let causes = streams.terminals.causes;
    let output = &mut streams.output;
    let files = match worked_of(rt, matches, to, request.skip, names, output, causes) {
        Ok(files) => files,
        Err(status) => return (status, streams),
    };
    if files.is_empty() {
        return (0, streams);
    }
    let request = SealRequest {
        files: files.as_slice(),
        ..request
    };
    let Begun { key, journal, path } = match begin_run(rt, &request.run, causes) {
        Ok(begun) => begun,
        Err(status) => return (status, streams),
    };
    let (files, terminal) = (request.files, streams.terminals.errors);
    let progress = progress_of(rt, matches, to.names, files, 1, terminal);
    let progress = progress.as_ref();
    let options = FileOptions {
        names: to.names,
        outputs: to.names,
        target: to.target,
        sync: request.sync,
        private: request.private,
        // Sealing a ledger would make a copy of it.
        own: Some(OwnPaths {
            ledger: request.run.ledger,
            key: request.run.key,
            journal: request.run.journal,
            witness: request.run.witness,
        }),
        refuses_output: false,
        reads_again: false,
        reopens_input: false,
        spool: None,
        causes,
        warns_of_changes: true,
    };
    let mut folder: SystemFiles<'_, '_, R, R::File> = SystemFiles::new(rt, None, progress, options);
    if let Some(path) = &path {
        folder.keep_out(path.as_str());
    }
    seal_to(rt, host, &key, &request, folder, progress, journal, streams)
}

// Seals what is asked for, with the outputs in this folder.
fn seal_to<
    R: Files + AllocGlobal + Clock + Eprint + Threads + Wait + Sync,
    F: Folder + SealingOutputs + Drop,
    O: Write + Drop,
    E: Write + Drop,
>(
    rt: &R,
    host: &HostRuntime,
    key: &Key,
    request: &SealRequest<'_, '_>,
    folder: F,
    progress: Option<&ProgressLine<'_, R>>,
    journal: Option<ToWrite<R::File>>,
    streams: Streams<O, E>,
) -> (u8, Streams<O, E>)
    requires files { 0 < length request.now.files.now }
    requires workers { (0 < request.now.workers) × (request.now.workers ≤ MAX_WORKERS) }
    requires window { (0 < request.now.window) × (request.now.window ≤ MAX_WINDOW) }
    requires lanes { (0 < request.now.lanes) × (request.now.lanes ≤ MAX_LANES) }
    requires max_bytes { request.now.max_bytes ≤ MAX_BYTES }
    requires unstarted { IfSome (F.rest folder) IsUnstarted }
    ensures status { IsStatusOf (λ name. IsOfSealing) result.0 (map (λ name. name.now) request.now.files.now)
        (O.contents streams.output.0) (O.contents result.1.output.0) }
{
    let mut folder = folder;
    let terminals = streams.terminals;
    let mut out = outs_of(streams, progress, journal);
    let status = seal_in_turn(
        rt,
        host,
        key,
        request,
        &mut folder,
        &mut out,
        terminals.causes,
    );
    clear(progress);
    (status, streams_of(out, terminals))
}

// Seals the files once the ledger file is opened. Returns the status.
fn seal_in_turn<
    'r,
    R: Files + AllocGlobal + Eprint + Threads + Wait + Sync,
    F: Folder + SealingOutputs,
    L: Report + Drop,
    E: Report + Drop,
    J: Report + Drop,
>(
    rt: &R,
    host: &'r HostRuntime,
    key: &Key,
    request: &SealRequest<'_, 'r>,
    folder: &mut F,
    out: &mut Outs<L, E, J>,
    causes: bool,
) -> u8
    requires files { 0 < length request.now.files.now }
    requires workers { (0 < request.now.workers) × (request.now.workers ≤ MAX_WORKERS) }
    requires window { (0 < request.now.window) × (request.now.window ≤ MAX_WINDOW) }
    requires lanes { (0 < request.now.lanes) × (request.now.lanes ≤ MAX_LANES) }
    requires max_bytes { request.now.max_bytes ≤ MAX_BYTES }
    requires unstarted { IfSome (F.rest folder.old) IsUnstarted }
    ensures status { IsStatusOf (λ name. IsOfSealing) result (map (λ name. name.now) request.now.files.now)
        (L.taken out.old.lines) (L.taken out.new.lines) }
{
    let (mut file, mut witness) = match open_in_turn(host, &request.run, key) {
        Ok(opened) => opened,
        Err(refusal) => return refuse_run(rt, refusal, &request.run, causes),
    };
    let status = seal_from(rt, key, request, &mut file, &mut witness, folder, out);
    close_ledger(file);
    tell_unrecorded(rt, witness.refusal(), &request.run, causes);
    status
}

// The options of this request.
fn seal_options<'q>(request: &'q SealRequest<'q, '_>) -> SealOptions<'q>
    ensures device { result.device ≡ request.now.run.device }
    ensures files { result.files.now ≡ request.now.files.now }
    ensures workers { result.workers ≡ request.now.workers }
    ensures lanes { result.lanes ≡ request.now.lanes }
    ensures window { result.window ≡ request.now.window }
    ensures max_bytes { result.max_bytes ≡ request.now.max_bytes }
    ensures shape { result.shape.now ≡ request.now.shape }
{
    SealOptions {
        device: request.run.device,
        files: request.files,
        workers: request.workers,
        lanes: request.lanes,
        window: request.window,
        max_bytes: request.max_bytes,
        shape: &request.shape,
    }
}

/// Seals the files that are asked for under a range reserved in this ledger file, as it was opened. Returns the status.
/// `S` denotes what the ledger file and its log hold.
fn seal_from<
    R: AllocGlobal + Threads + Wait + Sync,
    S: Start,
    N: Witness,
    F: Folder + SealingOutputs,
    L: Report + Drop,
    E: Report + Drop,
    J: Report + Drop,
>(
    rt: &R,
    key: &Key,
    request: &SealRequest<'_, '_>,
    file: &mut LedgerFile<FileStore<FileFrom<S>>>,
    witness: &mut N,
    folder: &mut F,
    out: &mut Outs<L, E, J>,
) -> u8
    requires files { 0 < length request.now.files.now }
    requires workers { (0 < request.now.workers) × (request.now.workers ≤ MAX_WORKERS) }
    requires window { (0 < request.now.window) × (request.now.window ≤ MAX_WINDOW) }
    requires lanes { (0 < request.now.lanes) × (request.now.lanes ≤ MAX_LANES) }
    requires max_bytes { request.now.max_bytes ≤ MAX_BYTES }
    requires unstarted { IfSome (F.rest folder.old) IsUnstarted }
    // The ledger file was opened as it was found.
    requires found { (keeper : _) × (file.old ≡ LedgerFile.Kept keeper)
        × (HasCleanDisk (file_state keeper) → (it : IsFound over_files (image_at S.Start) keeper)
        × (request.now.run.may_make ≡ false → (file_state it.connection).now.schema.tables ≢ [])) }
    ensures status { result ≤ 2 }
    // At most one range was appended to it. Then no output was touched, or the files were sealed over a range reserved
    // there, with one legal history. The file has that range without its log, and the journal records the history.
    ensures run { ReservesFilesOnce LedgerFile.Kept LedgerFile.Folded (sha256 key.now) request.now.run.device
        (length request.now.files.now) file.old file.new
        × (((result ≡ 2) × (folder.new ≡ folder.old) × (out.new.lines ≡ out.old.lines)
        × (out.new.journal ≡ out.old.journal))
        ⊎ ((range : Numbers) × (history : List Entry) × (told : ℕ) × (written : Bool)
        × FoldsFiles LedgerFile.Kept LedgerFile.Folded
        (range_asked (sha256 key.now) request.now.run.device (length request.now.files.now)) file.old file.new range
        × IsLawfulRange range
        × IsWitnessed (N.floor witness.old) (N.recorded witness.old) (N.recorded witness.new) range
        × HasSealed (sealed_under key.now request.now.shape range.device request.now.max_bytes)
        (map (λ name. name.now) request.now.files.now) (terms_of range request.now.lanes) history told
        (printed (L.taken out.old.lines) (L.failures out.old.lines))
        (printed (L.taken out.new.lines) (L.failures out.new.lines))
        (option_map (started key.now range) (F.rest folder.old)) (F.rest folder.new)
        × IsWritten J.taken (journal_text (terms_of range request.now.lanes) history) written
        out.old.journal out.new.journal
        × (result ≡ (if written then told else 2)))) }
    ensures complaint { result ≢ 2 → out.new.faults ≡ out.old.faults }
    // Standard error takes one complaint, or a prefix of one, or nothing.
    ensures complains { (out.new.faults ≡ out.old.faults)
        ⊎ Complains (E.taken out.old.faults) (E.taken out.new.faults) }
{
    let options = seal_options(request);
    seal_all(rt, rt.alloc(), key, file, witness, folder, &options, out)
}
