//! The command that seals a stream, and the ledger file over which it seals it.
ghost use Rattle.std.specs.Prelude.{◌≡◌, ◌⊎◌, ◌<◌, ◌≤◌, ℕ, Bool, List, None, ◌≢◌, [], false, if◌then◌else◌};
ghost use Rattle.sha2.specs.Sha256.{sha256};
ghost use Rattle.journal_core.specs.declared.entry.Entry.{Entry};
ghost use Rattle.journal_core.specs.Journal.{terms_of};
ghost use Rattle.journal_core.specs.Range.{IsLawfulRange, Numbers};
ghost use Rattle.journal_core.specs.Text.{journal_text};
ghost use Rattle.sqlite_wal.specs.Files.{image_at};
ghost use Rattle.sqlite.specs.Files.{file_state, over_files};
ghost use Rattle.sqlite.specs.State.{HasCleanDisk};
ghost use Rattle.reserve_core.specs.NextRun.{IsFound};
ghost use Rattle.reserve_core.specs.Witness.{IsWitnessed};
ghost use Rattle.command_core.specs.Printing.{Complains};
ghost use Rattle.command_core.specs.Turns.{Printed, printed};
ghost use Rattle.sealer_core.specs.Piping.{FollowsLine, HasSealedStream, pipe_view};
ghost use Rattle.sealer_core.specs.Sealing.{FoldsFiles, IsWritten, ReservesFilesOnce, range_asked, sealed_under};
ghost use Rattle.sealer.specs.Pipes.{PipesAsAsked, PipesUnder};

use crate::beginning::{Begun, begin_run, journal_path, open_in_turn, refuse_run, tell_unrecorded};
use crate::{Streams, print_complaint};
use clap::ArgMatches;
use command_line::{PipeRequest, UsageFault, pipe_request};
use container_core::Key;
use ledger_core::{FromRead, Sink, Source, ToWrite};
use sealer_core::{
    LedgerFile, MAX_DEPTH, MAX_WORKERS, OneOutput, Outs, PipeOptions, Report, Stream, Witness,
    pipe_all,
};
use sqlite::{FileFrom, FileStore, Start};
use std::io::{Read, Write, sink};
use std::rt::{Clock, Files};
use std::sync::Wait;
use std::thread::Threads;
use system_files::{OwnPaths, StandardInput};
use system_ledger::close_ledger;

/// Seals the input and writes the container to the output. A terminal is refused as output, unless it was asked for.
/// Returns the status, with the streams.
#[tactic(auto, using(crate::proofs::Pipes::untouched))]
pub(crate) fn pipe_as_asked<
    R: Files + AllocGlobal + Clock + Eprint + Threads + Wait + Sync,
    I: Read + Drop,
    O: Write + Drop,
    E: Write + Drop,
>(
    rt: &R,
    host: &HostRuntime,
    matches: &ArgMatches<'_>,
    input: I,
    streams: Streams<O, E>,
) -> (u8, Streams<O, E>)
    ensures pipes { PipesAsAsked matches.now (I.remaining input) result.0
        (O.contents streams.output.0) (O.contents result.1.output.0)
        (E.contents streams.errors.0) (E.contents result.1.errors.0) }
{
    let request = match pipe_request(matches) {
        Ok(request) => request,
        Err(fault) => return (print_complaint(rt, "usage", fault), streams),
    };
    if streams.terminals.output && !request.to_terminal {
        return (print_complaint(rt, "usage", UsageFault::Terminal), streams);
    }
    let causes = streams.terminals.causes;
    let Begun { key, journal, path } = match begin_run(rt, &request.run, causes) {
        Ok(begun) => begun,
        Err(status) => return (status, streams),
    };
    let own = OwnPaths {
        ledger: request.run.ledger,
        key: request.run.key,
        journal: journal_path(&path, request.run.journal),
        witness: request.run.witness,
    };
    let mut input = FromRead(StandardInput::new(rt, input, own));
    let mut streams = streams;
    let mut writer = Stream {
        writer: streams.output,
    };
    let mut out = Outs {
        lines: ToWrite(sink()),
        faults: streams.errors,
        journal,
    };
    let status = pipe_in_turn(
        rt,
        host,
        &key,
        &request,
        &mut input,
        &mut writer,
        &mut out,
        causes,
    );
    let Stream { writer: output } = writer;
    streams.output = output;
    streams.errors = out.faults;
    (status, streams)
}

// Seals the input once the ledger file is opened. Returns the status.
fn pipe_in_turn<
    'r,
    T: Files + AllocGlobal + Eprint + Threads + Wait + Sync,
    R: Source,
    W: Sink,
    L: Report + Drop,
    E: Report + Drop,
    J: Report + Drop,
>(
    rt: &T,
    host: &'r HostRuntime,
    key: &Key,
    request: &PipeRequest<'r>,
    reader: &mut R,
    writer: &mut Stream<W>,
    out: &mut Outs<L, E, J>,
    causes: bool,
) -> u8
    requires workers { (0 < request.now.workers) × (request.now.workers ≤ MAX_WORKERS) }
    requires depth { (0 < request.now.depth) × (request.now.depth ≤ MAX_DEPTH) }
    requires most { 0 < request.now.max_chunks }
    ensures pipes { PipesUnder key.now request.now.shape request.now.run.device (R.left reader.old)
        (W.taken writer.old.writer) (W.taken writer.new.writer) result
        (E.taken out.old.faults) (E.taken out.new.faults) }
{
    let (mut file, mut witness) = match open_in_turn(host, &request.run, key) {
        Ok(opened) => opened,
        Err(refusal) => return refuse_run(rt, refusal, &request.run, causes),
    };
    let status = pipe_from(
        rt,
        key,
        request,
        &mut file,
        &mut witness,
        reader,
        writer,
        out,
    );
    close_ledger(file);
    tell_unrecorded(rt, witness.refusal(), &request.run, causes);
    status
}

// The options of this request.
fn pipe_options<'q>(request: &'q PipeRequest<'_>) -> PipeOptions<'q>
    ensures device { result.device ≡ request.now.run.device }
    ensures workers { result.workers ≡ request.now.workers }
    ensures depth { result.depth ≡ request.now.depth }
    ensures max_chunks { result.max_chunks ≡ request.now.max_chunks }
    ensures shape { result.shape.now ≡ request.now.shape }
{
    PipeOptions {
        device: request.run.device,
        workers: request.workers,
        depth: request.depth,
        max_chunks: request.max_chunks,
        shape: &request.shape,
    }
}

/// Seals a stream under a range of one number reserved in this ledger file, as it was opened. Returns the status. `S`
/// denotes what the ledger file and its log hold.
fn pipe_from<
    T: AllocGlobal + Threads + Wait + Sync,
    S: Start,
    N: Witness,
    R: Source,
    W: Sink,
    L: Report + Drop,
    E: Report + Drop,
    J: Report + Drop,
>(
    rt: &T,
    key: &Key,
    request: &PipeRequest<'_>,
    file: &mut LedgerFile<FileStore<FileFrom<S>>>,
    witness: &mut N,
    reader: &mut R,
    writer: &mut Stream<W>,
    out: &mut Outs<L, E, J>,
) -> u8
    requires workers { (0 < request.now.workers) × (request.now.workers ≤ MAX_WORKERS) }
    requires depth { (0 < request.now.depth) × (request.now.depth ≤ MAX_DEPTH) }
    requires most { 0 < request.now.max_chunks }
    // The ledger file was opened as it was found.
    requires found { (keeper : _) × (file.old ≡ LedgerFile.Kept keeper)
        × (HasCleanDisk (file_state keeper) → (it : IsFound over_files (image_at S.Start) keeper)
        × (request.now.run.may_make ≡ false → (file_state it.connection).now.schema.tables ≢ [])) }
    ensures status { result ≤ 2 }
    // At most one range was appended to it. Then nothing was read or written, or the stream was sealed over a range of
    // one number reserved there, with one legal history. The file has that range without its log, and the journal records
    // the history. Standard error takes a complaint, or the stream's line and then at most one complaint. Each may be cut
    // short. A writer has no record.
    ensures run { ReservesFilesOnce LedgerFile.Kept LedgerFile.Folded (sha256 key.now) request.now.run.device 1
        file.old file.new
        × (((result ≡ 2) × (reader.new ≡ reader.old) × (writer.new ≡ writer.old) × (out.new.journal ≡ out.old.journal)
        × Complains (E.taken out.old.faults) (E.taken out.new.faults))
        ⊎ ((range : Numbers) × (history : List Entry) × (told : ℕ) × (written : Bool) × (line : Printed)
        × FoldsFiles LedgerFile.Kept LedgerFile.Folded (range_asked (sha256 key.now) request.now.run.device 1)
        file.old file.new range
        × IsLawfulRange range
        × IsWitnessed (N.floor witness.old) (N.recorded witness.old) (N.recorded witness.new) range
        × HasSealedStream (sealed_under key.now request.now.shape range.device request.now.max_chunks) 0
        (pipe_view (R.left reader.old) (R.failures reader.old)
        (W.taken writer.old.writer) (W.failures writer.old.writer) None)
        (pipe_view (R.left reader.new) (R.failures reader.new)
        (W.taken writer.new.writer) (W.failures writer.new.writer) None)
        (terms_of range 1) history told (printed (E.taken out.old.faults) (E.failures out.old.faults)) line
        × IsWritten J.taken (journal_text (terms_of range 1) history) written out.old.journal out.new.journal
        × (result ≡ (if written then told else 2))
        × FollowsLine written line (printed (E.taken out.new.faults) (E.failures out.new.faults)))) }
{
    let options = pipe_options(request);
    let alloc = rt.alloc();
    pipe_all(
        rt, alloc, key, file, witness, reader, writer, OneOutput, &options, out,
    )
}
