//! The command that seals a stream: one number is reserved, and what a reader gives is sealed under it as it comes.
ghost use Rattle.std.specs.Prelude.{◌≡◌, ◌≢◌, ◌⊎◌, ℕ, Bool, List, [], ◌<◌, ◌≤◌, IfSome, OnErr, OnOk, option_map};
ghost use Rattle.std.specs.Prelude.{if◌then◌else◌};
ghost use Rattle.sha2.specs.Sha256.{sha256};
ghost use Rattle.sqlite.specs.Held.{Held};
ghost use Rattle.container_core.specs.Container.{container};
ghost use Rattle.journal_core.specs.declared.entry.Entry.{Entry};
ghost use Rattle.journal_core.specs.declared.entry.Way.TheVariants.{Sealed, Void};
ghost use Rattle.journal_core.specs.Journal.{terms_of};
ghost use Rattle.journal_core.specs.Range.{IsLawfulRange, Numbers, prefix_of};
ghost use Rattle.journal_core.specs.Text.{journal_text};
ghost use Rattle.ledger_core.specs.Closing.{AreAllSeats};
ghost use Rattle.ledger_core.specs.Shared.{fresh_seats, IsSameSeat, spent_as};
ghost use Rattle.io_core.specs.Views.{io_view};
ghost use Rattle.output_core.specs.Bounds.{Admits};
ghost use Rattle.sealing_core.specs.Piped.{HasPipedContainer};
ghost use Rattle.folder_core.specs.Changes.{IsFresh, IsNewStream, IsUnstarted, started};
ghost use Rattle.folder_core.specs.Record.{bound_in};
ghost use Rattle.command_core.specs.Printing.{Complains};
ghost use Rattle.command_core.specs.Turns.{Printed, printed};
ghost use Rattle.reserve_core.specs.Witness.{IsWitnessed};
ghost use Rattle.sealer_core.specs.Group.{IsStarted, piped_under};
ghost use Rattle.sealer_core.specs.Piping.{FollowsLine, HasSealedStream, IsPiped, pipe_view};
ghost use Rattle.sealer_core.specs.Sealing.{FoldsARange, IsWritten, ReservesOnce, operations_of, range_asked};
ghost use Rattle.sealer_core.specs.Sealing.{sealed_under};

use crate::context::PipeContext;
use crate::ending::end_ledger;
use crate::lane::{issue_to_file, settle_of_file};
use crate::sealing::{begin_ledger, start_record};
use crate::trouble::complain;
use command_core::{FileFault, FileOutcome, Outs, Report, SealingOutputs, tell};
use container_core::{Key, SealFault, Shape};
use crew_core::{Free, MAX_DEPTH, MAX_WORKERS};
use folder_core::laws::a_stream_goes_on;
use folder_core::{Outputs, Rest, lent_of, taken_in_hand};
use ledger_core::{Device, Grant, Seat, Source, Spent};
use reserve_core::{Fold, LedgerFile, Witness};
use sealing_core::run_pipe;
use std::alloc::Global;
use std::marker::Brand;
use std::sync::Wait;
use std::thread::Threads;

/// The exit status if the stream wasn't touched, or the line or the journal couldn't be written whole.
const TROUBLE: u8 = 2;

/// What the line of a stream calls it.
const STREAM: &str = "-";

/// The options of `pipe_all`.
#[derive(Clone, Copy)]
pub struct PipeOptions<'a> {
    /// The device under whose number the stream is sealed. No two machines that share a key may share one.
    pub device: Device,
    /// The number of workers: 1 to 16. The caller's thread is one of them, and does all reading and writing.
    pub workers: u32,
    /// How many chunks are read and not yet written, at most: 1 to 64.
    pub depth: u32,
    /// How many chunks the stream may have: at least 1.
    pub max_chunks: u32,
    /// The container's version, the size of its chunks, and its label.
    pub shape: &'a Shape,
}

// Seals by `run_pipe`. `N` names the record and the writer, so that both are known to be the same after it.
fn stream_named<'w, N: Rest, T: Threads + Wait + Sync, R: Source, W: Outputs>(
    rt: &T,
    context: &PipeContext<'_>,
    grant: Grant,
    reader: &mut R,
    writer: &'w mut W,
) -> (Result<u64, SealFault>, Spent, &'w mut W)
    requires rest { W.rest writer.old ≡ N.rest }
    requires reference { writer.ghost_name ≡ N.folder }
    requires may { (plain : List ℕ) → Admits (option_map bound_in N.rest) (W.taken writer.old) (container
        context.now.key.now context.now.options.now.shape.now (prefix_of grant.device grant.number) plain) }
    ensures rest { W.rest result.2.now ≡ N.rest }
    ensures reference { result.2.ghost_name ≡ writer.entry.ghost_name }
    ensures pipes { HasPipedContainer context.now.key.now context.now.options.now.shape.now
        (prefix_of grant.device grant.number) context.now.options.now.max_chunks
        (io_view (R.left reader.old) (R.failures reader.old) (W.taken writer.old) (W.failures writer.old))
        (io_view (R.left reader.new) (R.failures reader.new) (W.taken result.2.now) (W.failures result.2.now))
        result.0 }
    ensures sealed { OnOk result.0 (result.1 ≡ spent_as grant Sealed) }
    ensures void { OnErr result.0 (result.1 ≡ spent_as grant Void) }
{
    let mut output = taken_in_hand::<W, N>(writer);
    let options = context.options;
    let (sealed, spent) = run_pipe(
        rt,
        context.alloc,
        context.key,
        options.shape,
        grant,
        reader,
        &mut output,
        options.max_chunks,
        options.workers,
        options.depth,
        &Free,
    );
    (sealed, spent, lent_of(output))
}

// Seals what a reader gives into the stream in hand.
fn fill_stream<T: Threads + Wait + Sync, R: Source, W: Outputs>(
    rt: &T,
    context: &PipeContext<'_>,
    grant: Grant,
    reader: &mut R,
    writer: &mut W,
) -> (Result<u64, SealFault>, Spent)
    requires may { (plain : List ℕ) → Admits (option_map bound_in (W.rest writer.old)) (W.taken writer.old) (container
        context.now.key.now context.now.options.now.shape.now (prefix_of grant.device grant.number) plain) }
    ensures rest { W.rest writer.new ≡ W.rest writer.old }
    ensures pipes { HasPipedContainer context.now.key.now context.now.options.now.shape.now
        (prefix_of grant.device grant.number) context.now.options.now.max_chunks
        (io_view (R.left reader.old) (R.failures reader.old) (W.taken writer.old) (W.failures writer.old))
        (io_view (R.left reader.new) (R.failures reader.new) (W.taken writer.new) (W.failures writer.new))
        result.0 }
    ensures sealed { OnOk result.0 (result.1 ≡ spent_as grant Sealed) }
    ensures void { OnErr result.0 (result.1 ≡ spent_as grant Void) }
{
    let (sealed, spent, _writer) = stream_named::<Brand, T, R, W>(
        rt, context, grant, reader, writer,
    );
    (sealed, spent)
}

// Takes a stream in hand, and seals what a reader gives to it under the next number of the ledger. Then settles that
// number.
fn pipe_next<T: Threads + Wait + Sync, R: Source, W: Outputs>(
    rt: &T,
    context: &PipeContext<'_>,
    seat: &mut Seat,
    reader: &mut R,
    writer: &mut W,
    output: W::Handle,
) -> FileOutcome
    requires ours { (seat.old.ledger ≡ context.now.ledger.now.ledger) × (seat.old.terms ≡ context.now.ledger.now.terms) }
    requires unused { seat.old.mine ≡ [] }
    requires started { IfSome (W.rest writer.old) (IsStarted context.now.key.now context.now.ledger.now.terms.range) }
    requires new { IfSome (W.rest writer.old) (IsNewStream (W.Handle.at output)) }
    requires fresh { IsFresh (W.rest writer.old) (W.taken writer.old) (W.failures writer.old) }
    ensures same { IsSameSeat seat.old seat.new }
    ensures piped { IsPiped (piped_under context.now) (W.Handle.at output)
        (pipe_view (R.left reader.old) (R.failures reader.old) (W.taken writer.old) (W.failures writer.old)
        (W.rest writer.old))
        (pipe_view (R.left reader.new) (R.failures reader.new) (W.taken writer.new) (W.failures writer.new)
        (W.rest writer.new)) seat.new.mine result }
{
    a_stream_goes_on();
    let grant = match issue_to_file(context.ledger, seat) {
        Ok(grant) => grant,
        Err(fault) => return FileOutcome::Failed(fault),
    };
    let number = grant.number();
    let shape = context.options.shape;
    // Its contract says that it is the shape of a container.
    let _chunk = shape.chunk();
    writer.allow_container(output, number, shape);
    let (sealed, spent) = fill_stream(rt, context, grant, reader, writer);
    settle_of_file(context.ledger, seat, spent);
    match sealed {
        Ok(bytes) => FileOutcome::Sealed { number, bytes },
        Err(fault) => FileOutcome::Failed(FileFault::Unsealed(fault)),
    }
}

// Seals what a reader gives with the one seat of a new ledger.
fn pipe_alone<T: Threads + Wait + Sync, R: Source, W: Outputs>(
    rt: &T,
    context: &PipeContext<'_>,
    seats: &mut [Seat],
    reader: &mut R,
    writer: &mut W,
    output: W::Handle,
) -> FileOutcome
    requires all { AreAllSeats context.now.ledger.now seats.old }
    requires unused { seats.old ≡ fresh_seats context.now.ledger.now.ledger context.now.ledger.now.terms 1 }
    requires started { IfSome (W.rest writer.old) (IsStarted context.now.key.now context.now.ledger.now.terms.range) }
    requires new { IfSome (W.rest writer.old) (IsNewStream (W.Handle.at output)) }
    requires fresh { IsFresh (W.rest writer.old) (W.taken writer.old) (W.failures writer.old) }
    ensures all { AreAllSeats context.now.ledger.now seats.new }
    ensures piped { IsPiped (piped_under context.now) (W.Handle.at output)
        (pipe_view (R.left reader.old) (R.failures reader.old) (W.taken writer.old) (W.failures writer.old)
        (W.rest writer.old))
        (pipe_view (R.left reader.new) (R.failures reader.new) (W.taken writer.new) (W.failures writer.new)
        (W.rest writer.new)) (operations_of seats.new) result }
{
    pipe_next(rt, context, &mut seats[0], reader, writer, output)
}

/// Seals what a reader gives, to its end and as it comes, and writes its container to a stream, in the options' shape
/// and under its own number. `Stream` is any writer (`Sink`) as a stream: its output is `OneOutput`. The line, `sealed -
/// file NUMBER bytes N` or `failed -: FAULT`, goes to `out.faults`, since standard output is for the container.
///
/// Returns the exit status: 0 if the stream was sealed, 1 if that failed, 2 if no range was reserved, the ledger file
/// wasn't folded, the witness didn't record the range or no ledger opened (then nothing was read or written), if the line
/// couldn't be written, or if the journal couldn't be written whole. Each of these but the line has a text on standard
/// error. The stream stays in hand: it has no end of its own. Where no number was granted for it, `output` is unused: in the
/// record it stays new and open.
///
/// After a fault, what was written is a prefix of the stream's container: check the status, or open it. One range of
/// one number is reserved, for good, and is in the ledger file itself before the stream is read. Nobody else may write
/// the ledger file. No copied or restored ledger file may be used again with the same key and device: see `seal_all`.
pub fn pipe_all<
    T: Threads + Wait + Sync,
    S: Fold,
    N: Witness,
    R: Source,
    W: SealingOutputs,
    L: Report + Drop,
    E: Report + Drop,
    J: Report + Drop,
>(
    rt: &T,
    alloc: Global,
    key: &Key,
    file: &mut LedgerFile<S>,
    witness: &mut N,
    reader: &mut R,
    writer: &mut W,
    output: W::Handle,
    options: &PipeOptions,
    out: &mut Outs<L, E, J>,
) -> u8
    requires workers { (0 < options.now.workers) × (options.now.workers ≤ MAX_WORKERS) }
    requires depth { (0 < options.now.depth) × (options.now.depth ≤ MAX_DEPTH) }
    requires most { 0 < options.now.max_chunks }
    // Where the record is known, it has no key yet, and the output is a new stream that took nothing.
    requires unstarted { IfSome (W.rest writer.old) IsUnstarted }
    requires new { IfSome (W.rest writer.old) (IsNewStream (W.Handle.at output)) }
    requires fresh { IsFresh (W.rest writer.old) (W.taken writer.old) (W.failures writer.old) }
    ensures status { result ≤ 2 }
    // Nothing was read or written; or the stream was sealed over a range of one number that was reserved. The ledger
    // file has that range without its log; one legal history is in the journal. On standard error there is a complaint,
    // or the stream's line and after it at most a complaint, each perhaps cut short.
    ensures run { ((result ≡ 2) × (reader.new ≡ reader.old) × (writer.new ≡ writer.old)
        × (out.new.journal ≡ out.old.journal) × Complains (E.taken out.old.faults) (E.taken out.new.faults))
        ⊎ ((range : Numbers) × (history : List Entry) × (told : ℕ) × (written : Bool) × (line : Printed)
        × FoldsARange S.Store LedgerFile.Kept LedgerFile.Folded S.is_folded
        (range_asked (sha256 key.now) options.now.device 1) file.old file.new range
        × IsLawfulRange range
        × IsWitnessed (N.floor witness.old) (N.recorded witness.old) (N.recorded witness.new) range
        × HasSealedStream (sealed_under key.now options.now.shape.now range.device options.now.max_chunks)
        (W.Handle.at output)
        (pipe_view (R.left reader.old) (R.failures reader.old) (W.taken writer.old) (W.failures writer.old)
        (option_map (started key.now range) (W.rest writer.old)))
        (pipe_view (R.left reader.new) (R.failures reader.new) (W.taken writer.new) (W.failures writer.new)
        (W.rest writer.new)) (terms_of range 1) history told
        (printed (E.taken out.old.faults) (E.failures out.old.faults)) line
        × IsWritten J.taken (journal_text (terms_of range 1) history) written out.old.journal out.new.journal
        × (result ≡ (if written then told else 2))
        × FollowsLine written line (printed (E.taken out.new.faults) (E.failures out.new.faults))) }
    ensures output { out.new.lines ≡ out.old.lines }
    // At most one range is appended, and a crash leaves the lists from before or those with it.
    ensures once { ReservesOnce S.Store LedgerFile.Kept LedgerFile.Folded S.is_left (sha256 key.now)
        options.now.device 1 file.old file.new }
    // A ledger file that has no keeper stays as it is.
    ensures other { ((k : Held S) → file.old ≢ LedgerFile.Kept k) → file.new ≡ file.old }
{
    let (ledger, mut seats) = match begin_ledger(alloc, key, file, options.device, 1, 1, witness) {
        Ok(opened) => opened,
        Err(fault) => {
            complain(alloc, &mut out.faults, fault);
            return TROUBLE;
        }
    };
    a_stream_goes_on();
    start_record(file, key, &ledger, writer);
    let context = PipeContext {
        alloc,
        key,
        ledger: &ledger,
        options,
    };
    let outcome = pipe_alone(rt, &context, seats.as_mut_slice(), reader, writer, output);
    let told = tell(alloc, &mut out.faults, 0, STREAM, outcome);
    match end_ledger(alloc, ledger, seats, &mut out.journal) {
        Ok(()) => told,
        Err(fault) => {
            complain(alloc, &mut out.faults, fault);
            TROUBLE
        }
    }
}
