//! The command that seals: one range of file numbers is reserved, and each file is sealed under one of them.
//!
//! A range is reserved for good before any file is touched, and is in the ledger file itself, so a number that a run
//! didn't use is given up. Files are sealed in turn with one lane, or in groups with several.
ghost use Rattle.std.specs.Prelude.{◌≡◌, ◌≢◌, ◌⊎◌, ℕ, Bool, ◌<◌, ◌≤◌, List, length, map, IfOk, is_ok};
ghost use Rattle.std.specs.Prelude.{if◌then◌else◌, IfSome, option_map};
ghost use Rattle.sha2.specs.Sha256.{sha256};
ghost use Rattle.sqlite.specs.Held.{Held, state};
ghost use Rattle.journal_core.specs.declared.entry.Entry.{Entry};
ghost use Rattle.journal_core.specs.Journal.{terms_of};
ghost use Rattle.journal_core.specs.Range.{IsLawfulRange, Numbers};
ghost use Rattle.journal_core.specs.Text.{journal_text};
ghost use Rattle.ledger_core.specs.Closing.{AreAllSeats};
ghost use Rattle.ledger_core.specs.Shared.{fresh_seats};
ghost use Rattle.command_core.specs.Printing.{Complains};
ghost use Rattle.command_core.specs.GrantedRange.{IsGrantedIn};
ghost use Rattle.reserve_core.specs.Lasting.{StillLast};
ghost use Rattle.reserve_core.specs.Witness.{IsWitnessed};
ghost use Rattle.folder_core.specs.Changes.{Becomes, IsUnstarted, started};
ghost use Rattle.command_core.specs.Turns.{printed};
ghost use Rattle.sealer_core.specs.Group.{IsStarted};
ghost use Rattle.sealer_core.specs.Sealing.{AppendsOnce, AreLawful, CrashesAround, FoldsARange, HasSealed, IsReserved};
ghost use Rattle.sealer_core.specs.Sealing.{IsWritten, ReservesOnce, range_asked, sealed_under};

use crate::context::SealContext;
use crate::ending::end_ledger;
use crate::group::seal_groups;
use crate::trouble::{RunFault, complain};
use command_core::{MAX_BYTES, Outs, Report, SealingOutputs};
use container_core::{Key, Shape};
use crew_core::{MAX_LANES, MAX_WINDOW, MAX_WORKERS};
use folder_core::Folder;
use folder_core::laws::no_number_without_a_key;
use ledger_core::{Device, Ledger, Range, Seat};
use reserve_core::{Fold, Keeper, LedgerFile, ReserveFault, Unrecorded, Witness};
use sqlite::Alter;
use std::alloc::Global;
use std::sync::Wait;
use std::thread::Threads;

/// The exit status if no file was touched, or the journal couldn't be written whole.
const TROUBLE: u8 = 2;

/// What `seal_all` works on.
#[derive(Clone, Copy)]
pub struct SealOptions<'a> {
    /// The device under whose numbers the files are sealed. No two machines that share a key may share one.
    pub device: Device,
    /// The names of the files: at least one.
    pub files: &'a [&'a str],
    /// The number of workers that seal a file: 1 to 16. With more than one lane each file is sealed by its lane alone.
    pub workers: u32,
    /// The greatest number of files sealed at once: 1 to 16. With n > 1, n inputs and containers are in memory at a
    /// time. A group is sealed with a lane for each 256 KiB of its files, and at least one; a longer file counts as
    /// 256 KiB.
    pub lanes: u32,
    /// How many chunks of a file one lane seals at a time: 1 to 256. With more than one lane it has no effect.
    pub window: u32,
    /// The greatest number of plaintext bytes of a file: at most 2^40.
    pub max_bytes: u64,
    /// The version of all containers, the size of their chunks, and their label.
    pub shape: &'a Shape,
}

// Reserves as many numbers as there are files, from `floor` on.
fn reserve_by<S: Alter>(
    keeper: &mut Keeper<S>,
    key: &Key,
    device: Device,
    files: usize,
    floor: u64,
) -> Result<Range, RunFault>
    ensures reserved { IfOk result (IsReserved (sha256 key.now) device files (state S.Store keeper.old)
        (state S.Store keeper.new)) }
    ensures once { AppendsOnce (sha256 key.now) device files (state S.Store keeper.old) (state S.Store keeper.new) }
    ensures crash { CrashesAround (sha256 key.now) device files (state S.Store keeper.old) (state S.Store keeper.new) }
    ensures kept { StillLast S.Store keeper.old keeper.new }
    ensures floor { IfOk result (λ range. floor ≤ range.lo) }
{
    if files > u32::MAX as usize {
        return Err(RunFault::Unreserved(ReserveFault::TooMany));
    }
    match keeper.reserve_from(&key.id(), device, files as u32, floor) {
        Ok(range) => Ok(range),
        Err(fault) => Err(RunFault::Unreserved(fault)),
    }
}

// Reserves as many numbers as there are files, and copies the log into the ledger file.
fn reserve_for<S: Fold>(
    file: &mut LedgerFile<S>,
    key: &Key,
    device: Device,
    files: usize,
    floor: u64,
) -> Result<Range, RunFault>
    ensures reserved { IfOk result (FoldsARange S.Store LedgerFile.Kept LedgerFile.Folded S.is_folded
        (range_asked (sha256 key.now) device files) file.old file.new) }
    ensures once { ReservesOnce S.Store LedgerFile.Kept LedgerFile.Folded S.is_left (sha256 key.now) device files
        file.old file.new }
    ensures other { ((k : Held S) → file.old ≢ LedgerFile.Kept k) → file.new ≡ file.old }
    ensures floor { IfOk result (λ range. floor ≤ range.lo) }
{
    let range = match file {
        LedgerFile::Kept(keeper) => reserve_by(keeper, key, device, files, floor)?,
        _ => return Err(RunFault::Unreserved(ReserveFault::Store)),
    };
    match file.fold() {
        Ok(()) => Ok(range),
        Err(fault) => Err(RunFault::Unreserved(fault)),
    }
}

/// Opens a ledger over a new range, with a seat for each lane. The witness has recorded the range.
pub(crate) fn begin_ledger<S: Fold, N: Witness>(
    alloc: Global,
    key: &Key,
    file: &mut LedgerFile<S>,
    device: Device,
    files: usize,
    lanes: u32,
    witness: &mut N,
) -> Result<(Ledger, Vec<Seat>), RunFault>
    ensures reserved { IfOk result (λ r. FoldsARange S.Store LedgerFile.Kept LedgerFile.Folded S.is_folded
        (range_asked (sha256 key.now) device files) file.old file.new r.0.terms.range) }
    ensures opened { IfOk result (λ r. (r.0.terms.seats ≡ lanes) × AreAllSeats r.0 r.1.items
        × (r.1.items ≡ fresh_seats r.0.ledger r.0.terms lanes)) }
    ensures lawful { IfOk result (λ r. IsLawfulRange r.0.terms.range) }
    ensures once { ReservesOnce S.Store LedgerFile.Kept LedgerFile.Folded S.is_left (sha256 key.now) device files
        file.old file.new }
    ensures other { ((k : Held S) → file.old ≢ LedgerFile.Kept k) → file.new ≡ file.old }
    ensures witnessed { IfOk result (λ r. IsWitnessed (N.floor witness.old) (N.recorded witness.old)
        (N.recorded witness.new) r.0.terms.range) }
{
    let range = match reserve_for(file, key, device, files, witness.floor()) {
        Ok(range) => range,
        Err(fault) => return Err(fault),
    };
    // It shows that the range is a lawful one.
    let _lawful = range.size();
    match witness.record(&key.id(), &range) {
        Ok(()) => {}
        Err(Unrecorded) => return Err(RunFault::Unrecorded),
    }
    match Ledger::open(alloc, range, lanes) {
        Ok(opened) => Ok(opened),
        Err(_) => Err(RunFault::NoLedger),
    }
}

/// Gives the record of a run the key and the range of the ledger. No output in it has a number.
pub(crate) fn start_record<S: Fold, F: SealingOutputs>(
    file: &LedgerFile<S>,
    key: &Key,
    ledger: &Ledger,
    outputs: &mut F,
)
    requires stands { IsGrantedIn S.Store LedgerFile.Kept LedgerFile.Folded S.is_folded key.now file.now
        ledger.now.terms.range }
    requires unstarted { IfSome (F.rest outputs.old) IsUnstarted }
    ensures taken { F.taken outputs.new ≡ F.taken outputs.old }
    ensures failures { F.failures outputs.new ≡ F.failures outputs.old }
    ensures began { Becomes (started key.now ledger.now.terms.range) (F.rest outputs.old) (F.rest outputs.new) }
    ensures started { IfSome (F.rest outputs.new) (IsStarted key.now ledger.now.terms.range) }
{
    no_number_without_a_key();
    outputs.start(file, key, ledger);
}

// Seals the files over a new ledger, and ends it. The ledger file has all numbers of its range for good. Returns the
// status of the lines, and how the ledger ended.
fn work_ledger<
    T: Threads + Wait + Sync,
    S: Fold,
    F: Folder + SealingOutputs,
    L: Report + Drop,
    E: Report + Drop,
    J: Report + Drop,
>(
    rt: &T,
    alloc: Global,
    key: &Key,
    file: &LedgerFile<S>,
    ledger: Ledger,
    mut seats: Vec<Seat>,
    folder: &mut F,
    options: &SealOptions,
    out: &mut Outs<L, E, J>,
) -> (u8, Result<(), RunFault>)
    requires stands { IsGrantedIn S.Store LedgerFile.Kept LedgerFile.Folded S.is_folded key.now file.now
        ledger.terms.range }
    requires all { AreAllSeats ledger seats.items }
    requires lanes { (0 < options.now.lanes) × (options.now.lanes ≤ MAX_LANES)
        × (ledger.terms.seats ≡ options.now.lanes) }
    requires fresh { seats.items ≡ fresh_seats ledger.ledger ledger.terms options.now.lanes }
    requires options { AreLawful options.now }
    requires unstarted { IfSome (F.rest folder.old) IsUnstarted }
    ensures sealed { (history : List Entry)
        × HasSealed (sealed_under key.now options.now.shape.now ledger.terms.range.device options.now.max_bytes)
        (map (λ name. name.now) options.now.files.now) ledger.terms history result.0
        (printed (L.taken out.old.lines) (L.failures out.old.lines))
        (printed (L.taken out.new.lines) (L.failures out.new.lines))
        (option_map (started key.now ledger.terms.range) (F.rest folder.old)) (F.rest folder.new)
        × IsWritten J.taken (journal_text ledger.terms history) (is_ok result.1)
        out.old.journal out.new.journal }
    ensures faults { out.new.faults ≡ out.old.faults }
{
    start_record(file, key, &ledger, folder);
    let context = SealContext {
        alloc,
        key,
        ledger: &ledger,
        options,
    };
    let told = seal_groups(rt, &context, seats.as_mut_slice(), folder, &mut out.lines);
    (told, end_ledger(alloc, ledger, seats, &mut out.journal))
}

/// Seals each file to its name and `.stm`, which must not exist yet, in the options' shape and under its own number. A
/// file of more than `max_bytes` bytes is too long.
///
/// Returns the exit status:
/// - 0: every file was sealed.
/// - 1: a file failed. Its output is given up: the folder is asked to remove it. What it held is nothing, or a prefix
///   of its input's container under a void number.
/// - 2: no range was reserved, the ledger file wasn't folded, the witness didn't record the range, or no ledger opened.
///   Then no file was touched.
/// - 2: a line couldn't be written, or the journal not whole. After such a line no further one is tried; files and
///   journal are still processed.
///
/// Each status 2 has a text on standard error, but for a line.
///
/// At most one range is reserved, with as many numbers as there are files, and for good: what it leaves unused is given
/// up. Before the first file is opened the ledger file is folded, so it has the range without its log. After that it
/// has no keeper, and a further run opens it anew. Nobody else may write the ledger file. No copied or restored ledger
/// file may be used again with the same key and device: a witness, if there is one (else `Unwitnessed`), allows no
/// range below the numbers that it saw, and has recorded this one before a file is touched. A folder that keeps a record
/// serves one run.
pub fn seal_all<
    T: Threads + Wait + Sync,
    S: Fold,
    N: Witness,
    F: Folder + SealingOutputs,
    L: Report + Drop,
    E: Report + Drop,
    J: Report + Drop,
>(
    rt: &T,
    alloc: Global,
    key: &Key,
    file: &mut LedgerFile<S>,
    witness: &mut N,
    folder: &mut F,
    options: &SealOptions,
    out: &mut Outs<L, E, J>,
) -> u8
    requires files { 0 < length options.now.files.now }
    requires workers { (0 < options.now.workers) × (options.now.workers ≤ MAX_WORKERS) }
    requires window { (0 < options.now.window) × (options.now.window ≤ MAX_WINDOW) }
    requires lanes { (0 < options.now.lanes) × (options.now.lanes ≤ MAX_LANES) }
    requires max_bytes { options.now.max_bytes ≤ MAX_BYTES }
    // The folder's record has no key yet, and nothing is in hand.
    requires unstarted { IfSome (F.rest folder.old) IsUnstarted }
    ensures status { result ≤ 2 }
    // No file was touched; or the files were sealed over a range that was reserved. The ledger file has that range
    // without its log; one legal history is in the journal.
    ensures run { ((result ≡ 2) × (folder.new ≡ folder.old) × (out.new.lines ≡ out.old.lines)
        × (out.new.journal ≡ out.old.journal))
        ⊎ ((range : Numbers) × (history : List Entry) × (told : ℕ) × (written : Bool)
        × FoldsARange S.Store LedgerFile.Kept LedgerFile.Folded S.is_folded
        (range_asked (sha256 key.now) options.now.device (length options.now.files.now)) file.old file.new range
        × IsLawfulRange range
        × IsWitnessed (N.floor witness.old) (N.recorded witness.old) (N.recorded witness.new) range
        × HasSealed (sealed_under key.now options.now.shape.now range.device options.now.max_bytes)
        (map (λ name. name.now) options.now.files.now) (terms_of range options.now.lanes) history told
        (printed (L.taken out.old.lines) (L.failures out.old.lines))
        (printed (L.taken out.new.lines) (L.failures out.new.lines))
        (option_map (started key.now range) (F.rest folder.old)) (F.rest folder.new)
        × IsWritten J.taken (journal_text (terms_of range options.now.lanes) history) written
        out.old.journal out.new.journal
        × (result ≡ (if written then told else 2))) }
    ensures complaint { result ≢ 2 → out.new.faults ≡ out.old.faults }
    // Standard error takes one complaint, or a prefix of one, or nothing.
    ensures complains { (out.new.faults ≡ out.old.faults)
        ⊎ Complains (E.taken out.old.faults) (E.taken out.new.faults) }
    // At most one range is appended, and a crash leaves the lists from before or those with it: up to the fold, and of
    // what a fold left.
    ensures once { ReservesOnce S.Store LedgerFile.Kept LedgerFile.Folded S.is_left (sha256 key.now)
        options.now.device (length options.now.files.now) file.old file.new }
    // A ledger file that has no keeper stays as it is.
    ensures other { ((k : Held S) → file.old ≢ LedgerFile.Kept k) → file.new ≡ file.old }
{
    let (device, files, lanes) = (options.device, options.files.len(), options.lanes);
    let (ledger, seats) = match begin_ledger(alloc, key, file, device, files, lanes, witness) {
        Ok(opened) => opened,
        Err(fault) => {
            complain(alloc, &mut out.faults, fault);
            return TROUBLE;
        }
    };
    let (told, ended) = work_ledger(rt, alloc, key, file, ledger, seats, folder, options, out);
    match ended {
        Ok(()) => told,
        Err(fault) => {
            complain(alloc, &mut out.faults, fault);
            TROUBLE
        }
    }
}
