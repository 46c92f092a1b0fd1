//! What a run that seals begins with, and why it can't: its key, its journal, its ledger file and the witness of that.
ghost use Rattle.std.specs.Prelude.{◌≡◌, ◌≢◌, IfErr, IfOk, IfSome, None, Some, [], false, option_map, string_bytes};
ghost use Rattle.sqlite_wal.specs.Files.{image_at};
ghost use Rattle.sqlite.specs.Files.{file_state, over_files};
ghost use Rattle.sqlite.specs.State.{HasCleanDisk};
ghost use Rattle.reserve_core.specs.NextRun.{IsFound};

use crate::files::key_at;
use crate::{FAULT, explain, tell_cause};
use command_line::RunRequest;
use container_core::Key;
use ledger_core::{Device, ToWrite};
use sealer_core::LedgerFile;
use sqlite::{FileFrom, FileStore, Start, Wary};
use std::io::Error;
use std::rt::{Clock, Files};
use system_files::{About, Cause, JournalPlace, Step, new_journal};
use system_ledger::{
    FileWitness, LedgerFault, LedgerPath, MAX_TRIES, Turn, WitnessFault, WitnessPath,
    WitnessRefusal, may_open, open_ledger,
};

/// What a run that seals begins with: its key, and its journal.
#[derive(Drop)]
pub(crate) struct Begun<J: Drop> {
    pub(crate) key: Key,
    pub(crate) journal: Option<J>,
    /// The path of the journal, if it isn't the one that was given.
    pub(crate) path: Option<String>,
}

/// Begins a run that seals: reads the key file, and creates the journal. A fault is printed, with `causes` its cause too,
/// and the error is its status.
pub(crate) fn begin_run<R: Files + AllocGlobal + Clock + Eprint>(
    rt: &R,
    asked: &RunRequest<'_>,
    causes: bool,
) -> Result<Begun<ToWrite<R::File>>, u8>
    ensures status { IfErr result (λ status. status ≡ FAULT) }
{
    let key = match key_at(rt, asked.key, causes) {
        Ok(key) => key,
        Err(status) => return Err(status),
    };
    let place = journal_place(asked.journal, asked.journal_in, asked.device);
    match new_journal(rt, place, asked.ledger) {
        Ok((journal, path)) => Ok(Begun { key, journal, path }),
        Err(fault) => {
            let about = About::Known(fault.cause());
            Err(explain(rt, "journal", fault, causes, about))
        }
    }
}

// Where the journal is made: at this path, or in this folder for this device.
fn journal_place<'a>(
    path: Option<&'a str>,
    folder: Option<&'a str>,
    device: Device,
) -> JournalPlace<'a>
    ensures at { IfSome path.entry (λ path. result ≡ JournalPlace.At path) }
    ensures within { path.entry ≡ None → IfSome folder.entry (λ folder. result ≡ JournalPlace.In folder device) }
    ensures nowhere { path.entry ≡ None → folder.entry ≡ None → result ≡ JournalPlace.Nowhere }
{
    match (path, folder) {
        (Some(path), _) => JournalPlace::At(path),
        (None, Some(folder)) => JournalPlace::In(folder, device),
        (None, None) => JournalPlace::Nowhere,
    }
}

/// Returns the path of the journal that was made: this one, if it was chosen here, or else the given one.
pub(crate) fn journal_path<'a>(
    chosen: &'a Option<String>,
    given: Option<&'a str>,
) -> Option<&'a str>
    ensures chosen { IfSome chosen.now (λ path. option_map (λ path. path.now) result ≡ Some (string_bytes path)) }
    ensures given { chosen.now ≡ None → result ≡ given.entry }
{
    match chosen {
        Some(path) => Some(path.as_str()),
        None => given,
    }
}

/// Why a run can't begin over its ledger file.
#[derive(Clone, Copy)]
pub(crate) enum Refusal {
    /// The ledger file, at this step.
    Ledger(LedgerFault, Step),
    /// The witness.
    Witness(WitnessFault),
}

/// Opens the ledger file that is asked for, and its witness. If another process holds it, the run waits as long as it is
/// asked to.
pub(crate) fn open_in_turn<'r>(
    host: &'r HostRuntime,
    asked: &RunRequest<'r>,
    key: &Key,
) -> Result<(LedgerFile<FileStore<FileFrom<Wary>>>, FileWitness<'r>), Refusal>
    ensures found { IfOk result (λ r. (keeper : _) × (r.0 ≡ LedgerFile.Kept keeper)
        × (HasCleanDisk (file_state keeper) → (it : IsFound over_files (image_at ⟦<Wary as Start>⟧) keeper)
        × (asked.now.may_make ≡ false → (file_state it.connection).now.schema.tables ≢ []))) }
{
    let mut turn = Turn::new(host, asked.ledger, asked.wait);
    for _ in 0..MAX_TRIES {
        match open_now(host, asked, key, Wary) {
            Ok(opened) => return Ok(opened),
            Err(refusal) => {
                if !comes_again(&mut turn, refusal) {
                    return Err(refusal);
                }
            }
        }
    }
    Err(Refusal::Ledger(LedgerFault::Held, Step::Open))
}

// Checks whether the ledger file may be opened, reads the witness that is asked for, and opens the ledger file. `S`
// denotes what the ledger file and its log hold.
fn open_now<'r, S: Start>(
    host: &'r HostRuntime,
    asked: &RunRequest<'r>,
    key: &Key,
    start: S,
) -> Result<(LedgerFile<FileStore<FileFrom<S>>>, FileWitness<'r>), Refusal>
    ensures found { IfOk result (λ r. (keeper : _) × (r.0 ≡ LedgerFile.Kept keeper)
        × (HasCleanDisk (file_state keeper) → (it : IsFound over_files (image_at S.Start) keeper)
        × (asked.now.may_make ≡ false → (file_state it.connection).now.schema.tables ≢ []))) }
{
    let witness = match look(host, asked, key) {
        Ok(witness) => witness,
        Err(refusal) => return Err(refusal),
    };
    match open_ledger(host, &ledger_path(asked), start) {
        Ok(file) => Ok((file, witness)),
        Err(fault) => Err(Refusal::Ledger(fault, Step::Open)),
    }
}

// The ledger file that is asked for.
fn ledger_path<'a>(asked: &RunRequest<'a>) -> LedgerPath<'a>
    ensures path { result.path.now ≡ asked.now.ledger.now }
    ensures may_make { result.may_make ≡ asked.now.may_make }
{
    LedgerPath {
        path: asked.ledger,
        may_make: asked.may_make,
    }
}

// The witness that is asked for.
fn witness_path<'a>(asked: &RunRequest<'a>) -> WitnessPath<'a>
    ensures path { result.path ≡ asked.now.witness }
    ensures is_new { result.is_new ≡ asked.now.new_witness }
{
    WitnessPath {
        path: asked.witness,
        is_new: asked.new_witness,
    }
}

// Checks whether the ledger file may be opened, then reads the witness that is asked for.
fn look<'r>(
    host: &'r HostRuntime,
    asked: &RunRequest<'r>,
    key: &Key,
) -> Result<FileWitness<'r>, Refusal> {
    match may_open(host, &ledger_path(asked)) {
        Ok(()) => {}
        Err(fault) => return Err(Refusal::Ledger(fault, Step::Check)),
    }
    match FileWitness::open(
        host,
        witness_path(asked),
        asked.ledger,
        &key.id(),
        asked.device,
    ) {
        Ok(witness) => Ok(witness),
        Err(WitnessRefusal::Ledger(fault)) => Err(Refusal::Ledger(fault, Step::Check)),
        Err(WitnessRefusal::Witness(fault)) => Err(Refusal::Witness(fault)),
    }
}

// Whether a run that was refused tries again. If another process holds the ledger file, it waits before.
fn comes_again(turn: &mut Turn<'_>, refusal: Refusal) -> bool {
    match refusal {
        Refusal::Ledger(fault, _) => turn.comes_again(fault),
        Refusal::Witness(_) => false,
    }
}

/// Prints why a run can't begin, with `causes` the cause too. Returns the status.
pub(crate) fn refuse_run<R: Files + AllocGlobal + Eprint>(
    rt: &R,
    refusal: Refusal,
    asked: &RunRequest<'_>,
    causes: bool,
) -> u8
    ensures status { result ≡ FAULT }
{
    match refusal {
        Refusal::Ledger(fault, step) => {
            let about = About::Ledger {
                path: asked.ledger,
                fault,
                step,
            };
            explain(rt, "ledger", fault, causes, about)
        }
        Refusal::Witness(fault) => {
            let about = about_witness(fault, asked.witness.unwrap_or(""));
            explain(rt, "witness", fault, causes, about)
        }
    }
}

// What a fault of the witness at this path is about.
fn about_witness(fault: WitnessFault, path: &str) -> About<'_>
    ensures line { fault ≡ WitnessFault.NoLine → result ≡ About.Known Cause.NoLine }
    ensures room { fault ≡ WitnessFault.Full → result ≡ About.Known Cause.NoRoom }
    ensures ledger { fault ≡ WitnessFault.OfLedger → result ≡ About.Known Cause.OfLedger }
    ensures memory { fault ≡ WitnessFault.OutOfMemory → result ≡ About.Known Cause.OutOfMemory }
{
    match fault {
        WitnessFault::NotThere => About::Input(path),
        WitnessFault::CannotOpen(kind) => About::Known(Cause::of(&Error::from(kind))),
        WitnessFault::CannotCreate(kind) => About::Known(Cause::of_making(&Error::from(kind))),
        WitnessFault::NoLine => About::Known(Cause::NoLine),
        WitnessFault::OfLedger => About::Known(Cause::OfLedger),
        WitnessFault::NotWitness => About::Witness(path),
        WitnessFault::Full => About::Known(Cause::NoRoom),
        WitnessFault::OutOfMemory => About::Known(Cause::OutOfMemory),
    }
}

/// Prints why the witness couldn't record the run's range, if it couldn't and causes are printed.
pub(crate) fn tell_unrecorded<R: Files + AllocGlobal + Eprint>(
    rt: &R,
    unrecorded: Option<WitnessRefusal>,
    asked: &RunRequest<'_>,
    causes: bool,
) {
    match unrecorded {
        Some(WitnessRefusal::Witness(fault)) if causes => {
            tell_cause(rt, about_witness(fault, asked.witness.unwrap_or("")));
        }
        Some(WitnessRefusal::Ledger(fault)) if causes => {
            let about = About::Ledger {
                path: asked.ledger,
                fault,
                step: Step::Check,
            };
            tell_cause(rt, about);
        }
        _ => {}
    }
}
