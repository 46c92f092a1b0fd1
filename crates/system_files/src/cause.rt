//! Why a run could not use a file: by the system's error, or as far as the file system shows it after the fault.
//!
//! Of keys, lists and ledgers it looks again at what the run looked at, and creates, changes and removes nothing. So it
//! can miss a cause that is gone by then. If nothing else is found after a ledger file passed its checks, the system
//! reported an error.
ghost use Rattle.std.specs.Prelude.{◌≡◌, ◌⊎◌, false, true};
ghost use Rattle.std.specs.IoError.{error_kind};

use folder_core::FolderFault;
use std::alloc::Global;
use std::fs;
use std::fs::{File, OpenOptions};
use std::io::{self, ErrorKind, Read};
use std::os::unix::fs::MetadataExt;
use std::rt::Files;
use system_ledger::{LedgerFault, LedgerPath, folder_and_name, may_open, read_holdings};
use thiserror::Error;

/// Why a file can't be used. The texts are those that the program prints.
#[derive(Clone, Copy, PartialEq, Eq, Debug, Error)]
pub enum Cause {
    #[error("there is no such file")]
    NoFile,
    #[error("the folder is missing")]
    NoFolder,
    #[error("a part of the path is no folder")]
    NotFolder,
    #[error("this user has no permission")]
    NoPermission,
    #[error("it is a folder")]
    IsFolder,
    #[error("it is no regular file")]
    NotRegular,
    #[error("the file system is read-only")]
    ReadOnly,
    #[error("symbolic links lead in a circle")]
    Circle,
    #[error("the name is too long")]
    NameTooLong,
    #[error("the disk is full, or a quota is reached")]
    DiskFull,
    #[error("no larger file is allowed, by its file system or a limit")]
    TooLarge,
    /// An error of the system that has no cause of its own here.
    #[error("the system reports an error")]
    SystemError,
    #[error("memory was refused")]
    OutOfMemory,
    #[error("standard input cannot be read")]
    Input,
    /// The file can be read by now.
    #[error("it can be read by now")]
    Passed,
    #[error("it is not 64 hex digits and at most one end of line")]
    NoDigits,
    #[error("there is a file of this name")]
    Exists,
    #[error("it is the ledger, or a file beside it")]
    OfLedger,
    /// A new ledger, or its log, can't be made: the system's error is gone by now.
    #[error("it cannot be made: another run makes it, or see its folder's mode, the disk's room, and the path's length and UTF-8")]
    CannotMake,
    #[error("the path is :memory: or a URI")]
    NoPath,
    #[error("LEDGER-wal is there and LEDGER is not: do not delete it")]
    LostLedger,
    #[error("LEDGER is empty and LEDGER-wal is not: do not delete them")]
    EmptyLedger,
    #[error("LEDGER-wal does not go with LEDGER, or one of them is damaged: do not delete them")]
    AnotherLog,
    #[error("LEDGER-wal is no regular file, has more than one name, or gives no permission")]
    UnusableLog,
    #[error("the file has more than one name (a hard link)")]
    HardLink,
    #[error("another program left LEDGER-journal, which only that program can play back")]
    LeftJournal,
    #[error("the file is empty")]
    Empty,
    #[error("it is no database")]
    NoDatabase,
    #[error("the database has no tables yet")]
    NoTables,
    #[error("the database holds something else than a ledger")]
    SomethingElse,
    #[error("the database is damaged or was altered, or memory was refused")]
    Damaged,
    #[error("another run holds it")]
    Held,
    #[error("it is gone or empty, or was copied, restored, moved or made anew")]
    AnotherFile,
    #[error("the witness saw no run of this key and device")]
    NoLine,
    #[error("it has no line, or one that no witness has")]
    NoWitness,
    #[error("no further line has room in 16 MiB")]
    NoRoom,
    #[error("it is one of the run's own files")]
    OwnFile,
    #[error("its name is not UTF-8, or memory was refused")]
    NoText,
    #[error("the output's name has no last part, or a part .., is not UTF-8, or memory was refused")]
    NoOutputName,
    #[error("a symbolic link is on the way, below the folder of --into")]
    LinkOnWay,
    #[error("there is a file of the output's name")]
    OutputThere,
    #[error("another FILE of the run has this output")]
    OutputShared,
    #[error("another file got the output's name meanwhile")]
    OutputTaken,
    #[error("the output's part is gone: another program removed or moved it")]
    PartGone,
}

impl Cause {
    /// The cause that an error of the system names.
    pub fn of(error: &io::Error) -> Cause
        ensures file { error_kind error.now ≡ ErrorKind.NotFound → result ≡ Cause.NoFile }
        ensures permission { error_kind error.now ≡ ErrorKind.PermissionDenied → result ≡ Cause.NoPermission }
        ensures read_only { error_kind error.now ≡ ErrorKind.ReadOnlyFilesystem → result ≡ Cause.ReadOnly }
        ensures name { error_kind error.now ≡ ErrorKind.InvalidFilename → result ≡ Cause.NameTooLong }
        ensures full { error_kind error.now ≡ ErrorKind.StorageFull → result ≡ Cause.DiskFull }
    {
        match error.kind() {
            ErrorKind::NotFound => Cause::NoFile,
            ErrorKind::PermissionDenied => Cause::NoPermission,
            ErrorKind::NotADirectory => Cause::NotFolder,
            ErrorKind::IsADirectory => Cause::IsFolder,
            ErrorKind::ReadOnlyFilesystem => Cause::ReadOnly,
            ErrorKind::FilesystemLoop => Cause::Circle,
            ErrorKind::InvalidFilename => Cause::NameTooLong,
            ErrorKind::StorageFull | ErrorKind::QuotaExceeded => Cause::DiskFull,
            ErrorKind::FileTooLarge => Cause::TooLarge,
            ErrorKind::OutOfMemory => Cause::OutOfMemory,
            _ => Cause::SystemError,
        }
    }

    /// The cause of an error of making a new file: what is missing then is its folder.
    pub fn of_making(error: &io::Error) -> Cause
        ensures folder { error_kind error.now ≡ ErrorKind.NotFound → result ≡ Cause.NoFolder }
        ensures permission { error_kind error.now ≡ ErrorKind.PermissionDenied → result ≡ Cause.NoPermission }
        ensures full { error_kind error.now ≡ ErrorKind.StorageFull → result ≡ Cause.DiskFull }
    {
        match Cause::of(error) {
            Cause::NoFile => Cause::NoFolder,
            cause => cause,
        }
    }

    /// The cause of an error of giving an output its name: another file has it by now, or the part has none any more.
    pub(crate) fn of_naming(error: &io::Error) -> Cause
        ensures taken { error_kind error.now ≡ ErrorKind.AlreadyExists → result ≡ Cause.OutputTaken }
        ensures gone { error_kind error.now ≡ ErrorKind.NotFound → result ≡ Cause.PartGone }
        ensures full { error_kind error.now ≡ ErrorKind.StorageFull → result ≡ Cause.DiskFull }
    {
        match error.kind() {
            ErrorKind::AlreadyExists => Cause::OutputTaken,
            ErrorKind::NotFound => Cause::PartGone,
            _ => Cause::of(error),
        }
    }

    /// The fault of an output that can't be created, by its cause: there is a file of its name, or of its part's.
    pub(crate) fn fault(self) -> FolderFault
        ensures there { self ≡ Cause.OutputThere → result ≡ FolderFault.Exists }
        ensures shared { self ≡ Cause.OutputShared → result ≡ FolderFault.Exists }
        ensures taken { self ≡ Cause.OutputTaken → result ≡ FolderFault.Exists }
        ensures other { result ≡ FolderFault.Exists
            → (self ≡ Cause.OutputThere) ⊎ (self ≡ Cause.OutputShared) ⊎ (self ≡ Cause.OutputTaken) }
    {
        match self {
            Cause::OutputThere | Cause::OutputShared | Cause::OutputTaken => FolderFault::Exists,
            _ => FolderFault::Failed,
        }
    }
}

/// What refused a ledger file.
#[derive(Clone, Copy, PartialEq, Eq)]
pub enum Step {
    /// The checks of a run that seals, before anything is written to it.
    Check,
    /// The database, after these.
    Open,
    /// The database, when a range was to be stored.
    Store,
    /// The command that only reads it.
    Read,
}

/// What a fault is about.
#[derive(Clone, Copy)]
pub enum About<'a> {
    /// Something whose cause is known.
    Known(Cause),
    /// A file that is read: a key file, or a list.
    Input(&'a str),
    /// A witness: it has no line of that form, if it can be read.
    Witness(&'a str),
    /// The ledger file at this path, and how it was refused.
    Ledger {
        path: &'a str,
        fault: LedgerFault,
        step: Step,
    },
}

/// Returns the cause of a fault.
pub fn cause_of<R: Files + AllocGlobal>(rt: &R, about: About<'_>) -> Cause
    ensures known { (cause : Cause) → about.entry ≡ About.Known cause → result ≡ cause }
{
    match about {
        About::Known(cause) => cause,
        About::Input(path) => unusable(rt, path, false).unwrap_or(Cause::Passed),
        About::Witness(path) => unusable(rt, path, false).unwrap_or(Cause::NoWitness),
        About::Ledger { path, fault, step } => ledger_cause(rt, path, fault, step),
    }
}

/// Returns whether the mode of a regular file lets its group or all others read or write it.
pub fn is_for_others<R: Files>(rt: &R, path: &str) -> bool {
    match fs::metadata(rt, path) {
        Ok(found) => found.is_file() && found.mode() & 0o066 != 0,
        Err(_) => false,
    }
}

// Why the ledger file at this path can't be used.
fn ledger_cause<R: Files + AllocGlobal>(rt: &R, path: &str, fault: LedgerFault, step: Step) -> Cause
    ensures other { fault ≡ LedgerFault.NotLedger → result ≡ Cause.SomethingElse }
    ensures another { fault ≡ LedgerFault.NotSeen → result ≡ Cause.AnotherFile }
    ensures held { fault ≡ LedgerFault.Held → result ≡ Cause.Held }
    ensures memory { fault ≡ LedgerFault.OutOfMemory → result ≡ Cause.OutOfMemory }
{
    match fault {
        LedgerFault::NotLedger => Cause::SomethingElse,
        LedgerFault::NotThere => not_there(rt, path),
        LedgerFault::NotSeen => Cause::AnotherFile,
        LedgerFault::Held => Cause::Held,
        LedgerFault::OutOfMemory => Cause::OutOfMemory,
        LedgerFault::CannotOpen => not_opened(rt, path, step),
    }
}

// Why there is no ledger at this path.
fn not_there<R: Files>(rt: &R, path: &str) -> Cause {
    match fs::metadata(rt, path) {
        Ok(found) if found.len() <= 1 => Cause::Empty,
        Ok(_) => Cause::NoTables,
        Err(error) => missing(rt, path, &error),
    }
}

// Why the ledger file at this path can't be opened.
fn not_opened<R: Files + AllocGlobal>(rt: &R, path: &str, step: Step) -> Cause {
    if path == ":memory:" || path.starts_with("file:") {
        return Cause::NoPath;
    }
    let Some((log, journal)) = beside(rt, path) else {
        return Cause::OutOfMemory;
    };
    let (log, journal) = (log.as_str(), journal.as_str());
    let writes = step != Step::Read;
    let log_bytes = length_at(rt, log);
    match unusable(rt, path, writes) {
        None => {}
        Some(Cause::NoFile) if log_bytes.unwrap_or(0) > 0 => return Cause::LostLedger,
        Some(Cause::NoFile) => return Cause::CannotMake,
        Some(cause) => return cause,
    }
    let opened = matches!(step, Step::Open | Step::Store);
    if opened && is_barred(rt, folder_and_name(log).0) {
        return Cause::NoPermission;
    }
    if has_more_names(rt, path) {
        Cause::HardLink
    } else if is_unusable_log(rt, log, writes) {
        Cause::UnusableLog
    } else if must_be_played_back(rt, journal) {
        Cause::LeftJournal
    } else {
        by_content(rt, path, log_bytes, step)
    }
}

// Why a ledger file can't be opened that can be read, beside a log of this length, if there is one.
fn by_content<R: Files + AllocGlobal>(
    rt: &R,
    path: &str,
    log_bytes: Option<u64>,
    step: Step,
) -> Cause {
    let has_pages = log_bytes.unwrap_or(0) > WITHOUT_PAGE;
    let bytes = length_at(rt, path).unwrap_or(0);
    if bytes == 0 || bytes == 1 && begins_with(rt, path, b"\0") {
        return cause_of_empty(step);
    }
    if !has_pages && !begins_with(rt, path, b"SQLite format 3\0") {
        return Cause::NoDatabase;
    }
    match fault_by_now(rt, path, step) {
        None => cause_of_passing(step, log_bytes.is_some()),
        Some(LedgerFault::OutOfMemory) => Cause::OutOfMemory,
        Some(_) if has_pages => Cause::AnotherLog,
        Some(_) => Cause::Damaged,
    }
}

// Why an empty ledger file, or one of a single byte 0, was refused at this step.
fn cause_of_empty(step: Step) -> Cause
    ensures written { (step ≡ Step.Open) ⊎ (step ≡ Step.Store) → result ≡ Cause.CannotMake }
    ensures seen { (step ≡ Step.Check) ⊎ (step ≡ Step.Read) → result ≡ Cause.EmptyLedger }
{
    match step {
        Step::Open | Step::Store => Cause::CannotMake,
        Step::Check | Step::Read => Cause::EmptyLedger,
    }
}

// Why a ledger file was refused at this step that passes by now. A check was before another run wrote it. The database
// itself says whether another run holds it: else the system failed, or the log couldn't be made.
fn cause_of_passing(step: Step, has_log: bool) -> Cause
    ensures seen { (step ≡ Step.Check) ⊎ (step ≡ Step.Read) → result ≡ Cause.Held }
    ensures opened { step ≡ Step.Open → has_log ≡ true → result ≡ Cause.SystemError }
    ensures without_log { step ≡ Step.Open → has_log ≡ false → result ≡ Cause.CannotMake }
    ensures stored { step ≡ Step.Store → result ≡ Cause.SystemError }
{
    match step {
        Step::Check | Step::Read => Cause::Held,
        Step::Open if !has_log => Cause::CannotMake,
        Step::Open | Step::Store => Cause::SystemError,
    }
}

// Why a ledger file can't be opened when it is looked at once more. `None` means that it can, or that it has no tables
// yet: a run makes them.
fn fault_by_now<R: Files + AllocGlobal>(rt: &R, path: &str, step: Step) -> Option<LedgerFault> {
    match step {
        Step::Check => may_open(
            rt,
            &LedgerPath {
                path,
                may_make: true,
            },
        )
        .err(),
        _ => match read_holdings(rt, path) {
            Ok(_) | Err(LedgerFault::NotThere) => None,
            Err(fault) => Some(fault),
        },
    }
}

// Bytes of a log that has no page yet: its header and that of one frame.
const WITHOUT_PAGE: u64 = 32 + 24;

// Why a file can't be opened for reading, and with `writes` for writing. `None` means that it can.
fn unusable<R: Files>(rt: &R, path: &str, writes: bool) -> Option<Cause> {
    let found = match fs::metadata(rt, path) {
        Ok(found) => found,
        Err(error) => return Some(missing(rt, path, &error)),
    };
    if found.is_dir() {
        return Some(Cause::IsFolder);
    }
    // Opening a pipe would wait.
    if !found.is_file() {
        return Some(Cause::NotRegular);
    }
    let mut byte = [0];
    match OpenOptions::new().read(true).write(writes).open(rt, path) {
        Ok(mut file) => match file.read(&mut byte) {
            Ok(_) => None,
            Err(error) => Some(Cause::of(&error)),
        },
        Err(error) => Some(Cause::of(&error)),
    }
}

/// Why there is nothing at a path, by the error of looking there.
pub(crate) fn missing<R: Files>(rt: &R, path: &str, error: &io::Error) -> Cause {
    match Cause::of(error) {
        Cause::NoFile => match fs::metadata(rt, folder_and_name(path).0) {
            Err(error) if error.kind() == ErrorKind::NotFound => Cause::NoFolder,
            _ => Cause::NoFile,
        },
        cause => cause,
    }
}

// Whether this user may not read a folder. A run that seals opens that of the log, to sync it.
fn is_barred<R: Files>(rt: &R, folder: &str) -> bool {
    match File::open(rt, folder) {
        Ok(_) => false,
        Err(error) => error.kind() == ErrorKind::PermissionDenied,
    }
}

// The paths of the log and of another program's journal. If `path` is a link, they are beside the link's target.
fn beside<R: Files + AllocGlobal>(rt: &R, path: &str) -> Option<(String, String)> {
    match fs::canonicalize(rt, path) {
        Ok(real) => both_beside(rt.alloc(), real.as_str()),
        Err(error) if error.kind() == ErrorKind::OutOfMemory => None,
        Err(_) => both_beside(rt.alloc(), path),
    }
}

fn both_beside(alloc: Global, path: &str) -> Option<(String, String)> {
    let Ok(log) = format!(in alloc; "{path}-wal") else {
        return None;
    };
    match format!(in alloc; "{path}-journal") {
        Ok(journal) => Some((log, journal)),
        Err(_) => None,
    }
}

// The length of a file, if there is one.
fn length_at<R: Files>(rt: &R, path: &str) -> Option<u64> {
    match fs::metadata(rt, path) {
        Ok(found) => Some(found.len()),
        Err(_) => None,
    }
}

// Whether a file has more than one name.
fn has_more_names<R: Files>(rt: &R, path: &str) -> bool {
    matches!(fs::metadata(rt, path), Ok(found) if found.nlink() > 1)
}

// Whether a log is there that is a link or no regular file, has more than one name, or can't be opened.
fn is_unusable_log<R: Files>(rt: &R, log: &str, writes: bool) -> bool {
    match fs::symlink_metadata(rt, log) {
        Ok(found) => !found.is_file() || found.nlink() > 1 || unusable(rt, log, writes).is_some(),
        Err(_) => false,
    }
}

// Whether a journal is there that must be played back: it isn't empty, and its first byte isn't 0.
fn must_be_played_back<R: Files>(rt: &R, journal: &str) -> bool {
    match fs::symlink_metadata(rt, journal) {
        Ok(found) => !found.is_file() || found.len() > 0 && !begins_with(rt, journal, b"\0"),
        Err(_) => false,
    }
}

// Whether a file can be read and begins with these bytes, at most 16.
fn begins_with<R: Files>(rt: &R, path: &str, bytes: &[u8]) -> bool {
    let Ok(file) = File::open(rt, path) else {
        return false;
    };
    let mut front = [0; 16];
    let mut file = file;
    match file.read(&mut front) {
        Ok(got) => front[..got].starts_with(bytes),
        Err(_) => false,
    }
}
