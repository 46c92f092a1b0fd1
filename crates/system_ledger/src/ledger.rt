//! The ledger file.
ghost use Rattle.std.specs.Prelude.{◌≡◌, ◌≢◌, ◌≤◌, ◌⊎◌, ◌↔◌, false, [], length, IfOk, IsTrue};
ghost use Rattle.std.specs.IoError.{error_kind};
ghost use Rattle.sqlite_disk.specs.Disk.{MoreFaults};
ghost use Rattle.sqlite_wal.specs.Files.{image_at};
ghost use Rattle.sqlite_wal.specs.Reads.{IsClean};
ghost use Rattle.sqlite.specs.Files.{file_state, over_files, IsOpened};
ghost use Rattle.sqlite.specs.Start.{FindsIn};
ghost use Rattle.sqlite.specs.Held.{state};
ghost use Rattle.sqlite.specs.State.{HasCleanDisk, Survives};
ghost use Rattle.reserve_core.specs.Lasting.{LeavesOnlyThis};
ghost use Rattle.reserve_core.specs.Reservations.{Holds, Opened, no_lists};
ghost use Rattle.reserve_core.specs.NextRun.{IsFound};
ghost use Rattle.system_ledger.specs.Begun.{HasOnlyBegun};

use crate::begun::{WITHOUT_PAGE, has_only_begun};
use crate::foreign::may_be_ledger;
use crate::holdings::begins_with_zero;
use crate::log::{log_adds, log_beside, log_is_begun};
use reserve_core::{Keeper, LedgerFile, ReserveFault};
use sqlite::{Alter, Connection, Error, ErrorCode, FileFrom, FileStore, Options, Start};
use sqlite_disk::{Disk, Files as DiskFiles};
use sqlite_std_file::OpenError;
use std::alloc::AllocError;
use std::fs;
use std::hash::{BuildHasher, RandomState};
use std::io::{self, ErrorKind};
use std::rt::Files;
use thiserror::Error;

/// Why the ledger file can't be used. The texts are those that the program prints.
#[derive(Clone, Copy, PartialEq, Eq, Debug, Error)]
pub enum LedgerFault {
    /// The folder is missing, the file is no database or can't be read, its log doesn't go with it, its tables are
    /// other than a ledger's or not alone, a file has more than one name, or another database left a journal beside it.
    #[error("cannot open")]
    CannotOpen,
    /// Memory was refused, and no number was reserved.
    #[error("out of memory")]
    OutOfMemory,
    /// Another process holds it. The text doesn't tell this from the others.
    #[error("cannot open")]
    Held,
    /// The database holds something else.
    #[error("not a ledger")]
    NotLedger,
    /// There is no ledger file, or one without tables, and none may be made.
    #[error("not there")]
    NotThere,
    /// The run has a witness, which saw another file as its ledger file, or there is no file any more.
    #[error("not the file its witness saw")]
    NotSeen,
}

impl LedgerFault {
    /// The fault of a file for which a call of the system failed with this error.
    pub fn of(error: &io::Error) -> LedgerFault
        ensures memory { error_kind error.now ≡ ErrorKind.OutOfMemory → result ≡ LedgerFault.OutOfMemory }
        ensures other { error_kind error.now ≢ ErrorKind.OutOfMemory → result ≡ LedgerFault.CannotOpen }
    {
        match error.kind() {
            ErrorKind::OutOfMemory => LedgerFault::OutOfMemory,
            _ => LedgerFault::CannotOpen,
        }
    }
}

impl From<io::Error> for LedgerFault {
    fn from(error: io::Error) -> LedgerFault {
        LedgerFault::of(&error)
    }
}

impl From<AllocError> for LedgerFault {
    fn from(_: AllocError) -> LedgerFault {
        LedgerFault::OutOfMemory
    }
}

/// The fault of a database that answered with this error. Over files in memory `SystemIoFailure` means the same as
/// `OutOfMemory`; this takes it for a disk's.
impl From<Error> for LedgerFault {
    fn from(error: Error) -> LedgerFault {
        match error {
            Error::SqliteFailure(ErrorCode::OutOfMemory) => LedgerFault::OutOfMemory,
            _ => LedgerFault::CannotOpen,
        }
    }
}

/// Which ledger file a run asks for.
#[derive(Clone, Copy)]
pub struct LedgerPath<'a> {
    /// Its path. If it is a link, the log is beside the link's target.
    pub path: &'a str,
    /// Whether it is made if there is none.
    pub may_make: bool,
}

/// Checks whether a run may open this ledger file, before any file is made or written.
///
/// It returns `CannotOpen` if the log (PATH-wal) doesn't go with the file:
/// - There is no file, and the log isn't empty. The file was lost or moved, and the database would begin again from
///   number 0.
/// - The file is empty, and the log was not only begun with it. The same holds.
/// - The log has pages, and with it the file has fewer numbers of some key and device than without it. This is compared
///   only if the file alone is a ledger.
///
/// If memory is refused for that, or for any look at the files, it returns `OutOfMemory`.
///
/// It returns `NotThere` if there is no file, or an empty one, and none may be made. A file of a single byte 0 counts
/// as empty, since the database begins its file that way. Any other single byte is no database.
///
/// If the file isn't empty, its tables are checked as far as it and its log can be read. No database is `CannotOpen`,
/// other tables are `NotLedger`. A database without tables is `NotThere` if none may be made.
pub fn may_open<R: Files + AllocGlobal>(
    rt: &R,
    ledger: &LedgerPath<'_>,
) -> Result<(), LedgerFault> {
    match goes_with_log(rt, ledger)? {
        Some(files) => may_be_ledger(rt, ledger, &files),
        None => Ok(()),
    }
}

/// A ledger file that isn't empty, and its log.
#[derive(Drop)]
pub(crate) struct Lengths {
    pub(crate) log: String,
    pub(crate) file_bytes: u64,
    pub(crate) log_bytes: u64,
}

/// Checks that the log goes with the file, and that there is a file or one may be made. `None` means that the file is
/// missing or empty.
pub(crate) fn goes_with_log<R: Files + AllocGlobal>(
    rt: &R,
    ledger: &LedgerPath<'_>,
) -> Result<Option<Lengths>, LedgerFault> {
    let path = ledger.path;
    let log = log_beside(rt, path)?;
    let file_bytes = length_of(rt, path)?;
    let log_bytes = length_of(rt, log.as_str())?;
    // The database takes any file of one byte for one that it only began, and would overwrite it.
    if file_bytes == Some(1) && !begins_with_zero(rt, path) {
        return Err(LedgerFault::CannotOpen);
    }
    let is_new = file_bytes.unwrap_or(0) <= 1;
    let goes_with_it = if file_bytes.is_none() {
        log_bytes.unwrap_or(0) == 0
    } else if is_new {
        log_is_begun(rt, log.as_str(), log_bytes)?
    } else {
        log_adds(rt, path, log.as_str(), log_bytes)?
    };
    if !goes_with_it {
        return Err(LedgerFault::CannotOpen);
    }
    if !is_new {
        return Ok(Some(Lengths {
            log,
            file_bytes: file_bytes.unwrap_or(0),
            log_bytes: log_bytes.unwrap_or(0),
        }));
    }
    if ledger.may_make {
        Ok(None)
    } else {
        Err(LedgerFault::NotThere)
    }
}

// The length of a file, if there is one.
fn length_of<R: Files + AllocGlobal>(rt: &R, path: &str) -> io::Result<Option<u64>> {
    match fs::metadata(rt, path) {
        Ok(file) => Ok(Some(file.len())),
        Err(error) if error.kind() == ErrorKind::NotFound => Ok(None),
        Err(error) => Err(error),
    }
}

/// Opens this ledger file, with its keeper. The file is made if there is none. A path that names no file (an empty one,
/// `:memory:` or a URI) is refused, since two runs must always share a file. A refusal keeps the pages of the log. It is
/// `Held` if another process has the database open, and `OutOfMemory` if the database or its keeper was refused memory.
///
/// If none may be made, a database without tables is `NotThere`, even one that this call began because the file was
/// gone. `S` denotes what the files hold, as in the database's own way to open a path.
pub fn open_ledger<S: Start>(
    rt: &HostRuntime,
    ledger: &LedgerPath<'_>,
    start: S,
) -> Result<LedgerFile<FileStore<FileFrom<S>>>, LedgerFault>
    ensures found { IfOk result (λ file. (keeper : _) × (file ≡ LedgerFile.Kept keeper)
        × (HasCleanDisk (file_state keeper) → (it : IsFound over_files (image_at S.Start) keeper)
        × (ledger.now.may_make ≡ false → (file_state it.connection).now.schema.tables ≢ []))) }
{
    match connect(rt, ledger.path, start) {
        Ok(connection) => match keeper_over(connection, ledger.may_make) {
            Ok(keeper) => Ok(LedgerFile::Kept(keeper)),
            Err(fault) => Err(fault),
        },
        Err(fault) => Err(fault),
    }
}

// Opens the database at a path like `Connection::open_from`, but keeps few pages in memory. `Held` means that another
// process has locked it.
fn connect<S: Start>(
    rt: &HostRuntime,
    path: &str,
    start: S,
) -> Result<Connection<FileStore<FileFrom<S>>>, LedgerFault>
    ensures opened { IfOk result (λ c. HasCleanDisk (file_state c) → IsOpened c) }
    ensures found { IfOk result (λ c. HasCleanDisk (file_state c) → FindsIn (image_at S.Start) (file_state c)) }
{
    if path == ":memory:" || path.starts_with("file:") {
        return Err(LedgerFault::CannotOpen);
    }
    let Some(options) = few_pages(rt) else {
        return Err(LedgerFault::CannotOpen);
    };
    let mut files = match sqlite_std_file::open(rt, path, start) {
        Ok(files) => files,
        Err(OpenError::Busy) => return Err(LedgerFault::Held),
        Err(OpenError::OutOfMemory) => return Err(LedgerFault::OutOfMemory),
        Err(OpenError::Io(error)) => return Err(LedgerFault::of(&error)),
        Err(OpenError::HotJournal) => return Err(LedgerFault::CannotOpen),
    };
    if !is_still_begun(&mut files) {
        return Err(LedgerFault::CannotOpen);
    }
    match Connection::open_files_with(rt.alloc(), files, options, false) {
        Ok(connection) => Ok(connection),
        Err((error, _left)) => Err(LedgerFault::from(error)),
    }
}

// Whether the file has more than a byte, or the log was only begun with it, read from the files now held. The log that
// was checked before may have been removed since, and another made. A failed call gives `false` too.
fn is_still_begun<D: Disk>(files: &mut DiskFiles<D>) -> bool
    requires log_usable { IsTrue (D.Disk.is_usable files.old.log) }
    requires db_usable { IsTrue (D.Disk.is_usable files.old.db) }
    ensures log_usable { IsTrue (D.Disk.is_usable files.new.log) }
    ensures db_usable { IsTrue (D.Disk.is_usable files.new.db) }
    ensures log { D.Disk.seen files.new.log ≡ D.Disk.seen files.old.log }
    ensures db { D.Disk.seen files.new.db ≡ D.Disk.seen files.old.db }
    ensures begun { IsTrue result → IsClean D.Disk files.new.log → IsClean D.Disk files.new.db
        → length (D.Disk.seen files.new.db) ≤ 1 → HasOnlyBegun (D.Disk.seen files.new.log) }
    ensures refused { result ≡ false → (IsClean D.Disk files.new.log → IsClean D.Disk files.new.db
        → (length (D.Disk.seen files.new.db) ≤ 1) × (¬ HasOnlyBegun (D.Disk.seen files.new.log)))
        ⊎ MoreFaults (D.Disk.faults files.old.log) (D.Disk.faults files.new.log)
        ⊎ MoreFaults (D.Disk.faults files.old.db) (D.Disk.faults files.new.db) }
{
    let (Ok(file_bytes), Ok(log_bytes)) = (files.db.len(), files.log.len()) else {
        return false;
    };
    if file_bytes > 1 || log_bytes == 0 {
        return true;
    }
    if log_bytes > WITHOUT_PAGE {
        return false;
    }
    let mut front = [0; WITHOUT_PAGE];
    match files.log.read_at(0, &mut front[..log_bytes]) {
        Ok(()) => has_only_begun(&front[..log_bytes]),
        Err(_) => false,
    }
}

// How many pages read, and how many pages written, the database keeps in memory. A run returns to few pages, and the
// default of 2,000 would be filled at the opening.
const CACHED_PAGES: usize = 128;

// The salts of a new log are drawn at random. `None` means that the system gives no random bytes.
fn few_pages(rt: &HostRuntime) -> Option<Options> {
    let seed = RandomState::new(rt).ok()?.hash_one(&0u8);
    let mut options = Options::new(seed);
    options.cache_pages = CACHED_PAGES;
    options.spill_pages = CACHED_PAGES;
    Some(options)
}

// The fault of a ledger whose keeper was refused with this fault.
fn fault_of(fault: ReserveFault) -> LedgerFault
    ensures memory { (result ≡ LedgerFault.OutOfMemory) ↔ (fault ≡ ReserveFault.OutOfMemory) }
    ensures bad { (result ≡ LedgerFault.NotLedger) ↔ (fault ≡ ReserveFault.BadStore) }
{
    match fault {
        ReserveFault::OutOfMemory => LedgerFault::OutOfMemory,
        ReserveFault::BadStore => LedgerFault::NotLedger,
        _ => LedgerFault::CannotOpen,
    }
}

// The keeper of a ledger that was opened. A database without tables is `NotThere` if none may be made.
pub(crate) fn keeper_over<S: Alter + Drop>(
    connection: Connection<S>,
    may_make: bool,
) -> Result<Keeper<S>, LedgerFault>
    ensures tables { IfOk result (λ _. may_make ≡ false → (state S.Store connection).now.schema.tables ≢ []) }
    ensures opened { IfOk result (λ k. HasCleanDisk (state S.Store k)
        → Opened (state S.Store connection).now (state S.Store k).now) }
    ensures crash { IfOk result (λ k. Survives (state S.Store connection) (state S.Store k)
        (λ trees. (db : _) × Holds db no_lists × (trees ≡ db.trees))) }
    ensures lasts { IfOk result (λ k. HasCleanDisk (state S.Store k) → LeavesOnlyThis S.Store k) }
{
    if !may_make && connection.schema().tables.is_empty() {
        return Err(LedgerFault::NotThere);
    }
    match Keeper::open(connection) {
        Ok(keeper) => Ok(keeper),
        Err((fault, _)) => Err(fault_of(fault)),
    }
}

/// Closes a ledger file. If no fold was tried, the log is folded into it. If that fails, the log stays and the next run
/// reads it.
pub fn close_ledger<D: Disk + Drop>(file: LedgerFile<FileStore<D>>) {
    if let LedgerFile::Kept(keeper) = file {
        let _ = keeper.release().close();
    }
}

/// Returns whether a path is, byte for byte, the path of the ledger file or of a file that its database keeps beside
/// it.
pub fn is_beside(path: &str, ledger: &str) -> bool {
    match path.strip_prefix(ledger) {
        Some(rest) => matches!(rest, "" | "-wal" | "-shm" | "-journal"),
        None => false,
    }
}
