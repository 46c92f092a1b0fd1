//! The two files of a ledger in memory, and a disk that stops.
use crate::store::{ID, has_taken, reserve};
use reserve_core::Keeper;
use sqlite::{Alter, Connection, FileStore, Files, Leftover, Options};
use sqlite_disk::{Crash, Disk, Fuse, Memory};
use std::alloc::Global;

pub type Stopping = Fuse<Memory>;

/// Which of the two files stops.
#[derive(Clone, Copy)]
pub enum Which {
    Log,
    Database,
}

/// What the next run finds of each file: everything written, as after the program's end, or only what was synced.
#[derive(Clone, Copy)]
pub enum Left {
    Written,
    /// As after a power cut.
    Synced,
    LogSynced,
    DatabaseSynced,
}

pub static ALL_LEFT: [Left; 4] = [
    Left::Written,
    Left::Synced,
    Left::LogSynced,
    Left::DatabaseSynced,
];

/// Returns a file that doesn't stop.
fn lasting(memory: Memory) -> Stopping {
    Fuse::new(memory, u64::MAX)
}

/// Returns new files. The one named fails each call after the first `calls`.
pub fn fused(alloc: Global, which: Which, calls: u64) -> Files<Stopping> {
    let (log_calls, db_calls) = match which {
        Which::Log => (calls, u64::MAX),
        Which::Database => (u64::MAX, calls),
    };
    Files {
        log: Fuse::new(Memory::new(alloc), log_calls),
        db: Fuse::new(Memory::new(alloc), db_calls),
    }
}

/// What is done with a connection. It works with any store, since a function that names the file store costs far more
/// to prove.
pub trait Run: Copy {
    type Answer: Copy;

    /// Returns its result, and the connection's store, unless it was dropped.
    fn over<S: Alter + Drop>(self, conn: Connection<S>) -> (Self::Answer, Option<S>);
}

/// Returns the result of a run with these files, if they open, and the files left, with the log as it is.
pub fn run_over<D: Disk + Drop, R: Run>(
    alloc: Global,
    files: Files<D>,
    run: R,
) -> (Option<R::Answer>, Option<Files<D>>) {
    match connect(alloc, files) {
        Ok(conn) => {
            let (answer, store) = run.over(conn);
            (Some(answer), files_of(store))
        }
        Err(files) => (None, Some(files)),
    }
}

/// Returns the result alone.
pub fn answer_over<D: Disk + Drop, R: Run>(
    alloc: Global,
    files: Files<D>,
    run: R,
) -> Option<R::Answer> {
    let (answer, _) = run_over(alloc, files, run);
    answer
}

/// Opens a connection with these files. Returns the files if that fails.
fn connect<D: Disk + Drop>(
    alloc: Global,
    files: Files<D>,
) -> Result<Connection<FileStore<D>>, Files<D>> {
    if !files.may_be_used() {
        return Err(files);
    }
    match Connection::open_files(alloc, files, few_pages()) {
        Ok(conn) => Ok(conn),
        Err((_, left)) => Err(left.into_files()),
    }
}

/// Options for a store with little memory. It is filled whenever a store is opened.
fn few_pages() -> Options {
    let mut options = Options::new(1);
    options.cache_pages = 50;
    options.spill_pages = 50;
    options
}

fn files_of<D: Disk + Drop>(store: Option<FileStore<D>>) -> Option<Files<D>> {
    match store {
        Some(store) => Some(Leftover::Store(store).into_files()),
        None => None,
    }
}

/// Returns what the next run finds of these files.
pub fn found(alloc: Global, mut files: Files<Stopping>, left: Left) -> Option<Files<Stopping>> {
    if matches!(left, Left::Synced | Left::LogSynced) {
        files.log.crash();
    }
    if matches!(left, Left::Synced | Left::DatabaseSynced) {
        files.db.crash();
    }
    copies(alloc, &files.log, &files.db)
}

fn copies(alloc: Global, log: &Stopping, db: &Stopping) -> Option<Files<Stopping>> {
    let log = copy(alloc, log)?;
    match copy(alloc, db) {
        Some(db) => Some(Files { log, db }),
        None => None,
    }
}

/// Returns a file with the same bytes that doesn't stop.
fn copy(alloc: Global, file: &Stopping) -> Option<Stopping> {
    let mut memory = Memory::new(alloc);
    match memory.write_at(0, file.inner().bytes()) {
        Ok(()) => Some(lasting(memory)),
        Err(_) => None,
    }
}

/// Whether both tables exist. Returns `None` if only one does.
pub fn has_both_or_none<S: Alter>(conn: &mut Connection<S>) -> Option<bool> {
    let has_mark = is_prepared(conn, "SELECT next FROM mark");
    let has_taken = is_prepared(conn, "SELECT lo FROM taken");
    if has_mark == has_taken {
        Some(has_mark)
    } else {
        None
    }
}

fn is_prepared<S: Alter>(conn: &mut Connection<S>, sql: &str) -> bool {
    conn.prepare(sql).is_ok()
}

/// Whether device 1 has these ranges, and the next number is `next`. If it has the ranges, that number is reserved.
pub fn begins_with<S: Alter>(keeper: &mut Keeper<S>, ranges: &[(u32, u64)], next: u32) -> bool {
    has_taken(keeper, &ID, 1, ranges) && reserve(keeper, &ID, 1, 1) == Ok((next, 1))
}
