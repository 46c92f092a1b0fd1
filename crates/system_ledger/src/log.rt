//! The log that a database keeps beside its file (PATH-wal), and whether it goes with the file.
use crate::begun::{WITHOUT_PAGE, has_only_begun};
use crate::ledger::LedgerFault;
use crate::marks::{Mark, keeps_marks};
use sqlite::{Alter, Connection, Error, ErrorCode, FileStore, Files as DiskFiles, Options, Row};
use sqlite_disk::{Disk, Memory};
use std::alloc::{AllocError, Global};
use std::fs;
use std::io::{self, ErrorKind};
use std::rt::Files;

// The path of the log. If `path` is a link, the log is beside the link's target.
pub(crate) fn log_beside<R: Files + AllocGlobal>(rt: &R, path: &str) -> Result<String, AllocError> {
    match fs::canonicalize(rt, path) {
        Ok(real) => format!(in rt.alloc(); "{}-wal", real.as_str()),
        Err(error) if error.kind() == ErrorKind::OutOfMemory => Err(AllocError),
        Err(_) => format!(in rt.alloc(); "{path}-wal"),
    }
}

// Whether there is no log, or one of this length that a run left when it was cut off while it made the file.
pub(crate) fn log_is_begun<R: Files + AllocGlobal>(
    rt: &R,
    log: &str,
    bytes: Option<u64>,
) -> io::Result<bool> {
    match bytes {
        None => Ok(true),
        Some(bytes) if bytes > WITHOUT_PAGE as u64 => Ok(false),
        Some(_) => {
            // A FIFO has no bytes either, and reading it would wait for a writer.
            if !fs::metadata(rt, log)?.is_file() {
                return Ok(false);
            }
            let log = fs::read(rt, log)?;
            Ok(has_only_begun(log.as_slice()))
        }
    }
}

// Whether a log of this length only adds to a ledger file: with it no key and device has fewer numbers than without.
// The log of a run that was cut off does so. Another ledger's log may not. If the file alone is no ledger, as after a
// run killed during a fold, there is nothing to compare. Databases are opened in memory only.
pub(crate) fn log_adds<R: Files + AllocGlobal>(
    rt: &R,
    path: &str,
    log: &str,
    bytes: Option<u64>,
) -> Result<bool, LedgerFault> {
    match bytes {
        Some(bytes) if bytes > WITHOUT_PAGE as u64 => {}
        _ => return Ok(true),
    }
    let db = fs::read(rt, path)?;
    let log = fs::read(rt, log)?;
    adds(rt.alloc(), db.as_slice(), log.as_slice())
}

// The same for the bytes of both files.
fn adds(alloc: Global, db: &[u8], log: &[u8]) -> Result<bool, LedgerFault> {
    let Some(marks) = marks_in(alloc, opened(alloc, &[], db))? else {
        return Ok(true);
    };
    match marks_in(alloc, opened(alloc, log, db))? {
        Some(others) => Ok(keeps_marks(marks.as_slice(), others.as_slice())),
        None => Ok(false),
    }
}

// A database of these bytes, in memory, if they are one. The error means that memory was refused.
pub(crate) fn opened(
    alloc: Global,
    log: &[u8],
    db: &[u8],
) -> Result<Option<Connection<FileStore<Memory>>>, AllocError> {
    let log = copied(alloc, log)?;
    let db = copied(alloc, db)?;
    if !log.may_be_used() || !db.may_be_used() {
        return Err(AllocError);
    }
    match Connection::open_files(alloc, DiskFiles { log, db }, Options::new(0)) {
        Ok(connection) => Ok(Some(connection)),
        Err(refused) if is_for_memory(&refused.0) => Err(AllocError),
        Err(_) => Ok(None),
    }
}

// A disk in memory fails only if memory is refused.
fn is_for_memory(error: &Error) -> bool {
    matches!(
        error,
        Error::SqliteFailure(ErrorCode::OutOfMemory | ErrorCode::SystemIoFailure)
    )
}

// A write to a file in memory is whole unless memory is refused.
fn copied(alloc: Global, bytes: &[u8]) -> Result<Memory, AllocError> {
    let mut file = Memory::new(alloc);
    if !bytes.is_empty() && file.write_at(0, bytes).is_err() {
        return Err(AllocError);
    }
    Ok(file)
}

// The marks of a database that was opened, if there is one and it has a table of them. It is `CannotOpen` if a row holds
// something else.
fn marks_in<S: Alter + Drop>(
    alloc: Global,
    opened: Result<Option<Connection<S>>, AllocError>,
) -> Result<Option<Vec<Mark>>, LedgerFault> {
    let mut connection = match opened {
        Ok(Some(connection)) => connection,
        Ok(None) => return Ok(None),
        Err(_) => return Err(LedgerFault::OutOfMemory),
    };
    match connection.query_all("SELECT key_id, device, next FROM mark", &[]) {
        Ok(rows) => match read(alloc, rows.as_slice()) {
            Ok(marks) => Ok(Some(marks)),
            Err(fault) => Err(fault),
        },
        Err(error) if is_for_memory(&error) => Err(LedgerFault::OutOfMemory),
        Err(_) => Ok(None),
    }
}

fn read(alloc: Global, rows: &[Row]) -> Result<Vec<Mark>, LedgerFault> {
    let mut marks = Vec::new(alloc);
    for row in rows {
        if marks.push(mark_of_row(row)?).is_err() {
            return Err(LedgerFault::OutOfMemory);
        }
    }
    Ok(marks)
}

fn mark_of_row(row: &Row) -> Result<Mark, LedgerFault> {
    Ok(Mark {
        key: row.get(0)?,
        device: row.get(1)?,
        next: row.get(2)?,
    })
}
