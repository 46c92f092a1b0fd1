//! Reads what a ledger file holds. Neither the file nor the log beside it is changed.

use crate::ledger::{LedgerFault, LedgerPath, goes_with_log, keeper_over};
use crate::log::{log_beside, opened};
use reserve_core::NUMBERS;
use sqlite::{Alter, Connection, Row};
use std::alloc::{AllocError, Global};
use std::fmt::{Display, Formatter};
use std::fs::File;
use std::io::{ErrorKind, Read};
use std::os::unix::fs::MetadataExt;
use std::rt::Files;
use std::{fmt, fs, io};

/// What a ledger file holds of one key and device.
#[derive(Clone, Copy)]
pub struct Holding {
    /// The key's hint: the first bytes of its ID.
    pub key: [u8; 7],
    pub device: u32,
    /// How many ranges were reserved.
    pub ranges: u64,
    /// How many numbers these have: 0 to `given` - 1.
    pub given: u64,
}

/// Its line, without a newline.
impl Display for Holding {
    fn fmt<W: fmt::Write>(&self, f: &mut Formatter<W>) -> fmt::Result {
        f.write_str("key ")?;
        for byte in self.key {
            write!(f, "{byte:02x}")?;
        }
        let (device, ranges, given) = (self.device, self.ranges, self.given);
        let left = NUMBERS.saturating_sub(given);
        write!(
            f,
            " device {device} ranges {ranges} given {given} left {left}"
        )
    }
}

/// Returns what the ledger file at a path holds for each key and device, ordered by key ID and device.
///
/// The files are read twice. If they differ, another run wrote them: `CannotOpen`. It refuses what `seal` refuses when
/// it may not make a ledger, with two exceptions: another run may hold the ledger now, and the files and the folder
/// need not be writable.
pub fn read_holdings<R: Files + AllocGlobal>(
    rt: &R,
    path: &str,
) -> Result<Vec<Holding>, LedgerFault> {
    let ledger = LedgerPath {
        path,
        may_make: false,
    };
    goes_with_log(rt, &ledger)?;
    let log = log_beside(rt, path)?;
    let read = read_alike(rt, path, log.as_str())?;
    held_by(
        rt.alloc(),
        opened(rt.alloc(), read.log.as_slice(), read.db.as_slice()),
    )
}

/// The bytes of the two files.
#[derive(Drop)]
pub(crate) struct Both {
    pub(crate) log: Vec<u8>,
    pub(crate) db: Vec<u8>,
}

// The two files, if a run could open them and a second read gives the same bytes.
fn read_alike<R: Files + AllocGlobal>(rt: &R, path: &str, log: &str) -> Result<Both, LedgerFault> {
    if !is_alone(rt, path, log)? {
        return Err(LedgerFault::CannotOpen);
    }
    let read = read_both(rt, path, log)?;
    if is_still(rt, path, read.db.as_slice())? && is_still(rt, log, read.log.as_slice())? {
        Ok(read)
    } else {
        Err(LedgerFault::CannotOpen)
    }
}

/// Reads the two files. A file that is no database is refused before it is read whole. If the log has pages, the file's
/// first page may be among them.
pub(crate) fn read_both<R: Files + AllocGlobal>(
    rt: &R,
    path: &str,
    log: &str,
) -> Result<Both, LedgerFault> {
    let log = read_if_there(rt, log)?;
    if log.is_empty() && !begins_as_database(rt, path) {
        return Err(LedgerFault::CannotOpen);
    }
    let db = fs::read(rt, path)?;
    Ok(Both { log, db })
}

// Whether a file has these bytes. A missing file has none.
fn is_still<R: Files + AllocGlobal>(rt: &R, path: &str, bytes: &[u8]) -> io::Result<bool> {
    let again = read_if_there(rt, path)?;
    Ok(again.as_slice() == bytes)
}

// Whether a file begins as a database does.
fn begins_as_database<R: Files>(rt: &R, path: &str) -> bool {
    let Ok(mut file) = File::open(rt, path) else {
        return false;
    };
    let mut front = [0; 16];
    file.read_exact(&mut front).is_ok() && front == *b"SQLite format 3\0"
}

/// Returns whether a run could open these files: each has one name and is no folder or device, and no database left a
/// journal beside them to play back.
pub(crate) fn is_alone<R: Files + AllocGlobal>(
    rt: &R,
    path: &str,
    log: &str,
) -> Result<bool, AllocError> {
    let Some(base) = log.strip_suffix("-wal") else {
        return Ok(false);
    };
    let journal = format!(in rt.alloc(); "{base}-journal")?;
    let is_path = path != ":memory:" && !path.starts_with("file:");
    let have_one_name = has_one_name(rt, base) && has_one_name(rt, log);
    Ok(is_path && have_one_name && !is_hot(rt, journal.as_str()))
}

// Whether a file has one name, or isn't there.
fn has_one_name<R: Files>(rt: &R, path: &str) -> bool {
    match fs::symlink_metadata(rt, path) {
        Ok(found) => found.is_file() && found.nlink() == 1,
        Err(error) => error.kind() == ErrorKind::NotFound,
    }
}

// Whether the journal is anything but missing, empty, or a file whose first byte is 0.
fn is_hot<R: Files>(rt: &R, journal: &str) -> bool {
    match fs::symlink_metadata(rt, journal) {
        Ok(found) => !found.is_file() || found.len() > 0 && !begins_with_zero(rt, journal),
        Err(error) => error.kind() != ErrorKind::NotFound,
    }
}

/// Returns whether a file can be read and its first byte is 0.
pub(crate) fn begins_with_zero<R: Files>(rt: &R, path: &str) -> bool {
    let Ok(mut file) = File::open(rt, path) else {
        return false;
    };
    let mut front = [1];
    file.read_exact(&mut front).is_ok() && front == [0]
}

// The bytes of a file. A missing file has none.
fn read_if_there<R: Files + AllocGlobal>(rt: &R, path: &str) -> io::Result<Vec<u8>> {
    match fs::read(rt, path) {
        Err(error) if error.kind() == ErrorKind::NotFound => Ok(Vec::new(rt.alloc())),
        read => read,
    }
}

// What a database holds, if there is one and it is a ledger.
fn held_by<S: Alter + Drop>(
    alloc: Global,
    opened: Result<Option<Connection<S>>, AllocError>,
) -> Result<Vec<Holding>, LedgerFault> {
    match opened {
        Ok(Some(connection)) => holdings_of(alloc, connection),
        Ok(None) => Err(LedgerFault::CannotOpen),
        Err(_) => Err(LedgerFault::OutOfMemory),
    }
}

fn holdings_of<S: Alter + Drop>(
    alloc: Global,
    connection: Connection<S>,
) -> Result<Vec<Holding>, LedgerFault> {
    let keeper = keeper_over(connection, false)?;
    let mut connection = keeper.release();
    let rows = connection.query_all(
        "SELECT key_id, device, count(*), sum(size) FROM taken GROUP BY key_id, device ORDER BY key_id, device",
        &[],
    );
    let rows = match rows {
        Ok(rows) => rows,
        Err(error) => return Err(LedgerFault::from(error)),
    };
    let mut held = Vec::new(alloc);
    for row in &rows {
        let id = row.get::<Vec<u8>>(0)?;
        let Some(holding) = holding_of(id.as_slice(), row) else {
            return Err(LedgerFault::CannotOpen);
        };
        if held.push(holding).is_err() {
            return Err(LedgerFault::OutOfMemory);
        }
    }
    Ok(held)
}

// The holding of this key ID in a row. The keeper has checked that each row is of a key, a device and numbers.
fn holding_of(id: &[u8], row: &Row) -> Option<Holding> {
    let mut key = [0; 7];
    key.copy_from_slice(id.get(..7)?);
    Some(Holding {
        key,
        device: u32::try_from(row.get::<i64>(1).ok()?).ok()?,
        ranges: u64::try_from(row.get::<i64>(2).ok()?).ok()?,
        given: u64::try_from(row.get::<i64>(3).ok()?).ok()?,
    })
}
