//! Databases for the tests.
use journal_core::Device;
use reserve_core::{Keeper, ReserveFault};
use sqlite::{Alter, Connection, MemStore, params};
use std::alloc::Global;

/// The ID of the key 00 01 .. 1f: its SHA-256.
pub static ID: [u8; 32] = [
    0x63, 0x0d, 0xcd, 0x29, 0x66, 0xc4, 0x33, 0x66, 0x91, 0x12, 0x54, 0x48, 0xbb, 0xb2, 0x5b, 0x4f,
    0xf4, 0x12, 0xa4, 0x9c, 0x73, 0x2d, 0xb2, 0xc8, 0xab, 0xc1, 0xb8, 0x58, 0x1b, 0xd7, 0x10, 0xdd,
];

/// The two statements that make the tables, as documented.
pub const TABLES: &str = "CREATE TABLE mark (key_id BLOB NOT NULL, device INTEGER NOT NULL,
      next INTEGER NOT NULL, PRIMARY KEY (key_id, device),
      CHECK (next >= 0 AND next <= 4294967296));
    CREATE TABLE taken (key_id BLOB NOT NULL, device INTEGER NOT NULL,
      lo INTEGER NOT NULL, size INTEGER NOT NULL,
      PRIMARY KEY (key_id, device, lo),
      CHECK (lo >= 0 AND size >= 1 AND lo + size <= 4294967296));";

static BOTH_TABLES: [&str; 1] = [TABLES];

static TABLES_IN_A_TRANSACTION: [&str; 2] = [TABLES, "BEGIN"];

/// The first statement without its checks, and (`PLAIN_TAKEN`) the second.
pub const PLAIN_MARK: &str = "CREATE TABLE mark (key_id BLOB NOT NULL, device INTEGER NOT NULL,
      next INTEGER NOT NULL, PRIMARY KEY (key_id, device))";

pub const PLAIN_TAKEN: &str = "CREATE TABLE taken (key_id BLOB NOT NULL, device INTEGER NOT NULL,
      lo INTEGER NOT NULL, size INTEGER NOT NULL, PRIMARY KEY (key_id, device, lo))";

/// Returns a database in memory after these statements.
pub fn database(alloc: Global, sql: &[&str]) -> Option<Connection<MemStore>> {
    let mut conn = Connection::open_in_memory(alloc).ok()?;
    if runs_all(&mut conn, sql) {
        Some(conn)
    } else {
        None
    }
}

fn runs_all<S: Alter>(conn: &mut Connection<S>, sql: &[&str]) -> bool {
    for text in sql {
        if conn.execute_batch(text).is_err() {
            return false;
        }
    }
    true
}

/// A row of `mark`: device and next. A row of `taken`: device, lo and size. Both have the key ID `ID`.
pub type Mark = (i64, i64);

pub type Taken = (i64, i64, i64);

/// Inserts a row of `ID` into `mark`. Returns whether that worked.
fn has_put_mark<S: Alter>(conn: &mut Connection<S>, device: i64, next: i64) -> bool {
    let row = params![ID.as_slice(), device, next];
    conn.execute("INSERT INTO mark VALUES (?1, ?2, ?3)", row)
        .is_ok()
}

/// The same for `taken`.
fn has_put_taken<S: Alter>(conn: &mut Connection<S>, device: i64, lo: i64, size: i64) -> bool {
    let row = params![ID.as_slice(), device, lo, size];
    conn.execute("INSERT INTO taken VALUES (?1, ?2, ?3, ?4)", row)
        .is_ok()
}

/// Inserts these rows in this order. Returns whether that worked.
fn has_put_rows<S: Alter>(conn: &mut Connection<S>, marks: &[Mark], taken: &[Taken]) -> bool {
    for (device, next) in marks {
        if !has_put_mark(conn, *device, *next) {
            return false;
        }
    }
    for (device, lo, size) in taken {
        if !has_put_taken(conn, *device, *lo, *size) {
            return false;
        }
    }
    true
}

/// Returns a database in memory after these statements, with these rows.
pub fn database_of(
    alloc: Global,
    sql: &[&str],
    marks: &[Mark],
    taken: &[Taken],
) -> Option<Connection<MemStore>> {
    let mut conn = database(alloc, sql)?;
    if has_put_rows(&mut conn, marks, taken) {
        Some(conn)
    } else {
        None
    }
}

/// Returns a database in memory with both tables and these rows.
pub fn ledger(alloc: Global, marks: &[Mark], taken: &[Taken]) -> Option<Connection<MemStore>> {
    database_of(alloc, &BOTH_TABLES, marks, taken)
}

/// Returns a ledger in memory in which device 1 has `ranges` ranges of one number each.
pub fn ledger_of_many(alloc: Global, ranges: u32) -> Option<Connection<MemStore>> {
    let mut conn = database(alloc, &TABLES_IN_A_TRANSACTION)?;
    if has_put_many(&mut conn, ranges) {
        Some(conn)
    } else {
        None
    }
}

fn has_put_many<S: Alter>(conn: &mut Connection<S>, ranges: u32) -> bool {
    for lo in 0..ranges {
        if !has_put_taken(conn, 1, i64::from(lo), 1) {
            return false;
        }
    }
    has_put_mark(conn, 1, i64::from(ranges)) && conn.execute_batch("COMMIT").is_ok()
}

/// Returns a ledger in memory in which each of the first `devices` devices, from 0, has a range of one number.
pub fn ledger_of_devices(alloc: Global, devices: u32) -> Option<Connection<MemStore>> {
    let mut conn = database(alloc, &TABLES_IN_A_TRANSACTION)?;
    if has_put_devices(&mut conn, devices) {
        Some(conn)
    } else {
        None
    }
}

fn has_put_devices<S: Alter>(conn: &mut Connection<S>, devices: u32) -> bool {
    for device in 0..devices {
        let device = i64::from(device);
        if !has_put_mark(conn, device, 1) || !has_put_taken(conn, device, 0, 1) {
            return false;
        }
    }
    conn.execute_batch("COMMIT").is_ok()
}

/// Returns the keeper of a database, or why there is none.
pub fn keeper<S: Alter + Drop>(conn: Connection<S>) -> Result<Keeper<S>, ReserveFault> {
    match Keeper::open(conn) {
        Ok(keeper) => Ok(keeper),
        Err((fault, _)) => Err(fault),
    }
}

/// Opens a ledger with these rows. Returns the fault, if any, and `None` if there is no such database.
pub fn opening_of(
    alloc: Global,
    marks: &[Mark],
    taken: &[Taken],
) -> Option<Result<(), ReserveFault>> {
    Some(opening(ledger(alloc, marks, taken)?))
}

/// The same for a database after these statements.
pub fn opening_after(alloc: Global, sql: &[&str]) -> Option<Result<(), ReserveFault>> {
    Some(opening(database(alloc, sql)?))
}

fn opening(conn: Connection<MemStore>) -> Result<(), ReserveFault> {
    keeper(conn)?;
    Ok(())
}

/// Reserves the next range of a key ID and device. Returns its first number and size, or the fault.
pub fn reserve<S: Alter>(
    keeper: &mut Keeper<S>,
    key_id: &[u8; 32],
    device: u32,
    count: u32,
) -> Result<(u32, u32), ReserveFault> {
    let Some(device) = Device::new(device) else {
        return Err(ReserveFault::Store);
    };
    let range = keeper.reserve(key_id, device, count)?;
    Ok((range.lo(), range.size()))
}

/// Whether these are the ranges of a key ID and device.
pub fn has_taken<S: Alter>(
    keeper: &mut Keeper<S>,
    key_id: &[u8; 32],
    device: u32,
    ranges: &[(u32, u64)],
) -> bool {
    let Some(device) = Device::new(device) else {
        return false;
    };
    match keeper.taken(key_id, device) {
        Ok(taken) => taken.as_slice() == ranges,
        Err(_) => false,
    }
}
