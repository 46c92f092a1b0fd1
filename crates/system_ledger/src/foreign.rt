//! Refuses a database that is no ledger, before anything is made beside it and before anything is written to it.
ghost use Rattle.std.specs.Prelude.{◌≡◌, ◌+◌, ◌*◌, ◌≤◌, length, slice_index};

use crate::begun::WITHOUT_PAGE;
use crate::holdings::{is_alone, read_both};
use crate::ledger::{LedgerFault, LedgerPath, Lengths, keeper_over};
use crate::log::opened;
use sqlite::{Alter, Connection};
use std::alloc::Global;
use std::fs::OpenOptions;
use std::io::Read;
use std::rt::Files;

// `PAGE` is the size of the largest page that a database can have. If the first page is enough to refuse a file, a file
// longer than `READ` bytes is not read into memory.
const PAGE: usize = 1 << 16;

const READ: u64 = 1 << 24;

// Bytes of the smallest page that has room, in every form, for the four entries of a ledger's tables and keys.
const ROOMY: usize = 1 << 12;

// Offsets in the first page: its kind, at the end of the database's header, and the number of its entries.
const KIND: usize = 100;

const ENTRIES: usize = 103;

// Where the pointers to the entries begin, of two bytes each.
const POINTERS: usize = 108;

const LEAF: u8 = 0x0d;

const INNER: u8 = 0x05;

// The four entries of a ledger as a run makes it. Each has its length, its number, the forms of its columns, and these:
// kind, name, table, first page and, of a table, its statement.
static MARK: &[u8] =
    b"\x81\x35\x01\x07\x17\x15\x15\x01\x82\x4dtablemarkmark\x02CREATE TABLE mark (key_id BLOB NOT NULL, device INTEGER NOT NULL, next INTEGER NOT NULL, PRIMARY KEY (key_id, device), CHECK (next >= 0 AND next <= 4294967296))";

static KEY_OF_MARK: &[u8] = b"\x27\x02\x06\x17\x3b\x15\x01\x00indexsqlite_autoindex_mark_1mark\x03";

static TAKEN: &[u8] =
    b"\x81\x62\x03\x07\x17\x17\x17\x01\x83\x23tabletakentaken\x04CREATE TABLE taken (key_id BLOB NOT NULL, device INTEGER NOT NULL, lo INTEGER NOT NULL, size INTEGER NOT NULL, PRIMARY KEY (key_id, device, lo), CHECK (lo >= 0 AND size >= 1 AND lo + size <= 4294967296))";

static KEY_OF_TAKEN: &[u8] =
    b"\x29\x04\x06\x17\x3d\x17\x01\x00indexsqlite_autoindex_taken_1taken\x05";

// What the first page says of the tables, if no log has another first page.
#[derive(Clone, Copy, PartialEq, Eq)]
enum Front {
    // They are a ledger's two, with their keys, as a run makes them.
    Ledger,
    // There are others.
    Other,
    // It doesn't say.
    Unclear,
}

/// Checks whether the tables of a file that isn't empty allow it to be opened as a ledger, as far as they can be read.
/// It opens the file as the database does, and only reads the log. If the log has no pages and the first page is a
/// ledger's, it reads at most `PAGE` bytes of the file.
pub(crate) fn may_be_ledger<R: Files + AllocGlobal>(
    rt: &R,
    ledger: &LedgerPath<'_>,
    files: &Lengths,
) -> Result<(), LedgerFault> {
    let (path, log) = (ledger.path, files.log.as_str());
    if !is_alone(rt, path, log)? {
        return Err(LedgerFault::CannotOpen);
    }
    let front = front_of(rt, path)?;
    if files.log_bytes <= WITHOUT_PAGE as u64 {
        if front == Front::Ledger {
            return Ok(());
        }
        if front == Front::Other && files.file_bytes > READ {
            return Err(LedgerFault::NotLedger);
        }
    }
    let read = read_both(rt, path, log)?;
    match opened(rt.alloc(), read.log.as_slice(), read.db.as_slice()) {
        Ok(Some(connection)) => look_at(connection, ledger.may_make),
        Ok(None) => Err(LedgerFault::CannotOpen),
        Err(_) => Err(LedgerFault::OutOfMemory),
    }
}

// Reads what the first page of a file says. The file must be readable and writable.
fn front_of<R: Files + AllocGlobal>(rt: &R, path: &str) -> Result<Front, LedgerFault> {
    let file = OpenOptions::new().read(true).write(true).open(rt, path)?;
    let mut front = Vec::with_capacity(rt.alloc(), PAGE)?;
    file.take(PAGE as u64).read_to_end(&mut front)?;
    Ok(front_in(front.as_slice()))
}

// What these bytes at the beginning of a file say.
fn front_in(front: &[u8]) -> Front {
    if front.len() < ENTRIES + 2 || !front.starts_with(b"SQLite format 3\0") {
        return Front::Unclear;
    }
    let page = u16_at(front, 16);
    let entries = u16_at(front, ENTRIES);
    let kind = front[KIND];
    if kind == LEAF && entries == 4 && has_both(front) {
        if are_ledgers(front) {
            Front::Ledger
        } else {
            Front::Unclear
        }
    } else if kind == LEAF && entries > 0 || kind == INNER && (page == 1 || page >= ROOMY) {
        Front::Other
    } else {
        Front::Unclear
    }
}

// The two bytes at an offset as a big-endian number.
fn u16_at(front: &[u8], at: usize) -> usize
    requires { at + 2 ≤ length front.now }
    ensures { result ≡ slice_index front.now at * 0x100 + slice_index front.now (1 + at) }
{
    front[at] as usize * 0x100 + front[at + 1] as usize
}

// Whether the words of entries of the two tables are there, in whatever place.
fn has_both(front: &[u8]) -> bool {
    has(front, b"tablemarkmark") && has(front, b"tabletakentaken")
}

// Whether the first four entries are a ledger's.
fn are_ledgers(front: &[u8]) -> bool {
    is_entry(front, 0, MARK)
        && is_entry(front, 1, KEY_OF_MARK)
        && is_entry(front, 2, TAKEN)
        && is_entry(front, 3, KEY_OF_TAKEN)
}

// Whether the nth entry has these bytes.
fn is_entry(front: &[u8], nth: usize, bytes: &[u8]) -> bool
    requires { nth ≤ 3 }
{
    let pointer = POINTERS + 2 * nth;
    if front.len() < pointer + 2 {
        return false;
    }
    match front.get(u16_at(front, pointer)..) {
        Some(entry) => entry.starts_with(bytes),
        None => false,
    }
}

fn has(bytes: &[u8], word: &[u8]) -> bool {
    for at in 0..bytes.len() {
        if bytes[at..].starts_with(word) {
            return true;
        }
    }
    false
}

// Checks that a database opened in memory is a ledger, or has no tables yet if one may be made. If it has a ledger's
// tables, their rows are left to the keeper.
fn look_at<S: Alter + Drop>(connection: Connection<S>, may_make: bool) -> Result<(), LedgerFault> {
    if has_tables(&connection) {
        return Ok(());
    }
    match keeper_over(connection, may_make) {
        Ok(_) => Ok(()),
        Err(fault) => Err(fault),
    }
}

// Whether it has the two tables by name, their keys, and nothing else.
fn has_tables<S: Alter>(connection: &Connection<S>) -> bool {
    let schema = connection.schema();
    if schema.indexes.len() != 2 || schema.views.len() != 0 {
        return false;
    }
    match schema.tables.as_slice() {
        [mark, taken] => mark.name.as_slice() == b"mark".as_slice()
            && taken.name.as_slice() == b"taken".as_slice(),
        _ => false,
    }
}
