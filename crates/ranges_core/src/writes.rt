//! The two writes of a reservation, in one transaction: move the mark of the key and device to the end of the range,
//! and record the range in `taken`. The commit is the last call to the database.
ghost use Rattle.std.specs.Prelude.{◌≡◌, IsTrue, OnOk, OnErr, true, false, [], ◌∷◌};
ghost use Rattle.std.specs.Prelude.{◌+◌, ◌≤◌, ◌^◌, pos, filter, unwrap_or};
ghost use Rattle.std.specs.List.{AllByRecursion};
ghost use Rattle.sqlite.specs.State.{HasCleanDisk, Survives, KeepsCommit, Shows};
ghost use Rattle.sqlite.specs.Edit.{id_in};
ghost use Rattle.sqlite.specs.Held.{state};
ghost use Rattle.sqlite.specs.Tree.{rowid};
ghost use Rattle.ranges_core.specs.Calls.{CommitsNothing, Inside, KeepsCommitted, Unchanged};
ghost use Rattle.ranges_core.specs.Calls.{WasOpen, WhileOpen, Wrote, marks_in};
ghost use Rattle.ranges_core.specs.Tables.{IsLedger};
ghost use Rattle.ranges_core.specs.Lasting.{StillLast};
ghost use Rattle.ranges_core.specs.Reads.{is_for};
ghost use Rattle.ranges_core.specs.Reservations.{Holds, IsMarkRow, IsOwner, Lists, next_of, with_range};
ghost use Rattle.ranges_core.specs.Writes.{Appends, Entered, IsMarkOf, IsReady, Marked, Moved, Took};

use crate::NUMBERS;
use sqlite::{Alter, Connection, Error, Transaction, params};

// The number as an SQL integer.
fn signed(n: u64) -> i64
    requires { n ≤ NUMBERS }
    ensures { result ≡ pos n }
{
    n as i64
}

// The end of a range.
fn end_of(lo: u64, size: u32) -> u64
    requires { lo ≤ NUMBERS }
    ensures { result ≡ lo + size }
{
    lo + u64::from(size)
}

// Inserts the first row of the key ID and device.
fn enter_mark<S: Alter>(
    tx: &mut Transaction<'_, S>,
    key: &[u8],
    device: u32,
    next: u64,
) -> Result<usize, Error>
    requires { next ≤ NUMBERS }
    ensures same_reference { tx.new.conn.ghost_name ≡ tx.old.conn.ghost_name }
    ensures entered { HasCleanDisk (state S.Store tx.new.conn.now)
        → IsTrue (state S.Store tx.old.conn.now).in_transaction → IsLedger (state S.Store tx.old.conn.now).now.schema
        → OnOk result (Entered (state S.Store tx.old.conn.now).now (state S.Store tx.new.conn.now).now key.now device
        next) }
    ensures shown { Inside S.Store tx.old.conn.now tx.new.conn.now
        (OnOk result (Wrote S.Store tx.old.conn.now tx.new.conn.now)) }
    ensures kept { KeepsCommitted S.Store tx.old.conn.now tx.new.conn.now }
    ensures survives { CommitsNothing S.Store tx.old.conn.now tx.new.conn.now }
{
    let next = signed(next);
    tx.execute(
        "INSERT INTO mark (key_id, device, next) VALUES (?1, ?2, ?3)",
        params![key, device, next],
    )
}

// Moves the mark in the only row of the key ID and device.
fn move_mark<S: Alter>(
    tx: &mut Transaction<'_, S>,
    key: &[u8],
    device: u32,
    next: u64,
) -> Result<usize, Error>
    requires { next ≤ NUMBERS }
    ensures same_reference { tx.new.conn.ghost_name ≡ tx.old.conn.ghost_name }
    ensures moved { HasCleanDisk (state S.Store tx.new.conn.now)
        → IsTrue (state S.Store tx.old.conn.now).in_transaction → IsLedger (state S.Store tx.old.conn.now).now.schema
        → AllByRecursion IsMarkRow (marks_in S.Store tx.old.conn.now) → (r : _)
        → filter (is_for key.now device) (marks_in S.Store tx.old.conn.now) ≡ r ∷ []
        → OnOk result (Moved (state S.Store tx.old.conn.now).now (state S.Store tx.new.conn.now).now key.now device
        next (id_in (rowid r))) }
    ensures shown { Inside S.Store tx.old.conn.now tx.new.conn.now
        (OnOk result (Wrote S.Store tx.old.conn.now tx.new.conn.now)) }
    ensures kept { KeepsCommitted S.Store tx.old.conn.now tx.new.conn.now }
    ensures survives { CommitsNothing S.Store tx.old.conn.now tx.new.conn.now }
{
    let next = signed(next);
    tx.execute(
        "UPDATE mark SET next = ?3 WHERE key_id = ?1 AND device = ?2",
        params![key, device, next],
    )
}

// Writes the mark of the key ID and device. `mark` is the value that was read.
fn write_mark<S: Alter>(
    tx: &mut Transaction<'_, S>,
    key: &[u8],
    device: u32,
    mark: Option<u64>,
    next: u64,
) -> Result<usize, Error>
    requires { next ≤ NUMBERS }
    ensures same_reference { tx.new.conn.ghost_name ≡ tx.old.conn.ghost_name }
    ensures marked { HasCleanDisk (state S.Store tx.new.conn.now)
        → IsTrue (state S.Store tx.old.conn.now).in_transaction → IsLedger (state S.Store tx.old.conn.now).now.schema
        → AllByRecursion IsMarkRow (marks_in S.Store tx.old.conn.now)
        → IsMarkOf (filter (is_for key.now device) (marks_in S.Store tx.old.conn.now)) mark
        → OnOk result (Marked (state S.Store tx.old.conn.now).now (state S.Store tx.new.conn.now).now key.now device
        next (filter (is_for key.now device) (marks_in S.Store tx.old.conn.now))) }
    ensures shown { Inside S.Store tx.old.conn.now tx.new.conn.now
        (OnOk result (Wrote S.Store tx.old.conn.now tx.new.conn.now)) }
    ensures kept { KeepsCommitted S.Store tx.old.conn.now tx.new.conn.now }
    ensures survives { CommitsNothing S.Store tx.old.conn.now tx.new.conn.now }
{
    match mark {
        None => enter_mark(tx, key, device, next),
        Some(_) => move_mark(tx, key, device, next),
    }
}

// Records the range of `size` numbers from `lo`.
fn take_range<S: Alter>(
    tx: &mut Transaction<'_, S>,
    key: &[u8],
    device: u32,
    lo: u64,
    size: u32,
) -> Result<usize, Error>
    requires { lo ≤ NUMBERS }
    ensures same_reference { tx.new.conn.ghost_name ≡ tx.old.conn.ghost_name }
    ensures took { HasCleanDisk (state S.Store tx.new.conn.now)
        → IsTrue (state S.Store tx.old.conn.now).in_transaction → IsLedger (state S.Store tx.old.conn.now).now.schema
        → OnOk result (Took (state S.Store tx.old.conn.now).now (state S.Store tx.new.conn.now).now key.now device lo
        size) }
    ensures shown { Inside S.Store tx.old.conn.now tx.new.conn.now
        (OnOk result (Wrote S.Store tx.old.conn.now tx.new.conn.now)) }
    ensures kept { KeepsCommitted S.Store tx.old.conn.now tx.new.conn.now }
    ensures survives { CommitsNothing S.Store tx.old.conn.now tx.new.conn.now }
{
    let lo = signed(lo);
    tx.execute(
        "INSERT INTO taken (key_id, device, lo, size) VALUES (?1, ?2, ?3, ?4)",
        params![key, device, lo, size],
    )
}

// Appends a range of `size` numbers at the mark: both rows or neither, even across a crash.
fn append<S: Alter>(
    conn: &mut Connection<S>,
    key: &[u8],
    device: u32,
    mark: Option<u64>,
    size: u32,
) -> Result<(), Error>
    requires fits { unwrap_or mark 0 + size ≤ NUMBERS }
    requires settled { conn.old.in_transaction ≡ false }
    requires ready { WhileOpen S.Store conn.old (IsReady (state S.Store conn.old)) }
    requires read { WhileOpen S.Store conn.old
        (IsMarkOf (filter (is_for key.now device) (marks_in S.Store conn.old)) mark) }
    ensures settled { conn.new.in_transaction ≡ false }
    ensures was_open { WasOpen S.Store conn.old conn.new }
    ensures done { HasCleanDisk (state S.Store conn.new)
        → OnOk result (IsTrue (state S.Store conn.old).is_open
        × Appends (state S.Store conn.old).now (state S.Store conn.new).now key.now device (unwrap_or mark 0) size) }
    ensures committed { HasCleanDisk (state S.Store conn.new)
        → OnOk result (IsTrue (state S.Store conn.new).is_open
        × ((state S.Store conn.new).committed ≡ (state S.Store conn.new).now)) }
    ensures neither { WhileOpen S.Store conn.new (OnErr result (Unchanged S.Store conn.old conn.new)) }
    ensures crash { Survives (state S.Store conn.old) (state S.Store conn.new)
        (λ trees. IsTrue (state S.Store conn.old).is_open × (db : _)
        × Appends (state S.Store conn.old).now db key.now device (unwrap_or mark 0) size × (trees ≡ db.trees)) }
{
    let lo = mark.unwrap_or(0);
    let end = end_of(lo, size);
    let mut tx = conn.transaction();
    write_mark(&mut tx, key, device, mark, end)?;
    take_range(&mut tx, key, device, lo, size)?;
    tx.commit()?;
    Ok(())
}

/// Appends a range of `size` numbers to the list of the key ID and device. `mark` is what `mark_of` returned. Every
/// other list is unchanged. Both rows are written or neither, even across a crash.
pub fn append_range<S: Alter>(
    conn: &mut Connection<S>,
    key: &[u8],
    device: u32,
    mark: Option<u64>,
    size: u32,
) -> Result<(), Error>
    requires owner { IsOwner key.now device }
    requires some { 1 ≤ size }
    requires fits { unwrap_or mark 0 + size ≤ NUMBERS }
    requires settled { conn.old.in_transaction ≡ false }
    requires ready { WhileOpen S.Store conn.old (IsReady (state S.Store conn.old)) }
    requires read { WhileOpen S.Store conn.old
        (IsMarkOf (filter (is_for key.now device) (marks_in S.Store conn.old)) mark) }
    ensures settled { conn.new.in_transaction ≡ false }
    ensures was_open { WasOpen S.Store conn.old conn.new }
    ensures ready { WhileOpen S.Store conn.new (IsReady (state S.Store conn.new)) }
    ensures appends { HasCleanDisk (state S.Store conn.new)
        → OnOk result (IsTrue (state S.Store conn.old).is_open
        × ((lists : Lists) → Holds (state S.Store conn.old).now lists
        → (unwrap_or mark 0 ≡ next_of (lists key.now device))
        × Holds (state S.Store conn.new).now (with_range lists key.now device size))) }
    ensures committed { HasCleanDisk (state S.Store conn.new)
        → OnOk result (IsTrue (state S.Store conn.new).is_open
        × ((state S.Store conn.new).committed ≡ (state S.Store conn.new).now)) }
    ensures neither { WhileOpen S.Store conn.new (OnErr result (Unchanged S.Store conn.old conn.new)) }
    ensures crash { Survives (state S.Store conn.old) (state S.Store conn.new)
        (λ trees. IsTrue (state S.Store conn.old).is_open
        × ((lists : Lists) → Holds (state S.Store conn.old).now lists → (db : _)
        × Holds db (with_range lists key.now device size) × (trees ≡ db.trees))) }
    ensures kept { StillLast S.Store conn.old conn.new }
{
    append(conn, key, device, mark, size)
}
