//! Reads what the tables hold.
ghost use Rattle.std.specs.List.{AllByRecursion, list_all};
ghost use Rattle.std.specs.Prelude.{◌≡◌, Err, ◌⊎◌, ◌≤◌, IsTrue, OnOk, IfOk, IfErr, true, false};
ghost use Rattle.std.specs.Prelude.{[], ◌∷◌, pos, Ok, Some, None, map, filter, IsPermutation};
ghost use Rattle.sqlite.specs.declared.types.Value.TheVariants.{Int};
ghost use Rattle.sqlite.specs.State.{HasCleanDisk, IsLive, Survives, KeepsCommit, Shows};
ghost use Rattle.sqlite.specs.Held.{state};
ghost use Rattle.ranges_core.specs.Calls.{CommitsNothing, KeepsCommitted, OnlyRead, ReadInside, StillShows};
ghost use Rattle.ranges_core.specs.Calls.{Unchanged, WasOpen, WhileOpen, marks_in, taken_in};
ghost use Rattle.ranges_core.specs.Faults.{IsRefusal};
ghost use Rattle.ranges_core.specs.Tables.{IsLedger};
ghost use Rattle.ranges_core.specs.Reads.{is_for, is_range_row, shown_id, shown_mark};
ghost use Rattle.ranges_core.specs.Reads.{shown_next, shown_range, shown_taken};
ghost use Rattle.ranges_core.specs.Reservations.{Adjacent, IsMarkRow, Lists, Holds, HoldLists};
ghost use Rattle.ranges_core.specs.Reservations.{answered_range, ranges_of_pairs};
ghost use Rattle.ranges_core.specs.Writes.{HaveRowids, IsMarkOf, IsReady};

use crate::NUMBERS;
use crate::fault::ReserveFault;
use crate::pass::hold_in_one_pass;
use crate::rows::{do_ids_rise, hold_lists, number_at};
use crate::schema::is_ledger;
use sqlite::{Alter, Connection, Error, Row, Transaction, params};

// Selects the row that has the mark of a key ID and device.
fn pick<S: Alter>(tx: &mut Transaction<'_, S>, key: &[u8], device: u32) -> Result<Vec<Row>, Error>
    ensures same_reference { tx.new.conn.ghost_name ≡ tx.old.conn.ghost_name }
    ensures open { HasCleanDisk (state S.Store tx.new.conn.now)
        → OnOk result (IsTrue (state S.Store tx.old.conn.now).is_open) }
    ensures picked { HasCleanDisk (state S.Store tx.new.conn.now) → (lists : Lists)
        → Holds (state S.Store tx.old.conn.now).now lists
        → IfOk result (λ rows. IsPermutation
        (map shown_next (filter (is_for key.now device) (marks_in S.Store tx.old.conn.now))) rows.items) }
    ensures kept { KeepsCommitted S.Store tx.old.conn.now tx.new.conn.now }
    ensures survives { CommitsNothing S.Store tx.old.conn.now tx.new.conn.now }
{
    tx.query_all(
        "SELECT next FROM mark WHERE key_id = ?1 AND device = ?2",
        params![key, device],
    )
}

// Reads in a transaction and rolls it back, so that it commits nothing, whatever the schema is.
fn next_rows<S: Alter>(conn: &mut Connection<S>, key: &[u8], device: u32) -> Result<Vec<Row>, Error>
    requires settled { conn.old.in_transaction ≡ false }
    ensures settled { conn.new.in_transaction ≡ false }
    ensures was_open { WasOpen S.Store conn.old conn.new }
    ensures open { HasCleanDisk (state S.Store conn.new) → OnOk result (IsTrue (state S.Store conn.old).is_open) }
    ensures picked { HasCleanDisk (state S.Store conn.new) → (lists : Lists) → Holds (state S.Store conn.old).now lists
        → IfOk result (λ rows. IsPermutation
        (map shown_next (filter (is_for key.now device) (marks_in S.Store conn.old))) rows.items) }
    ensures same { OnlyRead S.Store conn.old conn.new }
    ensures crash { CommitsNothing S.Store conn.old conn.new }
{
    let mut tx = conn.transaction();
    let rows = pick(&mut tx, key, device)?;
    tx.rollback();
    Ok(rows)
}

// The mark in these rows, if there is one. A lawful table has at most one row.
fn mark_in(rows: &[Row]) -> Result<Option<u64>, ReserveFault>
    ensures none { rows.now ≡ [] → result ≡ Ok None }
    ensures one { (n : _) → n ≤ NUMBERS → rows.now ≡ (Int (pos n) ∷ []) ∷ [] → result ≡ Ok (Some n) }
    ensures bound { IfOk result (λ mark. (n : _) → mark ≡ Some n → n ≤ NUMBERS) }
    ensures named { IfErr result (λ e. e ≡ ReserveFault.BadStore) }
{
    match rows {
        [] => Ok(None),
        [row] => match number_at(row, 0) {
            Some(next) if next <= NUMBERS => Ok(Some(next)),
            _ => Err(ReserveFault::BadStore),
        },
        _ => Err(ReserveFault::BadStore),
    }
}

/// Returns the mark of a key ID and device: the number at which its next range begins, or `None` if nothing was
/// reserved. A refusal is `Store` or `OutOfMemory`. `BadStore` comes only after a disk fault. Nothing changes.
pub fn mark_of<S: Alter>(
    conn: &mut Connection<S>,
    key: &[u8],
    device: u32,
) -> Result<Option<u64>, ReserveFault>
    requires settled { conn.old.in_transaction ≡ false }
    requires ready { WhileOpen S.Store conn.old (IsReady (state S.Store conn.old)) }
    ensures settled { conn.new.in_transaction ≡ false }
    ensures was_open { WasOpen S.Store conn.old conn.new }
    ensures open { HasCleanDisk (state S.Store conn.new) → OnOk result (IsTrue (state S.Store conn.old).is_open) }
    ensures read { HasCleanDisk (state S.Store conn.new)
        → IfOk result (IsMarkOf (filter (is_for key.now device) (marks_in S.Store conn.old))) }
    ensures bound { IfOk result (λ mark. (n : _) → mark ≡ Some n → n ≤ NUMBERS) }
    ensures named { IfErr result (λ e. IsRefusal e ⊎ (e ≡ ReserveFault.BadStore)) }
    ensures sound { HasCleanDisk (state S.Store conn.new) → IfErr result IsRefusal }
    ensures same { WhileOpen S.Store conn.new (Unchanged S.Store conn.old conn.new) }
    ensures crash { CommitsNothing S.Store conn.old conn.new }
{
    match next_rows(conn, key, device) {
        Ok(rows) => mark_in(rows.as_slice()),
        Err(error) => Err(ReserveFault::of(error)),
    }
}

// The rows of `mark` in the order of their keys.
fn pick_marks<S: Alter>(tx: &mut Transaction<'_, S>) -> Result<Vec<Row>, Error>
    ensures same_reference { tx.new.conn.ghost_name ≡ tx.old.conn.ghost_name }
    ensures open { HasCleanDisk (state S.Store tx.new.conn.now)
        → OnOk result (IsTrue (state S.Store tx.old.conn.now).is_open) }
    ensures shown { HasCleanDisk (state S.Store tx.new.conn.now)
        → IsTrue (state S.Store tx.old.conn.now).in_transaction → IsLedger (state S.Store tx.old.conn.now).now.schema
        → OnOk result (ReadInside S.Store tx.old.conn.now tx.new.conn.now) }
    ensures read { HasCleanDisk (state S.Store tx.new.conn.now) → IsLedger (state S.Store tx.old.conn.now).now.schema
        → IfOk result (λ rows. IsPermutation (map shown_mark (marks_in S.Store tx.old.conn.now)) rows.items) }
    ensures inside { HasCleanDisk (state S.Store tx.new.conn.now)
        → IsTrue (state S.Store tx.old.conn.now).in_transaction
        → OnOk result (IsTrue (state S.Store tx.new.conn.now).in_transaction) }
    ensures kept { KeepsCommitted S.Store tx.old.conn.now tx.new.conn.now }
    ensures survives { CommitsNothing S.Store tx.old.conn.now tx.new.conn.now }
{
    tx.query_all(
        "SELECT rowid, key_id, device, next FROM mark ORDER BY key_id, device",
        &[],
    )
}

// The rows of `taken` in the order of their keys.
fn pick_takings<S: Alter>(tx: &mut Transaction<'_, S>) -> Result<Vec<Row>, Error>
    ensures same_reference { tx.new.conn.ghost_name ≡ tx.old.conn.ghost_name }
    ensures open { HasCleanDisk (state S.Store tx.new.conn.now)
        → OnOk result (IsTrue (state S.Store tx.old.conn.now).is_open) }
    ensures shown { HasCleanDisk (state S.Store tx.new.conn.now)
        → IsTrue (state S.Store tx.old.conn.now).in_transaction → IsLedger (state S.Store tx.old.conn.now).now.schema
        → OnOk result (ReadInside S.Store tx.old.conn.now tx.new.conn.now) }
    ensures read { HasCleanDisk (state S.Store tx.new.conn.now) → IsLedger (state S.Store tx.old.conn.now).now.schema
        → IfOk result (λ rows. IsPermutation (map shown_taken (taken_in S.Store tx.old.conn.now)) rows.items) }
    ensures inside { HasCleanDisk (state S.Store tx.new.conn.now)
        → IsTrue (state S.Store tx.old.conn.now).in_transaction
        → OnOk result (IsTrue (state S.Store tx.new.conn.now).in_transaction) }
    ensures kept { KeepsCommitted S.Store tx.old.conn.now tx.new.conn.now }
    ensures survives { CommitsNothing S.Store tx.old.conn.now tx.new.conn.now }
{
    tx.query_all(
        "SELECT rowid, key_id, device, lo, size FROM taken ORDER BY key_id, device, lo",
        &[],
    )
}

// The rows of both tables, in the order of their keys.
#[derive(Drop)]
struct BothTables {
    marks: Vec<Row>,
    taken: Vec<Row>,
}

// Reads in a transaction and rolls it back, as `next_rows` does.
fn read_all<S: Alter>(conn: &mut Connection<S>) -> Result<BothTables, Error>
    requires settled { conn.old.in_transaction ≡ false }
    ensures settled { conn.new.in_transaction ≡ false }
    ensures was_open { WasOpen S.Store conn.old conn.new }
    ensures open { HasCleanDisk (state S.Store conn.new) → OnOk result (IsTrue (state S.Store conn.old).is_open) }
    ensures read { HasCleanDisk (state S.Store conn.new) → IsLedger (state S.Store conn.old).now.schema
        → IfOk result (λ all.
        IsPermutation (map shown_mark (marks_in S.Store conn.old)) all.marks.items
        × IsPermutation (map shown_taken (taken_in S.Store conn.old)) all.taken.items) }
    ensures same { OnlyRead S.Store conn.old conn.new }
    ensures crash { CommitsNothing S.Store conn.old conn.new }
{
    let mut tx = conn.transaction();
    let marks = pick_marks(&mut tx)?;
    let taken = pick_takings(&mut tx)?;
    tx.rollback();
    Ok(BothTables { marks, taken })
}

// The rowids of `mark` in order, in a ledger file.
fn read_ids<S: Alter>(conn: &mut Connection<S>) -> Result<Vec<Row>, Error>
    requires { IsLedger (state S.Store conn.old).now.schema }
    ensures settled { conn.old.in_transaction ≡ false → conn.new.in_transaction ≡ false }
    ensures was_open { WasOpen S.Store conn.old conn.new }
    ensures shown { HasCleanDisk (state S.Store conn.new)
        → OnOk result (StillShows S.Store conn.old conn.new) }
    ensures read { HasCleanDisk (state S.Store conn.new)
        → IfOk result (λ rows. IsPermutation (map shown_id (marks_in S.Store conn.old)) rows.items) }
    ensures same { OnlyRead S.Store conn.old conn.new }
    ensures crash { CommitsNothing S.Store conn.old conn.new }
{
    conn.query_all("SELECT rowid FROM mark ORDER BY rowid", &[])
}

// Checks that no two rows of `mark` share a rowid. It reads outside a transaction, so its result is about a database
// that is open and stays open.
fn check_rowids<S: Alter>(conn: &mut Connection<S>) -> Result<(), ReserveFault>
    ensures settled { conn.old.in_transaction ≡ false → conn.new.in_transaction ≡ false }
    ensures was_open { WasOpen S.Store conn.old conn.new }
    ensures ok { HasCleanDisk (state S.Store conn.new)
        → OnOk result (StillShows S.Store conn.old conn.new
        × (AllByRecursion IsMarkRow (marks_in S.Store conn.old)
        → HaveRowids (marks_in S.Store conn.old))) }
    ensures named { IfErr result IsRefusal }
    ensures same { OnlyRead S.Store conn.old conn.new }
    ensures crash { CommitsNothing S.Store conn.old conn.new }
{
    // If the end of the earlier reads closed the database, nothing is known of its tables.
    if !is_ledger(conn.schema()) {
        return Err(ReserveFault::Store);
    }
    let ids = match read_ids(conn) {
        Ok(ids) => ids,
        Err(error) => return Err(ReserveFault::of(error)),
    };
    // In SQLite no two rows of a table share a rowid.
    if !do_ids_rise(ids.as_slice()) {
        return Err(ReserveFault::Store);
    }
    Ok(())
}

// Checks the rows of both tables, which it holds in memory, and decides whether they are a ledger's.
fn check_held_rows<S: Alter>(conn: &mut Connection<S>) -> Result<(), ReserveFault>
    requires settled { conn.old.in_transaction ≡ false }
    requires live { IsLive (state S.Store conn.old) }
    requires still { WhileOpen S.Store conn.old
        ((state S.Store conn.old).now ≡ (state S.Store conn.old).committed) }
    ensures settled { conn.new.in_transaction ≡ false }
    ensures was_open { WasOpen S.Store conn.old conn.new }
    ensures open { HasCleanDisk (state S.Store conn.new)
        → OnOk result (IsTrue (state S.Store conn.old).is_open × IsTrue (state S.Store conn.new).is_open) }
    ensures was_bad { HasCleanDisk (state S.Store conn.new) → result ≡ Err ReserveFault.BadStore
        → IsTrue (state S.Store conn.old).is_open }
    ensures ok { HasCleanDisk (state S.Store conn.new) → IsLedger (state S.Store conn.old).now.schema
        → OnOk result ((lists : Lists) × Holds (state S.Store conn.old).now lists
        × HaveRowids (marks_in S.Store conn.old)) }
    ensures bad { HasCleanDisk (state S.Store conn.new) → IsLedger (state S.Store conn.old).now.schema
        → result ≡ Err ReserveFault.BadStore
        → (lists : Lists) → HoldLists (marks_in S.Store conn.old) (taken_in S.Store conn.old) lists → ⊥ }
    ensures named { IfErr result (λ e. IsRefusal e ⊎ (e ≡ ReserveFault.BadStore)) }
    ensures same { WhileOpen S.Store conn.new (Unchanged S.Store conn.old conn.new) }
    ensures crash { CommitsNothing S.Store conn.old conn.new }
{
    let all = match read_all(conn) {
        Ok(all) => all,
        Err(error) => return Err(ReserveFault::of(error)),
    };
    hold_lists(all.marks.as_slice(), all.taken.as_slice())?;
    check_rowids(conn)
}

/// Checks that the rows of the tables hold lists. Returns `BadStore` if they do not.
pub(crate) fn check_rows<S: Alter>(conn: &mut Connection<S>) -> Result<(), ReserveFault>
    requires settled { conn.old.in_transaction ≡ false }
    requires live { IsLive (state S.Store conn.old) }
    requires still { IsTrue (state S.Store conn.old).is_open
        → (state S.Store conn.old).now ≡ (state S.Store conn.old).committed }
    ensures settled { conn.new.in_transaction ≡ false }
    ensures was_open { WasOpen S.Store conn.old conn.new }
    ensures open { HasCleanDisk (state S.Store conn.new)
        → OnOk result (IsTrue (state S.Store conn.old).is_open × IsTrue (state S.Store conn.new).is_open) }
    ensures ok { HasCleanDisk (state S.Store conn.new) → IsLedger (state S.Store conn.old).now.schema
        → OnOk result ((lists : Lists) × Holds (state S.Store conn.old).now lists
        × HaveRowids (marks_in S.Store conn.old)) }
    ensures bad { HasCleanDisk (state S.Store conn.new) → IsLedger (state S.Store conn.old).now.schema
        → result ≡ Err ReserveFault.BadStore
        → (lists : Lists) → HoldLists (marks_in S.Store conn.old) (taken_in S.Store conn.old) lists → ⊥ }
    ensures named { IfErr result (λ e. IsRefusal e ⊎ (e ≡ ReserveFault.BadStore)) }
    ensures same { WhileOpen S.Store conn.new (Unchanged S.Store conn.old conn.new) }
    ensures crash { CommitsNothing S.Store conn.old conn.new }
{
    // The pass holds few rows. Where it finds no lists, all rows are held to tell why.
    if hold_in_one_pass(conn) {
        return check_rowids(conn);
    }
    // If a read closed the database, nothing is known of its tables.
    if !is_ledger(conn.schema()) {
        return Err(ReserveFault::Store);
    }
    check_held_rows(conn)
}

// Selects the rows that have the ranges of a key ID and device.
fn pick_ranges<S: Alter>(
    tx: &mut Transaction<'_, S>,
    key: &[u8],
    device: u32,
) -> Result<Vec<Row>, Error>
    ensures same_reference { tx.new.conn.ghost_name ≡ tx.old.conn.ghost_name }
    ensures open { HasCleanDisk (state S.Store tx.new.conn.now)
        → OnOk result (IsTrue (state S.Store tx.old.conn.now).is_open) }
    ensures picked { HasCleanDisk (state S.Store tx.new.conn.now) → (lists : Lists)
        → Holds (state S.Store tx.old.conn.now).now lists
        → IfOk result (λ rows. IsPermutation
        (map shown_range (filter (is_for key.now device) (taken_in S.Store tx.old.conn.now))) rows.items) }
    ensures kept { KeepsCommitted S.Store tx.old.conn.now tx.new.conn.now }
    ensures survives { CommitsNothing S.Store tx.old.conn.now tx.new.conn.now }
{
    tx.query_all(
        "SELECT lo, size FROM taken WHERE key_id = ?1 AND device = ?2 ORDER BY lo",
        params![key, device],
    )
}

// Reads in a transaction and rolls it back, as `next_rows` does.
fn range_rows<S: Alter>(
    conn: &mut Connection<S>,
    key: &[u8],
    device: u32,
) -> Result<Vec<Row>, Error>
    requires settled { conn.old.in_transaction ≡ false }
    ensures settled { conn.new.in_transaction ≡ false }
    ensures was_open { WasOpen S.Store conn.old conn.new }
    ensures open { HasCleanDisk (state S.Store conn.new) → OnOk result (IsTrue (state S.Store conn.old).is_open) }
    ensures picked { HasCleanDisk (state S.Store conn.new) → (lists : Lists) → Holds (state S.Store conn.old).now lists
        → IfOk result (λ rows. IsPermutation
        (map shown_range (filter (is_for key.now device) (taken_in S.Store conn.old))) rows.items) }
    ensures same { OnlyRead S.Store conn.old conn.new }
    ensures crash { CommitsNothing S.Store conn.old conn.new }
{
    let mut tx = conn.transaction();
    let rows = pick_ranges(&mut tx, key, device)?;
    tx.rollback();
    Ok(rows)
}

// The ranges in these rows, which are adjacent from 0.
fn ranges_in(rows: &Vec<Row>) -> Result<Vec<(u32, u64)>, ReserveFault>
    ensures ranges { IfOk result (λ ranges. ranges_of_pairs ranges.items ≡ map answered_range rows.now.items) }
    ensures adjacent { IfOk result (λ ranges. Adjacent 0 (ranges_of_pairs ranges.items)) }
    ensures named { IfErr result (λ e. IsRefusal e ⊎ (e ≡ ReserveFault.BadStore)) }
    ensures sound { list_all is_range_row rows.now.items ≡ true → IfErr result IsRefusal }
{
    let mut ranges = Vec::new(*rows.allocator());
    let mut rest = rows.as_slice();
    let mut end = 0;
    while let Some((row, more)) = rest.split_first() {
        let (Some(lo), Some(size)) = (number_at(row, 0), number_at(row, 1)) else {
            return Err(ReserveFault::BadStore);
        };
        // The keeper's rows are lists. A database that returns them out of the requested order is faulty.
        if lo != end || size == 0 || size > NUMBERS - end {
            return Err(ReserveFault::Store);
        }
        if ranges.push((lo as u32, size)).is_err() {
            return Err(ReserveFault::OutOfMemory);
        }
        end += size;
        rest = more;
    }
    Ok(ranges)
}

/// Returns the ranges of a key ID and device as (`lo`, `size`), in order of `lo`. A refusal is `Store` or
/// `OutOfMemory`. `BadStore` comes only after a disk fault. Nothing changes.
pub fn ranges_of<S: Alter>(
    conn: &mut Connection<S>,
    key: &[u8],
    device: u32,
) -> Result<Vec<(u32, u64)>, ReserveFault>
    requires settled { conn.old.in_transaction ≡ false }
    requires ready { WhileOpen S.Store conn.old (IsReady (state S.Store conn.old)) }
    ensures settled { conn.new.in_transaction ≡ false }
    ensures was_open { WasOpen S.Store conn.old conn.new }
    ensures lists { HasCleanDisk (state S.Store conn.new) → (lists : Lists) → Holds (state S.Store conn.old).now lists
        → IfOk result (λ ranges. ranges_of_pairs ranges.items ≡ lists key.now device) }
    ensures open { HasCleanDisk (state S.Store conn.new) → OnOk result (IsTrue (state S.Store conn.old).is_open) }
    ensures named { IfErr result (λ e. IsRefusal e ⊎ (e ≡ ReserveFault.BadStore)) }
    ensures sound { HasCleanDisk (state S.Store conn.new) → IfErr result IsRefusal }
    ensures same { OnlyRead S.Store conn.old conn.new }
    ensures crash { CommitsNothing S.Store conn.old conn.new }
{
    match range_rows(conn, key, device) {
        Ok(rows) => ranges_in(&rows),
        Err(error) => Err(ReserveFault::of(error)),
    }
}
