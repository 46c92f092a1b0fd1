//! Checks that the rows of both tables are lists of adjacent ranges, in one pass over `taken` in the order of its keys.
//!
//! The rows of `mark` are held, one for each key ID and device. Those of `taken` are read one at a time, so memory does
//! not grow with their number. The pass finds lists, or says nothing.
ghost use Rattle.std.specs.Prelude.{◌≡◌, ◌∷◌, ◌≤◌, ◌^◌, IsTrue, IfOk, IfSome, OnOk, List, [], false, map, true, IsPermutation};
ghost use Rattle.std.specs.List.{list_all};
ghost use Rattle.sqlite.specs.Order.{Row as Values};
ghost use Rattle.sqlite.specs.State.{HasCleanDisk, Shows, Survives};
ghost use Rattle.sqlite.specs.Held.{state};
ghost use Rattle.ranges_core.specs.Calls.{CommitsNothing, OnlyRead, StillShows, Unchanged, WasOpen, WhileOpen};
ghost use Rattle.ranges_core.specs.Calls.{marks_in, taken_in};
ghost use Rattle.ranges_core.specs.Tables.{IsLedger};
ghost use Rattle.ranges_core.specs.Reads.{is_taken_row, shown_mark, shown_taken};
ghost use Rattle.ranges_core.specs.Reservations.{HoldLists, Lists};
ghost use Rattle.ranges_core.specs.Runs.{OwnRunFrom, Runs, RunsFrom};

use crate::NUMBERS;
use crate::rows::{are_mark_rows, are_ordered, end_after, is_for, is_taken_row, key_of, number_at};
use crate::schema::is_ledger;
use sqlite::{Alter, Connection, Error, Row};

// Takes the next row of `taken`. `end` is the end of the ranges so far of the first row of `marks`. Returns the rows of
// `mark` from this row's on, and the end of its range, if the range is adjacent and the rows before are complete.
fn after_row<'a>(marks: &'a [Row], end: u64, row: &Row) -> Option<(&'a [Row], u64)>
    requires { end ≤ NUMBERS }
    ensures takes { IfSome result (λ rest. (more : List Values) → RunsFrom rest.1 rest.0.now more
        → RunsFrom end marks.now (row.now ∷ more)) }
    ensures bound { IfSome result (λ rest. rest.1 ≤ NUMBERS) }
{
    let mut left = marks;
    let mut last = end;
    while let Some((mark, more)) = left.split_first() {
        let key = key_of(mark)?;
        let device = number_at(mark, 2)?;
        if is_for(row, key, device) {
            let next = end_after(row, last)?;
            return Some((left, next));
        }
        if !is_complete(mark, last) {
            return None;
        }
        left = more;
        last = 0;
    }
    None
}

// Whether the ranges of this row of `mark`, the last of which ends at `end`, are complete.
fn is_complete(mark: &Row, end: u64) -> bool
    ensures { IsTrue result → OwnRunFrom end mark.now [] }
{
    match (key_of(mark), number_at(mark, 2), number_at(mark, 3)) {
        (Some(_), Some(_), Some(next)) => next == end,
        _ => false,
    }
}

// Whether the ranges of each of these rows of `mark` are complete, where no row of `taken` follows.
fn are_complete(marks: &[Row], end: u64) -> bool
    ensures { IsTrue result → RunsFrom end marks.now [] }
{
    let mut left = marks;
    let mut last = end;
    while let [mark, more @ ..] = left {
        if !is_complete(mark, last) {
            return false;
        }
        left = more;
        last = 0;
    }
    true
}

// The rows of `mark` in the order of their keys, in a ledger file.
fn read_marks<S: Alter>(conn: &mut Connection<S>) -> Result<Vec<Row>, Error>
    requires { IsLedger (state S.Store conn.old).now.schema }
    ensures settled { conn.old.in_transaction ≡ false → conn.new.in_transaction ≡ false }
    ensures was_open { WasOpen S.Store conn.old conn.new }
    ensures shown { HasCleanDisk (state S.Store conn.new)
        → OnOk result (StillShows S.Store conn.old conn.new) }
    ensures read { HasCleanDisk (state S.Store conn.new)
        → IfOk result (λ rows. IsPermutation (map shown_mark (marks_in S.Store conn.old)) rows.items) }
    ensures same { OnlyRead S.Store conn.old conn.new }
    ensures crash { CommitsNothing S.Store conn.old conn.new }
{
    conn.query_all(
        "SELECT rowid, key_id, device, next FROM mark ORDER BY key_id, device",
        &[],
    )
}

// Whether the rows of `taken`, in a ledger file, are the ranges of these rows of `mark`. It holds one row at a time.
fn are_runs<S: Alter>(conn: &mut Connection<S>, marks: &[Row]) -> Result<bool, Error>
    requires { IsLedger (state S.Store conn.old).now.schema }
    ensures settled { conn.old.in_transaction ≡ false → conn.new.in_transaction ≡ false }
    ensures was_open { WasOpen S.Store conn.old conn.new }
    ensures shown { HasCleanDisk (state S.Store conn.new)
        → OnOk result (StillShows S.Store conn.old conn.new) }
    ensures runs { HasCleanDisk (state S.Store conn.new) → IfOk result (λ are. IsTrue are → (rows : List Values)
        × IsPermutation (map shown_taken (taken_in S.Store conn.old)) rows × (list_all is_taken_row rows ≡ true)
        × Runs marks.now rows) }
    ensures same { OnlyRead S.Store conn.old conn.new }
    ensures crash { CommitsNothing S.Store conn.old conn.new }
{
    let mut left = marks;
    let mut end = 0;
    let mut rows = conn.query(
        "SELECT rowid, key_id, device, lo, size FROM taken ORDER BY key_id, device, lo",
        &[],
    )?;
    'rows: for _ in 0..u64::MAX {
        let Some(row) = rows.next()? else {
            return Ok(are_complete(left, end));
        };
        if !is_taken_row(row) {
            return Ok(false);
        }
        let Some((rest, next)) = after_row(left, end, row) else {
            return Ok(false);
        };
        left = rest;
        end = next;
    }
    Ok(false)
}

/// Whether one pass finds that the rows of the tables hold lists. If not, nothing is known of them.
pub(crate) fn hold_in_one_pass<S: Alter>(conn: &mut Connection<S>) -> bool
    ensures settled { conn.old.in_transaction ≡ false → conn.new.in_transaction ≡ false }
    ensures was_open { WasOpen S.Store conn.old conn.new }
    ensures ok { HasCleanDisk (state S.Store conn.new) → IsTrue result → StillShows S.Store conn.old conn.new
        × IsLedger (state S.Store conn.old).now.schema
        × ((lists : Lists) × HoldLists (marks_in S.Store conn.old) (taken_in S.Store conn.old) lists) }
    ensures same { OnlyRead S.Store conn.old conn.new }
    ensures crash { CommitsNothing S.Store conn.old conn.new }
{
    if !is_ledger(conn.schema()) {
        return false;
    }
    let Ok(marks) = read_marks(conn) else {
        return false;
    };
    if !are_mark_rows(marks.as_slice()) || !are_ordered(marks.as_slice()) {
        return false;
    }
    // If the end of the first read closed the database, nothing is known of its tables.
    if !is_ledger(conn.schema()) {
        return false;
    }
    matches!(are_runs(conn, marks.as_slice()), Ok(true))
}
