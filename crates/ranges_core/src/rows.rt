//! Checks in one pass, in the order of their keys, that the rows of both tables are lists of adjacent ranges.
ghost use Rattle.std.specs.Prelude.{◌≡◌, ◌⊎◌, IfErr, ◌<◌, ◌≤◌, ◌+◌, ◌++◌, ◌^◌, IsTrue, IsSome};
ghost use Rattle.std.specs.Prelude.{IfSome, OnOk, Err, None, Some, [], filter, map, true};
ghost use Rattle.std.specs.List.{list_all};
ghost use Rattle.sqlite.specs.Order.{column};
ghost use Rattle.sqlite.specs.declared.types.Value.TheVariants.{Blob};
ghost use Rattle.sqlite_value.specs.Value.{owned};
ghost use Rattle.ranges_core.specs.Reads.{as_number, is_blob, is_for, is_key, is_mark_row};
ghost use Rattle.ranges_core.specs.Reads.{is_number, is_rowid, is_taken_row, is_within};
ghost use Rattle.ranges_core.specs.Reservations.{Adjacent, HoldLists, IsNext, Lists, next_of, range_in};
ghost use Rattle.ranges_core.specs.Runs.{Chain, IsBefore, IsBelow, OwnRun, RisesFrom, Runs, owner_cmp};

use crate::NUMBERS;
use crate::fault::ReserveFault;
use journal_core::Device;
use sqlite::Row;
use sqlite_value::order::compare;
use sqlite_value::value::ValueRef;
use std::cmp::Ordering;

/// Returns the integer in column `at`, if there is one and it is not negative.
pub(crate) fn number_at(row: &Row, at: usize) -> Option<u64>
    ensures value { result ≡ as_number (column row.now at) }
    ensures small { IfSome result (λ n. n < 2 ^ 63) }
{
    match row.get_ref(at) {
        Ok(ValueRef::Int(n)) => u64::try_from(n).ok(),
        _ => None,
    }
}

// Whether column `at` has an integer from 0 to `most`.
fn is_within(row: &Row, at: usize, most: u64) -> bool
    ensures { result ≡ is_within most (column row.now at) }
{
    match number_at(row, at) {
        Some(n) => n <= most,
        None => false,
    }
}

// Whether column `at` has a blob of 32 bytes.
fn is_key(row: &Row, at: usize) -> bool
    ensures { result ≡ is_key (column row.now at) }
{
    match row.get_ref(at) {
        Ok(ValueRef::Blob(bytes)) => bytes.len() == 32,
        _ => false,
    }
}

// Whether column `at` has an integer.
fn is_rowid(row: &Row, at: usize) -> bool
    ensures { result ≡ is_rowid (column row.now at) }
{
    matches!(row.get_ref(at), Ok(ValueRef::Int(_)))
}

// Whether the row has the form of a row of `mark`: rowid, key ID, device, next.
fn is_mark_row(row: &Row) -> bool
    ensures { result ≡ is_mark_row row.now }
{
    is_rowid(row, 0)
        && (is_key(row, 1) && is_within(row, 2, u64::from(Device::MAX)))
        && is_within(row, 3, NUMBERS)
}

// Whether the row has the form of a row of `taken`: rowid, key ID, device, lo, size.
pub(crate) fn is_taken_row(row: &Row) -> bool
    ensures { result ≡ is_taken_row row.now }
{
    (is_key(row, 1) && is_within(row, 2, u64::from(Device::MAX)))
        && number_at(row, 3).is_some()
        && number_at(row, 4).is_some()
}

// Whether each row has the form of a row of `mark`.
pub(crate) fn are_mark_rows(rows: &[Row]) -> bool
    ensures { result ≡ list_all is_mark_row rows.now }
{
    let mut rest = rows;
    while let [row, more @ ..] = rest {
        if !is_mark_row(row) {
            return false;
        }
        rest = more;
    }
    true
}

// Whether each row has the form of a row of `taken`.
fn are_taken_rows(rows: &[Row]) -> bool
    ensures { result ≡ list_all is_taken_row rows.now }
{
    let mut rest = rows;
    while let [row, more @ ..] = rest {
        if !is_taken_row(row) {
            return false;
        }
        rest = more;
    }
    true
}

// The value in column `at`, or NULL if there is no such column.
fn value_at(row: &Row, at: usize) -> ValueRef<'_>
    ensures { owned result ≡ column row.now at }
{
    match row.get_ref(at) {
        Ok(value) => value,
        Err(_) => ValueRef::Null,
    }
}

// Compares the key IDs of two rows, then their devices.
fn compare_owners(a: &Row, b: &Row) -> Ordering
    ensures { result ≡ owner_cmp a.now b.now }
{
    compare(value_at(a, 1), value_at(b, 1)).then(compare(value_at(a, 2), value_at(b, 2)))
}

// Whether the rows ascend by key ID and device, so that no two have the same.
pub(crate) fn are_ordered(rows: &[Row]) -> bool
    ensures { IsTrue result → Chain IsBefore rows.now }
{
    let mut rest = rows;
    while let [row, more @ ..] = rest {
        if let [next, ..] = more {
            if compare_owners(row, next) != Ordering::Less {
                return false;
            }
        }
        rest = more;
    }
    true
}

/// Whether the first columns ascend, so that no two are equal.
pub(crate) fn do_ids_rise(rows: &[Row]) -> bool
    ensures { IsTrue result → Chain IsBelow rows.now }
{
    let mut rest = rows;
    while let [row, more @ ..] = rest {
        if let [next, ..] = more {
            if compare(value_at(row, 0), value_at(next, 0)) != Ordering::Less {
                return false;
            }
        }
        rest = more;
    }
    true
}

// The key ID, if its column has a blob.
pub(crate) fn key_of(row: &Row) -> Option<&[u8]>
    ensures { IfSome result (λ key. column row.now 1 ≡ Blob key.now) }
{
    match row.get_ref(1) {
        Ok(ValueRef::Blob(key)) => Some(key),
        _ => None,
    }
}

// Whether the row has this key ID.
fn has_key(row: &Row, key: &[u8]) -> bool
    ensures { result ≡ is_blob key.now (column row.now 1) }
{
    match row.get_ref(1) {
        Ok(ValueRef::Blob(own)) => own == key,
        _ => false,
    }
}

// Whether the row has this device.
fn has_device(row: &Row, device: u64) -> bool
    ensures { result ≡ is_number device (column row.now 2) }
{
    match number_at(row, 2) {
        Some(own) => own == device,
        None => false,
    }
}

// Whether the row is of this key ID and device.
pub(crate) fn is_for(row: &Row, key: &[u8], device: u64) -> bool
    ensures { result ≡ is_for key.now device row.now }
{
    has_key(row, key) && has_device(row, device)
}

// The end of the row's range, if the range begins at `end`, is not empty, and has no number over 2^32 - 1.
pub(crate) fn end_after(row: &Row, end: u64) -> Option<u64>
    requires { end ≤ NUMBERS }
    ensures some { IfSome result (λ n. ((range_in row.now).lo ≡ end) × (1 ≤ (range_in row.now).size)
        × (n ≡ end + (range_in row.now).size) × (n ≤ NUMBERS)) }
    ensures none { is_taken_row row.now ≡ true → (range_in row.now).lo ≡ end → 1 ≤ (range_in row.now).size
        → end + (range_in row.now).size ≤ NUMBERS → IsSome result }
{
    let lo = number_at(row, 3)?;
    let size = number_at(row, 4)?;
    if lo != end || size == 0 || size > NUMBERS - end {
        return None;
    }
    Some(end + size)
}

// The rows after the ranges of this row of `mark`, if those are adjacent from 0 up to its `next`.
fn rest_after<'a>(mark: &Row, taken: &'a [Row]) -> Option<&'a [Row]>
    ensures { IfSome result (λ rest. (run : _) × (taken.now ≡ run ++ rest.now) × OwnRun mark.now run) }
{
    let key = key_of(mark)?;
    let device = number_at(mark, 2)?;
    let next = number_at(mark, 3)?;
    let mut rest = taken;
    let mut end = 0;
    while let Some((row, more)) = rest.split_first() {
        if !is_for(row, key, device) {
            return if end == next { Some(rest) } else { None };
        }
        end = end_after(row, end)?;
        rest = more;
    }
    if end == next { Some(rest) } else { None }
}

// What is left of both tables at the first row of `mark` whose ranges are not adjacent from 0 up to its `next`. For a
// ledger nothing is left.
fn first_misfit<'a>(marks: &'a [Row], taken: &'a [Row]) -> (&'a [Row], &'a [Row])
    ensures { result.0.now ≡ [] → result.1.now ≡ [] → Runs marks.now taken.now }
{
    let mut marks = marks;
    let mut taken = taken;
    while let [mark, more @ ..] = marks {
        let Some(rest) = rest_after(mark, taken) else {
            return (marks, taken);
        };
        marks = more;
        taken = rest;
    }
    (marks, taken)
}

// Whether the ranges of the key ID and device ascend.
fn do_ranges_rise(taken: &[Row], key: &[u8], device: u64) -> bool
    ensures { list_all is_taken_row taken.now ≡ true → IsTrue result
        → RisesFrom None (map range_in (filter (is_for key.now device) taken.now)) }
{
    let mut rest = taken;
    let mut last = None;
    while let Some((row, more)) = rest.split_first() {
        if is_for(row, key, device) {
            let lo = number_at(row, 3);
            if let (Some(lo), Some(before)) = (lo, last) {
                if lo <= before {
                    return false;
                }
            }
            last = lo;
        }
        rest = more;
    }
    true
}

// The end of the ranges of the key ID and device, if they are adjacent from 0.
fn end_for(taken: &[Row], key: &[u8], device: u64) -> Option<u64>
    ensures { list_all is_taken_row taken.now ≡ true
        → Adjacent 0 (map range_in (filter (is_for key.now device) taken.now))
        → next_of (map range_in (filter (is_for key.now device) taken.now)) ≤ NUMBERS
        → result ≡ Some (next_of (map range_in (filter (is_for key.now device) taken.now))) }
{
    let mut rest = taken;
    let mut end = 0;
    while let Some((row, more)) = rest.split_first() {
        if is_for(row, key, device) {
            end = end_after(row, end)?;
        }
        rest = more;
    }
    Some(end)
}

// The `next` of the first row of the key ID and device, or 0 if there is no such row.
fn next_for(marks: &[Row], key: &[u8], device: u64) -> Option<u64>
    ensures { list_all is_mark_row marks.now ≡ true → (n : _) → IsNext (filter (is_for key.now device) marks.now) n
        → result ≡ Some n }
{
    let mut rest = marks;
    while let [row, more @ ..] = rest {
        if is_for(row, key, device) {
            return number_at(row, 3);
        }
        rest = more;
    }
    Some(0)
}

// Whether the rows of this row's key ID and device certainly hold no list.
fn is_bad_owner(marks: &[Row], taken: &[Row], row: &Row) -> bool
    ensures { list_all is_mark_row marks.now ≡ true → list_all is_taken_row taken.now ≡ true → IsTrue result
        → (lists : Lists) → HoldLists marks.now taken.now lists → ⊥ }
{
    let (Some(key), Some(device)) = (key_of(row), number_at(row, 2)) else {
        return false;
    };
    if !do_ranges_rise(taken, key, device) {
        return false;
    }
    match (end_for(taken, key, device), next_for(marks, key, device)) {
        (Some(end), Some(next)) => end != next,
        _ => true,
    }
}

// Whether the rows of the first row's key ID and device certainly hold no list.
fn is_first_owner_bad(marks: &[Row], taken: &[Row], rest: &[Row]) -> bool
    ensures { list_all is_mark_row marks.now ≡ true → list_all is_taken_row taken.now ≡ true → IsTrue result
        → (lists : Lists) → HoldLists marks.now taken.now lists → ⊥ }
{
    match rest {
        [row, ..] => is_bad_owner(marks, taken, row),
        [] => false,
    }
}

/// Checks that the rows, in the order of their keys, hold lists. Returns `BadStore` if they certainly do not, and
/// `Store` if the database returned them out of order.
pub(crate) fn hold_lists(marks: &[Row], taken: &[Row]) -> Result<(), ReserveFault>
    ensures ok { OnOk result ((lists : Lists) × HoldLists marks.now taken.now lists) }
    ensures bad { result ≡ Err ReserveFault.BadStore → (lists : Lists) → HoldLists marks.now taken.now lists → ⊥ }
    ensures named { IfErr result (λ e. (e ≡ ReserveFault.Store) ⊎ (e ≡ ReserveFault.BadStore)) }
{
    if !are_mark_rows(marks) || !are_taken_rows(taken) {
        return Err(ReserveFault::BadStore);
    }
    // A database that returns rows out of the requested order is faulty.
    if !are_ordered(marks) {
        return Err(ReserveFault::Store);
    }
    let (left, rest) = first_misfit(marks, taken);
    if left.is_empty() && rest.is_empty() {
        return Ok(());
    }
    if is_first_owner_bad(marks, taken, left) || is_first_owner_bad(marks, taken, rest) {
        return Err(ReserveFault::BadStore);
    }
    Err(ReserveFault::Store)
}
