//! Databases that aren't ledger files, and some that are.
use crate::store::{Mark, PLAIN_MARK, PLAIN_TAKEN, TABLES, Taken, opening_after, opening_of};
use reserve_core::ReserveFault;
use reserve_core::ReserveFault::{BadStore, Store};

/// Whether a database was opened as a ledger, or refused with this fault.
fn is_opened(opening: Option<Result<(), ReserveFault>>, fault: Option<ReserveFault>) -> bool {
    match opening {
        Some(opening) => opening.err() == fault,
        None => false,
    }
}

/// Rows of `mark` and `taken` in the order of insertion, and the fault if they aren't a ledger.
static ROWS: [(&str, &[Mark], &[Taken], Option<ReserveFault>); 12] = [
    (
        "a gap between ranges",
        &[(1, 5)],
        &[(1, 0, 2), (1, 3, 2)],
        Some(BadStore),
    ),
    (
        "ranges that overlap",
        &[(1, 5)],
        &[(1, 0, 3), (1, 2, 3)],
        Some(BadStore),
    ),
    (
        "a range that does not begin at 0",
        &[(1, 3)],
        &[(1, 1, 2)],
        Some(BadStore),
    ),
    (
        "a mark below the last end",
        &[(1, 4)],
        &[(1, 0, 5)],
        Some(BadStore),
    ),
    ("a mark without ranges", &[(1, 1)], &[], Some(BadStore)),
    (
        "a range from 1 without a mark",
        &[],
        &[(1, 1, 2)],
        Some(BadStore),
    ),
    (
        "a second device without a mark",
        &[(1, 2)],
        &[(1, 0, 2), (2, 0, 1)],
        Some(BadStore),
    ),
    (
        "a lower device without a mark",
        &[(2, 2)],
        &[(2, 0, 2), (1, 0, 1)],
        Some(BadStore),
    ),
    (
        "a device of 25 bits",
        &[(16_777_216, 0)],
        &[],
        Some(BadStore),
    ),
    ("a device below 0", &[(-1, 0)], &[], Some(BadStore)),
    ("a mark at 0", &[(1, 0)], &[], None),
    (
        "ranges put in from the last on",
        &[(1, 5)],
        &[(1, 3, 2), (1, 0, 3)],
        None,
    ),
];

#[test]
fn rows_are_a_ledger_where_ranges_are_adjacent_up_to_their_mark(rt: HostRuntime) {
    for (what, marks, taken, fault) in &ROWS {
        assert!(rt;
            is_opened(opening_of(rt.alloc(), marks, taken), *fault),
            "{what}"
        );
    }
}

/// Statements that make a database, and the fault if it isn't a ledger.
static STATEMENTS: [(&str, &[&str], Option<ReserveFault>); 13] = [
    (
        "a mark of a key id of 31 bytes",
        &[
            TABLES,
            "INSERT INTO mark VALUES
               (X'00000000000000000000000000000000000000000000000000000000000000', 1, 0);",
        ],
        Some(BadStore),
    ),
    (
        "a range of a key id of 31 bytes",
        &[
            TABLES,
            "INSERT INTO taken VALUES
               (X'00000000000000000000000000000000000000000000000000000000000000', 1, 0, 1);",
        ],
        Some(BadStore),
    ),
    (
        "a text for a key id",
        &[
            TABLES,
            "INSERT INTO mark VALUES ('630dcd2966c4336691125448bbb25b4f', 1, 0);",
        ],
        Some(BadStore),
    ),
    (
        "a text for a number",
        &[
            PLAIN_MARK,
            PLAIN_TAKEN,
            "INSERT INTO mark VALUES
               (X'630dcd2966c4336691125448bbb25b4ff412a49c732db2c8abc1b8581bd710dd', 1, 'many')",
        ],
        Some(BadStore),
    ),
    (
        "a mark over the field",
        &[
            PLAIN_MARK,
            PLAIN_TAKEN,
            "INSERT INTO mark VALUES
               (X'630dcd2966c4336691125448bbb25b4ff412a49c732db2c8abc1b8581bd710dd', 1, 4294967297);
             INSERT INTO taken VALUES
               (X'630dcd2966c4336691125448bbb25b4ff412a49c732db2c8abc1b8581bd710dd', 1, 0, 4294967297)",
        ],
        Some(BadStore),
    ),
    (
        "the two tables without their checks, which open",
        &[PLAIN_MARK, PLAIN_TAKEN],
        None,
    ),
    ("the first table alone", &[PLAIN_MARK], Some(BadStore)),
    ("the second table alone", &[PLAIN_TAKEN], Some(BadStore)),
    (
        "a table with other columns",
        &[
            PLAIN_MARK,
            "CREATE TABLE taken (key_id BLOB NOT NULL, device INTEGER NOT NULL,
               low INTEGER NOT NULL, size INTEGER NOT NULL)",
        ],
        Some(BadStore),
    ),
    (
        "another table beside the two",
        &[TABLES, "CREATE TABLE note (title TEXT)"],
        Some(Store),
    ),
    (
        "another table alone",
        &["CREATE TABLE note (title TEXT)"],
        Some(BadStore),
    ),
    (
        "a view alone",
        &["CREATE VIEW one AS SELECT 1"],
        Some(BadStore),
    ),
    (
        "a connection in a transaction",
        &[TABLES, "BEGIN"],
        Some(Store),
    ),
];

#[test]
fn databases_of_other_tables_or_values_are_refused(rt: HostRuntime) {
    for (what, sql, fault) in &STATEMENTS {
        assert!(rt; is_opened(opening_after(rt.alloc(), sql), *fault), "{what}");
    }
}
