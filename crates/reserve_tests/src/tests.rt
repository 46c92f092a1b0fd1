//! Reservations in a row.
use crate::store::{
    ID, Mark, PLAIN_MARK, TABLES, Taken, database, database_of, has_taken, keeper, ledger,
    ledger_of_devices, ledger_of_many, reserve,
};
use crate::tests::Step::{Gives, GivesFrom, Has, Refuses};
use crate::tests::Whose::{Other, Own};
use journal_core::Device;
use reserve_core::{Keeper, ReserveFault};
use sqlite::{Alter, Connection};
use std::alloc::{AllocError, Global};

static OTHER_ID: [u8; 32] = [7; 32];

/// Whose numbers: a device's, under the key ID `ID` or `OTHER_ID`.
#[derive(Clone, Copy)]
enum Whose {
    Own(u32),
    Other(u32),
}

/// A call of a keeper, and its expected result.
#[derive(Clone, Copy)]
enum Step {
    /// Reserving as many numbers as this range has returns this range.
    Gives(Whose, (u32, u32)),
    /// Reserving a number for device 1 of `ID`, from this one on, returns it, or is `BelowFloor`.
    GivesFrom(u64, Option<u32>),
    /// Reserving this many numbers for device 1 of `ID` fails.
    Refuses(u32, ReserveFault),
    /// These are the ranges.
    Has(Whose, &'static [(u32, u64)]),
}

/// Whether a keeper returns what the step expects.
fn takes_step<S: Alter>(keeper: &mut Keeper<S>, step: &Step) -> bool {
    match step {
        Gives(Own(device), range) => reserve(keeper, &ID, *device, range.1) == Ok(*range),
        Gives(Other(device), range) => reserve(keeper, &OTHER_ID, *device, range.1) == Ok(*range),
        GivesFrom(floor, number) => gives_from(keeper, *floor) == *number,
        Refuses(count, fault) => reserve(keeper, &ID, 1, *count) == Err(*fault),
        Has(Own(device), ranges) => has_taken(keeper, &ID, *device, ranges),
        Has(Other(device), ranges) => has_taken(keeper, &OTHER_ID, *device, ranges),
    }
}

/// How many of these steps a keeper passes, in order.
fn taken_by<S: Alter>(keeper: &mut Keeper<S>, steps: &[Step]) -> usize {
    for (at, step) in steps.iter().enumerate() {
        if !takes_step(keeper, step) {
            return at;
        }
    }
    steps.len()
}

/// The number that is reserved for device 1 of `ID`, if it is this one or above it; `None` if that is `BelowFloor`.
fn gives_from<S: Alter>(keeper: &mut Keeper<S>, floor: u64) -> Option<u32> {
    match keeper.reserve_from(&ID, Device::new(1)?, 1, floor) {
        Ok(range) => Some(range.lo()),
        Err(ReserveFault::BelowFloor) => None,
        Err(_) => Some(u32::MAX),
    }
}

/// How many of them a database's keeper passes; 0 if it has no keeper.
fn steps_taken<S: Alter + Drop>(conn: Option<Connection<S>>, steps: &[Step]) -> usize {
    match opened(conn) {
        Some(mut keeper) => taken_by(&mut keeper, steps),
        None => 0,
    }
}

fn opened<S: Alter + Drop>(conn: Option<Connection<S>>) -> Option<Keeper<S>> {
    keeper(conn?).ok()
}

/// The connection of a keeper that passed these steps.
fn after<S: Alter + Drop>(conn: Option<Connection<S>>, steps: &[Step]) -> Option<Connection<S>> {
    let mut keeper = opened(conn)?;
    if taken_by(&mut keeper, steps) == steps.len() {
        Some(keeper.release())
    } else {
        None
    }
}

/// The statements and rows of a database, and the steps that its keeper passes.
static KEPT: [(&str, &[&str], &[Mark], &[Taken], &[Step]); 4] = [
    (
        "ranges of each device and key id are adjacent from 0, and a refusal changes nothing",
        &[],
        &[],
        &[],
        &[
            Has(Own(1), &[]),
            Gives(Own(1), (0, 3)),
            Gives(Own(2), (0, 4)),
            Gives(Other(1), (0, 5)),
            Gives(Other(16_777_215), (0, 6)),
            Refuses(0, ReserveFault::ZeroCount),
            Refuses(65_536, ReserveFault::TooMany),
            Has(Own(1), &[(0, 3)]),
            GivesFrom(4, None),
            Has(Own(1), &[(0, 3)]),
            GivesFrom(3, Some(3)),
            Gives(Own(1), (4, 65_535)),
            Has(Own(1), &[(0, 3), (3, 1), (4, 65_535)]),
            Has(Own(2), &[(0, 4)]),
            Has(Other(1), &[(0, 5)]),
            Has(Other(16_777_215), &[(0, 6)]),
            Has(Other(2), &[]),
        ],
    ),
    (
        "the field is spent at its end",
        &[TABLES],
        &[(1, 4_294_967_295)],
        &[(1, 0, 4_294_967_295)],
        &[
            Refuses(0, ReserveFault::ZeroCount),
            Refuses(65_536, ReserveFault::TooMany),
            Refuses(2, ReserveFault::FieldSpent { left: 1 }),
            Gives(Own(1), (4_294_967_295, 1)),
            Refuses(1, ReserveFault::FieldSpent { left: 0 }),
        ],
    ),
    (
        "a range longer than any that is given goes on",
        &[TABLES],
        &[(1, 70_000)],
        &[(1, 0, 70_000)],
        &[
            Gives(Own(1), (70_000, 2)),
            Has(Own(1), &[(0, 70_000), (70_000, 2)]),
        ],
    ),
    (
        "a refused second write leaves the mark: no range of more than two numbers can be put in",
        &[
            PLAIN_MARK,
            "CREATE TABLE taken (key_id BLOB NOT NULL, device INTEGER NOT NULL,
               lo INTEGER NOT NULL, size INTEGER NOT NULL,
               PRIMARY KEY (key_id, device, lo), CHECK (size <= 2))",
        ],
        &[],
        &[],
        &[
            Gives(Own(1), (0, 1)),
            Refuses(3, ReserveFault::Store),
            Gives(Own(1), (1, 1)),
            Has(Own(1), &[(0, 1), (1, 1)]),
        ],
    ),
];

#[test]
fn ranges_are_adjacent_and_a_refusal_changes_nothing(rt: HostRuntime) {
    for (what, sql, marks, taken, steps) in &KEPT {
        let at = steps_taken(database_of(rt.alloc(), sql, marks, taken), steps);
        assert!(rt; at == steps.len(), "{what}: step {at}");
    }
}

static FIRST_RUN: [Step; 3] = [
    Gives(Own(0), (0, 3)),
    Gives(Own(1), (0, 3)),
    Gives(Own(2), (0, 1)),
];

static SECOND_RUN: [Step; 4] = [
    Gives(Own(0), (3, 1)),
    Has(Own(0), &[(0, 3), (3, 1)]),
    Gives(Own(1), (3, 1)),
    Has(Own(1), &[(0, 3), (3, 1)]),
];

#[test]
fn a_second_run_continues_the_numbers_of_device_0_as_of_any(rt: HostRuntime) {
    let conn = after(database(rt.alloc(), &[]), &FIRST_RUN);
    let at = steps_taken(conn, &SECOND_RUN);
    assert!(rt; at == SECOND_RUN.len(), "step {at}");
}

fn count_of<S: Alter>(keeper: &mut Keeper<S>) -> Option<usize> {
    let device = Device::new(1)?;
    Some(keeper.taken(&ID, device).ok()?.len())
}

/// Whether a ledger of 25,000 ranges goes on, and then has one more.
fn goes_on_behind_many<S: Alter + Drop>(conn: Option<Connection<S>>) -> Option<bool> {
    let mut keeper = opened(conn)?;
    Some(
        takes_step(&mut keeper, &Gives(Own(1), (25_000, 2)))
            && count_of(&mut keeper) == Some(25_001),
    )
}

#[test]
fn a_ledger_of_25000_ranges_goes_on(rt: HostRuntime) {
    assert!(rt; goes_on_behind_many(ledger_of_many(rt.alloc(), 25_000)) == Some(true));
}

static AMONG_DEVICES: [Step; 5] = [
    Gives(Own(2_000), (1, 2)),
    Gives(Own(4_000), (0, 3)),
    Has(Own(2_000), &[(0, 1), (1, 2)]),
    Has(Own(1_999), &[(0, 1)]),
    Has(Own(4_000), &[(0, 3)]),
];

#[test]
fn one_of_4000_devices_and_a_new_one(rt: HostRuntime) {
    let at = steps_taken(ledger_of_devices(rt.alloc(), 4_000), &AMONG_DEVICES);
    assert!(rt; at == AMONG_DEVICES.len(), "step {at}");
}

/// The fault of a refused opening, and how many rows of `taken` the connection handed back has.
fn handed_back<S: Alter + Drop>(conn: Option<Connection<S>>) -> Option<(ReserveFault, i64)> {
    match Keeper::open(conn?) {
        Ok(_) => None,
        Err((fault, mut conn)) => Some((fault, rows_of(&mut conn)?)),
    }
}

fn rows_of<S: Alter>(conn: &mut Connection<S>) -> Option<i64> {
    let row = conn.query_row("SELECT count(*) FROM taken", &[]).ok()?;
    row.get::<i64>(0).ok()
}

#[test]
fn a_refused_database_is_handed_back(rt: HostRuntime) {
    let found = handed_back(ledger(rt.alloc(), &[], &[(1, 0, 1)]));
    assert!(rt; found == Some((ReserveFault::BadStore, 1)));
}

static FAULTS: [(ReserveFault, u32, &str); 7] = [
    (ReserveFault::ZeroCount, 30, "no files"),
    (ReserveFault::TooMany, 31, "too many files"),
    (ReserveFault::FieldSpent { left: 7 }, 32, "7 numbers left"),
    (ReserveFault::Store, 33, "store failed"),
    (ReserveFault::BadStore, 34, "not a ledger"),
    (ReserveFault::BelowFloor, 35, "older than its witness"),
    (ReserveFault::OutOfMemory, 36, "out of memory"),
];

fn has_text(alloc: Global, fault: ReserveFault, text: &str) -> Result<bool, AllocError> {
    Ok(format!(in alloc; "{fault}")?.as_str() == text)
}

#[test]
fn faults_have_their_numbers_and_texts(rt: HostRuntime) -> Result<(), AllocError> {
    for (fault, number, text) in &FAULTS {
        let told = has_text(rt.alloc(), *fault, text)?;
        assert!(rt; told && fault.number() == *number, "{text}");
    }
    Ok(())
}
