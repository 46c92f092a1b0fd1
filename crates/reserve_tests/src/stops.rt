//! Runs with a disk that stops: from some call on, one of the two files returns only errors. Each call is once the
//! first to fail.
use crate::disk::{
    ALL_LEFT, Left, Run, Stopping, Which, answer_over, begins_with, found, fused, has_both_or_none,
    run_over,
};
use crate::store::{ID, has_taken, keeper, reserve};
use reserve_core::Keeper;
use sqlite::{Alter, Connection, Files};
use std::alloc::Global;

/// How many numbers a run reserves, and (`BEGINS`) where each of these ranges begins.
static COUNTS: [u32; 3] = [1, 3, 65_535];

static BEGINS: [u32; 3] = [0, 1, 4];

/// The ranges that a run reserves.
static RANGES: [(u32, u64); 3] = [(0, 1), (1, 3), (4, 65_535)];

/// What a run reported before its disk stopped.
#[derive(Clone, Copy)]
struct Told {
    has_keeper: bool,
    /// How many of the ranges it received.
    answered: usize,
}

const NOTHING: Told = Told {
    has_keeper: false,
    answered: 0,
};

/// How many runs were stopped before they had a keeper, and how many during a reservation.
#[derive(Clone, Copy)]
struct Count {
    opening: u32,
    reserving: u32,
}

/// Returns how many ranges were reserved before the first refusal, or `None` if a range was wrong.
fn reserve_each<S: Alter>(keeper: &mut Keeper<S>) -> Option<usize> {
    for at in 0..3usize {
        match reserve(keeper, &ID, 1, COUNTS[at]) {
            Ok(range) if range == (BEGINS[at], COUNTS[at]) => {}
            Ok(_) => return None,
            Err(_) => return Some(at),
        }
    }
    Some(3)
}

/// Reserves the ranges. The result is `None` if one was wrong.
#[derive(Clone, Copy)]
struct Reserves;

impl Run for Reserves {
    type Answer = Option<Told>;

    fn over<S: Alter + Drop>(self, conn: Connection<S>) -> (Option<Told>, Option<S>) {
        match Keeper::open(conn) {
            Ok(keeper) => {
                let mut keeper = keeper;
                let told = match reserve_each(&mut keeper) {
                    Some(answered) => Some(Told {
                        has_keeper: true,
                        answered,
                    }),
                    None => None,
                };
                (told, Some(keeper.release().into_store()))
            }
            Err((_, conn)) => (Some(NOTHING), Some(conn.into_store())),
        }
    }
}

/// Whether the files have what a run reported and at most one range more, and give the next number. They must have both
/// tables or neither.
#[derive(Clone, Copy)]
struct Shows {
    told: Told,
}

impl Run for Shows {
    type Answer = Option<bool>;

    fn over<S: Alter + Drop>(self, conn: Connection<S>) -> (Option<bool>, Option<S>) {
        (shows_what_was_told(conn, self.told), None)
    }
}

fn shows_what_was_told<S: Alter + Drop>(mut conn: Connection<S>, told: Told) -> Option<bool> {
    let has_tables = has_both_or_none(&mut conn)?;
    let mut keeper = keeper(conn).ok()?;
    Some(has_what_was_told(&mut keeper, has_tables, told))
}

/// Whether a keeper has the ranges that were reported, and at most the one being reserved.
fn has_what_was_told<S: Alter>(keeper: &mut Keeper<S>, has_tables: bool, told: Told) -> bool {
    if told.has_keeper && !has_tables {
        return false;
    }
    if !told.has_keeper {
        return begins_with(keeper, &[], 0);
    }
    let answered = told.answered.min(3);
    let more = told.answered.min(2) + 1;
    let kept = if has_taken(keeper, &ID, 1, &RANGES[..answered]) {
        answered
    } else {
        more
    };
    begins_with(keeper, &RANGES[..kept], next_after(kept))
}

/// The number after the first `ranges` ranges.
fn next_after(ranges: usize) -> u32 {
    match ranges {
        0 => 0,
        1 => 1,
        2 => 4,
        _ => 65_539,
    }
}

/// What a run reports if its disk stops after `calls` calls. Returns `None` if what it leaves lacks a range, or has a
/// wrong one.
fn told_before(alloc: Global, which: Which, left: Left, calls: u64) -> Option<Told> {
    let (told, files) = run_over(alloc, fused(alloc, which, calls), Reserves);
    match (told.unwrap_or(Some(NOTHING)), files) {
        (Some(told), Some(files)) => {
            if is_shown(alloc, files, left, told) {
                Some(told)
            } else {
                None
            }
        }
        _ => None,
    }
}

/// Whether these files show the next run what was reported.
fn is_shown(alloc: Global, files: Files<Stopping>, left: Left, told: Told) -> bool {
    match found(alloc, files, left) {
        Some(files) => answer_over(alloc, files, Shows { told }) == Some(Some(true)),
        None => false,
    }
}

/// Stops after 0 calls, 1 call and so on, until a run receives all three ranges, and checks what each leaves. Returns
/// how many runs were stopped, or `None` if a range is missing or wrong.
fn stop_each(alloc: Global, which: Which, left: Left) -> Option<Count> {
    let mut count = Count {
        opening: 0,
        reserving: 0,
    };
    for calls in 0..1_000u64 {
        let told = told_before(alloc, which, left, calls)?;
        if told.answered >= 3 {
            return Some(count);
        }
        if told.has_keeper {
            count.reserving = count.reserving.saturating_add(1);
        } else {
            count.opening = count.opening.saturating_add(1);
        }
    }
    None
}

/// Whether, whatever is left, some runs are stopped while opening the files, and some while reserving exactly if
/// `reserves`. Each must leave what it reported.
fn leave_what_was_told(alloc: Global, which: Which, reserves: bool) -> bool {
    for left in &ALL_LEFT {
        match stop_each(alloc, which, *left) {
            Some(count) if count.opening > 0 && (count.reserving > 0) == reserves => {}
            _ => return false,
        }
    }
    true
}

#[test]
fn a_stop_of_the_log_leaves_what_was_told(rt: HostRuntime) {
    assert!(rt; leave_what_was_told(rt.alloc(), Which::Log, true));
}

/// A reservation doesn't touch the database file, so all stops come while it is being opened.
#[test]
fn a_stop_of_the_database_leaves_what_was_told(rt: HostRuntime) {
    assert!(rt; leave_what_was_told(rt.alloc(), Which::Database, false));
}
