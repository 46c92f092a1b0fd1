//! Runs of the shared ledger: what calls return to seats, what seats count, and the text and audit of their journal.
//!
//! Functions over a borrowed ledger hold what a test does. They return whether all was as expected.
ghost use Rattle.std.specs.Prelude.{◌≡◌, ◌<◌};

use crate::calls::{
    audits_as, closes_as, issue, open, open_of, open_twice, refused, settles, text_when_closed,
};
use crate::run::Run;
use ledger_core::{
    Device, Grant, IssueFault, OpenLedgerFault, Range, SettleFault, Spent, Tally, Way,
};
use std::alloc::{AllocError, Global};
use std::fmt::Display;
use std::test::*;

// Seat 0 issues 7, and seat 1 issues 8.
fn issue_7_and_8(run: &mut Run) -> Option<(Grant, Grant)>
    requires { 1 < run.old.terms.seats }
    ensures { run.new ≡ run.old }
{
    let seven = issue(run, 0).ok()?;
    let eight = issue(run, 1).ok()?;
    Some((seven, eight))
}

fn are_7_and_8(seven: &Grant, eight: &Grant) -> bool {
    seven.number() == 7 && eight.number() == 8 && seven.prefix() == [0, 0, 1, 0, 0, 0, 7]
}

// Whether no number is left for seat 0.
fn has_no_more(run: &mut Run) -> bool
    requires { 0 < run.old.terms.seats }
    ensures { run.new ≡ run.old }
{
    let end = issue(run, 0).err() == Some(IssueFault::Exhausted);
    let closed = issue(run, 0).err() == Some(IssueFault::SeatClosed);
    end && closed
}

// Whether each settles its own number, and seat 1 can't settle what seat 0 issued. Seat 1 counts what seat 0 did, even
// if it did nothing itself since its last count.
fn settles_7_and_8(run: &mut Run, seven: Spent, eight: Spent) -> bool
    requires { 1 < run.old.terms.seats }
    ensures { run.new ≡ run.old }
{
    let counted = Tally {
        granted: 2,
        refused: 1,
        sealed: 1,
        void: 0,
    };
    let sealed = settles(run, 1, eight) && run.tally(1) == counted;
    let Some(seven) = refused(run, 1, seven) else {
        return false;
    };
    let same = seven.number() == 7 && run.tally(1) == counted;
    let void = settles(run, 0, seven) && run.tally(1) == Tally { void: 1, ..counted };
    sealed && same && void
}

fn shares_7_and_8(run: &mut Run) -> bool
    requires { 1 < run.old.terms.seats }
    ensures { run.new ≡ run.old }
{
    let Some((seven, eight)) = issue_7_and_8(run) else {
        return false;
    };
    let told = are_7_and_8(&seven, &eight) && has_no_more(run);
    let settled = settles_7_and_8(run, seven.waste(), eight.used());
    run.meet(0, 1);
    told && settled
}

// The six lines are the same whichever allocation is refused (tools/refused_tests.py).
#[test]
fn two_seats_share_a_range(rt: HostRuntime) {
    let mut run = open_twice(rt.alloc(), 7, 2, 2).expect(&rt, "a ledger");
    assert!(rt; shares_7_and_8(&mut run));
    let text = text_when_closed(rt.alloc(), run).expect(&rt, "a journal");
    let lines = "range 1 7 2 2\n0 issue 7\n1 issue 8\n0 issue none\n1 sealed 8\n0 void 7\n";
    assert!(rt; text.as_str() == lines);
    let line = b"legal: 2 granted, 1 sealed, 1 void, 0 open, 1 refused\n";
    assert!(rt; audits_as(rt.alloc(), text.as_str(), line));
}

// Seat 0 issues 0 to 3.
fn issue_four(run: &mut Run) -> Option<Grant>
    requires { 0 < run.old.terms.seats }
    ensures { run.new ≡ run.old }
{
    let zero = issue(run, 0).ok()?;
    let filled = issue(run, 0).is_ok() && issue(run, 0).is_ok() && issue(run, 0).is_ok();
    if filled { Some(zero) } else { None }
}

// Whether the settlement after that succeeds and is counted.
fn settles_behind_four(run: &mut Run) -> bool
    requires { 0 < run.old.terms.seats }
    ensures { run.new ≡ run.old }
{
    let Some(zero) = issue_four(run) else {
        return false;
    };
    let counted = Tally {
        granted: 4,
        refused: 0,
        sealed: 1,
        void: 0,
    };
    settles(run, 0, zero.used()) && run.tally(0) == counted
}

// Whichever allocation is refused (tools/refused_tests.py), it isn't the settlement's.
#[test]
fn a_settlement_takes_no_memory(rt: HostRuntime) {
    let mut run = open_twice(rt.alloc(), 0, 4, 1).expect(&rt, "a ledger");
    assert!(rt; settles_behind_four(&mut run));
    let lines = "range 1 0 4 1\n0 issue 0\n0 issue 1\n0 issue 2\n0 issue 3\n0 sealed 0\n";
    assert!(rt; closes_as(rt.alloc(), run, lines));
}

// Whether seat 2 counts what seat 0's note reports, and issues the next number, the last.
fn tells_in_order(run: &mut Run) -> bool
    requires { 2 < run.old.terms.seats }
    ensures { run.new ≡ run.old }
{
    let Ok((seven, tally, eight)) = run.in_order(0, 2) else {
        return false;
    };
    let one = Tally {
        granted: 1,
        refused: 0,
        sealed: 0,
        void: 0,
    };
    let told = seven.number() == 7 && eight.number() == 8 && tally == one;
    told && run.in_order(0, 1).err() == Some(IssueFault::Exhausted)
}

// The second seat has heard of the first one's grant: its count includes that grant, and its number is later.
#[test]
fn a_note_tells_what_was_done(rt: HostRuntime) {
    let mut run = open(rt.alloc(), 7, 2, 3).expect(&rt, "a ledger");
    assert!(rt; tells_in_order(&mut run));
}

// The fault of opening a ledger with `seats` seats, if any.
fn fault_of_seats(alloc: Global, range: Range, seats: u32) -> Option<OpenLedgerFault> {
    Run::open(alloc, range, seats).err()
}

// Whether a ledger of this range can have 1 or 64 seats, but not 0, 65 or `u32::MAX`.
fn has_from_one_to_sixty_four(alloc: Global, range: Range) -> bool {
    for seats in [0, 65, u32::MAX] {
        if fault_of_seats(alloc, range, seats) != Some(OpenLedgerFault::BadSeats) {
            return false;
        }
    }
    fault_of_seats(alloc, range, 1).is_none() && fault_of_seats(alloc, range, 64).is_none()
}

#[test]
fn seats_are_from_one_to_sixty_four(rt: HostRuntime) -> Result<(), Fail> {
    let range = Range::new(Device::new(1).ok_or("device")?, 0, 1)?;
    assert!(rt; has_from_one_to_sixty_four(rt.alloc(), range));
    Ok(())
}

// Whether a dropped grant counts as granted, and a number used and then spoiled as void.
fn spoils_1(run: &mut Run) -> bool
    requires { 0 < run.old.terms.seats }
    ensures { run.new ≡ run.old }
{
    let dropped = run.issue(0).is_ok();
    let Ok(one) = run.issue(0) else {
        return false;
    };
    let spoiled = one.used().spoil();
    let told = spoiled.number() == 1 && spoiled.device().number() == 1;
    let counted = Tally {
        granted: 2,
        refused: 0,
        sealed: 0,
        void: 1,
    };
    dropped && settles(run, 0, spoiled) && told && run.tally(0) == counted
}

// The next number of seat 0, used.
fn used(run: &mut Run) -> Option<Spent>
    requires { 0 < run.old.terms.seats }
    ensures { run.new ≡ run.old }
{
    let grant = run.issue(0).ok()?;
    Some(grant.used())
}

fn two_used(run: &mut Run) -> Option<(Spent, Spent)>
    requires { 0 < run.old.terms.seats }
    ensures { run.new ≡ run.old }
{
    let zero = used(run)?;
    let one = used(run)?;
    Some((zero, one))
}

// The same two numbers from another ledger.
fn use_0_and_1(alloc: Global) -> Option<(Spent, Spent)> {
    let mut other = open(alloc, 0, 3, 1)?;
    two_used(&mut other)
}

// Whether number 1 is handed back because it was settled, and number 0 is settled.
fn settles_0_alone(run: &mut Run, zero: Spent, one: Spent) -> bool
    requires { 0 < run.old.terms.seats }
    ensures { run.new ≡ run.old }
{
    let handed_back = refused(run, 0, one).is_some();
    settles(run, 0, zero) && handed_back
}

fn settles_each_once(alloc: Global, run: &mut Run) -> bool
    requires { 0 < run.old.terms.seats }
    ensures { run.new ≡ run.old }
{
    let Some((zero, one)) = use_0_and_1(alloc) else {
        return false;
    };
    let spoiled = spoils_1(run);
    settles_0_alone(run, zero, one) && spoiled
}

// A dropped grant leaves its number granted and open. A number is settled only once.
#[test]
fn a_number_is_settled_once(rt: HostRuntime) {
    let mut run = open(rt.alloc(), 0, 3, 1).expect(&rt, "a ledger");
    assert!(rt; settles_each_once(rt.alloc(), &mut run));
    let lines = "range 1 0 3 1\n0 issue 0\n0 issue 1\n0 void 1\n0 sealed 0\n";
    assert!(rt; closes_as(rt.alloc(), run, lines));
}

// Seat 0 issues 7 and seat 1 issues 8, with meetings before, between and after.
fn issue_and_meet(run: &mut Run) -> Option<(Grant, Grant)>
    requires { 1 < run.old.terms.seats }
    ensures { run.new ≡ run.old }
{
    run.meet(0, 1);
    let seven = run.issue(0).ok()?;
    run.meet(0, 1);
    let eight = run.issue(1).ok()?;
    run.meet_all();
    Some((seven, eight))
}

// Whether each settles its own number, and both count the same, with meetings between.
fn settles_and_meets(run: &mut Run, seven: Spent, eight: Spent) -> bool
    requires { 1 < run.old.terms.seats }
    ensures { run.new ≡ run.old }
{
    let end = run.issue(0).err() == Some(IssueFault::Exhausted);
    run.meet(0, 1);
    let sealed = run.settle(1, eight).is_ok();
    run.meet(0, 1);
    let all = Tally {
        granted: 2,
        refused: 1,
        sealed: 1,
        void: 0,
    };
    let counted = run.tally(0) == all && run.tally(1) == all;
    let void = run.settle(0, seven).is_ok();
    run.meet_all();
    end && sealed && counted && void
}

fn meets_between(run: &mut Run) -> bool
    requires { 1 < run.old.terms.seats }
    ensures { run.new ≡ run.old }
{
    let Some((seven, eight)) = issue_and_meet(run) else {
        return false;
    };
    settles_and_meets(run, seven.waste(), eight.used())
}

// Meetings between any two operations leave the lines unchanged. After a meeting the two seats count the same.
#[test]
fn meetings_change_no_history(rt: HostRuntime) {
    let mut run = open(rt.alloc(), 7, 2, 2).expect(&rt, "a ledger");
    assert!(rt; meets_between(&mut run));
    let lines = "range 1 7 2 2\n0 issue 7\n1 issue 8\n0 issue none\n1 sealed 8\n0 void 7\n";
    assert!(rt; closes_as(rt.alloc(), run, lines));
}

fn is_7_until_spent(seven: Grant) -> bool {
    let granted = seven.number() == 7 && seven.device().number() == 1;
    let sealed = seven.used();
    let used = sealed.number() == 7 && sealed.device().number() == 1;
    let way = sealed.way();
    granted && used && way == Way::Sealed && sealed.spoil().way() == Way::Void
}

// Whether seat 0's next number is void if it is wasted.
fn wastes_one(run: &mut Run) -> bool
    requires { 0 < run.old.terms.seats }
    ensures { run.new ≡ run.old }
{
    match run.issue(0) {
        Ok(grant) => grant.waste().way() == Way::Void,
        Err(_) => false,
    }
}

// Whether seats report their number, and their end once no number is left. Grants and spent numbers report what they
// are.
fn tell_what_they_are(run: &mut Run) -> bool
    requires { 1 < run.old.terms.seats }
    ensures { run.new ≡ run.old }
{
    let Ok(seven) = run.issue(0) else {
        return false;
    };
    let told = is_7_until_spent(seven) && wastes_one(run);
    let numbered = run.seat(0).number() == 0 && run.seat(1).number() == 1;
    let open = !run.seat(0).closed();
    let refused = run.issue(0).is_err();
    let closed = run.seat(0).closed() && !run.seat(1).closed();
    told && numbered && open && refused && closed
}

#[test]
fn seats_grants_and_spent_numbers_tell_what_they_are(rt: HostRuntime) {
    let mut run = open(rt.alloc(), 7, 2, 2).expect(&rt, "a ledger");
    assert!(rt; tell_what_they_are(&mut run));
}

// Number 7 used, and whether only the seat that issued it holds it.
fn use_7(run: &mut Run) -> Option<(Spent, bool)>
    requires { 1 < run.old.terms.seats }
    ensures { run.new ≡ run.old }
{
    let seven = used(run)?;
    let held = run.seat(0).holds(&seven) && !run.seat(1).holds(&seven);
    Some((seven, held))
}

// The same number of another device.
fn use_7_of_device_2(alloc: Global) -> Option<Spent> {
    let mut other = open_of(alloc, 2, 7, 2, 1)?;
    used(&mut other)
}

// Whether this seat refuses to hold or settle the stranger.
fn refuses_stranger(run: &mut Run, stranger: Spent) -> bool
    requires { 0 < run.old.terms.seats }
    ensures { run.new ≡ run.old }
{
    let strange = stranger.number() == 7 && !run.seat(0).holds(&stranger);
    refused(run, 0, stranger).is_some() && strange
}

fn holds_its_own(alloc: Global, run: &mut Run) -> bool
    requires { 1 < run.old.terms.seats }
    ensures { run.new ≡ run.old }
{
    let Some(stranger) = use_7_of_device_2(alloc) else {
        return false;
    };
    let Some((seven, held)) = use_7(run) else {
        return false;
    };
    let refused = refuses_stranger(run, stranger);
    settles(run, 0, seven) && held && refused
}

// The stranger has the number of one of this seat's grants, but of another device.
#[test]
fn seats_hold_their_own_open_numbers(rt: HostRuntime) {
    let mut run = open(rt.alloc(), 7, 2, 2).expect(&rt, "a ledger");
    assert!(rt; holds_its_own(rt.alloc(), &mut run));
}

#[test]
fn device_0_has_a_ledger_as_any(rt: HostRuntime) {
    let mut run = open_of(rt.alloc(), 0, 0, 1, 1).expect(&rt, "a ledger");
    let grant = run.issue(0).expect(&rt, "a number");
    assert!(rt; grant.prefix() == [0; 7]);
}

static ISSUE_FAULTS: [(IssueFault, u32, &str); 3] = [
    (IssueFault::Exhausted, 20, "no file number"),
    (IssueFault::SeatClosed, 21, "no file number"),
    (IssueFault::OutOfMemory, 23, "out of memory"),
];

static SETTLE_FAULTS: [(SettleFault, u32, &str); 2] = [
    (SettleFault::NotOpen, 22, "number not open"),
    (SettleFault::OutOfMemory, 23, "out of memory"),
];

static OPEN_FAULTS: [(OpenLedgerFault, u32, &str); 2] = [
    (OpenLedgerFault::BadSeats, 25, "bad seats"),
    (OpenLedgerFault::OutOfMemory, 23, "out of memory"),
];

fn has_text(alloc: Global, fault: impl Display + Drop, text: &str) -> Result<bool, AllocError> {
    Ok(format!(in alloc; "{fault}")?.as_str() == text)
}

#[test]
fn faults_have_their_numbers_and_texts(rt: HostRuntime) -> Result<(), AllocError> {
    for (fault, number, text) in &ISSUE_FAULTS {
        let told = has_text(rt.alloc(), *fault, text)?;
        assert!(rt; told && fault.number() == *number, "{text}");
    }
    for (fault, number, text) in &SETTLE_FAULTS {
        let told = has_text(rt.alloc(), *fault, text)?;
        assert!(rt; told && fault.number() == *number, "{text}");
    }
    for (fault, number, text) in &OPEN_FAULTS {
        let told = has_text(rt.alloc(), *fault, text)?;
        assert!(rt; told && fault.number() == *number, "{text}");
    }
    Ok(())
}
