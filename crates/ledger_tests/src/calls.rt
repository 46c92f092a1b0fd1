//! What the tests call: a ledger by numbers, calls repeated after a refusal of memory, and a journal's text and audit.
ghost use Rattle.std.specs.Prelude.{◌≡◌, ◌<◌, IfSome};

use crate::run::Run;
use io_memory::{FromMemory, Schedule, ToMemory};
use ledger_core::{
    AuditFault, Device, Grant, IssueFault, Journal, OpenLedgerFault, Range, SettleFault, Spent,
    Tally, audit,
};
use std::alloc::{AllocError, Global};

// Opens a ledger of this device.
pub fn open_of(alloc: Global, device: u32, lo: u32, size: u32, seats: u32) -> Option<Run>
    ensures { IfSome result (λ run. run.terms.seats ≡ seats) }
{
    let range = Range::new(Device::new(device)?, lo, size).ok()?;
    match Run::open(alloc, range, seats) {
        Ok(run) => Some(run),
        Err(_) => None,
    }
}

pub fn open(alloc: Global, lo: u32, size: u32, seats: u32) -> Option<Run>
    ensures { IfSome result (λ run. run.terms.seats ≡ seats) }
{
    open_of(alloc, 1, lo, size, seats)
}

// The only refused allocation is the one that the test run injects, so the second call succeeds.

pub fn open_twice(alloc: Global, lo: u32, size: u32, seats: u32) -> Option<Run>
    ensures { IfSome result (λ run. run.terms.seats ≡ seats) }
{
    let range = Range::new(Device::new(1)?, lo, size).ok()?;
    match Run::open(alloc, range, seats) {
        Ok(run) => Some(run),
        Err(OpenLedgerFault::OutOfMemory) => Run::open(alloc, range, seats).ok(),
        Err(_) => None,
    }
}

// A call that is refused memory must leave the counts unchanged. If it changes them, it isn't repeated.

pub fn issue(run: &mut Run, seat: usize) -> Result<Grant, IssueFault>
    requires { seat < run.old.terms.seats }
    ensures { run.new ≡ run.old }
{
    let before = run.tally(seat);
    let issued = run.issue(seat);
    if let Err(IssueFault::OutOfMemory) = issued
        && run.tally(seat) == before
    {
        return run.issue(seat);
    }
    issued
}

// A settlement takes no memory, so it isn't repeated.

pub fn settles(run: &mut Run, seat: usize, spent: Spent) -> bool
    requires { seat < run.old.terms.seats }
    ensures { run.new ≡ run.old }
{
    run.settle(seat, spent).is_ok()
}

// Settles a number that isn't open. Returns the number, which the refusal hands back.
pub fn refused(run: &mut Run, seat: usize, spent: Spent) -> Option<Spent>
    requires { seat < run.old.terms.seats }
    ensures { run.new ≡ run.old }
{
    match run.settle(seat, spent) {
        Err((SettleFault::NotOpen, spent)) => Some(spent),
        _ => None,
    }
}

fn close(run: Run) -> Result<Journal, Run> {
    match run.close() {
        Err(run) => run.close(),
        journal => journal,
    }
}

fn text_of(alloc: Global, journal: &Journal) -> Result<String, AllocError> {
    match journal.text(alloc) {
        Err(_) => journal.text(alloc),
        text => text,
    }
}

pub fn text_when_closed(alloc: Global, run: Run) -> Option<String> {
    match close(run) {
        Ok(journal) => text_of(alloc, &journal).ok(),
        Err(_) => None,
    }
}

// Whether the journal has this text.
pub fn closes_as(alloc: Global, run: Run, text: &str) -> bool {
    match text_when_closed(alloc, run) {
        Some(found) => found.as_str() == text,
        None => false,
    }
}

// Whether the audit of this journal writes this line. Returns `None` if memory is refused.
fn audit_once(alloc: Global, text: &str, line: &[u8]) -> Option<bool> {
    let mut reader = FromMemory::new(text.as_bytes(), 4_096, Schedule::Never);
    let mut writer = ToMemory::new(alloc, 100, 100, Schedule::Never).ok()?;
    match audit(alloc, &mut reader, &mut writer) {
        Ok(_) => Some(writer.bytes() == line),
        Err(AuditFault::OutOfMemory) => None,
        Err(_) => Some(false),
    }
}

// Whether the audit writes this line, on the second try if memory was refused.
pub fn audits_as(alloc: Global, text: &str, line: &[u8]) -> bool {
    match audit_once(alloc, text, line) {
        None => audit_once(alloc, text, line) == Some(true),
        Some(same) => same,
    }
}

// Whether the seat's counts are `tally`, and the audit of the journal writes this line.
pub fn ends_with(alloc: Global, mut run: Run, seat: usize, tally: Tally, line: &[u8]) -> bool
    requires { seat < run.terms.seats }
{
    let same = run.tally(seat) == tally;
    match text_when_closed(alloc, run) {
        Some(text) => same && audits_as(alloc, text.as_str(), line),
        None => false,
    }
}
