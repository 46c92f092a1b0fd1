//! Grants, each from its own ledger.
use ledger_core::{Device, Grant, Ledger, Range};
use std::alloc::Global;

fn first_of(alloc: Global, number: u32) -> Option<Grant> {
    let range = Range::new(Device::new(1)?, number, 1).ok()?;
    let (ledger, mut seats) = Ledger::open(alloc, range, 1).ok()?;
    let seat = &mut seats[0];
    ledger.issue(seat).ok()
}

/// Returns the grant of this number for device 1, or `None` if memory is refused twice. An injected refusal comes once,
/// so the second try succeeds.
pub fn grant_of(alloc: Global, number: u32) -> Option<Grant> {
    match first_of(alloc, number) {
        None => first_of(alloc, number),
        grant => grant,
    }
}
