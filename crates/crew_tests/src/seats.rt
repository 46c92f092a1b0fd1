//! A seat across a sealing: a refused growth makes the number void, and the seat goes on with the next.
ghost use Rattle.std.specs.Prelude.{◌≡◌};

use crate::sealed::is_spent;
use crate::{ZERO_BYTES, ZEROS, counting_key, is_digest};
use container_core::Shape;
use crew_core::{Free, seal_whole};
use ledger_core::{Device, Grant, IssueFault, Ledger, Range, Seat, Way};
use std::alloc::{AllocError, Global};
use std::thread::Threads;

// The seat's next grant. If memory is refused, it is issued again.
fn next_grant(ledger: &Ledger, seat: &mut Seat) -> Option<Grant>
    requires { seat.old.ledger ≡ ledger.now.ledger }
    ensures { seat.new.ledger ≡ seat.old.ledger }
{
    match ledger.issue(seat) {
        Err(IssueFault::OutOfMemory) => ledger.issue(seat).ok(),
        issued => issued.ok(),
    }
}

// Seals 65,537 zeros with two workers under number 0, issued at a seat. Whether the number is sealed with the known
// container, or void without one.
fn is_spent_by_its_result<R: Threads + Sync>(
    rt: &R,
    alloc: Global,
    ledger: &Ledger,
    seat: &mut Seat,
) -> Option<bool>
    requires { seat.old.ledger ≡ ledger.now.ledger }
    ensures { seat.new.ledger ≡ seat.old.ledger }
{
    let grant = next_grant(ledger, seat)?;
    let key = counting_key();
    let (result, spent) = seal_whole(rt, alloc, &key, &Shape::one(), grant, &ZERO_BYTES, 2, &Free);
    match result {
        Ok(bytes) => {
            Some(is_digest(bytes.as_slice(), 65_593, &ZEROS) && is_spent(&spent, 0, Way::Sealed))
        }
        Err(AllocError) => Some(is_spent(&spent, 0, Way::Void)),
    }
}

// Whether the seat of a ledger of two numbers spends number 0 on a sealing and is then granted number 1. Memory may be
// refused to the sealing.
fn goes_on_at<R: Threads + Sync>(
    rt: &R,
    alloc: Global,
    ledger: &Ledger,
    seat: &mut Seat,
) -> Option<bool>
    requires { seat.old.ledger ≡ ledger.now.ledger }
{
    let spent = is_spent_by_its_result(rt, alloc, ledger, seat)?;
    Some(spent && next_grant(ledger, seat)?.number() == 1)
}

// If memory for the ledger is refused, it is opened again.
fn goes_on<R: Threads + Sync>(rt: &R, alloc: Global) -> Option<bool> {
    let range = Range::new(Device::new(1)?, 0, 2).ok()?;
    let (ledger, mut seats) = match Ledger::open(alloc, range, 1) {
        Err(_) => Ledger::open(alloc, range, 1).ok()?,
        Ok(opened) => opened,
    };
    let seat = &mut seats[0];
    goes_on_at(rt, alloc, &ledger, seat)
}

#[test]
fn a_refused_growth_leaves_the_next_number(rt: HostRuntime) {
    assert!(rt; goes_on(&rt, rt.alloc()) == Some(true));
}
