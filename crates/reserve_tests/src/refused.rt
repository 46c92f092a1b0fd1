//! A keeper with one refused growth. Run it with each allocation refused in turn (`tools/refused_tests.py`).
use crate::store::{ID, keeper, ledger, reserve};
use journal_core::Device;
use reserve_core::{Keeper, ReserveFault};
use sqlite::{Connection, MemStore};
use std::alloc::Global;

// An injected refusal comes once, so the second call succeeds.

fn ledger_again(alloc: Global) -> Option<Connection<MemStore>> {
    match ledger(alloc, &[(1, 3)], &[(1, 0, 3)]) {
        None => ledger(alloc, &[(1, 3)], &[(1, 0, 3)]),
        conn => conn,
    }
}

fn keeper_again(alloc: Global) -> Option<Keeper<MemStore>> {
    match keeper(ledger_again(alloc)?) {
        Err(ReserveFault::OutOfMemory) => keeper(ledger_again(alloc)?).ok(),
        opened => opened.ok(),
    }
}

fn reserves_again(keeper: &mut Keeper<MemStore>) -> bool {
    let reserved = match reserve(keeper, &ID, 1, 2) {
        Err(ReserveFault::OutOfMemory) => reserve(keeper, &ID, 1, 2),
        reserved => reserved,
    };
    reserved == Ok((3, 2))
}

fn lists_again(keeper: &mut Keeper<MemStore>) -> Option<bool> {
    let device = Device::new(1)?;
    let taken = match keeper.taken(&ID, device) {
        Err(ReserveFault::OutOfMemory) => keeper.taken(&ID, device),
        taken => taken,
    };
    Some(taken.ok()?.as_slice() == [(0, 3), (3, 2)].as_slice())
}

/// Whether a keeper opens, reserves and lists, each at the second call if the first was refused memory.
fn works_again(alloc: Global) -> Option<bool> {
    let mut keeper = keeper_again(alloc)?;
    Some(reserves_again(&mut keeper) && lists_again(&mut keeper)?)
}

#[test]
fn a_refused_growth_is_no_other_fault(rt: HostRuntime) {
    assert!(rt; works_again(rt.alloc()) == Some(true));
}
