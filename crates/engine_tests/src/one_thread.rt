//! The engines of one thread, with readers and writers in memory that transfer a few bytes a call, and with those of
//! `std`. The expected bytes are in `containers` and come from Python's `cryptography`.
ghost use Rattle.std.specs.Prelude.{◌≤◌};

use crate::containers::{ONE, OVER_STD, PLAIN};
use container_core::{OpenFault, SealFault};
use container_tests::EMPTY;
use crew_tests::{PREFIX, counting_key};
use io_memory::{FromMemory, Schedule, ToMemory};
use ledger_core::{FromRead, ToWrite};
use opening_core::{open_one, verify_one};
use sealing_core::seal_one;
use std::alloc::Global;

// The result of sealing from a reader that returns three bytes a call.
fn seal_from(
    alloc: Global,
    plain: &[u8],
    writer: &mut ToMemory,
    max_bytes: u64,
) -> Result<u64, SealFault>
    requires { max_bytes ≤ 1099511627776 }
{
    let mut reader = FromMemory::new(plain, 3, Schedule::Never);
    seal_one(
        alloc,
        &counting_key(),
        PREFIX,
        &mut reader,
        writer,
        max_bytes,
    )
}

// The result of opening from a reader that returns seven bytes a call.
fn open_from(
    alloc: Global,
    bytes: &[u8],
    writer: &mut ToMemory,
    max_bytes: u64,
) -> Result<u64, OpenFault>
    requires { max_bytes ≤ 1099511627776 }
{
    let mut reader = FromMemory::new(bytes, 7, Schedule::Never);
    open_one(alloc, &counting_key(), &mut reader, writer, max_bytes)
}

// The result of verifying from such a reader.
fn verify_from(alloc: Global, bytes: &[u8], max_bytes: u64) -> Result<u64, OpenFault>
    requires { max_bytes ≤ 1099511627776 }
{
    let mut reader = FromMemory::new(bytes, 7, Schedule::Never);
    verify_one(alloc, &counting_key(), &mut reader, max_bytes)
}

// Whether sealing works into a writer with room for exactly the container, and opening into one with room for exactly
// the plaintext. Exactly that many bytes are allowed, at most nine.
fn has_room(alloc: Global, plain: &[u8], sealed: &[u8]) -> Option<bool> {
    let bytes = plain.len() as u64;
    if bytes > 9 {
        return None;
    }
    let room = Schedule::Bytes(sealed.len() as u64);
    let mut writer = ToMemory::new(alloc, 64, 7, room).ok()?;
    let result = seal_from(alloc, plain, &mut writer, bytes);
    let is_sealed = result == Ok(bytes) && writer.bytes() == sealed;
    let mut writer = ToMemory::new(alloc, 64, 3, Schedule::Bytes(bytes)).ok()?;
    let result = open_from(alloc, sealed, &mut writer, bytes);
    let is_opened = result == Ok(bytes) && writer.bytes() == plain;
    Some(is_sealed && is_opened && verify_from(alloc, sealed, bytes) == Ok(bytes))
}

// Whether sealing reports a byte too many, with nothing written, and a writer that has room for only ten bytes.
fn sealing_tells(alloc: Global) -> Option<bool> {
    let mut writer = ToMemory::new(alloc, 64, 7, Schedule::Never).ok()?;
    let result = seal_from(alloc, b"plain", &mut writer, 4);
    let is_long = result == Err(SealFault::TooLong) && writer.bytes().is_empty();
    let mut writer = ToMemory::new(alloc, 64, 7, Schedule::Bytes(10)).ok()?;
    let result = seal_from(alloc, b"plain", &mut writer, 5);
    let is_begun = writer.bytes() == PLAIN.as_slice().get(..10)?;
    Some(is_long && result == Err(SealFault::Write) && is_begun)
}

// Whether opening and verifying the first `taken` bytes of a container fail with `fault`, with nothing written.
fn opening_tells(
    alloc: Global,
    whole: &[u8],
    taken: usize,
    max_bytes: u64,
    fault: OpenFault,
) -> Option<bool> {
    if max_bytes > 9 {
        return None;
    }
    let bytes = whole.get(..taken)?;
    let mut writer = ToMemory::new(alloc, 64, 3, Schedule::Never).ok()?;
    let opened = open_from(alloc, bytes, &mut writer, max_bytes);
    let is_told = opened == Err(fault) && writer.bytes().is_empty();
    Some(is_told && verify_from(alloc, bytes, max_bytes) == Err(fault))
}

#[test]
fn faults_of_one_thread_are_told(rt: HostRuntime) {
    assert!(rt; sealing_tells(rt.alloc()) == Some(true));
    assert!(rt; opening_tells(rt.alloc(), &PLAIN, 45, 4, OpenFault::TooLong) == Some(true));
    let forged = OpenFault::Forged { chunk: 0 };
    assert!(rt; opening_tells(rt.alloc(), &PLAIN, 44, 5, forged) == Some(true));
    assert!(rt; opening_tells(rt.alloc(), &PLAIN, 39, 5, OpenFault::BadLength) == Some(true));
    // One byte where none is allowed.
    assert!(rt; opening_tells(rt.alloc(), &ONE, 41, 0, OpenFault::TooLong) == Some(true));
}

// A writer that takes everything and would fail at the next call, which nobody makes.
#[test]
fn room_for_all_and_no_more(rt: HostRuntime) {
    assert!(rt; has_room(rt.alloc(), b"", &EMPTY) == Some(true));
    assert!(rt; has_room(rt.alloc(), b"plain", &PLAIN) == Some(true));
}

fn seals_over_std(alloc: Global) -> bool {
    let plain: &[u8] = b"over std";
    let mut writer = ToWrite(Vec::new(alloc));
    let key = counting_key();
    let result = seal_one(alloc, &key, PREFIX, &mut FromRead(plain), &mut writer, 8);
    result == Ok(8) && writer.0.as_slice() == OVER_STD.as_slice()
}

fn opens_over_std(alloc: Global) -> bool {
    let plain: &[u8] = b"over std";
    let mut back = ToWrite(Vec::new(alloc));
    let key = counting_key();
    let opened = open_one(
        alloc,
        &key,
        &mut FromRead(OVER_STD.as_slice()),
        &mut back,
        8,
    );
    let verified = verify_one(alloc, &key, &mut FromRead(OVER_STD.as_slice()), 8);
    opened == Ok(8) && back.0.as_slice() == plain && verified == Ok(8)
}

#[test]
fn readers_and_writers_of_std(rt: HostRuntime) {
    assert!(rt; seals_over_std(rt.alloc()));
    assert!(rt; opens_over_std(rt.alloc()));
}
