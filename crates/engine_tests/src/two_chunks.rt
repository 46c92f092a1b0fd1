//! 65,537 zero bytes (two chunks) with two workers in windows of one chunk. Readers and writers transfer a byte a call,
//! writers fail after n bytes, and a growth is refused. The container's digest is from Python's `cryptography` and
//! `hashlib`.
use container_core::{OpenFault, SealFault, Shape};
use crew_core::Free;
use crew_tests::{
    ZERO_BYTES, ZEROS, ZEROS_SEALED, counting_key, grant_of, is_digest, sealed_zeros,
};
use io_memory::{FromMemory, Schedule, ToMemory};
use ledger_core::Way;
use opening_core::{run_open_by, run_verify_by};
use sealing_core::run_seal_by;
use std::alloc::{AllocError, Global};
use std::sync::Wait;
use std::thread::Threads;
use std::time::Clock;

const BYTES: u64 = 65_537;

// The window, in chunks.
const WINDOW: u32 = 1;

const MOST: usize = usize::MAX;

fn is_container(bytes: &[u8]) -> bool {
    is_digest(bytes, ZEROS_SEALED, &ZEROS)
}

// A writer with room for everything, which takes `step` bytes a call and fails by a schedule. An injected refusal of
// memory comes once, so the second call succeeds.
fn writer_of(alloc: Global, step: usize, schedule: Schedule) -> Option<ToMemory> {
    match ToMemory::new(alloc, ZEROS_SEALED, step, schedule) {
        Err(AllocError) => ToMemory::new(alloc, ZEROS_SEALED, step, schedule).ok(),
        writer => writer.ok(),
    }
}

// Seals the zeros under a grant of file 0, reading `step` bytes a call. Returns the engine's result, and how the grant
// ended.
fn seal_zeros<R: Threads + Wait + Sync>(
    rt: &R,
    alloc: Global,
    step: usize,
    writer: &mut ToMemory,
) -> Option<(Result<u64, SealFault>, Way)> {
    let grant = grant_of(alloc, 0)?;
    let mut reader = FromMemory::new(&ZERO_BYTES, step, Schedule::Never);
    let (key, shape) = (counting_key(), Shape::one());
    let mut kept = Vec::new(alloc);
    let (result, spent) = run_seal_by(
        rt,
        alloc,
        &key,
        &shape,
        grant,
        &mut reader,
        writer,
        BYTES,
        2,
        WINDOW,
        &Free,
        &mut kept,
    );
    Some((result, spent.way()))
}

fn open_bytes<R: Threads + Clock + Sync>(
    rt: &R,
    alloc: Global,
    bytes: &[u8],
    step: usize,
    writer: &mut ToMemory,
) -> Result<u64, OpenFault> {
    let key = counting_key();
    let mut reader = FromMemory::new(bytes, step, Schedule::Never);
    run_open_by(
        rt,
        alloc,
        &key,
        &mut reader,
        writer,
        BYTES,
        2,
        WINDOW,
        &Free,
    )
}

fn verify_bytes<R: Threads + Clock + Sync>(
    rt: &R,
    alloc: Global,
    bytes: &[u8],
    step: usize,
) -> Result<u64, OpenFault> {
    let key = counting_key();
    let mut reader = FromMemory::new(bytes, step, Schedule::Never);
    run_verify_by(rt, alloc, &key, &mut reader, BYTES, 2, WINDOW, &Free)
}

// ---- n bytes a call

fn is_sealed_by_steps<R: Threads + Wait + Sync>(
    rt: &R,
    alloc: Global,
    step: usize,
) -> Option<bool> {
    let mut writer = writer_of(alloc, step, Schedule::Never)?;
    let answer = seal_zeros(rt, alloc, step, &mut writer)?;
    Some(answer == (Ok(BYTES), Way::Sealed) && is_container(writer.bytes()))
}

fn is_opened_by_steps<R: Threads + Clock + Sync>(
    rt: &R,
    alloc: Global,
    step: usize,
) -> Option<bool> {
    let bytes = sealed_zeros(alloc)?;
    let mut writer = writer_of(alloc, step, Schedule::Never)?;
    let opened = open_bytes(rt, alloc, bytes.as_slice(), step, &mut writer);
    let verified = verify_bytes(rt, alloc, bytes.as_slice(), step);
    Some(opened == Ok(BYTES) && verified == Ok(BYTES) && writer.bytes() == ZERO_BYTES.as_slice())
}

#[test]
fn a_byte_a_call_changes_no_answer(rt: HostRuntime) {
    assert!(rt; is_sealed_by_steps(&rt, rt.alloc(), 1) == Some(true));
    assert!(rt; is_opened_by_steps(&rt, rt.alloc(), 1) == Some(true));
}

// ---- writers that fail after n bytes

// No room, and some; one byte less than chunk 0's 65,536 bytes, exactly those, and all bytes; and room for more.
static ROOMS: [usize; 9] = [0, 1, 23, 24, 25, 65_535, 65_536, 65_537, 65_593];

// Whether opening into this room writes exactly that much, and fails with `Write` unless there is room for everything.
fn is_opened_into<R: Threads + Clock + Sync>(
    rt: &R,
    alloc: Global,
    whole: &[u8],
    room: usize,
) -> Option<bool> {
    let mut writer = writer_of(alloc, MOST, Schedule::Bytes(room as u64))?;
    let answer = open_bytes(rt, alloc, whole, MOST, &mut writer);
    let taken = room.min(ZERO_BYTES.len());
    let wanted = if taken < ZERO_BYTES.len() {
        Err(OpenFault::Write)
    } else {
        Ok(BYTES)
    };
    Some(answer == wanted && writer.bytes() == ZERO_BYTES.get(..taken)?)
}

fn are_opened_into<R: Threads + Clock + Sync>(rt: &R, alloc: Global) -> Option<bool> {
    let whole = sealed_zeros(alloc)?;
    for room in &ROOMS {
        if is_opened_into(rt, alloc, whole.as_slice(), *room) != Some(true) {
            return None;
        }
    }
    Some(true)
}

#[test]
fn an_opening_writes_what_there_is_room_for(rt: HostRuntime) {
    assert!(rt; are_opened_into(&rt, rt.alloc()) == Some(true));
}

// ---- a refused growth. Run these with each allocation refused in turn (`tools/refused_tests.py`).

// Whether a sealing returns the container and a sealed number. If memory is refused, the number must be void and
// nothing written, and the result is `None`.
fn is_sealed_or_refused<R: Threads + Wait + Sync>(rt: &R, alloc: Global) -> Option<Option<bool>> {
    let mut writer = writer_of(alloc, MOST, Schedule::Never)?;
    Some(match seal_zeros(rt, alloc, MOST, &mut writer)? {
        (Err(SealFault::OutOfMemory), way) => {
            if way == Way::Void && writer.bytes().is_empty() {
                None
            } else {
                Some(false)
            }
        }
        answer => Some(answer == (Ok(BYTES), Way::Sealed) && is_container(writer.bytes())),
    })
}

fn seals_again<R: Threads + Wait + Sync>(rt: &R, alloc: Global) -> Option<bool> {
    match is_sealed_or_refused(rt, alloc)? {
        None => is_sealed_or_refused(rt, alloc)?,
        sealed => sealed,
    }
}

#[test]
fn a_refused_growth_seals_nothing_or_all(rt: HostRuntime) {
    assert!(rt; seals_again(&rt, rt.alloc()) == Some(true));
}

fn is_opened_or_refused<R: Threads + Clock + Sync>(
    rt: &R,
    alloc: Global,
    bytes: &[u8],
) -> Option<Option<bool>> {
    let mut writer = writer_of(alloc, MOST, Schedule::Never)?;
    Some(match open_bytes(rt, alloc, bytes, MOST, &mut writer) {
        Err(OpenFault::OutOfMemory) if writer.bytes().is_empty() => None,
        answer => Some(answer == Ok(BYTES) && writer.bytes() == ZERO_BYTES.as_slice()),
    })
}

fn opens_again<R: Threads + Clock + Wait + Sync>(rt: &R, alloc: Global) -> Option<bool> {
    let bytes = sealed_zeros(alloc)?;
    match is_opened_or_refused(rt, alloc, bytes.as_slice())? {
        None => is_opened_or_refused(rt, alloc, bytes.as_slice())?,
        opened => opened,
    }
}

#[test]
fn a_refused_growth_opens_nothing_or_all(rt: HostRuntime) {
    assert!(rt; opens_again(&rt, rt.alloc()) == Some(true));
}

fn verifies_again<R: Threads + Clock + Sync>(rt: &R, alloc: Global) -> Option<bool> {
    let bytes = sealed_zeros(alloc)?;
    let verified = match verify_bytes(rt, alloc, bytes.as_slice(), MOST) {
        Err(OpenFault::OutOfMemory) => verify_bytes(rt, alloc, bytes.as_slice(), MOST),
        verified => verified,
    };
    Some(verified == Ok(BYTES))
}

#[test]
fn a_refused_growth_is_no_other_fault(rt: HostRuntime) {
    assert!(rt; verifies_again(&rt, rt.alloc()) == Some(true));
}
