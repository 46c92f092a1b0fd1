//! `run_pipe` with two workers and one refused growth. Run it with each allocation refused in turn
//! (`tools/refused_tests.py`).
use crate::pipes::{Asked, piped};
use container_core::{SealFault, Shape};
use crew_tests::{ZERO_BYTES, ZEROS_SEALED, sealed_zeros};
use io_memory::{FromMemory, Schedule, ToMemory};
use std::alloc::{AllocError, Global};
use std::sync::Wait;
use std::thread::Threads;
use worker_core::Free;

// An injected refusal comes once, so the second call succeeds.
fn writer_of(alloc: Global) -> Option<ToMemory> {
    match ToMemory::new(alloc, ZEROS_SEALED, usize::MAX, Schedule::Never) {
        Err(AllocError) => { ToMemory::new(alloc, ZEROS_SEALED, usize::MAX, Schedule::Never).ok() }
        writer => writer.ok(),
    }
}

// Whether a pipe writes the container and the number is sealed. If memory is refused, the number must be void and a
// prefix of the container written, and the result is `None`.
fn is_sealed_or_refused<T: Threads + Wait + Sync>(
    rt: &T,
    alloc: Global,
    whole: &[u8],
) -> Option<Option<bool>> {
    let mut reader = FromMemory::new(&ZERO_BYTES, usize::MAX, Schedule::Never);
    let mut writer = writer_of(alloc)?;
    let asked = Asked {
        max_chunks: 2,
        workers: 2,
        depth: 4,
    };
    let answer = piped(
        rt,
        alloc,
        &Shape::one(),
        &mut reader,
        &mut writer,
        asked,
        &Free,
    )?;
    let written = writer.bytes();
    Some(match answer {
        Err(SealFault::OutOfMemory) if whole.starts_with(written) => None,
        _ => Some(answer == Ok(65_537) && written == whole),
    })
}

fn seals_again<T: Threads + Wait + Sync>(rt: &T, alloc: Global) -> Option<bool> {
    let whole = sealed_zeros(alloc)?;
    match is_sealed_or_refused(rt, alloc, whole.as_slice())? {
        None => is_sealed_or_refused(rt, alloc, whole.as_slice())?,
        sealed => sealed,
    }
}

#[test]
fn a_refused_growth_seals_a_beginning_or_all(rt: HostRuntime) {
    assert!(rt; seals_again(&rt, rt.alloc()) == Some(true));
}
