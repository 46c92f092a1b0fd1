//! Cut or altered containers of version 2: 1 and 4 workers return what the tables of `container_tests` expect. The
//! format fixes those results.
ghost use Rattle.std.specs.Prelude.{◌<◌, ◌≤◌};

use crate::counting_key;
use container_tests::{CHUNK_COUNT, Case, SHAPES, chunk_cases, header_cases, header_count};
use crew_core::{Free, MAX_WORKERS, open_whole};
use std::alloc::Global;
use std::test::Fail;
use std::thread::Threads;

// Whether opening with `workers` workers returns what a case expects.
fn is_answered_by<R: Threads + Sync>(rt: &R, alloc: Global, case: &Case, workers: u32) -> bool
    requires { (0 < workers) × (workers ≤ MAX_WORKERS) }
{
    let key = counting_key();
    case.is_answered(&open_whole(rt, alloc, &key, case.bytes(), workers, &Free))
}

// Whether there are `count` cases, and 1 and 4 workers return what each expects.
fn are_answered<R: Threads + Sync>(rt: &R, alloc: Global, cases: &[Case], count: usize) -> bool {
    for case in cases {
        if !is_answered_by(rt, alloc, case, 1) || !is_answered_by(rt, alloc, case, 4) {
            return false;
        }
    }
    cases.len() == count
}

#[test]
fn damaged_headers_are_refused(rt: HostRuntime) -> Result<(), Fail> {
    for (exponent, label) in &SHAPES {
        let cases = header_cases(rt.alloc(), *exponent, *label)?;
        assert!(rt;
            are_answered(&rt, rt.alloc(), cases.as_slice(), header_count(*label)),
            "{exponent} {label}"
        );
    }
    Ok(())
}

#[test]
fn damaged_chunks_are_refused(rt: HostRuntime) -> Result<(), Fail> {
    for (exponent, label) in &SHAPES {
        let cases = chunk_cases(rt.alloc(), *exponent, *label)?;
        assert!(rt;
            are_answered(&rt, rt.alloc(), cases.as_slice(), CHUNK_COUNT),
            "{exponent} {label}"
        );
    }
    Ok(())
}
