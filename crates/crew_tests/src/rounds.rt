//! Rounds sealed with any number of workers. The expected bytes are from Python's `cryptography`.
ghost use Rattle.std.specs.Prelude.{◌≡◌, ◌+◌, ◌*◌, ◌<◌, ◌≤◌, length};
ghost use Rattle.container_core.specs.Container.{size_in};

use crate::{EIGHTEEN, Meeting, PREFIX, Recorder, counting_key, is_digest, pattern};
use container_core::laws::headers_name_their_shape;
use container_core::{CHUNK, Header, Key, Shape};
use crew_core::{Free, Gate, MAX_WORKERS, seal_round};
use std::alloc::{AllocError, Global};
use std::test::Fail;
use std::thread::Threads;

// `a text` as the last chunk, with number 4,294,967,295, device 1, file 0.
static LAST: [u8; 22] = [
    0x5f, 0x7e, 0xc2, 0x61, 0xcd, 0x7f, 0xf1, 0x90, 0x4b, 0x9a, 0x48, 0xa8, 0xca, 0x6e, 0xdd, 0xbb,
    0x26, 0xd9, 0xa4, 0x58, 0x36, 0x11,
];

// A header of version 1.
fn header_one(key: &Key, prefix: [u8; 7]) -> Header
    ensures size { size_in result ≡ CHUNK }
{
    headers_name_their_shape();
    Header::of(key, &Shape::one(), prefix)
}

// Whether a round was sealed and could be appended.
fn append(whole: &mut Vec<u8>, round: Result<Vec<u8>, AllocError>) -> bool {
    match round {
        Ok(bytes) => whole.extend_from_slice(bytes.as_slice()).is_ok(),
        Err(AllocError) => false,
    }
}

// A container of 18 chunks, the last of one byte, in rounds of seven chunks, one chunk, and the rest.
fn in_three_rounds<R: Threads + Sync, G: Gate + Sync>(
    rt: &R,
    alloc: Global,
    plain: &[u8],
    workers: u32,
    gate: &G,
) -> Option<Vec<u8>>
    requires plain { length plain.now ≡ 17 * CHUNK + 1 }
    requires workers { (0 < workers) × (workers ≤ MAX_WORKERS) }
{
    let key = counting_key();
    let header = header_one(&key, [0, 0, 1, 0, 0, 1, 2]);
    let (front, rest) = plain.split_at(7 * CHUNK);
    let (middle, end) = rest.split_at(CHUNK);
    let mut whole = Vec::from_slice(alloc, header.bytes()).ok()?;
    let round = seal_round(rt, alloc, &key, &header, 0, false, front, workers, gate);
    let begun = append(&mut whole, round);
    let round = seal_round(rt, alloc, &key, &header, 7, false, middle, workers, gate);
    let next = append(&mut whole, round);
    let round = seal_round(rt, alloc, &key, &header, 8, true, end, workers, gate);
    let ended = append(&mut whole, round);
    if begun && next && ended {
        Some(whole)
    } else {
        None
    }
}

// Whether `workers` workers seal this container in rounds, and pass with each piece's chunk number in the whole.
fn are_parts<R: Threads + Sync>(rt: &R, alloc: Global, plain: &[u8], workers: u32) -> Option<bool>
    requires plain { length plain.now ≡ 17 * CHUNK + 1 }
    requires workers { (0 < workers) × (workers ≤ MAX_WORKERS) }
{
    let gate = Recorder::new(alloc, 18).ok()?;
    let whole = in_three_rounds(rt, alloc, plain, workers, &gate)?;
    Some(is_digest(whole.as_slice(), 1_114_425, &EIGHTEEN) && gate.is_each_once(u64::from(workers)))
}

#[test]
fn rounds_one_behind_the_other_are_the_container(rt: HostRuntime) -> Result<(), Fail> {
    let plain = pattern(rt.alloc(), 17 * CHUNK + 1)?;
    assert!(rt; are_parts(&rt, rt.alloc(), plain.as_slice(), 1) == Some(true));
    assert!(rt; are_parts(&rt, rt.alloc(), plain.as_slice(), 2) == Some(true));
    assert!(rt; are_parts(&rt, rt.alloc(), plain.as_slice(), 16) == Some(true));
    Ok(())
}

// Seals two chunks with `workers` workers at a gate that holds all passes until two have come. Returns whether it gave
// up.
fn gave_up<R: Threads + Sync>(
    rt: &R,
    alloc: Global,
    plain: &[u8],
    workers: u32,
    turns: u64,
) -> Option<bool>
    requires plain { length plain.now ≡ CHUNK + 1 }
    requires workers { (0 < workers) × (workers ≤ MAX_WORKERS) }
{
    let key = counting_key();
    let header = header_one(&key, PREFIX);
    let gate = Meeting::new(2, turns);
    match seal_round(rt, alloc, &key, &header, 3, true, plain, workers, &gate) {
        Ok(sealed) if sealed.len() == CHUNK + 33 => Some(gate.gave_up()),
        _ => None,
    }
}

#[test]
fn two_workers_meet_in_a_round(rt: HostRuntime) -> Result<(), Fail> {
    let plain = pattern(rt.alloc(), CHUNK + 1)?;
    assert!(rt; gave_up(&rt, rt.alloc(), plain.as_slice(), 2, 1_000_000_000) == Some(false));
    // Shows that the test can fail.
    assert!(rt; gave_up(&rt, rt.alloc(), plain.as_slice(), 1, 1000) == Some(true));
    Ok(())
}

// The highest chunk number: its nonce ends in ff ff ff ff 01.
#[test]
fn a_round_has_the_last_number(rt: HostRuntime) -> Result<(), Fail> {
    let key = counting_key();
    let header = header_one(&key, PREFIX);
    let text = b"a text";
    let sealed = seal_round(
        &rt,
        rt.alloc(),
        &key,
        &header,
        u32::MAX,
        true,
        text,
        2,
        &Free,
    )?;
    assert!(rt; sealed.as_slice() == LAST.as_slice());
    Ok(())
}
