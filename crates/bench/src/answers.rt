//! What opening returns for cut and altered containers, on one thread and with workers: runs of lengths or places with
//! the same result. The container has version 1 and 131,073 zero bytes (three chunks). The key is 00 01 .. 1f, device
//! 1, file 0.
ghost use Rattle.std.specs.Prelude.{◌≡◌, ◌≤◌, length};

use anyhow::{Result, ensure};
use container_core::{HEADER, Key, OpenFault, SEALED, Shape, open};
use container_tests::{MOVES, counting_key, moved, zeros_sealed};
use crew_core::{Free, MAX_WORKERS, open_whole};
use std::alloc::{AllocError, Global};
use std::io::{self, Print};
use std::thread::Threads;

// The length of the plaintext: two whole chunks and a byte.
const PLAIN: usize = 131_073;

// The length of its container.
const LENGTH: usize = 131_145;

// The lengths that it is cut to: all, and (`SOME`) those near the ends of header and chunks.
static ALL: [(usize, usize); 1] = [(0, 131_144)];

static SOME: [(usize, usize); 3] = [(0, 100), (65_500, 65_700), (131_100, 131_144)];

// What is done to the container.
#[derive(Clone, Copy)]
enum Damage {
    Cut,
    Alter,
}

// The fault of opening, if any. If `workers` is 0, by `open`.
fn fault_of<R: Threads + Sync>(
    rt: &R,
    alloc: Global,
    key: &Key,
    bytes: &[u8],
    workers: u32,
) -> Option<OpenFault>
    requires { workers ≤ MAX_WORKERS }
{
    let opened = if workers == 0 {
        open(alloc, key, bytes)
    } else {
        open_whole(rt, alloc, key, bytes, workers, &Free)
    };
    match opened {
        Ok(_plain) => None,
        Err(fault) => Some(fault),
    }
}

// The result of opening the container cut to this length, or with a bit of the byte at this place flipped.
fn answer<R: Threads + Sync>(
    rt: &R,
    alloc: Global,
    key: &Key,
    bytes: &[u8],
    workers: u32,
    damage: Damage,
    place: usize,
) -> Result<Option<OpenFault>, AllocError>
    requires { workers ≤ MAX_WORKERS }
{
    let cut = match damage {
        Damage::Cut => &bytes[..place.min(bytes.len())],
        Damage::Alter => bytes,
    };
    let mut made = Vec::from_slice(alloc, cut)?;
    if place < made.len() {
        made[place] ^= 1;
    }
    Ok(fault_of(rt, alloc, key, made.as_slice(), workers))
}

fn print_answer<R: Print>(rt: &R, what: &str, answer: Option<OpenFault>) -> io::Result<()> {
    match answer {
        None => println!(rt; "{what}: opens"),
        Some(fault) => println!(rt; "{what}: {fault}"),
    }
}

fn print_run<R: Print>(
    rt: &R,
    alloc: Global,
    from: usize,
    to: usize,
    answer: Option<OpenFault>,
) -> Result<()> {
    let what = format!(in alloc; "{from} to {to}")?;
    print_answer(rt, what.as_str(), answer)?;
    Ok(())
}

// Prints the results of opening from one length or place to another.
fn print_runs<R: Print + Threads + Sync>(
    rt: &R,
    alloc: Global,
    key: &Key,
    bytes: &[u8],
    workers: u32,
    damage: Damage,
    from: usize,
    to: usize,
) -> Result<()>
    requires { workers ≤ MAX_WORKERS }
{
    let mut begin = from;
    let mut last = answer(rt, alloc, key, bytes, workers, damage, from)?;
    for place in from..to {
        let next = answer(rt, alloc, key, bytes, workers, damage, place + 1)?;
        if next != last {
            print_run(rt, alloc, begin, place, last)?;
            begin = place + 1;
            last = next;
        }
    }
    print_run(rt, alloc, begin, to, last)
}

// The result of opening with the chunks in this order.
fn answer_of_move<R: Threads + Sync>(
    rt: &R,
    alloc: Global,
    key: &Key,
    bytes: &[u8],
    other: &[u8],
    workers: u32,
    order: &[u32],
) -> Result<Option<OpenFault>, AllocError>
    requires workers { workers ≤ MAX_WORKERS }
    requires bytes { length bytes.now ≡ LENGTH }
    requires other { length other.now ≡ LENGTH }
{
    let made = moved(alloc, bytes, other, HEADER, SEALED, order)?;
    Ok(fault_of(rt, alloc, key, made.as_slice(), workers))
}

fn print_moves<R: Print + Threads + Sync>(
    rt: &R,
    alloc: Global,
    key: &Key,
    bytes: &[u8],
    other: &[u8],
    workers: u32,
) -> Result<()>
    requires { workers ≤ MAX_WORKERS }
{
    ensure!(
        bytes.len() == LENGTH && other.len() == LENGTH,
        "three chunks"
    );
    for (what, order, _) in &MOVES {
        let answer = answer_of_move(rt, alloc, key, bytes, other, workers, order)?;
        print_answer(rt, what, answer)?;
    }
    Ok(())
}

fn print_all<R: Print + Threads + Sync>(
    rt: &R,
    alloc: Global,
    key: &Key,
    bytes: &[u8],
    other: &[u8],
    workers: u32,
    cuts: &[(usize, usize)],
) -> Result<()>
    requires { workers ≤ MAX_WORKERS }
{
    println!(rt; "workers: {workers}")?;
    println!(rt; "cut to a length")?;
    for (from, to) in cuts {
        print_runs(rt, alloc, key, bytes, workers, Damage::Cut, *from, *to)?;
    }
    println!(rt; "a byte of the header changed")?;
    print_runs(rt, alloc, key, bytes, workers, Damage::Alter, 0, HEADER - 1)?;
    println!(rt; "chunks moved")?;
    print_moves(rt, alloc, key, bytes, other, workers)?;
    print_answer(rt, "unaltered", fault_of(rt, alloc, key, bytes, workers))?;
    Ok(())
}

/// Prints what opening returns for each cut and alteration on one thread, and for some with one and with four workers.
pub fn show<R: Print + Threads + Sync>(rt: &R, alloc: Global) -> Result<()> {
    let key = counting_key();
    let bytes = zeros_sealed(alloc, &key, &Shape::one(), 0, PLAIN)?;
    let other = zeros_sealed(alloc, &key, &Shape::one(), 1, PLAIN)?;
    let (bytes, other) = (bytes.as_slice(), other.as_slice());
    print_all(rt, alloc, &key, bytes, other, 0, &ALL)?;
    print_all(rt, alloc, &key, bytes, other, 1, &SOME)?;
    print_all(rt, alloc, &key, bytes, other, 4, &SOME)
}
