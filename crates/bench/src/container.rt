//! Sealing and opening 64 MiB in memory, each into a new vector: with the AEAD alone, with `seal` and `open`, and with
//! workers.

use crate::clock::nanos_since;
use aead_core::{open_in_place, seal_in_place};
use anyhow::{Result, bail, ensure};
use container_core::{CHUNK, HEADER, Header, Key, SEALED, Shape, TAG, nonce, open, seal};
use container_tests::{COUNTING, counting_key, prefix_of};
use crew_core::{Free, MAX_WORKERS, open_whole, seal_whole};
use ledger_core::{Device, Grant, Ledger, Range};
use std::alloc::Global;
use std::io::{self, Print};
use std::thread::Threads;
use std::time::{Clock, Instant};

/// The length of the text in bytes: 1,024 chunks.
const TEXT: usize = 1 << 26;

/// How many chunks it has.
const COUNT: usize = 1024;

/// How often each is done. The best time counts.
const SAMPLES: u32 = 15;

// How the text is sealed and opened.
#[derive(Clone, Copy)]
enum Way {
    Aead,
    OneThread,
    Workers(u32),
}

// A way, and its best times so far, in nanoseconds.
#[derive(Clone, Copy)]
struct Row {
    way: Way,
    sealing: u64,
    opening: u64,
}

impl Row {
    fn of(way: Way) -> Row {
        Row {
            way,
            sealing: u64::MAX,
            opening: u64::MAX,
        }
    }
}

// The nonce of a chunk of the text.
fn nonce_of(number: usize) -> Result<[u8; 12]> {
    ensure!(number < COUNT, "more chunks than the text has");
    Ok(nonce(prefix_of(0), number as u32, number + 1 == COUNT))
}

// Seals with the AEAD alone, as any call that returns a new vector must use it. Room is reserved once, each chunk is
// copied in and sealed there, and its tag follows it.
fn seal_chunks(alloc: Global, key: &Key, text: &[u8]) -> Result<Vec<u8>> {
    let header = Header::of(key, &Shape::one(), prefix_of(0));
    let mut out = Vec::with_capacity(alloc, HEADER + TEXT + TAG * COUNT)?;
    out.extend_from_slice(header.bytes())?;
    for (number, chunk) in text.chunks(CHUNK).enumerate() {
        let nonce = nonce_of(number)?;
        let begin = out.len();
        out.extend_from_slice(chunk)?;
        ensure!(chunk.len() <= CHUNK && begin <= out.len(), "a chunk's size");
        let tag = seal_in_place(&COUNTING, &nonce, header.bytes(), &mut out[begin..]);
        out.extend_from_slice(&tag)?;
    }
    Ok(out)
}

// The same for opening.
fn open_chunks(alloc: Global, header: &[u8], body: &[u8]) -> Result<Vec<u8>> {
    let mut out = Vec::with_capacity(alloc, TEXT)?;
    for (number, chunk) in body.chunks(SEALED).enumerate() {
        let nonce = nonce_of(number)?;
        let size = chunk.len();
        ensure!(TAG <= size && size <= SEALED, "a chunk's size");
        let (text, end) = chunk.split_at(size - TAG);
        let mut tag = [0; TAG];
        tag.copy_from_slice(end);
        let begin = out.len();
        out.extend_from_slice(text)?;
        let opened = open_in_place(&COUNTING, &nonce, header, &mut out[begin..], &tag);
        ensure!(opened, "a chunk does not check");
    }
    Ok(out)
}

// The grant of device 1 and file 0.
fn grant(alloc: Global) -> Option<Grant> {
    let range = Range::new(Device::new(1)?, 0, 1).ok()?;
    let (ledger, mut seats) = Ledger::open(alloc, range, 1).ok()?;
    let seat = &mut seats[0];
    ledger.issue(seat).ok()
}

// The container sealed with `workers` workers.
fn seal_with<R: Threads + Sync>(
    rt: &R,
    alloc: Global,
    key: &Key,
    plain: &[u8],
    workers: u32,
) -> Result<Vec<u8>> {
    ensure!(plain.len() == TEXT, "64 MiB");
    ensure!(0 < workers && workers <= MAX_WORKERS, "1 to 16 workers");
    let Some(grant) = grant(alloc) else {
        bail!("no grant")
    };
    let (bytes, _spent) = seal_whole(rt, alloc, key, &Shape::one(), grant, plain, workers, &Free);
    Ok(bytes?)
}

// The container of the text, in a new vector.
fn sealed_by<R: Threads + Sync>(
    rt: &R,
    alloc: Global,
    key: &Key,
    plain: &[u8],
    way: Way,
) -> Result<Vec<u8>> {
    match way {
        Way::Aead => seal_chunks(alloc, key, plain),
        Way::OneThread => Ok(seal(alloc, key, &Shape::one(), prefix_of(0), plain)?),
        Way::Workers(workers) => seal_with(rt, alloc, key, plain, workers),
    }
}

// The text of a container, in a new vector.
fn opened_by<R: Threads + Sync>(
    rt: &R,
    alloc: Global,
    key: &Key,
    sealed: &[u8],
    way: Way,
) -> Result<Vec<u8>> {
    match way {
        Way::Aead => {
            ensure!(HEADER <= sealed.len(), "a header");
            let (header, body) = sealed.split_at(HEADER);
            open_chunks(alloc, header, body)
        }
        Way::OneThread => Ok(open(alloc, key, sealed)?),
        Way::Workers(workers) => {
            ensure!(0 < workers && workers <= MAX_WORKERS, "1 to 16 workers");
            Ok(open_whole(rt, alloc, key, sealed, workers, &Free)?)
        }
    }
}

// The nanoseconds of a sealing. It must produce this container.
fn time_of_sealing<R: Clock + Threads + Sync>(
    rt: &R,
    alloc: Global,
    key: &Key,
    plain: &[u8],
    sealed: &[u8],
    way: Way,
) -> Result<u64> {
    let start = Instant::now(rt)?;
    let bytes = sealed_by(rt, alloc, key, plain, way)?;
    let nanos = nanos_since(rt, &start)?;
    ensure!(bytes.as_slice() == sealed, "another container");
    Ok(nanos)
}

// The nanoseconds of an opening. It must produce this plaintext.
fn time_of_opening<R: Clock + Threads + Sync>(
    rt: &R,
    alloc: Global,
    key: &Key,
    plain: &[u8],
    sealed: &[u8],
    way: Way,
) -> Result<u64> {
    let start = Instant::now(rt)?;
    let bytes = opened_by(rt, alloc, key, sealed, way)?;
    let nanos = nanos_since(rt, &start)?;
    ensure!(bytes.as_slice() == plain, "another plaintext");
    Ok(nanos)
}

// Takes one sample of each way.
fn sample<R: Clock + Threads + Sync>(
    rt: &R,
    alloc: Global,
    key: &Key,
    plain: &[u8],
    sealed: &[u8],
    rows: &mut [Row],
) -> Result<()> {
    for row in rows.iter_mut() {
        let sealing = time_of_sealing(rt, alloc, key, plain, sealed, row.way)?;
        let opening = time_of_opening(rt, alloc, key, plain, sealed, row.way)?;
        row.sealing = row.sealing.min(sealing);
        row.opening = row.opening.min(opening);
    }
    Ok(())
}

// One time as thousandths of another.
fn part(nanos: u64, whole: u64) -> u64 {
    nanos.saturating_mul(1000) / whole.max(1)
}

fn print_name<R: Print>(rt: &R, way: Way) -> io::Result<()> {
    match way {
        Way::Aead => println!(rt; "the AEAD alone"),
        Way::OneThread => println!(rt; "seal, open"),
        Way::Workers(workers) => println!(rt; "seal_whole, open_whole, {workers} workers"),
    }
}

// Prints the times in microseconds, and in thousandths of those of the first row.
fn print_rows<R: Print>(rt: &R, rows: &[Row]) -> io::Result<()> {
    let Some(first) = rows.first() else {
        return Ok(());
    };
    for row in rows {
        print_name(rt, row.way)?;
        let (sealing, opening) = (row.sealing / 1000, row.opening / 1000);
        let (seal, open) = (
            part(row.sealing, first.sealing),
            part(row.opening, first.opening),
        );
        println!(rt; "    sealing {sealing} us, {seal}/1000; opening {opening} us, {open}/1000")?;
    }
    Ok(())
}

// Prints the best times of each way. Each round does all ways in turn.
fn measure<R: Print + Clock + Threads + Sync>(
    rt: &R,
    alloc: Global,
    rows: &mut [Row],
) -> Result<()> {
    let key = counting_key();
    let plain = vec![in alloc; 7u8; TEXT]?;
    let sealed = seal(alloc, &key, &Shape::one(), prefix_of(0), plain.as_slice())?;
    for _sample in 0..SAMPLES {
        sample(rt, alloc, &key, plain.as_slice(), sealed.as_slice(), rows)?;
    }
    print_rows(rt, rows)?;
    Ok(())
}

/// Prints how long `seal` and `open` take, compared with the AEAD alone.
pub fn measure_one_thread<R: Print + Clock + Threads + Sync>(rt: &R, alloc: Global) -> Result<()> {
    measure(
        rt,
        alloc,
        &mut [Row::of(Way::Aead), Row::of(Way::OneThread)],
    )
}

/// Prints how long `seal_whole` and `open_whole` take with 1, 2 and 4 workers, compared with `seal` and `open`.
pub fn measure_workers<R: Print + Clock + Threads + Sync>(rt: &R, alloc: Global) -> Result<()> {
    let mut rows = [
        Row::of(Way::OneThread),
        Row::of(Way::Workers(1)),
        Row::of(Way::Workers(2)),
        Row::of(Way::Workers(4)),
    ];
    measure(rt, alloc, &mut rows)
}
