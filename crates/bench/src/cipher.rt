//! ChaCha20, Poly1305, and sealing, opening and checking with the AEAD, for texts of 64 KiB and of 1 KiB.
ghost use Rattle.std.specs.Prelude.{◌≡◌, ◌≤◌, length};

use crate::clock::nanos_since;
use aead_core::{check, open_in_place, seal_in_place};
use anyhow::Result;
use chacha_core::apply;
use container_tests::COUNTING;
use poly_core::Mac;
use std::alloc::Global;
use std::io::{self, Print};
use std::time::{Clock, Instant};

// The total bytes of a sample's texts.
const TEXT: usize = 65_536;

// The most texts of a sample.
const TEXTS: usize = 64;

// How many samples are taken of each kind of work.
const SAMPLES: u32 = 2_000;

const NONCE: [u8; 12] = [0; 12];

// What is measured.
#[derive(Clone, Copy)]
enum Work {
    Apply,
    Mac,
    Seal,
    Open,
    Check,
}

static WORKS: [(&str, Work); 5] = [
    ("apply", Work::Apply),
    ("mac", Work::Mac),
    ("seal", Work::Seal),
    ("open", Work::Open),
    ("check", Work::Check),
];

// The first 16 bytes of a text.
fn front(text: &[u8]) -> [u8; 16] {
    let mut front = [0; 16];
    if text.len() >= 16 {
        front.copy_from_slice(&text[..16]);
    }
    front
}

// Processes one text. `tag` is its tag, or for ChaCha20 the first bytes of the result. Returns a byte of the result.
fn work_over(work: Work, text: &mut [u8], tag: &mut [u8; 16]) -> u8
    requires { length text.old ≤ TEXT }
{
    match work {
        Work::Apply => {
            apply(&COUNTING, &NONCE, 1, text);
            *tag = front(text);
            tag[0]
        }
        Work::Mac => {
            let mut mac = Mac::new(&COUNTING);
            mac.absorb(text);
            *tag = mac.finish();
            tag[0]
        }
        Work::Seal => {
            *tag = seal_in_place(&COUNTING, &NONCE, b"", text);
            tag[0]
        }
        Work::Open => open_in_place(&COUNTING, &NONCE, b"", text, tag) as u8,
        Work::Check => check(&COUNTING, &NONCE, b"", text, tag) as u8,
    }
}

// Processes all texts of this length.
fn work_over_all(work: Work, bytes: &mut [u8], length: usize, tags: &mut [[u8; 16]; TEXTS]) -> u8 {
    let mut seen = 0;
    for (text, tag) in bytes.chunks_mut(length.max(1)).zip(tags.iter_mut()) {
        if text.len() <= TEXT {
            seen ^= work_over(work, text, tag);
        }
    }
    seen
}

// The nanoseconds of one sample, and a byte of its results. What is opened or checked was sealed beforehand.
fn sample<C: Clock>(
    clock: &C,
    work: Work,
    bytes: &mut [u8],
    length: usize,
    tags: &mut [[u8; 16]; TEXTS],
) -> io::Result<(u64, u8)> {
    if matches!(work, Work::Open | Work::Check) {
        work_over_all(Work::Seal, bytes, length, tags);
    }
    let start = Instant::now(clock)?;
    let seen = work_over_all(work, bytes, length, tags);
    Ok((nanos_since(clock, &start)?, seen))
}

// Prints the picoseconds per byte of the best sample.
fn measure_work<R: Clock + Print>(
    rt: &R,
    name: &str,
    work: Work,
    bytes: &mut [u8],
    length: usize,
) -> io::Result<()> {
    let mut tags = [[0; 16]; TEXTS];
    let mut best = u64::MAX;
    let mut seen = 0;
    for _sample in 0..SAMPLES {
        let (nanos, byte) = sample(rt, work, bytes, length, &mut tags)?;
        best = best.min(nanos);
        seen ^= byte;
    }
    let picos = best.saturating_mul(1000) / TEXT as u64;
    println!(rt; "{name} {length} {picos} ({seen})")
}

// Measures each kind of work with texts of this length.
fn measure_length<R: Clock + Print>(rt: &R, bytes: &mut [u8], length: usize) -> io::Result<()> {
    for (name, work) in &WORKS {
        measure_work(rt, name, *work, bytes, length)?;
    }
    Ok(())
}

/// Prints, for each kind of work and each length, the picoseconds per byte of the best sample. A sample processes 64
/// KiB, in texts of that length.
pub fn measure<R: Clock + Print>(rt: &R, alloc: Global) -> Result<()> {
    let mut bytes = vec![in alloc; 0u8; TEXT]?;
    measure_length(rt, bytes.as_mut_slice(), 65_536)?;
    measure_length(rt, bytes.as_mut_slice(), 1_024)?;
    Ok(())
}

// Prints the result of one round with zeros.
fn show_work<R: Print>(rt: &R, alloc: Global, name: &str, work: Work) -> Result<()> {
    let mut text = vec![in alloc; 0u8; TEXT]?;
    let mut tag = [0; 16];
    if text.len() <= TEXT {
        work_over(work, &mut text, &mut tag);
    }
    let out = hex::encode(alloc, tag)?;
    println!(rt; "{name}: {out}")?;
    Ok(())
}

/// Prints the results of one round with 64 KiB of zeros.
pub fn show<R: Print>(rt: &R, alloc: Global) -> Result<()> {
    show_work(rt, alloc, "ChaCha20", Work::Apply)?;
    show_work(rt, alloc, "Poly1305", Work::Mac)?;
    show_work(rt, alloc, "AEAD", Work::Seal)
}
