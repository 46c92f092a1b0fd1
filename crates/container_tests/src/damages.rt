//! Cut or altered containers of version 2, for each chunk size and label of a table. The format fixes what opening each
//! returns. Tests of other ways to open containers use the same cases.
ghost use Rattle.std.specs.Prelude.{◌≤◌, ◌+◌, ◌*◌, length};

use crate::moves::{MOVES, moved};
use crate::samples::{counting_key, label_of, zeros_sealed};
#[cfg(test)]
use container_core::open;
use container_core::{OpenFault, Shape, TAG};
use std::alloc::{AllocError, Global};
use std::test::Fail;

/// The exponents, and the labels' lengths in bytes.
pub static SHAPES: [(u32, usize); 9] = [
    (12, 0),
    (12, 1),
    (12, 255),
    (16, 0),
    (16, 1),
    (16, 255),
    (20, 0),
    (20, 1),
    (20, 255),
];

/// Bytes to open, and the expected result: a number of zero bytes, or a fault.
#[derive(Drop)]
pub struct Case {
    bytes: Vec<u8>,
    answer: Result<usize, OpenFault>,
}

impl Case {
    /// Returns the bytes to open.
    pub fn bytes(&self) -> &[u8] {
        self.bytes.as_slice()
    }

    /// Whether an opening returned what this case expects.
    pub fn is_answered(&self, opened: &Result<Vec<u8>, OpenFault>) -> bool {
        match (opened, &self.answer) {
            (Ok(plain), Ok(count)) => is_zeros(plain.as_slice(), *count),
            (Err(fault), Err(wanted)) => *fault == *wanted,
            _ => false,
        }
    }
}

// Whether these are `count` zero bytes.
fn is_zeros(bytes: &[u8], count: usize) -> bool {
    bytes.len() == count && bytes.iter().all(|byte| *byte == 0)
}

// Adds a case with these bytes.
fn add(
    cases: &mut Vec<Case>,
    alloc: Global,
    bytes: &[u8],
    answer: Result<usize, OpenFault>,
) -> Result<(), AllocError> {
    let bytes = Vec::from_slice(alloc, bytes)?;
    cases.push(Case { bytes, answer })?;
    Ok(())
}

// Adds each proper prefix of the header.
fn add_short_headers(
    cases: &mut Vec<Case>,
    alloc: Global,
    bytes: &[u8],
    header: usize,
) -> Result<(), AllocError>
    requires { header ≤ length bytes.now }
{
    for length in 0..header {
        add(cases, alloc, &bytes[..length], Err(OpenFault::ShortHeader))?;
    }
    Ok(())
}

// The fault of opening when the last bit of this header byte is flipped.
fn fault_at(place: usize, exponent: u32) -> OpenFault {
    match place {
        0..=7 => OpenFault::BadMagic,
        8 => OpenFault::BadVersion,
        9 if exponent == 20 => OpenFault::BadExponent,
        17..=23 => OpenFault::KeyMismatch,
        _ => OpenFault::Forged { chunk: 0 },
    }
}

// Adds a case with the last bit of this byte flipped.
fn add_altered(
    cases: &mut Vec<Case>,
    alloc: Global,
    bytes: &[u8],
    place: usize,
    fault: OpenFault,
) -> Result<(), AllocError> {
    let mut other = Vec::from_slice(alloc, bytes)?;
    if place < other.len() {
        other[place] ^= 1;
    }
    cases.push(Case {
        bytes: other,
        answer: Err(fault),
    })?;
    Ok(())
}

// Adds, for each byte of the header, a case with its last bit flipped.
fn add_altered_headers(
    cases: &mut Vec<Case>,
    alloc: Global,
    bytes: &[u8],
    header: usize,
    exponent: u32,
) -> Result<(), AllocError> {
    for place in 0..header {
        add_altered(cases, alloc, bytes, place, fault_at(place, exponent))?;
    }
    Ok(())
}

/// Returns the cases of the container of one zero byte in chunks of 2^exponent bytes. The key is 00 01 .. 1f, and the
/// label has `label` bytes. The container is as it is, with its header cut to each length, and with each header byte
/// altered.
pub fn header_cases(alloc: Global, exponent: u32, label: usize) -> Result<Vec<Case>, Fail> {
    let shape = Shape::two(exponent, label_of(label))?;
    let header = shape.header_bytes();
    let sealed = zeros_sealed(alloc, &counting_key(), &shape, 0, 1)?;
    let bytes = sealed.as_slice();
    let mut cases = Vec::new(alloc);
    if header <= bytes.len() {
        add(&mut cases, alloc, bytes, Ok(1))?;
        add_short_headers(&mut cases, alloc, bytes, header)?;
        add_altered_headers(&mut cases, alloc, bytes, header, exponent)?;
    }
    Ok(cases)
}

// Cuts of a container of two whole chunks and a byte: how many whole chunks are left after the header, how many bytes
// of the next one, how many bytes are then taken off the end, and the fault.
static CUTS: [(u8, u8, u8, OpenFault); 13] = [
    (0, 0, 0, OpenFault::BadLength),
    (0, 15, 0, OpenFault::BadLength),
    (0, 16, 0, OpenFault::Forged { chunk: 0 }),
    (1, 0, 1, OpenFault::Forged { chunk: 0 }),
    (1, 0, 0, OpenFault::Forged { chunk: 0 }),
    (1, 1, 0, OpenFault::BadLength),
    (1, 16, 0, OpenFault::BadLength),
    (1, 17, 0, OpenFault::Forged { chunk: 1 }),
    (2, 0, 1, OpenFault::Forged { chunk: 1 }),
    (2, 0, 0, OpenFault::Forged { chunk: 1 }),
    (2, 1, 0, OpenFault::BadLength),
    (2, 16, 0, OpenFault::BadLength),
    (2, 17, 1, OpenFault::BadLength),
];

// Adds each cut. A header has `header` bytes, and a sealed chunk `sealed`.
fn add_cuts(
    cases: &mut Vec<Case>,
    alloc: Global,
    bytes: &[u8],
    header: usize,
    sealed: usize,
) -> Result<(), AllocError>
    requires header { header ≤ 280 }
    requires sealed { sealed ≤ 1048592 }
{
    for (chunks, more, less, fault) in &CUTS {
        let most = header + usize::from(*chunks) * sealed + usize::from(*more);
        let length = most.saturating_sub(usize::from(*less));
        add(cases, alloc, &bytes[..length.min(bytes.len())], Err(*fault))?;
    }
    Ok(())
}

// Adds the rearrangements of `MOVES`. Opening names the first chunk that doesn't check.
fn add_moves(
    cases: &mut Vec<Case>,
    alloc: Global,
    bytes: &[u8],
    other: &[u8],
    header: usize,
    sealed: usize,
) -> Result<(), AllocError>
    requires bytes { header + 2 * sealed ≤ length bytes.now }
    requires other { header + 2 * sealed ≤ length other.now }
{
    for (_, order, chunk) in &MOVES {
        let answer = Err(OpenFault::Forged { chunk: *chunk });
        let bytes = moved(alloc, bytes, other, header, sealed, order)?;
        cases.push(Case { bytes, answer })?;
    }
    Ok(())
}

// Adds the cases of a container of two whole chunks of zeros and a zero byte. `other` is another file's container.
fn add_chunk_cases(
    cases: &mut Vec<Case>,
    alloc: Global,
    bytes: &[u8],
    other: &[u8],
    header: usize,
    chunk: usize,
) -> Result<(), AllocError>
    requires header { header ≤ 280 }
    requires chunk { chunk ≤ 1048576 }
{
    let sealed = chunk + TAG;
    let length = header + 2 * sealed + TAG + 1;
    if bytes.len() != length || other.len() != length {
        return Ok(());
    }
    add(cases, alloc, bytes, Ok(2 * chunk + 1))?;
    add_cuts(cases, alloc, bytes, header, sealed)?;
    add_moves(cases, alloc, bytes, other, header, sealed)
}

/// Returns the cases of the container of two whole chunks of 2^exponent zero bytes and one more. The key is 00 01 ..
/// 1f, and the label has `label` bytes. The container is as it is, cut near the ends of its header and its chunks, and
/// with chunks exchanged, repeated, left out or taken from another file.
pub fn chunk_cases(alloc: Global, exponent: u32, label: usize) -> Result<Vec<Case>, Fail> {
    let shape = Shape::two(exponent, label_of(label))?;
    let (key, header, chunk) = (counting_key(), shape.header_bytes(), shape.chunk());
    let bytes = zeros_sealed(alloc, &key, &shape, 0, 2 * chunk + 1)?;
    let other = zeros_sealed(alloc, &key, &shape, 1, 2 * chunk + 1)?;
    let mut cases = Vec::new(alloc);
    add_chunk_cases(
        &mut cases,
        alloc,
        bytes.as_slice(),
        other.as_slice(),
        header,
        chunk,
    )?;
    Ok(cases)
}

/// How many cases `header_cases` returns for a label of `label` bytes.
pub fn header_count(label: usize) -> usize {
    // The container as it is, and two cases for each byte of the header, which has 25 bytes and the label.
    label.min(255) * 2 + 51
}

/// How many cases `chunk_cases` returns.
pub const CHUNK_COUNT: usize = 19;

// Whether there are `count` cases, and opening returns what each expects.
#[cfg(test)]
fn are_answered(alloc: Global, cases: &[Case], count: usize) -> bool {
    let key = counting_key();
    for case in cases {
        if !case.is_answered(&open(alloc, &key, case.bytes())) {
            return false;
        }
    }
    cases.len() == count
}

#[test]
fn damaged_headers_and_chunks_are_refused(rt: HostRuntime) -> Result<(), Fail> {
    let alloc = rt.alloc();
    for (exponent, label) in &SHAPES {
        let cases = header_cases(alloc, *exponent, *label)?;
        let headers = are_answered(alloc, cases.as_slice(), header_count(*label));
        drop(cases);
        let cases = chunk_cases(alloc, *exponent, *label)?;
        let chunks = are_answered(alloc, cases.as_slice(), CHUNK_COUNT);
        drop(cases);
        assert!(rt; headers && chunks, "{exponent} {label}: {headers} {chunks}");
    }
    Ok(())
}
