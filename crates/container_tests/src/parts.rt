//! The parts of a container: nonce, header, key, cut, and the texts and numbers of the faults.
use crate::samples::{EMPTY, EMPTY_TWO, counting_key, prefix_of};
use container_core::{Cut, Header, Key, OpenFault, SealFault, Shape, nonce, read_header};
use std::alloc::{AllocError, Global};
use std::fmt::Display;
use std::test::Fail;

#[test]
fn nonce_of_a_last_chunk(rt: HostRuntime) {
    let want = [0, 0, 1, 0, 0, 1, 2, 0, 0, 0, 3, 1];
    assert_eq!(rt; nonce([0, 0, 1, 0, 0, 1, 2], 3, true), want);
    let want = [0xff, 0, 0, 0, 0, 0, 0, 1, 2, 3, 4, 0];
    assert_eq!(rt; nonce([0xff, 0, 0, 0, 0, 0, 0], 0x0102_0304, false), want);
}

// Whether reading the header fails with `fault`.
fn is_refused(key: &Key, bytes: &[u8], fault: OpenFault) -> bool {
    match read_header(key, bytes) {
        Ok(_header) => false,
        Err(found) => found == fault,
    }
}

// Changes bytes from the last to the first. Whether each change has its own fault, despite those already made.
fn names_faults_in_order(key: &Key, bytes: &mut [u8; 40]) -> bool {
    bytes[17] ^= 1;
    let mismatch = is_refused(key, bytes, OpenFault::KeyMismatch);
    bytes[9] ^= 1;
    let exponent = is_refused(key, bytes, OpenFault::BadExponent);
    bytes[8] ^= 1;
    let version = is_refused(key, bytes, OpenFault::BadVersion);
    bytes[7] ^= 1;
    let magic = is_refused(key, bytes, OpenFault::BadMagic);
    let short = is_refused(key, &bytes[..23], OpenFault::ShortHeader);
    mismatch && exponent && version && magic && short
}

fn is_header_of_empty(header: &Header) -> bool {
    header.bytes() == &EMPTY[..24]
        && header.prefix() == prefix_of(0)
        && header.exponent() == 16
        && header.label().is_empty()
}

// The same for version 2, where the label's length is tested last.
fn names_faults_in_order_of_two(key: &Key, bytes: &mut [u8; 43]) -> bool {
    bytes[24] = 19;
    let label = is_refused(key, bytes, OpenFault::ShortHeader);
    bytes[17] ^= 1;
    let mismatch = is_refused(key, bytes, OpenFault::KeyMismatch);
    bytes[9] = 21;
    let exponent = is_refused(key, bytes, OpenFault::BadExponent);
    let short = is_refused(key, &bytes[..23], OpenFault::ShortHeader);
    label && mismatch && exponent && short
}

fn is_header_of_empty_two(header: &Header) -> bool {
    header.bytes() == &EMPTY_TWO[..27]
        && header.prefix() == prefix_of(0)
        && header.exponent() == 12
        && header.chunk() == 4096
        && header.label() == b"ab".as_slice()
}

#[test]
fn header_faults_in_order(rt: HostRuntime) -> Result<(), Fail> {
    let key = counting_key();
    let mut bytes = EMPTY;
    assert!(rt; is_header_of_empty(&read_header(&key, &bytes)?));
    assert!(rt; names_faults_in_order(&key, &mut bytes));
    let mut bytes = EMPTY_TWO;
    assert!(rt; is_header_of_empty_two(&read_header(&key, &bytes)?));
    assert!(rt; names_faults_in_order_of_two(&key, &mut bytes));
    Ok(())
}

#[test]
fn identity_of_a_key(rt: HostRuntime) {
    let want = [
        0x66, 0x68, 0x7a, 0xad, 0xf8, 0x62, 0xbd, 0x77, 0x6c, 0x8f, 0xc1, 0x8b, 0x8e, 0x9f, 0x8e,
        0x20, 0x08, 0x97, 0x14, 0x85, 0x6e, 0xe2, 0x33, 0xb3, 0x90, 0x2a, 0x59, 0x1d, 0x0d, 0x5f,
        0x29, 0x25,
    ];
    assert_eq!(rt; Key::new([0; 32]).id(), want);
}

// The cut of `body` bytes after a header of version 1, or of version 2 with this exponent.
fn cut_of(exponent: Option<u32>, body: u64) -> Result<Cut, OpenFault> {
    let shape = match exponent {
        None => Shape::one(),
        Some(exponent) => match Shape::two(exponent, b"ab") {
            Ok(shape) => shape,
            Err(_) => return Err(OpenFault::BadExponent),
        },
    };
    Cut::of_body(&Header::of(&counting_key(), &shape, prefix_of(0)), body)
}

// Whether `body` bytes after a header are `count` chunks.
fn has_chunks(exponent: Option<u32>, body: u64, count: u32) -> bool {
    match cut_of(exponent, body) {
        Ok(places) => places.count() == count,
        Err(_) => false,
    }
}

fn has_no_cut(exponent: Option<u32>, body: u64, fault: OpenFault) -> bool {
    match cut_of(exponent, body) {
        Ok(_) => false,
        Err(found) => found == fault,
    }
}

// Whether these are the places of two chunks, the second of one byte.
fn has_two_places(places: Cut) -> bool {
    if places.count() != 2 {
        return false;
    }
    let (first, whole) = places.place(0);
    let (second, rest) = places.place(1);
    first == 0 && whole == 65_536 && second == 65_552 && rest == 1
}

// The exponent, how many bytes follow the header, and how many chunks they are. The last row of each size has 2^32 - 1
// chunks, and the one before it (except for `Some(16)`) 2^40 bytes of plaintext.
static BODIES: [(Option<u32>, u64, u32); 19] = [
    (None, 16, 1),
    (None, 17, 1),
    (None, 65_552, 1),
    (None, 65_569, 2),
    (None, 131_104, 2),
    (None, 1_099_780_063_232, 1 << 24),
    (None, 281_543_696_121_840, u32::MAX),
    (Some(12), 16, 1),
    (Some(12), 4_112, 1),
    (Some(12), 4_129, 2),
    (Some(12), 8_224, 2),
    (Some(12), 1_103_806_595_072, 1 << 28),
    (Some(12), 17_660_905_517_040, u32::MAX),
    (Some(16), 65_569, 2),
    (Some(16), 281_543_696_121_840, u32::MAX),
    (Some(20), 1_048_592, 1),
    (Some(20), 1_048_609, 2),
    (Some(20), 1_099_528_404_992, 1 << 20),
    (Some(20), 4_503_668_345_798_640, u32::MAX),
];

// The last row of each size is one byte more than 2^32 - 1 chunks have. The one before it (except for `Some(16)`) is
// one byte more than the body of 2^40 plaintext bytes.
static NO_BODIES: [(Option<u32>, u64, OpenFault); 19] = [
    (None, 0, OpenFault::BadLength),
    (None, 15, OpenFault::BadLength),
    (None, 65_553, OpenFault::BadLength),
    (None, 65_568, OpenFault::BadLength),
    (None, 131_105, OpenFault::BadLength),
    (None, 1_099_780_063_233, OpenFault::BadLength),
    (None, 281_543_696_121_841, OpenFault::TooLong),
    (Some(12), 15, OpenFault::BadLength),
    (Some(12), 4_113, OpenFault::BadLength),
    (Some(12), 4_128, OpenFault::BadLength),
    (Some(12), 8_240, OpenFault::BadLength),
    (Some(12), 1_103_806_595_073, OpenFault::BadLength),
    (Some(12), 17_660_905_517_041, OpenFault::TooLong),
    (Some(16), 65_568, OpenFault::BadLength),
    (Some(16), 281_543_696_121_841, OpenFault::TooLong),
    (Some(20), 1_048_593, OpenFault::BadLength),
    (Some(20), 1_048_608, OpenFault::BadLength),
    (Some(20), 1_099_528_404_993, OpenFault::BadLength),
    (Some(20), 4_503_668_345_798_641, OpenFault::TooLong),
];

#[test]
fn cuts_by_quotient_and_remainder(rt: HostRuntime) -> Result<(), Fail> {
    for (exponent, body, count) in &BODIES {
        assert!(rt;
            has_chunks(*exponent, *body, *count),
            "{body} bytes, {count} chunks"
        );
    }
    for (exponent, body, fault) in &NO_BODIES {
        assert!(rt;
            has_no_cut(*exponent, *body, *fault),
            "{body} bytes: {fault}"
        );
    }
    assert!(rt; has_two_places(cut_of(None, 65_569)?));
    Ok(())
}

static OPEN_FAULTS: [(OpenFault, u32, &str); 11] = [
    (OpenFault::TooLong, 1, "too long"),
    (OpenFault::ShortHeader, 2, "header cut short"),
    (OpenFault::BadMagic, 3, "not a sealed file"),
    (OpenFault::BadVersion, 4, "unknown version"),
    (OpenFault::BadExponent, 5, "unknown chunk size"),
    (OpenFault::KeyMismatch, 6, "sealed under another key"),
    (OpenFault::BadLength, 7, "wrong length"),
    (
        OpenFault::Forged { chunk: 12 },
        8,
        "chunk 12 does not check",
    ),
    (OpenFault::OutOfMemory, 9, "out of memory"),
    (OpenFault::Read, 10, "read failed"),
    (OpenFault::Write, 16, "write failed"),
];

static SEAL_FAULTS: [(SealFault, u32, &str); 4] = [
    (SealFault::TooLong, 11, "too long"),
    (SealFault::OutOfMemory, 12, "out of memory"),
    (SealFault::Read, 13, "read failed"),
    (SealFault::Write, 14, "write failed"),
];

fn has_text(alloc: Global, fault: impl Display + Drop, text: &str) -> Result<bool, AllocError> {
    Ok(fault.to_string(alloc)?.as_str() == text)
}

#[test]
fn texts_and_numbers_of_faults(rt: HostRuntime) -> Result<(), AllocError> {
    for (fault, number, text) in &OPEN_FAULTS {
        let told = has_text(rt.alloc(), *fault, text)?;
        assert!(rt; told && fault.number() == *number, "{text}");
    }
    for (fault, number, text) in &SEAL_FAULTS {
        let told = has_text(rt.alloc(), *fault, text)?;
        assert!(rt; told && fault.number() == *number, "{text}");
    }
    Ok(())
}
