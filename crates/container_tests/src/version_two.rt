//! Containers of version 2: chunks of 2^12 to 2^20 bytes, and a label. The expected bytes and digests are from Python's
//! `cryptography` and `hashlib`.
use crate::samples::{EMPTY, EMPTY_TWO, counting_key, label_of, prefix_of, zeros_sealed};
use crate::whole::{has_fault, is_cut_and_digested, opens_to_zeros};
use container_core::{
    BadShape, Key, MAX_OPENED, OpenFault, Shape, begin_within, begins_as_two, header_bytes, seal,
};
use std::alloc::Global;
use std::test::Fail;

// A byte's place in the container of the empty plaintext, a new value of it, and the fault of opening.
static CHANGES: [(usize, u8, OpenFault); 12] = [
    (0, 0x73, OpenFault::BadMagic),
    (8, 1, OpenFault::BadExponent),
    (8, 3, OpenFault::BadVersion),
    (9, 11, OpenFault::BadExponent),
    (9, 13, OpenFault::Forged { chunk: 0 }),
    (9, 21, OpenFault::BadExponent),
    (16, 1, OpenFault::Forged { chunk: 0 }),
    (23, 0x34, OpenFault::KeyMismatch),
    (24, 1, OpenFault::Forged { chunk: 0 }),
    (24, 3, OpenFault::BadLength),
    (24, 0xff, OpenFault::ShortHeader),
    (25, 0x62, OpenFault::Forged { chunk: 0 }),
];

// Whether the container of the empty plaintext with this changed byte fails to open with this fault.
fn is_noticed(alloc: Global, key: &Key, place: usize, value: u8, fault: OpenFault) -> bool {
    let mut bytes = EMPTY_TWO;
    if place >= bytes.len() {
        return false;
    }
    bytes[place] = value;
    has_fault(alloc, key, &bytes, fault)
}

// Whether the empty plaintext has the expected container.
fn seals_nothing(alloc: Global, key: &Key) -> Result<bool, Fail> {
    let Ok(shape) = Shape::two(12, b"ab") else {
        return Ok(false);
    };
    let bytes = seal(alloc, key, &shape, prefix_of(0), b"")?;
    Ok(bytes.as_slice() == EMPTY_TWO.as_slice())
}

#[test]
fn empty_plaintext_under_a_label(rt: HostRuntime) -> Result<(), Fail> {
    let key = counting_key();
    assert!(rt; seals_nothing(rt.alloc(), &key)?);
    assert!(rt; opens_to_zeros(rt.alloc(), &key, &EMPTY_TWO, 0));
    for (place, value, fault) in &CHANGES {
        let noticed = is_noticed(rt.alloc(), &key, *place, *value, *fault);
        assert!(rt; noticed, "{value} at {place}");
    }
    Ok(())
}

// An exponent, a label's length, the number of zero bytes, and of their container the length, the number of chunks and
// the SHA-256.
static CONTAINERS: [(u32, usize, usize, usize, u32, [u8; 32]); 6] = [
    (
        12,
        0,
        8193,
        8266,
        3,
        [
            0x62, 0xd8, 0xdd, 0x59, 0xef, 0x16, 0xb8, 0x2c, 0x2f, 0x56, 0x41, 0x40, 0x44, 0xea,
            0x20, 0xe9, 0xd1, 0x98, 0x83, 0xae, 0x7a, 0x26, 0xaa, 0x29, 0xb7, 0xd0, 0x9f, 0x79,
            0x0d, 0x61, 0x4a, 0x9e,
        ],
    ),
    (
        12,
        2,
        4096,
        4139,
        1,
        [
            0x3b, 0xbc, 0xc6, 0x68, 0x12, 0x74, 0x72, 0x58, 0x5a, 0x0f, 0x6e, 0x13, 0xb5, 0xb5,
            0xdc, 0xbc, 0xd9, 0x16, 0x47, 0x4f, 0xe2, 0xf5, 0x26, 0x4e, 0xf4, 0xe2, 0x39, 0x7f,
            0x16, 0x44, 0x47, 0x26,
        ],
    ),
    (
        12,
        255,
        4097,
        4409,
        2,
        [
            0xee, 0xc5, 0x19, 0xc5, 0x19, 0xac, 0x5d, 0x62, 0x98, 0xee, 0x1e, 0xcd, 0x4f, 0x62,
            0x03, 0xc3, 0xeb, 0x2b, 0xdf, 0xcb, 0xc1, 0x4d, 0x2d, 0x77, 0x67, 0x93, 0xb1, 0x99,
            0x94, 0x85, 0xed, 0x52,
        ],
    ),
    (
        16,
        0,
        65_536,
        65_577,
        1,
        [
            0xcd, 0x69, 0x01, 0xd4, 0x6c, 0x67, 0x28, 0xd6, 0x4b, 0xc3, 0x27, 0x33, 0xa6, 0x99,
            0x50, 0x5f, 0x90, 0x37, 0x86, 0xeb, 0x03, 0xda, 0x56, 0xfc, 0x31, 0x63, 0x67, 0x04,
            0x75, 0xbc, 0x40, 0x68,
        ],
    ),
    (
        16,
        255,
        65_537,
        65_849,
        2,
        [
            0x42, 0x75, 0x76, 0x39, 0xf3, 0x1b, 0xf4, 0x16, 0x8d, 0x7a, 0x3b, 0xc6, 0xaa, 0x57,
            0x5d, 0x19, 0x39, 0x78, 0x38, 0x9b, 0xc2, 0xa5, 0xd2, 0xe9, 0x40, 0xb1, 0x4e, 0x2f,
            0x34, 0xf3, 0x90, 0x09,
        ],
    ),
    (
        20,
        1,
        1_048_577,
        1_048_635,
        2,
        [
            0xa6, 0xa9, 0x8d, 0xe6, 0xc2, 0x52, 0x33, 0xc3, 0xae, 0x01, 0xea, 0xdf, 0x6a, 0xa6,
            0x22, 0x23, 0x21, 0x2b, 0x09, 0x5b, 0x71, 0xb1, 0xae, 0x4b, 0xb6, 0xf0, 0x95, 0xb5,
            0x46, 0xb6, 0x1c, 0x61,
        ],
    ),
];

// Whether `count` zero bytes have this container, and it opens to them.
fn seals_and_opens(
    alloc: Global,
    (exponent, label, count): (u32, usize, usize),
    (length, chunks, digest): (usize, u32, &[u8; 32]),
) -> Result<bool, Fail> {
    let Ok(shape) = Shape::two(exponent, label_of(label)) else {
        return Ok(false);
    };
    let key = counting_key();
    let bytes = zeros_sealed(alloc, &key, &shape, 0, count)?;
    Ok(
        is_cut_and_digested(&key, bytes.as_slice(), length, chunks, digest)
            && opens_to_zeros(alloc, &key, bytes.as_slice(), count),
    )
}

#[test]
fn containers_of_zeros_under_labels(rt: HostRuntime) -> Result<(), Fail> {
    for (exponent, label, count, length, chunks, digest) in &CONTAINERS {
        let (text, want) = ((*exponent, *label, *count), (*length, *chunks, digest));
        assert!(rt;
            seals_and_opens(rt.alloc(), text, want)?,
            "{exponent}, {label}, {count}"
        );
    }
    Ok(())
}

// An exponent, a label's length, and the lengths of a header and of a chunk of that shape.
static SHAPES: [(u32, usize, usize, usize); 4] = [
    (12, 0, 25, 4096),
    (12, 255, 280, 4096),
    (16, 2, 27, 65_536),
    (20, 255, 280, 1_048_576),
];

static NO_SHAPES: [(u32, usize); 6] = [(11, 0), (21, 0), (0, 2), (268, 2), (12, 256), (20, 256)];

static LONG_LABEL: [u8; 256] = [0x61; 256];

// A label of `bytes` bytes, at most 256.
fn long_label(bytes: usize) -> &'static [u8] {
    &LONG_LABEL[..bytes.min(256)]
}

fn has_shape(exponent: u32, label: &[u8], header: usize, chunk: usize) -> bool {
    match Shape::two(exponent, label) {
        Ok(shape) => shape.header_bytes() == header && shape.chunk() == chunk,
        Err(_) => false,
    }
}

fn has_no_shape(exponent: u32, label: &[u8]) -> bool {
    match Shape::two(exponent, label) {
        Ok(_shape) => false,
        Err(fault) => fault == BadShape && fault.number() == 18,
    }
}

#[test]
fn shapes_have_bounds(rt: HostRuntime) {
    for (exponent, label, header, chunk) in &SHAPES {
        let shaped = has_shape(*exponent, long_label(*label), *header, *chunk);
        assert!(rt; shaped, "{exponent}, {label}");
    }
    for (exponent, label) in &NO_SHAPES {
        assert!(rt;
            has_no_shape(*exponent, long_label(*label)),
            "{exponent}, {label}"
        );
    }
}

// Begins to open a container of `bytes` bytes by its header alone, where its plaintext may have at most `most` bytes.
// Returns how many bytes of plaintext it has.
fn plain_of(key: &Key, front: &[u8], bytes: u64, most: u64) -> Result<u64, OpenFault> {
    // The contract of `begin_within` requires this.
    if most > MAX_OPENED || front.len() as u64 > bytes || header_bytes(front) > front.len() {
        return Err(OpenFault::Read);
    }
    match begin_within(key, front, bytes, most) {
        Ok((_header, cut)) => Ok(cut.plain()),
        Err(fault) => Err(fault),
    }
}

// The header of version 2 with this exponent and the label `ab`.
fn front_of(exponent: u8) -> [u8; 27] {
    let mut front = [0; 27];
    front.copy_from_slice(&EMPTY_TWO[..27]);
    front[9] = exponent;
    front
}

// What `plain_of` returns for the header of version 1, or of version 2 with this exponent.
fn plain_by(key: &Key, exponent: Option<u8>, bytes: u64, most: u64) -> Result<u64, OpenFault> {
    match exponent {
        None => plain_of(key, &EMPTY[..24], bytes, most),
        Some(exponent) => plain_of(key, &front_of(exponent), bytes, most),
    }
}

// For version 1, or for version 2 with this exponent and a header of 27 bytes: the most bytes that a plaintext may
// have, the length of the longest one that then has a container, and that container's length. If every plaintext may be
// opened, the longest has 2^32 - 1 chunks.
static LONGEST: [(Option<u8>, u64, u64, u64); 8] = [
    (None, 65_537, 65_537, 65_593),
    (None, 1 << 40, 1 << 40, 1_099_780_063_256),
    (None, MAX_OPENED, 281_474_976_645_120, 281_543_696_121_864),
    (Some(12), 8_192, 8_192, 8_251),
    (Some(12), 1 << 40, 1 << 40, 1_103_806_595_099),
    (Some(12), MAX_OPENED, 17_592_186_040_320, 17_660_905_517_067),
    (
        Some(16),
        MAX_OPENED,
        281_474_976_645_120,
        281_543_696_121_867,
    ),
    (
        Some(20),
        MAX_OPENED,
        4_503_599_626_321_920,
        4_503_668_345_798_667,
    ),
];

// Whether a container of `plain` plaintext bytes has `bytes` bytes, and is the longest that opens with at most `most`
// bytes of plaintext.
fn is_longest(exponent: Option<u8>, most: u64, plain: u64, bytes: u64) -> bool {
    let key = counting_key();
    plain_by(&key, exponent, bytes, most) == Ok(plain)
        && plain_by(&key, exponent, bytes.saturating_add(1), most) == Err(OpenFault::TooLong)
}

// In version 2 the header's faults come before a fault of the length, in version 1 after it.
fn name_another_key() -> bool {
    let key = Key::new([0; 32]);
    plain_by(&key, None, 41, 0) == Err(OpenFault::TooLong)
        && plain_by(&key, Some(12), 44, 0) == Err(OpenFault::KeyMismatch)
}

// Whether the first bytes identify the version.
fn are_told_apart() -> bool {
    !begins_as_two(&EMPTY[..24]) && begins_as_two(&EMPTY_TWO[..27])
}

#[test]
fn containers_open_up_to_the_longest(rt: HostRuntime) {
    for (exponent, most, plain, bytes) in &LONGEST {
        assert!(rt;
            is_longest(*exponent, *most, *plain, *bytes),
            "{bytes} bytes"
        );
    }
    assert!(rt; name_another_key());
    assert!(rt; are_told_apart());
}
