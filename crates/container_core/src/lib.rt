//! Sealed containers: a header, then the chunks of a plaintext, sealed as in STREAM over the AEAD of RFC 8439. The
//! header has 24 bytes; in version 2 the label's length and a label follow them.
//!
//! `specs/` has the format: `chunks` of a plaintext, `stream` of a list of chunks, `container` of a key, a shape, a
//! prefix and a plaintext. `opening` is the first fault of any bytes, or their plaintext.
//! Nothing here waits. Only `seal` and `open` allocate, once, before the first chunk is sealed or opened.
#![tactic(auto)]

pub mod chunk;
pub mod cutting;
pub mod fault;
pub mod header;
mod image;
pub mod key;
pub mod laws;
pub mod shape;
pub mod whole;

pub use crate::chunk::{append_opened, append_sealed, check_chunk, nonce, open_chunk, seal_chunk};
pub use crate::cutting::{Cut, container_bytes, longest_bytes};
pub use crate::fault::{OpenFault, SealFault};
pub use crate::header::{Header, begins_as_two, header_bytes, read_header};
pub use crate::key::Key;
pub use crate::shape::{BadShape, Shape};
pub use crate::whole::{begin, begin_within, open, open_into, seal, seal_into};

/// Plaintext bytes of every chunk of version 1 but the last: 2 to the exponent 16.
pub const CHUNK: usize = 1 << 16;
/// Bytes of a tag.
pub const TAG: usize = 16;
/// Bytes of a sealed chunk of version 1 that isn't the last.
pub const SEALED: usize = CHUNK + TAG;
/// Bytes of a header of version 1, and those of version 2 before the label's length.
pub const HEADER: usize = 24;
/// Bytes of the greatest header.
pub const MAX_HEADER: usize = 280;
/// Bytes of the longest label.
pub const MAX_LABEL: usize = 255;
/// The least exponent of version 2: chunks of 4 KiB.
pub const MIN_EXPONENT: u32 = 12;
/// The greatest exponent of version 2: chunks of 1 MiB.
pub const MAX_EXPONENT: u32 = 20;
/// Bytes of the greatest plaintext that is sealed: 2^40.
pub const MAX_PLAIN: u64 = 1 << 40;
/// Bytes of the greatest plaintext that is opened: 2^52 - 2^20. It has 2^32 - 1 chunks of the greatest size. In chunks
/// of 2^e bytes the greatest has (2^32 - 1) * 2^e.
pub const MAX_OPENED: u64 = (1 << 52) - (1 << 20);
/// The most chunks that a container has: 2^32 - 1.
pub const MAX_CHUNKS: u32 = u32::MAX;

// The exponent of version 1.
const EXPONENT: u8 = 16;
