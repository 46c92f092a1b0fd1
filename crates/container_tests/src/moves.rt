//! The chunks of a container of three, rearranged.
ghost use Rattle.std.specs.Prelude.{◌≤◌, ◌+◌, ◌*◌, length};

use std::alloc::{AllocError, Global};

/// Which chunks follow the header, and the first of them that doesn't check. 0 to 2 are the chunks of a container of
/// three, and 3 is chunk 0 of another file's container.
pub static MOVES: [(&str, &[u32], u32); 5] = [
    ("chunks 0 and 1 exchanged", &[1, 0, 2], 0),
    ("chunk 0 inserted again behind itself", &[0, 0, 1, 2], 1),
    ("chunk 1 taken out", &[0, 2], 1),
    ("the last chunk added again", &[0, 1, 2, 2], 2),
    ("chunk 0 from the container of file 1", &[3, 1, 2], 0),
];

// The chunk with this number in `MOVES`, where a header has `header` bytes and a sealed chunk `sealed`.
fn chunk_of<'a>(
    bytes: &'a [u8],
    other: &'a [u8],
    header: usize,
    sealed: usize,
    number: u32,
) -> &'a [u8]
    requires bytes { header + 2 * sealed ≤ length bytes.now }
    requires other { header + 2 * sealed ≤ length other.now }
{
    match number {
        0 => &bytes[header..header + sealed],
        1 => &bytes[header + sealed..header + 2 * sealed],
        2 => &bytes[header + 2 * sealed..],
        _ => &other[header..header + sealed],
    }
}

/// Returns the header and these chunks in a row. A header has `header` bytes, and a sealed chunk `sealed`.
pub fn moved(
    alloc: Global,
    bytes: &[u8],
    other: &[u8],
    header: usize,
    sealed: usize,
    order: &[u32],
) -> Result<Vec<u8>, AllocError>
    requires bytes { header + 2 * sealed ≤ length bytes.now }
    requires other { header + 2 * sealed ≤ length other.now }
{
    let mut made = Vec::from_slice(alloc, &bytes[..header])?;
    for number in order {
        made.extend_from_slice(chunk_of(bytes, other, header, sealed, *number))?;
    }
    Ok(made)
}
