//! The log that a run leaves beside an empty ledger file if it is cut off while it makes the two.
//!
//! The database first writes a single byte 0 to the empty log, then the header's other bytes, then the header's own
//! first byte over the 0. Each write is on the disk before the next, and the file comes last. When the database folds
//! the log, it begins rounds with other numbers.
ghost use Rattle.std.specs.Prelude.{◌≡◌, ◌+◌, ◌≤◌, ◌↔◌, length, IsTrue};
ghost use Rattle.sqlite_wal.specs.Format.{be32, stored_sum, IsSigned};
ghost use Rattle.system_ledger.specs.Begun.{HasLogHeader, HasNoFrame, HasOnlyBegun, IsOfFirstRound};

use sqlite_wal::checksum_of;

/// Bytes of a log that holds no page yet: the log's header and one frame's header.
pub const WITHOUT_PAGE: usize = 32 + 24;

// Bytes of a log's header, and the offsets in it of its round's number and its checksum.
const HEADER: usize = 32;

const ROUND: usize = 12;

const SUM: usize = 24;

// The first byte of a log.
const FIRST: u8 = 0x37;

/// Returns whether a log beside an empty ledger file was only begun with it. If so, and if nobody altered the two, no
/// number was ever reserved in them.
pub fn has_only_begun(log: &[u8]) -> bool
    ensures begun { IsTrue result ↔ HasOnlyBegun log.now }
    ensures no_frame { IsTrue result → HasNoFrame log.now }
{
    if log.len() > WITHOUT_PAGE {
        return false;
    }
    if log.is_empty() {
        return true;
    }
    if is_of_first_round(log) {
        return true;
    }
    if log[0] != 0 {
        return false;
    }
    !has_header(log)
}

// Whether its header has the number of the first round.
fn is_of_first_round(log: &[u8]) -> bool
    ensures { IsTrue result ↔ IsOfFirstRound log.now }
{
    log.len() >= ROUND + 4 && u32_at(log, ROUND) == 0xffff_ffff
}

// Whether it has a header whose checksum holds once the first byte is set.
fn has_header(log: &[u8]) -> bool
    ensures { IsTrue result ↔ HasLogHeader log.now }
{
    if log.len() < HEADER {
        return false;
    }
    let mut header = [0; HEADER];
    header.copy_from_slice(&log[..HEADER]);
    header[0] = FIRST;
    is_signed(&header)
}

// Whether it begins with the magic number and ends with its checksum.
fn is_signed(header: &[u8; HEADER]) -> bool
    ensures { IsTrue result ↔ IsSigned header.now }
{
    if header[0] != FIRST || header[1] != 0x7f || header[2] != 0x06 {
        return false;
    }
    if header[3] != 0x82 && header[3] != 0x83 {
        return false;
    }
    let sum = checksum_of(header[3] == 0x83, (0, 0), &header[..SUM]);
    sum == sum_at(header, SUM)
}

// The checksum stored at offset `at`.
fn sum_at(bytes: &[u8], at: usize) -> (u32, u32)
    requires { at + 8 ≤ length bytes.now }
    ensures { result ≡ stored_sum bytes.now at }
{
    (u32_at(bytes, at), u32_at(bytes, at + 4))
}

// The four bytes at `at` as a big-endian number.
fn u32_at(bytes: &[u8], at: usize) -> u32
    requires { at + 4 ≤ length bytes.now }
    ensures { result ≡ be32 bytes.now at }
{
    bytes[at] as u32 * 0x100_0000
        + bytes[at + 1] as u32 * 0x1_0000
        + bytes[at + 2] as u32 * 0x100
        + bytes[at + 3] as u32
}
