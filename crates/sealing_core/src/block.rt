//! Sealing a block in place. Its chunks are consecutive at the front of a buffer, and are sealed there, each with its
//! tag after it.
//!
//! The last chunk is moved to its place and sealed first, so no chunk is overwritten that is still to be moved.
ghost use Rattle.std.specs.Prelude.{◌≡◌, ◌+◌, ◌*◌, ◌^◌, ◌<◌, ◌≤◌, false, length, take, drop};
ghost use Rattle.container_core.specs.Chunks.{body_length, chunk_count, chunks};
ghost use Rattle.container_core.specs.Container.{size_in};
ghost use Rattle.container_core.specs.Stream.{sealed_chunk, stream_by};

use claim_core::Gate;
use container_core::{Header, Key, TAG, seal_chunk};

// Moves the `n` bytes at `from` to `to`, which is not before it.
fn move_up(text: &mut [u8], from: usize, to: usize, n: usize)
    requires places { from ≤ to }
    requires text { to + n ≤ length text.old }
    ensures length { length text.new ≡ length text.old }
    ensures before { take to text.new ≡ take to text.old }
    ensures moved { take n (drop to text.new) ≡ take n (drop from text.old) }
    ensures behind { drop (to + n) text.new ≡ drop (to + n) text.old }
{
    if from == to {
        return;
    }
    text.copy_within(from..from + n, to);
}

// Moves the `n` bytes at `from` to `to`, which is not before it, seals them there, and puts the tag after them.
fn seal_at(
    key: &Key,
    header: &Header,
    number: u32,
    last: bool,
    text: &mut [u8],
    from: usize,
    to: usize,
    n: usize,
)
    requires places { from ≤ to }
    requires text { to + n + 16 ≤ length text.old }
    requires n { n ≤ size_in header.now }
    ensures length { length text.new ≡ length text.old }
    ensures before { take to text.new ≡ take to text.old }
    ensures sealed { take (n + 16) (drop to text.new)
        ≡ sealed_chunk key.now header.now number last (take n (drop from text.old)) }
    ensures behind { drop (to + n + 16) text.new ≡ drop (to + n + 16) text.old }
{
    move_up(text, from, to, n);
    let (_, place) = text.split_at_mut(to);
    let (chunk, rest) = place.split_at_mut(n);
    let tag = seal_chunk(key, header, number, last, chunk);
    let (room, _) = rest.split_at_mut(TAG);
    room.copy_from_slice(&tag);
}

// Returns how many chunks come before the last one of `filled` bytes.
fn before_last(size: usize, filled: usize) -> usize
    requires size { 0 < size }
    ensures begins { result * size ≤ filled }
    ensures some { 0 < result → result * size < filled }
    ensures ends { filled ≤ result * size + size }
    ensures few { result ≤ filled }
    ensures count { chunk_count size filled ≡ result + 1 }
    ensures bytes { body_length size filled ≡ filled + 16 * (result + 1) }
{
    filled.saturating_sub(1) / size
}

/// Seals the first `filled` bytes chunk by chunk. The first chunk has the number `first`; `last` says whether the last
/// one is STREAM's last. Passes the gate with a chunk's number right before it seals the chunk. Returns the bytes of
/// the sealed chunks.
pub(crate) fn seal_block<G: Gate>(
    key: &Key,
    header: &Header,
    gate: &G,
    me: u32,
    first: u32,
    last: bool,
    text: &mut [u8],
    filled: usize,
) -> usize
    requires filled { filled ≤ 2 ^ 20 }
    requires text { body_length (size_in header.now) filled ≤ length text.old }
    requires numbers { first + chunk_count (size_in header.now) filled ≤ 2 ^ 32 }
    ensures length { length text.new ≡ length text.old }
    ensures bytes { result ≡ body_length (size_in header.now) filled }
    ensures sealed { take result text.new
        ≡ stream_by key.now header.now first last (chunks (size_in header.now) (take filled text.old)) }
{
    let size = header.chunk();
    let place = size + TAG;
    let before = before_last(size, filled);
    let n = filled - before * size;
    gate.pass(me, first + before as u32);
    seal_at(
        key,
        header,
        first + before as u32,
        last,
        text,
        before * size,
        before * place,
        n,
    );
    let mut left = before;
    'chunks: while left > 0 {
        left -= 1;
        gate.pass(me, first + left as u32);
        seal_at(
            key,
            header,
            first + left as u32,
            false,
            text,
            left * size,
            left * place,
            size,
        );
    }
    before * place + n + TAG
}
