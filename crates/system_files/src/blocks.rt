//! Bytes in memory, in blocks: no byte is copied as more are appended.
ghost use Rattle.std.specs.Prelude.{◌≤◌, length};

use std::alloc::Global;
use std::vec::IntoIter;

/// Bytes that are held at most: 16 MiB.
const MAX_HELD: usize = 1 << 24;

/// Bytes of a block.
const BLOCK: usize = 1 << 18;

/// The blocks. All but the last are full.
#[derive(Drop)]
pub(crate) struct Blocks(Vec<Vec<u8>>);

impl Blocks {
    /// No bytes.
    pub(crate) fn new(alloc: Global) -> Blocks {
        Blocks(Vec::new(alloc))
    }

    /// Appends a prefix of these bytes, and returns its length. That is less than all of it only if the most bytes are
    /// held, or if memory is refused.
    pub(crate) fn append(&mut self, alloc: Global, bytes: &[u8]) -> usize {
        let mut kept = 0usize;
        for piece in bytes.chunks(BLOCK) {
            let filled = self.fill_last(piece);
            let begun = self.begin_block(alloc, &piece[filled..]);
            let n = filled + begun;
            kept = kept.saturating_add(n);
            if n < piece.len() {
                return kept;
            }
        }
        kept
    }

    // Appends to the last block what it has room for.
    fn fill_last(&mut self, bytes: &[u8]) -> usize
        ensures most { result ≤ length bytes.now }
    {
        let Some(last) = self.0.last_mut() else {
            return 0;
        };
        let n = BLOCK.saturating_sub(last.len()).min(bytes.len());
        match last.extend_from_slice(&bytes[..n]) {
            Ok(()) => n,
            Err(_) => 0,
        }
    }

    // Appends to a new block what that has room for.
    fn begin_block(&mut self, alloc: Global, bytes: &[u8]) -> usize
        ensures most { result ≤ length bytes.now }
    {
        if bytes.is_empty() || self.0.len() >= MAX_HELD / BLOCK {
            return 0;
        }
        let n = bytes.len().min(BLOCK);
        let Ok(mut block) = Vec::with_capacity(alloc, BLOCK) else {
            return 0;
        };
        if block.extend_from_slice(&bytes[..n]).is_err() || self.0.push(block).is_err() {
            return 0;
        }
        n
    }

    /// Copies bytes from byte `at` on into the front of `buffer`, and returns their number. If that is 0 and `buffer`
    /// isn't empty, there are none.
    pub(crate) fn read_at(&self, at: u64, buffer: &mut [u8]) -> usize
        ensures most { result ≤ length buffer.new }
    {
        let (number, start) = (at / BLOCK as u64, (at % BLOCK as u64) as usize);
        let Some(block) = self.0.get(usize::try_from(number).unwrap_or(usize::MAX)) else {
            return 0;
        };
        let rest = block.as_slice().get(start..).unwrap_or(&[]);
        let n = rest.len().min(buffer.len());
        buffer[..n].copy_from_slice(&rest[..n]);
        n
    }

    /// Returns the blocks in order.
    pub(crate) fn into_iter(self) -> IntoIter<Vec<u8>> {
        self.0.into_iter()
    }
}
