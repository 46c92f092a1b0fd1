//! Buffers for blocks, allocated once and reused.
ghost use Rattle.std.specs.Prelude.{◌≡◌, ◌<◌, length, All, IfOk, IfSome};

use std::alloc::{AllocError, Global};
use std::mem;

/// Returns `count` buffers of `size` bytes, each for a block and its tags.
pub(crate) fn buffers(alloc: Global, count: usize, size: usize) -> Result<Vec<Vec<u8>>, AllocError>
    ensures { IfOk result (λ spare. All (λ b. length b.items ≡ size) spare.items) }
{
    let mut spare = Vec::with_capacity(alloc, count)?;
    'making: for _ in 0..count {
        spare.push_reserved(vec![in alloc; 0; size]?);
    }
    Ok(spare)
}

/// Takes the buffer that was kept of the last input, if it has `size` bytes, or else makes one.
pub(crate) fn kept_or_new(
    alloc: Global,
    kept: &mut Vec<u8>,
    size: usize,
) -> Result<Vec<u8>, AllocError>
    ensures { IfOk result (λ buffer. length buffer.items ≡ size) }
{
    if kept.len() == size {
        Ok(mem::replace(kept, Vec::new(alloc)))
    } else {
        vec![in alloc; 0; size]
    }
}

/// Takes a buffer for another block, if one is spare, reading needn't wait, and `count` blocks are fewer than `depth`.
pub(crate) fn take_spare(
    spare: &mut Vec<Vec<u8>>,
    size: usize,
    waits: bool,
    count: usize,
    depth: usize,
) -> Option<Vec<u8>>
    requires spare { All (λ b. length b.items ≡ size) spare.old.items }
    ensures spare { All (λ b. length b.items ≡ size) spare.new.items }
    ensures buffer { IfSome result (λ b. (length b.items ≡ size) × (count < depth)) }
{
    if waits || count >= depth {
        return None;
    }
    match spare.pop() {
        Some(buffer) => Some(buffer),
        None => None,
    }
}

/// Keeps a buffer for another block, if there is a place for it.
pub(crate) fn keep(spare: &mut Vec<Vec<u8>>, buffer: Vec<u8>, size: usize)
    requires spare { All (λ b. length b.items ≡ size) spare.old.items }
    requires buffer { length buffer.items ≡ size }
    ensures spare { All (λ b. length b.items ≡ size) spare.new.items }
{
    if spare.len() < spare.capacity() {
        spare.push_reserved(buffer);
    }
}
