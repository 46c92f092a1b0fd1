//! A container put into an output in parts.
use crate::bounded::Bounded;
use container_core::{Key, Shape, seal};
use output_core::put_all;
use std::alloc::Global;

/// Whether the output holds the whole container after it was put in two parts, the first of `at` bytes. Returns `None`
/// if memory is refused, or if the plaintext is too long.
pub fn holds_both(
    alloc: Global,
    key: &Key,
    shape: &Shape,
    prefix: [u8; 7],
    plain: &[u8],
    at: usize,
) -> Option<bool> {
    let Ok(whole) = seal(alloc, key, shape, prefix, plain) else {
        return None;
    };
    let (front, rest) = whole.as_slice().split_at(at.min(whole.len()));
    let mut output = Bounded::new(alloc, key, shape, prefix);
    if put_all(&mut output, front).is_err() || put_all(&mut output, rest).is_err() {
        return None;
    }
    Some(output.bytes.as_slice() == whole.as_slice())
}
