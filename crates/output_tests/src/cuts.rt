//! A container is written in two parts, cut anywhere.
use crate::holds_both;
use container_core::{Key, Shape};
use std::alloc::Global;

// Three chunks of 4 KiB in version 2, the last of one byte.
static PLAIN: [u8; 8_193] = [9; 8_193];

// Where the first part ends: in and after the headers, before and after the ends of a chunk and its tag, and at the
// ends of both containers.
static ENDS: [usize; 12] = [
    0, 1, 24, 29, 30, 4_124, 4_125, 4_141, 4_142, 8_233, 8_269, 8_270,
];

// Whether outputs hold the containers of versions 1 and 2, for each of these cuts.
fn all_hold(alloc: Global) -> Option<bool> {
    let key = Key::new([7; 32]);
    let prefix = [1, 2, 3, 4, 5, 6, 7];
    let one = Shape::one();
    let two = Shape::two(12, b"home").ok()?;
    for end in &ENDS {
        if !holds_both(alloc, &key, &one, prefix, &PLAIN, *end)?
            || !holds_both(alloc, &key, &two, prefix, &PLAIN, *end)?
        {
            return Some(false);
        }
    }
    Some(true)
}

#[test]
fn a_container_is_taken_in_two_parts(rt: HostRuntime) {
    assert!(rt; all_hold(rt.alloc()) == Some(true));
}
