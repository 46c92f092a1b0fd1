//! Two outputs are created. One is written and finished, the other is given up, and the first is read back, twice.
use crate::memory::MemoryFolder;
use container_core::{Key, Shape, seal};
use folder_core::{Folder, Outputs, finish_or_discard};
use io_core::read_to_limit;
use std::alloc::Global;

// Whether the first output has the container of this plaintext, at both readings, and there is no second one.
fn two_outputs(alloc: Global, plain: &[u8]) -> Option<bool> {
    let key = Key::new([7; 32]);
    let shape = Shape::one();
    let Ok(sealed) = seal(alloc, &key, &shape, [0, 0, 1, 0, 0, 0, 3], plain) else {
        return None;
    };
    let mut folder = MemoryFolder::new(alloc, [7; 32], 1, 3, 3);
    let Ok(first) = folder.create("a.stm") else {
        return None;
    };
    let Ok(second) = folder.create("b.stm") else {
        return None;
    };
    folder.allow_container(first, 3, &shape);
    let Ok(_) = folder.write(sealed.as_slice()) else {
        return None;
    };
    let Ok(()) = finish_or_discard(&mut folder) else {
        return None;
    };
    folder.allow_container(second, 4, &shape);
    if folder.discard().is_err() {
        return None;
    }
    let Ok(mut reader) = folder.open("a.stm") else {
        return None;
    };
    let Ok(first) = read_to_limit(alloc, &mut reader, Vec::new(alloc), 1 << 20, 0) else {
        return None;
    };
    let Ok(()) = folder.again("a.stm", &mut reader) else {
        return None;
    };
    let Ok(again) = read_to_limit(alloc, &mut reader, Vec::new(alloc), 1 << 20, 0) else {
        return None;
    };
    folder.close("a.stm", reader);
    let is_whole = first.as_slice() == sealed.as_slice() && again.as_slice() == sealed.as_slice();
    Some(is_whole && folder.bytes("b.stm").is_none())
}

#[test]
fn one_is_read_back_and_one_is_given_up(rt: HostRuntime) {
    assert!(rt; two_outputs(rt.alloc(), b"forty-two") == Some(true));
}
