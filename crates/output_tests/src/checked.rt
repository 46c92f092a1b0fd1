//! An output in memory that may hold what is opened of an input, as far as its chunks are checked, and nothing else.
ghost use Rattle.std.specs.Prelude.{◌≡◌, [], Some};
ghost use Rattle.output_core.specs.Bounds.{Checked, IsWithin};

use container_core::{Header, Key};
use io_core::Failed;
use output_core::Output;
use std::alloc::Global;

/// An output that keeps what it takes. It may hold what is opened of its input, as far as the chunks are checked, each at
/// its place, under its key and header. A write of anything else can't be proved. A refused growth is a failure.
#[derive(Drop)]
pub struct CheckedOutput<'k> {
    /// The container's key.
    pub key: &'k Key,
    /// The container's header.
    pub header: &'k Header,
    /// The bytes that are opened.
    pub input: &'k [u8],
    /// The bytes taken.
    pub bytes: Vec<u8>,
    // The bytes taken are a prefix of what such chunks open to.
    ghost begins: { ∥ IsWithin (Some (Checked [] key.now header.now input.now)) (Some bytes.items) ∥₁ },
}

impl<'k> CheckedOutput<'k> {
    /// Returns an output that has taken nothing.
    pub fn new(
        alloc: Global,
        key: &'k Key,
        header: &'k Header,
        input: &'k [u8],
    ) -> CheckedOutput<'k>
        ensures bytes { result.bytes.items ≡ [] }
        ensures key { result.key.now ≡ key.entry.now }
        ensures header { result.header.now ≡ header.entry.now }
        ensures input { result.input.now ≡ input.entry.now }
    {
        CheckedOutput {
            key,
            header,
            input,
            bytes: Vec::new(alloc),
        }
    }
}

impl<'k> Output for CheckedOutput<'k> {
    ghost taken = { λ o. Some o.bytes.items };

    ghost bound = { λ o. Some (Checked [] o.key.now o.header.now o.input.now) };

    fn put(&mut self, bytes: &[u8]) -> Result<usize, Failed> {
        match self.bytes.extend_from_slice(bytes) {
            Ok(()) => Ok(bytes.len()),
            Err(_) => Err(Failed),
        }
    }

    ghost within = { λ o. o.begins };
}
