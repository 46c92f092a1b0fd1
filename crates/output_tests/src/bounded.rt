//! An output in memory that may hold the container of some plaintext, and nothing else.
ghost use Rattle.std.specs.Prelude.{◌≡◌, [], Some};
ghost use Rattle.output_core.specs.Bounds.{Container, IsWithin};

use container_core::{Key, Shape};
use io_core::Failed;
use output_core::Output;
use std::alloc::Global;

/// An output that keeps what it takes. It may hold the container of some plaintext with its key, shape and prefix. A
/// write of anything else can't be proved. A refused growth is a failure.
#[derive(Drop)]
pub struct Bounded<'k> {
    /// The container's key.
    pub key: &'k Key,
    /// The container's shape.
    pub shape: &'k Shape,
    /// The container's prefix.
    pub prefix: [u8; 7],
    /// The bytes taken.
    pub bytes: Vec<u8>,
    // The bytes taken are a prefix of such a container.
    ghost begins: { ∥ IsWithin (Some (Container [] key.now shape.now prefix)) (Some bytes.items) ∥₁ },
}

impl<'k> Bounded<'k> {
    /// Returns an output that has taken nothing.
    pub fn new(alloc: Global, key: &'k Key, shape: &'k Shape, prefix: [u8; 7]) -> Bounded<'k>
        ensures bytes { result.bytes.items ≡ [] }
        ensures key { result.key.now ≡ key.entry.now }
        ensures shape { result.shape.now ≡ shape.entry.now }
        ensures prefix { result.prefix ≡ prefix }
    {
        Bounded {
            key,
            shape,
            prefix,
            bytes: Vec::new(alloc),
        }
    }
}

impl<'k> Output for Bounded<'k> {
    ghost taken = { λ o. Some o.bytes.items };

    ghost bound = { λ o. Some (Container [] o.key.now o.shape.now o.prefix) };

    fn put(&mut self, bytes: &[u8]) -> Result<usize, Failed> {
        match self.bytes.extend_from_slice(bytes) {
            Ok(()) => Ok(bytes.len()),
            Err(_) => Err(Failed),
        }
    }

    ghost within = { λ o. o.begins };
}
