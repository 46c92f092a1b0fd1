//! Bytes in several buffers, in order, as the pieces of rounds leave them.
ghost use Rattle.std.specs.Prelude.{◌≡◌, ◌++◌, [], flat_map, OnOk, OnErr};

use std::alloc::{AllocError, Global};
use std::marker::Model;

/// Bytes in several buffers, in order. Contracts see them as one list.
#[derive(Drop)]
pub struct Parts {
    buffers: Vec<Vec<u8>>,
}

impl Model for Parts {
    ghost use Rattle.std.specs.Prelude.{ℕ, List, flat_map};

    ghost Value = { List ℕ };

    ghost view = { λ p. flat_map (λ b. b.items) p.buffers.items };
}

impl Parts {
    /// Returns a list of no bytes. Allocates nothing.
    pub fn new(alloc: Global) -> Parts
        ensures { result ≡ [] }
    {
        Parts {
            buffers: Vec::new(alloc),
        }
    }

    /// Adds a buffer after the others; its bytes aren't copied. `AllocError`, with nothing added, if memory for its
    /// place was refused.
    pub fn push(&mut self, buffer: Vec<u8>) -> Result<(), AllocError>
        ensures added { OnOk result (self.new ≡ self.old ++ buffer.items) }
        ensures kept { OnErr result (self.new ≡ self.old) }
    {
        match self.buffers.push(buffer) {
            Ok(()) => Ok(()),
            Err(_) => Err(AllocError),
        }
    }

    /// Returns the buffers, in order.
    pub fn buffers(&self) -> &[Vec<u8>]
        ensures { flat_map (λ b. b.items) result.now ≡ self.now }
    {
        self.buffers.as_slice()
    }
}
