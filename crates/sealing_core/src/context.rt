//! What the blocks of one container are sealed with. All workers of a call share it.
ghost use Rattle.std.specs.Prelude.{◌≡◌, ◌<◌, ◌≤◌, ◌^◌};
ghost use Rattle.sealing_core.specs.Pieces.{block, room, IsBlock};

use crate::line::Naming;
use crate::round::Plan;
use claim_core::Gate;
use container_core::{Header, Key, TAG};
use std::marker::PhantomData;

/// The key, the header and the plan of a container, what is written right before its first block, and the gate that is
/// passed before a chunk is sealed.
#[derive(Drop)]
pub(crate) struct SealingContext<'a, N: Naming, G: Gate> {
    pub(crate) key: &'a Key,
    pub(crate) header: &'a Header,
    pub(crate) plan: Plan,
    pub(crate) front: &'a [u8],
    pub(crate) gate: &'a G,
    pub(crate) of: PhantomData<N>,
    ghost named: { (key.now ≡ N.key) × (header.now ≡ N.header) × (plan.each ≡ N.each) },
    ghost fits: { IsBlock N.each N.header },
}

impl<N: Naming, G: Gate> SealingContext<'_, N, G> {
    /// Plaintext bytes of a block.
    pub(crate) fn block_bytes(&self) -> usize
        ensures value { result ≡ block N.each N.header }
        ensures some { 0 < result }
        ensures most { result ≤ 2 ^ 20 }
    {
        self.plan.each as usize * self.header.chunk()
    }

    /// Bytes of a sealed block.
    pub(crate) fn room_bytes(&self) -> usize
        ensures value { result ≡ room N.each N.header }
    {
        self.plan.each as usize * (self.header.chunk() + TAG)
    }
}
