//! What all rounds of an opening have in common.
ghost use Rattle.std.specs.Prelude.{◌≢◌, ◌<◌, ◌≤◌};
ghost use Rattle.claim_core.specs.declared.TheConstants.{MAX_WINDOW};
ghost use Rattle.container_core.specs.declared.TheConstants.{MAX_OPENED};
ghost use Rattle.worker_core.specs.declared.round.Task.TheVariants.{Sealing};

use claim_core::Gate;
use container_core::{Header, Key};
use worker_core::Task;

/// What is done with the chunks, the key and the header under which they open, the limit of the plaintext in bytes, how
/// many chunks a full round has, and the gate that is passed before each chunk.
#[derive(Drop)]
pub(crate) struct OpeningContext<'h, 'a, G: Gate> {
    pub(crate) task: Task,
    pub(crate) key: &'a Key,
    pub(crate) header: &'h Header,
    pub(crate) max_bytes: u64,
    pub(crate) window: u32,
    pub(crate) gate: &'h G,
    ghost reads: { task ≢ Sealing },
    ghost most: { max_bytes ≤ MAX_OPENED },
    ghost some: { (0 < window) × (window ≤ MAX_WINDOW) },
}
