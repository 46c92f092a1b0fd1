//! What is the same for all files of a command that opens or verifies, and for both readings of one that is unpiped.
ghost use Rattle.std.specs.Prelude.{◌<◌, ◌≤◌, ◌^◌, length};
ghost use Rattle.claim_core.specs.declared.TheConstants.{MAX_WORKERS};
ghost use Rattle.command_core.specs.declared.commands.TheConstants.{MAX_OPENED_BYTES};
ghost use Rattle.command_core.specs.Work.{AreInRange};

use crate::commands::OpenOptions;
use crate::unpiping::UnpipeOptions;
use container_core::Key;
use std::alloc::Global;

/// The key under which files are opened, what is asked for, and where memory comes from.
#[derive(Drop)]
pub(crate) struct FilesContext<'q, 'a> {
    pub(crate) alloc: Global,
    pub(crate) key: &'a Key,
    pub(crate) options: &'q OpenOptions<'q>,
    ghost range: { AreInRange options.now },
    ghost few: { length options.now.files.now < 2 ^ 64 },
}

/// The key under which a file is unpiped, what is asked for, and where memory comes from.
#[derive(Drop)]
pub(crate) struct UnpipeContext<'q, 'a> {
    pub(crate) alloc: Global,
    pub(crate) key: &'a Key,
    pub(crate) options: &'q UnpipeOptions<'q>,
    ghost workers: { (0 < options.now.workers) × (options.now.workers ≤ MAX_WORKERS) },
    ghost most: { options.now.max_bytes ≤ MAX_OPENED_BYTES },
}
