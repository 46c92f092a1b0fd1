//! What is the same for all of a run.
ghost use Rattle.sealer_core.specs.Piping.{IsLawfulPipe};
ghost use Rattle.sealer_core.specs.Sealing.{AreLawful};

use crate::piping::PipeOptions;
use crate::sealing::SealOptions;
use container_core::Key;
use ledger_core::Ledger;
use std::alloc::Global;

/// The key and the ledger under whose numbers files are sealed, what is asked for, and where memory comes from.
#[derive(Drop)]
pub(crate) struct SealContext<'q> {
    pub(crate) alloc: Global,
    pub(crate) key: &'q Key,
    pub(crate) ledger: &'q Ledger,
    pub(crate) options: &'q SealOptions<'q>,
    ghost lawful: { AreLawful options.now },
}

/// The same for a stream.
#[derive(Drop)]
pub(crate) struct PipeContext<'q> {
    pub(crate) alloc: Global,
    pub(crate) key: &'q Key,
    pub(crate) ledger: &'q Ledger,
    pub(crate) options: &'q PipeOptions<'q>,
    ghost lawful: { IsLawfulPipe options.now },
}
