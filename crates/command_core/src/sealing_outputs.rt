//! Outputs into which containers are written, under one key and the numbers of one range.
ghost use Rattle.std.specs.Prelude.{◌≡◌, IfSome};
ghost use Rattle.command_core.specs.GrantedRange.{IsGrantedIn};
ghost use Rattle.folder_core.specs.Changes.{Becomes, IsUnstarted, started};

use container_core::Key;
use folder_core::{Outputs, Stream};
use io_core::Sink;
use ledger_core::Ledger;
use reserve_core::{Fold, LedgerFile};

/// Outputs whose record gets a key and a range. Without them no container can be written into one.
pub trait SealingOutputs: Outputs {
    /// From here on containers are sealed under this key and numbers of the ledger's range, which the ledger file has for
    /// good. The call does nothing to files: its contract makes the caller show this before anything is written. No key
    /// was given before, and nothing is in hand, where the record is known.
    fn start<S: Fold>(&mut self, file: &LedgerFile<S>, key: &Key, ledger: &Ledger)
        requires unstarted { IfSome (Self.rest self.old) IsUnstarted }
        requires stands { IsGrantedIn S.Store LedgerFile.Kept LedgerFile.Folded S.is_folded key.now file.now
            ledger.now.terms.range }
        ensures started { Becomes (started key.now ledger.now.terms.range) (Self.rest self.old) (Self.rest self.new) }
        ensures taken { Self.taken self.new ≡ Self.taken self.old }
        ensures failures { Self.failures self.new ≡ Self.failures self.old };
}

/// A stream has no record.
impl<W: Sink> SealingOutputs for Stream<W> {
    fn start<S: Fold>(&mut self, _file: &LedgerFile<S>, _key: &Key, _ledger: &Ledger) {}
}
