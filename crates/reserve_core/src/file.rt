//! The ledger file during a run: its keeper, and after the reservation only the files.
ghost use Rattle.std.specs.Prelude.{◌≡◌, ◌≢◌, IfErr, IfOk, MatchResult, OnOk, Err};
ghost use Rattle.sqlite_wal.specs.Reads.{AreClean};
ghost use Rattle.sqlite.specs.Held.{Held};
ghost use Rattle.sqlite.specs.State.{store_error};
ghost use Rattle.ranges_core.specs.Faults.{IsRefusal, fault_of};
ghost use Rattle.reserve_core.specs.Folded.{AreFolded, AreLeft, LeftBy};

use crate::keeper::Keeper;
use ranges_core::ReserveFault;
use sqlite::{Alter, FileStore, Files, MemStore};
use sqlite_disk::Disk;
use sqlite_trees::error::StoreError;
use sqlite_trees::store::Store;

// The fault of a store that failed with this error.
fn fault_of(error: StoreError) -> ReserveFault
    ensures value { result ≡ fault_of (store_error error) }
    ensures named { IsRefusal result }
{
    match error {
        StoreError::OutOfMemory => ReserveFault::OutOfMemory,
        _ => ReserveFault::Store,
    }
}

/// A store that can copy its log into its file.
pub trait Fold: Alter + Drop {
    /// What is left of a store: its files, which are held, and no longer read or written.
    type Left: Drop;

    // A crash leaves nothing of this that it couldn't leave of the store.
    ghost is_left: { Self → Self.Left → Type 0 };

    // The store's last commit is in the file itself: with the log as a crash leaves it, and without a log.
    ghost is_folded: { Self → Self.Left → Type 0 };

    /// Rolls back what wasn't committed, copies the log into the file, and syncs the file. If that fails, the log
    /// stays. The fault is `OutOfMemory` if memory was refused for it, else `Store`.
    fn fold(self) -> Result<Self::Left, (ReserveFault, Self::Left)>
        ensures left { MatchResult result (is_left self) (λ e. is_left self e.1) }
        ensures folded { IfOk result (is_folded self) }
        ensures named { IfErr result (λ e. IsRefusal e.0) };
}

impl<D: Disk + Drop> Fold for FileStore<D> {
    type Left = Files<D>;

    ghost is_left = { AreLeft };

    ghost is_folded = { λ store left. AreClean D.Disk left.log left.db → AreFolded store left };

    fn fold(self) -> Result<Files<D>, (ReserveFault, Files<D>)>
        ensures left { MatchResult result (AreLeft self) (λ e. AreLeft self e.1) }
        ensures folded { IfOk result (λ left. AreClean D.Disk left.log left.db → AreFolded self left) }
        ensures named { IfErr result (λ e. IsRefusal e.0) }
    {
        let mut store = self;
        store.rollback();
        match store.checkpoint() {
            Ok(()) => Ok(store.close()),
            Err(error) => Err((fault_of(error), store.close())),
        }
    }
}

// Nothing in memory outlives the process.
impl Fold for MemStore {
    type Left = MemStore;

    ghost is_left = { λ store left. left ≡ store };

    ghost is_folded = { λ store left. left ≡ store };

    fn fold(self) -> Result<MemStore, (ReserveFault, MemStore)>
        ensures left { MatchResult result (λ left. left ≡ self) (λ e. e.1 ≡ self) }
        ensures folded { IfOk result (λ left. left ≡ self) }
        ensures named { IfErr result (λ e. IsRefusal e.0) }
    {
        Ok(self)
    }
}

/// The ledger file during a run.
#[derive(Drop)]
pub enum LedgerFile<S: Fold> {
    /// The keeper, which reserves ranges.
    Kept(Keeper<S>),
    /// The files, after the log was copied into the ledger file, or after that failed. They are held, and nothing reads
    /// or writes them any more.
    Folded(S::Left),
    /// Neither: this value exists only while `fold` moves the files.
    Gone,
}

impl<S: Fold> LedgerFile<S> {
    /// Copies the log into the ledger file and syncs the file, so that it holds what was committed without its log. A
    /// keeper is folded once. Returns `OutOfMemory` if memory was refused for the copying, and `Store` if it failed
    /// otherwise or there is no keeper.
    pub fn fold(&mut self) -> Result<(), ReserveFault>
        ensures kept { (k : Held S) → self.old ≡ LedgerFile.Kept k → (left : S.Left)
            × (self.new ≡ LedgerFile.Folded left) × LeftBy S.Store S.is_left k left
            × OnOk result (LeftBy S.Store S.is_folded k left) }
        ensures named { IfErr result IsRefusal }
        ensures other { ((k : Held S) → self.old ≢ LedgerFile.Kept k)
            → (self.new ≡ self.old) × (result ≡ Err ReserveFault.Store) }
    {
        match std::mem::replace(self, LedgerFile::Gone) {
            LedgerFile::Kept(keeper) => match keeper.release().into_store().fold() {
                Ok(files) => {
                    *self = LedgerFile::Folded(files);
                    Ok(())
                }
                Err((fault, files)) => {
                    *self = LedgerFile::Folded(files);
                    Err(fault)
                }
            },
            other => {
                *self = other;
                Err(ReserveFault::Store)
            }
        }
    }
}
