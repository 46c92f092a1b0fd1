//! Laws of the lists of ranges, and of the next run on what a crash leaves.
ghost use Rattle.std.specs.Prelude.{◌≡◌, ◌+◌, ◌≤◌, ℕ, List, [], Some, slice_get};
ghost use Rattle.sqlite.specs.Effect.{Database, IsDatabase};
ghost use Rattle.sqlite.specs.Files.{file_state, over_files};
ghost use Rattle.sqlite.specs.Held.{Held, IsConnected, state};
ghost use Rattle.sqlite.specs.Closing.{IsCopied};
ghost use Rattle.sqlite.specs.Start.{FindsIn};
ghost use Rattle.sqlite.specs.State.{HasCleanDisk, Opens};
ghost use Rattle.sqlite_store.specs.FileStore as store;
ghost use Rattle.sqlite_wal.specs.Files.{outcomes};
ghost use Rattle.sqlite_wal.specs.Reads.{AreClean};
ghost use Rattle.sqlite_wal.specs.Recovery.{Image};
ghost use Rattle.reserve_core.specs.Folded.{AreFolded, LeftBy};
ghost use Rattle.reserve_core.specs.NextRun.{AreIn, IsFound, PassesOn, PassInTurn};
ghost use Rattle.ranges_core.specs.Lasting.{Begins, Keeps, Last, LeavesOnlyThis, StillLast};
ghost use Rattle.ranges_core.specs.Reservations.{AreApart, Holds, Lists, Opened, TakenRange, next_of};

use sqlite::{Alter, Files};
use sqlite_disk::Disk;

/// Any two ranges of one key ID and device are disjoint: each ends before a later one begins.
pub fn ranges_are_apart()
    ensures { (db : Database) (lists : Lists) → Holds db lists → (key : List ℕ) (device : ℕ)
        → AreApart (lists key device) }
{}

/// If a crash leaves exactly what a connection shows, it leaves the lists of that database.
pub fn what_is_shown_lasts<S: Alter>()
    ensures { (was : Held S) (lists : Lists) → LeavesOnlyThis S.Store was
        → Holds (state S.Store was).now lists → Last (state S.Store was) lists }
{}

/// The next run has what was reserved. Suppose all that a crash may leave of a connection has lists that begin with the
/// earlier ones, and the next connection shows one of these databases. Then a keeper that `Keeper::open` makes of it
/// has lists that begin with the earlier ones. The two connections may use stores of different types.
pub fn next_run_has_the_ranges<S: Alter, T: Alter>()
    ensures { (was : Held S) (found now : Held T) (before lists : Lists) → Last (state S.Store was) before
        → ∥ (state S.Store was).may_leave (state T.Store found).now.trees ∥₁ → IsDatabase (state T.Store found).now
        → Opened (state T.Store found).now (state T.Store now).now → Holds (state T.Store now).now lists
        → Begins before lists }
{}

/// What a crash leaves holds the lists. Suppose all that a crash may leave of a connection over files has lists that
/// begin with these. Then whatever it leaves of the two files holds a database with such lists. Every connection
/// maintains `IsConnected`.
pub fn a_crash_leaves_the_ranges<D: Disk + Drop>()
    ensures { (was : _) (before : Lists) → HasCleanDisk (file_state {g = D.Disk} was)
        → IsConnected (store.view was.store) (store.recovers was.store) was.schema was.saved was.in_transaction
        → Last (file_state was) before → (files : Image) → (store.state was.store).may_leave files
        → AreIn before files }
{}

/// After a connection over files was folded, the ledger file alone has its lists. Whatever a crash later leaves of the
/// two files holds them, with the log as it was left and with no log.
pub fn a_folded_file_has_the_ranges<D: Disk + Drop>()
    ensures { (was : _) (left : Files D) (before : Lists)
        → LeftBy (over_files {g = D.Disk}) (λ store left. AreClean D.Disk left.log left.db → AreFolded store left)
        was left
        → AreClean D.Disk left.log left.db → Keeps before (file_state {g = D.Disk} was).committed.trees
        → (files : Image) → outcomes D.Disk left.log left.db files
        → AreIn before files × AreIn before (record files { log = [] }) }
{}

/// The next run has what is in the files: a keeper made of what a connection found there has lists that begin with
/// those. The connection may be over another type of disk.
pub fn the_next_keeper_has_the_ranges<T: Alter>()
    ensures { (files : Image) (keeper : Held T) (before lists : Lists) → AreIn before files
        → IsFound T.Store files keeper → Holds (state T.Store keeper).now lists → Begins before lists }
{}

/// A run passes on what the files hold, from when its connection is made and for as long as there is one. This holds if
/// it is killed before its keeper is made or at any call of the keeper.
pub fn a_connection_passes_on_what_it_found<D: Disk + Drop>()
    ensures { (files later : Image) (found last : _) → FindsIn files (file_state {g = D.Disk} found)
        → Opens (file_state found) → StillLast over_files found last → HasCleanDisk (file_state last)
        → IsConnected (store.view last.store) (store.recovers last.store) last.schema last.saved last.in_transaction
        → (store.state last.store).may_leave later → PassesOn files later }
{}

/// The same holds for a run whose connection was closed (`Connection::close_files`), and then also without the log.
pub fn a_closed_connection_passes_on_what_it_found<D: Disk + Drop>()
    ensures { (files later : Image) (found last : _) (left : Files D) → FindsIn files (file_state {g = D.Disk} found)
        → Opens (file_state found) → StillLast over_files found last → IsCopied last left
        → outcomes D.Disk left.log left.db later → PassesOn files later × PassesOn files (record later { log = [] }) }
{}

/// A run passes on what it found, if it is killed at any time once its keeper is made.
pub fn a_run_passes_on_what_it_found<D: Disk + Drop>()
    ensures { (files later : Image) (keeper last : _) → IsFound (over_files {g = D.Disk}) files keeper
        → StillLast over_files keeper last → HasCleanDisk (file_state {g = D.Disk} last)
        → IsConnected (store.view last.store) (store.recovers last.store) last.schema last.saved last.in_transaction
        → (store.state last.store).may_leave later → PassesOn files later }
{}

/// The same holds for a run that folded its files, and then also without the log.
pub fn a_folded_run_passes_on_what_it_found<D: Disk + Drop>()
    ensures { (files later : Image) (keeper last : _) (left : Files D) → IsFound (over_files {g = D.Disk}) files keeper
        → StillLast over_files keeper last
        → LeftBy over_files (λ store left. AreClean D.Disk left.log left.db → AreFolded store left) last left
        → AreClean D.Disk left.log left.db → outcomes D.Disk left.log left.db later
        → PassesOn files later × PassesOn files (record later { log = [] }) }
{}

/// Suppose files hold a range of a key ID and device, and runs, one after another, pass on what they found. Then the
/// number at which a later run's keeper begins to reserve comes after that range.
pub fn a_later_run_reserves_behind<T: Alter>()
    ensures { (files last : Image) (between : List Image) (keeper : Held T) (before lists : Lists)
        → AreIn before files → PassInTurn files between last → IsFound T.Store last keeper
        → Holds (state T.Store keeper).now lists → (key : List ℕ) (device i : ℕ) (range : TakenRange)
        → slice_get (before key device) i ≡ Some range → range.lo + range.size ≤ next_of (lists key device) }
{}
