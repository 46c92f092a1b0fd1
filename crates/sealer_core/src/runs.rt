//! How two runs of one ledger file relate, and how the outputs of one run relate to its history.
ghost use Rattle.std.specs.Prelude.{◌≡◌, ◌+◌, ◌≤◌, ℕ, List, Some};
ghost use Rattle.command_core.specs.Turns.{Printed};
ghost use Rattle.folder_core.specs.Growth.{with_entries};
ghost use Rattle.folder_core.specs.Record.{RunRecord, times_begun};
ghost use Rattle.folder_core.specs.Record as record_of;
ghost use Rattle.journal_core.specs.declared.entry.Entry.{Entry};
ghost use Rattle.journal_core.specs.declared.terms.Terms.{Terms};
ghost use Rattle.journal_core.specs.History.{times_granted};
ghost use Rattle.journal_core.specs.Range.{Numbers};
ghost use Rattle.sqlite_wal.specs.Recovery.{Image};
ghost use Rattle.reserve_core.specs.NextRun.{PassesOn};
ghost use Rattle.sealer_core.specs.Sealing.{HasSealed, SealedUnder};
ghost use Rattle.sealer_core.specs.Theorem.{FoldsFrom, IsLeftOf};

use reserve_core::LedgerFile;
use sqlite::Files;
use sqlite_disk::Disk;

/// No number is in the ranges of two runs. One folds a range of a key and device; then a crash leaves any allowed state of
/// the two files, or the log is lost. Any runs pass on what they found there. A later run's keeper is made of what it finds,
/// and its range of that key and device is after the first. The disks may be of different types.
pub fn runs_are_apart<D: Disk + Drop, E: Disk + Drop>()
    ensures { (key_id : List ℕ) (device : ℕ) (one other : Numbers) (start files last : Image) (left : Files D)
        (rest : Files E) → FoldsFrom {g = D.Disk} LedgerFile.Kept LedgerFile.Folded key_id device start left one
        → IsLeftOf D.Disk left files → PassesOn files last
        → FoldsFrom {g = E.Disk} LedgerFile.Kept LedgerFile.Folded key_id device last rest other
        → one.lo + one.size ≤ other.lo }
{}

/// What a run of `seal_all` wrote has the numbers that it was granted: for each number there are as many outputs that may
/// hold its container as the run's history grants it. A legal history grants none twice. The premise is clause `run` of
/// `seal_all`, over a folder whose record is known.
pub fn a_run_has_written()
    ensures { (under : SealedUnder) (names : List (List ℕ)) (terms : Terms) (history : List Entry) (status : ℕ)
        (old new : Printed) (before : RunRecord) (added : List record_of.Entry)
        → HasSealed under names terms history status old new (Some before) (Some (with_entries added before))
        → (number : ℕ) → times_begun number added ≡ times_granted number history }
{}
