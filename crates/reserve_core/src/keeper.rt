//! The keeper of a ledger file.
ghost use Rattle.std.specs.Prelude.{◌≡◌, ◌≢◌, ◌↔◌, ◌+◌, ◌-◌, ◌<◌, ◌≤◌, IsTrue, false, IfOk};
ghost use Rattle.std.specs.Prelude.{IfErr, OnOk, OnErr, Err, MatchResult, ◌⊎◌};
ghost use Rattle.sqlite.specs.Held.{state};
ghost use Rattle.sqlite.specs.State.{HasCleanDisk, Survives};
ghost use Rattle.ranges_core.specs.Calls.{CommitsNothing, Unchanged, WasOpen, WhileOpen};
ghost use Rattle.ranges_core.specs.Faults.{IsBad, IsRefusal};
ghost use Rattle.ranges_core.specs.Lasting.{LeavesOnlyThis, StillLast};
ghost use Rattle.ranges_core.specs.Reservations.{Lists, Holds, Opened, next_of, no_lists, ranges_of_pairs, with_range};
ghost use Rattle.ranges_core.specs.Tables.{no_schema};

use journal_core::{Device, Range};
use ranges_core::{NUMBERS, ReserveFault, append_range, mark_of, open_tables, ranges_of};
use sqlite::{Alter, Connection};
use std::marker::Model;

/// The ranges that were ever reserved, in a database that nobody else writes.
///
/// It holds a connection. What was committed to a file is in the log next to it (FILE-wal), and the two together are
/// one ledger. That ends when the log is copied into the file: by `LedgerFile::fold`, or when the connection that
/// `release` returned is closed.
#[derive(Drop)]
pub struct Keeper<S: Alter> {
    conn: Connection<S>,
}

impl<S: Alter> Model for Keeper<S> {
    ghost use Rattle.std.specs.Prelude.{◌≡◌, false};
    ghost use Rattle.sqlite.specs.Held.{Held, held_code, state};
    ghost use Rattle.ranges_core.specs.Calls.{WhileOpen};
    ghost use Rattle.ranges_core.specs.Writes.{IsReady};

    ghost Value = { Held S };

    ghost coded = { held_code S.code };

    ghost view = { λ k. k.conn };

    ghost invariant = { λ k. (k.conn.in_transaction ≡ false)
        × WhileOpen S.Store k.conn (IsReady (state S.Store k.conn)) };
}

impl<S: Alter> Keeper<S> {
    /// Makes both tables in an empty database. Otherwise checks their schema, and that their rows are lists of adjacent
    /// ranges. The check is one pass over the rows of `taken`, one at a time. It holds the rows of `mark`, and all rows
    /// only if that pass finds no lists. Nobody else may write the database from now on.
    ///
    /// Returns `BadStore` if the schema is not empty and one of the two tables cannot be read by its column names, or
    /// if the rows hold no lists. Returns `OutOfMemory` if memory was refused, and `Store` in these cases:
    /// - The database refuses a statement for another cause.
    /// - The tables differ from those that the keeper makes, or are not the only ones.
    /// - The connection is in a transaction.
    ///
    /// A refusal changes nothing and hands the connection back. If a disk fault closed the connection, the files are as
    /// after a crash: as they could be before. If the database was empty, they may also hold both tables with empty
    /// lists.
    pub fn open(connection: Connection<S>) -> Result<Keeper<S>, (ReserveFault, Connection<S>)>
        ensures opened { IfOk result (λ k. HasCleanDisk (state S.Store k)
            → Opened (state S.Store connection).now (state S.Store k).now) }
        ensures live { IfOk result (λ k. HasCleanDisk (state S.Store k) → IsTrue (state S.Store connection).is_open
            × IsTrue (state S.Store k).is_open) }
        ensures never { IfOk result (λ k. HasCleanDisk (state S.Store k) → IsBad (state S.Store connection).now → ⊥) }
        ensures bad { IfErr result (λ e. HasCleanDisk (state S.Store e.1) → e.0 ≡ ReserveFault.BadStore
            → IsBad (state S.Store connection).now) }
        ensures named { IfErr result (λ e. IsRefusal e.0 ⊎ (e.0 ≡ ReserveFault.BadStore)) }
        ensures same { IfErr result (λ e. WhileOpen S.Store e.1 (Unchanged S.Store connection e.1)) }
        ensures crash { MatchResult result
            (λ k. Survives (state S.Store connection) (state S.Store k) (λ trees. (db : _) × Holds db no_lists
            × (trees ≡ db.trees)))
            (λ e. Survives (state S.Store connection) (state S.Store e.1) (λ trees. (db : _) × Holds db no_lists
            × (trees ≡ db.trees))) }
        ensures lasts { IfOk result (λ k. HasCleanDisk (state S.Store k) → LeavesOnlyThis S.Store k) }
        ensures kept { MatchResult result
            (λ k. StillLast S.Store connection k)
            (λ e. StillLast S.Store connection e.1) }
        ensures found { (state S.Store connection).now.schema ≢ no_schema
            → MatchResult result (λ k. CommitsNothing S.Store connection k)
            (λ e. CommitsNothing S.Store connection e.1) }
        ensures settled { IfOk result (λ k. k.in_transaction ≡ false) }
        ensures mode { IfErr result (λ e. e.1.in_transaction ≡ connection.in_transaction) }
    {
        let mut conn = connection;
        match open_tables(&mut conn) {
            Ok(()) => Ok(Keeper { conn }),
            Err(fault) => Err((fault, conn)),
        }
    }

    /// Reserves the next `count` file numbers of the key and device: 1 to 65,535 numbers, each below 2^32.
    ///
    /// Once it returns `Ok` they are reserved for good, even across crashes. A crash during the call leaves the old
    /// lists, or those with the new range. A refusal changes nothing. Errors, tested in this order:
    /// - `ZeroCount`: `count` is 0.
    /// - `TooMany`: `count` is over 65,535.
    /// - `FieldSpent`: fewer than `count` numbers are left.
    ///
    /// `Store` means that the database failed before the last test could be made, or refused a statement. If it was
    /// refused memory for that, it is `OutOfMemory`. `BadStore` comes only if somebody else wrote the database, or its
    /// disk returned other bytes. If a disk fault closed the connection, the files are as after a crash.
    pub fn reserve(
        &mut self,
        key_id: &[u8; 32],
        device: Device,
        count: u32,
    ) -> Result<Range, ReserveFault>
        ensures zero { (result ≡ Err ReserveFault.ZeroCount) ↔ (count ≡ 0) }
        ensures many { (result ≡ Err ReserveFault.TooMany) ↔ (Range.MAX_SIZE < count) }
        ensures asked { IfOk result (λ r. (r.device ≡ device) × (r.size ≡ count)) }
        ensures spent { HasCleanDisk (state S.Store self.new) → (lists : Lists)
            → Holds (state S.Store self.old).now lists
            → let next = next_of (lists key_id.now device) in IfErr result (λ e. (left : _)
            → e ≡ ReserveFault.FieldSpent left
            → (NUMBERS < next + count) × (left ≡ NUMBERS - next)) }
        ensures sound { HasCleanDisk (state S.Store self.new) → result ≢ Err ReserveFault.BadStore }
        ensures appends { HasCleanDisk (state S.Store self.new) → (lists : Lists)
            → Holds (state S.Store self.old).now lists
            → IfOk result (λ r. (r.lo ≡ next_of (lists key_id.now device)) × (r.lo + count ≤ NUMBERS)
            × Holds (state S.Store self.new).now (with_range lists key_id.now device count)) }
        ensures live { HasCleanDisk (state S.Store self.new)
            → OnOk result (IsTrue (state S.Store self.old).is_open × IsTrue (state S.Store self.new).is_open) }
        ensures was_open { WasOpen S.Store self.old self.new }
        ensures same { WhileOpen S.Store self.new (OnErr result (Unchanged S.Store self.old self.new)) }
        ensures crash { Survives (state S.Store self.old) (state S.Store self.new) (λ trees. (lists : Lists)
            → Holds (state S.Store self.old).now lists
            → (db : _) × Holds db (with_range lists key_id.now device count) × (trees ≡ db.trees)) }
        ensures lasts { HasCleanDisk (state S.Store self.new) → OnOk result (LeavesOnlyThis S.Store self.new) }
        ensures kept { StillLast S.Store self.old self.new }
        ensures shut { (state S.Store self.old).is_open ≡ false → CommitsNothing S.Store self.old self.new }
        ensures settled { self.old.in_transaction ≡ false → self.new.in_transaction ≡ false }
        ensures floor { result ≢ Err ReserveFault.BelowFloor }
    {
        self.reserve_from(key_id, device, count, 0)
    }

    /// Does the same, if the range begins at `floor` or above it. Else it is `BelowFloor`, tested before `FieldSpent`.
    pub fn reserve_from(
        &mut self,
        key_id: &[u8; 32],
        device: Device,
        count: u32,
        floor: u64,
    ) -> Result<Range, ReserveFault>
        ensures zero { (result ≡ Err ReserveFault.ZeroCount) ↔ (count ≡ 0) }
        ensures many { (result ≡ Err ReserveFault.TooMany) ↔ (Range.MAX_SIZE < count) }
        ensures asked { IfOk result (λ r. (r.device ≡ device) × (r.size ≡ count)) }
        ensures spent { HasCleanDisk (state S.Store self.new) → (lists : Lists)
            → Holds (state S.Store self.old).now lists
            → let next = next_of (lists key_id.now device) in IfErr result (λ e. (left : _)
            → e ≡ ReserveFault.FieldSpent left
            → (NUMBERS < next + count) × (left ≡ NUMBERS - next)) }
        ensures sound { HasCleanDisk (state S.Store self.new) → result ≢ Err ReserveFault.BadStore }
        ensures appends { HasCleanDisk (state S.Store self.new) → (lists : Lists)
            → Holds (state S.Store self.old).now lists
            → IfOk result (λ r. (r.lo ≡ next_of (lists key_id.now device)) × (r.lo + count ≤ NUMBERS)
            × Holds (state S.Store self.new).now (with_range lists key_id.now device count)) }
        ensures live { HasCleanDisk (state S.Store self.new)
            → OnOk result (IsTrue (state S.Store self.old).is_open × IsTrue (state S.Store self.new).is_open) }
        ensures was_open { WasOpen S.Store self.old self.new }
        ensures same { WhileOpen S.Store self.new (OnErr result (Unchanged S.Store self.old self.new)) }
        ensures crash { Survives (state S.Store self.old) (state S.Store self.new) (λ trees. (lists : Lists)
            → Holds (state S.Store self.old).now lists
            → (db : _) × Holds db (with_range lists key_id.now device count) × (trees ≡ db.trees)) }
        ensures lasts { HasCleanDisk (state S.Store self.new) → OnOk result (LeavesOnlyThis S.Store self.new) }
        ensures kept { StillLast S.Store self.old self.new }
        ensures shut { (state S.Store self.old).is_open ≡ false → CommitsNothing S.Store self.old self.new }
        ensures settled { self.old.in_transaction ≡ false → self.new.in_transaction ≡ false }
        ensures floor { IfOk result (λ r. floor ≤ r.lo) }
        ensures below { result ≡ Err ReserveFault.BelowFloor → 0 < floor }
        ensures older { HasCleanDisk (state S.Store self.new) → (lists : Lists)
            → Holds (state S.Store self.old).now lists
            → result ≡ Err ReserveFault.BelowFloor → next_of (lists key_id.now device) < floor }
    {
        if count == 0 {
            return Err(ReserveFault::ZeroCount);
        }
        if count > Range::MAX_SIZE {
            return Err(ReserveFault::TooMany);
        }
        let number = device.number();
        let mark = mark_of(&mut self.conn, key_id.as_slice(), number)?;
        let next = mark.unwrap_or(0);
        if next < floor {
            return Err(ReserveFault::BelowFloor);
        }
        if next + u64::from(count) > NUMBERS {
            let left = NUMBERS - next;
            return Err(ReserveFault::FieldSpent { left });
        }
        // Unreachable: a range of 1 to 65,535 numbers that ends by 2^32 is lawful.
        let Ok(range) = Range::new(device, next as u32, count) else {
            return Err(ReserveFault::Store);
        };
        match append_range(&mut self.conn, key_id.as_slice(), number, mark, count) {
            Ok(()) => Ok(range),
            Err(error) => Err(ReserveFault::of(error)),
        }
    }

    /// Returns the ranges of the key and device as (`lo`, `size`), in order of `lo`. A refusal is `Store` or
    /// `OutOfMemory`. `BadStore` comes only if somebody else wrote the database, or its disk returned other bytes.
    /// Nothing changes.
    pub fn taken(
        &mut self,
        key_id: &[u8; 32],
        device: Device,
    ) -> Result<Vec<(u32, u64)>, ReserveFault>
        ensures lists { HasCleanDisk (state S.Store self.new) → (lists : Lists)
            → Holds (state S.Store self.old).now lists
            → IfOk result (λ ranges. ranges_of_pairs ranges.items ≡ lists key_id.now device) }
        ensures named { IfErr result (λ e. IsRefusal e ⊎ (e ≡ ReserveFault.BadStore)) }
        ensures sound { HasCleanDisk (state S.Store self.new) → result ≢ Err ReserveFault.BadStore }
        ensures live { HasCleanDisk (state S.Store self.new) → OnOk result (IsTrue (state S.Store self.old).is_open) }
        ensures was_open { WasOpen S.Store self.old self.new }
        ensures same { WhileOpen S.Store self.new (Unchanged S.Store self.old self.new) }
        ensures crash { CommitsNothing S.Store self.old self.new }
        ensures kept { StillLast S.Store self.old self.new }
        ensures settled { self.old.in_transaction ≡ false → self.new.in_transaction ≡ false }
    {
        ranges_of(&mut self.conn, key_id.as_slice(), device.number())
    }

    /// Returns the connection, unchanged.
    pub fn release(self) -> Connection<S>
        ensures { result ≡ self }
    {
        let Keeper { conn } = self;
        conn
    }
}
