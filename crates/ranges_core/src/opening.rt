//! What `Keeper::open` does: it makes both tables in an empty database, and checks them in any other.
ghost use Rattle.std.specs.Prelude.{◌≡◌, ◌≢◌, ◌⊎◌, IsTrue, IfErr, OnOk, OnErr, Err, false};
ghost use Rattle.sqlite.specs.State.{HasCleanDisk, Survives};
ghost use Rattle.sqlite.specs.Held.{state};
ghost use Rattle.ranges_core.specs.Calls.{CommitsNothing, Unchanged, WhileOpen};
ghost use Rattle.ranges_core.specs.Faults.{IsBad, IsRefusal};
ghost use Rattle.ranges_core.specs.Lasting.{StillLast};
ghost use Rattle.ranges_core.specs.Reservations.{Holds, Opened, no_lists};
ghost use Rattle.ranges_core.specs.Tables.{no_schema};
ghost use Rattle.ranges_core.specs.Writes.{IsReady};

use crate::fault::ReserveFault;
use crate::reads::check_rows;
use crate::schema::{are_readable, is_blank, is_ledger};
use crate::tables::make_tables;
use sqlite::{Alter, Connection};

/// Makes both tables in an empty database. Otherwise checks that they are a ledger file's tables, and that their rows
/// form lists.
///
/// Returns `BadStore` if the schema is not empty and one of the two tables can't be read, or if the rows form no lists.
/// Returns `OutOfMemory` if memory was refused, and `Store` for every other cause. A refusal changes nothing.
pub fn open_tables<S: Alter>(conn: &mut Connection<S>) -> Result<(), ReserveFault>
    ensures settled { OnOk result (conn.new.in_transaction ≡ false) }
    ensures ready { WhileOpen S.Store conn.new (OnOk result (IsReady (state S.Store conn.new))) }
    ensures live { HasCleanDisk (state S.Store conn.new)
        → OnOk result (IsTrue (state S.Store conn.old).is_open × IsTrue (state S.Store conn.new).is_open) }
    ensures opened { HasCleanDisk (state S.Store conn.new)
        → OnOk result (Opened (state S.Store conn.old).now (state S.Store conn.new).now) }
    ensures never { HasCleanDisk (state S.Store conn.new) → OnOk result (IsBad (state S.Store conn.old).now → ⊥) }
    ensures bad { HasCleanDisk (state S.Store conn.new) → result ≡ Err ReserveFault.BadStore
        → IsBad (state S.Store conn.old).now }
    ensures named { IfErr result (λ e. IsRefusal e ⊎ (e ≡ ReserveFault.BadStore)) }
    ensures same { WhileOpen S.Store conn.new (OnErr result (Unchanged S.Store conn.old conn.new)) }
    ensures kept { StillLast S.Store conn.old conn.new }
    ensures mode { OnErr result (conn.new.in_transaction ≡ conn.old.in_transaction) }
    ensures found { (state S.Store conn.old).now.schema ≢ no_schema → CommitsNothing S.Store conn.old conn.new }
    ensures crash { Survives (state S.Store conn.old) (state S.Store conn.new) (λ trees. (db : _) × Holds db no_lists
        × (trees ≡ db.trees)) }
{
    if !conn.is_autocommit() {
        return Err(ReserveFault::Store);
    }
    if is_blank(conn.schema()) {
        return match make_tables(conn) {
            Ok(()) => Ok(()),
            Err(error) => Err(ReserveFault::of(error)),
        };
    }
    if !is_ledger(conn.schema()) {
        if are_readable(conn.schema()) {
            return Err(ReserveFault::Store);
        }
        return Err(ReserveFault::BadStore);
    }
    check_rows(conn)
}
