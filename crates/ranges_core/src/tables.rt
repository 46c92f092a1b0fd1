//! Makes the two tables, in one transaction.
ghost use Rattle.std.specs.Prelude.{◌≡◌, IsTrue, OnOk, OnErr, true, false, []};
ghost use Rattle.sqlite.specs.State.{HasCleanDisk, Survives, KeepsCommit, Shows};
ghost use Rattle.sqlite.specs.Held.{state};
ghost use Rattle.ranges_core.specs.Calls.{CommitsNothing, Inside, KeepsCommitted, Unchanged};
ghost use Rattle.ranges_core.specs.Calls.{WasOpen, WhileOpen, Wrote, marks_in};
ghost use Rattle.ranges_core.specs.Tables.{no_schema, mark_schema};
ghost use Rattle.ranges_core.specs.Writes.{IsBlank, IsEmptyLedger};

use sqlite::{Alter, Connection, Error, Transaction};

// Makes the first table, without rows.
fn make_mark<S: Alter>(tx: &mut Transaction<'_, S>) -> Result<usize, Error>
    ensures same_reference { tx.new.conn.ghost_name ≡ tx.old.conn.ghost_name }
    ensures made { HasCleanDisk (state S.Store tx.new.conn.now)
        → IsTrue (state S.Store tx.old.conn.now).in_transaction → (state S.Store tx.old.conn.now).now.schema ≡ no_schema
        → OnOk result (((state S.Store tx.new.conn.now).now.schema ≡ mark_schema)
        × (marks_in S.Store tx.new.conn.now ≡ [])) }
    ensures shown { Inside S.Store tx.old.conn.now tx.new.conn.now
        (OnOk result (Wrote S.Store tx.old.conn.now tx.new.conn.now)) }
    ensures kept { KeepsCommitted S.Store tx.old.conn.now tx.new.conn.now }
    ensures survives { CommitsNothing S.Store tx.old.conn.now tx.new.conn.now }
{
    tx.execute(
        "CREATE TABLE mark (key_id BLOB NOT NULL, device INTEGER NOT NULL, next INTEGER NOT NULL, PRIMARY KEY (key_id, device), CHECK (next >= 0 AND next <= 4294967296))",
        &[],
    )
}

// Makes the second table, without rows.
fn make_taken<S: Alter>(tx: &mut Transaction<'_, S>) -> Result<usize, Error>
    ensures same_reference { tx.new.conn.ghost_name ≡ tx.old.conn.ghost_name }
    ensures made { HasCleanDisk (state S.Store tx.new.conn.now)
        → IsTrue (state S.Store tx.old.conn.now).in_transaction
        → (state S.Store tx.old.conn.now).now.schema ≡ mark_schema
        → marks_in S.Store tx.old.conn.now ≡ []
        → OnOk result (IsEmptyLedger (state S.Store tx.new.conn.now).now) }
    ensures shown { Inside S.Store tx.old.conn.now tx.new.conn.now
        (OnOk result (Wrote S.Store tx.old.conn.now tx.new.conn.now)) }
    ensures kept { KeepsCommitted S.Store tx.old.conn.now tx.new.conn.now }
    ensures survives { CommitsNothing S.Store tx.old.conn.now tx.new.conn.now }
{
    tx.execute(
        "CREATE TABLE taken (key_id BLOB NOT NULL, device INTEGER NOT NULL, lo INTEGER NOT NULL, size INTEGER NOT NULL, PRIMARY KEY (key_id, device, lo), CHECK (lo >= 0 AND size >= 1 AND lo + size <= 4294967296))",
        &[],
    )
}

/// Makes both tables or neither, even across a crash.
pub(crate) fn make_tables<S: Alter>(conn: &mut Connection<S>) -> Result<(), Error>
    requires settled { conn.old.in_transaction ≡ false }
    requires blank { WhileOpen S.Store conn.old (IsBlank (state S.Store conn.old)) }
    ensures settled { conn.new.in_transaction ≡ false }
    ensures was_open { WasOpen S.Store conn.old conn.new }
    ensures made { HasCleanDisk (state S.Store conn.new)
        → OnOk result (IsTrue (state S.Store conn.old).is_open × IsEmptyLedger (state S.Store conn.new).now) }
    ensures committed { HasCleanDisk (state S.Store conn.new)
        → OnOk result (IsTrue (state S.Store conn.new).is_open
        × ((state S.Store conn.new).now ≡ (state S.Store conn.new).committed)) }
    ensures neither { WhileOpen S.Store conn.new (OnErr result (Unchanged S.Store conn.old conn.new)) }
    ensures crash { Survives (state S.Store conn.old) (state S.Store conn.new)
        (λ trees. IsTrue (state S.Store conn.old).is_open × (db : _) × IsEmptyLedger db × (trees ≡ db.trees)) }
{
    let mut tx = conn.transaction();
    make_mark(&mut tx)?;
    make_taken(&mut tx)?;
    tx.commit()?;
    Ok(())
}
