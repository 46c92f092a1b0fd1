//! Whether the tables of a database are those of a ledger file.
ghost use Rattle.std.specs.Prelude.{◌≡◌, IsTrue, [], ◌∷◌, None, false};
ghost use Rattle.std.specs.Option.{option_copied};
ghost use Rattle.sqlite_value.specs.Keys.{plain};
ghost use Rattle.ranges_core.specs.Tables.{IsLedger, are_readable, has_columns, index_for, keyed_table};
ghost use Rattle.ranges_core.specs.Tables.{mark_index, mark_names, mark_table, no_schema, required};
ghost use Rattle.ranges_core.specs.Tables.{table_at, taken_index, taken_names, taken_table};

use sqlite_items::Items;
use sqlite_schema::schema::{Column, Index, Kind, Schema, Table};
use sqlite_value::keys::{Collation, Order};
use sqlite_value::value::Value;

// Whether the column has this name and kind, is NOT NULL, has no default, and compares by bytes.
fn is_column(column: &Column, name: &[u8], kind: Kind) -> bool
    ensures { IsTrue result → column.now ≡ required name.now kind }
{
    column.name.as_slice() == name
        && column.kind == kind
        && !column.is_strict
        && column.not_null
        && matches!(column.default, Value::Null)
        && column.collation == Collation::Binary
}

// Whether the items are these column indexes.
fn are_places(items: &Items<usize>, places: &[usize]) -> bool
    ensures { IsTrue result → items.now ≡ places.now }
{
    items.as_slice() == places
}

// Whether there is exactly one key, over these columns.
fn is_one_key(uniques: &Items<Items<usize>>, places: &[usize]) -> bool
    ensures { IsTrue result → uniques.now ≡ places.now ∷ [] }
{
    match uniques.as_slice() {
        [key] => are_places(key, places),
        _ => false,
    }
}

// Whether there is exactly one key order, the plain one.
fn is_one_order(orders: &Items<Order>) -> bool
    ensures { IsTrue result → orders.now ≡ plain ∷ [] }
{
    match orders.as_slice() {
        [order] => *order == Order::PLAIN,
        _ => false,
    }
}

// Whether the table has only columns, keys and CHECKs.
fn is_bare(table: &Table) -> bool
    ensures references { IsTrue result → (table.now.key ≡ None) × (table.now.references ≡ []) }
    ensures computed { IsTrue result → (table.now.computed ≡ []) × (table.now.is_counted ≡ false) }
    ensures stamps { IsTrue result → table.now.stamps ≡ record { places = []; terms = []; formats = [] } }
{
    if table.key.is_some() || table.is_counted {
        return false;
    }
    if table.references.len() != 0 || table.computed.len() != 0 {
        return false;
    }
    table.stamps.places.len() == 0
        && table.stamps.terms.roots.len() == 0
        && table.stamps.formats.len() == 0
}

// Whether the table has this name, tree and primary key, and otherwise only columns and CHECKs.
fn is_keyed(table: &Table, name: &[u8], tree: u32, places: &[usize]) -> bool
    ensures { IsTrue result → table.now ≡ keyed_table name.now tree table.now.columns places.now table.now.checks }
{
    table.name.as_slice() == name
        && table.tree == tree
        && are_places(&table.primary, places)
        && is_one_key(&table.uniques, places)
        && is_one_order(&table.orders)
        && is_bare(table)
}

// Whether the table is `mark` as the keeper makes it, apart from its CHECKs.
fn is_mark_table(table: &Table) -> bool
    ensures { IsTrue result → table.now ≡ mark_table table.now.checks 0 }
{
    let [key_id, device, next] = table.columns.as_slice() else {
        return false;
    };
    is_column(key_id, b"key_id", Kind::Any)
        && is_column(device, b"device", Kind::Integer)
        && is_column(next, b"next", Kind::Integer)
        && is_keyed(table, b"mark", 0, &[1, 2])
}

// Whether the table is `taken` as the keeper makes it, apart from its CHECKs.
fn is_taken_table(table: &Table) -> bool
    ensures { IsTrue result → table.now ≡ taken_table table.now.checks 2 }
{
    let [key_id, device, lo, size] = table.columns.as_slice() else {
        return false;
    };
    is_column(key_id, b"key_id", Kind::Any)
        && is_column(device, b"device", Kind::Integer)
        && is_column(lo, b"lo", Kind::Integer)
        && is_column(size, b"size", Kind::Integer)
        && is_keyed(table, b"taken", 2, &[1, 2, 3])
}

// Whether the index has this name, tree, table and columns, is ascending, and is unique.
fn is_index(index: &Index, name: &[u8], tree: u32, table: u32, places: &[usize]) -> bool
    ensures { IsTrue result → index.now ≡ index_for name.now tree table places.now }
{
    index.name.as_slice() == name
        && index.tree == tree
        && index.table == table
        && are_places(&index.columns, places)
        && index.order == Order::PLAIN
        && index.is_unique
}

/// Whether the schema has no table, index or view.
pub(crate) fn is_blank(schema: &Schema) -> bool
    ensures blank { IsTrue result → schema.now ≡ no_schema }
    ensures other { schema.now ≡ no_schema → IsTrue result }
{
    schema.tables.len() == 0 && schema.indexes.len() == 0 && schema.views.len() == 0
}

// Whether the tables are these two, in this order.
fn are_tables(tables: &[Table]) -> bool
    ensures { IsTrue result → (c : _) × (d : _) × (tables.now ≡ mark_table c 0 ∷ taken_table d 2 ∷ []) }
{
    match tables {
        [mark, taken] => is_mark_table(mark) && is_taken_table(taken),
        _ => false,
    }
}

// Whether the indexes are those of the two primary keys.
fn are_indexes(indexes: &[Index]) -> bool
    ensures { IsTrue result → indexes.now ≡ mark_index ∷ taken_index ∷ [] }
{
    match indexes {
        [of_mark, of_taken] => {
            is_index(of_mark, b"sqlite_autoindex_mark_1", 1, 0, &[1, 2])
                && is_index(of_taken, b"sqlite_autoindex_taken_1", 3, 2, &[1, 2, 3])
        }
        _ => false,
    }
}

/// Whether the schema has both tables as the keeper makes them, apart from their CHECKs, and nothing else.
pub(crate) fn is_ledger(schema: &Schema) -> bool
    ensures { IsTrue result → IsLedger schema.now }
{
    if schema.views.len() != 0 || !are_indexes(schema.indexes.as_slice()) {
        return false;
    }
    are_tables(schema.tables.as_slice())
}

// The table of this name, ignoring case.
fn table_at<'a>(schema: &'a Schema, name: &[u8]) -> Option<&'a Table>
    ensures { option_copied result ≡ table_at schema.now name.now }
{
    schema.tables.get(schema.table_named(name)?)
}

// Whether the table has the columns of `mark`.
fn has_mark_columns(table: &Table) -> bool
    ensures { result ≡ has_columns mark_names table.now }
{
    table.column_named(b"key_id").is_some()
        && table.column_named(b"device").is_some()
        && table.column_named(b"next").is_some()
}

// Whether the table has the columns of `taken`.
fn has_taken_columns(table: &Table) -> bool
    ensures { result ≡ has_columns taken_names table.now }
{
    table.column_named(b"key_id").is_some()
        && table.column_named(b"device").is_some()
        && table.column_named(b"lo").is_some()
        && table.column_named(b"size").is_some()
}

/// Whether both tables can be read by their column names.
pub(crate) fn are_readable(schema: &Schema) -> bool
    ensures { result ≡ are_readable schema.now }
{
    match (table_at(schema, b"mark"), table_at(schema, b"taken")) {
        (Some(mark), Some(taken)) => has_mark_columns(mark) && has_taken_columns(taken),
        _ => false,
    }
}
