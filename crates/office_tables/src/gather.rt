//! The rows of a database's tables, which are found by their names, whatever the numbers of their
//! trees.

ghost use Rattle.std.specs.Prelude.{◌≡◌, ◌++◌, map, IfOk, OnOk};
ghost use Rattle.sqlite_trees.specs.View.{IsClean, IsQuiet};
ghost use Rattle.office_tables.specs.{Arranged.IsUnchanged, Moved.rows_named, Moved.moved_from};

use office_tables_shelf::rows::Table;
use office_tables_statements::tables::name_of;
use sqlite_exec::check::all_rows;
use sqlite_exec::work::Workspace;
use sqlite_schema::names::same_name;
use sqlite_schema::schema::Table as SqlTable;
use sqlite_trees::error::StoreError;
use sqlite_trees::store::Store;
use sqlite_value::row::Row;
use std::alloc::Global;

/// A stored row of one of the office's tables beside `office_version`, with its rowid first.
pub(crate) type Gathered = (Table, Row);

/// The office's eight tables beside `office_version`, those first that refer to others.
pub const CHILDREN_FIRST: [Table; 8] = [
    Table::UsedPart,
    Table::Delivery,
    Table::WorkOrder,
    Table::Inspection,
    Table::Draft,
    Table::Timing,
    Table::Part,
    Table::Intersection,
];

/// The rows of the first table with this name, as SQL compares names, in the order of their rowids;
/// none where it is missing. The error is the store's, or want of memory.
pub(crate) fn read_named<S: Store>(
    alloc: Global,
    store: &mut S,
    tables: &[SqlTable],
    name: &str,
) -> Result<Vec<Row>, StoreError>
    ensures rows { IsClean (S.Store.view store.new) → IfOk result (λ rows.
        rows.items ≡ rows_named tables.now (S.Store.view store.old).trees name.now) }
    ensures same { IsClean (S.Store.view store.new) →
        OnOk result (IsUnchanged (S.Store.view store.old) (S.Store.view store.new)) }
    ensures quiet { IsQuiet S.Store.view S.Store.faults S.Store.recovers S.Store.is_shielded
        store.old store.new }
{
    let Some((table, tables)) = tables.split_first() else {
        return Ok(Vec::new(alloc));
    };
    if same_name(table.name.as_slice(), name.as_bytes()) {
        let mut work = Workspace::new(alloc);
        return all_rows(store, &mut work, table.tree);
    }
    read_named(alloc, store, tables, name)
}

/// Appends rows, each with its table.
fn append(table: Table, rows: Vec<Row>, moved: &mut Vec<Gathered>) -> Result<(), StoreError>
    ensures { OnOk result (
        moved.new.items ≡ moved.old.items ++ map (λ row. (table, row)) rows.items) }
{
    for row in rows {
        moved.push((table, row))?;
    }
    Ok(())
}

/// Appends the rows that stand under the name of each of the tables `homes`, in order; a table that
/// is missing has none. The error is the store's, or want of memory.
pub(crate) fn gather<S: Store>(
    alloc: Global,
    store: &mut S,
    tables: &[SqlTable],
    homes: &[Table],
    moved: &mut Vec<Gathered>,
) -> Result<(), StoreError>
    ensures rows { IsClean (S.Store.view store.new) → OnOk result (moved.new.items ≡
        moved.old.items
        ++ moved_from homes.now (rows_named tables.now (S.Store.view store.old).trees)) }
    ensures same { IsClean (S.Store.view store.new) →
        OnOk result (IsUnchanged (S.Store.view store.old) (S.Store.view store.new)) }
    ensures quiet { IsQuiet S.Store.view S.Store.faults S.Store.recovers S.Store.is_shielded
        store.old store.new }
{
    let Some((table, homes)) = homes.split_first() else {
        return Ok(());
    };
    let rows = read_named(alloc, store, tables, name_of(*table))?;
    append(*table, rows, moved)?;
    gather(alloc, store, tables, homes, moved)
}
