//! Rows put into the tables of the office again.

ghost use Rattle.std.specs.Prelude.{◌≡◌, map, IsTrue, true, IfOk};
ghost use Rattle.sqlite.specs.{Held.state, Order.column, Values.bound, Values.bound_value};
ghost use Rattle.sqlite_value.specs.Value.{owned};
ghost use Rattle.office_tables_statements.specs.{Calls.StandsOn, Calls.TurnsTo, Tables.suit, Tables.suits_kind, Tables.places_of as places_in, Wanted.column_wanted};
ghost use Rattle.office_tables_statements.specs.Stored.{are_sound, cell_of, cells_at, content_now};
ghost use Rattle.office_tables.specs.Moved.{row_put, all_put};

use crate::gather::Gathered;
use office_tables_shelf::rows::Table;
use office_tables_sql::change::insert_of;
use office_tables_statements::parts::WantedColumn;
use office_tables_statements::statement::{SqlFault, write};
use office_tables_statements::tables::{columns_of, keys_of};
use signal_records::NoMemory;
use sqlite::types::ValueRef;
use sqlite::{Alter, Transaction};
use sqlite_schema::schema::Kind;
use sqlite_value::row::Row;
use std::alloc::Global;

/// The places of all columns of a table in a stored row, in their order. The rowid is at place 0:
/// it is the key of an intersection, and no column of the other tables.
fn places_of(table: Table) -> &'static [usize]
    ensures { result.now ≡ places_in table }
{
    match table {
        Table::Intersection => &[0, 2, 3, 4, 5, 6],
        Table::Timing | Table::Draft | Table::Inspection => &[1, 2, 3, 4, 5],
        Table::WorkOrder => &[1, 2, 3, 4, 5, 6, 7],
        Table::Part => &[1, 2],
        Table::Delivery => &[1, 2, 3, 4],
        Table::UsedPart => &[1, 2, 3, 4, 5],
    }
}

fn suits(value: ValueRef<'_>, kind: Kind) -> bool
    ensures { IsTrue result → suits_kind kind (cell_of (owned value.entry)) ≡ true }
{
    match value {
        ValueRef::Null => kind == Kind::Integer || kind == Kind::Text,
        ValueRef::Int(_) => kind == Kind::Integer,
        ValueRef::Text(_) => kind == Kind::Text,
        _ => false,
    }
}

/// Whether columns take, as they are, the values that stand at these places of a row.
fn suit(row: &Row, places: &[usize], columns: &[WantedColumn<'_>]) -> bool
    ensures { IsTrue result →
        suit (map column_wanted columns.now) (cells_at places.now row.now) ≡ true }
{
    let Some((column, columns)) = columns.split_first() else {
        return true;
    };
    let Some((place, places)) = places.split_first() else {
        return true;
    };
    suits(row.get(*place), column.1) && suit(row, places, columns)
}

/// The values that stand at these places of a row, in the order of the places.
fn values_of<'a>(
    alloc: Global,
    row: &'a Row,
    places: &[usize],
) -> Result<Vec<ValueRef<'a>>, NoMemory>
    ensures { IfOk result (λ values.
        bound values.items ≡ map (λ p. bound_value (column row.now p)) places.now) }
{
    let mut values = Vec::new(alloc);
    for place in places {
        values.push(row.get(*place))?;
    }
    Ok(values)
}

/// Whether there is an integer or a text at each of these places of a row.
fn are_told(row: &Row, places: &[usize]) -> bool
    ensures { result ≡ are_sound places.now row.now }
{
    places.iter().all(|place| matches!(row.get(*place), ValueRef::Int(_) | ValueRef::Text(_)))
}

/// Puts a stored row into its table again, with the values that it had. `Store` means that the
/// database refused, or that a value of the key is neither integer nor text, or that a column does
/// not take a value.
fn put_row<S: Alter>(
    alloc: Global,
    tx: &mut Transaction<'_, S>,
    table: Table,
    row: &Row,
) -> Result<(), SqlFault>
    ensures same_reference { tx.new.conn.ghost_name ≡ tx.old.conn.ghost_name }
    ensures put { TurnsTo result
        (row_put (content_now (state S.Store tx.old.conn.now)) (table, row.now))
        (state S.Store tx.old.conn.now) (state S.Store tx.new.conn.now) }
    ensures stands { StandsOn (state S.Store tx.old.conn.now) (state S.Store tx.new.conn.now) }
{
    let places = places_of(table);
    if !are_told(row, keys_of(table)) || !suit(row, places, columns_of(table)) {
        return Err(SqlFault::Store);
    }
    let values = values_of(alloc, row, places)?;
    write(tx, insert_of(table), values.as_slice())?;
    Ok(())
}

/// Puts stored rows into their tables again, from the last one to the first: the rows that others
/// refer to stand at the end of the list.
pub(crate) fn put_all<S: Alter>(
    alloc: Global,
    tx: &mut Transaction<'_, S>,
    mut rows: Vec<Gathered>,
) -> Result<(), SqlFault>
    ensures same_reference { tx.new.conn.ghost_name ≡ tx.old.conn.ghost_name }
    ensures put { TurnsTo result (all_put (content_now (state S.Store tx.old.conn.now)) rows.items)
        (state S.Store tx.old.conn.now) (state S.Store tx.new.conn.now) }
    ensures stands { StandsOn (state S.Store tx.old.conn.now) (state S.Store tx.new.conn.now) }
{
    while let Some((table, row)) = rows.pop() {
        put_row(alloc, tx, table, &row)?;
    }
    Ok(())
}
