//! What a database holds whose tables are the office's in another layout.

ghost use Rattle.std.specs.Prelude.{◌≡◌, ◌≢◌, ◌≤◌, ◌∷◌, Some, [], map, pos, IsTrue, IfOk, IfErr, IfSome, OnOk, MatchResult};
ghost use Rattle.std.specs.List.{AllByRecursion};
ghost use Rattle.sqlite.specs.{Held.Held, Held.state, State.HasCleanDisk, Steps.IsFresh};
ghost use Rattle.sqlite_trees.specs.View.{IsClean, IsQuiet, doubt};
ghost use Rattle.sqlite_value.specs.{Value.owned, declared.value.Value.TheVariants.Int};
ghost use Rattle.office_tables_shelf.specs.Cells.{number};
ghost use Rattle.office_tables.specs.Arranged.{IsUnchanged};
ghost use Rattle.office_tables.specs.Foreign.{IsOurs, IsVersionKeeper, KeepVersion, Tell};
ghost use Rattle.office_tables.specs.Opening.{ChecksAgain, FindsTables, FindsIn, IsAsFound, IsCheckedAgain, IsTaken};
ghost use Rattle.office_tables_sql.specs.{Promises.IsSettled, Version.version_of};

use crate::gather::{CHILDREN_FIRST, Gathered, gather, read_named};
use crate::open::OpenFault;
use crate::version::VERSION;
use office_tables_statements::schema::{are_of_office, is_name};
use office_tables_statements::statement::SqlFault;
use sqlite::{Alter, Connection};
use sqlite_schema::names::same_name;
use sqlite_schema::schema::{Column, Schema, Table};
use sqlite_trees::error::StoreError;
use sqlite_trees::store::Store;
use sqlite_value::row::Row;
use sqlite_value::value::ValueRef;
use std::alloc::Global;

/// The name of the table that keeps the version.
pub const KEEPER: &str = "office_version";

/// The columns of `office_version`: the number 1, which is its rowid, and the version.
const COLUMNS: [&str; 2] = ["one", "version"];

/// Whether each table of a database has one of the office's nine names, and there is no view.
/// Tables may be missing, and their columns are not looked at.
pub fn has_only_ours(schema: &Schema) -> bool
    ensures named { IsTrue result → AllByRecursion (λ t. IsOurs t.name) schema.now.tables }
    ensures no_views { IsTrue result → schema.now.views ≡ [] }
{
    let tables = schema.tables.as_slice();
    schema.views.is_empty() && tables.iter().all(|table| is_name(table.name.as_slice()))
}

fn are_named(columns: &[Column], names: &[&str]) -> bool
    ensures { IsTrue result → map (λ c. c.name) columns.now ≡ map (λ text. text.now) names.now }
{
    let Some((column, columns)) = columns.split_first() else {
        return names.is_empty();
    };
    let Some((name, names)) = names.split_first() else {
        return false;
    };
    column.name.as_slice() == name.as_bytes() && are_named(columns, names)
}

/// Whether a table has the two columns of `office_version`, of which `one` is the rowid.
fn keeps_version(table: &Table) -> bool
    ensures { IsTrue result → IsVersionKeeper table.now }
{
    table.key == Some(0) && are_named(table.columns.as_slice(), &COLUMNS)
}

/// Whether each table that is named `office_version`, as SQL compares names, has the columns that
/// keep a version.
fn keep_version(tables: &[Table]) -> bool
    ensures { IsTrue result → KeepVersion tables.now }
{
    tables.iter().all(|table| {
        let is_keeper = same_name(table.name.as_slice(), KEEPER.as_bytes());
        !is_keeper || keeps_version(table)
    })
}

fn is_one(value: ValueRef<'_>) -> bool
    ensures one { IsTrue result → owned value.entry ≡ Int (pos 1) }
    ensures other { ¬ IsTrue result → owned value.entry ≢ Int (pos 1) }
{
    match value {
        ValueRef::Int(number) => number == 1,
        _ => false,
    }
}

/// The number that a value is, if it is an integer.
fn number_of(value: ValueRef<'_>) -> Option<i64>
    ensures { IfSome result (λ number. owned value.entry ≡ Int number) }
{
    match value {
        ValueRef::Int(number) => Some(number),
        _ => None,
    }
}

/// The number that stored rows of `office_version` keep as the version: none where no row has the
/// number 1 as its rowid, or the version of the first that has it is no integer.
fn stored_number(rows: &[Row]) -> Option<i64>
    ensures { IfSome result (λ stored. version_of rows.now ≡ Some (number stored ∷ [])) }
{
    for row in rows {
        if is_one(row.get(0)) {
            return number_of(row.get(2));
        }
    }
    None
}

/// Why tables are not made anew, by the rows of `office_version` and those of the office's eight
/// other tables: `Damaged` where the eight have a row and there is no version, `Version` where
/// another version than today's is stored, `Store` where `office_version` has other columns or
/// stores no number, or the tables are not the office's. None where they may be made.
fn refusal(tables: &[Table], version: &[Row], eight: &[Gathered]) -> Option<OpenFault>
    ensures { Tell result tables.now version.now eight.now }
{
    if version.is_empty() {
        if eight.is_empty() {
            return None;
        }
        return Some(OpenFault::Damaged);
    }
    if !keep_version(tables) {
        return Some(OpenFault::Store);
    }
    let Some(number) = stored_number(version) else {
        return Some(OpenFault::Store);
    };
    if number != VERSION {
        return Some(OpenFault::Version);
    }
    if !are_of_office(tables) {
        return Some(OpenFault::Store);
    }
    None
}

/// The rows of tables that may be made anew, or why they are not.
pub(crate) type Looked = Result<Vec<Gathered>, OpenFault>;

/// Reads the rows of `office_version` and of the office's eight other tables: gives those of the
/// eight, if they may be made anew, or why not. The error is the store's, or want of memory.
fn look<S: Store>(alloc: Global, store: &mut S, tables: &[Table]) -> Result<Looked, StoreError>
    ensures finds { IsClean (S.Store.view store.new) →
        IfOk result (FindsIn tables.now (S.Store.view store.old).trees) }
    ensures same { IsClean (S.Store.view store.new) →
        OnOk result (IsUnchanged (S.Store.view store.old) (S.Store.view store.new)) }
    ensures quiet { IsQuiet S.Store.view S.Store.faults S.Store.recovers S.Store.is_shielded
        store.old store.new }
{
    let version = read_named(alloc, store, tables, KEEPER)?;
    let mut eight = Vec::new(alloc);
    gather(alloc, store, tables, &CHILDREN_FIRST, &mut eight)?;
    match refusal(tables, version.as_slice(), eight.as_slice()) {
        None => Ok(Ok(eight)),
        Some(why) => Ok(Err(why)),
    }
}

/// The store of a connection that is given up, as the last commit left it. It is the error where a
/// failure has broken it.
fn store_of<S: Alter + Drop>(conn: Connection<S>) -> Result<S, (SqlFault, S)>
    ensures taken { IfOk result (IsTaken S.Store conn) }
    ensures left { IfErr result (λ e. IsAsFound S.Store conn e.1) }
{
    let store = conn.into_store();
    if store.is_broken() {
        return Err((SqlFault::Store, store));
    }
    Ok(store)
}

/// Opens a store once more, which reads and checks the whole database.
fn open_again<S: Alter + Drop>(alloc: Global, store: S) -> Result<Connection<S>, (SqlFault, S)>
    requires { IsClean (S.Store.view store) → IsFresh (S.Store.view store) }
    ensures clean { IfOk result (λ c.
        doubt (S.Store.view store).is_clean ≤ doubt (state S.Store c).is_clean) }
    ensures again { (conn : Held S) → IsTaken S.Store conn store →
        ChecksAgain S.Store conn result }
{
    match Connection::over(alloc, store) {
        Ok(conn) => Ok(conn),
        Err((error, store)) => Err((SqlFault::from(error), store)),
    }
}

/// Opens the store of a connection once more, which reads and checks the whole database, so that
/// each tree is known to hold what the database's own list of tables and indexes says. What was not
/// committed is gone. Where this is refused, the fault comes with the store: `NoMemory` where a
/// growth was refused, else `Store`.
pub fn check_again<S: Alter + Drop>(
    alloc: Global,
    conn: Connection<S>,
) -> Result<Connection<S>, (SqlFault, S)>
    ensures { ChecksAgain S.Store conn result }
{
    open_again(alloc, store_of(conn)?)
}

fn fault_of(error: StoreError) -> SqlFault {
    match error {
        StoreError::OutOfMemory => SqlFault::NoMemory,
        _ => SqlFault::Store,
    }
}

/// Reads the rows of a connection's tables, and opens its store once more, which checks the whole
/// database: the rows of the office's eight tables beside `office_version`, if these may be made
/// anew, or why not, with the new connection. Where the database is refused, the fault comes with
/// the store: `NoMemory` where a growth was refused, else `Store`.
pub(crate) fn read_again<S: Alter + Drop>(
    alloc: Global,
    conn: Connection<S>,
) -> Result<(Looked, Connection<S>), (SqlFault, S)>
    requires { IsSettled (state S.Store conn) }
    ensures again { MatchResult result (λ f. IsCheckedAgain S.Store conn f.1)
        (λ e. IsAsFound S.Store conn e.1) }
    ensures finds { IfOk result (λ f. HasCleanDisk (state S.Store f.1) →
        FindsTables f.0 (state S.Store conn).committed.trees) }
{
    let copied = conn.schema().copy(alloc);
    let mut store = store_of(conn)?;
    let Ok(schema) = copied else {
        return Err((SqlFault::NoMemory, store));
    };
    let found = match look(alloc, &mut store, schema.tables.as_slice()) {
        Ok(found) => found,
        Err(error) => return Err((fault_of(error), store)),
    };
    let conn = open_again(alloc, store)?;
    Ok((found, conn))
}
