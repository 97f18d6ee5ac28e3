//! Rows of the office's tables as records: found, put, added and removed, each by one fixed text.

ghost use Rattle.std.specs.Prelude.{get_or, ◌≡◌, ◌++◌, ℕ, true, pos, List, length, Option, None, IfOk, IfSome};
ghost use Rattle.sqlite.specs.{Held.state, Values.bound};
ghost use Rattle.office_tables_shelf.specs.Cells.{Cell, null, number};
ghost use Rattle.office_tables_statements.specs.Stored.{content_now};
ghost use Rattle.office_tables_statements.specs.Calls.{IsHonest, IsOffice, Keeps, StaysOpen};
ghost use Rattle.office_tables_statements.specs.Tables.{put_in, remove_in, key_shown, columns_shown, width_of, key_given, IsKeyOf, IsUnder, ReadsRow, HasDamagedUnder, IsNoRow, IsListText, IsFindText, IsUpdateText, IsInsertText, IsRemoveText, takes, values_of};
ghost use Rattle.office_tables_sql.specs.{Kept.Kept, Kept.keep, Promises.LooksUp, Promises.Turns};

use office_tables_shelf::shelf::ShelfFault;
use office_tables_statements::statement::{SqlFault, select_one, write};
use office_tables_statements::value::ranged_at;
use signal_records::{InterId, NoMemory};
use sqlite::types::ValueRef;
use sqlite::{Alter, Connection, Row, Transaction};
use std::alloc::Global;

/// The statements of SQL on one table, each one fixed text.
#[derive(Clone, Copy)]
pub struct Texts {
    /// The query of the rows of a list, in the order of their keys. Its one parameter is the
    /// intersection, or it has none where it lists all rows.
    pub list: &'static str,
    /// The query of all rows, in the order of their keys.
    pub walk: &'static str,
    /// The query of the row under a key, whose parameters are the cells of the key.
    pub find: &'static str,
    /// The statement that changes the row under a key, if there is one. Its parameters are the
    /// cells of the key, and then the others.
    pub update: &'static str,
    /// The statement that adds a row, by the cells of its key and then the others. The database
    /// refuses it where a row stands under the key.
    pub insert: &'static str,
    /// The statement that removes the row under a key, if there is one.
    pub remove: &'static str,
}

/// The texts of a table: its name, the column by which a list is of one intersection, the filter
/// of a key, the columns of the key, all columns, their parameters, and what a change sets.
macro_rules! texts {
    (
        $table:literal $(of $of:literal)? at $at:literal by $key:literal,
        $columns:literal = $values:literal, $set:literal
    ) => {
        Texts {
            list: concat!(
                "SELECT ", $columns, " FROM ", $table, $(" WHERE ", $of, " = ?1",)?
                " ORDER BY ", $key
            ),
            walk: concat!("SELECT ", $columns, " FROM ", $table, " ORDER BY ", $key),
            find: concat!("SELECT ", $columns, " FROM ", $table, " WHERE ", $at),
            update: concat!("UPDATE ", $table, " SET ", $set, " WHERE ", $at),
            insert: concat!("INSERT INTO ", $table, " (", $columns, ") VALUES (", $values, ")"),
            remove: concat!("DELETE FROM ", $table, " WHERE ", $at),
        }
    };
}

pub(crate) use texts;

/// The parameters of a statement, or a growth that was refused.
pub type Bound<'a> = Result<Vec<ValueRef<'a>>, NoMemory>;

/// A record that one table of the office keeps as a row.
pub trait StoredRow: Sized + Drop {
    /// What records are kept of, so that a list shows all of them: an intersection, or the whole
    /// office.
    type Of: Copy;
    /// How the table keeps them.
    ghost kept: { Kept Self.Of Self };

    /// The statements of SQL on the table.
    fn texts() -> Texts
        ensures list { (of : Self.Of) → IsListText kept.table (kept.whose of) result.list.now }
        ensures walk { IsListText kept.table None result.walk.now }
        ensures find { IsFindText kept.table result.find.now }
        ensures update { IsUpdateText kept.table result.update.now }
        ensures insert { IsInsertText kept.table result.insert.now }
        ensures remove { IsRemoveText kept.table result.remove.now };

    /// The record for which a row stands that the list or the query of a key shows. `Damaged` means
    /// that it stands for none, `NoMemory` that a growth was refused.
    fn read(alloc: Global, of: Self::Of, row: &Row) -> Result<Self, ShelfFault>
        ensures key { IfOk result (λ x. kept.key of x ≡ key_shown kept.table row.now) }
        ensures columns { IfOk result (λ x. kept.columns x ≡ columns_shown kept.table row.now) }
        ensures within { IfOk result kept.is_within }
        ensures damaged { result ≡ Err ShelfFault.Damaged →
            length row.now ≡ width_of kept.table →
            IsNoRow kept.is_within (kept.key of) kept.columns (key_shown kept.table row.now)
            (columns_shown kept.table row.now) };

    /// The parameters of the statements that put the record: the cells of its key, and then the
    /// others. `text` is room for a text that is made for them.
    fn bind<'a>(&'a self, alloc: Global, of: Self::Of, text: &'a mut String) -> Bound<'a>
        ensures bound { IfOk result (λ values. bound values.items
            ≡ values_of (kept.key of self.now ++ kept.columns self.now)) }
        ensures taken { takes kept.table (kept.key of self.now) (kept.columns self.now) ≡ true };
}

/// A record of one intersection, of which a walk shows those of all intersections.
pub trait WalkedRow: StoredRow<Of = InterId> {
    ghost begins: { (id : ℕ) (x : Self) → get_or (Self.kept.key id x) 0 null ≡ number (pos id) };
}

/// A record with the number of its intersection: the list shows those of all intersections.
impl<T: WalkedRow> StoredRow for (InterId, T) {
    ghost use Rattle.office_tables_shelf.specs.CabinetReads.{IsOfOne};

    type Of = ();

    ghost kept = { keep T.kept.table (λ _. None) (λ _ e. T.kept.key e.0 e.1)
        (λ e. T.kept.columns e.1) (IsOfOne T.kept.is_within) };

    fn texts() -> Texts {
        let texts = T::texts();
        Texts {
            list: texts.walk,
            ..texts
        }
    }

    fn read(alloc: Global, _of: (), row: &Row) -> Result<(InterId, T), ShelfFault> {
        let id = ranged_at(row, 0)?;
        let found = T::read(alloc, id, row)?;
        Ok((id, found))
    }

    fn bind<'a>(&'a self, alloc: Global, _of: (), text: &'a mut String) -> Bound<'a> {
        self.1.bind(alloc, self.0, text)
    }
}

/// The record under a key, if there is one. `Damaged` means that what is stored there is no record,
/// `Store` that the database refused, `NoMemory` that a growth was refused.
pub fn find<T: StoredRow, S: Alter>(
    alloc: Global,
    conn: &mut Connection<S>,
    of: T::Of,
    key: &[ValueRef<'_>],
) -> Result<Option<T>, ShelfFault>
    requires office { IsOffice (state S.Store conn.old) }
    requires key { IsKeyOf T.kept.table (bound key.now) }
    ensures read { LooksUp S.Store result (λ tables. ReadsRow T.kept.table (T.kept.key of)
        T.kept.columns tables (key_given T.kept.table (bound key.now)))
        (λ tables. HasDamagedUnder T.kept.table T.kept.is_within (T.kept.key of) T.kept.columns
        tables (key_given T.kept.table (bound key.now))) conn.old conn.new }
    ensures within { IfOk result (λ found. IfSome found T.kept.is_within) }
{
    match under::<T, S>(conn, key)? {
        Some(row) => Ok(Some(T::read(alloc, of, &row)?)),
        None => Ok(None),
    }
}

/// The row that is stored under the key, if there is one, whether or not it is a record.
fn under<T: StoredRow, S: Alter>(
    conn: &mut Connection<S>,
    key: &[ValueRef<'_>],
) -> Result<Option<Row>, SqlFault>
    requires office { IsOffice (state S.Store conn.old) }
    requires key { IsKeyOf T.kept.table (bound key.now) }
    ensures found { IsHonest (state S.Store conn.new) → IfOk result (IsUnder T.kept.table
        (content_now (state S.Store conn.old)) (key_given T.kept.table (bound key.now))) }
    ensures kept { Keeps (state S.Store conn.old) (state S.Store conn.new) }
    ensures open { StaysOpen result (state S.Store conn.new) }
{
    select_one(conn, T::texts().find, key)
}

/// Puts a row by its parameters, the cells of its key and then the others: changes the row that is
/// under the key, or adds one. `Store` means that the database refused, `NoMemory` that a growth
/// was refused.
pub fn put_values<T: StoredRow, S: Alter>(
    tx: &mut Transaction<'_, S>,
    values: &[ValueRef<'_>],
) -> Result<(), SqlFault>
    ensures { (key columns : List Cell) → takes T.kept.table key columns ≡ true →
        bound values.now ≡ values_of (key ++ columns) →
        Turns S.Store result (λ tables. put_in tables T.kept.table key columns) tx.old tx.new }
{
    let texts = T::texts();
    let changed = write(tx, texts.update, values)?;
    if changed > 0 {
        return Ok(());
    }
    write(tx, texts.insert, values)?;
    Ok(())
}

/// Puts a record under its key, by `put_values`.
pub fn put<T: StoredRow, S: Alter>(
    alloc: Global,
    tx: &mut Transaction<'_, S>,
    of: T::Of,
    row: &T,
) -> Result<(), SqlFault>
    ensures { Turns S.Store result (λ tables. put_in tables T.kept.table
        (T.kept.key of row.now) (T.kept.columns row.now)) tx.old tx.new }
{
    let mut text = String::new(alloc);
    let values = row.bind(alloc, of, &mut text)?;
    put_values::<T, S>(tx, values.as_slice())
}

/// Adds a record that is new. `Store` means that the database refused, as it does where a row
/// stands under the key, `NoMemory` that a growth was refused.
pub fn add<T: StoredRow, S: Alter>(
    alloc: Global,
    tx: &mut Transaction<'_, S>,
    of: T::Of,
    row: &T,
) -> Result<(), SqlFault>
    ensures { Turns S.Store result (λ tables. put_in tables T.kept.table
        (T.kept.key of row.now) (T.kept.columns row.now)) tx.old tx.new }
{
    let mut text = String::new(alloc);
    let values = row.bind(alloc, of, &mut text)?;
    write(tx, T::texts().insert, values.as_slice())?;
    Ok(())
}

/// Removes the row under the key, if there is one. `Store` means that the database refused,
/// `NoMemory` that a growth was refused.
pub fn remove<T: StoredRow, S: Alter>(
    tx: &mut Transaction<'_, S>,
    key: &[ValueRef<'_>],
) -> Result<(), SqlFault>
    requires { IsKeyOf T.kept.table (bound key.now) }
    ensures { Turns S.Store result (λ tables. remove_in tables T.kept.table
        (key_given T.kept.table (bound key.now))) tx.old tx.new }
{
    write(tx, T::texts().remove, key)?;
    Ok(())
}
