//! Opening the tables of the office.

ghost use Rattle.std.specs.Prelude.{◌≡◌, true, false, map, Ok, Err, IsTrue, OnOk};
ghost use Rattle.sqlite.specs.{State.HasCleanDisk, Held.state};
ghost use Rattle.office_tables_shelf.specs.Content.{no_content};
ghost use Rattle.office_tables_statements.specs.Calls.{IsHonest, StandsOn};
ghost use Rattle.office_tables.specs.{Moved.all_put, Arranged.IsArrangedIfClean};
ghost use Rattle.office_tables.specs.Opening.{AreOurs, AreRun, Prepares, TurnsToday, WritesToday};
ghost use Rattle.office_tables_sql.specs.Promises.{IsSettled};

use crate::foreign::{has_only_ours, read_again};
use crate::gather::Gathered;
use crate::refill::put_all;
use crate::version::{VERSION, renew_version, stored_version};
use office_tables_shelf::shelf::ShelfFault;
use office_tables_statements::schema::{CREATES, is_office};
use office_tables_statements::statement::SqlFault;
use sqlite::{Alter, Connection, Transaction};
use std::alloc::Global;

/// Why the tables of a database were not opened, or not brought from version 1 to today's version.
#[derive(Clone, Copy, Debug, PartialEq, Eq)]
pub enum OpenFault {
    /// Another version than today's is stored. Of a migration: neither today's version nor version
    /// 1 is stored.
    Version,
    /// No version is stored, and a table has a row. Of a migration: a row of `timing` or `draft` is
    /// none of version 1.
    Damaged,
    /// The database refused, or it has other tables or a view, or a version in tables of another
    /// layout, or a transaction is under way.
    Store,
    /// A growth was refused.
    NoMemory,
}

impl From<SqlFault> for OpenFault {
    ghost use Rattle.std.specs.Prelude.{◌≢◌};
    ghost use Rattle.office_tables.specs.declared.open.OpenFault.TheVariants as open_fault;

    ghost from_gives = { λ _ fault. (fault ≢ open_fault.Version) × (fault ≢ open_fault.Damaged) };

    fn from(fault: SqlFault) -> OpenFault {
        OpenFault::from(ShelfFault::from(fault))
    }
}

impl From<ShelfFault> for OpenFault {
    ghost use Rattle.std.specs.Prelude.{◌≡◌, ◌≢◌};
    ghost use Rattle.office_tables.specs.declared.open.OpenFault.TheVariants as open_fault;
    ghost use Rattle.office_tables_shelf.specs.declared.shelf.ShelfFault.TheVariants as shelf;

    ghost from_gives = { λ why fault.
        (fault ≢ open_fault.Version) × (fault ≡ open_fault.Damaged → why ≡ shelf.Damaged) };

    fn from(fault: ShelfFault) -> OpenFault {
        match fault {
            ShelfFault::NoMemory => OpenFault::NoMemory,
            ShelfFault::Store => OpenFault::Store,
            ShelfFault::Damaged => OpenFault::Damaged,
        }
    }
}

/// The statements that drop the office's nine tables, those first that refer to others.
const DROPS: [&str; 9] = [
    "DROP TABLE IF EXISTS used_part",
    "DROP TABLE IF EXISTS delivery",
    "DROP TABLE IF EXISTS work_order",
    "DROP TABLE IF EXISTS inspection",
    "DROP TABLE IF EXISTS draft",
    "DROP TABLE IF EXISTS timing",
    "DROP TABLE IF EXISTS part",
    "DROP TABLE IF EXISTS intersection",
    "DROP TABLE IF EXISTS office_version",
];

/// Runs the statements one after another, up to the first that fails.
fn run_all<S: Alter>(tx: &mut Transaction<'_, S>, texts: &[&str]) -> Result<(), SqlFault>
    ensures same_reference { tx.new.conn.ghost_name ≡ tx.old.conn.ghost_name }
    ensures stands { StandsOn (state S.Store tx.old.conn.now) (state S.Store tx.new.conn.now) }
    ensures run { HasCleanDisk (state S.Store tx.new.conn.now) →
        tx.old.conn.now.in_transaction ≡ true →
        OnOk result (AreRun S.Store (map (λ text. text.now) texts.now)
        tx.old.conn.now tx.new.conn.now) }
{
    let Some((sql, texts)) = texts.split_first() else {
        return Ok(());
    };
    tx.execute(sql, &[])?;
    run_all(tx, texts)
}

/// Drops the office's tables, makes all of them in the order of their numbers, puts the rows into
/// them, and stores today's version.
fn make_again<S: Alter>(
    alloc: Global,
    tx: &mut Transaction<'_, S>,
    rows: Vec<Gathered>,
) -> Result<(), SqlFault>
    ensures { TurnsToday S.Store result (λ s. IsTrue s.in_transaction × AreOurs s.now)
        (all_put no_content rows.items) tx.old tx.new }
{
    run_all(tx, &DROPS)?;
    run_all(tx, &CREATES)?;
    put_all(alloc, tx, rows)?;
    renew_version(tx)?;
    Ok(())
}

/// Makes the office's tables again with these rows, in one transaction: all of it, or nothing.
fn make_tables<S: Alter>(
    alloc: Global,
    conn: &mut Connection<S>,
    rows: Vec<Gathered>,
) -> Result<(), SqlFault>
    requires autocommit { (state S.Store conn.old).in_transaction ≡ false }
    requires ours { IsHonest (state S.Store conn.old) → AreOurs (state S.Store conn.old).now }
    ensures { WritesToday result (all_put no_content rows.items)
        (state S.Store conn.old) (state S.Store conn.new) }
{
    let mut tx = conn.transaction();
    make_again(alloc, &mut tx, rows)?;
    tx.commit()?;
    Ok(())
}

/// What is left of a database whose tables were refused: its connection, or its store where the
/// database was to be checked again and was not.
pub type Left<S> = Result<Connection<S>, S>;

/// Why tables were refused, and what is left of the database.
pub type Refused<S> = (OpenFault, Left<S>);

/// The tables of a database, which are made again with the rows that they have and today's version.
/// It does so where today's version is stored in tables that are the office's but for their
/// numbers, or where no version is stored and no table has a row; else it refuses.
fn made_again<S: Alter + Drop>(
    alloc: Global,
    conn: Connection<S>,
) -> Result<Connection<S>, Refused<S>>
    requires { IsSettled (state S.Store conn) }
    ensures { Prepares S.Store conn result }
{
    let (found, mut conn) = match read_again(alloc, conn) {
        Ok(read) => read,
        Err((fault, store)) => return Err((OpenFault::from(fault), Err(store))),
    };
    let rows = match found {
        Ok(rows) => rows,
        Err(why) => return Err((why, Ok(conn))),
    };
    if !has_only_ours(conn.schema()) {
        return Err((OpenFault::Store, Ok(conn)));
    }
    match make_tables(alloc, &mut conn, rows) {
        Ok(()) => Ok(conn),
        Err(fault) => Err((OpenFault::from(fault), Ok(conn))),
    }
}

/// The tables of the office in a database whose rows are known to be in order, as a shelf opens
/// them.
pub(crate) fn prepare<S: Alter + Drop>(
    alloc: Global,
    mut conn: Connection<S>,
) -> Result<Connection<S>, Refused<S>>
    requires { IsArrangedIfClean (state S.Store conn) }
    ensures prepares { Prepares S.Store conn result }
    ensures under_way { (state S.Store conn).in_transaction ≡ true →
        result ≡ Err (OpenFault.Store, Ok conn) }
{
    if !conn.is_autocommit() {
        return Err((OpenFault::Store, Ok(conn)));
    }
    if !is_office(conn.schema()) {
        if has_only_ours(conn.schema()) {
            return made_again(alloc, conn);
        }
        return Err((OpenFault::Store, Ok(conn)));
    }
    match stored_version(&mut conn) {
        Ok(Some(VERSION)) => Ok(conn),
        Ok(_) => made_again(alloc, conn),
        Err(fault) => Err((OpenFault::from(fault), Ok(conn))),
    }
}
