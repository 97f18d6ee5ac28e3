//! Version 1 of the tables brought to today's version.

ghost use Rattle.std.specs.Prelude.{◌≡◌, false, IfOk, IsTrue};
ghost use Rattle.sqlite.specs.{State.HasCleanDisk, Held.state};
ghost use Rattle.office_tables_statements.specs.{Stored.content_now, Calls.IsOffice, Calls.IsReady, Calls.StandsOn};
ghost use Rattle.office_tables.specs.{Migrate.AreNeither, Migrate.Migrates, Migrate.ShowsNeither, Arranged.IsArrangedIfClean, Opening.TurnsToday, Opening.WritesToday};
ghost use Rattle.office_tables_shelf.specs.Change.{changed_by};

use crate::foreign::KEEPER;
use crate::open::OpenFault;
use crate::rewritten::{DRAFT, Migrated, Spelled, TIMING, put_former};
use crate::sql_shelf::SqlShelf;
use crate::version::{FIND, FIRST_VERSION, VERSION, renew_version, stored_version};
use office_tables_shelf::rows::RowChange;
use office_tables_sql::change::change_rows;
use office_tables_statements::schema::is_office;
use office_tables_statements::statement::SqlFault;
use sqlite::{Alter, Connection, Row as SqlRow, Transaction, params};
use std::alloc::Global;

/// Makes the changes, and stores today's version in the place of the one that is stored.
fn write_in<S: Alter>(
    alloc: Global,
    tx: &mut Transaction<'_, S>,
    changes: &[RowChange],
) -> Result<(), SqlFault>
    ensures { TurnsToday S.Store result IsReady
        (changed_by (content_now (state S.Store tx.old.conn.now)) changes.now) tx.old tx.new }
{
    change_rows(alloc, tx, changes)?;
    renew_version(tx)?;
    Ok(())
}

/// Makes the changes and stores today's version in the place of the one that is stored, all or
/// none.
fn write_anew<S: Alter>(
    alloc: Global,
    conn: &mut Connection<S>,
    changes: &[RowChange],
) -> Result<(), SqlFault>
    requires { IsOffice (state S.Store conn.old) }
    ensures { WritesToday result (changed_by (content_now (state S.Store conn.old)) changes.now)
        (state S.Store conn.old) (state S.Store conn.new) }
{
    let mut tx = conn.transaction();
    write_in(alloc, &mut tx, changes)?;
    tx.commit()?;
    Ok(())
}

/// Brings the tables of the office from version 1 to today's version, as `migrate` does. `Damaged`
/// means that a row of `timing` or `draft` is none of version 1.
fn spell_anew<S: Alter>(alloc: Global, conn: &mut Connection<S>) -> Result<Migrated, OpenFault>
    requires { IsOffice (state S.Store conn.old) }
    ensures { Migrates S.Store result conn.old conn.new }
{
    match stored_version(conn)? {
        Some(FIRST_VERSION) => {}
        Some(VERSION) => {
            return Ok(Migrated {
                timing: 0,
                draft: 0,
            });
        }
        _ => return Err(OpenFault::Version),
    }
    let mut changes = Vec::new(alloc);
    put_former(alloc, conn, Spelled::Timing, TIMING, &mut changes)?;
    let timing = changes.len();
    put_former(alloc, conn, Spelled::Draft, DRAFT, &mut changes)?;
    write_anew(alloc, conn, changes.as_slice())?;
    let draft = changes.len() - timing;
    Ok(Migrated { timing, draft })
}

/// Whether the first of these rows, which a query of the stored version shows, holds neither
/// today's version nor version 1. It is so where there is no row.
fn are_neither(rows: &[SqlRow]) -> Result<bool, SqlFault>
    ensures { IfOk result (λ neither. IsTrue neither → AreNeither rows.now) }
{
    let Some(row) = rows.first() else {
        return Ok(true);
    };
    let number: i64 = row.get(0)?;
    Ok(number != VERSION && number != FIRST_VERSION)
}

/// Whether SQL shows neither today's version nor version 1, in tables of whatever layout.
fn shows_neither<S: Alter>(conn: &mut Connection<S>) -> Result<bool, SqlFault>
    requires { (state S.Store conn.old).in_transaction ≡ false }
    ensures neither { HasCleanDisk (state S.Store conn.new) →
        IfOk result (λ neither. IsTrue neither → ShowsNeither S.Store conn.old) }
    ensures stands { StandsOn (state S.Store conn.old) (state S.Store conn.new) }
    ensures idle { (state S.Store conn.new).in_transaction ≡ false }
{
    let mut tx = conn.transaction();
    let rows = tx.query_all(FIND, params![1u32])?;
    tx.rollback();
    are_neither(rows.as_slice())
}

impl<S: Alter> SqlShelf<S> {
    /// Brings the tables of a database from version 1 to today's version, all or none: each row of
    /// `timing` and `draft` is spelled as it is today, and today's version is stored. On tables of
    /// today's version it changes nothing. It gives how many rows it wrote anew.
    ///
    /// Where it refuses, the tables are as they were; `Version` is told whatever their layout. What
    /// is stored in other tables is not looked at. The rows have to be known to be in order, as
    /// those of files that were just opened are.
    pub fn migrate(alloc: Global, conn: &mut Connection<S>) -> Result<Migrated, OpenFault>
        requires { IsArrangedIfClean (state S.Store conn.old) }
        ensures { Migrates S.Store result conn.old conn.new }
    {
        if !conn.is_autocommit() {
            return Err(OpenFault::Store);
        }
        if is_office(conn.schema()) {
            return spell_anew(alloc, conn);
        }
        let is_kept = conn.schema().table_named(KEEPER.as_bytes()).is_some();
        if !is_kept || shows_neither(conn)? {
            return Err(OpenFault::Version);
        }
        Err(OpenFault::Store)
    }
}
