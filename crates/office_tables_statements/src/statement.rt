//! Statements of SQL, each a fixed text over the tables of the office.

ghost use Rattle.std.specs.Prelude.{◌≡◌, IfOk, OnOk};
ghost use Rattle.std.specs.Option.{option_to_list};
ghost use Rattle.sqlite.specs.{Values.bound, State.HasCleanDisk, Held.state};
ghost use Rattle.office_tables_statements.specs.Calls.{IsHonest, IsOffice, IsStatement, Keeps, Reads, Ran, StandsOn, StaysOpen};

use office_tables_shelf::shelf::ShelfFault;
use signal_records::NoMemory;
use sqlite::types::ValueRef;
use sqlite::{Alter, Connection, Error, ErrorCode, Row, Transaction};

/// Why a statement was not run.
#[derive(Clone, Copy)]
pub enum SqlFault {
    /// A growth was refused.
    NoMemory,
    /// The database refused, for whatever other reason.
    Store,
}

impl From<Error> for SqlFault {
    fn from(error: Error) -> SqlFault {
        match error {
            Error::SqliteFailure(ErrorCode::OutOfMemory) => SqlFault::NoMemory,
            _ => SqlFault::Store,
        }
    }
}

impl From<NoMemory> for SqlFault {
    fn from(_refused: NoMemory) -> SqlFault {
        SqlFault::NoMemory
    }
}

impl From<SqlFault> for ShelfFault {
    ghost use Rattle.std.specs.Prelude.{◌≢◌};
    ghost use Rattle.office_tables_shelf.specs.declared.shelf.ShelfFault.TheVariants.{Damaged};

    ghost from_gives = { λ _ fault. fault ≢ Damaged };

    fn from(fault: SqlFault) -> ShelfFault {
        match fault {
            SqlFault::NoMemory => ShelfFault::NoMemory,
            SqlFault::Store => ShelfFault::Store,
        }
    }
}

/// All rows of the answer to a query, in its order. `Store` means that the database refused,
/// `NoMemory` that a growth was refused.
pub fn select<S: Alter>(
    conn: &mut Connection<S>,
    sql: &str,
    params: &[ValueRef<'_>],
) -> Result<Vec<Row>, SqlFault>
    requires office { IsOffice (state S.Store conn.old) }
    requires query { IsStatement sql.now }
    ensures rows { IsHonest (state S.Store conn.new) → IfOk result (λ rows.
        Reads sql.now (bound params.now) (state S.Store conn.old).now rows.items) }
    ensures kept { Keeps (state S.Store conn.old) (state S.Store conn.new) }
    ensures open { StaysOpen result (state S.Store conn.new) }
{
    let rows = conn.query_all(sql, params)?;
    Ok(rows)
}

/// The row of the answer to a query, if there is one. `Store` means that the database refused, or
/// that there are more, `NoMemory` that a growth was refused.
pub fn select_one<S: Alter>(
    conn: &mut Connection<S>,
    sql: &str,
    params: &[ValueRef<'_>],
) -> Result<Option<Row>, SqlFault>
    requires office { IsOffice (state S.Store conn.old) }
    requires query { IsStatement sql.now }
    ensures row { IsHonest (state S.Store conn.new) → IfOk result (λ row.
        Reads sql.now (bound params.now) (state S.Store conn.old).now (option_to_list row)) }
    ensures kept { Keeps (state S.Store conn.old) (state S.Store conn.new) }
    ensures open { StaysOpen result (state S.Store conn.new) }
{
    let mut rows = select(conn, sql, params)?;
    if rows.len() > 1 {
        return Err(SqlFault::Store);
    }
    Ok(rows.pop())
}

/// Runs one write in a transaction, and answers how many rows it changed. `Store` means that the
/// database refused, `NoMemory` that a growth was refused.
pub fn write<S: Alter>(
    tx: &mut Transaction<'_, S>,
    sql: &str,
    params: &[ValueRef<'_>],
) -> Result<usize, SqlFault>
    requires { IsStatement sql.now }
    ensures same_reference { tx.new.conn.ghost_name ≡ tx.old.conn.ghost_name }
    ensures ran { HasCleanDisk (state S.Store tx.new.conn.now) → IfOk result
        (Ran sql.now (bound params.now) (state S.Store tx.old.conn.now)
        (state S.Store tx.new.conn.now)) }
    ensures honest { HasCleanDisk (state S.Store tx.new.conn.now) →
        OnOk result (IsHonest (state S.Store tx.old.conn.now)) }
    ensures stands { StandsOn (state S.Store tx.old.conn.now) (state S.Store tx.new.conn.now) }
{
    let count = tx.execute(sql, params)?;
    Ok(count)
}
