//! The version that a database stores: how it is read and written.

ghost use Rattle.std.specs.Prelude.{◌≡◌, [], ◌∷◌, IfOk};
ghost use Rattle.std.specs.Option.{option_map};
ghost use Rattle.sqlite.specs.Held.{state};
ghost use Rattle.office_tables_shelf.specs.Cells.{number};
ghost use Rattle.office_tables_statements.specs.Stored.{content_now};
ghost use Rattle.office_tables_statements.specs.Calls.{IsHonest, IsOffice, IsReady, Keeps, StaysOpen};
ghost use Rattle.office_tables_sql.specs.Version.{version_in};
ghost use Rattle.office_tables.specs.Opening.{TurnsToday};

use office_tables_statements::statement::{SqlFault, select_one, write};
use sqlite::{Alter, Connection, Transaction, params};

/// Today's version of the tables, whose rows are those of today's grammar.
pub const VERSION: i64 = 2;

/// The first version, whose rows are those of the grammar without a lead.
pub const FIRST_VERSION: i64 = 1;

/// The query of the stored version, whose one parameter is the number 1.
pub const FIND: &str = "SELECT version FROM office_version WHERE one = ?1";

const DROP: &str = "DELETE FROM office_version WHERE one = ?1";

const PUT: &str = "INSERT INTO office_version (one, version) VALUES (?1, ?2)";

/// The number of the stored version; none where no version is stored. `Store` means that the
/// database refused, or that what is stored is no integer, `NoMemory` that a growth was refused.
pub fn stored_version<S: Alter>(conn: &mut Connection<S>) -> Result<Option<i64>, SqlFault>
    requires { IsOffice (state S.Store conn.old) }
    ensures found { IsHonest (state S.Store conn.new) → IfOk result (λ version.
        option_map (λ n. number n ∷ []) version ≡ version_in (state S.Store conn.old).now.trees) }
    ensures open { StaysOpen result (state S.Store conn.new) }
    ensures kept { Keeps (state S.Store conn.old) (state S.Store conn.new) }
{
    match select_one(conn, FIND, params![1u32])? {
        Some(row) => Ok(Some(row.get(0)?)),
        None => Ok(None),
    }
}

/// Stores today's version in the place of the one that is stored, if there is one. `Store` means
/// that the database refused, `NoMemory` that a growth was refused.
pub fn renew_version<S: Alter>(tx: &mut Transaction<'_, S>) -> Result<(), SqlFault>
    ensures { TurnsToday S.Store result IsReady (content_now (state S.Store tx.old.conn.now))
        tx.old tx.new }
{
    write(tx, DROP, params![1u32])?;
    write(tx, PUT, params![1u32, VERSION])?;
    Ok(())
}
