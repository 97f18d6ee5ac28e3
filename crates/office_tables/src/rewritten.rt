//! The rows of version 1 that are spelled otherwise today, and what is put in their place.

ghost use Rattle.std.specs.Prelude.{◌≡◌, ◌≤◌, ◌++◌, [], ◌∷◌, None, length, map, Err, IfOk, OnOk};
ghost use Rattle.std.specs.FinMap.{entries};
ghost use Rattle.sqlite.specs.Held.{state};
ghost use Rattle.office_tables_shelf.specs.Reads.{IsNoRow};
ghost use Rattle.office_tables_statements.specs.Calls.{IsHonest, IsOffice, Keeps, TellsOpen};
ghost use Rattle.office_tables_statements.specs.Stored.{content_now};
ghost use Rattle.office_tables_statements.specs.Tables.{IsListText, columns_shown, key_shown, row_shown, rows_at, stored_for, width_of};
ghost use Rattle.office_tables.specs.Rewritten.{former_columns, kept_key, HasFormerDamage, IsFormer, Puts, ShowsDamage, puts, spelled_table};

use office_tables_shelf::rows::RowChange;
use office_tables_shelf::shelf::ShelfFault;
use office_tables_statements::body_reading::Version;
use office_tables_statements::listed::{body_at, check_key, read_key};
use office_tables_statements::statement::select;
use office_tables_statements::value::ranged_at;
use signal_records::{Change, InterId, NoMemory, Row, is_key_v1};
use sqlite::{Alter, Connection, Row as SqlRow};
use std::alloc::Global;

/// How many rows were written anew when tables of version 1 were brought to today's version: those
/// of phases with a pedestrian part.
#[derive(Clone, Copy, Debug, PartialEq, Eq)]
pub struct Migrated {
    /// How many rows of `timing`, which are those of committed sets.
    pub timing: usize,
    /// How many rows of `draft`.
    pub draft: usize,
}

/// A table that keeps rows of timing, which version 1 spelled otherwise.
#[derive(Clone, Copy)]
pub(crate) enum Spelled {
    Timing,
    Draft,
}

/// The query of the whole of `timing`.
pub(crate) const TIMING: &str =
    "SELECT inter, kind, a, b, body FROM timing ORDER BY inter, kind, a, b";

/// The query of the whole of `draft`.
pub(crate) const DRAFT: &str =
    "SELECT inter, kind, a, b, body FROM draft ORDER BY inter, kind, a, b";

/// Reads what version 1 kept in a row that a query shows in five columns, `inter`, `kind`, `a`, `b`
/// and `body`: its intersection, and the row that it kept there, or, in `draft` where the body is
/// NULL, the removal of the key. `Damaged` means that version 1 kept neither in these cells.
fn read(alloc: Global, table: Spelled, row: &SqlRow) -> Result<(InterId, Change), ShelfFault>
    ensures shown { IfOk result (λ kept. stored_for kept_key former_columns kept
        ≡ row_shown (spelled_table table) row.now) }
    ensures former { IfOk result (IsFormer table) }
    ensures damaged { result ≡ Err ShelfFault.Damaged → length row.now ≡ width_of (spelled_table
        table) →
        IsNoRow (IsFormer table) kept_key former_columns
        (key_shown (spelled_table table) row.now) (columns_shown (spelled_table table) row.now) }
{
    let id = ranged_at(row, 0)?;
    let Some(found) = body_at(alloc, Version::First, row, 4)? else {
        let key = read_key(row, id)?;
        if matches!(table, Spelled::Timing) || !is_key_v1(&key) {
            return Err(ShelfFault::Damaged);
        }
        return Ok((id, Change::Remove(key)));
    };
    check_key(row, id, &found.key())?;
    Ok((id, Change::Put(found)))
}

/// Appends the change that puts a row that version 1 kept in a table there again, if it is that of
/// a phase with a pedestrian part: no other row is spelled otherwise today than in version 1.
fn put_again(
    table: Spelled,
    id: InterId,
    change: Change,
    changes: &mut Vec<RowChange>,
) -> Result<(), NoMemory>
    ensures { OnOk result (
        changes.new.items ≡ changes.old.items ++ puts table ((id, change) ∷ [])) }
{
    if !matches!(&change, Change::Put(Row::Phase(_, phase)) if phase.ped.is_some()) {
        return Ok(());
    }
    let put = match (table, change) {
        (Spelled::Timing, Change::Put(row)) => RowChange::PutTiming(id, row),
        (_, change) => RowChange::PutDraft(id, change),
    };
    changes.push(put)?;
    Ok(())
}

/// Appends the changes that put those of the shown rows again that have a pedestrian part, in
/// order. `Damaged` means that one of them is none of version 1.
fn put_rows(
    alloc: Global,
    table: Spelled,
    rows: Vec<SqlRow>,
    changes: &mut Vec<RowChange>,
) -> Result<(), ShelfFault>
    ensures puts { OnOk result (Puts table (map (row_shown (spelled_table table)) rows.items)
        changes.old.items changes.new.items) }
    ensures damaged { result ≡ Err ShelfFault.Damaged → ShowsDamage table rows.items }
{
    for row in rows {
        let (id, change) = read(alloc, table, &row)?;
        put_again(table, id, change, changes)?;
    }
    Ok(())
}

/// Appends the changes that put those rows of a table of version 1 again that have a pedestrian
/// part, in the order of their keys; `sql` is the query of that table. `Damaged` means that a row
/// is none of version 1, `Store` that the database refused, `NoMemory` that a growth was refused.
pub(crate) fn put_former<S: Alter>(
    alloc: Global,
    conn: &mut Connection<S>,
    table: Spelled,
    sql: &str,
    changes: &mut Vec<RowChange>,
) -> Result<(), ShelfFault>
    requires office { IsOffice (state S.Store conn.old) }
    requires query { IsListText (spelled_table table) None sql.now }
    ensures puts { IsHonest (state S.Store conn.new) → OnOk result (Puts table
        (entries (rows_at (content_now (state S.Store conn.old)) (spelled_table table)))
        changes.old.items changes.new.items) }
    ensures grows { OnOk result (length changes.old.items ≤ length changes.new.items) }
    ensures damaged { result ≡ Err ShelfFault.Damaged → IsHonest (state S.Store conn.new) →
        HasFormerDamage table (content_now (state S.Store conn.old)) }
    ensures open { TellsOpen result (state S.Store conn.new) }
    ensures kept { Keeps (state S.Store conn.old) (state S.Store conn.new) }
{
    let rows = select(conn, sql, &[])?;
    put_rows(alloc, table, rows, changes)
}
