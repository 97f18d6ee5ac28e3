//! Changes of rows in one transaction.

ghost use Rattle.std.specs.Prelude.{◌≡◌, ◌≢◌, [], OnOk, OnErr};
ghost use Rattle.sqlite.specs.{State.HasCleanDisk, State.Survives, Held.state};
ghost use Rattle.office_tables_shelf.specs.Change.{changed, changed_by};
ghost use Rattle.office_tables_statements.specs.{Stored.content_now, Tables.drop_in, Tables.IsInsertText};
ghost use Rattle.office_tables_statements.specs.Calls.{IsHonest, IsOffice, StandsOn, TurnsTo};
ghost use Rattle.office_tables_sql.specs.{Promises.HoldUnder, Promises.Turns, Version.version_in};

use crate::stored_row::{StoredRow, add, put, put_values, remove};
use cabinet_core::{Delivery, Hand, Inspection, Order, PartCode, UsedLine};
use office_tables_shelf::rows::{IntersectionRow, RowChange, Table};
use office_tables_statements::statement::{SqlFault, write};
use signal_records::{Change, InterId, Row};
use sqlite::{Alter, Connection, Transaction, params};
use std::alloc::Global;

/// Makes one change in a transaction: of one row, or of all draft rows of an intersection.
fn change_row<S: Alter>(
    alloc: Global,
    tx: &mut Transaction<'_, S>,
    change: &RowChange,
) -> Result<(), SqlFault>
    ensures { Turns S.Store result (λ tables. changed tables change.now) tx.old tx.new }
{
    match change {
        RowChange::AddIntersection(id, row) => add(alloc, tx, *id, row),
        RowChange::PutIntersection(id, row) => put(alloc, tx, *id, row),
        RowChange::AddTiming(id, row) => add(alloc, tx, *id, row),
        RowChange::PutTiming(id, row) => put(alloc, tx, *id, row),
        RowChange::RemoveTiming(id, key) => {
            let key = params![id.get(), key.kind(), key.first(), key.second()];
            remove::<Row, S>(tx, key)
        }
        RowChange::AddDraft(id, change) => add(alloc, tx, *id, change),
        RowChange::PutDraft(id, change) => put(alloc, tx, *id, change),
        RowChange::RemoveDraft(id, key) => {
            let key = params![id.get(), key.kind(), key.first(), key.second()];
            remove::<Change, S>(tx, key)
        }
        RowChange::DropDraft(id, _) => drop_draft(tx, *id),
        RowChange::AddInspection(id, found) => add(alloc, tx, *id, found),
        RowChange::AddOrder(id, found) => add(alloc, tx, *id, found),
        RowChange::PutOrder(id, found) => put(alloc, tx, *id, found),
        RowChange::AddLine(id, line) => add(alloc, tx, *id, line),
        RowChange::PutPart(code, hand) => {
            put_values::<(PartCode, Hand), S>(tx, params![code.as_str(), hand.get()])
        }
        RowChange::AddDelivery(found) => add(alloc, tx, (), found),
    }
}

/// The statement that adds a row to the table, by the cells of its key and then the others.
pub fn insert_of(table: Table) -> &'static str
    ensures { IsInsertText table result.now }
{
    match table {
        Table::Intersection => IntersectionRow::texts().insert,
        Table::Timing => Row::texts().insert,
        Table::Draft => Change::texts().insert,
        Table::Inspection => Inspection::texts().insert,
        Table::WorkOrder => Order::texts().insert,
        Table::Part => <(PartCode, Hand)>::texts().insert,
        Table::Delivery => Delivery::texts().insert,
        Table::UsedPart => UsedLine::texts().insert,
    }
}

const DROP: &str = "DELETE FROM draft WHERE inter = ?1";

/// Removes all draft rows of the intersection, if there are any. `Store` means that the database
/// refused, `NoMemory` that a growth was refused.
fn drop_draft<S: Alter>(tx: &mut Transaction<'_, S>, id: InterId) -> Result<(), SqlFault>
    ensures { Turns S.Store result (λ tables. drop_in tables Table.Draft id) tx.old tx.new }
{
    write(tx, DROP, params![id.get()])?;
    Ok(())
}

/// Makes the changes in their order in a transaction, up to the first that fails. `Store` means
/// that the database refused, `NoMemory` that a growth was refused.
pub fn change_rows<S: Alter>(
    alloc: Global,
    tx: &mut Transaction<'_, S>,
    changes: &[RowChange],
) -> Result<(), SqlFault>
    ensures same_reference { tx.new.conn.ghost_name ≡ tx.old.conn.ghost_name }
    ensures changed { TurnsTo result
        (changed_by (content_now (state S.Store tx.old.conn.now)) changes.now)
        (state S.Store tx.old.conn.now) (state S.Store tx.new.conn.now) }
    ensures honest { HasCleanDisk (state S.Store tx.new.conn.now) →
        OnOk result (changes.now ≢ [] → IsHonest (state S.Store tx.old.conn.now)) }
    ensures stands { StandsOn (state S.Store tx.old.conn.now) (state S.Store tx.new.conn.now) }
{
    for change in changes {
        change_row(alloc, tx, change)?;
    }
    Ok(())
}

/// Makes all changes in their order in one transaction and commits them, or makes none; without
/// changes it does nothing. `Store` means that the database refused, `NoMemory` that a growth was
/// refused.
pub fn apply<S: Alter>(
    alloc: Global,
    conn: &mut Connection<S>,
    changes: &[RowChange],
) -> Result<(), SqlFault>
    requires { IsOffice (state S.Store conn.old) }
    ensures office { IsOffice (state S.Store conn.new) }
    ensures honest { IsHonest (state S.Store conn.new) → IsHonest (state S.Store conn.old) }
    ensures applied { IsHonest (state S.Store conn.new) →
        OnOk result (content_now (state S.Store conn.new) ≡ changed_by
        (content_now (state S.Store conn.old)) changes.now) }
    ensures unchanged { IsHonest (state S.Store conn.new) →
        OnErr result (content_now (state S.Store conn.new) ≡ content_now (state S.Store conn.old)) }
    ensures version { IsHonest (state S.Store conn.new) →
        version_in (state S.Store conn.new).now.trees ≡ version_in (state S.Store
        conn.old).now.trees }
    ensures open { HasCleanDisk (state S.Store conn.new) → OnOk result (changes.now ≢ [] →
        IsHonest (state S.Store conn.new)) }
    ensures crash { Survives (state S.Store conn.old) (state S.Store conn.new) (λ trees.
        IsHonest (state S.Store conn.old) × HoldUnder (changed_by
        (content_now (state S.Store conn.old)) changes.now)
        (state S.Store conn.old).now.trees trees) }
{
    if changes.is_empty() {
        return Ok(());
    }
    let mut tx = conn.transaction();
    change_rows(alloc, &mut tx, changes)?;
    tx.commit()?;
    Ok(())
}
