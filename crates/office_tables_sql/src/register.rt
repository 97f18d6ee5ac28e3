//! The records of the register in SQL, found by their keys.

ghost use Rattle.std.specs.Prelude.{IfOk, IfSome};
ghost use Rattle.sqlite.specs.Held.{state};
ghost use Rattle.office_tables_shelf.specs.Places.{DamagedAt, IsOfPlace, ReadsAt, found_at, place_of};
ghost use Rattle.office_tables_statements.specs.Calls.{IsOffice};
ghost use Rattle.office_tables_sql.specs.Promises.{LooksUp};

use crate::stored_row::find;
use cabinet_core::{Delivery, Hand, Inspection, Order, PartCode, UsedLine};
use office_tables_shelf::register::{RegisterKey, RegisterRecord};
use office_tables_shelf::shelf::ShelfFault;
use sqlite::{Alter, Connection, params};
use std::alloc::Global;

/// The record under a key of the register, if there is one. `Damaged` means that what is stored
/// there is no record, `Store` that the database refused, `NoMemory` that a growth was refused.
pub fn record_at<S: Alter>(
    alloc: Global,
    conn: &mut Connection<S>,
    key: &RegisterKey<'_>,
) -> Result<Option<RegisterRecord>, ShelfFault>
    requires { IsOffice (state S.Store conn.old) }
    ensures read { LooksUp S.Store result (λ tables found. ReadsAt tables (place_of key.now)
        (found_at (place_of key.now) found)) (λ tables. DamagedAt tables (place_of key.now))
        conn.old conn.new }
    ensures within { IfOk result (λ found. IfSome found (IsOfPlace (place_of key.now))) }
{
    match key {
        RegisterKey::Inspection(id, number) => {
            let key = params![id.get(), number.get()];
            let found: Option<Inspection> = find(alloc, conn, *id, key)?;
            Ok(found.map(RegisterRecord::Inspection))
        }
        RegisterKey::Order(id, number) => {
            let key = params![id.get(), number.get()];
            let found: Option<Order> = find(alloc, conn, *id, key)?;
            Ok(found.map(RegisterRecord::Order))
        }
        RegisterKey::Line(id, order, line) => {
            let key = params![id.get(), order.get(), line.get()];
            let found: Option<UsedLine> = find(alloc, conn, *id, key)?;
            Ok(found.map(RegisterRecord::Line))
        }
        RegisterKey::Part(part) => {
            let found: Option<(PartCode, Hand)> = find(alloc, conn, (), params![part.as_str()])?;
            match found {
                Some(part) => Ok(Some(RegisterRecord::Part(part.1))),
                None => Ok(None),
            }
        }
        RegisterKey::Delivery(part, number) => {
            let key = params![part.as_str(), number.get()];
            let found: Option<Delivery> = find(alloc, conn, (), key)?;
            Ok(found.map(RegisterRecord::Delivery))
        }
    }
}
