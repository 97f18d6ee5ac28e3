//! Rows of a table, read one at a time.

ghost use Rattle.std.specs.Prelude.{◌≡◌, ℕ, List, [], ◌∷◌, ◌++◌, filter, IfOk, OnOk};
ghost use Rattle.std.specs.List.{AllByRecursion};
ghost use Rattle.sqlite.specs.{Held.state, Values.bound};
ghost use Rattle.cabinet_core.specs.{Orders.is_open, Overdue.latest_day};
ghost use Rattle.office_tables_shelf.specs.{CabinetReads.of_one, CabinetReads.HasAnyDamagedInspection, CabinetReads.HasAnyDamagedOrder, OpenOrders.orders_in, OpenOrders.ReadsOpen, Overdue.last_day_in, Overdue.ReadsLast};
ghost use Rattle.office_tables_statements.specs.{Stored.content_now, Calls.IsHonest, Calls.IsOffice, Tables.params_of, Tables.ListsRows};
ghost use Rattle.office_tables_sql.specs.{Kept.Gathers, Kept.HasStoredDamage, Promises.LooksUp};

use crate::stored_row::StoredRow;
use cabinet_core::{Day, Inspection, Order};
use office_tables_shelf::open_orders::add_open;
use office_tables_shelf::overdue::add_day;
use office_tables_shelf::shelf::ShelfFault;
use office_tables_statements::statement::SqlFault;
use signal_records::{InterId, NoMemory};
use sqlite::types::ValueRef;
use sqlite::{Alter, Connection, params};
use std::alloc::Global;
use std::collections::BTreeMap;

/// What gathers the records of a list, one after another, in the order of their keys.
pub(crate) trait Gather<T>: Sized + Drop {
    /// What was gathered holds what is to be known of these records.
    ghost holds: { Self → List T → Type 0 };

    /// Gathers one more record. It refuses where a growth is refused.
    fn take(&mut self, alloc: Global, next: T) -> Result<(), NoMemory>
        ensures { OnOk result ((records : List T) → holds self.old records →
            holds self.new (records ++ next ∷ [])) };
}

impl<T: Drop> Gather<T> for Vec<T> {
    ghost holds = { λ found records. found.items ≡ records };

    fn take(&mut self, _alloc: Global, next: T) -> Result<(), NoMemory> {
        self.push(next)?;
        Ok(())
    }
}

impl Gather<(InterId, Inspection)> for BTreeMap<InterId, Day> {
    ghost holds = { λ days found. (id : ℕ) →
        last_day_in days.entries id ≡ latest_day (of_one id found) };

    fn take(&mut self, _alloc: Global, next: (InterId, Inspection)) -> Result<(), NoMemory> {
        let (id, found) = next;
        add_day(self, id, found.day)
    }
}

impl Gather<(InterId, Order)> for BTreeMap<InterId, Vec<Order>> {
    ghost holds = { λ orders found. (id : ℕ) →
        orders_in orders.entries id ≡ filter is_open (of_one id found) };

    fn take(&mut self, alloc: Global, next: (InterId, Order)) -> Result<(), NoMemory> {
        let (id, order) = next;
        add_open(alloc, self, id, order)
    }
}

/// The rows of a list, in the order of their keys. `params` are those of its query: the
/// intersection, or none where it lists all rows. `Damaged` means that one of them is no record,
/// `Store` that the database refused, `NoMemory` that a growth was refused.
pub fn list<T: StoredRow, S: Alter>(
    alloc: Global,
    conn: &mut Connection<S>,
    of: T::Of,
    params: &[ValueRef<'_>],
) -> Result<Vec<T>, ShelfFault>
    requires params { bound params.now ≡ params_of (T.kept.whose of) }
    requires office { IsOffice (state S.Store conn.old) }
    ensures read { LooksUp S.Store result (λ tables found. ListsRows T.kept.table (T.kept.key of)
        T.kept.columns tables (T.kept.whose of) found.items)
        (HasStoredDamage T.kept of) conn.old conn.new }
    ensures within { IfOk result (λ found. IsHonest (state S.Store conn.new) →
        AllByRecursion T.kept.is_within found.items) }
{
    gather_rows::<T, _, S>(alloc, conn, of, params, Vec::new(alloc))
}

/// Gathers the rows of a list, in the order of their keys, into `begun`, which holds none yet. No
/// row is kept after it is read. `Damaged` means that one of them is no record, `Store` that the
/// database refused, `NoMemory` that a growth was refused.
fn gather_rows<T: StoredRow, G: Gather<T>, S: Alter>(
    alloc: Global,
    conn: &mut Connection<S>,
    of: T::Of,
    params: &[ValueRef<'_>],
    begun: G,
) -> Result<G, ShelfFault>
    requires params { bound params.now ≡ params_of (T.kept.whose of) }
    requires office { IsOffice (state S.Store conn.old) }
    requires begun { G.holds begun [] }
    ensures { LooksUp S.Store result (Gathers G.holds T.kept of) (HasStoredDamage T.kept of)
        conn.old conn.new }
{
    let mut found = begun;
    let mut rows = match conn.query(T::texts().list, params) {
        Ok(rows) => rows,
        Err(error) => return Err(ShelfFault::from(SqlFault::from(error))),
    };
    'rows: for _ in 0..u64::MAX {
        if let Err(error) = rows.advance() {
            return Err(ShelfFault::from(SqlFault::from(error)));
        }
        let Some(row) = rows.get() else {
            return Ok(found);
        };
        let record = T::read(alloc, of, row)?;
        found.take(alloc, record)?;
    }
    Err(ShelfFault::Store)
}

/// The latest day of the inspections of each intersection that has any, whatever their numbers.
/// `Damaged` means that an inspection is no record, `Store` that the database refused, `NoMemory`
/// that a growth was refused. No inspection is kept after it is read.
pub fn last_days<S: Alter>(
    alloc: Global,
    conn: &mut Connection<S>,
) -> Result<BTreeMap<InterId, Day>, ShelfFault>
    requires { IsOffice (state S.Store conn.old) }
    ensures days { LooksUp S.Store result (λ tables days. (id : ℕ) →
        ReadsLast tables id (last_day_in days.entries id)) HasAnyDamagedInspection
        conn.old conn.new }
    ensures whole { IfOk result (λ _. IsHonest (state S.Store conn.new) →
        ¬ HasAnyDamagedInspection (content_now (state S.Store conn.old))) }
{
    gather_rows::<(InterId, Inspection), _, S>(alloc, conn, (), params![], BTreeMap::new(alloc))
}

/// The open orders on each intersection that has any, in the order of their numbers. `Damaged`
/// means that an order is no record, `Store` that the database refused, `NoMemory` that a growth
/// was refused. No closed order is kept after it is read.
pub fn open_orders<S: Alter>(
    alloc: Global,
    conn: &mut Connection<S>,
) -> Result<BTreeMap<InterId, Vec<Order>>, ShelfFault>
    requires { IsOffice (state S.Store conn.old) }
    ensures orders { LooksUp S.Store result (λ tables orders. (id : ℕ) →
        ReadsOpen tables id (orders_in orders.entries id))
        HasAnyDamagedOrder conn.old conn.new }
    ensures whole { IfOk result (λ _. IsHonest (state S.Store conn.new) →
        ¬ HasAnyDamagedOrder (content_now (state S.Store conn.old))) }
{
    gather_rows::<(InterId, Order), _, S>(alloc, conn, (), params![], BTreeMap::new(alloc))
}
