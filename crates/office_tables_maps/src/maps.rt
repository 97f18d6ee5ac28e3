//! The eight tables in memory, as maps of records.
ghost use Rattle.std.specs.Prelude.{◌≡◌, ℕ, OnOk, IfOk, IfSome};

use crate::kept::{copied_rows, find, list_all, put, remove};
use crate::under::drop_under;
use cabinet_core::{Day, Delivery, Hand, Inspection, Order, PartCode, UsedLine};
use office_tables_shelf::open_orders::add_open;
use office_tables_shelf::overdue::add_day;
use office_tables_shelf::register::{RegisterKey, RegisterRecord};
use office_tables_shelf::rows::{IntersectionRow, RowChange};
use signal_records::{Change, InterId, Key, LineNo, NoMemory, RecordNo, Row, changed_key};
use std::alloc::Global;
use std::collections::BTreeMap;
use std::marker::Model;

/// The rows of the tables. Each is a record within its limits, as it was when it was put, and
/// stands under its own place.
#[derive(Drop)]
pub struct Maps {
    pub(crate) intersection: BTreeMap<InterId, IntersectionRow>,
    pub(crate) timing: BTreeMap<(InterId, Key), Row>,
    pub(crate) draft: BTreeMap<(InterId, Key), Change>,
    pub(crate) inspection: BTreeMap<(InterId, RecordNo), Inspection>,
    pub(crate) work_order: BTreeMap<(InterId, RecordNo), Order>,
    pub(crate) used_part: BTreeMap<(InterId, (RecordNo, LineNo)), UsedLine>,
    /// How many of each part are on hand.
    pub(crate) part: BTreeMap<PartCode, Hand>,
    pub(crate) delivery: BTreeMap<(PartCode, RecordNo), Delivery>,
}

impl Model for Maps {
    ghost use Rattle.office_tables_maps.specs.Placed.{tables_of, AreMapsPlaced};
    ghost use Rattle.office_tables_shelf.specs.Content.{Content, content_code};

    ghost Value = { Content };

    ghost coded = { content_code };

    ghost view = { tables_of };

    ghost invariant = { AreMapsPlaced };
}

/// A place by value: then its type says that it is within its limits.
fn at<P>(place: P) -> P
    ensures { result ≡ place }
{
    place
}

impl Maps {
    ghost use Rattle.office_tables_shelf.specs.{CabinetReads.ListsParts, CabinetReads.HasAnyDamagedInspection, CabinetReads.HasAnyDamagedOrder, OpenOrders.orders_in, OpenOrders.ReadsOpen, Overdue.last_day_in, Overdue.ReadsLast, Places.FindsAt, Places.IsOfPlace, Places.place_of, Content.no_content, Change.changed, Change.changed_by};

    /// Tables without a row.
    pub fn new(alloc: Global) -> Maps
        ensures { result ≡ no_content }
    {
        Maps {
            intersection: BTreeMap::new(alloc),
            timing: BTreeMap::new(alloc),
            draft: BTreeMap::new(alloc),
            inspection: BTreeMap::new(alloc),
            work_order: BTreeMap::new(alloc),
            used_part: BTreeMap::new(alloc),
            part: BTreeMap::new(alloc),
            delivery: BTreeMap::new(alloc),
        }
    }

    /// A copy of the tables.
    pub(crate) fn copy_tables(&self, alloc: Global) -> Result<Maps, NoMemory>
        ensures { IfOk result (λ copy. copy ≡ self.now) }
    {
        Ok(Maps {
            intersection: copied_rows(alloc, &self.intersection)?,
            timing: copied_rows(alloc, &self.timing)?,
            draft: copied_rows(alloc, &self.draft)?,
            inspection: copied_rows(alloc, &self.inspection)?,
            work_order: copied_rows(alloc, &self.work_order)?,
            used_part: copied_rows(alloc, &self.used_part)?,
            part: copied_rows(alloc, &self.part)?,
            delivery: copied_rows(alloc, &self.delivery)?,
        })
    }

    /// Makes one change. After a refusal the rows are of no use.
    fn change(&mut self, change: &RowChange) -> Result<(), NoMemory>
        ensures { OnOk result (self.new ≡ changed self.old change.now) }
    {
        match change {
            RowChange::AddIntersection(id, row) => put(&mut self.intersection, at(*id), row)?,
            RowChange::PutIntersection(id, row) => put(&mut self.intersection, at(*id), row)?,
            RowChange::AddTiming(id, row) => put(&mut self.timing, at((*id, row.key())), row)?,
            RowChange::PutTiming(id, row) => put(&mut self.timing, at((*id, row.key())), row)?,
            RowChange::RemoveTiming(id, key) => remove(&mut self.timing, &(*id, *key)),
            RowChange::AddDraft(id, row) => put(&mut self.draft, at((*id, changed_key(row))), row)?,
            RowChange::PutDraft(id, row) => put(&mut self.draft, at((*id, changed_key(row))), row)?,
            RowChange::RemoveDraft(id, key) => remove(&mut self.draft, &(*id, *key)),
            RowChange::DropDraft(id, _) => drop_under(&mut self.draft, *id),
            RowChange::AddInspection(id, x) => put(&mut self.inspection, at((*id, x.number)), x)?,
            RowChange::AddOrder(id, x) => put(&mut self.work_order, at((*id, x.number)), x)?,
            RowChange::PutOrder(id, x) => put(&mut self.work_order, at((*id, x.number)), x)?,
            RowChange::AddLine(id, x) => put(&mut self.used_part, at((*id, (x.order, x.line))), x)?,
            RowChange::PutPart(part, hand) => put(&mut self.part, part.clone()?, hand)?,
            RowChange::AddDelivery(x) => put(&mut self.delivery, (x.part.clone()?, x.number), x)?,
        }
        Ok(())
    }

    /// Makes the changes, in their order. `NoMemory` means that a growth was really refused; the
    /// tables are of no use then.
    pub fn make_changes(&mut self, changes: &[RowChange]) -> Result<(), NoMemory>
        ensures { OnOk result (self.new ≡ changed_by self.old changes.now) }
    {
        for change in changes {
            self.change(change)?;
        }
        Ok(())
    }

    /// The day of the latest inspection of each intersection that has one.
    pub(crate) fn last_days(&self, alloc: Global) -> Result<BTreeMap<InterId, Day>, NoMemory>
        ensures days { IfOk result (λ days. (id : ℕ) →
            ReadsLast self.now id (last_day_in days.entries id)) }
        ensures whole { IfOk result (λ _. ¬ HasAnyDamagedInspection self.now) }
    {
        let mut days = BTreeMap::new(alloc);
        for (place, inspection) in &self.inspection {
            add_day(&mut days, place.0, inspection.day)?;
        }
        Ok(days)
    }

    /// The open orders on each intersection that has any, in the order of their numbers.
    pub(crate) fn open_orders(
        &self,
        alloc: Global,
    ) -> Result<BTreeMap<InterId, Vec<Order>>, NoMemory>
        ensures orders { IfOk result (λ orders. (id : ℕ) →
            ReadsOpen self.now id (orders_in orders.entries id)) }
        ensures whole { IfOk result (λ _. ¬ HasAnyDamagedOrder self.now) }
    {
        let mut orders = BTreeMap::new(alloc);
        for (place, order) in &self.work_order {
            if order.closing.is_none() {
                add_open(alloc, &mut orders, place.0, order.clone()?)?;
            }
        }
        Ok(orders)
    }

    /// A copy of the record under a key of the register, if there is one. `NoMemory` means that a
    /// growth was really refused.
    pub fn record_at(&self, key: &RegisterKey<'_>) -> Result<Option<RegisterRecord>, NoMemory>
        ensures row { FindsAt self.now (place_of key.now) result }
        ensures within { IfOk result (λ found. IfSome found (IsOfPlace (place_of key.now))) }
    {
        match key {
            RegisterKey::Inspection(inter, number) => {
                let found = find(&self.inspection, &(*inter, *number))?;
                Ok(found.map(RegisterRecord::Inspection))
            }
            RegisterKey::Order(inter, number) => {
                let found = find(&self.work_order, &(*inter, *number))?;
                Ok(found.map(RegisterRecord::Order))
            }
            RegisterKey::Line(inter, order, line) => {
                let found = find(&self.used_part, &(*inter, (*order, *line)))?;
                Ok(found.map(RegisterRecord::Line))
            }
            RegisterKey::Part(part) => {
                let found = find(&self.part, part)?;
                Ok(found.map(RegisterRecord::Part))
            }
            RegisterKey::Delivery(part, number) => {
                let found = find(&self.delivery, &(PartCode::clone(part)?, *number))?;
                Ok(found.map(RegisterRecord::Delivery))
            }
        }
    }

    /// The parts, in the order of their codes, with how many are on hand of each. `NoMemory` means
    /// that a growth was really refused.
    pub fn parts(&self, alloc: Global) -> Result<Vec<(PartCode, Hand)>, NoMemory>
        ensures { IfOk result (λ parts. ListsParts self.now parts.items) }
    {
        list_all(alloc, &self.part)
    }
}
