//! The tables of the office as a trait.
ghost use Rattle.std.specs.Prelude.{◌≡◌, ◌≢◌, ◌⊎◌, ℕ, [], IfOk, IfSome, OnOk, OnErr};
ghost use Rattle.cabinet_core.specs.Within.{IsInspectionWithin, IsOrderWithin, IsUsedLineWithin, IsDeliveryWithin};
ghost use Rattle.signal_records.specs.Within.{IsRowWithin, current_limits};
ghost use Rattle.office_tables_shelf.specs.{Content.Content, Change.changed_by, Counts.count_of, Counts.counts_after, Rows.IsIntersectionRow, OpenOrders.orders_in, OpenOrders.ReadsOpen, declared.counts.WriteCounts.WriteCounts};
ghost use Rattle.office_tables_shelf.specs.Shelf.{GivesList, Looks, ReadsIntersection, ListsIntersections, ListsTiming, CountsTiming, ListsDraft};
ghost use Rattle.office_tables_shelf.specs.Damage.{HasDamagedIntersection, HasAnyDamagedIntersection, HasDamagedTiming, HasDamagedDraft};
ghost use Rattle.office_tables_shelf.specs.CabinetReads.{IsOfOne, ListsInspections, HasDamagedInspection, ListsOrders, HasDamagedOrder, HasAnyDamagedInspection, HasAnyDamagedOrder, ListsUsed, HasDamagedUsed, IsHand, ListsParts, IsPartWithin, HasDamagedPart};
ghost use Rattle.office_tables_shelf.specs.Places.{BlamesAt, GivesAt, IsOfPlace, ReadsAt, place_of};
ghost use Rattle.office_tables_shelf.specs.Overdue.{last_day_in, ReadsLast, ListsOverdue, HasOverdueDamage};
ghost use Rattle.office_tables_shelf.specs.Places as place;

use crate::overdue::overdue_among;
use crate::register::{RegisterKey, RegisterRecord};
use crate::rows::{IntersectionRow, RowChange, Table};
use cabinet_core::{Day, Delivery, Hand, Inspection, Order, OverdueRow, PartCode, UsedLine};
use signal_records::{Change, InterId, NoMemory, RecordNo, Row};
use std::alloc::Global;
use std::collections::BTreeMap;

/// Why a call of a shelf failed, or one that reads or changes a shelf.
#[derive(Clone, Copy, Debug, PartialEq, Eq)]
pub enum ShelfFault {
    /// A growth was refused.
    NoMemory,
    /// The database refused.
    Store,
    /// A stored row that was read is no record.
    Damaged,
}

impl From<NoMemory> for ShelfFault {
    ghost use Rattle.std.specs.Prelude.{◌≡◌};
    ghost use Rattle.office_tables_shelf.specs.declared.shelf.ShelfFault.TheVariants.{
      NoMemory as OutOfMemory,
    };

    ghost from_gives = { λ _ fault. fault ≡ OutOfMemory };

    fn from(_refused: NoMemory) -> ShelfFault {
        ShelfFault::NoMemory
    }
}

/// The tables of an office, as they are stored.
///
/// Two things are told apart: the disk has returned what was written (`is_clean`), and no failure
/// of it has shut the database besides (`is_honest`). A read that answers or tells a damaged row,
/// and an `apply` that made a change, found the database open and left it so: what they say rests
/// on a clean disk alone. A database that is shut stays shut, and refuses each later such call. A
/// refusal leaves the content where the database is still open. What a crash may leave rests on the
/// disk alone.
pub trait Shelf {
    /// What is stored, whether or not it is a record.
    ghost content: { Self → Content };
    /// The disk has returned what was written, so far: it is clean.
    ghost is_clean: { Self → Type 0 };
    /// The disk is clean, and no failure of it has shut the database.
    ghost is_honest: { Self → Type 0 };
    /// The disk has returned what was written, so far, and a crash at this moment may leave this.
    ghost may_leave: { Self → Content → Type 0 };
    /// The row writes so far.
    ghost written: { Self → WriteCounts };

    /// The row of an intersection, if there is one.
    fn intersection(
        &mut self,
        alloc: Global,
        id: InterId,
    ) -> Result<Option<IntersectionRow>, ShelfFault>
        ensures read { Looks is_clean is_honest content written may_leave result self.old self.new }
        ensures row { IfOk result (λ row. is_honest self.new →
            ReadsIntersection (content self.old) id row) }
        ensures within { IfOk result (λ row. IfSome row IsIntersectionRow) }
        ensures damaged { result ≡ Err ShelfFault.Damaged → is_honest self.new →
            HasDamagedIntersection (content self.old) id };

    /// The rows of all intersections, in the order of their numbers.
    fn intersections(
        &mut self,
        alloc: Global,
    ) -> Result<Vec<(InterId, IntersectionRow)>, ShelfFault>
        ensures read { Looks is_clean is_honest content written may_leave result self.old self.new }
        ensures lists { GivesList (is_honest self.new) (ListsIntersections (content self.old))
            (IsOfOne IsIntersectionRow) (HasAnyDamagedIntersection (content self.old)) result };

    /// The committed rows of an intersection, in the order of their keys.
    fn timing_rows(&mut self, alloc: Global, id: InterId) -> Result<Vec<Row>, ShelfFault>
        ensures read { Looks is_clean is_honest content written may_leave result self.old self.new }
        ensures lists { GivesList (is_honest self.new) (ListsTiming (content self.old) id)
            (IsRowWithin current_limits) (HasDamagedTiming (content self.old) id) result };

    /// How many committed rows an intersection has, whether or not each of them is a record.
    fn committed_count(&mut self, alloc: Global, id: InterId) -> Result<usize, ShelfFault>
        ensures read { Looks is_clean is_honest content written may_leave result self.old self.new }
        ensures count { IfOk result (λ count. is_honest self.new →
            CountsTiming (content self.old) id count) }
        ensures undamaged { result ≢ Err ShelfFault.Damaged };

    /// The draft rows of an intersection, in the order of their keys.
    fn draft_rows(&mut self, alloc: Global, id: InterId) -> Result<Vec<Change>, ShelfFault>
        ensures read { Looks is_clean is_honest content written may_leave result self.old self.new }
        ensures rows { IfOk result (λ rows. is_honest self.new →
            ListsDraft (content self.old) id rows.items) }
        ensures damaged { result ≡ Err ShelfFault.Damaged → is_honest self.new →
            HasDamagedDraft (content self.old) id };

    /// The record under a key of the register, if there is one.
    fn record_at(
        &mut self,
        alloc: Global,
        key: &RegisterKey<'_>,
    ) -> Result<Option<RegisterRecord>, ShelfFault>
        ensures read { Looks is_clean is_honest content written may_leave result self.old self.new }
        ensures row { GivesAt (is_honest self.new) (content self.old) (place_of key.now) result }
        ensures within { IfOk result (λ found. IfSome found (IsOfPlace (place_of key.now))) }
        ensures damaged { BlamesAt (is_honest self.new) (content self.old)
            (place_of key.now) result };

    /// The inspections of an intersection's cabinet, in the order of their numbers.
    fn inspections(&mut self, alloc: Global, id: InterId) -> Result<Vec<Inspection>, ShelfFault>
        ensures read { Looks is_clean is_honest content written may_leave result self.old self.new }
        ensures lists { GivesList (is_honest self.new) (ListsInspections (content self.old) id)
            IsInspectionWithin (HasDamagedInspection (content self.old) id) result };

    /// The day of the latest inspection of each intersection that has one. It is one walk over all
    /// inspections.
    fn last_inspections(&mut self, alloc: Global) -> Result<BTreeMap<InterId, Day>, ShelfFault>
        ensures read { Looks is_clean is_honest content written may_leave result self.old self.new }
        ensures days { IfOk result (λ days. is_honest self.new →
            (id : ℕ) → ReadsLast (content self.old) id (last_day_in days.entries id)) }
        ensures whole { IfOk result (λ _. is_honest self.new →
            ¬ HasAnyDamagedInspection (content self.old)) }
        ensures damaged { result ≡ Err ShelfFault.Damaged → is_honest self.new →
            HasAnyDamagedInspection (content self.old) };

    /// The first `most` of the intersections that are overdue for an inspection on a day, in the
    /// order of their numbers. It is one walk over all inspections and one over the intersections.
    fn overdue_rows(
        &mut self,
        alloc: Global,
        day: Day,
        most: usize,
    ) -> Result<Vec<OverdueRow>, ShelfFault>
        ensures read { Looks is_clean is_honest content written may_leave result self.old self.new }
        ensures rows { IfOk result (λ found. is_honest self.new →
            ListsOverdue (content self.old) day most found.items) }
        ensures whole { IfOk result (λ _. is_honest self.new →
            ¬ HasOverdueDamage (content self.old)) }
        ensures damaged { result ≡ Err ShelfFault.Damaged → is_honest self.new →
            HasOverdueDamage (content self.old) }
    {
        let days = self.last_inspections(alloc)?;
        let rows = self.intersections(alloc)?;
        let found = overdue_among(alloc, rows.as_slice(), &days, day, most)?;
        Ok(found)
    }

    /// The orders on an intersection, in the order of their numbers.
    fn orders(&mut self, alloc: Global, id: InterId) -> Result<Vec<Order>, ShelfFault>
        ensures read { Looks is_clean is_honest content written may_leave result self.old self.new }
        ensures lists { GivesList (is_honest self.new) (ListsOrders (content self.old) id)
            IsOrderWithin (HasDamagedOrder (content self.old) id) result };

    /// The open orders on each intersection that has any, in the order of their numbers. It is one
    /// walk over all orders.
    fn open_orders(&mut self, alloc: Global) -> Result<BTreeMap<InterId, Vec<Order>>, ShelfFault>
        ensures read { Looks is_clean is_honest content written may_leave result self.old self.new }
        ensures orders { IfOk result (λ orders. is_honest self.new →
            (id : ℕ) → ReadsOpen (content self.old) id (orders_in orders.entries id)) }
        ensures whole { IfOk result (λ _. is_honest self.new →
            ¬ HasAnyDamagedOrder (content self.old)) }
        ensures damaged { result ≡ Err ShelfFault.Damaged → is_honest self.new →
            HasAnyDamagedOrder (content self.old) };

    /// The parts used for the orders on an intersection, in the order of orders and lines.
    fn used_lines(&mut self, alloc: Global, id: InterId) -> Result<Vec<UsedLine>, ShelfFault>
        ensures read { Looks is_clean is_honest content written may_leave result self.old self.new }
        ensures lists { GivesList (is_honest self.new) (ListsUsed (content self.old) id)
            IsUsedLineWithin (HasDamagedUsed (content self.old) id) result };

    /// The delivery of a part with a number, if there is one.
    fn delivery(
        &mut self,
        alloc: Global,
        part: &PartCode,
        number: RecordNo,
    ) -> Result<Option<Delivery>, ShelfFault>
        ensures read { Looks is_clean is_honest content written may_leave result self.old self.new }
        ensures row { IfOk result (λ found. is_honest self.new →
            ReadsAt (content self.old) (place.Delivery part.now number) found) }
        ensures within { IfOk result (λ found. IfSome found IsDeliveryWithin) }
        ensures damaged { BlamesAt (is_honest self.new) (content self.old)
            (place.Delivery part.now number) result }
    {
        let found = self.record_at(alloc, &RegisterKey::Delivery(part, number))?;
        Ok(RegisterRecord::delivery(found))
    }

    /// How many of a part are on hand, if there ever was a delivery of it.
    fn hand(&mut self, alloc: Global, part: &PartCode) -> Result<Option<Hand>, ShelfFault>
        ensures read { Looks is_clean is_honest content written may_leave result self.old self.new }
        ensures row { IfOk result (λ found. is_honest self.new →
            ReadsAt (content self.old) (place.Part part.now) found) }
        ensures within { IfOk result (λ found. IfSome found IsHand) }
        ensures damaged { BlamesAt (is_honest self.new) (content self.old)
            (place.Part part.now) result }
    {
        let found = self.record_at(alloc, &RegisterKey::Part(part))?;
        Ok(RegisterRecord::hand(found))
    }

    /// The parts with how many are on hand, in the order of their codes.
    fn parts(&mut self, alloc: Global) -> Result<Vec<(PartCode, Hand)>, ShelfFault>
        ensures read { Looks is_clean is_honest content written may_leave result self.old self.new }
        ensures lists { GivesList (is_honest self.new) (ListsParts (content self.old))
            IsPartWithin (HasDamagedPart (content self.old)) result };

    /// Makes the changes in their order, all or none. Refused, it answers NoMemory or Store.
    fn apply(&mut self, alloc: Global, changes: &[RowChange]) -> Result<(), ShelfFault>
        ensures clean { is_clean self.new → is_clean self.old }
        ensures honest { is_honest self.new → is_honest self.old }
        ensures open { is_clean self.new → OnOk result (changes.now ≢ [] → is_honest self.new) }
        ensures ok { OnOk result (is_honest self.new →
            content self.new ≡ changed_by (content self.old) changes.now) }
        ensures err { OnErr result (is_honest self.new → content self.new ≡ content self.old) }
        ensures undamaged { result ≢ Err ShelfFault.Damaged }
        ensures written_ok { OnOk result
            (written self.new ≡ counts_after (written self.old) changes.now) }
        ensures written_err { OnErr result (written self.new ≡ written self.old) }

        // A crash leaves what it could leave before, or the whole result; and only the result once
        // changes were made.
        ensures crash { (tables : Content) → may_leave self.new tables →
            may_leave self.old tables
            ⊎ (is_honest self.old × (tables ≡ changed_by (content self.old) changes.now)) }
        ensures settled { OnOk result (changes.now ≢ [] →
            (tables : Content) → may_leave self.new tables → tables ≡ content self.new) };

    /// The row writes of a table so far: one for each row that an accepted `apply` added, put or
    /// removed, and for a draft that was dropped as many as the change names. The count stays at
    /// `u64::MAX` once it is there.
    fn writes(&self, table: Table) -> u64
        ensures { result ≡ count_of (written self.now) table };

    /// Where no failure has shut the database, its disk is clean: what holds on a clean disk is
    /// said once.
    ghost honest_is_clean: { (shelf : Self) → is_honest shelf → is_clean shelf };
}
