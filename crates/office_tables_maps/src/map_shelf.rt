//! The tables of an office in memory.
ghost use Rattle.std.specs.Prelude.{◌≡◌, IfOk};
ghost use Rattle.office_tables_shelf.specs.{Content.no_content, Counts.no_writes};

use crate::kept::{find, list_all};
use crate::maps::Maps;
use crate::under::{count_under, list_under};
use cabinet_core::{Day, Hand, Inspection, Order, PartCode, UsedLine};
use office_tables_shelf::counts::WriteCounts;
use office_tables_shelf::register::{RegisterKey, RegisterRecord};
use office_tables_shelf::rows::{IntersectionRow, RowChange, Table};
use office_tables_shelf::shelf::{Shelf, ShelfFault};
use signal_records::{Change, InterId, NoMemory, Row};
use std::alloc::Global;
use std::collections::BTreeMap;
use std::marker::Model;
use std::mem;

/// Tables in memory, and how often the rows of each were written. Changes are made in a spare
/// first, which then takes the place of the tables: so a refused change leaves no trace. The tables
/// are copied only where there is no spare: at the first change, and after want of memory.
#[derive(Drop)]
pub struct MapShelf {
    now: Maps,
    /// A copy of the tables `now`, where there is a spare.
    spare: Option<Maps>,
    counts: WriteCounts,
}

impl Model for MapShelf {
    ghost use Rattle.std.specs.Prelude.{◌≡◌, IfSome};
    ghost use Rattle.office_tables_maps.specs.MapShelf.{ShelfView, view_code};

    ghost Value = { ShelfView };

    ghost coded = { view_code };

    ghost view = { λ s. record { tables = s.now; counts = s.counts } };

    ghost invariant = { λ s. IfSome s.spare (λ spare. spare ≡ s.now) };
}

impl MapShelf {
    /// Tables without a row, of which no row was written.
    pub fn new(alloc: Global) -> MapShelf
        ensures empty { result.tables ≡ no_content }
        ensures no_writes { result.counts ≡ no_writes }
    {
        MapShelf {
            now: Maps::new(alloc),
            spare: None,
            counts: WriteCounts::new(),
        }
    }

    /// A copy of the tables `now`: the spare, or a new one where there is no spare.
    fn same(&mut self, alloc: Global) -> Result<Maps, NoMemory>
        ensures same { IfOk result (λ same. same ≡ self.old.tables) }
        ensures unchanged { self.new ≡ self.old }
    {
        match self.spare.take() {
            Some(spare) => Ok(spare),
            None => self.now.copy_tables(alloc),
        }
    }
}

impl Shelf for MapShelf {
    ghost use Rattle.std.specs.Prelude.{◌≡◌};

    ghost content = { λ s. s.tables };

    ghost is_clean = { λ _. Unit {0} };

    ghost is_honest = { λ _. Unit {0} };

    ghost may_leave = { λ s tables. tables ≡ s.tables };

    ghost written = { λ s. s.counts };

    fn intersection(
        &mut self,
        _alloc: Global,
        id: InterId,
    ) -> Result<Option<IntersectionRow>, ShelfFault> {
        Ok(find(&self.now.intersection, &id)?)
    }

    fn intersections(
        &mut self,
        alloc: Global,
    ) -> Result<Vec<(InterId, IntersectionRow)>, ShelfFault> {
        Ok(list_all(alloc, &self.now.intersection)?)
    }

    fn timing_rows(&mut self, alloc: Global, id: InterId) -> Result<Vec<Row>, ShelfFault> {
        Ok(list_under(alloc, &self.now.timing, id)?)
    }

    fn committed_count(&mut self, _alloc: Global, id: InterId) -> Result<usize, ShelfFault> {
        Ok(count_under(&self.now.timing, id))
    }

    fn draft_rows(&mut self, alloc: Global, id: InterId) -> Result<Vec<Change>, ShelfFault> {
        Ok(list_under(alloc, &self.now.draft, id)?)
    }

    fn record_at(
        &mut self,
        _alloc: Global,
        key: &RegisterKey<'_>,
    ) -> Result<Option<RegisterRecord>, ShelfFault> {
        Ok(self.now.record_at(key)?)
    }

    fn inspections(&mut self, alloc: Global, id: InterId) -> Result<Vec<Inspection>, ShelfFault> {
        Ok(list_under(alloc, &self.now.inspection, id)?)
    }

    fn last_inspections(&mut self, alloc: Global) -> Result<BTreeMap<InterId, Day>, ShelfFault> {
        Ok(self.now.last_days(alloc)?)
    }

    fn orders(&mut self, alloc: Global, id: InterId) -> Result<Vec<Order>, ShelfFault> {
        Ok(list_under(alloc, &self.now.work_order, id)?)
    }

    fn open_orders(&mut self, alloc: Global) -> Result<BTreeMap<InterId, Vec<Order>>, ShelfFault> {
        Ok(self.now.open_orders(alloc)?)
    }

    fn used_lines(&mut self, alloc: Global, id: InterId) -> Result<Vec<UsedLine>, ShelfFault> {
        Ok(list_under(alloc, &self.now.used_part, id)?)
    }

    fn parts(&mut self, alloc: Global) -> Result<Vec<(PartCode, Hand)>, ShelfFault> {
        Ok(list_all(alloc, &self.now.part)?)
    }

    fn apply(&mut self, alloc: Global, changes: &[RowChange]) -> Result<(), ShelfFault> {
        let mut next = self.same(alloc)?;
        next.make_changes(changes)?;
        let mut old = mem::replace(&mut self.now, next);
        self.spare = match old.make_changes(changes) {
            Ok(()) => Some(old),
            Err(_refused) => None,
        };
        self.counts.count_all(changes);
        Ok(())
    }

    fn writes(&self, table: Table) -> u64 {
        self.counts.of(table)
    }

    ghost honest_is_clean = { λ _ honest. honest };
}
