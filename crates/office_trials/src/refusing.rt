//! A shelf in memory that answers Store at one of its calls.

ghost use Rattle.std.specs.Prelude.{◌≡◌, OnErr};

use crate::asking::{Bench, Script, play, same, script_of, state_of};
use cabinet_core::{Day, Hand, Inspection, Order, PartCode, UsedLine};
use office_desk::office::Office;
use office_tables_maps::map_shelf::MapShelf;
use office_tables_shelf::register::{RegisterKey, RegisterRecord};
use office_tables_shelf::rows::{IntersectionRow, RowChange, Table};
use office_tables_shelf::shelf::{Shelf, ShelfFault};
use signal_records::{Change, InterId, Row};
use std::alloc::Global;
use std::collections::BTreeMap;
use std::process::Abort;

/// What a call of a shelf gives.
type Found<T> = Result<T, ShelfFault>;

/// Tables in memory that refuse one call. They take only the calls that committing a plan makes.
#[derive(Drop)]
struct Refusing {
    inner: MapShelf,
    left: u32,
}

/// Counts a call, and refuses it if its turn has come.
fn pass(left: &mut u32) -> Found<()>
    ensures { OnErr result (result ≡ Err ShelfFault.Store) }
{
    *left = left.wrapping_sub(1);
    if *left == u32::MAX {
        return Err(ShelfFault::Store);
    }
    Ok(())
}

// Nothing is promised of its tables but the counts of writes.
impl Shelf for Refusing {
    ghost content = { λ s. s.inner.tables };

    ghost is_clean = { λ _. ⊥ };

    ghost is_honest = { λ _. ⊥ };

    ghost may_leave = { λ _ _. ⊥ };

    ghost written = { λ s. s.inner.counts };

    fn intersection(&mut self, alloc: Global, id: InterId) -> Found<Option<IntersectionRow>> {
        pass(&mut self.left)?;
        self.inner.intersection(alloc, id)
    }

    fn timing_rows(&mut self, alloc: Global, id: InterId) -> Found<Vec<Row>> {
        pass(&mut self.left)?;
        self.inner.timing_rows(alloc, id)
    }

    fn committed_count(&mut self, alloc: Global, id: InterId) -> Found<usize> {
        pass(&mut self.left)?;
        self.inner.committed_count(alloc, id)
    }

    fn draft_rows(&mut self, alloc: Global, id: InterId) -> Found<Vec<Change>> {
        pass(&mut self.left)?;
        self.inner.draft_rows(alloc, id)
    }

    fn apply(&mut self, alloc: Global, changes: &[RowChange]) -> Found<()> {
        pass(&mut self.left)?;
        self.inner.apply(alloc, changes)
    }

    fn writes(&self, table: Table) -> u64 {
        self.inner.writes(table)
    }

    fn intersections(&mut self, _a: Global) -> Found<Vec<(InterId, IntersectionRow)>> {
        Err(ShelfFault::Store)
    }

    fn record_at(&mut self, _a: Global, _key: &RegisterKey<'_>) -> Found<Option<RegisterRecord>> {
        Err(ShelfFault::Store)
    }

    fn inspections(&mut self, _a: Global, _id: InterId) -> Found<Vec<Inspection>> {
        Err(ShelfFault::Store)
    }

    fn last_inspections(&mut self, _a: Global) -> Found<BTreeMap<InterId, Day>> {
        Err(ShelfFault::Store)
    }

    fn orders(&mut self, _a: Global, _id: InterId) -> Found<Vec<Order>> {
        Err(ShelfFault::Store)
    }

    fn open_orders(&mut self, _a: Global) -> Found<BTreeMap<InterId, Vec<Order>>> {
        Err(ShelfFault::Store)
    }

    fn used_lines(&mut self, _a: Global, _id: InterId) -> Found<Vec<UsedLine>> {
        Err(ShelfFault::Store)
    }

    fn parts(&mut self, _a: Global) -> Found<Vec<(PartCode, Hand)>> {
        Err(ShelfFault::Store)
    }

    ghost honest_is_clean = { λ _ honest. honest };
}

/// Commits a plan over tables that refuse a call. Gives which request was refused, and the tables.
fn play_refusing(rt: &Bench<impl Abort>, script: &Script, left: u32) -> (usize, MapShelf) {
    let inner = MapShelf::new(rt.1);
    let mut office = Office::new(Refusing { inner, left });
    let n = play(rt, &mut office, script, 0);
    let shelf = office.into_shelf();
    let is_refused = n < script.requests.len();
    assert!(rt; is_refused == (shelf.left > left), "call {left}");
    (n, shelf.inner)
}

/// An office must show what was there before a request, and then do this one and the others.
fn goes_on<S: Shelf>(rt: &Bench<impl Abort>, office: &mut Office<S>, script: &Script, n: usize) {
    let before = script.states.get(n).expect(rt, "a state");
    same(rt, "tables after a refusal", before, &state_of(rt, office));
    let n = play(rt, office, script, n);
    assert!(rt; n == script.requests.len(), "the requests after a refusal");
}

/// Each call in turn is refused, until there is none left.
#[test]
fn each_call_of_a_shelf_is_refused(host: HostRuntime) {
    let rt = (&host, host.alloc());
    let script = script_of(&rt, 7);
    let mut refused = 0u32;
    for left in 0..1_000 {
        let (n, shelf) = play_refusing(&rt, &script, left);
        goes_on(&rt, &mut Office::new(shelf), &script, n);
        if n == script.requests.len() {
            break;
        }
        refused = refused.saturating_add(1);
    }
    let is_right = refused > 9 && refused < 1_000;
    assert!(rt; is_right, "{refused} calls were refused");
}
