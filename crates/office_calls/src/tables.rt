//! `office_tables`: the reads and writes of a shelf, and the two shelves.

use crate::cabinet::{at, part};
use crate::records::make_words;
use office_tables::map_shelf::MapShelf;
use office_tables::open::OpenFault;
use office_tables::rows::{IntersectionRow, RowChange, Table};
use office_tables::shelf::{Shelf, ShelfFault};
use office_tables::sql_shelf::SqlShelf;
use signal_records::{InterId, Revision};
use sqlite::{Alter, Connection};
use std::alloc::Global;
use std::test::Fail;

/// Whether nothing is kept of an intersection's timing.
fn lacks_timing<S: Shelf>(alloc: Global, shelf: &mut S, id: InterId) -> Result<bool, ShelfFault> {
    let committed = shelf.timing_rows(alloc, id)?.is_empty();
    let drafted = shelf.draft_rows(alloc, id)?.is_empty();
    Ok(committed && drafted)
}

/// Whether the register holds nothing of an intersection.
fn lacks_records<S: Shelf>(alloc: Global, shelf: &mut S, id: InterId) -> Result<bool, ShelfFault> {
    let inspections = shelf.inspections(alloc, id)?.is_empty();
    let orders = shelf.orders(alloc, id)?.is_empty();
    let lines = shelf.used_lines(alloc, id)?.is_empty();
    Ok(inspections && orders && lines)
}

/// Whether nothing is known of a part.
fn lacks_part<S: Shelf>(alloc: Global, shelf: &mut S) -> Result<bool, Fail> {
    let part = part(alloc)?;
    let number = at()?.number;
    let delivery = shelf.delivery(alloc, &part, number)?.is_none();
    let hand = shelf.hand(alloc, &part)?.is_none();
    let parts = shelf.parts(alloc)?.is_empty();
    Ok(delivery && hand && parts)
}

/// How many intersections a shelf has, and whether one is there.
fn intersections<S: Shelf>(
    alloc: Global,
    shelf: &mut S,
    id: InterId,
) -> Result<(usize, bool), ShelfFault> {
    let row: Option<IntersectionRow> = shelf.intersection(alloc, id)?;
    let is_there = row.is_some();
    let rows = shelf.intersections(alloc)?;
    Ok((rows.len(), is_there))
}

/// The change that adds an intersection, by the fields of its row.
fn addition(alloc: Global) -> Result<RowChange, Fail> {
    let at = at()?;
    let row = IntersectionRow {
        name: make_words(alloc, "Main St")?,
        interval: at.interval,
        revision: Revision::first(),
        holder: None,
    };
    Ok(RowChange::AddIntersection(at.id, row))
}

/// Adds an intersection to a shelf, and reads all of it. Gives whether the shelf has that
/// intersection, and nothing else.
fn is_filled<S: Shelf>(alloc: Global, shelf: &mut S) -> Result<bool, Fail> {
    let id = at()?.id;
    let change = addition(alloc)?;
    shelf.apply(alloc, &[change])?;
    let lacks = lacks_timing(alloc, shelf, id)?
        && lacks_records(alloc, shelf, id)?
        && lacks_part(alloc, shelf)?;
    let found = intersections(alloc, shelf, id)?;
    let written = shelf.writes(Table::Intersection);
    Ok(lacks && found == (1, true) && written == 1)
}

/// Makes and fills tables in a database. Gives whether they hold what they should, and the
/// database.
fn are_made<S: Alter + Drop>(
    alloc: Global,
    conn: Connection<S>,
) -> Result<(bool, Connection<S>), Fail> {
    let shelf: Result<SqlShelf<S>, OpenFault> = SqlShelf::open(alloc, conn);
    let mut shelf = shelf?;
    let filled = is_filled(alloc, &mut shelf)?;
    Ok((filled, shelf.into_conn()))
}

#[test]
fn shelves(rt: HostRuntime) -> Result<(), Fail> {
    let alloc = rt.alloc();
    let mut shelf = MapShelf::new(alloc);
    assert!(rt; is_filled(alloc, &mut shelf)?);
    assert_eq!(rt; shelf.writes(Table::Timing), 0);
    Ok(())
}

/// A database that holds an office is opened again.
#[test]
fn databases(rt: HostRuntime) -> Result<(), Fail> {
    let alloc = rt.alloc();
    let (filled, conn) = are_made(alloc, Connection::open_in_memory(alloc)?)?;
    assert!(rt; filled && SqlShelf::open(alloc, conn).is_ok());
    Ok(())
}
