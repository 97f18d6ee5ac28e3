//! The list of what was done, by day.

use super::list::{Cell, Column, ListStyle, first_records, print_list, record_of};
use super::used::{Days, day_of_use};
use cabinet_core::{Day, Inspection, Order, UsedLine};
use csv::ByteRecord;
use office_machine::reply::CabinetShown;
use signal_records::{InterId, NoMemory, Words};
use std::alloc::Global;

/// What was done on a day: an inspection, the opening or the closing of an order, or a use of a
/// part.
#[derive(Drop)]
pub struct DayWork {
    day: Day,
    record: ByteRecord,
}

/// A thing that was done, to be listed.
#[derive(Clone, Copy)]
enum Deed<'a> {
    Inspected(&'a Inspection),
    Opened(&'a Order),
    Used(&'a Order, &'a UsedLine),
    Closed(&'a Order),
}

/// The clerk of an order's closing and of what was used for it: who closed the order or, if it is
/// open, opened it.
fn last_clerk(order: &Order) -> &Words<40> {
    match &order.closing {
        Some(closing) => &closing.closer,
        None => &order.clerk,
    }
}

const NONE: Cell<'static> = Cell::Word("");

impl<'a> Deed<'a> {
    fn day_done(self) -> Day {
        match self {
            Deed::Inspected(inspection) => inspection.day,
            Deed::Opened(order) => order.opened,
            Deed::Used(order, _) | Deed::Closed(order) => day_of_use(order),
        }
    }

    /// What was done, the number of the inspection or of the order, who did it, and its text.
    fn what_and_who(self) -> (&'static str, u32, &'a str, &'a str) {
        match self {
            Deed::Inspected(it) => (
                "inspected",
                it.number.get(),
                it.clerk.as_str(),
                it.text.as_str(),
            ),
            Deed::Opened(it) => (
                "opened",
                it.number.get(),
                it.clerk.as_str(),
                it.text.as_str(),
            ),
            Deed::Used(it, _) => ("used", it.number.get(), last_clerk(it).as_str(), ""),
            Deed::Closed(it) => (
                "closed",
                it.number.get(),
                last_clerk(it).as_str(),
                it.text.as_str(),
            ),
        }
    }

    /// The line, the part and the pieces of what was used; empty for anything else.
    fn used(self) -> (Cell<'a>, Cell<'a>, Cell<'a>) {
        match self {
            Deed::Used(_, line) => (
                Cell::Number(u64::from(line.line.get())),
                Cell::Word(line.part.as_str()),
                Cell::Number(u64::from(line.count.get())),
            ),
            _ => (NONE, NONE, NONE),
        }
    }
}

/// Appends a thing that was done at an intersection, if it was on one of these days.
fn add_deed(
    alloc: Global,
    found: &mut Vec<DayWork>,
    days: &Days,
    id: InterId,
    deed: Deed<'_>,
) -> Result<(), NoMemory> {
    let day = deed.day_done();
    if !days.have(day) {
        return Ok(());
    }
    let (what, number, clerk, text) = deed.what_and_who();
    let (line, part, count) = deed.used();
    let cells = [
        Cell::Day(day.date()),
        Cell::Number(u64::from(id.get())),
        Cell::Word(what),
        Cell::Number(u64::from(number)),
        line,
        part,
        count,
        Cell::Word(clerk),
        Cell::Word(text),
    ];
    let record = record_of(alloc, &cells)?;
    found.push(DayWork { day, record })?;
    Ok(())
}

/// Appends what was done for an order of a cabinet on these days: opening, uses and closing.
fn add_order(
    alloc: Global,
    found: &mut Vec<DayWork>,
    days: &Days,
    cabinet: &CabinetShown,
    order: &Order,
) -> Result<(), NoMemory> {
    let id = cabinet.id;
    add_deed(alloc, found, days, id, Deed::Opened(order))?;
    for line in cabinet.view.lines.as_slice() {
        if line.order == order.number {
            add_deed(alloc, found, days, id, Deed::Used(order, line))?;
        }
    }
    if order.closing.is_some() {
        add_deed(alloc, found, days, id, Deed::Closed(order))?;
    }
    Ok(())
}

/// Appends the inspections of a cabinet on these days.
fn add_inspections(
    alloc: Global,
    found: &mut Vec<DayWork>,
    days: &Days,
    cabinet: &CabinetShown,
) -> Result<(), NoMemory> {
    for inspection in cabinet.view.inspections.as_slice() {
        add_deed(alloc, found, days, cabinet.id, Deed::Inspected(inspection))?;
    }
    Ok(())
}

/// Appends what was done in a cabinet on some days: its inspections by number, and then for each
/// order by number its opening, the parts that were used for it, and its closing. A used part has
/// the day and the clerk of the closing, or of the opening, if the order is open. After `NoMemory`
/// some of it may be appended.
pub fn add_work(
    alloc: Global,
    found: &mut Vec<DayWork>,
    days: &Days,
    cabinet: &CabinetShown,
) -> Result<(), NoMemory> {
    add_inspections(alloc, found, days, cabinet)?;
    for order in cabinet.view.orders.as_slice() {
        add_order(alloc, found, days, cabinet, order)?;
    }
    Ok(())
}

const HEADING: &str =
    "Day           No  What       Number  Clerk         Part                   Count  Text\n";

const NAMES: [&str; 9] = [
    "day",
    "intersection",
    "what",
    "number",
    "line",
    "part",
    "count",
    "clerk",
    "text",
];

const COLUMNS: [Column; 8] = [
    Column::First(0, 10),
    Column::Right(1, 6),
    Column::Left(2, 9),
    Column::Right(3, 8),
    Column::Left(7, 12),
    Column::Left(5, 20),
    Column::Right(6, 8),
    Column::Left(8, 0),
];

/// The list of what was done, by day, in UTF-8: the day, as `YYYY-MM-DD`, the number of the
/// intersection, what was done, the number of the inspection or of the order, the clerk, the part
/// that was used and how many pieces, and the text; within a day in the order given; then the
/// count. As CSV a record for each, with the line of a used part too.
pub fn work_list(
    alloc: Global,
    style: ListStyle,
    mut list: Vec<DayWork>,
) -> Result<Vec<u8>, NoMemory> {
    list.sort_by_key(|work| work.day)?;
    let mut records = first_records(alloc, style, &NAMES)?;
    for work in list {
        records.push(work.record)?;
    }
    print_list(alloc, style, HEADING, &COLUMNS, &records)
}
