//! The list of used parts.

use super::list::{
    Cell, Column, ListStyle, first_records, print_csv, push_count, push_lines, record_of,
};
use super::parts::PART_COLUMNS;
use cabinet_core::{Day, Order, PartCode, UsedLine};
use csv::ByteRecord;
use office_machine::reply::CabinetShown;
use signal_records::{InterId, NoMemory, Words};
use std::alloc::Global;
use std::collections::BTreeMap;

/// The days from one to another, both included; none if the first is later.
#[derive(Clone, Copy)]
pub struct Days {
    pub first: Day,
    pub last: Day,
}

impl Days {
    /// Whether a day is one of these.
    pub(crate) fn have(&self, day: Day) -> bool {
        self.first <= day && day <= self.last
    }
}

/// A part that was used for an order, with the intersection and the opening of the order.
#[derive(Drop)]
pub struct UsedPart {
    /// The number of the order's intersection.
    pub id: InterId,
    /// The day on which the order was opened.
    pub opened: Day,
    /// The clerk who opened the order.
    pub clerk: Words<40>,
    /// The line of the order: the order's number and its own, the part, and how many pieces.
    pub used: UsedLine,
}

/// The day of what was used for an order: the day on which it was closed or, if it is open, opened.
pub(crate) fn day_of_use(order: &Order) -> Day {
    match &order.closing {
        Some(closing) => closing.day,
        None => order.opened,
    }
}

/// Appends the cabinet's lines of this order, or only those of one part, if it is given.
fn add_used_in(
    found: &mut Vec<UsedPart>,
    part: &Option<PartCode>,
    id: InterId,
    lines: &[UsedLine],
    order: &Order,
) -> Result<(), NoMemory> {
    for used in lines {
        let is_asked = match part {
            Some(part) => used.part == *part,
            None => true,
        };
        if used.order == order.number && is_asked {
            found.push(UsedPart {
                id,
                opened: order.opened,
                clerk: order.clerk.clone()?,
                used: used.clone()?,
            })?;
        }
    }
    Ok(())
}

/// Appends what was used for the orders of a cabinet, open or closed, in the order of the orders
/// and of their lines: only of this part and on these days, if they are given. After `NoMemory`
/// some of it may be appended.
pub fn add_used(
    found: &mut Vec<UsedPart>,
    part: &Option<PartCode>,
    days: &Option<Days>,
    cabinet: &CabinetShown,
) -> Result<(), NoMemory> {
    let lines = cabinet.view.lines.as_slice();
    for order in cabinet.view.orders.as_slice() {
        let is_asked = match days {
            Some(days) => days.have(day_of_use(order)),
            None => true,
        };
        if is_asked {
            add_used_in(found, part, cabinet.id, lines, order)?;
        }
    }
    Ok(())
}

/// How many pieces were used of each part.
fn totals_of(alloc: Global, list: &[UsedPart]) -> Result<BTreeMap<PartCode, u64>, NoMemory> {
    let mut totals: BTreeMap<PartCode, u64> = BTreeMap::new(alloc);
    for part in list {
        let before = totals.get(&part.used.part).copied().unwrap_or(0);
        let total = before.saturating_add(u64::from(part.used.count.get()));
        totals.insert(part.used.part.clone()?, total)?;
    }
    Ok(totals)
}

/// The records of the totals, by the bytes of the codes: a part, and how many pieces.
fn total_records(
    alloc: Global,
    totals: &BTreeMap<PartCode, u64>,
) -> Result<Vec<ByteRecord>, NoMemory> {
    let mut records = Vec::new(alloc);
    for (part, total) in totals {
        let cells = [Cell::Word(part.as_str()), Cell::Number(*total)];
        records.push(record_of(alloc, &cells)?)?;
    }
    Ok(records)
}

const HEADING: &str = "Part                    No   Order  Opened       Line   Count  Clerk\n";

const NAMES: [&str; 7] = [
    "part",
    "intersection",
    "order",
    "opened",
    "line",
    "count",
    "clerk",
];

const COLUMNS: [Column; 7] = [
    Column::First(0, 20),
    Column::Right(1, 6),
    Column::Right(2, 8),
    Column::Left(3, 0),
    Column::Right(4, 7),
    Column::Right(5, 8),
    Column::Left(6, 0),
];

/// The records of used parts, after the names of their fields if the style asks for them.
fn used_records(
    alloc: Global,
    style: ListStyle,
    list: &[UsedPart],
) -> Result<Vec<ByteRecord>, NoMemory> {
    let mut records = first_records(alloc, style, &NAMES)?;
    for part in list {
        let used = &part.used;
        let cells = [
            Cell::Word(used.part.as_str()),
            Cell::Number(u64::from(part.id.get())),
            Cell::Number(u64::from(used.order.get())),
            Cell::Day(part.opened.date()),
            Cell::Number(u64::from(used.line.get())),
            Cell::Number(u64::from(used.count.get())),
            Cell::Word(part.clerk.as_str()),
        ];
        records.push(record_of(alloc, &cells)?)?;
    }
    Ok(records)
}

/// The list of used parts in UTF-8: the code of each part, the number of the intersection, the
/// number of the order, the day on which the order was opened, as `YYYY-MM-DD`, the number of the
/// line, how many pieces, and the clerk who opened the order; then how many pieces of each part,
/// and how many lines. As CSV a record for each, in this order, and no totals.
pub fn used_list(alloc: Global, style: ListStyle, list: &[UsedPart]) -> Result<Vec<u8>, NoMemory> {
    let records = used_records(alloc, style, list)?;
    if style.is_csv() {
        return print_csv(alloc, &records);
    }
    let totals = total_records(alloc, &totals_of(alloc, list)?)?;
    let mut text = Vec::new(alloc);
    push_lines(&mut text, HEADING, &COLUMNS, &records)?;
    push_lines(&mut text, "     Total  Part\n", &PART_COLUMNS, &totals)?;
    push_count(alloc, &mut text, records.len())?;
    Ok(text)
}
