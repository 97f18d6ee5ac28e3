//! The printed register of a cabinet.

use super::list::{Cell, Column, push_line};
use cabinet_core::{Inspection, Order, UsedLine, due, latest, open_count, push_date};
use office_files::push_next_numbers;
use office_machine::reply::CabinetShown;
use signal_records::{Interval, NoMemory, Words};
use std::alloc::{AllocError, Global};

/// The first lines of a register: the intersection's number and name, the days from one inspection
/// to the next, the day on which the next is due, which may be past the last day of a record, and
/// the next free numbers.
fn title(
    alloc: Global,
    name: &Words<120>,
    interval: Interval,
    cabinet: &CabinetShown,
) -> Result<String, AllocError> {
    let (id, days) = (cabinet.id.get(), interval.get());
    let name = name.as_str();
    let mut text = format!(in alloc; "Cabinet {id}: {name}\nInterval {days} days\n")?;
    match latest(cabinet.view.inspections.as_slice()) {
        None => text.push_str("Never inspected\n")?,
        Some(latest) => {
            text.push_str("Next inspection due ")?;
            push_date(&mut text, due(latest, interval))?;
            text.push_str("\n")?;
        }
    }
    push_next_numbers(&mut text, &cabinet.view)?;
    Ok(text)
}

const COLUMNS: [Column; 4] = [
    Column::Right(0, 6),
    Column::Left(1, 0),
    Column::Left(2, 12),
    Column::Left(3, 0),
];

fn push_inspections(
    alloc: Global,
    text: &mut Vec<u8>,
    inspections: &[Inspection],
) -> Result<(), NoMemory> {
    text.extend_from_slice(b"\nInspections\n    No  Day         Clerk         Text\n")?;
    for inspection in inspections {
        let cells = [
            Cell::Number(u64::from(inspection.number.get())),
            Cell::Day(inspection.day.date()),
            Cell::Word(inspection.clerk.as_str()),
            Cell::Word(inspection.text.as_str()),
        ];
        push_line(alloc, text, &COLUMNS, &cells)?;
    }
    Ok(())
}

const USED_COLUMNS: [Column; 3] = [
    Column::Right(0, 7),
    Column::Left(1, 20),
    Column::Right(2, 8),
];

const CLOSING_COLUMNS: [Column; 2] = [Column::Left(0, 0), Column::Left(1, 0)];

/// Appends the lines of an order: its opening, its parts from the lines of the cabinet, and its
/// closing.
fn push_order(
    alloc: Global,
    text: &mut Vec<u8>,
    lines: &[UsedLine],
    order: &Order,
) -> Result<(), NoMemory> {
    let cells = [
        Cell::Number(u64::from(order.number.get())),
        Cell::Day(order.opened.date()),
        Cell::Word(order.clerk.as_str()),
        Cell::Word(order.text.as_str()),
    ];
    push_line(alloc, text, &COLUMNS, &cells)?;
    for line in lines {
        if line.order == order.number {
            let cells = [
                Cell::Number(u64::from(line.line.get())),
                Cell::Word(line.part.as_str()),
                Cell::Number(u64::from(line.count.get())),
            ];
            text.extend_from_slice(b"           used")?;
            push_line(alloc, text, &USED_COLUMNS, &cells)?;
        }
    }
    if let Some(closing) = &order.closing {
        let cells = [
            Cell::Day(closing.day.date()),
            Cell::Word(closing.closer.as_str()),
        ];
        text.extend_from_slice(b"         closed")?;
        push_line(alloc, text, &CLOSING_COLUMNS, &cells)?;
    }
    Ok(())
}

/// The register of a cabinet, as lines of UTF-8: the intersection's number and name, the days from
/// one inspection to the next, the day on which the next is due after the latest, the next free
/// numbers, then the inspections, and the orders, each with its used parts and its closing, and how
/// many there are. Days are `YYYY-MM-DD`.
pub fn cabinet_text(
    alloc: Global,
    name: &Words<120>,
    interval: Interval,
    cabinet: &CabinetShown,
) -> Result<Vec<u8>, NoMemory> {
    let inspections = cabinet.view.inspections.as_slice();
    let orders = cabinet.view.orders.as_slice();
    let mut text = title(alloc, name, interval, cabinet)?.into_bytes();
    push_inspections(alloc, &mut text, inspections)?;
    text.extend_from_slice(b"Orders\n    No  Day         Clerk         Text\n")?;
    for order in orders {
        push_order(alloc, &mut text, cabinet.view.lines.as_slice(), order)?;
    }
    let (inspected, ordered, open) = (inspections.len(), orders.len(), open_count(orders));
    let counts = format!(in alloc;
        "Count {inspected} inspections, {ordered} orders, {open} open\n"
    )?;
    text.extend_from_slice(counts.as_bytes())?;
    Ok(text)
}
