//! The lists of open orders.

use super::list::{Cell, Column, ListStyle, first_records, print_lines, print_list, record_of};
use cabinet_core::Day;
use csv::ByteRecord;
use office_machine::orders::{NamedOrder, OpenOrder};
use signal_records::NoMemory;
use std::alloc::Global;

/// What a list shows of an order: the number of its intersection, a name for the intersection, the
/// order's number, the day of its opening, its clerk and its text.
type OrderCells<'a> = (Cell<'a>, Cell<'a>, Cell<'a>, Cell<'a>, Cell<'a>, Cell<'a>);

/// The cells of an order on an intersection of this name.
fn order_cells<'a>(open: &'a OpenOrder, name: &'a str) -> OrderCells<'a> {
    let order = &open.order;
    (
        Cell::Number(u64::from(open.id.get())),
        Cell::Word(name),
        Cell::Number(u64::from(order.number.get())),
        Cell::Day(order.opened.date()),
        Cell::Word(order.clerk.as_str()),
        Cell::Word(order.text.as_str()),
    )
}

/// The record of an order on an intersection of this name.
fn order_record(alloc: Global, open: &OpenOrder, name: &str) -> Result<ByteRecord, NoMemory> {
    let (id, name, number, opened, clerk, text) = order_cells(open, name);
    let cells = [id, name, number, opened, clerk, text];
    record_of(alloc, &cells)
}

const HEADING: &str = "    No   Order  Opened      Clerk         Text\n";

const COLUMNS: [Column; 5] = [
    Column::Right(0, 6),
    Column::Right(2, 8),
    Column::Left(3, 0),
    Column::Left(4, 12),
    Column::Left(5, 0),
];

/// The list of open orders, as lines of UTF-8: the number of each one's intersection, its own
/// number, the day on which it was opened, as `YYYY-MM-DD`, the clerk who opened it, and what is to
/// be done; then their count.
pub fn orders_text(alloc: Global, orders: &[OpenOrder]) -> Result<Vec<u8>, NoMemory> {
    let mut records = Vec::new(alloc);
    for open in orders {
        records.push(order_record(alloc, open, "")?)?;
    }
    print_lines(alloc, HEADING, &COLUMNS, &records)
}

const NAMED_HEADING: &str =
    "    No   Order  Opened      Clerk         Name                      Text\n";

const NAMES: [&str; 6] = ["intersection", "name", "order", "opened", "clerk", "text"];

const NAMED_COLUMNS: [Column; 6] = [
    Column::Right(0, 6),
    Column::Right(2, 8),
    Column::Left(3, 0),
    Column::Left(4, 12),
    Column::Left(1, 24),
    Column::Left(5, 0),
];

/// The list of open orders of several intersections, in UTF-8: the number of each one's
/// intersection, its own number, the day on which it was opened, as `YYYY-MM-DD`, the clerk who
/// opened it, the name of the intersection, and what is to be done; then their count. As CSV a
/// record for each, with the name after the number of the intersection.
pub fn orders_list(
    alloc: Global,
    style: ListStyle,
    orders: &[NamedOrder],
) -> Result<Vec<u8>, NoMemory> {
    let mut records = first_records(alloc, style, &NAMES)?;
    for order in orders {
        records.push(order_record(alloc, &order.listed, order.name.as_str())?)?;
    }
    print_list(alloc, style, NAMED_HEADING, &NAMED_COLUMNS, &records)
}

const AGE_HEADING: &str =
    "   Age    No   Order  Opened      Clerk         Name                      Text\n";

const AGE_NAMES: [&str; 7] = [
    "age",
    "intersection",
    "name",
    "order",
    "opened",
    "clerk",
    "text",
];

const AGE_COLUMNS: [Column; 7] = [
    Column::Right(0, 6),
    Column::Right(1, 6),
    Column::Right(3, 8),
    Column::Left(4, 0),
    Column::Left(5, 12),
    Column::Left(2, 24),
    Column::Left(6, 0),
];

/// The list of the open orders that were opened on a day or before, the oldest first, in UTF-8: the
/// days from each one's opening to that day, and then what `orders_list` shows. As CSV a record for
/// each, with the age first.
pub fn orders_by_age(
    alloc: Global,
    style: ListStyle,
    day: Day,
    mut orders: Vec<NamedOrder>,
) -> Result<Vec<u8>, NoMemory> {
    orders.sort_by_key(|order| order.listed.order.opened)?;
    let mut records = first_records(alloc, style, &AGE_NAMES)?;
    for order in &orders {
        let opened = order.listed.order.opened;
        if opened <= day {
            let age = day.number().saturating_sub(opened.number());
            let (id, name, number, opened, clerk, text) = order_cells(
                &order.listed,
                order.name.as_str(),
            );
            let age = Cell::Number(u64::from(age));
            let cells = [age, id, name, number, opened, clerk, text];
            records.push(record_of(alloc, &cells)?)?;
        }
    }
    print_list(alloc, style, AGE_HEADING, &AGE_COLUMNS, &records)
}
