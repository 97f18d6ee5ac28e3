//! The index page of an office: its intersections, the open orders on them, and the stock.

use super::cell::{Cell, due_cell, last_cell, push_date};
use super::document::{END, push_head};
use super::shown::{IndexEntry, IndexShown};
use super::table::{Column, close_table, open_table, push_row};
use cabinet_core::{Day, Hand, PartCode, due};
use office_files::state_word;
use office_machine::orders::NamedOrder;
use safe_markup::Markup;
use signal_records::NoMemory;
use std::alloc::Global;
use std::fmt;

const INTERSECTION_COLUMNS: [Column; 10] = [
    Column::Numbers("No"),
    Column::Words("Name"),
    Column::Words("Next inspection due"),
    Column::Numbers("Open orders"),
    Column::Numbers("Warnings"),
    Column::Words("State"),
    Column::Words("Draft of"),
    Column::Numbers("Revision"),
    Column::Numbers("Committed rows"),
    Column::Words("Last inspection"),
];

const ORDER_COLUMNS: [Column; 6] = [
    Column::Numbers("No"),
    Column::Numbers("Order"),
    Column::Words("Opened"),
    Column::Words("Work"),
    Column::Words("Name"),
    Column::Words("Clerk"),
];

const STOCK_COLUMNS: [Column; 2] = [Column::Words("Part"), Column::Numbers("On hand (pieces)")];

/// Whether an intersection is overdue for an inspection on the day; without a day, it is not.
fn is_overdue(entry: &IndexEntry, day: &Option<Day>) -> bool {
    match (day, &entry.last) {
        (None, _) => false,
        (Some(_), None) => true,
        (Some(day), Some(last)) => due(*last, entry.listed.interval) < day.date(),
    }
}

fn push_entry(page: &mut Markup, entry: &IndexEntry, overdue: bool) -> fmt::Result {
    let listed = &entry.listed;
    let holder = match &listed.holder {
        None => Cell::Words("nobody"),
        Some(holder) => Cell::Name(holder.owner.as_str()),
    };
    let cells = [
        Cell::Link(listed.id.get()),
        Cell::Name(listed.name.as_str()),
        due_cell(entry.last, listed.interval, overdue),
        Cell::Number(entry.open_orders as u64),
        Cell::Number(entry.warnings as u64),
        Cell::Words(state_word(&listed.holder)),
        holder,
        Cell::Number(u64::from(listed.revision.get())),
        Cell::Number(listed.rows as u64),
        last_cell(entry.last),
    ];
    push_row(page, "<tr>", &cells, &[])
}

/// Writes the table of the intersections, the overdue ones on the day first.
fn push_intersections(page: &mut Markup, entries: &[IndexEntry], day: &Option<Day>) -> fmt::Result {
    let is_empty = entries.is_empty();
    open_table(page, "Intersections", "", &INTERSECTION_COLUMNS, is_empty)?;
    for overdue in [true, false] {
        for entry in entries {
            if is_overdue(entry, day) == overdue {
                push_entry(page, entry, overdue)?;
            }
        }
    }
    close_table(page)
}

fn push_orders(page: &mut Markup, orders: &[NamedOrder]) -> fmt::Result {
    open_table(page, "Open orders", "", &ORDER_COLUMNS, orders.is_empty())?;
    for named in orders {
        let order = &named.listed.order;
        let cells = [
            Cell::Link(named.listed.id.get()),
            Cell::Number(u64::from(order.number.get())),
            Cell::Day(order.opened.date()),
            Cell::Name(order.text.as_str()),
            Cell::Name(named.name.as_str()),
            Cell::Name(order.clerk.as_str()),
        ];
        push_row(page, "<tr>", &cells, &[])?;
    }
    close_table(page)
}

fn push_stock(page: &mut Markup, stock: &[(PartCode, Hand)]) -> fmt::Result {
    open_table(page, "Stock", "", &STOCK_COLUMNS, stock.is_empty())?;
    for (part, hand) in stock {
        let cells = [
            Cell::Name(part.as_str()),
            Cell::Number(u64::from(hand.get())),
        ];
        push_row(page, "<tr>", &cells, &[])?;
    }
    close_table(page)
}

/// Writes how many of the intersections are overdue on the day; nothing without a day.
fn push_day_note(page: &mut Markup, entries: &[IndexEntry], day: &Option<Day>) -> fmt::Result {
    let Some(given) = day else {
        return Ok(());
    };
    let overdue = entries
        .iter()
        .filter(|entry| is_overdue(entry, day))
        .count();
    page.own("<p>Inspections overdue on <strong>")?;
    push_date(page, given.date())?;
    page.enclose("</strong>: ", &overdue, " of ")?;
    page.enclose("", &entries.len(), ".</p>\n")
}

fn push_index(
    page: &mut Markup,
    shown: &IndexShown,
    stock: &[(PartCode, Hand)],
    day: &Option<Day>,
) -> fmt::Result {
    let entries = shown.entries.as_slice();
    push_head(page, "Intersections")?;
    page.own("<body>\n<header>\n<h1>Intersections</h1>\n")?;
    push_day_note(page, entries, day)?;
    page.own("</header>\n<main>\n")?;
    push_intersections(page, entries, day)?;
    push_orders(page, shown.orders.as_slice())?;
    push_stock(page, stock)?;
    page.own(END)
}

/// The index page of an office as one HTML text in UTF-8: its intersections, with those whose
/// inspection is overdue on the day first and marked, the open orders on all of them, and the
/// stock. Each intersection links to its page beside the index, as `7.html`.
pub fn index_page(
    alloc: Global,
    shown: &IndexShown,
    stock: &[(PartCode, Hand)],
    day: Option<Day>,
) -> Result<Vec<u8>, NoMemory> {
    let mut page = Markup::new(alloc);
    push_index(&mut page, shown, stock, &day).map_err(|_| NoMemory)?;
    Ok(page.into_bytes())
}
