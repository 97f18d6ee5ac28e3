//! The register of a cabinet: the due day, the next free numbers, open orders, closed ones and
//! inspections, each table with the greatest numbers first.

use super::cell::{Cell, push_date};
use super::table::{Column, close_table, open_table, push_row};
use cabinet_core::{CabinetView, Inspection, Order, UsedLine, due, latest};
use office_files::push_next_numbers;
use safe_markup::Markup;
use signal_records::Interval;
use std::alloc::{AllocError, Global};
use std::fmt;

/// The columns of orders. Open ones do not have the last two.
const ORDER_COLUMNS: [Column; 7] = [
    Column::Numbers("Order"),
    Column::Words("Opened"),
    Column::Words("Clerk"),
    Column::Words("Work"),
    Column::Words("Lines: parts used (pieces)"),
    Column::Words("Closed"),
    Column::Words("Closed by"),
];

const INSPECTION_COLUMNS: [Column; 4] = [
    Column::Numbers("Inspection"),
    Column::Words("Day"),
    Column::Words("Clerk"),
    Column::Words("Findings"),
];

/// The cells of an order, with those of its closing, if it is closed.
fn order_cells<'a>(
    alloc: Global,
    lines: &'a [UsedLine],
    order: &'a Order,
) -> Result<Vec<Cell<'a>>, AllocError> {
    let mut cells = Vec::new(alloc);
    cells.extend_from_slice(&[
        Cell::Head(order.number.get()),
        Cell::Day(order.opened.date()),
        Cell::Name(order.clerk.as_str()),
        Cell::Name(order.text.as_str()),
        Cell::Parts(lines, order.number),
    ])?;
    if let Some(closing) = &order.closing {
        let day = Cell::Day(closing.day.date());
        cells.extend_from_slice(&[day, Cell::Name(closing.closer.as_str())])?;
    }
    Ok(cells)
}

/// Writes the table of the closed orders of a cabinet, or of the open ones.
fn push_orders(
    page: &mut Markup,
    name: &'static str,
    columns: &[Column],
    view: &CabinetView,
    closed: bool,
) -> fmt::Result {
    let orders = view.orders.as_slice();
    let is_shown = orders.iter().any(|order| order.closing.is_some() == closed);
    open_table(page, name, "", columns, !is_shown)?;
    for order in orders.iter().rev() {
        if order.closing.is_some() == closed {
            let cells = order_cells(page.alloc(), view.lines.as_slice(), order)?;
            push_row(page, "<tr>", &cells, &[])?;
        }
    }
    close_table(page)
}

fn push_inspections(page: &mut Markup, inspections: &[Inspection]) -> fmt::Result {
    let is_empty = inspections.is_empty();
    open_table(page, "Inspections", "", &INSPECTION_COLUMNS, is_empty)?;
    for inspection in inspections.iter().rev() {
        let cells = [
            Cell::Head(inspection.number.get()),
            Cell::Day(inspection.day.date()),
            Cell::Name(inspection.clerk.as_str()),
            Cell::Name(inspection.text.as_str()),
        ];
        push_row(page, "<tr>", &cells, &[])?;
    }
    close_table(page)
}

/// Writes when the next inspection is due, how many days there are from one inspection to the
/// next, and the numbers that the next inspection and the next order may have.
fn push_notes(page: &mut Markup, interval: Interval, view: &CabinetView) -> fmt::Result {
    match latest(view.inspections.as_slice()) {
        None => page.own("<p>It was never inspected.")?,
        Some(latest) => {
            page.own("<p>The next inspection is due on <strong>")?;
            push_date(page, due(latest, interval))?;
            page.own("</strong>.")?;
        }
    }
    let mut next = String::new(page.alloc());
    push_next_numbers(&mut next, view)?;
    page.own(" Days from one inspection to the next: ")?;
    page.enclose("", &interval.get(), ".</p>\n")?;
    page.enclose("<p>", &next, "</p>\n")
}

/// Writes the section of the cabinet, whose inspections have this interval.
pub(crate) fn push_cabinet(
    page: &mut Markup,
    interval: Interval,
    view: &CabinetView,
) -> fmt::Result {
    page.own("<section id='cabinet' aria-labelledby='cabinet-title'>\n")?;
    page.own("<h2 id='cabinet-title'>The cabinet</h2>\n")?;
    push_notes(page, interval, view)?;
    push_orders(page, "Open orders", &ORDER_COLUMNS[..5], view, false)?;
    push_orders(page, "Closed orders", &ORDER_COLUMNS, view, true)?;
    push_inspections(page, view.inspections.as_slice())?;
    page.own("</section>\n")
}
