//! The report on records that were tried: those that would be refused, and the counts.

use cabinet_core::{Closing, Day, Order, push_date};
use office_desk::{Checked, There};
use office_machine::refusal::Refusal;
use signal_office_faults::line_of_record;
use signal_records::{NoMemory, Words};
use std::alloc::{AllocError, Global};
use std::fmt::Write;

/// Appends a day, a clerk and a text: `2026-03-01 Ana Fan cleaned`.
fn push_by(
    text: &mut String,
    day: Day,
    clerk: &Words<40>,
    what: &Words<500>,
) -> Result<(), AllocError> {
    push_date(text, day.date())?;
    text.push_str(" ")?;
    text.push_str(clerk.as_str())?;
    text.push_str(" ")?;
    text.push_str(what.as_str())
}

/// Appends how an order was closed, if it was: `, closed 2026-05-02 Bo`.
fn push_closed(text: &mut String, closing: &Option<Closing>) -> Result<(), AllocError> {
    let Some(closing) = closing else {
        return Ok(());
    };
    text.push_str(", closed ")?;
    push_date(text, closing.day.date())?;
    text.push_str(" ")?;
    text.push_str(closing.closer.as_str())
}

/// Appends a work order: `2026-03-01 Ana Fan is loud, closed 2026-05-02 Bo`.
fn push_order(text: &mut String, order: &Order) -> Result<(), AllocError> {
    push_by(text, order.opened, &order.clerk, &order.text)?;
    push_closed(text, &order.closing)
}

/// Appends what the register holds where it refuses a record: a record, or the pieces on hand, as
/// `: RELAY, 2 on hand`; or nothing.
fn push_there(text: &mut String, there: &There) -> Result<(), AllocError> {
    match there {
        There::Nothing => Ok(()),
        There::Inspection(inspection) => {
            text.push_str(": there is ")?;
            push_by(text, inspection.day, &inspection.clerk, &inspection.text)
        }
        There::Order(order) => {
            text.push_str(": there is ")?;
            push_order(text, order)
        }
        There::UsedLine(line) => {
            let part = line.part.as_str();
            let count = line.count.get();
            write!(text, ": there is {part} {count}")
        }
        There::Delivery(delivery) => {
            let count = delivery.count.get();
            text.push_str(": there is ")?;
            push_date(text, delivery.day.date())?;
            write!(text, " {count}")
        }
        There::OnHand(part, count) => {
            let part = part.as_str();
            write!(text, ": {part}, {count} on hand")
        }
    }
}

/// Appends the line of a refused record: `record 5, line 6: NoStock: RELAY, 2 on hand`.
fn push_refused(
    text: &mut String,
    at: usize,
    line: usize,
    refusal: Refusal,
    there: &There,
) -> Result<(), AllocError> {
    let name = refusal.name();
    write!(text, "record {at}, line {line}: {name}")?;
    push_there(text, there)?;
    text.push_str("\n")
}

/// Appends a line for each record that would be refused, with its number, counted from 1, and the
/// line on which it begins, from `lines`.
fn push_all(text: &mut String, lines: &[usize], all: &[Checked]) -> Result<(), AllocError> {
    for (index, checked) in all.iter().enumerate() {
        if let Checked::Refused { refusal, there } = checked {
            let line = line_of_record(lines, index + 1);
            push_refused(text, index + 1, line, *refusal, there)?;
        }
    }
    Ok(())
}

/// A line for each record that would be refused, with its number, the line of the file on which it
/// begins, the name of the refusal, and what the register holds; then a line with the counts.
pub(crate) fn checks_text(
    alloc: Global,
    lines: &[usize],
    all: &[Checked],
    refused: usize,
) -> Result<Vec<u8>, NoMemory> {
    let added = all
        .iter()
        .filter(|&it| matches!(it, Checked::Added))
        .count();
    let same = all.iter().filter(|&it| matches!(it, Checked::Same)).count();
    let mut text = String::new(alloc);
    push_all(&mut text, lines, all)?;
    writeln!(text, "would add {added}, same {same}, refused {refused}")?;
    Ok(text.into_bytes())
}
