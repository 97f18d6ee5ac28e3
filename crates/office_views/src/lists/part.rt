//! A part, its deliveries and its uses, as lines.

use super::list::{Cell, Column, push_lines, record_of};
use super::used::UsedPart;
use cabinet_core::{Delivery, Hand, PartCode};
use csv::ByteRecord;
use signal_records::{NoMemory, RecordNo};
use std::alloc::{AllocError, Global};
use std::fmt::Write;

/// A part, as an office holds it.
#[derive(Clone, Copy)]
pub struct PartShown<'a> {
    pub part: &'a PartCode,
    /// How many pieces are on hand; none if there never was a delivery of it.
    pub hand: Option<Hand>,
    /// Its deliveries, by number.
    pub deliveries: &'a [Delivery],
    /// What was used of it, by intersection, order and line.
    pub used: &'a [UsedPart],
}

/// The number after the last delivery's; none if that is 999999.
fn next_number(deliveries: &[Delivery]) -> Option<RecordNo> {
    let last = match deliveries.last() {
        Some(delivery) => delivery.number.get(),
        None => 0,
    };
    RecordNo::new(last.saturating_add(1))
}

/// The first lines: the part, how many pieces are on hand, and the next free number of a delivery.
fn title(alloc: Global, shown: &PartShown<'_>) -> Result<String, AllocError> {
    let part = shown.part.as_str();
    let mut text = format!(in alloc; "Part {part}: ")?;
    match shown.hand {
        None => text.push_str("never delivered\n")?,
        Some(hand) => writeln!(text, "{} on hand", hand.get())?,
    }
    text.push_str("next free delivery number: ")?;
    match next_number(shown.deliveries) {
        None => text.push_str("none\n")?,
        Some(number) => writeln!(text, "{}", number.get())?,
    }
    Ok(text)
}

fn delivery_records(alloc: Global, deliveries: &[Delivery]) -> Result<Vec<ByteRecord>, NoMemory> {
    let mut records = Vec::new(alloc);
    for delivery in deliveries {
        let cells = [
            Cell::Number(u64::from(delivery.number.get())),
            Cell::Day(delivery.day.date()),
            Cell::Number(u64::from(delivery.count.get())),
        ];
        records.push(record_of(alloc, &cells)?)?;
    }
    Ok(records)
}

fn use_records(alloc: Global, used: &[UsedPart]) -> Result<Vec<ByteRecord>, NoMemory> {
    let mut records = Vec::new(alloc);
    for it in used {
        let cells = [
            Cell::Number(u64::from(it.id.get())),
            Cell::Number(u64::from(it.used.order.get())),
            Cell::Number(u64::from(it.used.line.get())),
            Cell::Number(u64::from(it.used.count.get())),
        ];
        records.push(record_of(alloc, &cells)?)?;
    }
    Ok(records)
}

/// The last line: how many deliveries and uses there are, with their pieces.
fn counts(alloc: Global, shown: &PartShown<'_>) -> Result<String, AllocError> {
    let came = shown.deliveries.iter().fold(0u64, |sum, it| {
        sum.saturating_add(u64::from(it.count.get()))
    });
    let went = shown.used.iter().fold(0u64, |sum, it| {
        sum.saturating_add(u64::from(it.used.count.get()))
    });
    let (deliveries, uses) = (shown.deliveries.len(), shown.used.len());
    format!(in alloc; "Count {deliveries} deliveries of {came}, {uses} uses of {went}\n")
}

const DELIVERY_COLUMNS: [Column; 3] = [
    Column::Right(0, 8),
    Column::Left(1, 0),
    Column::Right(2, 11),
];

const USE_COLUMNS: [Column; 4] = [
    Column::Right(0, 8),
    Column::Right(1, 8),
    Column::Right(2, 6),
    Column::Right(3, 11),
];

/// What an office holds of a part, as lines of UTF-8: how many pieces are on hand, and the number
/// that the next delivery may have; its deliveries, each with its number, its day, as `YYYY-MM-DD`,
/// and its pieces; its uses, each with the numbers of the intersection, of the order and of the
/// line, and its pieces; and how many deliveries and uses there are.
pub fn part_text(alloc: Global, shown: &PartShown<'_>) -> Result<Vec<u8>, NoMemory> {
    let deliveries = delivery_records(alloc, shown.deliveries)?;
    let uses = use_records(alloc, shown.used)?;
    let mut text = title(alloc, shown)?.into_bytes();
    let heading = "Deliveries\n  Number  Day             Count\n";
    push_lines(&mut text, heading, &DELIVERY_COLUMNS, &deliveries)?;
    let heading = "Uses\n      No   Order  Line      Count\n";
    push_lines(&mut text, heading, &USE_COLUMNS, &uses)?;
    text.extend_from_slice(counts(alloc, shown)?.as_bytes())?;
    Ok(text)
}
