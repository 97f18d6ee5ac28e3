//! The list of the parts on hand.

use super::list::{Cell, Column, ListStyle, first_records, print_list, record_of};
use cabinet_core::{Hand, PartCode};
use signal_records::NoMemory;
use std::alloc::Global;

/// The columns of a list of parts: how many of each, and its code.
pub(crate) const PART_COLUMNS: [Column; 2] = [Column::Right(1, 10), Column::Left(0, 0)];

/// What is on hand, in UTF-8: how many there are of each part, and its code; then the count of the
/// parts. As CSV a record for each, with the code first.
pub fn stock_list(
    alloc: Global,
    style: ListStyle,
    parts: &[(PartCode, Hand)],
) -> Result<Vec<u8>, NoMemory> {
    let mut records = first_records(alloc, style, &["part", "count"])?;
    for (part, hand) in parts {
        let cells = [
            Cell::Word(part.as_str()),
            Cell::Number(u64::from(hand.get())),
        ];
        records.push(record_of(alloc, &cells)?)?;
    }
    print_list(alloc, style, "     Count  Part\n", &PART_COLUMNS, &records)
}
