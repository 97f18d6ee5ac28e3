//! The list of the intersections, and the list of the overdue inspections.

use super::list::{Cell, Column, ListStyle, first_records, print_csv, print_list, record_of};
use cabinet_core::OverdueRow;
use office_files::state_word;
use office_machine::intersections::ListedIntersection;
use signal_records::NoMemory;
use std::alloc::Global;

const HEADING: &str = "    No     Rev  State        Owner         Rows  Days  Name\n";

const NAMES: [&str; 7] = ["id", "revision", "state", "owner", "rows", "name", "days"];

const COLUMNS: [Column; 7] = [
    Column::Right(0, 6),
    Column::Right(1, 8),
    Column::Left(2, 11),
    Column::Left(3, 12),
    Column::Right(4, 6),
    Column::Right(6, 6),
    Column::Left(5, 0),
];

/// The list of intersections in UTF-8: the number of each, its revision, state, owner or `-`,
/// number of committed rows, days from one inspection to the next, and name; then their count. As
/// CSV a record for each, with the name before the days, and nothing in place of `-`.
pub fn intersections_list(
    alloc: Global,
    style: ListStyle,
    list: &[ListedIntersection],
) -> Result<Vec<u8>, NoMemory> {
    let mut records = first_records(alloc, style, &NAMES)?;
    for listed in list {
        // A clerk may be called `-`, so nobody is an empty word, which CSV shows as it is.
        let owner = match &listed.holder {
            None => "",
            Some(holder) => holder.owner.as_str(),
        };
        let cells = [
            Cell::Number(u64::from(listed.id.get())),
            Cell::Number(u64::from(listed.revision.get())),
            Cell::Word(state_word(&listed.holder)),
            Cell::Word(owner),
            Cell::Number(listed.rows as u64),
            Cell::Word(listed.name.as_str()),
            Cell::Number(u64::from(listed.interval.get())),
        ];
        records.push(record_of(alloc, &cells)?)?;
    }
    print_list(alloc, style, HEADING, &COLUMNS, &records)
}

/// The overdue intersections as CSV, in UTF-8: a record for each, in order, with its number, its
/// name, and the day on which its inspection fell due, as `YYYY-MM-DD`, or nothing if there never
/// was an inspection. The first record has the names of these fields, if the style asks for it.
pub fn overdue_csv(
    alloc: Global,
    style: ListStyle,
    rows: &[OverdueRow],
) -> Result<Vec<u8>, NoMemory> {
    let mut records = first_records(alloc, style, &["id", "name", "due"])?;
    for row in rows {
        let due = match row.due {
            None => Cell::Word(""),
            Some(due) => Cell::Day(due),
        };
        let cells = [
            Cell::Number(u64::from(row.id.get())),
            Cell::Word(row.name.as_str()),
            due,
        ];
        records.push(record_of(alloc, &cells)?)?;
    }
    print_csv(alloc, &records)
}
